//! Scripts and transcripts out of texts with names.

use crate::phrases::PHRASES;
use std::alloc::Global;
use std::test::*;
use test_kit;

/// The bytes that a text spells: words of hexadecimal digits, `BYTE*COUNT` for a byte so many
/// times, and names of the table.
pub(crate) fn bytes_of(alloc: Global, text: &str) -> Result<Vec<u8>, Fail> {
    let mut bytes = Vec::new(alloc);
    for word in text.split(' ') {
        bytes.extend_from_slice(test_kit::bytes_of(alloc, named(word))?.as_slice())?;
    }
    Ok(bytes)
}

/// The text that a name represents in a table, where it is there.
fn found_in(table: &'static [&'static str], word: &str) -> Option<&'static str> {
    for phrase in table {
        if let Some((name, text)) = phrase.split_once(' ')
            && name == word
        {
            return Some(text);
        }
    }
    None
}

/// The text that a name represents, or the word itself.
fn named(word: &str) -> &str {
    match found_in(&PHRASES, word) {
        Some(text) => text,
        None => word,
    }
}
