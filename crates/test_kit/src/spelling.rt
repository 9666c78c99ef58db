//! Bytes that a text spells, for tests whose bytes are written out by hand.
//!
//! Promised to the crate above: `bytes_of` answers the bytes that a text spells (`spelled`), what
//! is wrong with its first word that spells none, or want of memory. Words stand with one space
//! between them: an even number of hexadecimal digits for as many bytes as half of them, read by
//! `hex`, and `DIGITS*COUNT` for these bytes so many times, as in `00*512`. Source: own.

ghost use Rattle.std.specs.Prelude.{◌≡◌, ◌⊎◌, ◌++◌, IfErr, IfOk, MatchResult};
ghost use Rattle.std.specs.Prelude.{Err, Ok};
ghost use Rattle.std.specs.List.{repeat};
ghost use Rattle.test_kit.specs.Spelled.{fault_from, spelled, word_bytes};

use hex::FromHexError;
use std::alloc::{AllocError, Global};

/// Why a text spells no bytes.
#[derive(Clone, Copy, Debug, Drop)]
pub enum SpellingError {
    /// There was no memory for the bytes.
    NoMemory,
    /// A word has a character that is no hexadecimal digit, or an odd number of digits.
    NoDigits,
    /// What follows a `*` is no number below 2^32.
    NoCount,
}

/// Appends bytes, so many times.
fn push_repeated(bytes: &mut Vec<u8>, other: &[u8], count: u32) -> Result<(), AllocError>
    ensures items { IfOk result (λ _. bytes.new.items ≡ bytes.old.items ++ repeat count other.now) }
{
    for _ in 0..count {
        bytes.extend_from_slice(other)?;
    }
    Ok(())
}

/// Why a word spells no bytes where its digits could not be decoded.
fn fault_of(error: FromHexError) -> SpellingError
    ensures { result ≡ fault_from error }
{
    match error {
        FromHexError::OutOfMemory => SpellingError::NoMemory,
        _ => SpellingError::NoDigits,
    }
}

/// Appends the bytes of one word.
fn push_word(alloc: Global, bytes: &mut Vec<u8>, word: &str) -> Result<(), SpellingError>
    ensures items { IfOk result (λ _. MatchResult (word_bytes word.now)
        (λ spelled. bytes.new.items ≡ bytes.old.items ++ spelled) (λ _. ⊥)) }
    ensures fault { IfErr result (λ e. (e ≡ SpellingError.NoMemory)
        ⊎ (word_bytes word.now ≡ Err e)) }
{
    let (digits, count) = word.split_once('*').unwrap_or((word, "1"));
    let Ok(count) = count.parse::<u32>() else {
        return Err(SpellingError::NoCount);
    };
    let spelled = match hex::decode(alloc, digits) {
        Ok(spelled) => spelled,
        Err(error) => return Err(fault_of(error)),
    };
    match push_repeated(bytes, spelled.as_slice(), count) {
        Ok(()) => Ok(()),
        Err(AllocError) => Err(SpellingError::NoMemory),
    }
}

/// The bytes that a text spells: words of hexadecimal digits, and `DIGITS*COUNT` for bytes so many
/// times, with one space between two words. None for the empty text.
///
/// Fails with `NoMemory` where there is no room for the bytes; else with what is wrong with the
/// first word that spells none: `NoCount` before `NoDigits`.
pub fn bytes_of(alloc: Global, text: &str) -> Result<Vec<u8>, SpellingError>
    ensures bytes { IfOk result (λ v. spelled text.now ≡ Ok v.items) }
    ensures fault { IfErr result (λ e. (e ≡ SpellingError.NoMemory) ⊎ (spelled text.now ≡ Err e)) }
{
    let mut bytes = Vec::new(alloc);
    for word in text.split(' ') {
        push_word(alloc, &mut bytes, word)?;
    }
    Ok(bytes)
}
