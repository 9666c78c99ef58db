//! Bytes that a text spells, and the names that a file gives some of them.

use crate::fault::Fault;
use std::alloc::Global;
use test_kit::SpellingError;

/// A name, and the bytes that it stands for.
#[derive(Drop)]
struct Name<'a> {
    name: &'a str,
    bytes: Vec<u8>,
}

/// The names of a file, each with its bytes.
#[derive(Drop)]
pub(crate) struct Names<'a> {
    list: Vec<Name<'a>>,
}

impl<'a> Names<'a> {
    /// No names.
    pub(crate) fn new(alloc: Global) -> Names<'a> {
        Names {
            list: Vec::new(alloc),
        }
    }

    /// Names bytes, as `GREETING = 4E42 4D41`.
    pub(crate) fn add(&mut self, alloc: Global, text: &'a str) -> Result<(), Fault> {
        let Some((name, spelled)) = text.split_once(" = ") else {
            return Err(Fault::NotUnderstood);
        };
        let bytes = self.bytes_of(alloc, spelled)?;
        self.list.push(Name { name, bytes })?;
        Ok(())
    }

    /// The bytes that a word stands for, where it is a name.
    fn find(&self, word: &str) -> Option<&[u8]> {
        for name in self.list.iter() {
            if name.name == word {
                return Some(name.bytes.as_slice());
            }
        }
        None
    }

    /// Appends the bytes of one word: a name, hexadecimal digits, or `DIGITS*COUNT`.
    fn push_word(&self, alloc: Global, bytes: &mut Vec<u8>, word: &str) -> Result<(), Fault> {
        if let Some(found) = self.find(word) {
            bytes.extend_from_slice(found)?;
            return Ok(());
        }
        match test_kit::bytes_of(alloc, word) {
            Ok(more) => {
                bytes.extend_from_slice(more.as_slice())?;
                Ok(())
            }
            Err(SpellingError::NoMemory) => Err(Fault::NoMemory),
            Err(_) => Err(Fault::NotUnderstood),
        }
    }

    /// The bytes that the words of a text spell.
    pub(crate) fn bytes_of(&self, alloc: Global, text: &str) -> Result<Vec<u8>, Fault> {
        let mut bytes = Vec::new(alloc);
        for word in text.split(' ') {
            self.push_word(alloc, &mut bytes, word)?;
        }
        Ok(bytes)
    }

    /// The records that a text spells, of the connection of this number: `D` with the bytes of a
    /// reply behind it, and the letters that end an event.
    pub(crate) fn records_of(&self, alloc: Global, who: u8, text: &str) -> Result<Vec<u8>, Fault> {
        let mut records = Vec::new(alloc);
        let mut reply = Vec::new(alloc);
        let mut is_reply = false;
        for word in text.split(' ') {
            if word.len() != 1 {
                if !is_reply {
                    return Err(Fault::NotUnderstood);
                }
                self.push_word(alloc, &mut reply, word)?;
            } else {
                if is_reply {
                    push_record(&mut records, who, b'D', reply.as_slice())?;
                    reply.clear();
                }
                is_reply = word == "D";
                if !is_reply {
                    push_record(&mut records, who, letter(word)?, &[])?;
                }
            }
        }
        if is_reply {
            push_record(&mut records, who, b'D', reply.as_slice())?;
        }
        Ok(records)
    }
}

/// The kind of an ending record.
fn letter(word: &str) -> Result<u8, Fault> {
    match word {
        "A" => Ok(b'A'),
        "X" => Ok(b'X'),
        "L" => Ok(b'L'),
        "N" => Ok(b'N'),
        "E" => Ok(b'E'),
        _ => Err(Fault::NotUnderstood),
    }
}

/// Appends a record of a transcript.
pub(crate) fn push_record(
    records: &mut Vec<u8>,
    who: u8,
    kind: u8,
    bytes: &[u8],
) -> Result<(), Fault> {
    let Ok(len) = u32::try_from(bytes.len()) else {
        return Err(Fault::NotUnderstood);
    };
    records.push(who)?;
    records.push(kind)?;
    records.extend_from_slice(&len.to_be_bytes())?;
    records.extend_from_slice(bytes)?;
    Ok(())
}
