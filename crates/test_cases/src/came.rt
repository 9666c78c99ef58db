//! What came of a line, whether it is what was wanted, and how it is told.

use crate::fault::Fault;
use crate::names::Names;
use std::alloc::Global;

/// What came of a line.
#[derive(Drop)]
pub(crate) enum Came {
    /// A word, or a few.
    Said(&'static str),
    /// A number.
    Number(u32),
    /// A text that was put together.
    Text(String),
    /// Bytes.
    Bytes(Vec<u8>),
    /// Records of a transcript, those of the connection of this number.
    Records(u8, Vec<u8>),
    /// How a script ended, and its transcript.
    Ended(&'static str, Vec<u8>),
}

/// Whether bytes are those that a text spells.
fn spells(bytes: &[u8], spelled: Result<Vec<u8>, Fault>) -> Result<bool, Fault> {
    match spelled {
        Ok(wanted) => Ok(wanted.as_slice() == bytes),
        Err(Fault::NoMemory) => Err(Fault::NoMemory),
        Err(Fault::NotUnderstood) => Ok(false),
    }
}

impl Came {
    /// Whether the power was lost.
    pub(crate) fn is_cut(&self) -> bool {
        match self {
            Came::Said(word) => *word == "cut",
            Came::Records(_, records) => ends_lost(records.as_slice()),
            _ => false,
        }
    }

    /// Whether this is what one of the texts between two ` or ` says.
    pub(crate) fn is(&self, alloc: Global, names: &Names, wanted: &str) -> Result<bool, Fault> {
        for one in wanted.split(" or ") {
            if self.is_one(alloc, names, one)? {
                return Ok(true);
            }
        }
        Ok(false)
    }

    /// Whether this is what a text says.
    fn is_one(&self, alloc: Global, names: &Names, wanted: &str) -> Result<bool, Fault> {
        match self {
            Came::Said(word) => Ok(*word == wanted),
            Came::Number(number) => Ok(wanted.parse::<u32>().ok() == Some(*number)),
            Came::Text(text) => Ok(text.as_str() == wanted),
            Came::Bytes(bytes) => spells(bytes.as_slice(), names.bytes_of(alloc, wanted)),
            Came::Records(who, records) => {
                spells(records.as_slice(), names.records_of(alloc, *who, wanted))
            }
            Came::Ended(end, bytes) => match wanted.split_once(" after ") {
                Some((word, text)) => {
                    Ok(word == *end && spells(bytes.as_slice(), names.bytes_of(alloc, text))?)
                }
                None => Ok(
                    *end == "ok" && spells(bytes.as_slice(), names.bytes_of(alloc, wanted))?,
                ),
            },
        }
    }

    /// How it is told.
    pub(crate) fn tell(&self, alloc: Global) -> Result<String, Fault> {
        match self {
            Came::Said(word) => Ok(String::from_str(alloc, word)?),
            Came::Number(number) => Ok(format!(in alloc; "{number}")?),
            Came::Text(text) => Ok(String::from_str(alloc, text.as_str())?),
            Came::Bytes(bytes) => {
                let mut text = String::new(alloc);
                tell_bytes(&mut text, alloc, bytes.as_slice())?;
                Ok(text)
            }
            Came::Records(who, records) => tell_records(alloc, *who, records.as_slice()),
            Came::Ended(end, bytes) => {
                let mut text = String::from_str(alloc, end)?;
                text.push_str(" after")?;
                tell_bytes(&mut text, alloc, bytes.as_slice())?;
                Ok(text)
            }
        }
    }
}

/// Whether the last of these records says that the power was lost.
fn ends_lost(records: &[u8]) -> bool {
    match records {
        [.., kind, 0, 0, 0, 0] => *kind == b'L',
        _ => false,
    }
}

/// How many bytes at the beginning are the same.
fn run_len(bytes: &[u8], byte: u8) -> usize {
    let mut n = 0usize;
    for found in bytes.iter() {
        if *found != byte {
            return n;
        }
        n = n.saturating_add(1);
    }
    n
}

/// The most words that are told of bytes.
const MOST: usize = 600;

/// Appends bytes, a run of at least four as `11*512`. Past the six-hundredth word no more is told.
fn tell_bytes(text: &mut String, alloc: Global, bytes: &[u8]) -> Result<(), Fault> {
    let mut rest = bytes;
    for _ in 0..MOST {
        let Some(byte) = rest.first() else {
            return Ok(());
        };
        if !text.is_empty() {
            text.push_str(" ")?;
        }
        let run = run_len(rest, *byte);
        if run < 4 {
            text.push_str(format!(in alloc; "{byte:02X}")?.as_str())?;
            rest = rest.get(1..).unwrap_or(&[]);
        } else {
            text.push_str(format!(in alloc; "{byte:02X}*{run}")?.as_str())?;
            rest = rest.get(run..).unwrap_or(&[]);
        }
    }
    text.push_str(" ..")?;
    Ok(())
}

/// Records as a text: the letter of each, the bytes of a reply behind its `D`, and before the
/// letter the connection where it is another one.
fn tell_records(alloc: Global, who: u8, records: &[u8]) -> Result<String, Fault> {
    let mut text = String::new(alloc);
    let mut rest = records;
    for _ in 0..records.len() {
        rest = match rest {
            [from, kind, a, b, c, d, more @ ..] => {
                let len = u32::from_be_bytes([*a, *b, *c, *d]) as usize;
                tell_head(&mut text, alloc, *from, who, *kind)?;
                let (reply, more) = more.split_at(len.min(more.len()));
                tell_bytes(&mut text, alloc, reply)?;
                more
            }
            _ => return Ok(text),
        };
    }
    Ok(text)
}

/// Appends the letter of a record.
fn tell_head(text: &mut String, alloc: Global, from: u8, who: u8, kind: u8) -> Result<(), Fault> {
    if !text.is_empty() {
        text.push_str(" ")?;
    }
    if from != who {
        text.push_str(format!(in alloc; "{from}.")?.as_str())?;
    }
    text.push_str(match kind {
        b'D' => "D",
        b'A' => "A",
        b'X' => "X",
        b'L' => "L",
        b'N' => "N",
        b'E' => "E",
        _ => "?",
    })?;
    Ok(())
}
