//! The bytes of a chip, looked at and set.

use crate::came::Came;
use crate::fault::Fault;
use crate::names::Names;
use crate::words::Words;
use std::alloc::Global;

/// As many bytes as are wanted, from an address on.
pub(crate) fn look(
    alloc: Global,
    names: &Names,
    memory: &[u8],
    mut words: Words,
    wanted: &str,
) -> Result<Came, Fault> {
    let at = words.address()? as usize;
    words.end()?;
    let len = names.bytes_of(alloc, wanted)?.len();
    let Some(found) = memory.get(at..at.saturating_add(len)) else {
        return Err(Fault::NotUnderstood);
    };
    let mut copy = Vec::new(alloc);
    copy.extend_from_slice(found)?;
    Ok(Came::Bytes(copy))
}

/// How many bytes from an address up to another are this one: `1800 to 2000 F8`.
pub(crate) fn count(memory: &[u8], mut words: Words) -> Result<Came, Fault> {
    let from = words.address()? as usize;
    words.expect("to")?;
    let to = words.address()? as usize;
    let byte = words.byte()?;
    words.end()?;
    let Some(range) = memory.get(from..to) else {
        return Err(Fault::NotUnderstood);
    };
    let mut number = 0u32;
    for found in range.iter() {
        if *found == byte {
            number = number.saturating_add(1);
        }
    }
    Ok(Came::Number(number))
}

/// Sets the bytes from an address on.
fn patch(memory: &mut [u8], at: usize, bytes: &[u8]) -> Result<(), Fault> {
    let Some(place) = memory.get_mut(at..at.saturating_add(bytes.len())) else {
        return Err(Fault::NotUnderstood);
    };
    place.copy_from_slice(bytes);
    Ok(())
}

/// So many copies of the bytes of a text.
fn copies(alloc: Global, names: &Names, count: u32, text: &str) -> Result<Vec<u8>, Fault> {
    let bytes = names.bytes_of(alloc, text)?;
    let mut all = Vec::new(alloc);
    for _ in 0..count {
        all.extend_from_slice(bytes.as_slice())?;
    }
    Ok(all)
}

/// Sets bytes from an address on: `1800 F8 04 00 FF`, or `1800 512 times F8 04 00 FF`.
pub(crate) fn set(
    alloc: Global,
    names: &Names,
    memory: &mut [u8],
    mut words: Words,
) -> Result<Came, Fault> {
    let at = words.address()? as usize;
    let bytes = match words.all().split_once(" times ") {
        Some((_, text)) => copies(alloc, names, words.number()?, text)?,
        None => names.bytes_of(alloc, words.all())?,
    };
    patch(memory, at, bytes.as_slice())?;
    Ok(Came::Said("ok"))
}

/// The first place at which two memories differ.
fn first_other(one: &[u8], other: &[u8]) -> Option<usize> {
    for (at, byte) in one.iter().enumerate() {
        if other.get(at) != Some(byte) {
            return Some(at);
        }
    }
    None
}

/// Whether a memory is the one that was kept: all of it, `to` an address, or all `but` some bytes
/// at an address.
pub(crate) fn same(
    alloc: Global,
    names: &Names,
    kept: &[u8],
    memory: &[u8],
    mut words: Words,
) -> Result<Came, Fault> {
    let mut wanted = Vec::new(alloc);
    wanted.extend_from_slice(kept)?;
    if !words.is_empty() {
        match words.word()? {
            "to" => wanted.truncate(words.address()? as usize),
            "but" => {
                let at = words.address()? as usize;
                let bytes = names.bytes_of(alloc, words.all())?;
                patch(wanted.as_mut_slice(), at, bytes.as_slice())?;
            }
            _ => return Err(Fault::NotUnderstood),
        }
    }
    match first_other(wanted.as_slice(), memory) {
        None => Ok(Came::Said("ok")),
        Some(at) => Ok(Came::Text(format!(in alloc; "another byte at {at:04X}")?)),
    }
}
