//! Losses of power in a line, in each of its changes and by each mask.

use crate::fault::Fault;
use crate::words::{Words, halves};
use std::alloc::Global;

/// A line of a file, and its number.
#[derive(Clone, Copy, Drop)]
pub(crate) struct Line<'a> {
    pub(crate) number: usize,
    pub(crate) text: &'a str,
}

/// What a lost change leaves, where no mask is named: nothing, all, and parts of it.
const MASKS: [u8; 6] = [0x00, 0xFF, 0xA5, 0xFE, 0xFC, 0xF8];

/// Losses of power: the line that asks for them, of which line they are, in which of its changes or
/// frames, by which masks, and the lines that come after each.
#[derive(Drop)]
pub(crate) struct Losses<'a> {
    pub(crate) line: Line<'a>,
    pub(crate) of: Line<'a>,
    pub(crate) masks: Vec<u8>,
    /// 1 for changes, 0 for frames.
    pub(crate) kind: u8,
    pub(crate) from: u32,
    pub(crate) to: u32,
    /// Whether the line makes none after these.
    pub(crate) all: bool,
    /// Whether the power is lost once more in the first line after each.
    pub(crate) twice: bool,
    pub(crate) lines: Vec<Line<'a>>,
}

/// The masks that a text names: `each mask`, or `masks FF FE`. None where it names changes.
fn masks(alloc: Global, text: &str) -> Result<Option<Vec<u8>>, Fault> {
    let mut masks = Vec::new(alloc);
    if text == "each mask" {
        masks.extend_from_slice(&MASKS)?;
        return Ok(Some(masks));
    }
    let Some(list) = text.strip_prefix("masks ") else {
        return Ok(None);
    };
    for word in list.split(' ') {
        let mut word = Words::new(word);
        masks.push(word.byte()?)?;
    }
    Ok(Some(masks))
}

/// Which changes a text names: `each change`, `each frame`, `changes 1 to 13`, `change 14`. The
/// count is how many there have to be of each.
fn changes(text: &str, count: &str) -> Result<(u8, u32, u32, bool), Fault> {
    let mut words = Words::new(text);
    let first = words.word()?;
    if first == "each" {
        let kind = match words.word()? {
            "change" => 1,
            "frame" => 0,
            _ => return Err(Fault::NotUnderstood),
        };
        words.end()?;
        let mut number = Words::new(count);
        return Ok((kind, 1, number.number()?, true));
    }
    let from = words.number()?;
    let mut to = from;
    if first == "changes" {
        words.expect("to")?;
        to = words.number()?;
    } else if first != "change" {
        return Err(Fault::NotUnderstood);
    }
    words.end()?;
    Ok((1, from, to, false))
}

/// What a line says that begins with `for `.
pub(crate) fn read_losses<'a>(
    alloc: Global,
    line: Line<'a>,
    text: &'a str,
) -> Result<Losses<'a>, Fault> {
    let (what, count) = halves(text);
    let Some((first, rest)) = what.split_once(" of ") else {
        return Err(Fault::NotUnderstood);
    };
    let mut selector = first;
    let mut of = rest;
    let mut chosen = Vec::new(alloc);
    match masks(alloc, first)? {
        Some(masks) => {
            chosen = masks;
            let Some((next, more)) = rest.split_once(" of ") else {
                return Err(Fault::NotUnderstood);
            };
            selector = next;
            of = more;
        }
        None => chosen.extend_from_slice(&MASKS)?,
    }
    let (kind, from, to, all) = changes(selector, count)?;
    Ok(Losses {
        line,
        of: Line {
            number: line.number,
            text: of,
        },
        masks: chosen,
        kind,
        from,
        to,
        all,
        twice: false,
        lines: Vec::new(alloc),
    })
}
