//! A picture of the blocks: a character for each, in rows of 64.

use crate::totals::{Totals, dead_of, total};
use nor_layout::Kind;
use sector_survey::BlockSummary;
use std::fmt;

/// The data blocks of a chip as characters, with a legend, totals and a histogram.
#[derive(Clone, Copy)]
pub struct Picture<'r> {
    pub blocks: &'r [BlockSummary],
    /// Whether the characters have colours, by the codes of a terminal (ECMA-48, SGR).
    pub colours: bool,
}

/// The blocks of a row.
const ROW: usize = 64;

/// The blocks before the data blocks: the superblock and the three journals.
const BEFORE: usize = 4;

/// The longest bar of the histogram.
const BAR: u32 = 40;

/// The digits of slots that are live where none is dead, and those where some are.
const WHOLE: [&str; 8] = ["0", "1", "2", "3", "4", "5", "6", "7"];

const WORN: [&str; 8] = ["a", "b", "c", "d", "e", "f", "g", "h"];

/// The character of a data block, of this number on the chip.
fn mark_of(block: BlockSummary, is_reserve: bool) -> &'static str {
    match block.kind {
        Kind::Void => "V",
        Kind::Committed(_) => "C",
        Kind::Group(_) => "G",
        Kind::DeadGroup => "D",
        Kind::SpoiltGroup => "?",
        Kind::Unknown => "?",
        Kind::Plain => {
            if block.free == 7 {
                if is_reserve { "R" } else { "." }
            } else {
                digit_of(block)
            }
        }
        Kind::Settled => digit_of(block),
    }
}

/// The digit of a block's live slots.
fn digit_of(block: BlockSummary) -> &'static str {
    let live = block.live.min(7) as usize;
    if dead_of(block) == 0 {
        WHOLE[live]
    } else {
        WORN[live]
    }
}

/// The character of the block of this number on the chip.
fn char_of(blocks: &[BlockSummary], totals: Totals, number: usize) -> &'static str {
    if number == 0 {
        return "S";
    }
    if number < BEFORE {
        return "J";
    }
    match blocks.get(number - BEFORE) {
        Some(block) => {
            let is_reserve = match totals.reserve {
                Some(reserve) => reserve as usize == number,
                None => false,
            };
            mark_of(*block, is_reserve)
        }
        None => " ",
    }
}

/// The colour of a character: 31 red, 32 green, 33 yellow, 34 blue, 35 magenta, 36 cyan, 90 grey.
fn colour_of(mark: &str) -> u8 {
    match mark.as_bytes().first() {
        Some(b'S' | b'J') => 36,
        Some(b'.') => 90,
        Some(b'R') => 34,
        Some(b'0'..=b'7') => 32,
        Some(b'a'..=b'h') => 33,
        Some(b'V' | b'C' | b'G' | b'D') => 35,
        _ => 31,
    }
}

/// Writes a character, with its colour where there are colours.
fn write_mark<W: fmt::Write>(f: &mut fmt::Formatter<W>, mark: &str, colours: bool) -> fmt::Result {
    if !colours {
        return f.write_str(mark);
    }
    let colour = colour_of(mark);
    write!(f, "\u{1B}[{colour}m{mark}\u{1B}[0m")
}

/// How many data blocks have so many live slots.
fn with_live(blocks: &[BlockSummary], live: u8) -> u32 {
    let mut count = 0u32;
    for block in blocks {
        if block.live == live {
            count = count.saturating_add(1);
        }
    }
    count
}

/// A row of the histogram.
fn write_bar<W: fmt::Write>(
    f: &mut fmt::Formatter<W>,
    live: u8,
    count: u32,
    most: u32,
) -> fmt::Result {
    write!(f, "{live} live |")?;
    let full = BAR.saturating_mul(count);
    let bar = if most == 0 { 0 } else { full / most };
    for _ in 0..bar {
        f.write_str("#")?;
    }
    if bar == 0 && count > 0 {
        f.write_str("|")?;
    }
    writeln!(f, " {count}")
}

/// The histogram of live slots a block.
fn write_histogram<W: fmt::Write>(
    f: &mut fmt::Formatter<W>,
    blocks: &[BlockSummary],
) -> fmt::Result {
    let most = blocks.len().min(4_092) as u32;
    for live in 0..8u8 {
        write_bar(f, live, with_live(blocks, live), most)?;
    }
    Ok(())
}

impl fmt::Display for Picture<'_> {
    fn fmt<W: fmt::Write>(&self, f: &mut fmt::Formatter<W>) -> fmt::Result {
        let totals = total(self.blocks);
        let count = self.blocks.len().saturating_add(BEFORE);
        for number in 0..count {
            if number % ROW == 0 {
                if number > 0 {
                    f.write_str("\n")?;
                }
                write!(f, "{number:5} ")?;
            }
            write_mark(f, char_of(self.blocks, totals, number), self.colours)?;
        }
        f.write_str("\n")?;
        f.write_str(
            "S superblock, J journal, . wholly free, R the reserve, V void, C committed,\n",
        )?;
        f.write_str("0 to 7 live slots and none dead, a to h as many and some dead,\n")?;
        f.write_str("G a live group, D a dead one, ? corrupt\n")?;
        let Totals {
            free,
            live,
            dead,
            ..
        } = totals;
        writeln!(f, "slots: {free} free, {live} live, {dead} dead")?;
        write_histogram(f, self.blocks)
    }
}
