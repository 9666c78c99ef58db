//! Why a chip is corrupt, as a text.
ghost use Rattle.std.specs.Prelude.{◌≡◌, ◌≢◌};
ghost use Rattle.norbd_survey.specs.Places.{IsWrittenAt};

use crate::journals::write_journals;
use nor_layout::{BLOCK_LEN, DESCRIPTORS_PLACE, FIRST_DATA_BLOCK};
use sector_survey::Finding;
use std::fmt;

/// A finding, and the bytes of the image in which it is. Its text is one line without its end.
#[derive(Clone, Copy)]
pub struct Reason<'i> {
    pub finding: Finding,
    pub image: &'i [u8],
}

/// Four bytes of an image from a place on, in hexadecimal digits; past its end they are erased.
#[derive(Clone, Copy)]
pub(crate) struct Four<'i> {
    pub image: &'i [u8],
    pub at: u32,
}

/// The byte at a place of an image; past its end an erased one.
pub(crate) fn byte_at(image: &[u8], at: u32) -> u8
    ensures { result ≢ 255 → IsWrittenAt image.now at }
{
    let at = at as usize;
    if at < image.len() { image[at] } else { 0xFF }
}

impl fmt::Display for Four<'_> {
    fn fmt<W: fmt::Write>(&self, f: &mut fmt::Formatter<W>) -> fmt::Result {
        for k in 0..4u32 {
            let byte = byte_at(self.image, self.at.saturating_add(k));
            if k > 0 {
                f.write_str(" ")?;
            }
            write!(f, "{byte:02X}")?;
        }
        Ok(())
    }
}

/// The place of a data block.
fn block_place(block: u16) -> u32 {
    BLOCK_LEN * (block as u32 + FIRST_DATA_BLOCK as u32)
}

/// The place of what says a slot's state: its descriptor, or the header of its block's group.
fn slot_place(image: &[u8], slot: u16) -> u32 {
    let block = block_place(slot / 7);
    for k in 0..4u32 {
        if byte_at(image, block.saturating_add(k)) != 0xFF {
            return block;
        }
    }
    block.saturating_add(DESCRIPTORS_PLACE as u32 + 4 * (slot as u32 % 7))
}

/// A data block and its first bytes from a place in it on.
fn write_block<W: fmt::Write>(
    f: &mut fmt::Formatter<W>,
    image: &[u8],
    block: u16,
    from: u32,
) -> fmt::Result {
    let number = block as u32 + FIRST_DATA_BLOCK as u32;
    let at = block_place(block).saturating_add(from);
    let found = Four { image, at };
    write!(f, "block {number}, {found} at {at:X}h")
}

/// A slot and the four bytes that say its state.
pub(crate) fn write_slot<W: fmt::Write>(
    f: &mut fmt::Formatter<W>,
    image: &[u8],
    slot: u16,
) -> fmt::Result {
    let number = slot as u32 / 7 + FIRST_DATA_BLOCK as u32;
    let place = slot % 7;
    let at = slot_place(image, slot);
    let found = Four { image, at };
    write!(f, "slot {place} of block {number}, {found} at {at:X}h")
}

/// The rule that a finding breaks: a heading of docs/LAYOUT.md.
fn rule_of(finding: Finding) -> &'static str {
    match finding {
        Finding::OtherLayout => "Superblock",
        Finding::OtherSize => "Superblock",
        Finding::Journals(_) => "Journals",
        Finding::UnknownBlock { .. } => "Data blocks",
        Finding::GroupOnSlots { .. } => "Data blocks",
        Finding::TwoCopyings { .. } => "Data blocks",
        Finding::WrongSource { .. } => "Data blocks",
        Finding::NoRoom => "Data blocks",
        Finding::NoGeneration { .. } => "Data blocks",
        Finding::NoSuchSector { .. } => "Data blocks",
        Finding::NotNeighbours { .. } => "Data blocks",
        Finding::ThreeSlots { .. } => "Data blocks",
        Finding::TwoLayouts { .. } => "Layout 1, and mixed chips",
    }
}

/// What is corrupt of the superblock or of a block.
fn write_blocks<W: fmt::Write>(
    f: &mut fmt::Formatter<W>,
    image: &[u8],
    finding: Finding,
) -> fmt::Result {
    match finding {
        Finding::OtherLayout => {
            let (eight, fifteen) = (byte_at(image, 8), byte_at(image, 15));
            write!(
                f,
                "{eight:02X} at 8h, {fifteen:02X} at Fh; a layout is 02, or 01 with FF or FE at Fh"
            )
        }
        Finding::OtherSize => {
            let found = Four { image, at: 9 };
            let blocks = image.len() / BLOCK_LEN as usize;
            let groups = 7 * blocks.saturating_sub(4) / 8;
            write!(
                f,
                "{found} at 9h; a chip of this size has {blocks:X}h blocks and {groups:X}h groups"
            )
        }
        Finding::UnknownBlock { block } => {
            write_block(f, image, block, 4)?;
            f.write_str("; the state is FF, FE, FC or F8")
        }
        Finding::GroupOnSlots { block } => {
            write_block(f, image, block, 0)?;
            f.write_str("; on a chip of layout 2 a block begins with FF FF FF FF")
        }
        Finding::TwoCopyings { first, second } => {
            write_block(f, image, first, 4)?;
            f.write_str(", and ")?;
            write_block(f, image, second, 4)?;
            f.write_str("; one block is committed at a time")
        }
        Finding::WrongSource { block, source } => {
            write_block(f, image, block, 4)?;
            write!(
                f,
                "; block {source}, which it names, is no other data block"
            )
        }
        Finding::NoRoom => f.write_str("no block from 4000h on is wholly free, nor can be made so"),
        _ => Ok(()),
    }
}

/// What is corrupt of the slots.
fn write_slots<W: fmt::Write>(
    f: &mut fmt::Formatter<W>,
    image: &[u8],
    finding: Finding,
) -> fmt::Result {
    match finding {
        Finding::NoGeneration { slot } => {
            write_slot(f, image, slot)?;
            f.write_str("; the generation of a live slot is FC, FD, FE or FF")
        }
        Finding::NoSuchSector { slot, sector } => {
            write_slot(f, image, slot)?;
            write!(f, "; the chip has no sector {sector}")
        }
        Finding::NotNeighbours {
            first,
            second,
            sector,
        } => {
            write_slot(f, image, first)?;
            f.write_str(", and ")?;
            write_slot(f, image, second)?;
            write!(
                f,
                "; both hold sector {sector}, and neither generation is the other's next"
            )
        }
        Finding::ThreeSlots {
            first,
            second,
            third,
            sector,
        } => {
            write_slot(f, image, first)?;
            f.write_str(", ")?;
            write_slot(f, image, second)?;
            f.write_str(", and ")?;
            write_slot(f, image, third)?;
            write!(f, "; three slots hold sector {sector}")
        }
        Finding::TwoLayouts {
            first,
            second,
            sector,
        } => {
            write_slot(f, image, first)?;
            f.write_str(", and ")?;
            write_slot(f, image, second)?;
            write!(f, "; sector {sector} is live in a slot and in a group")
        }
        _ => Ok(()),
    }
}

impl fmt::Display for Reason<'_> {
    fn fmt<W: fmt::Write>(&self, f: &mut fmt::Formatter<W>) -> fmt::Result {
        let rule = rule_of(self.finding);
        write!(f, "{rule}: ")?;
        match self.finding {
            Finding::Journals(fault) => write_journals(f, self.image, fault),
            finding => {
                write_blocks(f, self.image, finding)?;
                write_slots(f, self.image, finding)
            }
        }
    }
}
