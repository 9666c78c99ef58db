//! The first place at which what reads as free isn't erased.
ghost use Rattle.std.specs.Prelude.{◌≡◌, ◌≢◌, IfSome};
ghost use Rattle.norbd_survey.specs.Places.{IsWrittenAt};

use crate::reason::byte_at;
use nor_layout::{
    BLOCK_LEN, DESCRIPTORS_PLACE, ENTRIES, Entry, FIRST_DATA_BLOCK, Kind, SLOT_LEN, entry_place,
    entry_state,
};
use sector_survey::BlockSummary;

/// The first place of an image, whose data blocks say this, at which a free slot that counts or a
/// wholly free block isn't erased. A block that was copied whole doesn't count, nor does one that
/// is being erased. Source: own (docs/LAYOUT.md).
pub fn first_dirty(image: &[u8], blocks: &[BlockSummary]) -> Option<u32>
    ensures { IfSome result (λ at. IsWrittenAt image.now at) }
{
    let mut number = FIRST_DATA_BLOCK;
    for block in blocks {
        let found = dirty_in(image, *block, BLOCK_LEN.saturating_mul(number as u32));
        if found.is_some() && counts(image, blocks, number) {
            return found;
        }
        number = number.saturating_add(1);
    }
    None
}

/// Whether what the block of this number says counts.
fn counts(image: &[u8], blocks: &[BlockSummary], number: u16) -> bool {
    !has_copy(blocks, number) && !is_being_erased(image, number)
}

/// Whether a whole copy of the block of this number is there.
fn has_copy(blocks: &[BlockSummary], number: u16) -> bool {
    for block in blocks {
        if block.kind == Kind::Committed(number) {
            return true;
        }
    }
    false
}

/// Whether an open entry says that the block of this number is being erased.
fn is_being_erased(image: &[u8], number: u16) -> bool {
    for entry in 0..ENTRIES {
        let at = entry_place(entry);
        let bytes = [0u32, 1, 2, 3].map(|k| byte_at(image, at.saturating_add(k)));
        if entry_state(bytes, u16::MAX) == Entry::Open(number) {
            return true;
        }
    }
    false
}

/// The first such place of a block that begins at a place.
fn dirty_in(image: &[u8], block: BlockSummary, place: u32) -> Option<u32>
    ensures { IfSome result (λ at. IsWrittenAt image.now at) }
{
    match block.kind {
        Kind::Plain => {
            if block.free == 7 {
                return first_written(image, place, BLOCK_LEN);
            }
            dirty_slot(image, place)
        }
        Kind::Committed(_) => dirty_slot(image, place),
        Kind::Settled => dirty_slot(image, place),
        _ => None,
    }
}

/// The first such place of a block's free slots.
fn dirty_slot(image: &[u8], place: u32) -> Option<u32>
    ensures { IfSome result (λ at. IsWrittenAt image.now at) }
{
    for slot in 0..7u32 {
        let descriptor = place.saturating_add(DESCRIPTORS_PLACE as u32 + 4 * slot);
        if first_written(image, descriptor, 4).is_none() {
            let content = place.saturating_add(SLOT_LEN as u32 * (slot + 1));
            let found = first_written(image, content, SLOT_LEN as u32);
            if found.is_some() {
                return found;
            }
        }
    }
    None
}

/// The first of so many bytes from a place on that isn't FFh.
fn first_written(image: &[u8], place: u32, count: u32) -> Option<u32>
    ensures { IfSome result (λ at. IsWrittenAt image.now at) }
{
    for k in 0..count {
        let at = place.saturating_add(k);
        if byte_at(image, at) != 0xFF {
            return Some(at);
        }
    }
    None
}
