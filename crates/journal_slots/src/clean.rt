//! Whether what reads as free is erased: one read of each data block.

ghost use Rattle.std.specs.Prelude.{◌≡◌, ◌+◌, ◌*◌, ◌<◌, ℕ, length, IfOk, IsTrue, IsFalse};
ghost use Rattle.chip_model.specs.Geometry.{IsChipSize};
ghost use Rattle.chip_model.specs.Memory.{byte};
ghost use Rattle.nor_layout.specs.Kinds.{kind_of};
ghost use Rattle.nor_layout.specs.declared.header.Header.TheVariants as headers;
ghost use Rattle.erase_journal.specs.Steps.{EndsFirmly};
ghost use Rattle.sector_slots.specs.Slots.{data_blocks, data_block, descriptor_in, read_header};
ghost use Rattle.sector_slots.specs.Slots.{content_bytes, blank_sector};
ghost use Rattle.journal_slots.specs.Clean.{IsCleanBlock, AreCleanBlocks};

use crate::head::{BlockHead, head_of};
use erase_journal::Journal;
use nor_driver::{Nor, NorError};
use nor_layout::{BLOCK_LEN, FIRST_DATA_BLOCK, HEAD_LEN, Header, SLOT_LEN};

/// Whether what reads as free in each data block is erased. One that isn't ends the reading.
#[tactic(auto, using(erase_journal::proofs::Calls::repeated_calls))]
pub(crate) fn read_clean<N: Nor>(journal: &mut Journal<N>, blocks: u16) -> Result<bool, NorError>
    requires count { blocks ≡ data_blocks journal.old.memory }
    requires sized { IsChipSize (length journal.old.memory) }
    ensures clean { IfOk result (λ clean. IsTrue clean → AreCleanBlocks journal.old.memory) }
    ensures not_clean { IfOk result (λ clean. IsFalse clean → AreCleanBlocks journal.old.memory
        → ⊥) }
    ensures same { journal.new.memory ≡ journal.old.memory }
    ensures weak { journal.new.weak ≡ journal.old.weak }
    ensures ends { EndsFirmly result journal.old journal.new }
{
    for block in 0..blocks {
        if !read_clean_block(journal, block)? {
            return Ok(false);
        }
    }
    Ok(true)
}

/// Whether what reads as free in a data block is erased.
fn read_clean_block<N: Nor>(journal: &mut Journal<N>, block: u16) -> Result<bool, NorError>
    requires number { block < data_blocks journal.old.memory }
    requires sized { IsChipSize (length journal.old.memory) }
    ensures clean { IfOk result (λ clean. IsTrue clean
        → IsCleanBlock (data_block journal.old.memory block)) }
    ensures not_clean { IfOk result (λ clean. IsFalse clean
        → IsCleanBlock (data_block journal.old.memory block) → ⊥) }
    ensures same { journal.new.memory ≡ journal.old.memory }
    ensures weak { journal.new.weak ≡ journal.old.weak }
    ensures ends { EndsFirmly result journal.old journal.new }
{
    let mut bytes = [0; BLOCK_LEN as usize];
    journal.read(block + FIRST_DATA_BLOCK, 0, &mut bytes)?;
    Ok(is_clean_block(&bytes))
}

/// Whether what reads as free in a block of these bytes is erased.
fn is_clean_block(bytes: &[u8]) -> bool
    requires size { length bytes.now ≡ 4096 }
    ensures clean { IsTrue result → IsCleanBlock bytes.now }
    ensures not_clean { IsFalse result → IsCleanBlock bytes.now → ⊥ }
{
    let head = head_of_block(bytes);
    if !are_places_clean(bytes, &head.places) {
        return false;
    }
    if head.kind.is_plain() && all_free(&head.places) {
        is_erased(bytes)
    } else {
        true
    }
}

/// What the first bytes of a block say.
fn head_of_block(bytes: &[u8]) -> BlockHead
    requires size { length bytes.now ≡ 4096 }
    ensures kind { result.kind ≡ kind_of bytes.now }
    ensures places { (i : ℕ) → i < 7 → read_header result.places i ≡ descriptor_in bytes.now i }
{
    let mut head = [0; HEAD_LEN];
    head.copy_from_slice(&bytes[0..HEAD_LEN]);
    head_of(&head)
}

/// Whether the data of each slot with a free descriptor is erased.
fn are_places_clean(bytes: &[u8], places: &[Header]) -> bool
    requires size { length bytes.now ≡ 4096 }
    requires room { length places.now ≡ 7 }
    ensures clean { IsTrue result → (i : ℕ) → i < 7 → read_header places.now i ≡ headers.Free
        → content_bytes bytes.now i ≡ blank_sector }
    ensures not_clean { IsFalse result → ((i : ℕ) → i < 7
        → read_header places.now i ≡ headers.Free → content_bytes bytes.now i ≡ blank_sector)
        → ⊥ }
{
    for place in 0..7usize {
        if !is_place_clean(bytes, places[place], place) {
            return false;
        }
    }
    true
}

/// Whether the data of a slot with this descriptor is erased, where it is free.
fn is_place_clean(bytes: &[u8], header: Header, place: usize) -> bool
    requires size { length bytes.now ≡ 4096 }
    requires place { place < 7 }
    ensures clean { IsTrue result → header ≡ headers.Free
        → content_bytes bytes.now place ≡ blank_sector }
    ensures not_clean { IsFalse result
        → (header ≡ headers.Free → content_bytes bytes.now place ≡ blank_sector) → ⊥ }
{
    match header {
        Header::Free => is_sector_erased(bytes, place),
        Header::Live(_) => true,
        Header::NoGeneration => true,
        Header::Dead => true,
    }
}

/// Whether the sector at a place is erased.
fn is_sector_erased(bytes: &[u8], place: usize) -> bool
    requires size { length bytes.now ≡ 4096 }
    requires place { place < 7 }
    ensures erased { IsTrue result → content_bytes bytes.now place ≡ blank_sector }
    ensures not_erased { IsFalse result → content_bytes bytes.now place ≡ blank_sector → ⊥ }
{
    let at = SLOT_LEN * (place + 1);
    is_erased(&bytes[at..at + SLOT_LEN])
}

/// Whether all of a block's slots are free.
fn all_free(places: &[Header]) -> bool
    requires room { length places.now ≡ 7 }
    ensures free { IsTrue result → (i : ℕ) → i < 7 → read_header places.now i ≡ headers.Free }
    ensures not_free { IsFalse result → ((i : ℕ) → i < 7 → read_header places.now i ≡ headers.Free)
        → ⊥ }
{
    for place in 0..7usize {
        match places[place] {
            Header::Free => {}
            Header::Live(_) => return false,
            Header::NoGeneration => return false,
            Header::Dead => return false,
        }
    }
    true
}

/// Whether each of these bytes is FFh.
fn is_erased(bytes: &[u8]) -> bool
    ensures erased { IsTrue result → (k : ℕ) → k < length bytes.now → byte bytes.now k ≡ 255 }
    ensures not_erased { IsFalse result
        → ((k : ℕ) → k < length bytes.now → byte bytes.now k ≡ 255) → ⊥ }
{
    for at in 0..bytes.len() {
        if bytes[at] != 255 {
            return false;
        }
    }
    true
}
