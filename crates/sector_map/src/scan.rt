//! The blocks are read: what copyings were cut, and which slots hold each sector.

ghost use Rattle.std.specs.Prelude.{◌≡◌, ◌≢◌, ◌+◌, ◌*◌, ◌<◌, ◌≤◌, ℕ, Bool, true, false, Some, None};
ghost use Rattle.std.specs.Prelude.{◌||◌, length, IfOk, IsTrue, IsFalse};
ghost use Rattle.nor_layout.specs.declared.header.Header.TheVariants as headers;
ghost use Rattle.erase_journal.specs.Steps.{EndsFirmly};
ghost use Rattle.sector_slots.specs.Slots.{slot_at, slot_count, data_blocks, read_header};
ghost use Rattle.sector_slots.specs.Slots.{IsSpareIn};
ghost use Rattle.sector_slots.specs.Blocks.{AreSound, AreSettled};
ghost use Rattle.sector_slots.specs.Sectors.{SoundSlots, HasSlotsAlone};
ghost use Rattle.sector_stock.specs.Room.{IsSpareBlock};
ghost use Rattle.sector_map.specs.Found.{FoundIn, block_counts, noted_where};
ghost use Rattle.sector_map.specs.declared.found.Found.{Found as FoundOf};
ghost use Rattle.sector_map.specs.Scan.{EntersBlock, RefusesBlock};
ghost use Rattle.sector_map.specs.Table.{IsTabled, IsBlankTable};

use crate::found::{Found, is_counted, note_kind};
use crate::table::{LiveSlots, enter_head};
use nor_driver::NorError;
use nor_layout::{Header, Kind};
use sector_slots::SlotCalls;

/// Reads the kinds of all blocks: the copyings that were cut; None where the blocks are corrupt, or
/// one is of a group where none may be.
#[tactic(auto, using(erase_journal::proofs::Calls::repeated_calls))]
pub fn survey<S: SlotCalls>(slots: &mut S, groups: bool) -> Result<Option<Found>, NorError>
    ensures found { IfOk result (λ answer. (found : FoundOf) → answer ≡ Some found
        → FoundIn found (S.state slots.old).memory) }
    ensures alone { IfOk result (λ answer. (found : FoundOf) → answer ≡ Some found
        → groups ≡ false → HasSlotsAlone (S.state slots.old).memory) }
    ensures corrupt { IfOk result (λ answer. answer ≡ None → AreSound (S.state slots.old).memory
        → (groups ≡ false → HasSlotsAlone (S.state slots.old).memory) → ⊥) }
    ensures same { (S.state slots.new).memory ≡ (S.state slots.old).memory }
    ensures ends { EndsFirmly result (S.state slots.old) (S.state slots.new) }
{
    let count = slots.blocks();
    let mut found = Found::AtRest;
    for block in 0..count {
        let kind = slots.kind(block)?;
        match note_allowed(found, block, kind, count, groups) {
            Some(now) => found = now,
            None => return Ok(None),
        }
    }
    Ok(Some(found))
}

/// What is found once a block of this kind is read; None also where it is of a group and none may
/// be.
fn note_allowed(found: Found, block: u16, kind: Kind, count: u16, groups: bool) -> Option<Found>
    requires few { count ≤ 4092 }
    requires number { block ≤ 4092 }
    ensures { result ≡ noted_where groups found block kind count }
{
    if kind.is_of_group() && !groups {
        None
    } else {
        note_kind(found, block, kind, count)
    }
}

/// Enters the seven slots of a block that counts into the table of those before it; false where the
/// slots are corrupt.
pub(crate) fn enter_heads(table: &mut [LiveSlots], block: u16, heads: &[Header]) -> bool
    requires number { block ≤ 4092 }
    requires room { length heads.now ≡ 7 }
    ensures sound { IsTrue result → EntersBlock heads.now block table.old table.new }
    ensures corrupt { IsFalse result → RefusesBlock heads.now block table.old }
    ensures size { length table.new ≡ length table.old }
{
    for place in 0..7u16 {
        let slot = 7 * block + place;
        if !enter_head(table, slot, heads[place as usize]) {
            return false;
        }
    }
    true
}

/// Whether all of a block's slots are free.
pub(crate) fn all_free(heads: &[Header]) -> bool
    requires room { length heads.now ≡ 7 }
    ensures free { IsTrue result → (i : ℕ) → i < 7 → read_header heads.now i ≡ headers.Free }
    ensures not_free { IsFalse result → ((i : ℕ) → i < 7 → read_header heads.now i ≡ headers.Free)
        → ⊥ }
{
    for place in 0..7usize {
        match heads[place] {
            Header::Free => {}
            Header::Live(_) => return false,
            Header::NoGeneration => return false,
            Header::Dead => return false,
        }
    }
    true
}

/// Enters the slots of a block into the table, where they count, and says whether it is wholly
/// free; None where the slots are corrupt.
fn read_block<S: SlotCalls>(
    slots: &mut S,
    table: &mut [LiveSlots],
    found: Found,
    block: u16,
) -> Result<Option<bool>, NorError>
    requires number { block < data_blocks (S.state slots.old).memory }
    requires few { block ≤ 4092 }
    requires found { FoundIn found (S.state slots.old).memory }
    ensures entered { IfOk result (λ answer. (spare : Bool) → answer ≡ Some spare
        → IsTabled table.old (slot_at (S.state slots.old).memory) (7 * block)
        → IsTabled table.new (slot_at (S.state slots.old).memory) (7 * block + 7)) }
    ensures spare { IfOk result (λ answer. answer ≡ Some true
        → IsSpareIn (S.state slots.old).memory block) }
    ensures not_spare { IfOk result (λ answer. answer ≡ Some false
        → IsSpareIn (S.state slots.old).memory block → ⊥) }
    ensures corrupt { IfOk result (λ answer. answer ≡ None → (count : ℕ) → length table.old ≡ count
        → IsTabled table.old (slot_at (S.state slots.old).memory) (7 * block)
        → SoundSlots (slot_at (S.state slots.old).memory) (slot_count (S.state slots.old).memory)
        count → ⊥) }
    ensures size { length table.new ≡ length table.old }
    ensures same { (S.state slots.new).memory ≡ (S.state slots.old).memory }
    ensures ends { EndsFirmly result (S.state slots.old) (S.state slots.new) }
{
    let mut heads = [Header::Free; 7];
    let kind = slots.head(block, &mut heads)?;
    if !enter_counted(table, found, kind, block, &heads) {
        return Ok(None);
    }
    Ok(Some(is_wholly_free(kind, &heads)))
}

/// Enters the slots of a block of this kind, where they count; false where the slots are corrupt.
fn enter_counted(
    table: &mut [LiveSlots],
    found: Found,
    kind: Kind,
    block: u16,
    heads: &[Header],
) -> bool
    requires number { block ≤ 4092 }
    requires room { length heads.now ≡ 7 }
    ensures sound { IsTrue result → block_counts found kind block ≡ true
        → EntersBlock heads.now block table.old table.new }
    ensures skips { IsTrue result → block_counts found kind block ≡ false → table.new ≡ table.old }
    ensures corrupt { IsFalse result
        → (block_counts found kind block ≡ true) × RefusesBlock heads.now block table.old }
    ensures size { length table.new ≡ length table.old }
{
    if is_counted(found, kind, block) {
        enter_heads(table, block, heads)
    } else {
        true
    }
}

/// Reads the descriptors of all blocks into a table in which every sector is absent, and says
/// whether a block is wholly free; None where the slots are corrupt.
#[tactic(auto, using(erase_journal::proofs::Calls::repeated_calls))]
pub(crate) fn read_table<S: SlotCalls>(
    slots: &mut S,
    table: &mut [LiveSlots],
    found: Found,
) -> Result<Option<bool>, NorError>
    requires blank { IsBlankTable table.old }
    requires found { FoundIn found (S.state slots.old).memory }
    ensures tabled { IfOk result (λ answer. (spare : Bool) → answer ≡ Some spare
        → IsTabled table.new (slot_at (S.state slots.old).memory)
        (slot_count (S.state slots.old).memory)) }
    ensures spare { IfOk result (λ answer. answer ≡ Some true
        → (c : ℕ) × ((c < data_blocks (S.state slots.old).memory)
        × IsSpareIn (S.state slots.old).memory c)) }
    ensures not_spare { IfOk result (λ answer. answer ≡ Some false → (c : ℕ)
        → c < data_blocks (S.state slots.old).memory → IsSpareIn (S.state slots.old).memory c → ⊥) }
    ensures corrupt { IfOk result (λ answer. answer ≡ None → (count : ℕ) → length table.old ≡ count
        → SoundSlots (slot_at (S.state slots.old).memory) (slot_count (S.state slots.old).memory)
        count → ⊥) }
    ensures size { length table.new ≡ length table.old }
    ensures same { (S.state slots.new).memory ≡ (S.state slots.old).memory }
    ensures ends { EndsFirmly result (S.state slots.old) (S.state slots.new) }
{
    let count = slots.blocks();
    let mut spare = false;
    for block in 0..count {
        match read_block(slots, table, found, block)? {
            Some(here) => spare = either(spare, here),
            None => return Ok(None),
        }
    }
    Ok(Some(spare))
}

/// Whether a block is wholly free.
pub fn is_spare<S: SlotCalls>(slots: &mut S, block: u16) -> Result<bool, NorError>
    requires number { block < data_blocks (S.state slots.old).memory }
    ensures spare { IfOk result (λ spare. IsTrue spare
        → IsSpareIn (S.state slots.old).memory block) }
    ensures not_spare { IfOk result (λ spare. IsFalse spare
        → IsSpareIn (S.state slots.old).memory block → ⊥) }
    ensures same { (S.state slots.new).memory ≡ (S.state slots.old).memory }
    ensures ends { EndsFirmly result (S.state slots.old) (S.state slots.new) }
{
    let mut heads = [Header::Free; 7];
    let kind = slots.head(block, &mut heads)?;
    Ok(is_wholly_free(kind, &heads))
}

/// The lowest-numbered wholly free block.
#[tactic(auto, using(erase_journal::proofs::Calls::repeated_calls))]
pub(crate) fn lowest_spare<S: SlotCalls>(slots: &mut S) -> Result<u16, NorError>
    requires blocks { AreSettled (S.state slots.old).memory }
    ensures spare { IfOk result (λ block. IsSpareBlock block (S.state slots.old).memory) }
    ensures same { (S.state slots.new).memory ≡ (S.state slots.old).memory }
    ensures ends { EndsFirmly result (S.state slots.old) (S.state slots.new) }
{
    let count = slots.blocks();
    for block in 0..count {
        if is_spare(slots, block)? {
            return Ok(block);
        }
    }
    unreachable!()
}

/// Whether one of two is so.
pub(crate) fn either(a: bool, b: bool) -> bool
    ensures { result ≡ (a || b) }
{
    a || b
}

/// Whether a block of this kind with these descriptors is wholly free.
fn is_wholly_free(kind: Kind, heads: &[Header]) -> bool
    requires room { length heads.now ≡ 7 }
    ensures plain { IsTrue result → kind ≡ Kind.Plain }
    ensures free { IsTrue result → (i : ℕ) → i < 7 → read_header heads.now i ≡ headers.Free }
    ensures not_free { IsFalse result → kind ≡ Kind.Plain
        → ((i : ℕ) → i < 7 → read_header heads.now i ≡ headers.Free) → ⊥ }
{
    kind.is_plain() && all_free(heads)
}
