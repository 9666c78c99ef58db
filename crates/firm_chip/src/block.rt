//! The data blocks.

ghost use Rattle.std.specs.Prelude.{◌≡◌, ℕ, ◌+◌, ◌*◌, ◌<◌, ◌≤◌, length, IsTrue};
ghost use Rattle.sector_slots.specs.Slots.{data_blocks};
ghost use Rattle.firm_chip.specs.FirmChips.{IsOfSlots, IsBegunAtMost, IsNeverLive, IsFirmSlot};
ghost use Rattle.firm_chip.specs.FirmChips.{IsFirmBlock, IsRoom, data_place};

use crate::bytes::{are_firm, are_firmly};
use crate::slot::{is_firm_slot, is_never_live};

/// Where a data block begins.
fn data_place(block: u16) -> usize
    ensures { result ≡ data_place block }
{
    4096 * (block as usize + 4)
}

/// Whether a block is one of slots, and erased beside them.
fn is_of_slots(memory: &[u8], weak: &[u8], block: u16) -> bool
    requires number { block < data_blocks memory.now }
    requires sizes { length weak.now ≡ length memory.now }
    ensures { IsTrue result → IsOfSlots memory.now weak.now block }
{
    let at = data_place(block);
    if !are_firmly(memory, weak, at, 4, 0xFF) || !are_firmly(memory, weak, at + 8, 8, 0xFF) {
        return false;
    }
    are_firmly(memory, weak, at + 44, 468, 0xFF)
}

/// Whether the state of a block's mark always reads FFh or FEh.
fn is_begun_at_most(memory: &[u8], weak: &[u8], block: u16) -> bool
    requires number { block < data_blocks memory.now }
    requires sizes { length weak.now ≡ length memory.now }
    ensures { IsTrue result → IsBegunAtMost memory.now weak.now block }
{
    let at = data_place(block) + 4;
    weak[at] <= 1 && memory[at] >= 0xFE
}

/// Whether each slot of a block is firm.
fn are_slots_firm(memory: &[u8], weak: &[u8], block: u16) -> bool
    requires number { block < data_blocks memory.now }
    requires most { data_blocks memory.now ≤ 4092 }
    requires sizes { length weak.now ≡ length memory.now }
    ensures { IsTrue result → (i : ℕ) → i < 7 → IsFirmSlot memory.now weak.now (7 * block + i) }
{
    for place in 0..7u16 {
        if !is_firm_slot(memory, weak, 7 * block + place) {
            return false;
        }
    }
    true
}

/// Whether none of them ever reads as live.
fn are_never_live(memory: &[u8], weak: &[u8], block: u16) -> bool
    requires number { block < data_blocks memory.now }
    requires most { data_blocks memory.now ≤ 4092 }
    requires sizes { length weak.now ≡ length memory.now }
    ensures { IsTrue result → (i : ℕ) → i < 7 → IsNeverLive memory.now weak.now (7 * block + i) }
{
    for place in 0..7u16 {
        if !is_never_live(memory, weak, 7 * block + place) {
            return false;
        }
    }
    true
}

/// Whether a block reads the same whatever its weak bits, but as plain or void where it has no live
/// slot.
fn is_firm_block(memory: &[u8], weak: &[u8], block: u16) -> bool
    requires number { block < data_blocks memory.now }
    requires most { data_blocks memory.now ≤ 4092 }
    requires sizes { length weak.now ≡ length memory.now }
    ensures { IsTrue result → IsFirmBlock memory.now weak.now block }
{
    if !is_of_slots(memory, weak, block) {
        return false;
    }
    if are_firm(weak, data_place(block) + 4, 4) && are_slots_firm(memory, weak, block) {
        return true;
    }
    is_begun_at_most(memory, weak, block) && are_never_live(memory, weak, block)
}

/// Whether each of so many blocks does.
pub(crate) fn are_blocks_firm(memory: &[u8], weak: &[u8], blocks: u16) -> bool
    requires count { blocks ≡ data_blocks memory.now }
    requires most { data_blocks memory.now ≤ 4092 }
    requires sizes { length weak.now ≡ length memory.now }
    ensures { IsTrue result → (c : ℕ) → c < data_blocks memory.now
        → IsFirmBlock memory.now weak.now c }
{
    for block in 0..blocks {
        if !is_firm_block(memory, weak, block) {
            return false;
        }
    }
    true
}

/// Whether a block is wholly free, but that its mark may have been begun.
fn is_room(memory: &[u8], weak: &[u8], block: u16) -> bool
    requires number { block < data_blocks memory.now }
    requires sizes { length weak.now ≡ length memory.now }
    ensures { IsTrue result → IsRoom memory.now weak.now block }
{
    let at = data_place(block);
    if !is_begun_at_most(memory, weak, block) || !are_firmly(memory, weak, at, 4, 0xFF) {
        return false;
    }
    are_firmly(memory, weak, at + 16, 28, 0xFF)
}

/// Whether one of so many blocks is.
pub(crate) fn has_room(memory: &[u8], weak: &[u8], blocks: u16) -> bool
    requires count { blocks ≡ data_blocks memory.now }
    requires sizes { length weak.now ≡ length memory.now }
    ensures { IsTrue result → (c : ℕ) × ((c < data_blocks memory.now)
        × IsRoom memory.now weak.now c) }
{
    for block in 0..blocks {
        if is_room(memory, weak, block) {
            return true;
        }
    }
    false
}
