//! The slots of the data blocks, by their number: slot 7c + i is at place i of data block c.

ghost use Rattle.std.specs.Prelude.{◌≡◌, ℕ, ◌+◌, ◌*◌, ◌<◌, ◌≤◌, length, IsTrue, IsFalse};
ghost use Rattle.sector_slots.specs.Slots.{data_blocks, slot_count};
ghost use Rattle.firm_chip.specs.FirmChips.{IsNeverLive, IsFading, IsTwin, IsFirmSlot};
ghost use Rattle.firm_chip.specs.FirmChips.{head_place, content_place};

use crate::bytes::{are_firm, are_firmly, never_free, never_reads};

/// Where the descriptor of a slot lies.
fn head_place(slot: u16) -> usize
    ensures { result ≡ head_place slot }
{
    4096 * (slot as usize / 7 + 4) + 16 + 4 * (slot as usize % 7)
}

/// Where its sector does.
fn content_place(slot: u16) -> usize
    ensures { result ≡ content_place slot }
{
    4096 * (slot as usize / 7 + 4) + 512 + 512 * (slot as usize % 7)
}

/// Whether a slot never reads as live.
pub(crate) fn is_never_live(memory: &[u8], weak: &[u8], slot: u16) -> bool
    requires number { slot < slot_count memory.now }
    requires sizes { length weak.now ≡ length memory.now }
    ensures { IsTrue result → IsNeverLive memory.now weak.now slot }
{
    let at = head_place(slot);
    if !never_reads(memory, weak, at, 0xFC) {
        return false;
    }
    if never_free(memory, weak, at) {
        return true;
    }
    are_firmly(memory, weak, content_place(slot), 512, 0xFF)
}

/// Whether a slot is a live one of zeros whose retirement was cut.
fn is_fading(memory: &[u8], weak: &[u8], slot: u16) -> bool
    requires number { slot < slot_count memory.now }
    requires sizes { length weak.now ≡ length memory.now }
    ensures { IsTrue result → IsFading memory.now weak.now slot }
{
    let at = head_place(slot);
    if memory[at] != 0xFC || weak[at] != 0x04 {
        return false;
    }
    if !are_firm(weak, at + 1, 3) {
        return false;
    }
    are_firmly(memory, weak, content_place(slot), 512, 0)
}

/// Whether a slot reads the same whatever its weak bits, but as free or dead, or as zeros or dead.
pub(crate) fn is_firm_slot(memory: &[u8], weak: &[u8], slot: u16) -> bool
    requires number { slot < slot_count memory.now }
    requires sizes { length weak.now ≡ length memory.now }
    ensures { IsTrue result → IsFirmSlot memory.now weak.now slot }
{
    if is_never_live(memory, weak, slot) || is_fading(memory, weak, slot) {
        return true;
    }
    let at = head_place(slot);
    if memory[at] != 0xFC {
        return false;
    }
    are_firm(weak, at, 4) && are_firm(weak, content_place(slot), 512)
}

/// Whether two slots read as live with one sector.
fn is_twin(memory: &[u8], slot: u16, other: u16) -> bool
    requires number { slot < slot_count memory.now }
    requires other_number { other < slot_count memory.now }
    ensures not_twin { IsFalse result → IsTwin memory.now slot other → ⊥ }
{
    let at = head_place(slot);
    let there = head_place(other);
    memory[there] == 0xFC
        && memory[there + 2] == memory[at + 2]
        && memory[there + 3] == memory[at + 3]
}

/// Whether no other slot reads as live with the sector of this one, among so many.
fn is_alone(memory: &[u8], slot: u16, count: u16) -> bool
    requires number { slot < slot_count memory.now }
    requires all { count ≡ slot_count memory.now }
    ensures { IsTrue result → (t : ℕ) → t < slot_count memory.now → IsTwin memory.now slot t
        → slot ≡ t }
{
    for other in 0..count {
        if other != slot && is_twin(memory, slot, other) {
            return false;
        }
    }
    true
}

/// Whether no other slot reads as live with the sector of one that may come to be dead.
pub(crate) fn are_fading_alone(memory: &[u8], weak: &[u8], count: u16) -> bool
    requires all { count ≡ slot_count memory.now }
    requires sizes { length weak.now ≡ length memory.now }
    ensures { IsTrue result → (s t : ℕ) → s < slot_count memory.now → t < slot_count memory.now
        → IsFading memory.now weak.now s → IsTwin memory.now s t → s ≡ t }
{
    for slot in 0..count {
        if weak[head_place(slot)] == 0x04 && !is_alone(memory, slot, count) {
            return false;
        }
    }
    true
}
