//! The entries of J0.

ghost use Rattle.std.specs.Prelude.{◌≡◌, ℕ, ◌<◌, ◌≤◌, length, IsTrue};
ghost use Rattle.nor_layout.specs.Entries.{entry_count};
ghost use Rattle.firm_chip.specs.FirmChips.{IsFirmEntry};

use crate::bytes::{are_firm, never_reads};
use nor_layout::{ENTRIES, entry_place};

/// Whether an entry reads the same as free and as open, whatever its weak bits.
fn is_firm_entry(memory: &[u8], weak: &[u8], entry: u16) -> bool
    requires number { entry < entry_count }
    requires room { 8192 ≤ length memory.now }
    requires sizes { length weak.now ≡ length memory.now }
    ensures { IsTrue result → IsFirmEntry memory.now weak.now entry }
{
    let at = entry_place(entry) as usize;
    if are_firm(weak, at, 4) || never_reads(memory, weak, at + 3, 0xFF) {
        return true;
    }
    never_reads(memory, weak, at, 0xFF) && never_reads(memory, weak, at, 0xFC)
}

/// Whether each of them does.
pub(crate) fn are_entries_firm(memory: &[u8], weak: &[u8]) -> bool
    requires room { 8192 ≤ length memory.now }
    requires sizes { length weak.now ≡ length memory.now }
    ensures { IsTrue result → (i : ℕ) → i < entry_count → IsFirmEntry memory.now weak.now i }
{
    for entry in 0..ENTRIES {
        if !is_firm_entry(memory, weak, entry) {
            return false;
        }
    }
    true
}
