//! Bytes of a chip and their weak bits.

ghost use Rattle.std.specs.Prelude.{◌≡◌, ℕ, ◌+◌, ◌<◌, ◌≤◌, length, IsTrue};
ghost use Rattle.std.specs.Int.{bit_at};
ghost use Rattle.chip_model.specs.Memory.{byte};
ghost use Rattle.erase_journal.specs.Weak.{AreFirm};
ghost use Rattle.firm_chip.specs.FirmChips.{AreFirmly, NeverReads, NeverFree};

/// Whether none of so many bytes from a place on has a weak bit.
pub(crate) fn are_firm(weak: &[u8], at: usize, count: usize) -> bool
    requires within { at + count ≤ length weak.now }
    ensures { IsTrue result → AreFirm weak.now at count }
{
    for k in 0..count {
        if weak[at + k] != 0 {
            return false;
        }
    }
    true
}

/// Whether each of them is this value, besides.
pub(crate) fn are_firmly(memory: &[u8], weak: &[u8], at: usize, count: usize, value: u8) -> bool
    requires within { at + count ≤ length memory.now }
    requires sizes { length weak.now ≡ length memory.now }
    ensures { IsTrue result → AreFirmly memory.now weak.now at count value }
{
    for k in 0..count {
        if weak[at + k] != 0 || memory[at + k] != value {
            return false;
        }
    }
    true
}

/// Whether a firm bit of the byte at a place isn't the value's.
pub(crate) fn never_reads(memory: &[u8], weak: &[u8], at: usize, value: u8) -> bool
    requires within { at < length memory.now }
    requires sizes { length weak.now ≡ length memory.now }
    ensures { IsTrue result → NeverReads memory.now weak.now at value }
{
    for bit in 0..8u8 {
        if (weak[at] >> bit) & 1 == 0 && (memory[at] >> bit) & 1 != (value >> bit) & 1 {
            return true;
        }
    }
    false
}

/// Whether one of the four bytes from a place on never reads FFh.
pub(crate) fn never_free(memory: &[u8], weak: &[u8], at: usize) -> bool
    requires within { at + 4 ≤ length memory.now }
    requires sizes { length weak.now ≡ length memory.now }
    ensures { IsTrue result → NeverFree memory.now weak.now at }
{
    for place in 0..4usize {
        if never_reads(memory, weak, at + place, 0xFF) {
            return true;
        }
    }
    false
}
