//! Counts and finds votes and entries in a buffer. Nothing here touches the chip.

ghost use Rattle.std.specs.Prelude.{◌≡◌, ◌+◌, ◌<◌, ◌≤◌, ◌==◌, true, false, ℕ, length, slice_index};
ghost use Rattle.std.specs.Prelude.{MatchOption, ◌≢◌, ◌⊎◌, ◌*◌, ◌↔◌, IsTrue, IsFalse};
ghost use Rattle.chip_model.specs.Memory.{byte};
ghost use Rattle.erase_journal.specs.Firm.{LeavesEntry};
ghost use Rattle.nor_layout.specs.Entries.{block_in};
ghost use Rattle.erase_journal.specs.Scans.{count_equal, count_wrong, free_in, is_free_in, open_in};
ghost use Rattle.erase_journal.specs.Scans.{is_open_in, entry_in, named_in, open_blocks_in};

use nor_layout::{ENTRIES, ENTRIES_LEN, Entry, REGION_LEN, Vote, entry_state, vote_state};

/// How many votes of a region of 1,024 are unused, open, and no vote at all; the others are closed
/// or given up. Source: own.
#[derive(Clone, Copy, Debug, PartialEq, Eq, Drop)]
pub struct VoteCounts {
    pub unused: u16,
    pub opened: u16,
    pub wrong: u16,
}

/// An open entry, from 0 to 511, and the block that it names.
#[derive(Clone, Copy, Debug, PartialEq, Eq, Drop)]
pub struct OpenEntry {
    pub entry: u16,
    pub block: u16,
}

/// Counts the votes of a region.
#[tactic(auto, using(crate::proofs::Scans::scan_steps))]
pub(crate) fn count_votes(bytes: &[u8]) -> VoteCounts
    requires { length bytes.now ≤ REGION_LEN }
    ensures unused { result.unused ≡ count_equal bytes.now 255 (length bytes.now) }
    ensures opened { result.opened ≡ count_equal bytes.now 254 (length bytes.now) }
    ensures wrong { result.wrong ≡ count_wrong bytes.now (length bytes.now) }
{
    let mut unused = 0;
    let mut opened = 0;
    let mut wrong = 0;
    for byte in bytes {
        match vote_state(*byte) {
            Some(Vote::Unused) => unused += 1,
            Some(Vote::Open) => opened += 1,
            Some(Vote::Closed | Vote::GivenUp) => {}
            None => wrong += 1,
        }
    }
    VoteCounts {
        unused,
        opened,
        wrong,
    }
}

/// The lowest place of a byte.
#[tactic(auto, using(crate::proofs::Scans::scan_steps))]
pub(crate) fn lowest(bytes: &[u8], value: u8) -> Option<u32>
    requires { length bytes.now ≤ REGION_LEN }
    ensures found { MatchOption result (count_equal bytes.now value (length bytes.now) ≡ 0)
        (λ at. (at < length bytes.now) × (slice_index bytes.now at ≡ value)) }
    ensures first { MatchOption result (Unit {0}) (λ at. count_equal bytes.now value at ≡ 0) }
{
    let mut at = 0;
    for byte in bytes {
        if *byte == value {
            return Some(at);
        }
        at += 1;
    }
    None
}

/// Whether each byte is FFh.
pub(crate) fn is_blank(bytes: &[u8]) -> bool
    ensures blank { IsTrue result → (k : ℕ) → k < length bytes.now → byte bytes.now k ≡ 255 }
    ensures not_blank { IsFalse result
        → ((k : ℕ) → k < length bytes.now → byte bytes.now k ≡ 255) → ⊥ }
{
    for at in 0..bytes.len() {
        if bytes[at] != 0xff {
            return false;
        }
    }
    true
}

/// What the last byte of an entry of a buffer becomes: 0 where the entry is used and that byte is
/// FFh, else it stays.
fn closed_last(bytes: &[u8], i: usize) -> u8
    requires size { length bytes.now ≡ 256 }
    requires within { i < 64 }
    ensures last { (result ≡ byte bytes.now (4 * i + 3))
        ⊎ ((byte bytes.now (4 * i + 3) ≡ 255) × (is_free_in bytes.now i ≡ false)) }
    ensures closed { is_free_in bytes.now i ≡ false → result ≢ 255 }
{
    let at = 4 * i;
    let last = bytes[at + 3];
    if last != 0xff {
        return last;
    }
    if bytes[at] == 0xff && bytes[at + 1] == 0xff && bytes[at + 2] == 0xff {
        return last;
    }
    0
}

/// In a page of 64 entries, clears the last byte of each that is used and in which it is FFh.
pub(crate) fn close_used(bytes: &mut [u8])
    requires { length bytes.old ≡ 256 }
    ensures each { (i : ℕ) → i < 64 → LeavesEntry i bytes.old bytes.new }
    ensures closed { (i : ℕ) → i < 64 → is_free_in bytes.old i ≡ false
        → byte bytes.new (4 * i + 3) < 255 }
    ensures size { length bytes.new ≡ length bytes.old }
{
    for i in 0..64usize {
        bytes[4 * i + 3] = closed_last(bytes, i);
    }
}

/// The lowest free entry of a buffer.
#[tactic(auto, using(crate::proofs::Scans::scan_steps))]
pub(crate) fn lowest_free(bytes: &[u8]) -> Option<u16>
    requires { length bytes.now ≡ ENTRIES_LEN }
    ensures found { MatchOption result (free_in bytes.now ENTRIES ≡ 0)
        (λ i. (i < ENTRIES) × (is_free_in bytes.now i ≡ true)) }
    ensures first { MatchOption result (Unit {0}) (λ i. free_in bytes.now i ≡ 0) }
{
    for i in 0..ENTRIES {
        let at = 4 * i as usize;
        if bytes[at] == 0xff
            && bytes[at + 1] == 0xff
            && bytes[at + 2] == 0xff
            && bytes[at + 3] == 0xff
        {
            return Some(i);
        }
    }
    None
}

/// How many entries of a buffer are free.
#[tactic(auto, using(crate::proofs::Scans::scan_steps))]
pub(crate) fn count_free(bytes: &[u8]) -> u16
    requires { length bytes.now ≡ ENTRIES_LEN }
    ensures free { result ≡ free_in bytes.now ENTRIES }
    ensures bytes { (i : ℕ) → byte bytes.now i < 256 }
{
    let mut free = 0;
    for i in 0..ENTRIES {
        let at = 4 * i as usize;
        if bytes[at] == 0xff
            && bytes[at + 1] == 0xff
            && bytes[at + 2] == 0xff
            && bytes[at + 3] == 0xff
        {
            free += 1;
        }
    }
    free
}

/// The block of an entry of a buffer that is open, on a chip of so many blocks.
#[tactic(auto, using(crate::proofs::Scans::scan_steps))]
pub(crate) fn open_block(bytes: &[u8], blocks: u16, i: u16) -> Option<u16>
    requires size { length bytes.now ≡ ENTRIES_LEN }
    requires within { i < ENTRIES }
    ensures none { MatchOption result (is_open_in bytes.now blocks i ≡ false)
        (λ block. is_open_in bytes.now blocks i ≡ true) }
    ensures block { MatchOption result (Unit {0})
        (λ block. block ≡ block_in (entry_in bytes.now i)) }
{
    let at = 4 * i as usize;
    match entry_state(
        [bytes[at], bytes[at + 1], bytes[at + 2], bytes[at + 3]],
        blocks,
    ) {
        Entry::Open(block) => Some(block),
        Entry::Free => None,
        Entry::Closed => None,
        Entry::Spent => None,
    }
}

/// The lowest open entry of a buffer, on a chip of so many blocks.
#[tactic(auto, using(crate::proofs::Scans::scan_steps))]
pub(crate) fn lowest_open(bytes: &[u8], blocks: u16) -> Option<OpenEntry>
    requires { length bytes.now ≡ ENTRIES_LEN }
    ensures found { MatchOption result (open_in bytes.now blocks ENTRIES ≡ 0)
        (λ o. (o.entry < ENTRIES) × (is_open_in bytes.now blocks o.entry ≡ true)
        × (block_in (entry_in bytes.now o.entry) ≡ o.block)) }
    ensures first { MatchOption result (Unit {0}) (λ o. open_in bytes.now blocks o.entry ≡ 0) }
{
    for entry in 0..ENTRIES {
        if let Some(block) = open_block(bytes, blocks, entry) {
            return Some(OpenEntry { entry, block });
        }
    }
    None
}

/// Whether one of so many entries of a buffer is open for a block.
#[tactic(auto, using(crate::proofs::Scans::scan_steps))]
fn is_named(bytes: &[u8], blocks: u16, count: u16, block: u16) -> bool
    requires size { length bytes.now ≡ ENTRIES_LEN }
    requires within { count ≤ ENTRIES }
    ensures { IsTrue result ↔ (0 < named_in bytes.now blocks count block) }
{
    for entry in 0..count {
        if let Some(named) = open_block(bytes, blocks, entry) {
            if named == block {
                return true;
            }
        }
    }
    false
}

/// How many blocks have an open entry in a buffer, on a chip of so many blocks.
#[tactic(auto, using(crate::proofs::Scans::scan_steps))]
pub(crate) fn count_open(bytes: &[u8], blocks: u16) -> u16
    requires { length bytes.now ≡ ENTRIES_LEN }
    ensures { result ≡ open_blocks_in bytes.now blocks ENTRIES }
{
    let mut opened = 0;
    for entry in 0..ENTRIES {
        if let Some(block) = open_block(bytes, blocks, entry) {
            if !is_named(bytes, blocks, entry, block) {
                opened += 1;
            }
        }
    }
    opened
}
