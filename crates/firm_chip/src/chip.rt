//! A whole chip.

ghost use Rattle.std.specs.Prelude.{◌≡◌, ℕ, ◌+◌, ◌<◌, ◌≤◌, length, IsTrue};
ghost use Rattle.nor_layout.specs.declared.journal.JournalId.{JournalId};
ghost use Rattle.nor_layout.specs.Journals.{journal_at};
ghost use Rattle.erase_journal.specs.Weak.{IsFirmVote};
ghost use Rattle.firm_chip.specs.FirmChips.{AreVotesFirm, IsFirmChip};

use crate::block::{are_blocks_firm, has_room};
use crate::bytes::are_firm;
use crate::entry::are_entries_firm;
use crate::slot::are_fading_alone;

/// Whether a vote reads the same, whatever its weak bits, or as closed or given up.
fn is_firm_vote(memory: &[u8], weak: &[u8], at: usize) -> bool
    requires within { at < length memory.now }
    requires sizes { length weak.now ≡ length memory.now }
    ensures { IsTrue result → IsFirmVote memory.now weak.now at }
{
    if weak[at] == 0 {
        return true;
    }
    weak[at] == 1 && (memory[at] == 0xFC || memory[at] == 0xFD)
}

/// Whether each vote of the journal that begins at a place does.
fn are_votes_firm(memory: &[u8], weak: &[u8], at: usize) -> bool
    requires within { at + 2048 ≤ length memory.now }
    requires sizes { length weak.now ≡ length memory.now }
    ensures { IsTrue result → AreVotesFirm memory.now weak.now at }
{
    for k in 0..2048usize {
        if !is_firm_vote(memory, weak, at + k) {
            return false;
        }
    }
    true
}

/// Whether those of the three journals do.
fn are_journals_firm(memory: &[u8], weak: &[u8]) -> bool
    requires room { 16384 ≤ length memory.now }
    requires sizes { length weak.now ≡ length memory.now }
    ensures { IsTrue result → (j : JournalId) → AreVotesFirm memory.now weak.now (journal_at j) }
{
    if !are_votes_firm(memory, weak, 4096) || !are_votes_firm(memory, weak, 8192) {
        return false;
    }
    are_votes_firm(memory, weak, 12288)
}

/// Whether a chip reads as the same disk whatever its weak bits read as: true only where its
/// memory, as it reads now, and its weak bits, as many bytes, are those of a firm chip. False also
/// where an erase or a copying goes on, and where a block is of a group of sectors (layout 1).
pub fn is_firm(memory: &[u8], weak: &[u8]) -> bool
    ensures { IsTrue result → IsFirmChip memory.now weak.now }
{
    if weak.len() != memory.len() || memory.len() < 65_536 || memory.len() > 16_777_216 {
        return false;
    }
    let blocks = (memory.len() / 4096 - 4) as u16;
    if !are_firm(weak, 0, 16)
        || !are_journals_firm(memory, weak)
        || !are_entries_firm(memory, weak)
    {
        return false;
    }
    if !are_blocks_firm(memory, weak, blocks) || !has_room(memory, weak, blocks) {
        return false;
    }
    are_fading_alone(memory, weak, 7 * blocks)
}
