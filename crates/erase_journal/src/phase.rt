//! The phases of a journal's erase.

use nor_layout::JournalId;

/// Where the votes stand: which erase of a journal goes on, and how far it has come.
///
/// Its steps are: one vote, two votes, the erase, no vote of the next journal, no vote at all.
#[derive(Clone, Copy, Debug, PartialEq, Eq, Drop)]
pub enum ErasePhase {
    /// No erase of a journal goes on. An entry may be open.
    Idle,
    /// Only the next journal votes for the erase of this one.
    Asked(JournalId),
    /// Both other journals vote for the erase of this one: what it holds isn't believed.
    Doomed(JournalId),
    /// This journal was erased, and only the journal after the next still votes.
    Closing(JournalId),
}
