//! The counts of all votes and entries, and the phase that they represent.

ghost use Rattle.std.specs.Prelude.{◌≡◌, ◌↔◌, IsTrue, MatchOption};
ghost use Rattle.nor_layout.specs.Journals.{next};
ghost use Rattle.erase_journal.specs.declared.phase.ErasePhase.{ErasePhase};
ghost use Rattle.erase_journal.specs.Journals.{HoldsVotes, HoldsSomeVotes, HasNoOpenVote};
ghost use Rattle.erase_journal.specs.Journals.{IsInPhase, IsSoundTally};
ghost use Rattle.erase_journal.specs.Journals.{unused_of, settled, first, second};

use crate::phase::ErasePhase;
use crate::scan::VoteCounts;
use crate::unused::{Unused, lasts, once_renewed, once_second_spent};
use nor_layout::JournalId;

/// What is counted in the journals: the votes of each for the erase of each other, the free ones of
/// J0's 512 entries, and how many blocks have an open entry. Source: own.
#[derive(Clone, Copy, Debug, PartialEq, Eq, Drop)]
pub struct JournalTally {
    pub j0_for_1: VoteCounts,
    pub j0_for_2: VoteCounts,
    pub j1_for_0: VoteCounts,
    pub j1_for_2: VoteCounts,
    pub j2_for_0: VoteCounts,
    pub j2_for_1: VoteCounts,
    pub free: u16,
    pub opened: u16,
}

impl JournalTally {
    /// The unused votes, and the free entries.
    pub(crate) fn unused(&self) -> Unused
        ensures { result ≡ unused_of self.now }
    {
        Unused {
            j0_for_1: self.j0_for_1.unused,
            j0_for_2: self.j0_for_2.unused,
            j1_for_0: self.j1_for_0.unused,
            j1_for_2: self.j1_for_2.unused,
            j2_for_0: self.j2_for_0.unused,
            j2_for_1: self.j2_for_1.unused,
            free: self.free,
        }
    }

    /// The votes of the next journal for the erase of this one.
    pub fn first(&self, journal: JournalId) -> VoteCounts
        ensures { result ≡ first self.now journal }
    {
        match journal {
            JournalId::J0 => self.j1_for_0,
            JournalId::J1 => self.j2_for_1,
            JournalId::J2 => self.j0_for_2,
        }
    }

    /// The votes of the journal after the next for the erase of this one.
    pub fn second(&self, journal: JournalId) -> VoteCounts
        ensures { result ≡ second self.now journal }
    {
        match journal {
            JournalId::J0 => self.j2_for_0,
            JournalId::J1 => self.j0_for_1,
            JournalId::J2 => self.j1_for_2,
        }
    }
}

/// Whether a region has so many open votes, and none that is wrong.
fn holds(votes: VoteCounts, opened: u16) -> bool
    ensures { IsTrue result ↔ HoldsVotes votes opened }
{
    votes.opened == opened && votes.wrong == 0
}

/// Whether a region has an open vote, and none that is wrong.
fn holds_some(votes: VoteCounts) -> bool
    ensures { IsTrue result ↔ HoldsSomeVotes votes }
{
    votes.opened >= 1 && votes.wrong == 0
}

/// Whether no vote for the erase of a journal is open.
fn is_quiet(tally: JournalTally, journal: JournalId) -> bool
    ensures { IsTrue result ↔ HasNoOpenVote tally journal }
{
    holds(tally.first(journal), 0) && holds(tally.second(journal), 0)
}

/// Whether no vote is open, and the open entries name one block.
fn is_idle(tally: JournalTally) -> bool
    ensures { IsTrue result ↔ IsInPhase ErasePhase.Idle tally }
{
    is_quiet(tally, JournalId::J0)
        && is_quiet(tally, JournalId::J1)
        && is_quiet(tally, JournalId::J2)
        && tally.opened <= 1
}

/// Whether no vote for the erase of the other two journals is open, and no entry.
fn are_others_quiet(tally: JournalTally, journal: JournalId) -> bool
    ensures { IsTrue result ↔ HasNoOpenVote tally (next journal)
        × HasNoOpenVote tally (next (next journal)) × (tally.opened ≡ 0) }
{
    tally.opened == 0
        && match journal {
            JournalId::J0 => is_quiet(tally, JournalId::J1) && is_quiet(tally, JournalId::J2),
            JournalId::J1 => is_quiet(tally, JournalId::J2) && is_quiet(tally, JournalId::J0),
            JournalId::J2 => is_quiet(tally, JournalId::J0) && is_quiet(tally, JournalId::J1),
        }
}

/// Whether the first of the others votes for the erase of this one, and nothing else goes on.
fn is_asked(tally: JournalTally, journal: JournalId) -> bool
    ensures { IsTrue result ↔ IsInPhase (ErasePhase.Asked journal) tally }
{
    holds(tally.first(journal), 1)
        && holds(tally.second(journal), 0)
        && are_others_quiet(tally, journal)
}

/// Whether both others vote for the erase of this one, and nothing else goes on in them. What this
/// one holds isn't believed.
fn is_doomed(tally: JournalTally, journal: JournalId) -> bool
    ensures { IsTrue result ↔ IsInPhase (ErasePhase.Doomed journal) tally }
{
    let both = holds_some(tally.first(journal)) && holds(tally.second(journal), 1);
    match journal {
        JournalId::J0 => both && holds(tally.j2_for_1, 0) && holds(tally.j1_for_2, 0),
        JournalId::J1 => both
            && holds(tally.j0_for_2, 0)
            && holds(tally.j2_for_0, 0)
            && tally.opened == 0,
        JournalId::J2 => both
            && holds(tally.j1_for_0, 0)
            && holds(tally.j0_for_1, 0)
            && tally.opened == 0,
    }
}

/// Whether the first of these two votes is closed, after the erase of this one.
fn is_closing(tally: JournalTally, journal: JournalId) -> bool
    ensures { IsTrue result ↔ IsInPhase (ErasePhase.Closing journal) tally }
{
    holds(tally.first(journal), 0)
        && holds(tally.second(journal), 1)
        && are_others_quiet(tally, journal)
}

/// Whether the journals are sound in this phase.
fn fits(tally: JournalTally, phase: ErasePhase) -> bool
    ensures { IsTrue result ↔ IsSoundTally phase tally }
{
    let unused = tally.unused();
    match phase {
        ErasePhase::Idle => is_idle(tally) && lasts(unused),
        ErasePhase::Asked(journal) => is_asked(tally, journal)
            && lasts(once_renewed(once_second_spent(unused, journal), journal)),
        ErasePhase::Doomed(journal) => is_doomed(tally, journal)
            && lasts(once_renewed(unused, journal)),
        ErasePhase::Closing(journal) => is_closing(tally, journal) && lasts(unused),
    }
}

/// The numbers once what goes on in a phase is done.
pub(crate) fn once_settled(u: Unused, phase: ErasePhase) -> Unused
    ensures { result ≡ settled phase u }
{
    match phase {
        ErasePhase::Idle => u,
        ErasePhase::Asked(journal) => once_renewed(once_second_spent(u, journal), journal),
        ErasePhase::Doomed(journal) => once_renewed(u, journal),
        ErasePhase::Closing(_) => u,
    }
}

/// The phase of a journal's erase in which the journals are sound.
fn fitting(tally: JournalTally, journal: JournalId) -> Option<ErasePhase>
    ensures { MatchOption result
        ((IsSoundTally (ErasePhase.Asked journal) tally → ⊥)
        × (IsSoundTally (ErasePhase.Doomed journal) tally → ⊥)
        × (IsSoundTally (ErasePhase.Closing journal) tally → ⊥))
        (λ phase. IsSoundTally phase tally) }
{
    if fits(tally, ErasePhase::Asked(journal)) {
        Some(ErasePhase::Asked(journal))
    } else if fits(tally, ErasePhase::Doomed(journal)) {
        Some(ErasePhase::Doomed(journal))
    } else if fits(tally, ErasePhase::Closing(journal)) {
        Some(ErasePhase::Closing(journal))
    } else {
        None
    }
}

/// The phase in which the journals are sound; `None` where they are corrupt.
pub(crate) fn decide(tally: JournalTally) -> Option<ErasePhase>
    ensures { MatchOption result ((phase : ErasePhase) → IsSoundTally phase tally → ⊥)
        (λ phase. IsSoundTally phase tally) }
{
    if fits(tally, ErasePhase::Idle) {
        return Some(ErasePhase::Idle);
    }
    if let Some(phase) = fitting(tally, JournalId::J0) {
        return Some(phase);
    }
    if let Some(phase) = fitting(tally, JournalId::J1) {
        return Some(phase);
    }
    fitting(tally, JournalId::J2)
}
