//! Why journals are corrupt.

ghost use Rattle.std.specs.Prelude.{◌≡◌, ◌↔◌, IsTrue, IfSome, None};
ghost use Rattle.nor_layout.specs.Journals.{next};
ghost use Rattle.erase_journal.specs.declared.phase.ErasePhase.{ErasePhase};
ghost use Rattle.erase_journal.specs.Faults.{HasVote, IsDoomed};
ghost use Rattle.erase_journal.specs.Journals.{IsSoundTally};
ghost use Rattle.sector_survey.specs.Journals.{HasNoRegionFault, HasNoVoteFault, IsJournalFault};

use erase_journal::JournalTally;
use nor_layout::JournalId;

/// Why journals are corrupt. The votes for the erase of a journal are the first ones, which the
/// next journal holds, and the second ones, which the journal after it holds. A journal is believed
/// unless both others hold an open vote for its erase. Source: own, docs/JOURNAL.md.
#[derive(Clone, Copy, Debug, PartialEq, Eq, Drop)]
pub enum JournalFault {
    /// For the erase of this journal and of the next one both others hold an open vote.
    TwoDoomed { journal: JournalId },
    /// Among the first or the second votes for the erase of a journal, which a believed journal
    /// holds, are bytes that are no vote.
    WrongVotes { journal: JournalId, first: bool },
    /// There more than one vote is open, and if these are the first votes the journal is believed.
    ManyVotes { journal: JournalId, first: bool },
    /// Believed journals hold open votes for the erase of this journal and of the next one.
    TwoNamed { journal: JournalId },
    /// J0 is believed, and its open entries name more than one block.
    ManyEntries,
    /// J0 is believed, one of its entries is open, and so is a vote for the erase of this journal.
    EntryBesideVote { journal: JournalId },
    /// Maintenance could take the last vote of a region.
    NoVotesLeft,
}

/// Why journals that are sound in no phase are corrupt.
pub fn journal_fault(counts: &JournalTally) -> JournalFault
    requires corrupt { (phase : ErasePhase) → IsSoundTally phase counts.now → ⊥ }
    ensures { IsJournalFault result counts.now }
{
    if let Some(fault) = vote_fault(counts, JournalId::J0) {
        return fault;
    }
    if let Some(fault) = vote_fault(counts, JournalId::J1) {
        return fault;
    }
    if let Some(fault) = vote_fault(counts, JournalId::J2) {
        return fault;
    }
    JournalFault::NoVotesLeft
}

/// Why the votes for the erase of a journal are corrupt, beside those of the next one and beside
/// J0's entries.
fn vote_fault(counts: &JournalTally, journal: JournalId) -> Option<JournalFault>
    ensures fault { IfSome result (λ fault. IsJournalFault fault counts.now) }
    ensures none { result ≡ None → HasNoVoteFault counts.now journal }
{
    let following = next(journal);
    if is_doomed(counts, journal) && is_doomed(counts, following) {
        return Some(JournalFault::TwoDoomed { journal });
    }
    if let Some(fault) = region_fault(counts, journal) {
        return Some(fault);
    }
    let voted = has_vote(counts, journal);
    if voted && has_vote(counts, following) {
        return Some(JournalFault::TwoNamed { journal });
    }
    let believed = !is_doomed(counts, JournalId::J0);
    if believed && counts.opened >= 2 {
        return Some(JournalFault::ManyEntries);
    }
    if believed && counts.opened >= 1 && voted {
        return Some(JournalFault::EntryBesideVote { journal });
    }
    None
}

/// Why the first or the second votes for the erase of a journal are corrupt.
fn region_fault(counts: &JournalTally, journal: JournalId) -> Option<JournalFault>
    ensures fault { IfSome result (λ fault. IsJournalFault fault counts.now) }
    ensures none { result ≡ None → HasNoRegionFault counts.now journal }
{
    if !is_doomed(counts, next(journal)) {
        let votes = counts.first(journal);
        if votes.wrong >= 1 {
            return Some(JournalFault::WrongVotes {
                journal,
                first: true,
            });
        }
        if votes.opened >= 2 && !is_doomed(counts, journal) {
            return Some(JournalFault::ManyVotes {
                journal,
                first: true,
            });
        }
    }
    if !is_doomed(counts, next(next(journal))) {
        let votes = counts.second(journal);
        if votes.wrong >= 1 {
            return Some(JournalFault::WrongVotes {
                journal,
                first: false,
            });
        }
        if votes.opened >= 2 {
            return Some(JournalFault::ManyVotes {
                journal,
                first: false,
            });
        }
    }
    None
}

/// The journal after this one, round the three.
fn next(journal: JournalId) -> JournalId
    ensures { result ≡ next journal }
{
    match journal {
        JournalId::J0 => JournalId::J1,
        JournalId::J1 => JournalId::J2,
        JournalId::J2 => JournalId::J0,
    }
}

/// Whether both other journals hold an open vote for the erase of a journal.
fn is_doomed(counts: &JournalTally, journal: JournalId) -> bool
    ensures { IsTrue result ↔ IsDoomed counts.now journal }
{
    counts.first(journal).opened >= 1 && counts.second(journal).opened >= 1
}

/// Whether a believed journal holds an open vote for the erase of a journal.
fn has_vote(counts: &JournalTally, journal: JournalId) -> bool
    ensures { IsTrue result ↔ HasVote counts.now journal }
{
    let first = !is_doomed(counts, next(journal)) && counts.first(journal).opened >= 1;
    let second = !is_doomed(counts, next(next(journal))) && counts.second(journal).opened >= 1;
    first || second
}
