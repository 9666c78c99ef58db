//! Recovery: finishes the erase that a loss of power interrupted.

ghost use Rattle.std.specs.Prelude.{◌↔◌, ◌⊎◌, None, false, IsSome, IfOk, IfSome, ◌≡◌, ◌≤◌, length};
ghost use Rattle.std.specs.Prelude.{OnOk, IfErr, IsTrue};
ghost use Rattle.std.specs.Result.{IsErrOf};
ghost use Rattle.nor_driver.specs.State.{bits_in, EndsReady, IsNorReady, OnlyMemoryChanges};
ghost use Rattle.nor_driver.specs.State.{Refuses, IsFirmer};
ghost use Rattle.erase_journal.specs.Journals.{AreJournalsSound, IsSettled, IsHealthy, settled};
ghost use Rattle.erase_journal.specs.Journals.{unused, first, tally_of};
ghost use Rattle.erase_journal.specs.Blocks.{SameBlocks};
ghost use Rattle.erase_journal.specs.Steps.{SameNumbers, KeepsBlocks, EndsSettled, StayNamed};
ghost use Rattle.erase_journal.specs.Spending.{Continues, SpendsOne};
ghost use Rattle.erase_journal.specs.Journals.{begun};
ghost use Rattle.erase_journal.specs.Votes.{Last, first_spent, renewed};
ghost use Rattle.erase_journal.specs.Weak.{AreNamedFirm, AreOpenedFirm, AreVotesBelieved};
ghost use Rattle.erase_journal.specs.Weak.{IsFirmJournal, SettlesFirmly};
ghost use Rattle.nor_layout.specs.declared.journal.JournalId.{JournalId};
ghost use Rattle.erase_journal.specs.Recovery.{seen, Restored, RestoreCut, RestoreSlow};
ghost use Rattle.erase_journal.specs.Recovery.{RestoreCorrupt};

use crate::Firmness;
use crate::again::{program_pages_again, program_votes_again};
use crate::journal_erase::{close_older, renew, vote_afresh};
use crate::open_entries::{erase_opened, open_afresh};
use crate::phase::ErasePhase;
use crate::read::read_tally;
use crate::tally::{JournalTally, decide, once_settled};
use crate::unused::{Unused, lasts, once_first_spent, once_renewed, once_second_spent, once_taken};
use crate::votes::{close_vote, give_up_vote, open_vote};
use nor_driver::{Nor, NorError};
use nor_layout::{JOURNALS_END, JournalId, entry_place};

/// Erases a journal for which both others vote again, and closes the votes.
fn resume_doomed<N: Nor>(nor: &mut N, journal: JournalId) -> Result<(), NorError>
    requires size { JOURNALS_END ≤ length (N.state nor.old).memory }
    requires doomed { AreJournalsSound (ErasePhase.Doomed journal) (N.state nor.old).memory }
    requires one { (first (tally_of (N.state nor.old).memory) journal).opened ≡ 1 }
    ensures numbers { OnOk result (SameNumbers
        (settled (ErasePhase.Doomed journal) (unused (N.state nor.old).memory))
        (unused (N.state nor.new).memory)) }
    ensures firm { OnOk result (IsFirmJournal (N.state nor.new).weak journal) }
    ensures blocks { OnOk result (SameBlocks (N.state nor.old).memory (N.state nor.new).memory) }
    ensures cut { IsErrOf result NorError.Cut
        → KeepsBlocks (N.state nor.old).memory (N.state nor.new).memory }
    ensures size { length (N.state nor.new).memory ≡ length (N.state nor.old).memory }
    ensures ends { EndsSettled result (N.state nor.old) (N.state nor.new) }
{
    renew(nor, journal)?;
    Ok(())
}

/// Closes the last vote of an erase that is done.
fn resume_closing<N: Nor>(nor: &mut N, journal: JournalId) -> Result<(), NorError>
    requires size { JOURNALS_END ≤ length (N.state nor.old).memory }
    requires closing { AreJournalsSound (ErasePhase.Closing journal) (N.state nor.old).memory }
    ensures numbers { OnOk result (SameNumbers
        (settled (ErasePhase.Closing journal) (unused (N.state nor.old).memory))
        (unused (N.state nor.new).memory)) }
    ensures blocks { OnOk result (SameBlocks (N.state nor.old).memory (N.state nor.new).memory) }
    ensures cut { IsErrOf result NorError.Cut
        → KeepsBlocks (N.state nor.old).memory (N.state nor.new).memory }
    ensures size { length (N.state nor.new).memory ≡ length (N.state nor.old).memory }
    ensures ends { EndsSettled result (N.state nor.old) (N.state nor.new) }
{
    close_vote(nor, journal.second_votes())?;
    Ok(())
}

/// Goes on with what a loss of power interrupted in this phase, once that is made sure of.
fn resume<N: Nor>(nor: &mut N, phase: ErasePhase) -> Result<(), NorError>
    requires size { JOURNALS_END ≤ length (N.state nor.old).memory }
    requires sound { AreJournalsSound (begun phase) (N.state nor.old).memory }
    requires one { (x : JournalId) → begun phase ≡ ErasePhase.Doomed x
        → (first (tally_of (N.state nor.old).memory) x).opened ≡ 1 }
    ensures numbers { OnOk result (SameNumbers
        (settled (begun phase) (unused (N.state nor.old).memory))
        (unused (N.state nor.new).memory)) }
    ensures firm { (x : JournalId) → begun phase ≡ ErasePhase.Doomed x
        → OnOk result (IsFirmJournal (N.state nor.new).weak x) }
    ensures erased { phase ≡ ErasePhase.Idle
        → OnOk result (AreNamedFirm (N.state nor.old).memory (N.state nor.new).weak) }
    ensures rests { IsSettled (N.state nor.old).memory
        → ((N.state nor.new).memory ≡ (N.state nor.old).memory)
        × ((N.state nor.new).weak ≡ (N.state nor.old).weak) }
    ensures blocks { OnOk result (SameBlocks (N.state nor.old).memory (N.state nor.new).memory) }
    ensures cut { IsErrOf result NorError.Cut
        → KeepsBlocks (N.state nor.old).memory (N.state nor.new).memory }
    ensures size { length (N.state nor.new).memory ≡ length (N.state nor.old).memory }
    ensures ends { EndsSettled result (N.state nor.old) (N.state nor.new) }
{
    match phase {
        ErasePhase::Idle => erase_opened(nor),
        ErasePhase::Asked(journal) | ErasePhase::Doomed(journal) => resume_doomed(nor, journal),
        ErasePhase::Closing(journal) => resume_closing(nor, journal),
    }
}

/// Programs what a recovery is about to act on as it was read, where bits may waver: the votes, and
/// where an entry is open the entries.
fn believe<N: Nor>(nor: &mut N, firmness: Firmness, opened: u16) -> Result<(), NorError>
    requires ready { IsNorReady (N.state nor.old) }
    requires size { JOURNALS_END ≤ length (N.state nor.old).memory }
    ensures same { (N.state nor.new).memory ≡ (N.state nor.old).memory }
    ensures firm { firmness ≡ Firmness.Firm
        → OnOk result (AreVotesBelieved (bits_in (N.state nor.new))) }
    ensures firmer { IsFirmer (bits_in (N.state nor.old)) (bits_in (N.state nor.new)) }
    ensures kept { OnOk result (OnlyMemoryChanges (N.state nor.old) (N.state nor.new)) }
    ensures fails { IfErr result (λ e. Refuses e (N.state nor.old) (N.state nor.new)) }
{
    match firmness {
        Firmness::Steady => Ok(()),
        Firmness::Firm => {
            program_votes_again(nor)?;
            if opened == 0 {
                return Ok(());
            }
            program_pages_again(nor, entry_place(0))
        }
    }
}

/// Whether another entry is to be opened for the block of the open entries: where bits may waver,
/// and another entry is free behind it.
fn is_entry_due(firmness: Firmness, tally: JournalTally) -> bool
    ensures { IsTrue result → (firmness ≡ Firmness.Firm) × (1 ≤ tally.opened)
        × (2 ≤ tally.free) }
{
    match firmness {
        Firmness::Steady => false,
        Firmness::Firm => tally.opened >= 1 && tally.free >= 2,
    }
}

/// Whether a vote is to be spent that steady bits don't need, which comes to these numbers: where
/// bits may waver, and the votes last then.
fn is_vote_due(firmness: Firmness, left: Unused) -> bool
    ensures { IsTrue result → (firmness ≡ Firmness.Firm) × Last left }
{
    match firmness {
        Firmness::Steady => false,
        Firmness::Firm => lasts(left),
    }
}

/// Where bits may waver, opens another entry for the block of the open entries. A recovery that was
/// cut may have begun to close those, so that the erase needs one that was opened in this recovery.
/// Answers the numbers then.
fn refresh_idle<N: Nor>(
    nor: &mut N,
    firmness: Firmness,
    tally: JournalTally,
) -> Result<Unused, NorError>
    requires ready { IsNorReady (N.state nor.old) }
    requires size { JOURNALS_END ≤ length (N.state nor.old).memory }
    requires tally { tally ≡ tally_of (N.state nor.old).memory }
    requires idle { AreJournalsSound ErasePhase.Idle (N.state nor.old).memory }
    ensures rests { tally.opened ≡ 0 → N.state nor.new ≡ N.state nor.old }
    ensures sound { OnOk result (AreJournalsSound ErasePhase.Idle (N.state nor.new).memory) }
    ensures opened { OnOk result (StayNamed (N.state nor.old).memory (N.state nor.new).memory) }
    ensures numbers { IfOk result (λ u. SameNumbers u (unused (N.state nor.new).memory)) }
    ensures spends { IfOk result (λ u.
        SpendsOne firmness ErasePhase.Idle (N.state nor.old).memory u) }
    ensures blocks { OnOk result (SameBlocks (N.state nor.old).memory (N.state nor.new).memory) }
    ensures cut { IsErrOf result NorError.Cut
        → KeepsBlocks (N.state nor.old).memory (N.state nor.new).memory }
    ensures size { length (N.state nor.new).memory ≡ length (N.state nor.old).memory }
    ensures kept { OnOk result (OnlyMemoryChanges (N.state nor.old) (N.state nor.new)) }
    ensures fails { IfErr result (λ e. Refuses e (N.state nor.old) (N.state nor.new)) }
{
    let unused = tally.unused();
    if is_entry_due(firmness, tally) {
        open_afresh(nor)?;
        return Ok(once_taken(unused));
    }
    Ok(unused)
}

/// Opens the vote of the journal after the next for the erase of one for which the next one votes.
/// Where bits may waver the next one votes afresh: its vote may have been given up before it read
/// as open, and a recovery that was cut may have begun that. Answers the numbers then.
fn refresh_asked<N: Nor>(
    nor: &mut N,
    firmness: Firmness,
    journal: JournalId,
    tally: JournalTally,
) -> Result<Unused, NorError>
    requires ready { IsNorReady (N.state nor.old) }
    requires size { JOURNALS_END ≤ length (N.state nor.old).memory }
    requires tally { tally ≡ tally_of (N.state nor.old).memory }
    requires asked { AreJournalsSound (ErasePhase.Asked journal) (N.state nor.old).memory }
    ensures sound { OnOk result
        (AreJournalsSound (ErasePhase.Doomed journal) (N.state nor.new).memory) }
    ensures one { OnOk result ((first (tally_of (N.state nor.new).memory) journal).opened ≡ 1) }
    ensures numbers { IfOk result (λ u. SameNumbers (settled (ErasePhase.Asked journal) u)
        (renewed journal (unused (N.state nor.new).memory))) }
    ensures spends { IfOk result (λ u.
        SpendsOne firmness (ErasePhase.Asked journal) (N.state nor.old).memory u) }
    ensures blocks { OnOk result (SameBlocks (N.state nor.old).memory (N.state nor.new).memory) }
    ensures cut { IsErrOf result NorError.Cut
        → KeepsBlocks (N.state nor.old).memory (N.state nor.new).memory }
    ensures size { length (N.state nor.new).memory ≡ length (N.state nor.old).memory }
    ensures kept { OnOk result (OnlyMemoryChanges (N.state nor.old) (N.state nor.new)) }
    ensures fails { IfErr result (λ e. Refuses e (N.state nor.old) (N.state nor.new)) }
{
    open_vote(nor, journal.second_votes())?;
    let unused = tally.unused();
    let spent = once_first_spent(unused, journal);
    let left = once_renewed(once_second_spent(spent, journal), journal);
    if is_vote_due(firmness, left) {
        vote_afresh(nor, journal, 1)?;
        return Ok(spent);
    }
    Ok(unused)
}

/// Leaves one open vote of the next journal for the erase of a doomed one. Where bits may waver
/// that is another one: a recovery that was cut may have begun to close those that are open.
/// Answers the numbers then.
fn refresh_doomed<N: Nor>(
    nor: &mut N,
    firmness: Firmness,
    journal: JournalId,
    tally: JournalTally,
) -> Result<Unused, NorError>
    requires ready { IsNorReady (N.state nor.old) }
    requires size { JOURNALS_END ≤ length (N.state nor.old).memory }
    requires tally { tally ≡ tally_of (N.state nor.old).memory }
    requires doomed { AreJournalsSound (ErasePhase.Doomed journal) (N.state nor.old).memory }
    ensures sound { OnOk result
        (AreJournalsSound (ErasePhase.Doomed journal) (N.state nor.new).memory) }
    ensures one { OnOk result ((first (tally_of (N.state nor.new).memory) journal).opened ≡ 1) }
    ensures numbers { IfOk result (λ u. SameNumbers (renewed journal u)
        (renewed journal (unused (N.state nor.new).memory))) }
    ensures spends { IfOk result (λ u.
        SpendsOne firmness (ErasePhase.Doomed journal) (N.state nor.old).memory u) }
    ensures blocks { OnOk result (SameBlocks (N.state nor.old).memory (N.state nor.new).memory) }
    ensures cut { IsErrOf result NorError.Cut
        → KeepsBlocks (N.state nor.old).memory (N.state nor.new).memory }
    ensures size { length (N.state nor.new).memory ≡ length (N.state nor.old).memory }
    ensures kept { OnOk result (OnlyMemoryChanges (N.state nor.old) (N.state nor.new)) }
    ensures fails { IfErr result (λ e. Refuses e (N.state nor.old) (N.state nor.new)) }
{
    let unused = tally.unused();
    let opened = tally.first(journal).opened;
    let spent = once_first_spent(unused, journal);
    if is_vote_due(firmness, once_renewed(spent, journal)) {
        vote_afresh(nor, journal, opened)?;
        return Ok(spent);
    }
    close_older(nor, journal, opened - 1)?;
    Ok(unused)
}

/// Where bits may waver, gives up a vote of the next journal for the erase of this one, which is
/// done: a recovery that was cut may have begun to open it, and once the other vote is closed it
/// must not read as open. Answers the numbers then.
fn refresh_closing<N: Nor>(
    nor: &mut N,
    firmness: Firmness,
    journal: JournalId,
    tally: JournalTally,
) -> Result<Unused, NorError>
    requires ready { IsNorReady (N.state nor.old) }
    requires size { JOURNALS_END ≤ length (N.state nor.old).memory }
    requires tally { tally ≡ tally_of (N.state nor.old).memory }
    requires closing { AreJournalsSound (ErasePhase.Closing journal) (N.state nor.old).memory }
    ensures sound { OnOk result
        (AreJournalsSound (ErasePhase.Closing journal) (N.state nor.new).memory) }
    ensures numbers { IfOk result (λ u. SameNumbers u (unused (N.state nor.new).memory)) }
    ensures spends { IfOk result (λ u.
        SpendsOne firmness (ErasePhase.Closing journal) (N.state nor.old).memory u) }
    ensures blocks { OnOk result (SameBlocks (N.state nor.old).memory (N.state nor.new).memory) }
    ensures cut { IsErrOf result NorError.Cut
        → KeepsBlocks (N.state nor.old).memory (N.state nor.new).memory }
    ensures size { length (N.state nor.new).memory ≡ length (N.state nor.old).memory }
    ensures kept { OnOk result (OnlyMemoryChanges (N.state nor.old) (N.state nor.new)) }
    ensures fails { IfErr result (λ e. Refuses e (N.state nor.old) (N.state nor.new)) }
{
    let unused = tally.unused();
    let spent = once_first_spent(unused, journal);
    if is_vote_due(firmness, spent) {
        give_up_vote(nor, journal.first_votes())?;
        return Ok(spent);
    }
    Ok(unused)
}

/// Makes sure of what a recovery goes on with in this phase, and answers the numbers then. A
/// journal that is asked for is doomed then.
fn refresh<N: Nor>(
    nor: &mut N,
    firmness: Firmness,
    phase: ErasePhase,
    tally: JournalTally,
) -> Result<Unused, NorError>
    requires ready { IsNorReady (N.state nor.old) }
    requires size { JOURNALS_END ≤ length (N.state nor.old).memory }
    requires tally { tally ≡ tally_of (N.state nor.old).memory }
    requires sound { AreJournalsSound phase (N.state nor.old).memory }
    ensures rests { IsSettled (N.state nor.old).memory → N.state nor.new ≡ N.state nor.old }
    ensures sound { OnOk result (AreJournalsSound (begun phase) (N.state nor.new).memory) }
    ensures one { (x : JournalId) → begun phase ≡ ErasePhase.Doomed x
        → OnOk result ((first (tally_of (N.state nor.new).memory) x).opened ≡ 1) }
    ensures opened { phase ≡ ErasePhase.Idle
        → OnOk result (StayNamed (N.state nor.old).memory (N.state nor.new).memory) }
    ensures numbers { IfOk result (λ u.
        SameNumbers (settled phase u) (settled (begun phase) (unused (N.state nor.new).memory))) }
    ensures spends { IfOk result (λ u. SpendsOne firmness phase (N.state nor.old).memory u) }
    ensures blocks { OnOk result (SameBlocks (N.state nor.old).memory (N.state nor.new).memory) }
    ensures cut { IsErrOf result NorError.Cut
        → KeepsBlocks (N.state nor.old).memory (N.state nor.new).memory }
    ensures size { length (N.state nor.new).memory ≡ length (N.state nor.old).memory }
    ensures kept { OnOk result (OnlyMemoryChanges (N.state nor.old) (N.state nor.new)) }
    ensures fails { IfErr result (λ e. Refuses e (N.state nor.old) (N.state nor.new)) }
{
    match phase {
        ErasePhase::Idle => refresh_idle(nor, firmness, tally),
        ErasePhase::Asked(journal) => refresh_asked(nor, firmness, journal, tally),
        ErasePhase::Doomed(journal) => refresh_doomed(nor, firmness, journal, tally),
        ErasePhase::Closing(journal) => refresh_closing(nor, firmness, journal, tally),
    }
}

/// Reads the journals and settles them, and answers their numbers then. `None` where they are
/// corrupt, and then nothing has changed.
pub(crate) fn settle<N: Nor>(nor: &mut N, firmness: Firmness) -> Result<Option<Unused>, NorError>
    requires size { JOURNALS_END ≤ length (N.state nor.old).memory }
    ensures healthy { IfOk result (λ found. IsSome found ↔ IsHealthy (N.state nor.old).memory) }
    ensures settled { IfOk result (λ found.
        IfSome found (λ u. IsSettled (N.state nor.new).memory)) }
    ensures numbers { IfOk result (λ found.
        IfSome found (λ u. SameNumbers u (unused (N.state nor.new).memory))) }
    ensures continues { IfOk result (λ found.
        IfSome found (λ u. Continues firmness (N.state nor.old).memory (N.state nor.new).memory)) }
    ensures blocks { IfOk result (λ found.
        IfSome found (λ u. SameBlocks (N.state nor.old).memory (N.state nor.new).memory)) }
    ensures settles { firmness ≡ Firmness.Firm → IfOk result (λ found.
        IfSome found (λ u. SettlesFirmly (bits_in (N.state nor.old))
        (bits_in (N.state nor.new)))) }
    ensures erased { IfOk result (λ found.
        IfSome found (λ u. AreOpenedFirm (N.state nor.old).memory (N.state nor.new).weak)) }
    ensures corrupt { IfOk result (λ found. found ≡ None
        → (N.state nor.new).memory ≡ (N.state nor.old).memory) }
    ensures rests { IsSettled (N.state nor.old).memory
        → ((N.state nor.new).memory ≡ (N.state nor.old).memory)
        × IsFirmer (bits_in (N.state nor.old)) (bits_in (N.state nor.new)) }
    ensures cut { IsErrOf result NorError.Cut
        → ((N.state nor.new).memory ≡ (N.state nor.old).memory)
        ⊎ KeepsBlocks (N.state nor.old).memory (N.state nor.new).memory }
    ensures size { length (N.state nor.new).memory ≡ length (N.state nor.old).memory }
    ensures ends { EndsReady result (N.state nor.old) (N.state nor.new) }
{
    let tally = read_tally(nor)?;
    let Some(phase) = decide(tally) else {
        return Ok(None);
    };
    believe(nor, firmness, tally.opened)?;
    let unused = refresh(nor, firmness, phase, tally)?;
    resume(nor, phase)?;
    Ok(Some(once_settled(unused, phase)))
}

/// Turns the power off and on again, reads the journals and settles them, and answers their numbers
/// then. `None` where they are corrupt.
pub(crate) fn restart<N: Nor>(nor: &mut N, firmness: Firmness) -> Result<Option<Unused>, NorError>
    requires size { JOURNALS_END ≤ length (N.state nor.old).memory }
    ensures sound { IfOk result (λ found.
        IfSome found (λ u. Restored (N.state nor.old) (N.state nor.new))) }
    ensures numbers { IfOk result (λ found.
        IfSome found (λ u. SameNumbers u (unused (N.state nor.new).memory))) }
    ensures corrupt { IfOk result (λ found. found ≡ None
        → RestoreCorrupt (N.state nor.old) (seen false (N.state nor.new))) }
    ensures cut { IsErrOf result NorError.Cut → RestoreCut (N.state nor.old) (N.state nor.new) }
    ensures slow { IsErrOf result NorError.Slow → RestoreSlow (N.state nor.old) (N.state nor.new) }
{
    nor.restart()?;
    settle(nor, firmness)
}
