//! The erase of a journal by the votes of both others.

ghost use Rattle.std.specs.Prelude.{◌≡◌, ◌+◌, ◌<◌, ◌≤◌, length, OnOk};
ghost use Rattle.std.specs.Result.{IsErrOf};
ghost use Rattle.nor_driver.specs.State.{bits_in, EndsReady, IsNorReady};
ghost use Rattle.erase_journal.specs.Votes.{Last, first_spent, once_erased, renewed};
ghost use Rattle.erase_journal.specs.Journals.{unused, open_blocks, AreJournalsSound, first};
ghost use Rattle.erase_journal.specs.Journals.{tally_of};
ghost use Rattle.erase_journal.specs.Blocks.{SameBlocks};
ghost use Rattle.erase_journal.specs.Steps.{MayErase, IsStep, IsNext, KeepsBlocks};
ghost use Rattle.erase_journal.specs.Torn.{OpensNone, SameData};
ghost use Rattle.erase_journal.specs.Weak.{AreFirmJournals, AreInterruptedAtEachDraw};
ghost use Rattle.erase_journal.specs.Weak.{IsFirmJournal};

use crate::phase::ErasePhase;
use crate::votes::{close_vote, open_vote};
use nor_driver::{Nor, NorError};
use nor_layout::{JOURNALS_END, JournalId};

/// Opens both votes for the erase of a journal.
pub(crate) fn doom<N: Nor>(nor: &mut N, journal: JournalId) -> Result<(), NorError>
    requires size { JOURNALS_END ≤ length (N.state nor.old).memory }
    requires may { MayErase journal (N.state nor.old).memory }
    ensures ok { OnOk result (IsStep (once_erased journal (unused (N.state nor.old).memory))
        (ErasePhase.Doomed journal) (N.state nor.new).memory) }
    ensures one { OnOk result ((first (tally_of (N.state nor.new).memory) journal).opened ≡ 1) }
    ensures blocks { OnOk result (SameBlocks (N.state nor.old).memory (N.state nor.new).memory) }
    ensures cut { IsErrOf result NorError.Cut
        → KeepsBlocks (N.state nor.old).memory (N.state nor.new).memory }
    ensures stays { AreFirmJournals (bits_in (N.state nor.old))
        → OnOk result (AreFirmJournals (bits_in (N.state nor.new))) }
    ensures loses { IsErrOf result NorError.Cut → AreFirmJournals (bits_in (N.state nor.old))
        → AreInterruptedAtEachDraw (bits_in (N.state nor.new)) }
    ensures opens { IsErrOf result NorError.Cut → AreFirmJournals (bits_in (N.state nor.old))
        → OpensNone (bits_in (N.state nor.new)) }
    ensures data { SameData (bits_in (N.state nor.old)) (bits_in (N.state nor.new)) }
    ensures size { length (N.state nor.new).memory ≡ length (N.state nor.old).memory }
    ensures ends { EndsReady result (N.state nor.old) (N.state nor.new) }
{
    let first = journal.first_votes();
    let second = journal.second_votes();
    open_vote(nor, first)?;
    open_vote(nor, second)?;
    Ok(())
}

/// Closes so many open votes of the next journal for the erase of this one, and leaves one at least
/// open.
pub(crate) fn close_older<N: Nor>(
    nor: &mut N,
    journal: JournalId,
    count: u16,
) -> Result<(), NorError>
    requires size { JOURNALS_END ≤ length (N.state nor.old).memory }
    requires ready { IsNorReady (N.state nor.old) }
    requires doomed { AreJournalsSound (ErasePhase.Doomed journal) (N.state nor.old).memory }
    requires more { count < (first (tally_of (N.state nor.old).memory) journal).opened }
    ensures ok { OnOk result (IsNext (ErasePhase.Doomed journal) (N.state nor.old).memory
        (ErasePhase.Doomed journal) (N.state nor.new).memory) }
    ensures left { OnOk result ((first (tally_of (N.state nor.new).memory) journal).opened + count
        ≡ (first (tally_of (N.state nor.old).memory) journal).opened) }
    ensures blocks { OnOk result (SameBlocks (N.state nor.old).memory (N.state nor.new).memory) }
    ensures cut { IsErrOf result NorError.Cut
        → KeepsBlocks (N.state nor.old).memory (N.state nor.new).memory }
    ensures size { length (N.state nor.new).memory ≡ length (N.state nor.old).memory }
    ensures ends { EndsReady result (N.state nor.old) (N.state nor.new) }
{
    let region = journal.first_votes();
    for _ in 0..count {
        close_vote(nor, region)?;
    }
    Ok(())
}

/// Opens another vote of the next journal for the erase of a doomed one, and closes the older ones,
/// of which there are so many: a recovery that was cut may have begun to close one, where bits
/// waver.
pub(crate) fn vote_afresh<N: Nor>(
    nor: &mut N,
    journal: JournalId,
    opened: u16,
) -> Result<(), NorError>
    requires size { JOURNALS_END ≤ length (N.state nor.old).memory }
    requires doomed { AreJournalsSound (ErasePhase.Doomed journal) (N.state nor.old).memory }
    requires opened { (first (tally_of (N.state nor.old).memory) journal).opened ≡ opened }
    requires lasts { Last (renewed journal (first_spent journal
        (unused (N.state nor.old).memory))) }
    ensures ok { OnOk result (IsStep (renewed journal (first_spent journal
        (unused (N.state nor.old).memory))) (ErasePhase.Doomed journal) (N.state nor.new).memory) }
    ensures one { OnOk result ((first (tally_of (N.state nor.new).memory) journal).opened ≡ 1) }
    ensures blocks { OnOk result (SameBlocks (N.state nor.old).memory (N.state nor.new).memory) }
    ensures cut { IsErrOf result NorError.Cut
        → KeepsBlocks (N.state nor.old).memory (N.state nor.new).memory }
    ensures size { length (N.state nor.new).memory ≡ length (N.state nor.old).memory }
    ensures ends { EndsReady result (N.state nor.old) (N.state nor.new) }
{
    open_vote(nor, journal.first_votes())?;
    close_older(nor, journal, opened)
}

/// Erases a journal for which both others vote, and closes the votes.
pub(crate) fn renew<N: Nor>(nor: &mut N, journal: JournalId) -> Result<(), NorError>
    requires size { JOURNALS_END ≤ length (N.state nor.old).memory }
    requires doomed { AreJournalsSound (ErasePhase.Doomed journal) (N.state nor.old).memory }
    requires one { (first (tally_of (N.state nor.old).memory) journal).opened ≡ 1 }
    ensures ok { OnOk result (IsNext (ErasePhase.Doomed journal) (N.state nor.old).memory
        ErasePhase.Idle (N.state nor.new).memory) }
    ensures none { OnOk result (open_blocks (N.state nor.new).memory ≡ 0) }
    ensures firm { OnOk result (IsFirmJournal (N.state nor.new).weak journal) }
    ensures blocks { OnOk result (SameBlocks (N.state nor.old).memory (N.state nor.new).memory) }
    ensures cut { IsErrOf result NorError.Cut
        → KeepsBlocks (N.state nor.old).memory (N.state nor.new).memory }
    ensures stays { AreFirmJournals (bits_in (N.state nor.old))
        → OnOk result (AreFirmJournals (bits_in (N.state nor.new))) }
    ensures loses { IsErrOf result NorError.Cut → AreFirmJournals (bits_in (N.state nor.old))
        → AreInterruptedAtEachDraw (bits_in (N.state nor.new)) }
    ensures opens { IsErrOf result NorError.Cut → AreFirmJournals (bits_in (N.state nor.old))
        → OpensNone (bits_in (N.state nor.new)) }
    ensures data { SameData (bits_in (N.state nor.old)) (bits_in (N.state nor.new)) }
    ensures size { length (N.state nor.new).memory ≡ length (N.state nor.old).memory }
    ensures ends { EndsReady result (N.state nor.old) (N.state nor.new) }
{
    let first = journal.first_votes();
    let second = journal.second_votes();
    nor.erase_small(journal.place())?;
    close_vote(nor, first)?;
    close_vote(nor, second)?;
    Ok(())
}
