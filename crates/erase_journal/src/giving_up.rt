//! Votes are given up that may be half open, or half given up, where bits may waver.

ghost use Rattle.std.specs.Prelude.{◌≡◌, ◌≤◌, length, OnOk, IfErr};
ghost use Rattle.std.specs.Result.{IsErrOf};
ghost use Rattle.nor_layout.specs.Journals.{first_at, second_at};
ghost use Rattle.nor_driver.specs.State.{bits_in, IsNorReady, OnlyMemoryChanges, Refuses};
ghost use Rattle.erase_journal.specs.Journals.{IsSettled, unused, votes_at};
ghost use Rattle.erase_journal.specs.Blocks.{SameBlocks};
ghost use Rattle.erase_journal.specs.Known.{IsKnown};
ghost use Rattle.erase_journal.specs.Spending.{GivesUp, GivesUpEach};
ghost use Rattle.erase_journal.specs.Steps.{KeepsBlocks, OneChanged};
ghost use Rattle.erase_journal.specs.Votes.{first_spent, second_spent};
ghost use Rattle.erase_journal.specs.Weak.{AreFirmOrFew, AreRecoveredVotes, InEachRegion};
ghost use Rattle.erase_journal.specs.Torn.{SameData};

use crate::known::Known;
use crate::unused::{lasts, once_first_spent, once_second_spent};
use crate::votes::give_up_vote;
use nor_driver::{Nor, NorError};
use nor_layout::{JOURNALS_END, JournalId};

/// Gives up a vote of the next journal for the erase of this one, if the votes last then.
fn give_up_first<N: Nor>(nor: &mut N, known: &mut Known, journal: JournalId) -> Result<(), NorError>
    requires size { JOURNALS_END ≤ length (N.state nor.old).memory }
    requires ready { IsNorReady (N.state nor.old) }
    requires settled { IsSettled (N.state nor.old).memory }
    requires known { IsKnown known.old (N.state nor.old).memory }
    ensures settled { OnOk result (IsSettled (N.state nor.new).memory) }
    ensures known { OnOk result (IsKnown known.new (N.state nor.new).memory) }
    ensures gives { OnOk result (GivesUp (first_spent journal (unused (N.state nor.old).memory))
        (unused (N.state nor.old).memory) (unused (N.state nor.new).memory)) }
    ensures given { OnOk result (6 ≤ (votes_at (N.state nor.old).memory (first_at journal)).unused
        → OneChanged (first_at journal) 255 253 (N.state nor.old).memory (N.state nor.new).memory) }
    ensures blocks { OnOk result (SameBlocks (N.state nor.old).memory (N.state nor.new).memory) }
    ensures cut { IsErrOf result NorError.Cut
        → KeepsBlocks (N.state nor.old).memory (N.state nor.new).memory }
    ensures data { SameData (bits_in (N.state nor.old)) (bits_in (N.state nor.new)) }
    ensures size { length (N.state nor.new).memory ≡ length (N.state nor.old).memory }
    ensures kept { OnOk result (OnlyMemoryChanges (N.state nor.old) (N.state nor.new)) }
    ensures fails { IfErr result (λ e. Refuses e (N.state nor.old) (N.state nor.new)) }
{
    let spent = once_first_spent(known.unused, journal);
    if lasts(spent) {
        give_up_vote(nor, journal.first_votes())?;
        *known = Known {
            unused: spent,
            packed: false,
        };
    }
    Ok(())
}

/// Gives up a vote of the journal after the next for the erase of this one, if the votes last then.
fn give_up_second<N: Nor>(
    nor: &mut N,
    known: &mut Known,
    journal: JournalId,
) -> Result<(), NorError>
    requires size { JOURNALS_END ≤ length (N.state nor.old).memory }
    requires ready { IsNorReady (N.state nor.old) }
    requires settled { IsSettled (N.state nor.old).memory }
    requires known { IsKnown known.old (N.state nor.old).memory }
    ensures settled { OnOk result (IsSettled (N.state nor.new).memory) }
    ensures known { OnOk result (IsKnown known.new (N.state nor.new).memory) }
    ensures gives { OnOk result (GivesUp (second_spent journal (unused (N.state nor.old).memory))
        (unused (N.state nor.old).memory) (unused (N.state nor.new).memory)) }
    ensures given { OnOk result (6 ≤ (votes_at (N.state nor.old).memory (second_at journal)).unused
        → OneChanged (second_at journal) 255 253 (N.state nor.old).memory
        (N.state nor.new).memory) }
    ensures blocks { OnOk result (SameBlocks (N.state nor.old).memory (N.state nor.new).memory) }
    ensures cut { IsErrOf result NorError.Cut
        → KeepsBlocks (N.state nor.old).memory (N.state nor.new).memory }
    ensures data { SameData (bits_in (N.state nor.old)) (bits_in (N.state nor.new)) }
    ensures size { length (N.state nor.new).memory ≡ length (N.state nor.old).memory }
    ensures kept { OnOk result (OnlyMemoryChanges (N.state nor.old) (N.state nor.new)) }
    ensures fails { IfErr result (λ e. Refuses e (N.state nor.old) (N.state nor.new)) }
{
    let spent = once_second_spent(known.unused, journal);
    if lasts(spent) {
        give_up_vote(nor, journal.second_votes())?;
        *known = Known {
            unused: spent,
            packed: false,
        };
    }
    Ok(())
}

/// Gives up a vote of each region while the votes last: the one that a doomed journal's erase would
/// open next may be half open. The first votes go before the second ones, since both votes of one
/// journal may be half open.
pub(crate) fn give_up_each<N: Nor>(nor: &mut N, known: &mut Known) -> Result<(), NorError>
    requires size { JOURNALS_END ≤ length (N.state nor.old).memory }
    requires ready { IsNorReady (N.state nor.old) }
    requires settled { IsSettled (N.state nor.old).memory }
    requires known { IsKnown known.old (N.state nor.old).memory }
    ensures settled { OnOk result (IsSettled (N.state nor.new).memory) }
    ensures known { OnOk result (IsKnown known.new (N.state nor.new).memory) }
    ensures gives { OnOk result (GivesUpEach (unused (N.state nor.old).memory)
        (unused (N.state nor.new).memory)) }
    ensures firm { InEachRegion (AreRecoveredVotes (bits_in (N.state nor.old)))
        → OnOk result (InEachRegion (AreFirmOrFew (bits_in (N.state nor.new)))) }
    ensures blocks { OnOk result (SameBlocks (N.state nor.old).memory (N.state nor.new).memory) }
    ensures cut { IsErrOf result NorError.Cut
        → KeepsBlocks (N.state nor.old).memory (N.state nor.new).memory }
    ensures data { SameData (bits_in (N.state nor.old)) (bits_in (N.state nor.new)) }
    ensures size { length (N.state nor.new).memory ≡ length (N.state nor.old).memory }
    ensures kept { OnOk result (OnlyMemoryChanges (N.state nor.old) (N.state nor.new)) }
    ensures fails { IfErr result (λ e. Refuses e (N.state nor.old) (N.state nor.new)) }
{
    give_up_first(nor, known, JournalId::J0)?;
    give_up_first(nor, known, JournalId::J1)?;
    give_up_first(nor, known, JournalId::J2)?;
    give_up_second(nor, known, JournalId::J0)?;
    give_up_second(nor, known, JournalId::J1)?;
    give_up_second(nor, known, JournalId::J2)
}
