//! The erase of all three journals, tired or not: nothing that an earlier session programmed is
//! left in them.

ghost use Rattle.std.specs.Prelude.{◌≡◌, ◌≤◌, length, OnOk, IfOk};
ghost use Rattle.std.specs.Result.{IsErrOf};
ghost use Rattle.nor_driver.specs.State.{IsNorReady, EndsReady};
ghost use Rattle.erase_journal.specs.Journals.{IsSettled, IsHealthy, unused};
ghost use Rattle.erase_journal.specs.Blocks.{SameBlocks};
ghost use Rattle.erase_journal.specs.Known.{IsKnown};
ghost use Rattle.erase_journal.specs.Renewal.{RenewsAll};
ghost use Rattle.erase_journal.specs.Spending.{Maintains};
ghost use Rattle.erase_journal.specs.Steps.{IsRestful, KeepsBlocks, EndsSettled, LosesFirmly};
ghost use Rattle.erase_journal.specs.Votes.{once_erased};
ghost use Rattle.erase_journal.specs.Torn.{OpensNone, SameData};
ghost use Rattle.erase_journal.specs.Weak.{AreFirmJournals};
ghost use Rattle.nor_driver.specs.State.{bits_in};

use crate::journal_erase::{doom, renew};
use crate::known::Known;
use crate::maintain::maintain;
use crate::unused::Unused;
use nor_driver::{Nor, NorError};
use nor_layout::{JOURNALS_END, JournalId};

/// Erases a rested journal, and then maintains.
fn renew_one<N: Nor>(nor: &mut N, journal: JournalId) -> Result<Unused, NorError>
    requires size { JOURNALS_END ≤ length (N.state nor.old).memory }
    requires restful { IsRestful (N.state nor.old).memory }
    ensures numbers { IfOk result (λ u. u ≡ unused (N.state nor.new).memory) }
    ensures restful { OnOk result (IsRestful (N.state nor.new).memory) }
    ensures maintains { OnOk result (Maintains (unused (N.state nor.new).memory)
        (once_erased journal (unused (N.state nor.old).memory))) }
    ensures blocks { OnOk result (SameBlocks (N.state nor.old).memory (N.state nor.new).memory) }
    ensures cut { IsErrOf result NorError.Cut
        → KeepsBlocks (N.state nor.old).memory (N.state nor.new).memory }
    ensures loses { IsErrOf result NorError.Cut
        → LosesFirmly (N.state nor.old) (N.state nor.new) }
    ensures opens { IsErrOf result NorError.Cut → IsSettled (N.state nor.old).memory
        → AreFirmJournals (bits_in (N.state nor.old)) → OpensNone (bits_in (N.state nor.new)) }
    ensures data { SameData (bits_in (N.state nor.old)) (bits_in (N.state nor.new)) }
    ensures size { length (N.state nor.new).memory ≡ length (N.state nor.old).memory }
    ensures ends { EndsReady result (N.state nor.old) (N.state nor.new) }
{
    doom(nor, journal)?;
    renew(nor, journal)?;
    maintain(nor)
}

/// Erases each of the three journals, and before and after each those that are tired.
pub(crate) fn renew_all<N: Nor>(nor: &mut N, known: &mut Known) -> Result<(), NorError>
    requires size { JOURNALS_END ≤ length (N.state nor.old).memory }
    requires settled { IsNorReady (N.state nor.old) → IsSettled (N.state nor.old).memory }
    ensures renews { OnOk result (RenewsAll (unused (N.state nor.old).memory)
        (unused (N.state nor.new).memory)) }
    ensures known { OnOk result (IsKnown known.new (N.state nor.new).memory) }
    ensures blocks { OnOk result (SameBlocks (N.state nor.old).memory (N.state nor.new).memory) }
    ensures cut { IsErrOf result NorError.Cut → IsHealthy (N.state nor.old).memory
        → KeepsBlocks (N.state nor.old).memory (N.state nor.new).memory }
    ensures loses { IsErrOf result NorError.Cut
        → LosesFirmly (N.state nor.old) (N.state nor.new) }
    ensures opens { IsErrOf result NorError.Cut → IsSettled (N.state nor.old).memory
        → AreFirmJournals (bits_in (N.state nor.old)) → OpensNone (bits_in (N.state nor.new)) }
    ensures data { SameData (bits_in (N.state nor.old)) (bits_in (N.state nor.new)) }
    ensures size { length (N.state nor.new).memory ≡ length (N.state nor.old).memory }
    ensures ends { EndsSettled result (N.state nor.old) (N.state nor.new) }
{
    maintain(nor)?;
    renew_one(nor, JournalId::J0)?;
    renew_one(nor, JournalId::J1)?;
    let unused = renew_one(nor, JournalId::J2)?;
    *known = Known {
        unused,
        packed: false,
    };
    Ok(())
}
