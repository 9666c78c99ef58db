//! The erase of journals that are nearly full.

ghost use Rattle.std.specs.Prelude.{◌≡◌, ◌↔◌, ◌≤◌, ◌⊎◌, length, IsTrue, OnOk, IfOk, IfErr};
ghost use Rattle.std.specs.Result.{IsErrOf};
ghost use Rattle.nor_driver.specs.State.{bits_in, IsNorReady, OnlyMemoryChanges, Refuses};
ghost use Rattle.nor_driver.specs.State.{EndsReady};
ghost use Rattle.erase_journal.specs.Journals.{IsSettled, IsHealthy, unused};
ghost use Rattle.erase_journal.specs.Blocks.{SameBlocks};
ghost use Rattle.erase_journal.specs.Known.{IsKnown};
ghost use Rattle.erase_journal.specs.Spending.{HasSpare, HasVotesToSpare, Maintains, Refills};
ghost use Rattle.erase_journal.specs.Spending.{RefillsAll, Spares, SparesAll};
ghost use Rattle.erase_journal.specs.Steps.{IsRestful, KeepsBlocks, LosesFirmly};
ghost use Rattle.erase_journal.specs.Torn.{OpensNone, SameData};
ghost use Rattle.erase_journal.specs.Weak.{AreFirmJournals, AreFirmOrFew, AreFirmVotes};
ghost use Rattle.erase_journal.specs.Weak.{InEachRegion, IsFirmJournal};

use crate::journal_erase::{doom, renew};
use crate::known::Known;
use crate::read::read_tally;
use crate::unused::{Unused, lowest_tired, once_first_spent, once_renewed, once_second_spent};
use nor_driver::{Nor, NorError};
use nor_layout::{JOURNALS_END, JournalId};

/// How many entries, and votes of each region, are to be left when a firm mount is done.
const SPARE: u16 = 32;

/// Whether a journal has enough of what a firm recovery spends in it.
fn has_spare(u: Unused, journal: JournalId) -> bool
    ensures { IsTrue result ↔ HasSpare journal u }
{
    match journal {
        JournalId::J0 => u.free >= SPARE && u.j0_for_1 >= SPARE && u.j0_for_2 >= SPARE,
        JournalId::J1 => u.j1_for_2 >= SPARE && u.j1_for_0 >= SPARE,
        JournalId::J2 => u.j2_for_0 >= SPARE && u.j2_for_1 >= SPARE,
    }
}

/// Whether there are enough votes for the erase of a journal.
fn has_votes_to_spare(u: Unused, journal: JournalId) -> bool
    ensures { IsTrue result ↔ HasVotesToSpare journal u }
{
    match journal {
        JournalId::J0 => u.j1_for_0 >= SPARE && u.j2_for_0 >= SPARE,
        JournalId::J1 => u.j2_for_1 >= SPARE && u.j0_for_1 >= SPARE,
        JournalId::J2 => u.j0_for_2 >= SPARE && u.j1_for_2 >= SPARE,
    }
}

/// Erases the lowest-numbered tired journal while there is one.
pub(crate) fn maintain<N: Nor>(nor: &mut N) -> Result<Unused, NorError>
    requires size { JOURNALS_END ≤ length (N.state nor.old).memory }
    requires settled { IsNorReady (N.state nor.old) → IsSettled (N.state nor.old).memory }
    ensures numbers { IfOk result (λ u. u ≡ unused (N.state nor.new).memory) }
    ensures restful { OnOk result (IsRestful (N.state nor.new).memory) }
    ensures maintains { OnOk result (Maintains (unused (N.state nor.new).memory)
        (unused (N.state nor.old).memory)) }
    ensures blocks { OnOk result (SameBlocks (N.state nor.old).memory (N.state nor.new).memory) }
    ensures cut { IsErrOf result NorError.Cut → IsHealthy (N.state nor.old).memory
        → KeepsBlocks (N.state nor.old).memory (N.state nor.new).memory }
    ensures loses { IsErrOf result NorError.Cut
        → LosesFirmly (N.state nor.old) (N.state nor.new) }
    ensures opens { IsErrOf result NorError.Cut → IsSettled (N.state nor.old).memory
        → AreFirmJournals (bits_in (N.state nor.old)) → OpensNone (bits_in (N.state nor.new)) }
    ensures data { SameData (bits_in (N.state nor.old)) (bits_in (N.state nor.new)) }
    ensures size { length (N.state nor.new).memory ≡ length (N.state nor.old).memory }
    ensures ends { EndsReady result (N.state nor.old) (N.state nor.new) }
{
    let mut tally = read_tally(nor)?;
    while let Some(journal) = lowest_tired(tally.unused()) {
        doom(nor, journal)?;
        renew(nor, journal)?;
        tally = read_tally(nor)?;
    }
    Ok(tally.unused())
}

/// Erases a journal that has few votes or entries to spare, where there are votes to spare for its
/// own erase. So a recovery of a later erase finds votes, where torn bits may waver.
fn refill<N: Nor>(nor: &mut N, known: &mut Known, journal: JournalId) -> Result<(), NorError>
    requires size { JOURNALS_END ≤ length (N.state nor.old).memory }
    requires ready { IsNorReady (N.state nor.old) }
    requires settled { IsSettled (N.state nor.old).memory }
    requires known { IsKnown known.old (N.state nor.old).memory }
    ensures settled { OnOk result (IsSettled (N.state nor.new).memory) }
    ensures known { OnOk result (IsKnown known.new (N.state nor.new).memory) }
    ensures refills { OnOk result (Refills journal (unused (N.state nor.new).memory)
        (unused (N.state nor.old).memory)) }
    ensures blocks { OnOk result (SameBlocks (N.state nor.old).memory (N.state nor.new).memory) }
    ensures cut { IsErrOf result NorError.Cut
        → KeepsBlocks (N.state nor.old).memory (N.state nor.new).memory }
    ensures data { SameData (bits_in (N.state nor.old)) (bits_in (N.state nor.new)) }
    ensures size { length (N.state nor.new).memory ≡ length (N.state nor.old).memory }
    ensures kept { OnOk result (OnlyMemoryChanges (N.state nor.old) (N.state nor.new)) }
    ensures fails { IfErr result (λ e. Refuses e (N.state nor.old) (N.state nor.new)) }
{
    if has_spare(known.unused, journal) {
        return Ok(());
    }
    if !has_votes_to_spare(known.unused, journal) {
        return Ok(());
    }
    doom(nor, journal)?;
    renew(nor, journal)?;
    let spent = once_second_spent(once_first_spent(known.unused, journal), journal);
    *known = Known {
        unused: once_renewed(spent, journal),
        packed: false,
    };
    Ok(())
}

/// Does so with each journal.
pub(crate) fn refill_each<N: Nor>(nor: &mut N, known: &mut Known) -> Result<(), NorError>
    requires size { JOURNALS_END ≤ length (N.state nor.old).memory }
    requires ready { IsNorReady (N.state nor.old) }
    requires settled { IsSettled (N.state nor.old).memory }
    requires known { IsKnown known.old (N.state nor.old).memory }
    ensures settled { OnOk result (IsSettled (N.state nor.new).memory) }
    ensures known { OnOk result (IsKnown known.new (N.state nor.new).memory) }
    ensures refills { OnOk result (RefillsAll (unused (N.state nor.new).memory)
        (unused (N.state nor.old).memory)) }
    ensures blocks { OnOk result (SameBlocks (N.state nor.old).memory (N.state nor.new).memory) }
    ensures cut { IsErrOf result NorError.Cut
        → KeepsBlocks (N.state nor.old).memory (N.state nor.new).memory }
    ensures data { SameData (bits_in (N.state nor.old)) (bits_in (N.state nor.new)) }
    ensures size { length (N.state nor.new).memory ≡ length (N.state nor.old).memory }
    ensures kept { OnOk result (OnlyMemoryChanges (N.state nor.old) (N.state nor.new)) }
    ensures fails { IfErr result (λ e. Refuses e (N.state nor.old) (N.state nor.new)) }
{
    refill(nor, known, JournalId::J0)?;
    refill(nor, known, JournalId::J1)?;
    refill(nor, known, JournalId::J2)
}

/// Maintenance where the numbers say that a journal is tired. Where none is, nothing is asked of
/// the memory.
pub(crate) fn rest<N: Nor>(nor: &mut N, known: &mut Known) -> Result<(), NorError>
    requires size { JOURNALS_END ≤ length (N.state nor.old).memory }
    requires settled { IsNorReady (N.state nor.old) → IsSettled (N.state nor.old).memory }
    requires known { IsNorReady (N.state nor.old) → IsKnown known.old (N.state nor.old).memory }
    ensures restful { OnOk result (IsNorReady (N.state nor.new)
        → IsRestful (N.state nor.new).memory) }
    ensures known { OnOk result (IsNorReady (N.state nor.new)
        → IsKnown known.new (N.state nor.new).memory) }
    ensures some { OnOk result (1 ≤ known.new.unused.free) }
    ensures maintains { OnOk result (IsNorReady (N.state nor.old)
        → Maintains (unused (N.state nor.new).memory) (unused (N.state nor.old).memory)) }
    ensures blocks { OnOk result (SameBlocks (N.state nor.old).memory (N.state nor.new).memory) }
    ensures cut { IsErrOf result NorError.Cut → IsHealthy (N.state nor.old).memory
        → KeepsBlocks (N.state nor.old).memory (N.state nor.new).memory }
    ensures idle { OnOk result (IsNorReady (N.state nor.old)
        ⊎ (N.state nor.new ≡ N.state nor.old)) }
    ensures loses { IsErrOf result NorError.Cut
        → LosesFirmly (N.state nor.old) (N.state nor.new) }
    ensures opens { IsErrOf result NorError.Cut → IsSettled (N.state nor.old).memory
        → AreFirmJournals (bits_in (N.state nor.old)) → OpensNone (bits_in (N.state nor.new)) }
    ensures data { SameData (bits_in (N.state nor.old)) (bits_in (N.state nor.new)) }
    ensures size { length (N.state nor.new).memory ≡ length (N.state nor.old).memory }
    ensures kept { OnOk result (OnlyMemoryChanges (N.state nor.old) (N.state nor.new)) }
    ensures fails { IfErr result (λ e. Refuses e (N.state nor.old) (N.state nor.new)) }
{
    match lowest_tired(known.unused) {
        None => Ok(()),
        Some(_) => {
            let unused = maintain(nor)?;
            *known = Known {
                unused,
                packed: false,
            };
            Ok(())
        }
    }
}

/// Erases a journal that has few votes or entries to spare, where none is tired, and then
/// maintains: each recovery that is cut may spend one, where torn bits may waver.
fn spare<N: Nor>(nor: &mut N, known: &mut Known, journal: JournalId) -> Result<(), NorError>
    requires size { JOURNALS_END ≤ length (N.state nor.old).memory }
    requires ready { IsNorReady (N.state nor.old) }
    requires restful { IsRestful (N.state nor.old).memory }
    requires known { IsKnown known.old (N.state nor.old).memory }
    ensures restful { OnOk result (IsRestful (N.state nor.new).memory) }
    ensures known { OnOk result (IsKnown known.new (N.state nor.new).memory) }
    ensures some { OnOk result (1 ≤ known.new.unused.free) }
    ensures spares { OnOk result (Spares journal (unused (N.state nor.new).memory)
        (unused (N.state nor.old).memory)) }
    ensures firm { OnOk result (HasSpare journal (unused (N.state nor.old).memory)
        ⊎ IsFirmJournal (N.state nor.new).weak journal) }
    ensures blocks { OnOk result (SameBlocks (N.state nor.old).memory (N.state nor.new).memory) }
    ensures cut { IsErrOf result NorError.Cut
        → KeepsBlocks (N.state nor.old).memory (N.state nor.new).memory }
    ensures data { SameData (bits_in (N.state nor.old)) (bits_in (N.state nor.new)) }
    ensures size { length (N.state nor.new).memory ≡ length (N.state nor.old).memory }
    ensures kept { OnOk result (OnlyMemoryChanges (N.state nor.old) (N.state nor.new)) }
    ensures fails { IfErr result (λ e. Refuses e (N.state nor.old) (N.state nor.new)) }
{
    if has_spare(known.unused, journal) {
        return Ok(());
    }
    doom(nor, journal)?;
    renew(nor, journal)?;
    let unused = maintain(nor)?;
    *known = Known {
        unused,
        packed: false,
    };
    Ok(())
}

/// Does so with each journal.
pub(crate) fn spare_each<N: Nor>(nor: &mut N, known: &mut Known) -> Result<(), NorError>
    requires size { JOURNALS_END ≤ length (N.state nor.old).memory }
    requires ready { IsNorReady (N.state nor.old) }
    requires restful { IsRestful (N.state nor.old).memory }
    requires known { IsKnown known.old (N.state nor.old).memory }
    ensures restful { OnOk result (IsRestful (N.state nor.new).memory) }
    ensures known { OnOk result (IsKnown known.new (N.state nor.new).memory) }
    ensures some { OnOk result (1 ≤ known.new.unused.free) }
    ensures spares { OnOk result (SparesAll (unused (N.state nor.new).memory)
        (unused (N.state nor.old).memory)) }
    ensures firm { InEachRegion (AreFirmOrFew (bits_in (N.state nor.old)))
        → OnOk result (InEachRegion (AreFirmVotes (bits_in (N.state nor.new)))) }
    ensures blocks { OnOk result (SameBlocks (N.state nor.old).memory (N.state nor.new).memory) }
    ensures cut { IsErrOf result NorError.Cut
        → KeepsBlocks (N.state nor.old).memory (N.state nor.new).memory }
    ensures data { SameData (bits_in (N.state nor.old)) (bits_in (N.state nor.new)) }
    ensures size { length (N.state nor.new).memory ≡ length (N.state nor.old).memory }
    ensures kept { OnOk result (OnlyMemoryChanges (N.state nor.old) (N.state nor.new)) }
    ensures fails { IfErr result (λ e. Refuses e (N.state nor.old) (N.state nor.new)) }
{
    spare(nor, known, JournalId::J0)?;
    spare(nor, known, JournalId::J1)?;
    spare(nor, known, JournalId::J2)
}
