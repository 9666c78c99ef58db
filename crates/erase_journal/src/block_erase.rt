//! The erase of a data block by an entry of J0.

ghost use Rattle.std.specs.Prelude.{◌⊎◌, ◌≡◌, ◌*◌, ◌/◌, ◌<◌, ◌≤◌, ℕ, true, false, length, OnOk};
ghost use Rattle.std.specs.Prelude.{IfOk, IfErr};
ghost use Rattle.std.specs.Result.{IsErrOf};
ghost use Rattle.chip_model.specs.Geometry.{block_count};
ghost use Rattle.nor_driver.specs.State.{bits_in, IsNorReady, OnlyMemoryChanges, Refuses};
ghost use Rattle.nor_driver.specs.State.{EndsReady};
ghost use Rattle.erase_journal.specs.Journals.{IsHealthy, IsSettled, is_free_entry, unused};
ghost use Rattle.erase_journal.specs.Blocks.{SameBlocks, WithErased};
ghost use Rattle.erase_journal.specs.Scans.{IsFreeAnswer};
ghost use Rattle.erase_journal.specs.Steps.{IsRestful, IsTaken, IsOpened, EndsSettled, SameNumbers};
ghost use Rattle.erase_journal.specs.Steps.{KeepsBlocks, EraseInterrupted, LosesFirmly};
ghost use Rattle.erase_journal.specs.Torn.{BlockInterrupted, OpensNone, OpensOnly};
ghost use Rattle.erase_journal.specs.Torn.{SameBeside, SameData};
ghost use Rattle.erase_journal.specs.Weak.{AreFirm, AreFirmJournals, AreInterruptedAtEachDraw};
ghost use Rattle.erase_journal.specs.Spending.{IsUsed, KeepsUse, MayTake, Spends, once_used};
ghost use Rattle.erase_journal.specs.Known.{IsKnown};

use crate::known::{Known, once_used};
use crate::maintain::rest;
use crate::scan::lowest_free;
use nor_driver::{Nor, NorError};
use nor_layout::{
    BLOCK_LEN, CLOSED_ENTRY, ENTRIES, ENTRIES_LEN, JOURNALS_END, OPEN_ENTRY, entry_place,
    taken_entry,
};

/// The lowest free entry.
pub(crate) fn find_free<N: Nor>(nor: &mut N) -> Result<Option<u16>, NorError>
    requires { JOURNALS_END ≤ length (N.state nor.old).memory }
    ensures found { IfOk result (λ found. IsFreeAnswer (N.state nor.old).memory found) }
    ensures same { (N.state nor.new).memory ≡ (N.state nor.old).memory }
    ensures weak { (N.state nor.new).weak ≡ (N.state nor.old).weak }
    ensures ends { EndsReady result (N.state nor.old) (N.state nor.new) }
{
    let mut entries = [0; ENTRIES_LEN];
    nor.read(entry_place(0), &mut entries)?;
    Ok(lowest_free(&entries))
}

/// The lowest free entry, where there is one: known where the free entries are the last ones, else
/// read.
pub(crate) fn lowest_entry<N: Nor>(nor: &mut N, known: Known) -> Result<u16, NorError>
    requires size { JOURNALS_END ≤ length (N.state nor.old).memory }
    requires known { IsNorReady (N.state nor.old) → IsKnown known (N.state nor.old).memory }
    requires some { 1 ≤ known.unused.free }
    ensures within { IfOk result (λ entry. entry < ENTRIES) }
    ensures free { IfOk result (λ entry. IsNorReady (N.state nor.old)
        → is_free_entry (N.state nor.old).memory entry ≡ true) }
    ensures lowest { IfOk result (λ entry. IsNorReady (N.state nor.old) → (k : ℕ) → k < entry
        → is_free_entry (N.state nor.old).memory k ≡ false) }
    ensures same { (N.state nor.new).memory ≡ (N.state nor.old).memory }
    ensures weak { (N.state nor.new).weak ≡ (N.state nor.old).weak }
    ensures idle { OnOk result (IsNorReady (N.state nor.old)
        ⊎ (N.state nor.new ≡ N.state nor.old)) }
    ensures kept { OnOk result (OnlyMemoryChanges (N.state nor.old) (N.state nor.new)) }
    ensures fails { IfErr result (λ e. Refuses e (N.state nor.old) (N.state nor.new)) }
{
    if known.packed {
        return Ok(ENTRIES.saturating_sub(known.unused.free));
    }
    let found = find_free(nor)?;
    let Some(entry) = found else { unreachable!() };
    Ok(entry)
}

/// Takes a free entry for a block.
pub(crate) fn take_entry<N: Nor>(nor: &mut N, entry: u16, block: u16) -> Result<(), NorError>
    requires size { JOURNALS_END ≤ length (N.state nor.old).memory }
    requires may { IsNorReady (N.state nor.old) → MayTake (N.state nor.old).memory }
    requires within { entry < ENTRIES }
    requires free { IsNorReady (N.state nor.old)
        → is_free_entry (N.state nor.old).memory entry ≡ true }
    ensures ok { OnOk result (IsTaken entry block (N.state nor.old).memory
        (N.state nor.new).memory) }
    ensures cut { IsErrOf result NorError.Cut → IsHealthy (N.state nor.old).memory
        → KeepsBlocks (N.state nor.old).memory (N.state nor.new).memory }
    ensures loses { IsErrOf result NorError.Cut → IsHealthy (N.state nor.old).memory
        → (IsNorReady (N.state nor.old) → (k : ℕ) → k < entry
        → is_free_entry (N.state nor.old).memory k ≡ false)
        → AreFirmJournals (bits_in (N.state nor.old))
        → AreInterruptedAtEachDraw (bits_in (N.state nor.new)) }
    ensures opens { IsErrOf result NorError.Cut → IsSettled (N.state nor.old).memory
        → AreFirmJournals (bits_in (N.state nor.old)) → OpensNone (bits_in (N.state nor.new)) }
    ensures data { SameData (bits_in (N.state nor.old)) (bits_in (N.state nor.new)) }
    ensures size { length (N.state nor.new).memory ≡ length (N.state nor.old).memory }
    ensures ends { EndsReady result (N.state nor.old) (N.state nor.new) }
{
    nor.program(entry_place(entry), &taken_entry(block))
}

/// Opens the lowest free entry for a dead block, which erases it for every reader.
fn open_entry<N: Nor>(nor: &mut N, known: Known, block: u16) -> Result<u16, NorError>
    requires size { JOURNALS_END ≤ length (N.state nor.old).memory }
    requires restful { IsNorReady (N.state nor.old) → IsRestful (N.state nor.old).memory }
    requires known { IsNorReady (N.state nor.old) → IsKnown known (N.state nor.old).memory }
    requires some { 1 ≤ known.unused.free }
    requires data { 4 ≤ block }
    requires range { block < length (N.state nor.old).memory / BLOCK_LEN }
    ensures opened { IfOk result (λ entry. IsOpened entry block (N.state nor.new).memory) }
    ensures lowest { IfOk result (λ entry. (k : ℕ) → k < entry
        → is_free_entry (N.state nor.old).memory k ≡ false) }
    ensures erased { OnOk result (WithErased block (N.state nor.old).memory
        (N.state nor.new).memory) }
    ensures used { IfOk result (λ entry.
        IsUsed entry (N.state nor.old).memory (N.state nor.new).memory) }
    ensures cut { IsErrOf result NorError.Cut → IsHealthy (N.state nor.old).memory
        → EraseInterrupted block (N.state nor.old).memory (N.state nor.new).memory }
    ensures stays { AreFirmJournals (bits_in (N.state nor.old))
        → OnOk result (AreFirmJournals (bits_in (N.state nor.new))) }
    ensures loses { IsErrOf result NorError.Cut
        → LosesFirmly (N.state nor.old) (N.state nor.new) }
    ensures opens { IsErrOf result NorError.Cut → IsSettled (N.state nor.old).memory
        → AreFirmJournals (bits_in (N.state nor.old))
        → OpensOnly block (bits_in (N.state nor.new)) }
    ensures data { SameData (bits_in (N.state nor.old)) (bits_in (N.state nor.new)) }
    ensures size { length (N.state nor.new).memory ≡ length (N.state nor.old).memory }
    ensures ends { EndsReady result (N.state nor.old) (N.state nor.new) }
{
    let entry = lowest_entry(nor, known)?;
    take_entry(nor, entry, block)?;
    nor.program(entry_place(entry), &[OPEN_ENTRY])?;
    Ok(entry)
}

/// Erases the block of an open entry, and closes the entry.
pub(crate) fn finish_entry<N: Nor>(nor: &mut N, entry: u16, block: u16) -> Result<(), NorError>
    requires size { JOURNALS_END ≤ length (N.state nor.old).memory }
    requires opened { IsOpened entry block (N.state nor.old).memory }
    requires data { 4 ≤ block }
    requires range { block < length (N.state nor.old).memory / BLOCK_LEN }
    ensures blocks { OnOk result (SameBlocks (N.state nor.old).memory (N.state nor.new).memory) }
    ensures firm { OnOk result (AreFirm (N.state nor.new).weak (BLOCK_LEN * block) BLOCK_LEN) }
    ensures uses { OnOk result (KeepsUse (N.state nor.old).memory (N.state nor.new).memory) }
    ensures cut { IsErrOf result NorError.Cut
        → KeepsBlocks (N.state nor.old).memory (N.state nor.new).memory }
    ensures loses { IsErrOf result NorError.Cut → AreFirmJournals (bits_in (N.state nor.old))
        → AreInterruptedAtEachDraw (bits_in (N.state nor.new)) }
    ensures opens { IsErrOf result NorError.Cut → AreFirmJournals (bits_in (N.state nor.old))
        → OpensOnly block (bits_in (N.state nor.new)) }
    ensures beside { SameBeside block (bits_in (N.state nor.old)) (bits_in (N.state nor.new)) }
    ensures cut_bits { IsErrOf result NorError.Cut → AreFirmJournals (bits_in (N.state nor.old))
        → BlockInterrupted block (bits_in (N.state nor.old)) (bits_in (N.state nor.new)) }
    ensures size { length (N.state nor.new).memory ≡ length (N.state nor.old).memory }
    ensures ends { EndsSettled result (N.state nor.old) (N.state nor.new) }
{
    nor.erase_small(BLOCK_LEN * block as u32)?;
    nor.program(entry_place(entry), &[CLOSED_ENTRY])?;
    Ok(())
}

/// Erases a dead block where no journal is tired.
fn erase_with_entry<N: Nor>(nor: &mut N, known: &mut Known, block: u16) -> Result<(), NorError>
    requires size { JOURNALS_END ≤ length (N.state nor.old).memory }
    requires restful { IsNorReady (N.state nor.old) → IsRestful (N.state nor.old).memory }
    requires known { IsNorReady (N.state nor.old) → IsKnown known.old (N.state nor.old).memory }
    requires some { 1 ≤ known.old.unused.free }
    requires data { 4 ≤ block }
    requires range { block < length (N.state nor.old).memory / BLOCK_LEN }
    ensures erased { OnOk result (WithErased block (N.state nor.old).memory
        (N.state nor.new).memory) }
    ensures firm { OnOk result (AreFirm (N.state nor.new).weak (BLOCK_LEN * block) BLOCK_LEN) }
    ensures numbers { OnOk result (SameNumbers (once_used (unused (N.state nor.old).memory))
        (unused (N.state nor.new).memory)) }
    ensures known { OnOk result (IsKnown known.new (N.state nor.new).memory) }
    ensures cut { IsErrOf result NorError.Cut → IsHealthy (N.state nor.old).memory
        → EraseInterrupted block (N.state nor.old).memory (N.state nor.new).memory }
    ensures loses { IsErrOf result NorError.Cut
        → LosesFirmly (N.state nor.old) (N.state nor.new) }
    ensures opens { IsErrOf result NorError.Cut → IsSettled (N.state nor.old).memory
        → AreFirmJournals (bits_in (N.state nor.old))
        → OpensOnly block (bits_in (N.state nor.new)) }
    ensures beside { SameBeside block (bits_in (N.state nor.old)) (bits_in (N.state nor.new)) }
    ensures cut_bits { IsErrOf result NorError.Cut → IsSettled (N.state nor.old).memory
        → AreFirmJournals (bits_in (N.state nor.old))
        → BlockInterrupted block (bits_in (N.state nor.old)) (bits_in (N.state nor.new)) }
    ensures size { length (N.state nor.new).memory ≡ length (N.state nor.old).memory }
    ensures ends { EndsSettled result (N.state nor.old) (N.state nor.new) }
{
    let entry = open_entry(nor, *known, block)?;
    finish_entry(nor, entry, block)?;
    *known = once_used(*known, entry);
    Ok(())
}

/// Erases a data block in one step: where it is cut, the block is as before or erased.
pub(crate) fn erase_block<N: Nor>(
    nor: &mut N,
    known: &mut Known,
    block: u16,
) -> Result<(), NorError>
    requires settled { IsNorReady (N.state nor.old) → IsSettled (N.state nor.old).memory }
    requires known { IsNorReady (N.state nor.old) → IsKnown known.old (N.state nor.old).memory }
    requires data { 4 ≤ block }
    requires number { block < block_count (length (N.state nor.old).memory) }
    ensures erased { OnOk result (WithErased block (N.state nor.old).memory
        (N.state nor.new).memory) }
    ensures firm { OnOk result (AreFirm (N.state nor.new).weak (BLOCK_LEN * block) BLOCK_LEN) }
    ensures known { OnOk result (IsKnown known.new (N.state nor.new).memory) }
    ensures spends { OnOk result (Spends (unused (N.state nor.old).memory)
        (unused (N.state nor.new).memory)) }
    ensures cut { IsErrOf result NorError.Cut → IsHealthy (N.state nor.old).memory
        → EraseInterrupted block (N.state nor.old).memory (N.state nor.new).memory }
    ensures loses { IsErrOf result NorError.Cut
        → LosesFirmly (N.state nor.old) (N.state nor.new) }
    ensures opens { IsErrOf result NorError.Cut → IsSettled (N.state nor.old).memory
        → AreFirmJournals (bits_in (N.state nor.old))
        → OpensOnly block (bits_in (N.state nor.new)) }
    ensures beside { SameBeside block (bits_in (N.state nor.old)) (bits_in (N.state nor.new)) }
    ensures cut_bits { IsErrOf result NorError.Cut → IsSettled (N.state nor.old).memory
        → AreFirmJournals (bits_in (N.state nor.old))
        → BlockInterrupted block (bits_in (N.state nor.old)) (bits_in (N.state nor.new)) }
    ensures size { length (N.state nor.new).memory ≡ length (N.state nor.old).memory }
    ensures ends { EndsSettled result (N.state nor.old) (N.state nor.new) }
{
    rest(nor, known)?;
    erase_with_entry(nor, known, block)?;
    Ok(())
}
