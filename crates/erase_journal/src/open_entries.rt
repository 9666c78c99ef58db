//! The open entries that a recovery finds, which name one block.

ghost use Rattle.std.specs.Prelude.{◌≡◌, ◌⊎◌, ◌<◌, ◌≤◌, true, ℕ, length, OnOk, IfOk};
ghost use Rattle.std.specs.Result.{IsErrOf};
ghost use Rattle.nor_driver.specs.State.{IsNorReady, EndsReady};
ghost use Rattle.nor_layout.specs.Entries.{entry_at};
ghost use Rattle.erase_journal.specs.Places.{Changed};
ghost use Rattle.erase_journal.specs.Journals.{AreJournalsSound, free_entries, is_open_entry};
ghost use Rattle.erase_journal.specs.Journals.{open_blocks, unused};
ghost use Rattle.erase_journal.specs.Blocks.{SameBlocks};
ghost use Rattle.erase_journal.specs.Scans.{IsOpenAnswer, is_open_in};
ghost use Rattle.erase_journal.specs.Steps.{AreErased, EndsSettled, KeepsBlocks, SameNumbers};
ghost use Rattle.erase_journal.specs.Steps.{StayNamed};
ghost use Rattle.erase_journal.specs.Weak.{AreNamedFirm};
ghost use Rattle.erase_journal.specs.Spending.{KeepsUse, MayTake, once_used};

use crate::block_erase::{find_free, take_entry};
use crate::phase::ErasePhase;
use crate::scan::{OpenEntry, lowest_open, open_block};
use nor_driver::{Nor, NorError};
use nor_layout::{
    BLOCK_LEN, CLOSED_ENTRY, ENTRIES, ENTRIES_LEN, JOURNALS_END, OPEN_ENTRY, entry_place,
};

/// The lowest open entry.
fn find_open<N: Nor>(nor: &mut N) -> Result<Option<OpenEntry>, NorError>
    requires { JOURNALS_END ≤ length (N.state nor.old).memory }
    ensures found { IfOk result (λ found. IsOpenAnswer (N.state nor.old).memory found) }
    ensures same { (N.state nor.new).memory ≡ (N.state nor.old).memory }
    ensures ends { EndsReady result (N.state nor.old) (N.state nor.new) }
{
    let blocks = (nor.bytes() / BLOCK_LEN) as u16;
    let mut entries = [0; ENTRIES_LEN];
    nor.read(entry_place(0), &mut entries)?;
    Ok(lowest_open(&entries, blocks))
}

/// Opens one more entry for the block of the open entries, under which it is erased again.
pub(crate) fn open_afresh<N: Nor>(nor: &mut N) -> Result<(), NorError>
    requires size { JOURNALS_END ≤ length (N.state nor.old).memory }
    requires may { MayTake (N.state nor.old).memory }
    requires opened { 1 ≤ open_blocks (N.state nor.old).memory }
    requires free { 1 ≤ free_entries (N.state nor.old).memory }
    ensures sound { OnOk result (AreJournalsSound ErasePhase.Idle (N.state nor.new).memory) }
    ensures opened { OnOk result (StayNamed (N.state nor.old).memory (N.state nor.new).memory) }
    ensures blocks { OnOk result (SameBlocks (N.state nor.old).memory (N.state nor.new).memory) }
    ensures numbers { OnOk result (SameNumbers (once_used (unused (N.state nor.old).memory))
        (unused (N.state nor.new).memory)) }
    ensures cut { IsErrOf result NorError.Cut
        → KeepsBlocks (N.state nor.old).memory (N.state nor.new).memory }
    ensures size { length (N.state nor.new).memory ≡ length (N.state nor.old).memory }
    ensures ends { EndsReady result (N.state nor.old) (N.state nor.new) }
{
    let opened = find_open(nor)?;
    let Some(open) = opened else { unreachable!() };
    let free = find_free(nor)?;
    let Some(entry) = free else { unreachable!() };
    take_entry(nor, entry, open.block)?;
    nor.program(entry_place(entry), &[OPEN_ENTRY])?;
    Ok(())
}

/// Closes an open entry.
fn close_entry<N: Nor>(nor: &mut N, entry: u16) -> Result<(), NorError>
    requires size { JOURNALS_END ≤ length (N.state nor.old).memory }
    requires within { entry < ENTRIES }
    requires opened { is_open_entry (N.state nor.old).memory entry ≡ true }
    ensures ok { OnOk result (Changed (entry_at entry) 252 248 (N.state nor.old).memory
        (N.state nor.new).memory) }
    ensures cut { IsErrOf result NorError.Cut
        → ((N.state nor.new).memory ≡ (N.state nor.old).memory)
        ⊎ Changed (entry_at entry) 252 248 (N.state nor.old).memory (N.state nor.new).memory }
    ensures size { length (N.state nor.new).memory ≡ length (N.state nor.old).memory }
    ensures ends { EndsReady result (N.state nor.old) (N.state nor.new) }
{
    nor.program(entry_place(entry), &[CLOSED_ENTRY])
}

/// Closes the open entries, whose block is erased. The entries are passed as they read, and how
/// many blocks the chip has.
fn close_opened<N: Nor>(nor: &mut N, entries: &[u8], count: u16) -> Result<(), NorError>
    requires size { JOURNALS_END ≤ length (N.state nor.old).memory }
    requires ready { IsNorReady (N.state nor.old) }
    requires sound { AreJournalsSound ErasePhase.Idle (N.state nor.old).memory }
    requires erased { AreErased (N.state nor.old).memory }
    requires long { length entries.now ≡ ENTRIES_LEN }
    requires read { (i : ℕ) → i < ENTRIES
        → is_open_in entries.now count i ≡ is_open_entry (N.state nor.old).memory i }
    ensures blocks { OnOk result (SameBlocks (N.state nor.old).memory (N.state nor.new).memory) }
    ensures uses { OnOk result (KeepsUse (N.state nor.old).memory (N.state nor.new).memory) }
    ensures cut { IsErrOf result NorError.Cut
        → KeepsBlocks (N.state nor.old).memory (N.state nor.new).memory }
    ensures size { length (N.state nor.new).memory ≡ length (N.state nor.old).memory }
    ensures ends { EndsSettled result (N.state nor.old) (N.state nor.new) }
{
    for entry in 0..ENTRIES {
        if let Some(_) = open_block(entries, count, entry) {
            close_entry(nor, entry)?;
        }
    }
    Ok(())
}

/// Erases the block of the open entries again, if there are any, and closes them. None of its bits
/// is weak then.
pub(crate) fn erase_opened<N: Nor>(nor: &mut N) -> Result<(), NorError>
    requires size { JOURNALS_END ≤ length (N.state nor.old).memory }
    requires idle { AreJournalsSound ErasePhase.Idle (N.state nor.old).memory }
    ensures rests { open_blocks (N.state nor.old).memory ≡ 0
        → ((N.state nor.new).memory ≡ (N.state nor.old).memory)
        × ((N.state nor.new).weak ≡ (N.state nor.old).weak) }
    ensures firm { OnOk result (AreNamedFirm (N.state nor.old).memory (N.state nor.new).weak) }
    ensures numbers { OnOk result (SameNumbers (unused (N.state nor.old).memory)
        (unused (N.state nor.new).memory)) }
    ensures blocks { OnOk result (SameBlocks (N.state nor.old).memory (N.state nor.new).memory) }
    ensures cut { IsErrOf result NorError.Cut
        → KeepsBlocks (N.state nor.old).memory (N.state nor.new).memory }
    ensures size { length (N.state nor.new).memory ≡ length (N.state nor.old).memory }
    ensures ends { EndsSettled result (N.state nor.old) (N.state nor.new) }
{
    let blocks = (nor.bytes() / BLOCK_LEN) as u16;
    let mut entries = [0; ENTRIES_LEN];
    nor.read(entry_place(0), &mut entries)?;
    let Some(open) = lowest_open(&entries, blocks) else {
        return Ok(());
    };
    nor.erase_small(BLOCK_LEN * open.block as u32)?;
    close_opened(nor, &entries, blocks)
}
