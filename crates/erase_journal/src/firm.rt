//! What a firm mount does to journals in which no erase goes on: no used entry can come to be open,
//! and the free entry that may be half taken is given up.

ghost use Rattle.std.specs.Prelude.{◌≡◌, ◌+◌, ◌*◌, ◌<◌, ◌≤◌, ◌⊎◌, ℕ, false, length, OnOk, IfErr};
ghost use Rattle.std.specs.Int.{bit_at};
ghost use Rattle.std.specs.Result.{IsErrOf};
ghost use Rattle.chip_model.specs.Memory.{byte};
ghost use Rattle.nor_driver.specs.State.{bits_in, IsNorReady, OnlyMemoryChanges, Refuses};
ghost use Rattle.nor_driver.specs.State.{EndsReady};
ghost use Rattle.erase_journal.specs.Journals.{IsHealthy, IsSettled, is_free_entry, unused};
ghost use Rattle.erase_journal.specs.Blocks.{SameBlocks};
ghost use Rattle.erase_journal.specs.Known.{IsKnown};
ghost use Rattle.erase_journal.specs.Spending.{KeepsUse, SpendsFirmly, once_used};
ghost use Rattle.erase_journal.specs.Steps.{IsRestful, KeepsBlocks, SameNumbers, EndsSettled};
ghost use Rattle.erase_journal.specs.Weak.{AreFirmJournals, AreRecoveredJournals, AreUsedForGood};
ghost use Rattle.erase_journal.specs.Weak.{GivesUpLowest, IsUsedForGood};
ghost use Rattle.erase_journal.specs.Torn.{SameData};

use crate::again::{program_again, program_pages_again};
use crate::block_erase::lowest_entry;
use crate::giving_up::give_up_each;
use crate::known::{Known, once_used};
use crate::maintain::{refill_each, rest, spare_each};
use crate::scan::{close_used, is_blank};
use nor_driver::{Nor, NorError};
use nor_layout::{ENTRY_LEN, JOURNALS_END, PAGE_LEN, SUPER_LEN, entry_place};

/// How many pages the entries fill.
const ENTRY_PAGES: u16 = 8;

/// How many entries a page has.
const PAGE_ENTRIES: u16 = 64;

/// Where the last byte of an entry lies behind its first.
const LAST: u32 = ENTRY_LEN as u32 - 1;

/// Programs the first bytes of the superblock, its seal among them, as they read.
fn program_super_again<N: Nor>(nor: &mut N) -> Result<(), NorError>
    requires size { JOURNALS_END ≤ length (N.state nor.old).memory }
    ensures same { (N.state nor.new).memory ≡ (N.state nor.old).memory }
    ensures data { SameData (bits_in (N.state nor.old)) (bits_in (N.state nor.new)) }
    ensures ends { EndsReady result (N.state nor.old) (N.state nor.new) }
{
    let mut bytes = [0; SUPER_LEN];
    nor.read(0, &mut bytes)?;
    program_again(nor, 0, &bytes)
}

/// Programs a page of 64 entries, of which none is open, as it reads; and of each that is used its
/// last byte, so that it can't come to be open.
fn close_page<N: Nor>(nor: &mut N, page: u16) -> Result<(), NorError>
    requires size { JOURNALS_END ≤ length (N.state nor.old).memory }
    requires page { page < ENTRY_PAGES }
    requires settled { IsNorReady (N.state nor.old) → IsSettled (N.state nor.old).memory }
    ensures blocks { OnOk result (SameBlocks (N.state nor.old).memory (N.state nor.new).memory) }
    ensures uses { OnOk result (KeepsUse (N.state nor.old).memory (N.state nor.new).memory) }
    ensures closed { OnOk result ((i : ℕ) → i < 64
        → is_free_entry (N.state nor.new).memory (64 * page + i) ≡ false
        → IsUsedForGood (bits_in (N.state nor.new)) (64 * page + i)) }
    ensures clears { OnOk result ((i k : ℕ) → bit_at (byte (N.state nor.old).memory i) k ≡ 0
        → bit_at (byte (N.state nor.new).memory i) k ≡ 0) }
    ensures cut { IsErrOf result NorError.Cut → IsHealthy (N.state nor.old).memory
        → KeepsBlocks (N.state nor.old).memory (N.state nor.new).memory }
    ensures data { SameData (bits_in (N.state nor.old)) (bits_in (N.state nor.new)) }
    ensures size { length (N.state nor.new).memory ≡ length (N.state nor.old).memory }
    ensures ends { EndsSettled result (N.state nor.old) (N.state nor.new) }
{
    let at = entry_place(PAGE_ENTRIES * page);
    let mut bytes = [0; PAGE_LEN];
    nor.read(at, &mut bytes)?;
    if is_blank(&bytes) {
        return Ok(());
    }
    close_used(&mut bytes);
    nor.program(at, &bytes)
}

/// Does so with all entries.
fn close_entries<N: Nor>(nor: &mut N) -> Result<(), NorError>
    requires size { JOURNALS_END ≤ length (N.state nor.old).memory }
    requires ready { IsNorReady (N.state nor.old) }
    requires settled { IsSettled (N.state nor.old).memory }
    ensures blocks { OnOk result (SameBlocks (N.state nor.old).memory (N.state nor.new).memory) }
    ensures uses { OnOk result (KeepsUse (N.state nor.old).memory (N.state nor.new).memory) }
    ensures closed { OnOk result (AreUsedForGood (bits_in (N.state nor.new))) }
    ensures cut { IsErrOf result NorError.Cut
        → KeepsBlocks (N.state nor.old).memory (N.state nor.new).memory }
    ensures data { SameData (bits_in (N.state nor.old)) (bits_in (N.state nor.new)) }
    ensures size { length (N.state nor.new).memory ≡ length (N.state nor.old).memory }
    ensures ends { EndsSettled result (N.state nor.old) (N.state nor.new) }
{
    for page in 0..ENTRY_PAGES {
        close_page(nor, page)?;
    }
    Ok(())
}

/// Gives up the lowest free entry: its last byte is programmed.
fn give_up_entry<N: Nor>(nor: &mut N, known: &mut Known) -> Result<(), NorError>
    requires size { JOURNALS_END ≤ length (N.state nor.old).memory }
    requires restful { IsNorReady (N.state nor.old) → IsRestful (N.state nor.old).memory }
    requires known { IsNorReady (N.state nor.old) → IsKnown known.old (N.state nor.old).memory }
    requires some { 1 ≤ known.old.unused.free }
    ensures blocks { OnOk result (SameBlocks (N.state nor.old).memory (N.state nor.new).memory) }
    ensures numbers { OnOk result (SameNumbers (once_used (unused (N.state nor.old).memory))
        (unused (N.state nor.new).memory)) }
    ensures known { OnOk result (IsKnown known.new (N.state nor.new).memory) }
    ensures gives { OnOk result (GivesUpLowest (bits_in (N.state nor.old))
        (bits_in (N.state nor.new))) }
    ensures cut { IsErrOf result NorError.Cut → IsHealthy (N.state nor.old).memory
        → KeepsBlocks (N.state nor.old).memory (N.state nor.new).memory }
    ensures data { SameData (bits_in (N.state nor.old)) (bits_in (N.state nor.new)) }
    ensures size { length (N.state nor.new).memory ≡ length (N.state nor.old).memory }
    ensures ends { EndsSettled result (N.state nor.old) (N.state nor.new) }
{
    let entry = lowest_entry(nor, *known)?;
    nor.program(entry_place(entry) + LAST, &[0])?;
    *known = once_used(*known, entry);
    Ok(())
}

/// Makes journals firm in which no erase goes on: the superblock and the entries are programmed
/// again, and then the last byte of each used entry, which so is used for good by then. A vote of
/// each region is given up. The journals with few votes or entries to spare are erased, first those
/// for whose erase there are votes to spare, then the tired ones, then the others; and one entry is
/// given up.
pub(crate) fn make_firm<N: Nor>(nor: &mut N, known: &mut Known) -> Result<(), NorError>
    requires size { JOURNALS_END ≤ length (N.state nor.old).memory }
    requires settled { IsNorReady (N.state nor.old) → IsSettled (N.state nor.old).memory }
    requires known { IsNorReady (N.state nor.old) → IsKnown known.old (N.state nor.old).memory }
    ensures blocks { OnOk result (SameBlocks (N.state nor.old).memory (N.state nor.new).memory) }
    ensures known { OnOk result (IsKnown known.new (N.state nor.new).memory) }
    ensures spends { OnOk result (SpendsFirmly (unused (N.state nor.old).memory)
        (unused (N.state nor.new).memory)) }
    ensures firm { AreRecoveredJournals (bits_in (N.state nor.old))
        → OnOk result (AreFirmJournals (bits_in (N.state nor.new))) }
    ensures cut { IsErrOf result NorError.Cut → IsHealthy (N.state nor.old).memory
        → KeepsBlocks (N.state nor.old).memory (N.state nor.new).memory }
    ensures data { SameData (bits_in (N.state nor.old)) (bits_in (N.state nor.new)) }
    ensures size { length (N.state nor.new).memory ≡ length (N.state nor.old).memory }
    ensures ends { EndsSettled result (N.state nor.old) (N.state nor.new) }
{
    program_super_again(nor)?;
    program_pages_again(nor, entry_place(0))?;
    close_entries(nor)?;
    give_up_each(nor, known)?;
    refill_each(nor, known)?;
    rest(nor, known)?;
    spare_each(nor, known)?;
    give_up_entry(nor, known)
}
