//! Reads the journals from the chip, and counts their votes and entries.

ghost use Rattle.std.specs.Prelude.{◌≡◌, ◌+◌, ◌≤◌, length, IfOk, OnOk};
ghost use Rattle.nor_driver.specs.State.{EndsReady};
ghost use Rattle.erase_journal.specs.Journals.{AreEntryBytes, votes_at, tally_of, free_entries};
ghost use Rattle.erase_journal.specs.Journals.{open_blocks};

use crate::scan::{VoteCounts, count_free, count_open, count_votes};
use crate::tally::JournalTally;
use nor_driver::{Nor, NorError};
use nor_layout::{BLOCK_LEN, ENTRIES_LEN, JOURNALS_END, JournalId, REGION_LEN, entry_place};

/// J0's entries: how many are free, and how many blocks have an open one.
#[derive(Clone, Copy, Drop)]
struct EntryCounts {
    free: u16,
    opened: u16,
}

/// The votes of the region of 1,024 bytes at this place.
fn read_votes<N: Nor>(nor: &mut N, region: u32) -> Result<VoteCounts, NorError>
    requires { region + REGION_LEN ≤ length (N.state nor.old).memory }
    ensures counts { IfOk result (λ votes. votes ≡ votes_at (N.state nor.old).memory region) }
    ensures same { (N.state nor.new).memory ≡ (N.state nor.old).memory }
    ensures weak { (N.state nor.new).weak ≡ (N.state nor.old).weak }
    ensures ends { EndsReady result (N.state nor.old) (N.state nor.new) }
{
    let mut votes = [0; REGION_LEN];
    nor.read(region, &mut votes)?;
    Ok(count_votes(&votes))
}

/// The counts of J0's entries.
fn read_entries<N: Nor>(nor: &mut N) -> Result<EntryCounts, NorError>
    requires { JOURNALS_END ≤ length (N.state nor.old).memory }
    ensures free { IfOk result (λ entries. entries.free ≡ free_entries (N.state nor.old).memory) }
    ensures opened { IfOk result (λ entries. entries.opened
        ≡ open_blocks (N.state nor.old).memory) }
    ensures bytes { OnOk result (AreEntryBytes (N.state nor.old).memory) }
    ensures same { (N.state nor.new).memory ≡ (N.state nor.old).memory }
    ensures weak { (N.state nor.new).weak ≡ (N.state nor.old).weak }
    ensures ends { EndsReady result (N.state nor.old) (N.state nor.new) }
{
    let blocks = (nor.bytes() / BLOCK_LEN) as u16;
    let mut entries = [0; ENTRIES_LEN];
    nor.read(entry_place(0), &mut entries)?;
    Ok(EntryCounts {
        free: count_free(&entries),
        opened: count_open(&entries, blocks),
    })
}

/// Counts the votes and entries of the journals. Nothing is changed.
///
/// Cut and Slow are those of `Nor::read`.
pub fn read_tally<N: Nor>(nor: &mut N) -> Result<JournalTally, NorError>
    requires { JOURNALS_END ≤ length (N.state nor.old).memory }
    ensures tally { IfOk result (λ tally. tally ≡ tally_of (N.state nor.old).memory) }
    ensures bytes { OnOk result (AreEntryBytes (N.state nor.old).memory) }
    ensures same { (N.state nor.new).memory ≡ (N.state nor.old).memory }
    ensures weak { (N.state nor.new).weak ≡ (N.state nor.old).weak }
    ensures ends { EndsReady result (N.state nor.old) (N.state nor.new) }
{
    let j0_for_1 = read_votes(nor, JournalId::J1.second_votes())?;
    let j0_for_2 = read_votes(nor, JournalId::J2.first_votes())?;
    let j1_for_2 = read_votes(nor, JournalId::J2.second_votes())?;
    let j1_for_0 = read_votes(nor, JournalId::J0.first_votes())?;
    let j2_for_0 = read_votes(nor, JournalId::J0.second_votes())?;
    let j2_for_1 = read_votes(nor, JournalId::J1.first_votes())?;
    let entries = read_entries(nor)?;
    Ok(JournalTally {
        j0_for_1,
        j0_for_2,
        j1_for_0,
        j1_for_2,
        j2_for_0,
        j2_for_1,
        free: entries.free,
        opened: entries.opened,
    })
}
