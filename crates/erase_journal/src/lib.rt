//! Makes the erase of a data block atomic: after a loss of power the block is as before, or erased.
//!
//! Promised: a `Journal` reads, programs and erases the data blocks that a healthy memory
//! represents (`specs/Blocks.antt`). An erase that is cut leaves the block as it was or erased, and
//! every other block, the superblock and the size as they were. `Journal::recover` accepts a memory
//! if and only if its journals are healthy (`specs/Journals.antt`). The blocks that the memory
//! represents stay the same, however often the recovery itself is cut. It refuses corrupt journals,
//! and changes nothing then. There are three journals. An entry in J0 names the block that is being
//! erased. A journal itself is erased only once both others hold an open vote for it. A Cut is
//! latched: every call answers it until `restore`, which cycles the power and recovers again. After
//! a Slow nothing is promised of the data blocks. If `restore` finds corrupt journals, a Slow is
//! latched. `superblock` reads the superblock's first bytes, and `mark` programs byte 15 of it and
//! no other. `read_tally` counts the journals' votes and entries. With `Firmness::Firm` a recovery
//! programs what it read again before it acts on it, and `firm` makes the journals firm that one
//! leaves (`AreRecoveredJournals`, `AreFirmJournals`); what is said above holds of both. Firm
//! journals stay firm in each call that answers Ok. Where the power is lost in one that ends
//! `EndsFirmly`, each power-on finds healthy journals of which one operation was interrupted, as a
//! firm recovery wants them (`AreInterruptedAtEachDraw`). A recovery that fails where no erase goes
//! on leaves them so; of a loss in any other, in `firm` and in `mark` that isn't said. `renew_all`
//! erases each of the three journals. No call allocates.
//!
//! Depends on `Nor` of `nor_driver` (read, program, erase, restart) and on the places of
//! `nor_layout`. Left to the crate above: what the data blocks and the superblock hold, and when to
//! restore. To read the crate: phase, scan, read, unused, tally, votes, journal_erase, maintain,
//! known, block_erase, open_entries, firmness, again, recovery, giving_up,
//! firm, renewing, journal. Source: own. See docs/JOURNAL.md.

#![tactic(auto)]

mod again;
mod block_erase;
mod error;
mod firm;
mod firmness;
mod giving_up;
mod journal;
mod journal_erase;
mod known;
mod laws;
mod maintain;
mod open_entries;
mod phase;
mod read;
mod recovery;
mod renewing;
mod scan;
mod superblock;
mod tally;
mod unused;
mod votes;

pub use error::RecoverError;
pub use firmness::Firmness;
pub use journal::Journal;
pub use laws::{
    blocks_have_one_size, erased_chips_are_settled, firm_journals_stand_each_draw,
    firm_journals_stay_firm, maintenance_keeps_votes_that_last, open_entries_name_one_block,
    same_blocks_make_one_list, sound_journals_have_no_fault,
};
pub use read::read_tally;
pub use scan::VoteCounts;
pub use tally::JournalTally;
