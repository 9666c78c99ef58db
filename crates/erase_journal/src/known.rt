//! Cached counts of the unused votes and free entries, so that an erase need not read them.

ghost use Rattle.std.specs.Prelude.{◌≡◌, ◌+◌, ◌↔◌, IsTrue};
ghost use Rattle.erase_journal.specs.Spending.{once_used};

use crate::unused::{Unused, once_taken};
use nor_layout::ENTRIES;

/// What is known of the votes and entries of a memory.
#[derive(Clone, Copy, Debug, PartialEq, Eq, Drop)]
pub struct Known {
    /// The unused votes, and the free entries.
    pub unused: Unused,
    /// Whether the free entries are the last ones, so that their number says which is the lowest.
    pub packed: bool,
}

/// What is known once the lowest free entry, from 0 to 511, is used.
pub(crate) fn once_used(known: Known, entry: u16) -> Known
    ensures unused { result.unused ≡ once_used known.unused }
    ensures packed { IsTrue result.packed ↔ (entry + known.unused.free ≡ ENTRIES) }
{
    Known {
        unused: once_taken(known.unused),
        packed: entry as u32 + known.unused.free as u32 == ENTRIES as u32,
    }
}
