//! What is doubtful of the sectors that slots tell.

use nor_layout::Layout;

/// Why a sector that is given, or isn't, may be another one. Slots are counted from 0: slot 7c + i
/// is the one at place i of data block c. Source: own.
#[derive(Clone, Copy, Drop)]
pub enum Doubt {
    /// The superblock tells no layout: slots are read as those of this one.
    Layout(Layout),
    /// What says the slot's state can't be read, or its write was begun and not committed.
    Unread { slot: u16 },
    /// The slot is whole, and holds other bytes of this sector than those that are given.
    Differs { slot: u16, sector: u16 },
}
