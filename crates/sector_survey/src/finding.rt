//! Why a chip is corrupt, and where.

use crate::journals::JournalFault;

/// Why a chip is corrupt, and where: the rule that is broken, with the first place at which it is.
/// Data blocks and slots are counted from 0: data block 0 is block 4 of the chip, and slot 7c + i
/// the one at place i of data block c. Source: own, layouts 1 and 2.
#[derive(Clone, Copy, Debug, PartialEq, Eq, Drop)]
pub enum Finding {
    /// Byte 8 of the superblock, or byte 15 beside it, says no layout.
    OtherLayout,
    /// The counts of the superblock are those of a chip of another size.
    OtherSize,
    /// The journals are sound in no phase of an erase.
    Journals(JournalFault),
    /// The state byte of a block's mark is none of a block of slots.
    UnknownBlock {
        block: u16,
    },
    /// A block of a group lies on a chip of layout 2.
    GroupOnSlots {
        block: u16,
    },
    /// Two blocks are committed: two copyings go on.
    TwoCopyings {
        first: u16,
        second: u16,
    },
    /// A committed block names this block of the chip as the one that was copied, which is no other
    /// data block.
    WrongSource {
        block: u16,
        source: u16,
    },
    /// No copying goes on, no block is wholly free, and none can be made so.
    NoRoom,
    /// A slot is committed without a generation.
    NoGeneration {
        slot: u16,
    },
    /// A slot is live with a sector that the chip doesn't have.
    NoSuchSector {
        slot: u16,
        sector: u16,
    },
    /// Two slots are live with one sector, and neither generation is the next of the other.
    NotNeighbours {
        first: u16,
        second: u16,
        sector: u16,
    },
    /// Three slots are live with one sector.
    ThreeSlots {
        first: u16,
        second: u16,
        third: u16,
        sector: u16,
    },
    /// A sector is live in a slot of its own and in a block with its group.
    TwoLayouts {
        first: u16,
        second: u16,
        sector: u16,
    },
}
