//! The definitions of slots, the traits `SlotCalls` and `FirmCalls` of a store of them, and laws. A
//! data block has seven slots, each free, dead, or holding a sector of 512 bytes with its
//! generation.
//!
//! Promised of any memory: which slots count (`specs/Slots.antt`), which sectors they represent
//! (`specs/Sectors.antt`), when blocks are corrupt (`specs/Blocks.antt`), and that no step of a
//! copying changes a sector, whole or cut (`specs/Copying.antt`, `steps_keep_sectors`;
//! docs/SECTORS.md). A block of a group of layout 1 is seen as seven slots. Of a store `SlotCalls`
//! says: `put` writes a sector into a free slot and `retire` makes a live one dead; `begin`,
//! `copy`, `commit`, `erase` and `settle` move the live slots of a block into another;
//! `retire_group` makes a block of a group dead, and `mark` programs byte 15 of the superblock;
//! `free`, `get`, `content`, `kind`, `head` and `superblock` read; all else stays as it was. Cut, a
//! put leaves its slot free, dead or holding the sector whole, each step of a copying what it found
//! or what it makes. Where torn bits waver, a chip that a firm mount left is then as the next firm
//! mount needs it, however they read (`losses_leave_half_chips`), and each sector is as it was, or
//! the one that was written new (`losses_keep_sectors`), if the call was made as
//! `specs/Losses.antt` asks. Refusals are the journals': a latched Slow, a power that is off, and
//! what came in the call. No call takes memory.
//!
//! Left to the crates above: the store, which slot is used for what, which block is copied, and
//! when to restore. Source: own, layout 2.

#![tactic(auto)]

mod calls;
mod firm;
mod laws;

pub use calls::SlotCalls;
pub use firm::FirmCalls;
pub use laws::{
    copies_are_exact, copies_keep_tags, counted_slots_are_stored, erased_chips_hold_zeros,
    group_chips_are_sound, groups_are_seen, last_steps_settle, losses_keep_sectors,
    losses_leave_half_blocks, losses_leave_half_chips, marks_keep_sectors, reserves_are_one,
    sectors_are_said, sectors_have_one_content, sound_blocks_have_no_fault, steps_keep_sectors,
    steps_keep_singles,
};
