//! Where a store of sector slots gets its free slots from: an index of the slots in memory, and
//! copying into a reserve.
//!
//! Promised, by the trait `Reclaim`, which `Stock` of `sector_map` implements: a store of slots
//! with an index in memory, which `fill` makes from one read of each block, and which is right
//! while `indexed` says so (docs/SECTORS.md). `take_free` always gives a free slot outside the
//! reserve; if none is free, a block with the most dead slots is copied into the reserve first.
//! `tidy` copies such a block; if no slot is dead it converts the lowest-numbered block that is
//! live with a group of layout 1 into slots of the reserve, as `convert` does. It answers None
//! exactly if there is neither. `Policy::Lowest` chooses slots and blocks by number,
//! `Policy::Level` so that blocks wear alike: no two differ by more than 32 erases, once `renew`
//! was called for what `lagging` tells (docs/WEAR.md). Each call tells which block was copied
//! where: its live slots keep their places and tags, and those of a group get the first generation.
//! Cut anywhere, they leave slots and blocks that a mount accepts, and on a clean memory each
//! sector as it was. `end_void`, `end_committed` and `end_erased` end a copying that a mount finds,
//! and change no sector; nor does `move_afresh`, which erases a block before it copies into it.
//! What was free at a firm mount is suspect (`suspect_free`), until `firm_free` or a copy makes its
//! block firm. On a chip that a firm mount left, a call that changes the memory and answers Ok
//! leaves such a one (`disk`), `write` and `release` where the slot is as specs/Losses.antt asks;
//! cut, what is read at a later power-on is said of the state before the one change that was
//! interrupted, and of that change (`cut_bits`). No call takes memory.
//!
//! Left to the crate above: which slot holds which sector, and that no two live slots are of one
//! sector. Source: own, layout 2.

#![tactic(auto)]

mod copy;
mod firm;
mod given;
mod index;
mod laws;
mod least;
mod policy;
mod reclaim;
mod room;
mod scan;
mod take;

pub use copy::{end_committed, end_erased, end_void, move_afresh};
pub use firm::{firm_free, suspect_all};
pub use given::{Copied, Given};
pub use index::{BlockState, Cursors, SlotState, mark_dead};
pub use laws::{never_full, slots_outnumber_sectors, sound_maps_have_room};
pub use least::BOUNDS;
pub use policy::{
    Policy, Purpose, RENEW_NOW, RENEW_SOON, SPREAD, choose_by_erases, lagging, level_block,
    renew_block,
};
pub use reclaim::Reclaim;
pub use room::is_short;
pub use scan::fill_index;
pub use take::{convert_block, has_work, mark_written, take_slot, tidy_block};
