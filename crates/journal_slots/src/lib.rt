//! `SectorSlots`, the code that meets `SlotCalls`: the data blocks of a chip over its journals.
//!
//! Promised: it meets `sector_slots::SlotCalls` and `FirmCalls`, which say of each call what it
//! leaves, whole and cut; `new` and `into_inner` put it on a journal and take it off, `count` and
//! `header` read. A put is four programs: the descriptor, begun, two pages, and the commit. A copy
//! of a live slot is three, its descriptor last; the steps of a mark, `retire_group`, `mark`,
//! `firm_head` and `kill` are one program each; an erase is the journals'.
//! It keeps no index. No call takes memory.
//!
//! Left to the crate above: which slot is used for what, which block is copied, and when to
//! restore. Source: own, layout 2. See docs/LAYOUT.md and docs/SECTORS.md.

#![tactic(auto)]

mod clean;
mod firm;
mod head;
mod mark;
mod read;
mod slot;
mod store;

pub use store::SectorSlots;
