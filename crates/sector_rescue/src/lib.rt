//! The sectors of a chip that a mount refuses, by what its slots say.
//!
//! Promised of any bytes: `rescue` gives of each sector what its newest whole slot holds that isn't
//! retired and whose block counts, and zeros where there is none (`rescued`; in the terms of slots
//! `AreGiven`); with it all that is doubtful of that, and nothing else (`doubts_of`): each slot
//! that can't be read or wasn't committed, each that holds other bytes of its sector than those
//! that are given, and a layout that isn't told. The bytes are left as they are.
//!
//! Left to the crate above: the disk of a chip that a mount accepts, the texts, the image. Source:
//! own, layouts 1 and 2 (docs/LAYOUT.md).

#![tactic(auto)]

mod copied;
mod doubt;
mod gathering;
mod slot;
mod table;

pub use doubt::Doubt;
pub use gathering::{Rescued, rescue};
