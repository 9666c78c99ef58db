//! The sectors of a disk taken out and replaced without a server.
//!
//! Promised: `range_in` reads the text `A:B` of a part of a disk, and answers one only where it
//! lies on the disk; `take_sectors` gives exactly its bytes and changes nothing, and `put_sectors`
//! replaces exactly its bytes; `receive_exactly` takes bytes from a stream only where there are
//! exactly as many as are asked for. All over any `Disk` and any `Source`.
//!
//! Left to the crate above: which disk, and that what was replaced is kept. Source: own.

#![tactic(auto)]

mod comparing;
mod input;
mod observer;
mod part;
mod sectors;

pub use comparing::differing_sectors;
pub use input::{InputError, receive_exactly};
pub use observer::Observer;
pub use part::{Part, range_in};
pub use sectors::{TransferError, put_sectors, take_sectors};
