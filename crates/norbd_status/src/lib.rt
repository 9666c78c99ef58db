//! What a server tells of itself while it serves: the counts of its commands and of the erases of
//! its chip.
//!
//! Promised to the crates above: a `CountedBus` is the bus inside, whose chip, cuts and slow
//! operations it has; it counts the erases that are sent in a [`Wear`], which other threads may
//! look at, each for the blocks that `first_erased` and `count_erased` say of its frame.
//! `most_worn` and `least_worn` are the blocks with the most and the fewest erases. `line_of` is
//! the line of a status in JSON (`status_line`), `page_of` its text for a person (`status_page`),
//! and `status_in` takes back nothing but a line that a status has. Left to the crates above: the
//! socket, the threads, and what is counted when. No contract says what an atomic holds: that the
//! counts are right is tested. Source: own; RFC 8259 for JSON.
#![tactic(auto)]

mod counted;
mod erasing;
mod reading;
mod status;
mod wear;

pub use counted::CountedBus;
pub use reading::status_in;
pub use status::{Commands, Status, line_of, page_of};
pub use wear::{Extremes, MOST_BLOCKS, Wear, Worn, least_worn, most_worn};
