//! What tests share: bytes written out by hand, heads of a script's records, numbers that look
//! random, a process without memory, chips of 64 KiB with stations on them, and a chip whose erases
//! are counted.
//!
//! Promised to the tests above: `bytes_of` answers the bytes that a text spells (`spelled`);
//! `record_head` and `push_record` have the bytes of a script's records; `Dice` draws below its
//! bound; `spend` uses up the memory of the process. `chips` has the memory of erased and of
//! formatted chips, and runs scripts on them; no clause says what is in these. `WornChip` counts
//! the frames that erase and program; what cells hold, no clause can say. No product crate depends
//! on this one.
#![tactic(auto)]

pub mod chips;
mod dice;
mod records;
mod scarcity;
mod spelling;
mod talk;
mod worn;

pub use dice::Dice;
pub use records::{push_record, record_head};
pub use scarcity::spend;
pub use spelling::{SpellingError, bytes_of};
pub use talk::{FLAGS, GO, GO_REPLY, GREETING, MASKS};
pub use worn::{Wear, Workload, WornChip, full_of_groups};
