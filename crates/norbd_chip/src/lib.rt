//! Chips behind programmers, by their place, for the program; and `norbd chip`, which answers
//! serprog commands for a chip by the crate `serprog_chip`.
//!
//! `watch` reaches a programmer, asks the chip what it is, reads all of it with a line of progress
//! each second, and gives a bus to it; `watch_noting` one that notes where the chip leaves the
//! model, `format_chip` formats such a chip, and `unprotect_chip` ends its protection and keeps
//! what is on it. What is done with a chip and why a frame got no answer is `Noted` in each.
//! `answer_client` answers the serprog protocol to a client, for the chip on any bus.
//!
//! Left to the crate above: which chip, and the texts of faults.
//!
//! Source: own; flashrom's serprog-protocol.txt, version 1, by `serprog` and `serprog_chip`.

#![tactic(auto)]

mod answering;
mod fault;
mod formatting;
mod identifying;
mod no_file;
mod noting;
mod progress;
mod reaching;
mod unprotecting;

pub use answering::answer_client;
pub use fault::ChipFault;
pub use formatting::{format_chip, format_watched};
pub use no_file::NoFile;
pub use noting::{Noted, Noting};
pub use progress::{PacedProgrammer, Report};
pub use reaching::{Reached, watch, watch_noting};
pub use unprotecting::{unprotect_chip, unprotect_watched};
