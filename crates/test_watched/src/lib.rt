//! Watched chips with a fault each: what is answered, what is named, and what the power finds.
//!
//! The chip is a simulator behind a programmer in memory: with a flaw, as another chip when it is
//! reached anew, or losing its power inside frames that look random, below a disk that is written
//! and below a server whose clients write.
//!
//! `LoggedProgrammer` keeps the frames of any programmer, and so tells them. Over it `read_once`,
//! `open_logged`, `send_logged` and `start_logged` have what `WatchedBus` says of such a programmer
//! as equations, without a premise on its frames.

#![tactic(auto)]

#[cfg(test)]
mod bench;
#[cfg(test)]
mod costs;
#[cfg(test)]
mod cuts;
#[cfg(test)]
mod faults;
mod logged;
#[cfg(test)]
mod served;
#[cfg(test)]
mod told;
mod witness;

pub use logged::{LoggedFrame, LoggedProgrammer};
pub use witness::{open_logged, read_once, send_logged, start_logged};
