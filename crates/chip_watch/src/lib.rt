//! A bus to a flash chip outside of the program, which compares each answer with the model.
//!
//! `WatchedBus` is a `SpiBus` over any `Programmer`, with no premise on the chip behind it: beside
//! the chip it leads one in memory through the same frames, and answers a frame only where the two
//! agree; else the power is lost, and `Departure` says where the chip left the model. What a
//! program or an erase wrote is read back before its end is answered. After a loss `power_on` turns
//! the power on only where the whole chip was read and is as the one in memory, once the change
//! that the loss interrupted was made again. A frame that the model ignores is never sent, but for
//! the READ of a page that goes along with a read of the status while it is being programmed.
//!
//! A frame that receives nothing goes together with the next one that receives something; where an
//! answer is passed on, all frames before it have been sent and answered. What was read at the
//! start answers READs until a frame may change the chip.
//!
//! Left to the crate above: what is sent, when the power is turned on again, and how fast the
//! status is read. Of what was exchanged something is said only where the programmer knows it, and
//! while fewer than 2^64 - 1 losses were counted. Nothing is said of a chip that answers otherwise
//! where it isn't asked.
//!
//! Source: own, over the model of `chip_model`.

#![tactic(auto)]

mod asking;
mod bus;
mod change;
mod departure;
mod opening;
mod pieces;
mod reading;
mod settling;
mod shadow;
mod simulator;
mod wire;

pub use bus::WatchedBus;
pub use change::Change;
pub use departure::{Departure, Mismatch, OpenError};
