//! A chip in memory that behaves as the model says, and loses its power inside the frame that it is
//! told to.
//!
//! `SimChip` is a `SpiBus`. It loses power exactly in the armed frame and leaves exactly what its
//! mask says; an operation shows BUSY in one status read, and one is slow only after `arm_slow`. An
//! armed cut stays over `power_on` until it comes. Any bytes may be sent. A read of n bytes costs a
//! copy of n bytes, a program touches its page alone and an erase its unit alone; no frame takes
//! memory. `ImageBus` is a `SpiBus` whose memory is that of a file: what completes is written to it
//! in one call of the system, and a fault of the file is a loss of power for good; no other frame
//! is lost, and none is slow.
//!
//! Left to the crate above: what is sent, and when the power is turned on again. No contract says
//! what a file holds. Said only while a count of cuts or of slow operations is below 2^64 - 1: that
//! the armed frame is cut, and what frames leave.
//!
//! Source: own, over the model of `chip_model`.

#![tactic(auto)]

mod answers;
mod copy;
mod error;
mod frame;
mod image;
mod plan;
mod power;
mod prompt;
mod sim_chip;
mod table;
mod weak;

pub use error::SimError;
pub use image::ImageBus;
pub use prompt::PromptChip;
pub use sim_chip::SimChip;
