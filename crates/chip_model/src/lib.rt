//! The modelled flash chip, its serial bus, and what a loss of power may leave of it.
//!
//! `SpiBus` is the contract of every bus: a frame that is answered did to the chip what the
//! instruction table says (`specs/Frames.antt`), one that isn't left what a loss of power inside it
//! may leave (`specs/Cut.antt`), and three facts are known of a bus: its chip, how often the power
//! was lost, and how many operations were slow. A bus is quiet where the last doesn't rise.
//! `is_chip_size` tells how many bytes a chip may have, and `Geometry` is the disk that one makes.
//! `specs/Memory.antt` and `specs/Parts.antt` say what writes and erases make of a list of bytes
//! and of its parts of one size; their laws are in `proofs/`, for every crate above.
//!
//! `Programmer` is the contract of a device that exchanges frames with a chip outside of the
//! program: on Ok one frame more was exchanged, whose bytes it names, or of a list of them each, in
//! order. Which were exchanged so far is a list that exists in proofs alone, and that an
//! implementation may leave unknown.
//!
//! Left to the crate above: the bytes of the frames, waiting for operations, and which addresses
//! are used for what.
//!
//! Source: datasheet of the W25Q128JV; JESD216 for the SFDP bytes; what is marked own in the
//! definitions. See docs/CHIP.md.

#![tactic(auto)]

mod bus;
mod geometry;
mod laws;
mod programmer;

pub use bus::{PowerLost, SpiBus};
pub use geometry::{Geometry, is_chip_size};
pub use laws::{
    quiet_bus_completes_operations, steady_chip_is_the_model, worst_loss_stands_for_all,
};
pub use programmer::{NoAnswer, Programmer, Turn};
