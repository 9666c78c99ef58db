//! A station on a chip: the whole chain from the frames of a chip up to the transcript of a script.
//!
//! Promised: `run_formatted`, over any `SpiBus`, formats the chip, mounts it, makes a station of
//! its disk and runs a script on it. Where the bus counted no slow operation, what it wrote is a
//! transcript of the script's events from a disk of zeros (`specs/Answered.antt`): the bytes of a
//! plain array of sectors, in which after a loss of power every acknowledged write stands and each
//! sector of the interrupted command is wholly old or new; the chip then holds that array. Each
//! refusal comes with the bus, and before the script nothing is read or written.
//!
//! `run_mounted` does the same on a chip as it is, whose torn bits may waver, in one life after
//! another (`PowerCycle`): it is mounted firmly, and each Restore behind a loss begins the next
//! life. What it wrote is a transcript from the array that the chip's memory represents to the one
//! that the next power-on finds, however the weak bits read at each; the chip is then fit for the
//! next call, and any number of them are one life of an array (`specs/NextLife.antt`,
//! `firm_lives_make_a_life`). No mount may be refused, but where the chip reads as before at each
//! power-on. Of such a chip it speaks in the words of `run_steady` (`steady_lives_are_mounted`),
//! which restores the disk where it lost its power; any number of both are the chip's life
//! (`specs/Lives.antt`, `mounts_make_a_life`), on a chip of layout 1 from the array of its groups
//! (`specs/GroupChips.antt`, `group_chips_are_served`).
//!
//! Left to the crate above: the bus, and where the script comes from and the transcript goes.
//!
//! Source: own.
#![tactic(auto)]

mod error;
mod laws;
mod running;
mod simulated;

pub use error::RunFault;
pub use laws::{
    firm_lives_make_a_life, group_chips_are_served, mounts_make_a_life, steady_lives_are_mounted,
};
pub use running::{run_formatted, run_mounted, run_steady};
pub use simulated::run_simulated;
