//! A small chip for a page: a script of steps is played on a chip of 64 KiB that is formatted
//! first, and what is then on the chip, what each step answered and what went over the bus is
//! handed out.
//!
//! Promised: the memory that is handed out represents an array of sectors in which each step that
//! was acknowledged did exactly what it asks for, and of one that lost its power each sector is
//! wholly old or wholly as it was meant; a step loses its power only where a loss was armed; the
//! frames are a run of the chip's model that ends with this memory (`specs/Story.antt`,
//! `specs/Tape.antt`).
//!
//! Left to the caller: nothing; wrong lengths are answered.
//!
//! Source: own.
#![tactic(auto)]

mod export;
mod play;
mod step;
mod tape;

pub use export::{Told, page_play};
