//! Tests of damaged tables and images and of want of memory, over whole connections and over a
//! chip of 64 KiB.
//!
//! There is no product code here. `beginning_of` gives the first bytes of a list. The tests stand
//! by subject: `tables` is a chip's own table with each byte changed and cut short; `damage` images
//! with bytes changed, and `looked_at` such images as they are served; `memory` and `rows` calls
//! that find no memory. A chip whose operation never ends, payloads of up to 4 GiB, and connections
//! and scripts that end anywhere are cases (crate `test_cases`).
//!
//! Source: own; expected bytes are written out by hand from NBD proto.md, docs/SCRIPT.md,
//! docs/LAYOUT.md and docs/CHIP.md.

#![tactic(auto)]

mod beginning;
#[cfg(test)]
mod damage;
#[cfg(test)]
mod looked_at;
#[cfg(test)]
mod memory;
#[cfg(test)]
mod rows;
#[cfg(test)]
mod tables;

pub use beginning::beginning_of;
