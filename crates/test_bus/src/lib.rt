//! The disk on a bus of one's own: the code of docs/BUS.md, compiled and run.
//!
//! `board` puts a chip on a board's SPI bus under the disk, watched, so that no premise is left;
//! `counted` is a bus whose chip is proved to be the model, since it is that of the bus inside. The
//! tests format, mount, write and read through both.
//!
//! The page has these lines as they stand (`tools/examples --pages`).

#![tactic(auto)]

mod board;
mod counted;
#[cfg(test)]
mod joined;

pub use board::{Board, OnBoard, mount_chip};
pub use counted::Counted;
