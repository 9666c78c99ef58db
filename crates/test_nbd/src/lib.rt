//! Tests of the crates of the NBD side that only a test inside can make: what a caller does with a
//! session's buffer, streams that fail at a call, the order in which a connection calls its gate
//! and its disk, and a disk whose chip never ends a write.
//!
//! There is no product code here. What comes of a connection's bytes is a case (crate
//! `test_cases`); what a client sees, and the program's line, is tested on the built program, by
//! the files of tests/.

#![tactic(auto)]

#[cfg(test)]
mod order;
#[cfg(test)]
mod server;
#[cfg(test)]
mod sessions;
#[cfg(test)]
mod streams;
