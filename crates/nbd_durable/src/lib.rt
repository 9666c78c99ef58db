//! What is written is handed on to the disk of this machine before a reply is sent that owes it.
//!
//! A `Durable` is the file of an image with the policy of its server. An `Owed` is what a
//! connection owes: its door tells it of each command (`note`), which may owe a sync before its
//! reply (`owes`); its writer asks it before it sends anything (`settle`): it syncs the file where
//! a reply owes that, and once a sync has failed nothing more is sent. So the sync comes after the
//! command has run and before its reply, and outside of the server's lock.
//!
//! No contract says what a file's disk holds, nor what an atomic flag is: that a sync comes, and
//! that a reply isn't sent after one that failed, tests show. Left to the crate above: to give a
//! connection's door and its writer the same flag, and to sync once more at the end.
//!
//! Source: NBD proto.md (FLUSH, FUA); the policies are own.
#![tactic(auto)]

mod durable;

pub use durable::{Durable, Owed, Policy};
