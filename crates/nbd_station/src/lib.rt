//! Eight connections over one disk, driven by events.
//!
//! Promised: `Station::run` takes a list of events (a connection opens, bytes of it come in any
//! pieces, it is gone, the disk is tidied, power is restored) and writes records that answer them.
//! From each plain world that the station represented (an array of sectors, its power, the text of
//! each connection) what is written is a transcript to one that it represents now; the disk's
//! losses of power are in it, and stand only where the disk counted one in that event. Where the
//! output fails, what it took is a beginning of such a transcript and every connection is closed. A
//! station made of a sound disk represents a world.
//!
//! Left to the crate above: where the events come from, where the records go, and which disk it is.
//! Nothing is said of the contents after a slow operation. The order of the connections is that of
//! the events.
//!
//! Source: own; the replies are those of NBD proto.md, by the sessions.
#![tactic(auto)]

mod entries;
mod event;
mod hub;
mod laws;
mod piece;
mod responder;
mod script;
mod station;

pub use entries::{ABSENT, DONE, LOST, NO_ONE, REPLY, SHUT, STUCK};
pub use event::{Event, NewError, RunError, ScriptError};
pub use laws::transcripts_without_losses;
pub use station::Station;
