//! An array of 70 sectors that judges what a station tells of a script, when the power is lost in
//! it.
//!
//! This crate stands on no other one. So the judge knows nothing of the product: it knows the
//! records of scripts and of transcripts (docs/SCRIPT.md), the bytes of NBD that eight clients send
//! and get, sectors, and that each sector of an interrupted WRITE is old or new until it is read,
//! and the same from then on. `Event` is what happens; `Client` is what one of the clients has
//! still to send, which comes in pieces. `Judge` makes each event's record and judges what is told
//! of it: each unit that a piece completes has its reply, with its cookie, its error and its data,
//! in order. `Array` is its sectors, which judge a disk without connections, too. The first answer
//! that isn't its own is `Wrong`. A loss is `Wrong` where none was armed, and in an event that
//! sends nothing to the chip. `print_script` prints a script as lines of bash.
//!
//! Left to `sweep`: which events come, and what the product tells of them. Proved are the words by
//! which a sector and a record are told from others; the rest is a test's code, safe and total.
//! Source: own; the bytes of NBD from its proto.md.
#![tactic(auto)]

mod array;
mod client;
mod event;
mod judge;
mod typed;

pub use array::{Array, Seen, Wrong, consists_of};
pub use event::{Event, Request, SECTORS, record_head};
pub use judge::Judge;
pub use typed::print_script;
