//! A chip behind a programmer that speaks the serprog protocol of flashrom.
//!
//! `Serprog` is a `Programmer` over any `Incoming` and `Sink`: each frame is one command O_SPIOP
//! (13h), whose bytes and whose answer its contract names. `Serprog::open` passes over what is left
//! in the line, brings the two sides into step, asks what the programmer is, sets its clock and
//! turns its pin drivers on, and refuses by name what can't be used; `reopen` does the same over
//! two new streams, which a `Dialer` begins. Where it is dropped in step the drivers are turned
//! off.
//!
//! Left to the crate above: the streams, their time-outs, and what is sent.
//!
//! Source: flashrom, serprog-protocol.txt, version 1.

#![tactic(auto)]

mod error;
mod frames;
mod greeting;
mod identity;
mod streams;
mod syncing;

pub use error::{SerprogError, Trouble};
pub use frames::{Serprog, Troubled};
pub use identity::Identity;
pub use streams::{Dialer, Incoming, Short, receive};
