//! Connections to a programmer that speaks serprog: over TCP, as ser2net and flashrom's remote
//! programmers do, or by a serial device, as a Raspberry Pi Pico with pico-serprog is one.
//!
//! `programmer_of` tells whether a word names a programmer, and which. `ProgrammerDialer` is a
//! `Dialer` of `serprog`, of either kind: a `TcpDialer` connects to a host and a port, a
//! `SerialDialer` opens a device at a path, and each gives the two halves of the connection. Over
//! TCP each wait has an end. A device's read ends in a while that is its own setting, as
//! `stty -F PATH raw -echo min 0 time 1` makes it a tenth of a second, and is made again until
//! something came or enough was waited: then it counts as failed. No contract says what comes over
//! a socket or from a device, so nothing is promised of the bytes; failed calls are counted as the
//! traits want it.
//!
//! Left to the crate above: what is asked of the programmer. Left to the user: a device's settings.
//!
//! Source: own.

#![tactic(auto)]

mod dialer;
mod halves;
mod pause;
mod place;
mod serial;
mod tcp;

pub use dialer::ProgrammerDialer;
pub use halves::{ProgrammerIn, ProgrammerOut};
pub use place::{ProgrammerPlace, Way, programmer_of};
pub use serial::{SerialDialer, SerialIn, SerialOut};
pub use tcp::{TcpDialer, TcpIn, TcpOut, split_stream};
