//! The negotiation of a connection, cut out of its bytes piece by piece, and answered.
//!
//! Promised: `greeting` is what the server sends first. `Handshake::take` answers the client's
//! flags and each complete option once, in order, however the bytes are cut into pieces: the bytes
//! of each reply and the phase after it are those that the rules for options say, and None comes
//! only where all bytes were used. Where INFO or GO asks for an export that isn't there, its name
//! is told (`AskedName`). Of an option's data 8,192 bytes are kept; longer data is counted
//! and dropped. No call takes memory.
//!
//! Left to the crate above: to send the greeting and the replies, a buffer of at least 134 bytes
//! for each reply, to call again with the bytes that were not used, and the requests. A negotiation
//! that is over uses no bytes and answers its phase.
//!
//! Source: NBD proto.md; the limit of 8,192 bytes and the one export `flash` are own.
#![tactic(auto)]

mod asked;
mod front;
mod handshake;
mod opening;
mod options;
mod replies;
mod units;

pub use asked::{AskedName, KEPT_NAME_LEN};
pub use handshake::{Handshake, HandshakeTaken, KEPT_LEN};
pub use opening::greeting;
pub use replies::MAX_REPLY_LEN;
