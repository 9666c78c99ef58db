//! The protocol state of one connection: its bytes, made into replies and commands.
//!
//! Promised: `Session::take` answers the units of a connection's text one by one, in order, however
//! its bytes are cut into pieces: a flag word, an option or a refused request by the reply that
//! `reply` then lends, with what it answers (`ReplyTo`); an accepted command by handing it out with
//! the payload that `buffer` then lends, and the last unit by a close. More comes only where all
//! bytes were used. A session is opened with all its buffers, and takes no memory afterwards;
//! `reset` makes it as just opened. `requesting` opens one whose negotiation is over.
//!
//! Left to the crate above: to send each reply before the next `take`, to run the commands and
//! make their replies, and to call again with the bytes that were not used. A command is forgotten
//! at the next `take`.
//!
//! Source: NBD proto.md; the limits are own. `IsPartsOf` says what a text comes to and `parts_laws`
//! how it grows, `buffer_laws` what a write to the buffer leaves.
#![tactic(auto)]

mod error;
mod laws;
mod session;
mod stage;

pub use error::OpenError;
pub use laws::{buffer_laws, parts_laws};
pub use session::{LONGEST_COMMAND_LEN, ReplyTo, STORE_LEN, Session, Taken};
