//! The worker of one connection: its bytes are read, its commands are executed through a door, and
//! its replies are written.
//!
//! To the crate above: `worker` answers a whole connection, and `exchange` one whose negotiation is
//! over: the greeting, the replies to options and those to the commands that went through a `Door`
//! of `nbd_share`, in order. A gate is passed after each piece was read and before each command. An
//! [`End`] says why no more was answered, and what may be missing of the replies.
//! `exchange_alone` says of a server with one connection that these are the replies of a plain
//! array of sectors, `exchange_plain` the same over a plain disk without a premise, and
//! `plain_replies` that these are the replies to its units. `told_rows` says that the commands of a
//! connection through the lock are its rows in the server's history. `keeper` tidies after each
//! passing of its gate. Left to the crate above: sockets and threads, and which door. Source: NBD
//! proto.md for the replies; gates and ends are our own.
#![tactic(auto)]

mod alone;
mod attending;
mod keeping;
mod rows;

pub use alone::{exchange_alone, exchange_plain, plain_replies};
pub use attending::{End, exchange, worker};
pub use keeping::keeper;
pub use rows::told_rows;
