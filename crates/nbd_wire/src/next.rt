//! What comes next on a connection.

use crate::command::Command;

/// What comes next on a connection, by its bytes so far: whoever has the connection reads on, sends
/// a reply, runs a command or closes. `R` is what a parser hands out of a reply.
#[derive(Clone, Copy, PartialEq, Eq, Debug)]
pub enum Next<R> {
    /// The unit begun is not complete.
    More,
    /// A unit is answered by a reply alone.
    Reply(R),
    /// An accepted command is to be run. The payload of a WRITE is complete.
    Run(Command),
    /// The connection is over.
    Close,
}
