//! The loop around a `Session`: one connection's bytes, cut into units by it, each of which is run
//! and answered by a peer.
//!
//! Promised: `answer_piece` takes a piece of a connection's bytes and has a [`Peer`] answer the
//! units that it completes, one after another and each exactly once: an accepted command by
//! `answer`, over the session's buffer, and every other reply by `tell`. Before a `tell` the peer
//! hears what the reply is to: how far the negotiation is, or which request is refused. It stops
//! behind a unit that closes the connection, a reply that isn't taken whole, and a command that a
//! power loss took; else all bytes are used. The parts that the text of the connection gains are
//! those that were answered, whatever the peer is: what it does in a call is its own two relations.
//!
//! `run` runs an accepted command on any disk, over the bytes that are lent to it. Ok, it did to
//! the contents of a sound disk, and to the room of a READ, what the definitions of a command say;
//! after a Cut each sector is as before, or as the command was to make it; after a Slow nothing is
//! said of the contents but their size. Each answer says which errors were latched before it, and
//! which are now.
//!
//! Left to the crate above: which disk a peer runs a command on, to make replies and to send them,
//! the session's first reply, and where the pieces come from. Source: NBD proto.md, by the
//! sessions; what errors leave is own.
#![tactic(auto)]

mod piece;

pub use piece::{Fate, Peer, PieceOutcome, answer_piece, run};
