//! Tests of whole connections over one disk that only a test inside can make: streams that fail at
//! a call, a keeper whose gate is counted, and a power loss under two doors, without a socket.
//!
//! There is no product code here. Connections through sockets are tested on the built program, by
//! the files of tests/.
//!
//! Source: own; the bytes are written out by hand from NBD proto.md.

#![tactic(auto)]

#[cfg(test)]
mod server;
