//! Serves the connections of a listening socket, each in a thread of its own, over one server.
//!
//! To the crate above: [`serve`] accepts connections, as many as were asked for or without end, one
//! at a time for each gate of its list. It runs a `worker` in a thread for each and a `keeper` in
//! another, joins those that end, and hands back the connections' passes, ends and hands; without
//! end they go back to the server. All of them run commands through the one lock of a
//! `nbd_share::Server`, one at a time. A [`Listener`] is a port or a Unix socket, [`listen`] opens
//! a port, and [`Sleeper`] is the gate of a keeper that rests 10 ms before each step. Where that is
//! asked (`telling`) a [`Log`] is told of each connection's beginning and end, of an export that is
//! asked for and isn't there, and of each request that is answered with an error; of the first one
//! that is too long, that others wait, and of a client that is closed for its silence then, it is
//! always told. Where it is given a [`StatusSocket`], one more thread (`desk`) answers each that
//! connects to it with the line of its `norbd_status`. The door of a connection learns of the
//! requests, and that the negotiation is over, from `nbd_worker`. Left to the crate above: the
//! disk, what else is printed, and `Shared::total` of the passes. Ok says that as many connections
//! ended as were asked for, and none by a lost command; without end it never comes. No contract
//! says that a thread gets on, how many run at once, nor what a socket gives or takes: tests show
//! it. Source: own.
#![tactic(auto)]

mod accepting;
mod desk;
mod doors;
mod fault;
mod kept;
mod open_sockets;
mod serving;
mod socket;
mod telling;

pub use accepting::{Listener, listen};
pub use desk::StatusSocket;
pub use doors::{OpenGate, Sleeper};
pub use fault::ServeFault;
pub use kept::Served;
pub use serving::{Connections, serve};
pub use socket::SocketOut;
pub use telling::{Event, Log, Notice};
