//! What the program runs on.

use norbd_serve::Log;
use std::net::{Net, TcpListener, TcpStream};
use std::rt::Files;
use std::sync::Wait;
use std::thread::Threads;
use std::time::Clock;

/// What a server asks of the system that it runs on: files, memory, threads and their waits, a
/// clock, sockets, and where it tells of its connections.
pub trait Host: Files
    + AllocGlobal
    + Threads
    + Wait
    + Sync
    + Clock
    + Log
    + Net<Listener = TcpListener, Stream = TcpStream> {}

impl<R> Host for R
where
    R: Files
        + AllocGlobal
        + Threads
        + Wait
        + Sync
        + Clock
        + Log
        + Net<Listener = TcpListener, Stream = TcpStream>,
{}
