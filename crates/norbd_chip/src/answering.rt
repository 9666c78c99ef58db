//! A chip that is served as one behind a programmer.

use chip_model::SpiBus;
use serprog_chip::{Room, Trouble, attend};
use serprog_link::split_stream;
use std::alloc::Global;
use std::net::TcpStream;

/// Answers the serprog protocol for the chip on a bus to one client, until it ends the connection
/// or can't be answered, and tells why.
pub fn answer_client<B: SpiBus>(alloc: Global, stream: TcpStream, bus: &mut B) -> Trouble {
    // Each answer is to go out at once; where that can't be had, answers are slower.
    let _ = stream.set_nodelay(true);
    match split_stream(stream) {
        Ok((mut source, mut sink)) => attend(&mut source, &mut sink, bus, &mut Room::new(alloc)),
        Err(_) => Trouble::Ended,
    }
}
