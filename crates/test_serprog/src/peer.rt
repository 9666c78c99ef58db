//! A programmer in another thread.

use chip_simulator::SimChip;
use serprog_chip::{Room, serve_command};
use serprog_link::split_stream;
use std::alloc::Global;
use std::io::Write;
use std::net::{TcpListener, TcpStream};

/// Serves two connections of a listener, one after another: of each so many commands at most, and
/// then it ends the connection. The second begins with the rest of an old answer, which only a
/// greeting passes over. The chip stays on.
pub fn serve_twice(alloc: Global, listener: TcpListener, chip: SimChip, most: [u32; 2]) -> SimChip {
    let mut chip = chip;
    let [first, second] = most;
    if let Ok((stream, _)) = listener.accept() {
        serve_some(alloc, stream, &mut chip, first);
    }
    if let Ok((stream, _)) = listener.accept() {
        let mut stream = stream;
        let _ = stream.write_all(&[0x06, 0xFF, 0x15]);
        serve_some(alloc, stream, &mut chip, second);
    }
    chip
}

/// Serves so many commands of a connection at most.
fn serve_some(alloc: Global, stream: TcpStream, chip: &mut SimChip, commands: u32) {
    let _ = stream.set_nodelay(true);
    let Ok((mut source, mut sink)) = split_stream(stream) else {
        return;
    };
    let mut room = Room::new(alloc);
    for _ in 0..commands {
        if serve_command(&mut source, &mut sink, chip, &mut room).is_err() {
            return;
        }
    }
}
