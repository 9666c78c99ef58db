//! The connection of a go.

use crate::case::Length;
use crate::counted::{Counted, Marked};
use crate::disks::filled;
use crate::failure::Failure;
use crate::requests::{NEGOTIATED, NEGOTIATION, PAYLOAD, REPLY_HEAD, add};
use block_device::{Disk, FixedIn, Sink};
use nbd_share::{NoRecord, OneServer, Shared};
use nbd_worker::{End, worker};
use norbd_serve::OpenGate;
use std::alloc::Global;

/// What a client sends: the negotiation, and so many commands, end to end on the disk.
pub fn new_input(
    alloc: Global,
    count: u32,
    length: Length,
    is_read: bool,
) -> Result<Vec<u8>, Failure> {
    let payload = filled(alloc, length.bytes() as usize, PAYLOAD)?;
    let mut bytes = Vec::new(alloc);
    if bytes.extend_from_slice(&NEGOTIATION).is_err() {
        return Err(Failure::NoMemory);
    }
    for number in 0..count {
        add(&mut bytes, number, length, is_read, &payload)?;
    }
    Ok(bytes)
}

/// How many bytes a connection is told, where each of its commands is answered without an error.
pub fn told(count: u32, length: Length, is_read: bool) -> u64 {
    let data = if is_read {
        u64::from(length.bytes())
    } else {
        0
    };
    NEGOTIATED + u64::from(count) * (REPLY_HEAD + data)
}

/// One connection from its first byte to the end of its input. Refused where it ends otherwise.
#[inline(never)]
pub fn connection<D: Disk, L: OneServer, K: Sink>(
    alloc: Global,
    server: &mut Shared<D, NoRecord, L>,
    input: &[u8],
    writer: &mut K,
) -> Result<(), Failure> {
    let Some(pass) = server.pass() else {
        return Err(Failure::Refused);
    };
    let mut reader = FixedIn::new(input);
    let (_pass, end) = worker(alloc, server, pass, &mut reader, writer, &mut OpenGate);
    if end != End::EndOfInput {
        return Err(Failure::Refused);
    }
    Ok(())
}

/// A connection of WRITEs or READs, each of which is to be told as many bytes as without an error.
pub fn run<D: Disk, L: OneServer>(
    alloc: Global,
    server: &mut Shared<D, NoRecord, L>,
    input: &[u8],
    wanted: u64,
) -> Result<(), Failure> {
    let mut writer = Counted { bytes: 0 };
    connection(alloc, server, input, &mut writer)?;
    if writer.bytes != wanted {
        return Err(Failure::Refused);
    }
    Ok(())
}

/// READs of all that so many WRITEs wrote. Refused where a byte of the data told isn't that of a
/// payload.
pub fn read_back<D: Disk, L: OneServer>(
    alloc: Global,
    server: &mut Shared<D, NoRecord, L>,
    count: u32,
    length: Length,
) -> Result<(), Failure> {
    let input = new_input(alloc, count, length, true)?;
    let mut writer = Marked {
        byte: PAYLOAD,
        count: 0,
    };
    connection(alloc, server, &input, &mut writer)?;
    if writer.count != u64::from(count) * u64::from(length.bytes()) {
        return Err(Failure::Refused);
    }
    Ok(())
}
