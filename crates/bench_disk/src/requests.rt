//! What a client sends: a negotiation and requests.

use crate::case::{Length, offset_of};
use crate::failure::Failure;
use bitflags::Flags;
use nbd_wire::{CommandFlags, REQUEST_LEN, Request};

/// The client's flags, and an EXPORT_NAME of the export `flash`.
pub const NEGOTIATION: [u8; 25] = [
    0, 0, 0, 3, 0x49, 0x48, 0x41, 0x56, 0x45, 0x4F, 0x50, 0x54, 0, 0, 0, 1, 0, 0, 0, 5, 0x66, 0x6C,
    0x61, 0x73, 0x68,
];

/// The bytes that answer it: a greeting of 18 and an answer of 10.
pub const NEGOTIATED: u64 = 28;

/// The bytes of a reply's head.
pub const REPLY_HEAD: u64 = 16;

/// The cookie of each request.
const COOKIE: u64 = 0x0102_0304_0506_0708;

/// Each byte of a payload. No head of a reply has it, nor has the negotiation.
pub const PAYLOAD: u8 = 0xA5;

/// Adds the request of this number, with its payload where it is a WRITE.
pub fn add(
    bytes: &mut Vec<u8>,
    number: u32,
    length: Length,
    is_read: bool,
    payload: &[u8],
) -> Result<(), Failure> {
    let request = Request {
        flags: CommandFlags::from_bits_retain(0),
        kind: if is_read { 0 } else { 1 },
        cookie: COOKIE,
        offset: offset_of(number, length),
        length: length.bytes(),
    };
    let mut head = [0xFF; REQUEST_LEN];
    request.write(&mut head);
    if bytes.extend_from_slice(&head).is_err() {
        return Err(Failure::NoMemory);
    }
    if !is_read {
        if bytes.extend_from_slice(payload).is_err() {
            return Err(Failure::NoMemory);
        }
    }
    Ok(())
}
