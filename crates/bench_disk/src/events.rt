//! The events of a go.

use crate::case::{Length, offset_of};
use crate::counted::Counted;
use crate::disks::filled;
use crate::failure::Failure;
use crate::requests::{NEGOTIATION, PAYLOAD, add};
use block_device::Disk;
use nbd_station::{Event, Station};
use std::alloc::Global;

/// A station over a disk, on whose connection 0 requests are awaited.
pub fn ready<D: Disk + Drop>(alloc: Global, disk: D) -> Result<Station<D>, Failure> {
    let Ok(mut station) = Station::new(alloc, disk) else {
        return Err(Failure::NoMemory);
    };
    let mut out = Counted { bytes: 0 };
    let events = [Event::Open(0), Event::Piece(0, &NEGOTIATION)];
    // a greeting of 18 bytes and an answer of 10, each in a record, and two endings
    if station.run(&events, &mut out).is_err() || out.bytes != 52 {
        return Err(Failure::Refused);
    }
    Ok(station)
}

/// A READ, or a WRITE with its payload, of 65,536 bytes at the front of the disk.
pub fn new_request(alloc: Global, is_read: bool) -> Result<Vec<u8>, Failure> {
    let payload = filled(alloc, 65_536, PAYLOAD)?;
    let mut bytes = Vec::new(alloc);
    add(&mut bytes, 0, Length::Longest, is_read, &payload)?;
    Ok(bytes)
}

/// So many events, each with the request at the next offset. Refused where one isn't answered as it
/// should be.
#[inline(never)]
pub fn events<D: Disk>(
    station: &mut Station<D>,
    request: &mut [u8],
    count: u32,
    is_read: bool,
) -> Result<(), Failure> {
    let mut out = Counted { bytes: 0 };
    for number in 0..count {
        let offset = offset_of(number, Length::Longest).to_be_bytes();
        for k in 0..8usize {
            if let Some(byte) = request.get_mut(16 + k) {
                *byte = offset[k];
            }
        }
        if station.run(&[Event::Piece(0, request)], &mut out).is_err() {
            return Err(Failure::Refused);
        }
    }
    // a reply of 16 bytes, and of a READ its data, in a record, and an ending
    let each = if is_read { 65_564 } else { 28 };
    if out.bytes != u64::from(count).wrapping_mul(each) {
        return Err(Failure::Refused);
    }
    Ok(())
}
