//! Writes of a disk.

use block_device::{Disk, DiskError};
use std::test::*;
use test_kit::chips::OnSim;

/// Writes whole sectors of a disk; an error where they aren't.
pub(crate) fn put<D: Disk>(
    disk: &mut D,
    first: u32,
    bytes: &[u8],
) -> Result<Result<(), DiskError>, Fail> {
    let room = 512 * disk.sectors() as usize;
    if bytes.len() % 512 != 0 || bytes.len() > room || 512 * first as usize > room - bytes.len() {
        return Err(Fail::new("no sectors of the disk"));
    }
    Ok(disk.write(first, bytes))
}

/// Writes `count` sectors of this byte, one or two.
pub(crate) fn write(
    disk: &mut OnSim,
    first: u32,
    count: usize,
    byte: u8,
) -> Result<Result<(), DiskError>, Fail> {
    let bytes = [byte; 1_024];
    match bytes.get(..512 * count.min(2)) {
        Some(bytes) => put(disk, first, bytes),
        None => Err(Fail::new("more than two sectors")),
    }
}
