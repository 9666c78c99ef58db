//! The sectors of a part of a disk: taken, and replaced.

ghost use Rattle.std.specs.Prelude.{◌≡◌, ◌+◌, ◌*◌, ◌%◌, ◌≤◌, ◌<◌, length, replicate, true, IfOk};
ghost use Rattle.std.specs.Prelude.{OnOk, IsTrue};
ghost use Rattle.std.specs.Result.{IsErrOf};
ghost use Rattle.block_device.specs.Contents.{bytes_at, replaced};
ghost use Rattle.block_device.specs.Facts.{CountsNeverFall, IsDiskReady};

use crate::observer::Observer;
use block_device::{Disk, DiskError, SECTOR_LEN};
use std::alloc::Global;
use thiserror::Error;

/// Why sectors weren't taken. Source: own.
#[derive(Clone, Copy, Debug, PartialEq, Eq, Drop, Error)]
pub enum TransferError {
    /// There is no memory for their bytes.
    #[error("no memory for the bytes")]
    OutOfMemory,
    /// The disk didn't give them.
    #[error("the disk refused: {0}")]
    Disk(DiskError),
}

/// The bytes of `count` sectors of a disk from the sector `first` on.
pub fn take_sectors<D: Disk>(
    alloc: Global,
    disk: &mut D,
    first: u32,
    count: u32,
) -> Result<Vec<u8>, TransferError>
    requires range { 512 * (first + count) ≤ length (D.facts disk.old).contents }
    requires sound { (D.facts disk.old).sound ≡ true }
    ensures bytes { IfOk result (λ bytes. bytes.items
        ≡ bytes_at (D.facts disk.old).contents (512 * first) (512 * count)) }
    ensures contents { OnOk result ((D.facts disk.new).contents
        ≡ (D.facts disk.old).contents) }
    ensures sound { (D.facts disk.new).sound ≡ true }
    ensures goes { CountsNeverFall (D.facts disk.old) (D.facts disk.new) }
{
    let Ok(mut bytes) = vec![in alloc; 0u8; SECTOR_LEN * count as usize] else {
        return Err(TransferError::OutOfMemory);
    };
    match disk.read(first, bytes.as_mut_slice()) {
        Ok(()) => Ok(bytes),
        Err(error) => Err(TransferError::Disk(error)),
    }
}

/// Replaces sectors of a disk from the sector `first` on, upwards, by these bytes; after each
/// `observer` is told how many of how many are replaced.
pub fn put_sectors<D: Disk, O: Observer>(
    disk: &mut D,
    first: u32,
    bytes: &[u8],
    observer: &mut O,
) -> Result<(), DiskError>
    requires whole { length bytes.now % 512 ≡ 0 }
    requires few { 512 * first + length bytes.now ≤ 33554432 }
    requires range { 512 * first + length bytes.now ≤ length (D.facts disk.old).contents }
    requires ready { IsDiskReady (D.facts disk.old) }
    requires sound { (D.facts disk.old).sound ≡ true }
    ensures replaced { OnOk result ((D.facts disk.new).contents
        ≡ replaced (D.facts disk.old).contents (512 * first) bytes.now) }
    ensures ready { OnOk result (IsDiskReady (D.facts disk.new)) }
    ensures sound { (D.facts disk.new).sound ≡ true }
    ensures goes { CountsNeverFall (D.facts disk.old) (D.facts disk.new) }
    ensures slow { IsErrOf result DiskError.Slow
        → (D.facts disk.old).slows < (D.facts disk.new).slows }
{
    let mut done = 0usize;
    while done < bytes.len() {
        put(
            disk,
            first as usize + done / SECTOR_LEN,
            &bytes[done..done + SECTOR_LEN],
        )?;
        done += SECTOR_LEN;
        observer.note(
            (done / SECTOR_LEN) as u32,
            (bytes.len() / SECTOR_LEN) as u32,
        );
    }
    Ok(())
}

/// Replaces one sector; zeros take no slot of a chip.
fn put<D: Disk>(disk: &mut D, sector: usize, bytes: &[u8]) -> Result<(), DiskError>
    requires whole { length bytes.now ≡ 512 }
    requires range { 512 * sector + 512 ≤ length (D.facts disk.old).contents }
    requires number { sector < 65536 }
    requires ready { IsDiskReady (D.facts disk.old) }
    requires sound { (D.facts disk.old).sound ≡ true }
    ensures written { OnOk result ((D.facts disk.new).contents
        ≡ replaced (D.facts disk.old).contents (512 * sector) bytes.now) }
    ensures ready { OnOk result (IsDiskReady (D.facts disk.new)) }
    ensures sound { (D.facts disk.new).sound ≡ true }
    ensures goes { CountsNeverFall (D.facts disk.old) (D.facts disk.new) }
    ensures slow { IsErrOf result DiskError.Slow
        → (D.facts disk.old).slows < (D.facts disk.new).slows }
{
    if is_blank(bytes) {
        return disk.zero(sector as u32, 1);
    }
    disk.write(sector as u32, bytes)
}

/// Whether the bytes of a sector are all zeros.
fn is_blank(bytes: &[u8]) -> bool
    requires { length bytes.now ≡ 512 }
    ensures { IsTrue result → bytes.now ≡ replicate 512 0 }
{
    bytes == [0u8; SECTOR_LEN].as_slice()
}
