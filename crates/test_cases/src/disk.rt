//! A disk of sectors on a chip.

use crate::came::Came;
use crate::chip::loss_of;
use crate::fault::Fault;
use crate::recorder::Recorder;
use crate::refusals::{of_disk, of_tidy};
use crate::words::Words;
use block_device::Disk;
use flash_disk::FlashDisk;
use std::alloc::Global;
use std::marker::Brand;

/// The disk on a simulated chip.
pub(crate) type OnDisk = FlashDisk<Recorder, Brand>;

/// Writes so many sectors of this byte.
fn write(
    alloc: Global,
    disk: &mut OnDisk,
    first: u32,
    count: u32,
    byte: u8,
) -> Result<Came, Fault> {
    let sectors = disk.sectors();
    if first > sectors || count > sectors - first {
        return Err(Fault::NotUnderstood);
    }
    let mut from = Vec::new(alloc);
    from.resize(512 * count as usize, byte)?;
    Ok(Came::Said(of_disk(disk.write(first, from.as_slice()))))
}

/// Makes so many sectors zeros.
fn zero(disk: &mut OnDisk, first: u32, count: u32) -> Result<Came, Fault> {
    let sectors = disk.sectors();
    if first > sectors || count > sectors - first {
        return Err(Fault::NotUnderstood);
    }
    Ok(Came::Said(of_disk(disk.zero(first, count))))
}

/// Reads a sector.
fn read(alloc: Global, disk: &mut OnDisk, sector: u32) -> Result<Came, Fault> {
    if sector >= disk.sectors() {
        return Err(Fault::NotUnderstood);
    }
    let mut into = Vec::new(alloc);
    into.resize(512, 0x77)?;
    match disk.read(sector, into.as_mut_slice()) {
        Ok(()) => Ok(Came::Bytes(into)),
        Err(error) => Ok(Came::Said(of_disk(Err(error)))),
    }
}

/// A line of a disk that has numbers behind its word.
fn run_on_sectors(
    alloc: Global,
    disk: &mut OnDisk,
    verb: &str,
    mut words: Words,
) -> Result<Came, Fault> {
    let first = words.number()?;
    if verb == "read" {
        words.end()?;
        return read(alloc, disk, first);
    }
    let count = words.number()?;
    if verb == "write" {
        let byte = words.byte()?;
        words.end()?;
        return write(alloc, disk, first, count, byte);
    }
    words.end()?;
    zero(disk, first, count)
}

/// A line of a disk.
pub(crate) fn run(
    alloc: Global,
    disk: &mut OnDisk,
    verb: &str,
    mut words: Words,
) -> Result<Came, Fault> {
    let came = match verb {
        "write" | "read" | "zero" | "trim" => return run_on_sectors(alloc, disk, verb, words),
        "cut" => {
            let loss = loss_of(&mut words)?;
            disk.arm(loss.count, loss.kind, loss.mask);
            Came::Said("ok")
        }
        "sectors" => Came::Number(disk.sectors()),
        "flush" => Came::Said(of_disk(disk.flush())),
        "restore" => Came::Said(of_disk(disk.restore())),
        "tidy" => Came::Said(of_tidy(match disk.tidy() {
            Ok(more) => Ok(more),
            Err(error) => Err(of_disk(Err(error))),
        })),
        _ => return Err(Fault::NotUnderstood),
    };
    words.end()?;
    Ok(came)
}
