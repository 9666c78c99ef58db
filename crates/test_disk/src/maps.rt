//! Maps of sectors over simulated chips of 64 KiB, and what they hold.

use chip_simulator::SimChip;
use nor_driver::{Driver, NorError};
use sector_map::{MapError, SectorMap};
use std::alloc::Global;
use std::marker::Brand;
use std::test::*;
use test_kit::chips::{filled, set};

/// What a call ended with.
#[derive(Clone, Copy, Debug, PartialEq, Eq)]
pub(crate) enum End {
    Done,
    /// What the call was asked for wasn't there.
    Refused,
    Cut,
    Slow,
}

/// What a call ended with that answers nothing else.
fn of_call(answer: Result<(), NorError>) -> End {
    match answer {
        Ok(()) => End::Done,
        Err(NorError::Cut) => End::Cut,
        Err(NorError::Slow) => End::Slow,
    }
}

/// The sectors of a simulated chip.
pub(crate) type Sectors = SectorMap<Driver<SimChip>, Brand>;

/// How many there are on a chip of 64 KiB.
pub(crate) const COUNT: u16 = 70;

/// The first bytes of the superblock of a chip of 64 KiB in layout 2, seal and all.
const SUPERBLOCK: [u8; 15] = [
    0x4E, 0x4F, 0x52, 0x42, 0x4C, 0x4B, 0x30, 0x31, 0x02, 0x10, 0x00, 0x0A, 0x00, 0xFF, 0x00,
];

/// The memory of a formatted chip.
pub(crate) fn formatted(alloc: Global) -> Result<Vec<u8>, Fail> {
    let mut bytes = filled(alloc, 0xFF)?;
    set(bytes.as_mut_slice(), 0, 1, &SUPERBLOCK)?;
    Ok(bytes)
}

/// What a mount gave: a map, or why it was refused and the memory that it left.
pub(crate) enum Outcome {
    Whole(Sectors),
    Refused(MapError, Vec<u8>),
}

/// Mounts a chip.
pub(crate) fn mount(alloc: Global, chip: SimChip) -> Result<Outcome, Fail> {
    let driver = match Driver::probe(chip) {
        Ok(driver) => driver,
        Err((_, error)) => return Err(Fail::from(error)),
    };
    match SectorMap::mount(alloc, driver) {
        Ok(map) => Ok(Outcome::Whole(map)),
        Err((driver, error)) => Ok(Outcome::Refused(error, driver.into_inner().into_inner())),
    }
}

/// Mounts a chip that has to be mountable.
pub(crate) fn mounted(alloc: Global, chip: SimChip) -> Result<Sectors, Fail> {
    match mount(alloc, chip)? {
        Outcome::Whole(map) => Ok(map),
        Outcome::Refused(error, _) => Err(Fail::from(error)),
    }
}

/// The chip's memory behind a map.
pub(crate) fn memory_behind(map: Sectors) -> Vec<u8> {
    map.into_inner().into_inner().into_inner()
}

/// The content that a stamp represents: zeros for 0, else a first page of the stamp and a second
/// one of the next byte.
pub(crate) fn content(stamp: u8) -> [u8; 512] {
    let mut bytes = [0u8; 512];
    if stamp != 0 {
        for k in 0..512usize {
            bytes[k] = if k < 256 {
                stamp
            } else {
                stamp.wrapping_add(1)
            };
        }
    }
    bytes
}

/// Writes a sector.
pub(crate) fn write(map: &mut Sectors, sector: u16, stamp: u8) -> End {
    if sector >= map.sectors() {
        return End::Refused;
    }
    of_call(map.replace(sector, &content(stamp)))
}

/// The stamp of a sector's content; None where it is that of none.
pub(crate) fn stamp_of(map: &mut Sectors, sector: u16) -> Result<Option<u8>, Fail> {
    if sector >= map.sectors() {
        return Err(Fail::new("no such sector"));
    }
    let mut bytes = [0xEEu8; 512];
    match map.find(sector, &mut bytes) {
        Ok(()) => {}
        Err(NorError::Cut) => return Err(Fail::new("a read that was cut")),
        Err(NorError::Slow) => return Err(Fail::new("a read that was slow")),
    }
    if bytes == content(bytes[0]) {
        return Ok(Some(bytes[0]));
    }
    Ok(None)
}
