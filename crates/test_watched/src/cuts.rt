//! Losses of power inside frames that look random, below a disk that is written.

use crate::bench::{Bench, Dice, Flaw};
use block_device::{Disk, DiskError};
use chip_simulator::SimChip;
use chip_watch::WatchedBus;
use flash_disk::{FlashDisk, format};
use std::alloc::Global;
use std::marker::Brand;
use std::test::*;

/// The losses of a run.
const LOSSES: u32 = 20_000;

type OnBench = FlashDisk<WatchedBus<Bench>, Brand>;

/// What was acknowledged of each sector, all of whose bytes are the same, and how often the power
/// was lost.
#[derive(Drop)]
struct Told {
    bytes: Vec<u8>,
    losses: u32,
}

/// A formatted chip of 64 KiB.
pub(crate) fn formatted(alloc: Global) -> Result<SimChip, Fail> {
    let mut bytes = Vec::new(alloc);
    bytes.resize(65_536, 0xFF)?;
    let (chip, answer) = format(SimChip::new(bytes)?);
    answer?;
    Ok(chip)
}

/// Turns the power on until it stays on. Each try that fails is a loss of its own.
fn restore(disk: &mut OnBench, told: &mut Told) -> Result<(), Fail> {
    for _ in 0..1_000u32 {
        match disk.restore() {
            Ok(()) => return Ok(()),
            Err(DiskError::Cut) => told.losses = told.losses.saturating_add(1),
            Err(DiskError::Slow) => return Err(Fail::new("slow")),
        }
    }
    Err(Fail::new("the power stays off"))
}

/// A sector's byte, where all of them are the same. Losses are passed over.
fn byte_of(disk: &mut OnBench, told: &mut Told, sector: u32) -> Result<u8, Fail> {
    for _ in 0..1_000u32 {
        let mut bytes = [0u8; 512];
        if sector < disk.sectors() && disk.read(sector, &mut bytes).is_ok() {
            return if bytes == [bytes[0]; 512] {
                Ok(bytes[0])
            } else {
                Err(Fail::new("a sector of two writes"))
            };
        }
        told.losses = told.losses.saturating_add(1);
        restore(disk, told)?;
    }
    Err(Fail::new("no sector"))
}

/// Writes a sector: acknowledged it is as written, else as before or as written.
fn write(disk: &mut OnBench, told: &mut Told, sector: u32, byte: u8) -> Result<(), Fail> {
    if sector >= disk.sectors() || sector as usize >= told.bytes.len() {
        return Err(Fail::new("no such sector"));
    }
    if disk.write(sector, &[byte; 512]).is_ok() {
        told.bytes[sector as usize] = byte;
        return Ok(());
    }
    told.losses = told.losses.saturating_add(1);
    restore(disk, told)?;
    let left = byte_of(disk, told, sector)?;
    if sector as usize >= told.bytes.len() {
        return Err(Fail::new("no such sector"));
    }
    if left != byte && left != told.bytes[sector as usize] {
        return Err(Fail::new("neither old nor new"));
    }
    told.bytes[sector as usize] = left;
    Ok(())
}

/// Compares all sectors with what was acknowledged.
fn compare(disk: &mut OnBench, told: &mut Told) -> Result<(), Fail> {
    for sector in 0..disk.sectors() {
        let byte = byte_of(disk, told, sector)?;
        if told.bytes.get(sector as usize) != Some(&byte) {
            return Err(Fail::new("an acknowledged write is lost"));
        }
    }
    Ok(())
}

#[test]
fn losses_take_nothing_that_was_acknowledged(rt: HostRuntime) -> Result<(), Fail> {
    let alloc = rt.alloc();
    let bench = Bench::new(formatted(alloc)?, Flaw::Cuts(Dice(1)));
    let Ok(mut disk) = OnBench::mount(alloc, WatchedBus::open(alloc, bench)?) else {
        return Err(Fail::new("no mount"));
    };
    let mut told = Told {
        bytes: Vec::new(alloc),
        losses: 0,
    };
    told.bytes.resize(disk.sectors() as usize, 0)?;
    let mut dice = Dice(2);
    for round in 0..1_000_000u32 {
        let sector = dice.below(disk.sectors());
        write(&mut disk, &mut told, sector, (dice.below(256) % 256) as u8)?;
        if round % 256 == 0 {
            compare(&mut disk, &mut told)?;
        }
        if told.losses >= LOSSES {
            compare(&mut disk, &mut told)?;
            return Ok(());
        }
    }
    Err(Fail::new("fewer losses"))
}
