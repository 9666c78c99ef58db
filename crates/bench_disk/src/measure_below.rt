//! The measurement of the driver, of the map, and of the making of its table and index.

ghost use Rattle.std.specs.Prelude.{◌≡◌, length, IfOk};
ghost use Rattle.chip_model.specs.Geometry.{sector_count};

use crate::below::{finds, reads, slot_copies};
use crate::clock::{COPIES, now, time_of_copies};
use crate::disks::{CHIP_BYTES, Filling, SECTORS, filled, new_disk};
use crate::failure::Failure;
use crate::figures::{nanos, per_call};
use crate::measure::HEADERS;
use crate::row::Row;
use chip_simulator::SimChip;
use erase_journal::{Firmness, Journal};
use journal_slots::SectorSlots;
use nor_driver::{Driver, Nor};
use sector_map::{LiveSlots, SectorMap, Stock, mount_slots};
use sector_slots::SlotCalls;
use sector_stock::{BlockState, SlotState};
use std::alloc::Global;
use std::marker::Brand;
use std::rt::Clock;

/// How many reads are timed in one go.
const READS: u32 = 20_000;

/// How many goes are timed; the least time counts.
const GOES: u32 = 20;

/// The data blocks of a chip of 16 MiB.
const BLOCKS: u16 = 4_092;

/// The driver of a full chip.
fn full_driver(alloc: Global) -> Result<Driver<SimChip>, Failure>
    ensures size { IfOk result (λ driver. length (⟦<Driver<SimChip> as Nor>⟧.state driver).memory
        ≡ 16777216) }
{
    let chip = new_disk(alloc, Filling::Full)?.into_inner();
    let Ok(driver) = Driver::probe(chip) else {
        return Err(Failure::Refused);
    };
    if driver.bytes() as usize != CHIP_BYTES {
        return Err(Failure::Refused);
    }
    Ok(driver)
}

/// The map of a full chip.
fn full_map(alloc: Global) -> Result<SectorMap<Driver<SimChip>, Brand>, Failure>
    ensures sectors { IfOk result (λ map. sector_count (length map.memory) ≡ 25060) }
{
    let Ok(map) = SectorMap::mount(alloc, full_driver(alloc)?) else {
        return Err(Failure::Refused);
    };
    if map.sectors() as u32 != SECTORS {
        return Err(Failure::Refused);
    }
    Ok(map)
}

/// Times one go of READs, in nanoseconds.
fn time_of_reads<N: Nor>(
    clock: &impl Clock,
    driver: &mut N,
    buffer: &mut [u8],
) -> Result<u64, Failure>
    requires size { length (N.state driver.old).memory ≡ 16777216 }
    requires bytes { length buffer.old ≡ 512 }
    ensures size { length (N.state driver.new).memory ≡ 16777216 }
    ensures bytes { length buffer.new ≡ 512 }
{
    let start = now(clock)?;
    let made = reads(driver, READS, buffer);
    let end = now(clock)?;
    made?;
    Ok(nanos(end.duration_since(start)))
}

/// Times one go of `find`s, in nanoseconds.
fn time_of_finds<N: Nor>(
    clock: &impl Clock,
    map: &mut SectorMap<N, Brand>,
    buffer: &mut [u8],
) -> Result<u64, Failure>
    requires sectors { sector_count (length map.old.memory) ≡ 25060 }
    requires bytes { length buffer.old ≡ 512 }
    ensures sectors { sector_count (length map.new.memory) ≡ 25060 }
    ensures bytes { length buffer.new ≡ 512 }
{
    let start = now(clock)?;
    let made = finds(map, READS, buffer);
    let end = now(clock)?;
    made?;
    Ok(nanos(end.duration_since(start)))
}

/// Times one go of copies from the same places, in nanoseconds.
fn time_of_slot_copies(clock: &impl Clock, chip: &[u8], buffer: &mut [u8]) -> Result<u64, Failure>
    requires size { length chip.now ≡ 16777216 }
    requires bytes { length buffer.old ≡ 512 }
    ensures bytes { length buffer.new ≡ 512 }
{
    let start = now(clock)?;
    slot_copies(chip, READS, buffer);
    let end = now(clock)?;
    Ok(nanos(end.duration_since(start)))
}

/// Measures the driver's READ of a sector where it lies, on a full chip.
pub fn measured_driver<C: Clock>(clock: &C, alloc: Global) -> Result<Row, Failure> {
    let list = filled(alloc, CHIP_BYTES, 0xFF)?;
    let mut buffer = filled(alloc, 512, 0xFF)?;
    let mut driver = full_driver(alloc)?;
    let mut time = u64::MAX;
    let mut copy = u64::MAX;
    for _go in 0..GOES {
        time = time.min(time_of_reads(clock, &mut driver, &mut buffer)?);
        copy = copy.min(time_of_slot_copies(clock, &list, &mut buffer)?);
    }
    Ok(Row {
        name: "driver's READ of a sector",
        bytes: 512,
        call: per_call(time, READS),
        copy: per_call(copy, READS),
    })
}

/// Measures `find` of the same sectors.
pub fn measured_find<C: Clock>(clock: &C, alloc: Global) -> Result<Row, Failure> {
    let list = filled(alloc, CHIP_BYTES, 0xFF)?;
    let mut buffer = filled(alloc, 512, 0xFF)?;
    let mut map = full_map(alloc)?;
    let mut time = u64::MAX;
    let mut copy = u64::MAX;
    for _go in 0..GOES {
        time = time.min(time_of_finds(clock, &mut map, &mut buffer)?);
        copy = copy.min(time_of_slot_copies(clock, &list, &mut buffer)?);
    }
    Ok(Row {
        name: "map's find of a sector",
        bytes: 512,
        call: per_call(time, READS),
        copy: per_call(copy, READS),
    })
}

/// Makes the table and the index of a chip, as a mount does once the journals are recovered, and
/// times this, in nanoseconds.
fn time_of_tables(
    clock: &impl Clock,
    alloc: Global,
    driver: Driver<SimChip>,
) -> Result<(Driver<SimChip>, u64), Failure> {
    let Ok(journal) = Journal::recover(driver) else {
        return Err(Failure::Refused);
    };
    let slots = SectorSlots::new(journal);
    if slots.blocks() != BLOCKS {
        return Err(Failure::Refused);
    }
    let blank = BlockState {
        free: 0,
        dead: 0,
        plain: false,
        group: false,
        erases: 0,
        suspect: false,
    };
    let Ok(states) = vec![in alloc; SlotState::Free; 28_644] else {
        return Err(Failure::NoMemory);
    };
    let Ok(blocks) = vec![in alloc; blank; 4_092] else {
        return Err(Failure::NoMemory);
    };
    let Ok(mut table) = vec![in alloc; LiveSlots::Absent; 25_060] else {
        return Err(Failure::NoMemory);
    };
    let mut stock = Stock::new(slots, states, blocks);
    let start = now(clock)?;
    let made = mount_slots(&mut stock, table.as_mut_slice(), Firmness::Steady);
    let end = now(clock)?;
    if made? {
        let driver = stock.into_inner().into_inner().into_inner();
        Ok((driver, nanos(end.duration_since(start))))
    } else {
        Err(Failure::Refused)
    }
}

/// Measures the making of the table and the index of a full chip.
pub fn measured_tables<C: Clock>(clock: &C, alloc: Global) -> Result<Row, Failure> {
    let from = filled(alloc, HEADERS, 0xFF)?;
    let mut into = filled(alloc, HEADERS, 0xFF)?;
    let mut driver = full_driver(alloc)?;
    let mut time = u64::MAX;
    let mut copy = u64::MAX;
    for _go in 0..GOES {
        let (again, this) = time_of_tables(clock, alloc, driver)?;
        driver = again;
        time = time.min(this);
        copy = copy.min(time_of_copies(clock, &from, &mut into, COPIES)?);
    }
    Ok(Row {
        name: "its table and index alone",
        bytes: HEADERS as u64,
        call: time,
        copy: per_call(copy, COPIES),
    })
}
