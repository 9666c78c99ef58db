//! What a write of a sector costs on an old disk, where slots and blocks are chosen by number and
//! where by erases.

use crate::clock::now;
use crate::disks::{OnSim, filled};
use crate::failure::Failure;
use crate::figures::{nanos, per_call};
use crate::row::InThousands;
use block_device::Disk;
use chip_simulator::SimChip;
use flash_disk::{FlashDisk, format};
use std::alloc::Global;
use std::fmt;
use std::rt::Clock;

/// How often the writes are timed; the least time counts.
const GOES: u32 = 5;

/// The writes that are timed in one go.
const WRITES: u32 = 20_000;

/// The order in which sectors are written.
#[derive(Clone, Copy)]
pub enum Order {
    /// From the first to the last.
    InTurn,
    /// As they come from a sequence that jumps over the whole disk.
    Scattered,
    /// The first one, again and again.
    OneHot,
}

impl Order {
    /// Each order, in that of the table.
    pub fn all() -> [Order; 3] {
        [Order::InTurn, Order::Scattered, Order::OneHot]
    }

    /// Its text in the table.
    fn name(self) -> &'static str {
        match self {
            Order::InTurn => "in turn",
            Order::Scattered => "scattered",
            Order::OneHot => "one hot",
        }
    }

    /// The sector of a write; `sectors` isn't 0.
    fn sector(self, number: u32, sectors: u32) -> u32 {
        match self {
            Order::InTurn => number % sectors.max(1),
            Order::Scattered => {
                let jump = u64::from(number).wrapping_mul(0x9E37_79B9_7F4A_7C15) >> 33;
                (jump % u64::from(sectors.max(1))) as u32
            }
            Order::OneHot => 0,
        }
    }
}

/// What is measured: a chip of so many KiB, each sector of which was written twice.
#[derive(Clone, Copy)]
pub struct Old {
    pub kib: u32,
    pub order: Order,
    /// Whether slots and blocks are chosen by erases.
    pub level: bool,
}

/// What a write costs, in nanoseconds.
#[derive(Clone, Copy)]
pub struct Cost {
    old: Old,
    write: u64,
}

impl fmt::Display for Cost {
    fn fmt<W: fmt::Write>(&self, f: &mut fmt::Formatter<W>) -> fmt::Result {
        let (kib, order) = (self.old.kib, self.old.order.name());
        let choice = if self.old.level {
            "by erases"
        } else {
            "by number"
        };
        let write = InThousands(self.write);
        write!(
            f,
            "write on an old disk of {kib:>6} KiB, {order:<9}, {choice}: {write} ns"
        )
    }
}

/// The disk on a formatted chip.
fn mounted(alloc: Global, old: Old) -> Result<OnSim, Failure> {
    let bytes = filled(alloc, 1_024 * old.kib as usize, 0xFF)?;
    let Ok(chip) = SimChip::new(bytes) else {
        return Err(Failure::Refused);
    };
    let (chip, answer) = format(chip);
    if answer.is_err() {
        return Err(Failure::Refused);
    }
    let mount: Result<OnSim, _> = FlashDisk::mount(alloc, chip);
    let Ok(mut disk) = mount else {
        return Err(Failure::Refused);
    };
    if old.level {
        disk.level_wear();
    }
    Ok(disk)
}

/// Writes so many sectors, beginning with this number of the order.
#[inline(never)]
fn write_all<D: Disk>(disk: &mut D, order: Order, from: u32, count: u32) -> Result<(), Failure> {
    let bytes = [0xA5u8; 512];
    for number in 0..count {
        let sector = order.sector(from.wrapping_add(number), disk.sectors());
        if sector >= disk.sectors() {
            return Err(Failure::Refused);
        }
        disk.write(sector, &bytes)?;
    }
    Ok(())
}

/// Times writes on an old disk.
pub fn measured_old<C: Clock>(clock: &C, alloc: Global, old: Old) -> Result<Cost, Failure> {
    let mut disk = mounted(alloc, old)?;
    let sectors = disk.sectors();
    write_all(&mut disk, Order::InTurn, 0, sectors.saturating_mul(2))?;
    let mut time = u64::MAX;
    for go in 0..GOES {
        let from = go * WRITES;
        let start = now(clock)?;
        let made = write_all(&mut disk, old.order, from, WRITES);
        let end = now(clock)?;
        made?;
        time = time.min(nanos(end.duration_since(start)));
    }
    Ok(Cost {
        old,
        write: per_call(time, WRITES),
    })
}
