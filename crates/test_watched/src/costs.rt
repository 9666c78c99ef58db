//! How many frames and round trips a watched chip costs: opening it, a mount, a sector's write.

ghost use Rattle.std.specs.Prelude.{None};

use block_device::Disk;
use chip_model::{NoAnswer, Programmer, SpiBus, Turn};
use chip_simulator::SimChip;
use chip_watch::WatchedBus;
use flash_disk::{FlashDisk, format};
use std::alloc::Global;
use std::marker::Brand;
use std::sync::atomic::{AtomicU32, Ordering};
use std::test::*;

/// A simulator as a chip outside of the program, whose frames are counted.
#[derive(Drop)]
struct Counted<'c> {
    chip: SimChip,
    frames: &'c AtomicU32,
}

impl Programmer for Counted<'_> {
    ghost exchanged = { λ _. None };

    fn exchange(&mut self, send: &[u8], recv: &mut [u8]) -> Result<(), NoAnswer> {
        self.frames.fetch_add(1, Ordering::SeqCst);
        match self.chip.transact(send, recv) {
            Ok(()) => Ok(()),
            Err(_) => Err(NoAnswer),
        }
    }

    fn reopen(&mut self) -> bool {
        self.chip.power_on();
        true
    }
}

/// The same, whose round trips are counted too: frames that go at once are one.
#[derive(Drop)]
struct Meter<'c> {
    chip: Counted<'c>,
    trips: &'c AtomicU32,
}

impl Programmer for Meter<'_> {
    ghost exchanged = { λ _. None };

    fn exchange(&mut self, send: &[u8], recv: &mut [u8]) -> Result<(), NoAnswer> {
        self.trips.fetch_add(1, Ordering::SeqCst);
        self.chip.exchange(send, recv)
    }

    fn exchange_all(&mut self, turns: &mut [Turn]) -> Result<(), NoAnswer> {
        self.trips.fetch_add(1, Ordering::SeqCst);
        self.chip.exchange_all(turns)
    }

    fn reopen(&mut self) -> bool {
        self.chip.reopen()
    }
}

/// Frames and round trips.
#[derive(Clone, Copy, Debug, PartialEq, Eq)]
struct Cost {
    frames: u32,
    trips: u32,
}

/// Writes a sector.
fn write<D: Disk>(disk: &mut D, sector: u32, byte: u8) -> Result<(), Fail> {
    if sector >= disk.sectors() {
        return Err(Fail::new("no such sector"));
    }
    if disk.write(sector, &[byte; 512]).is_err() {
        return Err(Fail::new("no write"));
    }
    Ok(())
}

/// What opening a formatted chip of 64 KiB costs, its mount after that, and the first write of a
/// sector.
fn costs(alloc: Global, trusts: bool) -> Result<[Cost; 3], Fail> {
    let mut bytes = Vec::new(alloc);
    bytes.resize(65_536, 0xFF)?;
    let (chip, answer) = format(SimChip::new(bytes)?);
    answer?;
    let frames = AtomicU32::new(0);
    let trips = AtomicU32::new(0);
    let meter = Meter {
        chip: Counted {
            chip,
            frames: &frames,
        },
        trips: &trips,
    };
    let bus = WatchedBus::open(alloc, meter)?;
    let bus = if trusts { bus.trusting() } else { bus };
    let opened = taken(&frames, &trips);
    let Ok(mut disk) = FlashDisk::<_, Brand>::mount(alloc, bus) else {
        return Err(Fail::new("no mount"));
    };
    let mounted = taken(&frames, &trips);
    write(&mut disk, 1, 0x5A)?;
    Ok([opened, mounted, taken(&frames, &trips)])
}

/// What was counted since it was last asked.
fn taken(frames: &AtomicU32, trips: &AtomicU32) -> Cost {
    Cost {
        frames: frames.swap(0, Ordering::SeqCst),
        trips: trips.swap(0, Ordering::SeqCst),
    }
}

/// So many frames and round trips.
fn in_all(frames: u32, trips: u32) -> Cost {
    Cost { frames, trips }
}

#[test]
fn costs_are_as_documented(rt: HostRuntime) -> Result<(), Fail> {
    let [opened, mounted, written] = costs(rt.alloc(), false)?;
    // Two of these are of eight READs each.
    assert_eq!(rt; opened, in_all(22, 7));
    // Power on: 05h, 04h, 05h, 35h, 15h. A probe: 05h, 9Fh, 5Ah, 35h, 15h. No READ.
    assert_eq!(rt; mounted, in_all(10, 9));
    assert_eq!(rt; written, in_all(20, 8));
    let [_, _, trusted] = costs(rt.alloc(), true)?;
    assert_eq!(rt; trusted, in_all(16, 8));
    Ok(())
}
