//! Both buses under a disk.

use crate::board::{Board, mount_chip};
use crate::counted::Counted;
use block_device::Disk;
use chip_model::SpiBus;
use chip_simulator::SimChip;
use flash_disk::{FlashDisk, format};
use std::alloc::Global;
use std::cell::Cell;
use std::marker::Brand;
use std::test::*;

/// A board in memory.
#[derive(Drop)]
struct Desk<'d> {
    chip: &'d mut SimChip,
}

impl Board for Desk<'_> {
    fn transfer(&mut self, send: &[u8], recv: &mut [u8]) -> bool {
        self.chip.transact(send, recv).is_ok()
    }

    fn power_cycle(&mut self) -> bool {
        self.chip.power_on();
        true
    }
}

/// A chip of 64 KiB that was never written.
fn erased(alloc: Global) -> Result<SimChip, Fail> {
    let mut bytes = Vec::new(alloc);
    bytes.resize(65_536, 0xFF)?;
    Ok(SimChip::new(bytes)?)
}

/// Whether a sector has this byte everywhere.
fn holds<D: Disk>(disk: &mut D, sector: u32, byte: u8) -> bool {
    let mut bytes = [0u8; 512];
    sector < disk.sectors() && disk.read(sector, &mut bytes).is_ok() && bytes == [byte; 512]
}

/// Writes a byte all over a sector; false past the end and after an error.
fn write<D: Disk>(disk: &mut D, sector: u32, byte: u8) -> bool {
    sector < disk.sectors() && disk.write(sector, &[byte; 512]).is_ok()
}

#[test]
fn a_disk_on_a_board_keeps_what_is_written(rt: HostRuntime) -> Result<(), Fail> {
    let alloc = rt.alloc();
    let mut chip = erased(alloc)?;
    assert!(rt; mount_chip(alloc, Desk { chip: &mut chip }, false).is_none());
    let Some(mut disk) = mount_chip(alloc, Desk { chip: &mut chip }, true) else {
        return Err(Fail::new("no new disk"));
    };
    assert_eq!(rt; disk.sectors(), 70);
    assert!(rt; holds(&mut disk, 3, 0x00));
    assert!(rt; write(&mut disk, 3, 0x5A) && write(&mut disk, 69, 0xC3));
    assert!(rt; write(&mut disk, 3, 0xA5) && holds(&mut disk, 3, 0xA5));
    drop(disk);
    let Some(mut disk) = mount_chip(alloc, Desk { chip: &mut chip }, false) else {
        return Err(Fail::new("no disk"));
    };
    assert!(rt; holds(&mut disk, 3, 0xA5) && holds(&mut disk, 69, 0xC3));
    assert!(rt; holds(&mut disk, 2, 0x00) && holds(&mut disk, 68, 0x00));
    Ok(())
}

/// The frames that a write takes, where it goes well.
fn frames_of<D: Disk>(frames: &Cell<u64>, disk: &mut D, sector: u32, byte: u8) -> u64 {
    frames.set(0);
    if write(disk, sector, byte) {
        frames.get()
    } else {
        0
    }
}

#[test]
fn a_new_sector_is_sixteen_frames_and_a_written_one_twenty(rt: HostRuntime) -> Result<(), Fail> {
    let alloc = rt.alloc();
    let frames = Cell::new(0u64);
    let (bus, answer) = format(Counted {
        bus: erased(alloc)?,
        frames: &frames,
    });
    answer?;
    let Ok(mut disk) = FlashDisk::<_, Brand>::mount(alloc, bus) else {
        return Err(Fail::new("no mount"));
    };
    assert_eq!(rt; frames_of(&frames, &mut disk, 3, 0x5A), 16);
    assert_eq!(rt; frames_of(&frames, &mut disk, 3, 0xA5), 20);
    assert!(rt; holds(&mut disk, 3, 0xA5) && holds(&mut disk, 4, 0x00));
    Ok(())
}
