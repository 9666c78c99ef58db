//! The disk of a chip in one life after another.

ghost use Rattle.std.specs.Prelude.{◌≡◌, ◌<◌, true};

use crate::level::read;
use crate::new_lives;
use crate::writes::put;
use block_device::{Disk, DiskError};
use chip_model::SpiBus;
use chip_simulator::SimChip;
use flash_disk::Provenance;
use restored_disk::{LifeDisk, OneLife, RestoredDisk};
use std::alloc::Global;
use std::marker::Brand;
use std::sync::ledger::{Blank, Ledger};
use std::test::*;
use test_kit::chips::{count, filled};

/// The bus of a chip in memory, in one life after another.
type Bus = OneLife<SimChip>;

/// What a sector is written with.
const NEW: [u8; 512] = [0x5A; 512];

/// The byte that sector 6 is full of.
fn byte_of<D: Disk>(disk: &mut D) -> Result<u8, Fail> {
    let bytes = read(disk, 6)?;
    if count(&bytes, 0, 512, bytes[0]) != 512 {
        return Err(Fail::new("a torn sector"));
    }
    Ok(bytes[0])
}

/// What came of a write of sector 6, whose power was lost in this change: whether it was, and what
/// the sector was in the next life, and once it was written again.
fn written<L: Provenance + Ledger>(
    alloc: Global,
    chip: SimChip,
    blank: Blank,
    change: u32,
) -> Result<(bool, u8, u8), Fail>
    requires name { blank.name ≡ L.name }
    requires parts { blank.parts ≡ L.parts }
    requires some { 0 < L.parts }
    requires sound { L.sound ≡ true }
    requires firm { L.firm ≡ true }
    requires cuts { L.cuts ≡ 0 }
    requires slows { L.slows ≡ ⟦<SimChip as SpiBus>⟧.slows chip }
{
    let Some(made) = new_lives::<Bus, L>(alloc, OneLife::new(chip), blank) else {
        return Err(Fail::new("not formatted or not mounted"));
    };
    let mut disk: LifeDisk<Bus, L> = made;
    disk.arm(change, 1, 0x0F);
    let answer = put(&mut disk, 6, &NEW)?;
    if answer == Ok(()) {
        let byte = byte_of(&mut disk)?;
        return Ok((false, byte, byte));
    }
    let stands = put(&mut disk, 6, &NEW)?;
    if answer != Err(DiskError::Cut) || stands != answer || disk.restore() != Ok(()) {
        return Err(Fail::new("not lost, or not restored"));
    }
    let byte = byte_of(&mut disk)?;
    put(&mut disk, 6, &NEW)??;
    Ok((true, byte, byte_of(&mut disk)?))
}

/// The same of a disk that is restored in the call: what the sector is.
fn written_through<L: Provenance + Ledger>(
    alloc: Global,
    chip: SimChip,
    blank: Blank,
    change: u32,
) -> Result<u8, Fail>
    requires name { blank.name ≡ L.name }
    requires parts { blank.parts ≡ L.parts }
    requires some { 0 < L.parts }
    requires sound { L.sound ≡ true }
    requires firm { L.firm ≡ true }
    requires cuts { L.cuts ≡ 0 }
    requires slows { L.slows ≡ ⟦<SimChip as SpiBus>⟧.slows chip }
{
    let Some(made) = new_lives::<Bus, L>(alloc, OneLife::new(chip), blank) else {
        return Err(Fail::new("not formatted or not mounted"));
    };
    let lives: LifeDisk<Bus, L> = made;
    let mut disk = RestoredDisk::new(lives);
    disk.arm(change, 1, 0x0F);
    put(&mut disk, 6, &NEW)??;
    byte_of(&mut disk)
}

/// These, of a chip that has just been made.
fn write_and_restore(alloc: Global, chip: SimChip, change: u32) -> Result<(bool, u8, u8), Fail> {
    written::<Brand>(alloc, chip, Blank::new(1), change)
}

fn write_through(alloc: Global, chip: SimChip, change: u32) -> Result<u8, Fail> {
    written_through::<Brand>(alloc, chip, Blank::new(1), change)
}

/// The first write of a sector is four changes (docs/SECTORS.md), and before them a firm disk makes
/// its slot sure. Lost in each of all these, the power comes back: the next life finds the sector
/// old or new, and can be written. A disk that is restored in the call writes it, as if no power
/// was lost.
#[test]
fn the_next_life_goes_on(rt: HostRuntime) -> Result<(), Fail> {
    let mut losses = 0u32;
    let mut is_done = false;
    for change in 1..400u32 {
        let chip = SimChip::new(filled(rt.alloc(), 0xA5)?)?;
        let (lost, next, again) = write_and_restore(rt.alloc(), chip, change)?;
        let chip = SimChip::new(filled(rt.alloc(), 0xA5)?)?;
        assert_eq!(rt; write_through(rt.alloc(), chip, change)?, 0x5A);
        assert_eq!(rt; again, 0x5A);
        if !lost {
            is_done = true;
            break;
        }
        assert!(rt; next == 0x5A || next == 0x00);
        losses = losses.saturating_add(1);
    }
    assert!(rt; is_done);
    assert!(rt; losses >= 4);
    Ok(())
}
