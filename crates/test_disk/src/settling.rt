//! The settling of a chip that lost its power under a program for which torn bits are steady.

use crate::writes::write;
use block_device::{Disk, DiskError};
use chip_simulator::SimChip;
use erase_journal::Firmness;
use flash_disk::FlashDisk;
use std::alloc::Global;
use std::test::*;
use test_kit::chips::{OnSim, count, filled, formatted, mounted, set};

/// Where the journals begin: behind the superblock.
const BEHIND: usize = 4_096;

/// How many sectors are written, each twice, so that blocks have dead slots too.
const WRITTEN: u32 = 18;

/// A chip on which these sectors were written, last with bytes of their number and 1, and behind
/// whose superblock each byte has these weak bits.
fn used(alloc: Global, weak: u8) -> Result<SimChip, Fail> {
    let mut disk = mounted(alloc, formatted(alloc)?)?;
    for sector in 0..WRITTEN {
        write(&mut disk, sector, 1, 0xEE)??;
    }
    for sector in 0..WRITTEN {
        write(&mut disk, sector, 1, sector as u8 + 1)??;
    }
    let mut bits = filled(alloc, 0)?;
    set(bits.as_mut_slice(), BEHIND, 65_536 - BEHIND, &[weak])?;
    Ok(SimChip::wavering(disk.into_inner().into_inner(), bits)?)
}

/// The disk on a chip that is mounted firmly.
fn mounted_firmly(alloc: Global, chip: SimChip) -> Result<OnSim, Fail> {
    match FlashDisk::mount_as(alloc, chip, Firmness::Firm) {
        Ok(disk) => Ok(disk),
        Err((_chip, _error)) => Err(Fail::new("not mounted")),
    }
}

/// Does all steps of a settling.
fn settle(disk: &mut OnSim) -> Result<(), DiskError> {
    for step in 0..u16::MAX {
        if step >= disk.settle_steps() {
            return Ok(());
        }
        disk.settle_step(step)?;
    }
    Ok(())
}

/// Whether a disk holds what was written.
fn holds_all(disk: &mut OnSim) -> Result<bool, Fail> {
    for sector in 0..disk.sectors() {
        let mut bytes = [0u8; 512];
        if sector >= disk.sectors() {
            return Err(Fail::new("a disk that shrinks"));
        }
        disk.read(sector, &mut bytes)?;
        let byte = if sector < WRITTEN {
            sector as u8 + 1
        } else {
            0
        };
        if bytes != [byte; 512] {
            return Ok(false);
        }
    }
    Ok(true)
}

/// Settles a chip: whether its disk holds what was written, before, after, and when the plain
/// policy mounts it next; and how many bytes behind the superblock have a weak bit then.
fn settled(alloc: Global, chip: SimChip) -> Result<(bool, usize), Fail> {
    let mut disk = mounted_firmly(alloc, chip)?;
    let before = holds_all(&mut disk)?;
    settle(&mut disk)?;
    let after = holds_all(&mut disk)?;
    let mut chip = disk.into_inner();
    let firm = count(chip.weak(), BEHIND, 65_536, 0);
    chip.power_cycle(&[0x5A]);
    let next = holds_all(&mut mounted(alloc, chip)?)?;
    Ok((
        before && after && next,
        (65_536 - BEHIND).saturating_sub(firm),
    ))
}

/// A chip whose settling lost its power in this change, and whose torn bits then read as those of
/// `draw`. None where the settling makes no such change.
fn lost(alloc: Global, change: u32, draw: u8) -> Result<Option<SimChip>, Fail> {
    let mut disk = mounted_firmly(alloc, used(alloc, 0)?)?;
    disk.arm(change, 1, 0);
    match settle(&mut disk) {
        Ok(()) => return Ok(None),
        Err(DiskError::Cut) => {}
        Err(DiskError::Slow) => return Err(Fail::new("a slow chip")),
    }
    let mut chip = disk.into_inner();
    chip.arm_cut(0, 0, 0);
    chip.power_cycle(&[draw]);
    Ok(Some(chip))
}

/// Whatever was weak, each byte behind the superblock is erased by the steps: no weak bit is left.
#[test]
fn no_weak_bit_is_left(rt: HostRuntime) -> Result<(), Fail> {
    let chip = used(rt.alloc(), 0xFF)?;
    assert_eq!(rt; count(chip.weak(), BEHIND, 65_536, 0xFF), 65_536 - BEHIND);
    assert_eq!(rt; settled(rt.alloc(), chip)?, (true, 0));
    Ok(())
}

/// A loss in any change of a settling leaves the disk as it was, however the torn bits read then;
/// and the next settling leaves no weak bit.
#[test]
fn a_loss_in_each_change_keeps_the_disk(rt: HostRuntime) -> Result<(), Fail> {
    for draw in [0x00, 0xA5, 0xFF] {
        let mut changes = 0u32;
        for change in 1..1_000u32 {
            let Some(chip) = lost(rt.alloc(), change, draw)? else {
                break;
            };
            changes = change;
            let told = settled(rt.alloc(), chip)?;
            assert!(rt; told == (true, 0), "change {change}, draw {draw}: {told:?}");
        }
        // Each block behind the superblock is erased.
        assert!(rt; changes >= 15, "{changes} changes");
    }
    Ok(())
}
