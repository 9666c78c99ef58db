//! What a firm mount costs: the programs and erases that the chip is sent.

use crate::writes::put;
use block_device::Disk;
use chip_simulator::SimChip;
use erase_journal::Firmness;
use flash_disk::{FlashDisk, format};
use std::alloc::Global;
use std::marker::Brand;
use std::test::*;
use test_kit::{Wear, WornChip};

/// The disk on a chip whose frames are counted.
type OnWorn<'w> = FlashDisk<WornChip<'w>, Brand>;

/// A mount after a clean stop: a chip of so many KiB, of whose sectors so many were written; the
/// programs and the erases.
#[derive(Clone, Copy, Debug, PartialEq, Eq)]
struct Cost {
    kib: u32,
    written: u32,
    programs: u32,
    erases: u32,
}

/// Mounts a chip, and hands it back.
fn mount<'w>(
    alloc: Global,
    chip: WornChip<'w>,
    firmness: Firmness,
    written: u32,
) -> Result<WornChip<'w>, Fail> {
    let mount: Result<OnWorn<'w>, _> = FlashDisk::mount_as(alloc, chip, firmness);
    let Ok(mut disk) = mount else {
        return Err(Fail::new("not mounted"));
    };
    for sector in 0..written.min(disk.sectors()) {
        put(&mut disk, sector, &[0xA5; 512])??;
    }
    Ok(disk.into_inner())
}

/// What the mount of a chip costs, firmly or not.
fn cost_of(alloc: Global, kib: u32, written: u32, firmness: Firmness) -> Result<Cost, Fail> {
    let memory = vec![in alloc; 0xFFu8; 1_024 * kib as usize]?;
    let (chip, answer) = format(SimChip::new(memory)?);
    answer?;
    let before = Wear::new(alloc, kib as usize / 4)?;
    let used = mount(
        alloc,
        WornChip {
            chip,
            wear: &before,
        },
        Firmness::Steady,
        written,
    )?;
    let wear = Wear::new(alloc, kib as usize / 4)?;
    let _chip = mount(
        alloc,
        WornChip {
            chip: used.chip,
            wear: &wear,
        },
        firmness,
        0,
    )?;
    Ok(Cost {
        kib,
        written,
        programs: wear.programs(),
        erases: wear.total().saturating_add(wear.of_journals()),
    })
}

/// After a clean stop a firm mount programs the head of each block in use, the superblock, and the
/// six votes and the entry that it gives up, and erases nothing; any other changes nothing.
#[test]
fn a_clean_mount_erases_nothing(rt: HostRuntime) -> Result<(), Fail> {
    for (kib, written, blocks) in [
        (64, 0, 0),
        (64, 14, 2),
        (64, 70, 10),
        (1_024, 700, 100),
        (16_384, 7_000, 1_000),
    ] {
        let plain = cost_of(rt.alloc(), kib, written, Firmness::Steady)?;
        assert!(rt; plain.programs == 0 && plain.erases == 0, "{plain:?}");
        let firm = cost_of(rt.alloc(), kib, written, Firmness::Firm)?;
        assert!(rt; firm.erases == 0 && firm.programs == blocks + 8, "{firm:?}");
    }
    Ok(())
}
