//! Which blocks a sector that is written again and again wears, and that no number of writes uses
//! the journals up.

use crate::writes::write;
use block_device::Disk;
use chip_simulator::SimChip;
use std::test::*;
use test_kit::chips::{OnSim, count, formatted, mounted, set};

/// So many writes of a sector, with a tidying after each.
fn wear(disk: &mut OnSim, sector: u32, writes: u32) -> Result<(), Fail> {
    for turn in 0..writes {
        write(disk, sector, 1, (turn % 251) as u8)??;
        let _more = disk.tidy()?;
    }
    Ok(())
}

#[test]
fn a_hot_sector_wears_three_blocks(rt: HostRuntime) -> Result<(), Fail> {
    let mut disk = mounted(rt.alloc(), formatted(rt.alloc())?)?;
    wear(&mut disk, 0, 501)?;
    let memory = disk.into_inner().into_inner();
    // 500 erases, each a closed entry of the first journal with its block's number. Blocks 4 and 15
    // are copied into one another and into all others from the highest down; from then on blocks 4
    // and 5 into one another.
    for (block, erases) in [(4u8, 250u32), (5, 239), (6, 0), (14, 0), (15, 11)] {
        let mut found = 0u32;
        for entry in 0..512usize {
            let at = 0x1800usize.saturating_add(4usize.saturating_mul(entry));
            if memory.get(at) == Some(&0xF8) && memory.get(at.saturating_add(1)) == Some(&block) {
                found = found.saturating_add(1);
            }
        }
        assert_eq!(rt; found, erases, "block {block}");
    }
    Ok(())
}

#[test]
fn ten_thousand_writes_renew_the_journals(rt: HostRuntime) -> Result<(), Fail> {
    let mut memory = formatted(rt.alloc())?.into_inner();
    // 1,021 closed votes of the second journal for the first.
    set(memory.as_mut_slice(), 0x2400, 1_021, &[0xFC])?;
    let mut disk = mounted(rt.alloc(), SimChip::new(memory)?)?;
    wear(&mut disk, 6, 10_000)?;
    let left = disk.into_inner().into_inner();
    let places = [
        ("the first journal's votes", 0x1000, 0x1800, 0xFF, 2_048),
        ("its closed entries", 0x1800, 0x2000, 0xF8, 271),
        (
            "the second journal's votes for the third",
            0x2000,
            0x2400,
            0xFF,
            1_024,
        ),
        ("its votes for the first", 0x2400, 0x2800, 0xFC, 19),
        (
            "the third journal's votes for the first",
            0x3000,
            0x3400,
            0xFC,
            19,
        ),
        ("its votes for the second", 0x3400, 0x3800, 0xFC, 1),
    ];
    for (name, from, to, byte, wanted) in places {
        assert_eq!(rt; count(left.as_slice(), from, to, byte), wanted, "{name}");
    }
    Ok(())
}
