//! A run: writes, until the blocks are worn so far.

use crate::failure::Failure;
use crate::figures::Figures;
use crate::plan::{Keeper, Plan, Policy, Start, Table};
use block_device::Disk;
use chip_simulator::SimChip;
use flash_disk::{FlashDisk, format};
use std::alloc::Global;
use std::marker::Brand;
use test_kit::{Dice, Wear, WornChip, full_of_groups};

/// The disk on a chip whose erases are counted.
type OnWorn<'w> = FlashDisk<WornChip<'w>, Brand>;

/// The most tidyings after a write.
const TIDYINGS: u32 = 100_000;

/// The chip at the start of a run.
fn new_chip(alloc: Global, plan: Plan) -> Result<SimChip, Failure> {
    let blocks = plan.table.blocks();
    if plan.start == Start::Groups {
        let Ok(chip) = SimChip::new(full_of_groups(alloc, blocks.min(4_096) as u16)?) else {
            return Err(Failure::Refused);
        };
        return Ok(chip);
    }
    let mut bytes = Vec::new(alloc);
    bytes.resize(4_096 * blocks as usize, 0xFF)?;
    let Ok(chip) = SimChip::new(bytes) else {
        return Err(Failure::Refused);
    };
    match format(chip) {
        (chip, Ok(())) => Ok(chip),
        (_chip, Err(_)) => Err(Failure::Refused),
    }
}

/// The disk on a chip, with the plan's policy and keeper.
fn mounted<'w>(alloc: Global, chip: WornChip<'w>, plan: Plan) -> Result<OnWorn<'w>, Failure> {
    let mount: Result<OnWorn<'w>, _> = FlashDisk::mount(alloc, chip);
    let Ok(mut disk) = mount else {
        return Err(Failure::Refused);
    };
    if plan.policy == Policy::Level {
        disk.level_wear();
    }
    if plan.keeper == Keeper::Lazy {
        disk.tidy_lazily();
    }
    Ok(disk)
}

/// Writes a sector, if the disk has it.
fn write_sector<D: Disk>(disk: &mut D, sector: u32) -> Result<(), Failure> {
    let bytes = [0xA5u8; 512];
    if sector >= disk.sectors() {
        return Err(Failure::Refused);
    }
    disk.write(sector, &bytes)?;
    Ok(())
}

/// Writes what the disk holds when a run begins.
fn begin<D: Disk>(disk: &mut D, plan: Plan) -> Result<(), Failure> {
    let sectors = disk.sectors();
    if plan.start == Start::Full || plan.start == Start::Mixed {
        for sector in 0..sectors {
            write_sector(disk, sector)?;
        }
    }
    if plan.start == Start::Mixed {
        let spare = plan
            .table
            .worn_blocks()
            .saturating_mul(7)
            .saturating_sub(sectors);
        for sector in 0..(spare / 5).saturating_mul(7) {
            if sector % 7 < 4 {
                write_sector(disk, sector)?;
            }
        }
    }
    Ok(())
}

/// Tidies until nothing is left to tidy.
fn tidy_all<D: Disk>(disk: &mut D) -> Result<(), Failure> {
    for _ in 0..TIDYINGS {
        if !disk.tidy()? {
            break;
        }
    }
    Ok(())
}

/// What the keeper does after a write.
fn keep<D: Disk>(disk: &mut D, keeper: Keeper) -> Result<(), Failure> {
    match keeper {
        Keeper::Lazy => tidy_all(disk),
        Keeper::Eager => {
            let _more = disk.tidy()?;
            Ok(())
        }
        Keeper::Absent => Ok(()),
    }
}

/// Whether the disk is mounted anew after so many writes.
fn is_mounted_anew(table: Table, writes: u32) -> bool {
    table.mount > 0 && writes % table.mount == 0
}

/// The writes of a run: how many they are.
fn wear_out<'w>(
    alloc: Global,
    disk: OnWorn<'w>,
    wear: &'w Wear,
    plan: Plan,
) -> Result<u32, Failure> {
    let mut disk = disk;
    let mut dice = Dice::new(0x9E37_79B9_7F4A_7C15);
    let goal = plan.table.erases.saturating_mul(plan.table.worn_blocks());
    let sectors = disk.sectors();
    for writes in 0..u32::MAX {
        if wear.total() >= goal {
            return Ok(writes);
        }
        write_sector(&mut disk, plan.workload.draw(&mut dice, sectors))?;
        keep(&mut disk, plan.keeper)?;
        if is_mounted_anew(plan.table, writes + 1) {
            disk = mounted(alloc, disk.into_inner(), plan)?;
        }
    }
    Ok(u32::MAX)
}

/// A run on a new chip.
pub fn measured(alloc: Global, plan: Plan) -> Result<Figures, Failure> {
    let blocks = plan.table.blocks() as usize;
    let wear = Wear::new(alloc, blocks)?;
    let chip = new_chip(alloc, plan)?;
    let mut disk = mounted(alloc, WornChip { chip, wear: &wear }, plan)?;
    begin(&mut disk, plan)?;
    let programs = wear.programs();
    let writes = wear_out(alloc, disk, &wear, plan)?;
    Ok(Figures {
        plan,
        writes,
        erases: wear.total(),
        most: wear.most(4, blocks),
        least: wear.least(4, blocks),
        of_journals: wear.of_journals(),
        most_of_journals: wear.most(1, 4),
        programs: wear.programs().saturating_sub(programs),
    })
}
