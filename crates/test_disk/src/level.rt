//! That blocks wear alike where wear is levelled: what was erased is counted on the bus.

use crate::writes::put;
use block_device::Disk;
use chip_simulator::SimChip;
use flash_disk::{FlashDisk, format};
use std::alloc::Global;
use std::marker::Brand;
use std::process::Abort;
use std::test::*;
use test_kit::{Dice, Wear, Workload, WornChip, full_of_groups};

/// The disk on a chip whose erases are counted.
type OnWorn<'w> = FlashDisk<WornChip<'w>, Brand>;

/// What a disk holds when the writes begin.
#[derive(Clone, Copy, Debug, PartialEq, Eq)]
enum Start {
    /// Each sector was written once.
    Full,
    /// And four of seven once more, as far as no block had to be copied: blocks with three live and
    /// four dead slots, which rest.
    Mixed,
    /// Each sector is in a live block of its group, as layout 1 left it.
    Groups,
}

/// A run: a chip of so many blocks of 4 KiB, and writes until each block that has slots was erased
/// so many times on average.
#[derive(Clone, Copy, Debug)]
struct Run {
    blocks: u16,
    start: Start,
    workload: Workload,
    /// Whether dead slots are tidied away after each write, however many are free.
    eager: bool,
    /// After so many writes the disk is mounted anew; 0: never.
    mount: u32,
    erases: u32,
}

/// What a run came to: its writes, the erases of the blocks that have slots, of the most and the
/// least worn of them, and how many these blocks are.
#[derive(Clone, Copy, Debug)]
struct Worn {
    writes: u32,
    erases: u32,
    most: u32,
    least: u32,
    blocks: u32,
}

impl Worn {
    /// Whether a write costs at most so many hundredths of an erase.
    fn costs_at_most(self, hundredths: u64) -> bool {
        100 * u64::from(self.erases) <= u64::from(self.writes).saturating_mul(hundredths)
    }

    /// Whether the most worn block was erased at most so many hundredths of what all were on
    /// average.
    fn wears_at_most(self, hundredths: u64) -> bool {
        let most = u64::from(self.most).saturating_mul(u64::from(self.blocks));
        most.saturating_mul(100) <= u64::from(self.erases).saturating_mul(hundredths)
    }

    /// Whether no two blocks differ by more than 32 erases.
    fn is_even(self) -> bool {
        self.most.saturating_sub(self.least) <= 32
    }
}

/// The disk on a chip, whose wear is levelled.
fn mounted<'w>(alloc: Global, chip: WornChip<'w>, run: Run) -> Result<OnWorn<'w>, Fail> {
    let mount: Result<OnWorn<'w>, _> = FlashDisk::mount(alloc, chip);
    let Ok(mut disk) = mount else {
        return Err(Fail::new("not mounted"));
    };
    disk.level_wear();
    if !run.eager {
        disk.tidy_lazily();
    }
    Ok(disk)
}

/// The content of a number.
fn content(number: u32) -> [u8; 512] {
    let bytes = number.to_be_bytes();
    let mut sector = [0u8; 512];
    for k in 0..512usize {
        sector[k] = bytes[k % 4];
    }
    sector
}

/// Writes a sector, notes its number in the array, and tidies until nothing is left to tidy.
fn write<D: Disk>(disk: &mut D, numbers: &mut [u32], sector: u32, number: u32) -> Result<(), Fail> {
    let Some(place) = numbers.get_mut(sector as usize) else {
        return Err(Fail::new("no such sector"));
    };
    *place = number;
    put(disk, sector, &content(number))??;
    for _ in 0..10_000u32 {
        if !disk.tidy()? {
            return Ok(());
        }
    }
    Err(Fail::new("a tidying without end"))
}

/// What a sector holds.
pub(crate) fn read<D: Disk>(disk: &mut D, sector: u32) -> Result<[u8; 512], Fail> {
    let mut bytes = [0u8; 512];
    if sector >= disk.sectors() {
        return Err(Fail::new("no such sector"));
    }
    disk.read(sector, &mut bytes)?;
    Ok(bytes)
}

/// Whether the sectors of a disk are those of the array.
fn is_array<D: Disk>(disk: &mut D, numbers: &[u32]) -> Result<bool, Fail> {
    for sector in 0..disk.sectors() {
        let bytes = read(disk, sector)?;
        match numbers.get(sector as usize) {
            Some(number) if bytes == content(*number) => {}
            _ => return Ok(false),
        }
    }
    Ok(disk.sectors() as usize == numbers.len())
}

/// The writes of a run.
fn wear_out<'w>(
    alloc: Global,
    disk: OnWorn<'w>,
    numbers: &mut [u32],
    wear: &'w Wear,
    run: Run,
) -> Result<(OnWorn<'w>, u32), Fail> {
    let mut disk = disk;
    let sectors = disk.sectors();
    let mut dice = Dice::new(0x9E37_79B9_7F4A_7C15);
    let goal = u32::from(run.blocks.saturating_sub(4)).saturating_mul(run.erases);
    for writes in 0..10_000_000u32 {
        if wear.total() >= goal {
            return Ok((disk, writes));
        }
        let sector = run.workload.draw(&mut dice, sectors);
        write(&mut disk, numbers, sector, writes)?;
        if run.mount > 0 && (writes + 1) % run.mount == 0 {
            disk = mounted(alloc, disk.into_inner(), run)?;
        }
    }
    Err(Fail::new("ten million writes wear out nothing"))
}

/// The chip of a run, and the number that each sector of it holds.
fn new_chip(alloc: Global, run: Run) -> Result<(SimChip, u32), Fail> {
    if run.start == Start::Groups {
        return Ok((SimChip::new(full_of_groups(alloc, run.blocks)?)?, u32::MAX));
    }
    let bytes = vec![in alloc; 0xFFu8; 4_096 * run.blocks as usize]?;
    let (chip, answer) = format(SimChip::new(bytes)?);
    answer?;
    Ok((chip, 0))
}

/// Writes what the disk holds when a run begins.
fn begin<D: Disk>(disk: &mut D, numbers: &mut [u32], run: Run) -> Result<(), Fail> {
    if run.start == Start::Groups {
        return Ok(());
    }
    let sectors = disk.sectors();
    for sector in 0..sectors {
        write(disk, numbers, sector, sector)?;
    }
    if run.start == Start::Full {
        return Ok(());
    }
    let spare = (7 * u32::from(run.blocks.saturating_sub(4))).saturating_sub(sectors);
    for sector in 0..(spare / 5).saturating_mul(7) {
        if sector % 7 < 4 {
            write(disk, numbers, sector, sector)?;
        }
    }
    Ok(())
}

/// A run on a new chip. What is read at the end, and after one more mount, is what was written.
fn worn_by(rt: &impl Abort, alloc: Global, run: Run) -> Result<Worn, Fail> {
    let blocks = run.blocks as usize;
    let (chip, number) = new_chip(alloc, run)?;
    let wear = Wear::new(alloc, blocks)?;
    let mut disk = mounted(alloc, WornChip { chip, wear: &wear }, run)?;
    let mut numbers = vec![in alloc; number; disk.sectors() as usize]?;
    begin(&mut disk, numbers.as_mut_slice(), run)?;
    let (disk, writes) = wear_out(alloc, disk, numbers.as_mut_slice(), &wear, run)?;
    let mut disk = disk;
    let (erases, most, least) = (wear.total(), wear.most(4, blocks), wear.least(4, blocks));
    assert!(rt; is_array(&mut disk, numbers.as_slice())?, "{run:?}");
    let mut again = mounted(alloc, disk.into_inner(), run)?;
    assert!(rt; is_array(&mut again, numbers.as_slice())?, "{run:?}");
    Ok(Worn {
        writes,
        erases,
        most,
        least,
        blocks: u32::from(run.blocks.saturating_sub(4)),
    })
}

/// A run of a workload on a full disk of 64 KiB that is tidied lazily.
fn small(workload: Workload, mount: u32) -> Run {
    Run {
        blocks: 16,
        start: Start::Full,
        workload,
        eager: false,
        mount,
        erases: 100,
    }
}

/// A run of one hot sector on 512 KiB.
fn large(start: Start, eager: bool) -> Run {
    Run {
        blocks: 128,
        start,
        workload: Workload::OneHot,
        eager,
        mount: 0,
        erases: 60,
    }
}

#[test]
fn blocks_wear_alike(rt: HostRuntime) -> Result<(), Fail> {
    for workload in Workload::all() {
        let run = small(workload, 0);
        let worn = worn_by(&rt, rt.alloc(), run)?;
        assert!(rt;
            worn.wears_at_most(125) && worn.is_even(),
            "{run:?}: {worn:?}"
        );
        if workload == Workload::OneHot {
            assert!(rt; worn.costs_at_most(20), "{run:?}: {worn:?}");
        }
    }
    Ok(())
}

#[test]
fn blocks_wear_alike_whose_disk_is_mounted_again_and_again(rt: HostRuntime) -> Result<(), Fail> {
    for workload in Workload::all() {
        let run = small(workload, 1_000);
        let worn = worn_by(&rt, rt.alloc(), run)?;
        assert!(rt; worn.wears_at_most(200), "{run:?}: {worn:?}");
    }
    Ok(())
}

#[test]
fn blocks_of_a_larger_chip_wear_alike(rt: HostRuntime) -> Result<(), Fail> {
    let run = large(Start::Full, false);
    let worn = worn_by(&rt, rt.alloc(), run)?;
    assert!(rt;
        worn.wears_at_most(125) && worn.costs_at_most(20) && worn.is_even(),
        "{run:?}: {worn:?}"
    );
    Ok(())
}

#[test]
fn blocks_wear_alike_that_are_tidied_at_once(rt: HostRuntime) -> Result<(), Fail> {
    let run = large(Start::Full, true);
    let worn = worn_by(&rt, rt.alloc(), run)?;
    assert!(rt;
        worn.wears_at_most(125) && worn.is_even(),
        "{run:?}: {worn:?}"
    );
    Ok(())
}

/// No block falls behind, where others are erased 60 times, that one hot sector alone would leave
/// as it was.
fn none_falls_behind(rt: &impl Abort, alloc: Global, start: Start) -> Result<(), Fail> {
    let run = large(start, false);
    let worn = worn_by(rt, alloc, run)?;
    assert!(rt; worn.is_even(), "{run:?}: {worn:?}");
    Ok(())
}

#[test]
fn no_block_falls_behind_whose_slots_rest(rt: HostRuntime) -> Result<(), Fail> {
    none_falls_behind(&rt, rt.alloc(), Start::Mixed)
}

#[test]
fn no_group_falls_behind(rt: HostRuntime) -> Result<(), Fail> {
    none_falls_behind(&rt, rt.alloc(), Start::Groups)
}
