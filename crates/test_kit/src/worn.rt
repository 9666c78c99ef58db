//! A simulated chip that counts what wears it, and the workloads that do.

use crate::dice::Dice;
use chip_model::{PowerLost, SpiBus};
use chip_simulator::SimChip;
use std::alloc::{AllocError, Global};
use std::cell::Cell;

/// The frames that a chip was sent and that wear it, answered or not.
#[derive(Drop)]
pub struct Wear {
    /// The sector erases (20h) of each block of 4 KiB.
    erases: Vec<Cell<u32>>,
    /// All of these together, but for those of the superblock and the journals.
    total: Cell<u32>,
    /// The page programs (02h).
    programs: Cell<u32>,
}

/// The first block that has slots: the superblock and three journals are before it.
const FIRST: usize = 4;

impl Wear {
    /// A chip of so many blocks, to which none was sent yet.
    pub fn new(alloc: Global, blocks: usize) -> Result<Wear, AllocError> {
        let mut erases = Vec::with_capacity(alloc, blocks)?;
        for _ in 0..blocks {
            erases.push(Cell::new(0u32))?;
        }
        Ok(Wear {
            erases,
            total: Cell::new(0),
            programs: Cell::new(0),
        })
    }

    /// How often a block was erased.
    pub fn erases_of(&self, block: usize) -> u32 {
        match self.erases.get(block) {
            Some(erases) => erases.get(),
            None => 0,
        }
    }

    /// The erases of the most worn block from one up to another.
    pub fn most(&self, from: usize, to: usize) -> u32 {
        let mut most = 0;
        for block in from..to {
            most = most.max(self.erases_of(block));
        }
        most
    }

    /// The erases of the least worn block from one up to another.
    pub fn least(&self, from: usize, to: usize) -> u32 {
        let mut least = u32::MAX;
        for block in from..to {
            least = least.min(self.erases_of(block));
        }
        least
    }

    /// The erases of the three journals together.
    pub fn of_journals(&self) -> u32 {
        let mut sum = 0u32;
        for block in 1..FIRST {
            sum = sum.saturating_add(self.erases_of(block));
        }
        sum
    }

    /// The erases of all blocks that have slots together.
    pub fn total(&self) -> u32 {
        self.total.get()
    }

    /// The programs.
    pub fn programs(&self) -> u32 {
        self.programs.get()
    }

    /// Counts a frame.
    fn count(&self, send: &[u8]) {
        match send {
            [0x20, high, middle, low] => {
                let block = (u32::from_be_bytes([0, *high, *middle, *low]) / 4_096) as usize;
                if let Some(erases) = self.erases.get(block) {
                    erases.set(erases.get().saturating_add(1));
                }
                if block >= FIRST {
                    self.total.set(self.total.get().saturating_add(1));
                }
            }
            [0x02, ..] => self.programs.set(self.programs.get().saturating_add(1)),
            _ => {}
        }
    }
}

/// A simulated chip whose frames are counted.
#[derive(Drop)]
pub struct WornChip<'w> {
    pub chip: SimChip,
    pub wear: &'w Wear,
}

impl SpiBus for WornChip<'_> {
    ghost use Rattle.chip_simulator.specs.Sim.{chip_of, cuts_of, slows_of};
    ghost use Rattle.chip_simulator.specs.Lawful.{lawful_chip};

    ghost chip = { λ w. chip_of w.chip };

    ghost cuts = { λ w. cuts_of w.chip };

    ghost slows = { λ w. slows_of w.chip };

    ghost lawful = { λ w. lawful_chip w.chip };

    fn transact(&mut self, send: &[u8], recv: &mut [u8]) -> Result<(), PowerLost> {
        self.wear.count(send);
        self.chip.transact(send, recv)
    }

    fn power_on(&mut self) {
        self.chip.power_on();
    }

    fn arm(&mut self, count: u32, kind: u8, mask: u8) {
        self.chip.arm(count, kind, mask);
    }
}

/// Puts bytes at a place of a memory, as far as it goes.
fn put(memory: &mut [u8], at: usize, bytes: &[u8]) {
    for k in 0..bytes.len() {
        if let Some(byte) = memory.get_mut(at.saturating_add(k)) {
            *byte = bytes[k];
        }
    }
}

/// A chip of layout 1 of so many blocks of 4 KiB, of which each group is live in a block of its
/// own; each byte of a sector is FFh.
pub fn full_of_groups(alloc: Global, blocks: u16) -> Result<Vec<u8>, AllocError> {
    let groups = (7 * u32::from(blocks.saturating_sub(4)) / 8) as u16;
    let mut memory = vec![in alloc; 0xFFu8; 4_096 * blocks as usize]?;
    let (own, all) = (blocks.to_le_bytes(), groups.to_le_bytes());
    put(memory.as_mut_slice(), 0, b"NORBLK01");
    put(
        memory.as_mut_slice(),
        8,
        &[1, own[0], own[1], all[0], all[1], 0xFF, 0x00],
    );
    for group in 0..groups {
        let number = group.to_le_bytes();
        put(
            memory.as_mut_slice(),
            4_096 * (FIRST + group as usize),
            &[0xFC, 0xFC, number[0], number[1]],
        );
    }
    Ok(memory)
}

/// Which sectors are written.
#[derive(Clone, Copy, Debug, PartialEq, Eq)]
pub enum Workload {
    /// The first one alone.
    OneHot,
    /// The first ten.
    TenHot,
    /// All alike.
    Uniform,
    /// The first fifth by four writes of five, and all by the others.
    Skewed,
}

impl Workload {
    /// Each workload.
    pub fn all() -> [Workload; 4] {
        [
            Workload::OneHot,
            Workload::TenHot,
            Workload::Uniform,
            Workload::Skewed,
        ]
    }

    /// The next sector of a disk that has so many, at least 10.
    pub fn draw(self, dice: &mut Dice, sectors: u32) -> u32 {
        let sectors = sectors.max(10);
        match self {
            Workload::OneHot => 0,
            Workload::TenHot => dice.below(10),
            Workload::Uniform => dice.below(sectors),
            Workload::Skewed => {
                if dice.below(5) < 4 {
                    dice.below(sectors / 5)
                } else {
                    dice.below(sectors)
                }
            }
        }
    }
}
