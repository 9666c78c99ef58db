//! The life of a chip whose torn bits waver: calls of its disk, losses of power, and power cycles,
//! judged by the plain array.

use crate::chip::OnSim;
use crate::draw::Draw;
use crate::failure::Failure;
use block_device::{Disk, DiskError};
use chip_simulator::SimChip;
use erase_journal::Firmness;
use firm_chip::is_firm;
use flash_disk::{FlashDisk, MountError};
use nor_driver::ProbeError;
use std::alloc::Global;
use test_judge::{Array, SECTORS, Seen};

/// How the chip is mounted.
#[derive(Clone, Copy, Debug)]
pub enum Mounting {
    /// As one whose bits are steady.
    Plain,
    /// As one whose torn bits may waver.
    Firm,
    /// The same, and its blocks wear alike: so `norbd` mounts a chip behind a programmer.
    FirmLevel,
}

impl Mounting {
    /// The disk on a chip, or the chip again.
    fn mount(self, alloc: Global, chip: SimChip) -> Result<OnSim, (SimChip, MountError)> {
        match self {
            Mounting::Plain => FlashDisk::mount(alloc, chip),
            Mounting::Firm => FlashDisk::mount_as(alloc, chip, Firmness::Firm),
            Mounting::FirmLevel => {
                let mut disk: OnSim = FlashDisk::mount_as(alloc, chip, Firmness::Firm)?;
                disk.level_wear();
                Ok(disk)
            }
        }
    }
}

/// A call of a disk.
#[derive(Clone, Copy, Debug)]
pub enum Call {
    /// A write: from which sector on, how many, and the value of each of their bytes.
    Write(u32, u32, u8),
    /// The same two, which are zeros then.
    Zero(u32, u32),
    Tidy,
}

/// What happened to the chip.
#[derive(Clone, Copy, Debug)]
pub enum Step {
    /// A call, and the change in which the power was lost; 0 where it wasn't.
    Called(Call, u32),
    /// The power was off, and came again.
    Cycled(Draw),
    /// A mount, likewise.
    Mounted(u32),
    ReadAll,
}

/// A chip without power, and what is known of its sectors.
#[derive(Drop)]
pub struct Moment {
    pub memory: Vec<u8>,
    pub weak: Vec<u8>,
    pub array: Array,
}

/// What there is of a chip.
#[derive(Drop)]
enum Held {
    Nothing,
    Chip(SimChip),
    Disk(OnSim),
}

/// A chip with or without a disk on it.
#[derive(Drop)]
pub struct Life {
    alloc: Global,
    pub mounting: Mounting,
    held: Held,
    array: Array,
    room: Vec<u8>,
    pub seen: Seen,
    /// Whether the disk was mounted firmly, and no loss came since.
    is_firm: bool,
    /// What happened since `begin`.
    pub steps: Vec<Step>,
}

impl Life {
    /// No chip.
    pub fn new(alloc: Global, mounting: Mounting) -> Result<Life, Failure> {
        Ok(Life {
            alloc,
            mounting,
            held: Held::Nothing,
            array: Array::zeros(),
            room: vec![in alloc; 0u8; 512 * SECTORS as usize]?,
            seen: Seen::nothing(),
            is_firm: false,
            steps: Vec::new(alloc),
        })
    }

    /// A chip as it was at a moment.
    pub fn begin(&mut self, moment: &Moment) -> Result<(), Failure> {
        let memory = moment.memory.as_slice().to_vec(self.alloc)?;
        let weak = moment.weak.as_slice().to_vec(self.alloc)?;
        let Ok(chip) = SimChip::wavering(memory, weak) else {
            return Err(Failure::Refused);
        };
        self.held = Held::Chip(chip);
        self.array = moment.array;
        self.seen = Seen::nothing();
        self.is_firm = false;
        self.steps.clear();
        Ok(())
    }

    fn note(&mut self, step: Step) -> Result<(), Failure> {
        match self.steps.push(step) {
            Ok(()) => Ok(()),
            Err(_) => Err(Failure::NoMemory),
        }
    }

    /// The chip, of which the disk is taken.
    fn take_chip(&mut self) -> Result<SimChip, Failure> {
        match std::mem::replace(&mut self.held, Held::Nothing) {
            Held::Nothing => Err(Failure::Script),
            Held::Chip(chip) => Ok(chip),
            Held::Disk(disk) => Ok(disk.into_inner()),
        }
    }

    /// As it is now; a disk is taken off.
    pub fn moment(&mut self) -> Result<Moment, Failure> {
        let chip = self.take_chip()?;
        let weak = chip.weak().to_vec(self.alloc)?;
        Ok(Moment {
            memory: chip.into_inner(),
            weak,
            array: self.array,
        })
    }

    /// The power goes and comes, and the weak bits are drawn. After a session under a firm mount
    /// that no loss ended the chip has to be firm: whatever is drawn, it is the same disk.
    pub fn cycle(&mut self, draw: Draw) -> Result<(), Failure> {
        self.note(Step::Cycled(draw))?;
        let mut chip = self.take_chip()?;
        if self.is_firm && !is_firm(chip.bytes(), chip.weak()) {
            return Err(Failure::Weak);
        }
        self.is_firm = false;
        let bytes = draw.bytes(chip.bytes());
        chip.power_cycle(&bytes);
        self.held = Held::Chip(chip);
        Ok(())
    }

    /// Mounts the chip, with a loss of power in this change of the mount, 0 for none. Whether it
    /// is mounted, and the power is on.
    pub fn mount(&mut self, change: u32) -> Result<bool, Failure> {
        self.mount_as(self.mounting, change)
    }

    /// The same in another way.
    pub fn mount_as(&mut self, mounting: Mounting, change: u32) -> Result<bool, Failure> {
        self.note(Step::Mounted(change))?;
        let mut chip = self.take_chip()?;
        chip.arm_cut(change, 1, 0);
        match mounting.mount(self.alloc, chip) {
            Ok(mut disk) => {
                disk.arm(0, 0, 0);
                self.held = Held::Disk(disk);
                self.is_firm = !matches!(mounting, Mounting::Plain);
                Ok(true)
            }
            Err((mut chip, MountError::Probe(ProbeError::Cut))) if change > 0 => {
                chip.arm_cut(0, 0, 0);
                self.held = Held::Chip(chip);
                self.seen.losses = self.seen.losses.saturating_add(1);
                self.seen.lost_restores = self.seen.lost_restores.saturating_add(1);
                Ok(false)
            }
            Err(_) => Err(Failure::Refused),
        }
    }

    /// Does a call of the disk, with a loss of power in this change of it, 0 for none. Whether it
    /// was done, and not lost.
    pub fn call(&mut self, call: Call, change: u32) -> Result<bool, Failure> {
        self.note(Step::Called(call, change))?;
        let Held::Disk(disk) = &mut self.held else {
            return Err(Failure::Script);
        };
        disk.arm(change, 1, 0);
        let answer = called(disk, call, self.room.as_mut_slice());
        disk.arm(0, 0, 0);
        let is_whole = match answer {
            Ok(()) => true,
            Err(DiskError::Cut) if change > 0 => false,
            Err(_) => return Err(Failure::Script),
        };
        match call {
            Call::Write(first, count, value) => self.array.write(first, count, value, is_whole),
            Call::Zero(first, count) => self.array.write(first, count, 0, is_whole),
            Call::Tidy => {}
        }
        if !is_whole {
            self.is_firm = false;
            self.seen.losses = self.seen.losses.saturating_add(1);
        }
        Ok(is_whole)
    }

    /// Reads all sectors, and judges them.
    pub fn read_all(&mut self) -> Result<(), Failure> {
        self.note(Step::ReadAll)?;
        let Held::Disk(disk) = &mut self.held else {
            return Err(Failure::Script);
        };
        let room = self.room.as_mut_slice();
        if disk.sectors() != SECTORS || room.len() != 512 * SECTORS as usize {
            return Err(Failure::Script);
        }
        if disk.read(0, room).is_err() {
            return Err(Failure::Script);
        }
        match self.array.find(0, room, &mut self.seen) {
            Ok(()) => Ok(()),
            Err(wrong) => Err(Failure::Told(wrong)),
        }
    }

    /// A power cycle, a whole mount, and a READ of all sectors.
    pub fn look(&mut self, draw: Draw) -> Result<(), Failure> {
        self.cycle(draw)?;
        self.mount(0)?;
        self.read_all()
    }
}

/// Does a call of a disk, with room for what is written.
fn called(disk: &mut OnSim, call: Call, room: &mut [u8]) -> Result<(), DiskError> {
    let sectors = disk.sectors();
    match call {
        Call::Write(first, count, value) => {
            if first > sectors || count > sectors - first {
                return Err(DiskError::Slow);
            }
            let Some(from) = room.get_mut(..512 * count as usize) else {
                return Err(DiskError::Slow);
            };
            from.fill(value);
            disk.write(first, from)
        }
        Call::Zero(first, count) => {
            if first > sectors || count > sectors - first {
                return Err(DiskError::Slow);
            }
            disk.zero(first, count)
        }
        Call::Tidy => match disk.tidy() {
            Ok(_) => Ok(()),
            Err(error) => Err(error),
        },
    }
}
