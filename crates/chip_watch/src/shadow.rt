//! The chip in memory beside a watched one.

ghost use Rattle.std.specs.Prelude.{◌≡◌, ◌+◌, ◌/◌, ◌%◌, ◌<◌, ◌≤◌, ℕ, length, false, true};
ghost use Rattle.std.specs.Prelude.{◌^◌, EachIndex, slice_index, [], List, if◌then◌else◌};
ghost use Rattle.std.proofs.Props.{props};
ghost use Rattle.chip_model.specs.Chip.{is_idle};
ghost use Rattle.chip_model.specs.Frames.{status_1};
ghost use Rattle.chip_model.specs.Geometry.{IsChipSize};
ghost use Rattle.chip_model.specs.Memory.{byte};
ghost use Rattle.chip_simulator.specs.Sim.{chip_of};
ghost use Rattle.chip_watch.specs.Changes.{change_of};
ghost use Rattle.chip_watch.specs.Shadow.{IsCalm, FitsSize};

use crate::asking::{is_known, is_status};
use crate::change::{Change, change_by};
use crate::simulator::{end, exchange, look};
use chip_simulator::SimChip;
use spi_frames::Instruction;

/// A chip in memory that is led through the frames of another one.
#[derive(Drop)]
pub struct Shadow {
    pub chip: SimChip,
    /// The SFDP bytes.
    pub table: [u8; 256],
    pub status2: u8,
    pub status3: u8,
    /// The memory's bytes.
    pub size: u32,
    /// What is in progress.
    pub change: Change,
    /// Status register 1 while something is in progress.
    pub status: u8,
    /// How many status reads of the operation showed BUSY, at most 65,535.
    pub polls: u32,
    pub powered: bool,
    /// How many operations showed BUSY in 65,535 status reads.
    pub slows: u64,
    ghost calm: { IsCalm chip },
    ghost bytes: { length (chip_of chip).memory ≡ size },
    ghost sized: { IsChipSize size },
    ghost full: { length table ≡ 256 },
    ghost fits: { FitsSize table (length (chip_of chip).memory) } by { Prim.hlevel props },
    ghost no_cmp: { status2 / 64 % 2 ≡ 0 },
    ghost no_wps: { status3 / 4 % 2 ≡ 0 },
    ghost goes: { change ≡ change_of (chip_of chip).operation },
    ghost shown: { is_idle (chip_of chip).operation ≡ false → status ≡ status_1 (chip_of chip) },
    ghost asked: { is_idle (chip_of chip).operation ≡ false → (chip_of chip).polls ≡ 1 },
    ghost resting: { is_idle (chip_of chip).operation ≡ true → polls ≡ 0 },
    ghost few: { polls ≤ 65535 },
}

/// The same byte everywhere.
pub fn fill(recv: &mut [u8], byte: u8)
    ensures { EachIndex recv.new (λ k. slice_index recv.new k ≡ byte) }
{
    for cell in recv.iter_mut() {
        *cell = byte;
    }
}

/// The bytes of a table from a place on, past its end from the first on.
fn fill_round(recv: &mut [u8], table: &[u8; 256], at: u32)
    ensures { EachIndex recv.new (λ k. byte recv.new k ≡ byte table.now ((at + k) % 256)) }
{
    for k in 0..recv.len() {
        recv[k] = table[(at as usize % 256 + k % 256) % 256];
    }
}

impl Shadow {
    ghost use Rattle.chip_model.specs.Chip.{completed};
    ghost use Rattle.chip_model.specs.Cut.{Cut};
    ghost use Rattle.chip_model.specs.Frames.{Receives, Status1, after_command, command_of};
    ghost use Rattle.chip_model.specs.Frames.{Frame, newly_slow, one_more_poll, with_polls};
    ghost use Rattle.chip_simulator.specs.Sim.{Polls};
    ghost use Rattle.chip_watch.specs.Asking.{heeds};
    ghost use Rattle.chip_watch.specs.Reading.{change_reads};
    ghost use Rattle.spi_frames.specs.Instruction.{instructed};
    ghost use Rattle.chip_watch.specs.Watched.{shadow_chip};

    /// Whether nothing is in progress.
    pub fn is_idle(&self) -> bool
        ensures { result ≡ is_idle (shadow_chip self.now).operation }
    {
        matches!(self.change, Change::None)
    }

    /// The memory.
    pub fn memory(&self) -> &[u8]
        ensures { result.now ≡ (shadow_chip self.now).memory }
    {
        self.chip.bytes()
    }

    /// A frame that the simulator answers as this chip does.
    fn obey(&mut self, send: &[u8], instruction: &Instruction, recv: &mut [u8])
        requires idle { is_idle (shadow_chip self.old).operation ≡ true }
        requires decoded { instructed instruction.now ≡ command_of send.now }
        ensures receives { Receives (chip_of self.old.chip) (command_of send.now) recv.new }
        ensures left { shadow_chip self.new
            ≡ after_command (shadow_chip self.old) (command_of send.now) }
        ensures slows { self.new.slows ≡ self.old.slows }
    {
        exchange(&mut self.chip, send, recv);
        let change = change_by(instruction, self.size);
        let status = look(&mut self.chip);
        if status % 2 == 1 {
            self.change = change;
            self.status = status;
        }
    }

    /// The whole effect of a frame on an idle chip.
    pub fn take(&mut self, send: &[u8], instruction: &Instruction, recv: &mut [u8])
        requires idle { is_idle (shadow_chip self.old).operation ≡ true }
        requires decoded { instructed instruction.now ≡ command_of send.now }
        ensures receives { Receives (shadow_chip self.old) (command_of send.now) recv.new }
        ensures left { shadow_chip self.new
            ≡ after_command (shadow_chip self.old) (command_of send.now) }
        ensures slows { self.new.slows ≡ self.old.slows }
    {
        match instruction {
            Instruction::Status2 => fill(recv, self.status2),
            Instruction::Status3 => fill(recv, self.status3),
            Instruction::Sfdp(at) => fill_round(recv, &self.table, *at),
            _ => self.obey(send, instruction, recv),
        }
    }

    /// A status read that shows BUSY.
    fn wait(&mut self, recv: &mut [u8])
        requires running { is_idle (shadow_chip self.old).operation ≡ false }
        requires room { (shadow_chip self.old).polls ≡ 65534 → self.old.slows + 1 < 2 ^ 64 }
        ensures receives { Receives (shadow_chip self.old) Status1 recv.new }
        ensures left { shadow_chip self.new ≡ with_polls (shadow_chip self.old)
            (one_more_poll (shadow_chip self.old).polls) }
        ensures slows { self.new.slows
            ≡ self.old.slows + newly_slow (shadow_chip self.old) (shadow_chip self.new) }
    {
        fill(recv, self.status);
        if self.polls < 65_535 {
            self.polls += 1;
            if self.polls == 65_535 {
                self.slows += 1;
            }
        }
    }

    /// The operation in progress completes.
    pub fn complete(&mut self)
        requires running { is_idle (shadow_chip self.old).operation ≡ false }
        ensures left { shadow_chip self.new ≡ completed (shadow_chip self.old) }
        ensures slows { self.new.slows ≡ self.old.slows }
    {
        end(&mut self.chip);
        self.change = Change::None;
        self.polls = 0;
    }

    /// Status register 1 of an idle chip.
    pub fn register(&mut self) -> u8
        requires idle { is_idle (shadow_chip self.old).operation ≡ true }
        ensures status { result ≡ status_1 (shadow_chip self.old) }
        ensures left { shadow_chip self.new ≡ shadow_chip self.old }
        ensures slows { self.new.slows ≡ self.old.slows }
    {
        look(&mut self.chip)
    }

    /// An operation in progress completes, and WEL is cleared.
    fn calm_down(&mut self)
        ensures left { shadow_chip self.new ≡ completed (shadow_chip self.old) }
        ensures slows { self.new.slows ≡ self.old.slows }
    {
        if self.is_idle() {
            exchange(&mut self.chip, &[0x04], &mut []);
        } else {
            self.complete();
        }
    }

    /// The power goes; an operation in progress completes just before.
    pub fn turn_off(&mut self)
        ensures cut { Cut (shadow_chip self.old) (shadow_chip self.new) }
        ensures exact { shadow_chip self.new
            ≡ record (completed (shadow_chip self.old)) { powered = false } }
        ensures slows { self.new.slows ≡ self.old.slows }
    {
        self.calm_down();
        self.powered = false;
    }

    /// A read of status register 1 while an operation is in progress, which has completed where
    /// `ready` says so.
    fn poll(&mut self, recv: &mut [u8], ready: bool)
        requires running { is_idle (shadow_chip self.old).operation ≡ false }
        ensures polls { Polls (shadow_chip self.old) recv.new (shadow_chip self.new) }
        ensures slows { self.new.slows
            ≡ self.old.slows + newly_slow (shadow_chip self.old) (shadow_chip self.new) }
    {
        let last = self.polls == 65_534 && self.slows == u64::MAX;
        if ready || last {
            self.complete();
            let status = self.register();
            fill(recv, status);
            return;
        }
        self.wait(recv);
    }

    /// The whole effect of a frame, where an operation in progress has completed at a read of
    /// status register 1 where `ready` says so.
    pub fn follow(&mut self, send: &[u8], instruction: &Instruction, recv: &mut [u8], ready: bool)
        requires decoded { instructed instruction.now ≡ command_of send.now }
        ensures frame { Frame (shadow_chip self.old) send.now recv.new (shadow_chip self.new) }
        ensures slows { self.new.slows
            ≡ self.old.slows + newly_slow (shadow_chip self.old) (shadow_chip self.new) }
    {
        if self.is_idle() {
            self.take(send, instruction, recv);
            return;
        }
        match instruction {
            Instruction::Status1 => self.poll(recv, ready),
            Instruction::Status2 => fill(recv, self.status2),
            Instruction::Status3 => fill(recv, self.status3),
            _ => fill(recv, 0xFF),
        }
    }

    /// Whether the chip doesn't ignore a frame.
    pub fn heeds(&self, instruction: &Instruction) -> bool
        ensures { result ≡ heeds (shadow_chip self.now) (instructed instruction.now) }
    {
        if self.is_idle() {
            is_known(instruction)
        } else {
            is_status(instruction)
        }
    }

    /// The change that has ended, where this one was in progress; none where it still is.
    pub fn ended(&self, before: Change) -> Change
        ensures { (m : List ℕ) → change_reads result m
            ≡ (if is_idle (shadow_chip self.now).operation then change_reads before m else []) }
    {
        if self.is_idle() { before } else { Change::None }
    }

    /// The change that was in progress before a frame, or else the one after it.
    pub fn interrupted(&self, before: Change) -> Change
        ensures before { (before ≡ Change.None → ⊥) → result ≡ before }
        ensures after { before ≡ Change.None
            → result ≡ change_of (shadow_chip self.now).operation }
    {
        match before {
            Change::None => self.change,
            Change::Page(_) => before,
            Change::Unit(_, _) => before,
            Change::Status(_) => before,
        }
    }

    /// Turns the power off and on, and answers status register 1 then.
    pub fn restart(&mut self) -> u8
        ensures left { shadow_chip self.new
            ≡ record (completed (shadow_chip self.old)) { powered = true } }
        ensures status { result ≡ status_1 (shadow_chip self.new) }
        ensures slows { self.new.slows ≡ self.old.slows }
    {
        self.turn_off();
        let status = self.register();
        self.powered = true;
        status
    }
}
