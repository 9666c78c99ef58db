//! A chip's cells and registers in memory, what a frame of bytes does to them, and what it answers.

ghost use Rattle.std.specs.Prelude.{◌^◌, ◌≡◌, ◌==◌, ◌+◌, ◌-◌, ◌*◌, ◌/◌, ◌%◌, ◌<◌, ◌≤◌, ◌⊎◌, ◌||◌};
ghost use Rattle.std.specs.Prelude.{EachIndex, false, length, min, nat_le, not, slice_index, take};
ghost use Rattle.std.specs.Prelude.{ℕ, true};
ghost use Rattle.chip_model.specs.Geometry.{IsChipSize};
ghost use Rattle.chip_model.specs.Memory.{and_at, erased, placed, Torn, TornErase};
ghost use Rattle.chip_model.specs.Chip.{programmed};
ghost use Rattle.chip_simulator.specs.Fits.{operation_of, fits_in};
ghost use Rattle.chip_simulator.specs.Mask.{filled, half_programmed, torn_byte};
ghost use Rattle.spi_frames.specs.Instruction.{HasBytes, instructed};

use crate::answers::{fill_id, fill_sfdp};
use crate::copy::fill_from;
use crate::weak::firm;
use spi_frames::{Instruction, decode};

/// What is in progress.
#[derive(Clone, Copy)]
pub enum Operation {
    Idle,
    /// A program: its first place, and how many bytes are latched for it.
    Programming(u32, u16),
    /// An erase: its unit's first place and its size in bytes.
    Erasing(u32, u32),
    /// A write of status register 1.
    Setting(u8),
}

/// Room for the bytes of a page program, which a chip keeps until it completes.
#[derive(Drop)]
pub struct Latch {
    bytes: [u8; 256],
}

impl Latch {
    /// Room in which nothing is held yet.
    fn new() -> Latch {
        Latch { bytes: [0; 256] }
    }

    /// Holds these bytes from now on.
    pub(crate) fn hold(&mut self, bytes: &[u8])
        requires { length bytes.now ≤ 256 }
        ensures { take (length bytes.now) self.new.bytes ≡ bytes.now }
    {
        self.bytes[..bytes.len()].copy_from_slice(bytes);
    }

    /// The first bytes that are held.
    pub(crate) fn first(&self, count: u16) -> &[u8]
        requires { count ≤ 256 }
        ensures bytes { result.now ≡ take count self.now.bytes }
        ensures few { length result.now ≤ 256 }
    {
        &self.bytes[..count as usize]
    }
}

/// The cells and registers of a chip in memory.
#[derive(Drop)]
pub struct Cells {
    pub memory: Vec<u8>,
    /// 1 for each bit of the memory that is weak. No byte where the chip is steady: then no bit
    /// ever is.
    pub weak: Vec<u8>,
    /// The memory's bytes.
    pub size: u32,
    /// Whether byte 0 of the SFDP table is wrong.
    pub spoiled: bool,
    /// Bits 2 to 7 of status register 1.
    pub protection: u8,
    /// WEL.
    pub enabled: bool,
    pub operation: Operation,
    /// The bytes of a program in progress, from the first on.
    pub latched: Latch,
    /// How many status reads of the operation showed BUSY, at most 65,535.
    pub polls: u32,
    pub powered: bool,
    /// Whether the operation in progress stays busy until the power goes.
    pub stuck: bool,
    /// Whether the next operation will.
    pub slow_next: bool,
    /// How often the power was lost.
    pub cuts: u64,
    /// How many operations showed BUSY in 65,535 status reads.
    pub slows: u64,
    ghost bytes: { length memory.items ≡ size },
    ghost tracked: { ((length weak.items == 0) || (length weak.items == size)) ≡ true },
    ghost whole: { length memory.items % 65536 ≡ 0 },
    ghost some: { 0 < length memory.items },
    ghost most: { length memory.items ≤ 16777216 },
    ghost six_bits: { protection < 64 },
    ghost few: { polls ≤ 65535 },
    ghost fits: { fits_in operation (length memory.items) ≡ true },
    ghost quick: { (stuck || nat_le polls 1) ≡ true },
}

impl Cells {
    ghost use Rattle.chip_model.specs.Chip.{completed, is_idle};
    ghost use Rattle.chip_model.specs.Frames.{is_protected, status_1};
    ghost use Rattle.chip_simulator.specs.Sim.{chip_in, fresh_chip, operation_in, pace_in};
    ghost use Rattle.chip_simulator.specs.Sim.{with_weak};

    /// Cells with this memory and these weak bits, with the power on and nothing in progress.
    pub(crate) fn new(bytes: Vec<u8>, weak: Vec<u8>) -> Cells
        requires size { IsChipSize (length bytes.items) }
        requires tracked { ((length weak.items == 0) || (length weak.items == length bytes.items))
            ≡ true }
        ensures chip { chip_in result ≡ with_weak (fresh_chip bytes.items) weak.items }
        ensures pace { pace_in result ≡ record { next = false; stuck = false } }
        ensures cuts { result.cuts ≡ 0 }
        ensures slows { result.slows ≡ 0 }
    {
        let size = bytes.len() as u32;
        Cells {
            memory: bytes,
            weak,
            size,
            spoiled: false,
            protection: 0,
            enabled: false,
            operation: Operation::Idle,
            latched: Latch::new(),
            polls: 0,
            powered: true,
            stuck: false,
            slow_next: false,
            cuts: 0,
            slows: 0,
        }
    }

    /// Whether nothing is in progress.
    pub(crate) fn is_idle(&self) -> bool
        ensures { result ≡ is_idle (operation_in self.now) }
    {
        matches!(self.operation, Operation::Idle)
    }

    /// Status register 1.
    pub(crate) fn status(&self) -> u8
        ensures { result ≡ status_1 (chip_in self.now) }
    {
        4 * self.protection + if self.enabled { 2 } else { 0 } + if self.is_idle() { 0 } else { 1 }
    }

    /// Whether one of the `size` bytes from `at` on is protected.
    pub(crate) fn is_protected(&self, at: u32, size: u32) -> bool
        requires { at + size ≤ length self.now.memory.items }
        ensures { result ≡ is_protected (chip_in self.now) at size }
    {
        if self.protection / 16 % 2 == 1 {
            return true;
        }
        if self.protection % 8 == 0 {
            return false;
        }
        let part = self.memory.len() / (1 << (7 - self.protection % 8));
        if self.protection / 8 % 2 == 0 {
            self.memory.len() - part < at as usize + size as usize
        } else {
            (at as usize) < part
        }
    }

    /// The operation in progress completes: what it made firm is weak no more.
    pub(crate) fn complete(&mut self)
        ensures chip { chip_in self.new ≡ completed (chip_in self.old) }
        ensures latched { self.new.latched ≡ self.old.latched }
        ensures pace { pace_in self.new ≡ pace_in self.old }
        ensures cuts { self.new.cuts ≡ self.old.cuts }
        ensures slows { self.new.slows ≡ self.old.slows }
    {
        firm(&mut self.weak, self.operation, &self.latched);
        match self.operation {
            Operation::Idle => {}
            Operation::Programming(at, count) => {
                program_page(&mut self.memory, at, self.latched.first(count))
            }
            Operation::Erasing(at, size) => fill_unit(&mut self.memory, at, size, 0xFF),
            Operation::Setting(value) => self.protection = value / 4,
        }
        self.enabled = false;
        self.operation = Operation::Idle;
        self.polls = 0;
    }
}

/// Programs bytes into places that follow one another.
fn program_run(memory: &mut [u8], from: usize, bytes: &[u8])
    requires { from + length bytes.now ≤ length memory.old }
    ensures { memory.new ≡ and_at memory.old from bytes.now }
{
    for k in 0..bytes.len() {
        memory[from + k] &= bytes[k];
    }
}

/// The same, where each bit takes its new value only where the mask has 1.
fn tear_run(memory: &mut [u8], from: usize, bytes: &[u8], mask: u8)
    requires { from + length bytes.now ≤ length memory.old }
    ensures { memory.new ≡ placed (torn_byte mask) memory.old from bytes.now }
{
    for k in 0..bytes.len() {
        let old = memory[from + k];
        memory[from + k] = (old & (0xFF - mask)) | (old & bytes[k] & mask);
    }
}

/// How many of so many bytes, the first at an address, fall before the end of its page.
fn before_end(at: u32, count: usize) -> usize
    ensures { result ≡ min count (256 - at % 256) }
{
    count.min(256 - at as usize % 256)
}

/// Programs up to 256 bytes into the page of the address; after the page's last byte comes its
/// first.
pub(crate) fn program_page(memory: &mut [u8], at: u32, bytes: &[u8])
    requires page { at / 256 * 256 + 256 ≤ length memory.old }
    requires few { length bytes.now ≤ 256 }
    ensures { memory.new ≡ programmed memory.old at bytes.now }
{
    let first = before_end(at, bytes.len());
    program_run(memory, at as usize, &bytes[..first]);
    program_run(memory, at as usize / 256 * 256, &bytes[first..]);
}

/// The same, where each bit takes its new value only where the mask has 1.
pub(crate) fn tear_page(memory: &mut [u8], at: u32, bytes: &[u8], mask: u8)
    requires page { at / 256 * 256 + 256 ≤ length memory.old }
    requires few { length bytes.now ≤ 256 }
    ensures torn { Torn memory.old (programmed memory.old at bytes.now) memory.new }
    ensures exact { memory.new ≡ half_programmed mask memory.old at bytes.now }
{
    let first = before_end(at, bytes.len());
    tear_run(memory, at as usize, &bytes[..first], mask);
    tear_run(memory, at as usize / 256 * 256, &bytes[first..], mask);
}

/// Fills a unit with one byte.
pub(crate) fn fill_unit(memory: &mut [u8], at: u32, size: u32, byte: u8)
    requires { at + size ≤ length memory.old }
    ensures exact { memory.new ≡ filled byte memory.old at size }
    ensures torn { TornErase memory.old at size memory.new }
    ensures erased { byte ≡ 255 → memory.new ≡ erased memory.old at size }
{
    for place in at as usize..at as usize + size as usize {
        memory[place] = byte;
    }
}

/// An address, modulo the chip's size.
fn wrapped(at: u32, size: u32) -> u32
    requires { 0 < size }
    ensures { result ≡ at % size }
{
    if at < size { at } else { at % size }
}

/// The same byte everywhere.
fn fill_with(recv: &mut [u8], byte: u8)
    ensures { EachIndex recv.new (λ k. slice_index recv.new k ≡ byte) }
{
    if recv.len() == 1 {
        recv[0] = byte;
        return;
    }
    for cell in recv.iter_mut() {
        *cell = byte;
    }
}

impl Cells {
    ghost use Rattle.chip_model.specs.Chip.{is_idle};
    ghost use Rattle.chip_model.specs.Frames.{after_command, starts, Erase, Frame, Program};
    ghost use Rattle.chip_model.specs.Frames.{newly_slow, Receives};
    ghost use Rattle.chip_simulator.specs.Sim.{chip_in, operation_in, pace_in, Polls};
    ghost use Rattle.chip_simulator.specs.Simulated.{after_frame, is_accepted, paced, polled};

    /// The answer of an idle chip.
    fn answer(&self, frame: &Instruction, recv: &mut [u8])
        ensures { Receives (chip_in self.now) (instructed frame.now) recv.new }
    {
        match frame {
            Instruction::Status1 => fill_with(recv, self.status()),
            Instruction::Status2 | Instruction::Status3 => fill_with(recv, 0),
            Instruction::Read(at) => fill_from(recv, &self.memory, *at),
            Instruction::Id => fill_id(recv, self.memory.len() as u32),
            Instruction::Sfdp(at) => fill_sfdp(recv, self.size, self.spoiled, *at),
            _ => fill_with(recv, 0xFF),
        }
    }

    /// An operation is in progress from now on.
    fn begin(&mut self, operation: Operation)
        requires fits { fits_in operation (length self.old.memory.items) ≡ true }
        ensures chip { chip_in self.new
            ≡ starts (chip_in self.old) (operation_of self.old.latched.bytes operation) }
        ensures pace { pace_in self.new ≡ paced (pace_in self.old) true }
        ensures cuts { self.new.cuts ≡ self.old.cuts }
        ensures slows { self.new.slows ≡ self.old.slows }
    {
        self.operation = operation;
        self.polls = 0;
        self.stuck = self.slow_next;
        self.slow_next = false;
    }

    /// A program that an idle chip is asked for, and whether it is accepted.
    fn obey_program(&mut self, at: u32, bytes: &[u8]) -> bool
        requires idle { is_idle (operation_in self.old) ≡ true }
        requires some { 0 < length bytes.now }
        ensures chip { chip_in self.new ≡ after_command (chip_in self.old) (Program at bytes.now) }
        ensures accepted { result ≡ not
            (is_idle (after_command (chip_in self.old) (Program at bytes.now)).operation) }
        ensures pace { pace_in self.new ≡ paced (pace_in self.old) result }
        ensures cuts { self.new.cuts ≡ self.old.cuts }
        ensures slows { self.new.slows ≡ self.old.slows }
    {
        let at = wrapped(at, self.size);
        if !self.enabled {
            return false;
        }
        if self.is_protected(at / 256 * 256, 256) {
            self.enabled = false;
            return false;
        }
        let skipped = bytes.len().saturating_sub(256);
        let from = at / 256 * 256 + ((at as usize % 256 + skipped) % 256) as u32;
        let count = bytes.len() - skipped;
        self.latched.hold(&bytes[skipped..]);
        self.begin(Operation::Programming(from, count as u16));
        true
    }

    /// An erase that an idle chip is asked for, and whether it is accepted.
    fn obey_erase(&mut self, at: u32, size: u32) -> bool
        requires idle { is_idle (operation_in self.old) ≡ true }
        requires size { (size ≡ 4096) ⊎ (size ≡ 65536) }
        ensures chip { chip_in self.new ≡ after_command (chip_in self.old) (Erase at size) }
        ensures accepted { result ≡ not
            (is_idle (after_command (chip_in self.old) (Erase at size)).operation) }
        ensures pace { pace_in self.new ≡ paced (pace_in self.old) result }
        ensures cuts { self.new.cuts ≡ self.old.cuts }
        ensures slows { self.new.slows ≡ self.old.slows }
    {
        let from = wrapped(at, self.size) / size * size;
        if !self.enabled {
            return false;
        }
        if self.is_protected(from, size) {
            self.enabled = false;
            return false;
        }
        self.begin(Operation::Erasing(from, size));
        true
    }

    /// What a frame does to an idle chip, and whether it starts an operation.
    fn obey(&mut self, frame: &Instruction) -> bool
        requires idle { is_idle (operation_in self.old) ≡ true }
        requires some { HasBytes frame.now }
        ensures chip { chip_in self.new ≡ after_command (chip_in self.old) (instructed frame.now) }
        ensures accepted { result ≡ not
            (is_idle (after_command (chip_in self.old) (instructed frame.now)).operation) }
        ensures pace { pace_in self.new ≡ paced (pace_in self.old) result }
        ensures cuts { self.new.cuts ≡ self.old.cuts }
        ensures slows { self.new.slows ≡ self.old.slows }
    {
        match frame {
            Instruction::Enable => {
                self.enabled = true;
                false
            }
            Instruction::Disable => {
                self.enabled = false;
                false
            }
            Instruction::Set(value) => {
                if !self.enabled {
                    return false;
                }
                self.begin(Operation::Setting(*value));
                true
            }
            Instruction::Program(at, bytes) => self.obey_program(*at, bytes),
            Instruction::EraseSmall(at) => self.obey_erase(*at, 4096),
            Instruction::EraseLarge(at) => self.obey_erase(*at, 65536),
            _ => false,
        }
    }

    /// A status read of an operation in progress.
    fn poll(&mut self, recv: &mut [u8])
        requires running { is_idle (operation_in self.old) ≡ false }
        ensures done { Polls (chip_in self.old) recv.new (chip_in self.new) }
        ensures exact { self.old.slows + 1 < 2 ^ 64
            → chip_in self.new ≡ polled self.old.stuck (chip_in self.old) }
        ensures prompt { self.old.stuck ≡ false
            → chip_in self.new ≡ polled false (chip_in self.old) }
        ensures latched { self.new.latched ≡ self.old.latched }
        ensures pace { pace_in self.new ≡ pace_in self.old }
        ensures cuts { self.new.cuts ≡ self.old.cuts }
        ensures slows { self.new.slows
            ≡ self.old.slows + newly_slow (chip_in self.old) (chip_in self.new) }
        ensures quick { self.old.stuck ≡ false → self.new.slows ≡ self.old.slows }
    {
        let last = self.polls == 65_534 && self.slows == u64::MAX;
        if self.polls > 0 && (!self.stuck || last) {
            self.complete();
            let status = self.status();
            fill_with(recv, status);
            return;
        }
        let status = self.status();
        fill_with(recv, status);
        if self.polls < 65_535 {
            self.polls += 1;
            if self.polls == 65_535 {
                self.slows += 1;
            }
        }
    }

    /// The whole effect of a frame, and whether it starts an operation.
    pub(crate) fn take(&mut self, send: &[u8], recv: &mut [u8]) -> bool
        ensures frame { Frame (chip_in self.old) send.now recv.new (chip_in self.new) }
        ensures exact { self.old.slows + 1 < 2 ^ 64
            → chip_in self.new ≡ after_frame self.old.stuck (chip_in self.old) send.now }
        ensures prompt { self.old.stuck ≡ false
            → chip_in self.new ≡ after_frame false (chip_in self.old) send.now }
        ensures accepted { result ≡ is_accepted (chip_in self.old) send.now }
        ensures latched { is_idle (operation_in self.old) ≡ false
            → self.new.latched ≡ self.old.latched }
        ensures pace { pace_in self.new ≡ paced (pace_in self.old) result }
        ensures cuts { self.new.cuts ≡ self.old.cuts }
        ensures slows { self.new.slows
            ≡ self.old.slows + newly_slow (chip_in self.old) (chip_in self.new) }
        ensures quick { self.old.stuck ≡ false → self.new.slows ≡ self.old.slows }
    {
        let frame = decode(send);
        if self.is_idle() {
            self.answer(&frame, recv);
            return self.obey(&frame);
        }
        match frame {
            Instruction::Status1 => self.poll(recv),
            Instruction::Status2 | Instruction::Status3 => fill_with(recv, 0),
            _ => fill_with(recv, 0xFF),
        }
        false
    }
}
