//! A bus to a chip in memory that keeps what goes over it.

ghost use Rattle.std.specs.Prelude.{◌≡◌, ◌+◌, ◌*◌, ◌-◌, ◌<◌, ◌≤◌, ◌++◌, ℕ, [], length, take, drop};
ghost use Rattle.std.specs.Prelude.{get_or, min};
ghost use Rattle.chip_model.specs.Memory.{byte};
ghost use Rattle.page.specs.Tape.{arming, bus_of, row_put, Run, row_shown};

use chip_model::{PowerLost, SpiBus};
use chip_simulator::PromptChip;
use std::alloc::{AllocError, Global};

/// The bytes of a tape: 65,536 rows of eight.
pub const TAPE_LEN: usize = 524_288;

/// The kind of an arming that arms nothing, and only stands on the tape: a step begins.
pub const MARK: u8 = 255;

/// A bus to a chip in memory that notes each frame, as far as there is room.
///
/// `specs/Tape.antt` says what a row holds.
#[derive(Drop)]
pub struct Taped {
    chip: PromptChip,
    rows: Vec<u8>,
    count: u32,
    ghost room: { length rows.items ≡ 524288 },
    ghost run: { 8 * count ≤ 524288 → ∥ Run rows.items count (bus_of chip) ∥₁ },
}

/// A byte, or 0 behind the end.
fn byte_or_zero(bytes: &[u8], at: usize) -> u8
    ensures { result ≡ byte bytes.now at }
{
    if at < bytes.len() { bytes[at] } else { 0 }
}

/// The last byte, or 0 where there is none.
fn last_or_zero(bytes: &[u8]) -> u8
    ensures { result ≡ byte bytes.now (length bytes.now - 1) }
{
    if bytes.is_empty() {
        0
    } else {
        bytes[bytes.len() - 1]
    }
}

/// A length, or 255 where it is longer.
fn short(len: usize) -> u8
    ensures { result ≡ min len 255 }
{
    if len < 255 { len as u8 } else { 255 }
}

/// The row of a frame.
fn row_of(send: &[u8], recv: &[u8], lost: u8) -> [u8; 8]
    ensures { result ≡ row_shown send.now recv.now lost }
{
    [
        byte_or_zero(send, 0),
        byte_or_zero(send, 1),
        byte_or_zero(send, 2),
        byte_or_zero(send, 3),
        short(send.len()),
        short(recv.len()),
        last_or_zero(recv),
        lost,
    ]
}

/// The next number of a row, but for the last one.
fn next(number: u32) -> u32
    ensures { 8 * result ≤ 524288 → result ≡ number + 1 }
{
    if number < u32::MAX {
        number + 1
    } else {
        number
    }
}

/// Puts a row into its place, as far as there is room.
fn put_row(rows: &mut Vec<u8>, number: u32, row: &[u8; 8])
    ensures size { length rows.new.items ≡ length rows.old.items }
    ensures put { 8 * number + 8 ≤ length rows.old.items
        → rows.new.items ≡ row_put rows.old.items number row.now }
{
    let from = 8 * number as usize;
    if from + 8 <= rows.len() {
        rows[from..from + 8].copy_from_slice(row);
    }
}

impl Taped {
    ghost use Rattle.std.specs.Prelude.{◌≡◌, IfSome, replicate};
    ghost use Rattle.chip_simulator.specs.Sim.{chip_of, cuts_of, fresh_chip};

    /// A bus to an erased chip of 64 KiB, or None where there is no memory for it.
    pub fn new(alloc: Global) -> Option<Taped>
        ensures { IfSome result (λ t. chip_of t.chip ≡ fresh_chip (replicate 65536 255)) }
    {
        let Ok(erased) = vec![in alloc; 0xFFu8; 65_536] else {
            return None;
        };
        let Ok(rows) = vec![in alloc; 0u8; TAPE_LEN] else {
            return None;
        };
        match PromptChip::new(erased) {
            Ok(chip) => Some(Taped {
                chip,
                rows,
                count: 0,
            }),
            Err(_) => None,
        }
    }

    /// How many rows were noted.
    pub fn count(&self) -> u32
        ensures { result ≡ self.now.count }
    {
        self.count
    }

    /// The rows.
    pub fn rows(&self) -> &[u8]
        ensures { result.now ≡ self.now.rows.items }
    {
        &self.rows
    }

    /// The chip's memory.
    pub fn memory(&self) -> &[u8]
        ensures { result.now ≡ (chip_of self.now.chip).memory }
    {
        self.chip.bytes()
    }
}

impl SpiBus for Taped {
    ghost use Rattle.chip_simulator.specs.Sim.{chip_of, cuts_of};
    ghost use Rattle.chip_simulator.specs.Lawful.{lawful_chip};

    ghost chip = { λ t. chip_of t.chip };

    ghost cuts = { λ t. cuts_of t.chip };

    ghost slows = { λ t. 0 };

    ghost lawful = { λ t. lawful_chip t.chip };

    fn transact(&mut self, send: &[u8], recv: &mut [u8]) -> Result<(), PowerLost> {
        match self.chip.transact(send, recv) {
            Ok(()) => {
                let row = row_of(send, recv, 0);
                put_row(&mut self.rows, self.count, &row);
                self.count = next(self.count);
                Ok(())
            }
            Err(PowerLost) => {
                let row = row_of(send, &[], 1);
                put_row(&mut self.rows, self.count, &row);
                self.count = next(self.count);
                Err(PowerLost)
            }
        }
    }

    fn power_on(&mut self) {
        self.chip.power_on();
        put_row(&mut self.rows, self.count, &[254, 0, 0, 0, 0, 0, 0, 0]);
        self.count = next(self.count);
    }

    fn arm(&mut self, count: u32, kind: u8, mask: u8) {
        if kind != MARK {
            self.chip.arm(count, kind, mask);
        }
        let row = [0, kind, mask, short(count as usize), 0, 0, 0, 0];
        put_row(&mut self.rows, self.count, &row);
        self.count = next(self.count);
    }
}
