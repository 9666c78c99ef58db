//! A chip whose memory is kept in a file.

ghost use Rattle.std.specs.Prelude.{◌^◌, ◌≡◌, ◌+◌, ◌<◌, ◌≤◌, IsOk, None, OnErr, OnOk, false};
ghost use Rattle.std.specs.Prelude.{IfSome, length, true};
ghost use Rattle.chip_simulator.specs.Sim.{pace_in};

use crate::frame::{Cells, Operation};
use chip_model::{PowerLost, SpiBus};
use std::os::unix::fs::FileExt;

/// A chip in memory whose completed programs and erases are written to a file, on which no
/// operation is ever slow.
///
/// Before a frame is answered in which an operation completed, one positioned write has handed its
/// page or unit to the system; no other frame touches the file. A fault of the file is a loss of
/// power, after which the power can't be turned on again.
#[derive(Drop)]
pub struct ImageBus<F> {
    cells: Cells,
    file: F,
    /// Whether the file failed.
    broken: bool,
    ghost prompt: { pace_in cells ≡ record { next = false; stuck = false } },
}

impl<F: Drop> ImageBus<F> {
    ghost use Rattle.chip_model.specs.Geometry.{IsChipSize};
    ghost use Rattle.chip_simulator.specs.Image.{image_broken, image_chip, image_cuts};
    ghost use Rattle.chip_simulator.specs.Sim.{fresh_chip};

    /// The chip of these bytes, with the power on, and the file that holds them.
    pub fn over(bytes: Vec<u8>, file: F) -> ImageBus<F>
        requires size { IsChipSize (length bytes.items) }
        ensures chip { image_chip result ≡ fresh_chip bytes.items }
        ensures cuts { image_cuts result ≡ 0 }
        ensures sound { image_broken result ≡ false }
    {
        let none = Vec::new(*bytes.allocator());
        ImageBus {
            cells: Cells::new(bytes, none),
            file,
            broken: false,
        }
    }
}

impl Cells {
    ghost use Rattle.chip_simulator.specs.Sim.{operation_in};
    ghost use Rattle.chip_simulator.specs.Span.{span_of};

    /// The places that the operation in progress writes when it completes: the first of them, and
    /// how many.
    fn span(&self) -> Option<(u32, u32)>
        ensures exact { result ≡ span_of (operation_in self.now) }
        ensures within { IfSome result (λ s. s.0 + s.1 ≤ length self.now.memory.items) }
    {
        match self.operation {
            Operation::Idle => None,
            Operation::Programming(at, _) => Some((at / 256 * 256, 256)),
            Operation::Erasing(at, size) => Some((at, size)),
            Operation::Setting(_) => None,
        }
    }
}

impl<F: FileExt + Drop> ImageBus<F> {
    ghost use Rattle.chip_model.specs.Chip.{is_idle};
    ghost use Rattle.chip_simulator.specs.Sim.{operation_in};

    /// Writes the places of a completed operation to the file, where there are any, and answers
    /// whether that went well.
    fn save(&self, span: Option<(u32, u32)>) -> bool
        ensures none { span ≡ None → result ≡ true }
        ensures running { is_idle (operation_in self.now.cells) ≡ false → result ≡ true }
    {
        let Some((at, size)) = span else {
            return true;
        };
        if !self.cells.is_idle() {
            return true;
        }
        let from = at as usize;
        let Some(part) = self.cells.memory.get(from..from + size as usize) else {
            return true;
        };
        self.file.write_all_at(part, at as u64).is_ok()
    }
}

impl<F: FileExt + Drop> SpiBus for ImageBus<F> {
    ghost use Rattle.chip_model.specs.Cut.{Loses, PowersOn, with_power};
    ghost use Rattle.chip_model.specs.Frames.{Frame, newly_slow};
    ghost use Rattle.chip_simulator.specs.Image.{image_broken, image_chip, image_cuts, image_slows};
    ghost use Rattle.chip_simulator.specs.Image.{is_saved, writes_memory};
    ghost use Rattle.chip_simulator.specs.Lawful.{lawful_cells};
    ghost use Rattle.chip_simulator.specs.Mask.{torn_by};
    ghost use Rattle.chip_simulator.specs.Simulated.{after_frame};

    ghost chip = { image_chip };

    ghost cuts = { image_cuts };

    ghost slows = { image_slows };

    ghost lawful = { λ b. lawful_cells b.cells };

    fn transact(&mut self, send: &[u8], recv: &mut [u8]) -> Result<(), PowerLost>
        ensures powered { OnOk result ((image_chip self.old).powered ≡ true) }
        ensures frame { OnOk result (Frame (image_chip self.old) send.now recv.new
            (image_chip self.new)) }
        ensures cuts_ok { OnOk result (image_cuts self.new ≡ image_cuts self.old) }
        ensures slows_ok { OnOk result
            (image_slows self.new ≡ image_slows self.old
            + newly_slow (image_chip self.old) (image_chip self.new)) }
        ensures lost { OnErr result (Loses (image_chip self.old) (image_cuts self.old) send.now
            (image_chip self.new) (image_cuts self.new)) }
        ensures slows_err { OnErr result (image_slows self.new ≡ image_slows self.old) }

        // A frame is lost only where it writes to the file, or the power is off.
        ensures spared { (image_chip self.old).powered ≡ true
            → is_saved (image_chip self.old) send.now ≡ false → IsOk result }
        ensures sound { OnOk result (image_broken self.new ≡ image_broken self.old) }
        ensures broken { OnErr result ((image_chip self.old).powered ≡ true
            → image_broken self.new ≡ true) }

        // What it leaves: all of its effect, and where the file failed no power.
        ensures whole { OnOk result (image_chip self.new
            ≡ after_frame false (image_chip self.old) send.now) }
        ensures failed { OnErr result ((image_chip self.old).powered ≡ true
            → image_chip self.new ≡ torn_by 255
            (after_frame false (image_chip self.old) send.now)) }
        ensures off { OnErr result ((image_chip self.old).powered ≡ false
            → image_broken self.new ≡ image_broken self.old) }
    {
        if !self.cells.powered {
            return Err(PowerLost);
        }
        let span = self.cells.span();
        let _accepted = self.cells.take(send, recv);
        if self.save(span) {
            return Ok(());
        }
        if self.cells.cuts == u64::MAX {
            return Ok(());
        }
        self.broken = true;
        self.cells.turn_off(0xFF);
        self.cells.cuts += 1;
        Err(PowerLost)
    }

    fn power_on(&mut self)
        ensures powers_on { PowersOn (image_chip self.old) (image_cuts self.old)
            (image_chip self.new) (image_cuts self.new) }
        ensures slows { image_slows self.new ≡ image_slows self.old }

        // An operation in progress completes. Once the file has failed, here or before, the power
        // stays off, and that counts.
        ensures on { image_broken self.new ≡ false
            → (image_chip self.new ≡ with_power (torn_by 255 (image_chip self.old)))
            × (image_cuts self.new ≡ image_cuts self.old) }
        ensures off { image_broken self.new ≡ true → image_cuts self.old + 1 < 2 ^ 64
            → (image_chip self.new ≡ torn_by 255 (image_chip self.old))
            × (image_cuts self.new ≡ image_cuts self.old + 1) }
        ensures broken { image_broken self.old ≡ true → image_broken self.new ≡ true }
        ensures sound { image_broken self.old ≡ false
            → writes_memory (image_chip self.old).operation ≡ false
            → image_broken self.new ≡ false }
    {
        let span = self.cells.span();
        self.cells.turn_off(0xFF);
        if !self.save(span) {
            self.broken = true;
        }
        if self.broken && self.cells.cuts < u64::MAX {
            self.cells.cuts += 1;
            return;
        }
        self.cells.powered = true;
    }

    fn arm(&mut self, _count: u32, _kind: u8, _mask: u8)
        ensures chip { image_chip self.new ≡ image_chip self.old }
        ensures cuts { image_cuts self.new ≡ image_cuts self.old }
        ensures slows { image_slows self.new ≡ image_slows self.old }
        ensures broken { image_broken self.new ≡ image_broken self.old }
    {}
}
