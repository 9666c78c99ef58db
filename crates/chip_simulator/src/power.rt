//! A loss of power.

ghost use Rattle.std.specs.Prelude.{◌≡◌, ◌<◌, false};
ghost use Rattle.chip_model.specs.Memory.{IsMixed};
ghost use Rattle.chip_simulator.specs.Mask.{by_mask};

use crate::frame::{Cells, Operation, fill_unit, tear_page};
use crate::weak::weaken;

impl Cells {
    ghost use Rattle.chip_model.specs.Cut.{Cut};
    ghost use Rattle.chip_simulator.specs.Mask.{torn_by};
    ghost use Rattle.chip_simulator.specs.Sim.{chip_in};

    /// The power goes; of an operation in progress the mask says what remains, and its bits are
    /// weak.
    pub(crate) fn turn_off(&mut self, mask: u8)
        ensures cut { Cut (chip_in self.old) (chip_in self.new) }
        ensures exact { chip_in self.new ≡ torn_by mask (chip_in self.old) }
        ensures next { self.new.slow_next ≡ self.old.slow_next }
        ensures stuck { self.new.stuck ≡ false }
        ensures cuts { self.new.cuts ≡ self.old.cuts }
        ensures slows { self.new.slows ≡ self.old.slows }
    {
        weaken(&mut self.weak, &self.memory, self.operation, &self.latched);
        match self.operation {
            Operation::Idle => {}
            Operation::Programming(at, count) => {
                tear_page(&mut self.memory, at, self.latched.first(count), mask)
            }
            Operation::Erasing(at, size) => fill_unit(&mut self.memory, at, size, mask),
            Operation::Setting(value) => {
                self.protection = mixed(self.protection, value / 4, mask / 4)
            }
        }
        self.enabled = false;
        self.operation = Operation::Idle;
        self.polls = 0;
        self.stuck = false;
        self.powered = false;
    }
}

/// Bits of the new number where the mask has 1, of the old one elsewhere.
fn mixed(old: u8, new: u8, mask: u8) -> u8
    requires old { old < 64 }
    requires new { new < 64 }
    ensures exact { result ≡ by_mask mask old new }
    ensures mixed { IsMixed old new result }
    ensures small { result < 64 }
{
    (old & (0xFF - mask)) | (new & mask)
}
