//! A simulator whose operations all end.

ghost use Rattle.std.specs.Prelude.{◌^◌, ◌↔◌, ◌≡◌, ◌+◌, ◌<◌, IfOk, IsErr, IsOk, OnErr, OnOk, false};
ghost use Rattle.std.specs.Prelude.{length, true};
ghost use Rattle.chip_model.specs.Geometry.{IsChipSize};
ghost use Rattle.chip_simulator.specs.Mask.{torn_by};
ghost use Rattle.chip_simulator.specs.Plan.{one_frame_less, strikes};
ghost use Rattle.chip_simulator.specs.Simulated.{after_frame, is_accepted};

use crate::error::SimError;
use crate::sim_chip::SimChip;
use chip_model::{PowerLost, SpiBus};
use std::marker::Model;

/// A `SimChip` on which no operation is ever slow: it has no `arm_slow`, so its count of slow
/// operations is 0 for good.
///
/// What is proved of a bus where that count doesn't rise therefore holds of this one without a
/// premise.
#[derive(Drop)]
pub struct PromptChip {
    chip: SimChip,
}

impl Model for PromptChip {
    ghost use Rattle.std.specs.Prelude.{◌≡◌, false};
    ghost use Rattle.chip_simulator.specs.declared.sim_chip.SimChip.{SimChip};
    ghost use Rattle.chip_simulator.specs.Sim.{pace_of, slows_of};

    ghost Value = { SimChip };

    ghost view = { λ s. s.chip };

    ghost invariant = { λ s. (pace_of s.chip ≡ record { next = false; stuck = false })
        × (slows_of s.chip ≡ 0) };
}

impl PromptChip {
    ghost use Rattle.chip_simulator.specs.Sim.{armed_of, chip_of, cuts_of, fresh_chip};

    /// A chip with this memory: the power is on, status register 1 is 0, nothing is armed.
    /// `BadSize` exactly where no chip has so many bytes.
    pub fn new(bytes: Vec<u8>) -> Result<PromptChip, SimError>
        ensures fits { IsOk result ↔ IsChipSize (length bytes.items) }
        ensures refused { OnErr result (result ≡ Err SimError.BadSize) }
        ensures chip { IfOk result (λ s. chip_of s ≡ fresh_chip bytes.items) }
        ensures unarmed { IfOk result (λ s. (armed_of s).armed ≡ 0) }
        ensures cuts { IfOk result (λ s. cuts_of s ≡ 0) }
    {
        let chip = SimChip::new(bytes)?;
        Ok(PromptChip { chip })
    }

    /// The chip's memory, to be looked at.
    pub fn bytes(&self) -> &[u8]
        ensures { result.now ≡ (chip_of self.now).memory }
    {
        self.chip.bytes()
    }

    /// The chip's memory.
    pub fn into_inner(self) -> Vec<u8>
        ensures { result.items ≡ (chip_of self).memory }
    {
        self.chip.into_inner()
    }
}

impl SpiBus for PromptChip {
    ghost use Rattle.chip_model.specs.Cut.{Loses, PowersOn, with_power};
    ghost use Rattle.chip_model.specs.Frames.{Frame, newly_slow};
    ghost use Rattle.chip_simulator.specs.Sim.{armed_of, chip_of, cuts_of};
    ghost use Rattle.chip_simulator.specs.Lawful.{lawful_chip};

    ghost chip = { chip_of };

    ghost cuts = { cuts_of };

    ghost slows = { λ s. 0 };

    ghost lawful = { λ s. lawful_chip s };

    fn transact(&mut self, send: &[u8], recv: &mut [u8]) -> Result<(), PowerLost>
        ensures powered { OnOk result ((chip_of self.old).powered ≡ true) }
        ensures frame { OnOk result (Frame (chip_of self.old) send.now recv.new
            (chip_of self.new)) }
        ensures cuts_ok { OnOk result (cuts_of self.new ≡ cuts_of self.old) }
        ensures slows_ok { OnOk result (newly_slow (chip_of self.old) (chip_of self.new) ≡ 0) }
        ensures lost { OnErr result (Loses (chip_of self.old) (cuts_of self.old) send.now
            (chip_of self.new) (cuts_of self.new)) }

        // The power is lost in the armed frame, and nowhere else.
        ensures spared { (chip_of self.old).powered ≡ true
            → strikes (armed_of self.old) (is_accepted (chip_of self.old) send.now) ≡ false
            → IsOk result }
        ensures struck { (chip_of self.old).powered ≡ true
            → strikes (armed_of self.old) (is_accepted (chip_of self.old) send.now) ≡ true
            → cuts_of self.old + 1 < 2 ^ 64 → IsErr result }
        ensures one_frame_less { (chip_of self.old).powered ≡ true
            → armed_of self.new ≡ one_frame_less (armed_of self.old)
            (is_accepted (chip_of self.old) send.now) }

        // What it then leaves, and what every other frame does.
        ensures whole { OnOk result
            (chip_of self.new ≡ after_frame false (chip_of self.old) send.now) }
        ensures torn { OnErr result ((chip_of self.old).powered ≡ true
            → chip_of self.new ≡ torn_by (armed_of self.old).mask
            (after_frame false (chip_of self.old) send.now)) }

        // With the power off nothing happens.
        ensures off { (chip_of self.old).powered ≡ false
            → IsErr result × (armed_of self.new ≡ armed_of self.old) }
    {
        self.chip.transact(send, recv)
    }

    fn power_on(&mut self)
        ensures powers_on { PowersOn (chip_of self.old) (cuts_of self.old) (chip_of self.new)
            (cuts_of self.new) }
        ensures exact { chip_of self.new ≡ with_power (torn_by 0 (chip_of self.old)) }
        ensures cuts { cuts_of self.new ≡ cuts_of self.old }
        ensures armed { armed_of self.new ≡ armed_of self.old }
    {
        self.chip.power_on();
    }

    fn arm(&mut self, count: u32, kind: u8, mask: u8)
        ensures chip { chip_of self.new ≡ chip_of self.old }
        ensures cuts { cuts_of self.new ≡ cuts_of self.old }
        ensures armed { armed_of self.new ≡ record { armed = count; kind = kind; mask = mask } }
    {
        self.chip.arm(count, kind, mask);
    }
}
