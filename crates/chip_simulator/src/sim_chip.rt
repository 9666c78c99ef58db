//! The simulator.

ghost use Rattle.std.specs.Prelude.{◌^◌, ◌↔◌, ◌≡◌, ◌+◌, ◌<◌, IfOk, IsErr, IsOk, OnErr, OnOk, false};
ghost use Rattle.std.specs.Prelude.{◌==◌, ◌||◌, [], length, slice_set, true};
ghost use Rattle.chip_model.specs.Geometry.{IsChipSize};
ghost use Rattle.chip_simulator.specs.Mask.{torn_by};
ghost use Rattle.chip_simulator.specs.Plan.{one_frame_less, strikes};
ghost use Rattle.chip_simulator.specs.Simulated.{after_frame, is_accepted, paced};

use crate::error::SimError;
use crate::frame::Cells;
use crate::plan::Plan;
use crate::weak::redraw;
use chip_model::{PowerLost, SpiBus, is_chip_size};

/// A chip in memory that loses its power inside the frame that it was armed for, and nowhere else.
///
/// Its status registers 2 and 3 are 0. An operation shows BUSY in one status read, but where
/// `arm_slow` was called before it stays busy until the power goes.
#[derive(Drop)]
pub struct SimChip {
    cells: Cells,
    plan: Plan,
}

impl SimChip {
    ghost use Rattle.chip_simulator.specs.Sim.{armed_of, chip_of, cuts_of, fresh_chip, pace_of};
    ghost use Rattle.chip_model.specs.Cut.{with_power};
    ghost use Rattle.chip_model.specs.Wavering.{Drawn};
    ghost use Rattle.chip_simulator.specs.Sim.{slows_of, with_memory, with_sfdp, with_weak};
    ghost use Rattle.chip_simulator.specs.Weak.{drawn_by};

    /// A chip with this memory: the power is on, status register 1 is 0, nothing is armed.
    /// `BadSize` exactly where no chip has so many bytes.
    pub fn new(bytes: Vec<u8>) -> Result<SimChip, SimError>
        ensures fits { IsOk result ↔ IsChipSize (length bytes.items) }
        ensures refused { OnErr result (result ≡ Err SimError.BadSize) }
        ensures chip { IfOk result (λ s. chip_of s ≡ fresh_chip bytes.items) }
        ensures unarmed { IfOk result (λ s. (armed_of s).armed ≡ 0) }
        ensures prompt { IfOk result (λ s. pace_of s ≡ record { next = false; stuck = false }) }
        ensures cuts { IfOk result (λ s. cuts_of s ≡ 0) }
        ensures slows { IfOk result (λ s. slows_of s ≡ 0) }
    {
        let none = Vec::new(*bytes.allocator());
        SimChip::begun(bytes, none)
    }

    /// The same, whose bits waver: `weak` has 1 for each bit of the memory that is weak, and as
    /// many bytes. `BadSize` exactly where no chip has so many, or these are fewer or more.
    pub fn wavering(bytes: Vec<u8>, weak: Vec<u8>) -> Result<SimChip, SimError>
        ensures fits { IsOk result
            ↔ IsChipSize (length bytes.items) × (length weak.items ≡ length bytes.items) }
        ensures refused { OnErr result (result ≡ Err SimError.BadSize) }
        ensures chip { IfOk result (λ s.
            chip_of s ≡ with_weak (fresh_chip bytes.items) weak.items) }
        ensures unarmed { IfOk result (λ s. (armed_of s).armed ≡ 0) }
        ensures prompt { IfOk result (λ s. pace_of s ≡ record { next = false; stuck = false }) }
        ensures cuts { IfOk result (λ s. cuts_of s ≡ 0) }
        ensures slows { IfOk result (λ s. slows_of s ≡ 0) }
    {
        if weak.len() != bytes.len() {
            return Err(SimError::BadSize);
        }
        SimChip::begun(bytes, weak)
    }

    /// A chip with this memory and these weak bits.
    fn begun(bytes: Vec<u8>, weak: Vec<u8>) -> Result<SimChip, SimError>
        requires wavers { ((length weak.items == 0) || (length weak.items == length bytes.items))
            ≡ true }
        ensures fits { IsOk result ↔ IsChipSize (length bytes.items) }
        ensures refused { OnErr result (result ≡ Err SimError.BadSize) }
        ensures chip { IfOk result (λ s.
            chip_of s ≡ with_weak (fresh_chip bytes.items) weak.items) }
        ensures unarmed { IfOk result (λ s. (armed_of s).armed ≡ 0) }
        ensures prompt { IfOk result (λ s. pace_of s ≡ record { next = false; stuck = false }) }
        ensures cuts { IfOk result (λ s. cuts_of s ≡ 0) }
        ensures slows { IfOk result (λ s. slows_of s ≡ 0) }
    {
        if !is_chip_size(bytes.len() as u64) {
            return Err(SimError::BadSize);
        }
        Ok(SimChip {
            cells: Cells::new(bytes, weak),
            plan: Plan {
                armed: 0,
                kind: 0,
                mask: 0,
            },
        })
    }

    /// The chip's memory.
    pub fn bytes(&self) -> &[u8]
        ensures { result.now ≡ (chip_of self.now).memory }
    {
        &self.cells.memory
    }

    /// 1 for each bit of the memory that is weak; no byte where the chip is steady.
    pub fn weak(&self) -> &[u8]
        ensures { result.now ≡ (chip_of self.now).weak }
    {
        &self.cells.weak
    }

    /// The chip's memory.
    pub fn into_inner(self) -> Vec<u8>
        ensures { result.items ≡ (chip_of self).memory }
    {
        let Cells { memory, .. } = self.cells;
        memory
    }

    /// Byte 0 of the SFDP table becomes 52h, so that the table has no signature.
    pub fn spoil_sfdp(&mut self)
        ensures chip { chip_of self.new
            ≡ with_sfdp (chip_of self.old) (slice_set (chip_of self.old).sfdp 0 82) }
        ensures armed { armed_of self.new ≡ armed_of self.old }
        ensures pace { pace_of self.new ≡ pace_of self.old }
        ensures cuts { cuts_of self.new ≡ cuts_of self.old }
        ensures slows { slows_of self.new ≡ slows_of self.old }
    {
        self.cells.spoiled = true;
    }

    /// The `count`-th frame from now on loses the power: 1 is the next one, 0 disarms. Kind 0
    /// counts every frame, any other kind accepted programs, erases and status writes alone. The
    /// frame has its whole effect first; then of an operation in progress each bit of the page, and
    /// of bits 2 to 7 of a status write, is new where `mask` has 1 and old where it has 0, and an
    /// erase's unit is filled with `mask`.
    pub fn arm_cut(&mut self, count: u32, kind: u8, mask: u8)
        ensures armed { armed_of self.new ≡ record { armed = count; kind = kind; mask = mask } }
        ensures chip { chip_of self.new ≡ chip_of self.old }
        ensures pace { pace_of self.new ≡ pace_of self.old }
        ensures cuts { cuts_of self.new ≡ cuts_of self.old }
        ensures slows { slows_of self.new ≡ slows_of self.old }
    {
        self.plan = Plan {
            armed: count,
            kind,
            mask,
        };
    }

    /// The next accepted operation stays busy until the power goes.
    pub fn arm_slow(&mut self)
        ensures next { (pace_of self.new).next ≡ true }
        ensures stuck { (pace_of self.new).stuck ≡ (pace_of self.old).stuck }
        ensures chip { chip_of self.new ≡ chip_of self.old }
        ensures armed { armed_of self.new ≡ armed_of self.old }
        ensures cuts { cuts_of self.new ≡ cuts_of self.old }
        ensures slows { slows_of self.new ≡ slows_of self.old }
    {
        self.cells.slow_next = true;
    }

    /// The power goes, which isn't counted as a cut, and comes again: as by `power_on`, and then
    /// each weak bit reads as that of `draw`, whose bytes count for the memory's from the first on,
    /// again and again. So this is no call of a `SpiBus`, whose memory is steady.
    pub fn power_cycle(&mut self, draw: &[u8])
        requires { 0 < length draw.now }
        ensures drawn { Drawn (torn_by 0 (chip_of self.old)).weak
            (torn_by 0 (chip_of self.old)).memory (chip_of self.new).memory }
        ensures exact { chip_of self.new ≡ with_memory (with_power (torn_by 0 (chip_of self.old)))
            (drawn_by draw.now (torn_by 0 (chip_of self.old)).weak
            (torn_by 0 (chip_of self.old)).memory) }
        ensures cuts { cuts_of self.new ≡ cuts_of self.old }
        ensures slows { slows_of self.new ≡ slows_of self.old }
        ensures armed { armed_of self.new ≡ armed_of self.old }
        ensures next { (pace_of self.new).next ≡ (pace_of self.old).next }
        ensures stuck { (pace_of self.new).stuck ≡ false }
    {
        self.cells.turn_off(0);
        redraw(&mut self.cells.memory, &self.cells.weak, draw);
        self.cells.powered = true;
    }
}

impl SpiBus for SimChip {
    ghost use Rattle.chip_model.specs.Cut.{Loses, PowersOn, with_power};
    ghost use Rattle.chip_model.specs.Frames.{Frame, newly_slow};
    ghost use Rattle.chip_simulator.specs.Sim.{armed_of, chip_of, cuts_of, pace_of, slows_of};
    ghost use Rattle.chip_simulator.specs.Lawful.{lawful_chip};

    ghost chip = { chip_of };

    ghost cuts = { cuts_of };

    ghost slows = { slows_of };

    ghost lawful = { λ s. lawful_chip s };

    fn transact(&mut self, send: &[u8], recv: &mut [u8]) -> Result<(), PowerLost>
        ensures powered { OnOk result ((chip_of self.old).powered ≡ true) }
        ensures frame { OnOk result (Frame (chip_of self.old) send.now recv.new
            (chip_of self.new)) }
        ensures cuts_ok { OnOk result (cuts_of self.new ≡ cuts_of self.old) }
        ensures slows_ok { OnOk result
            (slows_of self.new ≡ slows_of self.old
            + newly_slow (chip_of self.old) (chip_of self.new)) }
        ensures lost { OnErr result (Loses (chip_of self.old) (cuts_of self.old) send.now
            (chip_of self.new) (cuts_of self.new)) }
        ensures slows_err { OnErr result (slows_of self.new ≡ slows_of self.old) }

        // The power is lost in the armed frame, and nowhere else.
        ensures spared { (chip_of self.old).powered ≡ true
            → strikes (armed_of self.old) (is_accepted (chip_of self.old) send.now) ≡ false
            → IsOk result }
        ensures struck { (chip_of self.old).powered ≡ true
            → strikes (armed_of self.old) (is_accepted (chip_of self.old) send.now) ≡ true
            → cuts_of self.old + 1 < 2 ^ 64 → IsErr result }
        ensures one_frame_less { (chip_of self.old).powered ≡ true
            → armed_of self.new ≡ one_frame_less (armed_of self.old)
            (is_accepted (chip_of self.old) send.now) }

        // What it then leaves, and what every other frame does.
        ensures whole { OnOk result (slows_of self.old + 1 < 2 ^ 64
            → chip_of self.new ≡ after_frame (pace_of self.old).stuck (chip_of self.old) send.now) }
        ensures torn { OnErr result ((chip_of self.old).powered ≡ true
            → slows_of self.old + 1 < 2 ^ 64
            → chip_of self.new ≡ torn_by (armed_of self.old).mask
            (after_frame (pace_of self.old).stuck (chip_of self.old) send.now)) }

        // An operation is slow only where that was armed.
        ensures pace { OnOk result (pace_of self.new
            ≡ paced (pace_of self.old) (is_accepted (chip_of self.old) send.now)) }
        ensures pace_lost { OnErr result
            ((chip_of self.old).powered ≡ true
            → pace_of self.new ≡ record {
              next =
                  (paced (pace_of self.old) (is_accepted (chip_of self.old) send.now)).next;
              stuck = false;
            }) }
        ensures quick { (pace_of self.old).stuck ≡ false → slows_of self.new ≡ slows_of self.old }

        // With the power off nothing happens.
        ensures off { (chip_of self.old).powered ≡ false
            → IsErr result × (armed_of self.new ≡ armed_of self.old)
            × (pace_of self.new ≡ pace_of self.old) }
    {
        if !self.cells.powered {
            return Err(PowerLost);
        }
        let slows = self.cells.slows;
        let accepted = self.cells.take(send, recv);
        if !self.plan.strikes(accepted) {
            return Ok(());
        }
        if self.cells.cuts == u64::MAX {
            return Ok(());
        }
        self.cells.turn_off(self.plan.mask);
        self.cells.slows = slows;
        self.cells.cuts += 1;
        Err(PowerLost)
    }

    fn power_on(&mut self)
        ensures powers_on { PowersOn (chip_of self.old) (cuts_of self.old) (chip_of self.new)
            (cuts_of self.new) }
        ensures slows { slows_of self.new ≡ slows_of self.old }
        ensures exact { chip_of self.new ≡ with_power (torn_by 0 (chip_of self.old)) }
        ensures cuts { cuts_of self.new ≡ cuts_of self.old }
        ensures armed { armed_of self.new ≡ armed_of self.old }
        ensures next { (pace_of self.new).next ≡ (pace_of self.old).next }
        ensures stuck { (pace_of self.new).stuck ≡ false }
    {
        self.cells.turn_off(0);
        self.cells.powered = true;
    }

    fn arm(&mut self, count: u32, kind: u8, mask: u8)
        ensures chip { chip_of self.new ≡ chip_of self.old }
        ensures cuts { cuts_of self.new ≡ cuts_of self.old }
        ensures slows { slows_of self.new ≡ slows_of self.old }
        ensures armed { armed_of self.new ≡ record { armed = count; kind = kind; mask = mask } }
        ensures pace { pace_of self.new ≡ pace_of self.old }
    {
        self.arm_cut(count, kind, mask);
    }
}
