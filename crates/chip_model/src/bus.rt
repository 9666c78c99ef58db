//! The bus of a chip: one frame, and power.

ghost use Rattle.std.specs.Prelude.{◌≡◌, ◌+◌, ℕ, true, OnOk, OnErr};
ghost use Rattle.chip_model.specs.Chip.{Chip, IsChip};
ghost use Rattle.chip_model.specs.Cut.{Loses, PowersOn};
ghost use Rattle.chip_model.specs.Frames.{Frame, newly_slow};

use thiserror::Error;

/// The power fell during the frame, or is off.
#[derive(Clone, Copy, Debug, PartialEq, Eq, Error)]
#[error("power was lost during the frame, or was off")]
pub struct PowerLost;

/// A serial bus with one chip behind it.
pub trait SpiBus {
    /// The chip behind the bus.
    ghost chip: { Self → Chip };

    /// How often the power fell inside a frame or couldn't be turned on.
    ghost cuts: { Self → ℕ };

    /// How many operations answered BUSY 1 to 65,535 status reads.
    ghost slows: { Self → ℕ };

    /// One frame: sends all bytes of `send`, then fills `recv` with what the chip answers.
    ///
    /// On Ok the chip took the frame. On `PowerLost` the power fell inside it, which counts as a
    /// cut, or was off already, and then nothing changed; the power is off, every further frame
    /// answers `PowerLost` until `power_on`, and nothing is said of `recv`.
    fn transact(&mut self, send: &[u8], recv: &mut [u8]) -> Result<(), PowerLost>
        ensures powered { OnOk result ((chip self.old).powered ≡ true) }
        ensures frame { OnOk result (Frame (chip self.old) send.now recv.new (chip self.new)) }
        ensures cuts_ok { OnOk result (cuts self.new ≡ cuts self.old) }
        ensures slows_ok { OnOk result
            (slows self.new ≡ slows self.old + newly_slow (chip self.old) (chip self.new)) }
        ensures lost { OnErr result (Loses (chip self.old) (cuts self.old) send.now (chip self.new)
            (cuts self.new)) }
        ensures slows_err { OnErr result (slows self.new ≡ slows self.old) };

    /// Turns the power off where it was on, which isn't counted as a cut, and on again. Where it
    /// can't be turned on, that counts as a cut and the power stays off.
    fn power_on(&mut self)
        ensures powers_on { PowersOn (chip self.old) (cuts self.old) (chip self.new)
            (cuts self.new) }
        ensures slows { slows self.new ≡ slows self.old };

    /// Arms a cut of the `count`-th frame from now on, where the bus is a simulator that heeds it;
    /// `kind` and `mask` are the simulator's. No fact of the bus changes.
    fn arm(&mut self, count: u32, kind: u8, mask: u8)
        ensures chip { chip self.new ≡ chip self.old }
        ensures cuts { cuts self.new ≡ cuts self.old }
        ensures slows { slows self.new ≡ slows self.old };

    /// The SFDP bytes are 256, and are no table or that of a chip of the memory's size.
    ghost lawful: { (bus : Self) → IsChip (chip bus) };
}
