//! Frames to the simulator.

ghost use Rattle.std.specs.Prelude.{◌≡◌, false, true};
ghost use Rattle.chip_model.specs.Chip.{Setting, completed, is_idle};
ghost use Rattle.chip_model.specs.Frames.{Frame, starts, status_1, with_enabled};
ghost use Rattle.chip_simulator.specs.Sim.{chip_of};
ghost use Rattle.chip_simulator.specs.Simulated.{after_frame};
ghost use Rattle.chip_watch.specs.Shadow.{IsCalm, looked_at};

use chip_model::SpiBus;
use chip_simulator::SimChip;

/// A frame, which is always answered.
pub fn exchange(chip: &mut SimChip, send: &[u8], recv: &mut [u8])
    requires calm { IsCalm chip.old }
    ensures calm { IsCalm chip.new }
    ensures frame { Frame (chip_of chip.old) send.now recv.new (chip_of chip.new) }
    ensures exact { chip_of chip.new ≡ after_frame false (chip_of chip.old) send.now }
{
    match chip.transact(send, recv) {
        Ok(()) => {}
        Err(_) => unreachable!(),
    }
}

/// Status register 1, read for the first time since an operation started, if one is in progress.
pub fn look(chip: &mut SimChip) -> u8
    requires calm { IsCalm chip.old }
    requires fresh { is_idle (chip_of chip.old).operation ≡ false → (chip_of chip.old).polls ≡ 0 }
    ensures calm { IsCalm chip.new }
    ensures status { result ≡ status_1 (chip_of chip.old) }
    ensures chip { chip_of chip.new ≡ looked_at (chip_of chip.old) }
{
    let mut status = [0u8; 1];
    exchange(chip, &[0x05], &mut status);
    status[0]
}

/// The operation in progress completes.
pub fn end(chip: &mut SimChip)
    requires calm { IsCalm chip.old }
    requires running { is_idle (chip_of chip.old).operation ≡ false }
    requires asked { (chip_of chip.old).polls ≡ 1 }
    ensures calm { IsCalm chip.new }
    ensures chip { chip_of chip.new ≡ completed (chip_of chip.old) }
{
    let mut status = [0u8; 1];
    exchange(chip, &[0x05], &mut status);
}

/// Bits 2 to 7 of status register 1 become those of a byte.
pub fn set_protection(chip: &mut SimChip, value: u8)
    requires calm { IsCalm chip.old }
    requires idle { is_idle (chip_of chip.old).operation ≡ true }
    ensures calm { IsCalm chip.new }
    ensures chip { chip_of chip.new
        ≡ completed (starts (with_enabled (chip_of chip.old) true) (Setting value)) }
{
    exchange(chip, &[0x06], &mut []);
    exchange(chip, &[0x01, value], &mut []);
    let _status = look(chip);
    end(chip);
}
