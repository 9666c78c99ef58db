//! The protection of a chip, and its end.

ghost use Rattle.std.specs.Prelude.{◌≡◌, not, true, length, OnOk, OnErr, IfOk};
ghost use Rattle.chip_model.specs.Chip.{is_idle};
ghost use Rattle.chip_model.specs.Cut.{TornMemory};
ghost use Rattle.chip_model.specs.Frames.{is_unprotected};
ghost use Rattle.nor_driver.specs.Probe.{status_of};
ghost use Rattle.nor_driver.specs.Steps.{Lost};
ghost use Rattle.nor_driver.specs.Unprotect.{Unprotects};

use crate::ProbeError;
use crate::driver::{ask, change, wake};
use chip_model::{PowerLost, SpiBus};
use spi_frames::{Register, Status1, Status2, Status3, status, write_status};

/// A status register of an idle chip.
fn read_status<B: SpiBus>(bus: &mut B, register: Register) -> Result<u8, PowerLost>
    requires { is_idle (B.chip bus.old).operation ≡ true }
    ensures value { IfOk result (λ b. b ≡ status_of (B.chip bus.old) register) }
    ensures chip { OnOk result (B.chip bus.new ≡ B.chip bus.old) }
    ensures powered { OnOk result ((B.chip bus.old).powered ≡ true) }
    ensures cuts { OnOk result (B.cuts bus.new ≡ B.cuts bus.old) }
    ensures slows { B.slows bus.new ≡ B.slows bus.old }
    ensures lost { OnErr result (Lost (B.chip bus.old) (B.cuts bus.old) (B.chip bus.new)
        (B.cuts bus.new)) }
{
    let mut answer = [0u8; 1];
    ask(bus, &status(register), &mut answer)?;
    Ok(answer[0])
}

/// Whether BP, SEC, CMP or WPS of an idle chip isn't 0.
pub(crate) fn is_protected<B: SpiBus>(bus: &mut B) -> Result<bool, PowerLost>
    requires { is_idle (B.chip bus.old).operation ≡ true }
    ensures value { IfOk result (λ b. b ≡ not (is_unprotected (B.chip bus.old))) }
    ensures chip { OnOk result (B.chip bus.new ≡ B.chip bus.old) }
    ensures powered { OnOk result ((B.chip bus.old).powered ≡ true) }
    ensures cuts { OnOk result (B.cuts bus.new ≡ B.cuts bus.old) }
    ensures slows { B.slows bus.new ≡ B.slows bus.old }
    ensures lost { OnErr result (Lost (B.chip bus.old) (B.cuts bus.old) (B.chip bus.new)
        (B.cuts bus.new)) }
{
    let first = read_status(bus, Register::First)?;
    let second = read_status(bus, Register::Second)?;
    let third = read_status(bus, Register::Third)?;
    Ok(
        Status1::has_blocks(first)
            || Status1::has_sectors(first)
            || Status2::has_complement(second)
            || Status3::has_unit_locks(third),
    )
}

/// Turns the power off and on again and writes 0 to status register 1, so that BP, TB and SEC are
/// 0.
///
/// On Ok nothing is protected. Answers `Protected` where CMP or WPS stays set, `Cut` where the
/// power went in this call or couldn't be turned on, and `Slow` where the write didn't end; no
/// other refusal. The memory is as before, but where an operation was in progress.
pub fn unprotect<B: SpiBus>(bus: &mut B) -> Result<(), ProbeError>
    ensures unprotects { Unprotects result (B.chip bus.old) (B.cuts bus.old) (B.slows bus.old)
        (B.chip bus.new) (B.cuts bus.new) (B.slows bus.new) }
    ensures leaves { TornMemory (B.chip bus.old).operation (B.chip bus.old).memory
        (B.chip bus.new).memory }
    ensures same { is_idle (B.chip bus.old).operation ≡ true
        → (B.chip bus.new).memory ≡ (B.chip bus.old).memory }
    ensures size { length (B.chip bus.new).memory ≡ length (B.chip bus.old).memory }
{
    let mut answer = [0u8; 1];
    wake(bus, &status(Register::First), &mut answer)?;
    change(bus, &write_status(0))?;
    if is_protected(bus)? {
        return Err(ProbeError::Protected);
    }
    Ok(())
}
