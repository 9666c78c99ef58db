//! Erases of more than one unit, waited for.

ghost use Rattle.std.specs.Prelude.{◌≡◌, ◌+◌, ◌-◌, ◌*◌, ◌/◌, ◌%◌, ◌^◌, ◌<◌, ◌≤◌, ◌⊎◌, ◌==◌, ◌&&◌};
ghost use Rattle.std.specs.Prelude.{not, true, false, length, nat_lt, if◌then◌else◌};
ghost use Rattle.std.specs.Prelude.{IfOk, IfErr, IfSome, IfNone, OnOk, OnErr, is_ok};
ghost use Rattle.sfdp.specs.Params.{params_of};
ghost use Rattle.chip_model.specs.Chip.{Erasing, completed, is_idle};
ghost use Rattle.chip_model.specs.Cut.{Loses};
ghost use Rattle.chip_model.specs.Frames.{Receives, after_command, command_of};
ghost use Rattle.chip_model.specs.Frames.{is_unprotected, starts, with_enabled};
ghost use Rattle.chip_model.specs.Geometry.{IsChipSize};
ghost use Rattle.chip_model.specs.Memory.{erased};
ghost use Rattle.nor_driver.specs.Probe.{status_of};
ghost use Rattle.nor_driver.specs.Steps.{ChangeFails, Lost, WaitFails, only_reads, started};
ghost use Rattle.serprog_chip.specs.Beyond.{LeavesErase, after_erase, after_free_erase};
ghost use Rattle.serprog_chip.specs.Beyond.{takes_erases, unit_at};
ghost use Rattle.serprog_chip.specs.Erasing.{EraseStops};

use crate::answering::Trouble;
use chip_model::{PowerLost, SpiBus};
use nor_driver::NorError;
use sfdp::read_params;
use spi_frames::{
    Register, Status1, Status2, Status3, erase_small, jedec_id, sfdp, status, write_enable,
};

/// How often the status of one operation is read at most.
const MOST_STATUS_READS: u32 = 65_535;

/// The bytes that 20h erases.
const UNIT: u32 = 4_096;

/// The bytes that 52h erases.
const HALF: u32 = 32_768;

/// One frame with no answer, to an idle chip.
fn send<B: SpiBus>(bus: &mut B, frame: &[u8]) -> Result<(), PowerLost>
    requires { is_idle (B.chip bus.old).operation ≡ true }
    ensures chip { OnOk result (B.chip bus.new
        ≡ after_command (B.chip bus.old) (command_of frame.now)) }
    ensures powered { OnOk result ((B.chip bus.old).powered ≡ true) }
    ensures cuts { OnOk result (B.cuts bus.new ≡ B.cuts bus.old) }
    ensures slows { B.slows bus.new ≡ B.slows bus.old }
    ensures lost { OnErr result (Loses (B.chip bus.old) (B.cuts bus.old) frame.now (B.chip bus.new)
        (B.cuts bus.new)) }
{
    bus.transact(frame, &mut [])?;
    Ok(())
}

/// One frame that changes nothing, to an idle chip, and its answer.
fn ask<B: SpiBus>(bus: &mut B, frame: &[u8], into: &mut [u8]) -> Result<(), PowerLost>
    requires idle { is_idle (B.chip bus.old).operation ≡ true }
    requires reads { only_reads (command_of frame.now) ≡ true }
    ensures answers { OnOk result (Receives (B.chip bus.old) (command_of frame.now) into.new) }
    ensures chip { OnOk result (B.chip bus.new ≡ B.chip bus.old) }
    ensures powered { OnOk result ((B.chip bus.old).powered ≡ true) }
    ensures cuts { OnOk result (B.cuts bus.new ≡ B.cuts bus.old) }
    ensures lost { OnErr result (Lost (B.chip bus.old) (B.cuts bus.old) (B.chip bus.new)
        (B.cuts bus.new)) }
{
    bus.transact(frame, into)
}

/// Whether nothing is in progress. A busy chip answers no id.
fn is_free<B: SpiBus>(bus: &mut B) -> Result<bool, PowerLost>
    ensures value { IfOk result (λ b. b ≡ is_idle (B.chip bus.old).operation) }
    ensures chip { OnOk result (B.chip bus.new ≡ B.chip bus.old) }
    ensures cuts { OnOk result (B.cuts bus.new ≡ B.cuts bus.old) }
    ensures lost { OnErr result (Lost (B.chip bus.old) (B.cuts bus.old) (B.chip bus.new)
        (B.cuts bus.new)) }
{
    let mut answer = [0u8; 1];
    bus.transact(&jedec_id(), &mut answer)?;
    Ok(answer[0] == 0xEF)
}

/// Reads the status until the operation in progress has completed.
fn wait_until_idle<B: SpiBus>(bus: &mut B) -> Result<(), NorError>
    requires running { is_idle (B.chip bus.old).operation ≡ false }
    requires powered { (B.chip bus.old).powered ≡ true }
    requires fresh { (B.chip bus.old).polls ≡ 0 }
    ensures chip { OnOk result (B.chip bus.new ≡ completed (B.chip bus.old)) }
    ensures cuts { OnOk result (B.cuts bus.new ≡ B.cuts bus.old) }
    ensures err { IfErr result (λ e.
        WaitFails e (B.chip bus.old) (B.cuts bus.old) (B.slows bus.old) (B.chip bus.new)
        (B.cuts bus.new) (B.slows bus.new)) }
{
    for _read in 0..MOST_STATUS_READS {
        let mut answer = [0u8; 1];
        bus.transact(&status(Register::First), &mut answer)?;
        if !Status1::is_busy(answer[0]) {
            return Ok(());
        }
    }
    Err(NorError::Slow)
}

/// A write enable, the frame of a change, and the wait for its end.
fn change<B: SpiBus>(bus: &mut B, frame: &[u8]) -> Result<(), NorError>
    requires idle { is_idle (B.chip bus.old).operation ≡ true }
    requires running { is_idle (started (B.chip bus.old) frame.now).operation ≡ false }
    requires fresh { (started (B.chip bus.old) frame.now).polls ≡ 0 }
    requires powered { (started (B.chip bus.old) frame.now).powered ≡ (B.chip bus.old).powered }
    ensures chip { OnOk result (B.chip bus.new ≡ completed (started (B.chip bus.old) frame.now)) }
    ensures cuts { OnOk result (B.cuts bus.new ≡ B.cuts bus.old) }
    ensures err { IfErr result (λ e.
        ChangeFails e (B.chip bus.old) (B.cuts bus.old) (B.slows bus.old) frame.now (B.chip bus.new)
        (B.cuts bus.new) (B.slows bus.new)) }
{
    send(bus, &write_enable())?;
    send(bus, frame)?;
    wait_until_idle(bus)
}

/// Erases the 4 KiB at an address.
fn erase_unit<B: SpiBus>(bus: &mut B, at: u32) -> Result<(), NorError>
    requires idle { is_idle (B.chip bus.old).operation ≡ true }
    requires powered { (B.chip bus.old).powered ≡ true }
    requires open { is_unprotected (B.chip bus.old) ≡ true }
    requires unit { at % 4096 ≡ 0 }
    requires range { at < length (B.chip bus.old).memory }
    requires address { at < 2 ^ 24 }
    ensures chip { OnOk result (B.chip bus.new
        ≡ completed (starts (B.chip bus.old) (Erasing at 4096))) }
    ensures cuts { OnOk result (B.cuts bus.new ≡ B.cuts bus.old) }
    ensures err { IfErr result (λ e. EraseStops e (B.chip bus.old) (B.cuts bus.old) at 4096
        (B.chip bus.new) (B.cuts bus.new)) }
{
    change(bus, &erase_small(at))
}

/// Erases so many bytes from an address on.
fn erase_units<B: SpiBus>(bus: &mut B, at: u32, count: u32) -> Result<(), NorError>
    requires idle { is_idle (B.chip bus.old).operation ≡ true }
    requires powered { (B.chip bus.old).powered ≡ true }
    requires open { is_unprotected (B.chip bus.old) ≡ true }
    requires unit { at % 4096 ≡ 0 }
    requires whole { count % 4096 ≡ 0 }
    requires some { 0 < count }
    requires range { at + count ≤ length (B.chip bus.old).memory }
    requires address { at + count ≤ 2 ^ 24 }
    ensures chip { OnOk result (B.chip bus.new
        ≡ completed (starts (B.chip bus.old) (Erasing at count))) }
    ensures cuts { OnOk result (B.cuts bus.new ≡ B.cuts bus.old) }
    ensures err { IfErr result (λ e. EraseStops e (B.chip bus.old) (B.cuts bus.old) at count
        (B.chip bus.new) (B.cuts bus.new)) }
{
    erase_unit(bus, at)?;
    for k in 1..count / UNIT {
        erase_unit(bus, at + k * UNIT)?;
    }
    Ok(())
}

/// A status register of an idle chip.
fn read_register<B: SpiBus>(bus: &mut B, register: Register) -> Result<u8, PowerLost>
    requires { is_idle (B.chip bus.old).operation ≡ true }
    ensures value { IfOk result (λ b. b ≡ status_of (B.chip bus.old) register) }
    ensures chip { OnOk result (B.chip bus.new ≡ B.chip bus.old) }
    ensures powered { OnOk result ((B.chip bus.old).powered ≡ true) }
    ensures cuts { OnOk result (B.cuts bus.new ≡ B.cuts bus.old) }
    ensures lost { OnErr result (Lost (B.chip bus.old) (B.cuts bus.old) (B.chip bus.new)
        (B.cuts bus.new)) }
{
    let mut answer = [0u8; 1];
    ask(bus, &status(register), &mut answer)?;
    Ok(answer[0])
}

/// Whether BP, SEC, CMP or WPS of an idle chip isn't 0.
fn is_closed<B: SpiBus>(bus: &mut B) -> Result<bool, PowerLost>
    requires { is_idle (B.chip bus.old).operation ≡ true }
    ensures value { IfOk result (λ b. b ≡ not (is_unprotected (B.chip bus.old))) }
    ensures chip { OnOk result (B.chip bus.new ≡ B.chip bus.old) }
    ensures cuts { OnOk result (B.cuts bus.new ≡ B.cuts bus.old) }
    ensures lost { OnErr result (Lost (B.chip bus.old) (B.cuts bus.old) (B.chip bus.new)
        (B.cuts bus.new)) }
{
    let first = read_register(bus, Register::First)?;
    let second = read_register(bus, Register::Second)?;
    let third = read_register(bus, Register::Third)?;
    Ok(
        Status1::has_blocks(first)
            || Status1::has_sectors(first)
            || Status2::has_complement(second)
            || Status3::has_unit_locks(third),
    )
}

/// Whether WEL of an idle chip is set.
fn is_enabled<B: SpiBus>(bus: &mut B) -> Result<bool, PowerLost>
    requires { is_idle (B.chip bus.old).operation ≡ true }
    ensures value { IfOk result (λ b. b ≡ (B.chip bus.old).enabled) }
    ensures chip { OnOk result (B.chip bus.new ≡ B.chip bus.old) }
    ensures powered { OnOk result ((B.chip bus.old).powered ≡ true) }
    ensures cuts { OnOk result (B.cuts bus.new ≡ B.cuts bus.old) }
    ensures lost { OnErr result (Lost (B.chip bus.old) (B.cuts bus.old) (B.chip bus.new)
        (B.cuts bus.new)) }
{
    let first = read_register(bus, Register::First)?;
    Ok(first / 2 % 2 == 1)
}

/// Clears WEL of an idle chip.
fn disable<B: SpiBus>(bus: &mut B) -> Result<(), PowerLost>
    requires { is_idle (B.chip bus.old).operation ≡ true }
    ensures chip { OnOk result (B.chip bus.new ≡ with_enabled (B.chip bus.old) false) }
    ensures cuts { OnOk result (B.cuts bus.new ≡ B.cuts bus.old) }
    ensures lost { OnErr result (Lost (B.chip bus.old) (B.cuts bus.old) (B.chip bus.new)
        (B.cuts bus.new)) }
{
    send(bus, &[0x04])
}

/// Does an erase of so many bytes from an address on, as an idle chip takes it.
fn erase_span<B: SpiBus>(bus: &mut B, at: u32, count: u32) -> Result<(), Trouble>
    requires idle { is_idle (B.chip bus.old).operation ≡ true }
    requires unit { at % 4096 ≡ 0 }
    requires whole { count % 4096 ≡ 0 }
    requires some { 0 < count }
    requires range { at + count ≤ length (B.chip bus.old).memory }
    requires address { at + count ≤ 2 ^ 24 }
    ensures chip { OnOk result (B.chip bus.new ≡ after_free_erase (B.chip bus.old) at count) }
    ensures cuts { OnOk result (B.cuts bus.new ≡ B.cuts bus.old) }
    ensures leaves { IfErr result (λ e. LeavesErase (B.chip bus.old) (B.cuts bus.old) at count e
        (B.chip bus.new) (B.cuts bus.new)) }
{
    if !is_enabled(bus)? {
        return Ok(());
    }
    if is_closed(bus)? {
        disable(bus)?;
        return Ok(());
    }
    match erase_units(bus, at, count) {
        Ok(()) => Ok(()),
        Err(NorError::Cut) => Err(Trouble::PowerLost),
        Err(NorError::Slow) => Err(Trouble::Slow),
    }
}

/// How many bytes a chip has that isn't busy and tells it.
fn free_size<B: SpiBus>(bus: &mut B) -> Result<Option<u32>, PowerLost>
    ensures some { IfOk result (λ s. IfSome s (λ n. (n ≡ length (B.chip bus.old).memory)
        × IsChipSize n × takes_erases (B.chip bus.old) ≡ true)) }
    ensures none { IfOk result (λ s. IfNone s (takes_erases (B.chip bus.old) ≡ false)) }
    ensures chip { OnOk result (B.chip bus.new ≡ B.chip bus.old) }
    ensures cuts { OnOk result (B.cuts bus.new ≡ B.cuts bus.old) }
    ensures lost { OnErr result (Lost (B.chip bus.old) (B.cuts bus.old) (B.chip bus.new)
        (B.cuts bus.new)) }
{
    if !is_free(bus)? {
        return Ok(None);
    }
    let mut table = [0u8; 256];
    ask(bus, &sfdp(0), &mut table)?;
    match read_params(&table) {
        Ok(params) => Ok(Some(params.bytes)),
        Err(_) => Ok(None),
    }
}

/// Does an erase of the whole chip.
pub(crate) fn erase_all<B: SpiBus>(bus: &mut B) -> Result<(), Trouble>
    ensures chip { OnOk result (B.chip bus.new
        ≡ after_erase (B.chip bus.old) 0 (length (B.chip bus.old).memory)) }
    ensures cuts { OnOk result (B.cuts bus.new ≡ B.cuts bus.old) }
    ensures leaves { IfErr result (λ e. LeavesErase (B.chip bus.old) (B.cuts bus.old) 0
        (length (B.chip bus.old).memory) e (B.chip bus.new) (B.cuts bus.new)) }
{
    match free_size(bus)? {
        Some(size) => erase_span(bus, 0, size),
        None => Ok(()),
    }
}

/// Does an erase of the 32 KiB in which an address lies.
pub(crate) fn erase_half<B: SpiBus>(bus: &mut B, at: u32) -> Result<(), Trouble>
    ensures chip { OnOk result (B.chip bus.new ≡ after_erase (B.chip bus.old) at 32768) }
    ensures cuts { OnOk result (B.cuts bus.new ≡ B.cuts bus.old) }
    ensures leaves { IfErr result (λ e. LeavesErase (B.chip bus.old) (B.cuts bus.old)
        (unit_at (B.chip bus.old) at 32768) 32768 e (B.chip bus.new) (B.cuts bus.new)) }
{
    match free_size(bus)? {
        Some(size) => erase_span(bus, at % size / HALF * HALF, HALF),
        None => Ok(()),
    }
}
