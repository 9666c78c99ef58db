//! Everything that a chip holds, read once.

ghost use Rattle.std.specs.Prelude.{◌≡◌, ◌*◌, ◌/◌, ◌%◌, ◌<◌, ◌≤◌};
ghost use Rattle.std.specs.Prelude.{[], ◌∷◌, ℕ, List, IfErr, IfOk, length, true};
ghost use Rattle.chip_model.specs.Chip.{Idle, is_idle, completed};
ghost use Rattle.chip_model.specs.Frames.{status_1};
ghost use Rattle.chip_model.specs.Geometry.{IsChipSize};
ghost use Rattle.chip_simulator.specs.Sim.{chip_of};
ghost use Rattle.sfdp.specs.Params.{params_of};
ghost use Rattle.chip_model.specs.Exchanges.{Exchange, Exchanged};
ghost use Rattle.chip_watch.specs.Opening.{Opens, RefusesAsRead};
ghost use Rattle.chip_watch.specs.Reading.{piece_reads};
ghost use Rattle.chip_watch.specs.Shadow.{IsCalm};
ghost use Rattle.chip_watch.specs.Told.{frames_told};
ghost use Rattle.chip_watch.specs.Watched.{shadow_chip};

use crate::change::Change;
use crate::departure::{Departure, OpenError};
use crate::pieces::read_pieces;
use crate::shadow::Shadow;
use crate::simulator::set_protection;
use crate::wire::Wire;
use chip_model::{Programmer, is_chip_size};
use chip_simulator::SimChip;
use sfdp::{SfdpError, read_params};
use std::alloc::Global;

/// The three status registers.
#[derive(Clone, Copy)]
struct Registers {
    first: u8,
    second: u8,
    third: u8,
}

/// A status register.
fn register<P: Programmer>(wire: &mut Wire<P>, code: u8) -> Result<u8, OpenError>
    ensures read { IfOk result (λ b. Exchanged (frames_told P.exchanged wire.old)
        (frames_told P.exchanged wire.new)
        (record { sent = code ∷ []; received = b ∷ [] } ∷ [])) }
    ensures refused { IfErr result RefusesAsRead }
{
    match wire.ask(&[code]) {
        Some(byte) => Ok(byte),
        None => Err(OpenError::NoAnswer(code)),
    }
}

/// The three status registers of a chip at rest.
fn read_registers<P: Programmer>(wire: &mut Wire<P>) -> Result<Registers, OpenError>
    ensures read { IfOk result (λ r. Exchanged (frames_told P.exchanged wire.old)
        (frames_told P.exchanged wire.new)
        (record { sent = 5 ∷ []; received = r.first ∷ [] }
        ∷ record { sent = 53 ∷ []; received = r.second ∷ [] }
        ∷ record { sent = 21 ∷ []; received = r.third ∷ [] } ∷ [])) }
    ensures rests { IfOk result (λ r. r.first % 4 ≡ 0) }
    ensures no_cmp { IfOk result (λ r. r.second / 64 % 2 ≡ 0) }
    ensures no_wps { IfOk result (λ r. r.third / 4 % 2 ≡ 0) }
    ensures refused { IfErr result RefusesAsRead }
{
    let first = register(wire, 0x05)?;
    let second = register(wire, 0x35)?;
    let third = register(wire, 0x15)?;
    if first % 4 != 0 {
        return Err(OpenError::Restless(first));
    }
    if second / 64 % 2 != 0 || third / 4 % 2 != 0 {
        return Err(OpenError::Scheme(second, third));
    }
    Ok(Registers {
        first,
        second,
        third,
    })
}

/// The SFDP bytes.
fn read_table<P: Programmer>(wire: &mut Wire<P>) -> Result<[u8; 256], OpenError>
    ensures read { IfOk result (λ t. Exchanged (frames_told P.exchanged wire.old)
        (frames_told P.exchanged wire.new)
        (record { sent = 90 ∷ 0 ∷ 0 ∷ 0 ∷ 0 ∷ []; received = t } ∷ [])) }
    ensures refused { IfErr result RefusesAsRead }
{
    if !wire.hear(&[0x5A, 0, 0, 0, 0], 256) {
        return Err(OpenError::NoAnswer(0x5A));
    }
    let mut table = [0u8; 256];
    table.copy_from_slice(&wire.heard);
    Ok(table)
}

/// The size that a table gives.
fn size_in(table: &[u8]) -> Result<u32, SfdpError>
    ensures size { IfOk result (λ n. IsChipSize n) }
    ensures fits { IfOk result (λ n. IfOk (params_of table.now) (λ p. p.bytes ≡ n)) }
{
    let params = read_params(table)?;
    let size = params.bytes;
    if !is_chip_size(size as u64) {
        return Err(SfdpError::Density);
    }
    Ok(size)
}

/// So many pieces of 4 KiB, from the first byte of the memory on, eight at a time.
fn read_memory<P: Programmer>(
    alloc: Global,
    wire: &mut Wire<P>,
    pieces: u32,
) -> Result<Vec<u8>, OpenError>
    requires whole { pieces % 8 ≡ 0 }
    ensures long { IfOk result (λ m. length m.items ≡ 4096 * pieces) }
    ensures read { IfOk result (λ m. Exchanged (frames_told P.exchanged wire.old)
        (frames_told P.exchanged wire.new) (piece_reads m.items 0 pieces)) }
    ensures refused { IfErr result RefusesAsRead }
{
    let Ok(mut memory) = Vec::with_capacity(alloc, 4_096 * pieces as usize) else {
        return Err(OpenError::OutOfMemory);
    };
    for batch in 0..pieces / 8 {
        read_pieces(alloc, wire, &mut memory, 8 * batch, 8)?;
    }
    Ok(memory)
}

/// A chip with these bytes, with the power on and nothing in progress.
fn at_rest(memory: Vec<u8>, size: u32, table: [u8; 256], registers: Registers) -> Shadow
    requires bytes { length memory.items ≡ size }
    requires size { IsChipSize size }
    requires fits { IfOk (params_of table) (λ p. p.bytes ≡ size) }
    requires rests { registers.first % 4 ≡ 0 }
    requires no_cmp { registers.second / 64 % 2 ≡ 0 }
    requires no_wps { registers.third / 4 % 2 ≡ 0 }
    ensures memory { (shadow_chip result).memory ≡ memory.items }
    ensures idle { (shadow_chip result).operation ≡ Idle }
    ensures powered { (shadow_chip result).powered ≡ true }
    ensures slows { result.slows ≡ 0 }
    ensures table { (shadow_chip result).sfdp ≡ table }
    ensures first { status_1 (shadow_chip result) ≡ registers.first }
    ensures second { (shadow_chip result).status2 ≡ registers.second }
    ensures third { (shadow_chip result).status3 ≡ registers.third }
{
    let Ok(mut chip) = SimChip::new(memory) else {
        unreachable!()
    };
    set_protection(&mut chip, registers.first);
    Shadow {
        chip,
        table,
        status2: registers.second,
        status3: registers.third,
        size,
        change: Change::None,
        status: 0,
        polls: 0,
        powered: true,
        slows: 0,
    }
}

/// The chip behind a wire, with the power on and nothing in progress.
pub fn open_shadow<P: Programmer>(alloc: Global, wire: &mut Wire<P>) -> Result<Shadow, OpenError>
    ensures size { IfOk result (λ s. IsChipSize (length (shadow_chip s).memory)) }
    ensures idle { IfOk result (λ s. (shadow_chip s).operation ≡ Idle) }
    ensures powered { IfOk result (λ s. (shadow_chip s).powered ≡ true) }
    ensures slows { IfOk result (λ s. s.slows ≡ 0) }
    ensures read { IfOk result (λ s. Opens (shadow_chip s) (frames_told P.exchanged wire.old)
        (frames_told P.exchanged wire.new)) }
    ensures refused { IfErr result RefusesAsRead }
{
    match wire.rest() {
        Ok(()) => {}
        Err(Departure::NoAnswer(code)) => return Err(OpenError::NoAnswer(code)),
        Err(_) => return Err(OpenError::Busy),
    }
    let registers = read_registers(wire)?;
    let table = read_table(wire)?;
    let size = match size_in(&table) {
        Ok(size) => size,
        Err(error) => return Err(OpenError::Table(error)),
    };
    let memory = read_memory(alloc, wire, size / 4_096)?;
    Ok(at_rest(memory, size, table, registers))
}
