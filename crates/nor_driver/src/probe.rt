//! What a chip tells of itself.

ghost use Rattle.std.specs.Prelude.{◌≡◌, slice_index};
ghost use Rattle.sfdp.specs.Params.{params_of};
ghost use Rattle.chip_model.specs.Frames.{id_from};
ghost use Rattle.nor_driver.specs.Probe.{Identifies, Probes, is_served_id, sized};

use crate::ProbeError;
use crate::driver::{ask, wake};
use crate::protection::is_protected;
use chip_model::SpiBus;
use sfdp::{Params, read_params};
use spi_frames::{jedec_id, sfdp as sfdp_frame};

/// Whether a chip with these id bytes is served.
fn is_served(id: [u8; 3]) -> bool
    ensures { result ≡ is_served_id (slice_index id 0) (slice_index id 1) (slice_index id 2) }
{
    id[0] == 0xEF && id[1] == 0x40 && id[2] >= 0x10 && id[2] <= 0x18
}

/// The third id byte of a chip of so many bytes: the least k with 2^k >= size, from 16 on.
fn exponent_of(bytes: u32) -> u8
    ensures { result ≡ id_from 9 16 bytes }
{
    for k in 16..25u8 {
        if bytes <= 1 << k {
            return k;
        }
    }
    25
}

/// The parameters of a table whose size has this third id byte, or the refusal.
fn sized(exponent: u8, table: &[u8]) -> Result<Params, ProbeError>
    ensures { result ≡ sized exponent (params_of table.now) }
{
    match read_params(table) {
        Ok(params) => {
            if exponent != exponent_of(params.bytes) {
                return Err(ProbeError::WrongId);
            }
            Ok(params)
        }
        Err(error) => Err(ProbeError::Sfdp(error)),
    }
}

/// The power comes anew, and id and table are checked.
fn identify<B: SpiBus>(bus: &mut B) -> Result<Params, ProbeError>
    ensures identifies { Identifies result (B.chip bus.old) (B.cuts bus.old) (B.chip bus.new)
        (B.cuts bus.new) }
    ensures slows { B.slows bus.new ≡ B.slows bus.old }
{
    let mut id = [0u8; 3];
    wake(bus, &jedec_id(), &mut id)?;
    if !is_served(id) {
        return Err(ProbeError::WrongId);
    }
    let mut table = [0u8; 256];
    ask(bus, &sfdp_frame(0), &mut table)?;
    sized(id[2], &table)
}

/// The power comes anew, and id, table and protection are checked.
pub(crate) fn survey<B: SpiBus>(bus: &mut B) -> Result<Params, ProbeError>
    ensures { Probes result (B.chip bus.old) (B.cuts bus.old) (B.slows bus.old) (B.chip bus.new)
        (B.cuts bus.new) (B.slows bus.new) }
{
    let params = identify(bus)?;
    if is_protected(bus)? {
        return Err(ProbeError::Protected);
    }
    Ok(params)
}
