//! A table of parameters, as JESD216 has it, and what is read of it.

ghost use Rattle.std.specs.Prelude.{◌<◌, ◌^◌, IfOk};

use crate::came::Came;
use crate::fault::Fault;
use crate::names::Names;
use crate::refusals::of_table;
use crate::words::Words;
use sfdp::read_params;
use spi_frames::{
    Register, erase_large, erase_small, jedec_id, program, read, sfdp, status, write_enable,
    write_status,
};
use std::alloc::Global;

/// What is read of the first bytes of a table.
fn params(alloc: Global, bytes: &[u8]) -> Result<Came, Fault> {
    let params = match read_params(bytes) {
        Ok(params) => params,
        Err(error) => return Ok(Came::Said(of_table(error))),
    };
    let (size, page, small) = (params.bytes, params.page, params.small);
    match params.large {
        Some(large) => Ok(Came::Text(format!(in alloc;
            "{size} bytes, pages of {page}, erases {small:02X} and {large:02X}"
        )?)),
        None => Ok(Came::Text(format!(in alloc;
            "{size} bytes, pages of {page}, erases {small:02X}"
        )?)),
    }
}

/// A line of a table of 256 bytes.
pub(crate) fn run(
    alloc: Global,
    names: &Names,
    table: &mut Vec<u8>,
    verb: &str,
    mut words: Words,
) -> Result<Came, Fault> {
    match verb {
        "at" => {
            let at = words.address()? as usize;
            let bytes = names.bytes_of(alloc, words.all())?;
            let Some(place) = table
                .as_mut_slice()
                .get_mut(at..at.saturating_add(bytes.len()))
            else {
                return Err(Fault::NotUnderstood);
            };
            place.copy_from_slice(bytes.as_slice());
            Ok(Came::Said("ok"))
        }
        "params" => {
            let len = words.number()? as usize;
            words.end()?;
            match table.as_slice().get(..len) {
                Some(bytes) => params(alloc, bytes),
                None => Err(Fault::NotUnderstood),
            }
        }
        _ => Err(Fault::NotUnderstood),
    }
}

/// A copy of a frame.
fn copy_of(alloc: Global, bytes: &[u8]) -> Result<Came, Fault> {
    let mut copy = Vec::new(alloc);
    copy.extend_from_slice(bytes)?;
    Ok(Came::Bytes(copy))
}

/// The register of a number, 1 to 3.
fn register(number: u8) -> Result<Register, Fault> {
    match number {
        1 => Ok(Register::First),
        2 => Ok(Register::Second),
        3 => Ok(Register::Third),
        _ => Err(Fault::NotUnderstood),
    }
}

/// An address of a chip, below 16 MiB.
fn place(words: &mut Words) -> Result<u32, Fault>
    ensures below { IfOk result (λ at. at < 2 ^ 24) }
{
    let at = words.address()?;
    if at >= 16_777_216 {
        return Err(Fault::NotUnderstood);
    }
    Ok(at)
}

/// The bytes of the frame that is sent for `program ADDRESS BYTES`.
fn program_frame(alloc: Global, names: &Names, mut words: Words) -> Result<Came, Fault> {
    let at = place(&mut words)?;
    let bytes = names.bytes_of(alloc, words.all())?;
    if bytes.is_empty() || bytes.len() > 256 {
        return Err(Fault::NotUnderstood);
    }
    copy_of(alloc, program(at, bytes.as_slice()).as_slice())
}

/// The bytes of the frame that is sent for a word.
pub(crate) fn sent(alloc: Global, names: &Names, mut words: Words) -> Result<Came, Fault> {
    match words.word()? {
        "write-enable" => copy_of(alloc, write_enable().as_slice()),
        "read" => copy_of(alloc, read(place(&mut words)?).as_slice()),
        "program" => program_frame(alloc, names, words),
        "erase-small" => copy_of(alloc, erase_small(place(&mut words)?).as_slice()),
        "erase-large" => copy_of(alloc, erase_large(place(&mut words)?).as_slice()),
        "status" => copy_of(alloc, status(register(words.small()?)?).as_slice()),
        "write-status" => copy_of(alloc, write_status(words.byte()?).as_slice()),
        "id" => copy_of(alloc, jedec_id().as_slice()),
        "sfdp" => copy_of(alloc, sfdp(place(&mut words)?).as_slice()),
        _ => Err(Fault::NotUnderstood),
    }
}
