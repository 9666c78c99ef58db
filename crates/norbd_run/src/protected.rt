//! What `check` tells of a chip of which something is protected.
ghost use Rattle.std.specs.Prelude.{◌≡◌, ◌/◌, ◌%◌, ◌==◌, ◌||◌, IfErr, IfOk, not};
ghost use Rattle.norbd_run.specs.Comparing.{end_under};

use crate::check::Looked;
use norbd_line::Fault;
use spi_frames::Status1;
use std::alloc::{AllocError, Global};
use std::fmt;

/// The names of bits 2 to 7 of status register 1. Source: datasheet of the W25Q128JV, "Status
/// Registers".
const NAMES: [&str; 6] = ["BP0", "BP1", "BP2", "TB", "SEC", "SRP"];

/// Bits 2 to 7 of a byte of status register 1 by their names: `BP0 TB`, or for programs
/// `"BP0","TB"`.
#[derive(Drop)]
struct Bits {
    status: u8,
    json: bool,
}

impl fmt::Display for Bits {
    fn fmt<W: fmt::Write>(&self, f: &mut fmt::Formatter<W>) -> fmt::Result {
        let mut rest = self.status / 4;
        let mut first = true;
        for name in NAMES {
            if rest % 2 == 1 {
                let between = if self.json { "," } else { " " };
                f.write_str(if first { "" } else { between })?;
                let quote = if self.json { "\"" } else { "" };
                write!(f, "{quote}{name}{quote}")?;
                first = false;
            }
            rest /= 2;
        }
        Ok(())
    }
}

/// Whether a byte of status register 1 protects anything: BP0 to BP2 or SEC is set.
fn protects(status: u8) -> bool
    ensures { result ≡ (not (status / 4 % 8 == 0) || (status / 64 % 2 == 1)) }
{
    Status1::has_blocks(status) || Status1::has_sectors(status)
}

/// The line about the bits of status register 1.
fn text_about(alloc: Global, status: u8, json: bool) -> Result<String, AllocError> {
    let bits = Bits { status, json };
    if json {
        return format!(in alloc; "{{\"version\":1,\"protected\":[{bits}]}}\n");
    }
    format!(in alloc;
        "protected: {bits}: norbd unprotect --yes ends that, and keeps what is on the chip\n"
    )
}

/// What is found of a chip whose status register 1 has this byte: one of which anything is
/// protected is `Protected`, as `serve` says, where it would be served else.
pub(crate) fn with_protection(
    alloc: Global,
    looked: Looked,
    status: u8,
    json: bool,
) -> Result<Looked, Fault>
    ensures end { IfOk result (λ l. l.end ≡ end_under
        (not (status / 4 % 8 == 0) || (status / 64 % 2 == 1)) looked.end) }
    ensures refused { IfErr result (λ e. e ≡ Fault.NoMemory) }
{
    if !protects(status) {
        return Ok(looked);
    }
    let Looked { mut text, end } = looked;
    let Ok(line) = text_about(alloc, status, json) else {
        return Err(Fault::NoMemory);
    };
    if text.push_str(line.as_str()).is_err() {
        return Err(Fault::NoMemory);
    }
    match end {
        Ok(_) => Ok(Looked {
            text,
            end: Err(Fault::Protected),
        }),
        Err(fault) => Ok(Looked {
            text,
            end: Err(fault),
        }),
    }
}
