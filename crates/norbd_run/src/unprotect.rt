//! `unprotect`: the protection of a chip behind a programmer is ended.
ghost use Rattle.std.specs.Prelude.{◌≡◌, false};
ghost use Rattle.norbd_line.specs.declared.cause.ChipCause.TheVariants.{UnsureUnprotect};
ghost use Rattle.norbd_line.specs.declared.fault.Cause.TheVariants.{Chip};
ghost use Rattle.norbd_line.specs.declared.fault.Fault.TheVariants.{ImageFailed};
ghost use Rattle.norbd_run.specs.Unprotecting.{UnprotectTells};

use crate::chip_disk::{Reporter, told_of_chip};
use crate::read::send_bytes;
use block_device::Sink;
use norbd_chip::{Noted, unprotect_chip};
use norbd_line::Fault;
use norbd_serve::Log;
use serprog_link::ProgrammerPlace;
use std::net::{Net, TcpStream};
use std::rt::Files;
use std::time::Clock;

/// Ends the protection of the chip behind the programmer at a place, if `sure` is set, and then
/// writes a line about it to `writer`. What is on the chip stays.
///
/// `ImageFailed` with a `ChipCause` where `sure` isn't set, the programmer can't be used or the
/// chip leaves the model; `Protected` where CMP or WPS is set; `Slow`, `NoMemory`. `OutputFailed`
/// where the write failed; the protection is ended then.
#[tactic(auto, using(crate::proofs::Refusals::chip_is_refusal))]
pub fn run_unprotect<R, K>(
    rt: &R,
    place: ProgrammerPlace<'_>,
    sure: bool,
    writer: &mut K,
) -> Result<(), Fault>
where
    R: Files + AllocGlobal + Clock + Log + Net<Stream = TcpStream>,
    K: Sink,
    ensures tells { UnprotectTells sure (K.written writer.old) (K.faults writer.old) result
        (K.written writer.new) (K.faults writer.new) }
    ensures unsure { sure ≡ false
        → result ≡ Err (ImageFailed (Chip UnsureUnprotect)) }
{
    let noted = Noted::new();
    match unprotect_chip(rt, Reporter { rt }, rt.alloc(), place, sure, &noted) {
        Ok(_) => {}
        Err(fault) => return Err(told_of_chip(fault)),
    }
    send_bytes(writer, b"nothing is protected\n")
}
