//! The protection of a chip behind a programmer is ended.

ghost use Rattle.std.specs.Prelude.{◌≡◌, IfErr, IfOk, OnOk, false, true};
ghost use Rattle.chip_model.specs.Chip.{is_idle};
ghost use Rattle.chip_model.specs.Frames.{is_unprotected};
ghost use Rattle.chip_watch.specs.Watched.{watched_chip};
ghost use Rattle.norbd_chip.specs.Faults.{is_unsure};

use crate::fault::{ChipFault, told_of_refusal};
use crate::noting::Noted;
use crate::progress::Report;
use crate::reaching::{Reached, watch};
use chip_model::Programmer;
use chip_watch::WatchedBus;
use nor_driver::unprotect;
use norbd_line::ChipCause;
use serprog_link::ProgrammerPlace;
use std::alloc::Global;
use std::net::{Net, TcpStream};
use std::rt::Files;
use std::time::Clock;

/// Ends the protection of the chip behind the programmer at a place: bits 2 to 7 of status register
/// 1 become 0. Answers the bus to it. What is done with it is noted.
///
/// `UnsureUnprotect` exactly where `sure` isn't set: the programmer is then not reached.
/// `Protected` where CMP or WPS stays set.
pub fn unprotect_chip<'r, 'p, 'n, R, T>(
    rt: &'r R,
    report: T,
    alloc: Global,
    place: ProgrammerPlace<'p>,
    sure: bool,
    noted: &'n Noted,
) -> Result<WatchedBus<Reached<'r, 'p, 'n, R, T>>, ChipFault>
where
    R: Files + Net<Stream = TcpStream> + Clock,
    T: Report + Drop,
    ensures open { IfOk result (λ bus. is_unprotected (watched_chip bus) ≡ true) }
    ensures cleared { IfOk result (λ bus. (watched_chip bus).protection ≡ 0) }
    ensures sure { OnOk result (sure ≡ true) }
    ensures unsure { sure ≡ false → result ≡ Err (ChipFault.Failed ChipCause.UnsureUnprotect) }
    ensures asked { sure ≡ true → IfErr result (λ fault. is_unsure fault ≡ false) }
{
    if !sure {
        return Err(ChipFault::Failed(ChipCause::UnsureUnprotect));
    }
    let bus = watch(rt, report, alloc, place, false, noted)?;
    match unprotect_watched(bus, noted) {
        (bus, Ok(())) => Ok(bus),
        (_, Err(fault)) => Err(fault),
    }
}

/// Ends the protection of a watched chip, of which it is noted where it left the model. What is on
/// it stays.
pub fn unprotect_watched<P: Programmer + Drop>(
    bus: WatchedBus<P>,
    noted: &Noted,
) -> (WatchedBus<P>, Result<(), ChipFault>)
    ensures open { OnOk result.1 (is_unprotected (watched_chip result.0) ≡ true) }
    ensures cleared { OnOk result.1 ((watched_chip result.0).protection ≡ 0) }
    ensures same { is_idle (watched_chip bus).operation ≡ true
        → (watched_chip result.0).memory ≡ (watched_chip bus).memory }
    ensures asked { IfErr result.1 (λ fault. is_unsure fault ≡ false) }
{
    let mut bus = bus;
    let ended = unprotect(&mut bus);
    noted.note(bus.departure());
    match ended {
        Ok(()) => (bus, Ok(())),
        Err(error) => (bus, Err(told_of_refusal(error, noted))),
    }
}
