//! A chip behind a programmer is formatted.

ghost use Rattle.std.specs.Prelude.{◌≡◌, ◌≢◌, ◌*◌, IfErr, IfOk, OnOk, false, length, true};
ghost use Rattle.flash_disk.specs.Formatted.{Formatted};
ghost use Rattle.chip_watch.specs.Watched.{watched_chip};
ghost use Rattle.norbd_chip.specs.Faults.{is_unsure};

use crate::fault::{ChipFault, told_of_refusal};
use crate::noting::Noted;
use crate::progress::Report;
use crate::reaching::{Reached, watch};
use chip_model::Programmer;
use chip_watch::WatchedBus;
use flash_disk::format;
use norbd_line::ChipCause;
use serprog_link::ProgrammerPlace;
use std::alloc::Global;
use std::net::{Net, TcpStream};
use std::rt::Files;
use std::time::Clock;

/// Formats the chip of so many KiB behind the programmer at a place, which erases it, and answers
/// the bus to it. What is done with it is noted.
///
/// `Unsure` exactly where `sure` isn't set: the programmer is then not reached. `Size` where the
/// chip has another size; nothing of it is changed then.
pub fn format_chip<'r, 'p, 'n, R, T>(
    rt: &'r R,
    report: T,
    alloc: Global,
    place: ProgrammerPlace<'p>,
    kib: u32,
    sure: bool,
    noted: &'n Noted,
) -> Result<WatchedBus<Reached<'r, 'p, 'n, R, T>>, ChipFault>
where
    R: Files + Net<Stream = TcpStream> + Clock,
    T: Report + Drop,
    ensures formatted { IfOk result (λ bus. Formatted (watched_chip bus)) }
    ensures size { IfOk result (λ bus. length (watched_chip bus).memory ≡ 1024 * kib) }
    ensures sure { OnOk result (sure ≡ true) }
    ensures unsure { sure ≡ false → result ≡ Err (ChipFault.Failed ChipCause.Unsure) }
    ensures asked { sure ≡ true → IfErr result (λ fault. is_unsure fault ≡ false) }
{
    if !sure {
        return Err(ChipFault::Failed(ChipCause::Unsure));
    }
    format_surely(rt, report, alloc, place, kib, sure, noted)
}

/// Reaches the programmer at a place and formats the chip behind it. It may be called only where
/// that was said to be meant.
fn format_surely<'r, 'p, 'n, R, T>(
    rt: &'r R,
    report: T,
    alloc: Global,
    place: ProgrammerPlace<'p>,
    kib: u32,
    sure: bool,
    noted: &'n Noted,
) -> Result<WatchedBus<Reached<'r, 'p, 'n, R, T>>, ChipFault>
where
    R: Files + Net<Stream = TcpStream> + Clock,
    T: Report + Drop,
    requires sure { sure ≡ true }
    ensures formatted { IfOk result (λ bus. Formatted (watched_chip bus)) }
    ensures size { IfOk result (λ bus. length (watched_chip bus).memory ≡ 1024 * kib) }
    ensures asked { IfErr result (λ fault. is_unsure fault ≡ false) }
{
    prove!(sure);
    let bus = watch(rt, report, alloc, place, false, noted)?;
    match format_watched(bus, kib, noted) {
        (bus, Ok(())) => Ok(bus),
        (_, Err(fault)) => Err(fault),
    }
}

/// Formats a watched chip of so many KiB, of which it is noted where it left the model. `Size`
/// where it has another size; nothing is sent to it then.
pub fn format_watched<P: Programmer + Drop>(
    bus: WatchedBus<P>,
    kib: u32,
    noted: &Noted,
) -> (WatchedBus<P>, Result<(), ChipFault>)
    ensures formatted { OnOk result.1 (Formatted (watched_chip result.0)) }
    ensures size { OnOk result.1 (length (watched_chip result.0).memory ≡ 1024 * kib) }
    ensures asked { IfErr result.1 (λ fault. is_unsure fault ≡ false) }
    ensures other { length (watched_chip bus).memory ≢ 1024 * kib → result.0 ≡ bus }
{
    let size = bus.size();
    if size as u64 != 1_024 * kib as u64 {
        return (bus, Err(ChipFault::Failed(ChipCause::Size(size / 1_024))));
    }
    let (bus, formatted) = format(bus);
    noted.note(bus.departure());
    match formatted {
        Ok(()) => (bus, Ok(())),
        Err(error) => (bus, Err(told_of_refusal(error, noted))),
    }
}
