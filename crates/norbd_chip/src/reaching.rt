//! Chips behind programmers, reached by their place.

ghost use Rattle.std.specs.Prelude.{◌≡◌, IfErr, IfOk, false, length, true};
ghost use Rattle.chip_model.specs.Chip.{is_idle};
ghost use Rattle.chip_model.specs.Geometry.{IsChipSize};
ghost use Rattle.chip_watch.specs.Watched.{watched_chip, watched_trusts};
ghost use Rattle.norbd_chip.specs.Faults.{is_unsure};
ghost use Rattle.norbd_chip.specs.Trust.{noting_trusts};

use crate::fault::{ChipFault, told_of_opening, told_of_programmer};
use crate::identifying::identify;
use crate::noting::{Noted, Noting};
use crate::progress::{PacedProgrammer, Report};
use chip_model::SpiBus;
use chip_watch::WatchedBus;
use serprog::Serprog;
use serprog_link::{ProgrammerDialer, ProgrammerIn, ProgrammerOut, ProgrammerPlace};
use std::alloc::Global;
use std::net::{Net, TcpStream};
use std::rt::Files;
use std::time::{Clock, Duration};

/// How many seconds a programmer may take to be reached, and over TCP for a write.
const PATIENCE: u64 = 10;

/// A programmer at a place, of which it is told how far a chip has been read.
pub type Reached<'r, 'p, 'n, R, T> = PacedProgrammer<
    'r,
    'n,
    R,
    T,
    Serprog<
        ProgrammerIn<'r, R, <R as Files>::File>,
        ProgrammerOut<<R as Files>::File>,
        ProgrammerDialer<'r, 'p, R>,
    >,
>;

/// The chip behind the programmer at a place, of which everything was read; believed its changes
/// where `trusts` is set. What is done with it is noted.
pub fn watch<'r, 'p, 'n, R, T>(
    rt: &'r R,
    report: T,
    alloc: Global,
    place: ProgrammerPlace<'p>,
    trusts: bool,
    noted: &'n Noted,
) -> Result<WatchedBus<Reached<'r, 'p, 'n, R, T>>, ChipFault>
where
    R: Files + Net<Stream = TcpStream> + Clock,
    T: Report + Drop,
    ensures idle { IfOk result (λ bus. is_idle (watched_chip bus).operation ≡ true) }
    ensures size { IfOk result (λ bus. IsChipSize (length (watched_chip bus).memory)) }
    ensures trusts { IfOk result (λ bus. watched_trusts bus ≡ trusts) }
    ensures asked { IfErr result (λ fault. is_unsure fault ≡ false) }
{
    let dialer = ProgrammerDialer::new(rt, place, Duration::from_secs(PATIENCE));
    let client = match Serprog::open(dialer, place.clock) {
        Ok(client) => client,
        Err(error) => return Err(told_of_programmer(error)),
    };
    if let Some(hz) = client.identity().clock {
        report.tell_clock(hz);
    }
    let mut programmer = PacedProgrammer::new(rt, report, noted, client);
    identify(&mut programmer, noted)?;
    match WatchedBus::open(alloc, programmer) {
        Ok(bus) => if trusts { Ok(bus.trusting()) } else { Ok(bus) },
        Err(error) => Err(told_of_opening(error, noted)),
    }
}

/// As `watch`, of a chip whose departures are noted.
pub fn watch_noting<'r, 'p, 'n, R, T>(
    rt: &'r R,
    report: T,
    alloc: Global,
    place: ProgrammerPlace<'p>,
    trusts: bool,
    noted: &'n Noted,
) -> Result<Noting<'n, Reached<'r, 'p, 'n, R, T>>, ChipFault>
where
    R: Files + Net<Stream = TcpStream> + Clock,
    T: Report + Drop,
    ensures idle { IfOk result (λ bus. is_idle
        (⟦<Noting<'n, Reached<'r, 'p, 'n, R, T>> as SpiBus>⟧.chip bus).operation ≡ true) }
    ensures size { IfOk result (λ bus. IsChipSize (length
        (⟦<Noting<'n, Reached<'r, 'p, 'n, R, T>> as SpiBus>⟧.chip bus).memory)) }
    ensures trusts { IfOk result (λ bus. noting_trusts bus ≡ trusts) }
{
    match watch(rt, report, alloc, place, trusts, noted) {
        Ok(bus) => Ok(Noting::new(bus, noted)),
        Err(fault) => Err(fault),
    }
}
