//! The disk on the chip behind a programmer.
ghost use Rattle.std.specs.Prelude.{◌≡◌, IfErr, IfOk, length, true};
ghost use Rattle.block_device.specs.Facts.{IsDiskReady};
ghost use Rattle.chip_model.specs.Chip.{is_idle};
ghost use Rattle.chip_model.specs.Geometry.{IsChipSize};
ghost use Rattle.norbd_run.specs.Chips.{told_of_chip};
ghost use Rattle.norbd_run.specs.Listening.{IsRefusal};

use crate::serve::open_bus;
use block_device::Disk;
use chip_model::SpiBus;
use erase_journal::Firmness;
use flash_disk::FlashDisk;
use norbd_chip::{ChipFault, Noted, Noting, Reached, Report, watch, watch_noting};
use norbd_line::{Cause, ChipCause, Fault, TidyPolicy};
use norbd_serve::Log;
use norbd_status::{CountedBus, Wear};
use restored_disk::RestoredDisk;
use serprog_link::ProgrammerPlace;
use std::alloc::Global;
use std::marker::Brand;
use std::net::{Net, TcpStream};
use std::rt::Files;
use std::sync::Arc;
use std::time::Clock;

/// The bytes of the chip behind the programmer at a place, of which nothing is changed.
#[tactic(auto, using(crate::proofs::Refusals::chip_is_refusal))]
pub(crate) fn bytes_behind<R>(rt: &R, place: ProgrammerPlace<'_>) -> Result<Vec<u8>, Fault>
where
    R: Files + AllocGlobal + Clock + Log + Net<Stream = TcpStream>,
    ensures size { IfOk result (λ bytes. IsChipSize (length bytes.items)) }
    ensures refused { IfErr result IsRefusal }
{
    let noted = Noted::new();
    let bus = match watch(rt, Reporter { rt }, rt.alloc(), place, false, &noted) {
        Ok(bus) => bus,
        Err(fault) => return Err(told_of_chip(fault)),
    };
    match bus.memory().to_vec(rt.alloc()) {
        Ok(bytes) => Ok(bytes),
        Err(_) => Err(Fault::NoMemory),
    }
}

/// As `bytes_behind`, and the byte of the chip's status register 1.
#[tactic(auto, using(crate::proofs::Refusals::chip_is_refusal))]
pub(crate) fn bytes_and_status<R>(
    rt: &R,
    place: ProgrammerPlace<'_>,
) -> Result<(Vec<u8>, u8), Fault>
where
    R: Files + AllocGlobal + Clock + Log + Net<Stream = TcpStream>,
    ensures size { IfOk result (λ it. IsChipSize (length it.0.items)) }
    ensures refused { IfErr result IsRefusal }
{
    let noted = Noted::new();
    let mut bus = match watch_noting(rt, Reporter { rt }, rt.alloc(), place, false, &noted) {
        Ok(bus) => bus,
        Err(fault) => return Err(told_of_chip(fault)),
    };
    let Ok(bytes) = bus.memory().to_vec(rt.alloc()) else {
        return Err(Fault::NoMemory);
    };
    let mut status = [0u8; 1];
    match bus.transact(&[0x05], &mut status) {
        Ok(()) => Ok((bytes, status[0])),
        Err(_) => Err(Fault::ImageFailed(Cause::Chip(noted.cause()))),
    }
}

/// The bus to such a chip, whose departures are noted.
pub(crate) type BusBehind<'r, 'p, 'n, R> = Noting<'n, Reached<'r, 'p, 'n, R, Reporter<'r, R>>>;

/// The disk on it, whose erases are counted.
pub(crate) type FlashBehind<'r, 'p, 'n, R> = FlashDisk<CountedBus<BusBehind<'r, 'p, 'n, R>>, Brand>;

/// The same where it goes on after a loss that the chip came through.
pub(crate) type DiskBehind<'r, 'p, 'n, R> = RestoredDisk<FlashBehind<'r, 'p, 'n, R>>;

/// The bus to the chip behind the programmer at a place, on which nothing is in progress, and a
/// copy of its memory.
#[tactic(auto, using(crate::proofs::Refusals::chip_is_refusal))]
pub(crate) fn bus_behind<'r, 'p, 'n, R>(
    rt: &'r R,
    place: ProgrammerPlace<'p>,
    trusts: bool,
    noted: &'n Noted,
) -> Result<(BusBehind<'r, 'p, 'n, R>, Vec<u8>), Fault>
where
    R: Files + AllocGlobal + Clock + Log + Net<Stream = TcpStream>,
    R: 'static,
    ensures refused { IfErr result IsRefusal }
    ensures idle { IfOk result (λ reached. is_idle
        (⟦<BusBehind<'r, 'p, 'n, R> as SpiBus>⟧.chip reached.0).operation ≡ true) }
    ensures copy { IfOk result (λ reached. reached.1.items
        ≡ (⟦<BusBehind<'r, 'p, 'n, R> as SpiBus>⟧.chip reached.0).memory) }
    ensures size { IfOk result (λ reached. IsChipSize (length reached.1.items)) }
{
    let bus = match watch_noting(rt, Reporter { rt }, rt.alloc(), place, trusts, noted) {
        Ok(bus) => bus,
        Err(fault) => return Err(told_of_chip(fault)),
    };
    match bus.memory().to_vec(rt.alloc()) {
        Ok(copy) => Ok((bus, copy)),
        Err(_) => Err(Fault::NoMemory),
    }
}

/// The disk on the chip behind the programmer at a place, whose departures are noted. Its torn bits
/// are taken to waver. Where it is lost, that is told, and so is its return.
pub(crate) fn disk_behind<'r, 'p, 'n, R>(
    rt: &'r R,
    place: ProgrammerPlace<'p>,
    trusts: bool,
    noted: &'n Noted,
    tidy: TidyPolicy,
    wear: Option<Arc<Wear, Global>>,
) -> Result<DiskBehind<'r, 'p, 'n, R>, Fault>
where
    R: Files + AllocGlobal + Clock + Log + Net<Stream = TcpStream>,
    R: 'static,
    ensures refused { IfErr result IsRefusal }
    ensures sound { IfOk result (λ disk.
        (⟦<DiskBehind<'r, 'p, 'n, R> as Disk>⟧.facts disk).sound ≡ true) }
    ensures ready { IfOk result (λ disk.
        IsDiskReady (⟦<DiskBehind<'r, 'p, 'n, R> as Disk>⟧.facts disk)) }
{
    match flash_behind(rt, place, trusts, noted, tidy, wear) {
        Ok(disk) => Ok(RestoredDisk::new(disk)),
        Err(fault) => Err(fault),
    }
}

/// The same without going on after a loss.
#[tactic(auto, using(crate::proofs::Refusals::chip_is_refusal))]
pub(crate) fn flash_behind<'r, 'p, 'n, R>(
    rt: &'r R,
    place: ProgrammerPlace<'p>,
    trusts: bool,
    noted: &'n Noted,
    tidy: TidyPolicy,
    wear: Option<Arc<Wear, Global>>,
) -> Result<FlashBehind<'r, 'p, 'n, R>, Fault>
where
    R: Files + AllocGlobal + Clock + Log + Net<Stream = TcpStream>,
    R: 'static,
    ensures refused { IfErr result IsRefusal }
    ensures sound { IfOk result (λ disk.
        (⟦<FlashBehind<'r, 'p, 'n, R> as Disk>⟧.facts disk).sound ≡ true) }
    ensures ready { IfOk result (λ disk.
        IsDiskReady (⟦<FlashBehind<'r, 'p, 'n, R> as Disk>⟧.facts disk)) }
{
    let (bus, copy) = match bus_behind(rt, place, trusts, noted) {
        Ok(reached) => reached,
        Err(fault) => return Err(fault),
    };
    match open_bus(rt.alloc(), bus, copy, tidy, wear, Firmness::Firm) {
        Ok(disk) => Ok(disk),
        Err(Fault::ImageFailed(_)) => Err(Fault::ImageFailed(Cause::Chip(noted.cause()))),
        Err(fault) => Err(fault),
    }
}

/// Tells what is waited for with a chip, and of its losses, where connections are told of too.
#[derive(Drop)]
pub struct Reporter<'r, R> {
    pub(crate) rt: &'r R,
}

impl<R: AllocGlobal + Log> Report for Reporter<'_, R> {
    fn tell_read(&self, kib: u32) {
        self.rt.tell_read(kib)
    }

    fn tell_busy(&self, seconds: u64) {
        self.rt.tell_busy(seconds)
    }

    fn tell_clock(&self, hz: u32) {
        self.rt.tell_clock(hz)
    }

    fn tell_lost(&self, cause: ChipCause) {
        match format!(in self.rt.alloc(); "{cause}") {
            Ok(text) => self.rt.tell_lost(text.as_str()),
            Err(_) => self.rt.tell_lost("no memory to say why"),
        }
    }

    fn tell_back(&self) {
        self.rt.tell_back()
    }
}

/// What a fault of a chip behind a programmer is.
pub(crate) fn told_of_chip(fault: ChipFault) -> Fault
    ensures { result ≡ told_of_chip fault }
{
    match fault {
        ChipFault::NoMemory => Fault::NoMemory,
        ChipFault::Failed(cause) => Fault::ImageFailed(Cause::Chip(cause)),
        ChipFault::BadTable => Fault::BadSfdp,
        ChipFault::WrongId => Fault::WrongId,
        ChipFault::Protected => Fault::Protected,
        ChipFault::Slow => Fault::Slow,
    }
}
