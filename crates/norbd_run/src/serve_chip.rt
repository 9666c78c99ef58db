//! `serve` of a chip behind a programmer.
ghost use Rattle.std.specs.Prelude.{◌≡◌, ◌<◌, IsErr, IsFalse, false, length, not, true};
ghost use Rattle.chip_model.specs.Chip.{is_idle};
ghost use Rattle.chip_model.specs.Geometry.{IsChipSize};
ghost use Rattle.chip_model.specs.Wavering.{bits_of};
ghost use Rattle.sector_slots.specs.Fit.{IsFitForFirmMount};
ghost use Rattle.restored_disk.specs.Lives.{IsFirmOrSteady};
ghost use Rattle.norbd_line.specs.Line.{IsConns, IsPlace};
ghost use Rattle.norbd_run.specs.Listening.{TellsServing};

use crate::chip_disk::{bus_behind, bytes_behind};
use crate::host::Host;
use crate::image_disk::copied_disk;
use crate::listening::listen_at;
use crate::serve::{Asked, look_at, serve_opened, wear_of};
use block_device::Sink;
use chip_model::SpiBus;
use erase_journal::Firmness;
use flash_disk::Provenance;
use nbd_durable::{Durable, Policy};
use nor_layout::BLOCK_LEN;
use norbd_chip::{NoFile, Noted};
use norbd_line::{Cause, Fault, Place, TidyPolicy};
use norbd_serve::Listener;
use norbd_status::CountedBus;
use restored_disk::{Habits, LifeDisk, OneLife, PowerCycle, RestoredDisk};
use serprog_link::ProgrammerPlace;
use std::fs;
use std::marker::Brand;
use std::sync::ledger::{Blank, Ledger};

/// As `run_serve`, of the chip behind the programmer at a place, of which everything is read first;
/// it is believed its changes where `trusts` is set. What is acknowledged is on the chip, so that
/// nothing is ever synced. One that can't be changed is a copy of the chip in memory.
///
/// `ImageFailed` with a `ChipCause` where the programmer can't be used, or the chip left the model:
/// no command gets a reply then, and all connections are closed.
pub fn run_serve_chip<R, K>(
    rt: &R,
    place: ProgrammerPlace<'_>,
    trusts: bool,
    asked: Asked<'_>,
    writer: &mut K,
) -> Result<(), Fault>
where
    R: Host,
    R::File: Send,
    R::Dir: Send,
    R: 'static,
    K: Sink,
    requires { IsPlace asked.place × IsConns asked.conns }
    ensures tells { TellsServing asked.entry.place asked.entry.conns asked.entry.record
        (K.written writer.old) (K.faults writer.old) result
        (K.written writer.new) (K.faults writer.new) }
    ensures endless { IsFalse asked.entry.ends → IsErr result }
{
    let listener = match listen_at(rt, asked.place) {
        Ok(listener) => listener,
        Err(fault) => return Err(fault),
    };
    let noted = Noted::new();
    let done = if asked.read_only {
        serve_chip_copy(rt, listener, place, asked, writer)
    } else {
        serve_chip(rt, listener, place, trusts, &noted, asked, writer)
    };
    if let Place::Unix(path) = asked.place {
        let _ = fs::remove_file(rt, path);
    }
    done
}

/// Serves the chip behind the programmer at a place to the connections of a listener.
fn serve_chip<'r, 'p, 'n, R, K>(
    rt: &'r R,
    listener: Listener,
    place: ProgrammerPlace<'p>,
    trusts: bool,
    noted: &'n Noted,
    asked: Asked<'_>,
    writer: &mut K,
) -> Result<(), Fault>
where
    R: Host,
    R::File: Send,
    R::Dir: Send,
    R: 'static,
    K: Sink,
    requires { IsPlace asked.place × IsConns asked.conns }
    ensures tells { TellsServing asked.entry.place asked.entry.conns asked.entry.record
        (K.written writer.old) (K.faults writer.old) result
        (K.written writer.new) (K.faults writer.new) }
    ensures endless { IsFalse asked.entry.ends → IsErr result }
{
    let wear = match wear_of(asked) {
        Ok(wear) => wear,
        Err(fault) => return Err(fault),
    };
    let (bus, copy) = match bus_behind(rt, place, trusts, noted) {
        Ok(reached) => reached,
        Err(fault) => return Err(fault),
    };
    let blocks = (copy.len() / BLOCK_LEN as usize) as u32;
    let bus = CountedBus::new(bus, wear, blocks);
    match serve_steady(rt, listener, bus, copy, asked, writer) {
        Ok(()) => Ok(()),
        Err(Fault::ImageFailed(_)) => Err(Fault::ImageFailed(Cause::Chip(noted.cause()))),
        Err(fault) => Err(fault),
    }
}

/// Serves the chip behind a bus that finds it as it was at each power-on, on which nothing is in
/// progress and whose memory is this copy, to the connections of a listener.
fn serve_steady<R, B, K>(
    rt: &R,
    listener: Listener,
    bus: B,
    copy: Vec<u8>,
    asked: Asked<'_>,
    writer: &mut K,
) -> Result<(), Fault>
where
    R: Host,
    B: SpiBus + Send + Drop,
    K: Sink,
    requires idle { is_idle (B.chip bus).operation ≡ true }
    requires copy { copy.items ≡ (B.chip bus).memory }
    requires size { IsChipSize (length copy.items) }
    requires numbers { IsPlace asked.place × IsConns asked.conns }
    ensures tells { TellsServing asked.entry.place asked.entry.conns asked.entry.record
        (K.written writer.old) (K.faults writer.old) result
        (K.written writer.new) (K.faults writer.new) }
    ensures endless { IsFalse asked.entry.ends → IsErr result }
{
    serve_lives::<Brand, R, OneLife<B>, K>(
        rt,
        listener,
        OneLife::new(bus),
        copy,
        true,
        Blank::new(1),
        asked,
        writer,
    )
}

/// Serves the chip behind a bus, on which nothing is in progress and whose memory is this copy, in
/// one life after another. The copy is looked at first: of a chip that isn't served nothing is
/// changed. `L` says what is known of the chip: that it is fit for a firm mount (`L.firm`), or else
/// that it reads as before at each power-on, which `steady` tells.
fn serve_lives<L, R, B, K>(
    rt: &R,
    listener: Listener,
    bus: B,
    copy: Vec<u8>,
    steady: bool,
    blank: Blank,
    asked: Asked<'_>,
    writer: &mut K,
) -> Result<(), Fault>
where
    L: Provenance + Ledger + Send,
    R: Host,
    B: PowerCycle + Send + Drop,
    K: Sink,
    requires name { blank.name ≡ L.name }
    requires parts { blank.parts ≡ L.parts }
    requires some { 0 < L.parts }
    requires unknown { L.sound ≡ false }
    requires cuts { (L.cuts ≡ 0) × (B.cuts bus ≡ 0) }
    requires slows { L.slows ≡ B.slows bus }
    requires served { IsFirmOrSteady L.firm B.draw }
    requires steady { steady ≡ not L.firm }
    requires fit { L.firm ≡ true → IsFitForFirmMount (bits_of (B.chip bus)) }
    requires idle { is_idle (B.chip bus).operation ≡ true }
    requires copy { copy.items ≡ (B.chip bus).memory }
    requires size { IsChipSize (length copy.items) }
    requires numbers { IsPlace asked.place × IsConns asked.conns }
    ensures tells { TellsServing asked.entry.place asked.entry.conns asked.entry.record
        (K.written writer.old) (K.faults writer.old) result
        (K.written writer.new) (K.faults writer.new) }
    ensures endless { IsFalse asked.entry.ends → IsErr result }
{
    let alloc = rt.alloc();
    if let Err(fault) = copied_disk(alloc, copy, Firmness::Steady) {
        return Err(fault);
    }
    let disk = match look_at::<B, L>(alloc, bus, Firmness::Firm) {
        Ok(disk) => disk,
        Err(fault) => return Err(fault),
    };
    let habits = Habits {
        levels: true,
        lazy: asked.tidy == TidyPolicy::Lazily,
    };
    let disk = RestoredDisk::new(LifeDisk::new(alloc, disk, steady, habits, blank));
    let durable = Durable::new(NoFile, Policy::Never);
    serve_opened(rt, listener, disk, &durable, asked, writer)
}

/// Serves a copy in memory of the chip behind the programmer at a place.
fn serve_chip_copy<R, K>(
    rt: &R,
    listener: Listener,
    place: ProgrammerPlace<'_>,
    asked: Asked<'_>,
    writer: &mut K,
) -> Result<(), Fault>
where
    R: Host,
    K: Sink,
    requires { IsPlace asked.place × IsConns asked.conns }
    ensures tells { TellsServing asked.entry.place asked.entry.conns asked.entry.record
        (K.written writer.old) (K.faults writer.old) result
        (K.written writer.new) (K.faults writer.new) }
    ensures endless { IsFalse asked.entry.ends → IsErr result }
{
    let copy = bytes_behind(rt, place)?;
    let disk = match copied_disk(rt.alloc(), copy, Firmness::Steady) {
        Ok(disk) => disk,
        Err(fault) => return Err(fault),
    };
    let durable = Durable::new(NoFile, Policy::Never);
    serve_opened(rt, listener, disk, &durable, asked, writer)
}
