//! `settle`: all of a chip but its superblock is erased, and its disk is kept.
ghost use Rattle.std.specs.Prelude.{◌+◌, ◌≡◌, IfErr, IfOk, OnOk, length, string_bytes, true};
ghost use Rattle.block_device.specs.Facts.{CountsNeverFall, IsDiskReady, KeepsContents};
ghost use Rattle.sector_slots.specs.Slots.{data_blocks};
ghost use Rattle.norbd_run.specs.Moving.{IsWritten, MoveFails};
ghost use Rattle.norbd_run.specs.Settling.{SettleTells, StepsRenew, renewed_text};

use crate::chip_disk::flash_behind;
use crate::format::told_as;
use crate::image_disk::{bytes_of, copied_disk, hold_image};
use crate::image_log::take_up;
use crate::progress::{Meter, Screen};
use crate::read::told_of_disk;
use crate::serve::tell;
use block_device::{Disk, DiskError, Sink};
use chip_model::SpiBus;
use chip_simulator::PromptChip;
use erase_journal::Firmness;
use flash_disk::FlashDisk;
use norbd_chip::Noted;
use norbd_image::{ImageFile, rewrite_image};
use norbd_line::{Cause, Fault, TidyPolicy};
use norbd_serve::Log;
use norbd_transfer::Observer;
use serprog_link::ProgrammerPlace;
use std::alloc::{AllocError, Global};
use std::marker::Brand;
use std::net::{Net, TcpStream};
use std::rt::Files;
use std::time::Clock;

/// Sectors' worth of bytes that a step of a settling is shown as: those of a block.
const SHOWN: u32 = 8;

/// Settles the image in the file at a path, whose torn bits are taken to waver: each byte of it
/// but the superblock is erased, and the disk stays. Then a line on `writer` says so; how far it is
/// is shown on a `Screen`. The file is replaced as a whole: after a fault it is as it was, but
/// `OutputFailed`, where the line could not be written, or `NoMemory` for it.
///
/// The other faults are those of `run_write` but of its input and its part of a disk.
pub fn run_settle<R, K>(rt: &R, path: &str, writer: &mut K) -> Result<(), Fault>
where
    R: Files + AllocGlobal + Clock + Screen,
    R::File: ImageFile,
    K: Sink,
    ensures { SettleTells (K.written writer.old) (K.faults writer.old) result
        (K.written writer.new) (K.faults writer.new) }
{
    let held = hold_image(rt, path, true)?;
    take_up(rt, path, &held, true)?;
    let copy = bytes_of(rt, &held)?;
    let disk = copied_disk(rt.alloc(), copy, Firmness::Firm)?;
    let text = renewed_text(rt.alloc(), disk.settle_steps() - 1);
    let image = settled_image(disk, &mut Meter::new(rt))?;
    if let Err(error) = rewrite_image(rt, path, &held, image.as_slice()) {
        return Err(told_as(error));
    }
    tell(writer, text)
}

/// The line about a chip of so many data blocks that is settled.
fn renewed_text(alloc: Global, blocks: u16) -> Result<String, AllocError>
    ensures { IfOk result (λ text. string_bytes text ≡ renewed_text blocks) }
{
    format!(in alloc; "renewed 3 journals and {blocks} data blocks\n")
}

/// The bytes of the chip of a disk once it is settled: a healthy and clean chip that holds what it
/// held.
fn settled_image<O: Observer>(
    disk: FlashDisk<PromptChip, Brand>,
    observer: &mut O,
) -> Result<Vec<u8>, Fault>
    requires sound { (⟦<FlashDisk<PromptChip, Brand> as Disk>⟧.facts disk).sound ≡ true }
    requires ready { IsDiskReady (⟦<FlashDisk<PromptChip, Brand> as Disk>⟧.facts disk) }
    ensures image { IfOk result (λ image. IsWritten
        (⟦<FlashDisk<PromptChip, Brand> as Disk>⟧.facts disk).contents image.items) }
    ensures renewed { IfOk result (λ image. StepsRenew (1 + data_blocks disk.map.memory)
        disk.map.memory image.items) }
    ensures refused { IfErr result MoveFails }
{
    let mut disk = disk;
    let settled = settle_all(&mut disk, observer);
    let chip = disk.into_inner();
    match settled {
        Ok(()) => Ok(chip.into_inner()),
        Err(error) => Err(told_of_disk(error)),
    }
}

/// Does all steps of a settling in their order; after each `observer` is told how far it is. No
/// sector changes, also where a loss of power ends it: `Cut`. `Slow` where an operation of the chip
/// didn't end: of the contents nothing is said then.
pub(crate) fn settle_all<B: SpiBus, O: Observer>(
    disk: &mut FlashDisk<B, Brand>,
    observer: &mut O,
) -> Result<(), DiskError>
    requires sound { (⟦<FlashDisk<B, Brand> as Disk>⟧.facts disk.old).sound ≡ true }
    requires ready { IsDiskReady (⟦<FlashDisk<B, Brand> as Disk>⟧.facts disk.old) }
    ensures renewed { OnOk result (StepsRenew (1 + data_blocks disk.old.map.memory)
        disk.old.map.memory disk.new.map.memory) }
    ensures contents { KeepsContents (⟦<FlashDisk<B, Brand> as Disk>⟧.facts disk.old).contents
        result (⟦<FlashDisk<B, Brand> as Disk>⟧.facts disk.new).contents }
    ensures sound { (⟦<FlashDisk<B, Brand> as Disk>⟧.facts disk.new).sound ≡ true }
    ensures ready { OnOk result (IsDiskReady (⟦<FlashDisk<B, Brand> as Disk>⟧.facts disk.new)) }
    ensures goes { CountsNeverFall (⟦<FlashDisk<B, Brand> as Disk>⟧.facts disk.old)
        (⟦<FlashDisk<B, Brand> as Disk>⟧.facts disk.new) }
    ensures size { length disk.new.map.memory ≡ length disk.old.map.memory }
{
    let steps = disk.settle_steps();
    let mut step = 0u16;
    while step < steps {
        disk.settle_step(step)?;
        step += 1;
        observer.note(SHOWN * step as u32, SHOWN * steps as u32);
    }
    Ok(())
}

/// Settles the chip behind the programmer at a place, as `run_settle` does an image, but on the
/// chip itself: after a fault a part of it is settled, and its disk is as it was. The next call
/// begins anew.
///
/// `ImageFailed` with a `ChipCause` where the programmer can't be used, or the chip left the model;
/// else the faults of `run_settle`.
pub fn run_settle_chip<R, K>(
    rt: &R,
    place: ProgrammerPlace<'_>,
    writer: &mut K,
) -> Result<(), Fault>
where
    R: Files + AllocGlobal + Clock + Log + Screen + Net<Stream = TcpStream>,
    R: 'static,
    K: Sink,
    ensures { SettleTells (K.written writer.old) (K.faults writer.old) result
        (K.written writer.new) (K.faults writer.new) }
{
    let noted = Noted::new();
    settle_chip(rt, place, &noted, writer)
}

/// Settles the chip behind the programmer at a place, whose departures are noted.
fn settle_chip<'r, 'p, 'n, R, K>(
    rt: &'r R,
    place: ProgrammerPlace<'p>,
    noted: &'n Noted,
    writer: &mut K,
) -> Result<(), Fault>
where
    R: Files + AllocGlobal + Clock + Log + Screen + Net<Stream = TcpStream>,
    R: 'static,
    K: Sink,
    ensures { SettleTells (K.written writer.old) (K.faults writer.old) result
        (K.written writer.new) (K.faults writer.new) }
{
    match flash_behind(rt, place, false, noted, TidyPolicy::Lazily, None) {
        Ok(disk) => settle_disk(rt, disk, noted, writer),
        Err(fault) => Err(fault),
    }
}

/// Settles a disk on a chip whose departures are noted.
fn settle_disk<R, B, K>(
    rt: &R,
    disk: FlashDisk<B, Brand>,
    noted: &Noted,
    writer: &mut K,
) -> Result<(), Fault>
where
    R: AllocGlobal + Clock + Screen,
    B: SpiBus + Drop,
    K: Sink,
    requires sound { (⟦<FlashDisk<B, Brand> as Disk>⟧.facts disk).sound ≡ true }
    requires ready { IsDiskReady (⟦<FlashDisk<B, Brand> as Disk>⟧.facts disk) }
    ensures { SettleTells (K.written writer.old) (K.faults writer.old) result
        (K.written writer.new) (K.faults writer.new) }
{
    let mut disk = disk;
    let text = renewed_text(rt.alloc(), disk.settle_steps() - 1);
    match settle_all(&mut disk, &mut Meter::new(rt)) {
        Ok(()) => tell(writer, text),
        Err(DiskError::Cut) => Err(Fault::ImageFailed(Cause::Chip(noted.cause()))),
        Err(error) => Err(told_of_disk(error)),
    }
}
