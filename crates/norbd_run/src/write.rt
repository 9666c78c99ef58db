//! `write`: the sectors of a disk replaced, without a server.
ghost use Rattle.std.specs.Io.KnownBytes.{Consumes, IsAtEnd};
ghost use Rattle.std.specs.Prelude.{◌%◌, ◌*◌, ◌+◌, ◌-◌, ◌<◌, ◌≡◌, ◌≤◌, IfErr, IfOk, List, OnOk};
ghost use Rattle.std.specs.Prelude.{length, string_bytes, true, ℕ};
ghost use Rattle.block_device.specs.Contents.{replaced};
ghost use Rattle.block_device.specs.Facts.{IsDiskReady};
ghost use Rattle.norbd_run.specs.Moving.{IsWritten, MoveFails, WriteTells, replacing_text};
ghost use Rattle.norbd_run.specs.Moving.{written_text};

use crate::chip_disk::disk_behind;
use crate::format::told_as;
use crate::image_disk::{bytes_of, copied_disk, firmness_of, hold_image};
use crate::image_log::take_up;
use crate::progress::{Meter, Screen};
use crate::read::{part_of, told_of_disk};
use crate::serve::tell;
use block_device::{Disk, DiskError, Sink, Source};
use chip_simulator::PromptChip;
use flash_disk::FlashDisk;
use norbd_chip::Noted;
use norbd_image::{Held, ImageFile, rewrite_image};
use norbd_line::{Cause, Fault, InputLength, TidyPolicy};
use norbd_serve::Log;
use norbd_transfer::{InputError, Observer, Part, put_sectors, receive_exactly};
use serprog_link::ProgrammerPlace;
use std::alloc::{AllocError, Global};
use std::marker::Brand;
use std::net::{Net, TcpStream};
use std::rt::Files;
use std::time::Clock;

/// Replaces sectors of the image in the file at a path by the bytes of `reader`, of which there
/// have to be exactly as many: the whole disk, or the part that `sectors` writes. A line on
/// `writer` says before anything is read which sectors are replaced, and another one that they
/// were; how far it is is shown on a `Screen`. The file is replaced as a whole: after a fault it is
/// as it was. Its torn bits are taken to waver where `firm` is set.
///
/// The faults are those of `run_read`; besides `BadInput` where `reader` has fewer bytes or more,
/// and `InputFailed` where it failed.
pub fn run_write<R, S, K>(
    rt: &R,
    path: &str,
    sectors: Option<&str>,
    firm: bool,
    reader: &mut S,
    writer: &mut K,
) -> Result<(), Fault>
where
    R: Files + AllocGlobal + Clock + Screen,
    R::File: ImageFile,
    S: Source,
    K: Sink,
    ensures told { WriteTells (K.written writer.old) (K.faults writer.old) result
        (K.written writer.new) (K.faults writer.new) }
    ensures end { OnOk result (IsAtEnd (S.remaining reader.new)) }
{
    let held = hold_image(rt, path, true)?;
    take_up(rt, path, &held, true)?;
    let copy = bytes_of(rt, &held)?;
    let disk = copied_disk(rt.alloc(), copy, firmness_of(firm))?;
    let part = part_of(&disk, sectors)?;
    let before = replacing_text(rt.alloc(), part);
    if let Err(fault) = tell(writer, before) {
        return Err(fault);
    }
    if let Err(fault) = write_file(rt, path, disk, &held, part, reader) {
        return Err(fault);
    }
    let after = written_text(rt.alloc(), part);
    tell(writer, after)
}

/// The line about the sectors that are replaced.
pub(crate) fn replacing_text(alloc: Global, part: Part) -> Result<String, AllocError>
    requires { part.first < part.end }
    ensures { IfOk result (λ text. string_bytes text ≡ replacing_text part.first part.end) }
{
    let (first, last) = (part.first, part.end - 1);
    format!(in alloc; "replacing sectors {first} to {last}\n")
}

/// The line about those that were.
pub(crate) fn written_text(alloc: Global, part: Part) -> Result<String, AllocError>
    requires { part.first < part.end }
    ensures { IfOk result (λ text. string_bytes text ≡ written_text part.first part.end) }
{
    let (first, last) = (part.first, part.end - 1);
    format!(in alloc; "replaced sectors {first} to {last}\n")
}

/// Replaces the file of a disk by one with a part that comes from a stream.
fn write_file<R, S>(
    rt: &R,
    path: &str,
    disk: FlashDisk<PromptChip, Brand>,
    held: &Held<R::File>,
    part: Part,
    reader: &mut S,
) -> Result<(), Fault>
where
    R: Files + AllocGlobal + Clock + Screen,
    R::File: ImageFile,
    S: Source,
    requires some { part.first < part.end }
    requires few { part.end ≤ 65536 }
    requires range { 512 * part.end
        ≤ length (⟦<FlashDisk<PromptChip, Brand> as Disk>⟧.facts disk).contents }
    requires sound { (⟦<FlashDisk<PromptChip, Brand> as Disk>⟧.facts disk).sound ≡ true }
    requires ready { IsDiskReady (⟦<FlashDisk<PromptChip, Brand> as Disk>⟧.facts disk) }
    ensures end { OnOk result (IsAtEnd (S.remaining reader.new)) }
    ensures refused { IfErr result MoveFails }
{
    let bytes = receive_part(rt.alloc(), reader, part)?;
    let image = image_with(disk, part.first, bytes.as_slice(), &mut Meter::new(rt))?;
    match rewrite_image(rt, path, held, image.as_slice()) {
        Ok(()) => Ok(()),
        Err(error) => Err(told_as(error)),
    }
}

/// The bytes of a part of a disk that come from a stream, to its end.
pub(crate) fn receive_part<S: Source>(
    alloc: Global,
    reader: &mut S,
    part: Part,
) -> Result<Vec<u8>, Fault>
    requires some { part.first < part.end }
    requires few { part.end ≤ 65536 }
    ensures size { IfOk result (λ bytes. length bytes.items ≡ 512 * (part.end - part.first)) }
    ensures all { IfOk result (λ bytes. Consumes (S.remaining reader.old) (S.remaining reader.new)
        bytes.items) }
    ensures end { OnOk result (IsAtEnd (S.remaining reader.new)) }
    ensures refused { IfErr result MoveFails }
{
    let sectors = part.end - part.first;
    match receive_exactly(alloc, reader, 512 * sectors as usize) {
        Ok(bytes) => Ok(bytes),
        Err(InputError::OutOfMemory) => Err(Fault::NoMemory),
        Err(InputError::Failed) => Err(Fault::InputFailed),
        Err(InputError::Shorter(had)) => Err(told_of_length(Some(had as u64), part)),
        Err(InputError::Longer) => Err(told_of_length(None, part)),
    }
}

/// What an input of another length than that of a part of a disk is for the program.
fn told_of_length(had: Option<u64>, part: Part) -> Fault
    requires { (part.first < part.end) × (part.end ≤ 65536) }
    ensures { MoveFails result }
{
    Fault::BadInput(InputLength {
        had,
        taken: 512 * (part.end - part.first) as u64,
        first: part.first,
        last: part.end - 1,
    })
}

/// The bytes of the chip of a disk once these sectors are replaced from the sector `first` on: a
/// healthy and clean chip that holds them, and every other sector as it was.
fn image_with<O: Observer>(
    disk: FlashDisk<PromptChip, Brand>,
    first: u32,
    bytes: &[u8],
    observer: &mut O,
) -> Result<Vec<u8>, Fault>
    requires whole { length bytes.now % 512 ≡ 0 }
    requires range { 512 * first + length bytes.now
        ≤ length (⟦<FlashDisk<PromptChip, Brand> as Disk>⟧.facts disk).contents }
    requires few { 512 * first + length bytes.now ≤ 33554432 }
    requires sound { (⟦<FlashDisk<PromptChip, Brand> as Disk>⟧.facts disk).sound ≡ true }
    requires ready { IsDiskReady (⟦<FlashDisk<PromptChip, Brand> as Disk>⟧.facts disk) }
    ensures image { IfOk result (λ image. IsWritten
        (replaced (⟦<FlashDisk<PromptChip, Brand> as Disk>⟧.facts disk).contents (512 * first)
        bytes.now) image.items) }
    ensures refused { IfErr result MoveFails }
{
    let mut disk = disk;
    let written = put_sectors(&mut disk, first, bytes, observer);
    let chip = disk.into_inner();
    match written {
        Ok(()) => Ok(chip.into_inner()),
        Err(error) => Err(told_of_disk(error)),
    }
}

/// Replaces sectors of the chip behind the programmer at a place by the bytes of `reader`, as
/// `run_write` does of an image, but one after another on the chip itself: after a fault some are
/// replaced, and each is wholly old or new. All of the input is read before the first is.
///
/// `ImageFailed` with a `ChipCause` where the programmer can't be used, or the chip left the model;
/// else the faults of `run_write`.
pub fn run_write_chip<R, S, K>(
    rt: &R,
    place: ProgrammerPlace<'_>,
    sectors: Option<&str>,
    reader: &mut S,
    writer: &mut K,
) -> Result<(), Fault>
where
    R: Files + AllocGlobal + Clock + Log + Screen + Net<Stream = TcpStream>,
    R: 'static,
    S: Source,
    K: Sink,
    ensures told { WriteTells (K.written writer.old) (K.faults writer.old) result
        (K.written writer.new) (K.faults writer.new) }
    ensures end { OnOk result (IsAtEnd (S.remaining reader.new)) }
{
    let noted = Noted::new();
    write_chip(rt, place, &noted, sectors, reader, writer)
}

/// Replaces sectors of the chip behind the programmer at a place, whose departures are noted.
fn write_chip<'r, 'p, 'n, R, S, K>(
    rt: &'r R,
    place: ProgrammerPlace<'p>,
    noted: &'n Noted,
    sectors: Option<&str>,
    reader: &mut S,
    writer: &mut K,
) -> Result<(), Fault>
where
    R: Files + AllocGlobal + Clock + Log + Screen + Net<Stream = TcpStream>,
    R: 'static,
    S: Source,
    K: Sink,
    ensures told { WriteTells (K.written writer.old) (K.faults writer.old) result
        (K.written writer.new) (K.faults writer.new) }
    ensures end { OnOk result (IsAtEnd (S.remaining reader.new)) }
{
    match disk_behind(rt, place, false, noted, TidyPolicy::Lazily, None) {
        Ok(disk) => write_disk(rt, disk, noted, sectors, reader, writer),
        Err(fault) => Err(fault),
    }
}

/// Replaces sectors of a disk on a chip whose departures are noted.
fn write_disk<R, D, S, K>(
    rt: &R,
    disk: D,
    noted: &Noted,
    sectors: Option<&str>,
    reader: &mut S,
    writer: &mut K,
) -> Result<(), Fault>
where
    R: AllocGlobal + Clock + Screen,
    D: Disk + Drop,
    S: Source,
    K: Sink,
    requires ready { IsDiskReady (D.facts disk) }
    requires sound { (D.facts disk).sound ≡ true }
    ensures told { WriteTells (K.written writer.old) (K.faults writer.old) result
        (K.written writer.new) (K.faults writer.new) }
    ensures end { OnOk result (IsAtEnd (S.remaining reader.new)) }
{
    let mut disk = disk;
    let part = part_of(&disk, sectors)?;
    let before = replacing_text(rt.alloc(), part);
    if let Err(fault) = tell(writer, before) {
        return Err(fault);
    }
    if let Err(fault) = put_part(rt, &mut disk, noted, part, reader) {
        return Err(fault);
    }
    let after = written_text(rt.alloc(), part);
    tell(writer, after)
}

/// Replaces a part of a disk on a chip whose departures are noted by the bytes of a stream.
fn put_part<R, D, S>(
    rt: &R,
    disk: &mut D,
    noted: &Noted,
    part: Part,
    reader: &mut S,
) -> Result<(), Fault>
where
    R: AllocGlobal + Clock + Screen,
    D: Disk,
    S: Source,
    requires some { part.first < part.end }
    requires few { part.end ≤ 65536 }
    requires range { 512 * part.end ≤ length (D.facts disk.old).contents }
    requires ready { IsDiskReady (D.facts disk.old) }
    requires sound { (D.facts disk.old).sound ≡ true }
    ensures replaced { OnOk result ((bytes : List ℕ)
        × Consumes (S.remaining reader.old) (S.remaining reader.new) bytes
        × ((D.facts disk.new).contents
        ≡ replaced (D.facts disk.old).contents (512 * part.first) bytes)) }
    ensures end { OnOk result (IsAtEnd (S.remaining reader.new)) }
    ensures refused { IfErr result MoveFails }
{
    let bytes = receive_part(rt.alloc(), reader, part)?;
    match put_sectors(disk, part.first, bytes.as_slice(), &mut Meter::new(rt)) {
        Ok(()) => Ok(()),
        Err(DiskError::Cut) => Err(Fault::ImageFailed(Cause::Chip(noted.cause()))),
        Err(error) => Err(told_of_disk(error)),
    }
}
