//! `read`: the sectors of a disk, without a server.
ghost use Rattle.std.specs.Prelude.{◌*◌, ◌-◌, ◌<◌, ◌≡◌, ◌≤◌, ℕ, IfErr, IfOk, List, None, length};
ghost use Rattle.std.specs.Prelude.{true};
ghost use Rattle.block_device.specs.Contents.{bytes_at};
ghost use Rattle.chip_model.specs.Geometry.{IsChipSize};
ghost use Rattle.sector_map.specs.Maps.{IsMountable};
ghost use Rattle.flash_disk.specs.Contents.{contents_of};
ghost use Rattle.norbd_run.specs.Moving.{MoveFails, ReadTells, WritesBytes};
ghost use Rattle.norbd_run.specs.Opening.{IsReason};

use crate::chip_disk::bytes_behind;
use crate::image_disk::{copied_disk, hold_image};
use crate::image_log::looked_through;
use block_device::{Disk, DiskError, Sink, send};
use erase_journal::Firmness;
use norbd_image::ImageFile;
use norbd_line::{Cause, Fault};
use norbd_serve::Log;
use norbd_transfer::{Part, TransferError, range_in, take_sectors};
use serprog_link::ProgrammerPlace;
use std::alloc::Global;
use std::net::{Net, TcpStream};
use std::rt::Files;
use std::time::Clock;

/// Writes the sectors of the image in the file at a path to `writer`: the whole disk, or the part
/// that `sectors` writes. The file stays as it is.
///
/// `BadRange` where the text is no part of the disk; `InUse` where another process has the image,
/// `ImageFailed` where it can't be opened or read, `BadImageSize`, the refusals of a mount,
/// `NotClean`; `NoMemory` where there is none for the chip and its sectors. `OutputFailed` where
/// the sectors could not be written.
pub fn run_read<R, K>(
    rt: &R,
    path: &str,
    sectors: Option<&str>,
    writer: &mut K,
) -> Result<(), Fault>
where
    R: Files + AllocGlobal,
    R::File: ImageFile,
    K: Sink,
    ensures { ReadTells (K.written writer.old) (K.faults writer.old) result
        (K.written writer.new) (K.faults writer.new) }
{
    let held = hold_image(rt, path, false)?;
    let through = looked_through(rt, path, &held)?;
    let bytes = sectors_of_image(rt.alloc(), through.bytes, sectors)?;
    send_bytes(writer, bytes.as_slice())
}

/// Writes the sectors of the chip behind the programmer at a place to `writer`, as `run_read` does
/// of an image: nothing of it is changed.
pub fn run_read_chip<R, K>(
    rt: &R,
    place: ProgrammerPlace<'_>,
    sectors: Option<&str>,
    writer: &mut K,
) -> Result<(), Fault>
where
    R: Files + AllocGlobal + Clock + Log + Net<Stream = TcpStream>,
    K: Sink,
    ensures { ReadTells (K.written writer.old) (K.faults writer.old) result
        (K.written writer.new) (K.faults writer.new) }
{
    let image = bytes_behind(rt, place)?;
    let bytes = sectors_of_image(rt.alloc(), image, sectors)?;
    send_bytes(writer, bytes.as_slice())
}

/// The bytes of a part of the disk that these bytes of a chip represent.
pub(crate) fn sectors_of_image(
    alloc: Global,
    image: Vec<u8>,
    sectors: Option<&str>,
) -> Result<Vec<u8>, Fault>
    requires size { IsChipSize (length image.items) }
    ensures mountable { IfOk result (λ _. IsMountable image.items) }
    ensures bytes { IfOk result (λ bytes. (first : ℕ) × (end : ℕ) × (first < end)
        × (512 * end ≤ length (contents_of image.items))
        × (bytes.items ≡ bytes_at (contents_of image.items) (512 * first) (512 * (end - first)))) }
    ensures whole { sectors.entry ≡ None
        → IfOk result (λ bytes. bytes.items ≡ contents_of image.items) }
    ensures refused { IfErr result MoveFails }
    ensures reason { IfErr result (λ e. IsReason e image.items) }
{
    let mut disk = copied_disk(alloc, image, Firmness::Steady)?;
    let part = part_of(&disk, sectors)?;
    sectors_of_disk(alloc, &mut disk, part)
}

/// The part of a disk that a text writes.
pub(crate) fn part_of<D: Disk>(disk: &D, sectors: Option<&str>) -> Result<Part, Fault>
    ensures part { IfOk result (λ part.
        (part.first < part.end) × (part.end ≤ 65536) × (512 * part.end
        ≤ length (D.facts disk.now).contents)) }
    ensures whole { sectors.entry ≡ None → IfOk result (λ part.
        (part.first ≡ 0) × (512 * part.end ≡ length (D.facts disk.now).contents)) }
    ensures refused { IfErr result MoveFails }
    ensures reason { IfErr result (λ e. (m : List ℕ) → IsReason e m) }
{
    let count = disk.sectors();
    if count == 0 || count > 65_536 {
        return Err(Fault::BadRange(count));
    }
    match range_in(sectors, count) {
        Some(part) => Ok(part),
        None => Err(Fault::BadRange(count)),
    }
}

/// The bytes of a part of a disk.
pub(crate) fn sectors_of_disk<D: Disk>(
    alloc: Global,
    disk: &mut D,
    part: Part,
) -> Result<Vec<u8>, Fault>
    requires some { part.first < part.end }
    requires range { 512 * part.end ≤ length (D.facts disk.old).contents }
    requires sound { (D.facts disk.old).sound ≡ true }
    ensures bytes { IfOk result (λ bytes. bytes.items ≡ bytes_at (D.facts disk.old).contents
        (512 * part.first) (512 * (part.end - part.first))) }
    ensures refused { IfErr result MoveFails }
    ensures reason { IfErr result (λ e. (m : List ℕ) → IsReason e m) }
{
    match take_sectors(alloc, disk, part.first, part.end - part.first) {
        Ok(bytes) => Ok(bytes),
        Err(TransferError::OutOfMemory) => Err(Fault::NoMemory),
        Err(TransferError::Disk(error)) => Err(told_of_disk(error)),
    }
}

/// What an error of a disk is for the program.
pub(crate) fn told_of_disk(error: DiskError) -> Fault
    ensures refused { MoveFails result }
    ensures reason { (m : List ℕ) → IsReason result m }
{
    match error {
        DiskError::Cut => Fault::ImageFailed(Cause::Write),
        DiskError::Slow => Fault::Slow,
    }
}

/// Writes bytes.
pub(crate) fn send_bytes<K: Sink>(writer: &mut K, bytes: &[u8]) -> Result<(), Fault>
    ensures { WritesBytes bytes.now (K.written writer.old) (K.faults writer.old) result
        (K.written writer.new) (K.faults writer.new) }
{
    match send(writer, bytes) {
        Ok(()) => Ok(()),
        Err(_) => Err(Fault::OutputFailed),
    }
}
