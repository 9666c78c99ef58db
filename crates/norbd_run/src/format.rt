//! `format`: the file of a formatted chip, and the chip behind a programmer.
ghost use Rattle.std.specs.Prelude.{◌*◌, ◌≡◌, IfOk, OnOk, string_bytes, true};
ghost use Rattle.chip_model.specs.Geometry.{IsChipSize};
ghost use Rattle.norbd_run.specs.Formatting.{FormatTells, text_about, told_as};

use crate::chip_disk::{Reporter, told_of_chip};
use crate::image_log::drop_log;
use crate::read::send_bytes;
use block_device::Sink;
use chip_model::Geometry;
use nor_driver::ProbeError;
use norbd_chip::{Noted, format_chip};
use norbd_image::{ImageError, ImageFile, formatted_image, write_image};
use norbd_line::{Cause, Fault};
use norbd_serve::Log;
use serprog_link::ProgrammerPlace;
use std::alloc::{AllocError, Global};
use std::net::{Net, TcpStream};
use std::rt::Files;
use std::time::Clock;

/// Makes the file at a path the bytes of a formatted chip of so many KiB, and then writes to
/// `writer` how many sectors it has.
///
/// `NoMemory` where there is no memory for the chip or a text; `InUse` where another process serves
/// or formats the file, `Formatted` where it holds a formatted chip and `force` isn't set,
/// `NotEmpty` where it holds anything else, `ImageFailed` where it can't be had: the file is then
/// as it was. `OutputFailed` where a write failed; the file is there then. A chip in memory gives
/// none of the other faults.
pub fn run_format<R, K>(
    rt: &R,
    path: &str,
    kib: u32,
    force: bool,
    writer: &mut K,
) -> Result<(), Fault>
where
    R: Files + AllocGlobal,
    R::File: ImageFile,
    K: Sink,
    requires { IsChipSize (1024 * kib) }
    ensures { FormatTells kib (K.written writer.old) (K.faults writer.old) result
        (K.written writer.new) (K.faults writer.new) }
{
    let Ok(text) = text_about(rt.alloc(), kib) else {
        return Err(Fault::NoMemory);
    };
    if let Err(error) = make_image(rt, path, kib, force) {
        return Err(told_as(error));
    }
    send_bytes(writer, text.as_bytes())
}

/// The line about a formatted chip of so many KiB.
pub(crate) fn text_about(alloc: Global, kib: u32) -> Result<String, AllocError>
    requires { IsChipSize (1024 * kib) }
    ensures { IfOk result (λ text. string_bytes text ≡ text_about kib) }
{
    let Some(chip) = Geometry::of(1024 * kib) else {
        unreachable!()
    };
    let sectors = chip.sectors;
    format!(in alloc; "formatted {sectors} sectors\n")
}

/// Formats a chip of so many KiB in memory, and makes the file at a path its bytes.
fn make_image<R>(rt: &R, path: &str, kib: u32, force: bool) -> Result<(), ImageError>
where
    R: Files + AllocGlobal,
    R::File: ImageFile,
    requires { IsChipSize (1024 * kib) }
{
    let image = formatted_image(rt.alloc(), kib)?;
    write_image(rt, path, image.as_slice(), force)?;
    drop_log(rt, path, image);
    Ok(())
}

/// What a fault of an image is for the program.
pub(crate) fn told_as(error: ImageError) -> Fault
    ensures { result ≡ told_as error }
{
    match error {
        ImageError::OutOfMemory => Fault::NoMemory,
        ImageError::File(kind) => Fault::ImageFailed(Cause::System(kind)),
        ImageError::NotAFile => Fault::ImageFailed(Cause::NotAFile),
        ImageError::InUse => Fault::InUse,
        ImageError::Formatted => Fault::Formatted,
        ImageError::NotEmpty => Fault::NotEmpty,
        ImageError::Refused(ProbeError::Cut) => Fault::ImageFailed(Cause::Write),
        ImageError::Refused(ProbeError::Slow) => Fault::Slow,
        ImageError::Refused(ProbeError::WrongId) => Fault::WrongId,
        ImageError::Refused(ProbeError::Sfdp(_)) => Fault::BadSfdp,
        ImageError::Refused(ProbeError::Protected) => Fault::Protected,
    }
}

/// Formats the chip of so many KiB behind the programmer at a place, if `sure` is set, and then
/// writes to `writer` how many sectors it has.
///
/// `ImageFailed` with a `ChipCause` where the programmer can't be used, the chip has another size
/// or leaves the model; the refusals of a mount, of which `BadSfdp`, `WrongId`, `Protected` and
/// `Slow` come; `NoMemory`. `OutputFailed` where a write failed; the chip is formatted then.
pub fn run_format_chip<R, K>(
    rt: &R,
    place: ProgrammerPlace<'_>,
    kib: u32,
    sure: bool,
    writer: &mut K,
) -> Result<(), Fault>
where
    R: Files + AllocGlobal + Clock + Log + Net<Stream = TcpStream>,
    K: Sink,
    requires { IsChipSize (1024 * kib) }
    ensures tells { FormatTells kib (K.written writer.old) (K.faults writer.old) result
        (K.written writer.new) (K.faults writer.new) }
    ensures sure { OnOk result (sure ≡ true) }
{
    let Ok(text) = text_about(rt.alloc(), kib) else {
        return Err(Fault::NoMemory);
    };
    let noted = Noted::new();
    match format_chip(rt, Reporter { rt }, rt.alloc(), place, kib, sure, &noted) {
        Ok(_) => {}
        Err(fault) => return Err(told_of_chip(fault)),
    }
    send_bytes(writer, text.as_bytes())
}
