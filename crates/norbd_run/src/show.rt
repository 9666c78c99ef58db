//! `show`: a picture of the blocks of a chip.
ghost use Rattle.std.specs.Prelude.{◌≡◌, IfErr, IfOk, OnOk, false, length};
ghost use Rattle.chip_model.specs.Geometry.{IsChipSize};
ghost use Rattle.norbd_run.specs.Listening.{IsRefusal};
ghost use Rattle.norbd_run.specs.Showing.{ShowTells};
ghost use Rattle.sector_map.specs.Maps.{IsMountable};

use crate::check::{report_about, told_of_unexamined};
use crate::chip_disk::bytes_behind;
use crate::image_disk::hold_image;
use crate::image_log::{looked_through, tell_log};
use crate::read::send_bytes;
use block_device::Sink;
use norbd_image::ImageFile;
use norbd_line::Fault;
use norbd_serve::Log;
use norbd_survey::Picture;
use sector_survey::{Report, Verdict};
use serprog_link::ProgrammerPlace;
use std::alloc::Global;
use std::net::{Net, TcpStream};
use std::rt::Files;
use std::time::Clock;

/// The picture of an image, and whether it is a corrupt one's.
#[derive(Drop)]
pub(crate) struct Drawn {
    text: String,
    corrupt: bool,
}

/// Draws the blocks of the image in the file at a path on `writer`, with `colours` in those of a
/// terminal. The file stays as it is.
///
/// `InUse` where another process has the image, `ImageFailed` where it can't be opened or read,
/// `BadImageSize`, `NotFormatted`; `Corrupt` where it is, after the picture, but where its journals
/// are, since its blocks aren't known then; `NoMemory`. `OutputFailed` where the picture could not
/// be written.
pub fn run_show<R, K>(rt: &R, path: &str, colours: bool, writer: &mut K) -> Result<(), Fault>
where
    R: Files + AllocGlobal,
    R::File: ImageFile,
    K: Sink,
    ensures { ShowTells (K.written writer.old) (K.faults writer.old) result
        (K.written writer.new) (K.faults writer.new) }
{
    let drawn = picture_of_file(rt, path, colours)?;
    show_drawn(drawn, writer)
}

/// Writes a picture; a corrupt image's is a fault afterwards.
#[tactic(auto, using(crate::proofs::Lines::shown, crate::proofs::Lines::corrupt_shown))]
fn show_drawn<K: Sink>(drawn: Drawn, writer: &mut K) -> Result<(), Fault>
    ensures told { ShowTells (K.written writer.old) (K.faults writer.old) result
        (K.written writer.new) (K.faults writer.new) }
    ensures sound { OnOk result (drawn.corrupt ≡ false) }
{
    if let Err(fault) = send_bytes(writer, drawn.text.as_bytes()) {
        return Err(fault);
    }
    if drawn.corrupt {
        return Err(Fault::Corrupt);
    }
    Ok(())
}

/// The picture of the image in a file, which no other process has meanwhile.
fn picture_of_file<R>(rt: &R, path: &str, colours: bool) -> Result<Drawn, Fault>
where
    R: Files + AllocGlobal,
    R::File: ImageFile,
    ensures { IfErr result IsRefusal }
{
    let held = hold_image(rt, path, false)?;
    let through = looked_through(rt, path, &held)?;
    let mut drawn = picture_of(rt.alloc(), through.bytes.as_slice(), colours)?;
    match tell_log(rt.alloc(), &mut drawn.text, through.log_len) {
        Ok(()) => Ok(drawn),
        Err(_) => Err(Fault::NoMemory),
    }
}

/// The picture of the bytes of an image.
pub(crate) fn picture_of(alloc: Global, image: &[u8], colours: bool) -> Result<Drawn, Fault>
    requires { IsChipSize (length image.now) }
    ensures healthy { IfOk result (λ drawn. drawn.corrupt ≡ false → IsMountable image.now) }
    ensures refused { IfErr result IsRefusal }
{
    let report = match report_about(alloc, image) {
        Ok(report) => report,
        Err(error) => return Err(told_of_unexamined(error)),
    };
    match report.verdict {
        Verdict::NotFormatted => Err(Fault::NotFormatted),
        Verdict::Corrupt(_) => draw(alloc, &report, true, colours),
        Verdict::Mountable(_) => draw(alloc, &report, false, colours),
    }
}

/// The picture of an image that is corrupt or not, of which this was reported.
fn draw(alloc: Global, report: &Report, corrupt: bool, colours: bool) -> Result<Drawn, Fault>
    ensures corrupt { IfOk result (λ drawn. drawn.corrupt ≡ corrupt) }
    ensures refused { IfErr result IsRefusal }
{
    let Some(blocks) = &report.blocks else {
        return Err(Fault::Corrupt);
    };
    let picture = Picture {
        blocks: blocks.as_slice(),
        colours,
    };
    match format!(in alloc; "{picture}") {
        Ok(text) => Ok(Drawn { text, corrupt }),
        Err(_) => Err(Fault::NoMemory),
    }
}

/// Draws the blocks of the chip behind the programmer at a place on `writer`, as `run_show` does of
/// an image: nothing of it is changed.
pub fn run_show_chip<R, K>(
    rt: &R,
    place: ProgrammerPlace<'_>,
    colours: bool,
    writer: &mut K,
) -> Result<(), Fault>
where
    R: Files + AllocGlobal + Clock + Log + Net<Stream = TcpStream>,
    K: Sink,
    ensures { ShowTells (K.written writer.old) (K.faults writer.old) result
        (K.written writer.new) (K.faults writer.new) }
{
    let bytes = bytes_behind(rt, place)?;
    let drawn = picture_of(rt.alloc(), bytes.as_slice(), colours)?;
    show_drawn(drawn, writer)
}
