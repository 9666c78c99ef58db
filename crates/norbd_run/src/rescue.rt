//! `rescue`: the sectors that can still be told of a damaged image.
ghost use Rattle.std.specs.Prelude.{◌≡◌, IfErr, IfOk, length};
ghost use Rattle.chip_model.specs.Geometry.{IsChipSize};
ghost use Rattle.flash_disk.specs.Contents.{contents_of};
ghost use Rattle.norbd_run.specs.Moving.{MoveFails};
ghost use Rattle.norbd_run.specs.Opening.{IsReason};
ghost use Rattle.norbd_run.specs.Rescuing.{EndsWith, IsDamage, RescueFails, RescueTells};
ghost use Rattle.norbd_run.specs.Rescuing.{SavesFrom, WritesRescued};
ghost use Rattle.sector_map.specs.Maps.{IsMountable};

use crate::image_disk::hold_image;
use crate::image_log::looked_through;
use crate::progress::Screen;
use crate::read::{sectors_of_image, send_bytes};
use block_device::Sink;
use norbd_image::ImageFile;
use norbd_line::Fault;
use norbd_survey::Doubtful;
use sector_rescue::{Doubt, Rescued, rescue};
use std::alloc::Global;
use std::rt::Files;

/// What is given of an image: the bytes of its disk, what is doubtful of them, and the end: the
/// refusal of what is on its chip where it is refused.
#[derive(Drop)]
pub(crate) struct Saved {
    bytes: Vec<u8>,
    doubts: Vec<Doubt>,
    end: Result<(), Fault>,
}

/// Writes the sectors of the image in the file at a path to `writer`, the whole disk: where
/// `run_read` would, as it does; else what its slots tell, and what is doubtful of that to standard
/// error. The file stays as it is.
///
/// `NotFormatted`, `Corrupt` and `NotClean` where `run_read` answers so, after the sectors are
/// written; its other faults come before anything is.
pub fn run_rescue<R, K>(rt: &R, path: &str, writer: &mut K) -> Result<(), Fault>
where
    R: Files + AllocGlobal + Screen,
    R::File: ImageFile,
    K: Sink,
    ensures { RescueTells (K.written writer.old) (K.faults writer.old) result
        (K.written writer.new) (K.faults writer.new) }
{
    let held = hold_image(rt, path, false)?;
    let image = looked_through(rt, path, &held)?.bytes;
    write_rescued(rt, image.as_slice(), writer)
}

/// Writes what is given of the bytes of an image, and tells what is doubtful of that.
#[tactic(auto, using(crate::proofs::Lines::rescue_written, crate::proofs::Lines::rescue_told))]
fn write_rescued<R, K>(rt: &R, image: &[u8], writer: &mut K) -> Result<(), Fault>
where
    R: AllocGlobal + Screen,
    K: Sink,
    requires { IsChipSize (length image.now) }
    ensures writes { WritesRescued image.now (K.written writer.old) (K.faults writer.old) result
        (K.written writer.new) (K.faults writer.new) }
    ensures tells { RescueTells (K.written writer.old) (K.faults writer.old) result
        (K.written writer.new) (K.faults writer.new) }
{
    let saved = saved_of(rt.alloc(), image)?;
    tell_doubts(rt, image, saved.doubts.as_slice());
    write_saved(saved, writer)
}

/// Tells what is doubtful of an image.
fn tell_doubts<R: Screen>(rt: &R, image: &[u8], doubts: &[Doubt]) {
    for doubt in doubts {
        rt.doubt(Doubtful {
            doubt: *doubt,
            image,
        });
    }
}

/// Writes the bytes that are given of an image.
fn write_saved<K: Sink>(saved: Saved, writer: &mut K) -> Result<(), Fault>
    ensures { EndsWith saved.end saved.bytes.items (K.written writer.old) (K.faults writer.old)
        result (K.written writer.new) (K.faults writer.new) }
{
    let Saved { bytes, end, .. } = saved;
    if let Err(fault) = send_bytes(writer, bytes.as_slice()) {
        return Err(fault);
    }
    end
}

/// What is given of the bytes of an image.
fn saved_of(alloc: Global, image: &[u8]) -> Result<Saved, Fault>
    requires { IsChipSize (length image.now) }
    ensures saves { IfOk result (λ saved. SavesFrom image.now saved.end saved.bytes.items
        saved.doubts.items) }
    ensures refused { IfErr result RescueFails }
{
    match mounted(alloc, image) {
        Ok(bytes) => Ok(Saved {
            bytes,
            doubts: Vec::new(alloc),
            end: Ok(()),
        }),
        Err(Fault::Corrupt) => gathered(alloc, image, Fault::Corrupt),
        Err(Fault::NotFormatted) => gathered(alloc, image, Fault::NotFormatted),
        Err(Fault::NotClean) => gathered(alloc, image, Fault::NotClean),
        Err(fault) => Err(fault),
    }
}

/// The bytes of the disk of an image that a mount accepts.
fn mounted(alloc: Global, image: &[u8]) -> Result<Vec<u8>, Fault>
    requires { IsChipSize (length image.now) }
    ensures mountable { IfOk result (λ _. IsMountable image.now) }
    ensures whole { IfOk result (λ bytes. bytes.items ≡ contents_of image.now) }
    ensures refused { IfErr result MoveFails }
    ensures reason { IfErr result (λ e. IsReason e image.now) }
{
    let Ok(copy) = image.to_vec(alloc) else {
        return Err(Fault::NoMemory);
    };
    match sectors_of_image(alloc, copy, None) {
        Ok(bytes) => Ok(bytes),
        Err(fault) => Err(fault),
    }
}

/// What the slots of an image tell whose chip is refused by this fault.
fn gathered(alloc: Global, image: &[u8], fault: Fault) -> Result<Saved, Fault>
    requires size { IsChipSize (length image.now) }
    requires reason { IsReason fault image.now }
    requires damage { IsDamage fault }
    ensures saves { IfOk result (λ saved. SavesFrom image.now saved.end saved.bytes.items
        saved.doubts.items) }
    ensures refused { IfErr result RescueFails }
{
    match rescue(alloc, image) {
        Ok(Rescued { sectors, doubts }) => Ok(Saved {
            bytes: sectors,
            doubts,
            end: Err(fault),
        }),
        Err(_) => Err(Fault::NoMemory),
    }
}
