//! `check --against`: which sectors of an image differ from those of an older copy of it.
ghost use Rattle.std.specs.Prelude.{◌≡◌, ◌≤◌, ◌⊎◌, IfErr, IfOk, IsErr, length};
ghost use Rattle.chip_model.specs.Geometry.{IsChipSize};
ghost use Rattle.flash_disk.specs.Contents.{contents_of};
ghost use Rattle.norbd_run.specs.Comparing.{DiffersIn, EndsBeside, IsUncompared};
ghost use Rattle.norbd_run.specs.Listening.{IsRefusal};

use crate::check::{Checked, How, Looked, line_about};
use crate::image_disk::{bytes_of, hold_image};
use crate::read::sectors_of_image;
use norbd_image::ImageFile;
use norbd_line::{Cause, Fault};
use norbd_transfer::differing_sectors;
use std::alloc::{AllocError, Global};
use std::fmt;
use std::rt::Files;

/// The numbers of sectors in ascending order, as runs: `3, 7 to 9`, or for programs
/// `[[3,3],[7,9]]`.
#[derive(Drop)]
struct Runs<'a> {
    numbers: &'a [u32],
    json: bool,
}

impl Runs<'_> {
    /// One run, of which another goes before where `first` isn't set.
    fn write_run<W: fmt::Write>(
        &self,
        f: &mut fmt::Formatter<W>,
        from: u32,
        to: u32,
        first: bool,
    ) -> fmt::Result {
        if self.json {
            f.write_str(if first { "" } else { "," })?;
            return write!(f, "[{from},{to}]");
        }
        f.write_str(if first { "" } else { ", " })?;
        if from == to {
            write!(f, "{from}")
        } else {
            write!(f, "{from} to {to}")
        }
    }
}

impl fmt::Display for Runs<'_> {
    fn fmt<W: fmt::Write>(&self, f: &mut fmt::Formatter<W>) -> fmt::Result {
        let Some(&least) = self.numbers.first() else {
            return Ok(());
        };
        let mut from = least;
        let mut last = least;
        for &number in self.numbers {
            if number > last.saturating_add(1) {
                self.write_run(f, from, last, from == least)?;
                from = number;
            }
            last = number;
        }
        self.write_run(f, from, last, from == least)
    }
}

/// The bytes of the older copy in the file at a path. `ImageFailed` with `Dump` where it can't be
/// read.
fn dump_at<R>(rt: &R, path: &str) -> Result<Vec<u8>, Fault>
where
    R: Files + AllocGlobal,
    R::File: ImageFile,
    ensures size { IfOk result (λ bytes. IsChipSize (length bytes.items)) }
    ensures refused { IfErr result IsRefusal }
{
    let Ok(held) = hold_image(rt, path, false) else {
        return Err(Fault::ImageFailed(Cause::Dump));
    };
    match bytes_of(rt, &held) {
        Ok(bytes) => Ok(bytes),
        Err(Fault::NoMemory) => Err(Fault::NoMemory),
        Err(_) => Err(Fault::ImageFailed(Cause::Dump)),
    }
}

/// The bytes of the disk on a chip of these bytes. `ImageFailed` with this cause where it wouldn't
/// be served.
fn disk_of(alloc: Global, chip: Vec<u8>, cause: Cause) -> Result<Vec<u8>, Fault>
    requires size { IsChipSize (length chip.items) }
    ensures bytes { IfOk result (λ bytes. bytes.items ≡ contents_of chip.items) }
    ensures refused { IfErr result (λ e. (e ≡ Fault.NoMemory) ⊎ (e ≡ Fault.ImageFailed cause)) }
{
    match sectors_of_image(alloc, chip, None) {
        Ok(bytes) => Ok(bytes),
        Err(Fault::NoMemory) => Err(Fault::NoMemory),
        Err(_) => Err(Fault::ImageFailed(cause)),
    }
}

/// The numbers of the sectors in which the disks of two chips differ. `ImageFailed` with `DumpSize`
/// where the second has another size, with `Dump` where it wouldn't be served.
fn differing_of(alloc: Global, image: Vec<u8>, dump: Vec<u8>) -> Result<Vec<u32>, Fault>
    requires size { IsChipSize (length image.items) }
    requires other { IsChipSize (length dump.items) }
    ensures numbers { IfOk result (λ numbers. DiffersIn image.items dump.items numbers.items) }
    ensures few { IfOk result (λ numbers. length numbers.items ≤ 65536) }
    ensures refused { IfErr result (IsUncompared image.items dump.items) }
{
    if image.len() != dump.len() {
        return Err(Fault::ImageFailed(Cause::DumpSize));
    }
    let these = disk_of(alloc, image, Cause::Read)?;
    let those = disk_of(alloc, dump, Cause::Dump)?;
    match differing_sectors(alloc, these.as_slice(), those.as_slice()) {
        Ok(numbers) => Ok(numbers),
        Err(_) => Err(Fault::NoMemory),
    }
}

/// The line about the sectors that differ.
fn text_about(
    alloc: Global,
    numbers: &[u32],
    name: &str,
    json: bool,
) -> Result<String, AllocError> {
    let runs = Runs { numbers, json };
    if json {
        return format!(in alloc; "{{\"version\":1,\"differing\":[{runs}]}}\n");
    }
    if numbers.is_empty() {
        format!(in alloc; "no sector differs from {name}\n")
    } else {
        format!(in alloc; "differ from {name}: sectors {runs}\n")
    }
}

/// What is found of an image, and where it is clean of the older copy in the file at a path beside
/// it. It ends with `Differs` where a sector differs, and with the fault of a copy that is none.
pub(crate) fn compared<R>(
    rt: &R,
    looked: Looked,
    image: Vec<u8>,
    dump: &str,
    how: How,
) -> Result<Looked, Fault>
where
    R: Files + AllocGlobal,
    R::File: ImageFile,
    requires size { IsChipSize (length image.items) }
    requires end { IfErr looked.end IsRefusal }
    ensures end { IfOk result (λ l. IfErr l.end IsRefusal) }
    ensures clean { IfOk result (λ l. IfOk l.end (λ checked. looked.end ≡ Ok checked)) }
    ensures same { IsErr looked.end → result ≡ Ok looked }
    ensures refused { IfErr result (λ e. e ≡ Fault.NoMemory) }
{
    let Looked { text, end } = looked;
    let Ok(checked) = end else {
        return Ok(Looked { text, end });
    };
    let copy = dump_at(rt, dump);
    told_beside(rt.alloc(), text, checked, image, copy, dump, how)
}

/// What is found of a clean image, and of the sectors in which it differs from the copy of this
/// name, where there is one.
fn told_beside(
    alloc: Global,
    text: String,
    checked: Checked,
    image: Vec<u8>,
    dump: Result<Vec<u8>, Fault>,
    name: &str,
    how: How,
) -> Result<Looked, Fault>
    requires size { IsChipSize (length image.items) }
    requires other { IfOk dump (λ d. IsChipSize (length d.items)) }
    ensures end { IfOk result (λ l. IfOk dump (λ d.
        EndsBeside checked image.items d.items l.end)) }
    ensures none { IfOk result (λ l. IfErr dump (λ e. l.end ≡ Err e)) }
    ensures refused { IfErr result (λ e. e ≡ Fault.NoMemory) }
{
    let differing = match dump {
        Ok(dump) => differing_of(alloc, image, dump),
        Err(fault) => Err(fault),
    };
    let numbers = match differing {
        Ok(numbers) => numbers,
        Err(fault) => return failed(alloc, text, checked, fault, how),
    };
    let mut text = text;
    let Ok(line) = text_about(alloc, numbers.as_slice(), name, how.json) else {
        return Err(Fault::NoMemory);
    };
    if text.push_str(line.as_str()).is_err() {
        return Err(Fault::NoMemory);
    }
    if numbers.is_empty() {
        let end = Ok(checked);
        return Ok(Looked { text, end });
    }
    let fault = Fault::ImageFailed(Cause::Differs(numbers.len() as u32));
    failed(alloc, text, checked, fault, how)
}

/// What is found of a clean image of which the comparison failed; if it was mended, that is told.
fn failed(
    alloc: Global,
    text: String,
    checked: Checked,
    fault: Fault,
    how: How,
) -> Result<Looked, Fault>
    ensures end { IfOk result (λ looked. looked.end ≡ Err fault) }
    ensures refused { IfErr result (λ e. e ≡ Fault.NoMemory) }
{
    let mut text = text;
    if checked.mended {
        let Ok(line) = line_about(alloc, checked, how.json) else {
            return Err(Fault::NoMemory);
        };
        if text.push_str(line.as_str()).is_err() {
            return Err(Fault::NoMemory);
        }
    }
    Ok(Looked {
        text,
        end: Err(fault),
    })
}
