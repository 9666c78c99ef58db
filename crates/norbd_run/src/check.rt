//! `check`: whether the chip in an image, or behind a programmer, would be served, and if not, why;
//! and the mending of an image that isn't clean.
ghost use Rattle.std.specs.Prelude.{◌≡◌, ℕ, IfErr, IfOk, List, false, length, string_bytes, true};
ghost use Rattle.chip_model.specs.Geometry.{IsChipSize, sector_count};
ghost use Rattle.norbd_run.specs.Checking.{CheckTells, IsMendedOf, last_text};
ghost use Rattle.norbd_run.specs.Listening.{IsRefusal};
ghost use Rattle.norbd_run.specs.Opening.{IsCheckedClean, IsReason};
ghost use Rattle.sector_survey.specs.Reports.{IsReportOf};

use crate::against::compared;
use crate::chip_disk::bytes_and_status;
use crate::format::told_as;
use crate::image_disk::{bytes_of, copied_disk, hold_image};
use crate::image_log::{looked_through, take_up, tell_log};
use crate::protected::with_protection;
use crate::read::send_bytes;
use crate::serve::{tell, told_of_mount};
use block_device::Sink;
use chip_model::Geometry;
use erase_journal::Firmness;
use norbd_image::{Held, ImageFile, mended_image, rewrite_image};
use norbd_line::{Cause, ChipCause, Fault};
use norbd_serve::Log;
use norbd_survey::{Json, Page, Reason, first_dirty};
use sector_survey::{
    Cleanness, Report, Unexamined, Verdict, survey_image, with_free_groups_erased,
};
use serprog_link::ProgrammerPlace;
use std::alloc::{AllocError, Global};
use std::net::{Net, TcpStream};
use std::rt::Files;
use std::time::Clock;

/// An image that would be served: its sectors, and whether it was mended for that.
#[derive(Clone, Copy)]
pub(crate) struct Checked {
    pub(crate) sectors: u32,
    pub(crate) mended: bool,
}

/// What was found of an image: the report as a text, and its end.
#[derive(Drop)]
pub(crate) struct Looked {
    pub(crate) text: String,
    pub(crate) end: Result<Checked, Fault>,
}

/// What a check is to do: to mend the image, and to tell it to programs.
#[derive(Clone, Copy)]
pub(crate) struct How {
    pub(crate) mend: bool,
    pub(crate) json: bool,
}

/// Says on `writer` whether the image in the file at a path would be served: a report, in JSON
/// where `json` is set, and where it would be a line with its sectors. The file stays as it is, and
/// need not be one that this process may write, but that with `mend` an image that isn't clean is
/// replaced as a whole by a clean one of the same sectors. One that is clean then is compared with
/// the older copy in the file at the path `against`, where there is one.
///
/// `InUse` where another process has the image, `ImageFailed` where it can't be opened, read or
/// replaced, `BadImageSize`; `NotFormatted` and `Corrupt` where a mount answers so; `NotClean`
/// where `mend` isn't set; `NoMemory` where there is none for three chips and a disk. `ImageFailed`
/// with `Differs` where sectors differ from the copy's, with `Dump` or `DumpSize` where it is none.
/// `OutputFailed` where the report or the line could not be written.
pub fn run_check<R, K>(
    rt: &R,
    path: &str,
    mend: bool,
    json: bool,
    against: Option<&str>,
    writer: &mut K,
) -> Result<(), Fault>
where
    R: Files + AllocGlobal,
    R::File: ImageFile,
    K: Sink,
    ensures { CheckTells mend json (K.written writer.old) (K.faults writer.old) result
        (K.written writer.new) (K.faults writer.new) }
{
    let how = How { mend, json };
    let looked = check_file(rt, path, how, against)?;
    tell_looked(rt.alloc(), looked, how, writer)
}

/// Writes what was found of an image, and the line about it.
pub(crate) fn tell_looked<K: Sink>(
    alloc: Global,
    looked: Looked,
    how: How,
    writer: &mut K,
) -> Result<(), Fault>
    requires mends { IfOk looked.end (λ checked. checked.mended ≡ true → how.mend ≡ true) }
    requires end { IfErr looked.end IsRefusal }
    ensures { CheckTells how.mend how.json (K.written writer.old) (K.faults writer.old) result
        (K.written writer.new) (K.faults writer.new) }
{
    let Looked { text, end } = looked;
    if let Err(fault) = send_bytes(writer, text.as_bytes()) {
        return Err(fault);
    }
    match end {
        Ok(checked) => {
            let line = line_about(alloc, checked, how.json);
            tell(writer, line)
        }
        Err(fault) => Err(fault),
    }
}

/// The line about an image; none for programs.
pub(crate) fn line_about(alloc: Global, checked: Checked, json: bool) -> Result<String, AllocError>
    ensures { IfOk result (λ text.
        string_bytes text ≡ last_text json checked.mended checked.sectors) }
{
    if json {
        return Ok(String::new(alloc));
    }
    let sectors = checked.sectors;
    if checked.mended {
        format!(in alloc; "mended {sectors} sectors\n")
    } else {
        format!(in alloc; "clean {sectors} sectors\n")
    }
}

/// Checks the image in a file, which no other process has meanwhile.
fn check_file<R>(rt: &R, path: &str, how: How, against: Option<&str>) -> Result<Looked, Fault>
where
    R: Files + AllocGlobal,
    R::File: ImageFile,
    ensures mends { IfOk result (λ looked. IfOk looked.end (λ checked. checked.mended ≡ true
        → how.mend ≡ true)) }
    ensures end { IfOk result (λ looked. IfErr looked.end IsRefusal) }
    ensures refused { IfErr result IsRefusal }
{
    let held = hold_image(rt, path, how.mend)?;
    if how.mend {
        take_up(rt, path, &held, true)?;
    }
    let through = looked_through(rt, path, &held)?;
    let looked = look_over(rt.alloc(), through.bytes.as_slice(), through.log_len, how)?;
    let (looked, bytes) = with_mending(rt, path, &held, looked, through.bytes, how)?;
    match against {
        Some(dump) => compared(rt, looked, bytes, dump, how),
        None => Ok(looked),
    }
}

/// What is found of an image that is held, and its bytes, once it is mended where it isn't clean
/// and is to be.
fn with_mending<R>(
    rt: &R,
    path: &str,
    held: &Held<R::File>,
    looked: Looked,
    bytes: Vec<u8>,
    how: How,
) -> Result<(Looked, Vec<u8>), Fault>
where
    R: Files + AllocGlobal,
    R::File: ImageFile,
    requires size { IsChipSize (length bytes.items) }
    requires end { IfErr looked.end IsRefusal }
    requires unmended { IfOk looked.end (λ checked. checked.mended ≡ false) }
    ensures size { IfOk result (λ it. IsChipSize (length it.1.items)) }
    ensures mends { IfOk result (λ it. IfOk it.0.end (λ checked. checked.mended ≡ true
        → how.mend ≡ true)) }
    ensures end { IfOk result (λ it. IfErr it.0.end IsRefusal) }
    ensures refused { IfErr result IsRefusal }
{
    let Looked { text, end } = looked;
    match end {
        Err(Fault::NotClean) if how.mend => {
            let bytes = mend_file(rt, path, held)?;
            let sectors = sectors_of(bytes.as_slice());
            let end = Ok(Checked {
                sectors,
                mended: true,
            });
            Ok((Looked { text, end }, bytes))
        }
        end => Ok((Looked { text, end }, bytes)),
    }
}

/// What is found of the bytes of an image, which is told as of one that is mended where it is to
/// be.
pub(crate) fn look_over(
    alloc: Global,
    image: &[u8],
    log_len: usize,
    how: How,
) -> Result<Looked, Fault>
    requires size { IsChipSize (length image.now) }
    ensures clean { IfOk result (λ looked. IfOk looked.end (λ checked.
        IsCheckedClean checked.sectors image.now)) }
    ensures unmended { IfOk result (λ looked. IfOk looked.end (λ checked.
        checked.mended ≡ false)) }
    ensures end { IfOk result (λ looked. IfErr looked.end IsRefusal) }
    ensures reason { IfOk result (λ looked. IfErr looked.end (λ e. IsReason e image.now)) }
    ensures refused { IfErr result IsRefusal }
{
    let report = match report_about(alloc, image) {
        Ok(report) => report,
        Err(error) => return Err(told_of_unexamined(error)),
    };
    let end = end_of(alloc, &report, image);
    let text = report_text(alloc, &report, image, log_len, &end, how)?;
    Ok(Looked { text, end })
}

/// What the bytes of an image say: its verdict is a mount's.
pub(crate) fn report_about(alloc: Global, image: &[u8]) -> Result<Report, Unexamined>
    requires { IsChipSize (length image.now) }
    ensures { IfOk result (λ report. IsReportOf report image.now) }
{
    survey_image(alloc, image)
}

/// What want of a report is for the program.
pub(crate) fn told_of_unexamined(error: Unexamined) -> Fault
    ensures refused { IsRefusal result }
    ensures reason { (m : List ℕ) → IsReason result m }
{
    match error {
        Unexamined::OutOfMemory => Fault::NoMemory,
        Unexamined::Cut => Fault::ImageFailed(Cause::Write),
        Unexamined::Slow => Fault::Slow,
        Unexamined::Probe(_) => Fault::WrongId,
    }
}

/// How a check of an image ends of which this was reported: a mount's refusal by the report, or
/// whether what reads as free is erased. Where a copying goes on, which a mount ends, a copy is
/// mounted to see that.
fn end_of(alloc: Global, report: &Report, image: &[u8]) -> Result<Checked, Fault>
    requires size { IsChipSize (length image.now) }
    requires report { IsReportOf report.now image.now }
    ensures clean { IfOk result (λ checked. IsCheckedClean checked.sectors image.now) }
    ensures unmended { IfOk result (λ checked. checked.mended ≡ false) }
    ensures refused { IfErr result IsRefusal }
    ensures reason { IfErr result (λ e. IsReason e image.now) }
{
    match report.verdict {
        Verdict::NotFormatted => return Err(Fault::NotFormatted),
        Verdict::Corrupt(_) => return Err(Fault::Corrupt),
        Verdict::Mountable(_) => {}
    }
    let Some(says) = report.cleanness else {
        unreachable!()
    };
    match says.is_clean() {
        Some(true) => {}
        Some(false) => return Err(Fault::NotClean),
        None => {
            let Ok(copy) = image.to_vec(alloc) else {
                return Err(Fault::NoMemory);
            };
            copied_disk(alloc, copy, Firmness::Steady)?;
        }
    }
    Ok(Checked {
        sectors: sectors_of(image),
        mended: false,
    })
}

/// The report on an image as a text.
fn report_text(
    alloc: Global,
    report: &Report,
    image: &[u8],
    log_len: usize,
    end: &Result<Checked, Fault>,
    how: How,
) -> Result<String, Fault>
    ensures { IfErr result IsRefusal }
{
    let dirty = match end {
        Err(Fault::NotClean) => place_of_dirt(report, image),
        _ => None,
    };
    let text = if how.json {
        let json = Json {
            report,
            image,
            clean: end.is_ok(),
            dirty,
            mended: how.mend && matches!(end, Err(Fault::NotClean)),
            log_bytes: log_len,
        };
        format!(in alloc; "{json}")
    } else {
        plain_text(alloc, report, image, dirty)
    };
    let Ok(mut text) = text else {
        return Err(Fault::NoMemory);
    };
    let told = if how.json { 0 } else { log_len };
    match tell_log(alloc, &mut text, told) {
        Ok(()) => Ok(text),
        Err(_) => Err(Fault::NoMemory),
    }
}

/// The first place at which what reads as free isn't erased, by the layout that the image says.
fn place_of_dirt(report: &Report, image: &[u8]) -> Option<u32> {
    if let Some(
        Cleanness {
            dirty_group: Some(at),
            ..
        },
    ) = report.cleanness
    {
        return Some(at);
    }
    match &report.blocks {
        Some(blocks) => first_dirty(image, blocks.as_slice()),
        None => None,
    }
}

/// The report for a person.
fn plain_text(
    alloc: Global,
    report: &Report,
    image: &[u8],
    dirty: Option<u32>,
) -> Result<String, AllocError> {
    match report.verdict {
        Verdict::NotFormatted => String::from_str(
            alloc,
            "not formatted: no name NORBLK01 at 0h with the seal 00 at Eh\n",
        ),
        Verdict::Corrupt(finding) => {
            let reason = Reason { finding, image };
            format!(in alloc; "corrupt: {reason}\n")
        }
        Verdict::Mountable(layout) => {
            let Some(blocks) = &report.blocks else {
                return Ok(String::new(alloc));
            };
            let page = Page {
                layout,
                bytes: image.len(),
                counts: &report.counts,
                blocks: blocks.as_slice(),
            };
            match dirty {
                Some(at) => format!(in alloc;
                    "{page}not clean: {at:X}h reads as free and isn't FF\n"
                ),
                None => format!(in alloc; "{page}"),
            }
        }
    }
}

/// Mends the image in a file that is held, and answers its bytes then.
fn mend_file<R>(rt: &R, path: &str, held: &Held<R::File>) -> Result<Vec<u8>, Fault>
where
    R: Files + AllocGlobal,
    R::File: ImageFile,
    ensures size { IfOk result (λ bytes. IsChipSize (length bytes.items)) }
    ensures refused { IfErr result IsRefusal }
{
    let image = bytes_of(rt, held)?;
    let mended = mended(rt.alloc(), image)?;
    if let Err(error) = rewrite_image(rt, path, held, mended.as_slice()) {
        return Err(told_as(error));
    }
    Ok(mended)
}

/// The bytes of a freshly formatted chip that holds the sectors of an image. Of one of layout 1 its
/// free blocks are erased first, so that no slot is read out of them.
fn mended(alloc: Global, image: Vec<u8>) -> Result<Vec<u8>, Fault>
    requires { IsChipSize (length image.items) }
    ensures mended { IfOk result (λ new. IsMendedOf image.items new.items) }
    ensures size { IfOk result (λ new. length new.items ≡ length image.items) }
    ensures refused { IfErr result IsRefusal }
{
    let image = match with_free_groups_erased(alloc, image) {
        Ok(image) => image,
        Err(error) => return Err(told_of_unexamined(error)),
    };
    match mended_image(alloc, image) {
        Ok(mended) => Ok(mended),
        Err(error) => Err(told_of_mount(error)),
    }
}

/// How many sectors a chip of so many bytes has.
fn sectors_of(image: &[u8]) -> u32
    requires { IsChipSize (length image.now) }
    ensures { result ≡ sector_count (length image.now) }
{
    let Some(chip) = Geometry::of(image.len() as u32) else {
        unreachable!()
    };
    chip.sectors
}

/// Says on `writer` whether the chip behind the programmer at a place would be served, as
/// `run_check` does of an image: nothing of it is changed.
///
/// `ImageFailed` with `Unable` where `mend` is set, or with another `ChipCause` where the
/// programmer can't be used or the chip isn't watched; else as `run_check`.
pub fn run_check_chip<R, K>(
    rt: &R,
    place: ProgrammerPlace<'_>,
    mend: bool,
    json: bool,
    against: Option<&str>,
    writer: &mut K,
) -> Result<(), Fault>
where
    R: Files + AllocGlobal + Clock + Log + Net<Stream = TcpStream>,
    R::File: ImageFile,
    K: Sink,
    ensures { CheckTells mend json (K.written writer.old) (K.faults writer.old) result
        (K.written writer.new) (K.faults writer.new) }
{
    if mend {
        return Err(Fault::ImageFailed(Cause::Chip(ChipCause::Unable)));
    }
    let (bytes, status) = bytes_and_status(rt, place)?;
    let how = How { mend, json };
    let looked = look_over(rt.alloc(), bytes.as_slice(), 0, how)?;
    let looked = with_protection(rt.alloc(), looked, status, json)?;
    let looked = match against {
        Some(dump) => compared(rt, looked, bytes, dump, how)?,
        None => looked,
    };
    tell_looked(rt.alloc(), looked, how, writer)
}
