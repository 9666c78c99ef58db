//! What a line asks, over any reader and writer.
ghost use Rattle.std.specs.Prelude.{◌≡◌, IfSome, ◌*◌, option_map, unwrap_or};
ghost use Rattle.norbd_line.specs.Line.{IsMaxRequest};
ghost use Rattle.norbd_run.specs.Lines.{HasNumbers, LineDoes, ReadsNothing};

use crate::check::{run_check, run_check_chip};
use crate::chip::run_chip;
use crate::format::{run_format, run_format_chip};
use crate::host::Host;
use crate::plain::run_plain;
use crate::progress::Screen;
use crate::read::{run_read, run_read_chip};
use crate::rescue::run_rescue;
use crate::script::run_script;
use crate::settle::{run_settle, run_settle_chip};
use crate::show::{run_show, run_show_chip};
use crate::status::{run_status, serve_line};
use crate::unprotect::run_unprotect;
use crate::write::{run_write, run_write_chip};
use block_device::{Sink, Source};
use nbd_share::LEDGER_PARTS;
use nbd_wire::MAX_LEN;
use norbd_image::ImageFile;
use norbd_line::{Cause, ChipCause, Fault, Line};
use serprog_link::programmer_of;
use std::marker::Brand;
use std::sync::ledger::Blank;

/// Does what a line asks. The programmer of its chip, where it has one, is to set this clock in Hz,
/// where there is one.
///
/// `plain`: answers the NBD requests that come from `reader`, transmission bytes alone, over a disk
/// of zeros in memory, with replies to `writer`, each as soon as the last byte of its request has
/// come. Ok at the end of the input, and where a request closes the connection (a wrong magic, or
/// DISC).
///
/// `NoMemory` where there is no memory for the disk, its record or the buffers, `InputFailed` where
/// a read failed (or after 2^64 - 1 bytes), `OutputFailed` where a write failed.
///
/// `script`: runs the script that comes from `reader` on a formatted chip in memory, with the
/// transcript to `writer`; its faults are those of `run_script`.
///
/// `format`: makes the file at the path a formatted chip, and writes a line about it to `writer`;
/// its faults are those of `run_format`. Nothing is read.
///
/// `serve`: serves the chip in the file at the path to clients at a place, with lines about it to
/// `writer`; its faults are those of `run_serve`. Nothing is read.
///
/// `status`: says on `writer` what the server does whose socket for that is at the path; its faults
/// are those of `run_status`. Nothing is read.
///
/// `chip`: answers the serprog protocol for the chip in the file at the path, with a line about it
/// to `writer`; its faults are those of `run_chip`. Nothing is read.
///
/// `check`: says on `writer` whether the image in the file at the path would be served, and mends
/// it where that is asked; its faults are those of `run_check`. Nothing is read.
///
/// `unprotect`: ends the protection of the chip behind the programmer that the line names, with a
/// line about it to `writer`; its faults are those of `run_unprotect`, or `NoProgrammer` of a file.
/// Nothing is read.
///
/// `settle`: erases all of the chip in the file at the path or behind a programmer but its
/// superblock, keeps its disk, and writes a line about it to `writer`; its faults are those of
/// `run_settle` or `run_settle_chip`. Nothing is read.
///
/// `show` draws the blocks of the image in the file at the path, with `colours` in those of a
/// terminal, `read` writes its sectors, `write` replaces them by the bytes of `reader`, and
/// `rescue` writes those that can still be told; their faults are those of `run_show`, `run_read`,
/// `run_write` and `run_rescue`, or of `rescue` `FileAlone` of a chip behind a programmer. Source:
/// own.
#[tactic(auto, using(crate::proofs::Sizes::size_of_chip))]
pub fn run_line<R, S, K>(
    rt: &R,
    line: Line<'_>,
    clock: Option<u32>,
    colours: bool,
    reader: &mut S,
    writer: &mut K,
) -> Result<(), Fault>
where
    R: Host + Screen,
    R::File: ImageFile + Send + Sync,
    R::Dir: Send,
    R: 'static,
    S: Source,
    K: Sink,
    requires numbers { HasNumbers line }
    ensures does { LineDoes line.entry
        (record {
          left = S.remaining reader.old;
          reads = S.faults reader.old;
          written = K.written writer.old;
          writes = K.faults writer.old;
        }) result
        (record {
          left = S.remaining reader.new;
          reads = S.faults reader.new;
          written = K.written writer.new;
          writes = K.faults writer.new;
        }) }
    ensures unread { ReadsNothing line.entry → reader.new ≡ reader.old }
{
    match line {
        Line::Plain { sectors, record } => {
            run_plain::<Brand, S, K>(
                rt.alloc(),
                Blank::new(LEDGER_PARTS),
                sectors,
                record,
                reader,
                writer,
            )
        }
        Line::Chip(asked) => run_chip(rt, asked, writer),
        Line::Format {
            image,
            kib,
            force,
            sure,
        } => match programmer_of(image, clock) {
            Some(place) => run_format_chip(rt, place, kib, sure, writer),
            None => run_format(rt, image, kib, force, writer),
        },
        Line::Script { kib } => run_script(rt.alloc(), kib, reader, writer),
        Line::Serve(line) => serve_line(rt, line, clock, writer),
        Line::Status { path, json } => run_status(rt, path, json, writer),
        Line::Check {
            image,
            mend,
            json,
            against,
        } => match programmer_of(image, clock) {
            Some(place) => run_check_chip(rt, place, mend, json, against, writer),
            None => run_check(rt, image, mend, json, against, writer),
        },
        Line::Unprotect { image, sure } => match programmer_of(image, clock) {
            Some(place) => run_unprotect(rt, place, sure, writer),
            None => Err(Fault::ImageFailed(Cause::Chip(ChipCause::NoProgrammer))),
        },
        Line::Settle { image } => match programmer_of(image, clock) {
            Some(place) => run_settle_chip(rt, place, writer),
            None => run_settle(rt, image, writer),
        },
        Line::Show { image } => match programmer_of(image, clock) {
            Some(place) => run_show_chip(rt, place, colours, writer),
            None => run_show(rt, image, colours, writer),
        },
        Line::Read { image, sectors } => match programmer_of(image, clock) {
            Some(place) => run_read_chip(rt, place, sectors, writer),
            None => run_read(rt, image, sectors, writer),
        },
        Line::Write {
            image,
            sectors,
            firm,
        } => match programmer_of(image, clock) {
            Some(place) => run_write_chip(rt, place, sectors, reader, writer),
            None => run_write(rt, image, sectors, firm, reader, writer),
        },
        Line::Rescue { image } => match programmer_of(image, clock) {
            Some(_) => Err(Fault::ImageFailed(Cause::Chip(ChipCause::FileAlone))),
            None => run_rescue(rt, image, writer),
        },
    }
}

/// The largest length of a READ or WRITE in bytes that clients are told: 65,536 where the line
/// doesn't say how many KiB.
pub(crate) fn told_at_most(max_request: Option<u32>) -> u32
    requires { IfSome max_request IsMaxRequest }
    ensures { result ≡ unwrap_or (option_map (λ kib. 1024 * kib) max_request) 65536 }
{
    match max_request {
        Some(kib) => 1024 * kib,
        None => MAX_LEN,
    }
}

/// The largest length of a READ or WRITE in bytes that is taken: what clients are told, and 1 MiB
/// where the line doesn't say how many KiB, since some of them don't look at what they are told.
pub(crate) fn bytes_at_most(max_request: Option<u32>) -> u32
    requires { IfSome max_request IsMaxRequest }
    ensures { result ≡ unwrap_or (option_map (λ kib. 1024 * kib) max_request) 1048576 }
{
    match max_request {
        Some(kib) => 1024 * kib,
        None => 1_048_576,
    }
}
