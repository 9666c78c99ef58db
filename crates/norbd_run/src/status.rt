//! `status`: what a server does that was started with `--status`; and `serve` with it.
ghost use Rattle.std.specs.Prelude.{◌≡◌, IfErr, IfOk, IsErr, None, string_bytes, unwrap_or};
ghost use Rattle.norbd_line.specs.Line.{IsServeInRange};
ghost use Rattle.norbd_run.specs.Listening.{TellsServing};
ghost use Rattle.norbd_run.specs.Looking.{HasNoStatus, StatusTells};
ghost use Rattle.norbd_status.specs.Status.{told_status};

use crate::host::Host;
use crate::listening::{MOST_PATH, listen_on_path};
use crate::run::{bytes_at_most, told_at_most};
use crate::serve::{Asked, Look, run_serve, tell};
use crate::serve_chip::run_serve_chip;
use block_device::Sink;
use norbd_image::ImageFile;
use norbd_line::{Cause, Fault, MOST_CONNS, ServeLine, SocketCause};
use norbd_status::{Status, Wear, line_of, page_of, status_in};
use serprog_link::programmer_of;
use std::alloc::{AllocError, Global};
use std::io::Read;
use std::net::Net;
use std::os::unix::fs::FileTypeExt;
use std::os::unix::net::{UnixListener, UnixStream};
use std::rt::Files;
use std::sync::Arc;
use std::time::Duration;
use std::{fs, io};

/// How long a status may take to come, in seconds.
const STATUS_SECONDS: u64 = 2;

/// How many bytes are read of what is to be a status.
const MOST_BYTES: u64 = 4_096;

/// Says on `writer` what the server does whose Unix socket for that is at a path: in JSON, in one
/// line, where `json` is set, and else in five lines.
///
/// `NoSocket` where no socket is at the path, nobody listens at it, or what answers doesn't send
/// the line of a status within 2 seconds; `NoMemory`. `OutputFailed` where it could not be written.
pub fn run_status<R, K>(rt: &R, path: &str, json: bool, writer: &mut K) -> Result<(), Fault>
where
    R: Files + AllocGlobal + Net,
    K: Sink,
    ensures { StatusTells json (K.written writer.old) (K.faults writer.old) result
        (K.written writer.new) (K.faults writer.new) }
{
    let status = match status_at(rt, path) {
        Ok(status) => status,
        Err(fault) => return Err(fault),
    };
    let text = text_about(rt.alloc(), &status, json);
    tell(writer, text)
}

/// What is told of a status.
fn text_about(alloc: Global, status: &Status, json: bool) -> Result<String, AllocError>
    ensures { IfOk result (λ text. string_bytes text ≡ told_status json status.now) }
{
    if json {
        line_of(alloc, status)
    } else {
        page_of(alloc, status)
    }
}

/// The status that a server says at a path.
fn status_at<R>(rt: &R, path: &str) -> Result<Status, Fault>
where
    R: Files + AllocGlobal + Net,
    ensures { IfErr result HasNoStatus }
{
    let line = match line_at(rt, path) {
        Ok(line) => line,
        Err(cause) => return Err(Fault::NoSocket(Cause::Status(cause))),
    };
    match status_in(rt.alloc(), line.as_str()) {
        Ok(Some(status)) => Ok(status),
        Ok(None) => Err(Fault::NoSocket(Cause::Status(SocketCause::NotAStatus))),
        Err(_) => Err(Fault::NoMemory),
    }
}

/// What is sent by who listens at a path.
fn line_at<R>(rt: &R, path: &str) -> Result<String, SocketCause>
where
    R: Files + AllocGlobal + Net,
{
    if path.len() > MOST_PATH {
        return Err(SocketCause::LongPath);
    }
    match fs::metadata(rt, path) {
        Ok(metadata) if metadata.file_type().is_socket() => {}
        Ok(_) => return Err(SocketCause::NotASocket),
        Err(error) => return Err(SocketCause::System(error.kind())),
    }
    let stream = match UnixStream::connect(rt, path) {
        Ok(stream) => stream,
        Err(error) => return Err(SocketCause::System(error.kind())),
    };
    match read_all(rt.alloc(), stream) {
        Ok(line) => Ok(line),
        Err(_) => Err(SocketCause::NotAStatus),
    }
}

/// What comes of a socket until it is closed at the other end.
fn read_all(alloc: Global, stream: UnixStream) -> io::Result<String> {
    stream.set_read_timeout(Some(Duration::from_secs(STATUS_SECONDS)))?;
    io::read_to_string(alloc, stream.take(MOST_BYTES))
}

/// Does a line `serve`. Where a status is asked for, its socket is made first, and its file is
/// taken away at the end; `NoSocket` where it can't be had, and then nothing else is looked for.
pub(crate) fn serve_line<R, K>(
    rt: &R,
    line: ServeLine<'_>,
    clock: Option<u32>,
    writer: &mut K,
) -> Result<(), Fault>
where
    R: Host,
    R::File: ImageFile + Send + Sync,
    R::Dir: Send,
    R: 'static,
    K: Sink,
    requires { IsServeInRange line }
    ensures tells { TellsServing line.entry.place (unwrap_or line.entry.conns 64) line.entry.record
        (K.written writer.old) (K.faults writer.old) result
        (K.written writer.new) (K.faults writer.new) }
    ensures endless { line.entry.conns ≡ None → IsErr result }
{
    let Some(path) = line.status else {
        return serve_looked_at(rt, line, clock, None, writer);
    };
    let listener = match listen_on_path(rt, path) {
        Ok(listener) => listener,
        Err(cause) => return Err(Fault::NoSocket(Cause::Status(cause))),
    };
    let done = serve_with(rt, line, clock, listener, writer);
    let _ = fs::remove_file(rt, path);
    done
}

/// Does a line `serve` whose status is told at this socket.
fn serve_with<R, K>(
    rt: &R,
    line: ServeLine<'_>,
    clock: Option<u32>,
    listener: UnixListener,
    writer: &mut K,
) -> Result<(), Fault>
where
    R: Host,
    R::File: ImageFile + Send + Sync,
    R::Dir: Send,
    R: 'static,
    K: Sink,
    requires { IsServeInRange line }
    ensures tells { TellsServing line.entry.place (unwrap_or line.entry.conns 64) line.entry.record
        (K.written writer.old) (K.faults writer.old) result
        (K.written writer.new) (K.faults writer.new) }
    ensures endless { line.entry.conns ≡ None → IsErr result }
{
    let Ok(wear) = Wear::new(rt.alloc()) else {
        return Err(Fault::NoMemory);
    };
    let Ok(wear) = Arc::new(rt.alloc(), wear) else {
        return Err(Fault::NoMemory);
    };
    let look = Look { listener, wear };
    serve_looked_at(rt, line, clock, Some(&look), writer)
}

/// Does a line `serve`, with or without a socket for its status. `ImageFailed` with `FirmCopy`
/// where it is to be mounted firmly and to stay as it is: nothing is looked for then.
#[tactic(auto, using(crate::proofs::Sizes::conns_or_most))]
fn serve_looked_at<R, K>(
    rt: &R,
    line: ServeLine<'_>,
    clock: Option<u32>,
    status: Option<&Look>,
    writer: &mut K,
) -> Result<(), Fault>
where
    R: Host,
    R::File: ImageFile + Send + Sync,
    R::Dir: Send,
    R: 'static,
    K: Sink,
    requires { IsServeInRange line }
    ensures tells { TellsServing line.entry.place (unwrap_or line.entry.conns 64) line.entry.record
        (K.written writer.old) (K.faults writer.old) result
        (K.written writer.new) (K.faults writer.new) }
    ensures endless { line.entry.conns ≡ None → IsErr result }
{
    if line.read_only && line.firm {
        return Err(Fault::ImageFailed(Cause::FirmCopy));
    }
    let asked = Asked {
        image: line.image,
        place: line.place,
        conns: line.conns.unwrap_or(MOST_CONNS),
        ends: line.conns.is_some(),
        record: line.record,
        sync: line.sync,
        tidy: line.tidy,
        firm: line.firm,
        told_len: told_at_most(line.max_request),
        max_len: bytes_at_most(line.max_request),
        read_only: line.read_only,
        verbose: line.verbose,
        status,
    };
    match programmer_of(line.image, clock) {
        Some(place) => run_serve_chip(rt, place, line.trust, asked, writer),
        None => run_serve(rt, line.image, asked, writer),
    }
}
