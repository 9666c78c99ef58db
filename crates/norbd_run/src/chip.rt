//! `chip`: the chip in an image file answers the serprog protocol.
ghost use Rattle.std.specs.Prelude.{◌≡◌, ◌<◌, IfOk, string_bytes};
ghost use Rattle.norbd_line.specs.Line.{IsChipInRange};
ghost use Rattle.norbd_run.specs.Chips.{ChipTells, chip_text, is_known_by_id};

use crate::format::told_as;
use crate::image_disk::bytes_of;
use crate::image_log::take_up;
use crate::serve::tell;
use block_device::Sink;
use chip_model::SpiBus;
use norbd_chip::answer_client;
use norbd_image::{ImageFile, hold};
use norbd_line::{Cause, ChipLine, Fault};
use serprog_chip::Trouble;
use std::alloc::{AllocError, Global};
use std::fs::OpenFile;
use std::net::{Ipv4Addr, Net, SocketAddr, TcpListener, TcpStream};
use std::rt::Files;

/// Answers the serprog protocol for the chip in the file at a path on a port of 127.0.0.1: to one
/// client after another, as many as the line says, or without end. A line is told to `writer`
/// before the first is accepted. What a frame has changed is in the file once it is answered; the
/// file is synced after each client.
///
/// `NoSocket` where the port can't be had or no connection accepted; `InUse`, `ImageFailed`,
/// `BadImageSize` and `NoMemory` of the image, as `serve` has them. `ImageFailed` too where a write
/// or a sync of the file fails while clients are answered.
pub fn run_chip<R, K>(rt: &R, asked: ChipLine<'_>, writer: &mut K) -> Result<(), Fault>
where
    R: Files + AllocGlobal + Net<Listener = TcpListener, Stream = TcpStream>,
    R::File: ImageFile,
    K: Sink,
    requires { IsChipInRange asked }
    ensures { ChipTells asked.entry.port (K.written writer.old) (K.faults writer.old) result
        (K.written writer.new) (K.faults writer.new) }
{
    let alloc = rt.alloc();
    let listener = listen(rt, asked.port)?;
    let held = match hold(rt, asked.image) {
        Ok(held) => held,
        Err(error) => return Err(told_as(error)),
    };
    let length = held.length().unwrap_or(0);
    take_up(rt, asked.image, &held, true)?;
    let bytes = bytes_of(rt, &held)?;
    let mut bus = match held.chip(bytes) {
        Ok(bus) => bus,
        Err(error) => return Err(Fault::ImageFailed(Cause::System(error.kind()))),
    };
    let file = match held.handle() {
        Ok(file) => file,
        Err(error) => return Err(Fault::ImageFailed(Cause::System(error.kind()))),
    };
    let text = text_about(alloc, length / 1_024, asked.port);
    if let Err(fault) = tell(writer, text) {
        return Err(fault);
    }
    answer_clients(alloc, &listener, &mut bus, &file, asked.conns)
}

/// The port of 127.0.0.1.
fn listen<R>(rt: &R, port: u32) -> Result<TcpListener, Fault>
where
    R: Net<Listener = TcpListener, Stream = TcpStream>,
    requires { port < 65536 }
{
    match TcpListener::bind(rt, SocketAddr::from((Ipv4Addr::LOCALHOST, port as u16))) {
        Ok(listener) => Ok(listener),
        Err(error) => Err(Fault::NoSocket(Cause::System(error.kind()))),
    }
}

/// The line about a chip of so many KiB, and one where flashrom doesn't know that size by the id.
fn text_about(alloc: Global, kib: u64, port: u32) -> Result<String, AllocError>
    ensures { IfOk result (λ text. string_bytes text ≡ chip_text kib port) }
{
    if is_known_by_id(kib) {
        format!(in alloc; "chip of {kib} KiB on port {port}\n")
    } else {
        format!(in alloc;
            "chip of {kib} KiB on port {port}\nflashrom reads its size by -c 'SFDP-capable chip' alone\n"
        )
    }
}

/// Whether flashrom knows chips of so many KiB by their ids.
fn is_known_by_id(kib: u64) -> bool
    ensures { result ≡ is_known_by_id kib }
{
    kib == 512 || kib == 1_024 || kib == 2_048 || kib == 4_096 || kib == 8_192 || kib == 16_384
}

/// Answers one client of a listener after another for the chip on a bus, and syncs the file of its
/// memory after each.
fn answer_clients<B: SpiBus, F: OpenFile>(
    alloc: Global,
    listener: &TcpListener,
    bus: &mut B,
    file: &F,
    clients: Option<u32>,
) -> Result<(), Fault> {
    let most = match clients {
        Some(clients) => clients as u64,
        None => u64::MAX,
    };
    for _ in 0..most {
        let Ok((stream, _)) = listener.accept() else {
            return Err(Fault::NoSocket(Cause::Accept));
        };
        if answer_client(alloc, stream, bus) == Trouble::PowerLost {
            return Err(Fault::ImageFailed(Cause::Write));
        }
        if file.sync_data().is_err() {
            return Err(Fault::ImageFailed(Cause::Sync));
        }
    }
    Ok(())
}
