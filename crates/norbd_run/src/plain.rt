//! `plain`: one client and a disk in memory.
ghost use Rattle.std.specs.Prelude.{◌≡◌, ◌≢◌, IsFalse, List, Some, false, ℕ};
ghost use Rattle.nbd_wire.specs.Commands.{default_export};
ghost use Rattle.norbd_run.specs.Outcomes.{Ended, Means};
ghost use Rattle.norbd_run.specs.Serving.{PlainServes, zero_sectors};

use block_device::{PlainDisk, Sink, Source};
use nbd_share::{FullRecord, NoRecord, OneServer, Recorder, Shared};
use nbd_wire::Export;
use nbd_worker::{End, exchange_plain};
use norbd_line::Fault;
use norbd_serve::OpenGate;
use std::alloc::Global;
use std::sync::ledger::Blank;

/// Serves one connection a disk of so many sectors of zeros, with a row of each command or without;
/// `L` names the server.
pub(crate) fn run_plain<L: OneServer, S: Source, K: Sink>(
    alloc: Global,
    blank: Blank,
    sectors: u32,
    record: bool,
    reader: &mut S,
    writer: &mut K,
) -> Result<(), Fault>
    requires name { blank.name ≡ L.name }
    requires parts { (blank.parts ≡ L.parts) × (blank.parts ≡ 65537) }
    requires export { default_export sectors ≡ L.export }
    requires unsaid { IsFalse L.sound }
    ensures ends { Ended result (S.remaining reader.old) (S.remaining reader.new)
        (S.faults reader.old) (S.faults reader.new)
        (K.faults writer.old) (K.faults writer.new) }
    ensures serves { (input : List ℕ) → S.remaining reader.old ≡ Some input
        → PlainServes «record» sectors input (K.written writer.old) (K.written writer.new) result }
{
    let Ok(disk) = PlainDisk::new(alloc, sectors) else {
        return Err(Fault::NoMemory);
    };
    let export = Export::default_for(sectors);
    if !record {
        let server = Shared::<PlainDisk, NoRecord, L>::new(disk, export, blank);
        return answer_all(alloc, server, sectors, reader, writer);
    }
    // Reading a disk in memory never fails, so this error is want of memory.
    match Shared::<PlainDisk, FullRecord, L>::recording(alloc, disk, export, blank) {
        Ok(server) => answer_all(alloc, server, sectors, reader, writer),
        Err(_) => Err(Fault::NoMemory),
    }
}

/// Answers all requests over a server of a disk of zeros that gave no pass yet.
fn answer_all<C: Recorder + Drop, L: OneServer, S: Source, K: Sink>(
    alloc: Global,
    server: Shared<PlainDisk, C, L>,
    sectors: u32,
    reader: &mut S,
    writer: &mut K,
) -> Result<(), Fault>
    requires zero_sectors { server.disk.contents ≡ zero_sectors sectors }
    requires export { default_export sectors ≡ L.export }
    requires fresh { (server.given ≡ 0) × (server.closed ≡ false) }
    ensures ends { Ended result (S.remaining reader.old) (S.remaining reader.new)
        (S.faults reader.old) (S.faults reader.new)
        (K.faults writer.old) (K.faults writer.new) }
    ensures serves { (input : List ℕ) → S.remaining reader.old ≡ Some input
        → PlainServes C.KEEPS sectors input (K.written writer.old) (K.written writer.new) result }
{
    let mut server = server;
    let Some(pass) = server.pass() else {
        unreachable!()
    };
    let (_, end) = exchange_plain(alloc, &mut server, pass, reader, writer, &mut OpenGate);
    outcome(end)
}

/// What the end of a connection to a disk in memory means for the program: such a disk loses no
/// command to a power loss.
fn outcome(end: End) -> Result<(), Fault>
    requires { end ≢ End.Lost }
    ensures { Means end result }
{
    match end {
        End::Closed => Ok(()),
        End::EndOfInput => Ok(()),
        End::Input => Err(Fault::InputFailed),
        End::Output => Err(Fault::OutputFailed),
        End::Lost => unreachable!(),
        End::OutOfMemory => Err(Fault::NoMemory),
    }
}
