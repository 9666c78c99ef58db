//! A connection to a server that no other shares.

ghost use Rattle.std.specs.Prelude.{◌≡◌, ℕ, List, Some};
ghost use Rattle.nbd_wire.specs.declared.phase.Phase.TheVariants.{Transmitting};
ghost use Rattle.nbd_worker.specs.Connection.{Connection, FailsBy, ReadsSome};
ghost use Rattle.nbd_worker.specs.ConnectionState.{reading, setting, state_at};
ghost use Rattle.nbd_worker.specs.Plain.{IsServerQuiet, PlainBy, RepliesAreOfUnits, of_server};

use crate::attending::{End, exchange};
use block_device::{Disk, PlainDisk, Sink, Source};
use nbd_share::{Gate, OneServer, Pass, Recorder, Shared};
use std::alloc::Global;

/// `exchange` over a server that no other connection shares. Where its disk is sound and no error
/// is latched or comes, what is written are the replies of a plain array of sectors to the requests
/// of the input, up to the first that closes or to its end; only a command whose row finds no
/// memory is answered ENOMEM. Where a read or a write fails, they are a beginning of these.
pub fn exchange_alone<D: Disk, R: Recorder, L: OneServer, S: Source, K: Sink, G: Gate>(
    alloc: Global,
    server: &mut Shared<D, R, L>,
    pass: Pass<L>,
    reader: &mut S,
    writer: &mut K,
    gate: &mut G,
) -> (Pass<L>, End)
    ensures connection { result.0.connection ≡ pass.connection }
    ensures says { Connection (of_server R.KEEPS) G.passes (setting Transmitting L.export)
        (state_at server.old pass gate.old (K.written writer.old) (K.faults writer.old))
        (state_at server.new result.0 gate.new (K.written writer.new) (K.faults writer.new))
        (reading (S.remaining reader.old) (S.remaining reader.new) (S.faults reader.old)
        (S.faults reader.new)) result.1 }
    ensures plain { (input : List ℕ) → S.remaining reader.old ≡ Some input
        → IsServerQuiet server.old
        → server.new.disk.cuts ≡ server.old.disk.cuts
        → server.new.disk.slows ≡ server.old.disk.slows
        → PlainBy R.KEEPS (setting Transmitting L.export) server.old.disk.contents
        server.new.disk.contents input (K.written writer.old) (K.written writer.new) result.1 }
{
    exchange(alloc, server, pass, reader, writer, gate)
}

/// `exchange` over a server of a plain disk that no other connection shares: such a disk is sound
/// and never refuses, so that what is written are always the replies of a plain array of sectors.
pub fn exchange_plain<R: Recorder, L: OneServer, S: Source, K: Sink, G: Gate>(
    alloc: Global,
    server: &mut Shared<PlainDisk, R, L>,
    pass: Pass<L>,
    reader: &mut S,
    writer: &mut K,
    gate: &mut G,
) -> (Pass<L>, End)
    ensures connection { result.0.connection ≡ pass.connection }
    ensures says { Connection (of_server R.KEEPS) G.passes (setting Transmitting L.export)
        (state_at server.old pass gate.old (K.written writer.old) (K.faults writer.old))
        (state_at server.new result.0 gate.new (K.written writer.new) (K.faults writer.new))
        (reading (S.remaining reader.old) (S.remaining reader.new) (S.faults reader.old)
        (S.faults reader.new)) result.1 }
    ensures plain { (input : List ℕ) → S.remaining reader.old ≡ Some input
        → PlainBy R.KEEPS (setting Transmitting L.export) server.old.disk.contents
        server.new.disk.contents input (K.written writer.old) (K.written writer.new) result.1 }
    // Input comes only where a read failed, or after 2^64 - 1 bytes
    ensures input { ReadsSome (reading (S.remaining reader.old) (S.remaining reader.new)
        (S.faults reader.old) (S.faults reader.new)) result.1 }
    // Output comes exactly where a write failed
    ensures output { FailsBy result.1 (K.faults writer.old) (K.faults writer.new) }
    ensures lost { result.1 ≡ End.Lost → ⊥ }
{
    // What is asked of the disk here does nothing: its answer brings the proof what a plain disk
    // promises.
    let _ = server.disk();
    let ended = exchange_alone(alloc, server, pass, reader, writer, gate);
    let _ = server.disk();
    ended
}

/// Where no rows are kept, the replies of a plain array to the parts of requests are those to
/// their units.
pub fn plain_replies()
    ensures { RepliesAreOfUnits }
{}
