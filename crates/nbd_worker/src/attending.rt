//! A connection at a server: pieces are read, commands go through the door, replies are written.

ghost use Rattle.std.specs.Prelude.{◌++◌, ◌≡◌, ◌⊎◌, None, IfOk, IfSome, false, vec_len};
ghost use Rattle.block_device.specs.Streams.{Sends};
ghost use Rattle.nbd_wire.specs.Heads.{reply_bytes};
ghost use Rattle.nbd_wire.specs.declared.phase.Phase.{Phase};
ghost use Rattle.nbd_wire.specs.declared.phase.Phase.TheVariants.{AwaitingFlags, Transmitting};
ghost use Rattle.nbd_session.specs.Sessions.{BeginsSession, is_closed};
ghost use Rattle.nbd_worker.specs.Connection.{answer_bytes, Connection};
ghost use Rattle.nbd_worker.specs.Turning.{PieceServes, end_of};
ghost use Rattle.nbd_worker.specs.ConnectionState.{reading, setting, state_at, through};

use block_device::{Failed, Sink, Source, send, send_both};
use nbd_connection::{Fate, Peer, PieceOutcome};
use nbd_session::{OpenError, ReplyTo, Session};
use nbd_share::{Answer, Done, Door, Gate, OneServer, Pass, Point};
use nbd_wire::{Command, CommandKind, REPLY_LEN, Reply};
use std::alloc::{AllocError, Global};

/// Writes a reply: its head, and then its data.
fn write_reply<K: Sink>(writer: &mut K, reply: Reply, content: &[u8]) -> Result<(), Failed>
    ensures { Sends (K.written writer.old) (K.faults writer.old) (reply_bytes reply ++ content.now)
        result (K.written writer.new) (K.faults writer.new) }
{
    let mut head = [0; REPLY_LEN];
    reply.write(&mut head);
    send_both(writer, &head, content)
}

/// Writes an answer, while it holds the bytes that were lent.
fn write_answer<K: Sink>(writer: &mut K, answer: &Answer<'_>) -> Result<(), Failed>
    ensures { Sends (K.written writer.old) (K.faults writer.old) (answer_bytes answer.now) result
        (K.written writer.new) (K.faults writer.new) }
{
    let command = answer.command();
    let error = answer.error();
    let reply = Reply {
        error,
        cookie: command.cookie,
    };
    match command.kind {
        CommandKind::Read if error == 0 => write_reply(writer, reply, answer.data()),
        _ => write_reply(writer, reply, &[]),
    }
}

/// A connection's door with its pass, the gate before it, and the writer of its replies.
#[derive(Drop)]
pub(crate) struct ServerPeer<'t, 'p, 'w, 'g, L: OneServer, T: Door<L>, K: Sink, G: Gate> {
    pub(crate) door: &'t mut T,
    pub(crate) pass: &'p mut Pass<L>,
    pub(crate) writer: &'w mut K,
    pub(crate) gate: &'g mut G,
}

impl<'t, 'p, 'w, 'g, L: OneServer, T: Door<L>, K: Sink, G: Gate> Peer
    for ServerPeer<'t, 'p, 'w, 'g, L, T, K, G> {
    ghost use Rattle.std.specs.Prelude.{◌≡◌, [], ◌∷◌};
    ghost use Rattle.nbd_wire.specs.Lent.{payload_in};
    ghost use Rattle.nbd_share.specs.declared.door.Point.TheVariants.{Execute};
    ghost use Rattle.nbd_worker.specs.ConnectionState.{PassesMore, state_at, through};
    ghost use Rattle.nbd_worker.specs.Turning.{CommandTurn, StateTells};

    ghost export = { λ p. L.export };

    ghost fits = { λ p. Unit {0} };

    ghost answers = { λ a b command bytes fate. (b.door.ghost_name ≡ a.door.ghost_name)
        × (b.pass.ghost_name ≡ a.pass.ghost_name) × (b.writer.ghost_name ≡ a.writer.ghost_name)
        × (b.gate.ghost_name ≡ a.gate.ghost_name)
        × (b.pass.now.connection ≡ a.pass.now.connection)
        × CommandTurn (through T.executes T.keeps) G.passes
        (state_at a.door.now a.pass.now a.gate.now (K.written a.writer.now) (K.faults a.writer.now))
        (state_at b.door.now b.pass.now b.gate.now (K.written b.writer.now) (K.faults b.writer.now))
        command (payload_in command bytes) fate };

    ghost tells = { λ a b reply taken. (b.door.ghost_name ≡ a.door.ghost_name)
        × (b.pass.ghost_name ≡ a.pass.ghost_name) × (b.writer.ghost_name ≡ a.writer.ghost_name)
        × (b.gate.ghost_name ≡ a.gate.ghost_name)
        × (b.pass.now.connection ≡ a.pass.now.connection)
        × StateTells
        (state_at a.door.now a.pass.now a.gate.now (K.written a.writer.now) (K.faults a.writer.now))
        (state_at b.door.now b.pass.now b.gate.now (K.written b.writer.now) (K.faults b.writer.now))
        reply taken };

    fn answer(&mut self, command: &Command, lent: &mut [u8]) -> Fate {
        self.gate.pass(Point::Execute);
        match self.door.execute(self.pass, command, lent) {
            Done::Replied(answer) => match write_answer(self.writer, &answer) {
                Ok(()) => Fate::Replied,
                Err(_) => Fate::Untaken,
            },
            Done::Lost => Fate::Lost,
        }
    }

    fn hear(&self, to: &ReplyTo) {
        self.door.hear(to);
    }

    fn tell(&mut self, reply: &[u8]) -> bool {
        match send(self.writer, reply) {
            Ok(()) => true,
            Err(_) => false,
        }
    }
}

/// How many bytes of a connection are read at once, at the most.
const READ_BUFFER_LEN: usize = 65_536;

/// How a connection ended, as whoever had it served is told.
#[derive(Clone, Copy, Debug, PartialEq, Eq, Drop)]
pub enum End {
    /// A unit closed it: flags that aren't known, a wrong magic, ABORT, an unknown name, or DISC.
    Closed,
    /// No byte was left to read.
    EndOfInput,
    /// A read failed, or 2^64 - 1 pieces were read.
    Input,
    /// A write failed.
    Output,
    /// A power loss took a command.
    Lost,
    /// There was no memory for its buffers.
    OutOfMemory,
}

/// Takes all bytes of a piece, and answers the units that they complete.
fn answer_piece<L: OneServer, T: Door<L>, K: Sink, G: Gate>(
    door: &mut T,
    pass: &mut Pass<L>,
    writer: &mut K,
    gate: &mut G,
    session: &mut Session,
    piece: &[u8],
) -> Option<End>
    requires open { is_closed session.old ≡ false }
    requires export { session.old.export ≡ L.export }
    ensures open { result ≡ None → is_closed session.new ≡ false }
    ensures export { session.new.export ≡ L.export }
    ensures connection { pass.new.connection ≡ pass.old.connection }
    ensures ends { IfSome result (λ end. (end ≡ End.Closed)
        ⊎ ((end ≡ End.Output) ⊎ (end ≡ End.Lost))) }
    ensures says { PieceServes (through T.executes T.keeps) G.passes
        (state_at door.old pass.old gate.old (K.written writer.old) (K.faults writer.old))
        (state_at door.new pass.new gate.new (K.written writer.new) (K.faults writer.new))
        session.old session.new piece.now result }
{
    let mut peer = ServerPeer {
        door,
        pass,
        writer,
        gate,
    };
    respond(&mut peer, session, piece)
}

/// Has a peer answer a piece, and says how the connection ended, where it did.
fn respond<L: OneServer, T: Door<L>, K: Sink, G: Gate>(
    peer: &mut ServerPeer<'_, '_, '_, '_, L, T, K, G>,
    session: &mut Session,
    piece: &[u8],
) -> Option<End>
    requires open { is_closed session.old ≡ false }
    requires export { session.old.export ≡ L.export }
    ensures door { peer.new.door.ghost_name ≡ peer.old.door.ghost_name }
    ensures pass { peer.new.pass.ghost_name ≡ peer.old.pass.ghost_name }
    ensures writer { peer.new.writer.ghost_name ≡ peer.old.writer.ghost_name }
    ensures gate { peer.new.gate.ghost_name ≡ peer.old.gate.ghost_name }
    ensures open { result ≡ None → is_closed session.new ≡ false }
    ensures export { session.new.export ≡ L.export }
    ensures connection { peer.new.pass.now.connection ≡ peer.old.pass.now.connection }
    ensures ends { IfSome result (λ end. (end ≡ End.Closed)
        ⊎ ((end ≡ End.Output) ⊎ (end ≡ End.Lost))) }
    ensures says { PieceServes (through T.executes T.keeps) G.passes
        (state_at peer.old.door.now peer.old.pass.now peer.old.gate.now
        (K.written peer.old.writer.now) (K.faults peer.old.writer.now))
        (state_at peer.new.door.now peer.new.pass.now peer.new.gate.now
        (K.written peer.new.writer.now) (K.faults peer.new.writer.now))
        session.old session.new piece.now result }
{
    end_of(nbd_connection::answer_piece(peer, session, piece))
}

/// How the connection ended with a piece, where it did.
fn end_of(progress: PieceOutcome) -> Option<End>
    ensures { result ≡ end_of progress }
{
    match progress {
        PieceOutcome::Open => None,
        PieceOutcome::Closed => Some(End::Closed),
        PieceOutcome::OutputFailed => Some(End::Output),
        PieceOutcome::Lost => Some(End::Lost),
    }
}

/// A connection that begins: its session, and the buffer that its pieces are read into.
#[derive(Drop)]
struct Begun {
    session: Session,
    buffer: Vec<u8>,
    ghost room: { vec_len buffer ≡ 65536 },
}

/// A session with its buffer.
fn with_buffer(alloc: Global, session: Session) -> Result<Begun, AllocError>
    ensures { IfOk result (λ begun. begun.session ≡ session) }
{
    let buffer = vec![in alloc; 0u8; READ_BUFFER_LEN]?;
    Ok(Begun { session, buffer })
}

/// A connection from its first byte to its end: the session's first reply is written, and then each
/// piece is read and answered.
fn attend<L: OneServer, T: Door<L>, S: Source, K: Sink, G: Gate>(
    begun: Begun,
    door: &mut T,
    pass: &mut Pass<L>,
    reader: &mut S,
    writer: &mut K,
    gate: &mut G,
) -> End
    requires open { is_closed begun.session ≡ false }
    requires export { begun.session.export ≡ L.export }
    ensures connection { pass.new.connection ≡ pass.old.connection }
    ensures says { (start : Phase) → BeginsSession start L.export begun.session
        → Connection (through T.executes T.keeps) G.passes (setting start L.export)
        (state_at door.old pass.old gate.old (K.written writer.old) (K.faults writer.old))
        (state_at door.new pass.new gate.new (K.written writer.new) (K.faults writer.new))
        (reading (S.remaining reader.old) (S.remaining reader.new) (S.faults reader.old)
        (S.faults reader.new)) result }
{
    let Begun {
        mut session,
        mut buffer,
    } = begun;
    if let Err(_) = send(writer, session.reply()) {
        return End::Output;
    }
    for _piece in 0..u64::MAX {
        let Ok(n) = reader.read(buffer.as_mut_slice()) else {
            return End::Input;
        };
        if n == 0 {
            return End::EndOfInput;
        }
        gate.pass(Point::Read);
        match answer_piece(door, pass, writer, gate, &mut session, &buffer[..n]) {
            None => {}
            Some(end) => return end,
        }
    }
    End::Input
}

/// A connection from its session to its end, where there was memory for one and for its buffer.
fn attend_from<L: OneServer, T: Door<L>, S: Source, K: Sink, G: Gate>(
    alloc: Global,
    session: Result<Session, OpenError>,
    door: &mut T,
    pass: Pass<L>,
    reader: &mut S,
    writer: &mut K,
    gate: &mut G,
) -> (Pass<L>, End)
    requires { (start : Phase) × IfOk session (λ s. BeginsSession start L.export s) }
    ensures connection { result.0.connection ≡ pass.connection }
    ensures says { (start : Phase) → IfOk session (λ s. BeginsSession start L.export s)
        → Connection (through T.executes T.keeps) G.passes (setting start L.export)
        (state_at door.old pass gate.old (K.written writer.old) (K.faults writer.old))
        (state_at door.new result.0 gate.new (K.written writer.new) (K.faults writer.new))
        (reading (S.remaining reader.old) (S.remaining reader.new) (S.faults reader.old)
        (S.faults reader.new)) result.1 }
{
    let mut pass = pass;
    let Ok(session) = session else {
        return (pass, End::OutOfMemory);
    };
    let Ok(begun) = with_buffer(alloc, session) else {
        return (pass, End::OutOfMemory);
    };
    let end = attend(begun, door, &mut pass, reader, writer, gate);
    (pass, end)
}

/// Answers the requests of a connection whose negotiation is over, until one closes it or its input
/// ends: each piece is read and cut into requests, each accepted command is executed through the
/// door, and each reply is written as soon as its request's last byte has come. The gate is passed
/// after each piece was read and before each command. The pass comes back with its count, and the
/// end says why no more was answered.
pub fn exchange<L: OneServer, T: Door<L>, S: Source, K: Sink, G: Gate>(
    alloc: Global,
    door: &mut T,
    pass: Pass<L>,
    reader: &mut S,
    writer: &mut K,
    gate: &mut G,
) -> (Pass<L>, End)
    ensures connection { result.0.connection ≡ pass.connection }
    ensures says { Connection (through T.executes T.keeps) G.passes (setting Transmitting L.export)
        (state_at door.old pass gate.old (K.written writer.old) (K.faults writer.old))
        (state_at door.new result.0 gate.new (K.written writer.new) (K.faults writer.new))
        (reading (S.remaining reader.old) (S.remaining reader.new) (S.faults reader.old)
        (S.faults reader.new)) result.1 }
{
    let session = Session::requesting(alloc, pass.export());
    attend_from(alloc, session, door, pass, reader, writer, gate)
}

/// Answers a whole connection: the greeting is written, and then its flags, its options and its
/// requests are answered as by `exchange`.
pub fn worker<L: OneServer, T: Door<L>, S: Source, K: Sink, G: Gate>(
    alloc: Global,
    door: &mut T,
    pass: Pass<L>,
    reader: &mut S,
    writer: &mut K,
    gate: &mut G,
) -> (Pass<L>, End)
    ensures connection { result.0.connection ≡ pass.connection }
    ensures says { Connection (through T.executes T.keeps) G.passes
        (setting AwaitingFlags L.export)
        (state_at door.old pass gate.old (K.written writer.old) (K.faults writer.old))
        (state_at door.new result.0 gate.new (K.written writer.new) (K.faults writer.new))
        (reading (S.remaining reader.old) (S.remaining reader.new) (S.faults reader.old)
        (S.faults reader.new)) result.1 }
{
    let session = Session::open(alloc, pass.export());
    attend_from(alloc, session, door, pass, reader, writer, gate)
}
