//! A piece of a connection's bytes, taken one unit after another, and the peer that runs its
//! commands and takes its replies; and how a command runs on any disk.

ghost use Rattle.std.specs.Prelude.{◌≡◌, ◌<◌, ◌^◌, ◌+◌, ℕ, List, length, None, ◌≤◌, true, false};
ghost use Rattle.std.specs.Prelude.{◌*◌, OnOk};
ghost use Rattle.block_device.specs.Facts.{CountsNeverFall};
ghost use Rattle.nbd_wire.specs.Commands.{is_read, judge_of};
ghost use Rattle.nbd_wire.specs.Lent.{lent_len, payload_in, reply_in};
ghost use Rattle.nbd_wire.specs.declared.phase.Phase.{Phase};
ghost use Rattle.nbd_transmission.specs.Apply.{data_of};
ghost use Rattle.nbd_session.specs.Sessions.{IsRunning, SessionRepresents, is_closed, room_of};
ghost use Rattle.nbd_connection.specs.Effects.{CommandLeaves, CommandLatches};
ghost use Rattle.nbd_connection.specs.Turning.{CommandBy, PieceTaken, TurnTaken, goes_on};

use block_device::{Disk, DiskError};
use nbd_session::{ReplyTo, Session, buffer_laws};
use nbd_transmission::first_sector;
use nbd_wire::{Command, CommandKind, Export, MINIMUM_BLOCK_LEN, Next, REPLY_LEN};

/// What became of a command, as the peer that ran it says: the piece goes on or ends there.
#[derive(Clone, Copy, Debug, PartialEq, Eq, Drop)]
pub enum Fate {
    /// It ran, or met an error, and its reply was taken.
    Replied,
    /// Its reply wasn't taken whole.
    Untaken,
    /// A power loss took it, and it has no reply.
    Lost,
}

/// Runs commands, and takes replies.
pub trait Peer {
    ghost use Rattle.std.specs.Prelude.{◌≡◌, ◌<◌, ◌^◌, ◌+◌, ℕ, List, Bool, length, None};
    ghost use Rattle.nbd_wire.specs.declared.command.Command.{Command};
    ghost use Rattle.nbd_wire.specs.declared.export.Export.{Export};
    ghost use Rattle.nbd_transmission.specs.declared.transmission.Refusal.{Refusal};
    ghost use Rattle.nbd_transmission.specs.Taking.{IsRefused};
    ghost use Rattle.nbd_connection.specs.declared.piece.Fate.{Fate};

    /// The export whose commands it runs.
    ghost export: { Self → Export };

    /// Whether its disk is one of this export.
    ghost fits: { Self → Type 0 };

    /// What `answer` does, from a peer to the peer after it: the command, the bytes lent to it, and
    /// what became of it.
    ghost answers: { Self → Self → Command → List ℕ → Fate → Type 0 };

    /// What `tell` does, from a peer to the peer after it: the reply, and whether all of it was
    /// taken.
    ghost tells: { Self → Self → List ℕ → Bool → Type 0 };

    /// Runs a command that the request table accepts, over the bytes that are lent to it, and takes
    /// its reply.
    fn answer(&mut self, command: &Command, lent: &mut [u8]) -> Fate
        requires fits { fits self.old }
        requires accepted { judge_of command.now (export self.old) ≡ None }
        requires lent { length lent.old ≡ lent_len command.now }
        requires short { REPLY_LEN + length lent.old < 2 ^ 32 }
        ensures fits { fits self.new }
        ensures export { export self.new ≡ export self.old }
        ensures answers { answers self.old self.new command.now lent.old result };

    /// Hears what the next reply is to, where that is no command. Nothing that a contract sees
    /// changes.
    fn hear(&self, _to: &ReplyTo)
        requires fits { fits self.now }
        requires refused { (refusal : Refusal) → _to.now ≡ ReplyTo.Refused refusal
            → IsRefused (export self.now) refusal }
    {}

    /// Takes a reply, which may be empty: true where all of it was taken.
    fn tell(&mut self, reply: &[u8]) -> bool
        requires fits { fits self.old }
        requires len { length reply.now < 2 ^ 32 }
        ensures fits { fits self.new }
        ensures export { export self.new ≡ export self.old }
        ensures tells { tells self.old self.new reply.now result };
}

/// How far a connection came with some bytes: whoever has the connection goes on or ends it.
#[derive(Clone, Copy, Debug, PartialEq, Eq, Drop)]
pub enum PieceOutcome {
    /// It stays open: each unit that the bytes complete is answered.
    Open,
    /// Its last unit was answered.
    Closed,
    /// A reply wasn't taken whole.
    OutputFailed,
    /// A power loss took a command.
    Lost,
}

/// Takes all bytes of a piece, and has the peer answer each unit that they complete, up to one that
/// closes the connection, a reply that isn't taken whole, or a lost command.
pub fn answer_piece<P: Peer>(peer: &mut P, session: &mut Session, bytes: &[u8]) -> PieceOutcome
    requires fits { P.fits peer.old }
    requires export { P.export peer.old ≡ session.old.export }
    ensures open { result ≡ PieceOutcome.Open → is_closed session.old ≡ false
        → is_closed session.new ≡ false }
    ensures session { session.new.export ≡ session.old.export }
    ensures memory { session.new.memory ≡ session.old.memory }
    ensures fits { P.fits peer.new }
    ensures export { P.export peer.new ≡ P.export peer.old }
    ensures pieced { PieceTaken P.answers P.tells peer.old peer.new session.old session.new
        bytes.now result }
{
    let mut rest = bytes;
    while !rest.is_empty() {
        let (used, progress) = take_turn(peer, session, rest);
        rest = &rest[used..];
        match progress {
            PieceOutcome::Open => {}
            PieceOutcome::Closed => return PieceOutcome::Closed,
            PieceOutcome::OutputFailed => return PieceOutcome::OutputFailed,
            PieceOutcome::Lost => return PieceOutcome::Lost,
        }
    }
    PieceOutcome::Open
}

/// Has the peer answer the command that runs, over the session's buffer.
fn answer_command<P: Peer>(peer: &mut P, session: &mut Session, command: &Command) -> Fate
    requires fits { P.fits peer.old }
    requires running { IsRunning (P.export peer.old) command.now session.old }
    ensures represents { (start : Phase) (text : List ℕ) → SessionRepresents start session.old text
        → SessionRepresents start session.new text }
    ensures closed { is_closed session.new ≡ is_closed session.old }
    ensures session { session.new.export ≡ session.old.export }
    ensures memory { session.new.memory ≡ session.old.memory }
    ensures fits { P.fits peer.new }
    ensures export { P.export peer.new ≡ P.export peer.old }
    ensures by { CommandBy P.answers peer.old peer.new command.now
        (payload_in command.now (room_of session.old)) result }
{
    buffer_laws();
    peer.answer(command, session.buffer())
}

/// Takes bytes of at most one unit, and has the peer answer it where it is complete. Answers how
/// many bytes were used; all of them where none is complete.
fn take_turn<P: Peer>(peer: &mut P, session: &mut Session, bytes: &[u8]) -> (usize, PieceOutcome)
    requires fits { P.fits peer.old }
    requires export { P.export peer.old ≡ session.old.export }
    ensures used { result.0 ≤ length bytes.now }
    ensures progress { is_closed session.old ≡ false → 0 < length bytes.now → 0 < result.0 }
    ensures over { is_closed session.old ≡ true → goes_on result.1 ≡ false }
    ensures open { goes_on result.1 ≡ true → is_closed session.new ≡ false }
    ensures session { session.new.export ≡ session.old.export }
    ensures memory { session.new.memory ≡ session.old.memory }
    ensures fits { P.fits peer.new }
    ensures export { P.export peer.new ≡ P.export peer.old }
    ensures turned { TurnTaken P.answers P.tells peer.old peer.new session.old session.new
        bytes.now result }
{
    let taken = session.take(bytes);
    match taken.next {
        Next::More => (taken.used, PieceOutcome::Open),
        Next::Reply(to) => {
            peer.hear(&to);
            match peer.tell(session.reply()) {
                true => (taken.used, PieceOutcome::Open),
                false => (taken.used, PieceOutcome::OutputFailed),
            }
        }
        Next::Run(command) => match answer_command(peer, session, &command) {
            Fate::Replied => (taken.used, PieceOutcome::Open),
            Fate::Untaken => (taken.used, PieceOutcome::OutputFailed),
            Fate::Lost => (taken.used, PieceOutcome::Lost),
        },
        Next::Close => match peer.tell(session.reply()) {
            true => (taken.used, PieceOutcome::Closed),
            false => (taken.used, PieceOutcome::OutputFailed),
        },
    }
}

/// Runs an accepted command of this export, over the bytes that are lent to it: a
/// WRITE's payload, the room for a READ's data, none for any other.
pub fn run<D: Disk>(
    disk: &mut D,
    command: &Command,
    export: Export,
    bytes: &mut [u8],
) -> Result<(), DiskError>
    requires accepted { judge_of command.now export ≡ None }
    requires size { length (D.facts disk.old).contents ≡ 512 * export.sectors }
    requires lent { length bytes.old ≡ lent_len command.now }
    ensures contents { (D.facts disk.old).sound ≡ true
        → CommandLeaves (D.facts disk.old).contents command.now bytes.old result
        (D.facts disk.new).contents }
    ensures reply { OnOk result ((D.facts disk.old).sound ≡ true
        → reply_in command.now 0 bytes.new ≡ data_of (D.facts disk.old).contents command.now) }
    ensures kept { is_read command.now.kind ≡ false → bytes.new ≡ bytes.old }
    ensures sound { (D.facts disk.new).sound ≡ (D.facts disk.old).sound }
    ensures goes { CountsNeverFall (D.facts disk.old) (D.facts disk.new) }
    ensures latches { CommandLatches command.now (D.facts disk.old) result (D.facts disk.new) }
{
    match command.kind {
        CommandKind::Read => disk.read(first_sector(command, export), bytes),
        CommandKind::Write => disk.write(first_sector(command, export), bytes),
        CommandKind::Flush => disk.flush(),
        CommandKind::Trim | CommandKind::WriteZeroes => {
            let count = command.length / MINIMUM_BLOCK_LEN;
            disk.zero(first_sector(command, export), count)
        }
        CommandKind::Disconnect => unreachable!(),
        CommandKind::Unknown(_) => unreachable!(),
    }
}
