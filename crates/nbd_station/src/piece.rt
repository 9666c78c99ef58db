//! Pieces of one connection's bytes.

ghost use Rattle.std.specs.Io.KnownBytes.{Appends};
ghost use Rattle.std.specs.Prelude.{◌≡◌, ◌*◌, ℕ, List, length, OnOk};
ghost use Rattle.block_device.specs.Facts.{CountsNeverFall};
ghost use Rattle.nbd_station.specs.Responding.{PostTakes, post};
ghost use Rattle.nbd_station.specs.Running.{FailsOnly};
ghost use Rattle.nbd_station.specs.Telling.{SlowComes};
ghost use Rattle.nbd_station.specs.Turning.{IsRunQuiet, Pieced, output_of};

use crate::responder::Responder;
use block_device::{Disk, Sink};
use nbd_connection::{PieceOutcome, answer_piece};
use nbd_session::Session;

/// Takes a whole piece, and answers each unit that it completes, up to one that closes the
/// connection, a failure of the output or a loss of power.
pub(crate) fn take_piece<D: Disk, W: Sink>(
    disk: &mut D,
    session: &mut Session,
    who: u8,
    bytes: &[u8],
    out: &mut W,
) -> PieceOutcome
    requires size { length (D.facts disk.old).contents ≡ 512 * session.old.export.sectors }
    ensures export { session.new.export ≡ session.old.export }
    ensures memory { session.new.memory ≡ session.old.memory }
    ensures sound { (D.facts disk.new).sound ≡ (D.facts disk.old).sound }
    ensures goes { CountsNeverFall (D.facts disk.old) (D.facts disk.new) }
    ensures slow { SlowComes (D.facts disk.old) (D.facts disk.new) }
    ensures wrote { OnOk (output_of result) ((wrote : List ℕ)
        × Appends (W.written out.old) (W.written out.new) wrote) }
    ensures faults { FailsOnly (W.faults out.old) (output_of result) (W.faults out.new) }
    ensures says { IsRunQuiet (D.facts disk.old) (D.facts disk.new) → Pieced who
        (record { disk = D.facts disk.old; line = session.old; written = W.written out.old })
        (record { disk = D.facts disk.new; line = session.new; written = W.written out.new }) result
        bytes.now }
{
    let export = session.export();
    let mut responder = Responder {
        disk,
        out,
        who,
        export,
    };
    respond(&mut responder, session, bytes)
}

/// Has a responder answer a piece.
fn respond<D: Disk, W: Sink>(
    responder: &mut Responder<'_, '_, D, W>,
    session: &mut Session,
    bytes: &[u8],
) -> PieceOutcome
    requires size { length (D.facts responder.old.disk.now).contents
        ≡ 512 * responder.old.export.sectors }
    requires export { responder.old.export ≡ session.old.export }
    ensures disk { responder.new.disk.ghost_name ≡ responder.old.disk.ghost_name }
    ensures out { responder.new.out.ghost_name ≡ responder.old.out.ghost_name }
    ensures export { session.new.export ≡ session.old.export }
    ensures memory { session.new.memory ≡ session.old.memory }
    ensures takes { PostTakes
        (post responder.old.who responder.old.export (D.facts responder.old.disk.now)
        (W.written responder.old.out.now) (W.faults responder.old.out.now))
        (post responder.new.who responder.new.export (D.facts responder.new.disk.now)
        (W.written responder.new.out.now) (W.faults responder.new.out.now)) session.old session.new
        bytes.now result }
{
    answer_piece(responder, session, bytes)
}
