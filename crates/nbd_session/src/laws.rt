//! The laws of a connection's parts, and of a session's buffer.

ghost use Rattle.std.specs.Prelude.{◌≡◌, ℕ, List, None, length};
ghost use Rattle.nbd_wire.specs.declared.export.Export.{Export};
ghost use Rattle.nbd_wire.specs.declared.command.Command.{Command};
ghost use Rattle.nbd_wire.specs.declared.phase.Phase.{Phase};
ghost use Rattle.nbd_session.specs.Lending.{IsGivenBack, given_back};
ghost use Rattle.nbd_session.specs.Sessions.{IsRunning, SessionState, room_of};
ghost use Rattle.nbd_session.specs.Parts.{IsGrowing};

/// The parts of a text are those of its units, they begin those of every longer text, and nothing
/// follows a closing one.
pub fn parts_laws()
    ensures { (start : Phase) (export : Export) → IsGrowing start export }
{}

/// What a write to the buffer leaves: where a command runs, the bytes written are in the buffer and
/// nothing else is changed; where none runs, nothing is.
pub fn buffer_laws()
    ensures running { (export : Export) (command : Command) (line : SessionState) (bytes : List ℕ)
        → IsRunning export command line → IsGivenBack line bytes }
    ensures idle { (line : SessionState) (bytes : List ℕ) → line.running ≡ None
        → length bytes ≡ length (room_of line) → given_back line bytes ≡ line }
{}
