//! The door through which commands go, the gate that is passed before, and the door that is a lock.

ghost use Rattle.std.specs.Prelude.{◌≡◌, ℕ, List, length, Bool, None, [], false, true, IfSome};
ghost use Rattle.nbd_wire.specs.Commands.{judge_of};
ghost use Rattle.nbd_wire.specs.Lent.{lent_len};
ghost use Rattle.nbd_history.specs.Notes.{entries_by};
ghost use Rattle.nbd_share.specs.History.{IsLegal};
ghost use Rattle.nbd_share.specs.Locking.{EndsLocked, IsChronicled, MeetsLocked, connection_of};
ghost use Rattle.nbd_share.specs.Locking.{start_of};

use crate::chronicle::Chronicle;
use crate::pass::{OneServer, Pass};
use crate::recorder::{Recorder, Row};
use crate::shared::{Done, Shared};
use block_device::{Disk, DiskError};
use nbd_history::{Hand, Hands};
use nbd_session::ReplyTo;
use nbd_wire::Command;
use std::marker::Model;
use std::sync::{Mutex, Wait};

/// The points outside the lock at which a gate is passed.
#[derive(Clone, Copy, Debug, PartialEq, Eq, Drop)]
pub enum Point {
    /// After each piece of a connection was read.
    Read,
    /// Before each command is executed.
    Execute,
    /// Before each step of the keeper's tidying.
    Tidy,
}

/// Is passed at each point, and may take its time there. The lock is never held meanwhile.
pub trait Gate {
    ghost use Rattle.std.specs.Prelude.{List, [], ◌∷◌, ◌++◌};
    ghost use Rattle.nbd_share.specs.declared.door.Point.{Point};

    /// From one gate to a later one these points were passed, in this order. A gate that keeps no
    /// count claims nothing of them; who passes gates of every kind has only what `pass` says.
    ghost passes: { Self → Self → List Point → Type 0 };

    /// Passes one point.
    fn pass(&mut self, point: Point)
        ensures { (first : Self) (points : List Point) → passes first self.old points
            → passes first self.new (points ++ point ∷ []) };

    /// From a gate to itself none were.
    ghost none: { (gate : Self) → passes gate gate [] };
}

/// Where commands are executed.
pub trait Door<L: OneServer> {
    ghost use Rattle.std.specs.Prelude.{ℕ, List, Bool, Result};
    ghost use Rattle.block_device.specs.declared.disk.DiskError.{DiskError};
    ghost use Rattle.nbd_wire.specs.declared.command.Command.{Command};
    ghost use Rattle.nbd_share.specs.declared.shared.Done.{Done};
    ghost use Rattle.nbd_share.specs.Promise.{Promise};
    ghost use Rattle.nbd_share.specs.PassState.{PassState};

    /// Whether rows are kept.
    ghost keeps: { Bool };

    /// What `execute` does, from a door to the door after it and from a pass to the pass after it:
    /// the command, the lent bytes, and what became of it.
    ghost executes: { Self → Self → PassState → PassState → Command → List ℕ → Done → Type 0 };

    /// What `tidy` does, from a door to the door after it, by its answer.
    ghost tidies: { Self → Self → Result Bool DiskError → Type 0 };

    /// Executes one command that the request table accepts, over the bytes that are lent to it.
    fn execute<'a>(&mut self, pass: &mut Pass<L>, command: &Command, data: &'a mut [u8]) -> Done<'a>
        requires accepted { judge_of command.now L.export ≡ None }
        requires lent { length «data».old ≡ lent_len command.now }
        ensures promise { Promise keeps pass.old pass.new command.now «data».old result }
        ensures executes { executes self.old self.new pass.old pass.new command.now «data».old
            result };

    /// Hears what the next reply of its connection is to, where that is no command. Nothing that a
    /// contract sees changes.
    fn hear(&self, _to: &ReplyTo) {}

    /// One step of the disk's tidying.
    fn tidy(&mut self) -> Result<bool, DiskError>
        ensures { tidies self.old self.new result };
}

impl<D: Disk, R: Recorder, L: OneServer> Door<L> for Shared<D, R, L> {
    ghost use Rattle.nbd_share.specs.Doing.{Executes, Tidied};

    ghost keeps = { R.KEEPS };

    ghost executes = { λ old new pass pass' command bytes done.
        Executes R.KEEPS old new pass pass' command bytes done };

    ghost tidies = { λ old new result. Tidied old new result };

    fn execute<'a>(
        &mut self,
        pass: &mut Pass<L>,
        command: &Command,
        data: &'a mut [u8],
    ) -> Done<'a> {
        // `Shared`'s own `execute`, not this one
        self.execute(pass, command, data)
    }

    fn tidy(&mut self) -> Result<bool, DiskError> {
        // and its own `tidy`
        self.tidy()
    }
}

/// A server with its history under one lock. Each time the lock is got, what `Chronicle` promises
/// holds: the history is legal, and the disk is its replay.
#[derive(Drop)]
pub struct Server<D: Disk, R: Recorder, L: OneServer> {
    chronicle: Mutex<Chronicle<D, R, L>>,
}

impl<D: Disk, R: Recorder, L: OneServer> Server<D, R, L> {
    /// Puts a server's state under the lock.
    pub fn new(chronicle: Chronicle<D, R, L>) -> Server<D, R, L> {
        Server {
            chronicle: Mutex::new(chronicle),
        }
    }

    /// The next pass with its hand, by the lock: no row of its number is in the history that it has
    /// seen, which is all there is.
    pub fn pass<W: Wait>(
        &self,
        wait: &W,
        hands: &mut Hands<Row, L>,
    ) -> Option<(Pass<L>, Hand<Row, L>)>
        ensures same { IfSome result (λ r. r.0.connection ≡ r.1.by) }
        ensures none { IfSome result (λ r. entries_by connection_of r.1.by r.1.seen ≡ []) }
        ensures legal { L.sound ≡ true
            → IfSome result (λ r. IsLegal L.export L.base false r.1.seen) }
    {
        self.chronicle.lock(wait).pass(wait, hands)
    }

    /// A connection ends, by the lock: its pass comes back, and its rows stay in the total. The
    /// server's history at this time begins with all that its hand had seen, and has no other row
    /// of its number.
    pub fn end<W: Wait>(&self, wait: &W, pass: Pass<L>, hand: Hand<Row, L>)
        ensures { EndsLocked (start_of R.KEEPS L.sound L.export L.base) hand pass }
    {
        let mut chronicle = self.chronicle.lock(wait);
        chronicle.known();
        chronicle.end(wait, pass, hand);
        chronicle.known();
    }

    /// What each of these hands has seen is a beginning of the server's history at this time, which
    /// has no other rows of it, by the lock.
    pub fn meet<W: Wait>(&self, wait: &W, hands: &[Hand<Row, L>])
        ensures { MeetsLocked (start_of R.KEEPS L.sound L.export L.base) hands.now }
    {
        let mut chronicle = self.chronicle.lock(wait);
        chronicle.meet_all(wait, hands);
        chronicle.known();
    }

    /// The state again, once no other thread has the server: what is known of it whenever the lock
    /// is got.
    pub fn into_inner(self) -> Chronicle<D, R, L>
        ensures { IsChronicled (start_of R.KEEPS L.sound L.export L.base) result }
    {
        let Server { chronicle } = self;
        let chronicle = chronicle.into_inner();
        chronicle.known();
        chronicle
    }
}

/// A door that takes the lock for one call, and waits for it. Contracts see it as what its hand
/// knows of the server's history.
#[derive(Drop)]
pub struct Locked<'s, D: Disk, R: Recorder, L: OneServer, W: Wait> {
    server: &'s Server<D, R, L>,
    wait: &'s W,
    hand: Hand<Row, L>,
}

impl<'s, D: Disk, R: Recorder, L: OneServer, W: Wait> Model for Locked<'s, D, R, L, W> {
    ghost use Rattle.std.specs.Prelude.{◌≡◌, true, false};
    ghost use Rattle.nbd_history.specs.Notes.{Sight};
    ghost use Rattle.nbd_share.specs.declared.recorder.Row.{Row};
    ghost use Rattle.nbd_share.specs.History.{IsLegal};

    ghost Value = { Sight Row };

    ghost view = { λ d. d.hand };

    ghost invariant = { λ d. L.sound ≡ true → IsLegal L.export L.base false d.hand.seen };
}

impl<'s, D: Disk, R: Recorder, L: OneServer, W: Wait> Locked<'s, D, R, L, W> {
    /// A door to a server, for one hand.
    pub fn new(
        server: &'s Server<D, R, L>,
        wait: &'s W,
        hand: Hand<Row, L>,
    ) -> Locked<'s, D, R, L, W>
        requires { L.sound ≡ true → IsLegal L.export L.base false hand.seen }
        ensures { result ≡ hand }
    {
        Locked { server, wait, hand }
    }

    /// The hand again: what it has seen is a legal history of what the disk held at its start.
    pub fn into_hand(self) -> Hand<Row, L>
        ensures same { result ≡ self.entry }
        ensures legal { L.sound ≡ true → IsLegal L.export L.base false result.seen }
    {
        let Locked { hand, .. } = self;
        hand
    }
}

impl<'s, D: Disk, R: Recorder, L: OneServer, W: Wait> Door<L> for Locked<'s, D, R, L, W> {
    ghost use Rattle.nbd_share.specs.Locking.{ExecutesLocked, TidiesLocked, start_of};

    ghost keeps = { R.KEEPS };

    // Other threads have the server between two calls, so the states before and after are some of
    // the server's. The history after it begins with all that the hand had seen, and ends with the
    // row.
    ghost executes = { λ old new pass pass' command bytes done.
        ExecutesLocked (start_of R.KEEPS L.sound L.export L.base) old new pass pass' command bytes
        done };

    ghost tidies = { λ old new result.
        TidiesLocked (start_of R.KEEPS L.sound L.export L.base) result };

    /// Hands on the answer of one `Chronicle::execute`, under the lock.
    fn execute<'a>(
        &mut self,
        pass: &mut Pass<L>,
        command: &Command,
        data: &'a mut [u8],
    ) -> Done<'a> {
        let mut chronicle = self.server.chronicle.lock(self.wait);
        chronicle.known();
        let done = chronicle.execute(self.wait, &mut self.hand, pass, command, data);
        chronicle.known();
        done
    }

    /// One step of tidying, under the lock.
    fn tidy(&mut self) -> Result<bool, DiskError> {
        let mut chronicle = self.server.chronicle.lock(self.wait);
        chronicle.known();
        let result = chronicle.tidy();
        chronicle.known();
        result
    }
}

/// A door that takes the lock for one step of tidying. It runs no command.
#[derive(Drop)]
pub struct Tidier<'s, D: Disk, R: Recorder, L: OneServer, W: Wait> {
    server: &'s Server<D, R, L>,
    wait: &'s W,
}

impl<'s, D: Disk, R: Recorder, L: OneServer, W: Wait> Tidier<'s, D, R, L, W> {
    /// A door to a server.
    pub fn new(server: &'s Server<D, R, L>, wait: &'s W) -> Tidier<'s, D, R, L, W> {
        Tidier { server, wait }
    }
}

impl<'s, D: Disk, R: Recorder, L: OneServer, W: Wait> Door<L> for Tidier<'s, D, R, L, W> {
    ghost use Rattle.std.specs.Prelude.{◌≡◌};
    ghost use Rattle.nbd_share.specs.declared.shared.Done.TheVariants.{Lost};
    ghost use Rattle.nbd_share.specs.Locking.{TidiesLocked, start_of};

    ghost keeps = { R.KEEPS };

    ghost executes = { λ old new pass pass' command bytes done. done ≡ Lost };

    ghost tidies = { λ old new result.
        TidiesLocked (start_of R.KEEPS L.sound L.export L.base) result };

    /// Loses each command.
    fn execute<'a>(
        &mut self,
        _pass: &mut Pass<L>,
        _command: &Command,
        _data: &'a mut [u8],
    ) -> Done<'a> {
        Done::Lost
    }

    /// One step of tidying, under the lock.
    fn tidy(&mut self) -> Result<bool, DiskError> {
        let mut chronicle = self.server.chronicle.lock(self.wait);
        chronicle.known();
        let result = chronicle.tidy();
        chronicle.known();
        result
    }
}
