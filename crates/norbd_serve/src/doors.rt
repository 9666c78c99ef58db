//! The doors and the gates of what is served, and the signal by which a connection's door wakes
//! the keeper.

ghost use Rattle.std.specs.Prelude.{◌≡◌, true, false};
ghost use Rattle.nbd_share.specs.History.{IsLegal};

use crate::socket::Client;
use crate::telling::{Event, Log};
use block_device::{Disk, DiskError};
use nbd_durable::Owed;
use nbd_history::Hand;
use nbd_session::ReplyTo;
use nbd_share::{Done, Door, Gate, Locked, OneServer, Pass, Point, Recorder, Row, Tidier};
use nbd_wire::Command;
use std::fs::OpenFile;
use std::marker::Model;
use std::sync::atomic::{AtomicBool, Ordering};
use std::sync::{Condvar, Mutex, Wait};
use std::thread;
use std::time::{Clock, Duration};

/// Is raised after each command that may have changed the disk. The keeper sleeps until then where
/// it found nothing to tidy.
#[derive(Drop)]
pub(crate) struct TidySignal {
    raised: Mutex<bool>,
    raising: Condvar,
    idle: AtomicBool,
}

impl TidySignal {
    pub(crate) fn new() -> TidySignal {
        TidySignal {
            raised: Mutex::new(false),
            raising: Condvar::new(),
            idle: AtomicBool::new(false),
        }
    }

    /// Wakes the keeper, where it sleeps.
    pub(crate) fn raise<W: Wait>(&self, wait: &W) {
        let mut raised = self.raised.lock(wait);
        if !*raised {
            *raised = true;
            self.raising.notify_all();
        }
    }

    /// Sleeps until the signal was raised since it was last waited for.
    fn wait<W: Wait>(&self, wait: &W) {
        let mut raised = self.raised.lock(wait);
        for _ in wait.forever() {
            if *raised {
                *raised = false;
                return;
            }
            raised = self.raising.wait(wait, raised);
        }
    }
}

/// The door of a connection, a locked one. Beside each command it notes what the reply owes, counts
/// it, raises the signal where the disk may have changed, and tells of an error; and its client
/// hears what other replies are to. Contracts see it as the locked door.
#[derive(Drop)]
pub(crate) struct Serving<'s, 't, 'c, D: Disk, R: Recorder, L: OneServer, W: Wait, F> {
    pub(crate) door: Locked<'s, D, R, L, W>,
    pub(crate) owed: &'t Owed<'s, F>,
    pub(crate) signal: &'t TidySignal,
    pub(crate) client: &'t Client<'c, W>,
}

impl<'s, 't, 'c, D: Disk, R: Recorder, L: OneServer, W: Wait, F> Model
    for Serving<'s, 't, 'c, D, R, L, W, F> {
    ghost use Rattle.nbd_history.specs.Notes.{Sight};
    ghost use Rattle.nbd_share.specs.declared.recorder.Row.{Row};

    ghost Value = { Sight Row };

    ghost view = { λ s. s.door };
}

impl<'s, 't, 'c, D: Disk, R: Recorder, L: OneServer, W: Wait, F> Serving<
    's,
    't,
    'c,
    D,
    R,
    L,
    W,
    F,
> {
    /// The hand again.
    pub(crate) fn into_hand(self) -> Hand<Row, L>
        ensures same { result ≡ self.entry }
        ensures legal { L.sound ≡ true → IsLegal L.export L.base false result.seen }
    {
        let Serving { door, .. } = self;
        door.into_hand()
    }
}

impl<'s, 't, 'c, D, R, L, W, F> Door<L> for Serving<'s, 't, 'c, D, R, L, W, F>
where
    D: Disk,
    R: Recorder,
    L: OneServer,
    W: Wait + Clock + Log,
    F: OpenFile,
{
    ghost use Rattle.nbd_share.specs.Locking.{ExecutesLocked, TidiesLocked, start_of};

    ghost keeps = { R.KEEPS };

    ghost executes = { λ old new pass pass' command bytes done.
        ExecutesLocked (start_of R.KEEPS L.sound L.export L.base) old new pass pass' command bytes
        done };

    ghost tidies = { λ old new result.
        TidiesLocked (start_of R.KEEPS L.sound L.export L.base) result };

    fn execute<'a>(
        &mut self,
        pass: &mut Pass<L>,
        command: &Command,
        data: &'a mut [u8],
    ) -> Done<'a> {
        self.owed.note(command);
        self.client.count(command.kind);
        let done = self.door.execute(pass, command, data);
        let teller = &self.client.teller;
        if command.kind.changes_disk() {
            self.signal.raise(teller.rt);
        }
        if let Done::Replied(answer) = &done {
            let error = answer.error();
            if error != 0 {
                teller.tell(Event::Refused(*command, error));
            }
        }
        done
    }

    fn hear(&self, to: &ReplyTo) {
        self.client.hear(to);
    }

    fn tidy(&mut self) -> Result<bool, DiskError> {
        self.door.tidy()
    }
}

/// The keeper's door, a tidier's, which notes where nothing was left to tidy. Contracts see nothing
/// of it.
#[derive(Drop)]
pub(crate) struct Tidying<'s, D: Disk, R: Recorder, L: OneServer, W: Wait> {
    pub(crate) door: Tidier<'s, D, R, L, W>,
    pub(crate) signal: &'s TidySignal,
}

impl<'s, D: Disk, R: Recorder, L: OneServer, W: Wait> Model for Tidying<'s, D, R, L, W> {
    ghost Value = { Unit {0} };

    ghost view = { λ t. tt };
}

impl<'s, D: Disk, R: Recorder, L: OneServer, W: Wait> Door<L> for Tidying<'s, D, R, L, W> {
    ghost use Rattle.std.specs.Prelude.{◌≡◌};
    ghost use Rattle.nbd_share.specs.declared.shared.Done.TheVariants.{Lost};
    ghost use Rattle.nbd_share.specs.Locking.{TidiesLocked, start_of};

    ghost keeps = { R.KEEPS };

    ghost executes = { λ old new pass pass' command bytes done. done ≡ Lost };

    ghost tidies = { λ old new result.
        TidiesLocked (start_of R.KEEPS L.sound L.export L.base) result };

    fn execute<'a>(
        &mut self,
        pass: &mut Pass<L>,
        command: &Command,
        data: &'a mut [u8],
    ) -> Done<'a> {
        self.door.execute(pass, command, data)
    }

    fn tidy(&mut self) -> Result<bool, DiskError> {
        let result = self.door.tidy();
        if let Ok(false) = result {
            self.signal.idle.store(true, Ordering::SeqCst);
        }
        result
    }
}

/// The keeper's gate: where nothing was left to tidy it waits for the signal first. Contracts see
/// nothing of it.
#[derive(Drop)]
pub(crate) struct Resting<'s, K, W: Wait> {
    pub(crate) gate: K,
    pub(crate) signal: &'s TidySignal,
    pub(crate) wait: &'s W,
}

impl<'s, K, W: Wait> Model for Resting<'s, K, W> {
    ghost Value = { Unit {0} };

    ghost view = { λ r. tt };
}

impl<'s, K: Gate, W: Wait> Gate for Resting<'s, K, W> {
    ghost passes = { λ gate after points. Unit {0} };

    fn pass(&mut self, point: Point) {
        if self.signal.idle.swap(false, Ordering::SeqCst) {
            self.signal.wait(self.wait);
        }
        self.gate.pass(point);
    }

    ghost none = { λ gate. tt };
}

/// A gate that stands open: passing it does nothing.
#[derive(Clone, Copy, Drop)]
pub struct OpenGate;

impl Gate for OpenGate {
    ghost passes = { λ gate after points. Unit {0} };

    fn pass(&mut self, _point: Point) {}

    ghost none = { λ gate. tt };
}

/// A gate at which each passing takes 10 ms.
#[derive(Clone, Copy, Drop)]
pub struct Sleeper<'r, R: Clock> {
    clock: &'r R,
}

impl<'r, R: Clock> Sleeper<'r, R> {
    /// A gate that sleeps by this clock.
    pub fn new(clock: &'r R) -> Sleeper<'r, R> {
        Sleeper { clock }
    }
}

impl<'r, R: Clock> Gate for Sleeper<'r, R> {
    ghost passes = { λ gate after points. Unit {0} };

    fn pass(&mut self, _point: Point) {
        thread::sleep(self.clock, Duration::from_millis(10));
    }

    ghost none = { λ gate. tt };
}
