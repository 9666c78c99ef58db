//! The connections and their disk.

ghost use Rattle.std.specs.Prelude.{◌≡◌, not, All, IfOk, vec_len};

use crate::entries::{ABSENT, DONE, LOST, NO_ONE, SHUT, STUCK, put, tell};
use crate::event::{Event, NewError};
use crate::piece::take_piece;
use block_device::{Disk, DiskError, Failed, Sink};
use nbd_connection::PieceOutcome;
use nbd_session::Session;
use nbd_wire::Export;
use std::alloc::Global;
use std::marker::Model;

/// How many connections there are.
pub(crate) const CONNECTIONS: usize = 8;

/// Eight connections and one disk.
#[derive(Drop)]
pub(crate) struct Hub<D: Disk> {
    disk: D,
    export: Export,
    power: bool,
    sessions: Vec<Session>,
    is_open: [bool; 8],
}

impl<D: Disk> Model for Hub<D> {
    ghost use Rattle.std.specs.Prelude.{◌≡◌, ◌*◌, length, vec_len, All};
    ghost use Rattle.nbd_station.specs.StationState.{StationState};

    ghost Value = { StationState };

    ghost view = { λ s. record {
      disk = D.facts s.disk;
      export = s.export;
      power = s.power;
      sessions = s.sessions.items;
      is_open = s.is_open;
    } };

    ghost invariant = { λ s. record {
      eight : vec_len s.sessions ≡ 8;
      size : length (D.facts s.disk).contents ≡ 512 * s.export.sectors;
      same : All (λ session. session.export ≡ s.export) s.sessions.items;
    } };
}

impl<D: Disk> Hub<D> {
    ghost use Rattle.std.specs.Prelude.{◌≡◌, false, true, replicate, length, IfOk, IfErr, OnOk};
    ghost use Rattle.std.specs.Prelude.{OnErr};
    ghost use Rattle.block_device.specs.Facts.{CountsNeverFall};
    ghost use Rattle.nbd_station.specs.declared.event.Event.{Event};
    ghost use Rattle.nbd_station.specs.StationState.{IsNew, memories};
    ghost use Rattle.nbd_station.specs.Running.{Ends, FailsOnly, Runs};
    ghost use Rattle.nbd_station.specs.Moving.{Does, HangsUp, Moves};
    ghost use Rattle.nbd_station.specs.Telling.{AllTold, EventTold};

    /// The power went: every connection is closed.
    fn go_dark(&mut self)
        ensures { self.new ≡ record self.old { power = false; is_open = replicate 8 false } }
    {
        self.power = false;
        self.is_open = [false; CONNECTIONS];
    }

    /// Does a step of the disk's tidying.
    fn tidy<W: Sink>(&mut self, out: &mut W) -> Result<(), Failed>
        ensures goes { CountsNeverFall self.old.disk self.new.disk }
        ensures memory { memories self.new ≡ memories self.old }
        ensures faults { FailsOnly (W.faults out.old) result (W.faults out.new) }
        ensures does { Does self.old self.new Event.Tidy (W.written out.old) result
            (W.written out.new) }
        ensures tells { OnOk result (EventTold self.old Event.Tidy (W.written out.old)
            (W.written out.new) self.new) }
    {
        if !self.power {
            return put(out, NO_ONE, LOST, &[]);
        }
        match self.disk.tidy() {
            Ok(_) => put(out, NO_ONE, DONE, &[]),
            Err(DiskError::Slow) => put(out, NO_ONE, STUCK, &[]),
            Err(DiskError::Cut) => {
                self.go_dark();
                put(out, NO_ONE, LOST, &[])
            }
        }
    }

    /// Turns the power on anew.
    fn restore<W: Sink>(&mut self, out: &mut W) -> Result<(), Failed>
        ensures goes { CountsNeverFall self.old.disk self.new.disk }
        ensures memory { memories self.new ≡ memories self.old }
        ensures faults { FailsOnly (W.faults out.old) result (W.faults out.new) }
        ensures does { Does self.old self.new Event.Restore (W.written out.old) result
            (W.written out.new) }
        ensures tells { OnOk result (EventTold self.old Event.Restore (W.written out.old)
            (W.written out.new) self.new) }
    {
        match self.disk.restore() {
            Ok(()) => {
                self.power = true;
                put(out, NO_ONE, DONE, &[])
            }
            Err(DiskError::Slow) => {
                self.power = true;
                put(out, NO_ONE, STUCK, &[])
            }
            Err(DiskError::Cut) => {
                self.go_dark();
                put(out, NO_ONE, LOST, &[])
            }
        }
    }

    /// Opens a connection.
    fn open<W: Sink>(&mut self, who: u8, out: &mut W) -> Result<(), Failed>
        ensures goes { CountsNeverFall self.old.disk self.new.disk }
        ensures memory { memories self.new ≡ memories self.old }
        ensures faults { FailsOnly (W.faults out.old) result (W.faults out.new) }
        ensures does { Does self.old self.new (Event.Open who) (W.written out.old) result
            (W.written out.new) }
        ensures tells { OnOk result (EventTold self.old (Event.Open who) (W.written out.old)
            (W.written out.new) self.new) }
    {
        if !self.power {
            return put(out, who, LOST, &[]);
        }
        let at = who as usize;
        if at >= CONNECTIONS || self.is_open[at] {
            return put(out, who, ABSENT, &[]);
        }
        self.is_open[at] = true;
        let session = &mut self.sessions[at];
        session.reset();
        if let Err(e) = tell(out, who, session.reply()) {
            return Err(e);
        }
        put(out, who, DONE, &[])
    }

    /// Closes a connection.
    fn gone<W: Sink>(&mut self, who: u8, out: &mut W) -> Result<(), Failed>
        ensures goes { CountsNeverFall self.old.disk self.new.disk }
        ensures memory { memories self.new ≡ memories self.old }
        ensures faults { FailsOnly (W.faults out.old) result (W.faults out.new) }
        ensures does { Does self.old self.new (Event.Gone who) (W.written out.old) result
            (W.written out.new) }
        ensures tells { OnOk result (EventTold self.old (Event.Gone who) (W.written out.old)
            (W.written out.new) self.new) }
    {
        if !self.power {
            return put(out, who, LOST, &[]);
        }
        let at = who as usize;
        if at >= CONNECTIONS || !self.is_open[at] {
            return put(out, who, ABSENT, &[]);
        }
        // its session is made anew where it is opened again
        let open = &mut self.is_open[at];
        *open = false;
        put(out, who, DONE, &[])
    }

    /// Takes bytes of a connection.
    fn take<W: Sink>(&mut self, who: u8, bytes: &[u8], out: &mut W) -> Result<(), Failed>
        ensures goes { CountsNeverFall self.old.disk self.new.disk }
        ensures memory { memories self.new ≡ memories self.old }
        ensures faults { FailsOnly (W.faults out.old) result (W.faults out.new) }
        ensures does { Does self.old self.new (Event.Piece who bytes.entry) (W.written out.old)
            result (W.written out.new) }
        ensures tells { OnOk result (EventTold self.old (Event.Piece who bytes.entry)
            (W.written out.old) (W.written out.new) self.new) }
    {
        if !self.power {
            return put(out, who, LOST, &[]);
        }
        let at = who as usize;
        if at >= CONNECTIONS || !self.is_open[at] {
            return put(out, who, ABSENT, &[]);
        }
        match take_piece(&mut self.disk, &mut self.sessions[at], who, bytes, out) {
            PieceOutcome::Open => put(out, who, DONE, &[]),
            PieceOutcome::Closed => {
                self.is_open[at] = false;
                put(out, who, SHUT, &[])
            }
            PieceOutcome::Lost => {
                self.go_dark();
                put(out, who, LOST, &[])
            }
            PieceOutcome::OutputFailed => Err(Failed),
        }
    }

    /// Answers one event.
    fn answer<W: Sink>(&mut self, event: Event, out: &mut W) -> Result<(), Failed>
        ensures goes { CountsNeverFall self.old.disk self.new.disk }
        ensures memory { memories self.new ≡ memories self.old }
        ensures faults { FailsOnly (W.faults out.old) result (W.faults out.new) }
        ensures does { Does self.old self.new event.entry (W.written out.old) result
            (W.written out.new) }
        ensures tells { OnOk result (EventTold self.old event.entry (W.written out.old)
            (W.written out.new) self.new) }
    {
        match event {
            Event::Open(who) => self.open(who, out),
            Event::Piece(who, bytes) => self.take(who, bytes, out),
            Event::Gone(who) => self.gone(who, out),
            Event::Tidy => self.tidy(out),
            Event::Restore => self.restore(out),
        }
    }

    /// Answers one event. Where the output fails, every connection is closed.
    pub(crate) fn step<W: Sink>(&mut self, event: Event, out: &mut W) -> Result<(), Failed>
        ensures goes { CountsNeverFall self.old.disk self.new.disk }
        ensures memory { memories self.new ≡ memories self.old }
        ensures faults { FailsOnly (W.faults out.old) result (W.faults out.new) }
        ensures moves { OnOk result (Moves self.old self.new event.entry (W.written out.old)
            (W.written out.new)) }
        ensures tells { OnOk result (EventTold self.old event.entry (W.written out.old)
            (W.written out.new) self.new) }
        ensures hangs { OnErr result (HangsUp self.old self.new event.entry (W.written out.old)
            (W.written out.new)) }
        ensures closed { OnErr result (self.new.is_open ≡ replicate 8 false) }
    {
        match self.answer(event, out) {
            Ok(()) => Ok(()),
            Err(e) => {
                self.is_open = [false; 8];
                Err(e)
            }
        }
    }

    /// Answers events in order, and says how many.
    pub(crate) fn run<W: Sink>(&mut self, events: &[Event], out: &mut W) -> Result<usize, Failed>
        ensures number { IfOk result (λ n. n ≡ length events.now) }
        ensures goes { CountsNeverFall self.old.disk self.new.disk }
        ensures memory { memories self.new ≡ memories self.old }
        ensures faults { FailsOnly (W.faults out.old) result (W.faults out.new) }
        ensures says { OnOk result (Runs self.old self.new events.now (W.written out.old)
            (W.written out.new)) }
        ensures tells { OnOk result (AllTold self.old events.now (W.written out.old)
            (W.written out.new) self.new) }
        ensures ends { OnErr result (Ends self.old self.new events.now (W.written out.old)
            (W.written out.new)) }
        ensures closed { OnErr result (self.new.is_open ≡ replicate 8 false) }
    {
        for event in events {
            if let Err(e) = self.step(*event, out) {
                return Err(e);
            }
        }
        Ok(events.len())
    }

    /// A hub with every connection closed, or the disk back where there is no memory.
    pub(crate) fn new(alloc: Global, disk: D) -> Result<Hub<D>, D>
        ensures new { IfOk result (λ hub. IsNew (D.facts disk) hub) }
        ensures back { IfErr result (λ back. back ≡ disk) }
    {
        let mut disk = disk;
        let export = Export::default_for(disk.sectors());
        let Ok(sessions) = open_all(alloc, export) else {
            return Err(disk);
        };
        let power = has_power(&mut disk);
        Ok(Hub {
            disk,
            export,
            power,
            sessions,
            is_open: [false; 8],
        })
    }
}

impl<D: Disk> Hub<D> {
    ghost use Rattle.std.specs.Prelude.{◌≡◌};

    /// Arms a loss of power in a simulated chip below the disk.
    pub(crate) fn arm(&mut self, count: u32, kind: u8, mask: u8)
        ensures { self.new ≡ self.old }
    {
        self.disk.arm(count, kind, mask);
    }

    /// The disk.
    pub(crate) fn into_inner(self) -> D
        ensures { D.facts result ≡ self.disk }
    {
        self.disk
    }
}

/// Whether no Cut is latched in the disk, which a flush tells.
fn has_power<D: Disk>(disk: &mut D) -> bool
    ensures facts { D.facts disk.new ≡ D.facts disk.old }
    ensures power { (D.facts disk.old).cut ≡ not result }
{
    match disk.flush() {
        Ok(()) => true,
        Err(DiskError::Cut) => false,
        Err(DiskError::Slow) => false,
    }
}

/// All sessions, for this export.
fn open_all(alloc: Global, export: Export) -> Result<Vec<Session>, NewError>
    ensures eight { IfOk result (λ sessions. vec_len sessions ≡ 8) }
    ensures same { IfOk result (λ sessions.
        All (λ session. session.export ≡ export) sessions.items) }
{
    let mut sessions = Vec::new(alloc);
    for _ in 0..CONNECTIONS {
        let Ok(session) = Session::open(alloc, export) else {
            return Err(NewError::OutOfMemory);
        };
        if sessions.push(session).is_err() {
            return Err(NewError::OutOfMemory);
        }
    }
    Ok(sessions)
}
