//! How far a chip has been read.

ghost use Rattle.std.specs.Prelude.{◌≡◌};

use crate::noting::Noted;
use chip_model::{NoAnswer, Programmer, Turn};
use norbd_line::{ChipCause, Doing};
use serprog::Troubled;
use spi_frames::{Instruction, decode};
use std::thread;
use std::time::{Clock, Duration};

/// The bytes of a piece in which a chip is read as a whole.
const PIECE: u32 = 4_096;

/// How many microseconds are waited after a status read that showed BUSY: 65,535 such reads, after
/// which an operation counts as slow, then outlast each of a W25Q128JV, the longest of which takes
/// 2 s, and the seconds after which it counts as lost. Source: its datasheet, "AC Electrical
/// Characteristics", for the 2 s.
const REST: u64 = 50;

/// After how many seconds of BUSY an operation counts as lost.
const MOST_BUSY: u64 = 3;

/// After how many seconds of BUSY a chip counts as lost where nothing was begun here: it may be a
/// chip erase, which takes 200 s at most. Source: the datasheet, likewise.
const MOST_BUSY_AT_START: u64 = 210;

/// The same of a chip that was lost: what was begun with it ends in 2 s, and one that hangs may
/// have its power switched.
const MOST_BUSY_AT_RETURN: u64 = 30;

/// Where it is told how far a chip has been read.
pub trait Report {
    /// So many KiB were read from the chip's beginning on. A failure to tell is passed over.
    fn tell_read(&self, kib: u32);

    /// The chip has been busy for so many seconds, which is waited for. A failure to tell is passed
    /// over.
    fn tell_busy(&self, seconds: u64);

    /// The programmer set this clock, in Hz. A failure to tell is passed over.
    fn tell_clock(&self, hz: u32);

    /// The chip was lost, for this cause, and is looked at once more. A failure to tell is passed
    /// over.
    fn tell_lost(&self, cause: ChipCause);

    /// The chip that was lost is as it has to be. A failure to tell is passed over.
    fn tell_back(&self);
}

/// The pieces of a chip that were read one after another, and when that was told last.
#[derive(Drop)]
struct Pace<'r, R, T> {
    clock: &'r R,
    report: T,
    next: u32,
    told: Duration,
}

impl<R: Clock, T: Report> Pace<'_, R, T> {
    /// Notes a piece that was read, and tells of it where a second has gone by.
    fn note(&mut self, place: u32) {
        let Ok(now) = self.clock.monotonic() else {
            return;
        };
        if place == 0 {
            self.told = now;
        } else if place != self.next {
            return;
        }
        self.next = place.saturating_add(PIECE);
        if now.as_secs() > self.told.as_secs() {
            self.told = now;
            self.report.tell_read(self.next / 1_024);
        }
    }
}

/// Where a frame reads a piece: its address.
fn piece_of(send: &[u8], count: usize) -> Option<u32> {
    match decode(send) {
        Instruction::Read(place) if count == PIECE as usize => Some(place),
        _ => None,
    }
}

/// The status that a frame read.
fn status_in(send: &[u8], recv: &[u8]) -> Option<u8> {
    match (send, recv) {
        ([0x05], [status, ..]) => Some(*status),
        _ => None,
    }
}

/// Whether it is told that a chip has been busy for so many seconds, where so many were told: each
/// one of a start, the first of a return, and none of what was begun here.
fn is_told(doing: Doing, seconds: u64, told: u64) -> bool {
    match doing {
        Doing::Start => seconds > told,
        Doing::Return => seconds > 0 && told == 0,
        _ => false,
    }
}

/// After how many seconds of BUSY a chip with this status counts as lost. With FFh none answers: no
/// chip drives the line.
fn most_busy(doing: Doing, status: u8) -> u64 {
    match doing {
        Doing::Start if status != 0xFF => MOST_BUSY_AT_START,
        Doing::Return if status != 0xFF => MOST_BUSY_AT_RETURN,
        _ => MOST_BUSY,
    }
}

/// How long a chip has been busy.
#[derive(Clone, Copy)]
struct Wait {
    since: Duration,
    told: u64,
}

/// A programmer that spaces the status reads of what is in progress, and ends the wait for it after
/// some seconds; that notes what is done with the chip, and why a frame isn't exchanged; and of
/// which it is told each second how far a chip has been read where all of it is, and how long a
/// start has waited for its end of BUSY.
#[derive(Drop)]
pub struct PacedProgrammer<'r, 'n, R, T, P> {
    programmer: P,
    pace: Pace<'r, R, T>,
    wait: Option<Wait>,
    noted: &'n Noted,
}

impl<'r, 'n, R, T, P> PacedProgrammer<'r, 'n, R, T, P> {
    /// The programmer, with nothing read.
    pub fn new(
        clock: &'r R,
        report: T,
        noted: &'n Noted,
        programmer: P,
    ) -> PacedProgrammer<'r, 'n, R, T, P> {
        PacedProgrammer {
            programmer,
            pace: Pace {
                clock,
                report,
                next: 0,
                told: Duration::from_secs(0),
            },
            wait: None,
            noted,
        }
    }
}

impl<R: Clock, T: Report, P: Programmer + Troubled> PacedProgrammer<'_, '_, R, T, P> {
    ghost use Rattle.std.specs.Prelude.{◌≡◌};

    /// Waits a little after a status read that showed BUSY, and tells how long that has been.
    /// `NoAnswer` where it has been too long.
    fn rest(&mut self, status: u8) -> Result<(), NoAnswer>
        ensures { self.new.programmer ≡ self.old.programmer }
    {
        thread::sleep(self.pace.clock, Duration::from_micros(REST));
        let Ok(now) = self.pace.clock.monotonic() else {
            return Ok(());
        };
        let (since, told) = match self.wait {
            Some(wait) => (wait.since, wait.told),
            None => (now, 0),
        };
        let seconds = now.saturating_sub(since).as_secs();
        let doing = self.noted.doing();
        if status != 0xFF && is_told(doing, seconds, told) {
            self.pace.report.tell_busy(seconds);
        }
        self.wait = Some(Wait {
            since,
            told: seconds,
        });
        if seconds < most_busy(doing, status) {
            return Ok(());
        }
        self.wait = None;
        self.noted.note_busy(seconds, status == 0xFF);
        Err(NoAnswer)
    }

    /// Looks at frames that were exchanged.
    fn look_at_each(&mut self, turns: &[Turn]) -> Result<(), NoAnswer>
        ensures { self.new.programmer ≡ self.old.programmer }
    {
        for turn in turns.iter() {
            self.look_at(&turn.send, &turn.recv)?;
        }
        Ok(())
    }

    /// Looks at a frame that was exchanged.
    fn look_at(&mut self, send: &[u8], recv: &[u8]) -> Result<(), NoAnswer>
        ensures { self.new.programmer ≡ self.old.programmer }
    {
        if self.noted.has_returned() {
            self.pace.report.tell_back();
        }
        if let Some(place) = piece_of(send, recv.len()) {
            self.pace.note(place);
        }
        match status_in(send, recv) {
            Some(status) if status % 2 == 1 => self.rest(status),
            Some(_) => {
                self.wait = None;
                Ok(())
            }
            None => Ok(()),
        }
    }
}

impl<R: Clock, T: Report, P: Programmer + Troubled> Programmer
    for PacedProgrammer<'_, '_, R, T, P> {
    ghost exchanged = { λ p. P.exchanged p.programmer };

    fn exchange(&mut self, send: &[u8], recv: &mut [u8]) -> Result<(), NoAnswer> {
        self.noted.note_frame(send, recv.len());
        match self.programmer.exchange(send, recv) {
            Ok(()) => self.look_at(send, recv),
            Err(NoAnswer) => {
                self.noted.note_trouble(self.programmer.trouble());
                Err(NoAnswer)
            }
        }
    }

    fn exchange_all(&mut self, turns: &mut [Turn]) -> Result<(), NoAnswer> {
        // The last that is noted stands: of several reads, the one with which they begin.
        for turn in turns.iter().rev() {
            self.noted.note_frame(&turn.send, turn.recv.len());
        }
        match self.programmer.exchange_all(turns) {
            Ok(()) => self.look_at_each(turns),
            Err(NoAnswer) => {
                self.noted.note_trouble(self.programmer.trouble());
                Err(NoAnswer)
            }
        }
    }

    fn reopen(&mut self) -> bool {
        self.wait = None;
        self.pace.report.tell_lost(self.noted.cause());
        self.noted.note_return();
        self.programmer.reopen()
    }
}
