//! How far long work is, shown on a terminal.

ghost use Rattle.std.specs.Prelude.{◌≡◌, ◌*◌, ◌/◌, ◌<◌, ◌≤◌};

use norbd_survey::Doubtful;
use norbd_transfer::Observer;
use std::fmt;
use std::io::IsTerminal;
use std::time::{Clock, Duration};

/// How far a transfer of sectors is.
#[derive(Clone, Copy, Debug, PartialEq, Eq)]
pub struct Progress {
    /// How much of it is done in percent, from 0 to 100.
    pub percent: u32,
    /// How fast it goes in KiB a second, from its beginning on.
    pub rate: u64,
}

impl fmt::Display for Progress {
    fn fmt<W: fmt::Write>(&self, f: &mut fmt::Formatter<W>) -> fmt::Result {
        write!(f, "{} %, {} KiB/s", self.percent, self.rate)
    }
}

/// Where it is shown how far long work is; nowhere if nothing else is said.
pub trait Screen {
    /// Whether it is shown.
    fn is_shown(&self) -> bool {
        false
    }

    /// Shows it. A failure to do so is passed over.
    fn show(&self, _progress: Progress) {}

    /// Tells what is doubtful of an image; nowhere if nothing else is said.
    fn doubt(&self, _doubt: Doubtful<'_>) {}
}

impl Screen for HostRuntime {
    /// Where standard error is a terminal.
    fn is_shown(&self) -> bool {
        self.stderr().is_terminal()
    }

    /// A line on standard error.
    fn show(&self, progress: Progress) {
        let _ = eprintln!(self; "norbd: {progress}");
    }

    /// A line on standard error.
    fn doubt(&self, doubt: Doubtful<'_>) {
        let _ = eprintln!(self; "norbd: {doubt}");
    }
}

/// Who shows how far a transfer of sectors is, at most once a second; nothing where it isn't shown,
/// or the clock fails.
#[derive(Drop)]
pub struct Meter<'r, R> {
    rt: &'r R,
    shown: bool,
    began: Duration,
    told: Duration,
}

impl<'r, R: Clock + Screen> Meter<'r, R> {
    /// A transfer that begins now.
    pub fn new(rt: &'r R) -> Meter<'r, R> {
        let (shown, now) = match rt.monotonic() {
            Ok(now) => (rt.is_shown(), now),
            Err(_) => (false, Duration::from_secs(0)),
        };
        Meter {
            rt,
            shown,
            began: now,
            told: now,
        }
    }
}

impl<R: Clock + Screen> Observer for Meter<'_, R> {
    fn note(&mut self, done: u32, all: u32) {
        if !self.shown {
            return;
        }
        let Ok(now) = self.rt.monotonic() else {
            return;
        };
        if now.saturating_sub(self.told).as_secs() == 0 {
            return;
        }
        self.told = now;
        let passed = now.saturating_sub(self.began).as_millis();
        self.rt.show(progress_of(done, all, passed));
    }
}

/// So many of so many sectors, after so many milliseconds.
fn progress_of(done: u32, all: u32, millis: u128) -> Progress
    ensures percent { 0 < all → done ≤ all → result.percent ≡ 100 * done / all }
{
    let percent = match all {
        0 => 100,
        _ => 100 * done as u64 / all as u64,
    };
    let rate = match millis {
        0 => 0,
        _ => 500 * done as u128 / millis,
    };
    Progress {
        percent: percent.min(100) as u32,
        rate: rate.min(u64::MAX as u128) as u64,
    }
}
