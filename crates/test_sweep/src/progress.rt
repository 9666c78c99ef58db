//! The line that says how far the sweep has come.

use crate::failure::Failure;
use std::rt::Clock;
use std::time::Instant;

/// How far a sweep has come.
#[derive(Drop)]
pub struct Progress {
    start: Instant,
    /// The work of the whole sweep, and what is done of it.
    total: u64,
    done: u64,
    /// The losses that came.
    losses: u64,
    /// The second in which it was last told.
    told: u64,
}

/// The seconds that the rest takes, where what is done took so many.
fn seconds_left(elapsed: u64, done: u64, total: u64) -> u64 {
    let rest = u128::from(total.saturating_sub(done));
    (u128::from(elapsed) * rest / u128::from(done.max(1))).min(u128::from(u64::MAX)) as u64
}

impl Progress {
    pub fn new(clock: &impl Clock, total: u64) -> Result<Progress, Failure> {
        match Instant::now(clock) {
            Ok(start) => Ok(Progress {
                start,
                total,
                done: 0,
                losses: 0,
                told: 0,
            }),
            Err(_) => Err(Failure::NoClock),
        }
    }

    /// A loss more is done, which was so much work. Tells it once a second.
    pub fn step<R: Clock + Eprint>(&mut self, rt: &R, work: u64) -> Result<(), Failure> {
        self.done = self.done.saturating_add(work);
        self.losses = self.losses.saturating_add(1);
        let Ok(elapsed) = self.start.elapsed(rt) else {
            return Err(Failure::NoClock);
        };
        let seconds = elapsed.as_secs();
        if seconds != self.told {
            self.told = seconds;
            let percent = self.done.saturating_mul(100) / self.total.max(1);
            let losses = self.losses;
            let left = seconds_left(seconds, self.done, self.total);
            let _ = eprint!(rt; "\r{percent:>3} %, {losses} losses, {left} s left   ");
        }
        Ok(())
    }
}
