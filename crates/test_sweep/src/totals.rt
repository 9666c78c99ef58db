//! What the sweep of a chip came to.

use crate::chip::Chip;
use crate::failure::Failure;
use crate::sweeper::{Loss, Return, Sweeper};
use std::fmt;
use test_judge::Seen;

/// The most restores that one loss is followed by.
const MOST_RESTORES: u32 = 1_000;

/// What the sweep of a chip and of a kind of losses came to.
#[derive(Clone, Copy)]
pub struct Totals {
    pub chip: Chip,
    pub kind: u8,
    /// The first count without a loss.
    pub first: u32,
    /// The losses in the fixed script.
    pub losses: u32,
    /// What all runs have seen.
    pub seen: Seen,
}

impl Totals {
    pub fn new(chip: Chip, kind: u8) -> Totals {
        Totals {
            chip,
            kind,
            first: 0,
            losses: 0,
            seen: Seen::nothing(),
        }
    }

    /// Runs the fixed script with a loss, and where it came in a change once more with each loss of
    /// the restore after it. Whether the loss came.
    pub fn cut(&mut self, sweeper: &mut Sweeper, loss: Loss) -> Result<bool, Failure> {
        let seen = sweeper.run(loss, Return::Whole)?;
        if seen.losses == 0 {
            self.first = loss.count;
            return Ok(false);
        }
        self.losses = self.losses.wrapping_add(1);
        self.seen.add(seen);
        if loss.kind == 1 {
            self.seen.add(sweeper.run(loss, Return::Staircase)?);
            self.nest(sweeper, loss)?;
        }
        Ok(true)
    }

    /// Runs it once for each change of the restore after the loss, which is lost in that change.
    fn nest(&mut self, sweeper: &mut Sweeper, loss: Loss) -> Result<(), Failure> {
        for change in 1..MOST_RESTORES {
            let seen = sweeper.run(loss, Return::Second(change))?;
            self.seen.add(seen);
            if seen.lost_restores == 0 {
                return Ok(());
            }
        }
        Err(Failure::Endless)
    }
}

/// The heading of the table.
pub const HEADING: &str =
    "chip      losses in    of them   losses     nested        old        new";

impl fmt::Display for Totals {
    fn fmt<W: fmt::Write>(&self, f: &mut fmt::Formatter<W>) -> fmt::Result {
        let name = self.chip.name();
        let counted = if self.kind == 0 { "frames" } else { "changes" };
        let number = self.first.saturating_sub(1);
        let losses = self.losses;
        let (nested, olds, news) = (self.seen.lost_restores, self.seen.olds, self.seen.news);
        write!(
            f,
            "{name:<10}{counted:<9}{number:>9}{losses:>9}{nested:>11}{olds:>11}{news:>11}"
        )
    }
}
