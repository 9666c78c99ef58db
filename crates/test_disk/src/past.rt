//! A plain array of what a disk holds, by which its commands and losses are judged.

use std::alloc::{AllocError, Global};
use std::test::*;
use test_kit::Dice;

/// What fills each sector, all bytes of which are the same: a plain array.
pub(crate) type Fills = [u8; 70];

/// A WRITE of this byte to so many sectors; with 0 a TRIM.
#[derive(Clone, Copy)]
pub(crate) struct Command {
    pub(crate) first: u32,
    pub(crate) count: u32,
    pub(crate) fill: u8,
}

/// A command by dice; many are of few sectors.
pub(crate) fn drawn(dice: &mut Dice) -> Command {
    let hot = if dice.below(2) == 0 { 4 } else { 62 };
    Command {
        first: dice.below(hot),
        count: dice.below(8).saturating_add(1),
        fill: if dice.below(4) == 0 {
            0
        } else {
            dice.below(256) as u8
        },
    }
}

/// The array once a command is done.
fn after(fills: Fills, command: Command) -> Fills {
    let mut fills = fills;
    for fill in fills
        .iter_mut()
        .skip(command.first as usize)
        .take(command.count as usize)
    {
        *fill = command.fill;
    }
    fills
}

/// The array by which a run is judged.
#[derive(Drop)]
pub(crate) struct Past {
    /// As acknowledged.
    held: Fills,
    /// At the last flush and after each command since, the last of which may be interrupted.
    since: Vec<Fills>,
    /// How many losses of the power were judged.
    pub(crate) losses: u32,
}

impl Past {
    /// A disk of zeros.
    pub(crate) fn new(alloc: Global) -> Result<Past, AllocError> {
        Ok(Past {
            held: [0; 70],
            since: vec![in alloc; [0; 70]]?,
            losses: 0,
        })
    }

    /// A command begins.
    pub(crate) fn begin(&mut self, command: Command) -> Result<(), AllocError> {
        Ok(self.since.push(after(self.held, command))?)
    }

    /// It is acknowledged.
    pub(crate) fn end(&mut self, command: Command) {
        self.held = after(self.held, command);
    }

    /// A FLUSH is acknowledged.
    pub(crate) fn flush(&mut self) -> Result<(), AllocError> {
        self.since.clear();
        Ok(self.since.push(self.held)?)
    }

    /// A kill left this: all that was acknowledged, and all or nothing of an interrupted command.
    pub(crate) fn kill(&mut self, found: Fills) -> Result<(), Fail> {
        if found != self.held && self.since.last() != Some(&found) {
            return Err(Fail::new("a kill lost what was acknowledged"));
        }
        self.held = found;
        Ok(self.since.push(found)?)
    }

    /// A loss of the host's power left this: what the disk held at a moment since the last flush.
    pub(crate) fn lose(&mut self, found: Fills) -> Result<(), Fail> {
        if !self.since.iter().any(|state| *state == found) {
            return Err(Fail::new("a loss of power left another disk"));
        }
        self.losses = self.losses.saturating_add(1);
        Ok(())
    }
}
