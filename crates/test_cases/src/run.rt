//! A case, run line by line.

use crate::bench::Bench;
use crate::chip::Loss;
use crate::fault::Fault;
use crate::losses::{Line, Losses};
use crate::names::Names;
use crate::words::halves;
use std::alloc::Global;

/// Why a line did not come out as written.
#[derive(Drop)]
pub(crate) enum Wrong<'a> {
    /// Something else came of it; the second text says after which loss of power.
    Otherwise(Line<'a>, String, String),
    /// It could not be run.
    NotRun(usize, Fault),
}

/// The answer to a line, or why it could not be run.
pub(crate) fn at<'a, T: Drop>(line: Line<'a>, answer: Result<T, Fault>) -> Result<T, Wrong<'a>> {
    match answer {
        Ok(value) => Ok(value),
        Err(fault) => Err(Wrong::NotRun(line.number, fault)),
    }
}

/// How often a line is run, and which: `70000 times frame 05` is `frame 05`, so often.
fn times(text: &str) -> (u32, &str) {
    match text.split_once(" times ") {
        Some((number, rest)) => match number.parse::<u32>() {
            Ok(number) => (number, rest),
            Err(_) => (1, text),
        },
        None => (1, text),
    }
}

/// A line that is run once for each number from `from` to `to`: its word, and what comes behind the
/// number.
#[derive(Drop)]
struct Range<'a> {
    verb: &'a str,
    from: u32,
    to: u32,
    rest: &'a str,
}

/// The numbers of a line, as of `find 0..69 : 00*512`. None where it has one or none.
fn read_range(text: &str) -> Option<Range<'_>> {
    let (verb, behind) = text.split_once(' ')?;
    let (numbers, rest) = behind.split_once(' ').unwrap_or((behind, ""));
    let (from, to) = numbers.split_once("..")?;
    let from = from.parse::<u32>().ok()?;
    let to = to.parse::<u32>().ok()?;
    if to < from {
        return None;
    }
    Some(Range {
        verb,
        from,
        to,
        rest,
    })
}

/// A loss of power as a text, and the second one where there is one.
fn tell_loss(alloc: Global, loss: Loss, second: u32) -> Result<String, Fault> {
    let Loss { count, kind, mask } = loss;
    let what = if kind == 0 { "frame" } else { "change" };
    if second == 0 {
        return Ok(format!(in alloc; "{what} {count}, mask {mask:02X}")?);
    }
    Ok(format!(in alloc; "{what} {count}, mask {mask:02X}, and then {what} {second}")?)
}

/// The wrong answer that a line made so many changes, or that it made more.
fn wrong_number<'a>(alloc: Global, line: Line<'a>, made: u32, is_more: bool) -> Wrong<'a> {
    let more = if is_more { "more than " } else { "" };
    match format!(in alloc; "{more}{made}") {
        Ok(text) => Wrong::Otherwise(line, text, String::new(alloc)),
        Err(_) => Wrong::NotRun(line.number, Fault::NoMemory),
    }
}

/// What a case has come to.
#[derive(Drop)]
pub(crate) struct Case<'a> {
    bench: Bench,
    /// Its lines so far, but those of losses.
    past: Vec<Line<'a>>,
}

impl<'a> Case<'a> {
    /// A case of which no line was run.
    pub(crate) fn new(alloc: Global) -> Case<'a> {
        Case {
            bench: Bench::new(alloc),
            past: Vec::new(alloc),
        }
    }

    /// Runs a line: None where what came of it is what it says, and else what came.
    fn other(&mut self, alloc: Global, names: &Names, text: &str) -> Result<Option<String>, Fault> {
        let (what, wanted) = halves(text);
        let came = self.bench.run(alloc, names, what, wanted)?;
        if came.is(alloc, names, wanted)? {
            return Ok(None);
        }
        Ok(Some(came.tell(alloc)?))
    }

    /// Runs a line for each of its numbers: None where what came of each is what it says, and else
    /// the first other one and what came of it.
    fn first_other(
        &mut self,
        alloc: Global,
        names: &Names,
        range: Range,
    ) -> Result<Option<String>, Fault> {
        let Range {
            verb,
            from,
            to,
            rest,
        } = range;
        for number in from..to.saturating_add(1) {
            let text = format!(in alloc; "{verb} {number} {rest}")?;
            if let Some(came) = self.other(alloc, names, text.as_str())? {
                return Ok(Some(format!(in alloc; "at {number}: {}", came.as_str())?));
            }
        }
        Ok(None)
    }

    /// Runs a line after a loss of power, or after none, and compares what came of it.
    fn check(
        &mut self,
        alloc: Global,
        names: &Names,
        line: Line<'a>,
        loss: Option<(Loss, u32)>,
    ) -> Result<(), Wrong<'a>> {
        let answer = match read_range(line.text) {
            Some(range) => self.first_other(alloc, names, range),
            None => self.other(alloc, names, line.text),
        };
        let Some(came) = at(line, answer)? else {
            return Ok(());
        };
        let told = match loss {
            Some((loss, second)) => at(line, tell_loss(alloc, loss, second))?,
            None => String::new(alloc),
        };
        Err(Wrong::Otherwise(line, came, told))
    }

    /// Runs a line as often as it says.
    fn repeat(&mut self, alloc: Global, names: &Names, line: Line<'a>) -> Result<(), Wrong<'a>> {
        let (count, text) = times(line.text);
        let once = Line {
            number: line.number,
            text,
        };
        for _ in 0..count {
            self.check(alloc, names, once, None)?;
        }
        Ok(())
    }

    /// Runs a line of the case.
    pub(crate) fn line(
        &mut self,
        alloc: Global,
        names: &Names,
        line: Line<'a>,
    ) -> Result<(), Wrong<'a>> {
        self.repeat(alloc, names, line)?;
        match self.past.push(line) {
            Ok(()) => Ok(()),
            Err(_) => Err(Wrong::NotRun(line.number, Fault::NoMemory)),
        }
    }

    /// The case anew, up to where it is.
    fn again(&self, alloc: Global, names: &Names) -> Result<Case<'a>, Wrong<'a>> {
        let mut again = Case::new(alloc);
        for line in self.past.iter() {
            again.repeat(alloc, names, *line)?;
        }
        Ok(again)
    }

    /// Arms a loss and runs a line: whether it was lost.
    fn is_lost(
        &mut self,
        alloc: Global,
        names: &Names,
        line: Line,
        loss: Loss,
    ) -> Result<bool, Fault> {
        self.bench.arm(alloc, loss)?;
        let (what, wanted) = halves(line.text);
        let came = self.bench.run(alloc, names, what, wanted)?;
        Ok(came.is_cut())
    }

    /// Runs the lines that come after a loss.
    fn after(
        &mut self,
        alloc: Global,
        names: &Names,
        losses: &Losses<'a>,
        loss: (Loss, u32),
    ) -> Result<(), Wrong<'a>> {
        for line in losses.lines.iter() {
            self.check(alloc, names, *line, Some(loss))?;
        }
        Ok(())
    }

    /// Loses the power once more in this change of the first line after a loss; 0 for none. False
    /// where it doesn't come.
    fn is_lost_again(
        &mut self,
        alloc: Global,
        names: &Names,
        losses: &Losses<'a>,
        loss: Loss,
        second: u32,
    ) -> Result<bool, Wrong<'a>> {
        let Some(recovery) = losses.lines.first() else {
            return Ok(true);
        };
        if second == 0 {
            return Ok(true);
        }
        let again = Loss {
            count: second,
            kind: loss.kind,
            mask: loss.mask,
        };
        at(*recovery, self.is_lost(alloc, names, *recovery, again))
    }

    /// Loses the power once, and then once more in this change of the first line after it; 0 for
    /// none. False where one of the two doesn't come.
    fn outlives(
        &mut self,
        alloc: Global,
        names: &Names,
        losses: &Losses<'a>,
        loss: Loss,
        second: u32,
    ) -> Result<bool, Wrong<'a>> {
        if !at(losses.of, self.is_lost(alloc, names, losses.of, loss))? {
            return Ok(false);
        }
        if !self.is_lost_again(alloc, names, losses, loss, second)? {
            return Ok(false);
        }
        self.after(alloc, names, losses, (loss, second))?;
        Ok(true)
    }

    /// `outlives`, of the case as it is now, which stays so.
    fn one_loss(
        &self,
        alloc: Global,
        names: &Names,
        losses: &Losses<'a>,
        loss: Loss,
        second: u32,
    ) -> Result<bool, Wrong<'a>> {
        let mut case = self.again(alloc, names)?;
        case.outlives(alloc, names, losses, loss, second)
    }

    /// Loses the power once, and once more in each change of the recovery where that is asked for.
    /// False where there is no such change.
    fn loss(
        &self,
        alloc: Global,
        names: &Names,
        losses: &Losses<'a>,
        loss: Loss,
    ) -> Result<bool, Wrong<'a>> {
        if !self.one_loss(alloc, names, losses, loss, 0)? {
            return Ok(false);
        }
        let most = if losses.twice { MOST } else { 1 };
        for second in 1..most {
            if !self.one_loss(alloc, names, losses, loss, second)? {
                return Ok(true);
            }
        }
        Ok(true)
    }

    /// Loses the power in this change by each mask. False where there is no such change.
    fn each_mask(
        &self,
        alloc: Global,
        names: &Names,
        losses: &Losses<'a>,
        count: u32,
    ) -> Result<bool, Wrong<'a>> {
        for mask in losses.masks.iter() {
            let loss = Loss {
                count,
                kind: losses.kind,
                mask: *mask,
            };
            if !self.loss(alloc, names, losses, loss)? {
                return Ok(false);
            }
        }
        Ok(true)
    }

    /// Whether the line has another change after those in which the power was lost.
    fn has_more(
        &self,
        alloc: Global,
        names: &Names,
        losses: &Losses<'a>,
    ) -> Result<bool, Wrong<'a>> {
        let next = Loss {
            count: losses.to.saturating_add(1),
            kind: losses.kind,
            mask: 0xFF,
        };
        let mut case = self.again(alloc, names)?;
        at(losses.of, case.is_lost(alloc, names, losses.of, next))
    }

    /// Loses the power in each change that is asked for. Where it is asked of each, the line makes
    /// no more of them, and comes out well.
    pub(crate) fn each_loss(
        &self,
        alloc: Global,
        names: &Names,
        losses: &Losses<'a>,
    ) -> Result<(), Wrong<'a>> {
        for count in losses.from..losses.to.saturating_add(1) {
            if !self.each_mask(alloc, names, losses, count)? {
                return Err(wrong_number(alloc, losses.line, count.saturating_sub(1), false));
            }
        }
        if losses.all && self.has_more(alloc, names, losses)? {
            return Err(wrong_number(alloc, losses.line, losses.to, true));
        }
        Ok(())
    }
}

/// The most changes of a recovery.
const MOST: u32 = 1_000;
