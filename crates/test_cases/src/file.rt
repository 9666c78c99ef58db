//! A file of cases.

use crate::fault::Fault;
use crate::losses::{Line, Losses, read_losses};
use crate::names::Names;
use crate::run::{Case, Wrong, at};
use std::alloc::{AllocError, Global};

/// What a file came to: how many cases were run, and the first wrong line of each that has one.
#[derive(Drop)]
pub(crate) struct Report<'a> {
    pub(crate) cases: usize,
    pub(crate) wrong: Vec<Wrong<'a>>,
}

impl<'a> Report<'a> {
    /// Keeps a wrong line.
    fn add(&mut self, answer: Result<(), Wrong<'a>>) -> Result<(), AllocError> {
        match answer {
            Ok(()) => Ok(()),
            Err(wrong) => match self.wrong.push(wrong) {
                Ok(()) => Ok(()),
                Err(_) => Err(AllocError),
            },
        }
    }
}

/// One of the lines that a name stands for.
#[derive(Clone, Copy, Drop)]
struct Defined<'a> {
    name: &'a str,
    text: &'a str,
}

/// A file, as far as it was read.
#[derive(Drop)]
struct Reader<'a> {
    names: Names<'a>,
    defined: Vec<Defined<'a>>,
    /// The name whose lines are being read.
    defining: Option<&'a str>,
    case: Case<'a>,
    /// Whether the lines of the case are run: it was asked for, and none of them was wrong.
    is_on: bool,
    /// The losses whose lines are being read.
    pending: Option<Losses<'a>>,
}

impl<'a> Reader<'a> {
    /// Ends the lines of a name, and runs the losses whose lines have been read.
    fn finish(&mut self, alloc: Global) -> Result<(), Wrong<'a>> {
        self.defining = None;
        match self.pending.take() {
            Some(losses) => self.case.each_loss(alloc, &self.names, &losses),
            None => Ok(()),
        }
    }

    /// The lines that a line stands for: those of a name, or itself.
    fn lines_of(&self, alloc: Global, line: Line<'a>) -> Result<Vec<Line<'a>>, Fault> {
        let mut lines = Vec::new(alloc);
        for defined in self.defined.iter() {
            if defined.name == line.text {
                lines.push(Line {
                    number: line.number,
                    text: defined.text,
                })?;
            }
        }
        if lines.is_empty() {
            lines.push(line)?;
        }
        Ok(lines)
    }

    /// Takes a line below another: one of a name, or one that comes after each loss of power.
    fn take_below(&mut self, alloc: Global, line: Line<'a>) -> Result<(), Fault> {
        let text = line.text.trim_start();
        let number = line.number;
        let lines = self.lines_of(alloc, Line { number, text })?;
        if let Some(name) = self.defining {
            for one in lines.iter() {
                let text = one.text;
                self.defined.push(Defined { name, text })?;
            }
            return Ok(());
        }
        if let Some(losses) = &mut self.pending {
            losses.lines.extend_from_slice(lines.as_slice())?;
            return Ok(());
        }
        self.refuse()
    }

    /// Takes a line that says that the power is lost twice.
    fn lose_twice(&mut self) -> Result<(), Fault> {
        if let Some(losses) = &mut self.pending {
            losses.twice = true;
            return Ok(());
        }
        self.refuse()
    }

    /// Refuses a line in a place where it means nothing, where the case is run.
    fn refuse(&self) -> Result<(), Fault> {
        if self.is_on {
            Err(Fault::NotUnderstood)
        } else {
            Ok(())
        }
    }

    /// Runs a line of the case, or those that it stands for.
    fn run(&mut self, alloc: Global, line: Line<'a>) -> Result<(), Wrong<'a>> {
        let lines = at(line, self.lines_of(alloc, line))?;
        for one in lines.iter() {
            self.case.line(alloc, &self.names, *one)?;
        }
        Ok(())
    }

    /// Takes a line that begins with a word of a file.
    fn begin(&mut self, alloc: Global, line: Line<'a>) -> Result<(), Wrong<'a>> {
        let answer = if let Some(text) = line.text.strip_prefix("let ") {
            self.names.add(alloc, text)
        } else if let Some(name) = line.text.strip_prefix("def ") {
            self.defining = Some(name);
            Ok(())
        } else if !self.is_on {
            Ok(())
        } else if let Some(text) = line.text.strip_prefix("for ") {
            match read_losses(alloc, line, text) {
                Ok(losses) => {
                    self.pending = Some(losses);
                    Ok(())
                }
                Err(fault) => Err(fault),
            }
        } else {
            return self.run(alloc, line);
        };
        at(line, answer)
    }

    /// Takes a line that says something.
    fn read(&mut self, alloc: Global, line: Line<'a>) -> Result<(), Wrong<'a>> {
        let answer = if line.text.starts_with("  ") {
            self.take_below(alloc, line)
        } else if line.text == "and once more in the recovery" {
            self.lose_twice()
        } else {
            self.finish(alloc)?;
            return self.begin(alloc, line);
        };
        at(line, answer)
    }

    /// Begins a case, which ends the one before it. It is run where its line begins with `only`.
    fn begin_case(&mut self, alloc: Global, text: &str, only: &str) -> Result<(), Wrong<'a>> {
        let answer = self.finish(alloc);
        self.case = Case::new(alloc);
        self.is_on = text.starts_with(only);
        answer
    }

    /// Takes a line that begins no case. After a wrong one the other lines of its case are not run.
    fn step(&mut self, alloc: Global, line: Line<'a>) -> Result<(), Wrong<'a>> {
        if !says(line.text) {
            return Ok(());
        }
        let answer = self.read(alloc, line);
        if answer.is_err() {
            self.is_on = false;
            self.pending = None;
        }
        answer
    }
}

/// Whether a line says something.
fn says(text: &str) -> bool {
    !text.is_empty() && !text.starts_with("#")
}

/// Runs the cases of a file whose lines `case ..` begin with `only`.
pub(crate) fn run_file<'a>(
    alloc: Global,
    text: &'a str,
    only: &str,
) -> Result<Report<'a>, AllocError> {
    let mut report = Report {
        cases: 0,
        wrong: Vec::new(alloc),
    };
    let mut reader = Reader {
        names: Names::new(alloc),
        defined: Vec::new(alloc),
        defining: None,
        case: Case::new(alloc),
        is_on: true,
        pending: None,
    };
    let mut number = 0usize;
    for text in text.lines() {
        number = number.saturating_add(1);
        let answer = if text.starts_with("case ") {
            let answer = reader.begin_case(alloc, text, only);
            if reader.is_on {
                report.cases = report.cases.saturating_add(1);
            }
            answer
        } else {
            reader.step(alloc, Line { number, text })
        };
        report.add(answer)?;
    }
    let answer = reader.finish(alloc);
    report.add(answer)?;
    Ok(report)
}
