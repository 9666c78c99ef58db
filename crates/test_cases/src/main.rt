//! Runs the files of cases that its arguments name, and prints of each how many cases came out as
//! written, or the first line that came out otherwise, with what was wanted and what came. Its
//! status is 1 where one came out otherwise. Behind the argument `otherwise` each case of a file
//! has to have such a line, and all of them are printed. Behind an argument as `case a write` only
//! the cases are run whose lines begin so.
//!
//! A line is a word, its arguments, and behind ` : ` what has to come of it, `ok` where nothing is
//! said. `run` and `file` have the words of a file: `case`, `let`, `for`; `bench` those that take a
//! chip from layer to layer; `chip`, `memory`, `driver`, `journal`, `slots`, `map`, `disk`,
//! `connections`, `sessions`, `layout` and `table` those of one layer each. The crate's README
//! lists them. No contract says more than that the program is safe and ends; the cases are in
//! `data/`.
//!
//! Source: own.
#![tactic(auto)]

mod bench;
mod came;
mod chip;
mod connections;
mod disk;
mod driver;
mod fault;
mod file;
mod journal;
mod layout;
mod losses;
mod map;
mod memory;
mod names;
mod recorder;
mod refusals;
mod run;
mod sessions;
mod slots;
mod table;
mod words;

use crate::fault::Fault;
use crate::file::{Report, run_file};
use crate::run::Wrong;
use crate::words::halves;
use std::process::ExitCode;

/// Tells of a line that did not come out as written.
fn tell(rt: &HostRuntime, name: &str, wrong: &Wrong) -> anyhow::Result<()> {
    match wrong {
        Wrong::Otherwise(line, came, loss) => {
            let (what, wanted) = halves(line.text);
            println!(rt; "{name}:{}: {what}", line.number)?;
            println!(rt; "  wanted: {wanted}")?;
            println!(rt; "  came:   {}", came.as_str())?;
            if !loss.is_empty() {
                println!(rt; "  after the loss in {}", loss.as_str())?;
            }
        }
        Wrong::NotRun(number, Fault::NotUnderstood) => {
            println!(rt; "{name}:{number}: not understood")?;
        }
        Wrong::NotRun(number, Fault::NoMemory) => {
            println!(rt; "{name}:{number}: no memory")?;
        }
    }
    Ok(())
}

/// Runs a file whose cases come out as written, and tells of the first line that doesn't: whether
/// there was a case, and no such line.
fn run_written(rt: &HostRuntime, name: &str, only: &str) -> anyhow::Result<bool> {
    let text = std::fs::read_to_string(rt, name)?;
    let Report { cases, wrong } = run_file(rt.alloc(), text.as_str(), only)?;
    match wrong.first() {
        None => {
            println!(rt; "{name}: {cases} cases as written")?;
            Ok(cases > 0)
        }
        Some(first) => {
            tell(rt, name, first)?;
            Ok(false)
        }
    }
}

/// Runs a file each of whose cases has a line that comes out otherwise, and tells of each: whether
/// there were as many.
fn run_otherwise(rt: &HostRuntime, name: &str, only: &str) -> anyhow::Result<bool> {
    let text = std::fs::read_to_string(rt, name)?;
    let Report { cases, wrong } = run_file(rt.alloc(), text.as_str(), only)?;
    for one in wrong.iter() {
        tell(rt, name, one)?;
    }
    println!(rt; "{name}: {} of {cases} cases otherwise", wrong.len())?;
    Ok(wrong.len() == cases)
}

fn main(rt: HostRuntime) -> anyhow::Result<ExitCode> {
    let mut words = std::env::args(&rt)?;
    let _program = words.next();
    let mut good = true;
    let mut otherwise = false;
    let mut only = String::from_str(rt.alloc(), "case ")?;
    for name in words {
        if name.as_str() == "otherwise" {
            otherwise = true;
        } else if name.as_str().starts_with("case ") {
            only = name;
        } else {
            let came = if otherwise {
                run_otherwise(&rt, name.as_str(), only.as_str())?
            } else {
                run_written(&rt, name.as_str(), only.as_str())?
            };
            otherwise = false;
            good = good && came;
        }
    }
    Ok(if good {
        ExitCode::SUCCESS
    } else {
        ExitCode::FAILURE
    })
}
