//! The program `sweep`: a loss of power in every frame and in every change of a fixed script, and
//! once more in every change of the recovery after it, on a simulated chip of 64 KiB.
//!
//! With the word `run`, and perhaps the name of one chip, it sweeps, tells on standard error how
//! far it has come, and prints a table. With the word `random`, and perhaps a first seed and a
//! number of them, it runs scripts of random events of eight connections. Where an answer is wrong
//! it prints the script that shows it as lines of bash (docs/SCRIPT.md), a random one shortened,
//! and ends with status 1. Without words it prints one fixed line.
//!
//! What a station answers is judged by an array of 70 sectors, `test_judge`, which stands apart
//! from the product: it knows records, requests, and that a sector of an interrupted WRITE is old
//! or new. `chip` alone calls the product. That each script is answered so is proved in
//! `nbd_station` and `flash_disk`; the sweep tests the definitions that these proofs rest on.
//! Source: own.
#![tactic(auto)]

mod chains;
mod chip;
mod draw;
mod failure;
mod life;
mod losses;
#[cfg(test)]
mod places;
mod progress;
mod random;
mod sweeper;
#[cfg(test)]
mod tests;
mod totals;
mod wavering;

use crate::chip::Chip;
use crate::failure::Failure;
use crate::life::Mounting;
use crate::progress::Progress;
use crate::random::{script, shorten};
use crate::sweeper::{Loss, Sweeper};
use crate::totals::{HEADING, Totals};
use crate::wavering::{live_all, sweep_wavering};
use std::alloc::Global;
use std::env::Args;
use std::ops::Range;
use std::process::ExitCode;
use std::rt::Clock;
use test_judge::Seen;
use test_kit::MASKS;

/// The kinds of losses: those in a change, and those in any frame.
const KINDS: [u8; 2] = [1, 0];

/// How much work a loss of a kind is: one in a change is made anew for each loss of the restore
/// after it.
fn work_of(kind: u8) -> u64 {
    if kind == 0 { 1 } else { 4 }
}

/// How many random scripts a chip has where no number is given.
const SCRIPTS: u32 = 1_000;

/// What the words ask for.
#[derive(Clone, Copy)]
enum Wanted {
    Nothing,
    /// A sweep of these chips.
    Sweep([Option<Chip>; 3]),
    /// Random scripts: from which seed on, and how many.
    Random(u32, u32),
    /// Losses on chips whose torn bits waver, which are mounted so: all of one and of two.
    Waver(Mounting),
    /// Random lives of them: from which seed on, and how many.
    Lives(Mounting, u32, u32),
}

/// The number that a word spells, if it does.
fn number_of(word: Option<String>) -> Option<u32> {
    word?.as_str().parse::<u32>().ok()
}

/// What follows the word `waver`: `plain`, `firm` or `level`, and perhaps a first seed and a number
/// of them.
fn waver_words(mut words: Args) -> Wanted {
    let mounting = match words.next() {
        Some(word) if word.as_str() == "plain" => Mounting::Plain,
        Some(word) if word.as_str() == "firm" => Mounting::Firm,
        Some(word) if word.as_str() == "level" => Mounting::FirmLevel,
        _ => return Wanted::Nothing,
    };
    match number_of(words.next()) {
        None => Wanted::Waver(mounting),
        Some(seed) => Wanted::Lives(mounting, seed, number_of(words.next()).unwrap_or(SCRIPTS)),
    }
}

/// What the words ask for: `run` for all chips, `run` and a name for one, `random`, `random SEED
/// COUNT`, `waver`.
fn words_of(rt: &HostRuntime) -> Wanted {
    let Ok(mut words) = std::env::args(rt) else {
        return Wanted::Nothing;
    };
    let _program = words.next();
    match words.next() {
        Some(word) if word.as_str() == "run" => {}
        Some(word) if word.as_str() == "random" => {
            let seed = number_of(words.next()).unwrap_or(0);
            return Wanted::Random(seed, number_of(words.next()).unwrap_or(SCRIPTS));
        }
        Some(word) if word.as_str() == "waver" => return waver_words(words),
        _ => return Wanted::Nothing,
    }
    match words.next() {
        None => Wanted::Sweep([Some(Chip::Plain), Some(Chip::Prepared), Some(Chip::Level)]),
        Some(name) => match Chip::named(name.as_str()) {
            Some(chip) => Wanted::Sweep([Some(chip), None, None]),
            None => Wanted::Nothing,
        },
    }
}

/// The work of the whole sweep.
fn survey(alloc: Global, chips: [Option<Chip>; 3]) -> Result<u64, Failure> {
    let mut total = 0u64;
    for chip in chips {
        let Some(chip) = chip else {
            continue;
        };
        let mut sweeper = Sweeper::new(alloc, chip)?;
        for kind in KINDS {
            let work = u64::from(sweeper.first_without(kind)?).saturating_mul(work_of(kind));
            total = total.saturating_add(work.saturating_mul(6));
        }
    }
    Ok(total)
}

/// Sweeps a chip with the losses of a kind and a mask, up to the first count without one.
fn sweep_mask<R: Clock + Eprint>(
    rt: &R,
    sweeper: &mut Sweeper,
    totals: &mut Totals,
    progress: &mut Progress,
    mask: u8,
) -> Result<(), Failure> {
    let kind = totals.kind;
    for count in 1..u32::MAX {
        if !totals.cut(sweeper, Loss { count, kind, mask })? {
            break;
        }
        progress.step(rt, work_of(kind))?;
    }
    Ok(())
}

/// Sweeps a chip with the losses of a kind.
fn sweep<R: Clock + Eprint>(
    rt: &R,
    sweeper: &mut Sweeper,
    totals: &mut Totals,
    progress: &mut Progress,
) -> Result<(), Failure> {
    for mask in MASKS {
        sweep_mask(rt, sweeper, totals, progress, mask)?;
    }
    Ok(())
}

/// Sweeps a chip with losses of both kinds, and adds the rows. Where it fails, prints the script.
fn sweep_chip<R: Clock + Print + Eprint>(
    rt: &R,
    alloc: Global,
    chip: Chip,
    progress: &mut Progress,
    rows: &mut Vec<Totals>,
) -> Result<(), Failure> {
    let mut sweeper = Sweeper::new(alloc, chip)?;
    for kind in KINDS {
        let mut totals = Totals::new(chip, kind);
        if let Err(failure) = sweep(rt, &mut sweeper, &mut totals, progress) {
            let _ = sweeper.print(rt);
            return Err(failure);
        }
        if rows.push(totals).is_err() {
            return Err(Failure::NoMemory);
        }
    }
    Ok(())
}

/// The whole sweep of these chips, and its table.
fn sweep_all<R: Clock + Print + Eprint>(
    rt: &R,
    alloc: Global,
    chips: [Option<Chip>; 3],
) -> Result<(), Failure> {
    let mut progress = Progress::new(rt, survey(alloc, chips)?)?;
    let mut rows = Vec::new(alloc);
    for chip in chips {
        if let Some(chip) = chip {
            sweep_chip(rt, alloc, chip, &mut progress, &mut rows)?;
        }
    }
    let _ = eprintln!(rt; "");
    let _ = println!(rt; "{HEADING}");
    for row in rows.as_slice() {
        let _ = println!(rt; "{row}");
    }
    Ok(())
}

/// Runs random scripts on a chip. Where one fails, prints it shortened.
fn random_on(
    rt: &impl Print,
    alloc: Global,
    chip: Chip,
    seeds: Range<u32>,
) -> Result<Seen, Failure> {
    let mut sweeper = Sweeper::new(alloc, chip)?;
    let mut seen = Seen::nothing();
    for seed in seeds {
        match sweeper.run_all(script(alloc, seed)?.as_slice()) {
            Ok(more) => seen.add(more),
            Err(failure) => {
                let events = shorten(&mut sweeper, alloc, script(alloc, seed)?)?;
                let _ = sweeper.run_all(events.as_slice());
                let left = events.len();
                let _ = println!(rt; "# seed {seed}: {failure}; {left} events are left");
                let _ = sweeper.print(rt);
                return Err(failure);
            }
        }
    }
    Ok(seen)
}

/// Runs random scripts on all chips.
fn random_all(rt: &impl Print, alloc: Global, first: u32, count: u32) -> Result<(), Failure> {
    for chip in [Chip::Plain, Chip::Prepared, Chip::Level] {
        let seeds = first..first.saturating_add(count);
        let Seen {
            replies,
            losses,
            ..
        } = random_on(rt, alloc, chip, seeds)?;
        let name = chip.name();
        let _ = println!(rt; "{name}: {count} scripts, {replies} replies, {losses} losses");
    }
    Ok(())
}

fn main(rt: HostRuntime) -> ExitCode {
    let done = match words_of(&rt) {
        Wanted::Nothing => {
            let _ = println!(rt; "sweep: give the word run to sweep");
            Ok(())
        }
        Wanted::Sweep(chips) => sweep_all(&rt, rt.alloc(), chips),
        Wanted::Random(first, count) => random_all(&rt, rt.alloc(), first, count),
        Wanted::Waver(mounting) => sweep_wavering(&rt, rt.alloc(), mounting),
        Wanted::Lives(mounting, first, count) => {
            live_all(
                &rt,
                rt.alloc(),
                mounting,
                first..first.saturating_add(count),
            )
        }
    };
    match done {
        Ok(()) => ExitCode::SUCCESS,
        Err(failure) => {
            let _ = eprintln!(rt; "\nsweep: {failure}");
            ExitCode::FAILURE
        }
    }
}
