//! The program `bench_wear`: how far writes wear the blocks of a simulated chip, by the erases that
//! were sent to it.
//!
//! With the words `run KIB` it writes sectors of a chip of so many KiB until each block was erased
//! a hundred times on average, and prints a row for each workload, on a disk as it is at each start
//! (empty, full, ..), by each policy, with each keeper. A number behind them is another one than a
//! hundred; `mount M` behind these mounts the disk anew after each M writes. Without words it
//! prints one fixed line and measures nothing.
//!
//! Nothing is proved of the figures: they are counted by `test_kit`'s `WornChip`. The chip's time
//! is a sum of the datasheet's typical times. Left to the crates below: the chip (`chip_simulator`)
//! and the disk (`flash_disk`). The disk is mounted as one that isn't sound, so nothing is said of
//! its contents. Source: own.
#![tactic(auto)]

mod failure;
mod figures;
mod plan;
mod run;

use crate::failure::Failure;
use crate::figures::HEADING;
use crate::plan::{Keeper, Plan, Policy, Start, Table};
use crate::run::measured;
use std::alloc::Global;
use test_kit::Workload;

/// The number that a word spells, if it does.
fn number_of(word: Option<String>) -> Option<u32> {
    word?.as_str().parse::<u32>().ok()
}

/// The table of a chip of so many KiB, if there is such a chip.
fn table_of(kib: u32) -> Option<Table> {
    if kib == 0 || kib % 64 != 0 || kib > 16_384 {
        return None;
    }
    Some(Table {
        kib,
        erases: 100,
        mount: 0,
    })
}

/// What the words ask for: `run KIB`, and perhaps `ERASES`, and perhaps `mount M`.
fn read_words(rt: &HostRuntime) -> Option<Table> {
    let Ok(mut words) = std::env::args(rt) else {
        return None;
    };
    let _program = words.next();
    if words.next()?.as_str() != "run" {
        return None;
    }
    let mut table = table_of(number_of(words.next())?)?;
    let mut word = words.next();
    if let Some(erases) = number_of_text(&word) {
        table.erases = erases;
        word = words.next();
    }
    match word {
        None => Some(table),
        Some(word) if word.as_str() == "mount" => {
            table.mount = number_of(words.next())?;
            Some(table)
        }
        Some(_) => None,
    }
}

/// The number that a word spells, if it is there and does.
fn number_of_text(word: &Option<String>) -> Option<u32> {
    match word {
        Some(word) => word.as_str().parse::<u32>().ok(),
        None => None,
    }
}

/// Measures a run, and prints its row, or why there is none.
fn print_row(rt: &HostRuntime, alloc: Global, plan: Plan) -> std::io::Result<()> {
    match measured(alloc, plan) {
        Ok(row) => println!(rt; "{row}"),
        Err(Failure::NoMemory) => eprintln!(rt; "bench_wear: no memory"),
        Err(Failure::Refused) => eprintln!(rt; "bench_wear: a chip, a disk or a call was refused"),
    }
}

/// The rows of a workload.
fn print_workload(
    rt: &HostRuntime,
    table: Table,
    workload: Workload,
    start: Start,
) -> std::io::Result<()> {
    for policy in Policy::all() {
        for keeper in Keeper::all() {
            let plan = Plan {
                table,
                workload,
                start,
                policy,
                keeper,
            };
            print_row(rt, rt.alloc(), plan)?;
        }
    }
    Ok(())
}

/// The whole table.
fn print_table(rt: &HostRuntime, table: Table) -> std::io::Result<()> {
    println!(rt; "{HEADING}")?;
    for start in Start::all() {
        for workload in Workload::all() {
            print_workload(rt, table, workload, start)?;
        }
    }
    Ok(())
}

fn main(rt: HostRuntime) -> std::io::Result<()> {
    match read_words(&rt) {
        Some(table) => print_table(&rt, table),
        None => println!(rt; "bench_wear: give the words run and a size in KiB to measure"),
    }
}
