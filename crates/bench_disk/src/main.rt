//! The program `bench_disk`: what the disk on a simulated chip of 16 MiB costs, and the driver and
//! the map below it; and what READs and WRITEs cost through a station and through
//! `nbd_worker::worker`, over that disk and over an array in memory; each in nanoseconds, beside a
//! plain copy of as many bytes in the same run.
//!
//! With the word `run` it measures all of it and prints a row for each; with `disk`, `old`,
//! `nbd_station` or `server` behind that word only this part. Without words it prints one fixed
//! line and measures nothing.
//!
//! Proved are the arithmetic of the figures, the sectors that each call names, that each request
//! lies on the disk, and that each timed tidying cleared something. That a time is the time of its
//! calls is not proved, since no contract says what a clock tells: the figures are measured. Left
//! to the crates below: the chip (`chip_simulator`), its driver, the slots and the map of sectors,
//! the disk and its format (`flash_disk`, `block_device`), the station (`nbd_station`) and the
//! connection (`nbd_worker`). The disk is mounted as one that isn't sound, so nothing is said of
//! its contents but their size; what is told is counted and dropped. Source: own.
#![tactic(auto)]

mod below;
mod call;
mod calls;
mod case;
mod clock;
mod commands;
mod counted;
mod disks;
mod events;
mod failure;
mod figures;
mod levelled;
mod measure;
mod measure_below;
mod measure_case;
mod requests;
mod row;

use crate::call::Call;
use crate::case::Case;
use crate::disks::Filling;
use crate::failure::Failure;
use crate::levelled::{Old, Order, measured_old};
use crate::measure::{measured_call, measured_check, measured_mount, measured_zero};
use crate::measure_below::{measured_driver, measured_find, measured_tables};
use crate::measure_case::{measured_commands, measured_events};
use crate::row::Row;

/// What the words ask for.
#[derive(Clone, Copy)]
enum Asked {
    Nothing,
    All,
    /// The mounts, checks and calls of the disk, and the driver and the map below it.
    Disk,
    /// Writes on an old disk, by number and by erases.
    Old,
    /// Events through a station.
    Station,
    /// Commands through a connection.
    Server,
}

/// The part that a word names.
fn part_of(word: &str) -> Asked {
    if word == "disk" {
        Asked::Disk
    } else if word == "old" {
        Asked::Old
    } else if word == "station" {
        Asked::Station
    } else if word == "server" {
        Asked::Server
    } else {
        Asked::Nothing
    }
}

/// What the words ask for: `run`, and perhaps a part.
fn read_words(rt: &HostRuntime) -> Asked {
    match std::env::args(rt) {
        Ok(mut words) => {
            let _program = words.next();
            match words.next() {
                Some(word) => {
                    if word.as_str() != "run" {
                        return Asked::Nothing;
                    }
                }
                None => return Asked::Nothing,
            }
            match words.next() {
                Some(word) => part_of(word.as_str()),
                None => Asked::All,
            }
        }
        Err(_) => Asked::Nothing,
    }
}

/// Prints a row, or why there is none.
fn print_row(rt: &HostRuntime, measured: Result<Row, Failure>) -> std::io::Result<()> {
    match measured {
        Ok(row) => println!(rt; "{row}"),
        Err(failure) => print_failure(rt, failure),
    }
}

/// Measures what concerns the disk, and prints a row for each.
fn print_disk(rt: &HostRuntime) -> std::io::Result<()> {
    for filling in Filling::all() {
        print_row(rt, measured_mount(rt, rt.alloc(), filling))?;
    }
    print_row(rt, measured_tables(rt, rt.alloc()))?;
    for filling in Filling::all() {
        print_row(rt, measured_check(rt, rt.alloc(), filling))?;
    }
    print_row(rt, measured_driver(rt, rt.alloc()))?;
    print_row(rt, measured_find(rt, rt.alloc()))?;
    for call in Call::all() {
        print_row(rt, measured_call(rt, rt.alloc(), call))?;
    }
    print_row(rt, measured_zero(rt, rt.alloc()))
}

/// Measures writes on an old disk of a size in KiB, and prints a row for each.
fn print_old(rt: &HostRuntime, kib: u32) -> std::io::Result<()> {
    for order in Order::all() {
        for level in [false, true] {
            match measured_old(rt, rt.alloc(), Old { kib, order, level }) {
                Ok(cost) => println!(rt; "{cost}")?,
                Err(failure) => print_failure(rt, failure)?,
            }
        }
    }
    Ok(())
}

/// Measures each case through a station, and prints its row.
fn print_station(rt: &HostRuntime) -> std::io::Result<()> {
    println!(rt; "through a station")?;
    for case in Case::longest() {
        print_row(rt, measured_events(rt, rt.alloc(), case))?;
    }
    Ok(())
}

/// Measures each case through a connection, and prints its row.
fn print_server(rt: &HostRuntime) -> std::io::Result<()> {
    println!(rt; "through a connection")?;
    for case in Case::all() {
        print_row(rt, measured_commands(rt, rt.alloc(), case))?;
    }
    Ok(())
}

/// Why there is no row.
fn print_failure(rt: &HostRuntime, failure: Failure) -> std::io::Result<()> {
    match failure {
        Failure::NoMemory => eprintln!(rt; "bench_disk: no memory"),
        Failure::NoClock => eprintln!(rt; "bench_disk: no clock"),
        Failure::Refused => eprintln!(rt; "bench_disk: a disk, a call or a connection was refused"),
    }
}

fn main(rt: HostRuntime) -> std::io::Result<()> {
    match read_words(&rt) {
        Asked::Nothing => println!(rt; "bench_disk: give the word run to measure"),
        Asked::All => {
            print_disk(&rt)?;
            print_old(&rt, 1_024)?;
            print_old(&rt, 16_384)?;
            print_station(&rt)?;
            print_server(&rt)
        }
        Asked::Disk => print_disk(&rt),
        Asked::Old => {
            print_old(&rt, 1_024)?;
            print_old(&rt, 16_384)
        }
        Asked::Station => print_station(&rt),
        Asked::Server => print_server(&rt),
    }
}
