//! A script as lines of bash that print its records (docs/SCRIPT.md).

use crate::event::Event;
use std::io;

/// A run of equal bytes that is longer than this is printed in a line of its own.
const SHORT_RUN: usize = 32;

/// Prints a script: each event in words, and then the bytes of its record.
pub fn print_script(rt: &impl Print, events: &[Event], script: &[u8]) -> io::Result<()> {
    let mut rest = script;
    for event in events {
        println!(rt; "# {event:?}")?;
        let (record, behind) = first_record(rest);
        print_record(rt, record)?;
        rest = behind;
    }
    Ok(())
}

/// The first record of a script, and those behind it.
fn first_record(script: &[u8]) -> (&[u8], &[u8]) {
    let len = match script {
        [_, _, a, b, c, d, ..] => u32::from_be_bytes([*a, *b, *c, *d]) as usize,
        _ => 0,
    };
    script.split_at(len.saturating_add(6).min(script.len()))
}

/// Prints a record.
fn print_record(rt: &impl Print, record: &[u8]) -> io::Result<()> {
    print!(rt; "printf '")?;
    for run in record.chunk_by(|a, b| *a == *b) {
        print_run(rt, run)?;
    }
    println!(rt; "'")
}

/// Prints equal bytes inside a line that begins with `printf '`.
fn print_run(rt: &impl Print, run: &[u8]) -> io::Result<()> {
    let len = run.len();
    match run.first() {
        Some(value) if len > SHORT_RUN => {
            print!(rt; "'\nprintf '\\x{value:02x}%.0s' {{1..{len}}}\nprintf '")
        }
        _ => print_bytes(rt, run),
    }
}

/// Prints bytes.
fn print_bytes(rt: &impl Print, bytes: &[u8]) -> io::Result<()> {
    for byte in bytes {
        print!(rt; "\\x{byte:02x}")?;
    }
    Ok(())
}
