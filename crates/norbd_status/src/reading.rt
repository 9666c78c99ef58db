//! A status out of its line.

ghost use Rattle.std.specs.Prelude.{◌≡◌, IfOk, IfSome};
ghost use Rattle.norbd_status.specs.Status.{status_line};

use crate::status::{Commands, Status, line_of};
use crate::wear::{Extremes, Worn};
use std::alloc::{AllocError, Global};

/// What is left of a line whose values are taken one after another.
#[derive(Drop)]
struct Values<'l> {
    rest: &'l str,
}

impl<'l> Values<'l> {
    /// The number after the next `"key":`, if one is there.
    fn number(&mut self, key: &str) -> Option<u64> {
        let Some((_, rest)) = self.rest.split_once(key) else {
            return None;
        };
        self.rest = rest;
        let digits = match rest.split_once(',') {
            Some((value, _)) => value,
            None => rest,
        };
        let digits = match digits.split_once('}') {
            Some((value, _)) => value,
            None => digits,
        };
        match digits.parse::<u64>() {
            Ok(number) => Some(number),
            Err(_) => None,
        }
    }

    /// The count after the next key; 0 where none is.
    fn count(&mut self, key: &str) -> u64 {
        self.number(key).unwrap_or(0)
    }

    /// The smaller number after the next key; 0 where none is.
    fn small(&mut self, key: &str) -> u32 {
        match u32::try_from(self.count(key)) {
            Ok(number) => number,
            Err(_) => 0,
        }
    }

    fn commands(&mut self) -> Commands {
        Commands {
            all: self.count("\"all\":"),
            read: self.count("\"read\":"),
            write: self.count("\"write\":"),
            trim: self.count("\"trim\":"),
            write_zeroes: self.count("\"write_zeroes\":"),
            flush: self.count("\"flush\":"),
        }
    }

    fn worn(&mut self) -> Option<Worn> {
        let Some(block) = self.number("\"block\":") else {
            return None;
        };
        let Ok(block) = u32::try_from(block) else {
            return None;
        };
        Some(Worn {
            block,
            erases: self.count("\"erases\":"),
        })
    }

    fn extremes(&mut self) -> Option<Extremes> {
        match (self.worn(), self.worn()) {
            (Some(most), Some(least)) => Some(Extremes { most, least }),
            _ => None,
        }
    }

    /// The status of a line, or any other where the line is none.
    fn status(&mut self) -> Status {
        Status {
            sectors: self.small("\"sectors\":"),
            read_only: self.rest.split_once("\"read_only\":true").is_some(),
            seconds: self.number("\"seconds\":"),
            connections: self.count("\"now\":"),
            all_connections: self.count("\"all\":"),
            commands: self.commands(),
            errors: self.count("\"errors\":"),
            erases: self.count("\"erases\":"),
            worn: self.extremes(),
        }
    }
}

/// The status whose line this is; None where it is none. Err: there was no memory.
pub fn status_in(alloc: Global, line: &str) -> Result<Option<Status>, AllocError>
    ensures { IfOk result (λ found. IfSome found (λ status. status_line status ≡ line.now)) }
{
    let status = Values { rest: line }.status();
    let same = line_of(alloc, &status)?;
    if same.as_str() == line {
        Ok(Some(status))
    } else {
        Ok(None)
    }
}
