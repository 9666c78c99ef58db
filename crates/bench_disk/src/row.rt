//! A row of the table.

use crate::figures::{a_byte, a_second};
use std::fmt;

/// What was measured, in the least of the goes.
#[derive(Clone, Copy)]
pub struct Row {
    pub name: &'static str,
    /// The bytes that one copy copies.
    pub bytes: u64,
    /// Nanoseconds of one call, event or command.
    pub call: u64,
    /// Nanoseconds of one copy.
    pub copy: u64,
}

/// A number with a comma before each three digits, ten wide at least: so numbers below 100,000,000
/// stand in a column.
#[derive(Clone, Copy)]
pub struct InThousands(pub u64);

impl fmt::Display for InThousands {
    fn fmt<W: fmt::Write>(&self, f: &mut fmt::Formatter<W>) -> fmt::Result {
        let (millions, thousands, ones) = (
            self.0 / 1_000_000,
            self.0 / 1_000 % 1_000,
            self.0 % 1_000,
        );
        if millions > 0 {
            write!(f, "{millions:>2},{thousands:03},{ones:03}")
        } else if thousands > 0 {
            write!(f, "{thousands:>6},{ones:03}")
        } else {
            write!(f, "{ones:>10}")
        }
    }
}

/// Thousandths as a number with three places behind the point.
#[derive(Clone, Copy)]
pub struct InWhole(pub u64);

impl fmt::Display for InWhole {
    fn fmt<W: fmt::Write>(&self, f: &mut fmt::Formatter<W>) -> fmt::Result {
        let (whole, part) = (self.0 / 1_000, self.0 % 1_000);
        write!(f, "{whole}.{part:03}")
    }
}

impl fmt::Display for Row {
    fn fmt<W: fmt::Write>(&self, f: &mut fmt::Formatter<W>) -> fmt::Result {
        let name = self.name;
        let (call, second, each) = (
            InThousands(self.call),
            InThousands(a_second(self.call)),
            InWhole(a_byte(self.call, self.bytes)),
        );
        let (bytes, copy, copied) = (
            InThousands(self.bytes),
            InThousands(self.copy),
            InWhole(a_byte(self.copy, self.bytes)),
        );
        write!(
            f,
            "{name:<31}{call} ns, {second} a second, {each} ns a byte; plain copy of {bytes} bytes {copy} ns, {copied} ns a byte"
        )
    }
}
