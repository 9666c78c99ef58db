//! Why a chip behind a programmer failed.

use crate::answer::Unused;
use serprog::{SerprogError, Trouble};
use sfdp::SfdpError;
use std::fmt;
use std::io::ErrorKind;
use thiserror::Error;

/// What is done with a chip. Its text stands in that of a cause.
#[derive(Clone, Copy, Debug, PartialEq, Eq, Drop, Error)]
pub enum Doing {
    /// It is waited for, and asked what it is.
    #[error("the chip's start")]
    Start,
    /// It is waited for and looked at once more, after it was lost.
    #[error("the chip's return")]
    Return,
    /// Bytes are read from an address on.
    #[error("a read at {0:#x}")]
    Read(u32),
    /// A page is programmed, from an address on.
    #[error("a program at {0:#x}")]
    Program(u32),
    /// A unit is erased, the one at an address.
    #[error("an erase at {0:#x}")]
    Erase(u32),
    /// Status register 1 is written.
    #[error("a status write")]
    Protect,
}

/// A byte that was read, and the one that the model allows.
#[derive(Clone, Copy, Debug, PartialEq, Eq, Drop)]
pub struct Bytes {
    pub read: u8,
    pub allowed: u8,
}

/// Why a chip behind a programmer failed. Its text stands behind that of the fault.
#[derive(Clone, Copy, Debug, PartialEq, Eq, Drop, Error)]
pub enum ChipCause {
    /// It would be erased, and `--yes` isn't set.
    #[error("--yes erases it")]
    Unsure,
    /// Its protection would be ended, and `--yes` isn't set.
    #[error("--yes lifts its protection")]
    UnsureUnprotect,
    /// Protection would be ended, which is done of a chip behind a programmer alone.
    #[error("unprotect takes a chip behind a programmer")]
    NoProgrammer,
    /// What was asked can't be done with a chip behind a programmer.
    #[error("--mend takes a file")]
    Unable,
    /// It would be rescued: that is done of a file alone.
    #[error("rescue takes a file: flashrom reads the chip into one")]
    FileAlone,
    /// It has this many KiB, and not those of the line.
    #[error("a chip of {0} KiB")]
    Size(u32),
    /// The programmer isn't used.
    #[error("{}", Unused(*.0))]
    Programmer(SerprogError),
    /// Its id (9Fh) has no 0 bit, or no 1 bit, and so no chip drove the line.
    #[error("no chip answers (id {id}): is the clip seated, has the chip power?", id = Hex(*.0))]
    NoChip([u8; 3]),
    /// Its id is that of another part.
    #[error("id {id} isn't served: the W25Q128JV and smaller ones of its kind are, ef 40 10 to ef 40 18", id = Hex(*.0))]
    OtherChip([u8; 3]),
    /// Its id isn't that of a chip of so many KiB, which its table tells.
    #[error("id {id} isn't that of a chip of {1} KiB, as its table (SFDP) has it", id = Hex(*.0))]
    OtherSize([u8; 3], u32),
    /// Its table breaks a rule: the place of the four bytes that break it, and these.
    #[error("its table (SFDP) is refused: {0}: {bytes} at {1:#04x}", bytes = Hex(*.2))]
    Table(SfdpError, u8, [u8; 4]),
    /// The programmer gave no answer to a frame.
    #[error("{0}: {1}")]
    NoAnswer(Doing, Trouble),
    /// The programmer can't be reached anew.
    #[error("the programmer isn't reached again")]
    Gone,
    /// BUSY was 1 for so many seconds.
    #[error("{0}: busy for {1} seconds: power the chip off and on")]
    Busy(Doing, u32),
    /// Each bit of its status was 1, and so no chip drove the line.
    #[error("{0}: no chip answers (status ff): is the clip seated, has the chip power?")]
    NoStatus(Doing),
    /// BUSY or WEL is 1 in this status register 1 of an idle chip.
    #[error("status register 1 is {0:#04x} though nothing is in progress")]
    Restless(u8),
    /// CMP or WPS is 1 in these status registers 2 and 3.
    #[error("CMP or WPS is set in the status registers 2 and 3, {0:#04x} and {1:#04x}")]
    Scheme(u8, u8),
    /// A byte of the memory, at an address, is another than the model allows.
    #[error("{}", Left(*.0, None, *.1, *.2))]
    LeftAt(Doing, u32, Bytes),
    /// A byte of the answer to a frame, the frame's code and the place in the answer, is another
    /// than the model allows.
    #[error("{}", Left(*.0, Some(*.1), *.2, *.3))]
    LeftIn(Doing, u8, u32, Bytes),
}

impl ChipCause {
    /// The system's answer where the programmer isn't reached.
    pub fn unreached(self) -> Option<ErrorKind> {
        match self {
            ChipCause::Programmer(SerprogError::Unreached(kind)) => Some(kind),
            _ => None,
        }
    }
}

impl fmt::Display for Bytes {
    fn fmt<W: fmt::Write>(&self, f: &mut fmt::Formatter<W>) -> fmt::Result {
        write!(
            f,
            "read {:#04x}, the model allows {:#04x}",
            self.read, self.allowed
        )
    }
}

/// Bytes, each as two hexadecimal digits.
#[derive(Clone, Copy)]
struct Hex<const N: usize>([u8; N]);

impl<const N: usize> fmt::Display for Hex<N> {
    fn fmt<W: fmt::Write>(&self, f: &mut fmt::Formatter<W>) -> fmt::Result {
        for at in 0..N {
            if at > 0 {
                f.write_str(" ")?;
            }
            write!(f, "{:02x}", self.0[at])?;
        }
        Ok(())
    }
}

/// Where a chip left the model: what was done, the code of the frame that showed it, or `None`
/// where the memory did, and the place in the answer or in the memory.
#[derive(Clone, Copy)]
struct Left(Doing, Option<u8>, u32, Bytes);

impl fmt::Display for Left {
    fn fmt<W: fmt::Write>(&self, f: &mut fmt::Formatter<W>) -> fmt::Result {
        let Left(doing, code, place, bytes) = self;
        write!(f, "the chip left the model in {doing}: ")?;
        match code {
            None => write!(f, "at address {place:#x}, {bytes}")?,
            Some(code) => write!(
                f,
                "in a frame {code:#04x}, byte {place} of its answer, {bytes}"
            )?,
        }
        f.write_str(advice(*doing, *code == Some(0x05), *bytes))
    }
}

/// What is to be done where a byte isn't the one that the model allows; `is_status` where it is of
/// status register 1.
fn advice(doing: Doing, is_status: bool, bytes: Bytes) -> &'static str {
    if doing == Doing::Protect && is_status && bytes.read >= 0x80 {
        // SRP, bit 7, makes WP count. Source: the datasheet, "Status Register Protect (SRP)".
        return ": SRP is set, and the status write did nothing: tie WP high";
    }
    if is_status && bytes.read == 0x06 {
        return ": 0x06 is ACK, which the programmer may have sent twice";
    }
    ": read it with another programmer, replace the clip"
}
