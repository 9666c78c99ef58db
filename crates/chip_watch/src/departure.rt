//! Where a chip left the model, and why one isn't watched at all.

use sfdp::SfdpError;
use thiserror::Error;

/// What was read from a chip where the model allows another byte.
#[derive(Clone, Copy, Debug, PartialEq, Eq)]
pub struct Mismatch {
    /// Which byte: an address of the memory, or the place in an answer, counted from 0.
    pub place: u32,
    /// The byte that was read.
    pub read: u8,
    /// The byte that the model allows.
    pub allowed: u8,
}

/// Where a chip left the model, or its programmer failed.
#[derive(Clone, Copy, Debug, PartialEq, Eq, Error)]
pub enum Departure {
    /// A frame wasn't exchanged, or there is no memory for its answer: the frame's code.
    #[error("no answer to a frame {0:#04x}")]
    NoAnswer(u8),
    /// The programmer can't be reached anew.
    #[error("the programmer isn't reached again")]
    NoProgrammer,
    /// In the answer to a frame: the frame's code, and the first byte of the answer that differs.
    #[error("the chip left the model in a frame {0:#04x}, byte {place} of its answer, read {read:#04x}, the model allows {allowed:#04x}", place = .1.place, read = .1.read, allowed = .1.allowed)]
    Answer(u8, Mismatch),
    /// In the memory.
    #[error("the chip left the model at address {place:#x}, read {read:#04x}, the model allows {allowed:#04x}", place = .0.place, read = .0.read, allowed = .0.allowed)]
    Memory(Mismatch),
    /// BUSY was 1 in a million status reads.
    #[error("busy without end")]
    Busy,
}

/// Why a chip isn't watched.
#[derive(Clone, Copy, Debug, PartialEq, Eq, Error)]
pub enum OpenError {
    /// A frame wasn't exchanged: its code.
    #[error("no answer to a frame {0:#04x}")]
    NoAnswer(u8),
    /// BUSY was 1 in a million status reads.
    #[error("busy without end")]
    Busy,
    /// BUSY or WEL is 1 in this status register 1, though the chip was idle and WEL was cleared.
    #[error("status register 1 is {0:#04x} though nothing is in progress")]
    Restless(u8),
    /// CMP or WPS is 1: the status registers 2 and 3.
    #[error("CMP or WPS is set in the status registers 2 and 3, {0:#04x} and {1:#04x}")]
    Scheme(u8, u8),
    /// The chip's table.
    #[error("the SFDP table is refused: {0}")]
    Table(SfdpError),
    /// There is no memory for the chip's bytes.
    #[error("there is no memory for the chip's bytes")]
    OutOfMemory,
}
