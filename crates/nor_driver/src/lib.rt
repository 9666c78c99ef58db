//! A NOR memory over a serial flash chip: bytes are read, ANDed and erased, or the call says that
//! it was cut.
//!
//! `Nor` is the contract of such a memory: what each call leaves of the bytes, on Ok, on Cut and on
//! Slow, and when it answers which; no frame and no status register appears in it. `Driver` keeps
//! it on any `SpiBus`: each change is a write enable, its frame, and status reads until BUSY is 0,
//! at most 65,535 of them. `Driver::probe` turns the power on and accepts exactly the chips that
//! pass its checks (specs/Probe.antt), `unprotect` ends block protection, `into_inner` gives the
//! bus back. No call takes memory.
//!
//! Left to the crate above: places in range, one page for each program, the start of a unit for
//! each erase, and what a torn page or unit means. What a `restart` leaves of an operation that a
//! Slow left in progress is not said.
//!
//! Source: datasheet of the W25Q128JV for the frames; JESD216 for the table; own for the order of
//! the checks and for Slow.

#![tactic(auto)]

mod driver;
mod error;
mod laws;
mod nor;
mod probe;
mod protection;

pub use driver::Driver;
pub use error::{NorError, ProbeError};
pub use laws::registers_tell_protection;
pub use nor::Nor;
pub use protection::unprotect;
