//! The table in which a flash chip describes itself (serial flash discoverable parameters).
//!
//! `read_params` reads a list of SFDP bytes: it answers the chip's size, its page and the codes of
//! its erases exactly where nine rules hold, and else the refusal of the first rule that fails. It
//! takes any bytes, takes no memory, and its answer is `params_of` (specs/Params.antt) of them, so
//! that a chip can be said to have a table without this code.
//!
//! Left to the crate above: to read the bytes from a chip, and to compare the size with the chip's
//! id.
//!
//! Source: JESD216 for the header, the parameter headers and the basic table; the rules' order and
//! the limits are own.

#![tactic(auto)]

mod error;
mod header;
mod params;
mod table;

pub use error::SfdpError;
pub use header::read_params;
pub use params::Params;
