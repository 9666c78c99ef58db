//! The requests of a connection, cut out of its bytes piece by piece, and judged.
//!
//! Promised: `judge` refuses exactly the commands that the request table refuses, with its errors;
//! `first_sector` is where the range of an accepted command begins. `Transmission::take` answers
//! each complete request once, in order, however the bytes are cut into pieces: an accepted command
//! runs when its payload is complete, a refused one is handed out with its error after its payload
//! was taken, a wrong magic and DISC close. It tells which bytes are payload of an accepted WRITE,
//! at most as many as the export says, and never keeps them itself. `read_only_law`: nothing that
//! is sent to a read-only export changes its disk.
//!
//! Left to the crate above: to keep the payload's bytes, to run the commands, to write the replies,
//! to call again with the bytes that were not used. A closed parser uses no bytes and answers
//! Close.
//!
//! Source: NBD proto.md; the limits of the request table are own. No call takes memory.
#![tactic(auto)]

mod laws;
mod transmission;

pub use laws::read_only_law;
pub use transmission::{Refusal, Transmission, TransmissionTaken, first_sector, judge};
