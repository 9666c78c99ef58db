//! The logic of a disk for a host that asks it one request after another, whatever the host is.
//!
//! `answer` answers one request on any `Disk`, and `answer_all` each of a `Host`, in order and once
//! (`specs/Exchanges.antt`). An answer says what the request left (`specs/Answers.antt`): of a
//! sound disk a `Write` that is done is in its sector, a `Read` that is done gives what is there,
//! and one that was cut left each sector as it was or as meant. A request is refused exactly where
//! not all of its sectors are on the disk, and then nothing changes. So what was written is read
//! back, over losses of power too (`specs/ReadingBack.antt`).
//!
//! Left to the crate above: the disk, whether it is sound, and when the host asks for `Restore`.
//!
//! Source: own, over the calls of `Disk`.

#![tactic(auto)]

mod answering;
mod host;
mod laws;
mod request;

pub use answering::{answer, answer_all};
pub use host::Host;
pub use laws::what_was_written_is_read_back;
pub use request::{Answer, Request};
