//! A log beside an image: what is written is in the log before it is acknowledged, and the image is
//! written once.
//!
//! `LoggedDisk` is a `Disk` over another one. Its contents are those that an image file and its log
//! hold together (`contents_in`), of files that tell a proof what is in them, also after a call
//! that failed. A `write` or `zero` that answers Ok is in the log; one that fails left each of its
//! sectors wholly old or new. Settling appends the blocks that changed to the log, as a checkpoint,
//! and then places them in the image. `ImageFiles` asks for the order in which a host has to keep
//! that: no block is written before all of its checkpoint is on the medium, and the log isn't cut
//! before all of the image is. An error is the last: all later calls answer it again.
//! `read_log` says what a start finds, `replay` makes the changes on a disk, and `take_up` readies
//! the files. A record's sum goes on from that of the one before, so neither one that was cut short
//! is taken nor one of an older log.
//!
//! After each call, also one that failed, the two files are in the order that `IsInOrder` says, of
//! files that tell and of a disk that is sound; `into_parts` hands that on. So `survivors_hold`
//! applies: what the host losing its power leaves of them holds what they held, or what a kill at
//! an earlier moment would have left, no earlier than the last sync of the log. One premise is left
//! (`HasTrueSums`): no bytes but those that were written have the sum of a record by chance.
//!
//! Left to the crate above: the files, and when the log is synced.
//!
//! Source: own; the sum is that of SQLite's write-ahead log.

#![tactic(auto)]

mod adding;
mod checkpoint;
mod file;
mod head;
mod laws;
mod logged;
mod memory;
mod placing;
mod reading;
mod record;
mod replaying;
mod taking;

pub use file::{IMAGE_BLOCK_LEN, ImageFiles};
pub use head::LOG_HEAD_LEN;
pub use laws::survivors_hold;
pub use logged::{ImageDisk, LoggedDisk, Standing};
pub use memory::MemoryFiles;
pub use reading::{Found, Refusal, read_log};
pub use record::{Head, RECORD_HEAD_LEN, Sum, read_record, record_len};
pub use replaying::replay;
pub use taking::{begin_anew, take_up};
