//! What each line of the program does, over any reader and writer: `plain` serves a disk in
//! memory, in the transmission phase; `format` makes an image of a formatted chip; `script` runs
//! events, losses of power too, on a chip in memory; `serve` serves the chip in an image to
//! connections on a port or a Unix socket, and `status` says what such a server does; `check` says
//! whether an image would be served, and if not, why, and mends one; `settle` erases all of it once
//! and keeps its disk; `show` draws it; `read` and `write` take its disk out and put it in;
//! `rescue` takes out what can still be told of one that is damaged; `chip` answers the serprog
//! protocol for one. But for the last two each takes a chip behind a programmer, too.
//!
//! Promised to the program: `run_line` does what `LineDoes` says of each command: what is written
//! where it is done, and the fault where it isn't. Each has a file; `serve_chip`, `image_disk` and
//! `chip_disk` have what several take. `Host` is the system that a server runs on. What `check`
//! says is what a mount says, and whether what reads as free is erased (`look_over`); the disk that
//! `serve` serves is that of the bytes of its image (`open_disk`), `read` gives of it
//! (`sectors_of_image`), `rescue` too, and of a refused one what its slots tell (`saved_of`), and
//! `write` makes a healthy and clean image that holds the sectors (`image_with`). `settle` does all
//! steps of a settling in their order, and no sector changes (`settle_all`). `Telling` is the
//! text of a fault, `reason_of` the rule that a corrupt image breaks, `Output` standard output,
//! whose last failure is noted; `hold_standard` opens the three standard streams that are closed,
//! so that no image gets their numbers. Left to the crates below: the words (`norbd_line`),
//! requests and replies (`nbd_worker`), threads and sockets (`norbd_serve`), the chain from the
//! chip to a transcript (`norbd_script`), the disks (`block_device`, `flash_disk`), an image's
//! bytes and its file (`norbd_image`), what it says (`sector_survey`). No contract says what is
//! printed of a fault, nor what a file holds; tests and runs show it. Source: own; NBD proto.md for
//! requests and replies.
#![tactic(auto)]

mod against;
mod check;
mod chip;
mod chip_disk;
mod format;
mod host;
mod image_disk;
mod image_log;
mod listening;
mod output;
mod plain;
mod printing;
mod progress;
mod protected;
mod read;
mod rescue;
mod run;
mod script;
mod serve;
mod serve_chip;
mod settle;
mod show;
mod standard;
mod status;
mod unprotect;
mod watching;
mod write;

pub use check::{run_check, run_check_chip};
pub use chip::run_chip;
pub use format::{run_format, run_format_chip};
pub use host::Host;
pub use listening::listen_at;
pub use output::Output;
pub use printing::{Failure, Telling, reason_of};
pub use progress::{Meter, Progress, Screen};
pub use read::{run_read, run_read_chip};
pub use rescue::run_rescue;
pub use run::run_line;
pub use script::run_script;
pub use serve::{Asked, Look, run_serve};
pub use serve_chip::run_serve_chip;
pub use settle::{run_settle, run_settle_chip};
pub use show::{run_show, run_show_chip};
pub use standard::{Null, Opens, Standard, hold_standard};
pub use status::run_status;
pub use unprotect::run_unprotect;
pub use write::{run_write, run_write_chip};
