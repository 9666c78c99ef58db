//! Images: the memory of a chip that was just formatted, of one that was mended, and the file of
//! such bytes.
//!
//! `formatted_image` formats a chip in memory and gives its bytes: a healthy and clean memory of
//! the size asked for, whose disk is one of zeros (`specs/Image.antt`). `mended_image` gives the
//! bytes of a healthy and clean chip with the sectors of a healthy one, which need not be clean
//! (`specs/Mended.antt`). `write_image` puts bytes into a file as a whole: they are written beside
//! it, and the new file takes its name; one that holds anything is refused unless it is forced
//! (`leave_to_replace`). `hold` opens a file and takes its lock, so that one process at a
//! time has it, and `Held::chip` is the chip in it. Beside it there is a log (`disk_log`), whose
//! file `log_beside` opens: `chip_in` gives the chip that both hold, and `settle_log` writes it
//! into the image. What a file of the system holds, and who has its lock, no contract can say;
//! tests and runs show it.
//!
//! Left to the crate above: that the size is a chip's, and which bytes a file is given.
//!
//! Source: own.

#![tactic(auto)]

mod beside;
mod both;
mod error;
mod file;
mod formatted;
mod memory;
mod mended;
mod owner;

pub use beside::{FileImages, LogHandle, log_beside, log_bytes, log_path, remove_log};
pub use both::{Joined, LogError, chip_in, settle_log};
pub use error::ImageError;
pub use file::{rewrite_image, write_image};
pub use formatted::formatted_image;
pub use memory::{MemoryBus, MemoryDisk};
pub use mended::mended_image;
pub use owner::{Held, ImageFile, hold, hold_to_read};
