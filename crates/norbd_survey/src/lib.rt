//! The texts of a survey: for a person, in JSON, and as a picture of the blocks.
//!
//! `Reason` is why a chip is corrupt: the rule by its name in docs/LAYOUT.md, the address, the
//! bytes that are there and what is allowed. `Page` is what is told of an image that can be
//! mounted, `Json` the same for programs, `Picture` a character for each block. `first_dirty` is
//! the first place at which what reads as free isn't erased: what it names isn't erased
//! (`IsWrittenAt`); that it reads as free, and is the first, tests show. No contract says what is
//! printed. Source: own.

#![tactic(auto)]

mod dirty;
mod doubtful;
mod journals;
mod json;
mod page;
mod picture;
mod reason;
mod totals;

pub use dirty::first_dirty;
pub use doubtful::Doubtful;
pub use json::Json;
pub use page::Page;
pub use picture::Picture;
pub use reason::Reason;
pub use totals::{Totals, total};
