//! The words of the program `norbd`, read into a `Line`, and the program's faults.
//!
//! Promised to the program above: a line (`chip`, `plain`, `format`, `script`, `serve`, `status`,
//! `check`, `unprotect`, `settle`, `show`, `read`, `write` or `rescue`) that `read_line` answers
//! has its numbers in their ranges (`IsLineInRange`) and is what the words say (`IsLineOf`); a
//! fault that it answers is one that the words have, a number in its range that is no size of a
//! chip, a word that says no syncing or no tidying, no place to listen at, an image or a socket
//! without a name, or want of memory (`ComesFromWords`), and such a number is never taken, for a
//! file nor for a script (`HasOddSize`). What words say, and which faults they have, are `clap`'s
//! definitions at the command line that `norbd_app` writes out.
//! `Fault::status` is the exit status by the table `HasStatus`. Tests show the texts of faults.
//! Left to the program above: to fetch its words from the system, to print a fault (`clap`'s own
//! text for a fault of the words, else `norbd: ` and the text, with the file or the place and the
//! `Cause`), and to do what a line asks. Source: own (the program's command line); `clap` for how
//! words are read and for the texts of their faults.
#![tactic(auto)]

mod answer;
mod cause;
mod chip;
mod commands;
mod fault;
mod line;
mod options;

pub use answer::Answer;
pub use cause::{Bytes, ChipCause, Doing};
pub use chip::ChipLine;
pub use fault::{Cause, Fault, InputLength, SocketCause};
pub use line::{Line, Place, ReadLine, ServeLine, SyncPolicy, TidyPolicy, read_line};
pub use options::MOST_CONNS;
