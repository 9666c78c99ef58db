//! One disk behind one lock, and the history of the commands that ran on it.
//!
//! To the crate above: a [`Shared`] holds a disk, a recorder and the passes of its connections.
//! `execute` runs one accepted command; where rows are kept, it adds exactly one row with exactly
//! the reply that it hands out, so that at every moment the rows are a legal history of the first
//! contents, and the contents of a sound disk on which no error is latched are the replay of the
//! rows. Where a power loss is latched, they are that replay with each sector as it was, or as the
//! lost command was to make it, and the replay itself where none was lost. `tidy` adds no row, and
//! keeps the contents also where the power goes in it; `total` is the sum of the passes' counts and
//! the number of rows. A [`Door`] executes commands: a `Shared` itself, or `Locked`, which takes
//! the lock of a `Server` for one call. A [`Chronicle`] has that history in proofs where no rows
//! are kept, too; whenever the lock is got it is legal, and ends with the row of what ran last. A
//! [`Gate`] is passed at points outside the lock, and may take its time there. Left to the crate
//! above: a connection's bytes, when a gate is passed and the disk tidied; threads. Source: own.
#![tactic(auto)]

mod chronicle;
mod door;
mod pass;
mod recorder;
mod shared;

pub use chronicle::{Chronicle, RowParts, RowSaid};
pub use door::{Door, Gate, Locked, Point, Server, Tidier};
pub use pass::{LEDGER_PARTS, OneServer, Pass};
pub use recorder::{Bytes, FullRecord, Interrupted, NoRecord, Recorder, Row};
pub use shared::{Answer, Done, RecordError, Shared};
