//! Why a recovery gave no journal.

use thiserror::Error;

/// Why a recovery gave no journal. Source: own.
#[derive(Clone, Copy, Debug, PartialEq, Eq, Drop, Error)]
pub enum RecoverError {
    /// The power went in the recovery, or was off.
    #[error("power was lost during the recovery, or was off")]
    Cut,
    /// An operation didn't end, in the recovery or before it.
    #[error("an operation did not end")]
    Slow,
    /// The journals hold what no erase leaves.
    #[error("the journals hold what no erase leaves")]
    Corrupt,
}
