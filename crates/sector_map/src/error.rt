//! Why a memory was not mounted.

use thiserror::Error;

/// Why a memory was not mounted. Source: own.
#[derive(Clone, Copy, Debug, PartialEq, Eq, Drop, Error)]
pub enum MapError {
    /// The power went in the mount, or was off.
    #[error("power was lost during the mount, or was off")]
    Cut,
    /// An operation didn't end, in the mount or before it.
    #[error("an operation did not end")]
    Slow,
    /// The superblock is of another layout or size (a newer format and a damaged byte look alike),
    /// or the journals, the slots or the blocks hold what no write leaves.
    #[error("the superblock is of another layout or size, or the memory is corrupt")]
    Corrupt,
    /// The allocator refused the table or the index.
    #[error("no memory for the table or the index")]
    OutOfMemory,
    /// The superblock's name isn't there, or its seal.
    #[error("the memory is not formatted")]
    NotFormatted,
}
