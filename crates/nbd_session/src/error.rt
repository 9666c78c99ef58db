//! Why a session could not be opened.

use thiserror::Error;

/// Why a session could not be opened.
#[derive(Clone, Copy, PartialEq, Eq, Debug, Drop, Error)]
pub enum OpenError {
    /// There was no memory for its buffers.
    #[error("no memory for a session")]
    OutOfMemory,
}
