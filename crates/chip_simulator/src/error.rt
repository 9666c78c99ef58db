//! Why there is no simulator.

use thiserror::Error;

/// Why there is no simulator.
#[derive(Clone, Copy, Debug, PartialEq, Eq, Error)]
pub enum SimError {
    /// The size isn't a multiple of 64 KiB from 64 KiB to 16 MiB.
    #[error("the size is not a multiple of 64 KiB from 64 KiB to 16 MiB")]
    BadSize,
    /// There is no memory for the bytes.
    #[error("there is no memory for the chip's bytes")]
    OutOfMemory,
    /// The file can't be read.
    #[error("the file cannot be read")]
    File,
}
