//! Why there is no image.

ghost use Rattle.std.specs.Prelude.{◌≡◌};
ghost use Rattle.norbd_image.specs.declared.error.ImageError.TheVariants.{OutOfMemory};

use nor_driver::ProbeError;
use std::alloc::AllocError;
use std::io::ErrorKind;
use thiserror::Error;

/// Why there is no image. Source: own.
#[derive(Clone, Copy, Debug, PartialEq, Eq, Error)]
pub enum ImageError {
    /// Memory ran out.
    #[error("no memory")]
    OutOfMemory,
    /// The file can't be had, made, written or put in its place: the system's answer.
    #[error("the file cannot be had, made, written or replaced")]
    File(ErrorKind),
    /// What is at the path is no regular file.
    #[error("not a regular file")]
    NotAFile,
    /// Another process has the file.
    #[error("another process has the file")]
    InUse,
    /// The file holds a formatted chip, which is not to be replaced.
    #[error("the file holds a formatted chip")]
    Formatted,
    /// The file holds something else, which is not to be replaced.
    #[error("the file holds something")]
    NotEmpty,
    /// The chip in memory refused the format: only as one whose power went.
    #[error("the chip in memory is refused: {0}")]
    Refused(ProbeError),
}

impl From<AllocError> for ImageError {
    ghost from_gives = { λ _ e. e ≡ OutOfMemory };

    fn from(_: AllocError) -> Self {
        ImageError::OutOfMemory
    }
}
