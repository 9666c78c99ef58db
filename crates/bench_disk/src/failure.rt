//! Why there is no row.

use block_device::DiskError;
use nor_driver::NorError;

/// Why a row could not be measured.
#[derive(Clone, Copy)]
pub enum Failure {
    /// There is no memory for a disk, a station, a connection or the bytes to be copied.
    NoMemory,
    /// The clock told no time.
    NoClock,
    /// A chip, a format, a mount, a call, an event or a connection was refused, a tidying found
    /// nothing to clear, or not all was told.
    Refused,
}

impl From<DiskError> for Failure {
    fn from(_error: DiskError) -> Failure {
        Failure::Refused
    }
}

impl From<NorError> for Failure {
    fn from(_error: NorError) -> Failure {
        Failure::Refused
    }
}
