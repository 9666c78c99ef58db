//! Why there is no row.

use block_device::DiskError;
use std::alloc::AllocError;

/// Why a row could not be measured.
#[derive(Clone, Copy)]
pub enum Failure {
    /// There is no memory for a chip, its counts or its disk.
    NoMemory,
    /// A chip, a format, a mount or a call was refused.
    Refused,
}

impl From<AllocError> for Failure {
    fn from(_error: AllocError) -> Failure {
        Failure::NoMemory
    }
}

impl From<DiskError> for Failure {
    fn from(_error: DiskError) -> Failure {
        Failure::Refused
    }
}
