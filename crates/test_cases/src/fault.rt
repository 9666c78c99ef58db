//! Why a line could not be run.

use std::alloc::{AllocError, AllocFailed};

/// Why a line could not be run.
#[derive(Clone, Copy, Debug, PartialEq, Eq, Drop)]
pub(crate) enum Fault {
    /// There was no memory for what it asks for.
    NoMemory,
    /// It has a word that is none of its layer, a number that is none, or words too many or too
    /// few.
    NotUnderstood,
}

impl From<AllocError> for Fault {
    fn from(_: AllocError) -> Fault {
        Fault::NoMemory
    }
}

impl<T: Drop> From<AllocFailed<T>> for Fault {
    fn from(_: AllocFailed<T>) -> Fault {
        Fault::NoMemory
    }
}
