//! Why a sweep ended early.

use std::alloc::AllocError;
use std::fmt;
use test_judge::Wrong;

/// Why a sweep ended early.
#[derive(Clone, Copy, Debug)]
pub enum Failure {
    /// There is no memory for a chip, a station, a script or the room of a transcript.
    NoMemory,
    /// The clock told no time.
    NoClock,
    /// A chip was not formatted or not mounted.
    Refused,
    /// A script ended badly, or there was no room for its transcript.
    Script,
    /// A restore is lost each time.
    Endless,
    /// A transcript is not one of the array.
    Told(Wrong),
    /// A session under a firm mount that no loss ended left a chip that isn't firm.
    Weak,
}

impl From<AllocError> for Failure {
    fn from(_error: AllocError) -> Failure {
        Failure::NoMemory
    }
}

impl fmt::Display for Failure {
    fn fmt<W: fmt::Write>(&self, f: &mut fmt::Formatter<W>) -> fmt::Result {
        let text = match self {
            Failure::NoMemory => "no memory",
            Failure::NoClock => "no clock",
            Failure::Refused => "a chip is not formatted or not mounted",
            Failure::Script => "a script ends badly",
            Failure::Endless => "a restore is lost each time",
            Failure::Told(Wrong::Answer) => "the last event is not answered as by the array",
            Failure::Told(Wrong::Sector) => "a sector is neither what it was nor what it was to be",
            Failure::Told(Wrong::Loss) =>
                "a loss of power that was not armed, or in no event of the chip",
            Failure::Weak => "a firm session leaves a weak bit where one is read",
        };
        write!(f, "{text}")
    }
}
