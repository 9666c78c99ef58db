//! Why nothing was done with a chip behind a programmer.

ghost use Rattle.std.specs.Prelude.{◌≡◌, false};
ghost use Rattle.norbd_chip.specs.Faults.{is_unsure};

use crate::noting::Noted;
use chip_watch::OpenError;
use nor_driver::ProbeError;
use norbd_line::ChipCause;
use serprog::SerprogError;

/// Why nothing was done with a chip behind a programmer, or not all.
#[derive(Clone, Copy, Debug, PartialEq, Eq, Drop)]
pub enum ChipFault {
    /// Memory ran out.
    NoMemory,
    /// The programmer or the chip failed.
    Failed(ChipCause),
    /// The chip's table is refused.
    BadTable,
    /// Its id is another.
    WrongId,
    /// Its protection can't be ended.
    Protected,
    /// An operation of it didn't end.
    Slow,
}

/// What a programmer that isn't used is.
pub(crate) fn told_of_programmer(error: SerprogError) -> ChipFault
    ensures { is_unsure result ≡ false }
{
    ChipFault::Failed(ChipCause::Programmer(error))
}

/// What a chip that isn't watched is, of which this is noted.
pub(crate) fn told_of_opening(error: OpenError, noted: &Noted) -> ChipFault
    ensures { is_unsure result ≡ false }
{
    match error {
        OpenError::NoAnswer(_) | OpenError::Busy => ChipFault::Failed(noted.silence()),
        OpenError::Restless(status) => ChipFault::Failed(ChipCause::Restless(status)),
        OpenError::Scheme(second, third) => ChipFault::Failed(ChipCause::Scheme(second, third)),
        OpenError::Table(_) => ChipFault::BadTable,
        OpenError::OutOfMemory => ChipFault::NoMemory,
    }
}

/// What a probe's refusal of a watched chip is, which may have left the model, as is noted.
pub(crate) fn told_of_refusal(error: ProbeError, noted: &Noted) -> ChipFault
    ensures { is_unsure result ≡ false }
{
    match error {
        ProbeError::Cut => ChipFault::Failed(noted.cause()),
        ProbeError::Slow => ChipFault::Slow,
        ProbeError::WrongId => ChipFault::WrongId,
        ProbeError::Sfdp(_) => ChipFault::BadTable,
        ProbeError::Protected => ChipFault::Protected,
    }
}
