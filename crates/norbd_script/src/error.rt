//! Why a script was not run on a chip.

use flash_disk::MountError;
use nbd_station::ScriptError;
use nor_driver::ProbeError;
use thiserror::Error;

/// Why a script was not run on a chip, or not to its end. Source: own.
#[derive(Clone, Copy, Debug, PartialEq, Eq, Error)]
pub enum RunFault {
    /// The chip was not formatted.
    #[error("the chip is not formatted: {0}")]
    Format(ProbeError),
    /// The chip was not mounted; a Cut and a Slow also where they came as its blocks were read.
    #[error("the chip is not mounted: {0}")]
    Mount(MountError),
    /// What reads as free on the mounted chip isn't erased.
    #[error("what reads as free on the chip is not erased")]
    NotClean,
    /// There was no memory for the station.
    #[error("no memory for the station")]
    OutOfMemory,
    /// The script ended with a bad record, or its input or its output failed.
    #[error("the script ended early: {0}")]
    Script(ScriptError),
}
