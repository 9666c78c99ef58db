//! Why a call on a NOR memory, or a probe, didn't do its work.

ghost use Rattle.std.specs.Prelude.{◌≡◌};
ghost use Rattle.nor_driver.specs.declared.error.NorError.TheVariants.{Cut};
ghost use Rattle.nor_driver.specs.declared.error.ProbeError.TheVariants as refusals;
ghost use Rattle.nor_driver.specs.Unprotect.{probe_error};

use chip_model::PowerLost;
use sfdp::SfdpError;
use thiserror::Error;

/// Why a call on a NOR memory didn't do its work. Source: own.
#[derive(Clone, Copy, Debug, PartialEq, Eq, Error)]
pub enum NorError {
    /// The power went in this call, or was off.
    #[error("power was lost during the call, or was off")]
    Cut,
    /// An operation didn't end: in this call, or in an earlier one with no `restart` that answered
    /// Ok since.
    #[error("an operation did not end")]
    Slow,
}

impl From<PowerLost> for NorError {
    ghost from_gives = { λ _ e. e ≡ Cut };

    fn from(_: PowerLost) -> Self {
        NorError::Cut
    }
}

/// Why a chip is not served. The refusals are numbered from 1 in this order. Source: own.
#[derive(Clone, Copy, Debug, PartialEq, Eq, Error)]
pub enum ProbeError {
    /// 1: the power went in this call, or couldn't be turned on.
    #[error("power was lost during the probe, or could not be turned on")]
    Cut,
    /// 2: an operation didn't end in this call.
    #[error("an operation did not end")]
    Slow,
    /// 3: the id isn't EFh 40h and a third byte from 10h to 18h, or that byte isn't the one of the
    /// table's size.
    #[error("the id is not that of a chip that is served, or not of its table's size")]
    WrongId,
    /// 4: the chip's SFDP table is refused.
    #[error("the SFDP table is refused: {0}")]
    Sfdp(SfdpError),
    /// 5: BP, SEC, CMP or WPS isn't 0.
    #[error("the memory is protected: BP, SEC, CMP or WPS is not 0")]
    Protected,
}

impl From<PowerLost> for ProbeError {
    ghost from_gives = { λ _ e. e ≡ refusals.Cut };

    fn from(_: PowerLost) -> Self {
        ProbeError::Cut
    }
}

impl From<NorError> for ProbeError {
    ghost from_gives = { λ n e. e ≡ probe_error n };

    fn from(error: NorError) -> Self {
        match error {
            NorError::Cut => ProbeError::Cut,
            NorError::Slow => ProbeError::Slow,
        }
    }
}
