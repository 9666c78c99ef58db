//! What is called of the journal of a chip, and what is left of its memory.

use chip_simulator::SimChip;
use erase_journal::{Journal, RecoverError};
use nor_driver::{Driver, NorError};
use std::test::*;

/// What a call ended with.
#[derive(Clone, Copy, Debug, PartialEq, Eq)]
pub(crate) enum End {
    Done,
    Cut,
    Slow,
    Corrupt,
}

fn of_recovery(error: RecoverError) -> End {
    match error {
        RecoverError::Cut => End::Cut,
        RecoverError::Slow => End::Slow,
        RecoverError::Corrupt => End::Corrupt,
    }
}

/// What a call of a block ended with.
pub(crate) fn of_erase(answer: Result<(), NorError>) -> End {
    match answer {
        Ok(()) => End::Done,
        Err(NorError::Cut) => End::Cut,
        Err(NorError::Slow) => End::Slow,
    }
}

/// The driver of a chip.
pub(crate) fn driver(chip: SimChip) -> Result<Driver<SimChip>, Fail> {
    match Driver::probe(chip) {
        Ok(driver) => Ok(driver),
        Err((_, error)) => Err(Fail::from(error)),
    }
}

/// A recovery: its end, and the memory after it.
pub(crate) fn recover(chip: SimChip) -> Result<(End, Vec<u8>), Fail> {
    match Journal::recover(driver(chip)?) {
        Ok(journal) => Ok((End::Done, journal.into_inner().into_inner().into_inner())),
        Err((driver, error)) => Ok((of_recovery(error), driver.into_inner().into_inner())),
    }
}

/// An erase of block 4 by a chip that recovers: its end, and the memory after it.
pub(crate) fn erase(chip: SimChip) -> Result<(End, Vec<u8>), Fail> {
    match Journal::recover(driver(chip)?) {
        Ok(mut journal) => {
            let end = of_erase(journal.erase(4));
            Ok((end, journal.into_inner().into_inner().into_inner()))
        }
        Err((driver, error)) => {
            let _memory = driver.into_inner().into_inner();
            Err(Fail::from(error))
        }
    }
}
