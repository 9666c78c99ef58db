//! The words for what a call ended with.

use block_device::DiskError;
use erase_journal::RecoverError;
use flash_disk::MountError;
use nor_driver::{NorError, ProbeError};
use sfdp::SfdpError;

/// Of a call of a NOR memory.
pub(crate) fn of_nor(answer: Result<(), NorError>) -> &'static str {
    match answer {
        Ok(()) => "ok",
        Err(NorError::Cut) => "cut",
        Err(NorError::Slow) => "slow",
    }
}

/// Of a call of a disk.
pub(crate) fn of_disk(answer: Result<(), DiskError>) -> &'static str {
    match answer {
        Ok(()) => "ok",
        Err(DiskError::Cut) => "cut",
        Err(DiskError::Slow) => "slow",
    }
}

/// Of a recovery of the journals.
pub(crate) fn of_recovery(error: RecoverError) -> &'static str {
    match error {
        RecoverError::Cut => "cut",
        RecoverError::Slow => "slow",
        RecoverError::Corrupt => "corrupt",
    }
}

/// Of a table that is refused.
pub(crate) fn of_table(error: SfdpError) -> &'static str {
    match error {
        SfdpError::Signature => "sfdp signature",
        SfdpError::NoBasicTable => "sfdp no basic table",
        SfdpError::Short => "sfdp short",
        SfdpError::Density => "sfdp density",
        SfdpError::PageSize => "sfdp page size",
        SfdpError::NoSmallErase => "sfdp no small erase",
        SfdpError::AddressBytes => "sfdp address bytes",
    }
}

/// Of a probe.
pub(crate) fn of_probe(answer: Result<(), ProbeError>) -> &'static str {
    match answer {
        Ok(()) => "ok",
        Err(ProbeError::Cut) => "cut",
        Err(ProbeError::Slow) => "slow",
        Err(ProbeError::WrongId) => "wrong id",
        Err(ProbeError::Sfdp(error)) => of_table(error),
        Err(ProbeError::Protected) => "protected",
    }
}

/// Of a mount of a disk.
pub(crate) fn of_mount(error: MountError) -> &'static str {
    match error {
        MountError::Probe(error) => of_probe(Err(error)),
        MountError::OutOfMemory => "no memory",
        MountError::NotFormatted => "not formatted",
        MountError::Corrupt => "corrupt",
    }
}

/// Of a mount of a map of sectors.
pub(crate) fn of_map(error: sector_map::MapError) -> &'static str {
    match error {
        sector_map::MapError::Cut => "cut",
        sector_map::MapError::Slow => "slow",
        sector_map::MapError::Corrupt => "corrupt",
        sector_map::MapError::OutOfMemory => "no memory",
        sector_map::MapError::NotFormatted => "not formatted",
    }
}

/// Of a tidying.
pub(crate) fn of_tidy(answer: Result<bool, &'static str>) -> &'static str {
    match answer {
        Ok(true) => "ok",
        Ok(false) => "nothing to do",
        Err(word) => word,
    }
}
