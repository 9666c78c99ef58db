//! Why a list of SFDP bytes gives no parameters.

use thiserror::Error;

/// Why a list of SFDP bytes gives no parameters.
#[derive(Clone, Copy, Debug, PartialEq, Eq, Error)]
pub enum SfdpError {
    /// It doesn't begin with `53 46 44 50`.
    #[error("the signature is not SFDP")]
    Signature,
    /// No parameter header has the id of the basic table, FF00h.
    #[error("no parameter header has the id of the basic table")]
    NoBasicTable,
    /// The header, a parameter header or the basic table reaches past the end, or the table has
    /// fewer than 9 words.
    #[error("the table is too short")]
    Short,
    /// The size isn't a multiple of 64 KiB from 64 KiB to 16 MiB.
    #[error("the density is not a multiple of 64 KiB from 64 KiB to 16 MiB")]
    Density,
    /// Pages don't have 256 bytes.
    #[error("the page size is not 256 bytes")]
    PageSize,
    /// 4 KiB can't be erased by 20h.
    #[error("no erase unit of 4 KiB by code 20h")]
    NoSmallErase,
    /// Addresses don't have three bytes.
    #[error("addresses do not have three bytes")]
    AddressBytes,
}
