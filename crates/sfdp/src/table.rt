//! The basic table, word by word.

ghost use Rattle.std.specs.Prelude.{◌≡◌, ◌+◌, ◌*◌, ◌^◌, ◌<◌, ◌≤◌, length};
ghost use Rattle.sfdp.specs.Params.{density, has_pair, has_small_erase, is_pair, is_size};
ghost use Rattle.sfdp.specs.Params.{number_at, table_params};

use crate::error::SfdpError;
use crate::params::Params;

/// The number that four bytes make, the least significant first.
fn number_at(bytes: &[u8], at: usize) -> u32
    requires { at + 4 ≤ length bytes.now }
    ensures { result ≡ number_at bytes.now at }
{
    let low = bytes[at] as u32 + 256 * bytes[at + 1] as u32;
    low + 65_536 * bytes[at + 2] as u32 + 16_777_216 * bytes[at + 3] as u32
}

/// Whether a size in bits less one is one that is served.
fn is_size(density: u32) -> bool
    ensures { result ≡ is_size density }
{
    density < 1 << 31 && (density as u64 + 1) % 524_288 == 0 && density < 134_217_728
}

/// Whether the pair `k` of the table at `at` is this one.
fn is_pair(bytes: &[u8], at: usize, exponent: u8, code: u8, k: usize) -> bool
    requires k { k < 4 }
    requires at { at + 36 ≤ length bytes.now }
    ensures { result ≡ is_pair bytes.now at exponent code k }
{
    bytes[at + 28 + 2 * k] == exponent && bytes[at + 29 + 2 * k] == code
}

/// Whether one of the four pairs is this one.
fn has_pair(bytes: &[u8], at: usize, exponent: u8, code: u8) -> bool
    requires { at + 36 ≤ length bytes.now }
    ensures { result ≡ has_pair bytes.now at exponent code }
{
    is_pair(bytes, at, exponent, code, 0)
        || is_pair(bytes, at, exponent, code, 1)
        || is_pair(bytes, at, exponent, code, 2)
        || is_pair(bytes, at, exponent, code, 3)
}

/// Whether 4 KiB are erased by 20h.
fn has_small_erase(bytes: &[u8], at: usize) -> bool
    requires { at + 36 ≤ length bytes.now }
    ensures { result ≡ has_small_erase bytes.now at }
{
    bytes[at] % 4 == 1 && bytes[at + 1] == 0x20 && has_pair(bytes, at, 12, 0x20)
}

/// The parameters of the table of `words` words at `at`.
pub(crate) fn table_params(bytes: &[u8], at: usize, words: usize) -> Result<Params, SfdpError>
    requires at { at < 2 ^ 24 }
    requires words { words < 256 }
    ensures { result ≡ table_params bytes.now at words }
{
    if words < 9 {
        return Err(SfdpError::Short);
    }
    if bytes.len() < at + 4 * words {
        return Err(SfdpError::Short);
    }
    let density = number_at(bytes, at + 4);
    if !is_size(density) {
        return Err(SfdpError::Density);
    }
    if words >= 11 && bytes[at + 40] / 16 != 8 {
        return Err(SfdpError::PageSize);
    }
    if !has_small_erase(bytes, at) {
        return Err(SfdpError::NoSmallErase);
    }
    if bytes[at + 2] / 2 % 4 != 0 {
        return Err(SfdpError::AddressBytes);
    }
    let large = if has_pair(bytes, at, 16, 0xD8) {
        Some(0xD8)
    } else {
        None
    };
    Ok(Params {
        bytes: (density + 1) / 8,
        page: 256,
        small: 0x20,
        large,
    })
}
