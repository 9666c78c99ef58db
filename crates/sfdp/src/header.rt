//! The header and the parameter headers.

ghost use Rattle.std.specs.Prelude.{◌≡◌, ◌+◌, ◌*◌, ◌<◌, ◌≤◌, IfSome, length};
ghost use Rattle.sfdp.specs.Params.{first_basic, has_signature, header_at, is_basic, params_of};

use crate::error::SfdpError;
use crate::params::Params;
use crate::table::table_params;

/// Whether the bytes begin with `53 46 44 50`.
fn has_signature(bytes: &[u8]) -> bool
    requires { 8 ≤ length bytes.now }
    ensures { result ≡ has_signature bytes.now }
{
    bytes[0] == 0x53 && bytes[1] == 0x46 && bytes[2] == 0x44 && bytes[3] == 0x50
}

/// Whether the parameter header `k` has the basic table's id.
fn is_basic(bytes: &[u8], k: usize) -> bool
    requires { header_at k + 8 ≤ length bytes.now }
    ensures { result ≡ is_basic bytes.now k }
{
    bytes[8 + 8 * k] == 0 && bytes[8 + 8 * k + 7] == 0xFF
}

/// The first of the parameter headers that has the basic table's id.
fn first_basic(bytes: &[u8], headers: usize) -> Option<usize>
    requires { header_at headers ≤ length bytes.now }
    ensures first { result ≡ first_basic bytes.now 0 headers }
    ensures within { IfSome result (λ k. k < headers) }
{
    for k in 0..headers {
        if is_basic(bytes, k) {
            return Some(k);
        }
    }
    None
}

/// The parameters that a list of SFDP bytes gives, or the first rule that it breaks. Any bytes may
/// be passed.
#[tactic(auto, unfolding(crate::specs::Params::params_of))]
pub fn read_params(bytes: &[u8]) -> Result<Params, SfdpError>
    ensures { result ≡ params_of bytes.now }
{
    if bytes.len() < 8 {
        return Err(SfdpError::Short);
    }
    if !has_signature(bytes) {
        return Err(SfdpError::Signature);
    }
    let headers = bytes[6] as usize + 1;
    if bytes.len() < 8 + 8 * headers {
        return Err(SfdpError::Short);
    }
    let Some(k) = first_basic(bytes, headers) else {
        return Err(SfdpError::NoBasicTable);
    };
    let header = 8 + 8 * k;
    let pointer = bytes[header + 4] as usize
        + 256 * bytes[header + 5] as usize
        + 65_536 * bytes[header + 6] as usize;
    table_params(bytes, pointer, bytes[header + 3] as usize)
}
