//! The head of a log.

ghost use Rattle.std.specs.Prelude.{◌≡◌, ◌≤◌, All, None, Some, length};
ghost use Rattle.std.specs.Prelude.{if◌then◌else◌, true, IsTrue, ◌↔◌};
ghost use Rattle.disk_log.specs.Logs.{IsBlank, IsTorn, IsTornAt, has_head, head_sum};

use crate::record::{Sum, number_at, read_sum};

/// The length of a log's head in bytes.
pub const LOG_HEAD_LEN: usize = 16;

/// The first eight bytes of a log.
const LOG_NAME: &[u8; 8] = b"NORBDLOG";

/// The same as two numbers.
const NORB: u32 = 0x4252_4F4E;

const DLOG: u32 = 0x474F_4C44;

/// The head of a log that is begun on an image whose bytes have this sum.
pub(crate) fn log_head(sum: Sum) -> [u8; LOG_HEAD_LEN]
    ensures len { length result ≡ 16 }
    ensures head { has_head result ≡ true }
    ensures sum { head_sum result ≡ sum }
{
    let (s, t) = (sum.0.to_le_bytes(), sum.1.to_le_bytes());
    [
        b'N', b'O', b'R', b'B', b'D', b'L', b'O', b'G', s[0], s[1], s[2], s[3], t[0], t[1], t[2],
        t[3],
    ]
}

/// The sum in the head of a log, where it has one.
pub(crate) fn read_log_head(log: &[u8]) -> Option<Sum>
    ensures { result ≡ if has_head log.now then Some (head_sum log.now) else None }
{
    if log.len() < LOG_HEAD_LEN || number_at(log, 0) != NORB || number_at(log, 4) != DLOG {
        return None;
    }
    Some(read_sum(log, 8))
}

/// Whether these bytes are zeros.
pub(crate) fn is_zero(bytes: &[u8]) -> bool
    ensures { IsTrue result ↔ All (λ byte. byte ≡ 0) bytes.now }
{
    bytes.iter().all(|&byte| byte == 0)
}

/// Whether so many first bytes of a log's name begin these, and zeros follow.
fn is_torn_at(front: &[u8], named: usize) -> bool
    requires { named ≤ 8 }
    ensures { IsTrue result ↔ IsTornAt named front.now }
{
    if front.len() < named {
        return false;
    }
    if front[..named] != LOG_NAME[..named] {
        return false;
    }
    is_zero(&front[named..])
}

/// Whether these are the first bytes of a log that was never begun, or of whose head a kill left a
/// beginning.
fn is_torn(front: &[u8]) -> bool
    ensures { IsTrue result ↔ IsTorn front.now }
{
    for named in 0..LOG_NAME.len() {
        if is_torn_at(front, named) {
            return true;
        }
    }
    front.len() < LOG_HEAD_LEN && front.len() >= 8 && front[..8] == LOG_NAME[..]
}

/// Whether a log was never begun, or a kill left a beginning of its head.
pub(crate) fn is_unbegun(log: &[u8]) -> bool
    ensures { IsTrue result ↔ IsBlank log.now }
{
    if log.len() < LOG_HEAD_LEN {
        return is_torn(log);
    }
    is_torn(&log[..LOG_HEAD_LEN])
}
