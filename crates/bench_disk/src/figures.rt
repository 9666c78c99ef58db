//! The arithmetic of the table.

ghost use Rattle.std.specs.Prelude.{◌≡◌, ◌-◌, ◌*◌, ◌^◌, ◌/◌, ◌<◌, min};
ghost use Rattle.std.specs.Duration.{as_nanos};

use std::time::Duration;

/// The nanoseconds of one call, rounded down, where so many took so many nanoseconds.
pub fn per_call(nanos: u64, count: u32) -> u64
    requires { 0 < count }
    ensures { result ≡ nanos / count }
{
    nanos / count as u64
}

/// A span's nanoseconds, at most 2^64 - 1.
pub fn nanos(span: Duration) -> u64
    ensures { result ≡ min (as_nanos span) (2 ^ 64 - 1) }
{
    let nanos = span.as_nanos();
    if nanos < u64::MAX as u128 {
        nanos as u64
    } else {
        u64::MAX
    }
}

/// How many calls of so many nanoseconds there are in a second, rounded down; where one takes no
/// time, as if it took one.
pub fn a_second(nanos: u64) -> u64
    ensures { 0 < nanos → result ≡ 1000000000 / nanos }
{
    1_000_000_000 / nanos.max(1)
}

/// Thousandths of a nanosecond for one of so many bytes that take so many nanoseconds, rounded
/// down; no bytes count as one.
pub fn a_byte(nanos: u64, bytes: u64) -> u64
    ensures { 0 < bytes → 1000 * nanos < 2 ^ 64 → result ≡ 1000 * nanos / bytes }
{
    nanos.saturating_mul(1_000) / bytes.max(1)
}
