//! What a clock tells, and the plain copies that stand beside each figure.

ghost use Rattle.std.specs.Prelude.{◌≡◌, ◌<◌, length, OnErr, OnOk};

use crate::failure::Failure;
use crate::figures::nanos;
use std::rt::Clock;
use std::time::Instant;

/// How many copies are timed in one go.
pub const COPIES: u32 = 1_000;

/// What the clock tells.
pub fn now(clock: &impl Clock) -> Result<Instant, Failure>
    ensures { OnErr result (result ≡ Err Failure.NoClock) }
{
    match Instant::now(clock) {
        Ok(instant) => Ok(instant),
        Err(_) => Err(Failure::NoClock),
    }
}

/// One copy, which no other is merged with.
#[inline(never)]
pub fn copy(from: &[u8], into: &mut [u8])
    requires { length into.old ≡ length from.now }
    ensures { into.new ≡ from.now }
{
    into.copy_from_slice(from);
}

/// So many copies of the same bytes.
#[inline(never)]
fn copies(from: &[u8], into: &mut [u8], count: u32)
    requires bytes { length into.old ≡ length from.now }
    requires some { 0 < count }
    ensures { into.new ≡ from.now }
{
    for _ in 0..count {
        copy(from, into);
    }
}

/// Times one go of so many copies, in nanoseconds.
pub fn time_of_copies(
    clock: &impl Clock,
    from: &[u8],
    into: &mut [u8],
    count: u32,
) -> Result<u64, Failure>
    requires bytes { length into.old ≡ length from.now }
    requires some { 0 < count }
    ensures copied { OnOk result (into.new ≡ from.now) }
    ensures size { length into.new ≡ length into.old }
    ensures clock { OnErr result (result ≡ Err Failure.NoClock) }
{
    let start = now(clock)?;
    copies(from, into, count);
    let end = now(clock)?;
    Ok(nanos(end.duration_since(start)))
}
