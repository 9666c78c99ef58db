//! Byte streams: where bytes come from and where they go; and those of the standard library, with a
//! count of their failed calls.

ghost use Rattle.std.specs.Prelude.{◌≡◌, ℕ, ◌<◌, List, ◌++◌, length, IfOk, Option, ◌+◌};
ghost use Rattle.std.specs.Io.{ReadsAtMost, WritesAtMost};
ghost use Rattle.std.specs.Io.KnownBytes.{ReadConsumes, WriteAppends};
ghost use Rattle.block_device.specs.Streams.{CountsFailure, Sends};

use crate::tally::Tally;
use std::io::{Read, Write};
use std::sync::ledger::{Blank, Ledger};
use thiserror::Error;

/// A call of a stream failed. It moved no byte.
#[derive(Clone, Copy, Debug, PartialEq, Eq, Drop, Error)]
#[error("a call of the stream failed")]
pub struct Failed;

/// Where bytes come from: std's `read`, with a count of the calls that failed.
pub trait Source {
    // The bytes that are left, where they are known; None claims nothing.
    ghost remaining: { Self → Option (List ℕ) };

    // How many calls failed so far.
    ghost faults: { Self → ℕ };

    /// Moves some of the bytes that are left to the front of `into`, and answers how many: 0 only
    /// at the end or where `into` is empty. The bytes of `into` past these are unspecified, and all
    /// of them after `Failed`.
    fn read(&mut self, into: &mut [u8]) -> Result<usize, Failed>
        ensures bound { ReadsAtMost result into.new }
        ensures bytes { ReadConsumes (remaining self.old) (remaining self.new) result into.new }
        ensures faults { CountsFailure (faults self.old) result (faults self.new) };
}

/// Where bytes go: std's `write`, with a count of the calls that failed.
pub trait Sink {
    // The bytes that were taken so far, where they are known; None claims nothing.
    ghost written: { Self → Option (List ℕ) };

    // How many calls failed so far.
    ghost faults: { Self → ℕ };

    /// Takes a beginning of `bytes`, and answers how many bytes: at least one, unless `bytes` is
    /// empty.
    fn write(&mut self, bytes: &[u8]) -> Result<usize, Failed>
        ensures bound { WritesAtMost result bytes.now }
        ensures some { 0 < length bytes.now → IfOk result (λ n. 0 < n) }
        ensures bytes { WriteAppends (written self.old) (written self.new) result bytes.now }
        ensures faults { CountsFailure (faults self.old) result (faults self.new) };

    /// As `write` of `head` and `rest` together: a sink that can't take both in one call takes the
    /// first that is not empty.
    fn write_both(&mut self, head: &[u8], rest: &[u8]) -> Result<usize, Failed>
        ensures bound { WritesAtMost result (head.now ++ rest.now) }
        ensures some { 0 < length (head.now ++ rest.now) → IfOk result (λ n. 0 < n) }
        ensures bytes { WriteAppends (written self.old) (written self.new) result
            (head.now ++ rest.now) }
        ensures faults { CountsFailure (faults self.old) result (faults self.new) }
    {
        if head.is_empty() {
            self.write(rest)
        } else {
            self.write(head)
        }
    }
}

/// Writes all of `bytes`, or a beginning of them where a call of the sink failed.
pub fn send<W: Sink>(out: &mut W, bytes: &[u8]) -> Result<(), Failed>
    ensures { Sends (W.written out.old) (W.faults out.old) bytes.now result
        (W.written out.new) (W.faults out.new) }
{
    let mut rest = bytes;
    while !rest.is_empty() {
        let n = out.write(rest)?;
        rest = &rest[n..];
    }
    Ok(())
}

/// Writes all of `head` and then all of `bytes`, in one call where the sink takes both, or a
/// beginning of the two together where a call of the sink failed.
pub fn send_both<W: Sink>(out: &mut W, head: &[u8], bytes: &[u8]) -> Result<(), Failed>
    ensures { Sends (W.written out.old) (W.faults out.old) (head.now ++ bytes.now) result
        (W.written out.new) (W.faults out.new) }
{
    if head.is_empty() {
        return send(out, bytes);
    }
    let n = match out.write_both(head, bytes) {
        Ok(n) => n,
        Err(e) => return Err(e),
    };
    if n >= head.len() {
        return send(out, &bytes[n - head.len()..]);
    }
    match send(out, &head[n..]) {
        Ok(()) => send(out, bytes),
        Err(e) => Err(e),
    }
}

/// A stream of the standard library, whose failed calls are counted.
#[derive(Drop)]
pub struct Io<T, L: Ledger> {
    /// The stream itself.
    pub inner: T,
    /// How many calls failed so far.
    pub failures: Tally<L>,
}

impl<T, L: Ledger> Io<T, L> {
    /// The stream, with no failed call so far.
    pub fn new(inner: T, blank: Blank) -> Self
        requires name { blank.name ≡ L.name }
        requires parts { blank.parts ≡ L.parts }
        requires some { 0 < L.parts }
        ensures inner { result.inner ≡ inner }
        ensures failures { result.failures ≡ 0 }
    {
        Io {
            inner,
            failures: Tally::new(blank),
        }
    }
}

impl<T: Read, L: Ledger> Source for Io<T, L> {
    ghost remaining = { λ io. T.remaining io.inner };

    ghost faults = { λ io. io.failures };

    /// Fails where the stream's own `read` does.
    fn read(&mut self, into: &mut [u8]) -> Result<usize, Failed> {
        let Ok(n) = self.inner.read(into) else {
            return Err(counted(&mut self.failures));
        };
        Ok(n)
    }
}

impl<T: Write, L: Ledger> Sink for Io<T, L> {
    ghost written = { λ io. T.contents io.inner };

    ghost faults = { λ io. io.failures };

    /// Fails where the stream's own `write` does, and where it takes none of some bytes.
    fn write(&mut self, bytes: &[u8]) -> Result<usize, Failed> {
        match self.inner.write(bytes) {
            Ok(0) if !bytes.is_empty() => Err(counted(&mut self.failures)),
            Ok(n) => Ok(n),
            Err(_) => Err(counted(&mut self.failures)),
        }
    }
}

/// Counts a failed call.
fn counted<L: Ledger>(failures: &mut Tally<L>) -> Failed
    ensures { failures.new ≡ failures.old + 1 }
{
    failures.tick();
    Failed
}
