//! Streams over bytes in memory, of which no call fails.

ghost use Rattle.std.specs.Prelude.{◌≡◌, [], ◌<◌, length, min, Some, IfOk};
ghost use Rattle.std.specs.Io.{ReadsAtMost, WritesAtMost};
ghost use Rattle.std.specs.Io.KnownBytes.{ReadConsumes, WriteAppends};
ghost use Rattle.block_device.specs.Streams.{CountsFailure, Accepts};

use crate::stream::{Failed, Sink, Source};
use crate::tally::Tally;
use std::marker::Model;
use std::sync::ledger::{Blank, Ledger};

/// Bytes that are all there. No call of it fails.
#[derive(Drop)]
pub struct FixedIn<'a> {
    rest: &'a [u8],
}

impl<'a> Model for FixedIn<'a> {
    ghost use Rattle.std.specs.Prelude.{ℕ, List};

    ghost Value = { List ℕ };

    ghost view = { λ source. source.rest.now };
}

impl<'a> FixedIn<'a> {
    /// A source that has these bytes left.
    pub fn new(bytes: &'a [u8]) -> Self
        ensures { result ≡ bytes.now }
    {
        FixedIn { rest: bytes }
    }
}

impl Source for FixedIn<'_> {
    ghost use Rattle.std.specs.Prelude.{Some};

    ghost remaining = { λ bytes. Some bytes };

    ghost faults = { λ _. 0 };

    /// Moves as many bytes as are left and as `into` has room for. It never fails.
    fn read(&mut self, into: &mut [u8]) -> Result<usize, Failed>
        ensures bound { ReadsAtMost result into.new }
        ensures bytes { ReadConsumes (Some self.old) (Some self.new) result into.new }
        ensures faults { CountsFailure 0 result 0 }
        ensures count { result ≡ Ok (min (length into.old) (length self.old)) }
    {
        let n = into.len().min(self.rest.len());
        into[..n].copy_from_slice(&self.rest[..n]);
        self.rest = &self.rest[n..];
        Ok(n)
    }
}

/// Room for some bytes. A write fails only where all of it is used.
#[derive(Drop)]
pub struct FixedOut<'a, L: Ledger> {
    room: &'a mut [u8],
    used: usize,
    failures: Tally<L>,
}

impl<'a, L: Ledger> Model for FixedOut<'a, L> {
    ghost use Rattle.std.specs.Prelude.{◌≤◌, length, take};
    ghost use Rattle.block_device.specs.Streams.{Room};

    ghost Value = { Room };

    ghost view = { λ out. record {
      size = length out.room.now;
      taken = take out.used out.room.now;
      failures = out.failures;
    } };

    ghost invariant = { λ out. out.used ≤ length out.room.now };
}

impl<'a, L: Ledger> FixedOut<'a, L> {
    /// A sink with all of `room` unused.
    pub fn new(room: &'a mut [u8], blank: Blank) -> Self
        requires name { blank.name ≡ L.name }
        requires parts { blank.parts ≡ L.parts }
        requires some { 0 < L.parts }
        ensures size { result.size ≡ length room.entry.now }
        ensures taken { result.taken ≡ [] }
        ensures failures { result.failures ≡ 0 }
    {
        FixedOut {
            room,
            used: 0,
            failures: Tally::new(blank),
        }
    }

    /// The bytes that were taken so far.
    pub fn bytes(&self) -> &[u8]
        ensures { result.now ≡ self.now.taken }
    {
        &self.room[..self.used]
    }
}

impl<L: Ledger> Sink for FixedOut<'_, L> {
    ghost use Rattle.std.specs.Prelude.{Some};

    ghost written = { λ out. Some out.taken };

    ghost faults = { λ out. out.failures };

    /// Takes as many bytes as it has room for. It fails only where there are some bytes and all
    /// room is used.
    fn write(&mut self, bytes: &[u8]) -> Result<usize, Failed>
        ensures bound { WritesAtMost result bytes.now }
        ensures some { 0 < length bytes.now → IfOk result (λ n. 0 < n) }
        ensures bytes { WriteAppends (Some self.old.taken) (Some self.new.taken) result bytes.now }
        ensures faults { CountsFailure self.old.failures result self.new.failures }
        ensures size { self.new.size ≡ self.old.size }
        ensures count { Accepts self.old result (length bytes.now) }
    {
        let n = bytes.len().min(self.room.len() - self.used);
        if n == 0 && !bytes.is_empty() {
            self.failures.tick();
            return Err(Failed);
        }
        let used = self.used;
        self.room[used..used + n].copy_from_slice(&bytes[..n]);
        self.used = used + n;
        Ok(n)
    }
}
