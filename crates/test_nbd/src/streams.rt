//! Streams that fail or are full.

ghost use Rattle.std.specs.Prelude.{◌≡◌, ◌<◌, ◌≤◌, IfOk};

use block_device::{Failed, FixedOut, Io, Sink, Source, send};
use std::alloc::Global;
use std::io;
use std::io::{Read, Write};
use std::marker::Brand;
use std::process::Abort;
use std::sync::ledger::{Blank, Ledger};
use std::test::*;

/// Moves at most two bytes a call, and none in the second call, which fails. What it gives are 7
/// and 8, again and again.
#[derive(Drop)]
struct Flaky {
    calls: u32,
    taken: Vec<u8>,
}

impl Flaky {
    /// How many bytes the next call moves.
    fn moved(&mut self, most: usize) -> io::Result<usize>
        ensures { IfOk result (λ n. (n ≤ most) × (n ≤ 2)) }
    {
        self.calls = self.calls.saturating_add(1);
        if self.calls == 2 {
            return Err(io::Error::from(io::ErrorKind::BrokenPipe));
        }
        Ok(most.min(2))
    }
}

impl Read for Flaky {
    fn read(&mut self, buf: &mut [u8]) -> io::Result<usize> {
        let n = self.moved(buf.len())?;
        buf[..n].copy_from_slice(&[7u8, 8][..n]);
        Ok(n)
    }
}

impl Write for Flaky {
    fn write(&mut self, buf: &[u8]) -> io::Result<usize> {
        let n = self.moved(buf.len())?;
        self.taken.extend_from_slice(&buf[..n])?;
        Ok(n)
    }

    fn flush(&mut self) -> io::Result<()> {
        Ok(())
    }
}

/// A stream that has moved nothing.
fn new_flaky(alloc: Global) -> Flaky {
    Flaky {
        calls: 0,
        taken: Vec::new(alloc),
    }
}

#[test]
fn a_failed_read_gives_nothing(rt: HostRuntime) {
    read_flakily::<Brand, _>(&rt, rt.alloc(), Blank::new(1));
}

fn read_flakily<L: Ledger, R: Abort>(rt: &R, alloc: Global, reads: Blank)
    requires { (reads.name ≡ L.name) × (reads.parts ≡ L.parts) × (0 < L.parts) }
{
    let mut source = Io::<Flaky, L>::new(new_flaky(alloc), reads);
    let mut into = [0u8; 4];
    let first = source.read(&mut into);
    let moved = [first, source.read(&mut into), source.read(&mut into)];
    assert_eq!(rt; moved, [Ok(2), Err(Failed), Ok(2)]);
    assert_eq!(rt; into, [7, 8, 0, 0]);
}

#[test]
fn a_failed_write_ends_a_send(rt: HostRuntime) {
    send_flakily::<Brand, _>(&rt, rt.alloc(), Blank::new(1));
}

fn send_flakily<L: Ledger, R: Abort>(rt: &R, alloc: Global, writes: Blank)
    requires { (writes.name ≡ L.name) × (writes.parts ≡ L.parts) × (0 < L.parts) }
{
    let mut sink = Io::<Flaky, L>::new(new_flaky(alloc), writes);
    let first = send(&mut sink, &[1, 2, 3, 4, 5]);
    assert_eq!(rt; [first, send(&mut sink, &[6, 7, 8])], [Err(Failed), Ok(())]);
    assert_eq!(rt; sink.inner.taken.as_slice(), [1, 2, 6, 7, 8].as_slice());
}

#[test]
fn a_full_room_keeps_what_it_took(rt: HostRuntime) {
    fill::<Brand, _>(&rt, Blank::new(1));
}

fn fill<L: Ledger, R: Abort>(rt: &R, writes: Blank)
    requires { (writes.name ≡ L.name) × (writes.parts ≡ L.parts) × (0 < L.parts) }
{
    let mut room = [0u8; 3];
    let mut full = FixedOut::<L>::new(&mut room, writes);
    let first = send(&mut full, &[1, 2]);
    assert_eq!(rt; [first, send(&mut full, &[3, 4])], [Ok(()), Err(Failed)]);
    let first = full.write(&[5]);
    assert_eq!(rt; [first, full.write(&[])], [Err(Failed), Ok(0)]);
    assert_eq!(rt; full.bytes(), [1, 2, 3].as_slice());
}
