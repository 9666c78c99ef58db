//! The two streams of a programmer.

ghost use Rattle.std.specs.Prelude.{◌≡◌, ◌<◌, OnOk};
ghost use Rattle.std.specs.Io.KnownBytes.{Consumes};

use block_device::{Sink, Source};
use std::io::ErrorKind;

/// The stream from a programmer, of which a read waits for bytes, and not for ever.
pub trait Incoming: Source {
    /// Sets how long a read waits for its first byte, in milliseconds, above 0: one in which none
    /// comes fails. It moves no byte.
    fn wait_at_most(&mut self, millis: u32)
        requires { 0 < millis };

    /// Whether the last read failed since no byte came while it waited.
    fn is_silent(&self) -> bool;
}

/// What begins streams to a programmer.
pub trait Dialer<I, O> {
    /// Two new streams, from the programmer and to it, or the kind of error that says why there are
    /// none.
    fn dial(&mut self) -> Result<(I, O), ErrorKind>;
}

/// The bytes weren't all received: a call failed, or the stream ended.
#[derive(Clone, Copy, Debug, PartialEq, Eq, Drop)]
pub struct Short;

/// Fills `into` with the next bytes of a source.
pub fn receive<I: Source>(source: &mut I, into: &mut [u8]) -> Result<(), Short>
    ensures { OnOk result (Consumes (I.remaining source.old) (I.remaining source.new) into.new) }
{
    let mut done = 0;
    while done < into.len() {
        let Ok(n) = source.read(&mut into[done..]) else {
            return Err(Short);
        };
        if n == 0 {
            return Err(Short);
        }
        done += n;
    }
    Ok(())
}
