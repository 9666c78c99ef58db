//! Standard output, whose last failure is noted.

ghost use Rattle.std.specs.Prelude.{List, Option, ℕ};

use crate::printing::Failure;
use std::io;
use std::io::{ErrorKind, Write};

/// A writer whose last failure is noted; nothing of one that is closed is written.
#[derive(Drop)]
pub struct Output<W> {
    inner: W,
    closed: bool,
    failure: Option<Failure>,
}

impl<W: Write> Output<W> {
    /// A writer that is closed or not, with no failure so far.
    pub fn new(inner: W, closed: bool) -> Self {
        Output {
            inner,
            closed,
            failure: None,
        }
    }

    /// Its last failure, where there was one.
    pub fn failure(&self) -> Option<Failure> {
        self.failure
    }
}

impl<W: Write> Write for Output<W> {
    ghost contents = { λ output. W.contents output.inner };

    fn write(&mut self, bytes: &[u8]) -> io::Result<usize> {
        if self.closed {
            self.failure = Some(Failure::Closed);
            return Err(io::Error::from(ErrorKind::NotConnected));
        }
        match self.inner.write(bytes) {
            Ok(count) => Ok(count),
            Err(error) => {
                self.failure = Some(Failure::Answered(error.kind()));
                Err(error)
            }
        }
    }

    fn flush(&mut self) -> io::Result<()> {
        self.inner.flush()
    }
}
