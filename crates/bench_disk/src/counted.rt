//! What a station or a connection tells, counted and dropped.

use block_device::{Failed, Sink};

/// How many bytes were told.
#[derive(Drop)]
pub struct Counted {
    pub bytes: u64,
}

impl Sink for Counted {
    ghost use Rattle.std.specs.Prelude.{None};

    // nothing is claimed of the bytes
    ghost written = { λ _. None };

    ghost faults = { λ _. 0 };

    /// Takes all, and never fails.
    fn write(&mut self, bytes: &[u8]) -> Result<usize, Failed> {
        self.bytes = self.bytes.wrapping_add(bytes.len() as u64);
        Ok(bytes.len())
    }
}

/// How many of the bytes that were told are the byte of a payload.
#[derive(Drop)]
pub struct Marked {
    pub byte: u8,
    pub count: u64,
}

impl Sink for Marked {
    ghost use Rattle.std.specs.Prelude.{None};

    // nothing is claimed of the bytes
    ghost written = { λ _. None };

    ghost faults = { λ _. 0 };

    /// Takes all, and never fails.
    fn write(&mut self, bytes: &[u8]) -> Result<usize, Failed> {
        for byte in bytes {
            if *byte == self.byte {
                self.count = self.count.wrapping_add(1);
            }
        }
        Ok(bytes.len())
    }
}
