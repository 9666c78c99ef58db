//! The disk that is an array in memory.

ghost use Rattle.std.specs.Prelude.{◌≡◌, ◌*◌, IfOk, replicate};

use crate::disk::{Disk, DiskError};
use std::alloc::{AllocError, Global};
use std::marker::Model;

/// A disk that is an array in memory. No call of it fails.
#[derive(Drop)]
pub struct PlainDisk {
    bytes: Vec<u8>,
    sectors: u32,
}

impl Model for PlainDisk {
    ghost use Rattle.std.specs.Prelude.{◌≡◌, ℕ, ◌*◌, List, vec_len};

    ghost Value = { List ℕ };

    ghost view = { λ disk. disk.bytes.items };

    ghost invariant = { λ disk. vec_len disk.bytes ≡ 512 * disk.sectors };
}

impl PlainDisk {
    /// A disk of so many sectors of zeros, or the allocator's refusal of its 512 bytes a sector.
    pub fn new(alloc: Global, sectors: u32) -> Result<PlainDisk, AllocError>
        ensures { IfOk result (λ disk. disk ≡ replicate (512 * sectors) 0) }
    {
        let bytes = vec![in alloc; 0u8; 512 * sectors as usize]?;
        Ok(PlainDisk { bytes, sectors })
    }
}

impl Disk for PlainDisk {
    ghost use Rattle.std.specs.Prelude.{true, false};

    ghost facts = { λ disk. record {
      sound = true;
      contents = disk;
      cuts = 0;
      slows = 0;
      cut = false;
      slow = false;
      work = 0;
    } };

    fn sectors(&self) -> u32 {
        self.sectors
    }

    fn read(&mut self, first: u32, into: &mut [u8]) -> Result<(), DiskError> {
        let start = 512 * first as usize;
        into.copy_from_slice(&self.bytes[start..start + into.len()]);
        Ok(())
    }

    fn write(&mut self, first: u32, from: &[u8]) -> Result<(), DiskError> {
        let at = 512 * first as usize;
        self.bytes[at..at + from.len()].copy_from_slice(from);
        Ok(())
    }

    fn zero(&mut self, first: u32, count: u32) -> Result<(), DiskError> {
        let begin = 512 * first as usize;
        self.bytes[begin..begin + 512 * count as usize].fill(0);
        Ok(())
    }

    fn flush(&mut self) -> Result<(), DiskError> {
        Ok(())
    }

    fn tidy(&mut self) -> Result<bool, DiskError> {
        Ok(false)
    }

    fn restore(&mut self) -> Result<(), DiskError> {
        Ok(())
    }

    fn arm(&mut self, _count: u32, _kind: u8, _mask: u8) {}
}
