//! What is measured of a mounted disk.

ghost use Rattle.std.specs.Prelude.{◌≡◌, ◌+◌, ◌*◌, ◌<◌, ◌≤◌, ◌↔◌, [], ◌∷◌};

use crate::disks::Filling;

/// A call of the disk of a chip of 16 MiB.
#[derive(Clone, Copy)]
pub enum Call {
    /// A `read` of 512 bytes: one sector in seven, on a full chip as the other reads and writes,
    /// but for the first write.
    ShortRead,
    /// A `read` of 65,536 bytes: 128 sectors.
    LongRead,
    /// A `write` of 512 bytes on a formatted chip: the first write of its sector.
    FirstWrite,
    /// A `write` of 512 bytes, where the free slots are the last ones of the chip.
    ShortWrite,
    /// A `write` of 65,536 bytes, likewise.
    LongWrite,
    /// A `write` of 512 bytes where no slot is free outside the reserve: it copies a block with six
    /// live slots first.
    CopyingWrite,
    /// A `tidy` that copies a block with one dead slot.
    Tidy,
}

impl Call {
    ghost use Rattle.bench_disk.specs.Call.{call_bytes, calls_of, first_of};

    /// Each call, in the order of the table.
    pub fn all() -> [Call; 7]
        ensures { result ≡ Call.ShortRead ∷ Call.LongRead ∷ Call.FirstWrite ∷ Call.ShortWrite
            ∷ Call.LongWrite ∷ Call.CopyingWrite ∷ Call.Tidy ∷ [] }
    {
        [
            Call::ShortRead,
            Call::LongRead,
            Call::FirstWrite,
            Call::ShortWrite,
            Call::LongWrite,
            Call::CopyingWrite,
            Call::Tidy,
        ]
    }

    /// The text of the call in the table.
    pub fn name(self) -> &'static str {
        match self {
            Call::ShortRead => "read of 512 bytes",
            Call::LongRead => "read of 65,536 bytes",
            Call::FirstWrite => "first write of 512 bytes",
            Call::ShortWrite => "write of 512 bytes",
            Call::LongWrite => "write of 65,536 bytes",
            Call::CopyingWrite => "write that copies a block",
            Call::Tidy => "tidy of a block",
        }
    }

    /// What is on the chip when a go begins.
    pub fn filling(self) -> Filling
        ensures { (result ≡ Filling.Formatted) ↔ (self ≡ Call.FirstWrite) }
    {
        match self {
            Call::ShortRead => Filling::Full,
            Call::LongRead => Filling::Full,
            Call::FirstWrite => Filling::Formatted,
            Call::ShortWrite => Filling::Full,
            Call::LongWrite => Filling::Full,
            Call::CopyingWrite => Filling::Full,
            Call::Tidy => Filling::Full,
        }
    }

    /// How many bytes a call reads or writes, or the block that it erases has.
    pub fn bytes(self) -> usize
        ensures exact { result ≡ call_bytes self }
        ensures most { result ≤ 65536 }
    {
        match self {
            Call::ShortRead => 512,
            Call::LongRead => 65_536,
            Call::FirstWrite => 512,
            Call::ShortWrite => 512,
            Call::LongWrite => 65_536,
            Call::CopyingWrite => 512,
            Call::Tidy => 4_096,
        }
    }

    /// How many calls are timed in one go. A go of writes takes at most 2,560 of the 3,577 slots
    /// that are free outside the reserve of a full chip, but for those that copy, which begin when
    /// all of these are used.
    pub fn calls(self) -> u32
        ensures exact { result ≡ calls_of self }
        ensures some { 0 < result }
    {
        match self {
            Call::ShortRead => 20_000,
            Call::LongRead => 500,
            Call::FirstWrite => 400,
            Call::ShortWrite => 400,
            Call::LongWrite => 20,
            Call::CopyingWrite => 2_000,
            Call::Tidy => 400,
        }
    }

    /// The first sector of a call, counted from 0: calls of 512 bytes take one sector in seven,
    /// those of 65,536 bytes end to end, and those that copy sector 8, which lies in the block that
    /// is copied.
    pub fn first(self, number: u32) -> u32
        ensures exact { result ≡ first_of self number }
        ensures within { 512 * result + call_bytes self ≤ 12830720 }
    {
        match self {
            Call::ShortRead => number % 3_580 * 7,
            Call::LongRead => number % 195 * 128,
            Call::FirstWrite => number % 3_580 * 7,
            Call::ShortWrite => number % 3_580 * 7,
            Call::LongWrite => number % 195 * 128,
            Call::CopyingWrite => 8,
            Call::Tidy => 0,
        }
    }
}
