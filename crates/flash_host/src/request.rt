//! What a host asks of a disk, and what it is answered.

use block_device::DiskError;

/// What a host asks for. Sectors have 512 bytes and are numbered from 0. Source: own, the calls of
/// `Disk`.
#[derive(Clone, Copy, Debug, PartialEq, Eq, Drop)]
pub enum Request {
    /// How many sectors the disk has.
    Sectors,
    /// The bytes of this sector.
    Read(u32),
    /// These bytes into this sector.
    Write(u32),
    /// Zeros into so many sectors, the second number, from the first on.
    Zero(u32, u32),
    /// Whether the power was lost since the last `Restore`: what was answered is kept without it.
    Flush,
    /// One step of the work that is left to do.
    Tidy,
    /// The power anew, after a `Failed`.
    Restore,
}

/// What a request is answered. Source: own.
#[derive(Clone, Copy, Debug, PartialEq, Eq, Drop)]
pub enum Answer {
    /// The number of sectors.
    Counted(u32),
    /// It is done.
    Done,
    /// There was nothing to tidy.
    Idle,
    /// Not all of the sectors are on the disk, and nothing was done.
    Refused,
    /// The disk's error.
    Failed(DiskError),
}
