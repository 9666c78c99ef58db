//! The disk on a chip in memory, whose bytes can be looked at.

ghost use Rattle.std.specs.Prelude.{◌≡◌};

use block_device::{Disk, DiskError};
use chip_model::SpiBus;
use chip_simulator::PromptChip;
use disk_log::ImageDisk;
use flash_disk::{FlashDisk, Provenance};
use norbd_status::CountedBus;

/// A bus whose chip's memory can be looked at.
pub trait MemoryBus: SpiBus {
    ghost use Rattle.std.specs.Prelude.{◌≡◌};

    /// The memory of the chip.
    fn memory(&self) -> &[u8]
        ensures { result.now ≡ (Self.chip self.now).memory };
}

impl MemoryBus for PromptChip {
    fn memory(&self) -> &[u8] {
        self.bytes()
    }
}

impl<B: MemoryBus> MemoryBus for CountedBus<B> {
    fn memory(&self) -> &[u8] {
        self.get_ref().memory()
    }
}

/// The disk on such a chip, which is the disk that it is.
#[derive(Drop)]
pub struct MemoryDisk<B: MemoryBus, P: Provenance> {
    disk: FlashDisk<B, P>,
}

impl<B: MemoryBus, P: Provenance> MemoryDisk<B, P> {
    /// The disk.
    pub fn new(disk: FlashDisk<B, P>) -> MemoryDisk<B, P>
        ensures { ⟦<MemoryDisk<B, P> as Disk>⟧.facts result
            ≡ ⟦<FlashDisk<B, P> as Disk>⟧.facts disk }
    {
        MemoryDisk { disk }
    }
}

impl<B: MemoryBus, P: Provenance> ImageDisk for MemoryDisk<B, P> {
    ghost use Rattle.flash_disk.specs.Contents.{contents_of};

    ghost represents = { contents_of };

    fn image(&self) -> &[u8] {
        self.disk.get_ref().memory()
    }
}

impl<B: MemoryBus, P: Provenance> Disk for MemoryDisk<B, P> {
    ghost facts = { λ d. ⟦<FlashDisk<B, P> as Disk>⟧.facts d.disk };

    fn sectors(&self) -> u32 {
        self.disk.sectors()
    }

    fn read(&mut self, first: u32, into: &mut [u8]) -> Result<(), DiskError> {
        self.disk.read(first, into)
    }

    fn write(&mut self, first: u32, from: &[u8]) -> Result<(), DiskError> {
        self.disk.write(first, from)
    }

    fn zero(&mut self, first: u32, count: u32) -> Result<(), DiskError> {
        self.disk.zero(first, count)
    }

    fn flush(&mut self) -> Result<(), DiskError> {
        self.disk.flush()
    }

    fn tidy(&mut self) -> Result<bool, DiskError> {
        self.disk.tidy()
    }

    fn restore(&mut self) -> Result<(), DiskError> {
        self.disk.restore()
    }

    fn arm(&mut self, count: u32, kind: u8, mask: u8) {
        self.disk.arm(count, kind, mask)
    }
}
