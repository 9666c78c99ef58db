//! A chip that is formatted, mounted and read.

ghost use Rattle.std.specs.Prelude.{◌≡◌, ◌≤◌, false, true, length, replicate};
ghost use Rattle.block_device.specs.Contents.{bytes_at};
ghost use Rattle.flash_disk.specs.Contents.{contents_of};
ghost use Rattle.flash_disk.specs.Formatted.{Formatted};

use block_device::Disk;
use chip_model::SpiBus;
use flash_disk::{FlashDisk, Provenance, format};
use std::alloc::Global;
use std::marker::Brand;

/// Formats a chip, mounts it, and reads its first sector, which is zeros; false where something was
/// refused.
pub fn first_of_new<B: SpiBus>(alloc: Global, bus: B, into: &mut [u8]) -> (B, bool)
    requires room { length into.old ≡ 512 }
    ensures { result.1 ≡ true → into.new ≡ replicate 512 0 }
{
    let (bus, answer) = format(bus);
    match answer {
        Ok(()) => first::<B, Brand>(alloc, bus, into),
        Err(_) => (bus, false),
    }
}

/// Mounts a formatted chip as a sound disk, and reads its first sector; false where something was
/// refused.
fn first<B: SpiBus, P: Provenance>(alloc: Global, bus: B, into: &mut [u8]) -> (B, bool)
    requires sound { P.sound ≡ true }
    requires plainly { P.firm ≡ false }
    requires counted { P.slows ≤ B.slows bus }
    requires formatted { Formatted (B.chip bus) }
    requires room { length into.old ≡ 512 }
    ensures { result.1 ≡ true → into.new ≡ bytes_at (contents_of (B.chip bus).memory) 0 512 }
{
    match FlashDisk::<B, P>::mount(alloc, bus) {
        Ok(disk) => {
            let mut disk = disk;
            if disk.sectors() == 0 {
                return (disk.into_inner(), false);
            }
            match disk.read(0, into) {
                Ok(()) => (disk.into_inner(), true),
                Err(_) => (disk.into_inner(), false),
            }
        }
        Err((bus, _)) => (bus, false),
    }
}
