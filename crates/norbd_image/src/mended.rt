//! A clean image of the sectors that another holds.

ghost use Rattle.std.specs.Prelude.{◌≡◌, ◌*◌, length, IfErr, IfOk};
ghost use Rattle.chip_model.specs.Geometry.{IsChipSize, sector_count};
ghost use Rattle.flash_disk.specs.Contents.{contents_of};
ghost use Rattle.sector_map.specs.Maps.{IsMountable};
ghost use Rattle.norbd_image.specs.Image.{IsFormattedImage};
ghost use Rattle.norbd_image.specs.Mended.{ComesOfMemory, IsImageOf, IsMended, MendFails};

use crate::error::ImageError;
use crate::formatted::formatted_image;
use block_device::{Disk, DiskError, SECTOR_LEN};
use chip_simulator::PromptChip;
use flash_disk::{FlashDisk, MountError, Provenance};
use nor_driver::ProbeError;
use norbd_transfer::put_sectors;
use std::alloc::Global;
use std::marker::Brand;

/// What is known of a chip that was just formatted.
struct JustFormatted;

impl Provenance for JustFormatted {
    ghost use Rattle.std.specs.Prelude.{false, true};

    ghost sound = { true };

    ghost slows = { 0 };

    ghost firm = { false };

    ghost cuts = { 0 };
}

/// The bytes of a chip of the same size that was freshly formatted and holds the sectors that these
/// bytes hold. They have to be a healthy chip's; what reads as free on it need not be erased.
///
/// `NotFormatted` and `Corrupt` are the refusals of their mount, and `OutOfMemory` says that there
/// is no memory for the sectors or for a chip. Nothing else is refused but for a loss of power,
/// which nothing arms here.
pub fn mended_image(alloc: Global, image: Vec<u8>) -> Result<Vec<u8>, MountError>
    requires { IsChipSize (length image.items) }
    ensures mended { IfOk result (λ mended. IsMended image.items mended.items) }
    ensures refused { IfErr result (MendFails image.items) }
{
    let kib = (image.len() / 1024) as u32;
    let sectors = sectors_in(alloc, image)?;
    match formatted_image(alloc, kib) {
        Ok(fresh) => filled_image(alloc, fresh, sectors.as_slice()),
        Err(ImageError::Refused(error)) => Err(MountError::Probe(error)),
        Err(_) => Err(MountError::OutOfMemory),
    }
}

/// The bytes of all sectors that an image holds, one after the other.
fn sectors_in(alloc: Global, image: Vec<u8>) -> Result<Vec<u8>, MountError>
    requires { IsChipSize (length image.items) }
    ensures sectors { IfOk result (λ sectors. (sectors.items ≡ contents_of image.items)
        × IsMountable image.items) }
    ensures refused { IfErr result (MendFails image.items) }
{
    let Ok(chip) = PromptChip::new(image) else {
        unreachable!()
    };
    let mut disk = match FlashDisk::<_, Brand>::mount(alloc, chip) {
        Ok(disk) => disk,
        Err((_, error)) => return Err(error),
    };
    let size = SECTOR_LEN * disk.sectors() as usize;
    let Ok(mut sectors) = vec![in alloc; 0u8; size] else {
        return Err(MountError::OutOfMemory);
    };
    match disk.read(0, sectors.as_mut_slice()) {
        Ok(()) => Ok(sectors),
        Err(DiskError::Cut) => Err(MountError::Probe(ProbeError::Cut)),
        Err(DiskError::Slow) => {
            let _chip = disk.into_inner();
            unreachable!()
        }
    }
}

/// The bytes of a formatted chip once these sectors are written to it.
fn filled_image(alloc: Global, fresh: Vec<u8>, sectors: &[u8]) -> Result<Vec<u8>, MountError>
    requires size { IsChipSize (length fresh.items) }
    requires fresh { IsFormattedImage (length fresh.items) fresh.items }
    requires sectors { length sectors.now ≡ 512 * sector_count (length fresh.items) }
    ensures image { IfOk result (λ image.
        IsImageOf (length fresh.items) sectors.now image.items) }
    ensures refused { IfErr result ComesOfMemory }
{
    let Ok(chip) = PromptChip::new(fresh) else {
        unreachable!()
    };
    let mut disk = match FlashDisk::<_, JustFormatted>::mount(alloc, chip) {
        Ok(disk) => disk,
        Err((_, error)) => return Err(error),
    };
    let filled = put_sectors(&mut disk, 0, sectors, &mut ());
    let chip = disk.into_inner();
    match filled {
        Ok(()) => Ok(chip.into_inner()),
        Err(DiskError::Cut) => Err(MountError::Probe(ProbeError::Cut)),
        Err(DiskError::Slow) => unreachable!(),
    }
}
