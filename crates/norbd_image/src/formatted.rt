//! The bytes of a formatted chip.

ghost use Rattle.std.specs.Prelude.{◌*◌, IfErr, IfOk};
ghost use Rattle.chip_model.specs.Geometry.{IsChipSize};
ghost use Rattle.norbd_image.specs.Image.{ComesOfFormat, IsFormattedImage};

use crate::error::ImageError;
use chip_simulator::PromptChip;
use flash_disk::format;
use std::alloc::Global;

/// The bytes of a chip of so many KiB that was just formatted: those of a chip in memory, all FFh
/// at first, after a `format`.
///
/// `OutOfMemory` where there is no memory for them, `Refused` only where the chip lost its power.
pub fn formatted_image(alloc: Global, kib: u32) -> Result<Vec<u8>, ImageError>
    requires { IsChipSize (1024 * kib) }
    ensures image { IfOk result (λ image. IsFormattedImage (1024 * kib) image.items) }
    ensures fault { IfErr result ComesOfFormat }
{
    let erased = vec![in alloc; 0xFFu8; 1024 * kib as usize]?;
    let Ok(chip) = PromptChip::new(erased) else {
        unreachable!()
    };
    let (chip, formatted) = format(chip);
    match formatted {
        Ok(()) => Ok(chip.into_inner()),
        Err(error) => Err(ImageError::Refused(error)),
    }
}
