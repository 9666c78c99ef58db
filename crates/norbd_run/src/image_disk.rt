//! A copy in memory of the chip in an image: nothing of the file is changed.
ghost use Rattle.std.specs.Prelude.{◌≡◌, if◌then◌else◌, IfErr, IfOk, length, true};
ghost use Rattle.block_device.specs.Facts.{IsDiskReady};
ghost use Rattle.chip_model.specs.Geometry.{IsChipSize};
ghost use Rattle.flash_disk.specs.Mounting.{OpenedFrom};
ghost use Rattle.sector_survey.specs.Cleanness.{HasCleanGroups};
ghost use Rattle.norbd_run.specs.Listening.{IsRefusal};
ghost use Rattle.norbd_run.specs.Opening.{IsReason};

use crate::check::told_of_unexamined;
use crate::format::told_as;
use crate::serve::{look_at, told_of_file};
use block_device::Disk;
use chip_simulator::PromptChip;
use erase_journal::Firmness;
use flash_disk::FlashDisk;
use norbd_image::{Held, ImageFile, hold, hold_to_read};
use norbd_line::Fault;
use sector_survey::dirty_group_of;
use std::alloc::Global;
use std::marker::Brand;
use std::rt::Files;

/// The file of an image, whose lock is taken, to be read, and where `writes` is set to be written
/// too.
#[tactic(auto, using(crate::proofs::Refusals::held_is_refusal))]
pub(crate) fn hold_image<R>(rt: &R, path: &str, writes: bool) -> Result<Held<R::File>, Fault>
where
    R: Files,
    R::File: ImageFile,
    ensures { IfErr result IsRefusal }
{
    let held = if writes {
        hold(rt, path)
    } else {
        hold_to_read(rt, path)
    };
    match held {
        Ok(held) => Ok(held),
        Err(error) => Err(told_as(error)),
    }
}

/// The bytes of an image that is held.
pub(crate) fn bytes_of<R>(rt: &R, held: &Held<R::File>) -> Result<Vec<u8>, Fault>
where
    R: Files + AllocGlobal,
    R::File: ImageFile,
    ensures size { IfOk result (λ bytes. IsChipSize (length bytes.items)) }
    ensures refused { IfErr result IsRefusal }
{
    match held.bytes(rt.alloc()) {
        Ok(bytes) => Ok(bytes),
        Err(error) => Err(told_of_file(held.length().unwrap_or(0), error)),
    }
}

/// What is assumed of bits of an image that a loss of power tore: only where `--firm` is set that
/// they waver.
pub(crate) fn firmness_of(firm: bool) -> Firmness
    ensures { result ≡ if firm then Firmness.Firm else Firmness.Steady }
{
    if firm {
        Firmness::Firm
    } else {
        Firmness::Steady
    }
}

/// The disk on a chip in memory of these bytes, with what is assumed of its torn bits. One of
/// layout 1 of which a free block isn't erased is `NotClean`: on its way to layout 2 slots would be
/// read out of it.
pub(crate) fn copied_disk(
    alloc: Global,
    image: Vec<u8>,
    firmness: Firmness,
) -> Result<FlashDisk<PromptChip, Brand>, Fault>
    requires { IsChipSize (length image.items) }
    ensures refused { IfErr result IsRefusal }
    ensures reason { IfErr result (λ e. IsReason e image.items) }
    ensures sound { IfOk result (λ disk.
        (⟦<FlashDisk<PromptChip, Brand> as Disk>⟧.facts disk).sound ≡ true) }
    ensures ready { IfOk result (λ disk.
        IsDiskReady (⟦<FlashDisk<PromptChip, Brand> as Disk>⟧.facts disk)) }
    ensures from { IfOk result (λ disk. OpenedFrom image.items
        (⟦<FlashDisk<PromptChip, Brand> as Disk>⟧.facts disk)) }
    ensures groups { IfOk result (λ _. HasCleanGroups image.items) }
{
    let found = match dirty_group_of(alloc, image.as_slice()) {
        Ok(found) => found,
        Err(error) => return Err(told_of_unexamined(error)),
    };
    let Ok(chip) = PromptChip::new(image) else {
        unreachable!()
    };
    let disk = look_at::<_, Brand>(alloc, chip, firmness)?;
    if found.is_some() {
        return Err(Fault::NotClean);
    }
    Ok(disk)
}
