//! Images with one byte changed, as `norbd serve` takes them: mounted and looked at. Each is served
//! soundly, or refused by name, and none of which what reads as free isn't erased is served. Such a
//! one is mended, and then served with the sectors of a plain array.

use crate::damage::{fill, used};
use block_device::Disk;
use chip_simulator::SimChip;
use flash_disk::{FlashDisk, MountError};
use norbd_image::mended_image;
use std::alloc::Global;
use std::process::Abort;
use std::test::*;
use test_kit::chips::{OnSim, formatted};

/// The bytes of an image of 64 KiB.
const IMAGE_LEN: usize = 65_536;

/// The bytes of its 70 sectors.
const DISK_LEN: usize = 35_840;

/// The bytes of blocks 0 to 5: the superblock, the journals and two data blocks.
const CHANGED_LEN: usize = 24_576;

/// The sector that is written on an image that is served.
const WRITTEN: u32 = 3;

/// How many images were refused by a mount, refused as not clean and then mended, and served.
#[derive(Clone, Copy, Debug, Drop)]
struct Looks {
    refused: u32,
    not_clean: u32,
    served: u32,
}

fn is_erased(bytes: &[u8]) -> bool {
    bytes.iter().all(|byte| *byte == 0xFF)
}

/// Whether what reads as free in a data block is erased: the data behind each descriptor of four
/// bytes FFh, and all of a block whose first eight bytes and descriptors are FFh.
fn is_clean_block(block: &[u8]) -> bool {
    let mut is_free = block.get(..8).is_some_and(is_erased);
    for place in 0..7usize {
        let at = 16 + 4 * place;
        let data = 512 + 512 * place;
        if block.get(at..at + 4).is_some_and(is_erased) {
            if !block.get(data..data + 512).is_some_and(is_erased) {
                return false;
            }
        } else {
            is_free = false;
        }
    }
    !is_free || is_erased(block)
}

/// The same of all data blocks of an image, which may be as a clean one behind block 5.
fn is_clean(image: &[u8], was: &[u8]) -> bool {
    let is_same = image.get(CHANGED_LEN..) == was.get(CHANGED_LEN..);
    let end = if is_same { 6 } else { 16usize };
    for number in 4..end {
        let at = 4_096 * number;
        if !image.get(at..at + 4_096).is_some_and(is_clean_block) {
            return false;
        }
    }
    true
}

/// Mounts an image and looks at it: the answers, and the image afterwards.
fn looked_at(alloc: Global, image: Vec<u8>) -> Result<(Result<bool, MountError>, Vec<u8>), Fail> {
    let answer: Result<OnSim, (SimChip, MountError)> = FlashDisk::mount(
        alloc,
        SimChip::new(image)?,
    );
    match answer {
        Err((chip, error)) => Ok((Err(error), chip.into_inner())),
        Ok(mut disk) => {
            let clean = disk.check()?;
            Ok((Ok(clean), disk.into_inner().into_inner()))
        }
    }
}

/// Reads all sectors of a disk.
fn read_all(disk: &mut OnSim, into: &mut [u8]) -> Result<(), Fail> {
    if disk.sectors() != 70 || into.len() != DISK_LEN {
        return Err(Fail::new("another size"));
    }
    Ok(disk.read(0, into)?)
}

/// Serves an image: a sector is written, and read again, and each other is as it was.
fn serves(alloc: Global, image: Vec<u8>, was: &mut [u8], is: &mut [u8]) -> Result<Vec<u8>, Fail> {
    let mount: Result<OnSim, _> = FlashDisk::mount(alloc, SimChip::new(image)?);
    let Ok(mut disk) = mount else {
        return Err(Fail::new("not mounted"));
    };
    read_all(&mut disk, was)?;
    fill(&mut disk, WRITTEN, 0xA7)?;
    read_all(&mut disk, is)?;
    let at = 512 * WRITTEN as usize;
    let is_same = was.get(..at) == is.get(..at) && was.get(at + 512..) == is.get(at + 512..);
    let is_written = is
        .get(at..at + 512)
        .is_some_and(|bytes| bytes.iter().all(|byte| *byte == 0xA7));
    if !is_same || !is_written {
        return Err(Fail::new("an acknowledged write reads back other"));
    }
    Ok(disk.into_inner().into_inner())
}

/// Mends an image, and serves it: it is clean, and its sectors are those of a plain array.
fn mends(
    alloc: Global,
    image: Vec<u8>,
    plain: &[u8],
    was: &mut [u8],
    is: &mut [u8],
) -> Result<Vec<u8>, Fail> {
    if image.len() != IMAGE_LEN {
        return Err(Fail::new("another size"));
    }
    let Ok(mended) = mended_image(alloc, image) else {
        return Err(Fail::new("not mended"));
    };
    let (answer, left) = looked_at(alloc, mended)?;
    if answer != Ok(true) {
        return Err(Fail::new("mended, and not clean"));
    }
    let left = serves(alloc, left, was, is)?;
    if &*was != plain {
        return Err(Fail::new("mended, with other sectors"));
    }
    Ok(left)
}

/// Whether an image with this place changed is served too, or mended: those at the head of a block,
/// and of the others one in 32.
fn is_tried(place: usize) -> bool {
    place % 4_096 < 64 || place % 32 == 0
}

/// What an image is changed from, what its sectors hold, and room for what is read.
#[derive(Drop)]
struct Sound {
    image: Vec<u8>,
    plain: Vec<u8>,
    was: Vec<u8>,
    is: Vec<u8>,
}

impl Sound {
    /// Takes what came of an image that mounts: it is served, or mended.
    fn take_mounted(
        &mut self,
        alloc: Global,
        looks: &mut Looks,
        image: Vec<u8>,
        clean: bool,
        is_tried: bool,
    ) -> Result<Vec<u8>, Fail> {
        let was = self.was.as_mut_slice();
        let is = self.is.as_mut_slice();
        if !clean {
            looks.not_clean = looks.not_clean.saturating_add(1);
            if is_tried {
                return mends(alloc, image, self.plain.as_slice(), was, is);
            }
        } else if is_tried {
            looks.served = looks.served.saturating_add(1);
            return serves(alloc, image, was, is);
        }
        Ok(image)
    }
}

/// Takes what comes of an image of which the byte at this place was changed.
fn take_one(
    rt: &impl Abort,
    alloc: Global,
    sound: &mut Sound,
    looks: &mut Looks,
    image: Vec<u8>,
    place: usize,
) -> Result<Vec<u8>, Fail> {
    let (answer, left) = looked_at(alloc, image)?;
    match answer {
        Err(MountError::NotFormatted) | Err(MountError::Corrupt) => {
            looks.refused = looks.refused.saturating_add(1);
            Ok(left)
        }
        Err(_) => Err(Fail::new("refused by another name")),
        Ok(clean) => {
            let is_right = clean == is_clean(left.as_slice(), sound.image.as_slice());
            assert!(rt; is_right, "place {place}: {clean}");
            sound.take_mounted(alloc, looks, left, clean, is_tried(place))
        }
    }
}

/// Changes each byte of blocks 0 to 5 of an image to this one, and takes what comes of it.
fn change_each(
    rt: &impl Abort,
    alloc: Global,
    image: Vec<u8>,
    plain: Vec<u8>,
    byte: u8,
) -> Result<Looks, Fail> {
    let mut looks = Looks {
        refused: 0,
        not_clean: 0,
        served: 0,
    };
    let mut memory = Vec::new(alloc);
    memory.extend_from_slice(image.as_slice())?;
    let mut sound = Sound {
        image,
        plain,
        was: vec![in alloc; 0u8; DISK_LEN]?,
        is: vec![in alloc; 0u8; DISK_LEN]?,
    };
    for place in 0..CHANGED_LEN {
        if memory.len() != sound.image.len() {
            return Err(Fail::new("another size"));
        }
        memory.copy_from_slice(sound.image.as_slice());
        if let Some(cell) = memory.get_mut(place) {
            *cell = byte;
        }
        memory = take_one(rt, alloc, &mut sound, &mut looks, memory, place)?;
    }
    Ok(looks)
}

/// Changes a formatted image, which holds zeros.
fn change_formatted(rt: &impl Abort, alloc: Global, byte: u8) -> Result<(), Fail> {
    let image = formatted(alloc)?.into_inner();
    let plain = vec![in alloc; 0u8; DISK_LEN]?;
    let looks = change_each(rt, alloc, image, plain, byte)?;
    // in two free blocks: 468 bytes behind the descriptors, 8 before them, and 3,584 of data
    assert_eq!(rt; looks.not_clean, 2 * (8 + 468 + 3_584), "{looks:?}");
    assert!(rt; looks.refused > 16 && looks.served > 300, "{looks:?}");
    Ok(())
}

/// Changes an image in use: sectors 0 to 8 hold EEh, and each other its number.
fn change_used(rt: &impl Abort, alloc: Global, byte: u8) -> Result<(), Fail> {
    let mut plain = Vec::new(alloc);
    for sector in 0..70u8 {
        let held = if sector < 9 { 0xEE } else { sector };
        plain.extend_from_slice([held; 512].as_slice())?;
    }
    let looks = change_each(rt, alloc, used(alloc)?, plain, byte)?;
    assert!(rt; looks.refused > 16 && looks.served > 300, "{looks:?}");
    Ok(())
}

#[test]
fn bytes_of_a_formatted_image_become_00(rt: HostRuntime) -> Result<(), Fail> {
    change_formatted(&rt, rt.alloc(), 0x00)
}

#[test]
fn bytes_of_a_formatted_image_become_55(rt: HostRuntime) -> Result<(), Fail> {
    change_formatted(&rt, rt.alloc(), 0x55)
}

#[test]
fn bytes_of_a_formatted_image_become_fc(rt: HostRuntime) -> Result<(), Fail> {
    change_formatted(&rt, rt.alloc(), 0xFC)
}

#[test]
fn bytes_of_a_formatted_image_become_fe(rt: HostRuntime) -> Result<(), Fail> {
    change_formatted(&rt, rt.alloc(), 0xFE)
}

#[test]
fn bytes_of_a_used_image_become_00(rt: HostRuntime) -> Result<(), Fail> {
    change_used(&rt, rt.alloc(), 0x00)
}

#[test]
fn bytes_of_a_used_image_become_55(rt: HostRuntime) -> Result<(), Fail> {
    change_used(&rt, rt.alloc(), 0x55)
}

#[test]
fn bytes_of_a_used_image_become_fc(rt: HostRuntime) -> Result<(), Fail> {
    change_used(&rt, rt.alloc(), 0xFC)
}

#[test]
fn bytes_of_a_used_image_become_fe(rt: HostRuntime) -> Result<(), Fail> {
    change_used(&rt, rt.alloc(), 0xFE)
}
