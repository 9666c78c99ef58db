//! Images with bytes changed: what a mount answers by docs/LAYOUT.md and docs/DISK.md, and that a
//! refusal changes nothing.

use block_device::Disk;
use chip_simulator::SimChip;
use flash_disk::{FlashDisk, MountError};
use norbd_survey::Reason;
use sector_survey::{Verdict, survey_image};
use std::alloc::Global;
use std::process::Abort;
use std::test::*;
use test_kit::Dice;
use test_kit::chips::{OnSim, formatted};

/// The bytes of blocks 0 to 4: the superblock, the journals and the first data block.
const DAMAGED_LEN: usize = 20_480;

/// Mounts a memory: its answer, whether the disk is one of zeros, and the memory afterwards.
fn mounted(
    alloc: Global,
    memory: Vec<u8>,
    room: &mut [u8],
) -> Result<(Result<bool, MountError>, Vec<u8>), Fail> {
    let answer: Result<OnSim, (SimChip, MountError)> = FlashDisk::mount(
        alloc,
        SimChip::new(memory)?,
    );
    match answer {
        Err((chip, error)) => Ok((Err(error), chip.into_inner())),
        Ok(mut disk) => {
            if disk.sectors() != 70 || room.len() != 35_840 {
                return Err(Fail::new("another size"));
            }
            let is_read = disk.read(0, room).is_ok();
            let is_blank = is_read && room.iter().all(|byte| *byte == 0);
            Ok((Ok(is_blank), disk.into_inner().into_inner()))
        }
    }
}

/// What a mount owes of a formatted image of 64 KiB in which one byte of blocks 0 to 4 was `was`
/// and is one of 00h, 55h, FCh and FEh.
fn owed(place: usize, was: u8, byte: u8) -> Result<bool, MountError> {
    let within = place % 4_096;
    match place / 4_096 {
        // the name and the seal; the layout and the counts
        0 if byte != was && (within < 8 || within == 14) => Err(MountError::NotFormatted),
        0 if byte != was && within >= 8 && within < 13 => Err(MountError::Corrupt),
        0 => Ok(true),
        // 00h and 55h are no votes
        1 | 2 | 3 if within < 2_048 && byte < 0xFC => Err(MountError::Corrupt),
        1 | 2 | 3 => Ok(true),
        // an unknown block, a mark of an unknown state, one that names no block, and a live slot of
        // a sector past the last
        4 if within < 4 => Err(MountError::Corrupt),
        4 if within == 4 && byte != 0xFE => Err(MountError::Corrupt),
        4 if within >= 16 && within < 44 && within % 4 == 0 && byte == 0xFC => {
            Err(MountError::Corrupt)
        }
        _ => Ok(true),
    }
}

#[test]
fn each_byte_of_the_first_blocks_is_changed(rt: HostRuntime) -> Result<(), Fail> {
    let alloc = rt.alloc();
    let blank = formatted(alloc)?.into_inner();
    let mut room = vec![in alloc; 0u8; 35_840]?;
    let mut memory = Vec::new(alloc);
    memory.extend_from_slice(blank.as_slice())?;
    for place in 0..DAMAGED_LEN {
        for byte in [0x00u8, 0x55, 0xFC, 0xFE] {
            memory = change(
                &rt,
                alloc,
                memory,
                blank.as_slice(),
                place,
                byte,
                room.as_mut_slice(),
            )?;
        }
    }
    Ok(())
}

/// One byte of a formatted image is changed, and it is mounted. Gives room of its size.
fn change(
    rt: &impl Abort,
    alloc: Global,
    memory: Vec<u8>,
    blank: &[u8],
    place: usize,
    byte: u8,
    room: &mut [u8],
) -> Result<Vec<u8>, Fail> {
    let mut memory = memory;
    if memory.len() != blank.len() {
        return Err(Fail::new("another size"));
    }
    memory.copy_from_slice(blank);
    let (Some(cell), Some(was)) = (memory.get_mut(place), blank.get(place)) else {
        return Err(Fail::new("no place"));
    };
    *cell = byte;
    let (answer, left) = mounted(alloc, memory, room)?;
    assert_eq!(rt; answer, owed(place, *was, byte), "place {place} is {byte}");
    if answer.is_err() {
        assert_eq!(rt; left.get(place), Some(&byte), "place {place} is {byte}");
        assert_eq!(rt;
            left.get(..place),
            blank.get(..place),
            "place {place} is {byte}"
        );
        let rest = place.saturating_add(1);
        assert_eq!(rt;
            left.get(rest..),
            blank.get(rest..),
            "place {place} is {byte}"
        );
    }
    Ok(left)
}

/// Fills a sector of a disk with a byte.
pub(crate) fn fill<D: Disk>(disk: &mut D, sector: u32, byte: u8) -> Result<(), Fail> {
    if sector >= disk.sectors() {
        return Err(Fail::new("no sector of the disk"));
    }
    Ok(disk.write(sector, &[byte; 512])?)
}

/// The image of a disk in use: each sector was written, nine of them again, and a block was copied.
pub(crate) fn used(alloc: Global) -> Result<Vec<u8>, Fail> {
    let mount: Result<OnSim, _> = FlashDisk::mount(alloc, formatted(alloc)?);
    let Ok(mut disk) = mount else {
        return Err(Fail::new("not mounted"));
    };
    for sector in 0..70u8 {
        fill(&mut disk, u32::from(sector), sector)?;
    }
    for sector in 0..9u8 {
        fill(&mut disk, u32::from(sector), 0xEE)?;
    }
    let _more = disk.tidy()?;
    Ok(disk.into_inner().into_inner())
}

/// Changes up to four bytes of one part of an image: of the superblock, of the journals, of the
/// heads of data blocks, or anywhere.
fn spoil(dice: &mut Dice, memory: &mut [u8]) {
    let part = dice.below(8);
    for _ in 0..1 + dice.below(4) {
        let place = if part == 0 {
            dice.below(16)
        } else if part < 4 {
            4_096 + dice.below(12_288)
        } else if part < 7 {
            16_384 + 4_096 * dice.below(12) + dice.below(44)
        } else {
            dice.below(65_536)
        };
        let random = dice.below(256) as u8;
        let bytes = [0x00u8, 0x55, 0xFC, 0xFE, 0xF8, 0xFF, 0xF0, random];
        let byte = bytes[dice.below(8) as usize];
        if let Some(cell) = memory.get_mut(place as usize) {
            *cell = byte;
        }
    }
}

/// How often random damage was mounted, and refused by each name.
#[derive(Clone, Copy, Debug, Drop)]
struct Seen {
    mounts: u32,
    not_formatted: u32,
    corrupt: u32,
}

impl Seen {
    fn note(&mut self, answer: Result<bool, MountError>) -> bool {
        let count = match answer {
            Ok(_) => &mut self.mounts,
            Err(MountError::NotFormatted) => &mut self.not_formatted,
            Err(MountError::Corrupt) => &mut self.corrupt,
            Err(MountError::OutOfMemory) => return false,
            Err(MountError::Probe(_)) => return false,
        };
        *count = count.saturating_add(1);
        true
    }
}

/// Whether a survey of an image says what a mount answered, and of a corrupt one the place.
fn is_told(alloc: Global, image: &[u8], answer: Result<bool, MountError>) -> Result<bool, Fail> {
    if image.len() != 65_536 {
        return Err(Fail::new("another size"));
    }
    let Ok(report) = survey_image(alloc, image) else {
        return Err(Fail::new("no report"));
    };
    match report.verdict {
        Verdict::NotFormatted => Ok(answer == Err(MountError::NotFormatted)),
        Verdict::Mountable(_) => Ok(answer.is_ok()),
        Verdict::Corrupt(finding) => {
            let reason = Reason { finding, image };
            let text = format!(in alloc; "{reason}")?;
            let has_place = text.as_str().contains("h;")
                || text.as_str().contains("h, ")
                || text.as_str().contains("h on")
                || text.as_str().contains("h: ")
                || text.as_str().contains("erase of J")
                || text.as_str().contains("votes name J");
            Ok(has_place && answer == Err(MountError::Corrupt))
        }
    }
}

/// A refusal changes nothing: none of these images has an erase that goes on beside what is
/// corrupt. A mount answers the same again, then changes nothing, and finds the same sectors. A
/// survey says the same, and where the image is corrupt.
#[test]
fn random_damage_is_mounted_or_refused_by_name(rt: HostRuntime) -> Result<(), Fail> {
    let alloc = rt.alloc();
    let image = used(alloc)?;
    let mut dice = Dice::new(13);
    let mut seen = Seen {
        mounts: 0,
        not_formatted: 0,
        corrupt: 0,
    };
    let mut first = vec![in alloc; 0u8; 35_840]?;
    let mut again = vec![in alloc; 0u8; 35_840]?;
    for number in 0..2_000u32 {
        let mut memory = Vec::new(alloc);
        memory.extend_from_slice(image.as_slice())?;
        spoil(&mut dice, memory.as_mut_slice());
        let mut spoiled = Vec::new(alloc);
        spoiled.extend_from_slice(memory.as_slice())?;
        let (answer, left) = mounted(alloc, memory, first.as_mut_slice())?;
        assert!(rt; seen.note(answer), "image {number}: {answer:?}");
        assert!(rt;
            is_told(alloc, spoiled.as_slice(), answer)?,
            "image {number}"
        );
        let is_left = left.as_slice() == spoiled.as_slice();
        assert!(rt; answer.is_ok() || is_left, "image {number}");
        let mut kept = Vec::new(alloc);
        kept.extend_from_slice(left.as_slice())?;
        let (same, left) = mounted(alloc, left, again.as_mut_slice())?;
        assert_eq!(rt; same, answer, "image {number}");
        assert!(rt; left.as_slice() == kept.as_slice(), "image {number}");
        let is_same = first.as_slice() == again.as_slice();
        assert!(rt; answer.is_err() || is_same, "image {number}");
    }
    assert!(rt;
        seen.mounts > 200 && seen.not_formatted > 50 && seen.corrupt > 200,
        "{seen:?}"
    );
    Ok(())
}
