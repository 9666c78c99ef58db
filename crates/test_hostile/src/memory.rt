//! Calls that find no memory, and are made again.

use chip_simulator::SimChip;
use flash_disk::{FlashDisk, MountError, format};
use nbd_station::{NewError, Station};
use norbd_image::{ImageError, formatted_image};
use std::test::*;
use test_kit::chips::{OnSim, formatted, told};
use test_kit::{bytes_of, spend};

/// A script: connection 7 is opened, sends its flags, a GO of `flash` and a READ of the last of 70
/// sectors.
const SCRIPT: &str =
    "4F 07 00000000 50 07 00000004 00000003 50 07 0000001B 49484156454F5054 00000007 0000000B 00000005 666C617368 0000 50 07 0000001C 25609513 0000 0000 0102030405060708 0000000000008A00 00000200";

/// What is owed for it: the greeting, the replies to the GO and to the READ, and each event's end.
const TRANSCRIPT: &str =
    "07 44 00000012 4E42444D41474943 49484156454F5054 0003 07 41 00000000 07 41 00000000 07 44 00000056 0003E889045565A9 00000007 00000003 0000000C 0000 0000000000008C00 016D 0003E889045565A9 00000007 00000003 0000000E 0003 00000200 00001000 00010000 0003E889045565A9 00000007 00000001 00000000 07 41 00000000 07 44 00000210 67446698 00000000 0102030405060708 00*512 07 41 00000000";

#[test]
fn a_station_without_memory_hands_the_disk_back(rt: HostRuntime) -> Result<(), Fail> {
    let alloc = rt.alloc();
    let script = bytes_of(alloc, SCRIPT)?;
    let transcript = bytes_of(alloc, TRANSCRIPT)?;
    let mut room = [0u8; 2_048];
    // the buffer of a piece has 65,536 bytes, those of the eight sessions 65,552, and their list is
    // longer than a step too
    for step in 0..56usize {
        let mount: Result<OnSim, _> = FlashDisk::mount(alloc, formatted(alloc)?);
        let Ok(disk) = mount else {
            return Err(Fail::new("not mounted"));
        };
        let size = 16_384 * step;
        let held = spend(alloc, size)?;
        let answer = Station::new(alloc, disk);
        drop(held);
        assert!(rt; size > 589_952 || answer.is_err(), "{size} bytes");
        assert!(rt; step < 55 || answer.is_ok(), "{size} bytes");
        let again = match answer {
            Ok(station) => Ok(station),
            Err((disk, NewError::OutOfMemory)) => Station::new(alloc, disk),
        };
        let Ok(mut station) = again else {
            return Err(Fail::new("no memory again"));
        };
        let (end, len) = told(&mut station, script.as_slice(), &mut room);
        assert_eq!(rt; end, Ok(()));
        assert_eq!(rt; room.get(..len), Some(transcript.as_slice()));
    }
    Ok(())
}

/// The bytes of a chip of 1 MiB.
const CHIP_LEN: usize = 1_048_576;

/// The table of 1,540 sectors, the index of 1,764 slots and that of 256 blocks are each larger than
/// a step of 512 bytes.
#[test]
fn a_mount_without_memory_changes_nothing(rt: HostRuntime) -> Result<(), Fail> {
    let alloc = rt.alloc();
    let (chip, answer) = format(SimChip::new(vec![in alloc; 0xFFu8; CHIP_LEN]?)?);
    answer?;
    let mut image = Vec::new(alloc);
    image.extend_from_slice(chip.bytes())?;
    let mut chip = chip;
    let mut refused = 0u32;
    for step in 0..40usize {
        let held = spend(alloc, 1_040 + 512 * step)?;
        let answer: Result<OnSim, (SimChip, MountError)> = FlashDisk::mount(alloc, chip);
        drop(held);
        match answer {
            Ok(disk) => chip = disk.into_inner(),
            Err((back, error)) => {
                assert_eq!(rt; error, MountError::OutOfMemory);
                assert_eq!(rt; u64::from(refused), step as u64);
                refused = refused.saturating_add(1);
                chip = back;
            }
        }
        assert!(rt; chip.bytes() == image.as_slice(), "step {step}");
    }
    assert!(rt; refused > 3 && refused < 40, "{refused} refused");
    Ok(())
}

#[test]
fn an_image_without_memory_is_refused(rt: HostRuntime) -> Result<(), Fail> {
    let alloc = rt.alloc();
    for (size, is_made) in [(0, false), (65_000, false), (65_536, true)] {
        let held = spend(alloc, size)?;
        let answer = formatted_image(alloc, 64);
        drop(held);
        match answer {
            Ok(image) => {
                assert!(rt; is_made);
                assert_eq!(rt; image.get(..8), Some(b"NORBLK01".as_slice()));
            }
            Err(error) => {
                assert!(rt; !is_made);
                assert_eq!(rt; error, ImageError::OutOfMemory);
            }
        }
    }
    Ok(())
}
