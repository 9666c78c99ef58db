//! A mount that finds no memory hands the chip back.

use crate::writes::put;
use block_device::Disk;
use chip_simulator::SimChip;
use flash_disk::{FlashDisk, MountError};
use std::test::*;
use test_kit::chips::{OnSim, formatted};

#[test]
fn a_mount_without_memory_hands_the_chip_back(rt: HostRuntime) -> Result<(), Fail> {
    // Where an allocation of the mount is refused (`rt try --test --fail-alloc`), the mount after
    // it has it.
    let mut chip = formatted(rt.alloc())?;
    for _ in 0..2u8 {
        let answer: Result<OnSim, (SimChip, MountError)> = FlashDisk::mount(rt.alloc(), chip);
        match answer {
            Ok(mut disk) => {
                assert_eq!(rt; disk.sectors(), 70);
                assert_eq!(rt; put(&mut disk, 69, &[0x5A; 512])?, Ok(()));
                return Ok(());
            }
            Err((back, error)) => {
                assert_eq!(rt; error, MountError::OutOfMemory);
                chip = back;
            }
        }
    }
    Err(Fail::new("two mounts without memory"))
}
