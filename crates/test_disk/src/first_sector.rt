//! The first sector of a new disk.

use crate::first_of_new;
use chip_simulator::SimChip;
use std::test::*;
use test_kit::chips::{count, filled};

#[test]
fn the_first_sector_of_a_new_disk_is_zeros(rt: HostRuntime) -> Result<(), Fail> {
    let mut first = [0x77u8; 512];
    let chip = SimChip::new(filled(rt.alloc(), 0xA5)?)?;
    assert!(rt; first_of_new(rt.alloc(), chip, &mut first).1);
    assert_eq!(rt; count(&first, 0, 512, 0x00), 512);
    Ok(())
}
