//! The functions of `witness`, run over a simulator.

use crate::bench::{Bench, Flaw};
use crate::faults::chip;
use crate::witness::{open_logged, read_once, send_logged, start_logged};
use std::test::*;

/// The frame that reads from 3000h on.
const READ: [u8; 4] = [0x03, 0x00, 0x30, 0x00];

#[test]
fn what_is_told_is_what_the_chip_answered(rt: HostRuntime) -> Result<(), Fail> {
    let mut told = [0u8; 2];
    let bench = Bench::new(chip(&rt, 0x55)?, Flaw::Nothing);
    assert!(rt; read_once(rt.alloc(), bench, &mut told).is_some());
    assert_eq!(rt; told, [0x55, 0xFF]);
    Ok(())
}

#[test]
fn the_power_comes_again_after_a_loss_and_without_one(rt: HostRuntime) -> Result<(), Fail> {
    let mut torn = chip(&rt, 0x55)?;
    torn.arm_cut(1, 1, 0x0F);
    let mut bus = open_logged(rt.alloc(), Bench::new(torn, Flaw::Nothing))?;
    assert!(rt; send_logged(&mut bus, &[0x06], &mut []).is_ok());
    // A frame that receives nothing goes along with the next, whose answer doesn't come.
    let program = [0x02, 0x00, 0x30, 0x00, 0x50];
    assert!(rt; send_logged(&mut bus, &program, &mut []).is_ok());
    assert!(rt; send_logged(&mut bus, &[0x05], &mut [0u8; 1]).is_err());
    let mut told = [0u8; 2];
    for _ in 0..2u8 {
        start_logged(&mut bus);
        assert!(rt; send_logged(&mut bus, &READ, &mut told).is_ok());
        assert_eq!(rt; told, [0x50, 0xFF]);
    }
    Ok(())
}
