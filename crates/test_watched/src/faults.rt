//! A chip without a fault, and one with each.

use crate::bench::{Bench, Flaw};
use chip_model::SpiBus;
use chip_simulator::SimChip;
use chip_watch::{Departure, Mismatch, OpenError, WatchedBus};
use sfdp::SfdpError;
use std::test::*;

/// A chip of 64 KiB, erased but for the byte at 3000h.
pub(crate) fn chip(rt: &HostRuntime, byte: u8) -> Result<SimChip, Fail> {
    let mut bytes = Vec::new(rt.alloc());
    bytes.resize(65_536, 0xFF)?;
    bytes[0x3000] = byte;
    Ok(SimChip::new(bytes)?)
}

/// A frame whose answer doesn't matter.
fn send(bus: &mut impl SpiBus, frame: &[u8]) -> bool {
    bus.transact(frame, &mut []).is_ok()
}

/// A program of two bytes at 12FFh, of which the second falls on 1200h, until it ends or is lost.
fn program(bus: &mut impl SpiBus) -> bool {
    if !send(bus, &[0x06]) || !send(bus, &[0x02, 0x00, 0x12, 0xFF, 0x70, 0x07]) {
        return false;
    }
    for _ in 0..10u32 {
        let mut status = [0u8; 1];
        if bus.transact(&[0x05], &mut status).is_err() {
            return false;
        }
        if status[0] % 2 == 0 {
            return true;
        }
    }
    false
}

/// The byte at an address below 64 KiB.
fn byte_at(bus: &mut impl SpiBus, at: u16) -> Option<u8> {
    let mut answer = [0u8; 1];
    let frame = [0x03, 0x00, (at / 256) as u8, (at % 256) as u8];
    match bus.transact(&frame, &mut answer) {
        Ok(()) => Some(answer[0]),
        Err(_) => None,
    }
}

#[test]
fn a_chip_without_a_fault_is_as_the_model_has_it(rt: HostRuntime) -> Result<(), Fail> {
    let bench = Bench::new(chip(&rt, 0x55)?, Flaw::Nothing);
    let mut bus = WatchedBus::open(rt.alloc(), bench)?;
    assert!(rt; program(&mut bus));
    assert_eq!(rt; byte_at(&mut bus, 0x12FF), Some(0x70));
    assert_eq!(rt; byte_at(&mut bus, 0x1200), Some(0x07));
    assert_eq!(rt; byte_at(&mut bus, 0x3000), Some(0x55));
    // These never reach the chip, whose programmer would fail.
    let mut answer = [0u8; 2];
    assert!(rt; bus.transact(&[0xC7], &mut answer).is_ok());
    assert_eq!(rt; answer, [0xFF, 0xFF]);
    assert!(rt; send(&mut bus, &[0xB9]));
    bus.power_on();
    assert_eq!(rt; byte_at(&mut bus, 0x12FF), Some(0x70));
    assert!(rt; send(&mut bus, &[0x06]) && send(&mut bus, &[0x20, 0x00, 0x12, 0x34]));
    bus.power_on();
    assert_eq!(rt; byte_at(&mut bus, 0x12FF), Some(0xFF));
    assert_eq!(rt; bus.departure(), None);
    Ok(())
}

#[test]
fn a_program_that_was_cut_is_done_again(rt: HostRuntime) -> Result<(), Fail> {
    for mask in [0x00u8, 0x0F, 0xFF] {
        let mut torn = chip(&rt, 0x55)?;
        torn.arm_cut(1, 1, mask);
        let bench = Bench::new(torn, Flaw::Nothing);
        let mut bus = WatchedBus::open(rt.alloc(), bench)?;
        assert!(rt; !program(&mut bus));
        assert_eq!(rt; bus.departure(), Some(Departure::NoAnswer(0x05)));
        assert_eq!(rt; byte_at(&mut bus, 0x12FF), None);
        bus.power_on();
        assert_eq!(rt; byte_at(&mut bus, 0x12FF), Some(0x70));
        assert_eq!(rt; byte_at(&mut bus, 0x1200), Some(0x07));
        assert_eq!(rt; bus.departure(), None);
    }
    Ok(())
}

#[test]
fn a_program_that_the_chip_forgets_is_never_acknowledged(rt: HostRuntime) -> Result<(), Fail> {
    let bench = Bench::new(chip(&rt, 0x55)?, Flaw::Forgets(1));
    let mut bus = WatchedBus::open(rt.alloc(), bench)?;
    assert!(rt; !program(&mut bus));
    let missing = Mismatch {
        place: 0x1200,
        read: 0xFF,
        allowed: 0x07,
    };
    assert_eq!(rt; bus.departure(), Some(Departure::Memory(missing)));
    bus.power_on();
    assert_eq!(rt; byte_at(&mut bus, 0x12FF), Some(0x70));
    Ok(())
}

#[test]
fn another_chip_is_not_taken_over(rt: HostRuntime) -> Result<(), Fail> {
    let mut torn = chip(&rt, 0x55)?;
    torn.arm_cut(1, 1, 0x0F);
    let mut bench = Bench::new(torn, Flaw::Nothing);
    bench.other = Some(chip(&rt, 0x54)?);
    let mut bus = WatchedBus::open(rt.alloc(), bench)?;
    assert!(rt; !program(&mut bus));
    bus.power_on();
    assert_eq!(rt; byte_at(&mut bus, 0x12FF), None);
    let found = Mismatch {
        place: 0x3000,
        read: 0x54,
        allowed: 0x55,
    };
    assert_eq!(rt; bus.departure(), Some(Departure::Memory(found)));
    bus.power_on();
    assert_eq!(rt; byte_at(&mut bus, 0x12FF), None);
    Ok(())
}

/// Where the bytes are other ones than are allowed.
fn memory(place: u32, read: u8, allowed: u8) -> Option<Departure> {
    Some(Departure::Memory(Mismatch {
        place,
        read,
        allowed,
    }))
}

/// An erase of the 4 KiB at 3000h, until it ends or is lost.
fn erase(bus: &mut impl SpiBus) -> bool {
    if !send(bus, &[0x06]) || !send(bus, &[0x20, 0x00, 0x30, 0x00]) {
        return false;
    }
    let mut status = [0u8; 1];
    for _ in 0..10u32 {
        if bus.transact(&[0x05], &mut status).is_err() {
            return false;
        }
        if status[0] % 2 == 0 {
            return true;
        }
    }
    false
}

/// What is noted of a chip with a flaw once it was programmed and erased, which the first of the
/// two that doesn't end well ends.
fn found(rt: &HostRuntime, flaw: Flaw) -> Result<Option<Departure>, Fail> {
    let mut bus = WatchedBus::open(rt.alloc(), Bench::new(chip(rt, 0x55)?, flaw))?;
    let _ = program(&mut bus) && erase(&mut bus);
    Ok(bus.departure())
}

#[test]
fn each_flaw_is_found_and_named(rt: HostRuntime) -> Result<(), Fail> {
    let enabled = Departure::Answer(
        0x05,
        Mismatch {
            place: 0,
            read: 0x02,
            allowed: 0x00,
        },
    );
    for (flaw, named) in [
        (Flaw::Nothing, None),
        (Flaw::Stuck(0x12FF, 0x08), memory(0x12FF, 0x78, 0x70)),
        (Flaw::Stuck(0x3000, 0x00), None),
        (Flaw::Forgets(1), memory(0x1200, 0xFF, 0x07)),
        (Flaw::KeepsUnits, memory(0x3000, 0x55, 0xFF)),
        (Flaw::KeepsEnable(false), Some(enabled)),
        (Flaw::RunsOn, memory(0x1200, 0xFF, 0x07)),
    ] {
        assert_eq!(rt; found(&rt, flaw)?, named);
    }
    Ok(())
}

#[test]
fn a_chip_that_is_busy_for_ever(rt: HostRuntime) -> Result<(), Fail> {
    let mut bus = WatchedBus::open(rt.alloc(), Bench::new(chip(&rt, 0x55)?, Flaw::Busy(false)))?;
    assert!(rt; !program(&mut bus));
    assert_eq!(rt; bus.departure(), None);
    bus.power_on();
    assert_eq!(rt; bus.departure(), Some(Departure::Busy));
    assert_eq!(rt; byte_at(&mut bus, 0x3000), None);
    let bench = Bench::new(chip(&rt, 0x55)?, Flaw::Busy(true));
    let none = WatchedBus::open(rt.alloc(), bench);
    assert_eq!(rt; none.err(), Some(OpenError::Busy));
    Ok(())
}

#[test]
fn a_chip_with_a_wrong_table(rt: HostRuntime) -> Result<(), Fail> {
    // Byte 0 of the signature.
    let bench = Bench::new(chip(&rt, 0x55)?, Flaw::Table(0, 0x52));
    let none = WatchedBus::open(rt.alloc(), bench);
    assert_eq!(rt; none.err(), Some(OpenError::Table(SfdpError::Signature)));
    // The size in bits less one is 000FFFFFh instead of 0007FFFFh: 128 KiB, whose id ends in 11h.
    let bench = Bench::new(chip(&rt, 0x55)?, Flaw::Table(0x86, 0x0F));
    let mut bus = WatchedBus::open(rt.alloc(), bench)?;
    assert_eq!(rt; bus.size(), 131_072);
    let mut id = [0u8; 3];
    assert!(rt; bus.transact(&[0x9F], &mut id).is_err());
    let other = Mismatch {
        place: 2,
        read: 0x10,
        allowed: 0x11,
    };
    assert_eq!(rt; bus.departure(), Some(Departure::Answer(0x9F, other)));
    Ok(())
}

#[test]
fn a_trusted_chip_that_forgets_is_found_when_it_is_read(rt: HostRuntime) -> Result<(), Fail> {
    let bench = Bench::new(chip(&rt, 0x55)?, Flaw::Forgets(1));
    let mut bus = WatchedBus::open(rt.alloc(), bench)?.trusting();
    assert!(rt; program(&mut bus));
    assert_eq!(rt; bus.departure(), None);
    assert_eq!(rt; byte_at(&mut bus, 0x12FF), None);
    let missing = Mismatch {
        place: 0,
        read: 0xFF,
        allowed: 0x70,
    };
    assert_eq!(rt; bus.departure(), Some(Departure::Answer(0x03, missing)));
    Ok(())
}

/// A write of status register 1 that protects 1/64 of the chip (BP0, bit 2), until it ends or is
/// lost.
fn protect(bus: &mut impl SpiBus) -> bool {
    if !send(bus, &[0x06]) || !send(bus, &[0x01, 0x04]) {
        return false;
    }
    let mut status = [0u8; 1];
    for _ in 0..10u32 {
        if bus.transact(&[0x05], &mut status).is_err() {
            return false;
        }
        if status[0] % 2 == 0 {
            return status[0] == 0x04;
        }
    }
    false
}

#[test]
fn a_status_that_shows_busy_may_show_its_new_bits(rt: HostRuntime) -> Result<(), Fail> {
    let mut bus = WatchedBus::open(rt.alloc(), Bench::new(chip(&rt, 0x55)?, Flaw::Early(0x04)))?;
    assert!(rt; protect(&mut bus));
    assert_eq!(rt; bus.departure(), None);
    // WEL is judged too: it is 1 in the model until the write has ended.
    let mut bus = WatchedBus::open(rt.alloc(), Bench::new(chip(&rt, 0x55)?, Flaw::NoEnable))?;
    assert!(rt; !protect(&mut bus));
    let cleared = Mismatch {
        place: 0,
        read: 0x01,
        allowed: 0x03,
    };
    assert_eq!(rt; bus.departure(), Some(Departure::Answer(0x05, cleared)));
    Ok(())
}
