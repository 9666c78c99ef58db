//! Random scripts, by the driver.

use crate::driver::Driver;
use chip_simulator::SimChip;
use nbd_station::Station;
use std::alloc::Global;
use std::test::*;
use test_kit::chips::{OnSim, formatted, set, started, started_level};

/// How many events each seed draws, but for those that read all sectors twice after a restore.
const EVENTS: u32 = 20_000;

/// A station over the disk on a chip, whose wear is levelled for each other seed.
fn started_for(seed: u64, alloc: Global, chip: SimChip) -> Result<Station<OnSim>, Fail> {
    if seed % 2 == 0 {
        started_level(alloc, chip)
    } else {
        started(alloc, chip)
    }
}

#[test]
fn random_events_are_answered_as_by_an_array_of_sectors(rt: HostRuntime) -> Result<(), Fail> {
    let alloc = rt.alloc();
    let mut room = vec![in alloc; 0u8; 1_048_576]?;
    for seed in [1u64, 2, 3, 4, 5, 6, 7, 8] {
        let mut station = started_for(seed, alloc, formatted(alloc)?)?;
        let mut driver = Driver::new(alloc, seed)?;
        for event in 0..EVENTS {
            driver.step(&mut station, room.as_mut_slice())?;
            if event % 100 == 99 && driver.has_power {
                // all entries of the first journal are used, so that the next erase renews it, and
                // mostly not to its end
                let mut memory = station.into_inner().into_inner().into_inner();
                set(
                    memory.as_mut_slice(),
                    0x1800,
                    512,
                    &[0xF8, 0x04, 0x00, 0xFF],
                )?;
                station = started_for(seed, alloc, SimChip::new(memory)?)?;
                driver.move_on();
                driver.arm(&mut station, room.as_mut_slice(), true)?;
            }
        }
        // what stands on the chip is mounted anew, and read there
        let mut again = started_for(seed, alloc, station.into_inner().into_inner())?;
        driver.move_on();
        driver.read_twice(&mut again, room.as_mut_slice(), 0)?;
        let seen = driver.seen;
        let (olds, news) = (driver.sectors.olds, driver.sectors.news);
        assert!(rt;
            seen.writes > 1_000 && seen.reads > 1_000,
            "seed {seed}: {seen:?}"
        );
        assert!(rt;
            seen.lost_writes > 100 && seen.lost_reads > 2,
            "seed {seed}: {seen:?}"
        );
        assert!(rt;
            seen.zeroings > 200 && seen.lost_zeroings > 0,
            "seed {seed}: {seen:?}"
        );
        assert!(rt;
            seen.lost_tidyings > 20 && seen.lost_restores > 10,
            "seed {seed}: {seen:?}"
        );
        assert!(rt; olds > 100 && news > 20, "seed {seed}: {olds} and {news}");
    }
    Ok(())
}
