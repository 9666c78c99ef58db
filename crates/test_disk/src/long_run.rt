//! A long run of writes and tidyings with losses of power, judged by a plain map that the test
//! keeps.

use crate::maps::{COUNT, End, Sectors, formatted, memory_behind, mounted, stamp_of, write};
use nor_driver::NorError;
use std::alloc::Global;
use std::process::Abort;
use std::test::*;
use test_kit::chips::armed;
use test_kit::{Dice, MASKS};

/// How many calls a run makes.
const CALLS: u32 = 10_000;

/// What a run came to.
#[derive(Clone, Copy, Debug, PartialEq, Eq)]
struct Tally {
    writes: u32,
    tidyings: u32,
    losses: u32,
    /// How many writes that were cut left the sector old, and how many new.
    olds: u32,
    news: u32,
    /// How many mounts after a loss were cut too.
    cut_mounts: u32,
}

/// Turns the power on until a restore isn't cut; how many were.
fn restored(map: &mut Sectors) -> Result<u32, Fail> {
    for cuts in 0..64u32 {
        match map.restore() {
            Ok(()) => return Ok(cuts),
            Err(NorError::Cut) => {}
            Err(NorError::Slow) => return Err(Fail::new("a restore that was slow")),
        }
    }
    Err(Fail::new("64 restores that were cut"))
}

/// Arms a loss in one of the next 20 changes, in about one call of five.
fn arm(map: &mut Sectors, dice: &mut Dice) {
    if dice.below(5) == 0 {
        let mask = MASKS[dice.below(6) as usize];
        let count = dice.below(20);
        map.arm(count.saturating_add(1), 1, mask);
    }
}

/// Writes a sector, and enters what it holds now into the plain map.
fn write_one(
    map: &mut Sectors,
    plain: &mut [u8; 70],
    dice: &mut Dice,
    tally: &mut Tally,
) -> Result<(), Fail> {
    let sector = dice.below(70) as u16;
    let stamp = dice.below(250) as u8;
    tally.writes = tally.writes.saturating_add(1);
    let old = plain[sector as usize];
    match write(map, sector, stamp) {
        End::Done => plain[sector as usize] = stamp,
        End::Cut => {
            tally.losses = tally.losses.saturating_add(1);
            arm(map, dice);
            tally.cut_mounts = tally.cut_mounts.saturating_add(restored(map)?);
            let Some(now) = stamp_of(map, sector)? else {
                return Err(Fail::new("a torn sector"));
            };
            if now != old && now != stamp {
                return Err(Fail::new("a sector that was never written so"));
            }
            if now == old {
                tally.olds = tally.olds.saturating_add(1);
            } else {
                tally.news = tally.news.saturating_add(1);
            }
            plain[sector as usize] = now;
        }
        _ => return Err(Fail::new("a write that was refused")),
    }
    Ok(())
}

/// Tidies.
fn tidy_one(map: &mut Sectors, dice: &mut Dice, tally: &mut Tally) -> Result<(), Fail> {
    tally.tidyings = tally.tidyings.saturating_add(1);
    match map.tidy() {
        Ok(_) => Ok(()),
        Err(NorError::Cut) => {
            tally.losses = tally.losses.saturating_add(1);
            arm(map, dice);
            tally.cut_mounts = tally.cut_mounts.saturating_add(restored(map)?);
            Ok(())
        }
        Err(NorError::Slow) => Err(Fail::new("a tidying that was slow")),
    }
}

/// The first sector that isn't what the plain map says.
fn first_wrong(map: &mut Sectors, plain: &[u8; 70]) -> Result<Option<u16>, Fail> {
    for sector in 0..COUNT {
        if stamp_of(map, sector)? != Some(plain[sector as usize]) {
            return Ok(Some(sector));
        }
    }
    Ok(None)
}

/// A run of random calls: what it came to, or an error where a sector isn't what it should be.
fn run(map: &mut Sectors, plain: &mut [u8; 70], seed: u64) -> Result<Tally, Fail> {
    let mut dice = Dice::new(seed);
    let mut tally = Tally {
        writes: 0,
        tidyings: 0,
        losses: 0,
        olds: 0,
        news: 0,
        cut_mounts: 0,
    };
    for call in 0..CALLS {
        arm(map, &mut dice);
        if dice.below(8) == 0 {
            tidy_one(map, &mut dice, &mut tally)?;
        } else {
            write_one(map, plain, &mut dice, &mut tally)?;
        }
        if call % 50 == 0 && first_wrong(map, plain)?.is_some() {
            return Err(Fail::new("a sector that isn't the plain map's"));
        }
    }
    Ok(tally)
}

/// Whether the run met enough of each kind.
fn is_enough(tally: &Tally) -> bool {
    tally.writes > 8_000
        && tally.tidyings > 1_000
        && tally.losses > 500
        && tally.olds > 100
        && tally.news > 50
        && tally.cut_mounts > 10
}

/// The first sector that isn't what the plain map says, where the chip is mounted from its bytes
/// alone.
fn first_wrong_of(alloc: Global, bytes: &[u8], plain: &[u8; 70]) -> Result<Option<u16>, Fail> {
    first_wrong(&mut mounted(alloc, armed(alloc, bytes, 0, 0)?)?, plain)
}

/// A run on a new chip, whose wear is levelled or not.
fn check_run(rt: &impl Abort, alloc: Global, level: bool) -> Result<(), Fail> {
    let mut map = mounted(alloc, armed(alloc, &formatted(alloc)?, 0, 0)?)?;
    if level {
        map.level_wear();
    }
    let mut plain = [0u8; 70];
    let tally = run(&mut map, &mut plain, 0x5EC7_0255)?;
    assert!(rt; is_enough(&tally), "{level}: {tally:?}");
    map.arm(0, 1, 0);
    let wrong = first_wrong(&mut map, &plain)?;
    let again = first_wrong_of(alloc, &memory_behind(map), &plain)?;
    assert_eq!(rt; [wrong, again], [None, None], "{level}");
    Ok(())
}

#[test]
fn ten_thousand_calls_with_losses_leave_what_a_plain_map_holds(
    rt: HostRuntime,
) -> Result<(), Fail> {
    check_run(&rt, rt.alloc(), false)?;
    check_run(&rt, rt.alloc(), true)
}
