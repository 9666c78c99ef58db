//! Random lives of a chip whose torn bits waver: sessions of calls, each of which and each mount of
//! which may lose the power.

ghost use Rattle.std.specs.Prelude.{◌<◌};

use crate::draw::Draw;
use crate::failure::Failure;
use crate::life::{Call, Life, Moment, Mounting};
use test_judge::SECTORS;
use test_kit::Dice;

/// The most losses of a life.
const LOSSES: u32 = 7;

/// A draw.
fn draw(dice: &mut Dice) -> Draw {
    match dice.below(6) {
        0 | 1 => Draw::Each(0xFF),
        2 | 3 => Draw::Each(0x00),
        _ => Draw::Seed(dice.below(u32::MAX)),
    }
}

/// A call, mostly of one of a few sectors.
fn call(dice: &mut Dice) -> Call {
    let count = if dice.below(8) == 0 { 2 } else { 1 };
    let first = if dice.below(2) == 0 {
        dice.below(4) * 10
    } else {
        dice.below(SECTORS - 1)
    };
    match dice.below(8) {
        0..=3 => Call::Write(first, count, dice.below(256) as u8),
        4 => Call::Zero(first, count),
        _ => Call::Tidy,
    }
}

/// A call of a session. One that is plain before others that are firm zeroes nothing: a loss in the
/// one bit of such a zeroing is what no later mount can make firm.
fn call_as(dice: &mut Dice, how: Mounting, later: Mounting) -> Call {
    match (how, later, call(dice)) {
        (Mounting::Plain, Mounting::Plain, call) => call,
        (Mounting::Plain, _, Call::Zero(first, count)) => Call::Write(first, count, 0),
        (_, _, call) => call,
    }
}

/// The change in which the power is lost, 0 for none: one of so many at most, in one of `of` cases.
fn change(dice: &mut Dice, left: u32, most: u32, of: u32) -> u32
    requires most { 0 < most }
    requires of { 0 < of }
{
    if left > 0 && dice.below(of) == 0 {
        dice.below(most).saturating_add(1)
    } else {
        0
    }
}

/// The changes that a call makes at the most, mostly: a few, or those of a copying.
fn most_of(dice: &mut Dice, call: Call) -> u32
    ensures { 0 < result }
{
    match call {
        Call::Write(_, _, _) if dice.below(4) > 0 => 6,
        Call::Zero(_, _) => 7,
        _ => 36,
    }
}

/// A session: a power cycle, a mount, and calls, until one is lost.
fn session(life: &mut Life, dice: &mut Dice, how: Mounting, most: u32) -> Result<(), Failure> {
    life.cycle(draw(dice))?;
    let changes = if dice.below(3) == 0 { 36 } else { 6 };
    let lost = change(dice, most.saturating_sub(life.seen.losses), changes, 2);
    if !life.mount_as(how, lost)? {
        return Ok(());
    }
    life.read_all()?;
    for _ in 0..dice.below(9) {
        let call = call_as(dice, how, life.mounting);
        let changes = most_of(dice, call);
        let lost = change(dice, most.saturating_sub(life.seen.losses), changes, 2);
        if !life.call(call, lost)? {
            return Ok(());
        }
    }
    life.read_all()
}

/// The life of a seed, on a chip; its first session is mounted as told.
pub fn live(life: &mut Life, base: &Moment, first: Mounting, seed: u32) -> Result<(), Failure> {
    let mut dice = Dice::new(u64::from(seed).wrapping_mul(0x9E37_79B9_7F4A_7C15));
    let most = dice.below(LOSSES) + 1;
    life.begin(base)?;
    let mut last = 0u32;
    let mut how = first;
    for _ in 0..12 {
        session(life, &mut dice, how, most)?;
        how = life.mounting;
        if life.seen.losses >= most {
            last = last.saturating_add(1);
        }
        if last == 4 {
            break;
        }
    }
    for _ in 0..3 {
        life.look(draw(&mut dice))?;
    }
    Ok(())
}
