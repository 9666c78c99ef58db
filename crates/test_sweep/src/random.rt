//! Scripts of random events of eight connections, and the shortest part of one that is still
//! answered wrongly.

ghost use Rattle.std.specs.Prelude.{◌≡◌, ◌+◌, ◌++◌, ◌<◌, IfOk, drop, length, take};

use crate::failure::Failure;
use crate::sweeper::Sweeper;
use std::alloc::{AllocError, Global};
use test_judge::{Event, Request, SECTORS};
use test_kit::{Dice, MASKS};

/// The events of a script that are drawn, but for the openings after a restore.
const EVENTS: u32 = 300;

/// What comes after them: all sectors are read, restored, and read again.
const LAST: [Event; 7] = [
    Event::Arm(0, 0, 0),
    Event::Restore,
    Event::Gone(0),
    Event::Open(0),
    Event::Ask(0, Request::Read(0, SECTORS), 0),
    Event::Restore,
    Event::Ask(0, Request::Read(0, SECTORS), 0),
];

/// The most times that all events of a script are gone through.
const PASSES: u32 = 20;

/// A request, which may lead one sector past the end.
fn draw_request(dice: &mut Dice) -> Request {
    let most = if dice.below(8) == 0 { SECTORS } else { 3 };
    let count = dice.below(most) + 1;
    let first = dice.below(SECTORS + 2 - count);
    match dice.below(20) {
        0 => Request::Flush,
        1 => Request::Leave,
        2 => Request::Trim(first, count),
        3..=6 => Request::Read(first, count),
        _ => Request::Write(first, count, dice.below(256) as u8),
    }
}

/// How many bytes of its text a client keeps: mostly none, else as many as are a part of a request,
/// or some requests.
fn draw_kept(dice: &mut Dice) -> u32 {
    let most = match dice.below(8) {
        0 => 60,
        1 => 2_000,
        2 => 36_000,
        _ => 1,
    };
    dice.below(most)
}

/// An event.
fn draw(dice: &mut Dice) -> Event {
    let who = dice.below(8) as u8;
    match dice.below(100) {
        0..=54 => {
            let request = draw_request(dice);
            Event::Ask(who, request, draw_kept(dice))
        }
        55..=59 => Event::Rest(who),
        60..=67 => Event::Open(who),
        68..=70 => Event::Gone(who),
        71..=80 => Event::Tidy,
        81..=90 => Event::Restore,
        _ => Event::Arm(
            dice.below(150),
            dice.below(2) as u8,
            MASKS[dice.below(6) as usize],
        ),
    }
}

/// Adds openings of about half of the connections.
fn open_some(dice: &mut Dice, events: &mut Vec<Event>) -> Result<(), AllocError> {
    for who in 0..8u8 {
        if dice.below(2) == 0 {
            events.push(Event::Open(who))?;
        }
    }
    Ok(())
}

/// The script of a seed.
pub fn script(alloc: Global, seed: u32) -> Result<Vec<Event>, AllocError> {
    let mut dice = Dice::new(u64::from(seed).wrapping_mul(0x9E37_79B9_7F4A_7C15));
    let mut events = Vec::new(alloc);
    open_some(&mut dice, &mut events)?;
    for _ in 0..EVENTS {
        let event = draw(&mut dice);
        events.push(event)?;
        if matches!(event, Event::Restore) {
            open_some(&mut dice, &mut events)?;
        }
    }
    events.extend_from_slice(&LAST)?;
    Ok(events)
}

/// The events but for the one at a place.
fn without(alloc: Global, events: &[Event], place: usize) -> Result<Vec<Event>, AllocError>
    requires { place < length events.now }
    ensures { IfOk result (λ rest. rest.items
        ≡ take place events.now ++ drop (place + 1) events.now) }
{
    let mut rest = Vec::new(alloc);
    rest.extend_from_slice(&events[..place])?;
    rest.extend_from_slice(&events[place + 1..])?;
    Ok(rest)
}

/// Goes once through the events of a script from the last one on, and drops each without which it
/// is still answered wrongly.
fn shorten_once(
    sweeper: &mut Sweeper,
    alloc: Global,
    events: Vec<Event>,
) -> Result<Vec<Event>, Failure> {
    let mut events = events;
    for place in (0..events.len()).rev() {
        if place >= events.len() {
            continue;
        }
        let candidate = without(alloc, events.as_slice(), place)?;
        match sweeper.run_all(candidate.as_slice()) {
            Err(Failure::Told(_)) => events = candidate,
            Err(failure) => return Err(failure),
            Ok(_) => {}
        }
    }
    Ok(events)
}

/// Drops events of a script, as long as it is still answered wrongly.
pub fn shorten(
    sweeper: &mut Sweeper,
    alloc: Global,
    events: Vec<Event>,
) -> Result<Vec<Event>, Failure> {
    let mut events = events;
    for _ in 0..PASSES {
        let before = events.len();
        events = shorten_once(sweeper, alloc, events)?;
        if events.len() == before {
            break;
        }
    }
    Ok(events)
}
