//! The whole sweep.
use crate::chains::live;
use crate::chip::{Chip, started, told};
use crate::life::{Life, Mounting};
use crate::losses::{Base, CALLS, after_one_loss, all_lost};
use crate::random::{script, shorten};
use crate::sweeper::{Loss, Sweeper};
use crate::totals::Totals;
use std::alloc::Global;
use std::process::Abort;
use std::test::Fail;
use test_judge::{Event, Judge, Request, Seen};
use test_kit::MASKS;

/// Sweeps a chip with the losses of a kind, in every frame that counts, with each mask. Each mask
/// has the same first count without a loss.
fn swept(rt: &impl Abort, alloc: Global, chip: Chip, kind: u8) -> Result<Totals, Fail> {
    let mut sweeper = Sweeper::new(alloc, chip)?;
    let mut totals = Totals::new(chip, kind);
    for mask in MASKS {
        let last = totals.first;
        for count in 1..65_536u32 {
            let came = totals.cut(&mut sweeper, Loss { count, kind, mask });
            assert!(rt; came.is_ok(), "{came:?} in {:?}", sweeper.events());
            if came.is_ok_and(|came| !came) {
                break;
            }
        }
        assert!(rt; last == 0 || totals.first == last, "mask {mask}");
    }
    assert_eq!(rt; totals.losses, totals.first.wrapping_sub(1).wrapping_mul(6));
    assert!(rt; totals.seen.olds > 10_000 && totals.seen.news > 10_000);
    Ok(totals)
}

/// Of the 357 changes on a formatted chip the first write of each sector makes 4, each later one 5,
/// the one that copies a block 10 more, the TRIM of four sectors 4, and the tidying of a block of
/// two live slots 13; on the prepared one two journals are renewed, by 5 changes each; and where
/// wear is levelled, the tidying first moves a block of six live slots whose sectors rest, by 25.
#[test]
fn every_change_is_lost(rt: HostRuntime) -> Result<(), Fail> {
    for (chip, first) in [
        (Chip::Plain, 358u32),
        (Chip::Prepared, 368),
        (Chip::Level, 383),
    ] {
        let totals = swept(&rt, rt.alloc(), chip, 1)?;
        assert_eq!(rt; totals.first, first);
        assert!(rt; totals.seen.lost_restores > 800);
    }
    Ok(())
}

/// A change is three frames and a status read at the least, and the last READ one for each sector.
#[test]
fn every_frame_is_lost(rt: HostRuntime) -> Result<(), Fail> {
    for (chip, changes) in [
        (Chip::Plain, 357u32),
        (Chip::Prepared, 367),
        (Chip::Level, 382),
    ] {
        let totals = swept(&rt, rt.alloc(), chip, 0)?;
        assert!(rt; totals.first > 4 * changes + 70);
    }
    Ok(())
}

/// The changes of a call after whose loss a run goes wrong, and how many changes it makes.
fn wrong_changes(
    rt: &impl Abort,
    alloc: Global,
    number: usize,
    mounting: Mounting,
) -> Result<(Vec<usize>, usize), Fail> {
    let mut wrong = Vec::new(alloc);
    let Some((base, call)) = CALLS.get(number).copied() else {
        return Ok((wrong, 0));
    };
    let mut life = Life::new(alloc, mounting)?;
    let moment = base.moment(alloc, mounting)?;
    let moments = all_lost(alloc, &mut life, &moment, base.first(mounting), call)?;
    for (k, after) in moments.iter().enumerate() {
        let runs = after_one_loss(&mut life, after, call)?;
        assert!(rt; runs.runs == 36, "{runs:?}");
        if runs.wrong > 0 {
            wrong.push(k.saturating_add(1))?;
        }
    }
    Ok((wrong, moments.len()))
}

/// Where torn bits waver, a plain mount stands no loss in the descriptor, the commit or the
/// retirement of a slot's write, none in a zeroing, and of a tidying none in the opening and the
/// closing of its entry and in the settlement of its mark. It stands each in a page, and in all
/// else of a copying. That is what `wavering.txt` of `test_cases` has case by case.
#[test]
fn a_plain_mount_stands_no_loss_in_seven_kinds_of_change(rt: HostRuntime) -> Result<(), Fail> {
    let wanted: [(usize, usize, &[usize]); 3] = [(0, 4, &[1, 4]), (1, 5, &[1, 4, 5]), (3, 1, &[1])];
    for (number, count, changes) in wanted {
        let (wrong, made) = wrong_changes(&rt, rt.alloc(), number, Mounting::Plain)?;
        assert!(rt;
            made == count && wrong.as_slice() == changes,
            "call {number}: {wrong:?}"
        );
    }
    let (wrong, made) = wrong_changes(&rt, rt.alloc(), 4, Mounting::Plain)?;
    let last = [made.wrapping_sub(3), made.wrapping_sub(1), made];
    assert!(rt;
        wrong.as_slice() == last.as_slice(),
        "{made} changes: {wrong:?}"
    );
    Ok(())
}

/// A firm mount stands each of them, with all draws.
#[test]
fn a_firm_mount_stands_a_loss_in_each_change(rt: HostRuntime) -> Result<(), Fail> {
    for (number, _call) in CALLS.iter().enumerate() {
        let (wrong, made) = wrong_changes(&rt, rt.alloc(), number, Mounting::Firm)?;
        assert!(rt; made > 0 && wrong.is_empty(), "call {number}: {wrong:?}");
    }
    Ok(())
}

/// A hundred random lives on each chip end well.
fn stand(rt: &impl Abort, alloc: Global, mounting: Mounting) -> Result<(), Fail> {
    let mut life = Life::new(alloc, mounting)?;
    for base in [
        Base::Few,
        Base::Full,
        Base::Spares,
        Base::Journal,
        Base::Journals,
    ] {
        let moment = base.moment(alloc, mounting)?;
        for seed in 0..100u32 {
            let came = live(&mut life, &moment, base.first(mounting), seed);
            assert!(rt;
                came.is_ok(),
                "{mounting:?}, {base:?}, seed {seed}: {came:?}"
            );
        }
    }
    Ok(())
}

/// Nor does a life with up to seven losses, in calls and in mounts, end wrongly.
#[test]
fn a_firm_mount_stands_losses_in_calls_and_in_mounts(rt: HostRuntime) -> Result<(), Fail> {
    for mounting in [Mounting::Firm, Mounting::FirmLevel] {
        stand(&rt, rt.alloc(), mounting)?;
    }
    Ok(())
}

#[test]
fn random_scripts_are_answered_as_by_the_array(rt: HostRuntime) -> Result<(), Fail> {
    let alloc = rt.alloc();
    for chip in [Chip::Plain, Chip::Prepared, Chip::Level] {
        let mut sweeper = Sweeper::new(alloc, chip)?;
        let mut seen = Seen::nothing();
        for seed in 0..500u32 {
            let came = sweeper.run_all(script(alloc, seed)?.as_slice());
            assert!(rt; came.is_ok(), "seed {seed}: {came:?}");
            if let Ok(more) = came {
                seen.add(more);
            }
        }
        assert!(rt; seen.losses > 1_000 && seen.replies > 10_000, "{seen:?}");
    }
    Ok(())
}

/// On a chip whose sector 5 was written before, of which the array knows nothing: a connection and
/// a READ are left.
#[test]
fn a_wrong_answer_is_shortened(rt: HostRuntime) -> Result<(), Fail> {
    let alloc = rt.alloc();
    let mut sweeper = Sweeper::new(alloc, Chip::Plain)?;
    let mut station = started(alloc, Chip::Plain, sweeper.memory.as_slice())?;
    let mut records = Vec::new(alloc);
    let mut judge = Judge::new(alloc)?;
    judge.record(Event::Open(0), &mut records)?;
    judge.record(Event::Ask(0, Request::Write(5, 1, 0x77), 0), &mut records)?;
    let mut room = [0u8; 1_000];
    told(&mut station, records.as_slice(), &mut room)?;
    sweeper.memory = station.into_inner().into_inner().into_inner();
    let mut wrong = Vec::new(alloc);
    for seed in 0..40u32 {
        let events = script(alloc, seed)?;
        if sweeper.run_all(events.as_slice()).is_err() {
            wrong = events;
            break;
        }
    }
    let events = shorten(&mut sweeper, alloc, wrong)?;
    assert!(rt; sweeper.run_all(events.as_slice()).is_err());
    match events.as_slice() {
        [
            Event::Open(one),
            Event::Ask(other, Request::Read(first, count), 0),
        ] if *one == *other && *first <= 5 && first.wrapping_add(*count) > 5 => Ok(()),
        _ => Err(Fail::new(format_args!("{events:?}"))),
    }
}
