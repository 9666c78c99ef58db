//! What the losses on chips whose torn bits waver come to.

use crate::chains::live;
use crate::failure::Failure;
use crate::life::{Life, Moment, Mounting};
use crate::losses::{Base, CALLS, Runs, after_one_loss, after_two_losses, all_lost};
use std::alloc::Global;
use std::ops::Range;

/// Prints what happened in the life that ended wrongly.
fn print_life(rt: &impl Print, life: &Life, failure: Failure) {
    for step in life.steps.iter() {
        let _ = println!(rt; "  {step:?}");
    }
    let _ = println!(rt; "  {failure}");
}

/// Prints a row of the table: a call, a change of it, and what the runs after its loss came to.
fn print_row(rt: &impl Print, number: usize, change: usize, one: Runs, two: Runs) {
    let Some((base, call)) = CALLS.get(number).copied() else {
        return;
    };
    let _ = println!(rt;
        "{base:?} {call:?} change {change}: one loss {} of {} wrong, two {} of {}",
        one.wrong, one.runs, two.wrong, two.runs
    );
}

/// Loses the power in each change of each call, and once more in each of the mount after it.
pub fn sweep_wavering(rt: &impl Print, alloc: Global, mounting: Mounting) -> Result<(), Failure> {
    let mut life = Life::new(alloc, mounting)?;
    for (number, (base, call)) in CALLS.iter().enumerate() {
        let moment = base.moment(alloc, mounting)?;
        let moments = all_lost(alloc, &mut life, &moment, base.first(mounting), *call)?;
        for (k, after) in moments.iter().enumerate() {
            let one = after_one_loss(&mut life, after, *call)?;
            let two = after_two_losses(&mut life, after)?;
            print_row(rt, number, k.saturating_add(1), one, two);
        }
    }
    Ok(())
}

/// Lives of these seeds on the five chips in turn. Prints the first that ends wrongly.
pub fn live_all(
    rt: &impl Print,
    alloc: Global,
    mounting: Mounting,
    seeds: Range<u32>,
) -> Result<(), Failure> {
    let mut life = Life::new(alloc, mounting)?;
    let mut runs = Runs::none();
    let mut losses = 0u64;
    for base in [
        Base::Few,
        Base::Full,
        Base::Spares,
        Base::Journal,
        Base::Journals,
    ] {
        let moment: Moment = base.moment(alloc, mounting)?;
        for seed in seeds.start..seeds.end {
            let came = live(&mut life, &moment, base.first(mounting), seed);
            losses = losses.saturating_add(u64::from(life.seen.losses));
            if let Err(failure) = came {
                if runs.wrong == 0 {
                    let _ = println!(rt; "{base:?}, seed {seed}:");
                    print_life(rt, &life, failure);
                }
            }
            runs.count(came)?;
        }
    }
    let (lives, wrong) = (runs.runs, runs.wrong);
    let _ = println!(rt; "{lives} lives, {losses} losses, {wrong} wrong");
    Ok(())
}
