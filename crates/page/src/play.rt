//! Steps that are played on a disk.

ghost use Rattle.std.specs.Prelude.{◌≡◌, ◌≢◌, ◌+◌, ◌*◌, ◌/◌, ◌<◌, ◌≤◌, ℕ, true, false, not, length};
ghost use Rattle.std.specs.Prelude.{IfSome, replicate};
ghost use Rattle.block_device.specs.Facts.{CountsNeverFall};
ghost use Rattle.page.specs.Story.{power_at, Story};
ghost use Rattle.page.specs.Steps.{PlaysStep, code, is_unarmed};

use crate::step::{NO_STEP, Power, STEP_DONE, STEP_LOST, Step, is_playable, power_after, step_at};
use crate::tape::MARK;
use block_device::{Disk, DiskError};

/// An operation of the chip didn't end.
const SLOW: u8 = b'E';

/// What an answer is as a byte.
fn told<T: Drop>(answer: Result<T, DiskError>) -> u8
    ensures { result ≡ code answer }
{
    match answer {
        Ok(_) => STEP_DONE,
        Err(DiskError::Cut) => STEP_LOST,
        Err(DiskError::Slow) => SLOW,
    }
}

/// Whether an answer tells of a loss that no step had armed.
fn is_unarmed(step: &Step, answer: u8, power: Power) -> bool
    ensures { result ≡ is_unarmed step.now answer power }
{
    answer == STEP_LOST && !power.armed && (power.on || step.what == b'R')
}

/// Does what a step asks for: its answer.
fn play_step<D: Disk>(disk: &mut D, step: &Step) -> u8
    requires sectors { length (D.facts disk.old).contents ≡ 35840 }
    requires sound { (D.facts disk.old).sound ≡ true }
    requires quick { (D.facts disk.old).slow ≡ false }
    ensures plays { PlaysStep step.now result (D.facts disk.old) (D.facts disk.new) }
{
    if !is_playable(step) {
        return NO_STEP;
    }
    match step.what {
        b'W' => told(disk.write(step.sector as u32, &[step.fill; 512])),
        b'Z' => told(disk.zero(step.sector as u32, 1)),
        b'T' => told(disk.tidy()),
        b'R' => told(disk.restore()),
        _ => {
            disk.arm(step.count, step.kind, step.mask);
            STEP_DONE
        }
    }
}

/// Plays the steps of a script, with a mark on the tape before each and behind the last: the power
/// that they leave. None where a loss came that no step had armed, or an operation was slow.
pub fn play<D: Disk>(disk: &mut D, script: &[u8], answers: &mut [u8]) -> Option<Power>
    requires fits { length script.now ≡ 8 * length answers.old }
    requires few { length answers.old ≤ 4096 }
    requires sectors { length (D.facts disk.old).contents ≡ 35840 }
    requires sound { (D.facts disk.old).sound ≡ true }
    requires ready { (D.facts disk.old).cut ≡ false }
    requires quick { (D.facts disk.old).slow ≡ false }
    ensures size { length answers.new ≡ length answers.old }
    ensures story { IfSome result (λ power. Story (D.facts disk.old).contents script.now answers.new
        (length answers.old) (D.facts disk.new).contents) }
    ensures power { IfSome result (λ power.
        power ≡ power_at script.now answers.new (length answers.old)) }
    ensures on { IfSome result (λ power. power.on ≡ not (D.facts disk.new).cut) }
    ensures sound { IfSome result (λ power. (D.facts disk.new).sound ≡ true) }
    ensures quick { IfSome result (λ power. (D.facts disk.new).slow ≡ false) }
    ensures goes { CountsNeverFall (D.facts disk.old) (D.facts disk.new) }
{
    let mut power = Power {
        on: true,
        armed: false,
    };
    for k in 0..answers.len() {
        disk.arm(k as u32, MARK, 0);
        let step = step_at(script, k);
        let answer = play_step(disk, &step);
        if answer == SLOW || is_unarmed(&step, answer, power) {
            return None;
        }
        answers[k] = answer;
        power = power_after(&step, answer, power);
    }
    disk.arm(answers.len() as u32, MARK, 0);
    Some(power)
}
