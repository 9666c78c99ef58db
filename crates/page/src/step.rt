//! A step of a script, and what its answer says of the power.

ghost use Rattle.std.specs.Prelude.{◌≡◌, ◌+◌, ◌*◌, ◌<◌, ◌≤◌, ℕ, true, false, length};
ghost use Rattle.chip_model.specs.Memory.{byte};
ghost use Rattle.page.specs.Story.{is_playable, power_after, step_at};

/// A step as a script has it, eight bytes: what is done, the sector, the byte that fills it, the
/// kind and the mask of a loss, and in three bytes, the most significant first, in which frame or
/// change the loss comes.
///
/// `W` writes the byte over a sector, `Z` zeros, `T` tidies, `R` turns the power on anew and
/// recovers, `C` arms a loss.
#[derive(Clone, Copy, Drop)]
pub struct Step {
    pub what: u8,
    pub sector: u8,
    pub fill: u8,
    pub kind: u8,
    pub mask: u8,
    pub count: u32,
}

/// Whether the power is on, and whether a loss is armed that hasn't come.
#[derive(Clone, Copy, Drop)]
pub struct Power {
    pub on: bool,
    pub armed: bool,
}

/// The answer of a step that was done.
pub const STEP_DONE: u8 = b'A';

/// The answer of one in which the power was lost, or before which it was off.
pub const STEP_LOST: u8 = b'L';

/// The answer of what is no step, or has no such sector.
pub const NO_STEP: u8 = b'B';

/// The step at a place.
pub fn step_at(script: &[u8], place: usize) -> Step
    requires { 8 * place + 8 ≤ length script.now }
    ensures { result ≡ step_at script.now place }
{
    let at = 8 * place;
    Step {
        what: script[at],
        sector: script[at + 1],
        fill: script[at + 2],
        kind: script[at + 3],
        mask: script[at + 4],
        count: 65_536 * script[at + 5] as u32 + 256 * script[at + 6] as u32 + script[at + 7] as u32,
    }
}

/// Whether it can be played on a disk of 70 sectors.
pub fn is_playable(step: &Step) -> bool
    ensures { result ≡ is_playable step.now }
{
    if step.what == b'W' || step.what == b'Z' {
        return step.sector < 70;
    }
    step.what == b'T' || step.what == b'R' || step.what == b'C'
}

/// What a step leaves of the power, by its answer.
pub fn power_after(step: &Step, answer: u8, power: Power) -> Power
    ensures { result ≡ power_after step.now answer power }
{
    if answer == STEP_LOST {
        return Power {
            on: false,
            armed: power.armed && !power.on && step.what != b'R',
        };
    }
    Power {
        on: power.on || (answer == STEP_DONE && step.what == b'R'),
        armed: if step.what == b'C' {
            0 < step.count
        } else {
            power.armed
        },
    }
}
