//! Losses of power on a chip whose torn bits waver: one in each change of a call, and a second one
//! in each change of the mount after it, each with the draws that follow.

use crate::draw::Draw;
use crate::failure::Failure;
use crate::life::{Call, Life, Moment, Mounting};
use chip_simulator::SimChip;
use flash_disk::format;
use std::alloc::Global;
use test_judge::{Array, SECTORS};

/// The most changes of a call or of a mount.
const MOST_CHANGES: u32 = 1_000;

/// A chip on which nothing is weak.
#[derive(Clone, Copy, Debug)]
pub enum Base {
    /// Of ten sectors that were written, four of them twice.
    Few,
    /// Of all sectors, with no free slot but the reserve's: the next write copies a block.
    Full,
    /// Of 63 sectors, and a block of dead slots: the next write begins one of two wholly free
    /// blocks, and a tidying erases another one.
    Spares,
    /// The same, and all entries of J0 are used: the next erase renews it.
    Journal,
    /// The same, and all but three votes of J1 for J0: the next erase renews both.
    Journals,
}

/// What is done before a loss: a call, on a chip.
pub const CALLS: [(Base, Call); 11] = [
    (Base::Few, Call::Write(20, 1, 0xE1)),
    (Base::Few, Call::Write(5, 1, 0xE2)),
    (Base::Few, Call::Write(9, 2, 0xE3)),
    (Base::Few, Call::Zero(5, 1)),
    (Base::Few, Call::Tidy),
    (Base::Full, Call::Write(10, 1, 0xE4)),
    (Base::Full, Call::Zero(10, 3)),
    (Base::Full, Call::Tidy),
    (Base::Spares, Call::Write(63, 1, 0xE5)),
    (Base::Journal, Call::Tidy),
    (Base::Journals, Call::Tidy),
];

/// What is done between the first power cycle and the second: nothing; the sector of the call is
/// written again, once and four times; it is zeroed; others are written; the disk is tidied, and
/// others are written.
const WORKS: usize = 6;

/// The draws of three power cycles.
const DRAWS: [[Draw; 3]; 6] = [
    [Draw::Each(0xFF), Draw::Each(0x00), Draw::Each(0xFF)],
    [Draw::Each(0x00), Draw::Each(0xFF), Draw::Each(0x00)],
    [Draw::Each(0xFF), Draw::Each(0xFF), Draw::Each(0x00)],
    [Draw::Each(0x00), Draw::Each(0x00), Draw::Each(0xFF)],
    [Draw::Each(0x55), Draw::Each(0xAA), Draw::Seed(1)],
    [Draw::Seed(2), Draw::Seed(3), Draw::Seed(4)],
];

/// What runs came to.
#[derive(Clone, Copy, Debug)]
pub struct Runs {
    pub runs: u32,
    pub wrong: u32,
}

impl Runs {
    pub fn none() -> Runs {
        Runs { runs: 0, wrong: 0 }
    }

    /// One more. A failure that isn't the disk's is passed on.
    pub fn count(&mut self, came: Result<(), Failure>) -> Result<(), Failure> {
        self.runs = self.runs.wrapping_add(1);
        match came {
            Ok(()) => Ok(()),
            Err(Failure::Told(_) | Failure::Refused | Failure::Weak) => {
                self.wrong = self.wrong.wrapping_add(1);
                Ok(())
            }
            Err(failure) => Err(failure),
        }
    }
}

/// A formatted chip whose bits waver, and of which none is weak.
fn formatted(alloc: Global) -> Result<Moment, Failure> {
    let Ok(chip) = SimChip::new(vec![in alloc; 0xFFu8; 65_536]?) else {
        return Err(Failure::Refused);
    };
    let (chip, Ok(())) = format(chip) else {
        return Err(Failure::Refused);
    };
    Ok(Moment {
        memory: chip.into_inner(),
        weak: vec![in alloc; 0u8; 65_536]?,
        array: Array::zeros(),
    })
}

/// Sets the bytes from a place on, so often, as far as they are there.
fn set(memory: &mut [u8], at: usize, bytes: &[u8], times: usize) {
    for (place, byte) in memory
        .iter_mut()
        .skip(at)
        .zip(bytes.iter().cycle().take(times))
    {
        *place = *byte;
    }
}

impl Base {
    /// How the session before the first loss is mounted. Where journals are tired it is plain, as
    /// by an older program: a firm mount renews them at once.
    pub fn first(self, mounting: Mounting) -> Mounting {
        match self {
            Base::Few => mounting,
            Base::Full => mounting,
            Base::Spares => mounting,
            Base::Journal => Mounting::Plain,
            Base::Journals => Mounting::Plain,
        }
    }

    /// The chip.
    pub fn moment(self, alloc: Global, mounting: Mounting) -> Result<Moment, Failure> {
        let mut life = Life::new(alloc, mounting)?;
        life.begin(&formatted(alloc)?)?;
        life.mount_as(self.first(mounting), 0)?;
        let (most, more) = match self {
            Base::Few => (10, 4u32),
            Base::Spares => (63, 7),
            Base::Full => (SECTORS, 7),
            Base::Journal => (SECTORS, 7),
            Base::Journals => (SECTORS, 7),
        };
        for sector in 0..most {
            life.call(Call::Write(sector, 1, 0x40 ^ (sector % 64) as u8), 0)?;
        }
        for k in 0..more {
            let sector = if matches!(self, Base::Spares) {
                k
            } else {
                [0, 1, 2, 5][k as usize % 4]
            };
            life.call(Call::Write(sector, 1, 0x80 | (k % 64) as u8), 0)?;
        }
        let mut moment = life.moment()?;
        if matches!(self, Base::Journal | Base::Journals) {
            // the 512 entries of J0, each the closed one of block 4
            set(
                moment.memory.as_mut_slice(),
                0x1800,
                &[0xF8, 0x04, 0x00, 0xFF],
                2_048,
            );
        }
        if matches!(self, Base::Journals) {
            // votes of J1 for J0, closed
            set(moment.memory.as_mut_slice(), 0x2400, &[0xFC], 1_021);
        }
        Ok(moment)
    }
}

/// The first sector of a call.
fn first_sector(call: Call) -> u32 {
    match call {
        Call::Write(first, _, _) | Call::Zero(first, _) => first,
        Call::Tidy => 0,
    }
}

/// Does the work of a number.
fn work(life: &mut Life, number: usize, sector: u32) -> Result<(), Failure> {
    let writes: u32 = match number {
        1 => 1,
        2 => 4,
        4 => 8,
        5 => 3,
        _ => 0,
    };
    if number == 3 {
        life.call(Call::Zero(sector, 1), 0)?;
    }
    if number == 5 {
        life.call(Call::Tidy, 0)?;
        life.call(Call::Tidy, 0)?;
    }
    for k in 0..writes {
        let other = match number {
            4 => sector.wrapping_add(1 + k) % SECTORS,
            5 => sector.wrapping_add(40 + k) % SECTORS,
            _ => sector,
        };
        life.call(Call::Write(other, 1, 0xB0 | (k % 16) as u8), 0)?;
    }
    life.read_all()
}

/// The chip once a call was lost in this change; None where it has no such change.
fn lost(
    life: &mut Life,
    base: &Moment,
    first: Mounting,
    call: Call,
    change: u32,
) -> Result<Option<Moment>, Failure> {
    life.begin(base)?;
    life.mount_as(first, 0)?;
    if life.call(call, change)? {
        return Ok(None);
    }
    Ok(Some(life.moment()?))
}

/// Three power cycles, with work after the first.
fn three_cycles(
    life: &mut Life,
    after: &Moment,
    draws: [Draw; 3],
    number: usize,
    sector: u32,
) -> Result<(), Failure> {
    life.begin(after)?;
    let [first, second, third] = draws;
    life.look(first)?;
    work(life, number, sector)?;
    life.look(second)?;
    life.look(third)
}

/// The chip once a call was lost in each of its changes, in order.
pub fn all_lost(
    alloc: Global,
    life: &mut Life,
    base: &Moment,
    first: Mounting,
    call: Call,
) -> Result<Vec<Moment>, Failure> {
    let mut moments = Vec::new(alloc);
    for change in 1..MOST_CHANGES {
        let Some(after) = lost(life, base, first, call, change)? else {
            break;
        };
        if moments.push(after).is_err() {
            return Err(Failure::NoMemory);
        }
    }
    Ok(moments)
}

/// All draws and works after a loss.
pub fn after_one_loss(life: &mut Life, after: &Moment, call: Call) -> Result<Runs, Failure> {
    let mut runs = Runs::none();
    for draws in DRAWS {
        for number in 0..WORKS {
            let came = three_cycles(life, after, draws, number, first_sector(call));
            runs.count(came)?;
        }
    }
    Ok(runs)
}

/// A mount by a draw that is lost in this change, and then three power cycles. Whether it was lost.
fn lost_again(
    life: &mut Life,
    after: &Moment,
    draw: Draw,
    change: u32,
    draws: [Draw; 3],
) -> Result<bool, Failure> {
    life.begin(after)?;
    life.cycle(draw)?;
    if life.mount(change)? {
        return Ok(false);
    }
    for draw in draws {
        life.look(draw)?;
    }
    Ok(true)
}

/// All losses of the mount after a loss, by three draws, each with the draws after it.
pub fn after_two_losses(life: &mut Life, after: &Moment) -> Result<Runs, Failure> {
    let mut runs = Runs::none();
    for draw in [Draw::Each(0xFF), Draw::Each(0x00), Draw::Seed(5)] {
        for change in 1..MOST_CHANGES {
            let mut is_lost = true;
            for draws in DRAWS {
                match lost_again(life, after, draw, change, draws) {
                    Ok(true) => runs.count(Ok(()))?,
                    Ok(false) => {
                        is_lost = false;
                        break;
                    }
                    Err(failure) => runs.count(Err(failure))?,
                }
            }
            if !is_lost {
                break;
            }
        }
    }
    Ok(runs)
}
