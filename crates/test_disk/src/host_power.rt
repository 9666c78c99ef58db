//! What an image and its log hold where a call on one of the files fails, or the host loses its
//! power, whose medium gets the files' changes in an order of its own (docs/POWER.md). The next
//! start is judged by a plain array.

ghost use Rattle.std.specs.Prelude.{◌≡◌, ◌<◌, IfOk, length};
ghost use Rattle.block_device.specs.Facts.{IsDiskReady};
ghost use Rattle.chip_model.specs.Geometry.{IsChipSize};

use crate::host::{Both, Host, HostFiles};
use crate::past::{Command, Fills, Past, drawn};
use crate::writes::put;
use block_device::{Disk, DiskError};
use chip_model::is_chip_size;
use chip_simulator::PromptChip;
use disk_log::{LoggedDisk, Sum, begin_anew};
use flash_disk::FlashDisk;
use norbd_image::{LogError, MemoryDisk, chip_in, formatted_image, settle_log};
use std::alloc::Global;
use std::marker::Brand;
use std::sync::ledger::{Blank, Ledger};
use std::sync::{Mutex, Wait};
use std::test::*;
use test_kit::Dice;

/// How many sectors the disk has.
const SECTORS: u32 = 70;

/// What a life does.
#[derive(Clone, Copy)]
enum Plan {
    /// 24 steps of all kinds.
    Mixed,
    /// WRITEs of 4 KiB, more than the log of 64 KiB takes; the host may lose its power from one of
    /// the last before it is full.
    Fills,
}

/// Does a command.
fn done<D: Disk>(disk: &mut D, command: Command) -> Result<Result<(), DiskError>, Fail> {
    let Command { first, count, fill } = command;
    let all = disk.sectors();
    if count > all || first > all - count {
        return Err(Fail::new("no sectors of the disk"));
    }
    if fill == 0 {
        return Ok(disk.zero(first, count));
    }
    let bytes = [fill; 4_096];
    match bytes.get(..512usize.saturating_mul(count as usize)) {
        Some(bytes) => put(disk, first, bytes),
        None => Err(Fail::new("more than eight sectors")),
    }
}

/// What fills these sectors.
fn fills_of(all: &[u8]) -> Result<Fills, Fail> {
    let mut fills = [0u8; 70];
    for (sector, fill) in all.chunks(512).zip(fills.iter_mut()) {
        let first = sector.first().copied().unwrap_or(0);
        if sector.iter().any(|&byte| byte != first) {
            return Err(Fail::new("a sector is half written"));
        }
        *fill = first;
    }
    Ok(fills)
}

/// The disk on a chip with these bytes.
fn mounted(alloc: Global, bytes: Vec<u8>) -> Result<FlashDisk<PromptChip, Brand>, Fail>
    ensures { IfOk result (λ disk.
        IsDiskReady (⟦<FlashDisk<PromptChip, Brand> as Disk>⟧.facts disk)) }
{
    let Ok(disk) = FlashDisk::<_, Brand>::mount(alloc, PromptChip::new(bytes)?) else {
        return Err(Fail::new("not mounted"));
    };
    Ok(disk)
}

/// What fills the sectors of the chip that both files hold.
fn fills_in(alloc: Global, both: Both) -> Result<Fills, Fail> {
    if !is_chip_size(both.image.len() as u64) {
        return Err(Fail::new("the image has another size"));
    }
    let Ok(joined) = chip_in(alloc, both.image, both.log.as_slice()) else {
        return Err(Fail::new("the files are refused"));
    };
    let mut disk = mounted(alloc, joined.bytes)?;
    if !disk.check()? || disk.sectors() != SECTORS {
        return Err(Fail::new("another disk"));
    }
    let mut all = [0u8; 35_840];
    disk.read(0, &mut all)?;
    fills_of(&all)
}

/// Settles the log of a host, as a start does; whether no call failed.
fn settled<R: Wait + AllocGlobal>(rt: &R, host: &Mutex<Host>) -> Result<bool, Fail> {
    let Both { image, log } = host.lock(rt).both()?;
    if !is_chip_size(image.len() as u64) {
        return Err(Fail::new("the image has another size"));
    }
    let (_, settled) = settle_log(rt.alloc(), HostFiles::new(rt, host), image, log.as_slice());
    match settled {
        Ok(()) => Ok(true),
        Err(LogError::Failed) => Ok(false),
        Err(_) => Err(Fail::new("a start refuses the files")),
    }
}

/// Judges what losses since the last such call left, by a start on each.
fn judge_losses<R: Wait + AllocGlobal>(
    rt: &R,
    host: &Mutex<Host>,
    past: &mut Past,
) -> Result<(), Fail> {
    let alloc = rt.alloc();
    for left in host.lock(rt).take_left() {
        let other = Mutex::new(Host::new(alloc, &left)?);
        if !settled(rt, &other)? {
            return Err(Fail::new("a call failed"));
        }
        let both = other.lock(rt).both()?;
        past.lose(fills_in(alloc, both)?)?;
    }
    Ok(())
}

/// A disk on a chip in memory.
type InMemory = MemoryDisk<PromptChip, Brand>;

/// A life of a server on the files of a host: it starts, and makes the steps of a plan, or fewer
/// where a call fails.
fn live<R: Wait + AllocGlobal>(
    rt: &R,
    host: &Mutex<Host>,
    plan: Plan,
    past: &mut Past,
    dice: &mut Dice,
) -> Result<(), Fail> {
    let alloc = rt.alloc();
    let settles = settled(rt, host)?;
    judge_losses(rt, host, past)?;
    if !settles {
        return Ok(());
    }
    let Both { image, .. } = host.lock(rt).both()?;
    if !is_chip_size(image.len() as u64) {
        return Err(Fail::new("the image has another size"));
    }
    let mut files = HostFiles::new(rt, host);
    let Ok(sum) = begin_anew(&mut files, image.as_slice()) else {
        return Ok(());
    };
    let disk = MemoryDisk::new(mounted(alloc, image.as_slice().to_vec(alloc)?)?);
    let blank = Blank::new(1);
    serve::<_, Brand>(rt, host, disk, files, image, sum, blank, plan, past, dice)
}

/// Makes the steps on a disk with its log; `L` names what is lost.
fn serve<R: Wait + AllocGlobal, L: Ledger>(
    rt: &R,
    host: &Mutex<Host>,
    disk: InMemory,
    files: HostFiles<'_, R>,
    image: Vec<u8>,
    sum: Sum,
    blank: Blank,
    plan: Plan,
    past: &mut Past,
    dice: &mut Dice,
) -> Result<(), Fail>
    requires name { (blank.name ≡ L.name) × (blank.parts ≡ L.parts) × (0 < L.parts) }
    requires ready { IsDiskReady (⟦<InMemory as Disk>⟧.facts disk) }
    requires size { IsChipSize (length image.items) }
{
    let mut logged = LoggedDisk::<_, _, L>::new(rt.alloc(), disk, files, image, sum, blank);
    let steps = match plan {
        Plan::Mixed => 24u32,
        Plan::Fills => 70,
    };
    for number in 0..steps {
        let goes_on = match plan {
            Plan::Mixed => step(rt, host, &mut logged, number, past, dice)?,
            Plan::Fills => fill(rt, host, &mut logged, number, past, dice)?,
        };
        judge_losses(rt, host, past)?;
        if !goes_on {
            break;
        }
    }
    Ok(())
}

/// The step with this number: a FLUSH, a tidying, a settling, or a command by dice. Whether no call
/// failed.
fn step<R: Wait + AllocGlobal, L: Ledger>(
    rt: &R,
    host: &Mutex<Host>,
    disk: &mut LoggedDisk<InMemory, HostFiles<'_, R>, L>,
    number: u32,
    past: &mut Past,
    dice: &mut Dice,
) -> Result<bool, Fail> {
    match number % 8 {
        3 => flush(rt, host, disk, past),
        5 => Ok(disk.tidy().is_ok()),
        7 => Ok(disk.settle().is_ok()),
        _ => make(disk, drawn(dice), past),
    }
}

/// The step with this number of a life that fills the log.
fn fill<R: Wait + AllocGlobal, L: Ledger>(
    rt: &R,
    host: &Mutex<Host>,
    disk: &mut LoggedDisk<InMemory, HostFiles<'_, R>, L>,
    number: u32,
    past: &mut Past,
    dice: &mut Dice,
) -> Result<bool, Fail> {
    if number == 62 {
        host.lock(rt).lose(11);
        return flush(rt, host, disk, past);
    }
    let command = Command {
        first: dice.below(62),
        count: 8,
        fill: dice.below(255).saturating_add(1) as u8,
    };
    make(disk, command, past)
}

/// A FLUSH. Whether no call failed.
fn flush<R: Wait + AllocGlobal, L: Ledger>(
    rt: &R,
    host: &Mutex<Host>,
    disk: &mut LoggedDisk<InMemory, HostFiles<'_, R>, L>,
    past: &mut Past,
) -> Result<bool, Fail> {
    let flushes = disk.flush().is_ok() && HostFiles::flush(rt, host).is_ok();
    judge_losses(rt, host, past)?;
    if flushes {
        past.flush()?;
    }
    Ok(flushes)
}

/// Makes a command. Whether no call failed.
fn make<D: Disk>(disk: &mut D, command: Command, past: &mut Past) -> Result<bool, Fail> {
    past.begin(command)?;
    if done(disk, command)?.is_err() {
        return Ok(false);
    }
    past.end(command);
    Ok(true)
}

/// An image of a formatted chip, without a log.
fn fresh(alloc: Global) -> Result<Both, Fail> {
    let Ok(image) = formatted_image(alloc, 64) else {
        return Err(Fail::new("no image"));
    };
    Ok(Both {
        image,
        log: Vec::new(alloc),
    })
}

/// A life in which a call fails behind so many, after so many of its bytes: it leaves what was
/// acknowledged. Whether one failed.
fn outlive<R: Wait + AllocGlobal>(
    rt: &R,
    host: &Mutex<Host>,
    past: &mut Past,
    dice: &mut Dice,
    behind: u32,
    bytes: usize,
) -> Result<bool, Fail> {
    host.lock(rt).fail_in(behind, bytes);
    live(rt, host, Plan::Mixed, past, dice)?;
    let left = host.lock(rt).both()?;
    past.kill(fills_in(rt.alloc(), left)?)?;
    Ok(host.lock(rt).has_failed())
}

/// Three lives: in the first a call fails behind so many, in the second one that is by dice, and
/// may be of its start, in the third none. Whether the first failed.
fn fail<R: Wait + AllocGlobal>(
    rt: &R,
    files: &Both,
    behind: u32,
    bytes: usize,
) -> Result<bool, Fail> {
    let host = Mutex::new(Host::new(rt.alloc(), files)?);
    let mut past = Past::new(rt.alloc())?;
    let mut dice = Dice::new(7);
    let failed = outlive(rt, &host, &mut past, &mut dice, behind, bytes)?;
    let second = dice.below(24);
    outlive(rt, &host, &mut past, &mut dice, second, bytes)?;
    outlive(rt, &host, &mut past, &mut dice, u32::MAX, bytes)?;
    Ok(failed)
}

#[test]
fn each_call_that_fails_loses_nothing_acknowledged(rt: HostRuntime) -> Result<(), Fail> {
    let files = fresh(rt.alloc())?;
    for bytes in [0usize, 1, 17, 600, 4_000] {
        let mut calls = 0u32;
        for call in 0..200u32 {
            if !fail(&rt, &files, call, bytes)? {
                break;
            }
            calls = call;
        }
        assert!(rt; calls > 60 && calls < 199, "{calls} calls");
    }
    Ok(())
}

#[test]
fn what_was_flushed_outlives_the_power_of_the_host(rt: HostRuntime) -> Result<(), Fail> {
    let host = Mutex::new(Host::new(rt.alloc(), &fresh(rt.alloc())?)?);
    let mut past = Past::new(rt.alloc())?;
    let mut dice = Dice::new(9);
    host.lock(&rt).lose(5);
    for _life in 0..120u32 {
        let (behind, bytes) = (dice.below(60), dice.below(5_000) as usize);
        outlive(&rt, &host, &mut past, &mut dice, behind, bytes)?;
    }
    assert!(rt; past.losses > 10_000, "{} losses", past.losses);
    Ok(())
}

#[test]
fn a_log_that_is_full_is_settled_before_the_next_record(rt: HostRuntime) -> Result<(), Fail> {
    let files = fresh(rt.alloc())?;
    let host = Mutex::new(Host::new(rt.alloc(), &files)?);
    let mut past = Past::new(rt.alloc())?;
    live(&rt, &host, Plan::Fills, &mut past, &mut Dice::new(3))?;
    let Both { image, log } = host.lock(&rt).both()?;
    assert!(rt; image.as_slice() != files.image.as_slice());
    let zeros = log.iter().rev().take_while(|byte| **byte == 0).count();
    assert!(rt; log.len() - zeros < 65_536);
    past.kill(fills_in(rt.alloc(), Both { image, log })?)?;
    assert!(rt; past.losses > 100, "{} losses", past.losses);
    Ok(())
}
