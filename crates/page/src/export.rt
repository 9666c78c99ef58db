//! What a page calls.

ghost use Rattle.std.specs.Prelude.{◌≡◌, ◌≢◌, ◌*◌, ◌/◌, ◌<◌, ◌≤◌, ◌==◌, ◌↔◌, ℕ, true, false, not};
ghost use Rattle.std.specs.Prelude.{IfSome, length, replicate, if◌then◌else◌};
ghost use Rattle.flash_disk.specs.Formatted.{Formatted};
ghost use Rattle.flash_disk.specs.Contents.{contents_of};
ghost use Rattle.chip_simulator.specs.Sim.{chip_of};
ghost use Rattle.block_device.specs.Facts.{CountsNeverFall};
ghost use Rattle.page.specs.Story.{has_lengths, Plays};

use crate::play::play;
use crate::step::Power;
use crate::tape::{TAPE_LEN, Taped};
use block_device::Disk;
use flash_disk::{FlashDisk, MountError, Provenance, format};
use std::alloc::Global;
use std::marker::Brand;

/// The bytes of the chip.
const CHIP_LEN: usize = 65_536;

/// The bytes of its sectors.
const DISK_LEN: usize = 35_840;

/// What is told of a play. Source: own.
#[repr(C)]
#[derive(Clone, Copy, Drop)]
pub struct Told {
    /// 1 where the script was played, 0 where a buffer has a wrong length, 2 where there is no
    /// memory for the chip, its disk or its tape. 3 where the power was lost and no step had armed
    /// that, or an operation of the chip didn't end.
    pub made: u32,
    /// How many rows of frames there are, the format's and the mount's too.
    pub rows: u32,
    /// 1 where the sectors were read in the end, and 0 where the power was off.
    pub read: u32,
}

/// Nothing was played, for this reason.
fn not_played(made: u32) -> Told
    ensures { result.made ≡ made }
{
    Told {
        made,
        rows: 0,
        read: 0,
    }
}

/// Plays a script on a chip of 64 KiB that is formatted first.
///
/// `answers` takes the answer of each step, `image` the chip's memory as the script leaves it,
/// `contents` the sectors, where the power is on then, and `frames` what went over the bus, a row
/// of eight bytes for each frame, with an arming of kind 255 before each step and behind the last.
#[unsafe(no_mangle)]
pub extern "C" fn page_play(
    alloc: Global,
    script: &[u8],
    answers: &mut [u8],
    image: &mut [u8],
    contents: &mut [u8],
    frames: &mut [u8],
    told: &mut Told,
)
    ensures lengths { (told.new.made == 0)
        ≡ not (has_lengths script.now answers.old image.old contents.old frames.old) }
    ensures played { told.new.made ≡ 1 → Plays script.now answers.new image.new contents.new
        frames.new told.new.rows told.new.read }
    ensures ends { told.new.made ≤ 3 }
{
    if !has_lengths(script, answers, image, contents, frames) {
        *told = not_played(0);
        return;
    }
    *told = play_new(alloc, script, answers, image, contents, frames);
}

/// Whether the buffers have the lengths that a play takes.
fn has_lengths(script: &[u8], answers: &[u8], image: &[u8], contents: &[u8], frames: &[u8]) -> bool
    ensures { result ≡ has_lengths script.now answers.now image.now contents.now frames.now }
{
    answers.len() <= 4096
        && script.len() == 8 * answers.len()
        && image.len() == CHIP_LEN
        && contents.len() == DISK_LEN
        && frames.len() == TAPE_LEN
}

/// Plays a script on a new chip.
fn play_new(
    alloc: Global,
    script: &[u8],
    answers: &mut [u8],
    image: &mut [u8],
    contents: &mut [u8],
    frames: &mut [u8],
) -> Told
    requires { has_lengths script.now answers.old image.old contents.old frames.old ≡ true }
    ensures played { result.made ≡ 1 → Plays script.now answers.new image.new contents.new
        frames.new result.rows result.read }
    ensures some { result.made ≢ 0 }
    ensures ends { result.made ≤ 3 }
{
    let Some(bus) = Taped::new(alloc) else {
        return not_played(2);
    };
    let (bus, formatted) = format(bus);
    match formatted {
        Ok(()) => play_mounted::<Brand>(alloc, bus, script, answers, image, contents, frames),
        Err(_) => not_played(3),
    }
}

/// Reads all sectors where the power is on: 1, and 0 where it is off. None where the reading failed
/// though it was on.
fn read_all<D: Disk>(disk: &mut D, contents: &mut [u8], power: Power) -> Option<u32>
    requires room { length contents.old ≡ 35840 }
    requires size { length (D.facts disk.old).contents ≡ 35840 }
    requires sound { (D.facts disk.old).sound ≡ true }
    requires on { power.on ≡ not (D.facts disk.old).cut }
    ensures read { IfSome result (λ read. read ≡ 1 → contents.new ≡ (D.facts disk.old).contents) }
    ensures power { IfSome result (λ read. read ≡ (if power.on then 1 else 0)) }
    ensures kept { IfSome result (λ read.
        (D.facts disk.new).contents ≡ (D.facts disk.old).contents) }
    ensures size { length contents.new ≡ length contents.old }
    ensures goes { CountsNeverFall (D.facts disk.old) (D.facts disk.new) }
{
    if !power.on {
        return Some(0);
    }
    match disk.read(0, contents) {
        Ok(()) => Some(1),
        Err(_) => None,
    }
}

/// Plays a script on a chip that was just formatted.
fn play_mounted<P: Provenance>(
    alloc: Global,
    bus: Taped,
    script: &[u8],
    answers: &mut [u8],
    image: &mut [u8],
    contents: &mut [u8],
    frames: &mut [u8],
) -> Told
    requires sound { P.sound ≡ true }
    requires plainly { P.firm ≡ false }
    requires counted { P.slows ≡ 0 }
    requires formatted { Formatted (chip_of bus.chip) }
    requires size { length (chip_of bus.chip).memory ≡ 65536 }
    requires lengths { has_lengths script.now answers.old image.old contents.old frames.old
        ≡ true }
    ensures played { result.made ≡ 1 → Plays script.now answers.new image.new contents.new
        frames.new result.rows result.read }
    ensures some { result.made ≢ 0 }
    ensures ends { result.made ≤ 3 }
{
    let mut disk = match FlashDisk::<Taped, P>::mount(alloc, bus) {
        Ok(disk) => disk,
        Err((_bus, MountError::OutOfMemory)) => return not_played(2),
        Err(_) => return not_played(3),
    };
    let Some(power) = play(&mut disk, script, answers) else {
        return not_played(3);
    };
    // no loss is armed any more
    disk.arm(0, 0, 0);
    let Some(read) = read_all(&mut disk, contents, power) else {
        return not_played(3);
    };
    let bus = disk.into_inner();
    image.copy_from_slice(bus.memory());
    frames.copy_from_slice(bus.rows());
    Told {
        made: 1,
        rows: bus.count(),
        read,
    }
}
