//! The memory of chips of 64 KiB, the stations on them, and what these write.

ghost use Rattle.std.specs.Prelude.{◌≡◌, ◌<◌};

use block_device::{FixedIn, FixedOut};
use chip_simulator::SimChip;
use flash_disk::{FlashDisk, format};
use nbd_station::{ScriptError, Station};
use std::alloc::Global;
use std::marker::Brand;
use std::sync::ledger::{Blank, Ledger};
use std::test::Fail;

/// A disk on a simulated chip.
pub type OnSim = FlashDisk<SimChip, Brand>;

/// The memory of a chip of which each byte is this one.
pub fn filled(alloc: Global, byte: u8) -> Result<Vec<u8>, Fail> {
    Ok(vec![in alloc; byte; 65_536]?)
}

/// A formatted chip.
pub fn formatted(alloc: Global) -> Result<SimChip, Fail> {
    let (chip, answer) = format(SimChip::new(filled(alloc, 0xFF)?)?);
    answer?;
    Ok(chip)
}

/// Sets the bytes from a place on to copies of these. Fails at a place past the chip.
pub fn set(memory: &mut [u8], at: usize, copies: usize, bytes: &[u8]) -> Result<(), Fail> {
    for k in 0..copies.saturating_mul(bytes.len()) {
        let Some(byte) = memory.get_mut(at.saturating_add(k)) else {
            return Err(Fail::new("a place past the chip"));
        };
        *byte = bytes[k % bytes.len()];
    }
    Ok(())
}

/// How many of the bytes from a place up to another are this one.
pub fn count(memory: &[u8], from: usize, to: usize, byte: u8) -> usize {
    let mut n = 0usize;
    for at in from..to {
        if memory.get(at) == Some(&byte) {
            n = n.saturating_add(1);
        }
    }
    n
}

/// A chip with this memory whose `cut`-th change is cut, 0 for none; a cut change leaves what
/// `mask` says.
pub fn armed(alloc: Global, memory: &[u8], cut: u32, mask: u8) -> Result<SimChip, Fail> {
    let mut copy = Vec::new(alloc);
    copy.extend_from_slice(memory)?;
    let mut chip = SimChip::new(copy)?;
    chip.arm_cut(cut, 1, mask);
    Ok(chip)
}

/// The disk on a chip.
pub fn mounted(alloc: Global, chip: SimChip) -> Result<OnSim, Fail> {
    match FlashDisk::mount(alloc, chip) {
        Ok(disk) => Ok(disk),
        Err((_chip, _error)) => Err(Fail::new("not mounted")),
    }
}

/// A station over a disk.
fn station_over(alloc: Global, disk: OnSim) -> Result<Station<OnSim>, Fail> {
    let Ok(station) = Station::new(alloc, disk) else {
        return Err(Fail::new("no memory"));
    };
    Ok(station)
}

/// A station over the disk on a chip.
pub fn started(alloc: Global, chip: SimChip) -> Result<Station<OnSim>, Fail> {
    station_over(alloc, mounted(alloc, chip)?)
}

/// A station over the disk on a chip whose blocks wear alike.
pub fn started_level(alloc: Global, chip: SimChip) -> Result<Station<OnSim>, Fail> {
    let mut disk = mounted(alloc, chip)?;
    disk.level_wear();
    station_over(alloc, disk)
}

/// Runs a script on a station: how it ends, and how many bytes of the room the transcript takes.
pub fn told(
    station: &mut Station<OnSim>,
    script: &[u8],
    room: &mut [u8],
) -> (Result<(), ScriptError>, usize) {
    told_to::<Brand>(station, script, room, Blank::new(1))
}

/// The same, with the failures of the transcript counted by a ledger.
fn told_to<L: Ledger>(
    station: &mut Station<OnSim>,
    script: &[u8],
    room: &mut [u8],
    blank: Blank,
) -> (Result<(), ScriptError>, usize)
    requires name { blank.name ≡ L.name }
    requires parts { blank.parts ≡ L.parts }
    requires some { 0 < L.parts }
{
    let mut out = FixedOut::<L>::new(room, blank);
    let end = station.run_script(&mut FixedIn::new(script), &mut out);
    (end, out.bytes().len())
}
