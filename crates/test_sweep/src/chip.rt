//! The chips of the sweep, and the product: a station over the disk on such a chip.

ghost use Rattle.std.specs.Prelude.{◌≡◌, ◌<◌};

use crate::failure::Failure;
use block_device::{FixedIn, FixedOut};
use chip_simulator::SimChip;
use flash_disk::{FlashDisk, format};
use nbd_station::Station;
use std::alloc::Global;
use std::marker::Brand;
use std::sync::ledger::{Blank, Ledger};

/// The disk on a simulated chip.
pub type OnSim = FlashDisk<SimChip, Brand>;

/// A chip of 64 KiB.
#[derive(Clone, Copy)]
pub enum Chip {
    /// As the format leaves it.
    Plain,
    /// All entries of J0 are used, and all but three votes of J1 for J0: the next erase renews
    /// both.
    Prepared,
    /// As the format leaves it, and its wear is levelled.
    Level,
}

impl Chip {
    /// The chip of a name.
    pub fn named(name: &str) -> Option<Chip> {
        match name {
            "plain" => Some(Chip::Plain),
            "prepared" => Some(Chip::Prepared),
            "level" => Some(Chip::Level),
            _ => None,
        }
    }

    /// Its name.
    pub fn name(self) -> &'static str {
        match self {
            Chip::Plain => "plain",
            Chip::Prepared => "prepared",
            Chip::Level => "level",
        }
    }

    /// Its memory.
    pub fn memory(self, alloc: Global) -> Result<Vec<u8>, Failure> {
        let Ok(chip) = SimChip::new(vec![in alloc; 0xFFu8; 65_536]?) else {
            return Err(Failure::Refused);
        };
        let (chip, Ok(())) = format(chip) else {
            return Err(Failure::Refused);
        };
        let mut memory = chip.into_inner();
        if matches!(self, Chip::Prepared) {
            // the 512 entries of J0, each the closed one of block 4
            for k in 0..512usize {
                set(
                    memory.as_mut_slice(),
                    0x1800 + 4 * k,
                    &[0xF8, 0x04, 0x00, 0xFF],
                );
            }
            // votes of J1 for J0, closed
            for k in 0..1_021usize {
                set(memory.as_mut_slice(), 0x2400 + k, &[0xFC]);
            }
        }
        Ok(memory)
    }
}

/// Sets the bytes from a place on, as far as they are there.
fn set(memory: &mut [u8], at: usize, bytes: &[u8]) {
    let mut at = at;
    for byte in bytes {
        if let Some(place) = memory.get_mut(at) {
            *place = *byte;
        }
        at = at.saturating_add(1);
    }
}

/// A station over the disk on such a chip with this memory.
pub fn started(alloc: Global, chip: Chip, memory: &[u8]) -> Result<Station<OnSim>, Failure> {
    let is_level = matches!(chip, Chip::Level);
    let Ok(chip) = SimChip::new(memory.to_vec(alloc)?) else {
        return Err(Failure::Refused);
    };
    let mount: Result<OnSim, _> = FlashDisk::mount(alloc, chip);
    let Ok(mut disk) = mount else {
        return Err(Failure::Refused);
    };
    if is_level {
        disk.level_wear();
    }
    let Ok(station) = Station::new(alloc, disk) else {
        return Err(Failure::NoMemory);
    };
    Ok(station)
}

/// Runs a script on a station, and gives its transcript in the room.
pub fn told<'a>(
    station: &mut Station<OnSim>,
    script: &[u8],
    room: &'a mut [u8],
) -> Result<&'a [u8], Failure> {
    let len = told_to::<Brand>(station, script, room, Blank::new(1))?;
    room.get(..len).ok_or(Failure::Script)
}

fn told_to<L: Ledger>(
    station: &mut Station<OnSim>,
    script: &[u8],
    room: &mut [u8],
    blank: Blank,
) -> Result<usize, Failure>
    requires name { blank.name ≡ L.name }
    requires parts { blank.parts ≡ L.parts }
    requires some { 0 < L.parts }
{
    let mut out = FixedOut::<L>::new(room, blank);
    match station.run_script(&mut FixedIn::new(script), &mut out) {
        Ok(()) => Ok(out.bytes().len()),
        Err(_) => Err(Failure::Script),
    }
}
