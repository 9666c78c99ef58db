//! Chips of 16 MiB, the disks on them, an array as large, and bytes.

ghost use Rattle.std.specs.Prelude.{◌≡◌, length, IfOk, OnErr, [], ◌∷◌};

use crate::failure::Failure;
use block_device::{Disk, PlainDisk};
use chip_simulator::SimChip;
use flash_disk::{FlashDisk, format};
use std::alloc::Global;
use std::marker::Brand;

/// The disk on a simulated chip, of which nothing is known before the mount.
pub type OnSim = FlashDisk<SimChip, Brand>;

/// The bytes of the chip: 16 MiB.
pub const CHIP_BYTES: usize = 16_777_216;

/// The sectors of its disk, of 512 bytes each.
pub const SECTORS: u32 = 25_060;

/// The runs of seven sectors that it has.
const RUNS: u32 = 3_580;

/// What is on a chip.
#[derive(Clone, Copy)]
pub enum Filling {
    /// What the format leaves: no sector was written.
    Formatted,
    /// Each sector was written once.
    Full,
}

impl Filling {
    /// Each filling, in the order of the table.
    pub fn all() -> [Filling; 2]
        ensures { result ≡ Filling.Formatted ∷ Filling.Full ∷ [] }
    {
        [Filling::Formatted, Filling::Full]
    }

    /// The text of its mount in the table.
    pub fn mount_name(self) -> &'static str {
        match self {
            Filling::Formatted => "mount of a formatted chip",
            Filling::Full => "mount of a full chip",
        }
    }

    /// The text of its check in the table.
    pub fn check_name(self) -> &'static str {
        match self {
            Filling::Formatted => "check of a formatted chip",
            Filling::Full => "check of a full chip",
        }
    }
}

/// So many bytes of a value.
pub fn filled(alloc: Global, count: usize, byte: u8) -> Result<Vec<u8>, Failure>
    ensures bytes { IfOk result (λ bytes. length bytes.items ≡ count) }
    ensures refused { OnErr result (result ≡ Err Failure.NoMemory) }
{
    let mut bytes = Vec::new(alloc);
    if bytes.resize(count, byte).is_err() {
        return Err(Failure::NoMemory);
    }
    Ok(bytes)
}

/// A formatted chip.
fn formatted(alloc: Global) -> Result<SimChip, Failure> {
    let bytes = filled(alloc, CHIP_BYTES, 0xFF)?;
    let Ok(chip) = SimChip::new(bytes) else {
        return Err(Failure::Refused);
    };
    match format(chip) {
        (chip, Ok(())) => Ok(chip),
        (_chip, Err(_)) => Err(Failure::Refused),
    }
}

/// The disk on a chip; refused where it hasn't the sectors of a chip of 16 MiB.
#[inline(never)]
pub fn mounted(alloc: Global, chip: SimChip) -> Result<OnSim, Failure>
    ensures size { IfOk result (λ disk. length (⟦<OnSim as Disk>⟧.facts disk).contents ≡ 12830720) }
{
    let mount: Result<OnSim, _> = FlashDisk::mount(alloc, chip);
    let Ok(disk) = mount else {
        return Err(Failure::Refused);
    };
    if disk.sectors() != SECTORS {
        return Err(Failure::Refused);
    }
    Ok(disk)
}

/// Writes each sector once.
fn fill<D: Disk>(disk: &mut D) -> Result<(), Failure>
    requires size { length (D.facts disk.old).contents ≡ 12830720 }
    ensures size { length (D.facts disk.new).contents ≡ 12830720 }
{
    let run = [0x5Au8; 3_584];
    for number in 0..RUNS {
        disk.write(7 * number, &run)?;
    }
    Ok(())
}

/// The disk on a new chip.
pub fn new_disk(alloc: Global, filling: Filling) -> Result<OnSim, Failure>
    ensures size { IfOk result (λ disk. length (⟦<OnSim as Disk>⟧.facts disk).contents ≡ 12830720) }
{
    let mut disk = mounted(alloc, formatted(alloc)?)?;
    match filling {
        Filling::Formatted => {}
        Filling::Full => fill(&mut disk)?,
    }
    Ok(disk)
}

/// The array.
pub fn plain(alloc: Global) -> Result<PlainDisk, Failure> {
    let Ok(disk) = PlainDisk::new(alloc, SECTORS) else {
        return Err(Failure::NoMemory);
    };
    Ok(disk)
}
