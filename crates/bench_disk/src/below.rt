//! What is measured below the disk: the driver and the map of a full chip.

ghost use Rattle.std.specs.Prelude.{◌≡◌, ◌+◌, ◌*◌, ◌%◌, ◌<◌, ◌≤◌, length};
ghost use Rattle.chip_model.specs.Geometry.{sector_count};

use crate::clock::copy;
use crate::failure::Failure;
use nor_driver::Nor;
use sector_map::SectorMap;
use std::marker::Brand;

/// The blocks of a full chip each slot of which is live: the first ones, seven sectors in each.
const FULL_BLOCKS: u32 = 3_580;

/// Where the first slot of a full block has its sector: the blocks in turn, and then from the first
/// again.
pub fn place_of(number: u32) -> u32
    ensures exact { result ≡ 4096 * (4 + number % 3580) + 512 }
    ensures within { result + 512 ≤ 16777216 }
{
    4_096 * (4 + number % FULL_BLOCKS) + 512
}

/// READs of 512 bytes of a driver, at the first slots of full blocks.
#[inline(never)]
pub fn reads<N: Nor>(driver: &mut N, count: u32, buffer: &mut [u8]) -> Result<(), Failure>
    requires size { length (N.state driver.old).memory ≡ 16777216 }
    requires bytes { length buffer.old ≡ 512 }
    ensures size { length (N.state driver.new).memory ≡ 16777216 }
    ensures bytes { length buffer.new ≡ 512 }
{
    for number in 0..count {
        driver.read(place_of(number), buffer)?;
    }
    Ok(())
}

/// `find`s of the sectors that lie there.
#[inline(never)]
pub fn finds<N: Nor>(
    map: &mut SectorMap<N, Brand>,
    count: u32,
    buffer: &mut [u8],
) -> Result<(), Failure>
    requires sectors { sector_count (length map.old.memory) ≡ 25060 }
    requires bytes { length buffer.old ≡ 512 }
    ensures sectors { sector_count (length map.new.memory) ≡ 25060 }
    ensures bytes { length buffer.new ≡ 512 }
{
    for number in 0..count {
        map.find((number % FULL_BLOCKS * 7) as u16, buffer)?;
    }
    Ok(())
}

/// Copies of the bytes of these places, from a list as large as the chip.
#[inline(never)]
pub fn slot_copies(chip: &[u8], count: u32, buffer: &mut [u8])
    requires size { length chip.now ≡ 16777216 }
    requires bytes { length buffer.old ≡ 512 }
    ensures bytes { length buffer.new ≡ 512 }
{
    for number in 0..count {
        let at = place_of(number) as usize;
        copy(&chip[at..at + 512], buffer);
    }
}
