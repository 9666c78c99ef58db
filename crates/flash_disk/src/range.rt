//! Reading, writing and zeroing of whole sectors of a map, one after the other. Of a map that was
//! mounted firmly from a memory that was fit for it, the first loss of power leaves each sector of
//! a range old or new at each later power-on, however the torn bits read then (`firmly`).

ghost use Rattle.std.specs.Prelude.{◌≡◌, ◌+◌, ◌*◌, ◌%◌, ◌≤◌, length, OnOk, IfErr, replicate};
ghost use Rattle.std.specs.Result.{IsErrOf};
ghost use Rattle.chip_model.specs.Geometry.{IsChipSize};
ghost use Rattle.nor_driver.specs.State.{IsNorReady, OnlyMemoryChanges, bits_in};
ghost use Rattle.erase_journal.specs.Blocks.{SameChip};
ghost use Rattle.erase_journal.specs.Steps.{RefusesFirmly};
ghost use Rattle.sector_slots.specs.Slots.{IsClean};
ghost use Rattle.block_device.specs.Contents.{bytes_at, replaced, Outcome};
ghost use Rattle.sector_map.specs.Losses.{WhileFirm};
ghost use Rattle.sector_map.specs.Maps.{IsLaidOut};
ghost use Rattle.flash_disk.specs.Contents.{AtEachDraw, contents_of};

use block_device::SECTOR_LEN;
use nor_driver::{Nor, NorError};
use sector_map::{Provenance, SectorMap};

/// Writes whole sectors from the sector `first` on, upwards.
#[tactic(auto, using(crate::proofs::Calls::calls_since))]
pub fn write_sectors<N: Nor, P: Provenance>(
    map: &mut SectorMap<N, P>,
    first: u32,
    from: &[u8],
) -> Result<(), NorError>
    requires ready { IsNorReady map.old }
    requires whole { length from.now % 512 ≡ 0 }
    requires range { 512 * first + length from.now ≤ length (contents_of map.old.memory) }
    requires chip { IsChipSize (length map.old.memory) }
    ensures ok { OnOk result (IsClean map.old.memory
        → contents_of map.new.memory ≡ replaced (contents_of map.old.memory) (512 * first)
        from.now) }
    ensures cut { IsErrOf result NorError.Cut → IsClean map.old.memory
        → Outcome (contents_of map.old.memory)
        (replaced (contents_of map.old.memory) (512 * first) from.now)
        (contents_of map.new.memory) }
    ensures clean { OnOk result (IsClean map.old.memory → IsClean map.new.memory) }
    ensures cut_clean { IsErrOf result NorError.Cut → IsClean map.old.memory
        → IsClean map.new.memory }
    ensures size { length map.new.memory ≡ length map.old.memory }
    ensures chip { OnOk result (SameChip map.old.memory map.new.memory) }
    ensures cut_chip { IsErrOf result NorError.Cut → SameChip map.old.memory map.new.memory }
    ensures firmly { WhileFirm P.firm P.cuts P.slows map.old
        (IsErrOf result NorError.Cut → IsClean map.old.memory → IsLaidOut map.old.memory
        → AtEachDraw (bits_in map.new)
        (Outcome (contents_of map.old.memory)
        (replaced (contents_of map.old.memory) (512 * first) from.now))) }
    ensures kept { OnOk result (OnlyMemoryChanges map.old map.new) }
    ensures fails { IfErr result (λ e. RefusesFirmly e map.old map.new) }
{
    let mut done = 0usize;
    while done < from.len() {
        let sector = first as usize + done / SECTOR_LEN;
        map.replace(sector as u16, &from[done..done + SECTOR_LEN])?;
        done += SECTOR_LEN;
    }
    Ok(())
}

/// Writes zeros over whole sectors from the sector `first` on, upwards.
#[tactic(auto, using(crate::proofs::Calls::calls_since))]
pub fn zero_sectors<N: Nor, P: Provenance>(
    map: &mut SectorMap<N, P>,
    first: u32,
    count: u32,
) -> Result<(), NorError>
    requires ready { IsNorReady map.old }
    requires range { 512 * first + 512 * count ≤ length (contents_of map.old.memory) }
    requires chip { IsChipSize (length map.old.memory) }
    ensures ok { OnOk result (IsClean map.old.memory
        → contents_of map.new.memory ≡ replaced (contents_of map.old.memory) (512 * first)
        (replicate (512 * count) 0)) }
    ensures cut { IsErrOf result NorError.Cut → IsClean map.old.memory
        → Outcome (contents_of map.old.memory)
        (replaced (contents_of map.old.memory) (512 * first) (replicate (512 * count) 0))
        (contents_of map.new.memory) }
    ensures clean { OnOk result (IsClean map.old.memory → IsClean map.new.memory) }
    ensures cut_clean { IsErrOf result NorError.Cut → IsClean map.old.memory
        → IsClean map.new.memory }
    ensures size { length map.new.memory ≡ length map.old.memory }
    ensures chip { OnOk result (SameChip map.old.memory map.new.memory) }
    ensures cut_chip { IsErrOf result NorError.Cut → SameChip map.old.memory map.new.memory }
    ensures firmly { WhileFirm P.firm P.cuts P.slows map.old
        (IsErrOf result NorError.Cut → IsClean map.old.memory → IsLaidOut map.old.memory
        → AtEachDraw (bits_in map.new)
        (Outcome (contents_of map.old.memory)
        (replaced (contents_of map.old.memory) (512 * first) (replicate (512 * count) 0)))) }
    ensures kept { OnOk result (OnlyMemoryChanges map.old map.new) }
    ensures fails { IfErr result (λ e. RefusesFirmly e map.old map.new) }
{
    let mut done = 0u32;
    while done < count {
        map.clear((first + done) as u16)?;
        done += 1;
    }
    Ok(())
}

/// Reads whole sectors from the sector `first` on.
#[tactic(auto, using(crate::proofs::Calls::calls_since))]
pub fn read_sectors<N: Nor, P: Provenance>(
    map: &mut SectorMap<N, P>,
    first: u32,
    into: &mut [u8],
) -> Result<(), NorError>
    requires ready { IsNorReady map.old }
    requires whole { length into.old % 512 ≡ 0 }
    requires range { 512 * first + length into.old ≤ length (contents_of map.old.memory) }
    requires chip { IsChipSize (length map.old.memory) }
    ensures ok { OnOk result (into.new
        ≡ bytes_at (contents_of map.old.memory) (512 * first) (length into.old)) }
    ensures same { map.new.memory ≡ map.old.memory }
    ensures firmly { WhileFirm P.firm P.cuts P.slows map.old
        (IsErrOf result NorError.Cut → IsClean map.old.memory → IsLaidOut map.old.memory
        → AtEachDraw (bits_in map.new) (λ later. later ≡ contents_of map.old.memory)) }
    ensures kept { OnOk result (OnlyMemoryChanges map.old map.new) }
    ensures fails { IfErr result (λ e. RefusesFirmly e map.old map.new) }
{
    let mut done = 0usize;
    while done < into.len() {
        let sector = first as usize + done / SECTOR_LEN;
        map.find(sector as u16, &mut into[done..done + SECTOR_LEN])?;
        done += SECTOR_LEN;
    }
    Ok(())
}
