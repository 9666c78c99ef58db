//! What a firm mount leaves for later power-ons.

ghost use Rattle.std.specs.Prelude.{◌≡◌, List, ℕ, true, IfOk, IfErr};
ghost use Rattle.chip_model.specs.Wavering.{Drawn};
ghost use Rattle.nor_driver.specs.State.{bits_in};
ghost use Rattle.sector_slots.specs.Losses.{IsFirmDisk};
ghost use Rattle.sector_map.specs.Losses.{BeginsFirmly};
ghost use Rattle.sector_map.specs.Maps.{Mounted, MountFails};
ghost use Rattle.sector_slots.specs.Fit.{IsFitForFirmMount};
ghost use Rattle.firm_chip.specs.Stores.{ReadsAgain};

use erase_journal::Firmness;
use nor_driver::Nor;
use sector_map::{MapError, Provenance, SectorMap};
use std::alloc::Global;

/// Mounts a memory firmly, as `SectorMap::mount_as` does, with its errors. Of a chip that is fit
/// for it each later power-on reads of each sector what this mount found, however the weak bits are
/// drawn, until a call changes the chip; and it is fit again. So that holds after any number of
/// such mounts and power-ons. It is then the firm disk that the calls of the stock keep, all blocks
/// suspect (`disk`), and where `P.firm` says so those of the map, too.
pub fn mount_firmly<N: Nor, P: Provenance>(
    alloc: Global,
    nor: N,
) -> Result<SectorMap<N, P>, (N, MapError)>
    requires firmly { P.firm ≡ true → BeginsFirmly P.cuts P.slows Firmness.Firm (N.state nor) }
    ensures ok { IfOk result (λ map. Mounted (N.state nor) map) }
    ensures fails { IfErr result (λ e. MountFails e.1 (N.state nor) (N.state e.0)) }
    ensures again { IsFitForFirmMount (bits_in (N.state nor))
        → IfOk result (λ map. (later : List ℕ) → Drawn map.weak map.memory later
        → ReadsAgain (N.state nor).memory later
        × IsFitForFirmMount (record { shown = later; weak = map.weak })) }
    ensures disk { IsFitForFirmMount (bits_in (N.state nor))
        → IfOk result (λ map. IsFirmDisk (bits_in map) (λ c. true)) }
{
    match SectorMap::mount_as(alloc, nor, Firmness::Firm) {
        Ok(map) => Ok(map),
        Err(refused) => Err(refused),
    }
}
