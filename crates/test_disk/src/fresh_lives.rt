//! The disk of a chip in its lives, from a format on.

ghost use Rattle.std.specs.Prelude.{◌≡◌, ◌<◌, IfSome, true, false};
ghost use Rattle.block_device.specs.Facts.{IsDiskReady};

use chip_model::SpiBus;
use erase_journal::Firmness;
use flash_disk::{FlashDisk, Provenance, format};
use restored_disk::{Habits, LifeDisk, PowerCycle};
use std::alloc::Global;
use std::sync::ledger::{Blank, Ledger};

/// Formats a chip, mounts it firmly, and makes the disk of its lives; `None` where the format or
/// the mount was refused. In each life the chip may read otherwise.
pub fn new_lives<B: PowerCycle + Drop, L: Provenance + Ledger>(
    alloc: Global,
    bus: B,
    blank: Blank,
) -> Option<LifeDisk<B, L>>
    requires name { blank.name ≡ L.name }
    requires parts { blank.parts ≡ L.parts }
    requires some { 0 < L.parts }
    requires sound { L.sound ≡ true }
    requires firm { L.firm ≡ true }
    requires cuts { L.cuts ≡ 0 }
    requires none { B.cuts bus ≡ 0 }
    requires slows { L.slows ≡ B.slows bus }
    ensures ready { IfSome result (λ d. IsDiskReady d.facts) }
    ensures sound { IfSome result (λ d. d.facts.sound ≡ true) }
    ensures mounted { IfSome result (λ d. d.refused ≡ false) }
{
    let (bus, formatted) = format(bus);
    if formatted.is_err() {
        return None;
    }
    match FlashDisk::<B, L>::mount_as(alloc, bus, Firmness::Firm) {
        Ok(disk) => Some(LifeDisk::new(
            alloc,
            disk,
            false,
            Habits {
                levels: false,
                lazy: false,
            },
            blank,
        )),
        Err(_) => None,
    }
}
