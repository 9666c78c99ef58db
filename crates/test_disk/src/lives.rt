//! The first lives of a chip whose torn bits waver.

ghost use Rattle.std.specs.Prelude.{◌≡◌, ◌<◌, ℕ, true, false, IfSome, length};
ghost use Rattle.chip_model.specs.Chip.{Chip};
ghost use Rattle.flash_disk.specs.Formatted.{Formatted};
ghost use Rattle.norbd_script.specs.NextLife.{CountsLosses, EndsLives, found};
ghost use Rattle.norbd_script.specs.Running.{IsPastMount};

use block_device::{Sink, Source};
use chip_model::SpiBus;
use flash_disk::{Provenance, format};
use norbd_script::{RunFault, run_mounted};
use restored_disk::{Ended, PowerCycle};
use sector_stock::Policy;
use std::alloc::Global;
use std::sync::ledger::{Blank, Ledger};

/// Formats a chip, and runs a script in its first lives; `None` where the format was refused. What
/// the script is answered begins from a chip that was just formatted. With the chip as the next
/// power-on finds it, another life can begin.
pub fn first_lives<B: PowerCycle + Drop, L: Provenance + Ledger, S: Source, W: Sink>(
    alloc: Global,
    bus: B,
    blank: Blank,
    reader: &mut S,
    writer: &mut W,
) -> Option<(Ended<B>, Result<(), RunFault>)>
    requires name { blank.name ≡ L.name }
    requires parts { blank.parts ≡ L.parts }
    requires some { 0 < L.parts }
    requires unknown { L.sound ≡ false }
    requires firm { L.firm ≡ true }
    requires cuts { (L.cuts ≡ 0) × (B.cuts bus ≡ 0) }
    requires slows { L.slows ≡ B.slows bus }
    ensures lives { IfSome result (λ r. IsPastMount r.1 → B.slows r.0.bus ≡ B.slows bus
        → r.0.mounted ≡ true → (begun : Chip) × Formatted begun × (losses : ℕ)
        × CountsLosses L.firm B.cuts r.0.lives.items (B.cuts r.0.bus) losses × EndsLives L.firm
        (record { chip = begun; cuts = 0; slows = B.slows bus })
        (record {
          input = S.remaining reader.old;
          was = W.written writer.old;
          answer = r.1;
          left = S.remaining reader.new;
          is = W.written writer.new;
        })
        (record {
          chip = found (B.draw (length r.0.lives.items)) (B.chip r.0.bus);
          cuts = losses;
          slows = B.slows r.0.bus;
        })) }
{
    let (bus, formatted) = format(bus);
    match formatted {
        Ok(()) => Some(run_mounted::<B, L, S, W>(
            alloc,
            bus,
            false,
            blank,
            Policy::Lowest,
            reader,
            writer,
        )),
        Err(_) => None,
    }
}
