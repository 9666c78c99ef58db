//! How many slots are free.

ghost use Rattle.std.specs.Prelude.{◌≡◌, ◌*◌, ◌<◌, ◌≤◌, ℕ, List, length};
ghost use Rattle.sector_slots.specs.Slots.{slot_at, kind_at, data_blocks};
ghost use Rattle.sector_stock.specs.Index.{IsListed};
ghost use Rattle.sector_stock.specs.IndexSteps.{free_below};
ghost use Rattle.sector_stock.specs.Takes.{is_short};
ghost use Rattle.sector_stock.specs.declared.index.SlotState.{SlotState as SlotStateOf};

use crate::index::BlockState;
use nor_layout::SLOTS;

/// How many slots the blocks have free.
fn count_free_slots(blocks: &[BlockState]) -> u32
    requires size { length blocks.now < 65536 }
    ensures counted { result ≡ free_below blocks.now (length blocks.now) }
    ensures most { result ≤ 255 * length blocks.now }
{
    let mut count = 0;
    for block in 0..blocks.len() {
        count += blocks[block].free as u32;
    }
    count
}

/// Whether fewer than an eighth of the slots beyond those that the sectors need are free, the
/// reserve's not counted. Source: own.
pub fn is_short(blocks: &[BlockState]) -> bool
    requires size { length blocks.now < 65536 }
    requires least { 8 ≤ length blocks.now }
    ensures { (slots : List SlotStateOf) (m : List ℕ)
        → IsListed slots blocks.now (slot_at m) (kind_at m) (data_blocks m)
        → result ≡ is_short m }
{
    let slots = SLOTS as u32;
    let count = blocks.len() as u32;
    let spare = slots * count - slots - slots * (7 * count / 8);
    let free = count_free_slots(blocks);
    8 * free.saturating_sub(slots) < spare
}
