//! Whether a block is wholly free, or can be made so.

ghost use Rattle.std.specs.Prelude.{◌≡◌, ◌⊎◌, ◌<◌, ℕ, Bool, true, false, IfOk, IfErr, OnOk, IsTrue};
ghost use Rattle.std.specs.Prelude.{IsFalse};
ghost use Rattle.erase_journal.specs.Steps.{RefusesFirmly, SucceedsSettled, EndsFirmly};
ghost use Rattle.sector_slots.specs.Slots.{slot_at, slot_count, data_blocks, IsSpareIn};
ghost use Rattle.sector_map.specs.Found.{FoundIn, RoomSeen};
ghost use Rattle.sector_map.specs.Mending.{IsMixedPair};
ghost use Rattle.sector_map.specs.Table.{IsTabled};
ghost use Rattle.sector_survey.specs.Findings.{HasNoRoom};

use nor_driver::NorError;
use sector_map::{Found, LiveSlots, has_pair, is_spare, lowest_dead_group};
use sector_slots::SlotCalls;

/// Whether one of the blocks is wholly free.
#[tactic(auto, using(erase_journal::proofs::Calls::repeated_calls))]
pub fn has_spare<S: SlotCalls>(slots: &mut S) -> Result<bool, NorError>
    ensures spare { IfOk result (λ spare. IsTrue spare
        → (c : ℕ) × ((c < data_blocks (S.state slots.old).memory)
        × IsSpareIn (S.state slots.old).memory c)) }
    ensures none { IfOk result (λ spare. IsFalse spare
        → (c : ℕ) → c < data_blocks (S.state slots.old).memory
        → IsSpareIn (S.state slots.old).memory c → ⊥) }
    ensures same { (S.state slots.new).memory ≡ (S.state slots.old).memory }
    ensures ends { EndsFirmly result (S.state slots.old) (S.state slots.new) }
{
    let count = slots.blocks();
    for block in 0..count {
        if is_spare(slots, block)? {
            return Ok(true);
        }
    }
    Ok(false)
}

/// Whether no block is wholly free nor can be made so, where no copying goes on.
pub fn lacks_room<S: SlotCalls>(
    slots: &mut S,
    table: &[LiveSlots],
    found: Found,
) -> Result<bool, NorError>
    requires found { FoundIn found (S.state slots.old).memory }
    requires tabled { IsTabled table.now (slot_at (S.state slots.old).memory)
        (slot_count (S.state slots.old).memory) }
    requires apart { (g : ℕ) → IsMixedPair table.now (S.state slots.old).memory g → ⊥ }
    ensures room { IfOk result (λ lacks. IsFalse lacks
        → (spare : Bool) × RoomSeen found spare (S.state slots.old).memory) }
    ensures none { IfOk result (λ lacks. IsTrue lacks → HasNoRoom (S.state slots.old).memory) }
    ensures same { (S.state slots.new).memory ≡ (S.state slots.old).memory }
    ensures done { OnOk result ((S.state slots.new ≡ S.state slots.old)
        ⊎ SucceedsSettled (S.state slots.old) (S.state slots.new)) }
    ensures fails { IfErr result (λ e. RefusesFirmly e (S.state slots.old) (S.state slots.new)) }
{
    match found {
        Found::AtRest => is_full(slots, table),
        Found::Void(_) => Ok(false),
        Found::Committed(_, _) => Ok(false),
    }
}

/// Whether no block is wholly free nor can be made so, of blocks in which no copying goes on.
fn is_full<S: SlotCalls>(slots: &mut S, table: &[LiveSlots]) -> Result<bool, NorError>
    requires found { FoundIn Found.AtRest (S.state slots.old).memory }
    requires tabled { IsTabled table.now (slot_at (S.state slots.old).memory)
        (slot_count (S.state slots.old).memory) }
    requires apart { (g : ℕ) → IsMixedPair table.now (S.state slots.old).memory g → ⊥ }
    ensures room { IfOk result (λ lacks. IsFalse lacks
        → (spare : Bool) × RoomSeen Found.AtRest spare (S.state slots.old).memory) }
    ensures none { IfOk result (λ lacks. IsTrue lacks → HasNoRoom (S.state slots.old).memory) }
    ensures same { (S.state slots.new).memory ≡ (S.state slots.old).memory }
    ensures ends { EndsFirmly result (S.state slots.old) (S.state slots.new) }
{
    if has_spare(slots)? {
        return Ok(false);
    }
    match has_pair(slots, table)? {
        Some(true) => return Ok(false),
        Some(false) => {}
        None => unreachable!(),
    }
    match lowest_dead_group(slots)? {
        Some(_) => Ok(false),
        None => Ok(true),
    }
}
