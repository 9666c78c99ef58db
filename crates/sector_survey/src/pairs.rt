//! Sectors that are live both in a slot of their own and in a block with their group.

ghost use Rattle.std.specs.Prelude.{◌≡◌, ◌≢◌, ◌⊎◌, ◌<◌, ℕ, None, IfOk, IfErr, IfSome, OnOk, IsTrue};
ghost use Rattle.std.specs.Prelude.{IsFalse, length};
ghost use Rattle.erase_journal.specs.Steps.{RefusesFirmly, SucceedsSettled, EndsFirmly};
ghost use Rattle.sector_slots.specs.Slots.{slot_at, slot_count, data_blocks, kind_at, is_group};
ghost use Rattle.sector_map.specs.Mending.{IsMixedPair};
ghost use Rattle.sector_map.specs.Table.{IsTabled};
ghost use Rattle.sector_survey.specs.Findings.{Explains};

use crate::Finding;
use nor_driver::NorError;
use sector_map::LiveSlots;
use sector_slots::SlotCalls;

/// The first sector, by the table, of which one of two slots lies in a block of a group and the
/// other doesn't.
#[tactic(auto, using(erase_journal::proofs::Calls::repeated_calls))]
pub fn find_mixed<S: SlotCalls>(
    slots: &mut S,
    table: &[LiveSlots],
) -> Result<Option<Finding>, NorError>
    requires tabled { IsTabled table.now (slot_at (S.state slots.old).memory)
        (slot_count (S.state slots.old).memory) }
    requires few { length table.now < 65536 }
    ensures fault { IfOk result (λ says. IfSome says (λ fault.
        Explains fault (S.state slots.old).memory)) }
    ensures apart { IfOk result (λ says. says ≡ None → (g : ℕ)
        → IsMixedPair table.now (S.state slots.old).memory g → ⊥) }
    ensures same { (S.state slots.new).memory ≡ (S.state slots.old).memory }
    ensures done { OnOk result ((S.state slots.new ≡ S.state slots.old)
        ⊎ SucceedsSettled (S.state slots.old) (S.state slots.new)) }
    ensures fails { IfErr result (λ e. RefusesFirmly e (S.state slots.old) (S.state slots.new)) }
{
    for sector in 0..table.len() {
        match table[sector] {
            LiveSlots::Absent => {}
            LiveSlots::One(_) => {}
            LiveSlots::Two(newer, older) => {
                if are_unlike(slots, newer.slot / 7, older.slot / 7)? {
                    return Ok(Some(Finding::TwoLayouts {
                        first: newer.slot,
                        second: older.slot,
                        sector: sector as u16,
                    }));
                }
            }
        }
    }
    Ok(None)
}

/// Whether of two blocks one is of a group and the other isn't.
fn are_unlike<S: SlotCalls>(slots: &mut S, first: u16, second: u16) -> Result<bool, NorError>
    requires first { first < data_blocks (S.state slots.old).memory }
    requires second { second < data_blocks (S.state slots.old).memory }
    ensures differ { IfOk result (λ differ. IsTrue differ
        → is_group (kind_at (S.state slots.old).memory first)
        ≢ is_group (kind_at (S.state slots.old).memory second)) }
    ensures alike { IfOk result (λ differ. IsFalse differ
        → is_group (kind_at (S.state slots.old).memory first)
        ≡ is_group (kind_at (S.state slots.old).memory second)) }
    ensures same { (S.state slots.new).memory ≡ (S.state slots.old).memory }
    ensures ends { EndsFirmly result (S.state slots.old) (S.state slots.new) }
{
    let one = slots.kind(first)?.is_of_group();
    let other = slots.kind(second)?.is_of_group();
    Ok(one != other)
}
