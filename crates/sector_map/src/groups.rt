//! Blocks of layout 1 on a mixed chip. If two live blocks hold the same group, the table shows it,
//! and the older one is retired. If no block is wholly free, a dead group's block is erased.

ghost use Rattle.std.specs.Prelude.{◌≡◌, ◌≢◌, ◌⊎◌, ◌*◌, ◌<◌, ℕ, Bool, Some, None, true, length};
ghost use Rattle.std.specs.Prelude.{OnOk, IfOk, IfErr, IsTrue, IsFalse};
ghost use Rattle.std.specs.Result.{IsErrOf};
ghost use Rattle.chip_model.specs.Geometry.{sector_count};
ghost use Rattle.nor_layout.specs.declared.header.Tag.{Tag as TagOf};
ghost use Rattle.erase_journal.specs.Journals.{IsHealthy};
ghost use Rattle.erase_journal.specs.Steps.{RefusesFirmly, SucceedsSettled, EndsFirmly};
ghost use Rattle.sector_slots.specs.Slots.{slot_at, slot_count, data_blocks, kind_at, is_group};
ghost use Rattle.sector_slots.specs.Blocks.{AreAtRest, AreSettled};
ghost use Rattle.sector_slots.specs.Sectors.{IsSoundMap};
ghost use Rattle.sector_map.specs.Firm.{KeepsRead};
ghost use Rattle.sector_map.specs.Mending.{PairsSeen, IsMixedPair, HasDeadGroup, IsOlderGroup};
ghost use Rattle.sector_map.specs.Mending.{RetiresEach, RetiresOlder, MakesRoom};
ghost use Rattle.sector_map.specs.Table.{IsTabled, Mends};

use crate::Held;
use crate::found::Found;
use crate::scan::{either, read_table};
use crate::table::LiveSlots;
use nor_driver::NorError;
use nor_layout::Kind;
use sector_slots::SlotCalls;

/// Whether two live blocks hold one group, by the table. None if a sector has one slot in a group's
/// block and one elsewhere: no write leaves these slots.
#[tactic(auto, using(erase_journal::proofs::Calls::repeated_calls))]
pub fn has_pair<S: SlotCalls>(slots: &mut S, table: &[LiveSlots]) -> Result<Option<bool>, NorError>
    requires tabled { IsTabled table.now (slot_at (S.state slots.old).memory)
        (slot_count (S.state slots.old).memory) }
    ensures pair { IfOk result (λ answer. (pair : Bool) → answer ≡ Some pair
        → PairsSeen pair table.now (S.state slots.old).memory) }
    ensures apart { IfOk result (λ answer. (pair : Bool) → answer ≡ Some pair
        → (g : ℕ) → IsMixedPair table.now (S.state slots.old).memory g → ⊥) }
    ensures corrupt { IfOk result (λ answer. answer ≡ None
        → (g : ℕ) × IsMixedPair table.now (S.state slots.old).memory g) }
    ensures same { (S.state slots.new).memory ≡ (S.state slots.old).memory }
    ensures done { OnOk result ((S.state slots.new ≡ S.state slots.old)
        ⊎ SucceedsSettled (S.state slots.old) (S.state slots.new)) }
    ensures fails { IfErr result (λ e. RefusesFirmly e (S.state slots.old) (S.state slots.new)) }
{
    let mut pair = false;
    for sector in 0..table.len() {
        match table[sector] {
            LiveSlots::Absent => {}
            LiveSlots::One(_) => {}
            LiveSlots::Two(newer, older) => match are_of_groups(
                slots,
                newer.slot / 7,
                older.slot / 7,
            )? {
                Some(here) => pair = either(pair, here),
                None => return Ok(None),
            },
        }
    }
    Ok(Some(pair))
}

/// Whether both blocks are of groups; None if one is and the other isn't.
fn are_of_groups<S: SlotCalls>(
    slots: &mut S,
    first: u16,
    second: u16,
) -> Result<Option<bool>, NorError>
    requires first { first < data_blocks (S.state slots.old).memory }
    requires second { second < data_blocks (S.state slots.old).memory }
    ensures both { IfOk result (λ answer. (here : Bool) → answer ≡ Some here
        → is_group (kind_at (S.state slots.old).memory second) ≡ here) }
    ensures alike { IfOk result (λ answer. (here : Bool) → answer ≡ Some here
        → is_group (kind_at (S.state slots.old).memory first)
        ≡ is_group (kind_at (S.state slots.old).memory second)) }
    ensures differ { IfOk result (λ answer. answer ≡ None
        → is_group (kind_at (S.state slots.old).memory first)
        ≢ is_group (kind_at (S.state slots.old).memory second)) }
    ensures same { (S.state slots.new).memory ≡ (S.state slots.old).memory }
    ensures ends { EndsFirmly result (S.state slots.old) (S.state slots.new) }
{
    let one = slots.kind(first)?.is_of_group();
    let other = slots.kind(second)?.is_of_group();
    if one == other {
        Ok(Some(other))
    } else {
        Ok(None)
    }
}

/// The lowest-numbered dead block of a group.
#[tactic(auto, using(erase_journal::proofs::Calls::repeated_calls))]
pub fn lowest_dead_group<S: SlotCalls>(slots: &mut S) -> Result<Option<u16>, NorError>
    ensures some { IfOk result (λ answer. (c : ℕ) → answer ≡ Some c
        → (c < data_blocks (S.state slots.old).memory)
        × (kind_at (S.state slots.old).memory c ≡ Kind.DeadGroup)) }
    ensures lowest { IfOk result (λ answer. (c : ℕ) → answer ≡ Some c → (d : ℕ) → d < c
        → kind_at (S.state slots.old).memory d ≢ Kind.DeadGroup) }
    ensures none { IfOk result (λ answer. answer ≡ None → (d : ℕ)
        → d < data_blocks (S.state slots.old).memory
        → kind_at (S.state slots.old).memory d ≢ Kind.DeadGroup) }
    ensures same { (S.state slots.new).memory ≡ (S.state slots.old).memory }
    ensures ends { EndsFirmly result (S.state slots.old) (S.state slots.new) }
{
    let count = slots.blocks();
    for block in 0..count {
        let kind = slots.kind(block)?;
        if is_dead_group(kind) {
            return Ok(Some(block));
        }
    }
    Ok(None)
}

/// Whether a block of this kind is a dead one of a group.
fn is_dead_group(kind: Kind) -> bool
    ensures dead { IsTrue result → kind ≡ Kind.DeadGroup }
    ensures not_dead { IsFalse result → kind ≢ Kind.DeadGroup }
{
    match kind {
        Kind::Plain => false,
        Kind::Void => false,
        Kind::Committed(_) => false,
        Kind::Settled => false,
        Kind::Group(_) => false,
        Kind::DeadGroup => true,
        Kind::SpoiltGroup => false,
        Kind::Unknown => false,
    }
}

/// Whether a block of this kind is the older of two that are live with one group, by the table. The
/// number of a block's tag is its group's, and the entry of the group's first sector tells: all
/// seven sectors of a group lie in the same blocks.
pub(crate) fn is_older(table: &[LiveSlots], block: u16, kind: Kind) -> bool
    requires number { (tag : TagOf) → kind ≡ Kind.Group tag → 7 * tag.number < length table.now }
    ensures older { IsTrue result → IsOlderGroup table.now block kind }
    ensures not_older { IsFalse result → IsOlderGroup table.now block kind → ⊥ }
{
    match kind {
        Kind::Group(tag) => match table[7 * tag.number as usize] {
            LiveSlots::Absent => false,
            LiveSlots::One(_) => false,
            LiveSlots::Two(_, older) => older.slot / 7 == block,
        },
        Kind::Plain => false,
        Kind::Void => false,
        Kind::Committed(_) => false,
        Kind::Settled => false,
        Kind::DeadGroup => false,
        Kind::SpoiltGroup => false,
        Kind::Unknown => false,
    }
}

/// Retires each block that is the older of two of its group, by the table.
fn retire_each<S: SlotCalls>(slots: &mut S, table: &[LiveSlots]) -> Result<(), NorError>
    requires tabled { IsTabled table.now (slot_at (S.state slots.old).memory)
        (slot_count (S.state slots.old).memory) }
    requires rest { AreAtRest (kind_at (S.state slots.old).memory)
        (data_blocks (S.state slots.old).memory) }
    requires sound { IsSoundMap (S.state slots.old).memory }
    ensures ok { OnOk result (RetiresEach table.now (S.state slots.old).memory
        (S.state slots.new).memory) }
    ensures cut { IsErrOf result NorError.Cut
        → Mends (S.state slots.old).memory (S.state slots.new).memory }
    ensures healthy { IsErrOf result NorError.Cut → IsHealthy (S.state slots.old).memory
        → IsHealthy (S.state slots.new).memory }
    ensures size { length (S.state slots.new).memory ≡ length (S.state slots.old).memory }
    ensures done { OnOk result ((S.state slots.new ≡ S.state slots.old)
        ⊎ SucceedsSettled (S.state slots.old) (S.state slots.new)) }
    ensures fails { IfErr result (λ e. RefusesFirmly e (S.state slots.old) (S.state slots.new)) }
{
    let count = slots.blocks();
    for block in 0..count {
        let kind = slots.kind(block)?;
        if is_older(table, block, kind) {
            slots.retire_group(block)?;
        }
    }
    Ok(())
}

/// Step 7: retires the older of two blocks of each group, and reads the table anew if there were
/// two.
pub(crate) fn retire_groups<S: SlotCalls>(
    slots: &mut S,
    table: &mut [LiveSlots],
) -> Result<(), NorError>
    requires size { length table.old ≡ sector_count (length (S.state slots.old).memory) }
    requires tabled { IsTabled table.old (slot_at (S.state slots.old).memory)
        (slot_count (S.state slots.old).memory) }
    requires rest { AreAtRest (kind_at (S.state slots.old).memory)
        (data_blocks (S.state slots.old).memory) }
    requires sound { IsSoundMap (S.state slots.old).memory }
    ensures ok { OnOk result (RetiresOlder (S.state slots.old).memory table.new
        (S.state slots.new).memory) }
    ensures read { OnOk result (KeepsRead (S.state slots.old) (S.state slots.new)) }
    ensures cut { IsErrOf result NorError.Cut
        → Mends (S.state slots.old).memory (S.state slots.new).memory }
    ensures healthy { IsErrOf result NorError.Cut → IsHealthy (S.state slots.old).memory
        → IsHealthy (S.state slots.new).memory }
    ensures table { length table.new ≡ length table.old }
    ensures size { length (S.state slots.new).memory ≡ length (S.state slots.old).memory }
    ensures done { OnOk result ((S.state slots.new ≡ S.state slots.old)
        ⊎ SucceedsSettled (S.state slots.old) (S.state slots.new)) }
    ensures fails { IfErr result (λ e. RefusesFirmly e (S.state slots.old) (S.state slots.new)) }
{
    let Some(pair) = has_pair(slots, table)? else {
        unreachable!()
    };
    if !pair {
        return Ok(());
    }
    retire_each(slots, table)?;
    table.fill(LiveSlots::Absent);
    match read_table(slots, table, Found::AtRest)? {
        Some(_) => Ok(()),
        None => unreachable!(),
    }
}

/// Step 8: erases the lowest-numbered block of a dead group, if no block is wholly free.
pub(crate) fn make_room<S: SlotCalls>(slots: &mut S, has_room: bool) -> Result<(), NorError>
    requires rest { AreAtRest (kind_at (S.state slots.old).memory)
        (data_blocks (S.state slots.old).memory) }
    requires settled { has_room ≡ true → AreSettled (S.state slots.old).memory }
    requires dead { has_room ≢ true → HasDeadGroup (S.state slots.old).memory }
    ensures ok { OnOk result (MakesRoom (S.state slots.old).memory (S.state slots.new).memory) }
    ensures read { OnOk result (KeepsRead (S.state slots.old) (S.state slots.new)) }
    ensures cut { IsErrOf result NorError.Cut → IsHealthy (S.state slots.old).memory
        → Mends (S.state slots.old).memory (S.state slots.new).memory }
    ensures healthy { IsErrOf result NorError.Cut → IsHealthy (S.state slots.old).memory
        → IsHealthy (S.state slots.new).memory }
    ensures size { length (S.state slots.new).memory ≡ length (S.state slots.old).memory }
    ensures done { OnOk result ((S.state slots.new ≡ S.state slots.old)
        ⊎ SucceedsSettled (S.state slots.old) (S.state slots.new)) }
    ensures fails { IfErr result (λ e. RefusesFirmly e (S.state slots.old) (S.state slots.new)) }
{
    if has_room {
        return Ok(());
    }
    match lowest_dead_group(slots)? {
        Some(block) => slots.erase(block),
        None => unreachable!(),
    }
}
