//! Steps 4 to 10 of a mount (docs/SECTORS.md, "A mount"): all blocks are read, and found corrupt or
//! not, before any is mended, or programmed again.

ghost use Rattle.std.specs.Prelude.{◌≡◌, ◌⊎◌, ◌<◌, ℕ, List, true, false, Some, None, length, OnOk};
ghost use Rattle.std.specs.Prelude.{IfOk, IfErr, IsTrue, IsFalse};
ghost use Rattle.std.specs.Result.{IsErrOf};
ghost use Rattle.chip_model.specs.Geometry.{sector_count};
ghost use Rattle.nor_driver.specs.State.{bits_in};
ghost use Rattle.nor_layout.specs.Superblock.{layout_in};
ghost use Rattle.erase_journal.specs.Blocks.{SameChip};
ghost use Rattle.erase_journal.specs.Journals.{IsHealthy};
ghost use Rattle.erase_journal.specs.Steps.{RefusesFirmly, SucceedsSettled, EndsFirmly};
ghost use Rattle.erase_journal.specs.Steps.{EndsSettled};
ghost use Rattle.erase_journal.specs.Weak.{AreFirmJournals, AreRecoveredJournals};
ghost use Rattle.sector_slots.specs.Slots.{slot_at, slot_count, data_blocks, kind_at, IsClean};
ghost use Rattle.sector_slots.specs.Blocks.{AreSettled, HasGroupRoom};
ghost use Rattle.sector_slots.specs.Sectors.{IsSoundMap, HoldsSectors};
ghost use Rattle.sector_stock.specs.Copy.{KeepsSectors, EndsCopy, IsCommittedIn};
ghost use Rattle.sector_stock.specs.Losses.{AreSuspect, IsFirmDiskIn};
ghost use Rattle.sector_slots.specs.Weak.{IsDoubtedStore, IsHalfStore};
ghost use Rattle.sector_map.specs.Filling.{IsRecoveredChip};
ghost use Rattle.sector_map.specs.Firm.{AreReadBlocks, KeepsRead, MakesHeld};
ghost use Rattle.sector_map.specs.Found.{FoundIn, RoomSeen, leaves_room};
ghost use Rattle.sector_map.specs.Marking.{is_unmarked, may_have_groups};
ghost use Rattle.sector_map.specs.Mending.{EndsFound, EndsVoids, MendsBlocks, PairsAreSlots};
ghost use Rattle.sector_map.specs.Mending.{HasDeadGroup};
ghost use Rattle.sector_map.specs.Table.{IsTabled, IsTableOf, IsBlankTable, Mends, Repairs, Mounts};
ghost use Rattle.sector_map.specs.Table.{MountCut};
ghost use Rattle.sector_map.specs.declared.found.Seen.{Seen as SeenOf};

use crate::firm::{firm_as, move_begun, suspect_as};
use crate::found::{Found, Seen, has_room, is_void};
use crate::groups::{has_pair, lowest_dead_group, make_room, retire_groups};
use crate::scan::{is_spare, read_table, survey};
use crate::superblock::{mark_first, read_marks};
use crate::table::{LiveSlots, keep_one};
use erase_journal::Firmness;
use nor_driver::NorError;
use sector_slots::SlotCalls;
use sector_stock::{Reclaim, end_committed, end_erased, end_void};

/// Steps 4 to 10, as torn bits are taken. False, and nothing is changed, if slots or blocks are
/// corrupt. After an error the table holds any entries.
pub fn mount_slots<S: Reclaim>(
    stock: &mut S,
    table: &mut [LiveSlots],
    firmness: Firmness,
) -> Result<bool, NorError>
    requires size { length table.old ≡ sector_count (length (S.state stock.old).memory) }
    ensures sound { IfOk result (λ sound. IsTrue sound
        → Mounts (S.state stock.old).memory table.new (S.state stock.new).memory) }
    ensures indexed { IfOk result (λ sound. IsTrue sound → S.indexed stock.new ≡ true) }
    ensures journals { firmness ≡ Firmness.Firm → is_unmarked (S.state stock.old).memory ≡ false
        → AreRecoveredJournals (bits_in (S.state stock.old)) → IfOk result (λ sound. IsTrue sound
        → AreFirmJournals (bits_in (S.state stock.new))) }
    ensures store { firmness ≡ Firmness.Firm → is_unmarked (S.state stock.old).memory ≡ false
        → IsHalfStore (bits_in (S.state stock.old)) → IfOk result (λ sound. IsTrue sound
        → IsDoubtedStore (bits_in (S.state stock.new))) }
    ensures suspect { firmness ≡ Firmness.Firm → IfOk result (λ sound. IsTrue sound
        → AreSuspect (S.counts stock.new)) }
    ensures disk { firmness ≡ Firmness.Firm → IsRecoveredChip (bits_in (S.state stock.old))
        → IfOk result (λ sound. IsTrue sound → (layout_in (S.state stock.new).memory ≡ 2)
        × IsFirmDiskIn (bits_in (S.state stock.new)) (S.counts stock.new)) }
    ensures corrupt { IfOk result (λ sound. IsFalse sound
        → (IsSoundMap (S.state stock.old).memory → ⊥)
        × ((S.state stock.new).memory ≡ (S.state stock.old).memory)) }
    ensures cut { IsErrOf result NorError.Cut → IsHealthy (S.state stock.old).memory
        → MountCut (S.state stock.old).memory (S.state stock.new).memory }
    ensures healthy { IsErrOf result NorError.Cut → IsHealthy (S.state stock.old).memory
        → IsHealthy (S.state stock.new).memory }
    ensures size { length table.new ≡ length table.old }
    ensures same_size { length (S.state stock.new).memory ≡ length (S.state stock.old).memory }
    ensures ends { EndsSettled result (S.state stock.old) (S.state stock.new) }
{
    table.fill(LiveSlots::Absent);
    let marks = read_marks(stock)?;
    match look(stock, table, marks.groups)? {
        Some(seen) => {
            mark_first(stock, marks.unmarked)?;
            let begun = firm_as(stock, firmness)?;
            repair(stock, table, seen, begun)?;
            suspect_as(stock, firmness);
            Ok(true)
        }
        None => Ok(false),
    }
}

/// Step 4: reads the blocks into a table in which every sector is absent, and answers what they
/// say. None if slots or blocks are corrupt.
fn look<S: Reclaim>(
    stock: &mut S,
    table: &mut [LiveSlots],
    groups: bool,
) -> Result<Option<Seen>, NorError>
    requires groups { groups ≡ may_have_groups (S.state stock.old).memory }
    requires blank { IsBlankTable table.old }
    requires size { length table.old ≡ sector_count (length (S.state stock.old).memory) }
    ensures found { IfOk result (λ answer. (seen : SeenOf) → answer ≡ Some seen
        → FoundIn seen.found (S.state stock.old).memory) }
    ensures room { IfOk result (λ answer. (seen : SeenOf) → answer ≡ Some seen
        → RoomSeen seen.found seen.spare (S.state stock.old).memory) }
    ensures tabled { IfOk result (λ answer. (seen : SeenOf) → answer ≡ Some seen
        → IsTabled table.new (slot_at (S.state stock.old).memory)
        (slot_count (S.state stock.old).memory)) }
    ensures sound { IfOk result (λ answer. (seen : SeenOf) → answer ≡ Some seen
        → IsSoundMap (S.state stock.old).memory) }
    ensures corrupt { IfOk result (λ answer. answer ≡ None → IsSoundMap (S.state stock.old).memory
        → ⊥) }
    ensures size { length table.new ≡ length table.old }
    ensures same { (S.state stock.new).memory ≡ (S.state stock.old).memory }
    ensures ends { EndsFirmly result (S.state stock.old) (S.state stock.new) }
{
    let Some(found) = survey(stock, groups)? else {
        return Ok(None);
    };
    let Some(spare) = read_table(stock, table, found)? else {
        return Ok(None);
    };
    let Some(pair) = has_pair(stock, table)? else {
        return Ok(None);
    };
    fit(stock, Seen { found, spare }, pair)
}

/// What was seen of the blocks, if a block is wholly free once a copying is ended, or can be made
/// so; else None. A pair, two live blocks of one group, can: `retire_groups` makes the older one
/// dead, and `make_room` erases a dead one.
fn fit<S: SlotCalls>(slots: &mut S, seen: Seen, pair: bool) -> Result<Option<Seen>, NorError>
    requires pair { pair ≡ true → HasGroupRoom (kind_at (S.state slots.old).memory)
        (data_blocks (S.state slots.old).memory) }
    requires spare { leaves_room seen.found seen.spare ≡ true
        → RoomSeen seen.found seen.spare (S.state slots.old).memory }
    ensures some { IfOk result (λ answer. (fits : SeenOf) → answer ≡ Some fits → (fits ≡ seen)
        × RoomSeen seen.found seen.spare (S.state slots.old).memory) }
    ensures none { IfOk result (λ answer. answer ≡ None
        → (leaves_room seen.found seen.spare ≡ false) × (pair ≡ false)
        × (HasDeadGroup (S.state slots.old).memory → ⊥)) }
    ensures same { (S.state slots.new).memory ≡ (S.state slots.old).memory }
    ensures done { OnOk result ((S.state slots.new ≡ S.state slots.old)
        ⊎ SucceedsSettled (S.state slots.old) (S.state slots.new)) }
    ensures fails { IfErr result (λ e. RefusesFirmly e (S.state slots.old) (S.state slots.new)) }
{
    if has_room(seen) || pair {
        return Ok(Some(seen));
    }
    match lowest_dead_group(slots)? {
        Some(_) => Ok(Some(seen)),
        None => Ok(None),
    }
}

/// Steps 6 to 10: mends the blocks, retires the older of two slots, moves the blocks in which a
/// slot is begun, if one was seen, and makes the index.
fn repair<S: Reclaim>(
    stock: &mut S,
    table: &mut [LiveSlots],
    seen: Seen,
    begun: bool,
) -> Result<(), NorError>
    requires size { length table.old ≡ sector_count (length (S.state stock.old).memory) }
    requires tabled { IsTabled table.old (slot_at (S.state stock.old).memory)
        (slot_count (S.state stock.old).memory) }
    requires found { FoundIn seen.found (S.state stock.old).memory }
    requires room { RoomSeen seen.found seen.spare (S.state stock.old).memory }
    requires sound { IsSoundMap (S.state stock.old).memory }
    ensures ok { OnOk result (Repairs (S.state stock.old).memory table.new
        (S.state stock.new).memory) }
    ensures indexed { OnOk result (S.indexed stock.new ≡ true) }
    ensures listed { OnOk result (length (S.counts stock.new)
        ≡ data_blocks (S.state stock.new).memory) }
    ensures store { OnOk result (AreReadBlocks (bits_in (S.state stock.old)) begun
        → IsDoubtedStore (bits_in (S.state stock.new))) }
    ensures cut { IsErrOf result NorError.Cut → IsHealthy (S.state stock.old).memory
        → Mends (S.state stock.old).memory (S.state stock.new).memory }
    ensures healthy { IsErrOf result NorError.Cut → IsHealthy (S.state stock.old).memory
        → IsHealthy (S.state stock.new).memory }
    ensures size { length table.new ≡ length table.old }
    ensures same_size { length (S.state stock.new).memory ≡ length (S.state stock.old).memory }
    ensures ends { EndsFirmly result (S.state stock.old) (S.state stock.new) }
{
    mend_blocks(stock, table, seen)?;
    retire_older(stock, table)?;
    move_begun(stock, table, begun)?;
    stock.fill()?;
    Ok(())
}

/// Steps 6 to 8: ends the copyings that were found, retires the older of two blocks of a group, and
/// erases a dead one if no block is wholly free.
fn mend_blocks<S: SlotCalls>(
    slots: &mut S,
    table: &mut [LiveSlots],
    seen: Seen,
) -> Result<(), NorError>
    requires size { length table.old ≡ sector_count (length (S.state slots.old).memory) }
    requires tabled { IsTabled table.old (slot_at (S.state slots.old).memory)
        (slot_count (S.state slots.old).memory) }
    requires found { FoundIn seen.found (S.state slots.old).memory }
    requires room { RoomSeen seen.found seen.spare (S.state slots.old).memory }
    requires sound { IsSoundMap (S.state slots.old).memory }
    ensures ok { OnOk result (MendsBlocks (S.state slots.old).memory table.new
        (S.state slots.new).memory) }
    ensures read { OnOk result (KeepsRead (S.state slots.old) (S.state slots.new)) }
    ensures cut { IsErrOf result NorError.Cut → IsHealthy (S.state slots.old).memory
        → Mends (S.state slots.old).memory (S.state slots.new).memory }
    ensures healthy { IsErrOf result NorError.Cut → IsHealthy (S.state slots.old).memory
        → IsHealthy (S.state slots.new).memory }
    ensures table { length table.new ≡ length table.old }
    ensures size { length (S.state slots.new).memory ≡ length (S.state slots.old).memory }
    ensures done { OnOk result ((S.state slots.new ≡ S.state slots.old)
        ⊎ SucceedsSettled (S.state slots.old) (S.state slots.new)) }
    ensures fails { IfErr result (λ e. RefusesFirmly e (S.state slots.old) (S.state slots.new)) }
{
    end_copying(slots, seen.found)?;
    retire_groups(slots, table)?;
    make_room(slots, has_room(seen))
}

/// Step 6: ends the copyings that were found. The void blocks are erased first, so that a committed
/// copy is alone when it is ended.
fn end_copying<S: SlotCalls>(slots: &mut S, found: Found) -> Result<(), NorError>
    requires found { FoundIn found (S.state slots.old).memory }
    requires sound { IsSoundMap (S.state slots.old).memory }
    ensures ok { OnOk result (EndsFound found (S.state slots.old).memory
        (S.state slots.new).memory) }
    ensures read { OnOk result (KeepsRead (S.state slots.old) (S.state slots.new)) }
    ensures cut { IsErrOf result NorError.Cut → IsHealthy (S.state slots.old).memory
        → KeepsSectors (S.state slots.old).memory (S.state slots.new).memory }
    ensures healthy { IsErrOf result NorError.Cut → IsHealthy (S.state slots.old).memory
        → IsHealthy (S.state slots.new).memory }
    ensures size { length (S.state slots.new).memory ≡ length (S.state slots.old).memory }
    ensures done { OnOk result ((S.state slots.new ≡ S.state slots.old)
        ⊎ SucceedsSettled (S.state slots.old) (S.state slots.new)) }
    ensures fails { IfErr result (λ e. RefusesFirmly e (S.state slots.old) (S.state slots.new)) }
{
    match found {
        Found::AtRest => Ok(()),
        Found::Void(_) => end_voids(slots),
        Found::Committed(source, target) => {
            end_voids(slots)?;
            end_copy(slots, source, target)
        }
    }
}

/// Erases each void block: a copy that was begun and never committed. Each erase leaves one fewer,
/// and no sector changes by it, whole or cut.
fn end_voids<S: SlotCalls>(slots: &mut S) -> Result<(), NorError>
    requires sound { IsSoundMap (S.state slots.old).memory }
    ensures ok { OnOk result (EndsVoids (S.state slots.old).memory (S.state slots.new).memory) }
    ensures read { OnOk result (KeepsRead (S.state slots.old) (S.state slots.new)) }
    ensures cut { IsErrOf result NorError.Cut → IsHealthy (S.state slots.old).memory
        → KeepsSectors (S.state slots.old).memory (S.state slots.new).memory }
    ensures healthy { IsErrOf result NorError.Cut → IsHealthy (S.state slots.old).memory
        → IsHealthy (S.state slots.new).memory }
    ensures size { length (S.state slots.new).memory ≡ length (S.state slots.old).memory }
    ensures done { OnOk result ((S.state slots.new ≡ S.state slots.old)
        ⊎ SucceedsSettled (S.state slots.old) (S.state slots.new)) }
    ensures fails { IfErr result (λ e. RefusesFirmly e (S.state slots.old) (S.state slots.new)) }
{
    let count = slots.blocks();
    for block in 0..count {
        let kind = slots.kind(block)?;
        if is_void(kind) {
            end_void(slots, block)?;
        }
    }
    Ok(())
}

/// Ends a copying that is committed, the only one that goes on. A source whose slots all read as
/// free isn't erased again: on a clean memory it is erased, and on any other nothing is said of its
/// bytes.
fn end_copy<S: SlotCalls>(slots: &mut S, source: u16, target: u16) -> Result<(), NorError>
    requires committed { IsCommittedIn source target (S.state slots.old).memory }
    ensures ok { OnOk result (EndsCopy (S.state slots.old).memory (S.state slots.new).memory) }
    ensures read { OnOk result (KeepsRead (S.state slots.old) (S.state slots.new)) }
    ensures cut { IsErrOf result NorError.Cut → IsHealthy (S.state slots.old).memory
        → KeepsSectors (S.state slots.old).memory (S.state slots.new).memory }
    ensures healthy { IsErrOf result NorError.Cut → IsHealthy (S.state slots.old).memory
        → IsHealthy (S.state slots.new).memory }
    ensures size { length (S.state slots.new).memory ≡ length (S.state slots.old).memory }
    ensures ends { EndsFirmly result (S.state slots.old) (S.state slots.new) }
{
    if is_spare(slots, source)? {
        end_erased(slots, source, target)?;
    } else {
        end_committed(slots, source, target)?;
    }
    Ok(())
}

/// Step 9: retires the older of two slots of each sector.
fn retire_older<S: SlotCalls>(slots: &mut S, table: &mut [LiveSlots]) -> Result<(), NorError>
    requires size { length table.old ≡ sector_count (length (S.state slots.old).memory) }
    requires tabled { IsTabled table.old (slot_at (S.state slots.old).memory)
        (slot_count (S.state slots.old).memory) }
    requires blocks { AreSettled (S.state slots.old).memory }
    requires pairs { PairsAreSlots table.old (S.state slots.old).memory }
    ensures ok { OnOk result (IsTableOf table.new (S.state slots.new).memory) }
    ensures sectors { OnOk result ((sectors : ℕ → List ℕ)
        → HoldsSectors sectors (S.state slots.old).memory
        → HoldsSectors sectors (S.state slots.new).memory) }
    ensures blocks { OnOk result (AreSettled (S.state slots.new).memory) }
    ensures held { OnOk result (MakesHeld (S.state slots.old) (S.state slots.new)) }
    ensures cut { IsErrOf result NorError.Cut → (sectors : ℕ → List ℕ)
        → HoldsSectors sectors (S.state slots.old).memory
        → HoldsSectors sectors (S.state slots.new).memory }
    ensures clean { OnOk result (IsClean (S.state slots.old).memory
        → IsClean (S.state slots.new).memory) }
    ensures cut_clean { IsErrOf result NorError.Cut → IsClean (S.state slots.old).memory
        → IsClean (S.state slots.new).memory }
    ensures healthy { IsErrOf result NorError.Cut → IsHealthy (S.state slots.old).memory
        → IsHealthy (S.state slots.new).memory }
    ensures size { length table.new ≡ length table.old }
    ensures chip { SameChip (S.state slots.old).memory (S.state slots.new).memory }
    ensures done { OnOk result ((S.state slots.new ≡ S.state slots.old)
        ⊎ SucceedsSettled (S.state slots.old) (S.state slots.new)) }
    ensures fails { IfErr result (λ e. RefusesFirmly e (S.state slots.old) (S.state slots.new)) }
{
    for sector in 0..table.len() {
        match table[sector] {
            LiveSlots::Absent => {}
            LiveSlots::One(_) => {}
            LiveSlots::Two(newer, older) => {
                slots.retire(older.slot)?;
                keep_one(table, sector, newer);
            }
        }
    }
    Ok(())
}
