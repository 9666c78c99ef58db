//! The descriptors of all blocks, entered into a table slot by slot, or the first that can't be.

ghost use Rattle.std.specs.Prelude.{◌≡◌, ◌+◌, ◌*◌, ◌<◌, ◌≤◌, Some, None, false, length, IfOk};
ghost use Rattle.std.specs.Prelude.{IfSome};
ghost use Rattle.chip_model.specs.Geometry.{sector_count};
ghost use Rattle.nor_layout.specs.declared.header.Header.TheVariants as headers;
ghost use Rattle.erase_journal.specs.Steps.{EndsFirmly};
ghost use Rattle.sector_slots.specs.Slots.{slot_at, slot_count, data_blocks};
ghost use Rattle.sector_map.specs.Found.{FoundIn};
ghost use Rattle.sector_map.specs.Scan.{EntersBlock};
ghost use Rattle.sector_map.specs.Table.{IsTabled, IsBlankTable, Heads};
ghost use Rattle.sector_survey.specs.Findings.{IsSlotFaultIn};
ghost use Rattle.sector_survey.specs.Steps.{FaultsBlock, IsHeadFault, IsTagFault};

use crate::Finding;
use nor_driver::NorError;
use nor_layout::{Header, Tag};
use sector_map::{Found, LiveSlots, enter_head, is_counted};
use sector_slots::SlotCalls;

/// Reads the descriptors of all blocks that count into a table in which every sector is absent; or
/// why they are corrupt.
#[tactic(auto, using(erase_journal::proofs::Calls::repeated_calls))]
pub fn read_slots<S: SlotCalls>(
    slots: &mut S,
    table: &mut [LiveSlots],
    found: Found,
) -> Result<Option<Finding>, NorError>
    requires blank { IsBlankTable table.old }
    requires found { FoundIn found (S.state slots.old).memory }
    requires size { length table.old ≡ sector_count (length (S.state slots.old).memory) }
    ensures tabled { IfOk result (λ says. says ≡ None
        → IsTabled table.new (slot_at (S.state slots.old).memory)
        (slot_count (S.state slots.old).memory)) }
    ensures fault { IfOk result (λ says. IfSome says (λ fault.
        IsSlotFaultIn fault (S.state slots.old).memory)) }
    ensures size { length table.new ≡ length table.old }
    ensures same { (S.state slots.new).memory ≡ (S.state slots.old).memory }
    ensures ends { EndsFirmly result (S.state slots.old) (S.state slots.new) }
{
    let count = slots.blocks();
    for block in 0..count {
        if let Some(fault) = read_block(slots, table, found, block)? {
            return Ok(Some(fault));
        }
    }
    Ok(None)
}

/// Enters the slots of a block into the table, where they count; or why they are corrupt.
fn read_block<S: SlotCalls>(
    slots: &mut S,
    table: &mut [LiveSlots],
    found: Found,
    block: u16,
) -> Result<Option<Finding>, NorError>
    requires number { block < data_blocks (S.state slots.old).memory }
    requires few { block ≤ 4092 }
    requires found { FoundIn found (S.state slots.old).memory }
    requires size { length table.old ≡ sector_count (length (S.state slots.old).memory) }
    requires tabled { IsTabled table.old (slot_at (S.state slots.old).memory) (7 * block) }
    ensures entered { IfOk result (λ says. says ≡ None
        → IsTabled table.new (slot_at (S.state slots.old).memory) (7 * block + 7)) }
    ensures fault { IfOk result (λ says. IfSome says (λ fault.
        IsSlotFaultIn fault (S.state slots.old).memory)) }
    ensures size { length table.new ≡ length table.old }
    ensures same { (S.state slots.new).memory ≡ (S.state slots.old).memory }
    ensures ends { EndsFirmly result (S.state slots.old) (S.state slots.new) }
{
    let mut heads = [Header::Free; 7];
    let kind = slots.head(block, &mut heads)?;
    if is_counted(found, kind, block) {
        Ok(enter_seven(table, block, &heads))
    } else {
        Ok(None)
    }
}

/// Enters the seven slots of a block that counts into the table of those before it; or why they are
/// corrupt.
fn enter_seven(table: &mut [LiveSlots], block: u16, heads: &[Header]) -> Option<Finding>
    requires number { block ≤ 4092 }
    requires room { length heads.now ≡ 7 }
    ensures entered { result ≡ None → EntersBlock heads.now block table.old table.new }
    ensures fault { IfSome result (λ fault. FaultsBlock heads.now block table.old fault) }
    ensures size { length table.new ≡ length table.old }
{
    for place in 0..7u16 {
        let slot = 7 * block + place;
        if !enter_head(table, slot, heads[place as usize]) {
            return Some(head_fault(table, slot, heads[place as usize]));
        }
    }
    None
}

/// Why a slot with this descriptor can't be entered into a table.
fn head_fault(table: &[LiveSlots], slot: u16, header: Header) -> Finding
    requires { Heads table.now slot header false table.now }
    ensures { IsHeadFault result table.now slot header }
{
    match header {
        Header::Free => unreachable!(),
        Header::Live(tag) => tag_fault(table, slot, tag),
        Header::NoGeneration => Finding::NoGeneration { slot },
        Header::Dead => unreachable!(),
    }
}

/// Why a live slot with this tag can't be entered into a table.
fn tag_fault(table: &[LiveSlots], slot: u16, tag: Tag) -> Finding
    requires { Heads table.now slot (headers.Live tag) false table.now }
    ensures { IsTagFault result table.now slot tag }
{
    let sector = tag.number;
    if sector as usize >= table.len() {
        return Finding::NoSuchSector { slot, sector };
    }
    match table[sector as usize] {
        LiveSlots::Absent => unreachable!(),
        LiveSlots::One(held) => Finding::NotNeighbours {
            first: held.slot,
            second: slot,
            sector,
        },
        LiveSlots::Two(newer, older) => Finding::ThreeSlots {
            first: newer.slot,
            second: older.slot,
            third: slot,
            sector,
        },
    }
}
