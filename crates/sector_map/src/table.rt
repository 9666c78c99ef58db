//! The table in memory: the live slots of each sector, and how it follows a block that was copied.

ghost use Rattle.std.specs.Prelude.{◌≡◌, ◌<◌, length, ◌⊎◌, ◌≤◌, OnOk, IfErr, IfSome};
ghost use Rattle.chip_model.specs.Geometry.{sector_count};
ghost use Rattle.nor_layout.specs.declared.header.Header.TheVariants as headers;
ghost use Rattle.nor_layout.specs.declared.header.Tag.{Tag as TagOf};
ghost use Rattle.erase_journal.specs.Steps.{RefusesFirmly, SucceedsSettled, EndsFirmly};
ghost use Rattle.sector_slots.specs.Slots.{data_blocks};
ghost use Rattle.sector_slots.specs.Blocks.{AreSettled};
ghost use Rattle.sector_slots.specs.Sectors.{IsSingle, IsSoundMap};
ghost use Rattle.sector_map.specs.Table.{noted, holder, Enters, Heads, KeptOne, Unset};
ghost use Rattle.sector_map.specs.Scan.{Follows, FollowsHead, FollowsBlock, TableFollows, AreApart};

use nor_driver::NorError;
use nor_layout::{Generation, Header, Tag};
use sector_stock::{Copied, Reclaim};

/// The slot that holds a sector. Source: own.
#[derive(Clone, Copy, Debug, PartialEq, Eq, Drop)]
pub struct Held {
    /// The number of the slot, from 0 on.
    pub slot: u16,
    /// The generation of its content.
    pub generation: Generation,
}

/// The live slots of one sector. Source: own.
#[derive(Clone, Copy, Debug, PartialEq, Eq, Drop)]
pub enum LiveSlots {
    /// No slot holds the sector.
    Absent,
    /// One does.
    One(Held),
    /// Two do, the newer one first: a write of the sector was cut before it retired the older.
    Two(Held, Held),
}

impl LiveSlots {
    /// The slot that holds the sector: of two the newer one.
    pub fn holder(self) -> Option<Held>
        ensures { result ≡ holder self }
    {
        match self {
            LiveSlots::Absent => None,
            LiveSlots::One(held) => Some(held),
            LiveSlots::Two(newer, _) => Some(newer),
        }
    }
}

/// The entry once one more live slot of the sector was found; None if no write leaves these slots.
/// There are four generations, round and round: of two neighbours exactly one is the other's next,
/// and that is the newer.
pub(crate) fn note(entry: LiveSlots, held: Held) -> Option<LiveSlots>
    ensures { result ≡ noted entry held }
{
    match entry {
        LiveSlots::Absent => Some(LiveSlots::One(held)),
        LiveSlots::One(first) => {
            if held.generation == first.generation.next() {
                Some(LiveSlots::Two(held, first))
            } else if first.generation == held.generation.next() {
                Some(LiveSlots::Two(first, held))
            } else {
                None
            }
        }
        LiveSlots::Two(_, _) => None,
    }
}

/// Enters a live slot into the table; false, and nothing changes, where its sector is none of the
/// table's or the slots are corrupt.
pub(crate) fn enter(table: &mut [LiveSlots], tag: Tag, slot: u16) -> bool
    ensures { Enters table.old tag.number (record { slot = slot; generation = tag.generation })
        result table.new }
{
    let sector = tag.number as usize;
    if sector >= table.len() {
        return false;
    }
    let held = Held {
        slot,
        generation: tag.generation,
    };
    match note(table[sector], held) {
        Some(entry) => {
            table[sector] = entry;
            true
        }
        None => false,
    }
}

/// Enters a slot that counts, by its descriptor; false, and nothing changes, where the slots are
/// corrupt.
pub fn enter_head(table: &mut [LiveSlots], slot: u16, header: Header) -> bool
    ensures { Heads table.old slot header result table.new }
{
    match header {
        Header::Free => true,
        Header::Live(tag) => enter(table, tag, slot),
        Header::NoGeneration => false,
        Header::Dead => true,
    }
}

/// Leaves one slot in the entry of a sector.
pub(crate) fn keep_one(table: &mut [LiveSlots], sector: usize, held: Held)
    requires number { sector < length table.old }
    ensures { KeptOne table.old sector held table.new }
{
    table[sector] = LiveSlots::One(held);
}

/// Leaves no slot in the entry of a sector.
pub(crate) fn unset(table: &mut [LiveSlots], sector: usize)
    requires number { sector < length table.old }
    ensures { Unset table.old sector table.new }
{
    table[sector] = LiveSlots::Absent;
}

/// After a block copy, points the entries of the sectors at the target's slots, by one read. If
/// none was copied, does nothing.
pub(crate) fn follow_copied<S: Reclaim>(
    slots: &mut S,
    table: &mut [LiveSlots],
    copied: Option<Copied>,
) -> Result<(), NorError>
    requires number { IfSome copied (λ c. c.target < data_blocks (S.state slots.old).memory) }
    requires size { length table.old ≡ sector_count (length (S.state slots.old).memory) }
    requires sound { IsSoundMap (S.state slots.old).memory }
    requires single { IsSingle (S.state slots.old).memory }
    requires blocks { AreSettled (S.state slots.old).memory }
    ensures ok { OnOk result (TableFollows copied table.old table.new (S.state slots.old).memory) }
    ensures size { length table.new ≡ length table.old }
    ensures same { (S.state slots.new).memory ≡ (S.state slots.old).memory }
    ensures weak { (S.state slots.new).weak ≡ (S.state slots.old).weak }
    ensures index { S.indexed slots.new ≡ S.indexed slots.old }
    ensures policy { S.policy slots.new ≡ S.policy slots.old }
    ensures counted { S.counts slots.new ≡ S.counts slots.old }
    ensures done { OnOk result ((S.state slots.new ≡ S.state slots.old)
        ⊎ SucceedsSettled (S.state slots.old) (S.state slots.new)) }
    ensures fails { IfErr result (λ e. RefusesFirmly e (S.state slots.old) (S.state slots.new)) }
{
    match copied {
        Some(copied) => follow_block(slots, table, copied.target),
        None => Ok(()),
    }
}

/// Names the slots of a block in the entries of their sectors.
pub(crate) fn follow_block<S: Reclaim>(
    slots: &mut S,
    table: &mut [LiveSlots],
    block: u16,
) -> Result<(), NorError>
    requires number { block < data_blocks (S.state slots.old).memory }
    requires size { length table.old ≡ sector_count (length (S.state slots.old).memory) }
    requires sound { IsSoundMap (S.state slots.old).memory }
    requires single { IsSingle (S.state slots.old).memory }
    requires blocks { AreSettled (S.state slots.old).memory }
    ensures ok { OnOk result (FollowsBlock block table.old table.new (S.state slots.old).memory) }
    ensures size { length table.new ≡ length table.old }
    ensures same { (S.state slots.new).memory ≡ (S.state slots.old).memory }
    ensures weak { (S.state slots.new).weak ≡ (S.state slots.old).weak }
    ensures index { S.indexed slots.new ≡ S.indexed slots.old }
    ensures policy { S.policy slots.new ≡ S.policy slots.old }
    ensures counted { S.counts slots.new ≡ S.counts slots.old }
    ensures ends { EndsFirmly result (S.state slots.old) (S.state slots.new) }
{
    // Gives the bound of `block`.
    let _count = slots.blocks();
    let mut heads = [Header::Free; 7];
    slots.descriptors(block, &mut heads)?;
    follow_heads(table, block, &heads);
    Ok(())
}

/// Names the slots with these descriptors in the entries of their sectors.
fn follow_heads(table: &mut [LiveSlots], block: u16, heads: &[Header])
    requires number { block ≤ 4092 }
    requires room { length heads.now ≡ 7 }
    requires apart { AreApart heads.now (length table.old) }
    ensures { Follows 7 block heads.now table.old table.new }
{
    for place in 0..7u16 {
        let slot = 7 * block + place;
        follow_head(table, slot, heads[place as usize]);
    }
}

/// Names a slot in its sector's entry, where it is live.
fn follow_head(table: &mut [LiveSlots], slot: u16, header: Header)
    requires within { (tag : TagOf) → header ≡ headers.Live tag → tag.number < length table.old }
    ensures { FollowsHead slot header table.old table.new }
{
    match header {
        Header::Live(tag) => {
            let held = Held {
                slot,
                generation: tag.generation,
            };
            keep_one(table, tag.number as usize, held);
        }
        Header::Free => {}
        Header::NoGeneration => {}
        Header::Dead => {}
    }
}
