//! The blocks and slots of a chip, in all.

use nor_layout::{FIRST_DATA_BLOCK, Kind};
use sector_survey::BlockSummary;

/// How many data blocks are of which kind, how many are wholly free, and how many of the slots that
/// count are free, live and dead; and a block into which a copying was cut, with the block that was
/// copied, both by their numbers on the chip: those of the committed copy, where there is one.
/// Source: own.
#[derive(Clone, Copy, Debug, PartialEq, Eq, Drop)]
pub struct Totals {
    pub plain: u32,
    pub void: u32,
    pub committed: u32,
    pub settled: u32,
    pub groups: u32,
    pub dead_groups: u32,
    pub wrong: u32,
    pub spare: u32,
    pub free: u32,
    pub live: u32,
    pub dead: u32,
    pub reserve: Option<u32>,
    pub target: Option<u32>,
    pub source: Option<u32>,
}

/// The totals of a chip whose data blocks say this.
pub fn total(blocks: &[BlockSummary]) -> Totals {
    let mut totals = Totals {
        plain: 0,
        void: 0,
        committed: 0,
        settled: 0,
        groups: 0,
        dead_groups: 0,
        wrong: 0,
        spare: 0,
        free: 0,
        live: 0,
        dead: 0,
        reserve: None,
        target: None,
        source: None,
    };
    let mut number = FIRST_DATA_BLOCK as u32;
    for block in blocks {
        totals = with_kind(totals, *block, number);
        number = number.saturating_add(1);
    }
    with_slots(totals, blocks)
}

/// One more block, of this number on the chip, by its kind.
fn with_kind(totals: Totals, block: BlockSummary, number: u32) -> Totals {
    let mut totals = totals;
    match block.kind {
        Kind::Plain => {
            totals.plain = totals.plain.saturating_add(1);
            if block.free == 7 {
                totals.spare = totals.spare.saturating_add(1);
                totals.reserve = Some(number);
            }
        }
        Kind::Void => {
            totals.void = totals.void.saturating_add(1);
            if totals.committed == 0 {
                totals.target = Some(number);
            }
        }
        Kind::Committed(source) => {
            totals.committed = totals.committed.saturating_add(1);
            totals.target = Some(number);
            totals.source = Some(source as u32);
        }
        Kind::Settled => totals.settled = totals.settled.saturating_add(1),
        Kind::Group(_) => totals.groups = totals.groups.saturating_add(1),
        Kind::DeadGroup => totals.dead_groups = totals.dead_groups.saturating_add(1),
        Kind::SpoiltGroup => totals.wrong = totals.wrong.saturating_add(1),
        Kind::Unknown => totals.wrong = totals.wrong.saturating_add(1),
    }
    totals
}

/// The slots of all blocks that count.
fn with_slots(totals: Totals, blocks: &[BlockSummary]) -> Totals {
    let mut totals = totals;
    let mut number = FIRST_DATA_BLOCK as u32;
    for block in blocks {
        if counts(*block, totals.source == Some(number)) {
            totals.free = totals.free.saturating_add(block.free as u32);
            totals.live = totals.live.saturating_add(block.live as u32);
            totals.dead = totals.dead.saturating_add(dead_of(*block) as u32);
        }
        number = number.saturating_add(1);
    }
    totals
}

/// Whether the slots of a block count, which may be the one of which there is a committed copy.
fn counts(block: BlockSummary, is_source: bool) -> bool {
    block.kind != Kind::Void && !is_source
}

/// The dead slots of a block.
pub(crate) fn dead_of(block: BlockSummary) -> u8 {
    7u8.saturating_sub(block.free).saturating_sub(block.live)
}
