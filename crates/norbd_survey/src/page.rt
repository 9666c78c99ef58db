//! What is told of an image that can be mounted.

use crate::totals::{Totals, total};
use erase_journal::JournalTally;
use nor_layout::{BLOCK_LEN, Layout};
use sector_survey::BlockSummary;
use std::fmt;

/// What is told of an image of so many bytes that can be mounted: six lines.
#[derive(Clone, Copy)]
pub struct Page<'r> {
    pub layout: Layout,
    pub bytes: usize,
    pub counts: &'r JournalTally,
    pub blocks: &'r [BlockSummary],
}

/// The name of a layout.
pub(crate) fn name_of(layout: Layout) -> &'static str {
    match layout {
        Layout::Groups => "1",
        Layout::Sectors => "2",
        Layout::Mixed => "mixed",
    }
}

/// The sectors of a chip of so many bytes.
pub(crate) fn sectors_of(bytes: usize) -> usize {
    7 * (7 * (bytes / BLOCK_LEN as usize).saturating_sub(4) / 8)
}

/// The fewest votes that are left in a region.
pub(crate) fn fewest_votes(counts: &JournalTally) -> u16 {
    counts
        .j0_for_1
        .unused
        .min(counts.j0_for_2.unused)
        .min(counts.j1_for_0.unused)
        .min(counts.j1_for_2.unused)
        .min(counts.j2_for_0.unused)
        .min(counts.j2_for_1.unused)
}

/// Whether a vote or an entry is open: an erase goes on.
pub(crate) fn is_erasing(counts: &JournalTally) -> bool {
    counts.opened > 0
        || counts.j0_for_1.opened > 0
        || counts.j0_for_2.opened > 0
        || counts.j1_for_0.opened > 0
        || counts.j1_for_2.opened > 0
        || counts.j2_for_0.opened > 0
        || counts.j2_for_1.opened > 0
}

/// What goes on: copyings that were cut, and an erase. Void blocks beside a committed copy aren't
/// told here.
fn write_going<W: fmt::Write>(
    f: &mut fmt::Formatter<W>,
    totals: Totals,
    erasing: bool,
) -> fmt::Result {
    match totals.target {
        None => f.write_str("going on: no copying")?,
        Some(target) => match totals.source {
            None if totals.void > 1 => write!(
                f,
                "going on: copyings into {} blocks, to be begun anew",
                totals.void
            )?,
            None => write!(
                f,
                "going on: a copying into block {target}, to be begun anew"
            )?,
            Some(source) => {
                write!(
                    f,
                    "going on: a copying of block {source} into {target}, committed"
                )?;
            }
        },
    }
    if erasing {
        f.write_str(", an erase\n")
    } else {
        f.write_str(", no erase\n")
    }
}

impl fmt::Display for Page<'_> {
    fn fmt<W: fmt::Write>(&self, f: &mut fmt::Formatter<W>) -> fmt::Result {
        let totals = total(self.blocks);
        let name = name_of(self.layout);
        let kib = self.bytes / 1_024;
        let count = self.bytes / BLOCK_LEN as usize;
        writeln!(f, "layout {name}, {kib} KiB, {count} blocks")?;
        let free = self.counts.free;
        let used = 512u16.saturating_sub(free);
        let votes = fewest_votes(self.counts);
        writeln!(
            f,
            "journals: {used} entries used, {free} free; at least {votes} votes left"
        )?;
        let Totals {
            plain,
            void,
            committed,
            settled,
            groups,
            dead_groups,
            spare,
            ..
        } = totals;
        write!(
            f,
            "blocks: {plain} plain, of these {spare} wholly free, {void} void, "
        )?;
        writeln!(f, "{committed} committed, {settled} settled")?;
        writeln!(f, "blocks with a group: {groups} live, {dead_groups} dead")?;
        let Totals {
            free,
            live,
            dead,
            ..
        } = totals;
        writeln!(f, "slots: {free} free, {live} live, {dead} dead")?;
        write_going(f, totals, is_erasing(self.counts))
    }
}
