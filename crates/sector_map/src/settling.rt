//! What leaves nothing on a chip that an earlier session programmed: the journals are erased, and
//! each data block is (`SectorMap::renew`).

ghost use Rattle.std.specs.Prelude.{◌≡◌, ◌<◌, length, OnOk};
ghost use Rattle.std.specs.Result.{IsErrOf};
ghost use Rattle.erase_journal.specs.Journals.{unused};
ghost use Rattle.erase_journal.specs.Renewal.{RenewsAll};
ghost use Rattle.erase_journal.specs.Steps.{EndsFirmly};
ghost use Rattle.sector_slots.specs.Slots.{data_blocks, IsSpareIn};
ghost use Rattle.sector_stock.specs.Losses.{AreSuspect};
ghost use Rattle.sector_map.specs.Losses.{KeepsFirmly};
ghost use Rattle.sector_map.specs.Maps.{IsServing, KeepsMap, KeptServing};

use crate::firm::suspect_as;
use crate::steps::renew_one;
use crate::stock::Stock;
use crate::table::LiveSlots;
use erase_journal::Firmness;
use nor_driver::{Nor, NorError};
use sector_slots::SlotCalls;
use sector_stock::Reclaim;

/// Erases the three journals, and makes the index anew. No sector changes, and the table stays.
pub(crate) fn renew_journals<S: Reclaim>(
    stock: &mut S,
    table: &[LiveSlots],
    firmness: Firmness,
) -> Result<(), NorError>
    requires served { IsServing table.now (S.state stock.old) (S.indexed stock.old) }
    ensures ok { OnOk result (KeptServing table.now (S.state stock.old) (S.state stock.new)
        (S.indexed stock.new)) }
    ensures renews { OnOk result (RenewsAll (unused (S.state stock.old).memory)
        (unused (S.state stock.new).memory)) }
    ensures suspect { firmness ≡ Firmness.Firm → OnOk result (AreSuspect (S.counts stock.new)) }
    ensures firmly { firmness ≡ Firmness.Firm → KeepsFirmly result (S.state stock.old)
        (S.counts stock.old) (S.state stock.new) (S.counts stock.new) }
    ensures cut { IsErrOf result NorError.Cut
        → KeepsMap (S.state stock.old).memory (S.state stock.new).memory }
    ensures size { length (S.state stock.new).memory ≡ length (S.state stock.old).memory }
    ensures ends { EndsFirmly result (S.state stock.old) (S.state stock.new) }
{
    stock.renew_journals()?;
    stock.fill()?;
    suspect_as(stock, firmness);
    Ok(())
}

/// Erases a data block, however often the others were erased: what it holds is copied first. From
/// now on all blocks wear alike, and erases are counted anew. The table follows, and no sector
/// changes.
pub(crate) fn renew_block<N: Nor>(
    stock: &mut Stock<N>,
    table: &mut [LiveSlots],
    block: u16,
) -> Result<(), NorError>
    requires served { IsServing table.old (⟦<Stock<N> as SlotCalls>⟧.state stock.old)
        (⟦<Stock<N> as SlotCalls>⟧.indexed stock.old) }
    requires number { block < data_blocks (⟦<Stock<N> as SlotCalls>⟧.state stock.old).memory }
    ensures ok { OnOk result (KeptServing table.new (⟦<Stock<N> as SlotCalls>⟧.state stock.old)
        (⟦<Stock<N> as SlotCalls>⟧.state stock.new)
        (⟦<Stock<N> as SlotCalls>⟧.indexed stock.new)) }
    ensures erased { OnOk result (IsSpareIn (⟦<Stock<N> as SlotCalls>⟧.state stock.new).memory
        block) }
    ensures cut { IsErrOf result NorError.Cut
        → KeepsMap (⟦<Stock<N> as SlotCalls>⟧.state stock.old).memory
        (⟦<Stock<N> as SlotCalls>⟧.state stock.new).memory }
    ensures firmly { KeepsFirmly result (⟦<Stock<N> as SlotCalls>⟧.state stock.old)
        (⟦<Stock<N> as Reclaim>⟧.counts stock.old) (⟦<Stock<N> as SlotCalls>⟧.state stock.new)
        (⟦<Stock<N> as Reclaim>⟧.counts stock.new) }
    ensures table { length table.new ≡ length table.old }
    ensures size { length (⟦<Stock<N> as SlotCalls>⟧.state stock.new).memory
        ≡ length (⟦<Stock<N> as SlotCalls>⟧.state stock.old).memory }
    ensures ends { EndsFirmly result (⟦<Stock<N> as SlotCalls>⟧.state stock.old)
        (⟦<Stock<N> as SlotCalls>⟧.state stock.new) }
{
    stock.level_wear();
    renew_one(stock, table, block)
}
