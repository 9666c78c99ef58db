//! What a mounted map does in a call, over a stock and the table: a write, a clearing, a read, a
//! tidying.

ghost use Rattle.std.specs.Prelude.{◌≡◌, ◌⊎◌, ◌<◌, ◌≤◌, length, OnOk, IfOk, IfErr, IsTrue, IsFalse};
ghost use Rattle.std.specs.Prelude.{ℕ, true, Some, None, IfSome};
ghost use Rattle.std.specs.Result.{IsErrOf};
ghost use Rattle.nor_driver.specs.State.{IsNorReady, bits_in};
ghost use Rattle.erase_journal.specs.Steps.{RefusesFirmly, SucceedsSettled, EndsFirmly};
ghost use Rattle.erase_journal.specs.Blocks.{SameChip};
ghost use Rattle.erase_journal.specs.Journals.{IsHealthy, IsSettled};
ghost use Rattle.sector_slots.specs.Sectors.{sector_at, zeros, IsSingle, IsSoundMap};
ghost use Rattle.sector_slots.specs.Slots.{slot_count, data_blocks, IsSpareIn};
ghost use Rattle.sector_stock.specs.Takes.{urgent_work, work_of, IsErasedOnce, IsLeastErased};
ghost use Rattle.sector_stock.specs.Takes.{GivesTrusted, TrustsReserve};
ghost use Rattle.sector_stock.specs.Index.{erases_of};
ghost use Rattle.sector_stock.specs.Losses.{TakesSector};
ghost use Rattle.sector_stock.specs.Room.{HasNoneDead};
ghost use Rattle.sector_map.specs.Replace.{IsInSlots, HeldBy, generation_after, IsReplaceable};
ghost use Rattle.sector_map.specs.Replace.{tag_after};
ghost use Rattle.sector_map.specs.Replace.{Rewrites, RewriteLeaves};
ghost use Rattle.sector_map.specs.Maps.{IsServing, KeepsMap, SetLeaves, Wrote, KeptServing};
ghost use Rattle.sector_map.specs.Maps.{IsEven, Nearer};
ghost use Rattle.sector_map.specs.Losses.{KeepsFirmly, SetsFirmly};

use crate::Held;
use crate::stock::Stock;
use crate::table::{LiveSlots, follow_copied, keep_one, unset};
use nor_driver::{Nor, NorError};
use nor_layout::{Generation, Tag};
use sector_slots::SlotCalls;
use sector_stock::{Purpose, RENEW_NOW, RENEW_SOON, Reclaim};

/// Writes a sector into a slot that it takes, and retires the slot that held it, if one did. Before
/// that it levels wear, converts a block that holds the sector with its group, and makes the block
/// of the slot firm, and the reserve if need be, where they are suspect.
pub(crate) fn write_levelled<S: Reclaim>(
    stock: &mut S,
    table: &mut [LiveSlots],
    sector: u16,
    content: &[u8],
) -> Result<(), NorError>
    requires served { IsServing table.old (S.state stock.old) (S.indexed stock.old) }
    requires number { sector < length table.old }
    requires size { length content.now ≡ 512 }
    ensures ok { OnOk result (Wrote sector content.now table.new (S.state stock.old)
        (S.state stock.new) (S.indexed stock.new)) }
    ensures cut { IsErrOf result NorError.Cut
        → SetLeaves sector content.now (S.state stock.old).memory (S.state stock.new).memory }
    ensures firmly { SetsFirmly sector content.now result (S.state stock.old) (S.counts stock.old)
        (S.state stock.new) (S.counts stock.new) }
    ensures table { length table.new ≡ length table.old }
    ensures size { length (S.state stock.new).memory ≡ length (S.state stock.old).memory }
    ensures ends { EndsFirmly result (S.state stock.old) (S.state stock.new) }
{
    make_way(stock, table, sector)?;
    stock.firm_free()?;
    write_ungrouped(stock, table, sector, content)
}

/// Levels wear, and converts the block that holds a sector with its group, if one does. The table
/// follows, and no sector changes.
fn make_way<S: Reclaim>(stock: &mut S, table: &mut [LiveSlots], sector: u16) -> Result<(), NorError>
    requires served { IsServing table.old (S.state stock.old) (S.indexed stock.old) }
    requires number { sector < length table.old }
    ensures ok { OnOk result (KeptServing table.new (S.state stock.old) (S.state stock.new)
        (S.indexed stock.new)) }
    ensures own { OnOk result (IsInSlots sector (S.state stock.new).memory) }
    ensures even { OnOk result (IsEven 31 (S.policy stock.new)
        (data_blocks (S.state stock.new).memory) (S.counts stock.new)) }
    ensures cut { IsErrOf result NorError.Cut
        → KeepsMap (S.state stock.old).memory (S.state stock.new).memory }
    ensures firmly { KeepsFirmly result (S.state stock.old) (S.counts stock.old)
        (S.state stock.new) (S.counts stock.new) }
    ensures table { length table.new ≡ length table.old }
    ensures size { length (S.state stock.new).memory ≡ length (S.state stock.old).memory }
    ensures ends { EndsFirmly result (S.state stock.old) (S.state stock.new) }
{
    level_all(stock, table, Purpose::Give)?;
    leave_group(stock, table, sector)
}

/// Renews what lags behind, and moves a block whose sectors rest, if it is time for it. The table
/// follows, and no sector changes.
fn level_all<S: Reclaim>(
    stock: &mut S,
    table: &mut [LiveSlots],
    purpose: Purpose,
) -> Result<(), NorError>
    requires served { IsServing table.old (S.state stock.old) (S.indexed stock.old) }
    ensures ok { OnOk result (KeptServing table.new (S.state stock.old) (S.state stock.new)
        (S.indexed stock.new)) }
    ensures work { OnOk result (work_of (S.state stock.new).memory
        ≤ work_of (S.state stock.old).memory) }
    ensures even { OnOk result (IsEven 30 (S.policy stock.new)
        (data_blocks (S.state stock.new).memory) (S.counts stock.new)) }
    ensures cut { IsErrOf result NorError.Cut
        → KeepsMap (S.state stock.old).memory (S.state stock.new).memory }
    ensures firmly { KeepsFirmly result (S.state stock.old) (S.counts stock.old)
        (S.state stock.new) (S.counts stock.new) }
    ensures table { length table.new ≡ length table.old }
    ensures size { length (S.state stock.new).memory ≡ length (S.state stock.old).memory }
    ensures ends { EndsFirmly result (S.state stock.old) (S.state stock.new) }
{
    even_out(stock, table)?;
    move_if_due(stock, table, purpose)
}

/// Renews one block that lags behind, before so many do that a call would have to wait for them.
/// The table follows, and no sector changes.
fn renew_soon<S: Reclaim>(stock: &mut S, table: &mut [LiveSlots]) -> Result<(), NorError>
    requires served { IsServing table.old (S.state stock.old) (S.indexed stock.old) }
    requires even { IsEven 29 (S.policy stock.old) (data_blocks (S.state stock.old).memory)
        (S.counts stock.old) }
    ensures ok { OnOk result (KeptServing table.new (S.state stock.old) (S.state stock.new)
        (S.indexed stock.new)) }
    ensures even { OnOk result (IsEven 29 (S.policy stock.new)
        (data_blocks (S.state stock.new).memory) (S.counts stock.new)) }
    ensures work { OnOk result (work_of (S.state stock.new).memory
        ≤ work_of (S.state stock.old).memory) }
    ensures cut { IsErrOf result NorError.Cut
        → KeepsMap (S.state stock.old).memory (S.state stock.new).memory }
    ensures firmly { KeepsFirmly result (S.state stock.old) (S.counts stock.old)
        (S.state stock.new) (S.counts stock.new) }
    ensures table { length table.new ≡ length table.old }
    ensures size { length (S.state stock.new).memory ≡ length (S.state stock.old).memory }
    ensures ends { EndsFirmly result (S.state stock.old) (S.state stock.new) }
{
    match stock.lagging(RENEW_SOON) {
        Some(block) => renew_one(stock, table, block),
        None => Ok(()),
    }
}

/// Renews what lags behind the others by its erases. The table follows, and no sector changes.
fn even_out<S: Reclaim>(stock: &mut S, table: &mut [LiveSlots]) -> Result<(), NorError>
    requires served { IsServing table.old (S.state stock.old) (S.indexed stock.old) }
    ensures ok { OnOk result (KeptServing table.new (S.state stock.old) (S.state stock.new)
        (S.indexed stock.new)) }
    ensures even { OnOk result (IsEven 29 (S.policy stock.new)
        (data_blocks (S.state stock.new).memory) (S.counts stock.new)) }
    ensures work { OnOk result (work_of (S.state stock.new).memory
        ≤ work_of (S.state stock.old).memory) }
    ensures cut { IsErrOf result NorError.Cut
        → KeepsMap (S.state stock.old).memory (S.state stock.new).memory }
    ensures firmly { KeepsFirmly result (S.state stock.old) (S.counts stock.old)
        (S.state stock.new) (S.counts stock.new) }
    ensures table { length table.new ≡ length table.old }
    ensures size { length (S.state stock.new).memory ≡ length (S.state stock.old).memory }
    ensures ends { EndsFirmly result (S.state stock.old) (S.state stock.new) }
{
    // What lags far behind lags behind by fewer, too: where nothing does, one question is enough.
    let Some(_) = stock.lagging(RENEW_SOON) else {
        return Ok(());
    };
    renew_now(stock, table)?;
    renew_soon(stock, table)
}

/// Renews all blocks that lag too far behind the others. The table follows, and no sector changes.
fn renew_now<S: Reclaim>(stock: &mut S, table: &mut [LiveSlots]) -> Result<(), NorError>
    requires served { IsServing table.old (S.state stock.old) (S.indexed stock.old) }
    ensures ok { OnOk result (KeptServing table.new (S.state stock.old) (S.state stock.new)
        (S.indexed stock.new)) }
    ensures even { OnOk result (IsEven 29 (S.policy stock.new)
        (data_blocks (S.state stock.new).memory) (S.counts stock.new)) }
    ensures work { OnOk result (work_of (S.state stock.new).memory
        ≤ work_of (S.state stock.old).memory) }
    ensures cut { IsErrOf result NorError.Cut
        → KeepsMap (S.state stock.old).memory (S.state stock.new).memory }
    ensures firmly { KeepsFirmly result (S.state stock.old) (S.counts stock.old)
        (S.state stock.new) (S.counts stock.new) }
    ensures table { length table.new ≡ length table.old }
    ensures size { length (S.state stock.new).memory ≡ length (S.state stock.old).memory }
    ensures ends { EndsFirmly result (S.state stock.old) (S.state stock.new) }
{
    // No two blocks differ by more than 32, and each round makes that one less.
    for _round in 0..3u8 {
        let Some(block) = stock.lagging(RENEW_NOW) else {
            return Ok(());
        };
        renew_all(stock, table, block)?;
    }
    Ok(())
}

/// Renews each block that was erased as often as this one, which none was erased less often than.
fn renew_all<S: Reclaim>(stock: &mut S, table: &mut [LiveSlots], least: u16) -> Result<(), NorError>
    requires served { IsServing table.old (S.state stock.old) (S.indexed stock.old) }
    requires least { IsLeastErased least (data_blocks (S.state stock.old).memory)
        (erases_of (S.counts stock.old)) }
    requires fits { erases_of (S.counts stock.old) least < 65535 }
    ensures ok { OnOk result (KeptServing table.new (S.state stock.old) (S.state stock.new)
        (S.indexed stock.new)) }
    ensures nearer { OnOk result (Nearer (data_blocks (S.state stock.old).memory)
        (erases_of (S.counts stock.old)) (erases_of (S.counts stock.new))) }
    ensures policy { OnOk result (S.policy stock.new ≡ S.policy stock.old) }
    ensures work { OnOk result (work_of (S.state stock.new).memory
        ≤ work_of (S.state stock.old).memory) }
    ensures cut { IsErrOf result NorError.Cut
        → KeepsMap (S.state stock.old).memory (S.state stock.new).memory }
    ensures firmly { KeepsFirmly result (S.state stock.old) (S.counts stock.old)
        (S.state stock.new) (S.counts stock.new) }
    ensures table { length table.new ≡ length table.old }
    ensures size { length (S.state stock.new).memory ≡ length (S.state stock.old).memory }
    ensures ends { EndsFirmly result (S.state stock.old) (S.state stock.new) }
{
    let count = stock.blocks();
    let fewest = stock.erases(least);
    for block in 0..count {
        if stock.erases(block) == fewest {
            renew_one(stock, table, block)?;
        }
    }
    Ok(())
}

/// Erases a block once more, which none was erased less often than: it is wholly free then. The
/// table follows, and no sector changes.
pub(crate) fn renew_one<S: Reclaim>(
    stock: &mut S,
    table: &mut [LiveSlots],
    block: u16,
) -> Result<(), NorError>
    requires served { IsServing table.old (S.state stock.old) (S.indexed stock.old) }
    requires number { block < data_blocks (S.state stock.old).memory }
    requires least { (c : ℕ) → c < data_blocks (S.state stock.old).memory
        → erases_of (S.counts stock.old) block ≤ erases_of (S.counts stock.old) c }
    ensures ok { OnOk result (KeptServing table.new (S.state stock.old) (S.state stock.new)
        (S.indexed stock.new)) }
    ensures erased { OnOk result (IsSpareIn (S.state stock.new).memory block) }
    ensures counted { OnOk result (IsErasedOnce (data_blocks (S.state stock.old).memory) block
        (erases_of (S.counts stock.old)) (erases_of (S.counts stock.new))) }
    ensures policy { OnOk result (S.policy stock.new ≡ S.policy stock.old) }
    ensures work { OnOk result (work_of (S.state stock.new).memory
        ≤ work_of (S.state stock.old).memory) }
    ensures cut { IsErrOf result NorError.Cut
        → KeepsMap (S.state stock.old).memory (S.state stock.new).memory }
    ensures firmly { KeepsFirmly result (S.state stock.old) (S.counts stock.old)
        (S.state stock.new) (S.counts stock.new) }
    ensures table { length table.new ≡ length table.old }
    ensures size { length (S.state stock.new).memory ≡ length (S.state stock.old).memory }
    ensures ends { EndsFirmly result (S.state stock.old) (S.state stock.new) }
{
    match stock.renew(block)? {
        Some(copied) => {
            follow_copied(stock, table, Some(copied))?;
            Ok(())
        }
        None => Ok(()),
    }
}

/// Moves a block whose sectors rest, if it is time for it. The table follows, and no sector
/// changes.
fn move_if_due<S: Reclaim>(
    stock: &mut S,
    table: &mut [LiveSlots],
    purpose: Purpose,
) -> Result<(), NorError>
    requires served { IsServing table.old (S.state stock.old) (S.indexed stock.old) }
    requires even { IsEven 29 (S.policy stock.old) (data_blocks (S.state stock.old).memory)
        (S.counts stock.old) }
    ensures ok { OnOk result (KeptServing table.new (S.state stock.old) (S.state stock.new)
        (S.indexed stock.new)) }
    ensures work { OnOk result (work_of (S.state stock.new).memory
        ≤ work_of (S.state stock.old).memory) }
    ensures left { OnOk result (((S.state stock.new).memory ≡ (S.state stock.old).memory)
        ⊎ (HasNoneDead (S.state stock.new).memory → ⊥)) }
    ensures even { OnOk result (IsEven 30 (S.policy stock.new)
        (data_blocks (S.state stock.new).memory) (S.counts stock.new)) }
    ensures cut { IsErrOf result NorError.Cut
        → KeepsMap (S.state stock.old).memory (S.state stock.new).memory }
    ensures firmly { KeepsFirmly result (S.state stock.old) (S.counts stock.old)
        (S.state stock.new) (S.counts stock.new) }
    ensures table { length table.new ≡ length table.old }
    ensures size { length (S.state stock.new).memory ≡ length (S.state stock.old).memory }
    ensures ends { EndsFirmly result (S.state stock.old) (S.state stock.new) }
{
    match stock.level(purpose)? {
        Some(moved) => {
            follow_copied(stock, table, Some(moved))?;
            Ok(())
        }
        None => Ok(()),
    }
}

/// Converts the block that holds a sector with its group, if one does: no such block does then. The
/// table follows, and no sector changes.
fn leave_group<S: Reclaim>(
    stock: &mut S,
    table: &mut [LiveSlots],
    sector: u16,
) -> Result<(), NorError>
    requires served { IsServing table.old (S.state stock.old) (S.indexed stock.old) }
    requires even { IsEven 30 (S.policy stock.old) (data_blocks (S.state stock.old).memory)
        (S.counts stock.old) }
    requires number { sector < length table.old }
    ensures ok { OnOk result (KeptServing table.new (S.state stock.old) (S.state stock.new)
        (S.indexed stock.new)) }
    ensures own { OnOk result (IsInSlots sector (S.state stock.new).memory) }
    ensures even { OnOk result (IsEven 31 (S.policy stock.new)
        (data_blocks (S.state stock.new).memory) (S.counts stock.new)) }
    ensures cut { IsErrOf result NorError.Cut
        → KeepsMap (S.state stock.old).memory (S.state stock.new).memory }
    ensures firmly { KeepsFirmly result (S.state stock.old) (S.counts stock.old)
        (S.state stock.new) (S.counts stock.new) }
    ensures table { length table.new ≡ length table.old }
    ensures size { length (S.state stock.new).memory ≡ length (S.state stock.old).memory }
    ensures done { OnOk result ((S.state stock.new ≡ S.state stock.old)
        ⊎ SucceedsSettled (S.state stock.old) (S.state stock.new)) }
    ensures fails { IfErr result (λ e. RefusesFirmly e (S.state stock.old) (S.state stock.new)) }
{
    let Some(held) = table[sector as usize].holder() else {
        return Ok(());
    };
    if !stock.is_group(held.slot) {
        return Ok(());
    }
    let copied = stock.convert(held.slot / 7)?;
    follow_copied(stock, table, Some(copied))?;
    Ok(())
}

/// Writes a sector that no block with its group holds.
fn write_ungrouped<S: Reclaim>(
    stock: &mut S,
    table: &mut [LiveSlots],
    sector: u16,
    content: &[u8],
) -> Result<(), NorError>
    requires served { IsServing table.old (S.state stock.old) (S.indexed stock.old) }
    requires even { IsEven 31 (S.policy stock.old) (data_blocks (S.state stock.old).memory)
        (S.counts stock.old) }
    requires own { IsInSlots sector (S.state stock.old).memory }
    requires number { sector < length table.old }
    requires size { length content.now ≡ 512 }
    ensures ok { OnOk result (Wrote sector content.now table.new (S.state stock.old)
        (S.state stock.new) (S.indexed stock.new)) }
    ensures cut { IsErrOf result NorError.Cut
        → SetLeaves sector content.now (S.state stock.old).memory (S.state stock.new).memory }
    ensures firmly { GivesTrusted (S.policy stock.old) (S.cursors stock.old) (S.counts stock.old)
        (S.state stock.old).memory
        → TrustsReserve (S.policy stock.old) (S.cursors stock.old) (S.counts stock.old)
        (S.state stock.old).memory
        → SetsFirmly sector content.now result (S.state stock.old) (S.counts stock.old)
        (S.state stock.new) (S.counts stock.new) }
    ensures table { length table.new ≡ length table.old }
    ensures size { length (S.state stock.new).memory ≡ length (S.state stock.old).memory }
    ensures ends { EndsFirmly result (S.state stock.old) (S.state stock.new) }
{
    let given = stock.take_free()?;
    follow_copied(stock, table, given.copied)?;
    let holder = table[sector as usize].holder();
    let held = rewrite(stock, given.slot, holder, sector, content)?;
    keep_one(table, sector as usize, held);
    Ok(())
}

/// Copies a block with the most dead slots; if no slot is dead, converts the lowest-numbered block
/// that is live with a group. If there is neither, nothing changes: false. Before that blocks that
/// lag behind are renewed, and if it is time for it, a block is moved for its wear.
pub(crate) fn tidy_levelled<S: Reclaim>(
    stock: &mut S,
    table: &mut [LiveSlots],
) -> Result<bool, NorError>
    requires served { IsServing table.old (S.state stock.old) (S.indexed stock.old) }
    ensures ok { OnOk result (KeptServing table.new (S.state stock.old) (S.state stock.new)
        (S.indexed stock.new)) }
    ensures fewer { IfOk result (λ more. IsTrue more
        → work_of (S.state stock.new).memory < work_of (S.state stock.old).memory) }
    ensures none { IfOk result (λ more. IsFalse more → work_of (S.state stock.old).memory ≡ 0) }
    ensures unchanged { IfOk result (λ more. IsFalse more
        → (S.state stock.new).memory ≡ (S.state stock.old).memory) }
    ensures cut { IsErrOf result NorError.Cut
        → KeepsMap (S.state stock.old).memory (S.state stock.new).memory }
    ensures firmly { KeepsFirmly result (S.state stock.old) (S.counts stock.old)
        (S.state stock.new) (S.counts stock.new) }
    ensures table { length table.new ≡ length table.old }
    ensures size { length (S.state stock.new).memory ≡ length (S.state stock.old).memory }
    ensures ends { EndsFirmly result (S.state stock.old) (S.state stock.new) }
{
    if !stock.has_work() {
        return Ok(false);
    }
    level_all(stock, table, Purpose::Tidy)?;
    tidy_once(stock, table)?;
    Ok(true)
}

/// Tidies, and moves no block for its wear.
fn tidy_once<S: Reclaim>(stock: &mut S, table: &mut [LiveSlots]) -> Result<bool, NorError>
    requires served { IsServing table.old (S.state stock.old) (S.indexed stock.old) }
    requires even { IsEven 31 (S.policy stock.old) (data_blocks (S.state stock.old).memory)
        (S.counts stock.old) }
    ensures ok { OnOk result (KeptServing table.new (S.state stock.old) (S.state stock.new)
        (S.indexed stock.new)) }
    ensures fewer { IfOk result (λ more. IsTrue more
        → work_of (S.state stock.new).memory < work_of (S.state stock.old).memory) }
    ensures none { IfOk result (λ more. IsFalse more → work_of (S.state stock.old).memory ≡ 0) }
    ensures empty { IfOk result (λ more. IsFalse more → HasNoneDead (S.state stock.old).memory) }
    ensures unchanged { IfOk result (λ more. IsFalse more
        → (S.state stock.new).memory ≡ (S.state stock.old).memory) }
    ensures cut { IsErrOf result NorError.Cut
        → KeepsMap (S.state stock.old).memory (S.state stock.new).memory }
    ensures firmly { KeepsFirmly result (S.state stock.old) (S.counts stock.old)
        (S.state stock.new) (S.counts stock.new) }
    ensures table { length table.new ≡ length table.old }
    ensures size { length (S.state stock.new).memory ≡ length (S.state stock.old).memory }
    ensures ends { EndsFirmly result (S.state stock.old) (S.state stock.new) }
{
    match stock.tidy()? {
        Some(copied) => {
            follow_copied(stock, table, Some(copied))?;
            Ok(true)
        }
        None => Ok(false),
    }
}

/// Does what `tidy_levelled` does while few slots are free; else nothing: false.
pub(crate) fn tidy_when_short<S: Reclaim>(
    stock: &mut S,
    table: &mut [LiveSlots],
) -> Result<bool, NorError>
    requires served { IsServing table.old (S.state stock.old) (S.indexed stock.old) }
    ensures ok { OnOk result (KeptServing table.new (S.state stock.old) (S.state stock.new)
        (S.indexed stock.new)) }
    ensures fewer { IfOk result (λ more. IsTrue more
        → urgent_work (S.state stock.new).memory < urgent_work (S.state stock.old).memory) }
    ensures none { IfOk result (λ more. IsFalse more
        → urgent_work (S.state stock.old).memory ≡ 0) }
    ensures unchanged { IfOk result (λ more. IsFalse more
        → (S.state stock.new).memory ≡ (S.state stock.old).memory) }
    ensures cut { IsErrOf result NorError.Cut
        → KeepsMap (S.state stock.old).memory (S.state stock.new).memory }
    ensures firmly { KeepsFirmly result (S.state stock.old) (S.counts stock.old)
        (S.state stock.new) (S.counts stock.new) }
    ensures table { length table.new ≡ length table.old }
    ensures size { length (S.state stock.new).memory ≡ length (S.state stock.old).memory }
    ensures ends { EndsFirmly result (S.state stock.old) (S.state stock.new) }
{
    if !stock.is_short() {
        return Ok(false);
    }
    tidy_levelled(stock, table)
}

/// Retires the slot that holds a sector, if one does; the sector is absent then, and reads as
/// zeros. Before that it levels wear, and converts a block that holds the sector with its group.
pub(crate) fn clear_levelled<S: Reclaim>(
    stock: &mut S,
    table: &mut [LiveSlots],
    sector: u16,
) -> Result<(), NorError>
    requires served { IsServing table.old (S.state stock.old) (S.indexed stock.old) }
    requires number { sector < length table.old }
    ensures ok { OnOk result (Wrote sector zeros table.new (S.state stock.old) (S.state stock.new)
        (S.indexed stock.new)) }
    ensures cut { IsErrOf result NorError.Cut
        → SetLeaves sector zeros (S.state stock.old).memory (S.state stock.new).memory }
    ensures firmly { sector_at (S.state stock.old).memory sector ≡ zeros → KeepsFirmly result
        (S.state stock.old) (S.counts stock.old) (S.state stock.new) (S.counts stock.new) }
    ensures table { length table.new ≡ length table.old }
    ensures size { length (S.state stock.new).memory ≡ length (S.state stock.old).memory }
    ensures ends { EndsFirmly result (S.state stock.old) (S.state stock.new) }
{
    make_way(stock, table, sector)?;
    clear_ungrouped(stock, table, sector)
}

/// Clears a sector where torn bits may waver. A sector that is held is written with zeros first: no
/// one bit decides between its content and none, as the retirement alone would.
pub fn clear_firmly<S: Reclaim>(
    stock: &mut S,
    table: &mut [LiveSlots],
    sector: u16,
) -> Result<(), NorError>
    requires served { IsServing table.old (S.state stock.old) (S.indexed stock.old) }
    requires number { sector < length table.old }
    ensures ok { OnOk result (Wrote sector zeros table.new (S.state stock.old) (S.state stock.new)
        (S.indexed stock.new)) }
    ensures cut { IsErrOf result NorError.Cut
        → SetLeaves sector zeros (S.state stock.old).memory (S.state stock.new).memory }
    ensures firmly { SetsFirmly sector zeros result (S.state stock.old) (S.counts stock.old)
        (S.state stock.new) (S.counts stock.new) }
    ensures table { length table.new ≡ length table.old }
    ensures size { length (S.state stock.new).memory ≡ length (S.state stock.old).memory }
    ensures ends { EndsFirmly result (S.state stock.old) (S.state stock.new) }
{
    match table[sector as usize].holder() {
        Some(_) => clear_written(stock, table, sector),
        None => clear_levelled(stock, table, sector),
    }
}

/// Writes a sector with zeros, and clears it.
fn clear_written<S: Reclaim>(
    stock: &mut S,
    table: &mut [LiveSlots],
    sector: u16,
) -> Result<(), NorError>
    requires served { IsServing table.old (S.state stock.old) (S.indexed stock.old) }
    requires number { sector < length table.old }
    ensures ok { OnOk result (Wrote sector zeros table.new (S.state stock.old) (S.state stock.new)
        (S.indexed stock.new)) }
    ensures cut { IsErrOf result NorError.Cut
        → SetLeaves sector zeros (S.state stock.old).memory (S.state stock.new).memory }
    ensures firmly { SetsFirmly sector zeros result (S.state stock.old) (S.counts stock.old)
        (S.state stock.new) (S.counts stock.new) }
    ensures table { length table.new ≡ length table.old }
    ensures size { length (S.state stock.new).memory ≡ length (S.state stock.old).memory }
    ensures ends { EndsFirmly result (S.state stock.old) (S.state stock.new) }
{
    write_levelled(stock, table, sector, &[0; 512])?;
    clear_levelled(stock, table, sector)
}

/// Clears a sector that no block with its group holds.
fn clear_ungrouped<S: Reclaim>(
    stock: &mut S,
    table: &mut [LiveSlots],
    sector: u16,
) -> Result<(), NorError>
    requires served { IsServing table.old (S.state stock.old) (S.indexed stock.old) }
    requires own { IsInSlots sector (S.state stock.old).memory }
    requires number { sector < length table.old }
    ensures ok { OnOk result (Wrote sector zeros table.new (S.state stock.old) (S.state stock.new)
        (S.indexed stock.new)) }
    ensures cut { IsErrOf result NorError.Cut
        → SetLeaves sector zeros (S.state stock.old).memory (S.state stock.new).memory }
    ensures firmly { sector_at (S.state stock.old).memory sector ≡ zeros → KeepsFirmly result
        (S.state stock.old) (S.counts stock.old) (S.state stock.new) (S.counts stock.new) }
    ensures table { length table.new ≡ length table.old }
    ensures size { length (S.state stock.new).memory ≡ length (S.state stock.old).memory }
    ensures ends { EndsFirmly result (S.state stock.old) (S.state stock.new) }
{
    match table[sector as usize].holder() {
        Some(held) => {
            stock.release(held.slot)?;
            unset(table, sector as usize);
            Ok(())
        }
        None => Ok(()),
    }
}

/// Writes a sector's content, 512 bytes, into the free slot `to`, and then retires the slot that
/// held the sector, if one did. Gives the sector's new holder, whose generation is the one after
/// the old holder's, or the first. Cut, it leaves every sector as it was, or this one new.
pub(crate) fn rewrite<S: Reclaim>(
    stock: &mut S,
    to: u16,
    holder: Option<Held>,
    sector: u16,
    content: &[u8],
) -> Result<Held, NorError>
    requires number { to < slot_count (S.state stock.old).memory }
    requires holder { IfSome holder (λ held. held.slot < slot_count (S.state stock.old).memory) }
    requires size { length content.now ≡ 512 }
    requires replaceable { IsNorReady (S.state stock.old)
        → IsReplaceable to sector holder (S.state stock.old).memory }
    requires indexed { IsNorReady (S.state stock.old) → S.indexed stock.old ≡ true }
    ensures ok { IfOk result (λ held. IsReplaceable to sector holder (S.state stock.old).memory
        → Rewrites sector content.now held (S.state stock.old).memory (S.state stock.new).memory) }
    ensures cut { IsErrOf result NorError.Cut
        → IsReplaceable to sector holder (S.state stock.old).memory
        → RewriteLeaves sector content.now (S.state stock.old).memory (S.state stock.new).memory }
    ensures firmly { IsReplaceable to sector holder (S.state stock.old).memory
        → TakesSector to (tag_after sector holder) (S.counts stock.old)
        (bits_in (S.state stock.old)) → SetsFirmly sector content.now result (S.state stock.old)
        (S.counts stock.old) (S.state stock.new) (S.counts stock.new) }
    ensures slot { IfOk result (λ held. held.slot ≡ to) }
    ensures generation { IfOk result (λ held. held.generation ≡ generation_after holder) }
    ensures indexed { OnOk result (S.indexed stock.new ≡ true) }
    ensures healthy { IsErrOf result NorError.Cut → IsHealthy (S.state stock.old).memory
        → IsHealthy (S.state stock.new).memory }
    ensures chip { SameChip (S.state stock.old).memory (S.state stock.new).memory }
    ensures ends { EndsFirmly result (S.state stock.old) (S.state stock.new) }
{
    match holder {
        Some(held) => replace_held(stock, to, held, sector, content),
        None => add(stock, to, sector, content),
    }
}

/// Writes the content of an absent sector into the free slot `to`.
fn add<S: Reclaim>(stock: &mut S, to: u16, sector: u16, content: &[u8]) -> Result<Held, NorError>
    requires number { to < slot_count (S.state stock.old).memory }
    requires size { length content.now ≡ 512 }
    requires replaceable { IsNorReady (S.state stock.old)
        → IsReplaceable to sector None (S.state stock.old).memory }
    requires indexed { IsNorReady (S.state stock.old) → S.indexed stock.old ≡ true }
    ensures ok { IfOk result (λ held. IsReplaceable to sector None (S.state stock.old).memory
        → Rewrites sector content.now held (S.state stock.old).memory (S.state stock.new).memory) }
    ensures cut { IsErrOf result NorError.Cut
        → IsReplaceable to sector None (S.state stock.old).memory
        → RewriteLeaves sector content.now (S.state stock.old).memory (S.state stock.new).memory }
    ensures firmly { IsReplaceable to sector None (S.state stock.old).memory
        → TakesSector to (tag_after sector None) (S.counts stock.old)
        (bits_in (S.state stock.old)) → SetsFirmly sector content.now result (S.state stock.old)
        (S.counts stock.old) (S.state stock.new) (S.counts stock.new) }
    ensures slot { IfOk result (λ held. held.slot ≡ to) }
    ensures generation { IfOk result (λ held. held.generation ≡ generation_after None) }
    ensures indexed { OnOk result (S.indexed stock.new ≡ true) }
    ensures healthy { IsErrOf result NorError.Cut → IsHealthy (S.state stock.old).memory
        → IsHealthy (S.state stock.new).memory }
    ensures chip { SameChip (S.state stock.old).memory (S.state stock.new).memory }
    ensures ends { EndsFirmly result (S.state stock.old) (S.state stock.new) }
{
    let generation = Generation::Zero;
    let first = Tag {
        number: sector,
        generation,
    };
    stock.write(to, first, content)?;
    Ok(Held {
        slot: to,
        generation,
    })
}

/// Writes a sector's content into the free slot `to`, and retires the slot that held it.
fn replace_held<S: Reclaim>(
    stock: &mut S,
    to: u16,
    held: Held,
    sector: u16,
    content: &[u8],
) -> Result<Held, NorError>
    requires number { to < slot_count (S.state stock.old).memory }
    requires holder { held.slot < slot_count (S.state stock.old).memory }
    requires size { length content.now ≡ 512 }
    requires replaceable { IsNorReady (S.state stock.old)
        → IsReplaceable to sector (Some held) (S.state stock.old).memory }
    requires indexed { IsNorReady (S.state stock.old) → S.indexed stock.old ≡ true }
    ensures ok { IfOk result (λ now. IsReplaceable to sector (Some held) (S.state stock.old).memory
        → Rewrites sector content.now now (S.state stock.old).memory (S.state stock.new).memory) }
    ensures cut { IsErrOf result NorError.Cut
        → IsReplaceable to sector (Some held) (S.state stock.old).memory
        → RewriteLeaves sector content.now (S.state stock.old).memory (S.state stock.new).memory }
    ensures firmly { IsReplaceable to sector (Some held) (S.state stock.old).memory
        → TakesSector to (tag_after sector (Some held)) (S.counts stock.old)
        (bits_in (S.state stock.old)) → SetsFirmly sector content.now result (S.state stock.old)
        (S.counts stock.old) (S.state stock.new) (S.counts stock.new) }
    ensures slot { IfOk result (λ now. now.slot ≡ to) }
    ensures generation { IfOk result (λ now. now.generation ≡ generation_after (Some held)) }
    ensures indexed { OnOk result (S.indexed stock.new ≡ true) }
    ensures healthy { IsErrOf result NorError.Cut → IsHealthy (S.state stock.old).memory
        → IsHealthy (S.state stock.new).memory }
    ensures chip { SameChip (S.state stock.old).memory (S.state stock.new).memory }
    ensures ends { EndsFirmly result (S.state stock.old) (S.state stock.new) }
{
    let generation = held.generation.next();
    let next = Tag {
        number: sector,
        generation,
    };
    stock.write(to, next, content)?;
    stock.release(held.slot)?;
    Ok(Held {
        slot: to,
        generation,
    })
}

/// The content of a sector into `into`, 512 bytes, from the slot that holds it; zeros where none
/// does. After an error `into` holds any bytes.
pub(crate) fn find_sector<N: Nor>(
    stock: &mut Stock<N>,
    holder: Option<Held>,
    into: &mut [u8],
) -> Result<(), NorError>
    requires holder { IfSome holder (λ held. held.slot
        < slot_count (⟦<Stock<N> as SlotCalls>⟧.state stock.old).memory) }
    requires room { length into.old ≡ 512 }
    requires ready { IsNorReady (⟦<Stock<N> as SlotCalls>⟧.state stock.old) }
    requires settled { IsSettled (⟦<Stock<N> as SlotCalls>⟧.state stock.old).memory }
    ensures ok { OnOk result (IsSoundMap (⟦<Stock<N> as SlotCalls>⟧.state stock.old).memory
        → IsSingle (⟦<Stock<N> as SlotCalls>⟧.state stock.old).memory → (sector : ℕ)
        → HeldBy holder sector (⟦<Stock<N> as SlotCalls>⟧.state stock.old).memory
        → into.new ≡ sector_at (⟦<Stock<N> as SlotCalls>⟧.state stock.old).memory sector) }
    ensures same { (⟦<Stock<N> as SlotCalls>⟧.state stock.new).memory
        ≡ (⟦<Stock<N> as SlotCalls>⟧.state stock.old).memory }
    ensures weak { (⟦<Stock<N> as SlotCalls>⟧.state stock.new).weak
        ≡ (⟦<Stock<N> as SlotCalls>⟧.state stock.old).weak }
    ensures index { ⟦<Stock<N> as SlotCalls>⟧.indexed stock.new
        ≡ ⟦<Stock<N> as SlotCalls>⟧.indexed stock.old }
    ensures counts { ⟦<Stock<N> as Reclaim>⟧.counts stock.new
        ≡ ⟦<Stock<N> as Reclaim>⟧.counts stock.old }
    ensures ends { EndsFirmly result (⟦<Stock<N> as SlotCalls>⟧.state stock.old)
        (⟦<Stock<N> as SlotCalls>⟧.state stock.new) }
{
    match holder {
        Some(held) => {
            stock.read(held.slot, into)?;
        }
        None => into.fill(0),
    }
    Ok(())
}
