//! A mount and a clearing where torn bits may waver: what a mount reads is programmed again before
//! it acts on it.

ghost use Rattle.std.specs.Prelude.{◌≡◌, ◌⊎◌, ◌<◌, length, OnOk, IfOk, IfErr, IsFalse};
ghost use Rattle.std.specs.Result.{IsErrOf};
ghost use Rattle.nor_driver.specs.State.{bits_in, Refuses};
ghost use Rattle.erase_journal.specs.Journals.{IsHealthy};
ghost use Rattle.erase_journal.specs.Steps.{RefusesFirmly, SucceedsSettled, EndsFirmly};
ghost use Rattle.erase_journal.specs.Weak.{AreFirmJournals, AreRecoveredJournals};
ghost use Rattle.sector_slots.specs.Slots.{data_blocks};
ghost use Rattle.sector_slots.specs.Sectors.{zeros};
ghost use Rattle.sector_map.specs.Firm.{StaysAlike, HasNoneBegun, IsMendedMap, AreHeadsFirm};
ghost use Rattle.sector_map.specs.Firm.{AreHeldBlocks, MovesFirmly};
ghost use Rattle.sector_slots.specs.Weak.{IsDoubtedStore};
ghost use Rattle.sector_stock.specs.Losses.{AreSuspect};
ghost use Rattle.sector_map.specs.Losses.{SetsFirmly};
ghost use Rattle.sector_map.specs.Maps.{IsServing, SetLeaves, Wrote};
ghost use Rattle.sector_map.specs.Table.{Mends, Repairs};

use crate::scan::{either, lowest_spare};
use crate::steps::{clear_firmly, clear_levelled};
use crate::table::{LiveSlots, follow_block};
use erase_journal::Firmness;
use nor_driver::NorError;
use sector_slots::FirmCalls;
use sector_stock::{Reclaim, move_afresh};

/// Makes firm what was read, where torn bits may waver. True where a slot is begun.
pub(crate) fn firm_as<S: FirmCalls>(slots: &mut S, firmness: Firmness) -> Result<bool, NorError>
    ensures none { firmness ≡ Firmness.Firm → IfOk result (λ begun. IsFalse begun
        → HasNoneBegun (S.state slots.old).memory) }
    ensures heads { firmness ≡ Firmness.Firm → IfOk result (λ begun.
        AreHeadsFirm (bits_in (S.state slots.new)) begun) }
    ensures journals { firmness ≡ Firmness.Firm
        → AreRecoveredJournals (bits_in (S.state slots.old))
        → OnOk result (AreFirmJournals (bits_in (S.state slots.new))) }
    ensures ok { OnOk result (StaysAlike (S.state slots.old).memory (S.state slots.new).memory) }
    ensures cut { IsErrOf result NorError.Cut → IsHealthy (S.state slots.old).memory
        → StaysAlike (S.state slots.old).memory (S.state slots.new).memory }
    ensures healthy { IsErrOf result NorError.Cut → IsHealthy (S.state slots.old).memory
        → IsHealthy (S.state slots.new).memory }
    ensures size { length (S.state slots.new).memory ≡ length (S.state slots.old).memory }
    ensures done { OnOk result ((S.state slots.new ≡ S.state slots.old)
        ⊎ SucceedsSettled (S.state slots.old) (S.state slots.new)) }
    ensures fails { IfErr result (λ e. Refuses e (S.state slots.old) (S.state slots.new)) }
{
    match firmness {
        Firmness::Steady => Ok(false),
        Firmness::Firm => {
            slots.firm()?;
            firm_heads(slots)
        }
    }
}

/// What is free is suspect from now on, where torn bits may waver.
pub(crate) fn suspect_as<S: Reclaim>(stock: &mut S, firmness: Firmness)
    ensures state { S.state stock.new ≡ S.state stock.old }
    ensures indexed { S.indexed stock.new ≡ S.indexed stock.old }
    ensures suspect { firmness ≡ Firmness.Firm → AreSuspect (S.counts stock.new) }
    ensures listed { length (S.counts stock.new) ≡ length (S.counts stock.old) }
{
    match firmness {
        Firmness::Steady => {}
        Firmness::Firm => stock.suspect_free(),
    }
}

/// Programs the head of each block again that isn't erased. True where a slot is begun.
#[tactic(auto, using(erase_journal::proofs::Calls::repeated_calls))]
fn firm_heads<S: FirmCalls>(slots: &mut S) -> Result<bool, NorError>
    ensures none { IfOk result (λ begun. IsFalse begun
        → HasNoneBegun (S.state slots.old).memory) }
    ensures heads { IfOk result (λ begun. AreHeadsFirm (bits_in (S.state slots.new)) begun) }
    ensures ok { OnOk result (StaysAlike (S.state slots.old).memory (S.state slots.new).memory) }
    ensures cut { IsErrOf result NorError.Cut
        → StaysAlike (S.state slots.old).memory (S.state slots.new).memory }
    ensures healthy { IsErrOf result NorError.Cut → IsHealthy (S.state slots.old).memory
        → IsHealthy (S.state slots.new).memory }
    ensures size { length (S.state slots.new).memory ≡ length (S.state slots.old).memory }
    ensures done { OnOk result ((S.state slots.new ≡ S.state slots.old)
        ⊎ SucceedsSettled (S.state slots.old) (S.state slots.new)) }
    ensures fails { IfErr result (λ e. RefusesFirmly e (S.state slots.old) (S.state slots.new)) }
{
    let count = slots.blocks();
    let mut begun = false;
    for block in 0..count {
        let here = slots.firm_head(block)?;
        begun = either(begun, here);
    }
    Ok(begun)
}

/// Moves each block in which a slot is begun, if one was seen: it can't come to be live then.
#[tactic(auto, using(erase_journal::proofs::Calls::repeated_calls))]
pub(crate) fn move_begun<S: Reclaim>(
    stock: &mut S,
    table: &mut [LiveSlots],
    begun: bool,
) -> Result<(), NorError>
    requires mended { IsMendedMap table.old (S.state stock.old).memory }
    ensures ok { OnOk result (Repairs (S.state stock.old).memory table.new
        (S.state stock.new).memory) }
    ensures store { OnOk result (AreHeldBlocks (bits_in (S.state stock.old)) begun
        → IsDoubtedStore (bits_in (S.state stock.new))) }
    ensures cut { IsErrOf result NorError.Cut → IsHealthy (S.state stock.old).memory
        → Mends (S.state stock.old).memory (S.state stock.new).memory }
    ensures healthy { IsErrOf result NorError.Cut → IsHealthy (S.state stock.old).memory
        → IsHealthy (S.state stock.new).memory }
    ensures table { length table.new ≡ length table.old }
    ensures size { length (S.state stock.new).memory ≡ length (S.state stock.old).memory }
    ensures done { OnOk result ((S.state stock.new ≡ S.state stock.old)
        ⊎ SucceedsSettled (S.state stock.old) (S.state stock.new)) }
    ensures fails { IfErr result (λ e. RefusesFirmly e (S.state stock.old) (S.state stock.new)) }
{
    if !begun {
        return Ok(());
    }
    let count = stock.blocks();
    for block in 0..count {
        move_if_begun(stock, table, block)?;
    }
    Ok(())
}

/// Moves a block in which a slot is begun into a wholly free one, which is erased first. The table
/// follows.
fn move_if_begun<S: Reclaim>(
    stock: &mut S,
    table: &mut [LiveSlots],
    block: u16,
) -> Result<(), NorError>
    requires number { block < data_blocks (S.state stock.old).memory }
    requires mended { IsMendedMap table.old (S.state stock.old).memory }
    ensures ok { OnOk result (Repairs (S.state stock.old).memory table.new
        (S.state stock.new).memory) }
    ensures moves { OnOk result (MovesFirmly block (bits_in (S.state stock.old))
        (bits_in (S.state stock.new))) }
    ensures cut { IsErrOf result NorError.Cut → IsHealthy (S.state stock.old).memory
        → Mends (S.state stock.old).memory (S.state stock.new).memory }
    ensures healthy { IsErrOf result NorError.Cut → IsHealthy (S.state stock.old).memory
        → IsHealthy (S.state stock.new).memory }
    ensures table { length table.new ≡ length table.old }
    ensures size { length (S.state stock.new).memory ≡ length (S.state stock.old).memory }
    ensures ends { EndsFirmly result (S.state stock.old) (S.state stock.new) }
{
    let begun = stock.has_begun(block)?;
    if !begun {
        return Ok(());
    }
    let target = lowest_spare(stock)?;
    move_afresh(stock, block, target)?;
    follow_block(stock, table, target)?;
    Ok(())
}

/// Clears a sector, as torn bits are taken.
pub(crate) fn clear_as<S: Reclaim>(
    stock: &mut S,
    table: &mut [LiveSlots],
    sector: u16,
    firmness: Firmness,
) -> Result<(), NorError>
    requires served { IsServing table.old (S.state stock.old) (S.indexed stock.old) }
    requires number { sector < length table.old }
    ensures ok { OnOk result (Wrote sector zeros table.new (S.state stock.old) (S.state stock.new)
        (S.indexed stock.new)) }
    ensures cut { IsErrOf result NorError.Cut
        → SetLeaves sector zeros (S.state stock.old).memory (S.state stock.new).memory }
    ensures firmly { firmness ≡ Firmness.Firm → SetsFirmly sector zeros result (S.state stock.old)
        (S.counts stock.old) (S.state stock.new) (S.counts stock.new) }
    ensures table { length table.new ≡ length table.old }
    ensures size { length (S.state stock.new).memory ≡ length (S.state stock.old).memory }
    ensures ends { EndsFirmly result (S.state stock.old) (S.state stock.new) }
{
    match firmness {
        Firmness::Steady => clear_levelled(stock, table, sector),
        Firmness::Firm => clear_firmly(stock, table, sector),
    }
}
