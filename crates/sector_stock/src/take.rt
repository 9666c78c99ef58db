//! A free slot is taken from a store and its index; a block is copied where none is free.

ghost use Rattle.std.specs.Prelude.{◌/◌, ◌≤◌, ◌≡◌, ◌≢◌, ◌⊎◌, ◌<◌, ℕ, Some, None, length, OnOk};
ghost use Rattle.std.specs.Prelude.{IfOk, IsTrue, IsFalse, List, false};
ghost use Rattle.sector_stock.specs.declared.index.SlotState.{SlotState as SlotStateOf};
ghost use Rattle.std.specs.Result.{IsErrOf};
ghost use Rattle.chip_model.specs.Geometry.{IsChipSize};
ghost use Rattle.nor_driver.specs.State.{IsNorReady, bits_in};
ghost use Rattle.erase_journal.specs.Journals.{IsHealthy, IsSettled};
ghost use Rattle.erase_journal.specs.Steps.{EndsFirmly};
ghost use Rattle.sector_slots.specs.Blocks.{IsReserveOf};
ghost use Rattle.sector_slots.specs.Slots.{data_blocks};
ghost use Rattle.sector_stock.specs.Room.{HasRoom, HasNoneDead, HasNoneFree};
ghost use Rattle.sector_stock.specs.Copy.{Stays};
ghost use Rattle.sector_stock.specs.Index.{IsIndexOf, IsMostDead, IsLowestDead, IsAhead};
ghost use Rattle.sector_stock.specs.Index.{IsWholeBlock, IsHighestWhole, Marked, one_free_fewer};
ghost use Rattle.sector_stock.specs.Index.{in_block, BlocksMoved, IsFirmIn};
ghost use Rattle.sector_stock.specs.declared.policy.Policy.TheVariants as policies;
ghost use Rattle.sector_stock.specs.Takes.{Takes, CopiesInto, IsLowestFree, HasMostDead, work_of};
ghost use Rattle.sector_stock.specs.Takes.{HasFewerBelow, Converts, IsLiveGroup, HasNoGroups};
ghost use Rattle.sector_stock.specs.Takes.{TidiesStock, FillsUp, CopiesLeastWorn, CountsErase};
ghost use Rattle.sector_stock.specs.Takes.{IsErasedOnce, GivesTrusted, TrustsReserve};
ghost use Rattle.sector_stock.specs.Index.{erases_of, AreWithin, MayWear};
ghost use Rattle.sector_stock.specs.IndexSteps.{HasNoneFreeBefore};
ghost use Rattle.sector_stock.specs.Losses.{IsFirmDiskIn, LosesNothing};
ghost use Rattle.sector_slots.specs.Losses.{HasSureSpareBut};
ghost use Rattle.sector_stock.specs.declared.given.Copied.{Copied as CopiedOf};

use crate::copy::copy_into;
use crate::given::{Copied, Given};
use crate::index::{
    BlockState, Cursors, SlotState, free_slot, lowest_group, mark_live, most_dead, move_block,
    shift_states,
};
use crate::policy::Policy;
use crate::scan::first_cursors;
use nor_driver::NorError;
use sector_slots::SlotCalls;

/// Copies a block with the most dead slots into the reserve, and brings the index up to date. A
/// slot is free afterwards.
fn copy_most<S: SlotCalls>(
    slots: &mut S,
    states: &mut [SlotState],
    blocks: &mut [BlockState],
    at: &mut Cursors,
    source: u16,
) -> Result<Copied, NorError>
    requires size { length blocks.old ≤ 4096 }
    requires index { IsIndexOf states.old blocks.old at.old (S.state slots.old).memory }
    requires room { HasRoom (S.state slots.old).memory }
    requires most { IsMostDead blocks.old source }
    requires may { at.old.policy ≡ policies.Level
        → MayWear source (length blocks.old) (erases_of blocks.old) }
    ensures ok { IfOk result (λ c. CopiesInto c.source c.target (S.state slots.old).memory
        (S.state slots.new).memory) }
    ensures most { IfOk result (λ c. HasMostDead c.source (S.state slots.old).memory) }
    ensures numbers { at.old.policy ≡ policies.Lowest → IsLowestDead blocks.old source
        → IfOk result (λ c. HasFewerBelow c.source (S.state slots.old).memory
        × IsReserveOf c.target (S.state slots.old).memory) }
    ensures policy { OnOk result (at.new.policy ≡ at.old.policy) }
    ensures tidies { IfOk result (λ c. TidiesStock c.source c.target (S.state slots.old).memory
        (S.state slots.new).memory) }
    ensures fewer { OnOk result (work_of (S.state slots.new).memory
        < work_of (S.state slots.old).memory) }
    ensures index { OnOk result (IsIndexOf states.new blocks.new at.new
        (S.state slots.new).memory) }
    ensures free { OnOk result (HasNoneFree at.new.reserve (S.state slots.new).memory → ⊥) }
    ensures cut { IsErrOf result NorError.Cut → IsHealthy (S.state slots.old).memory
        → Stays (S.state slots.old).memory (S.state slots.new).memory }
    ensures healthy { IsErrOf result NorError.Cut → IsHealthy (S.state slots.old).memory
        → IsHealthy (S.state slots.new).memory }
    ensures size { length (S.state slots.new).memory ≡ length (S.state slots.old).memory }
    ensures states_size { length states.new ≡ length states.old }
    ensures blocks_size { length blocks.new ≡ length blocks.old }
    ensures ends { EndsFirmly result (S.state slots.old) (S.state slots.new) }
    ensures firm { IsFirmIn (bits_in (S.state slots.old)) blocks.old
        → OnOk result (IsFirmIn (bits_in (S.state slots.new)) blocks.new) }
    ensures disk { IsFirmDiskIn (bits_in (S.state slots.old)) blocks.old
        → OnOk result (IsFirmDiskIn (bits_in (S.state slots.new)) blocks.new) }
    ensures cut_bits { IsErrOf result NorError.Cut
        → IsFirmDiskIn (bits_in (S.state slots.old)) blocks.old
        → LosesNothing (S.state slots.old).memory (bits_in (S.state slots.new)) }
    ensures target { IfOk result (λ c. (c.source ≡ source) × (c.target ≡ at.old.reserve)) }
    ensures next { OnOk result (at.old.policy ≡ policies.Level → at.new.reserve ≡ source) }
    ensures newest { OnOk result (at.new.newest ≡ at.old.newest) }
    ensures blocks { OnOk result (BlocksMoved source at.old.reserve blocks.old blocks.new) }
    ensures fits { OnOk result ((in_block blocks.old source).erases < 65536) }
{
    let target = at.reserve;
    copy_into(slots, source, target, blocks[target as usize].suspect)?;
    shift_states(states, source, target);
    move_block(blocks, at, source);
    go_on_behind(at, source);
    Ok(Copied { source, target })
}

/// The order of equally worn blocks goes on behind this one.
fn go_on_behind(at: &mut Cursors, block: u16)
    ensures { at.new ≡ record at.old { clock = block } }
{
    at.clock = block;
}

/// Where the block that is being filled was copied, its copy is filled up.
fn fill_copy(at: &mut Cursors, copied: Copied)
    ensures { at.new ≡ record at.old { newest = at.new.newest } }
{
    if at.newest == copied.source {
        at.newest = copied.target;
    }
}

/// Converts a block that is live with a group into slots of the reserve, and brings the index up to
/// date.
pub fn convert_block<S: SlotCalls>(
    slots: &mut S,
    states: &mut [SlotState],
    blocks: &mut [BlockState],
    at: &mut Cursors,
    source: u16,
) -> Result<Copied, NorError>
    requires size { length blocks.old ≤ 4096 }
    requires source { source < data_blocks (S.state slots.old).memory }
    requires group { IsLiveGroup source (S.state slots.old).memory }
    requires index { IsIndexOf states.old blocks.old at.old (S.state slots.old).memory }
    requires room { HasRoom (S.state slots.old).memory }
    requires may { at.old.policy ≡ policies.Level
        → MayWear source (length blocks.old) (erases_of blocks.old) }
    ensures ok { IfOk result (λ c. Converts c.source c.target (S.state slots.old).memory
        (S.state slots.new).memory) }
    ensures source { IfOk result (λ c. c.source ≡ source) }
    ensures target { at.old.policy ≡ policies.Lowest
        → IfOk result (λ c. IsReserveOf c.target (S.state slots.old).memory) }
    ensures policy { OnOk result (at.new.policy ≡ at.old.policy) }
    ensures index { OnOk result (IsIndexOf states.new blocks.new at.new
        (S.state slots.new).memory) }
    ensures cut { IsErrOf result NorError.Cut → IsHealthy (S.state slots.old).memory
        → Stays (S.state slots.old).memory (S.state slots.new).memory }
    ensures healthy { IsErrOf result NorError.Cut → IsHealthy (S.state slots.old).memory
        → IsHealthy (S.state slots.new).memory }
    ensures size { length (S.state slots.new).memory ≡ length (S.state slots.old).memory }
    ensures states_size { length states.new ≡ length states.old }
    ensures blocks_size { length blocks.new ≡ length blocks.old }
    ensures ends { EndsFirmly result (S.state slots.old) (S.state slots.new) }
    ensures firm { IsFirmIn (bits_in (S.state slots.old)) blocks.old
        → OnOk result (IsFirmIn (bits_in (S.state slots.new)) blocks.new) }
    ensures disk { IsFirmDiskIn (bits_in (S.state slots.old)) blocks.old
        → OnOk result (IsFirmDiskIn (bits_in (S.state slots.new)) blocks.new) }
    ensures cut_bits { IsErrOf result NorError.Cut
        → IsFirmDiskIn (bits_in (S.state slots.old)) blocks.old
        → LosesNothing (S.state slots.old).memory (bits_in (S.state slots.new)) }
    ensures reserve { IfOk result (λ c. c.target ≡ at.old.reserve) }
    ensures next { OnOk result (at.old.policy ≡ policies.Level → at.new.reserve ≡ source) }
    ensures counted { OnOk result (IsErasedOnce (data_blocks (S.state slots.old).memory) source
        (erases_of blocks.old) (erases_of blocks.new)) }
{
    let reserve = at.reserve;
    copy_into(slots, source, reserve, blocks[reserve as usize].suspect)?;
    shift_states(states, source, reserve);
    move_block(blocks, at, source);
    Ok(Copied {
        source,
        target: reserve,
    })
}

/// A free slot outside the reserve, the lowest-numbered where it chooses by number. Where none is
/// free, a block is copied first.
pub fn take_slot<S: SlotCalls>(
    slots: &mut S,
    states: &mut [SlotState],
    blocks: &mut [BlockState],
    at: &mut Cursors,
) -> Result<Given, NorError>
    requires sized { IsChipSize (length (S.state slots.old).memory) }
    requires ready { IsNorReady (S.state slots.old) }
    requires settled { IsSettled (S.state slots.old).memory }
    requires index { IsIndexOf states.old blocks.old at.old (S.state slots.old).memory }
    requires room { HasRoom (S.state slots.old).memory }
    requires even { at.old.policy ≡ policies.Level
        → AreWithin 31 (length blocks.old) (erases_of blocks.old) }
    ensures ok { IfOk result (λ given.
        Takes given.slot given.copied (S.state slots.old).memory (S.state slots.new).memory) }
    ensures lowest { at.old.policy ≡ policies.Lowest
        → IfOk result (λ given. IsLowestFree given.slot (S.state slots.new).memory) }
    ensures most { IfOk result (λ given. (c : CopiedOf) → given.copied ≡ Some c
        → HasMostDead c.source (S.state slots.old).memory) }
    ensures numbers { at.old.policy ≡ policies.Lowest
        → IfOk result (λ given. (c : CopiedOf) → given.copied ≡ Some c
        → HasFewerBelow c.source (S.state slots.old).memory
        × IsReserveOf c.target (S.state slots.old).memory) }
    ensures policy { OnOk result (at.new.policy ≡ at.old.policy) }
    ensures index { OnOk result (IsIndexOf states.new blocks.new at.new
        (S.state slots.new).memory) }
    ensures cut { IsErrOf result NorError.Cut
        → Stays (S.state slots.old).memory (S.state slots.new).memory }
    ensures healthy { IsErrOf result NorError.Cut → IsHealthy (S.state slots.new).memory }
    ensures size { length (S.state slots.new).memory ≡ length (S.state slots.old).memory }
    ensures states_size { length states.new ≡ length states.old }
    ensures blocks_size { length blocks.new ≡ length blocks.old }
    ensures ends { EndsFirmly result (S.state slots.old) (S.state slots.new) }
    ensures firm { IsFirmIn (bits_in (S.state slots.old)) blocks.old
        → OnOk result (IsFirmIn (bits_in (S.state slots.new)) blocks.new) }
    ensures disk { IsFirmDiskIn (bits_in (S.state slots.old)) blocks.old
        → OnOk result (IsFirmDiskIn (bits_in (S.state slots.new)) blocks.new) }
    ensures cut_bits { IsErrOf result NorError.Cut
        → IsFirmDiskIn (bits_in (S.state slots.old)) blocks.old
        → LosesNothing (S.state slots.old).memory (bits_in (S.state slots.new)) }
    ensures fills { at.old.policy ≡ policies.Level → IfOk result (λ given. FillsUp at.old.newest
        at.new.reserve (erases_of blocks.new) given.slot (S.state slots.new).memory) }
    ensures worn { at.old.policy ≡ policies.Level → IfOk result (λ given. (c : CopiedOf)
        → given.copied ≡ Some c → CopiesLeastWorn (erases_of blocks.old) at.old.reserve
        at.new.reserve c (S.state slots.old).memory) }
    ensures counted { IfOk result (λ given. CountsErase (data_blocks (S.state slots.old).memory)
        given.copied (erases_of blocks.old) (erases_of blocks.new)) }
    ensures trusted { GivesTrusted at.old.policy at.old blocks.old (S.state slots.old).memory
        → IfOk result (λ given. (in_block blocks.new (given.slot / 7)).suspect ≡ false) }
    ensures first { IfOk result (λ given. HasNoneFreeBefore given.slot
        (S.state slots.new).memory) }
    ensures spare { GivesTrusted at.old.policy at.old blocks.old (S.state slots.old).memory
        → TrustsReserve at.old.policy at.old blocks.old (S.state slots.old).memory
        → IsFirmDiskIn (bits_in (S.state slots.old)) blocks.old → IfOk result (λ given.
        HasSureSpareBut (given.slot / 7) (bits_in (S.state slots.new))) }
{
    if let Some(slot) = free_slot(states, blocks, at) {
        return Ok(Given { slot, copied: None });
    }
    let Some(source) = most_dead(blocks, at) else {
        unreachable!()
    };
    let copied = copy_most(slots, states, blocks, at, source)?;
    let Some(slot) = free_slot(states, blocks, at) else {
        unreachable!()
    };
    Ok(Given {
        slot,
        copied: Some(copied),
    })
}

/// Converts the lowest-numbered block that is live with a group, where there is one.
fn convert_lowest<S: SlotCalls>(
    slots: &mut S,
    states: &mut [SlotState],
    blocks: &mut [BlockState],
    at: &mut Cursors,
) -> Result<Option<Copied>, NorError>
    requires sized { IsChipSize (length (S.state slots.old).memory) }
    requires ready { IsNorReady (S.state slots.old) }
    requires settled { IsSettled (S.state slots.old).memory }
    requires index { IsIndexOf states.old blocks.old at.old (S.state slots.old).memory }
    requires room { HasRoom (S.state slots.old).memory }
    requires even { at.old.policy ≡ policies.Level
        → AreWithin 31 (length blocks.old) (erases_of blocks.old) }
    requires none { HasNoneDead (S.state slots.old).memory }
    ensures copied { IfOk result (λ copied. (c : CopiedOf) → copied ≡ Some c
        → TidiesStock c.source c.target (S.state slots.old).memory (S.state slots.new).memory) }
    ensures fewer { IfOk result (λ copied. (c : CopiedOf) → copied ≡ Some c
        → work_of (S.state slots.new).memory < work_of (S.state slots.old).memory) }
    ensures target { at.old.policy ≡ policies.Lowest
        → IfOk result (λ copied. (c : CopiedOf) → copied ≡ Some c
        → IsReserveOf c.target (S.state slots.old).memory) }
    ensures policy { OnOk result (at.new.policy ≡ at.old.policy) }
    ensures none { IfOk result (λ copied. copied ≡ None → HasNoGroups (S.state slots.old).memory
        × ((S.state slots.new).memory ≡ (S.state slots.old).memory)) }
    ensures index { OnOk result (IsIndexOf states.new blocks.new at.new
        (S.state slots.new).memory) }
    ensures cut { IsErrOf result NorError.Cut
        → Stays (S.state slots.old).memory (S.state slots.new).memory }
    ensures healthy { IsErrOf result NorError.Cut → IsHealthy (S.state slots.new).memory }
    ensures size { length (S.state slots.new).memory ≡ length (S.state slots.old).memory }
    ensures states_size { length states.new ≡ length states.old }
    ensures blocks_size { length blocks.new ≡ length blocks.old }
    ensures ends { EndsFirmly result (S.state slots.old) (S.state slots.new) }
    ensures firm { IsFirmIn (bits_in (S.state slots.old)) blocks.old
        → OnOk result (IsFirmIn (bits_in (S.state slots.new)) blocks.new) }
    ensures disk { IsFirmDiskIn (bits_in (S.state slots.old)) blocks.old
        → OnOk result (IsFirmDiskIn (bits_in (S.state slots.new)) blocks.new) }
    ensures cut_bits { IsErrOf result NorError.Cut
        → IsFirmDiskIn (bits_in (S.state slots.old)) blocks.old
        → LosesNothing (S.state slots.old).memory (bits_in (S.state slots.new)) }
    ensures reserve { IfOk result (λ copied. (c : CopiedOf) → copied ≡ Some c
        → c.target ≡ at.old.reserve) }
    ensures next { at.old.policy ≡ policies.Level → IfOk result (λ copied. (c : CopiedOf)
        → copied ≡ Some c → at.new.reserve ≡ c.source) }
    ensures counted { IfOk result (λ copied. CountsErase (data_blocks (S.state slots.old).memory)
        copied (erases_of blocks.old) (erases_of blocks.new)) }
{
    match lowest_group(blocks) {
        Some(source) => {
            let converted = convert_block(slots, states, blocks, at, source)?;
            Ok(Some(converted))
        }
        None => Ok(None),
    }
}

/// Whether `tidy_block` has something to do.
pub fn has_work(blocks: &[BlockState], at: &mut Cursors) -> bool
    requires size { length blocks.now ≤ 4096 }
    requires ahead { IsAhead blocks.now at.old }
    ensures yes { IsTrue result → (slots : List SlotStateOf) (m : List ℕ)
        → IsIndexOf slots blocks.now at.old m → 0 < work_of m }
    ensures no { IsFalse result → (slots : List SlotStateOf) (m : List ℕ)
        → IsIndexOf slots blocks.now at.old m → HasNoneDead m × HasNoGroups m }
    ensures ahead { IsAhead blocks.now at.new }
    ensures reserve { at.new.reserve ≡ at.old.reserve }
    ensures policy { at.new.policy ≡ at.old.policy }
{
    if let Some(_) = most_dead(blocks, at) {
        return true;
    }
    match lowest_group(blocks) {
        Some(_) => true,
        None => false,
    }
}

/// Copies a block with the most dead slots, where one is dead; else converts the lowest-numbered
/// block that is live with a group, where one is.
pub fn tidy_block<S: SlotCalls>(
    slots: &mut S,
    states: &mut [SlotState],
    blocks: &mut [BlockState],
    at: &mut Cursors,
) -> Result<Option<Copied>, NorError>
    requires sized { IsChipSize (length (S.state slots.old).memory) }
    requires ready { IsNorReady (S.state slots.old) }
    requires settled { IsSettled (S.state slots.old).memory }
    requires index { IsIndexOf states.old blocks.old at.old (S.state slots.old).memory }
    requires room { HasRoom (S.state slots.old).memory }
    requires even { at.old.policy ≡ policies.Level
        → AreWithin 31 (length blocks.old) (erases_of blocks.old) }
    ensures copied { IfOk result (λ copied. (c : CopiedOf) → copied ≡ Some c
        → TidiesStock c.source c.target (S.state slots.old).memory (S.state slots.new).memory) }
    ensures fewer { IfOk result (λ copied. (c : CopiedOf) → copied ≡ Some c
        → work_of (S.state slots.new).memory < work_of (S.state slots.old).memory) }
    ensures most { IfOk result (λ copied. (c : CopiedOf) → copied ≡ Some c
        → HasNoneDead (S.state slots.old).memory
        ⊎ HasMostDead c.source (S.state slots.old).memory) }
    ensures lowest { at.old.policy ≡ policies.Lowest
        → IfOk result (λ copied. (c : CopiedOf) → copied ≡ Some c
        → HasNoneDead (S.state slots.old).memory
        ⊎ HasFewerBelow c.source (S.state slots.old).memory) }
    ensures target { at.old.policy ≡ policies.Lowest
        → IfOk result (λ copied. (c : CopiedOf) → copied ≡ Some c
        → IsReserveOf c.target (S.state slots.old).memory) }
    ensures policy { OnOk result (at.new.policy ≡ at.old.policy) }
    ensures none { IfOk result (λ copied. copied ≡ None
        → HasNoneDead (S.state slots.old).memory × HasNoGroups (S.state slots.old).memory
        × ((S.state slots.new).memory ≡ (S.state slots.old).memory)) }
    ensures index { OnOk result (IsIndexOf states.new blocks.new at.new
        (S.state slots.new).memory) }
    ensures cut { IsErrOf result NorError.Cut
        → Stays (S.state slots.old).memory (S.state slots.new).memory }
    ensures healthy { IsErrOf result NorError.Cut → IsHealthy (S.state slots.new).memory }
    ensures size { length (S.state slots.new).memory ≡ length (S.state slots.old).memory }
    ensures states_size { length states.new ≡ length states.old }
    ensures blocks_size { length blocks.new ≡ length blocks.old }
    ensures ends { EndsFirmly result (S.state slots.old) (S.state slots.new) }
    ensures firm { IsFirmIn (bits_in (S.state slots.old)) blocks.old
        → OnOk result (IsFirmIn (bits_in (S.state slots.new)) blocks.new) }
    ensures disk { IsFirmDiskIn (bits_in (S.state slots.old)) blocks.old
        → OnOk result (IsFirmDiskIn (bits_in (S.state slots.new)) blocks.new) }
    ensures cut_bits { IsErrOf result NorError.Cut
        → IsFirmDiskIn (bits_in (S.state slots.old)) blocks.old
        → LosesNothing (S.state slots.old).memory (bits_in (S.state slots.new)) }
    ensures worn { at.old.policy ≡ policies.Level → IfOk result (λ copied. (c : CopiedOf)
        → copied ≡ Some c → CopiesLeastWorn (erases_of blocks.old) at.old.reserve
        at.new.reserve c (S.state slots.old).memory ⊎ HasNoneDead (S.state slots.old).memory) }
    ensures reserve { IfOk result (λ copied. (c : CopiedOf) → copied ≡ Some c
        → c.target ≡ at.old.reserve) }
    ensures counted { IfOk result (λ copied. CountsErase (data_blocks (S.state slots.old).memory)
        copied (erases_of blocks.old) (erases_of blocks.new)) }
{
    match most_dead(blocks, at) {
        Some(source) => {
            let copied = copy_most(slots, states, blocks, at, source)?;
            fill_copy(at, copied);
            Ok(Some(copied))
        }
        None => convert_lowest(slots, states, blocks, at),
    }
}

/// A free slot became live. Where its block was the reserve, another one is.
pub fn mark_written(slots: &mut [SlotState], blocks: &mut [BlockState], at: &mut Cursors, slot: u16)
    requires slot { slot < length slots.old }
    requires block { slot / 7 < length blocks.old }
    requires some { 0 < (in_block blocks.old (slot / 7)).free }
    requires size { length blocks.old ≤ 4096 }
    requires numbers { (c : ℕ) → c < length blocks.old → (in_block blocks.old c).dead ≤ 7 }
    requires spare { (c : ℕ) × (c < length blocks.old) × IsWholeBlock (in_block blocks.old c)
        × (c ≢ slot / 7) }
    ensures marked { Marked slot SlotState.Live (one_free_fewer (in_block blocks.old (slot / 7)))
        slots.old slots.new blocks.old blocks.new }
    ensures at { ((at.new ≡ at.old) × (at.old.reserve ≢ slot / 7))
        ⊎ (IsAhead blocks.new at.new × IsHighestWhole blocks.new at.new.reserve) }
    ensures policy { at.new.policy ≡ at.old.policy }
{
    mark_live(slots, blocks, slot);
    if at.reserve == slot / 7 {
        *at = first_cursors(blocks, at.policy);
    }
}
