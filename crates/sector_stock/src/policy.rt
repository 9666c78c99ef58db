//! Which block is chosen: by its number, or by how often it was erased. A block whose sectors rest
//! is moved, so that all blocks wear alike; and where one was erased `SPREAD` times less often than
//! another, it is erased once more, whatever it holds, so that none falls far behind.

ghost use Rattle.std.specs.Prelude.{◌≡◌, ◌⊎◌, ◌+◌, ◌-◌, ◌<◌, ◌≤◌, ℕ, List, length, MatchOption};
ghost use Rattle.std.specs.Prelude.{Some, None, OnOk, IfOk, IfSome, IsTrue, IsFalse};
ghost use Rattle.std.specs.Result.{IsErrOf};
ghost use Rattle.chip_model.specs.Geometry.{IsChipSize};
ghost use Rattle.nor_driver.specs.State.{IsNorReady, bits_in};
ghost use Rattle.erase_journal.specs.Journals.{IsHealthy, IsSettled};
ghost use Rattle.erase_journal.specs.Steps.{EndsFirmly};
ghost use Rattle.sector_slots.specs.Slots.{data_blocks};
ghost use Rattle.sector_stock.specs.Copy.{Stays};
ghost use Rattle.sector_stock.specs.Index.{in_block, IsWholeBlock, IsIndexOf, IsAhead, BlocksMoved};
ghost use Rattle.sector_stock.specs.Index.{erases_of, AreWithin, MayWear, HasNoFreeBut, IsMostDead};
ghost use Rattle.sector_stock.specs.Index.{IsFirmIn};
ghost use Rattle.sector_stock.specs.Losses.{IsFirmDiskIn, KeepsSuspects, LosesNothing};
ghost use Rattle.sector_stock.specs.IndexSteps.{RecountsErase, Forgets};
ghost use Rattle.sector_stock.specs.Policies.{Wants, IsLeastWorn, IsTail, IsDue, IsInUse};
ghost use Rattle.sector_stock.specs.Policies.{block_before, IsOtherReserve, AreRestingFewer};
ghost use Rattle.sector_stock.specs.Room.{HasRoom, HasNoneDead};
ghost use Rattle.sector_stock.specs.Takes.{MovesInto, work_of, MovesLeastWorn, CountsErase};
ghost use Rattle.sector_stock.specs.Takes.{Renews, ErasesSpare, IsErasedOnce, IsLeastErased};
ghost use Rattle.sector_stock.specs.declared.given.Copied.{Copied as CopiedOf};
ghost use Rattle.sector_stock.specs.declared.index.SlotState.{SlotState as SlotStateOf};
ghost use Rattle.sector_stock.specs.declared.policy.Policy.TheVariants as policies;
ghost use Rattle.sector_stock.specs.declared.policy.Wanted.TheVariants as wanteds;
ghost use Rattle.sector_stock.specs.declared.policy.Purpose.TheVariants as purposes;

use crate::copy::copy_into;
use crate::given::Copied;
use crate::index::{
    BlockState, Cursors, SlotState, behind, block_with_free, choose_reserve, most_dead, move_block,
    shift_states,
};
use crate::least::{RUN, least_worn, no_bounds};
use crate::take::convert_block;
use nor_driver::NorError;
use sector_slots::SlotCalls;

/// So many blocks are erased for each that is moved for its wear. Source: own.
pub const TURN: u16 = 8;

/// No two blocks differ by more erases. Source: own.
pub const SPREAD: u16 = 32;

/// Where another block was erased so many times more often, all blocks that were erased least are
/// renewed before a call, which itself erases three blocks at most: one that is moved, one of a
/// group, one that is copied. Source: own.
pub const RENEW_NOW: u16 = SPREAD - 2;

/// Where another block was erased so many times more often, one block is renewed with each call.
/// Source: own.
pub const RENEW_SOON: u16 = 24;

/// How slots and blocks are chosen. Source: own.
#[derive(Clone, Copy, Debug, PartialEq, Eq, Drop)]
pub enum Policy {
    /// By number: the lowest-numbered free slot, the highest-numbered reserve, and of the blocks
    /// with the most dead slots the lowest-numbered.
    Lowest,
    /// By erases: a slot of the block that is being filled, else of the least worn that has one;
    /// the reserve is the block that was erased last, or a less worn one where no block rests; of
    /// the blocks with the most dead slots the least worn. Every so many erases a block is moved
    /// whose sectors rest, and a block that lags behind is renewed.
    Level,
}

/// What a block is moved for its wear before.
#[derive(Clone, Copy, Debug, PartialEq, Eq, Drop)]
pub enum Purpose {
    /// A slot is given: a block is moved only where one has to be copied anyway.
    Give,
    /// A block is tidied.
    Tidy,
}

/// What a block is wanted for. Source: own.
#[derive(Clone, Copy, Debug, PartialEq, Eq, Drop)]
pub(crate) enum Wanted {
    /// It has free slots.
    Free,
    /// So many of its slots are dead.
    Dead(u8),
    /// Its sectors rest: it has at least three live slots, and isn't live with a group.
    Resting,
}

/// Whether a block is wholly free.
pub(crate) fn is_whole(state: BlockState) -> bool
    ensures yes { IsTrue result → IsWholeBlock state }
    ensures no { IsFalse result → IsWholeBlock state → ⊥ }
{
    state.plain && state.free == 7
}

/// Whether a block is one that is wanted.
pub(crate) fn is_wanted(state: BlockState, wanted: Wanted) -> bool
    ensures yes { IsTrue result → Wants wanted state }
    ensures no { IsFalse result → Wants wanted state → ⊥ }
{
    match wanted {
        Wanted::Free => state.free > 0,
        Wanted::Dead(count) => state.dead == count,
        Wanted::Resting => !state.group && state.free <= 4 && state.dead <= 4 - state.free,
    }
}

/// The block before another one, counted round.
fn before(blocks: &[BlockState], block: u16) -> u16
    requires size { length blocks.now < 65536 }
    requires number { block < length blocks.now }
    ensures { result ≡ block_before blocks.now block }
{
    if block == 0 {
        blocks.len() as u16 - 1
    } else {
        block - 1
    }
}

/// Whether a block is wholly free, and the sectors of the block before it rest.
fn is_tail(blocks: &[BlockState], block: u16, but: u16) -> bool
    requires size { length blocks.now < 65536 }
    requires number { block < length blocks.now }
    ensures yes { IsTrue result → IsTail but blocks.now block }
    ensures no { IsFalse result → IsTail but blocks.now block → ⊥ }
{
    let last = before(blocks, block);
    last != but
        && is_whole(blocks[block as usize])
        && is_wanted(blocks[last as usize], Wanted::Resting)
}

/// The more worn of a tail and a block, if the block is a tail; else the old one.
fn better_tail(blocks: &[BlockState], old: Option<u16>, block: u16, but: u16) -> Option<u16>
    requires size { length blocks.now < 65536 }
    requires old { IfSome old (λ b. IsTail but blocks.now b) }
    ensures tail { IfSome result (λ b. IsTail but blocks.now b) }
    ensures kept { result ≡ None → old ≡ None }
    ensures found { result ≡ None → IsTail but blocks.now block → ⊥ }
{
    if block as usize >= blocks.len() || !is_tail(blocks, block, but) {
        return old;
    }
    match old {
        Some(tail) => Some(more_worn(blocks, tail, block)),
        None => Some(block),
    }
}

/// A wholly free block behind one whose sectors rest. Blocks that are written often lie side by
/// side, and this is the one among them that has been for longest. It is the most worn one of the
/// block erased last, the block behind the last one so chosen, and the run that is looked at next.
fn tail(blocks: &[BlockState], at: &Cursors) -> Option<u16>
    requires size { length blocks.now ≤ 4096 }
    ensures tail { IfSome result (λ b. IsTail at.now.newest blocks.now b) }
    ensures found { result ≡ None → IsTail at.now.newest blocks.now at.now.reserve → ⊥ }
{
    let mut best = better_tail(blocks, None, at.reserve, at.newest);
    best = better_tail(blocks, best, at.behind, at.newest);
    let first = at.looked.min(blocks.len() as u16);
    for block in first..first + RUN {
        best = better_tail(blocks, best, block, at.newest);
    }
    best
}

/// The run of blocks that is looked at behind this one, counted round.
fn next_look(blocks: &[BlockState], looked: u16) -> u16
    requires size { length blocks.now ≤ 4096 }
{
    let count = blocks.len() as u16;
    if looked < count && RUN < count - looked {
        looked + RUN
    } else {
        0
    }
}

/// The one of two blocks that was erased more; of equals the first.
fn more_worn(blocks: &[BlockState], old: u16, new: u16) -> u16
    requires old { old < length blocks.now }
    requires new { new < length blocks.now }
    ensures either { (result ≡ old) ⊎ (result ≡ new) }
    ensures old { (in_block blocks.now old).erases ≤ (in_block blocks.now result).erases }
    ensures new { (in_block blocks.now new).erases ≤ (in_block blocks.now result).erases }
{
    if blocks[new as usize].erases > blocks[old as usize].erases {
        new
    } else {
        old
    }
}

/// The block that is moved for its wear now, and where to; None where it isn't time for it, or
/// there is none.
fn move_due(blocks: &[BlockState], at: &mut Cursors, purpose: Purpose) -> Option<Copied>
    requires size { length blocks.now ≤ 4096 }
    requires ahead { IsAhead blocks.now at.old }
    requires reserve { at.old.reserve < length blocks.now }
    ensures due { IfSome result (λ c. IsDue blocks.now c.source c.target) }
    ensures least { IfSome result (λ c. IsLeastWorn wanteds.Resting at.new.newest blocks.now
        (length blocks.now) c.source) }
    ensures lowest { at.old.policy ≡ policies.Lowest → result ≡ None }
    ensures early { at.old.turn < 8 → result ≡ None }
    ensures ahead { IsAhead blocks.now at.new }
    ensures reserve { (at.new.reserve ≡ at.old.reserve)
        ⊎ IsOtherReserve blocks.now at.old at.new.reserve }
    ensures policy { at.new.policy ≡ at.old.policy }
    ensures newest { IfSome result (λ c. at.new.newest ≡ at.old.newest) }
    ensures must { at.old.policy ≡ policies.Level → 8 ≤ at.old.turn
        → (purpose ≡ purposes.Give → HasNoFreeBut blocks.now at.old.reserve)
        → IsTail at.old.newest blocks.now at.old.reserve → (w : ℕ) → IsMostDead blocks.now w
        → AreRestingFewer blocks.now w → result ≡ None → ⊥ }
{
    if at.policy == Policy::Lowest || at.turn < TURN {
        return None;
    }
    if purpose == Purpose::Give && block_with_free(blocks, at).is_some() {
        return None;
    }
    let Some(worst) = most_dead(blocks, at) else {
        return None;
    };
    at.looked = next_look(blocks, at.looked);
    let due = coldest(blocks, at, worst);
    if due.is_none() {
        rest_reserve(blocks, at);
    }
    due
}

/// Where a wholly free block was erased less often than the reserve, it is the reserve: on a disk
/// that is nearly empty no block rests that could be moved.
fn rest_reserve(blocks: &[BlockState], at: &mut Cursors)
    requires size { length blocks.now ≤ 4096 }
    requires ahead { IsAhead blocks.now at.old }
    requires reserve { at.old.reserve < length blocks.now }
    requires level { at.old.policy ≡ policies.Lowest → ⊥ }
    ensures ahead { IsAhead blocks.now at.new }
    ensures reserve { (at.new.reserve ≡ at.old.reserve)
        ⊎ IsOtherReserve blocks.now at.old at.new.reserve }
    ensures policy { at.new.policy ≡ at.old.policy }
    ensures newest { at.new.newest ≡ at.old.newest }
{
    let reserve = at.reserve;
    let from = behind(at.newest);
    let Some(block) = least_worn(blocks, &mut at.bounds, Wanted::Free, reserve, from) else {
        return;
    };
    if is_whole(blocks[block as usize])
        && blocks[block as usize].erases < blocks[reserve as usize].erases
    {
        choose_reserve(blocks, at, block);
    }
}

/// The least worn block whose sectors rest, and the tail into which it is moved. `worst` has the
/// most dead slots.
fn coldest(blocks: &[BlockState], at: &mut Cursors, worst: u16) -> Option<Copied>
    requires size { length blocks.now ≤ 4096 }
    requires ahead { IsAhead blocks.now at.old }
    requires worst { worst < length blocks.now }
    ensures due { IfSome result (λ c. IsDue blocks.now c.source c.target) }
    ensures least { IfSome result (λ c. IsLeastWorn wanteds.Resting at.new.newest blocks.now
        (length blocks.now) c.source) }
    ensures ahead { IsAhead blocks.now at.new }
    ensures reserve { at.new.reserve ≡ at.old.reserve }
    ensures policy { at.new.policy ≡ at.old.policy }
    ensures newest { at.new.newest ≡ at.old.newest }
    ensures must { IsTail at.old.newest blocks.now at.old.reserve
        → AreRestingFewer blocks.now worst → result ≡ None → ⊥ }
{
    let Some(target) = tail(blocks, at) else {
        return None;
    };
    let newest = at.newest;
    let Some(source) = least_worn(blocks, &mut at.bounds, Wanted::Resting, newest, target) else {
        return None;
    };
    if blocks[source as usize].dead < blocks[worst as usize].dead {
        Some(Copied { source, target })
    } else {
        None
    }
}

/// Copies a block that isn't wholly free into the reserve, whether slots of it are dead or not, and
/// brings the index up to date.
pub(crate) fn move_used<S: SlotCalls>(
    slots: &mut S,
    states: &mut [SlotState],
    blocks: &mut [BlockState],
    at: &mut Cursors,
    source: u16,
) -> Result<Copied, NorError>
    requires size { length blocks.old ≤ 4096 }
    requires index { IsIndexOf states.old blocks.old at.old (S.state slots.old).memory }
    requires room { HasRoom (S.state slots.old).memory }
    requires source { source < length blocks.old }
    requires used { IsInUse (in_block blocks.old source) }
    requires may { at.old.policy ≡ policies.Level
        → MayWear source (length blocks.old) (erases_of blocks.old) }
    ensures ok { IfOk result (λ c. MovesInto c.source c.target (S.state slots.old).memory
        (S.state slots.new).memory) }
    ensures work { OnOk result (work_of (S.state slots.new).memory
        ≤ work_of (S.state slots.old).memory) }
    ensures blocks { OnOk result (BlocksMoved source at.old.reserve blocks.old blocks.new) }
    ensures fits { OnOk result ((in_block blocks.old source).erases < 65536) }
    ensures policy { OnOk result (at.new.policy ≡ at.old.policy) }
    ensures index { OnOk result (IsIndexOf states.new blocks.new at.new
        (S.state slots.new).memory) }
    ensures cut { IsErrOf result NorError.Cut → IsHealthy (S.state slots.old).memory
        → Stays (S.state slots.old).memory (S.state slots.new).memory }
    ensures healthy { IsErrOf result NorError.Cut → IsHealthy (S.state slots.old).memory
        → IsHealthy (S.state slots.new).memory }
    ensures size { length (S.state slots.new).memory ≡ length (S.state slots.old).memory }
    ensures states_size { length states.new ≡ length states.old }
    ensures blocks_size { length blocks.new ≡ length blocks.old }
    ensures ends { EndsFirmly result (S.state slots.old) (S.state slots.new) }
    ensures firm { IsFirmIn (bits_in (S.state slots.old)) blocks.old
        → OnOk result (IsFirmIn (bits_in (S.state slots.new)) blocks.new) }
    ensures disk { IsFirmDiskIn (bits_in (S.state slots.old)) blocks.old
        → OnOk result (IsFirmDiskIn (bits_in (S.state slots.new)) blocks.new) }
    ensures cut_bits { IsErrOf result NorError.Cut
        → IsFirmDiskIn (bits_in (S.state slots.old)) blocks.old
        → LosesNothing (S.state slots.old).memory (bits_in (S.state slots.new)) }
    ensures target { IfOk result (λ c. (c.source ≡ source) × (c.target ≡ at.old.reserve)) }
    ensures newest { OnOk result (at.new.newest ≡ at.old.newest) }
{
    let target = at.reserve;
    copy_into(slots, source, target, blocks[target as usize].suspect)?;
    shift_states(states, source, target);
    move_block(blocks, at, source);
    Ok(Copied { source, target })
}

/// A block was moved into this one for `TURN` erases; the erase of the block itself counts for the
/// next. So an odd number of others lies between two moves, and of two blocks that are erased by
/// turns each gets to be the reserve at one.
fn end_turn(at: &mut Cursors, turn: u16, target: u16)
    ensures { at.new ≡ record at.old { turn = turn - 7; behind = at.new.behind } }
{
    at.turn = turn.saturating_sub(TURN - 1);
    at.behind = behind(target);
}

/// Moves a block whose sectors rest into a wholly free one, where it is time for it.
pub fn level_block<S: SlotCalls>(
    slots: &mut S,
    states: &mut [SlotState],
    blocks: &mut [BlockState],
    at: &mut Cursors,
    purpose: Purpose,
) -> Result<Option<Copied>, NorError>
    requires sized { IsChipSize (length (S.state slots.old).memory) }
    requires ready { IsNorReady (S.state slots.old) }
    requires settled { IsSettled (S.state slots.old).memory }
    requires index { IsIndexOf states.old blocks.old at.old (S.state slots.old).memory }
    requires room { HasRoom (S.state slots.old).memory }
    requires even { at.old.policy ≡ policies.Level
        → AreWithin 31 (length blocks.old) (erases_of blocks.old) }
    ensures moved { IfOk result (λ copied. (c : CopiedOf) → copied ≡ Some c
        → MovesInto c.source c.target (S.state slots.old).memory (S.state slots.new).memory) }
    ensures left { IfOk result (λ copied. (c : CopiedOf) → copied ≡ Some c
        → HasNoneDead (S.state slots.new).memory → ⊥) }
    ensures work { IfOk result (λ copied. (c : CopiedOf) → copied ≡ Some c
        → work_of (S.state slots.new).memory ≤ work_of (S.state slots.old).memory) }
    ensures none { IfOk result (λ copied. copied ≡ None
        → (S.state slots.new).memory ≡ (S.state slots.old).memory) }
    ensures lowest { at.old.policy ≡ policies.Lowest → IfOk result (λ copied. copied ≡ None) }
    ensures policy { OnOk result (at.new.policy ≡ at.old.policy) }
    ensures index { OnOk result (IsIndexOf states.new blocks.new at.new
        (S.state slots.new).memory) }
    ensures cut { IsErrOf result NorError.Cut
        → Stays (S.state slots.old).memory (S.state slots.new).memory }
    ensures healthy { IsErrOf result NorError.Cut → IsHealthy (S.state slots.new).memory }
    ensures size { length (S.state slots.new).memory ≡ length (S.state slots.old).memory }
    ensures states_size { length states.new ≡ length states.old }
    ensures blocks_size { length blocks.new ≡ length blocks.old }
    ensures ends { EndsFirmly result (S.state slots.old) (S.state slots.new) }
    ensures firm { IsFirmIn (bits_in (S.state slots.old)) blocks.old
        → OnOk result (IsFirmIn (bits_in (S.state slots.new)) blocks.new) }
    ensures disk { IsFirmDiskIn (bits_in (S.state slots.old)) blocks.old
        → OnOk result (IsFirmDiskIn (bits_in (S.state slots.new)) blocks.new) }
    ensures cut_bits { IsErrOf result NorError.Cut
        → IsFirmDiskIn (bits_in (S.state slots.old)) blocks.old
        → LosesNothing (S.state slots.old).memory (bits_in (S.state slots.new)) }
    ensures least { at.old.policy ≡ policies.Level → IfOk result (λ copied. (c : CopiedOf)
        → copied ≡ Some c → MovesLeastWorn (erases_of blocks.old) at.old.newest c.source
        (S.state slots.old).memory) }
    ensures must { at.old.policy ≡ policies.Level → 8 ≤ at.old.turn
        → (purpose ≡ purposes.Give → HasNoFreeBut blocks.old at.old.reserve)
        → IsTail at.old.newest blocks.old at.old.reserve → (w : ℕ) → IsMostDead blocks.old w
        → AreRestingFewer blocks.old w → IfOk result (λ copied. copied ≡ None → ⊥) }
    ensures counted { IfOk result (λ copied. CountsErase (data_blocks (S.state slots.old).memory)
        copied (erases_of blocks.old) (erases_of blocks.new)) }
{
    let Some(due) = move_due(blocks, at, purpose) else {
        return Ok(None);
    };
    let turn = at.turn;
    choose_reserve(blocks, at, due.target);
    let moved = move_used(slots, states, blocks, at, due.source)?;
    end_turn(at, turn, due.target);
    Ok(Some(moved))
}

/// The most erases of a block.
pub(crate) fn most_worn(blocks: &[BlockState]) -> u16
    requires size { length blocks.now < 65536 }
    ensures all { (c : ℕ) → c < length blocks.now → (in_block blocks.now c).erases ≤ result }
    ensures some { (result ≡ 0) ⊎ ((c : ℕ) × (c < length blocks.now)
        × ((in_block blocks.now c).erases ≡ result)) }
{
    let mut most = 0;
    for block in 0..blocks.len() as u16 {
        most = most.max(blocks[block as usize].erases);
    }
    most
}

/// The block that was erased least.
fn least_erased(blocks: &[BlockState]) -> u16
    requires size { length blocks.now < 65536 }
    requires some { 0 < length blocks.now }
    ensures number { result < length blocks.now }
    ensures all { (c : ℕ) → c < length blocks.now
        → (in_block blocks.now result).erases ≤ (in_block blocks.now c).erases }
{
    let mut least = 0;
    for block in 1..blocks.len() as u16 {
        if blocks[block as usize].erases < blocks[least as usize].erases {
            least = block;
        }
    }
    least
}

/// From now on slots and blocks are chosen by erases, and these are counted anew. What was suspect
/// is.
pub fn choose_by_erases(blocks: &mut [BlockState], at: &mut Cursors)
    requires size { length blocks.old < 65536 }
    ensures index { (slots : List SlotStateOf) (m : List ℕ) → IsIndexOf slots blocks.old at.old m
        → IsIndexOf slots blocks.new at.new m }
    ensures policy { at.new.policy ≡ policies.Level }
    ensures counted { (c : ℕ) → c < length blocks.new → erases_of blocks.new c ≡ 0 }
    ensures suspects { KeepsSuspects blocks.old blocks.new }
    ensures size { length blocks.new ≡ length blocks.old }
{
    forget_erases(blocks);
    at.policy = Policy::Level;
    at.bounds = no_bounds();
    at.least_erases = 0;
    at.most_erases = 0;
}

/// No block was erased yet.
fn forget_erases(blocks: &mut [BlockState])
    requires size { length blocks.old < 65536 }
    ensures { Forgets (length blocks.old) blocks.old blocks.new }
{
    for block in 0..blocks.len() as u16 {
        blocks[block as usize].erases = 0;
    }
}

/// How far the bounds of all erases lie apart.
fn width(at: &Cursors) -> u16
    ensures { result ≡ at.now.most_erases - at.now.least_erases }
{
    at.most_erases.saturating_sub(at.least_erases)
}

/// The block that was erased least, where another one was erased `limit` times more often; None
/// where none was, and where it chooses by number.
pub fn lagging(blocks: &[BlockState], at: &mut Cursors, limit: u16) -> Option<u16>
    requires size { length blocks.now ≤ 4096 }
    requires some { 0 < length blocks.now }
    requires limit { 0 < limit }
    requires ahead { IsAhead blocks.now at.old }
    ensures none { at.old.policy ≡ policies.Level → result ≡ None
        → AreWithin (limit - 1) (length blocks.now) (erases_of blocks.now) }
    ensures least { IfSome result (λ b.
        IsLeastErased b (length blocks.now) (erases_of blocks.now)) }
    ensures fits { IfSome result (λ b. erases_of blocks.now b + limit < 65536) }
    ensures lags { IfSome result (λ b.
        AreWithin (limit - 1) (length blocks.now) (erases_of blocks.now) → ⊥) }
    ensures lowest { at.old.policy ≡ policies.Lowest → result ≡ None }
    ensures ahead { IsAhead blocks.now at.new }
    ensures rest { at.new ≡ record at.old {
      least_erases = at.new.least_erases;
      most_erases = at.new.most_erases;
    } }
{
    if at.policy == Policy::Lowest || width(at) < limit {
        return None;
    }
    let least = least_erased(blocks);
    at.least_erases = blocks[least as usize].erases;
    at.most_erases = most_worn(blocks);
    if width(at) < limit { None } else { Some(least) }
}

/// Erases a wholly free block once more.
fn erase_spare<S: SlotCalls>(
    slots: &mut S,
    states: &[SlotState],
    blocks: &mut [BlockState],
    at: &mut Cursors,
    block: u16,
) -> Result<(), NorError>
    requires index { IsIndexOf states.now blocks.old at.old (S.state slots.old).memory }
    requires room { HasRoom (S.state slots.old).memory }
    requires number { block < length blocks.old }
    requires whole { IsWholeBlock (in_block blocks.old block) }
    requires least { (c : ℕ) → c < length blocks.old
        → erases_of blocks.old block ≤ erases_of blocks.old c }
    ensures ok { OnOk result (ErasesSpare block (S.state slots.old).memory
        (S.state slots.new).memory) }
    ensures index { OnOk result (IsIndexOf states.now blocks.new at.new
        (S.state slots.new).memory) }
    ensures counted { OnOk result (IsErasedOnce (length blocks.old) block (erases_of blocks.old)
        (erases_of blocks.new)) }
    ensures policy { at.new.policy ≡ at.old.policy }
    ensures cut { IsErrOf result NorError.Cut → IsHealthy (S.state slots.old).memory
        → Stays (S.state slots.old).memory (S.state slots.new).memory }
    ensures healthy { IsErrOf result NorError.Cut → IsHealthy (S.state slots.old).memory
        → IsHealthy (S.state slots.new).memory }
    ensures size { length (S.state slots.new).memory ≡ length (S.state slots.old).memory }
    ensures blocks_size { length blocks.new ≡ length blocks.old }
    ensures ends { EndsFirmly result (S.state slots.old) (S.state slots.new) }
    ensures firm { IsFirmIn (bits_in (S.state slots.old)) blocks.old
        → OnOk result (IsFirmIn (bits_in (S.state slots.new)) blocks.new) }
    ensures disk { IsFirmDiskIn (bits_in (S.state slots.old)) blocks.old
        → OnOk result (IsFirmDiskIn (bits_in (S.state slots.new)) blocks.new) }
    ensures cut_bits { IsErrOf result NorError.Cut
        → IsFirmDiskIn (bits_in (S.state slots.old)) blocks.old
        → LosesNothing (S.state slots.old).memory (bits_in (S.state slots.new)) }
{
    slots.erase(block)?;
    count_erase(blocks, at, block);
    Ok(())
}

/// A block was erased, and nothing else changed: what is free in it isn't suspect.
fn count_erase(blocks: &mut [BlockState], at: &mut Cursors, block: u16)
    requires number { block < length blocks.old }
    ensures { RecountsErase block blocks.old blocks.new at.old at.new }
{
    let erases = blocks[block as usize].erases.saturating_add(1);
    blocks[block as usize].erases = erases;
    blocks[block as usize].suspect = false;
    at.most_erases = at.most_erases.max(erases);
}

/// Erases a block once more, which none was erased less often than. What it holds goes to the
/// reserve first: None where it is wholly free.
pub fn renew_block<S: SlotCalls>(
    slots: &mut S,
    states: &mut [SlotState],
    blocks: &mut [BlockState],
    at: &mut Cursors,
    block: u16,
) -> Result<Option<Copied>, NorError>
    requires size { length blocks.old ≤ 4096 }
    requires index { IsIndexOf states.old blocks.old at.old (S.state slots.old).memory }
    requires room { HasRoom (S.state slots.old).memory }
    requires number { block < length blocks.old }
    requires least { (c : ℕ) → c < length blocks.old
        → erases_of blocks.old block ≤ erases_of blocks.old c }
    ensures ok { IfOk result (λ copied. Renews block copied (S.state slots.old).memory
        (S.state slots.new).memory) }
    ensures target { IfOk result (λ copied. (c : CopiedOf) → copied ≡ Some c
        → c.target ≡ at.old.reserve) }
    ensures work { OnOk result (work_of (S.state slots.new).memory
        ≤ work_of (S.state slots.old).memory) }
    ensures policy { OnOk result (at.new.policy ≡ at.old.policy) }
    ensures index { OnOk result (IsIndexOf states.new blocks.new at.new
        (S.state slots.new).memory) }
    ensures counted { OnOk result (IsErasedOnce (length blocks.old) block (erases_of blocks.old)
        (erases_of blocks.new)) }
    ensures cut { IsErrOf result NorError.Cut → IsHealthy (S.state slots.old).memory
        → Stays (S.state slots.old).memory (S.state slots.new).memory }
    ensures healthy { IsErrOf result NorError.Cut → IsHealthy (S.state slots.old).memory
        → IsHealthy (S.state slots.new).memory }
    ensures size { length (S.state slots.new).memory ≡ length (S.state slots.old).memory }
    ensures states_size { length states.new ≡ length states.old }
    ensures blocks_size { length blocks.new ≡ length blocks.old }
    ensures ends { EndsFirmly result (S.state slots.old) (S.state slots.new) }
    ensures firm { IsFirmIn (bits_in (S.state slots.old)) blocks.old
        → OnOk result (IsFirmIn (bits_in (S.state slots.new)) blocks.new) }
    ensures disk { IsFirmDiskIn (bits_in (S.state slots.old)) blocks.old
        → OnOk result (IsFirmDiskIn (bits_in (S.state slots.new)) blocks.new) }
    ensures cut_bits { IsErrOf result NorError.Cut
        → IsFirmDiskIn (bits_in (S.state slots.old)) blocks.old
        → LosesNothing (S.state slots.old).memory (bits_in (S.state slots.new)) }
{
    let state = blocks[block as usize];
    if is_whole(state) {
        erase_spare(slots, states, blocks, at, block)?;
        Ok(None)
    } else if state.group {
        let converted = convert_block(slots, states, blocks, at, block)?;
        Ok(Some(converted))
    } else {
        let moved = move_used(slots, states, blocks, at, block)?;
        Ok(Some(moved))
    }
}
