//! The index of a store's slots in memory. Each operation changes one slot and one block of it;
//! where it looks for a slot to give, and for a block to be copied, it goes on from where it stood.

ghost use Rattle.std.specs.Prelude.{◌≡◌, ◌≢◌, ◌⊎◌, ◌+◌, ◌*◌, ◌/◌, ◌<◌, ◌≤◌, length, ℕ, List};
ghost use Rattle.std.specs.Prelude.{MatchOption, IfSome, IsTrue, IsFalse, None};
ghost use Rattle.sector_stock.specs.Index.{IsAhead, Marked, one_dead_more, one_free_fewer};
ghost use Rattle.sector_stock.specs.Index.{in_block, IsMostDead, HasNoDead, IsLowestWithFree};
ghost use Rattle.sector_stock.specs.Index.{HasFreeBut, HasNoFreeBut, copied_state, Shifted};
ghost use Rattle.sector_stock.specs.Index.{IsIndexOf, IsWholeBlock, BlocksMoved, IsNextReserve};
ghost use Rattle.sector_stock.specs.Index.{IsLowestDead, IsLowestGroup, HasNoGroup, erases_of};
ghost use Rattle.sector_stock.specs.Policies.{IsFilledUp, IsBoundFor};
ghost use Rattle.sector_stock.specs.declared.policy.Policy.TheVariants as policies;
ghost use Rattle.sector_stock.specs.IndexSteps.{AreSparesBelow, NextReserve, Widened};
ghost use Rattle.sector_stock.specs.IndexSteps.{HasNoFreeState, IsFirstFreeState};
ghost use Rattle.sector_stock.specs.IndexSteps.{HasNoneFreeBefore};
ghost use Rattle.sector_stock.specs.Room.{HasNoneFree};
ghost use Rattle.sector_stock.specs.Takes.{IsGivable, IsLowestFree, FillsUp};

use crate::least::{BOUNDS, least_worn, lower_bound};
use crate::policy::{Policy, Wanted, is_whole};

/// What the index keeps of a slot. Source: own.
#[derive(Clone, Copy, Debug, PartialEq, Eq, Drop)]
pub enum SlotState {
    Free,
    Live,
    Dead,
}

/// What it keeps of a block: how many of its slots are free and dead, whether no copy was ever
/// begun in it, and whether it is live with a group; how often it was erased since the index was
/// made, at most 65,535; and whether what is free in it is suspect: it was torn, perhaps.
#[derive(Clone, Copy, Debug, PartialEq, Eq, Drop)]
pub struct BlockState {
    pub free: u8,
    pub dead: u8,
    pub plain: bool,
    pub group: bool,
    pub erases: u16,
    pub suspect: bool,
}

/// Where it looks next.
#[derive(Clone, Copy, Drop)]
pub struct Cursors {
    /// How it chooses.
    pub policy: Policy,
    /// A wholly free block; where it chooses by number, the highest-numbered one.
    pub reserve: u16,
    /// Each other wholly free block lies below this one.
    pub spares: u16,
    /// Below it no block but the reserve has a free slot,
    pub cursor: u16,
    /// nor from this one on.
    pub beyond: u16,
    /// No block has more dead slots,
    pub most: u8,
    /// and below this one none has so many.
    pub from: u16,
    /// Erases that no block was moved for yet, at most 65,535.
    pub turn: u16,
    /// Of blocks that were erased equally often the first one behind this one is taken.
    pub clock: u16,
    /// The block of the slot that was given last, or its copy by a tidying: where it chooses by
    /// erases, it is filled up.
    pub newest: u16,
    /// The block behind the last one into which a block was moved for its wear,
    pub behind: u16,
    /// and where the run of blocks begins that was looked at for another one.
    pub looked: u16,
    /// Bounds of the erases in runs of blocks, by which the least worn one is found.
    pub bounds: [u16; BOUNDS],
    /// No block was erased less often,
    pub least_erases: u16,
    /// nor more often.
    pub most_erases: u16,
}

/// A live slot became dead.
pub fn mark_dead(slots: &mut [SlotState], blocks: &mut [BlockState], at: &mut Cursors, slot: u16)
    requires slot { slot < length slots.old }
    requires block { slot / 7 < length blocks.old }
    requires room { (in_block blocks.old (slot / 7)).dead < 7 }
    requires size { length blocks.old ≤ 4096 }
    ensures marked { Marked slot SlotState.Dead (one_dead_more (in_block blocks.old (slot / 7)))
        slots.old slots.new blocks.old blocks.new }
    ensures ahead { IsAhead blocks.old at.old → IsAhead blocks.new at.new }
    ensures reserve { at.new.reserve ≡ at.old.reserve }
    ensures policy { at.new.policy ≡ at.old.policy }
{
    slots[slot as usize] = SlotState::Dead;
    let block = slot / 7;
    let dead = blocks[block as usize].dead + 1;
    blocks[block as usize].dead = dead;
    if dead > at.most {
        at.most = dead;
        at.from = block;
    } else if dead == at.most && block < at.from {
        at.from = block;
    }
    lower_bound(
        &mut at.bounds,
        Wanted::Dead(dead),
        block,
        blocks[block as usize].erases,
    );
}

/// A free slot became live.
pub(crate) fn mark_live(slots: &mut [SlotState], blocks: &mut [BlockState], slot: u16)
    requires slot { slot < length slots.old }
    requires block { slot / 7 < length blocks.old }
    requires some { 0 < (in_block blocks.old (slot / 7)).free }
    ensures marked { Marked slot SlotState.Live (one_free_fewer (in_block blocks.old (slot / 7)))
        slots.old slots.new blocks.old blocks.new }
{
    slots[slot as usize] = SlotState::Live;
    let block = slot / 7;
    blocks[block as usize].free -= 1;
}

/// A block with the most dead slots: the lowest-numbered, or the least worn, as is chosen.
pub(crate) fn most_dead(blocks: &[BlockState], at: &mut Cursors) -> Option<u16>
    requires size { length blocks.now ≤ 4096 }
    requires ahead { IsAhead blocks.now at.old }
    ensures found { MatchOption result (HasNoDead blocks.now) (λ b. IsMostDead blocks.now b) }
    ensures lowest { at.old.policy ≡ policies.Lowest
        → IfSome result (λ b. IsLowestDead blocks.now b) }
    ensures level { at.old.policy ≡ policies.Level → IfSome result (λ b. (c : ℕ)
        → c < length blocks.now → (in_block blocks.now c).dead ≡ (in_block blocks.now b).dead
        → (in_block blocks.now b).erases ≤ (in_block blocks.now c).erases) }
    ensures ahead { IsAhead blocks.now at.new }
    ensures reserve { at.new.reserve ≡ at.old.reserve }
    ensures policy { at.new.policy ≡ at.old.policy }
    ensures newest { at.new.newest ≡ at.old.newest }
{
    let Some(lowest) = lowest_dead(blocks, at) else {
        return None;
    };
    match at.policy {
        Policy::Lowest => Some(lowest),
        Policy::Level => Some(least_worn_dead(blocks, at, lowest)),
    }
}

/// Of the blocks with as many dead slots as this one, the one that was erased least.
fn least_worn_dead(blocks: &[BlockState], at: &mut Cursors, like: u16) -> u16
    requires size { length blocks.now ≤ 4096 }
    requires ahead { IsAhead blocks.now at.old }
    requires like { like < length blocks.now }
    requires some { 0 < (in_block blocks.now like).dead }
    ensures number { result < length blocks.now }
    ensures dead { (in_block blocks.now result).dead ≡ (in_block blocks.now like).dead }
    ensures least { (c : ℕ) → c < length blocks.now
        → (in_block blocks.now c).dead ≡ (in_block blocks.now like).dead
        → (in_block blocks.now result).erases ≤ (in_block blocks.now c).erases }
    ensures ahead { IsAhead blocks.now at.new }
    ensures reserve { at.new.reserve ≡ at.old.reserve }
    ensures policy { at.new.policy ≡ at.old.policy }
    ensures newest { at.new.newest ≡ at.old.newest }
{
    let wanted = Wanted::Dead(blocks[like as usize].dead);
    let past_all = blocks.len() as u16;
    let from = behind(at.clock);
    let Some(block) = least_worn(blocks, &mut at.bounds, wanted, past_all, from) else {
        unreachable!()
    };
    block
}

/// The block with the most dead slots, the lowest-numbered of equals.
fn lowest_dead(blocks: &[BlockState], at: &mut Cursors) -> Option<u16>
    requires size { length blocks.now < 65536 }
    requires ahead { IsAhead blocks.now at.old }
    ensures found { MatchOption result (HasNoDead blocks.now)
        (λ b. IsMostDead blocks.now b × IsLowestDead blocks.now b) }
    ensures ahead { IsAhead blocks.now at.new }
    ensures reserve { at.new.reserve ≡ at.old.reserve }
    ensures policy { at.new.policy ≡ at.old.policy }
    ensures newest { at.new.newest ≡ at.old.newest }
{
    while at.most > 0 {
        match first_with(blocks, at.from, at.most) {
            Some(block) => {
                at.from = block;
                return Some(block);
            }
            None => {
                at.most -= 1;
                at.from = 0;
            }
        }
    }
    None
}

/// The lowest-numbered block from `from` on with so many dead slots.
fn first_with(blocks: &[BlockState], from: u16, dead: u8) -> Option<u16>
    requires size { length blocks.now < 65536 }
    ensures found { MatchOption result
        ((c : ℕ) → from ≤ c → c < length blocks.now → (in_block blocks.now c).dead ≢ dead)
        (λ b. (b < length blocks.now) × (from ≤ b) × ((in_block blocks.now b).dead ≡ dead)
        × ((c : ℕ) → from ≤ c → c < b → (in_block blocks.now c).dead ≢ dead)) }
{
    let count = blocks.len() as u16;
    for block in from..count {
        if blocks[block as usize].dead == dead {
            return Some(block);
        }
    }
    None
}

/// The lowest-numbered block that is live with a group.
pub(crate) fn lowest_group(blocks: &[BlockState]) -> Option<u16>
    requires size { length blocks.now < 65536 }
    ensures { MatchOption result (HasNoGroup blocks.now) (λ b. IsLowestGroup blocks.now b) }
{
    let count = blocks.len() as u16;
    for block in 0..count {
        if blocks[block as usize].group {
            return Some(block);
        }
    }
    None
}

/// A block but the reserve that has a free slot: the lowest-numbered, or as `level_with_free`
/// gives it, as is chosen.
pub(crate) fn block_with_free(blocks: &[BlockState], at: &mut Cursors) -> Option<u16>
    requires size { length blocks.now ≤ 4096 }
    requires ahead { IsAhead blocks.now at.old }
    ensures found { MatchOption result (HasNoFreeBut blocks.now at.old.reserve)
        (λ b. HasFreeBut blocks.now at.old.reserve b) }
    ensures lowest { at.old.policy ≡ policies.Lowest
        → IfSome result (λ b. IsLowestWithFree blocks.now at.old.reserve b) }
    ensures level { at.old.policy ≡ policies.Level
        → IfSome result (λ b. IsFilledUp at.old.newest at.old.reserve blocks.now b) }
    ensures filled { at.old.policy ≡ policies.Level
        → IfSome result (λ b. at.new.newest ≡ b) }
    ensures ahead { IsAhead blocks.now at.new }
    ensures reserve { at.new.reserve ≡ at.old.reserve }
    ensures policy { at.new.policy ≡ at.old.policy }
    ensures newest { result ≡ None → at.new.newest ≡ at.old.newest }
{
    match at.policy {
        Policy::Lowest => lowest_with_free(blocks, at),
        Policy::Level => level_with_free(blocks, at),
    }
}

/// Where the order of blocks that were erased equally often begins.
pub(crate) fn behind(clock: u16) -> u16 {
    clock.saturating_add(1)
}

/// Another wholly free block is the reserve.
pub(crate) fn choose_reserve(blocks: &[BlockState], at: &mut Cursors, reserve: u16)
    requires size { length blocks.now < 65536 }
    requires number { reserve < length blocks.now }
    requires old { at.old.reserve < length blocks.now }
    requires ahead { IsAhead blocks.now at.old }
    ensures ahead { IsAhead blocks.now at.new }
    ensures reserve { at.new.reserve ≡ reserve }
    ensures policy { at.new.policy ≡ at.old.policy }
    ensures newest { at.new.newest ≡ at.old.newest }
{
    widen(at, at.reserve);
    at.reserve = reserve;
    at.spares = blocks.len() as u16;
}

/// Whether a block but the reserve has a free slot.
fn is_open(blocks: &[BlockState], block: u16, reserve: u16) -> bool
    ensures yes { IsTrue result → HasFreeBut blocks.now reserve block }
    ensures no { IsFalse result → HasFreeBut blocks.now reserve block → ⊥ }
{
    (block as usize) < blocks.len() && block != reserve && blocks[block as usize].free > 0
}

/// The block from which a slot was given last, while it has a free one and isn't the reserve; else
/// the least worn block but the reserve that has one.
fn level_with_free(blocks: &[BlockState], at: &mut Cursors) -> Option<u16>
    requires size { length blocks.now ≤ 4096 }
    requires ahead { IsAhead blocks.now at.old }
    ensures found { MatchOption result (HasNoFreeBut blocks.now at.old.reserve)
        (λ b. HasFreeBut blocks.now at.old.reserve b) }
    ensures level { IfSome result (λ b. IsFilledUp at.old.newest at.old.reserve blocks.now b) }
    ensures filled { IfSome result (λ b. at.new.newest ≡ b) }
    ensures ahead { IsAhead blocks.now at.new }
    ensures reserve { at.new.reserve ≡ at.old.reserve }
    ensures policy { at.new.policy ≡ at.old.policy }
    ensures newest { result ≡ None → at.new.newest ≡ at.old.newest }
{
    let newest = at.newest;
    let reserve = at.reserve;
    if is_open(blocks, newest, reserve) {
        return Some(newest);
    }
    if at.cursor >= at.beyond {
        return None;
    }
    match least_worn(
        blocks,
        &mut at.bounds,
        Wanted::Free,
        reserve,
        behind(newest),
    ) {
        Some(block) => {
            at.newest = block;
            Some(block)
        }
        None => {
            at.cursor = at.beyond;
            None
        }
    }
}

/// The lowest-numbered block but the reserve that has a free slot.
fn lowest_with_free(blocks: &[BlockState], at: &mut Cursors) -> Option<u16>
    requires size { length blocks.now < 65536 }
    requires ahead { IsAhead blocks.now at.old }
    ensures found { MatchOption result (HasNoFreeBut blocks.now at.old.reserve)
        (λ b. IsLowestWithFree blocks.now at.old.reserve b) }
    ensures ahead { IsAhead blocks.now at.new }
    ensures reserve { at.new.reserve ≡ at.old.reserve }
    ensures policy { at.new.policy ≡ at.old.policy }
    ensures newest { result ≡ None → at.new.newest ≡ at.old.newest }
{
    match first_free(blocks, at.cursor, at.beyond, at.reserve) {
        Some(block) => {
            at.cursor = block;
            Some(block)
        }
        None => {
            at.cursor = at.beyond;
            None
        }
    }
}

/// The lowest-numbered block from `from` on and below `end`, but the reserve, that has a free slot.
fn first_free(blocks: &[BlockState], from: u16, end: u16, reserve: u16) -> Option<u16>
    requires end { end ≤ length blocks.now }
    ensures found { MatchOption result
        ((c : ℕ) → from ≤ c → c < end → c ≢ reserve → (in_block blocks.now c).free ≡ 0)
        (λ b. (b < length blocks.now) × (from ≤ b) × (b ≢ reserve)
        × (0 < (in_block blocks.now b).free)
        × ((c : ℕ) → from ≤ c → c < b → c ≢ reserve → (in_block blocks.now c).free ≡ 0)) }
{
    for block in from..end {
        let free = blocks[block as usize].free;
        if block != reserve && free > 0 {
            return Some(block);
        }
    }
    None
}

/// The copy of a slot of this state.
fn copy_of(state: SlotState) -> SlotState
    ensures { result ≡ copied_state state }
{
    match state {
        SlotState::Free => SlotState::Free,
        SlotState::Live => SlotState::Live,
        SlotState::Dead => SlotState::Free,
    }
}

/// The states of a block go to the block into which it was copied, and its own slots are free.
pub(crate) fn shift_states(slots: &mut [SlotState], source: u16, target: u16)
    requires other { source ≢ target }
    requires source { 7 * source + 7 ≤ length slots.old }
    requires target { 7 * target + 7 ≤ length slots.old }
    ensures { Shifted 7 source target slots.old slots.new }
{
    for place in 0..7usize {
        let from = 7 * source as usize + place;
        let to = 7 * target as usize + place;
        slots[to] = copy_of(slots[from]);
        slots[from] = SlotState::Free;
    }
}

/// The counts of a block go to the block into which it was copied.
fn move_counts(blocks: &mut [BlockState], source: u16, target: u16)
    requires other { source ≢ target }
    requires source { source < length blocks.old }
    requires target { target < length blocks.old }
    requires numbers { (in_block blocks.old source).free + (in_block blocks.old source).dead ≤ 7 }
    ensures moved { BlocksMoved source target blocks.old blocks.new }
    ensures fits { (in_block blocks.old source).erases < 65536 }
{
    let old = blocks[source as usize];
    let worn = blocks[target as usize].erases;
    blocks[target as usize] = BlockState {
        free: old.free + old.dead,
        dead: 0,
        plain: false,
        group: false,
        erases: worn,
        suspect: false,
    };
    blocks[source as usize] = BlockState {
        free: 7,
        dead: 0,
        plain: true,
        group: false,
        erases: old.erases.saturating_add(1),
        suspect: false,
    };
}

/// The highest-numbered wholly free block from `least` on and below `below`; `least` where there is
/// none.
pub(crate) fn highest_whole(blocks: &[BlockState], least: u16, below: u16) -> u16
    requires least { least < below }
    requires below { below ≤ length blocks.now }
    ensures found { (least ≤ result) × (result < below) }
    ensures whole { (result ≡ least) ⊎ IsWholeBlock (in_block blocks.now result) }
    ensures highest { (c : ℕ) → result < c → c < below → IsWholeBlock (in_block blocks.now c) → ⊥ }
{
    let mut block = below - 1;
    while block > least {
        if is_whole(blocks[block as usize]) {
            return block;
        }
        block -= 1;
    }
    least
}

/// The reserve once block `source` is wholly free, and the old one isn't: by number the highest-
/// numbered, and the search goes on from where it ended, since no block becomes wholly free but
/// such a source; by erases that source.
fn next_reserve(blocks: &[BlockState], at: &mut Cursors, source: u16)
    requires size { length blocks.now < 65536 }
    requires source { source < length blocks.now }
    requires whole { IsWholeBlock (in_block blocks.now source) }
    requires spares { AreSparesBelow blocks.now source at.old.spares }
    requires within { at.old.spares ≤ length blocks.now }
    ensures next { NextReserve blocks.now at.old at.new }
    ensures last { at.old.policy ≡ policies.Level → at.new.reserve ≡ source }
{
    match at.policy {
        Policy::Lowest => next_highest(blocks, at, source),
        Policy::Level => {
            at.reserve = source;
            at.spares = blocks.len() as u16;
            at.turn = at.turn.saturating_add(1);
        }
    }
}

/// The highest-numbered wholly free block is the reserve.
fn next_highest(blocks: &[BlockState], at: &mut Cursors, source: u16)
    requires source { source < length blocks.now }
    requires whole { IsWholeBlock (in_block blocks.now source) }
    requires spares { AreSparesBelow blocks.now source at.old.spares }
    requires within { at.old.spares ≤ length blocks.now }
    ensures { NextReserve blocks.now at.old at.new }
{
    if source < at.spares {
        let reserve = highest_whole(blocks, source, at.spares);
        at.reserve = reserve;
        at.spares = reserve;
    } else {
        at.reserve = source;
    }
}

/// Free slots are looked for in this block too.
fn widen(at: &mut Cursors, block: u16)
    requires { block < 65535 }
    ensures { Widened block at.old at.new }
{
    if at.cursor >= at.beyond {
        at.cursor = block;
        at.beyond = block + 1;
    } else if block < at.cursor {
        at.cursor = block;
    } else if block >= at.beyond {
        at.beyond = block + 1;
    }
}

/// A block was erased, and it and the reserve may have free slots now: the bounds of erases follow.
fn bound_moved(blocks: &[BlockState], at: &mut Cursors, source: u16)
    requires size { length blocks.now ≤ 4096 }
    requires source { source < length blocks.now }
    requires reserve { at.old.reserve < length blocks.now }
    ensures { IsBoundFor blocks.now source at.old at.new }
{
    let target = at.reserve;
    let erases = blocks[source as usize].erases;
    at.most_erases = at.most_erases.max(erases);
    lower_bound(&mut at.bounds, Wanted::Free, source, erases);
    let erases = blocks[target as usize].erases;
    lower_bound(&mut at.bounds, Wanted::Free, target, erases);
}

/// The blocks once one of them was copied into the reserve: their counts, and where the index looks
/// next.
pub(crate) fn move_block(blocks: &mut [BlockState], at: &mut Cursors, source: u16)
    requires size { length blocks.old ≤ 4096 }
    requires source { source < length blocks.old }
    requires reserve { at.old.reserve < length blocks.old }
    requires other { source ≢ at.old.reserve }
    requires numbers { (in_block blocks.old source).free + (in_block blocks.old source).dead ≤ 7 }
    requires ahead { IsAhead blocks.old at.old }
    ensures moved { BlocksMoved source at.old.reserve blocks.old blocks.new }
    ensures ahead { IsAhead blocks.new at.new }
    ensures reserve { IsNextReserve at.old.policy blocks.new at.new.reserve }
    ensures last { at.old.policy ≡ policies.Level → at.new.reserve ≡ source }
    ensures policy { at.new.policy ≡ at.old.policy }
    ensures newest { at.new.newest ≡ at.old.newest }
    ensures fits { (in_block blocks.old source).erases < 65536 }
{
    let target = at.reserve;
    move_counts(blocks, source, target);
    bound_moved(blocks, at, source);
    next_reserve(blocks, at, source);
    widen(at, target);
    if at.reserve != source {
        widen(at, source);
    }
}

/// A free slot outside the reserve: the lowest-numbered where it chooses by number.
pub(crate) fn free_slot(
    states: &[SlotState],
    blocks: &[BlockState],
    at: &mut Cursors,
) -> Option<u16>
    requires size { length states.now < 65536 }
    requires blocks { length blocks.now ≤ 4096 }
    requires states { length states.now ≡ 7 * length blocks.now }
    requires ahead { IsAhead blocks.now at.old }
    ensures found { (m : List ℕ) → IsIndexOf states.now blocks.now at.old m
        → MatchOption result (HasNoneFree at.old.reserve m) (λ w. IsGivable w m) }
    ensures first { (m : List ℕ) → IsIndexOf states.now blocks.now at.old m
        → IfSome result (λ w. HasNoneFreeBefore w m) }
    ensures number { IfSome result (λ w. w / 7 < length blocks.now) }
    ensures filled { at.old.policy ≡ policies.Level
        → IfSome result (λ w. at.new.newest ≡ w / 7) }
    ensures lowest { at.old.policy ≡ policies.Lowest → (m : List ℕ)
        → IsIndexOf states.now blocks.now at.old m → IfSome result (λ w. IsLowestFree w m) }
    ensures ahead { IsAhead blocks.now at.new }
    ensures reserve { at.new.reserve ≡ at.old.reserve }
    ensures policy { at.new.policy ≡ at.old.policy }
    ensures newest { (m : List ℕ) → IsIndexOf states.now blocks.now at.old m → result ≡ None
        → at.new.newest ≡ at.old.newest }
    ensures fills { at.old.policy ≡ policies.Level → (m : List ℕ)
        → IsIndexOf states.now blocks.now at.old m → IfSome result (λ w.
        FillsUp at.old.newest at.old.reserve (erases_of blocks.now) w m) }
{
    match block_with_free(blocks, at) {
        Some(block) => first_place(states, block),
        None => None,
    }
}

/// The lowest-numbered free slot of a block.
fn first_place(states: &[SlotState], block: u16) -> Option<u16>
    requires size { length states.now < 65536 }
    requires block { 7 * block + 7 ≤ length states.now }
    ensures found { MatchOption result (HasNoFreeState states.now block)
        (λ w. IsFirstFreeState states.now block w) }
{
    for place in 0..7u16 {
        let slot = 7 * block + place;
        if states[slot as usize] == SlotState::Free {
            return Some(slot);
        }
    }
    None
}
