//! The index of a memory, from the kinds and descriptors of its blocks.

ghost use Rattle.std.specs.Prelude.{◌≡◌, ◌+◌, ◌*◌, ◌<◌, ◌≤◌, length, ℕ, IfOk, OnOk, if◌then◌else◌};
ghost use Rattle.nor_driver.specs.State.{IsNorReady};
ghost use Rattle.erase_journal.specs.Steps.{EndsFirmly};
ghost use Rattle.sector_slots.specs.Slots.{slot_count, data_blocks};
ghost use Rattle.sector_slots.specs.Blocks.{AreSettled};
ghost use Rattle.sector_stock.specs.Index.{IsAhead, IsHighestWhole, IsWholeBlock, IsIndexOf};
ghost use Rattle.sector_stock.specs.Index.{BlockNoted, StatesNoted, in_block, header_state};
ghost use Rattle.sector_stock.specs.Index.{is_free_state, is_dead_state};
ghost use Rattle.sector_stock.specs.Index.{states_tally, is_live_group, erases_of};

use crate::index::{BlockState, Cursors, SlotState, highest_whole};
use crate::least::no_bounds;
use crate::policy::{Policy, TURN, is_whole, most_worn};
use nor_driver::NorError;
use nor_layout::{Header, Kind, SLOTS};
use sector_slots::SlotCalls;

/// The slots of a block.
const PLACES: usize = SLOTS as usize;

/// Makes the index of a memory in which no copying goes on: each block is read once. The lists are
/// those of an index of this chip, whatever they hold. Source: own, layout 2.
pub fn fill_index<S: SlotCalls>(
    slots: &mut S,
    states: &mut [SlotState],
    blocks: &mut [BlockState],
    policy: Policy,
) -> Result<Cursors, NorError>
    requires states_size { length states.old ≡ slot_count (S.state slots.old).memory }
    requires blocks_size { length blocks.old ≡ data_blocks (S.state slots.old).memory }
    requires settled { IsNorReady (S.state slots.old) → AreSettled (S.state slots.old).memory }
    ensures ok { IfOk result (λ at. IsIndexOf states.new blocks.new at (S.state slots.new).memory) }
    ensures policy { IfOk result (λ at. at.policy ≡ policy) }
    ensures counted { OnOk result ((c : ℕ) → c < length blocks.new → erases_of blocks.new c ≡ 0) }
    ensures states_size { length states.new ≡ length states.old }
    ensures blocks_size { length blocks.new ≡ length blocks.old }
    ensures same { (S.state slots.new).memory ≡ (S.state slots.old).memory }
    ensures weak { (S.state slots.new).weak ≡ (S.state slots.old).weak }
    ensures ends { EndsFirmly result (S.state slots.old) (S.state slots.new) }
{
    let count = slots.blocks();
    slots.kind(0)?;
    for block in 0..count {
        let mut heads = [Header::Free; PLACES];
        let kind = slots.head(block, &mut heads)?;
        note_block(states, blocks, block, kind, &heads);
    }
    Ok(first_cursors(blocks, policy))
}

/// Enters a block's kind and descriptors into the lists.
pub(crate) fn note_block(
    states: &mut [SlotState],
    blocks: &mut [BlockState],
    block: u16,
    kind: Kind,
    heads: &[Header],
)
    requires heads { length heads.now ≡ 7 }
    requires states { 7 * block + 7 ≤ length states.old }
    requires block { block < length blocks.old }
    ensures { BlockNoted block kind heads.now states.old states.new blocks.old blocks.new }
{
    note_states(states, block, heads);
    let free = count_free(states, block);
    let dead = count_dead(states, block);
    blocks[block as usize] = BlockState {
        free,
        dead,
        plain: kind.is_plain(),
        group: is_group(kind),
        erases: 0,
        suspect: false,
    };
}

/// Enters the states of a block's slots.
fn note_states(states: &mut [SlotState], block: u16, heads: &[Header])
    requires heads { length heads.now ≡ 7 }
    requires states { 7 * block + 7 ≤ length states.old }
    ensures { StatesNoted 7 block heads.now states.old states.new }
{
    for place in 0..PLACES {
        states[PLACES * block as usize + place] = state_in(heads[place]);
    }
}

/// What the index keeps of a slot with this descriptor.
fn state_in(head: Header) -> SlotState
    ensures { result ≡ header_state head }
{
    match head {
        Header::Free => SlotState::Free,
        Header::Live(_) => SlotState::Live,
        Header::NoGeneration => SlotState::Live,
        Header::Dead => SlotState::Dead,
    }
}

/// Whether a block of this kind is live with a group.
fn is_group(kind: Kind) -> bool
    ensures { result ≡ is_live_group kind }
{
    matches!(kind, Kind::Group(_))
}

/// 1 for a free slot.
fn one_free(state: SlotState) -> u8
    ensures { result ≡ (if is_free_state state then 1 else 0) }
{
    match state {
        SlotState::Free => 1,
        SlotState::Live => 0,
        SlotState::Dead => 0,
    }
}

/// 1 for a dead slot.
fn one_dead(state: SlotState) -> u8
    ensures { result ≡ (if is_dead_state state then 1 else 0) }
{
    match state {
        SlotState::Free => 0,
        SlotState::Live => 0,
        SlotState::Dead => 1,
    }
}

/// How many slots of a block are free.
fn count_free(states: &[SlotState], block: u16) -> u8
    requires { 7 * block + 7 ≤ length states.now }
    ensures { result ≡ states_tally is_free_state states.now block }
{
    let mut count = 0;
    for place in 0..PLACES {
        count += one_free(states[PLACES * block as usize + place]);
    }
    count
}

/// How many are dead.
fn count_dead(states: &[SlotState], block: u16) -> u8
    requires { 7 * block + 7 ≤ length states.now }
    ensures { result ≡ states_tally is_dead_state states.now block }
{
    let mut count = 0;
    for place in 0..PLACES {
        count += one_dead(states[PLACES * block as usize + place]);
    }
    count
}

/// Where the index looks first.
pub(crate) fn first_cursors(blocks: &[BlockState], policy: Policy) -> Cursors
    requires size { length blocks.now < 65536 }
    requires numbers { (c : ℕ) → c < length blocks.now → (in_block blocks.now c).dead ≤ 7 }
    requires spare { (c : ℕ) × (c < length blocks.now) × IsWholeBlock (in_block blocks.now c) }
    ensures ahead { IsAhead blocks.now result }
    ensures reserve { IsHighestWhole blocks.now result.reserve }
    ensures policy { result.policy ≡ policy }
{
    let count = blocks.len() as u16;
    let reserve = highest_whole(blocks, 0, count);
    Cursors {
        policy,
        reserve,
        spares: reserve,
        cursor: 0,
        beyond: count,
        most: 7,
        from: 0,
        turn: TURN,
        clock: first_clock(blocks, reserve),
        newest: reserve,
        behind: 0,
        looked: 0,
        bounds: no_bounds(),
        least_erases: 0,
        most_erases: most_worn(blocks),
    }
}

/// Where the order of equally worn blocks begins after a mount: at the reserve where no other block
/// is wholly free, else at the lowest-numbered block that was begun. So it goes on about where it
/// stood, since blocks are taken in turn.
fn first_clock(blocks: &[BlockState], reserve: u16) -> u16
    requires size { length blocks.now < 65536 }
{
    let count = blocks.len() as u16;
    let mut begun = reserve;
    let mut spare = false;
    for block in 0..count {
        let state = blocks[block as usize];
        if block != reserve && is_whole(state) {
            spare = true;
        } else if begun == reserve && state.free > 0 {
            begun = block;
        }
    }
    if spare { begun } else { reserve }
}
