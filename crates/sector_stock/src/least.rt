//! The least worn of the blocks that are wanted, found without a look at all of them: bounds of the
//! erases in runs of 64 blocks say which runs needn't be looked at.

ghost use Rattle.std.specs.Prelude.{◌≡◌, ◌⊎◌, ◌+◌, ◌*◌, ◌/◌, ◌<◌, ◌≤◌, ℕ, length, MatchOption};
ghost use Rattle.std.specs.Prelude.{◌-◌, ◌%◌, IsTrue, IsFalse, None, IfSome};
ghost use Rattle.std.specs.Prelude.{slice_index_or};
ghost use Rattle.sector_stock.specs.Index.{in_block, AreBounds, Counts, in_bounds, bound_row};
ghost use Rattle.sector_stock.specs.Policies.{IsLeastWorn, HasNoneWanted, HasRow, IsWantedBut};
ghost use Rattle.sector_stock.specs.Policies.{Improves, Lowered};

use crate::index::BlockState;
use crate::policy::{Wanted, is_wanted};

/// The blocks of a run. Source: own.
pub(crate) const RUN: u16 = 64;

/// The bounds: nine rows, each with one for each run of a chip of 4,096 blocks. Source: own.
pub const BOUNDS: usize = 576;

/// The bounds before any block was looked at.
pub(crate) fn no_bounds() -> [u16; BOUNDS]
    ensures { (p : ℕ) → slice_index_or result p 0 ≡ 0 }
{
    [0; BOUNDS]
}

/// What a look at a run comes to.
#[derive(Clone, Copy, Drop)]
struct Seen {
    /// The least worn block that is wanted, so far.
    best: Option<u16>,
    /// No block of which the row speaks was erased less often.
    least: u16,
}

/// Whether a row of bounds speaks of a block.
fn is_counted(state: BlockState, wanted: Wanted) -> bool
    ensures { IsFalse result → Counts wanted state → ⊥ }
{
    match wanted {
        Wanted::Free => state.free > 0,
        Wanted::Dead(count) => state.dead == count,
        Wanted::Resting => true,
    }
}

/// Where the bound of a block's run stands.
fn place_of(wanted: Wanted, block: u16) -> usize
    requires row { HasRow wanted }
    requires block { block < 4096 }
    ensures place { result ≡ 64 * bound_row wanted + block / 64 }
    ensures within { result < 576 }
{
    let row = match wanted {
        Wanted::Free => 0,
        Wanted::Dead(count) => count,
        Wanted::Resting => 8,
    };
    (RUN as usize) * (row as usize) + (block / RUN) as usize
}

/// No block of a row and a run was erased less often than this one now.
pub(crate) fn lower_bound(bounds: &mut [u16], wanted: Wanted, block: u16, erases: u16)
    requires row { HasRow wanted }
    requires block { block < 4096 }
    requires size { length bounds.old ≡ 576 }
    ensures { Lowered (64 * bound_row wanted + block / 64) erases bounds.old bounds.new }
{
    let place = place_of(wanted, block);
    if erases < bounds[place] {
        bounds[place] = erases;
    }
}

/// The one of two finds that was erased less; of equals the first.
fn less_worn(blocks: &[BlockState], old: u16, new: u16) -> u16
    requires old { old < length blocks.now }
    requires new { new < length blocks.now }
    ensures either { (result ≡ old) ⊎ (result ≡ new) }
    ensures old { (in_block blocks.now result).erases ≤ (in_block blocks.now old).erases }
    ensures new { (in_block blocks.now result).erases ≤ (in_block blocks.now new).erases }
{
    if blocks[new as usize].erases < blocks[old as usize].erases {
        new
    } else {
        old
    }
}

/// Looks at the blocks from `from` on and below `end`.
fn look(
    blocks: &[BlockState],
    wanted: Wanted,
    but: u16,
    from: u16,
    end: u16,
    best: Option<u16>,
) -> Seen
    requires end { end ≤ length blocks.now }
    requires best { IfSome best (λ b. IsWantedBut wanted but blocks.now b) }
    ensures best { Improves wanted but blocks.now from end best result.best }
    ensures least { (c : ℕ) → from ≤ c → c < end → Counts wanted (in_block blocks.now c)
        → result.least ≤ (in_block blocks.now c).erases }
{
    let mut found = best;
    let mut least = u16::MAX;
    for block in from..end {
        let state = blocks[block as usize];
        if is_counted(state, wanted) {
            least = least.min(state.erases);
        }
        if block != but && is_wanted(state, wanted) {
            found = match found {
                Some(old) => Some(less_worn(blocks, old, block)),
                None => Some(block),
            };
        }
    }
    Seen { best: found, least }
}

/// Whether a run may have a block that was erased less than the best one so far.
fn may_improve(blocks: &[BlockState], bound: u16, best: Option<u16>) -> bool
    requires best { IfSome best (λ b. b < length blocks.now) }
    ensures { IsFalse result → MatchOption best ⊥
        (λ b. (in_block blocks.now b).erases ≤ bound) }
{
    match best {
        Some(old) => bound < blocks[old as usize].erases,
        None => true,
    }
}

/// Whether the blocks from `from` on and below `end` are a whole run.
fn is_run(blocks: &[BlockState], from: u16, end: u16) -> bool
    requires from { from < end }
    ensures start { IsTrue result → from % 64 ≡ 0 }
    ensures end { IsTrue result → (end - from ≡ 64) ⊎ (end ≡ length blocks.now) }
{
    from % RUN == 0 && (end - from == RUN || end as usize == blocks.len())
}

/// The least worn of the blocks from `from` on and below `end`, which lie in one run, and of an
/// older find. They aren't looked at if the bound of the run says that none was erased less. If
/// they are the whole run its bound is exact then.
fn look_in_run(
    blocks: &[BlockState],
    bounds: &mut [u16],
    wanted: Wanted,
    but: u16,
    from: u16,
    end: u16,
    best: Option<u16>,
) -> Option<u16>
    requires size { length blocks.now ≤ 4096 }
    requires bounds_size { length bounds.old ≡ 576 }
    requires row { HasRow wanted }
    requires bounds { AreBounds blocks.now bounds.old }
    requires from { from < end }
    requires end { end ≤ length blocks.now }
    requires run { end ≤ 64 * (from / 64) + 64 }
    requires best { IfSome best (λ b. IsWantedBut wanted but blocks.now b) }
    ensures best { Improves wanted but blocks.now from end best result }
    ensures bounds { AreBounds blocks.now bounds.new }
    ensures bounds_size { length bounds.new ≡ length bounds.old }
{
    let place = place_of(wanted, from);
    if !may_improve(blocks, bounds[place], best) {
        return best;
    }
    let seen = look(blocks, wanted, but, from, end, best);
    if is_run(blocks, from, end) {
        bounds[place] = seen.least;
    }
    seen.best
}

/// The least worn of the blocks from `from` on and below `end`, and of an older find, run by run.
fn search(
    blocks: &[BlockState],
    bounds: &mut [u16],
    wanted: Wanted,
    but: u16,
    from: u16,
    end: u16,
    best: Option<u16>,
) -> Option<u16>
    requires size { length blocks.now ≤ 4096 }
    requires bounds_size { length bounds.old ≡ 576 }
    requires row { HasRow wanted }
    requires bounds { AreBounds blocks.now bounds.old }
    requires end { end ≤ length blocks.now }
    requires best { IfSome best (λ b. IsWantedBut wanted but blocks.now b) }
    ensures best { Improves wanted but blocks.now from end best result }
    ensures bounds { AreBounds blocks.now bounds.new }
    ensures bounds_size { length bounds.new ≡ length bounds.old }
{
    let mut found = best;
    let mut block = from;
    while block < end {
        let stop = (block - block % RUN + RUN).min(end);
        found = look_in_run(blocks, bounds, wanted, but, block, stop, found);
        block = stop;
    }
    found
}

/// Of the blocks that are wanted, but the block `but`, the one that was erased least; of equals the
/// one that is met first from `from` on, counted round.
pub(crate) fn least_worn(
    blocks: &[BlockState],
    bounds: &mut [u16],
    wanted: Wanted,
    but: u16,
    from: u16,
) -> Option<u16>
    requires size { length blocks.now ≤ 4096 }
    requires bounds_size { length bounds.old ≡ 576 }
    requires row { HasRow wanted }
    requires bounds { AreBounds blocks.now bounds.old }
    ensures found { MatchOption result (HasNoneWanted wanted but blocks.now (length blocks.now))
        (λ b. IsLeastWorn wanted but blocks.now (length blocks.now) b) }
    ensures bounds { AreBounds blocks.now bounds.new }
    ensures bounds_size { length bounds.new ≡ length bounds.old }
{
    let count = blocks.len() as u16;
    let start = from.min(count);
    let best = search(blocks, bounds, wanted, but, start, count, None);
    search(blocks, bounds, wanted, but, 0, start, best)
}
