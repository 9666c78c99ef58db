//! What each data block says: its kind, and how many of its slots are free and live.

ghost use Rattle.std.specs.Prelude.{◌≡◌, ◌<◌, ◌+◌, IfOk, IfErr, MatchOption, length};
ghost use Rattle.nor_driver.specs.State.{IsNorReady};
ghost use Rattle.erase_journal.specs.Journals.{IsHealthy};
ghost use Rattle.erase_journal.specs.Steps.{RefusesFirmly, EndsFirmly};
ghost use Rattle.sector_slots.specs.Slots.{data_blocks};
ghost use Rattle.sector_survey.specs.Summaries.{AreSummaries, IsSummaryOf, free_heads};
ghost use Rattle.sector_survey.specs.Summaries.{is_free_head};
ghost use Rattle.sector_survey.specs.Summaries.{is_live_head, live_heads};
ghost use Rattle.sector_survey.specs.Verdicts.{ExaminationFails};

use crate::verdict::Unexamined;
use erase_journal::{Journal, RecoverError};
use journal_slots::SectorSlots;
use nor_driver::{Nor, NorError};
use nor_layout::{Header, Kind};
use sector_slots::SlotCalls;
use std::alloc::Global;

/// What a data block says: its kind, and how many of its seven slots are free and live by their
/// descriptors, whether they count or not; the others are dead. Source: own.
#[derive(Clone, Copy, Debug, PartialEq, Eq, Drop)]
pub struct BlockSummary {
    pub kind: Kind,
    pub free: u8,
    pub live: u8,
}

/// What all data blocks of a memory say, in their order; None where its journals are corrupt. Of
/// the memory, which is handed back, an erase that goes on is ended; nothing else of it is changed.
pub fn summarize<N: Nor>(
    alloc: Global,
    nor: N,
) -> (N, Result<Option<Vec<BlockSummary>>, Unexamined>)
    ensures told { IfOk result.1 (λ says. MatchOption says (IsHealthy (N.state nor).memory → ⊥)
        (λ all. AreSummaries all.items (N.state nor).memory)) }
    ensures fails { IfErr result.1 (λ e. ExaminationFails e (N.state nor) (N.state result.0)) }
{
    match Journal::recover(nor) {
        Ok(journal) => summarize_slots(alloc, SectorSlots::new(journal)),
        Err((nor, RecoverError::Cut)) => (nor, Err(Unexamined::Cut)),
        Err((nor, RecoverError::Slow)) => (nor, Err(Unexamined::Slow)),
        Err((nor, RecoverError::Corrupt)) => (nor, Ok(None)),
    }
}

/// What the data blocks behind recovered journals say.
fn summarize_slots<N: Nor>(
    alloc: Global,
    slots: SectorSlots<N>,
) -> (N, Result<Option<Vec<BlockSummary>>, Unexamined>)
    requires ready { IsNorReady slots }
    ensures told { IfOk result.1 (λ says. MatchOption says ⊥
        (λ all. AreSummaries all.items slots.memory)) }
    ensures fails { IfErr result.1 (λ e. ExaminationFails e slots (N.state result.0)) }
{
    let mut slots = slots;
    let says = summarize_blocks(alloc, &mut slots);
    let nor = slots.into_inner().into_inner();
    match says {
        Ok(Ok(all)) => (nor, Ok(Some(all))),
        Ok(Err(_)) => (nor, Err(Unexamined::OutOfMemory)),
        Err(NorError::Cut) => (nor, Err(Unexamined::Cut)),
        Err(NorError::Slow) => (nor, Err(Unexamined::Slow)),
    }
}

/// There is no memory for the summaries.
#[derive(Drop)]
struct NoMemory;

/// What all blocks say, one after the other.
#[tactic(auto, using(erase_journal::proofs::Calls::repeated_calls))]
fn summarize_blocks<S: SlotCalls>(
    alloc: Global,
    slots: &mut S,
) -> Result<Result<Vec<BlockSummary>, NoMemory>, NorError>
    ensures told { IfOk result (λ says. IfOk says (λ all.
        AreSummaries all.items (S.state slots.old).memory)) }
    ensures fails { IfErr result (λ e. RefusesFirmly e (S.state slots.old) (S.state slots.new)) }
{
    let count = slots.blocks();
    let mut all = Vec::new(alloc);
    for block in 0..count {
        let summary = summarize_block(slots, block)?;
        if all.push(summary).is_err() {
            return Ok(Err(NoMemory));
        }
    }
    Ok(Ok(all))
}

/// What a block says.
fn summarize_block<S: SlotCalls>(slots: &mut S, block: u16) -> Result<BlockSummary, NorError>
    requires number { block < data_blocks (S.state slots.old).memory }
    ensures summary { IfOk result (λ summary. IsSummaryOf summary (S.state slots.old).memory
        block) }
    ensures same { (S.state slots.new).memory ≡ (S.state slots.old).memory }
    ensures ends { EndsFirmly result (S.state slots.old) (S.state slots.new) }
{
    let mut heads = [Header::Free; 7];
    let kind = slots.head(block, &mut heads)?;
    Ok(BlockSummary {
        kind,
        free: count_free(&heads),
        live: count_live(&heads),
    })
}

/// How many of seven descriptors are free.
#[tactic(auto, using(crate::proofs::Counting::head_steps))]
fn count_free(heads: &[Header]) -> u8
    requires room { length heads.now ≡ 7 }
    ensures { result ≡ free_heads heads.now 7 }
{
    let mut free = 0;
    for place in 0..7usize {
        if is_free(heads[place]) {
            free += 1;
        }
    }
    free
}

/// How many are live.
#[tactic(auto, using(crate::proofs::Counting::head_steps))]
fn count_live(heads: &[Header]) -> u8
    requires room { length heads.now ≡ 7 }
    ensures { result ≡ live_heads heads.now 7 }
{
    let mut live = 0;
    for place in 0..7usize {
        if is_live(heads[place]) {
            live += 1;
        }
    }
    live
}

fn is_free(header: Header) -> bool
    ensures { result ≡ is_free_head header }
{
    match header {
        Header::Free => true,
        Header::Live(_) => false,
        Header::NoGeneration => false,
        Header::Dead => false,
    }
}

fn is_live(header: Header) -> bool
    ensures { result ≡ is_live_head header }
{
    match header {
        Header::Free => false,
        Header::Live(_) => true,
        Header::NoGeneration => false,
        Header::Dead => false,
    }
}
