//! What a mount of a memory would answer, and why.

ghost use Rattle.std.specs.Prelude.{◌≡◌, IfOk, IfErr, OnOk, Ok, length};
ghost use Rattle.chip_model.specs.Geometry.{sector_count};
ghost use Rattle.nor_driver.specs.State.{IsNorReady, OnlyMemoryChanges, NorFails};
ghost use Rattle.nor_layout.specs.Layouts.{layout_of};
ghost use Rattle.erase_journal.specs.Journals.{IsHealthy};
ghost use Rattle.sector_map.specs.Maps.{IsLaidOut, geometry_of};
ghost use Rattle.sector_survey.specs.Verdicts.{Tells, TellsBehind, ExaminationFails};

use crate::Finding;
use crate::diagnosis::diagnose;
use crate::journals::journal_fault;
use chip_model::Geometry;
use erase_journal::{Journal, RecoverError, read_tally};
use journal_slots::SectorSlots;
use nor_driver::{Nor, NorError, ProbeError};
use nor_layout::{Layout, SUPER_LEN, SuperError, read_layout};
use sector_map::LiveSlots;
use std::alloc::Global;

/// What a mount of a memory would answer.
#[derive(Clone, Copy, Debug, PartialEq, Eq, Drop)]
pub enum Verdict {
    /// It is not formatted: the superblock's name isn't there, or its seal.
    NotFormatted,
    /// It is corrupt, and why.
    Corrupt(Finding),
    /// It would be mounted, and which layout its superblock says.
    Mountable(Layout),
}

/// Why nothing is known of a memory. Source: own.
#[derive(Clone, Copy, Debug, PartialEq, Eq)]
pub enum Unexamined {
    /// There is no memory for a table.
    OutOfMemory,
    /// The power of its chip went.
    Cut,
    /// An operation of its chip didn't end.
    Slow,
    /// The chip doesn't pass the checks of a probe.
    Probe(ProbeError),
}

/// What a mount of a memory would answer, and why. Of the memory, which is handed back, an erase
/// that goes on is ended; nothing else of it is changed. To leave a chip as it is, pass a copy.
pub fn examine<N: Nor>(alloc: Global, nor: N) -> (N, Result<Verdict, Unexamined>)
    ensures told { IfOk result.1 (λ verdict. Tells verdict (N.state nor).memory) }
    ensures fails { IfErr result.1 (λ e. ExaminationFails e (N.state nor) (N.state result.0)) }
{
    let mut nor = nor;
    match look(&mut nor) {
        Ok(Ok(layout)) => examine_store(alloc, nor, layout),
        Ok(Err(SuperError::NotFormatted)) => (nor, Ok(Verdict::NotFormatted)),
        Ok(Err(SuperError::Layout)) => (nor, Ok(Verdict::Corrupt(Finding::OtherLayout))),
        Ok(Err(SuperError::Geometry)) => (nor, Ok(Verdict::Corrupt(Finding::OtherSize))),
        Err(NorError::Cut) => (nor, Err(Unexamined::Cut)),
        Err(NorError::Slow) => (nor, Err(Unexamined::Slow)),
    }
}

/// Which layout the superblock of a memory says. Nothing is changed.
fn look<N: Nor>(nor: &mut N) -> Result<Result<Layout, SuperError>, NorError>
    ensures ok { IfOk result (λ says. says
        ≡ layout_of (N.state nor.old).memory (geometry_of (length (N.state nor.old).memory))) }
    ensures same { (N.state nor.new).memory ≡ (N.state nor.old).memory }
    ensures kept { OnOk result (OnlyMemoryChanges (N.state nor.old) (N.state nor.new)) }
    ensures fails { IfErr result (λ e. NorFails e (N.state nor.old) (N.state nor.new)) }
{
    let Some(chip) = Geometry::of(nor.bytes()) else {
        unreachable!()
    };
    let mut head = [0; SUPER_LEN];
    nor.read(0, &mut head)?;
    Ok(read_layout(&head, chip))
}

/// What a mount of a memory whose superblock says this layout would answer.
fn examine_store<N: Nor>(alloc: Global, nor: N, layout: Layout) -> (N, Result<Verdict, Unexamined>)
    requires { layout_of (N.state nor).memory (geometry_of (length (N.state nor).memory))
        ≡ Ok layout }
    ensures told { IfOk result.1 (λ verdict. Tells verdict (N.state nor).memory) }
    ensures fails { IfErr result.1 (λ e. ExaminationFails e (N.state nor) (N.state result.0)) }
{
    let Some(chip) = Geometry::of(nor.bytes()) else {
        unreachable!()
    };
    let Ok(mut table) = vec![in alloc; LiveSlots::Absent; chip.sectors as usize] else {
        return (nor, Err(Unexamined::OutOfMemory));
    };
    match Journal::recover(nor) {
        Ok(journal) => examine_slots(SectorSlots::new(journal), table.as_mut_slice(), layout),
        Err((nor, RecoverError::Cut)) => (nor, Err(Unexamined::Cut)),
        Err((nor, RecoverError::Slow)) => (nor, Err(Unexamined::Slow)),
        Err((nor, RecoverError::Corrupt)) => examine_journals(nor),
    }
}

/// Why the journals of a memory, which are corrupt, are so.
fn examine_journals<N: Nor>(nor: N) -> (N, Result<Verdict, Unexamined>)
    requires corrupt { IsHealthy (N.state nor).memory → ⊥ }
    requires laid { IsLaidOut (N.state nor).memory }
    ensures told { IfOk result.1 (λ verdict. Tells verdict (N.state nor).memory) }
    ensures fails { IfErr result.1 (λ e. ExaminationFails e (N.state nor) (N.state result.0)) }
{
    let mut nor = nor;
    let _bytes = nor.bytes();
    match read_tally(&mut nor) {
        Ok(counts) => {
            let fault = journal_fault(&counts);
            (nor, Ok(Verdict::Corrupt(Finding::Journals(fault))))
        }
        Err(NorError::Cut) => (nor, Err(Unexamined::Cut)),
        Err(NorError::Slow) => (nor, Err(Unexamined::Slow)),
    }
}

/// What the blocks and slots behind recovered journals say.
fn examine_slots<N: Nor>(
    slots: SectorSlots<N>,
    table: &mut [LiveSlots],
    layout: Layout,
) -> (N, Result<Verdict, Unexamined>)
    requires ready { IsNorReady slots }
    requires size { length table.old ≡ sector_count (length slots.memory) }
    ensures told { IfOk result.1 (λ verdict. TellsBehind verdict layout slots.memory) }
    ensures fails { IfErr result.1 (λ e. ExaminationFails e slots (N.state result.0)) }
{
    let mut slots = slots;
    let says = diagnose(&mut slots, table);
    let nor = slots.into_inner().into_inner();
    match says {
        Ok(None) => (nor, Ok(Verdict::Mountable(layout))),
        Ok(Some(finding)) => (nor, Ok(Verdict::Corrupt(finding))),
        Err(NorError::Cut) => (nor, Err(Unexamined::Cut)),
        Err(NorError::Slow) => (nor, Err(Unexamined::Slow)),
    }
}
