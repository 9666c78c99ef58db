//! Whether what reads as free on a chip is erased.

ghost use Rattle.std.specs.Prelude.{◌≡◌, ◌<◌, ℕ, IfOk, IsFalse, IsTrue, length};
ghost use Rattle.erase_journal.specs.Journals.{IsHealthy};
ghost use Rattle.sector_slots.specs.Blocks.{AreAtRest, IsAtRest};
ghost use Rattle.sector_slots.specs.Slots.{data_blocks, kind_at};
ghost use Rattle.sector_survey.specs.Cleanness.{GroupsTell, IsCleannessOf, SlotsTell};

use crate::groups::first_dirty_group;
use crate::verdict::Unexamined;
use erase_journal::{Journal, RecoverError};
use journal_slots::SectorSlots;
use nor_driver::{Nor, NorError};
use nor_layout::{Kind, Layout};
use sector_slots::SlotCalls;

/// Whether what reads as free on a chip is erased. Source: own, layouts 1 and 2.
#[derive(Clone, Copy, Debug, PartialEq, Eq, Drop)]
pub struct Cleanness {
    /// Whether each free slot that counts is erased, and each wholly free block; None while a
    /// copying goes on, which a mount ends first.
    pub slots: Option<bool>,
    /// Of layout 1, the first place of the chip, in bytes, that isn't erased though its block reads
    /// as free.
    pub dirty_group: Option<u32>,
}

impl Cleanness {
    ghost use Rattle.sector_survey.specs.Cleanness.{is_clean};

    /// Whether all of it is erased; None while a copying goes on.
    pub fn is_clean(self) -> Option<bool>
        ensures { result ≡ is_clean self }
    {
        match self.dirty_group {
            Some(_) => Some(false),
            None => self.slots,
        }
    }
}

/// Whether what reads as free in a memory of this layout, whose journals are healthy, is erased.
pub(crate) fn examine_clean<N: Nor + Drop>(nor: N, layout: Layout) -> Result<Cleanness, Unexamined>
    requires { IsHealthy (N.state nor).memory }
    ensures { IfOk result (λ says. IsCleannessOf layout says (N.state nor).memory) }
{
    match Journal::recover(nor) {
        Ok(journal) => match examine_journal(journal, layout) {
            Ok(cleanness) => Ok(cleanness),
            Err(error) => Err(told_of_nor(error)),
        },
        Err((_, RecoverError::Cut)) => Err(Unexamined::Cut),
        Err((_, RecoverError::Slow)) => Err(Unexamined::Slow),
        Err((_, RecoverError::Corrupt)) => unreachable!(),
    }
}

/// The same of a memory behind recovered journals.
fn examine_journal<N: Nor + Drop>(
    journal: Journal<N>,
    layout: Layout,
) -> Result<Cleanness, NorError>
    ensures { IfOk result (λ says. IsCleannessOf layout says journal.memory) }
{
    let mut journal = journal;
    let dirty_group = dirty_group_by(&mut journal, layout)?;
    let mut slots = SectorSlots::new(journal);
    let slots = are_slots_clean(&mut slots)?;
    Ok(Cleanness { slots, dirty_group })
}

/// Where a free block of layout 1 isn't erased; there is none of another layout.
fn dirty_group_by<N: Nor>(journal: &mut Journal<N>, layout: Layout) -> Result<Option<u32>, NorError>
    ensures told { IfOk result (λ found. GroupsTell layout found journal.old.memory) }
    ensures same { journal.new.memory ≡ journal.old.memory }
{
    match layout {
        Layout::Groups => first_dirty_group(journal),
        Layout::Sectors => Ok(None),
        Layout::Mixed => Ok(None),
    }
}

/// Whether free slots and wholly free blocks are erased; None while a copying goes on.
fn are_slots_clean<N: Nor>(slots: &mut SectorSlots<N>) -> Result<Option<bool>, NorError>
    ensures { IfOk result (λ says. SlotsTell says slots.old.memory) }
{
    if !are_at_rest(slots)? {
        return Ok(None);
    }
    match slots.is_clean() {
        Ok(clean) => Ok(Some(clean)),
        Err(error) => Err(error),
    }
}

/// Whether no copying goes on.
fn are_at_rest<S: SlotCalls>(slots: &mut S) -> Result<bool, NorError>
    ensures rest { IfOk result (λ rest. IsTrue rest
        → AreAtRest (kind_at (S.state slots.old).memory) (data_blocks (S.state slots.old).memory)) }
    ensures not_rest { IfOk result (λ rest. IsFalse rest
        → AreAtRest (kind_at (S.state slots.old).memory) (data_blocks (S.state slots.old).memory)
        → ⊥) }
    ensures same { (S.state slots.new).memory ≡ (S.state slots.old).memory }
{
    let count = slots.blocks();
    for block in 0..count {
        if !is_at_rest(slots.kind(block)?) {
            return Ok(false);
        }
    }
    Ok(true)
}

/// Whether nothing is being copied into a block of this kind.
fn is_at_rest(kind: Kind) -> bool
    ensures rest { IsTrue result → IsAtRest kind }
    ensures not_rest { IsFalse result → IsAtRest kind → ⊥ }
{
    match kind {
        Kind::Plain => true,
        Kind::Void => false,
        Kind::Committed(_) => false,
        Kind::Settled => true,
        Kind::Group(_) => true,
        Kind::DeadGroup => true,
        Kind::SpoiltGroup => true,
        Kind::Unknown => false,
    }
}

/// Why nothing is known of a memory that failed so.
pub(crate) fn told_of_nor(error: NorError) -> Unexamined {
    match error {
        NorError::Cut => Unexamined::Cut,
        NorError::Slow => Unexamined::Slow,
    }
}
