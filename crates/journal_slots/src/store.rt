//! `SectorSlots`: the data blocks of a journal as slots. What each call does stands in `SlotCalls`.

ghost use Rattle.std.specs.Prelude.{◌≡◌, ◌<◌, true, length, IfOk, IsTrue, IsFalse};
ghost use Rattle.chip_model.specs.Geometry.{IsChipSize};
ghost use Rattle.nor_driver.specs.State.{NorState};
ghost use Rattle.erase_journal.specs.Steps.{EndsFirmly};
ghost use Rattle.sector_slots.specs.Blocks.{AreAtRest};
ghost use Rattle.sector_slots.specs.Slots.{slot_count, descriptor_at, IsClean, data_blocks};
ghost use Rattle.sector_slots.specs.Slots.{kind_at};

use crate::clean::read_clean;
use crate::firm::{firm_head, has_begun, kill_slot};
use crate::head::read_head;
use crate::mark::{commit_mark, erase_data, program_mark, read_kind, retire_header, settle_mark};
use crate::read::{content_at, free_at, read_header, read_slot};
use crate::slot::{copy_slot, retire_slot, write_slot};
use erase_journal::{Journal, RecoverError};
use nor_driver::{Nor, NorError};
use nor_layout::{FIRST_DATA_BLOCK, Header, Kind, SLOTS, Tag, begun_mark};
use sector_slots::{FirmCalls, SlotCalls};
use std::marker::Model;

/// The data blocks behind the journals, as seven slots each.
///
/// A contract sees it as the state of the memory behind it. Source: own, layout 2.
#[derive(Drop)]
pub struct SectorSlots<N: Nor> {
    journal: Journal<N>,
    /// How many data blocks there are.
    blocks: u16,
}

impl<N: Nor> Model for SectorSlots<N> {
    ghost use Rattle.std.specs.Prelude.{◌≡◌, length};
    ghost use Rattle.chip_model.specs.Geometry.{IsChipSize};
    ghost use Rattle.nor_driver.specs.State.{NorState};
    ghost use Rattle.sector_slots.specs.Slots.{data_blocks};

    ghost Value = { NorState };

    ghost view = { λ slots. slots.journal };

    ghost invariant = { λ slots. record {
      sized : IsChipSize (length slots.journal.memory);
      counted : slots.blocks ≡ data_blocks slots.journal.memory;
    } };
}

impl<N: Nor> SectorSlots<N> {
    /// The slots of a journal's data blocks. Nothing is read.
    pub fn new(journal: Journal<N>) -> SectorSlots<N>
        ensures { result ≡ journal }
    {
        let blocks = journal.blocks() - FIRST_DATA_BLOCK;
        SectorSlots { journal, blocks }
    }

    /// The journal, to be looked at.
    pub fn get_ref(&self) -> &Journal<N>
        ensures { result.now ≡ self.now }
    {
        &self.journal
    }

    /// Gives the journal back.
    pub fn into_inner(self) -> Journal<N>
        ensures { result ≡ self }
    {
        let SectorSlots { journal, blocks: _ } = self;
        journal
    }

    /// How many slots there are, from 84 to 28,644. They are numbered from 0 on.
    pub fn count(&self) -> u16
        ensures count { result ≡ slot_count self.now.memory }
        ensures sized { IsChipSize (length self.now.memory) }
    {
        SLOTS * self.blocks
    }

    /// What the descriptor of a slot says, whether its block counts or not.
    pub fn header(&mut self, slot: u16) -> Result<Header, NorError>
        requires number { slot < slot_count self.old.memory }
        ensures ok { IfOk result (λ header. header ≡ descriptor_at self.old.memory slot) }
        ensures same { self.new.memory ≡ self.old.memory }
        ensures ends { EndsFirmly result self.old self.new }
    {
        read_header(&mut self.journal, slot / SLOTS, slot % SLOTS)
    }

    /// Whether what reads as free is erased: it reads each data block whole, until one isn't. It is
    /// exact where no copying goes on.
    pub fn is_clean(&mut self) -> Result<bool, NorError>
        ensures clean { IfOk result (λ clean. IsTrue clean → IsClean self.old.memory) }
        ensures not_clean { IfOk result (λ clean. IsFalse clean
            → AreAtRest (kind_at self.old.memory) (data_blocks self.old.memory)
            → IsClean self.old.memory → ⊥) }
        ensures same { self.new.memory ≡ self.old.memory }
        ensures weak { self.new.weak ≡ self.old.weak }
        ensures ends { EndsFirmly result self.old self.new }
    {
        read_clean(&mut self.journal, self.blocks)
    }
}

impl<N: Nor> SlotCalls for SectorSlots<N> {
    ghost state = { λ slots. slots };

    ghost indexed = { λ slots. true };

    fn blocks(&self) -> u16 {
        self.blocks
    }

    fn free(&mut self, slot: u16) -> Result<bool, NorError> {
        free_at(&mut self.journal, slot)
    }

    fn get(&mut self, slot: u16, into: &mut [u8]) -> Result<Option<Tag>, NorError> {
        read_slot(&mut self.journal, slot / SLOTS, slot % SLOTS, into)
    }

    fn content(&mut self, slot: u16, into: &mut [u8]) -> Result<(), NorError> {
        content_at(&mut self.journal, slot, into)
    }

    fn put(&mut self, slot: u16, tag: Tag, content: &[u8]) -> Result<(), NorError> {
        write_slot(&mut self.journal, slot / SLOTS, slot % SLOTS, tag, content)?;
        Ok(())
    }

    fn retire(&mut self, slot: u16) -> Result<(), NorError> {
        retire_slot(&mut self.journal, slot / SLOTS, slot % SLOTS)?;
        Ok(())
    }

    fn retire_group(&mut self, block: u16) -> Result<(), NorError> {
        retire_header(&mut self.journal, block)
    }

    fn kind(&mut self, block: u16) -> Result<Kind, NorError> {
        read_kind(&mut self.journal, block)
    }

    fn head(&mut self, block: u16, into: &mut [Header]) -> Result<Kind, NorError> {
        read_head(&mut self.journal, block, into)
    }

    fn begin(&mut self, target: u16, source: u16) -> Result<(), NorError> {
        // For the proof alone: a chip has at most 4,092 data blocks.
        let _count = self.blocks;
        let mark = begun_mark(source + FIRST_DATA_BLOCK);
        program_mark(&mut self.journal, target, source, &mark)
    }

    fn copy(&mut self, target: u16, place: u16) -> Result<(), NorError> {
        copy_slot(&mut self.journal, target, place)
    }

    fn commit(&mut self, target: u16) -> Result<(), NorError> {
        commit_mark(&mut self.journal, target)
    }

    fn settle(&mut self, target: u16) -> Result<(), NorError> {
        settle_mark(&mut self.journal, target)
    }

    fn erase(&mut self, block: u16) -> Result<(), NorError> {
        erase_data(&mut self.journal, block)
    }

    fn superblock(&mut self, into: &mut [u8]) -> Result<(), NorError> {
        self.journal.superblock(into)
    }

    fn mark(&mut self) -> Result<(), NorError> {
        self.journal.mark()
    }

    fn restore(&mut self) -> Result<(), RecoverError> {
        self.journal.restore()
    }

    fn arm(&mut self, count: u32, kind: u8, mask: u8) {
        self.journal.arm(count, kind, mask)
    }
}

impl<N: Nor> FirmCalls for SectorSlots<N> {
    fn firm(&mut self) -> Result<(), NorError> {
        self.journal.firm()
    }

    fn renew_journals(&mut self) -> Result<(), NorError> {
        self.journal.renew_all()
    }

    fn firm_head(&mut self, block: u16) -> Result<bool, NorError> {
        firm_head(&mut self.journal, block)
    }

    fn has_begun(&mut self, block: u16) -> Result<bool, NorError> {
        has_begun(&mut self.journal, block)
    }

    fn kill(&mut self, slot: u16) -> Result<(), NorError> {
        kill_slot(&mut self.journal, slot / SLOTS, slot % SLOTS)?;
        Ok(())
    }
}
