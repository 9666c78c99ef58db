//! `Stock`, which implements `Reclaim`: slots with their index in memory. The choices and the steps
//! are functions of `sector_stock`; here each keeps the index and its flag.

ghost use Rattle.std.specs.Prelude.{◌≡◌, ◌<◌, ℕ, List, false, true, length, OnOk, IfOk, IsTrue};
ghost use Rattle.std.specs.Prelude.{IsFalse};
ghost use Rattle.erase_journal.specs.Steps.{EndsFirmly};
ghost use Rattle.sector_slots.specs.Blocks.{AreAtRest};
ghost use Rattle.nor_layout.specs.declared.header.Tag.{Tag as TagOf};
ghost use Rattle.sector_slots.specs.Slots.{Live, stored_at, slot_count, data_blocks, kind_at};
ghost use Rattle.sector_slots.specs.Slots.{IsClean};
ghost use Rattle.sector_stock.specs.Index.{IsStocked, erases_of};
ghost use Rattle.sector_stock.specs.Losses.{KeepsSuspects};
ghost use Rattle.sector_stock.specs.declared.policy.Policy.TheVariants as policies;

use erase_journal::RecoverError;
use journal_slots::SectorSlots;
use nor_driver::{Nor, NorError};
use nor_layout::{Header, Kind, Tag};
use sector_slots::{FirmCalls, SlotCalls};
use sector_stock::{
    BOUNDS, BlockState, Copied, Cursors, Given, Policy, Purpose, Reclaim, SlotState,
    choose_by_erases, convert_block, fill_index, firm_free, has_work, is_short, lagging,
    level_block, mark_dead, mark_written, renew_block, suspect_all, take_slot, tidy_block,
};

/// A store of slots, and an index of them in memory: the state of each slot, the counts of each
/// block, and where to look next. While the flag `indexed` is set the index is that of the memory.
/// Source: own, layout 2.
#[derive(Drop)]
pub struct Stock<N: Nor> {
    slots: SectorSlots<N>,
    states: Vec<SlotState>,
    blocks: Vec<BlockState>,
    at: Cursors,
    indexed: bool,
    ghost stocked: { IsStocked states.items blocks.items at indexed slots.memory },
}

impl<N: Nor> Stock<N> {
    /// A store whose index has still to be made. The lists have a place for each slot and for each
    /// data block, and may hold anything.
    pub fn new(slots: SectorSlots<N>, states: Vec<SlotState>, blocks: Vec<BlockState>) -> Stock<N>
        requires states_size { length states.items ≡ slot_count slots.memory }
        requires blocks_size { length blocks.items ≡ data_blocks slots.memory }
        ensures same { ⟦<Stock<N> as SlotCalls>⟧.state result ≡ slots }
    {
        // For the proof alone: a chip has at most 4,092 data blocks.
        let _count = slots.blocks();
        Stock {
            slots,
            states,
            blocks,
            at: Cursors {
                policy: Policy::Lowest,
                reserve: 0,
                spares: 0,
                cursor: 0,
                beyond: 0,
                most: 0,
                from: 0,
                turn: 0,
                clock: 0,
                newest: 0,
                behind: 0,
                looked: 0,
                bounds: [0; BOUNDS],
                least_erases: 0,
                most_erases: 0,
            },
            indexed: false,
        }
    }

    /// From now on slots and blocks are chosen by erases, so that all blocks wear alike; counts
    /// begin now, and at each `fill`. What was suspect is.
    pub fn level_wear(&mut self)
        ensures same { ⟦<Stock<N> as SlotCalls>⟧.state self.new
            ≡ ⟦<Stock<N> as SlotCalls>⟧.state self.old }
        ensures index { ⟦<Stock<N> as SlotCalls>⟧.indexed self.new
            ≡ ⟦<Stock<N> as SlotCalls>⟧.indexed self.old }
        ensures policy { ⟦<Stock<N> as Reclaim>⟧.policy self.new ≡ policies.Level }
        ensures counted { (c : ℕ)
            → c < data_blocks (⟦<Stock<N> as SlotCalls>⟧.state self.new).memory
            → erases_of (⟦<Stock<N> as Reclaim>⟧.counts self.new) c ≡ 0 }
        ensures suspects { KeepsSuspects (⟦<Stock<N> as Reclaim>⟧.counts self.old)
            (⟦<Stock<N> as Reclaim>⟧.counts self.new) }
    {
        choose_by_erases(self.blocks.as_mut_slice(), &mut self.at);
    }

    /// The slots, to be looked at.
    pub fn get_ref(&self) -> &SectorSlots<N>
        ensures { result.now ≡ ⟦<Stock<N> as SlotCalls>⟧.state self.now }
    {
        &self.slots
    }

    /// Gives the slots back.
    pub fn into_inner(self) -> SectorSlots<N>
        ensures { result ≡ ⟦<Stock<N> as SlotCalls>⟧.state self }
    {
        let Stock {
            slots,
            states: _states,
            blocks: _blocks,
            at: _at,
            indexed: _indexed,
        } = self;
        slots
    }

    /// The content of a slot that holds a sector, as `SlotCalls::content` reads it. Nothing changes
    /// of what is kept of each block.
    pub fn read(&mut self, slot: u16, into: &mut [u8]) -> Result<(), NorError>
        requires number { slot < slot_count (⟦<Stock<N> as SlotCalls>⟧.state self.old).memory }
        requires room { length into.old ≡ 512 }
        ensures ok { OnOk result ((tag : TagOf) (content : List ℕ)
            → stored_at (⟦<Stock<N> as SlotCalls>⟧.state self.old).memory slot ≡ Live tag content
            → into.new ≡ content) }
        ensures same { (⟦<Stock<N> as SlotCalls>⟧.state self.new).memory
            ≡ (⟦<Stock<N> as SlotCalls>⟧.state self.old).memory }
        ensures weak { (⟦<Stock<N> as SlotCalls>⟧.state self.new).weak
            ≡ (⟦<Stock<N> as SlotCalls>⟧.state self.old).weak }
        ensures index { ⟦<Stock<N> as SlotCalls>⟧.indexed self.new
            ≡ ⟦<Stock<N> as SlotCalls>⟧.indexed self.old }
        ensures counts { ⟦<Stock<N> as Reclaim>⟧.counts self.new
            ≡ ⟦<Stock<N> as Reclaim>⟧.counts self.old }
        ensures cursors { ⟦<Stock<N> as Reclaim>⟧.cursors self.new
            ≡ ⟦<Stock<N> as Reclaim>⟧.cursors self.old }
        ensures ends { EndsFirmly result (⟦<Stock<N> as SlotCalls>⟧.state self.old)
            (⟦<Stock<N> as SlotCalls>⟧.state self.new) }
    {
        self.slots.content(slot, into)
    }

    /// Arms a loss of power in a simulated chip, as `SlotCalls::arm` does. Nothing of the index
    /// changes.
    pub fn arm_loss(&mut self, count: u32, kind: u8, mask: u8)
        ensures same { ⟦<Stock<N> as SlotCalls>⟧.state self.new
            ≡ ⟦<Stock<N> as SlotCalls>⟧.state self.old }
        ensures index { ⟦<Stock<N> as SlotCalls>⟧.indexed self.new
            ≡ ⟦<Stock<N> as SlotCalls>⟧.indexed self.old }
        ensures counts { ⟦<Stock<N> as Reclaim>⟧.counts self.new
            ≡ ⟦<Stock<N> as Reclaim>⟧.counts self.old }
        ensures cursors { ⟦<Stock<N> as Reclaim>⟧.cursors self.new
            ≡ ⟦<Stock<N> as Reclaim>⟧.cursors self.old }
    {
        self.slots.arm(count, kind, mask)
    }

    /// Whether what reads as free is erased, by reading each data block until one is met that
    /// isn't; exact where no copying goes on.
    pub fn is_clean(&mut self) -> Result<bool, NorError>
        ensures clean { IfOk result (λ clean. IsTrue clean
            → IsClean (⟦<Stock<N> as SlotCalls>⟧.state self.old).memory) }
        ensures not_clean { IfOk result (λ clean. IsFalse clean
            → AreAtRest (kind_at (⟦<Stock<N> as SlotCalls>⟧.state self.old).memory)
            (data_blocks (⟦<Stock<N> as SlotCalls>⟧.state self.old).memory)
            → IsClean (⟦<Stock<N> as SlotCalls>⟧.state self.old).memory → ⊥) }
        ensures same { (⟦<Stock<N> as SlotCalls>⟧.state self.new).memory
            ≡ (⟦<Stock<N> as SlotCalls>⟧.state self.old).memory }
        ensures weak { (⟦<Stock<N> as SlotCalls>⟧.state self.new).weak
            ≡ (⟦<Stock<N> as SlotCalls>⟧.state self.old).weak }
        ensures index { ⟦<Stock<N> as SlotCalls>⟧.indexed self.new
            ≡ ⟦<Stock<N> as SlotCalls>⟧.indexed self.old }
        ensures counts { ⟦<Stock<N> as Reclaim>⟧.counts self.new
            ≡ ⟦<Stock<N> as Reclaim>⟧.counts self.old }
        ensures cursors { ⟦<Stock<N> as Reclaim>⟧.cursors self.new
            ≡ ⟦<Stock<N> as Reclaim>⟧.cursors self.old }
        ensures ends { EndsFirmly result (⟦<Stock<N> as SlotCalls>⟧.state self.old)
            (⟦<Stock<N> as SlotCalls>⟧.state self.new) }
    {
        self.slots.is_clean()
    }
}

impl<N: Nor> SlotCalls for Stock<N> {
    ghost state = { λ stock. stock.slots };

    ghost indexed = { λ stock. stock.indexed };

    fn blocks(&self) -> u16 {
        self.slots.blocks()
    }

    fn free(&mut self, slot: u16) -> Result<bool, NorError> {
        self.slots.free(slot)
    }

    fn get(&mut self, slot: u16, into: &mut [u8]) -> Result<Option<Tag>, NorError> {
        self.slots.get(slot, into)
    }

    fn content(&mut self, slot: u16, into: &mut [u8]) -> Result<(), NorError> {
        self.slots.content(slot, into)
    }

    fn put(&mut self, slot: u16, tag: Tag, content: &[u8]) -> Result<(), NorError> {
        self.indexed = false;
        self.slots.put(slot, tag, content)
    }

    fn retire(&mut self, slot: u16) -> Result<(), NorError> {
        self.indexed = false;
        self.slots.retire(slot)
    }

    fn retire_group(&mut self, block: u16) -> Result<(), NorError> {
        self.indexed = false;
        self.slots.retire_group(block)
    }

    fn kind(&mut self, block: u16) -> Result<Kind, NorError> {
        self.slots.kind(block)
    }

    fn head(&mut self, block: u16, into: &mut [Header]) -> Result<Kind, NorError> {
        self.slots.head(block, into)
    }

    fn begin(&mut self, target: u16, source: u16) -> Result<(), NorError> {
        self.indexed = false;
        self.slots.begin(target, source)
    }

    fn copy(&mut self, target: u16, place: u16) -> Result<(), NorError> {
        self.indexed = false;
        self.slots.copy(target, place)
    }

    fn commit(&mut self, target: u16) -> Result<(), NorError> {
        self.indexed = false;
        self.slots.commit(target)
    }

    fn settle(&mut self, target: u16) -> Result<(), NorError> {
        self.indexed = false;
        self.slots.settle(target)
    }

    fn erase(&mut self, block: u16) -> Result<(), NorError> {
        self.indexed = false;
        self.slots.erase(block)
    }

    fn superblock(&mut self, into: &mut [u8]) -> Result<(), NorError> {
        self.slots.superblock(into)
    }

    fn mark(&mut self) -> Result<(), NorError> {
        self.indexed = false;
        self.slots.mark()
    }

    fn restore(&mut self) -> Result<(), RecoverError> {
        self.indexed = false;
        self.slots.restore()
    }

    fn arm(&mut self, count: u32, kind: u8, mask: u8) {
        self.slots.arm(count, kind, mask)
    }
}

impl<N: Nor> FirmCalls for Stock<N> {
    fn firm(&mut self) -> Result<(), NorError> {
        self.indexed = false;
        self.slots.firm()
    }

    fn renew_journals(&mut self) -> Result<(), NorError> {
        self.indexed = false;
        self.slots.renew_journals()
    }

    fn firm_head(&mut self, block: u16) -> Result<bool, NorError> {
        self.indexed = false;
        self.slots.firm_head(block)
    }

    fn has_begun(&mut self, block: u16) -> Result<bool, NorError> {
        self.slots.has_begun(block)
    }

    fn kill(&mut self, slot: u16) -> Result<(), NorError> {
        self.indexed = false;
        self.slots.kill(slot)
    }
}

impl<N: Nor> Reclaim for Stock<N> {
    ghost policy = { λ stock. stock.at.policy };

    ghost counts = { λ stock. stock.blocks.items };

    ghost cursors = { λ stock. stock.at };

    fn fill(&mut self) -> Result<(), NorError> {
        self.indexed = false;
        self.at = fill_index(
            &mut self.slots,
            self.states.as_mut_slice(),
            self.blocks.as_mut_slice(),
            self.at.policy,
        )?;
        self.indexed = true;
        Ok(())
    }

    fn suspect_free(&mut self) {
        suspect_all(self.blocks.as_mut_slice());
    }

    fn firm_free(&mut self) -> Result<(), NorError> {
        self.indexed = false;
        firm_free(
            &mut self.slots,
            self.states.as_mut_slice(),
            self.blocks.as_mut_slice(),
            &mut self.at,
        )?;
        self.indexed = true;
        Ok(())
    }

    fn take_free(&mut self) -> Result<Given, NorError> {
        self.indexed = false;
        let given = take_slot(
            &mut self.slots,
            self.states.as_mut_slice(),
            self.blocks.as_mut_slice(),
            &mut self.at,
        )?;
        self.indexed = true;
        Ok(given)
    }

    fn tidy(&mut self) -> Result<Option<Copied>, NorError> {
        self.indexed = false;
        let copied = tidy_block(
            &mut self.slots,
            self.states.as_mut_slice(),
            self.blocks.as_mut_slice(),
            &mut self.at,
        )?;
        self.indexed = true;
        Ok(copied)
    }

    fn level(&mut self, purpose: Purpose) -> Result<Option<Copied>, NorError> {
        self.indexed = false;
        let moved = level_block(
            &mut self.slots,
            self.states.as_mut_slice(),
            self.blocks.as_mut_slice(),
            &mut self.at,
            purpose,
        )?;
        self.indexed = true;
        Ok(moved)
    }

    fn has_work(&mut self) -> bool {
        has_work(self.blocks.as_slice(), &mut self.at)
    }

    fn lagging(&mut self, limit: u16) -> Option<u16> {
        lagging(self.blocks.as_slice(), &mut self.at, limit)
    }

    fn erases(&self, block: u16) -> u16 {
        self.blocks[block as usize].erases
    }

    fn renew(&mut self, block: u16) -> Result<Option<Copied>, NorError> {
        self.indexed = false;
        let copied = renew_block(
            &mut self.slots,
            self.states.as_mut_slice(),
            self.blocks.as_mut_slice(),
            &mut self.at,
            block,
        )?;
        self.indexed = true;
        Ok(copied)
    }

    fn descriptors(&mut self, block: u16, into: &mut [Header]) -> Result<(), NorError> {
        self.slots.head(block, into)?;
        Ok(())
    }

    fn is_short(&self) -> bool {
        is_short(self.blocks.as_slice())
    }

    fn is_group(&self, slot: u16) -> bool {
        self.blocks[(slot / 7) as usize].group
    }

    fn convert(&mut self, block: u16) -> Result<Copied, NorError> {
        self.indexed = false;
        let converted = convert_block(
            &mut self.slots,
            self.states.as_mut_slice(),
            self.blocks.as_mut_slice(),
            &mut self.at,
            block,
        )?;
        self.indexed = true;
        Ok(converted)
    }

    fn write(&mut self, slot: u16, tag: Tag, content: &[u8]) -> Result<(), NorError> {
        self.indexed = false;
        self.slots.put(slot, tag, content)?;
        mark_written(
            self.states.as_mut_slice(),
            self.blocks.as_mut_slice(),
            &mut self.at,
            slot,
        );
        self.indexed = true;
        Ok(())
    }

    fn release(&mut self, slot: u16) -> Result<(), NorError> {
        self.indexed = false;
        self.slots.retire(slot)?;
        mark_dead(
            self.states.as_mut_slice(),
            self.blocks.as_mut_slice(),
            &mut self.at,
            slot,
        );
        self.indexed = true;
        Ok(())
    }
}
