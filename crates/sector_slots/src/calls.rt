//! The calls of a store of sector slots, as a trait: `journal_slots::SectorSlots` has them, and so
//! has a store that keeps an index beside its slots.

ghost use Rattle.std.specs.Prelude.{◌≡◌, ◌≢◌, ◌⊎◌, ◌↔◌, ◌+◌, ◌*◌, ◌/◌, ◌%◌, ◌<◌, ℕ, Bool, false};
ghost use Rattle.std.specs.Prelude.{List, slice_range, length, OnOk, IfOk, IfErr, MatchOption};
ghost use Rattle.std.specs.Prelude.{IsTrue};
ghost use Rattle.std.specs.Int.{bit_at};
ghost use Rattle.std.specs.Result.{IsErrOf};
ghost use Rattle.chip_model.specs.Memory.{byte};
ghost use Rattle.chip_model.specs.Geometry.{IsChipSize};
ghost use Rattle.nor_driver.specs.State.{NorState, IsNorReady, bits_in};
ghost use Rattle.nor_layout.specs.declared.header.Tag.{Tag as TagOf};
ghost use Rattle.erase_journal.specs.Blocks.{SameChip, OnlyBlock, OnlySuper, WithErased};
ghost use Rattle.erase_journal.specs.Journals.{IsHealthy, IsSettled, unused};
ghost use Rattle.erase_journal.specs.Spending.{Spends};
ghost use Rattle.erase_journal.specs.Steps.{EraseInterrupted, EndsFirmly, EndsSettled};
ghost use Rattle.erase_journal.specs.Recovery.{Restored, RestoreFails};
ghost use Rattle.erase_journal.specs.Torn.{BlockInterrupted, OpensOnly, SameBeside};
ghost use Rattle.erase_journal.specs.Weak.{AreFirmJournals};
ghost use Rattle.sector_slots.specs.Slots.{Free, Live, Dead, slot_at, stored_at, slot_count};
ghost use Rattle.sector_slots.specs.Slots.{data_blocks, data_block, kind_at, raw_slot};
ghost use Rattle.sector_slots.specs.Slots.{descriptor_in, read_header, IsClean, SameSlots};
ghost use Rattle.sector_slots.specs.Copying.{source_slot};
ghost use Rattle.sector_slots.specs.Steps.{IsRetirable, IsWritable, PutLeaves, HoldsTag};
ghost use Rattle.sector_slots.specs.Steps.{MayHoldTag, OnlyPlace, OnlyMark, IsBegun, IsErasedSlot};
ghost use Rattle.sector_slots.specs.Steps.{CopyLeaves, IsErasable};
ghost use Rattle.sector_slots.specs.Firm.{SameStates, SameStatesBut};
ghost use Rattle.sector_slots.specs.Torn.{BeginInterrupted, PutInterrupted, SameButPlace};
ghost use Rattle.sector_slots.specs.Torn.{StateInterrupted};
ghost use Rattle.sector_slots.specs.Weak.{IsDeadForGood, IsWhollyFirm, descriptor_place};
ghost use Rattle.sector_slots.specs.Weak.{mark_place};

use erase_journal::RecoverError;
use nor_driver::NorError;
use nor_layout::{COMMITTED, Header, Kind, MIXED, MIXED_PLACE, RETIRED, SETTLED, SUPER_LEN, Tag};

/// The data blocks behind the journals, as seven slots each. Blocks and slots are counted from 0:
/// slot 7c + i is the one at place i of data block c. Every call that can fail but `restore`
/// answers a latched Slow, then a power that is off, before anything else. Reads keep an index that
/// is kept beside the slots; the calls that change the memory needn't. Where the power goes in a
/// call, its clause `cut_bits` says which bits may have become weak (specs/Torn.antt); of
/// `retire_group`, `mark` and `restore` that isn't said. A read makes none weak. Source: own,
/// layout 2.
pub trait SlotCalls {
    ghost state: { Self → NorState };

    /// Whether the index that is kept beside the slots is that of the memory; true of a store that
    /// keeps none.
    ghost indexed: { Self → Bool };

    /// How many data blocks there are, from 12 to 4,092.
    fn blocks(&self) -> u16
        ensures count { result ≡ data_blocks (state self.now).memory }
        ensures sized { IsChipSize (length (state self.now).memory) };

    /// Whether the bytes of a slot say that it is free; whether its block counts isn't asked.
    fn free(&mut self, slot: u16) -> Result<bool, NorError>
        requires number { slot < slot_count (state self.old).memory }
        ensures ok { IfOk result (λ is_free. IsTrue is_free
            ↔ (stored_at (state self.old).memory slot ≡ Free)) }
        ensures same { (state self.new).memory ≡ (state self.old).memory }
        ensures weak { (state self.new).weak ≡ (state self.old).weak }
        ensures index { indexed self.new ≡ indexed self.old }
        ensures ends { EndsFirmly result (state self.old) (state self.new) };

    /// The tag of a slot that is live by its bytes, and its sector, 512 bytes, in `into`; None, and
    /// `into` as it was, where it isn't. Whether its block counts isn't asked. After an error
    /// `into` holds any bytes.
    fn get(&mut self, slot: u16, into: &mut [u8]) -> Result<Option<Tag>, NorError>
        requires number { slot < slot_count (state self.old).memory }
        requires room { length into.old ≡ 512 }
        ensures ok { IfOk result (λ found. MatchOption found
            (((tag : TagOf) (content : List ℕ)
            → stored_at (state self.old).memory slot ≢ Live tag content) × (into.new ≡ into.old))
            (λ tag. stored_at (state self.old).memory slot ≡ Live tag into.new)) }
        ensures same { (state self.new).memory ≡ (state self.old).memory }
        ensures weak { (state self.new).weak ≡ (state self.old).weak }
        ensures index { indexed self.new ≡ indexed self.old }
        ensures ends { EndsFirmly result (state self.old) (state self.new) };

    /// The sector, 512 bytes, of a slot that is known to be live: one read. After an error `into`
    /// holds any bytes.
    fn content(&mut self, slot: u16, into: &mut [u8]) -> Result<(), NorError>
        requires number { slot < slot_count (state self.old).memory }
        requires room { length into.old ≡ 512 }
        ensures ok { OnOk result ((tag : TagOf) (content : List ℕ)
            → stored_at (state self.old).memory slot ≡ Live tag content → into.new ≡ content) }
        ensures same { (state self.new).memory ≡ (state self.old).memory }
        ensures weak { (state self.new).weak ≡ (state self.old).weak }
        ensures index { indexed self.new ≡ indexed self.old }
        ensures ends { EndsFirmly result (state self.old) (state self.new) };

    /// Writes a sector, 512 bytes, into a free slot: the descriptor, two pages, and last the
    /// commit. Cut, it leaves the slot free, dead, or holding the sector. In a free slot that isn't
    /// erased throughout, the slot is the sector's, with any content.
    fn put(&mut self, slot: u16, tag: Tag, content: &[u8]) -> Result<(), NorError>
        requires number { slot < slot_count (state self.old).memory }
        requires size { length content.now ≡ 512 }
        ensures ok { OnOk result (IsWritable slot (state self.old).memory
            → slot_at (state self.new).memory slot ≡ Live tag content.now) }
        ensures cut { IsErrOf result NorError.Cut → IsWritable slot (state self.old).memory
            → PutLeaves tag content.now (slot_at (state self.new).memory slot) }
        ensures live { OnOk result (slot_at (state self.old).memory slot ≡ Free
            → HoldsTag tag (slot_at (state self.new).memory slot)) }
        ensures cut_live { IsErrOf result NorError.Cut → slot_at (state self.old).memory slot ≡ Free
            → MayHoldTag tag (slot_at (state self.new).memory slot) }
        ensures clean { OnOk result (IsWritable slot (state self.old).memory
            → IsClean (state self.new).memory) }
        ensures cut_clean { IsErrOf result NorError.Cut → IsWritable slot (state self.old).memory
            → IsClean (state self.new).memory }
        ensures only { OnOk result (OnlyPlace slot (state self.old).memory
            (state self.new).memory) }
        ensures cut_only { IsErrOf result NorError.Cut
            → OnlyPlace slot (state self.old).memory (state self.new).memory }
        ensures chip { SameChip (state self.old).memory (state self.new).memory }
        ensures cut_bits { IsErrOf result NorError.Cut → PutInterrupted (slot / 7) (slot % 7) tag
            content.now (bits_in (state self.old)) (bits_in (state self.new)) }
        ensures healthy { IsErrOf result NorError.Cut → IsHealthy (state self.old).memory
            → IsHealthy (state self.new).memory }
        ensures ends { EndsFirmly result (state self.old) (state self.new) };

    /// Makes a live slot that counts dead, in a block of slots. Cut, it leaves it as it was or
    /// dead. The bit by which it isn't live is firm.
    fn retire(&mut self, slot: u16) -> Result<(), NorError>
        requires number { slot < slot_count (state self.old).memory }
        ensures ok { OnOk result (IsRetirable slot (state self.old).memory
            → slot_at (state self.new).memory slot ≡ Dead) }
        ensures for_good { OnOk result (IsDeadForGood (bits_in (state self.new)) (slot / 7)
            (slot % 7)) }
        ensures states { OnOk result (SameStatesBut (slot % 7) (slot / 7) (state self.old).memory
            (state self.new).memory) }
        ensures cut { IsErrOf result NorError.Cut → IsRetirable slot (state self.old).memory
            → (slot_at (state self.new).memory slot ≡ slot_at (state self.old).memory slot)
            ⊎ (slot_at (state self.new).memory slot ≡ Dead) }
        ensures clean { OnOk result (IsRetirable slot (state self.old).memory
            → IsClean (state self.old).memory → IsClean (state self.new).memory) }
        ensures cut_clean { IsErrOf result NorError.Cut
            → IsRetirable slot (state self.old).memory → IsClean (state self.old).memory
            → IsClean (state self.new).memory }
        ensures only { OnOk result (OnlyPlace slot (state self.old).memory
            (state self.new).memory) }
        ensures cut_only { IsErrOf result NorError.Cut
            → OnlyPlace slot (state self.old).memory (state self.new).memory }
        ensures chip { SameChip (state self.old).memory (state self.new).memory }
        ensures cut_bits { IsErrOf result NorError.Cut
            → StateInterrupted (descriptor_place (slot / 7) (slot % 7)) RETIRED
            (bits_in (state self.old)) (bits_in (state self.new)) }
        ensures healthy { IsErrOf result NorError.Cut → IsHealthy (state self.old).memory
            → IsHealthy (state self.new).memory }
        ensures ends { EndsFirmly result (state self.old) (state self.new) };

    /// Makes a live block of a group dead: its seven places are. Cut, it leaves it as it was or
    /// dead.
    fn retire_group(&mut self, block: u16) -> Result<(), NorError>
        requires number { block < data_blocks (state self.old).memory }
        ensures ok { OnOk result ((group : TagOf)
            → kind_at (state self.old).memory block ≡ Kind.Group group
            → kind_at (state self.new).memory block ≡ Kind.DeadGroup) }
        ensures cut { IsErrOf result NorError.Cut → (group : TagOf)
            → kind_at (state self.old).memory block ≡ Kind.Group group
            → (data_block (state self.new).memory block
            ≡ data_block (state self.old).memory block)
            ⊎ (kind_at (state self.new).memory block ≡ Kind.DeadGroup) }
        ensures only { OnlyBlock (block + 4) (state self.old).memory (state self.new).memory }
        ensures healthy { IsErrOf result NorError.Cut → IsHealthy (state self.old).memory
            → IsHealthy (state self.new).memory }
        ensures ends { EndsFirmly result (state self.old) (state self.new) };

    /// What the first eight bytes of a block say of it.
    fn kind(&mut self, block: u16) -> Result<Kind, NorError>
        requires number { block < data_blocks (state self.old).memory }
        ensures ok { IfOk result (λ kind. kind ≡ kind_at (state self.old).memory block) }
        ensures same { (state self.new).memory ≡ (state self.old).memory }
        ensures weak { (state self.new).weak ≡ (state self.old).weak }
        ensures index { indexed self.new ≡ indexed self.old }
        ensures ends { EndsFirmly result (state self.old) (state self.new) };

    /// The kind of a block, and in `into` what its seven descriptors say, whether its slots count
    /// or not: one read of its first 44 bytes. After an error `into` holds any descriptors.
    fn head(&mut self, block: u16, into: &mut [Header]) -> Result<Kind, NorError>
        requires number { block < data_blocks (state self.old).memory }
        requires room { length into.old ≡ 7 }
        ensures ok { IfOk result (λ kind. kind ≡ kind_at (state self.old).memory block) }
        ensures slots { OnOk result ((i : ℕ) → i < 7
            → read_header into.new i ≡ descriptor_in (data_block (state self.old).memory block) i) }
        ensures size { length into.new ≡ length into.old }
        ensures same { (state self.new).memory ≡ (state self.old).memory }
        ensures weak { (state self.new).weak ≡ (state self.old).weak }
        ensures index { indexed self.new ≡ indexed self.old }
        ensures ends { EndsFirmly result (state self.old) (state self.new) };

    /// Makes a plain block void, and names the block that is to be copied into it. Cut, it leaves
    /// the block as it was or void.
    fn begin(&mut self, target: u16, source: u16) -> Result<(), NorError>
        requires target { target < data_blocks (state self.old).memory }
        requires source { source < data_blocks (state self.old).memory }
        ensures ok { OnOk result (kind_at (state self.old).memory target ≡ Kind.Plain
            → IsBegun target source (state self.new).memory) }
        ensures cut { IsErrOf result NorError.Cut
            → kind_at (state self.old).memory target ≡ Kind.Plain
            → (data_block (state self.new).memory target
            ≡ data_block (state self.old).memory target)
            ⊎ (kind_at (state self.new).memory target ≡ Kind.Void) }
        ensures only { OnOk result (OnlyMark target (state self.old).memory
            (state self.new).memory) }
        ensures cut_only { IsErrOf result NorError.Cut
            → OnlyMark target (state self.old).memory (state self.new).memory }
        ensures chip { SameChip (state self.old).memory (state self.new).memory }
        ensures cut_bits { IsErrOf result NorError.Cut → BeginInterrupted target
            (bits_in (state self.old)) (bits_in (state self.new)) }
        ensures healthy { IsErrOf result NorError.Cut → IsHealthy (state self.old).memory
            → IsHealthy (state self.new).memory }
        ensures ends { EndsFirmly result (state self.old) (state self.new) };

    /// Copies the slot at this place, 0 to 6, of the block that a void block names to the same
    /// place, which is free: its two pages, and then its descriptor, which of a block of a group
    /// has the first generation. Where that slot isn't live
    /// nothing is changed. Cut, it leaves the block void.
    fn copy(&mut self, target: u16, place: u16) -> Result<(), NorError>
        requires target { target < data_blocks (state self.old).memory }
        requires place { place < 7 }
        ensures ok { OnOk result ((source : ℕ) → source < data_blocks (state self.old).memory
            → IsBegun target source (state self.old).memory
            → raw_slot (state self.old).memory target place ≡ Free
            → IsBegun target source (state self.new).memory
            × CopyLeaves (source_slot (state self.old).memory source place) target place
            (state self.old).memory (state self.new).memory) }
        ensures cut { IsErrOf result NorError.Cut
            → kind_at (state self.old).memory target ≡ Kind.Void
            → kind_at (state self.new).memory target ≡ Kind.Void }
        ensures only { OnOk result (OnlyPlace (7 * target + place) (state self.old).memory
            (state self.new).memory) }
        ensures cut_only { IsErrOf result NorError.Cut
            → OnlyPlace (7 * target + place) (state self.old).memory (state self.new).memory }
        ensures chip { SameChip (state self.old).memory (state self.new).memory }
        ensures fresh { OnOk result ((i : ℕ) → i < 7 → i ≢ place
            → IsErasedSlot target i (state self.old).memory
            → IsErasedSlot target i (state self.new).memory) }
        ensures cut_bits { IsErrOf result NorError.Cut → SameButPlace target place
            (bits_in (state self.old)) (bits_in (state self.new)) }
        ensures healthy { IsErrOf result NorError.Cut → IsHealthy (state self.old).memory
            → IsHealthy (state self.new).memory }
        ensures ends { EndsFirmly result (state self.old) (state self.new) };

    /// Makes a void block the committed copy of the block that it names. Cut, it leaves it void or
    /// committed.
    fn commit(&mut self, target: u16) -> Result<(), NorError>
        requires target { target < data_blocks (state self.old).memory }
        ensures ok { OnOk result ((source : ℕ) → IsBegun target source (state self.old).memory
            → kind_at (state self.new).memory target ≡ Kind.Committed (source + 4)) }
        ensures cut { IsErrOf result NorError.Cut → (source : ℕ)
            → IsBegun target source (state self.old).memory
            → (kind_at (state self.new).memory target ≡ Kind.Void)
            ⊎ (kind_at (state self.new).memory target ≡ Kind.Committed (source + 4)) }
        ensures only { OnOk result (OnlyMark target (state self.old).memory
            (state self.new).memory) }
        ensures cut_only { IsErrOf result NorError.Cut
            → OnlyMark target (state self.old).memory (state self.new).memory }
        ensures chip { SameChip (state self.old).memory (state self.new).memory }
        ensures cut_bits { IsErrOf result NorError.Cut → StateInterrupted (mark_place target)
            COMMITTED (bits_in (state self.old)) (bits_in (state self.new)) }
        ensures healthy { IsErrOf result NorError.Cut → IsHealthy (state self.old).memory
            → IsHealthy (state self.new).memory }
        ensures ends { EndsFirmly result (state self.old) (state self.new) };

    /// Makes a committed block settled. Cut, it leaves it committed or settled. The bit that tells
    /// the two apart is firm then.
    fn settle(&mut self, target: u16) -> Result<(), NorError>
        requires target { target < data_blocks (state self.old).memory }
        ensures ok { OnOk result ((source : ℕ)
            → kind_at (state self.old).memory target ≡ Kind.Committed source
            → kind_at (state self.new).memory target ≡ Kind.Settled) }
        ensures states { OnOk result (SameStates target (state self.old).memory
            (state self.new).memory) }
        ensures third { OnOk result
            (bit_at (byte (state self.new).weak (mark_place target)) 2 ≡ 0) }
        ensures cut { IsErrOf result NorError.Cut → (source : ℕ)
            → kind_at (state self.old).memory target ≡ Kind.Committed source
            → (kind_at (state self.new).memory target ≡ Kind.Committed source)
            ⊎ (kind_at (state self.new).memory target ≡ Kind.Settled) }
        ensures only { OnOk result (OnlyMark target (state self.old).memory
            (state self.new).memory) }
        ensures cut_only { IsErrOf result NorError.Cut
            → OnlyMark target (state self.old).memory (state self.new).memory }
        ensures chip { SameChip (state self.old).memory (state self.new).memory }
        ensures cut_bits { IsErrOf result NorError.Cut → StateInterrupted (mark_place target)
            SETTLED (bits_in (state self.old)) (bits_in (state self.new)) }
        ensures healthy { IsErrOf result NorError.Cut → IsHealthy (state self.old).memory
            → IsHealthy (state self.new).memory }
        ensures ends { EndsFirmly result (state self.old) (state self.new) };

    /// Erases a block in one step. It isn't committed, and none of its slots counts as live. Cut on
    /// a healthy memory, it leaves the block as it was or erased. No bit of an erased block is
    /// weak, and none of another data block changes. Cut on firm journals, it leaves the block's
    /// bits as they were, or an entry open for it however the weak bits read at the next power-on,
    /// or the block erased and firm; and then no entry is open for another block.
    fn erase(&mut self, block: u16) -> Result<(), NorError>
        requires number { block < data_blocks (state self.old).memory }
        requires dead { IsNorReady (state self.old) → IsErasable block (state self.old).memory }
        ensures ok { OnOk result (WithErased (block + 4) (state self.old).memory
            (state self.new).memory) }
        ensures firm { OnOk result (IsWhollyFirm (state self.new).weak block) }
        ensures cut { IsErrOf result NorError.Cut → IsHealthy (state self.old).memory
            → EraseInterrupted (block + 4) (state self.old).memory (state self.new).memory }
        ensures beside { SameBeside (block + 4) (bits_in (state self.old))
            (bits_in (state self.new)) }
        ensures cut_bits { IsErrOf result NorError.Cut → IsSettled (state self.old).memory
            → AreFirmJournals (bits_in (state self.old))
            → BlockInterrupted (block + 4) (bits_in (state self.old))
            (bits_in (state self.new)) }
        ensures opens { IsErrOf result NorError.Cut → IsSettled (state self.old).memory
            → AreFirmJournals (bits_in (state self.old))
            → OpensOnly (block + 4) (bits_in (state self.new)) }
        ensures healthy { IsErrOf result NorError.Cut → IsHealthy (state self.old).memory
            → IsHealthy (state self.new).memory }
        ensures spends { OnOk result (Spends (unused (state self.old).memory)
            (unused (state self.new).memory)) }
        ensures size { length (state self.new).memory ≡ length (state self.old).memory }
        ensures ends { EndsFirmly result (state self.old) (state self.new) };

    /// The first bytes of the superblock. After an error `into` holds any bytes.
    fn superblock(&mut self, into: &mut [u8]) -> Result<(), NorError>
        requires room { length into.old ≡ SUPER_LEN }
        ensures ok { OnOk result (into.new
            ≡ slice_range (state self.old).memory 0 SUPER_LEN) }
        ensures size { length into.new ≡ length into.old }
        ensures same { (state self.new).memory ≡ (state self.old).memory }
        ensures weak { (state self.new).weak ≡ (state self.old).weak }
        ensures index { indexed self.new ≡ indexed self.old }
        ensures ends { EndsFirmly result (state self.old) (state self.new) };

    /// Programs byte 15 of the superblock, which says that a chip of layout 1 is mixed: no slot is
    /// changed. Cut, it is as it was or programmed.
    fn mark(&mut self) -> Result<(), NorError>
        ensures ok { OnOk result (byte (state self.old).memory MIXED_PLACE ≡ 255
            → byte (state self.new).memory MIXED_PLACE ≡ MIXED) }
        ensures cut { IsErrOf result NorError.Cut → byte (state self.old).memory MIXED_PLACE ≡ 255
            → ((state self.new).memory ≡ (state self.old).memory)
            ⊎ (byte (state self.new).memory MIXED_PLACE ≡ MIXED) }
        ensures only { OnlySuper MIXED_PLACE (state self.old).memory (state self.new).memory }
        ensures healthy { IsErrOf result NorError.Cut → IsHealthy (state self.old).memory
            → IsHealthy (state self.new).memory }
        ensures ends { EndsSettled result (state self.old) (state self.new) };

    /// Turns the power off and on again, and recovers the journals. The slots and the kinds of the
    /// blocks stay as they were, but where a Slow was latched. The index isn't kept.
    ///
    /// After Corrupt, which comes only where a Slow was latched or the memory wasn't healthy
    /// before, each other call answers Slow.
    fn restore(&mut self) -> Result<(), RecoverError>
        ensures ok { OnOk result (Restored (state self.old) (state self.new)) }
        ensures slots { OnOk result ((state self.old).is_slow ≡ false
            → SameSlots (state self.old).memory (state self.new).memory) }
        ensures cut { IsErrOf result RecoverError.Cut → (state self.old).is_slow ≡ false
            → SameSlots (state self.old).memory (state self.new).memory }
        ensures fails { IfErr result (λ e. RestoreFails e (state self.old) (state self.new)) };

    /// Arms a loss of power in a simulated chip, as the memory's `arm` does. It changes nothing
    /// until the loss comes, so no clause can tell it from a body that does nothing: tests see the
    /// loss.
    fn arm(&mut self, count: u32, kind: u8, mask: u8)
        ensures same { state self.new ≡ state self.old }
        ensures index { indexed self.new ≡ indexed self.old };
}
