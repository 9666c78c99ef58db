//! The calls of a store of sector slots by which a mount makes firm what it reads, as a trait. Bits
//! that a loss of power tore may read one way now and the other way at the next power-on, until
//! they are programmed or their unit is erased.

ghost use Rattle.std.specs.Prelude.{◌≡◌, ◌⊎◌, ◌/◌, ◌%◌, ◌<◌, length, OnOk, IfOk, IsTrue, IsFalse};
ghost use Rattle.std.specs.Result.{IsErrOf};
ghost use Rattle.nor_driver.specs.State.{bits_in};
ghost use Rattle.erase_journal.specs.Blocks.{SameChip, SameBlocks};
ghost use Rattle.erase_journal.specs.Journals.{IsHealthy, IsSettled, unused};
ghost use Rattle.erase_journal.specs.Renewal.{RenewsAll};
ghost use Rattle.erase_journal.specs.Steps.{EndsFirmly, KeepsBlocks, EndsSettled};
ghost use Rattle.erase_journal.specs.Weak.{AreFirmJournals, AreRecoveredJournals, AreZerosFirm};
ghost use Rattle.sector_slots.specs.Firm.{KeepsHead, HoldsBegun, AreDeadForGood};
ghost use Rattle.sector_slots.specs.Slots.{Free, Dead, slot_at, slot_count, data_blocks, IsClean};
ghost use Rattle.sector_slots.specs.Slots.{data_block};
ghost use Rattle.sector_slots.specs.Steps.{OnlyPlace};
ghost use Rattle.erase_journal.specs.Torn.{OpensNone, SameData};
ghost use Rattle.sector_slots.specs.Torn.{HeadInterrupted, StateInterrupted};
ghost use Rattle.sector_slots.specs.Weak.{block_place, descriptor_place, IsDeadForGood};

use crate::calls::SlotCalls;
use nor_driver::NorError;

/// What makes slots firm. No call here changes a sector. Source: own, layout 2.
pub trait FirmCalls: SlotCalls {
    /// Makes the superblock and the journals firm, as `Journal::firm` does. No bit of a data block
    /// changes.
    fn firm(&mut self) -> Result<(), NorError>
        ensures blocks { OnOk result (SameBlocks (Self.state self.old).memory
            (Self.state self.new).memory) }
        ensures journals { AreRecoveredJournals (bits_in (Self.state self.old))
            → OnOk result (AreFirmJournals (bits_in (Self.state self.new))) }
        ensures cut { IsErrOf result NorError.Cut → IsHealthy (Self.state self.old).memory
            → KeepsBlocks (Self.state self.old).memory (Self.state self.new).memory }
        ensures data { SameData (bits_in (Self.state self.old)) (bits_in (Self.state self.new)) }
        ensures size { length (Self.state self.new).memory ≡ length (Self.state self.old).memory }
        ensures ends { EndsSettled result (Self.state self.old) (Self.state self.new) };

    /// Erases each of the three journals, as `Journal::renew_all` does. No bit of a data block
    /// changes. Cut on firm journals, it leaves no entry open, however the weak bits read at the
    /// next power-on.
    fn renew_journals(&mut self) -> Result<(), NorError>
        ensures blocks { OnOk result (SameBlocks (Self.state self.old).memory
            (Self.state self.new).memory) }
        ensures renews { OnOk result (RenewsAll (unused (Self.state self.old).memory)
            (unused (Self.state self.new).memory)) }
        ensures cut { IsErrOf result NorError.Cut → IsHealthy (Self.state self.old).memory
            → KeepsBlocks (Self.state self.old).memory (Self.state self.new).memory }
        ensures data { SameData (bits_in (Self.state self.old)) (bits_in (Self.state self.new)) }
        ensures opens { IsErrOf result NorError.Cut → IsSettled (Self.state self.old).memory
            → AreFirmJournals (bits_in (Self.state self.old))
            → OpensNone (bits_in (Self.state self.new)) }
        ensures size { length (Self.state self.new).memory ≡ length (Self.state self.old).memory }
        ensures ends { EndsFirmly result (Self.state self.old) (Self.state self.new) };

    /// Programs the head of a block, its first 44 bytes, again as it reads; of a slot that is dead
    /// and not begun also the bit by which it can't come to be live. True where a slot is begun.
    /// Each bit of the head that reads 0 is firm then.
    fn firm_head(&mut self, block: u16) -> Result<bool, NorError>
        requires number { block < data_blocks (Self.state self.old).memory }
        ensures begun { IfOk result (λ begun. IsTrue begun
            → HoldsBegun (data_block (Self.state self.old).memory block)) }
        ensures not_begun { IfOk result (λ begun. IsFalse begun
            → HoldsBegun (data_block (Self.state self.old).memory block) → ⊥) }
        ensures kept { OnOk result (KeepsHead block (Self.state self.old).memory
            (Self.state self.new).memory) }
        ensures zeros { OnOk result (AreZerosFirm (bits_in (Self.state self.new))
            (block_place block) 44) }
        ensures for_good { OnOk result (AreDeadForGood block (Self.state self.old).memory
            (bits_in (Self.state self.new))) }
        ensures cut { IsErrOf result NorError.Cut → KeepsHead block (Self.state self.old).memory
            (Self.state self.new).memory }
        ensures size { length (Self.state self.new).memory ≡ length (Self.state self.old).memory }
        ensures cut_bits { IsErrOf result NorError.Cut → HeadInterrupted block
            (bits_in (Self.state self.old)) (bits_in (Self.state self.new)) }
        ensures healthy { IsErrOf result NorError.Cut → IsHealthy (Self.state self.old).memory
            → IsHealthy (Self.state self.new).memory }
        ensures ends { EndsFirmly result (Self.state self.old) (Self.state self.new) };

    /// Whether a slot of a block is begun: its state is FEh. False of a block of a group.
    fn has_begun(&mut self, block: u16) -> Result<bool, NorError>
        requires number { block < data_blocks (Self.state self.old).memory }
        ensures begun { IfOk result (λ begun. IsTrue begun
            → HoldsBegun (data_block (Self.state self.old).memory block)) }
        ensures not_begun { IfOk result (λ begun. IsFalse begun
            → HoldsBegun (data_block (Self.state self.old).memory block) → ⊥) }
        ensures same { (Self.state self.new).memory ≡ (Self.state self.old).memory }
        ensures weak { (Self.state self.new).weak ≡ (Self.state self.old).weak }
        ensures index { Self.indexed self.new ≡ Self.indexed self.old }
        ensures ends { EndsFirmly result (Self.state self.old) (Self.state self.new) };

    /// Makes a free slot that counts dead, so that it is never written. Cut, it leaves it free or
    /// dead. The bit by which it isn't free is firm.
    fn kill(&mut self, slot: u16) -> Result<(), NorError>
        requires number { slot < slot_count (Self.state self.old).memory }
        ensures ok { OnOk result (slot_at (Self.state self.old).memory slot ≡ Free
            → slot_at (Self.state self.new).memory slot ≡ Dead) }
        ensures for_good { OnOk result (IsDeadForGood (bits_in (Self.state self.new)) (slot / 7)
            (slot % 7)) }
        ensures cut { IsErrOf result NorError.Cut → slot_at (Self.state self.old).memory slot ≡ Free
            → (slot_at (Self.state self.new).memory slot ≡ Free)
            ⊎ (slot_at (Self.state self.new).memory slot ≡ Dead) }
        ensures clean { OnOk result (slot_at (Self.state self.old).memory slot ≡ Free
            → IsClean (Self.state self.old).memory → IsClean (Self.state self.new).memory) }
        ensures cut_clean { IsErrOf result NorError.Cut
            → slot_at (Self.state self.old).memory slot ≡ Free
            → IsClean (Self.state self.old).memory → IsClean (Self.state self.new).memory }
        ensures only { OnOk result (OnlyPlace slot (Self.state self.old).memory
            (Self.state self.new).memory) }
        ensures cut_only { IsErrOf result NorError.Cut
            → OnlyPlace slot (Self.state self.old).memory (Self.state self.new).memory }
        ensures chip { SameChip (Self.state self.old).memory (Self.state self.new).memory }
        ensures cut_bits { IsErrOf result NorError.Cut
            → StateInterrupted (descriptor_place (slot / 7) (slot % 7)) 251
            (bits_in (Self.state self.old)) (bits_in (Self.state self.new)) }
        ensures healthy { IsErrOf result NorError.Cut → IsHealthy (Self.state self.old).memory
            → IsHealthy (Self.state self.new).memory }
        ensures ends { EndsFirmly result (Self.state self.old) (Self.state self.new) };
}
