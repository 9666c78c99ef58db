//! Where a store of slots gets its free slots from: the contract of `Stock`.

ghost use Rattle.std.specs.Prelude.{◌≡◌, ◌⊎◌, ◌/◌, ◌<◌, ◌≤◌, ℕ, true, Some, None, length, OnOk};
ghost use Rattle.std.specs.Prelude.{◌+◌, ◌-◌, IfOk, IfSome, IsTrue, IsFalse, List, false};
ghost use Rattle.std.specs.Result.{IsErrOf};
ghost use Rattle.nor_driver.specs.State.{IsNorReady, bits_in};
ghost use Rattle.erase_journal.specs.Blocks.{SameChip};
ghost use Rattle.erase_journal.specs.Journals.{IsHealthy, IsSettled};
ghost use Rattle.erase_journal.specs.Steps.{EndsFirmly};
ghost use Rattle.sector_slots.specs.Slots.{Free, Live, Dead, slot_at, slot_count, IsClean};
ghost use Rattle.sector_slots.specs.Slots.{data_blocks, kind_at, data_block, read_header};
ghost use Rattle.sector_slots.specs.Slots.{descriptor_in};
ghost use Rattle.sector_slots.specs.Steps.{IsRetirable, IsWritable, PutLeaves, HoldsTag};
ghost use Rattle.sector_slots.specs.Steps.{MayHoldTag, OnlyPlace};
ghost use Rattle.sector_slots.specs.Blocks.{IsReserveOf};
ghost use Rattle.sector_slots.specs.Losses.{HasSureSpareBut, WriteInterrupted};
ghost use Rattle.sector_stock.specs.Room.{HasRoom, HasNoneDead, IsOutside};
ghost use Rattle.sector_stock.specs.Copy.{Stays, KeepsSectors};
ghost use Rattle.sector_stock.specs.Takes.{Takes, TidiesStock, HasNoGroups, is_short, work_of};
ghost use Rattle.sector_stock.specs.Takes.{IsLowestFree, HasMostDead, HasFewerBelow, MovesInto};
ghost use Rattle.sector_stock.specs.Takes.{Converts, IsLiveGroup, FillsUp, CopiesLeastWorn};
ghost use Rattle.sector_stock.specs.Takes.{MovesLeastWorn, CountsErase, IsErasedOnce};
ghost use Rattle.sector_stock.specs.Index.{erases_of, AreWithin, Suspects, TrustsMore, AreTrusted};
ghost use Rattle.sector_stock.specs.Takes.{KeepsErases, Renews, IsLeastErased, MakesFirm};
ghost use Rattle.sector_stock.specs.Takes.{GivesTrusted, MadeTrusted, TrustsReserve};
ghost use Rattle.sector_stock.specs.Policies.{IsTail, AreRestingFewer};
ghost use Rattle.sector_stock.specs.declared.policy.Policy.{Policy};
ghost use Rattle.sector_stock.specs.declared.policy.Policy.TheVariants as policies;
ghost use Rattle.sector_stock.specs.Index.{is_live_group, HasNoFreeBut, IsMostDead, in_block};
ghost use Rattle.sector_stock.specs.Index.{IsFirmIn};
ghost use Rattle.sector_stock.specs.IndexSteps.{HasNoneFreeBefore};
ghost use Rattle.sector_stock.specs.Losses.{IsFirmDiskIn, LosesNothing, TakesSector};
ghost use Rattle.sector_stock.specs.Losses.{GivesUpSector, IsFirmPlace, suspects_in};
ghost use Rattle.sector_stock.specs.declared.index.BlockState.{BlockState};
ghost use Rattle.sector_stock.specs.declared.index.Cursors.{Cursors};
ghost use Rattle.sector_stock.specs.declared.policy.Purpose.TheVariants as purposes;
ghost use Rattle.sector_stock.specs.declared.given.Copied.{Copied as CopiedOf};

use crate::given::{Copied, Given};
use crate::policy::{Policy, Purpose};
use nor_driver::NorError;
use nor_layout::{Header, Tag};
use sector_slots::FirmCalls;

/// A store of slots with an index of them in memory, which `fill` makes and the other calls here
/// keep; the calls of `SlotCalls` that change the memory don't. On a chip that a firm mount left a
/// call here that changes the memory and answers Ok leaves such a one, also by what `counts` lists
/// as suspect (`disk`). Where it is cut, there is a state before the change that the loss
/// interrupted at which the chip was so, with the sectors of the call's start (`cut_bits`). Of
/// `write` and `release` both are said where the slot is as `TakesSector` or `GivesUpSector` says
/// (specs/Losses.antt). `fill` begins the flags of suspicion anew: after a firm mount
/// `suspect_free` comes behind it. No call takes memory. Source: own, layout 2.
pub trait Reclaim: FirmCalls {
    /// How it chooses slots and blocks.
    ghost policy: { Self → Policy };

    /// What it keeps of each block, its erases since the index was made among it.
    ghost counts: { Self → List BlockState };

    /// Where it looks next.
    ghost cursors: { Self → Cursors };

    /// Reads the kinds and descriptors of all blocks into the index. Erases are counted anew.
    fn fill(&mut self) -> Result<(), NorError>
        requires room { IsNorReady (Self.state self.old) → HasRoom (Self.state self.old).memory }
        ensures indexed { OnOk result (Self.indexed self.new ≡ true) }
        ensures listed { OnOk result (length (counts self.new)
            ≡ data_blocks (Self.state self.new).memory) }
        ensures policy { OnOk result (policy self.new ≡ policy self.old) }
        ensures same { (Self.state self.new).memory ≡ (Self.state self.old).memory }
        ensures weak { (Self.state self.new).weak ≡ (Self.state self.old).weak }
        ensures counted { OnOk result ((c : ℕ) → c < data_blocks (Self.state self.new).memory
            → erases_of (counts self.new) c ≡ 0) }
        ensures even { OnOk result (policy self.old ≡ policies.Level
            → AreWithin 32 (data_blocks (Self.state self.new).memory)
            (erases_of (counts self.new))) }
        ensures ends { EndsFirmly result (Self.state self.old) (Self.state self.new) };

    /// What is free now is suspect, as it is after a firm mount: a bit of it may have been torn,
    /// and read another way at the next power-on. Nothing is read.
    fn suspect_free(&mut self)
        ensures suspect { Suspects (length (counts self.old)) (counts self.old) (counts self.new) }
        ensures state { Self.state self.new ≡ Self.state self.old }
        ensures indexed { Self.indexed self.new ≡ Self.indexed self.old }
        ensures policy { policy self.new ≡ policy self.old }
        ensures cursors { cursors self.new ≡ cursors self.old };

    /// Makes the block firm from which `take_free` gives a slot, where it is suspect: a wholly free
    /// one is erased, which isn't counted; of any other one the first free slot is made dead. Where
    /// that block is wholly free, a reserve that is suspect is erased too: once a slot of the block
    /// is written, the reserve may be the only wholly free block left, and a mount needs one. After
    /// that these blocks are trusted. Where no block is suspect nothing changes. No sector changes,
    /// whole or cut.
    fn firm_free(&mut self) -> Result<(), NorError>
        requires ready { IsNorReady (Self.state self.old) }
        requires settled { IsSettled (Self.state self.old).memory }
        requires room { HasRoom (Self.state self.old).memory }
        requires indexed { Self.indexed self.old ≡ true }
        ensures ok { OnOk result (MakesFirm (Self.state self.old).memory
            (Self.state self.new).memory) }
        ensures trusts { OnOk result (TrustsMore (counts self.old) (counts self.new)) }
        ensures made { OnOk result (MadeTrusted (counts self.old) (counts self.new)
            (Self.state self.old).memory (Self.state self.new).memory) }
        ensures firm { IsFirmIn (bits_in (Self.state self.old)) (counts self.old)
            → OnOk result (IsFirmIn (bits_in (Self.state self.new)) (counts self.new)) }
        ensures disk { IsFirmDiskIn (bits_in (Self.state self.old)) (counts self.old)
            → OnOk result (IsFirmDiskIn (bits_in (Self.state self.new)) (counts self.new)) }
        ensures cut_bits { IsErrOf result NorError.Cut
            → IsFirmDiskIn (bits_in (Self.state self.old)) (counts self.old)
            → LosesNothing (Self.state self.old).memory (bits_in (Self.state self.new)) }
        ensures next { OnOk result (GivesTrusted (policy self.new) (cursors self.new)
            (counts self.new) (Self.state self.new).memory) }
        ensures spare { OnOk result (TrustsReserve (policy self.new) (cursors self.new)
            (counts self.new) (Self.state self.new).memory) }
        ensures none { AreTrusted (counts self.old)
            → (Self.state self.new).memory ≡ (Self.state self.old).memory }
        ensures erases { OnOk result (KeepsErases (data_blocks (Self.state self.old).memory)
            (erases_of (counts self.old)) (erases_of (counts self.new))) }
        ensures policy { OnOk result (policy self.new ≡ policy self.old) }
        ensures cut { IsErrOf result NorError.Cut
            → KeepsSectors (Self.state self.old).memory (Self.state self.new).memory }
        ensures indexed { OnOk result (Self.indexed self.new ≡ true) }
        ensures healthy { IsErrOf result NorError.Cut → IsHealthy (Self.state self.new).memory }
        ensures size { length (Self.state self.new).memory ≡ length (Self.state self.old).memory }
        ensures ends { EndsFirmly result (Self.state self.old) (Self.state self.new) };

    /// A free slot; another block than its own is wholly free. Where no slot outside the reserve is
    /// free, a block with the most dead slots is copied into the reserve first. There always is
    /// one. By number it is the lowest-numbered free slot outside the highest-numbered wholly free
    /// block. By erases it is one of the block from which one was given last, else of the least
    /// worn block that has one, and the block that is copied is the least worn one. Cut, it leaves
    /// slots and blocks that a mount accepts, and the sectors as they were where what read as free
    /// was erased.
    fn take_free(&mut self) -> Result<Given, NorError>
        requires ready { IsNorReady (Self.state self.old) }
        requires settled { IsSettled (Self.state self.old).memory }
        requires room { HasRoom (Self.state self.old).memory }
        requires indexed { Self.indexed self.old ≡ true }
        requires even { policy self.old ≡ policies.Level
            → AreWithin 31 (data_blocks (Self.state self.old).memory)
            (erases_of (counts self.old)) }
        ensures ok { IfOk result (λ given.
            Takes given.slot given.copied (Self.state self.old).memory
            (Self.state self.new).memory) }
        ensures lowest { policy self.old ≡ policies.Lowest → IfOk result (λ given.
            IsLowestFree given.slot (Self.state self.new).memory) }
        ensures most { IfOk result (λ given. (c : CopiedOf) → given.copied ≡ Some c
            → HasMostDead c.source (Self.state self.old).memory) }
        ensures numbers { policy self.old ≡ policies.Lowest → IfOk result (λ given.
            (c : CopiedOf) → given.copied ≡ Some c
            → HasFewerBelow c.source (Self.state self.old).memory
            × IsReserveOf c.target (Self.state self.old).memory) }
        ensures policy { OnOk result (policy self.new ≡ policy self.old) }
        ensures cut { IsErrOf result NorError.Cut
            → Stays (Self.state self.old).memory (Self.state self.new).memory }
        ensures indexed { OnOk result (Self.indexed self.new ≡ true) }
        ensures healthy { IsErrOf result NorError.Cut → IsHealthy (Self.state self.new).memory }
        ensures size { length (Self.state self.new).memory ≡ length (Self.state self.old).memory }
        ensures fills { policy self.old ≡ policies.Level → IfOk result (λ given.
            FillsUp (cursors self.old).newest (cursors self.new).reserve
            (erases_of (counts self.new)) given.slot (Self.state self.new).memory) }
        ensures worn { policy self.old ≡ policies.Level → IfOk result (λ given. (c : CopiedOf)
            → given.copied ≡ Some c → CopiesLeastWorn (erases_of (counts self.old))
            (cursors self.old).reserve (cursors self.new).reserve c
            (Self.state self.old).memory) }
        ensures counted { IfOk result (λ given. CountsErase
            (data_blocks (Self.state self.old).memory) given.copied (erases_of (counts self.old))
            (erases_of (counts self.new))) }
        ensures even { OnOk result (policy self.old ≡ policies.Level
            → AreWithin 32 (data_blocks (Self.state self.new).memory)
            (erases_of (counts self.new))) }
        ensures firm { IsFirmIn (bits_in (Self.state self.old)) (counts self.old)
            → OnOk result (IsFirmIn (bits_in (Self.state self.new)) (counts self.new)) }
        ensures disk { IsFirmDiskIn (bits_in (Self.state self.old)) (counts self.old)
            → OnOk result (IsFirmDiskIn (bits_in (Self.state self.new)) (counts self.new)) }
        ensures cut_bits { IsErrOf result NorError.Cut
            → IsFirmDiskIn (bits_in (Self.state self.old)) (counts self.old)
            → LosesNothing (Self.state self.old).memory (bits_in (Self.state self.new)) }
        ensures trusted { GivesTrusted (policy self.old) (cursors self.old) (counts self.old)
            (Self.state self.old).memory
            → IfOk result (λ given. (in_block (counts self.new) (given.slot / 7)).suspect ≡ false) }
        ensures first { IfOk result (λ given. HasNoneFreeBefore given.slot
            (Self.state self.new).memory) }
        ensures spare { GivesTrusted (policy self.old) (cursors self.old) (counts self.old)
            (Self.state self.old).memory
            → TrustsReserve (policy self.old) (cursors self.old) (counts self.old)
            (Self.state self.old).memory
            → IsFirmDiskIn (bits_in (Self.state self.old)) (counts self.old)
            → IfOk result (λ given.
            HasSureSpareBut (given.slot / 7) (bits_in (Self.state self.new))) }
        ensures ends { EndsFirmly result (Self.state self.old) (Self.state self.new) };

    /// Whether `tidy` has something to do: whether slots are dead, or blocks live with groups.
    /// Nothing is read.
    fn has_work(&mut self) -> bool
        requires indexed { Self.indexed self.old ≡ true }
        ensures yes { IsTrue result → 0 < work_of (Self.state self.old).memory }
        ensures no { IsFalse result → HasNoneDead (Self.state self.old).memory
            × HasNoGroups (Self.state self.old).memory }
        ensures state { Self.state self.new ≡ Self.state self.old }
        ensures indexed { Self.indexed self.new ≡ true }
        ensures policy { policy self.new ≡ policy self.old }
        ensures counted { counts self.new ≡ counts self.old };

    /// Copies a block with dead slots, one with the most, of equals the lowest-numbered or the
    /// least worn, into the reserve; where no slot is dead, converts the lowest-numbered block that
    /// is live with a group: the blocks. Where none is either, nothing changes: None. Cut, it
    /// leaves what `take_free` does.
    fn tidy(&mut self) -> Result<Option<Copied>, NorError>
        requires ready { IsNorReady (Self.state self.old) }
        requires settled { IsSettled (Self.state self.old).memory }
        requires room { HasRoom (Self.state self.old).memory }
        requires indexed { Self.indexed self.old ≡ true }
        requires even { policy self.old ≡ policies.Level
            → AreWithin 31 (data_blocks (Self.state self.old).memory)
            (erases_of (counts self.old)) }
        ensures copied { IfOk result (λ copied. (c : CopiedOf) → copied ≡ Some c
            → TidiesStock c.source c.target (Self.state self.old).memory
            (Self.state self.new).memory) }
        ensures fewer { IfOk result (λ copied. (c : CopiedOf) → copied ≡ Some c
            → work_of (Self.state self.new).memory < work_of (Self.state self.old).memory) }
        ensures most { IfOk result (λ copied. (c : CopiedOf) → copied ≡ Some c
            → HasNoneDead (Self.state self.old).memory
            ⊎ HasMostDead c.source (Self.state self.old).memory) }
        ensures lowest { policy self.old ≡ policies.Lowest → IfOk result (λ copied.
            (c : CopiedOf) → copied ≡ Some c → HasNoneDead (Self.state self.old).memory
            ⊎ HasFewerBelow c.source (Self.state self.old).memory) }
        ensures target { policy self.old ≡ policies.Lowest → IfOk result (λ copied.
            (c : CopiedOf) → copied ≡ Some c
            → IsReserveOf c.target (Self.state self.old).memory) }
        ensures policy { OnOk result (policy self.new ≡ policy self.old) }
        ensures none { IfOk result (λ copied. copied ≡ None
            → HasNoneDead (Self.state self.old).memory × HasNoGroups (Self.state self.old).memory
            × ((Self.state self.new).memory ≡ (Self.state self.old).memory)) }
        ensures cut { IsErrOf result NorError.Cut
            → Stays (Self.state self.old).memory (Self.state self.new).memory }
        ensures indexed { OnOk result (Self.indexed self.new ≡ true) }
        ensures healthy { IsErrOf result NorError.Cut → IsHealthy (Self.state self.new).memory }
        ensures size { length (Self.state self.new).memory ≡ length (Self.state self.old).memory }
        ensures worn { policy self.old ≡ policies.Level → IfOk result (λ copied. (c : CopiedOf)
            → copied ≡ Some c → CopiesLeastWorn (erases_of (counts self.old))
            (cursors self.old).reserve (cursors self.new).reserve c (Self.state self.old).memory
            ⊎ HasNoneDead (Self.state self.old).memory) }
        ensures reserve { IfOk result (λ copied. (c : CopiedOf) → copied ≡ Some c
            → c.target ≡ (cursors self.old).reserve) }
        ensures counted { IfOk result (λ copied. CountsErase
            (data_blocks (Self.state self.old).memory) copied (erases_of (counts self.old))
            (erases_of (counts self.new))) }
        ensures even { OnOk result (policy self.old ≡ policies.Level
            → AreWithin 32 (data_blocks (Self.state self.new).memory)
            (erases_of (counts self.new))) }
        ensures firm { IsFirmIn (bits_in (Self.state self.old)) (counts self.old)
            → OnOk result (IsFirmIn (bits_in (Self.state self.new)) (counts self.new)) }
        ensures disk { IsFirmDiskIn (bits_in (Self.state self.old)) (counts self.old)
            → OnOk result (IsFirmDiskIn (bits_in (Self.state self.new)) (counts self.new)) }
        ensures cut_bits { IsErrOf result NorError.Cut
            → IsFirmDiskIn (bits_in (Self.state self.old)) (counts self.old)
            → LosesNothing (Self.state self.old).memory (bits_in (Self.state self.new)) }
        ensures ends { EndsFirmly result (Self.state self.old) (Self.state self.new) };

    /// Moves a block whose sectors rest into a wholly free one, where it is time for it, so that
    /// the block is written to again: the blocks. Where it isn't, no block changes: None. By number
    /// it never is. By erases it is the least worn of them, once for eight erases; it is time at
    /// the latest where the block before the reserve rests, and each that rests has fewer dead
    /// slots than another block has. It comes before a `take_free` or a `tidy`, as `purpose` says,
    /// and a block with dead slots is still left to be copied. Cut, it leaves what `take_free`
    /// does.
    fn level(&mut self, purpose: Purpose) -> Result<Option<Copied>, NorError>
        requires ready { IsNorReady (Self.state self.old) }
        requires settled { IsSettled (Self.state self.old).memory }
        requires room { HasRoom (Self.state self.old).memory }
        requires indexed { Self.indexed self.old ≡ true }
        requires even { policy self.old ≡ policies.Level
            → AreWithin 31 (data_blocks (Self.state self.old).memory)
            (erases_of (counts self.old)) }
        ensures moved { IfOk result (λ copied. (c : CopiedOf) → copied ≡ Some c
            → MovesInto c.source c.target (Self.state self.old).memory
            (Self.state self.new).memory) }
        ensures left { IfOk result (λ copied. (c : CopiedOf) → copied ≡ Some c
            → HasNoneDead (Self.state self.new).memory → ⊥) }
        ensures work { IfOk result (λ copied. (c : CopiedOf) → copied ≡ Some c
            → work_of (Self.state self.new).memory ≤ work_of (Self.state self.old).memory) }
        ensures none { IfOk result (λ copied. copied ≡ None
            → (Self.state self.new).memory ≡ (Self.state self.old).memory) }
        ensures lowest { policy self.old ≡ policies.Lowest → IfOk result (λ copied.
            copied ≡ None) }
        ensures policy { OnOk result (policy self.new ≡ policy self.old) }
        ensures cut { IsErrOf result NorError.Cut
            → Stays (Self.state self.old).memory (Self.state self.new).memory }
        ensures indexed { OnOk result (Self.indexed self.new ≡ true) }
        ensures healthy { IsErrOf result NorError.Cut → IsHealthy (Self.state self.new).memory }
        ensures size { length (Self.state self.new).memory ≡ length (Self.state self.old).memory }
        ensures least { policy self.old ≡ policies.Level → IfOk result (λ copied. (c : CopiedOf)
            → copied ≡ Some c → MovesLeastWorn (erases_of (counts self.old))
            (cursors self.old).newest c.source (Self.state self.old).memory) }
        ensures must { policy self.old ≡ policies.Level → 8 ≤ (cursors self.old).turn
            → (purpose ≡ purposes.Give → HasNoFreeBut (counts self.old) (cursors self.old).reserve)
            → IsTail (cursors self.old).newest (counts self.old) (cursors self.old).reserve
            → (w : ℕ) → IsMostDead (counts self.old) w → AreRestingFewer (counts self.old) w
            → IfOk result (λ copied. copied ≡ None → ⊥) }
        ensures counted { IfOk result (λ copied. CountsErase
            (data_blocks (Self.state self.old).memory) copied (erases_of (counts self.old))
            (erases_of (counts self.new))) }
        ensures even { OnOk result (policy self.old ≡ policies.Level
            → AreWithin 32 (data_blocks (Self.state self.new).memory)
            (erases_of (counts self.new))) }
        ensures firm { IsFirmIn (bits_in (Self.state self.old)) (counts self.old)
            → OnOk result (IsFirmIn (bits_in (Self.state self.new)) (counts self.new)) }
        ensures disk { IsFirmDiskIn (bits_in (Self.state self.old)) (counts self.old)
            → OnOk result (IsFirmDiskIn (bits_in (Self.state self.new)) (counts self.new)) }
        ensures cut_bits { IsErrOf result NorError.Cut
            → IsFirmDiskIn (bits_in (Self.state self.old)) (counts self.old)
            → LosesNothing (Self.state self.old).memory (bits_in (Self.state self.new)) }
        ensures ends { EndsFirmly result (Self.state self.old) (Self.state self.new) };

    /// The block that was erased least, where another one was erased `limit` times more often: it
    /// lags behind, and is to be renewed. None where none does, and by number. No two blocks differ
    /// by more than 32 erases. Nothing is read.
    fn lagging(&mut self, limit: u16) -> Option<u16>
        requires indexed { Self.indexed self.old ≡ true }
        requires limit { 0 < limit }
        ensures none { policy self.old ≡ policies.Level → result ≡ None
            → AreWithin (limit - 1) (data_blocks (Self.state self.old).memory)
            (erases_of (counts self.old)) }
        ensures even { policy self.old ≡ policies.Level
            → AreWithin 32 (data_blocks (Self.state self.old).memory)
            (erases_of (counts self.old)) }
        ensures least { IfSome result (λ b. IsLeastErased b
            (data_blocks (Self.state self.old).memory) (erases_of (counts self.old))) }
        ensures fits { IfSome result (λ b. erases_of (counts self.old) b + limit < 65536) }
        ensures lags { IfSome result (λ b. AreWithin (limit - 1)
            (data_blocks (Self.state self.old).memory) (erases_of (counts self.old)) → ⊥) }
        ensures lowest { policy self.old ≡ policies.Lowest → result ≡ None }
        ensures state { Self.state self.new ≡ Self.state self.old }
        ensures indexed { Self.indexed self.new ≡ true }
        ensures policy { policy self.new ≡ policy self.old }
        ensures counted { counts self.new ≡ counts self.old };

    /// How often a block was erased since the index was made, at most 65,535. Nothing is read.
    fn erases(&self, block: u16) -> u16
        requires number { block < data_blocks (Self.state self.now).memory }
        ensures { result ≡ erases_of (counts self.now) block };

    /// Erases a block once more, which none was erased less often than. What it holds goes to the
    /// reserve first: the blocks. A wholly free one is erased as it is: None. Cut, it leaves what
    /// `take_free` does.
    fn renew(&mut self, block: u16) -> Result<Option<Copied>, NorError>
        requires ready { IsNorReady (Self.state self.old) }
        requires settled { IsSettled (Self.state self.old).memory }
        requires room { HasRoom (Self.state self.old).memory }
        requires indexed { Self.indexed self.old ≡ true }
        requires number { block < data_blocks (Self.state self.old).memory }
        requires least { (c : ℕ) → c < data_blocks (Self.state self.old).memory
            → erases_of (counts self.old) block ≤ erases_of (counts self.old) c }
        ensures ok { IfOk result (λ copied. Renews block copied (Self.state self.old).memory
            (Self.state self.new).memory) }
        ensures target { IfOk result (λ copied. (c : CopiedOf) → copied ≡ Some c
            → c.target ≡ (cursors self.old).reserve) }
        ensures work { OnOk result (work_of (Self.state self.new).memory
            ≤ work_of (Self.state self.old).memory) }
        ensures policy { OnOk result (policy self.new ≡ policy self.old) }
        ensures cut { IsErrOf result NorError.Cut
            → Stays (Self.state self.old).memory (Self.state self.new).memory }
        ensures indexed { OnOk result (Self.indexed self.new ≡ true) }
        ensures healthy { IsErrOf result NorError.Cut → IsHealthy (Self.state self.new).memory }
        ensures size { length (Self.state self.new).memory ≡ length (Self.state self.old).memory }
        ensures counted { OnOk result (IsErasedOnce (data_blocks (Self.state self.old).memory)
            block (erases_of (counts self.old)) (erases_of (counts self.new))) }
        ensures firm { IsFirmIn (bits_in (Self.state self.old)) (counts self.old)
            → OnOk result (IsFirmIn (bits_in (Self.state self.new)) (counts self.new)) }
        ensures disk { IsFirmDiskIn (bits_in (Self.state self.old)) (counts self.old)
            → OnOk result (IsFirmDiskIn (bits_in (Self.state self.new)) (counts self.new)) }
        ensures cut_bits { IsErrOf result NorError.Cut
            → IsFirmDiskIn (bits_in (Self.state self.old)) (counts self.old)
            → LosesNothing (Self.state self.old).memory (bits_in (Self.state self.new)) }
        ensures ends { EndsFirmly result (Self.state self.old) (Self.state self.new) };

    /// What the seven descriptors of a block say, as `head` gives them; the counts stay.
    fn descriptors(&mut self, block: u16, into: &mut [Header]) -> Result<(), NorError>
        requires number { block < data_blocks (Self.state self.old).memory }
        requires room { length into.old ≡ 7 }
        ensures slots { OnOk result ((i : ℕ) → i < 7 → read_header into.new i
            ≡ descriptor_in (data_block (Self.state self.old).memory block) i) }
        ensures size { length into.new ≡ length into.old }
        ensures same { (Self.state self.new).memory ≡ (Self.state self.old).memory }
        ensures weak { (Self.state self.new).weak ≡ (Self.state self.old).weak }
        ensures index { Self.indexed self.new ≡ Self.indexed self.old }
        ensures policy { policy self.new ≡ policy self.old }
        ensures counted { counts self.new ≡ counts self.old }
        ensures ends { EndsFirmly result (Self.state self.old) (Self.state self.new) };

    /// Whether fewer than an eighth of the slots beyond those that the sectors need are free.
    /// Nothing is read.
    fn is_short(&self) -> bool
        requires indexed { Self.indexed self.now ≡ true }
        ensures { result ≡ is_short (Self.state self.now).memory };

    /// Whether the block of a slot is live with a group. Nothing is read.
    fn is_group(&self, slot: u16) -> bool
        requires number { slot < slot_count (Self.state self.now).memory }
        requires indexed { Self.indexed self.now ≡ true }
        ensures { result ≡ is_live_group (kind_at (Self.state self.now).memory (slot / 7)) };

    /// Converts a block that is live with a group: the seven sectors go to slots of the reserve,
    /// and less is left to be tidied. Cut, it leaves what `take_free` does.
    fn convert(&mut self, block: u16) -> Result<Copied, NorError>
        requires ready { IsNorReady (Self.state self.old) }
        requires settled { IsSettled (Self.state self.old).memory }
        requires room { HasRoom (Self.state self.old).memory }
        requires indexed { Self.indexed self.old ≡ true }
        requires even { policy self.old ≡ policies.Level
            → AreWithin 31 (data_blocks (Self.state self.old).memory)
            (erases_of (counts self.old)) }
        requires number { block < data_blocks (Self.state self.old).memory }
        requires group { IsLiveGroup block (Self.state self.old).memory }
        ensures ok { IfOk result (λ copied. Converts copied.source copied.target
            (Self.state self.old).memory (Self.state self.new).memory) }
        ensures source { IfOk result (λ copied. copied.source ≡ block) }
        ensures target { policy self.old ≡ policies.Lowest → IfOk result (λ copied.
            IsReserveOf copied.target (Self.state self.old).memory) }
        ensures policy { OnOk result (policy self.new ≡ policy self.old) }
        ensures cut { IsErrOf result NorError.Cut
            → Stays (Self.state self.old).memory (Self.state self.new).memory }
        ensures indexed { OnOk result (Self.indexed self.new ≡ true) }
        ensures healthy { IsErrOf result NorError.Cut → IsHealthy (Self.state self.new).memory }
        ensures size { length (Self.state self.new).memory ≡ length (Self.state self.old).memory }
        ensures reserve { IfOk result (λ copied.
            copied.target ≡ (cursors self.old).reserve) }
        ensures next { OnOk result (policy self.old ≡ policies.Level
            → (cursors self.new).reserve ≡ block) }
        ensures counted { OnOk result (IsErasedOnce (data_blocks (Self.state self.old).memory)
            block (erases_of (counts self.old)) (erases_of (counts self.new))) }
        ensures even { OnOk result (policy self.old ≡ policies.Level
            → AreWithin 32 (data_blocks (Self.state self.new).memory)
            (erases_of (counts self.new))) }
        ensures firm { IsFirmIn (bits_in (Self.state self.old)) (counts self.old)
            → OnOk result (IsFirmIn (bits_in (Self.state self.new)) (counts self.new)) }
        ensures disk { IsFirmDiskIn (bits_in (Self.state self.old)) (counts self.old)
            → OnOk result (IsFirmDiskIn (bits_in (Self.state self.new)) (counts self.new)) }
        ensures cut_bits { IsErrOf result NorError.Cut
            → IsFirmDiskIn (bits_in (Self.state self.old)) (counts self.old)
            → LosesNothing (Self.state self.old).memory (bits_in (Self.state self.new)) }
        ensures ends { EndsFirmly result (Self.state self.old) (Self.state self.new) };

    /// Writes a sector, 512 bytes, into a free slot, as `put` does. Another block than the slot's
    /// is wholly free. Where what is free in the slot's block is trusted, a firm store stays one.
    /// Into a slot that `TakesSector` describes, descriptor and sector are firm then (`written`).
    fn write(&mut self, slot: u16, tag: Tag, content: &[u8]) -> Result<(), NorError>
        requires number { slot < slot_count (Self.state self.old).memory }
        requires size { length content.now ≡ 512 }
        requires free { IsNorReady (Self.state self.old)
            → slot_at (Self.state self.old).memory slot ≡ Free }
        requires outside { IsNorReady (Self.state self.old)
            → IsOutside slot (Self.state self.old).memory }
        requires indexed { IsNorReady (Self.state self.old) → Self.indexed self.old ≡ true }
        ensures ok { OnOk result (IsWritable slot (Self.state self.old).memory
            → slot_at (Self.state self.new).memory slot ≡ Live tag content.now) }
        ensures cut { IsErrOf result NorError.Cut → IsWritable slot (Self.state self.old).memory
            → PutLeaves tag content.now (slot_at (Self.state self.new).memory slot) }
        ensures live { OnOk result (slot_at (Self.state self.old).memory slot ≡ Free
            → HoldsTag tag (slot_at (Self.state self.new).memory slot)) }
        ensures cut_live { IsErrOf result NorError.Cut
            → slot_at (Self.state self.old).memory slot ≡ Free
            → MayHoldTag tag (slot_at (Self.state self.new).memory slot) }
        ensures clean { OnOk result (IsWritable slot (Self.state self.old).memory
            → IsClean (Self.state self.new).memory) }
        ensures cut_clean { IsErrOf result NorError.Cut
            → IsWritable slot (Self.state self.old).memory → IsClean (Self.state self.new).memory }
        ensures only { OnOk result (OnlyPlace slot (Self.state self.old).memory
            (Self.state self.new).memory) }
        ensures cut_only { IsErrOf result NorError.Cut
            → OnlyPlace slot (Self.state self.old).memory (Self.state self.new).memory }
        ensures firm { (in_block (counts self.old) (slot / 7)).suspect ≡ false
            → IsFirmIn (bits_in (Self.state self.old)) (counts self.old)
            → OnOk result (IsFirmIn (bits_in (Self.state self.new)) (counts self.new)) }
        ensures disk { IsFirmDiskIn (bits_in (Self.state self.old)) (counts self.old)
            → TakesSector slot tag (counts self.old) (bits_in (Self.state self.old))
            → OnOk result (IsFirmDiskIn (bits_in (Self.state self.new)) (counts self.new)) }
        ensures cut_bits { IsErrOf result NorError.Cut
            → IsFirmDiskIn (bits_in (Self.state self.old)) (counts self.old)
            → TakesSector slot tag (counts self.old) (bits_in (Self.state self.old))
            → WriteInterrupted (bits_in (Self.state self.old)) (suspects_in (counts self.old)) tag
            content.now (bits_in (Self.state self.new)) }
        ensures written { IsFirmDiskIn (bits_in (Self.state self.old)) (counts self.old)
            → TakesSector slot tag (counts self.old) (bits_in (Self.state self.old))
            → OnOk result (IsFirmPlace slot (bits_in (Self.state self.new))) }
        ensures chip { SameChip (Self.state self.old).memory (Self.state self.new).memory }
        ensures healthy { IsErrOf result NorError.Cut → IsHealthy (Self.state self.old).memory
            → IsHealthy (Self.state self.new).memory }
        ensures indexed { OnOk result (Self.indexed self.new ≡ true) }
        ensures policy { OnOk result (policy self.new ≡ policy self.old) }
        ensures counted { OnOk result (KeepsErases (data_blocks (Self.state self.old).memory)
            (erases_of (counts self.old)) (erases_of (counts self.new))) }
        ensures ends { EndsFirmly result (Self.state self.old) (Self.state self.new) };

    /// Makes a live slot of a block of slots dead, as `retire` does. A firm store stays one.
    fn release(&mut self, slot: u16) -> Result<(), NorError>
        requires number { slot < slot_count (Self.state self.old).memory }
        requires live { IsNorReady (Self.state self.old)
            → IsRetirable slot (Self.state self.old).memory }
        requires indexed { IsNorReady (Self.state self.old) → Self.indexed self.old ≡ true }
        ensures ok { OnOk result (slot_at (Self.state self.new).memory slot ≡ Dead) }
        ensures cut { IsErrOf result NorError.Cut
            → IsRetirable slot (Self.state self.old).memory
            → (slot_at (Self.state self.new).memory slot
            ≡ slot_at (Self.state self.old).memory slot)
            ⊎ (slot_at (Self.state self.new).memory slot ≡ Dead) }
        ensures clean { OnOk result (IsClean (Self.state self.old).memory
            → IsClean (Self.state self.new).memory) }
        ensures cut_clean { IsErrOf result NorError.Cut
            → IsRetirable slot (Self.state self.old).memory
            → IsClean (Self.state self.old).memory → IsClean (Self.state self.new).memory }
        ensures only { OnOk result (OnlyPlace slot (Self.state self.old).memory
            (Self.state self.new).memory) }
        ensures cut_only { IsErrOf result NorError.Cut
            → OnlyPlace slot (Self.state self.old).memory (Self.state self.new).memory }
        ensures firm { IsFirmIn (bits_in (Self.state self.old)) (counts self.old)
            → OnOk result (IsFirmIn (bits_in (Self.state self.new)) (counts self.new)) }
        ensures disk { IsFirmDiskIn (bits_in (Self.state self.old)) (counts self.old)
            → GivesUpSector slot (bits_in (Self.state self.old))
            → OnOk result (IsFirmDiskIn (bits_in (Self.state self.new)) (counts self.new)) }
        ensures cut_bits { IsErrOf result NorError.Cut
            → IsFirmDiskIn (bits_in (Self.state self.old)) (counts self.old)
            → GivesUpSector slot (bits_in (Self.state self.old))
            → LosesNothing (Self.state self.old).memory (bits_in (Self.state self.new)) }
        ensures chip { SameChip (Self.state self.old).memory (Self.state self.new).memory }
        ensures healthy { IsErrOf result NorError.Cut → IsHealthy (Self.state self.old).memory
            → IsHealthy (Self.state self.new).memory }
        ensures indexed { OnOk result (Self.indexed self.new ≡ true) }
        ensures policy { OnOk result (policy self.new ≡ policy self.old) }
        ensures counted { OnOk result (KeepsErases (data_blocks (Self.state self.old).memory)
            (erases_of (counts self.old)) (erases_of (counts self.new))) }
        ensures ends { EndsFirmly result (Self.state self.old) (Self.state self.new) };
}
