//! The type of the map: its latched error, its invariant, and its calls.

ghost use Rattle.std.specs.Prelude.{◌≡◌, ◌<◌, ◌≤◌, ◌*◌, ◌-◌, Ok, true, false, length, vec_len};
ghost use Rattle.std.specs.Prelude.{slice_index_or, OnOk, IfOk, IfErr, IsTrue, IsFalse};
ghost use Rattle.std.specs.Result.{IsErrOf};
ghost use Rattle.chip_model.specs.Geometry.{IsChipSize, sector_count};
ghost use Rattle.nor_driver.specs.State.{bits_in, IsNorReady};
ghost use Rattle.nor_layout.specs.Superblock.{layout_in};
ghost use Rattle.erase_journal.specs.Journals.{IsHealthy, unused};
ghost use Rattle.erase_journal.specs.Recovery.{IsBehind};
ghost use Rattle.erase_journal.specs.Renewal.{RenewsAll};
ghost use Rattle.erase_journal.specs.Steps.{EndsFirmly};
ghost use Rattle.erase_journal.specs.Weak.{AreFirmJournals, AreInterruptedJournals};
ghost use Rattle.erase_journal.specs.Weak.{AreRecoveredJournals};
ghost use Rattle.sector_slots.specs.Slots.{slot_count, data_blocks, IsClean, IsSpareIn};
ghost use Rattle.sector_slots.specs.Sectors.{sector_at, zeros};
ghost use Rattle.sector_slots.specs.Weak.{IsDoubtedStore, IsHalfChip, IsHalfStore};
ghost use Rattle.sector_stock.specs.Losses.{IsFirmDiskIn};
ghost use Rattle.sector_stock.specs.Takes.{urgent_work, work_of};
ghost use Rattle.sector_map.specs.Marking.{is_unmarked};
ghost use Rattle.sector_map.specs.Table.{holder};
ghost use Rattle.sector_map.specs.Maps.{IsStore, KeepsMap, Sets, SetLeaves, Mounted, MountFails};
ghost use Rattle.sector_map.specs.Maps.{MapRestored, MapRestoreFails, IsLaidOut, IsSettledMap};
ghost use Rattle.sector_map.specs.Filling.{Filled, FillFails, Renewed, RenewCorrupt, RenewFails};
ghost use Rattle.sector_map.specs.Filling.{FillsFirmly, latched_after_cut};
ghost use Rattle.sector_map.specs.Losses.{BeginsFirmly, HoldsFirmDisk, IsFirmMap, KeepsAtLoss};
ghost use Rattle.sector_map.specs.Losses.{SetsAtLoss, StandsAtEachDraw, WhileFirm};

use crate::Held;
use crate::error::MapError;
use crate::firm::clear_as;
use crate::mount::mount_slots;
use crate::provenance::Provenance;
use crate::settling::{renew_block, renew_journals};
use crate::steps::{find_sector, tidy_levelled, tidy_when_short, write_levelled};
use crate::stock::Stock;
use crate::superblock::look;
use crate::table::LiveSlots;
use chip_model::Geometry;
use erase_journal::{Firmness, Journal, RecoverError};
use journal_slots::SectorSlots;
use nor_driver::{Nor, NorError};
use nor_layout::SuperError;
use sector_slots::SlotCalls;
use sector_stock::{BlockState, Reclaim, SlotState};
use std::alloc::{AllocError, Global};
use std::marker::{Model, PhantomData};

/// The sectors of a chip: its slots with their index, and the table of the slots that hold them.
///
/// A contract sees it as the state of the memory behind it; a Slow that it answered is latched in
/// it until a `restore` that answers Ok. While an error is latched every call but `restore` answers
/// it, and does nothing. Where `P.firm` says that it was mounted firmly from a memory that was fit
/// for it, the chip is a firm disk until a loss of power or a slow operation is counted; each call
/// says what that loss leaves (`firmly`): the state before the one change that it interrupted, and
/// that change, by which `losses_keep_sectors` of `sector_slots` tells what is read at each later
/// power-on; and the journals, at each of these. Source: own.
#[derive(Drop)]
pub struct SectorMap<N: Nor, P: Provenance> {
    stock: Stock<N>,
    /// The entries of the sectors, in their order.
    table: Vec<LiveSlots>,
    /// The latched error. If both occurred, Slow is latched.
    latched: Option<NorError>,
    /// What is assumed of torn bits.
    firmness: Firmness,
    of: PhantomData<P>,
}

impl<N: Nor, P: Provenance> Model for SectorMap<N, P> {
    ghost use Rattle.std.specs.Prelude.{◌≡◌, length, vec_len};
    ghost use Rattle.chip_model.specs.Geometry.{sector_count};
    ghost use Rattle.nor_driver.specs.State.{NorState};
    ghost use Rattle.sector_map.specs.Losses.{IsFirmMap, IsSince, WhileFirm};
    ghost use Rattle.sector_map.specs.Maps.{KnownWhile, shown_with};

    ghost Value = { NorState };

    ghost view = { λ map. shown_with map.latched map.stock.slots };

    // While no error is latched, table and index are those of the memory (`indexed`), which is
    // healthy, and no copying goes on. While a Cut is latched, the memory is healthy. `shown_with`
    // shows a latched Slow to contracts.
    ghost invariant = { λ map. record {
      counted : vec_len map.table ≡ sector_count (length map.stock.slots.memory);
      standing : KnownWhile map.latched map.table.items map.stock.slots map.stock.indexed;
      since : IsSince P.firm P.cuts P.slows map.stock.slots;
      firm : WhileFirm P.firm P.cuts P.slows map.stock.slots
          (IsFirmMap map.latched map.firmness map.stock.slots map.stock.blocks.items);
    } };
}

impl<N: Nor, P: Provenance> SectorMap<N, P> {
    /// Mounts a memory, in the steps of docs/SECTORS.md, "A mount". A refusal hands the memory
    /// back. `Corrupt` is also the answer to a superblock of another layout or size, and then
    /// nothing was changed: a newer format and a damaged byte look alike. Torn bits are taken to be
    /// steady, so that `P.firm` can't be said.
    pub fn mount(alloc: Global, nor: N) -> Result<SectorMap<N, P>, (N, MapError)>
        requires plainly { P.firm ≡ false }
        ensures ok { IfOk result (λ map. Mounted (N.state nor) map) }
        ensures fails { IfErr result (λ e. MountFails e.1 (N.state nor) (N.state e.0)) }
    {
        SectorMap::mount_as(alloc, nor, Firmness::Steady)
    }

    /// The same with what is assumed of torn bits: here, in each `restore` and in each `clear`. Of
    /// journals of which one operation was interrupted a firm mount leaves firm ones, and of blocks
    /// of which one change was interrupted such whose marks and slots are sure; but not where it
    /// marks a chip of layout 1. After any mount no erase and no copying goes on, and no sector has
    /// two live slots (`settled`). `P.firm` is said of a firm mount of a chip that is fit for it.
    pub fn mount_as(
        alloc: Global,
        nor: N,
        firmness: Firmness,
    ) -> Result<SectorMap<N, P>, (N, MapError)>
        requires firmly { P.firm ≡ true → BeginsFirmly P.cuts P.slows firmness (N.state nor) }
        ensures ok { IfOk result (λ map. Mounted (N.state nor) map) }
        ensures settled { IfOk result (λ map. IsSettledMap map.memory) }
        ensures journals { firmness ≡ Firmness.Firm → is_unmarked (N.state nor).memory ≡ false
            → AreInterruptedJournals (bits_in (N.state nor))
            → IfOk result (λ map. AreFirmJournals (bits_in map)) }
        ensures store { firmness ≡ Firmness.Firm → is_unmarked (N.state nor).memory ≡ false
            → IsHalfChip (bits_in (N.state nor))
            → IfOk result (λ map. IsDoubtedStore (bits_in map)) }
        ensures fails { IfErr result (λ e. MountFails e.1 (N.state nor) (N.state e.0)) }
    {
        let mut nor = nor;
        match look(&mut nor) {
            Ok(Ok(_layout)) => recover(alloc, nor, firmness),
            Ok(Err(SuperError::NotFormatted)) => Err((nor, MapError::NotFormatted)),
            Ok(Err(SuperError::Layout)) => Err((nor, MapError::Corrupt)),
            Ok(Err(SuperError::Geometry)) => Err((nor, MapError::Corrupt)),
            Err(NorError::Cut) => Err((nor, MapError::Cut)),
            Err(NorError::Slow) => Err((nor, MapError::Slow)),
        }
    }

    /// How many sectors there are, from 70 to 25,060.
    pub fn sectors(&self) -> u16
        ensures count { result ≡ sector_count (length self.now.memory) }
        ensures sized { IsChipSize (length self.now.memory) }
    {
        // For its contract: a chip's size, so that the count fits.
        let _blocks = self.stock.blocks();
        self.table.len() as u16
    }

    /// Whether a Slow is latched.
    pub fn is_slow(&self) -> bool
        ensures { result ≡ self.now.is_slow }
    {
        match self.latched {
            None => false,
            Some(NorError::Cut) => false,
            Some(NorError::Slow) => true,
        }
    }

    /// The content of a sector into `into`, 512 bytes; zeros where no slot holds it. After an error
    /// `into` holds any bytes.
    pub fn find(&mut self, sector: u16, into: &mut [u8]) -> Result<(), NorError>
        requires number { sector < sector_count (length self.old.memory) }
        requires room { length into.old ≡ 512 }
        ensures ok { OnOk result (into.new ≡ sector_at self.old.memory sector) }
        ensures same { self.new.memory ≡ self.old.memory }
        ensures cut { IsErrOf result NorError.Cut → KeepsMap self.old.memory self.new.memory }
        ensures firmly { WhileFirm P.firm P.cuts P.slows self.old
            (IsErrOf result NorError.Cut → KeepsAtLoss self.old.memory (bits_in self.new)
            × StandsAtEachDraw (bits_in self.new)) }
        ensures ends { EndsFirmly result self.old self.new }
    {
        if let Some(error) = self.latched {
            return Err(error);
        }
        let holder = holder_of(self.table.as_slice(), sector);
        match find_sector(&mut self.stock, holder, into) {
            Ok(()) => Ok(()),
            Err(error) => {
                self.latched = Some(error);
                Err(error)
            }
        }
    }

    /// Writes a sector, 512 bytes, into a free slot, and retires the slot that held it. Before that
    /// a block may be moved for its wear, and a block that holds the sector with its group is
    /// converted. Cut, every sector is as it was, or this one is new. Contents are promised of a
    /// clean memory (`is_clean`).
    pub fn replace(&mut self, sector: u16, content: &[u8]) -> Result<(), NorError>
        requires number { sector < sector_count (length self.old.memory) }
        requires size { length content.now ≡ 512 }
        ensures ok { OnOk result (Sets sector content.now self.old.memory self.new.memory) }
        ensures cut { IsErrOf result NorError.Cut
            → SetLeaves sector content.now self.old.memory self.new.memory }
        ensures size { length self.new.memory ≡ length self.old.memory }
        ensures firmly { WhileFirm P.firm P.cuts P.slows self.old (IsErrOf result NorError.Cut
            → SetsAtLoss sector content.now self.old.memory (bits_in self.new)
            × StandsAtEachDraw (bits_in self.new)) }
        ensures ends { EndsFirmly result self.old self.new }
    {
        if let Some(error) = self.latched {
            return Err(error);
        }
        match write_levelled(&mut self.stock, self.table.as_mut_slice(), sector, content) {
            Ok(()) => Ok(()),
            Err(error) => {
                self.latched = Some(error);
                Err(error)
            }
        }
    }

    /// Makes a sector absent: it reads as zeros, and its next content begins with the first
    /// generation. One change of the chip, none if it is absent already; of a map that was mounted
    /// firmly six, since zeros are written first. Before that a block that holds the sector with
    /// its group is converted, which copies seven sectors, and where wear is levelled blocks may be
    /// moved. Cut, every sector is as it was, or this one is zeros. Contents
    /// are promised of a clean memory (`is_clean`).
    pub fn clear(&mut self, sector: u16) -> Result<(), NorError>
        requires number { sector < sector_count (length self.old.memory) }
        ensures ok { OnOk result (Sets sector zeros self.old.memory self.new.memory) }
        ensures cut { IsErrOf result NorError.Cut
            → SetLeaves sector zeros self.old.memory self.new.memory }
        ensures size { length self.new.memory ≡ length self.old.memory }
        ensures firmly { WhileFirm P.firm P.cuts P.slows self.old (IsErrOf result NorError.Cut
            → SetsAtLoss sector zeros self.old.memory (bits_in self.new)
            × StandsAtEachDraw (bits_in self.new)) }
        ensures ends { EndsFirmly result self.old self.new }
    {
        if let Some(error) = self.latched {
            return Err(error);
        }
        match clear_as(
            &mut self.stock,
            self.table.as_mut_slice(),
            sector,
            self.firmness,
        ) {
            Ok(()) => Ok(()),
            Err(error) => {
                self.latched = Some(error);
                Err(error)
            }
        }
    }

    /// Does one step of tidying: true. It copies a block with the most dead slots; if no slot is
    /// dead it converts the lowest-numbered block that is live with a group. Before that a block
    /// may be moved for its wear. If there is neither, nothing changes: false. No sector of a clean
    /// memory changes.
    pub fn tidy(&mut self) -> Result<bool, NorError>
        ensures ok { OnOk result (KeepsMap self.old.memory self.new.memory) }
        ensures fewer { IfOk result (λ more. IsTrue more
            → work_of self.new.memory < work_of self.old.memory) }
        ensures tidied { IfOk result (λ more. IsFalse more → work_of self.old.memory ≡ 0) }
        ensures unchanged { IfOk result (λ more. IsFalse more → self.new.memory ≡ self.old.memory) }
        ensures cut { IsErrOf result NorError.Cut → KeepsMap self.old.memory self.new.memory }
        ensures size { length self.new.memory ≡ length self.old.memory }
        ensures firmly { WhileFirm P.firm P.cuts P.slows self.old
            (IsErrOf result NorError.Cut → KeepsAtLoss self.old.memory (bits_in self.new)
            × StandsAtEachDraw (bits_in self.new)) }
        ensures ends { EndsFirmly result self.old self.new }
    {
        if let Some(error) = self.latched {
            return Err(error);
        }
        match tidy_levelled(&mut self.stock, self.table.as_mut_slice()) {
            Ok(more) => Ok(more),
            Err(error) => {
                self.latched = Some(error);
                Err(error)
            }
        }
    }

    /// Runs `tidy` once if less than an eighth of the spare slots are free: of those beyond one for
    /// each sector, the reserve's not counted. Otherwise nothing changes: false.
    pub fn tidy_urgent(&mut self) -> Result<bool, NorError>
        ensures ok { OnOk result (KeepsMap self.old.memory self.new.memory) }
        ensures fewer { IfOk result (λ more. IsTrue more
            → urgent_work self.new.memory < urgent_work self.old.memory) }
        ensures tidied { IfOk result (λ more. IsFalse more → urgent_work self.old.memory ≡ 0) }
        ensures unchanged { IfOk result (λ more. IsFalse more → self.new.memory ≡ self.old.memory) }
        ensures cut { IsErrOf result NorError.Cut → KeepsMap self.old.memory self.new.memory }
        ensures size { length self.new.memory ≡ length self.old.memory }
        ensures firmly { WhileFirm P.firm P.cuts P.slows self.old
            (IsErrOf result NorError.Cut → KeepsAtLoss self.old.memory (bits_in self.new)
            × StandsAtEachDraw (bits_in self.new)) }
        ensures ends { EndsFirmly result self.old self.new }
    {
        if let Some(error) = self.latched {
            return Err(error);
        }
        match tidy_when_short(&mut self.stock, self.table.as_mut_slice()) {
            Ok(more) => Ok(more),
            Err(error) => {
                self.latched = Some(error);
                Err(error)
            }
        }
    }

    /// Erases the three journals, those that are tired first. No sector changes.
    pub fn renew_journals(&mut self) -> Result<(), NorError>
        ensures ok { OnOk result (KeepsMap self.old.memory self.new.memory) }
        ensures renews { OnOk result (RenewsAll (unused self.old.memory)
            (unused self.new.memory)) }
        ensures cut { IsErrOf result NorError.Cut → KeepsMap self.old.memory self.new.memory }
        ensures size { length self.new.memory ≡ length self.old.memory }
        ensures firmly { WhileFirm P.firm P.cuts P.slows self.old
            (IsErrOf result NorError.Cut → KeepsAtLoss self.old.memory (bits_in self.new)
            × StandsAtEachDraw (bits_in self.new)) }
        ensures ends { EndsFirmly result self.old self.new }
    {
        if let Some(error) = self.latched {
            return Err(error);
        }
        match renew_journals(&mut self.stock, self.table.as_slice(), self.firmness) {
            Ok(()) => Ok(()),
            Err(error) => {
                self.latched = Some(error);
                Err(error)
            }
        }
    }

    /// How many data blocks there are, from 12 to 4,092.
    pub fn data_blocks(&self) -> u16
        ensures { result ≡ data_blocks self.now.memory }
    {
        self.stock.blocks()
    }

    /// Erases a data block: it is wholly free then. What it holds is copied first, into a block
    /// that is wholly free, and that was erased since a firm mount. From now on all blocks wear
    /// alike, as `level_wear` says, and erases are counted anew. No sector of a clean memory
    /// changes.
    pub fn renew(&mut self, block: u16) -> Result<(), NorError>
        requires number { block < data_blocks self.old.memory }
        ensures ok { OnOk result (KeepsMap self.old.memory self.new.memory) }
        ensures erased { OnOk result (IsSpareIn self.new.memory block) }
        ensures cut { IsErrOf result NorError.Cut → KeepsMap self.old.memory self.new.memory }
        ensures size { length self.new.memory ≡ length self.old.memory }
        ensures firmly { WhileFirm P.firm P.cuts P.slows self.old
            (IsErrOf result NorError.Cut → KeepsAtLoss self.old.memory (bits_in self.new)
            × StandsAtEachDraw (bits_in self.new)) }
        ensures ends { EndsFirmly result self.old self.new }
    {
        if let Some(error) = self.latched {
            return Err(error);
        }
        match renew_block(&mut self.stock, self.table.as_mut_slice(), block) {
            Ok(()) => Ok(()),
            Err(error) => {
                self.latched = Some(error);
                Err(error)
            }
        }
    }

    /// Whether the memory is clean: every byte that reads as free is erased. Reads the data blocks
    /// up to the first that isn't so. Nothing changes. The promises about contents hold for a clean
    /// memory, and calls keep it clean unless a Slow is latched: so ask once, after the mount.
    pub fn is_clean(&mut self) -> Result<bool, NorError>
        ensures clean { IfOk result (λ clean. IsTrue clean → IsClean self.old.memory) }
        ensures not_clean { IfOk result (λ clean. IsFalse clean → IsClean self.old.memory → ⊥) }
        ensures same { self.new.memory ≡ self.old.memory }
        ensures firmly { WhileFirm P.firm P.cuts P.slows self.old
            (IsErrOf result NorError.Cut → KeepsAtLoss self.old.memory (bits_in self.new)
            × StandsAtEachDraw (bits_in self.new)) }
        ensures ends { EndsFirmly result self.old self.new }
    {
        if let Some(error) = self.latched {
            return Err(error);
        }
        match self.stock.is_clean() {
            Ok(clean) => Ok(clean),
            Err(error) => {
                self.latched = Some(error);
                Err(error)
            }
        }
    }

    /// Turns the power off and on again, and mounts the memory anew into the same table (steps 3 to
    /// 10 of docs/SECTORS.md, "A mount"). If no Slow was latched, no sector changes.
    ///
    /// Answers Ok, Cut or Slow. A memory that can't be mounted any more is answered as Slow: only
    /// an operation that didn't end can have left one.
    pub fn restore(&mut self) -> Result<(), NorError>
        ensures ok { OnOk result (MapRestored self.old self.new) }
        ensures fails { IfErr result (λ e. MapRestoreFails e self.old self.new) }
    {
        match renew(&mut self.stock, self.table.as_mut_slice(), self.firmness) {
            Ok(true) => {
                self.latched = None;
                Ok(())
            }
            Ok(false) => {
                self.latched = Some(NorError::Slow);
                Err(NorError::Slow)
            }
            Err(NorError::Slow) => {
                self.latched = Some(NorError::Slow);
                Err(NorError::Slow)
            }
            Err(NorError::Cut) => {
                self.latched = after_cut(self.latched);
                Err(NorError::Cut)
            }
        }
    }

    /// Arms a loss of power in a simulated chip, as the memory's `arm` does. It changes nothing
    /// until the loss comes, so no clause can tell it from a body that does nothing: tests see the
    /// loss.
    pub fn arm(&mut self, count: u32, kind: u8, mask: u8)
        ensures { self.new ≡ self.old }
    {
        self.stock.arm_loss(count, kind, mask)
    }

    /// From now on slots and blocks are chosen so that all blocks wear alike: no two differ by more
    /// than 32 erases, counted from the mount on. Now and then a call moves a block whose sectors
    /// rest. Before, the lowest-numbered are chosen. No clause here tells the two apart, as a
    /// memory's sectors are the same (`Reclaim` has them). What was chosen outlasts a `restore`.
    pub fn level_wear(&mut self)
        ensures { self.new ≡ self.old }
    {
        self.stock.level_wear()
    }

    /// The memory, to be looked at.
    pub fn get_ref(&self) -> &N
        ensures { IsBehind self.now (N.state result.now) }
    {
        self.stock.get_ref().get_ref().get_ref()
    }

    /// Gives the memory back. Where no Slow is latched it is healthy behind its superblock.
    pub fn into_inner(self) -> N
        ensures behind { IsBehind self (N.state result) }
        ensures firm { WhileFirm P.firm P.cuts P.slows self
            (HoldsFirmDisk (bits_in (N.state result))) }
        ensures store { self.is_slow ≡ false → IsStore (N.state result).memory }
    {
        let SectorMap {
            stock,
            table: _table,
            latched: _latched,
            firmness: _,
            of: _,
        } = self;
        uncover(stock)
    }
}

/// The memory that a map takes, once: a table of the sectors, and the index of slots and blocks.
#[derive(Drop)]
struct Tables {
    table: Vec<LiveSlots>,
    states: Vec<SlotState>,
    blocks: Vec<BlockState>,
}

/// Takes the memory of a map of a chip of these counts.
fn take_tables(alloc: Global, chip: Geometry) -> Result<Tables, AllocError>
    requires few { chip.sectors < 65536 }
    requires least { 4 ≤ chip.blocks }
    ensures table { IfOk result (λ t. vec_len t.table ≡ chip.sectors) }
    ensures states { IfOk result (λ t. vec_len t.states ≡ 7 * (chip.blocks - 4)) }
    ensures blocks { IfOk result (λ t. vec_len t.blocks ≡ chip.blocks - 4) }
{
    let count = chip.blocks as usize - 4;
    let table = vec![in alloc; LiveSlots::Absent; chip.sectors as usize]?;
    let states = vec![in alloc; SlotState::Free; 7 * count]?;
    let blank = BlockState {
        free: 0,
        dead: 0,
        plain: false,
        group: false,
        erases: 0,
        suspect: false,
    };
    let blocks = vec![in alloc; blank; count]?;
    Ok(Tables {
        table,
        states,
        blocks,
    })
}

/// Steps 2 to 10 of a mount: of a memory whose superblock was looked at.
fn recover<N: Nor, P: Provenance>(
    alloc: Global,
    nor: N,
    firmness: Firmness,
) -> Result<SectorMap<N, P>, (N, MapError)>
    requires firmly { P.firm ≡ true → BeginsFirmly P.cuts P.slows firmness (N.state nor) }
    requires superblock { IsLaidOut (N.state nor).memory }
    ensures ok { IfOk result (λ map. Mounted (N.state nor) map) }
    ensures settled { IfOk result (λ map. IsSettledMap map.memory) }
    ensures journals { firmness ≡ Firmness.Firm → is_unmarked (N.state nor).memory ≡ false
        → AreInterruptedJournals (bits_in (N.state nor))
        → IfOk result (λ map. AreFirmJournals (bits_in map)) }
    ensures store { firmness ≡ Firmness.Firm → is_unmarked (N.state nor).memory ≡ false
        → IsHalfChip (bits_in (N.state nor))
        → IfOk result (λ map. IsDoubtedStore (bits_in map)) }
    ensures fails { IfErr result (λ e. MountFails e.1 (N.state nor) (N.state e.0)) }
{
    let Some(chip) = Geometry::of(nor.bytes()) else {
        unreachable!()
    };
    let Ok(tables) = take_tables(alloc, chip) else {
        return Err((nor, MapError::OutOfMemory));
    };
    match Journal::recover_as(nor, firmness) {
        Ok(journal) => fill(SectorSlots::new(journal), tables, firmness),
        Err((nor, RecoverError::Cut)) => Err((nor, MapError::Cut)),
        Err((nor, RecoverError::Slow)) => Err((nor, MapError::Slow)),
        Err((nor, RecoverError::Corrupt)) => Err((nor, MapError::Corrupt)),
    }
}

/// Steps 4 to 10 of a mount: of slots whose journals were recovered.
fn fill<N: Nor, P: Provenance>(
    slots: SectorSlots<N>,
    tables: Tables,
    firmness: Firmness,
) -> Result<SectorMap<N, P>, (N, MapError)>
    requires firmly { P.firm ≡ true → FillsFirmly P.cuts P.slows firmness slots }
    requires ready { IsNorReady slots }
    requires table { vec_len tables.table ≡ sector_count (length slots.memory) }
    requires states { vec_len tables.states ≡ slot_count slots.memory }
    requires blocks { vec_len tables.blocks ≡ data_blocks slots.memory }
    requires healthy { IsHealthy slots.memory }
    ensures ok { IfOk result (λ map. Filled slots map) }
    ensures settled { IfOk result (λ map. IsSettledMap map.memory) }
    ensures journals { firmness ≡ Firmness.Firm → is_unmarked slots.memory ≡ false
        → AreRecoveredJournals (bits_in slots)
        → IfOk result (λ map. AreFirmJournals (bits_in map)) }
    ensures store { firmness ≡ Firmness.Firm → is_unmarked slots.memory ≡ false
        → IsHalfStore (bits_in slots) → IfOk result (λ map. IsDoubtedStore (bits_in map)) }
    ensures fails { IfErr result (λ e. FillFails e.1 slots (N.state e.0)) }
{
    let mut stock = Stock::new(slots, tables.states, tables.blocks);
    let mut table = tables.table;
    match mount_slots(&mut stock, table.as_mut_slice(), firmness) {
        Ok(true) => Ok(SectorMap {
            stock,
            table,
            latched: None,
            firmness,
            of: PhantomData,
        }),
        Ok(false) => Err((uncover(stock), MapError::Corrupt)),
        Err(NorError::Cut) => Err((uncover(stock), MapError::Cut)),
        Err(NorError::Slow) => Err((uncover(stock), MapError::Slow)),
    }
}

/// Gives the memory behind slots back.
fn uncover<N: Nor>(stock: Stock<N>) -> N
    ensures { IsBehind (⟦<Stock<N> as SlotCalls>⟧.state stock) (N.state result) }
{
    stock.into_inner().into_inner().into_inner()
}

/// The slot that holds a sector.
fn holder_of(table: &[LiveSlots], sector: u16) -> Option<Held>
    requires number { sector < length table.now }
    ensures { result ≡ holder (slice_index_or table.now sector LiveSlots.Absent) }
{
    table[sector as usize].holder()
}

/// The latched error after a restore that was cut: a Slow that was latched still does.
fn after_cut(latched: Option<NorError>) -> Option<NorError>
    ensures { result ≡ latched_after_cut latched }
{
    match latched {
        None => Some(NorError::Cut),
        Some(NorError::Cut) => Some(NorError::Cut),
        Some(NorError::Slow) => Some(NorError::Slow),
    }
}

/// Turns the power on anew, recovers the journals, and makes the table again; false if the memory
/// is corrupt, which comes after a Slow alone.
fn renew<S: Reclaim>(
    stock: &mut S,
    table: &mut [LiveSlots],
    firmness: Firmness,
) -> Result<bool, NorError>
    requires size { length table.old ≡ sector_count (length (S.state stock.old).memory) }
    ensures firmly { firmness ≡ Firmness.Firm → (S.state stock.old).is_slow ≡ false
        → HoldsFirmDisk (bits_in (S.state stock.old)) → IfOk result (λ sound. IsTrue sound
        → (layout_in (S.state stock.new).memory ≡ 2)
        × IsFirmDiskIn (bits_in (S.state stock.new)) (S.counts stock.new)) }
    ensures ok { IfOk result (λ sound. IsTrue sound
        → Renewed table.new (S.state stock.old) (S.state stock.new) (S.indexed stock.new)) }
    ensures corrupt { IfOk result (λ sound. IsFalse sound
        → RenewCorrupt (S.state stock.old) (S.state stock.new)) }
    ensures fails { IfErr result (λ e. RenewFails e (S.state stock.old) (S.state stock.new)) }
    ensures size { length table.new ≡ length table.old }
{
    match stock.restore() {
        Ok(()) => mount_slots(stock, table, firmness),
        Err(RecoverError::Cut) => Err(NorError::Cut),
        Err(RecoverError::Slow) => Err(NorError::Slow),
        Err(RecoverError::Corrupt) => Ok(false),
    }
}
