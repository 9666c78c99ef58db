//! A block is copied into the reserve, and then erased.

ghost use Rattle.std.specs.Prelude.{◌≡◌, ◌≢◌, ◌<◌, ℕ, Bool, true, false, length, OnOk};
ghost use Rattle.std.specs.Result.{IsErrOf};
ghost use Rattle.nor_driver.specs.State.{IsNorReady, bits_in};
ghost use Rattle.erase_journal.specs.Journals.{IsHealthy};
ghost use Rattle.erase_journal.specs.Steps.{EndsFirmly};
ghost use Rattle.sector_slots.specs.Slots.{data_blocks, IsSpareIn};
ghost use Rattle.sector_slots.specs.Sectors.{IsSoundMap};
ghost use Rattle.sector_slots.specs.Losses.{HasWholeSources, IsFirmDisk};
ghost use Rattle.sector_slots.specs.Weak.{IsWhollyFirm};
ghost use Rattle.sector_stock.specs.Copy.{KeepsSectors, Stays, IsCopyable, IsFinished, Copies};
ghost use Rattle.sector_stock.specs.Copy.{IsFresh, MovesAfresh};
ghost use Rattle.sector_stock.specs.Copy.{EndsCopy, EndsVoid, IsVoidIn, IsCommittedIn, OthersStay};
ghost use Rattle.sector_stock.specs.Copy.{SettlesCopy, OnlySettles};
ghost use Rattle.sector_stock.specs.CopySteps.{IsCopiedTo, IsExactTo, CopyProgress, Finishes};
ghost use Rattle.sector_stock.specs.CopySteps.{FinishLeaves};
ghost use Rattle.sector_stock.specs.Losses.{LosesNothing};

use nor_driver::NorError;
use sector_slots::SlotCalls;

/// Copies the live slots of a block into a wholly free one, erases the block, and settles the copy.
/// Cut, it leaves slots and blocks that a mount accepts; and where what read as free was erased,
/// the map of sectors as it was.
pub(crate) fn reclaim_into<S: SlotCalls>(
    slots: &mut S,
    source: u16,
    target: u16,
) -> Result<(), NorError>
    requires source { source < data_blocks (S.state slots.old).memory }
    requires target { target < data_blocks (S.state slots.old).memory }
    requires copyable { IsNorReady (S.state slots.old)
        → IsCopyable source target (S.state slots.old).memory }
    ensures ok { OnOk result (IsCopyable source target (S.state slots.old).memory
        → Copies source target (S.state slots.old).memory (S.state slots.new).memory) }
    ensures firm { OnOk result (IsWhollyFirm (S.state slots.new).weak source) }
    ensures others { OnOk result (IsCopyable source target (S.state slots.old).memory
        → OthersStay source target (S.state slots.old).memory (S.state slots.new).memory) }
    ensures cut { IsErrOf result NorError.Cut → IsHealthy (S.state slots.old).memory
        → IsCopyable source target (S.state slots.old).memory
        → Stays (S.state slots.old).memory (S.state slots.new).memory }
    ensures cut_fresh { IsErrOf result NorError.Cut → IsHealthy (S.state slots.old).memory
        → IsCopyable source target (S.state slots.old).memory
        → IsFresh target (S.state slots.old).memory
        → KeepsSectors (S.state slots.old).memory (S.state slots.new).memory }
    ensures cut_bits { IsErrOf result NorError.Cut → (suspects : ℕ → Bool)
        → IsFirmDisk (bits_in (S.state slots.old)) suspects → suspects target ≡ false
        → IsCopyable source target (S.state slots.old).memory
        → (IsSpareIn (S.state slots.old).memory source → ⊥)
        → LosesNothing (S.state slots.old).memory (bits_in (S.state slots.new)) }
    ensures healthy { IsErrOf result NorError.Cut → IsHealthy (S.state slots.old).memory
        → IsHealthy (S.state slots.new).memory }
    ensures size { length (S.state slots.new).memory ≡ length (S.state slots.old).memory }
    ensures ends { EndsFirmly result (S.state slots.old) (S.state slots.new) }
{
    copy_all(slots, source, target)?;
    finish(slots, source, target)?;
    Ok(())
}

/// Erases a wholly free block, and copies the live slots of another one into it. Whatever the free
/// block held, no sector changes, whole or cut.
pub fn move_afresh<S: SlotCalls>(slots: &mut S, source: u16, target: u16) -> Result<(), NorError>
    requires source { source < data_blocks (S.state slots.old).memory }
    requires target { target < data_blocks (S.state slots.old).memory }
    requires copyable { IsNorReady (S.state slots.old)
        → IsCopyable source target (S.state slots.old).memory }
    ensures ok { OnOk result (IsCopyable source target (S.state slots.old).memory
        → MovesAfresh source target (S.state slots.old).memory (S.state slots.new).memory) }
    ensures firm { OnOk result (IsWhollyFirm (S.state slots.new).weak source) }
    ensures target { OnOk result (IsWhollyFirm (S.state slots.new).weak target) }
    ensures others { OnOk result (IsCopyable source target (S.state slots.old).memory
        → OthersStay source target (S.state slots.old).memory (S.state slots.new).memory) }
    ensures cut { IsErrOf result NorError.Cut → IsHealthy (S.state slots.old).memory
        → IsCopyable source target (S.state slots.old).memory
        → KeepsSectors (S.state slots.old).memory (S.state slots.new).memory }
    ensures cut_bits { IsErrOf result NorError.Cut → (suspects : ℕ → Bool)
        → IsFirmDisk (bits_in (S.state slots.old)) suspects
        → IsCopyable source target (S.state slots.old).memory
        → (IsSpareIn (S.state slots.old).memory source → ⊥)
        → LosesNothing (S.state slots.old).memory (bits_in (S.state slots.new)) }
    ensures healthy { IsErrOf result NorError.Cut → IsHealthy (S.state slots.old).memory
        → IsHealthy (S.state slots.new).memory }
    ensures size { length (S.state slots.new).memory ≡ length (S.state slots.old).memory }
    ensures ends { EndsFirmly result (S.state slots.old) (S.state slots.new) }
{
    slots.erase(target)?;
    reclaim_into(slots, source, target)?;
    Ok(())
}

/// Copies the live slots of a block into a wholly free one, and erases that first where what reads
/// as free in it is suspect. Cut, it leaves what `reclaim_into` does.
pub(crate) fn copy_into<S: SlotCalls>(
    slots: &mut S,
    source: u16,
    target: u16,
    suspect: bool,
) -> Result<(), NorError>
    requires source { source < data_blocks (S.state slots.old).memory }
    requires target { target < data_blocks (S.state slots.old).memory }
    requires copyable { IsNorReady (S.state slots.old)
        → IsCopyable source target (S.state slots.old).memory }
    ensures ok { OnOk result (IsCopyable source target (S.state slots.old).memory
        → Copies source target (S.state slots.old).memory (S.state slots.new).memory) }
    ensures firm { OnOk result (IsWhollyFirm (S.state slots.new).weak source) }
    ensures target { suspect ≡ true → OnOk result (IsWhollyFirm (S.state slots.new).weak target) }
    ensures cut { IsErrOf result NorError.Cut → IsHealthy (S.state slots.old).memory
        → IsCopyable source target (S.state slots.old).memory
        → Stays (S.state slots.old).memory (S.state slots.new).memory }
    ensures cut_bits { IsErrOf result NorError.Cut → (suspects : ℕ → Bool)
        → IsFirmDisk (bits_in (S.state slots.old)) suspects
        → (suspect ≡ false → suspects target ≡ false)
        → IsCopyable source target (S.state slots.old).memory
        → (IsSpareIn (S.state slots.old).memory source → ⊥)
        → LosesNothing (S.state slots.old).memory (bits_in (S.state slots.new)) }
    ensures healthy { IsErrOf result NorError.Cut → IsHealthy (S.state slots.old).memory
        → IsHealthy (S.state slots.new).memory }
    ensures size { length (S.state slots.new).memory ≡ length (S.state slots.old).memory }
    ensures ends { EndsFirmly result (S.state slots.old) (S.state slots.new) }
{
    if suspect {
        move_afresh(slots, source, target)
    } else {
        reclaim_into(slots, source, target)
    }
}

/// Begins a copy, and copies the seven slots.
fn copy_all<S: SlotCalls>(slots: &mut S, source: u16, target: u16) -> Result<(), NorError>
    requires source { source < data_blocks (S.state slots.old).memory }
    requires target { target < data_blocks (S.state slots.old).memory }
    ensures ok { OnOk result (IsCopyable source target (S.state slots.old).memory
        → CopyProgress 7 source target (S.state slots.old).memory (S.state slots.new).memory) }
    ensures cut { IsErrOf result NorError.Cut → IsCopyable source target (S.state slots.old).memory
        → Stays (S.state slots.old).memory (S.state slots.new).memory }
    ensures cut_fresh { IsErrOf result NorError.Cut
        → IsCopyable source target (S.state slots.old).memory
        → KeepsSectors (S.state slots.old).memory (S.state slots.new).memory }
    ensures cut_bits { IsErrOf result NorError.Cut → (suspects : ℕ → Bool)
        → IsFirmDisk (bits_in (S.state slots.old)) suspects → suspects target ≡ false
        → IsCopyable source target (S.state slots.old).memory
        → LosesNothing (S.state slots.old).memory (bits_in (S.state slots.new)) }
    ensures healthy { IsErrOf result NorError.Cut → IsHealthy (S.state slots.old).memory
        → IsHealthy (S.state slots.new).memory }
    ensures size { length (S.state slots.new).memory ≡ length (S.state slots.old).memory }
    ensures ends { EndsFirmly result (S.state slots.old) (S.state slots.new) }
{
    slots.begin(target, source)?;
    for place in 0..7u16 {
        slots.copy(target, place)?;
    }
    Ok(())
}

/// Commits a whole copy, erases its source, and settles it.
fn finish<S: SlotCalls>(slots: &mut S, source: u16, target: u16) -> Result<(), NorError>
    requires source { source < data_blocks (S.state slots.old).memory }
    requires target { target < data_blocks (S.state slots.old).memory }
    requires copied { IsNorReady (S.state slots.old)
        → IsCopiedTo 7 source target (S.state slots.old).memory }
    ensures ok { OnOk result (IsCopiedTo 7 source target (S.state slots.old).memory
        → Finishes source target (S.state slots.old).memory (S.state slots.new).memory) }
    ensures firm { OnOk result (IsWhollyFirm (S.state slots.new).weak source) }
    ensures cut { IsErrOf result NorError.Cut
        → IsCopiedTo 7 source target (S.state slots.old).memory
        → FinishLeaves source target (S.state slots.old).memory (S.state slots.new).memory }
    ensures cut_bits { IsErrOf result NorError.Cut → (suspects : ℕ → Bool)
        → IsFirmDisk (bits_in (S.state slots.old)) suspects
        → IsCopiedTo 7 source target (S.state slots.old).memory
        → IsExactTo 7 source target (S.state slots.old).memory
        → (IsSpareIn (S.state slots.old).memory source → ⊥)
        → LosesNothing (S.state slots.old).memory (bits_in (S.state slots.new)) }
    ensures healthy { IsErrOf result NorError.Cut → IsHealthy (S.state slots.old).memory
        → IsHealthy (S.state slots.new).memory }
    ensures size { length (S.state slots.new).memory ≡ length (S.state slots.old).memory }
    ensures ends { EndsFirmly result (S.state slots.old) (S.state slots.new) }
{
    slots.commit(target)?;
    end_committed(slots, source, target)?;
    Ok(())
}
/// Ends a copying that was interrupted before its commit, whatever goes on beside it: the void
/// block is erased. Cut, it leaves the map of sectors as it was.
pub fn end_void<S: SlotCalls>(slots: &mut S, target: u16) -> Result<(), NorError>
    requires target { target < data_blocks (S.state slots.old).memory }
    requires void { IsNorReady (S.state slots.old) → IsVoidIn target (S.state slots.old).memory }
    ensures ok { OnOk result (IsVoidIn target (S.state slots.old).memory
        → IsSoundMap (S.state slots.old).memory
        → EndsVoid target (S.state slots.old).memory (S.state slots.new).memory) }
    ensures firm { OnOk result (IsWhollyFirm (S.state slots.new).weak target) }
    ensures cut { IsErrOf result NorError.Cut → IsHealthy (S.state slots.old).memory
        → IsVoidIn target (S.state slots.old).memory
        → KeepsSectors (S.state slots.old).memory (S.state slots.new).memory }
    ensures healthy { IsErrOf result NorError.Cut → IsHealthy (S.state slots.old).memory
        → IsHealthy (S.state slots.new).memory }
    ensures size { length (S.state slots.new).memory ≡ length (S.state slots.old).memory }
    ensures ends { EndsFirmly result (S.state slots.old) (S.state slots.new) }
{
    slots.erase(target)?;
    Ok(())
}

/// Ends a copying that was interrupted after its commit: the source is erased, and the copy
/// settled.
pub fn end_committed<S: SlotCalls>(slots: &mut S, source: u16, target: u16) -> Result<(), NorError>
    requires source { source < data_blocks (S.state slots.old).memory }
    requires target { target < data_blocks (S.state slots.old).memory }
    requires committed { IsNorReady (S.state slots.old)
        → IsCommittedIn source target (S.state slots.old).memory }
    ensures ok { OnOk result (IsCommittedIn source target (S.state slots.old).memory
        → EndsCopy (S.state slots.old).memory (S.state slots.new).memory) }
    ensures exact { OnOk result (IsCommittedIn source target (S.state slots.old).memory
        → IsFinished source target (S.state slots.old).memory (S.state slots.new).memory) }
    ensures firm { OnOk result (IsWhollyFirm (S.state slots.new).weak source) }
    ensures settles { OnOk result (source ≢ target → SettlesCopy target
        (bits_in (S.state slots.old)) (bits_in (S.state slots.new))) }
    ensures cut { IsErrOf result NorError.Cut → IsHealthy (S.state slots.old).memory
        → IsCommittedIn source target (S.state slots.old).memory
        → KeepsSectors (S.state slots.old).memory (S.state slots.new).memory }
    ensures cut_bits { IsErrOf result NorError.Cut → (suspects : ℕ → Bool)
        → IsFirmDisk (bits_in (S.state slots.old)) suspects
        → IsCommittedIn source target (S.state slots.old).memory
        → HasWholeSources (S.state slots.old).memory
        → LosesNothing (S.state slots.old).memory (bits_in (S.state slots.new)) }
    ensures healthy { IsErrOf result NorError.Cut → IsHealthy (S.state slots.old).memory
        → IsHealthy (S.state slots.new).memory }
    ensures size { length (S.state slots.new).memory ≡ length (S.state slots.old).memory }
    ensures ends { EndsFirmly result (S.state slots.old) (S.state slots.new) }
{
    slots.erase(source)?;
    slots.settle(target)?;
    Ok(())
}

/// The same where the source is already wholly free: the copy is settled.
pub fn end_erased<S: SlotCalls>(slots: &mut S, source: u16, target: u16) -> Result<(), NorError>
    requires source { source < data_blocks (S.state slots.old).memory }
    requires target { target < data_blocks (S.state slots.old).memory }
    ensures ok { OnOk result (IsCommittedIn source target (S.state slots.old).memory
        → IsSpareIn (S.state slots.old).memory source
        → EndsCopy (S.state slots.old).memory (S.state slots.new).memory) }
    ensures settles { OnOk result (SettlesCopy target (bits_in (S.state slots.old))
        (bits_in (S.state slots.new))) }
    ensures alone { OnOk result (IsCommittedIn source target (S.state slots.old).memory
        → OnlySettles target (S.state slots.old).memory (S.state slots.new).memory) }
    ensures cut { IsErrOf result NorError.Cut
        → IsCommittedIn source target (S.state slots.old).memory
        → IsSpareIn (S.state slots.old).memory source
        → KeepsSectors (S.state slots.old).memory (S.state slots.new).memory }
    ensures healthy { IsErrOf result NorError.Cut → IsHealthy (S.state slots.old).memory
        → IsHealthy (S.state slots.new).memory }
    ensures size { length (S.state slots.new).memory ≡ length (S.state slots.old).memory }
    ensures ends { EndsFirmly result (S.state slots.old) (S.state slots.new) }
{
    slots.settle(target)?;
    Ok(())
}
