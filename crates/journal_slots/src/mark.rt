//! The kind of a block over a journal: read, and programmed step by step; and a block's erase.

ghost use Rattle.std.specs.Prelude.{◌≡◌, ◌⊎◌, ◌+◌, ◌<◌, ◌∷◌, [], ℕ, length, OnOk, IfOk};
ghost use Rattle.std.specs.Int.{bit_at};
ghost use Rattle.std.specs.Result.{IsErrOf};
ghost use Rattle.chip_model.specs.Geometry.{IsChipSize};
ghost use Rattle.chip_model.specs.Memory.{byte};
ghost use Rattle.nor_layout.specs.Kinds.{kind_of};
ghost use Rattle.nor_layout.specs.declared.header.Tag.{Tag as TagOf};
ghost use Rattle.erase_journal.specs.Blocks.{SameChip, OnlyBlock, WithErased};
ghost use Rattle.erase_journal.specs.Journals.{IsHealthy, IsSettled, unused};
ghost use Rattle.erase_journal.specs.Spending.{Spends};
ghost use Rattle.erase_journal.specs.Steps.{EraseInterrupted, EndsFirmly};
ghost use Rattle.erase_journal.specs.Torn.{BlockInterrupted, OpensOnly, SameBeside};
ghost use Rattle.erase_journal.specs.Weak.{AreFirmJournals};
ghost use Rattle.nor_driver.specs.State.{bits_in};
ghost use Rattle.sector_slots.specs.Slots.{data_blocks, data_block, kind_at};
ghost use Rattle.sector_slots.specs.Steps.{OnlyMark, IsBegun};
ghost use Rattle.sector_slots.specs.Firm.{SameStates};
ghost use Rattle.sector_slots.specs.Torn.{BeginInterrupted, StateInterrupted};
ghost use Rattle.sector_slots.specs.Weak.{IsWhollyFirm, mark_place};

use erase_journal::Journal;
use nor_driver::{Nor, NorError};
use nor_layout::{COMMITTED, FIRST_DATA_BLOCK, Kind, MARK_LEN, RETIRED, SETTLED, block_kind};

/// What the first eight bytes of a block say of it.
pub(crate) fn read_kind<N: Nor>(journal: &mut Journal<N>, block: u16) -> Result<Kind, NorError>
    requires number { block < data_blocks journal.old.memory }
    requires sized { IsChipSize (length journal.old.memory) }
    ensures ok { IfOk result (λ kind. kind ≡ kind_at journal.old.memory block) }
    ensures same { journal.new.memory ≡ journal.old.memory }
    ensures weak { journal.new.weak ≡ journal.old.weak }
    ensures ends { EndsFirmly result journal.old journal.new }
{
    let mut mark = [0; MARK_LEN];
    journal.read(block + FIRST_DATA_BLOCK, 0, &mut mark)?;
    Ok(block_kind(mark))
}

/// Programs a mark that is begun, and names this source.
pub(crate) fn program_mark<N: Nor>(
    journal: &mut Journal<N>,
    target: u16,
    source: u16,
    mark: &[u8],
) -> Result<(), NorError>
    requires target { target < data_blocks journal.old.memory }
    requires sized { IsChipSize (length journal.old.memory) }
    requires mark { length mark.now ≡ 4 }
    requires begun { byte mark.now 0 ≡ 254 }
    requires names { kind_of (255 ∷ 255 ∷ 255 ∷ 255 ∷ 252 ∷ byte mark.now 1 ∷ byte mark.now 2
        ∷ byte mark.now 3 ∷ []) ≡ Kind.Committed (source + 4) }
    ensures ok { OnOk result (kind_at journal.old.memory target ≡ Kind.Plain
        → IsBegun target source journal.new.memory) }
    ensures cut { IsErrOf result NorError.Cut → kind_at journal.old.memory target ≡ Kind.Plain
        → (data_block journal.new.memory target ≡ data_block journal.old.memory target)
        ⊎ (kind_at journal.new.memory target ≡ Kind.Void) }
    ensures only { OnOk result (OnlyMark target journal.old.memory journal.new.memory) }
    ensures cut_only { IsErrOf result NorError.Cut
        → OnlyMark target journal.old.memory journal.new.memory }
    ensures chip { SameChip journal.old.memory journal.new.memory }
    ensures cut_bits { IsErrOf result NorError.Cut → BeginInterrupted target
        (bits_in journal.old) (bits_in journal.new) }
    ensures healthy { IsErrOf result NorError.Cut → IsHealthy journal.old.memory
        → IsHealthy journal.new.memory }
    ensures ends { EndsFirmly result journal.old journal.new }
{
    journal.program(target + FIRST_DATA_BLOCK, 4, mark)?;
    Ok(())
}

/// Makes a void block the committed copy of the block that it names.
pub(crate) fn commit_mark<N: Nor>(journal: &mut Journal<N>, target: u16) -> Result<(), NorError>
    requires target { target < data_blocks journal.old.memory }
    requires sized { IsChipSize (length journal.old.memory) }
    ensures ok { OnOk result ((source : ℕ) → IsBegun target source journal.old.memory
        → kind_at journal.new.memory target ≡ Kind.Committed (source + 4)) }
    ensures cut { IsErrOf result NorError.Cut → (source : ℕ)
        → IsBegun target source journal.old.memory
        → (kind_at journal.new.memory target ≡ Kind.Void)
        ⊎ (kind_at journal.new.memory target ≡ Kind.Committed (source + 4)) }
    ensures only { OnOk result (OnlyMark target journal.old.memory journal.new.memory) }
    ensures cut_only { IsErrOf result NorError.Cut
        → OnlyMark target journal.old.memory journal.new.memory }
    ensures chip { SameChip journal.old.memory journal.new.memory }
    ensures cut_bits { IsErrOf result NorError.Cut → StateInterrupted (mark_place target)
        COMMITTED (bits_in journal.old) (bits_in journal.new) }
    ensures healthy { IsErrOf result NorError.Cut → IsHealthy journal.old.memory
        → IsHealthy journal.new.memory }
    ensures ends { EndsFirmly result journal.old journal.new }
{
    journal.program(target + FIRST_DATA_BLOCK, 4, &[COMMITTED])?;
    Ok(())
}

/// Makes a committed block settled.
pub(crate) fn settle_mark<N: Nor>(journal: &mut Journal<N>, target: u16) -> Result<(), NorError>
    requires target { target < data_blocks journal.old.memory }
    requires sized { IsChipSize (length journal.old.memory) }
    ensures ok { OnOk result ((source : ℕ)
        → kind_at journal.old.memory target ≡ Kind.Committed source
        → kind_at journal.new.memory target ≡ Kind.Settled) }
    ensures states { OnOk result (SameStates target journal.old.memory journal.new.memory) }
    ensures third { OnOk result (bit_at (byte journal.new.weak (mark_place target)) 2 ≡ 0) }
    ensures cut { IsErrOf result NorError.Cut → (source : ℕ)
        → kind_at journal.old.memory target ≡ Kind.Committed source
        → (kind_at journal.new.memory target ≡ Kind.Committed source)
        ⊎ (kind_at journal.new.memory target ≡ Kind.Settled) }
    ensures only { OnOk result (OnlyMark target journal.old.memory journal.new.memory) }
    ensures cut_only { IsErrOf result NorError.Cut
        → OnlyMark target journal.old.memory journal.new.memory }
    ensures chip { SameChip journal.old.memory journal.new.memory }
    ensures cut_bits { IsErrOf result NorError.Cut → StateInterrupted (mark_place target)
        SETTLED (bits_in journal.old) (bits_in journal.new) }
    ensures healthy { IsErrOf result NorError.Cut → IsHealthy journal.old.memory
        → IsHealthy journal.new.memory }
    ensures ends { EndsFirmly result journal.old journal.new }
{
    journal.program(target + FIRST_DATA_BLOCK, 4, &[SETTLED])?;
    Ok(())
}

/// Makes a live block of a group dead.
pub(crate) fn retire_header<N: Nor>(journal: &mut Journal<N>, block: u16) -> Result<(), NorError>
    requires number { block < data_blocks journal.old.memory }
    requires sized { IsChipSize (length journal.old.memory) }
    ensures ok { OnOk result ((group : TagOf)
        → kind_at journal.old.memory block ≡ Kind.Group group
        → kind_at journal.new.memory block ≡ Kind.DeadGroup) }
    ensures cut { IsErrOf result NorError.Cut → (group : TagOf)
        → kind_at journal.old.memory block ≡ Kind.Group group
        → (data_block journal.new.memory block ≡ data_block journal.old.memory block)
        ⊎ (kind_at journal.new.memory block ≡ Kind.DeadGroup) }
    ensures only { OnlyBlock (block + 4) journal.old.memory journal.new.memory }
    ensures healthy { IsErrOf result NorError.Cut → IsHealthy journal.old.memory
        → IsHealthy journal.new.memory }
    ensures ends { EndsFirmly result journal.old journal.new }
{
    journal.program(block + FIRST_DATA_BLOCK, 0, &[RETIRED])?;
    Ok(())
}

/// Erases a data block in one step.
pub(crate) fn erase_data<N: Nor>(journal: &mut Journal<N>, block: u16) -> Result<(), NorError>
    requires number { block < data_blocks journal.old.memory }
    requires sized { IsChipSize (length journal.old.memory) }
    ensures ok { OnOk result (WithErased (block + 4) journal.old.memory journal.new.memory) }
    ensures firm { OnOk result (IsWhollyFirm journal.new.weak block) }
    ensures cut { IsErrOf result NorError.Cut → IsHealthy journal.old.memory
        → EraseInterrupted (block + 4) journal.old.memory journal.new.memory }
    ensures beside { SameBeside (block + 4) (bits_in journal.old) (bits_in journal.new) }
    ensures cut_bits { IsErrOf result NorError.Cut → IsSettled journal.old.memory
        → AreFirmJournals (bits_in journal.old) → BlockInterrupted (block + 4)
        (bits_in journal.old) (bits_in journal.new) }
    ensures opens { IsErrOf result NorError.Cut → IsSettled journal.old.memory
        → AreFirmJournals (bits_in journal.old) → OpensOnly (block + 4) (bits_in journal.new) }
    ensures healthy { IsErrOf result NorError.Cut → IsHealthy journal.old.memory
        → IsHealthy journal.new.memory }
    ensures spends { OnOk result (Spends (unused journal.old.memory) (unused journal.new.memory)) }
    ensures size { length journal.new.memory ≡ length journal.old.memory }
    ensures ends { EndsFirmly result journal.old journal.new }
{
    journal.erase(block + FIRST_DATA_BLOCK)?;
    Ok(())
}
