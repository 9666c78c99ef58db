//! The superblock of a memory: its layout (step 1 of a mount), and the mark that a chip of layout 1
//! is mixed (step 5).

ghost use Rattle.std.specs.Prelude.{◌≡◌, ◌⊎◌, false, length, Ok, OnOk, IfOk, IfErr};
ghost use Rattle.std.specs.Result.{IsErrOf};
ghost use Rattle.nor_driver.specs.State.{IsNorReady, OnlyMemoryChanges, NorFails, Refuses};
ghost use Rattle.nor_layout.specs.Layouts.{layout_of};
ghost use Rattle.erase_journal.specs.Journals.{IsHealthy};
ghost use Rattle.erase_journal.specs.Steps.{SucceedsSettled, EndsFirmly};
ghost use Rattle.sector_map.specs.Maps.{geometry_of};
ghost use Rattle.sector_map.specs.Marking.{is_unmarked, may_have_groups, Marks as MarksOf};

use chip_model::Geometry;
use nor_driver::{Nor, NorError};
use nor_layout::{Layout, SUPER_LEN, SuperError, read_layout};
use sector_slots::SlotCalls;

/// Step 1: which layout the superblock of a memory says. Nothing is changed.
pub(crate) fn look<N: Nor>(nor: &mut N) -> Result<Result<Layout, SuperError>, NorError>
    ensures ok { IfOk result (λ says. says
        ≡ layout_of (N.state nor.old).memory (geometry_of (length (N.state nor.old).memory))) }
    ensures same { (N.state nor.new).memory ≡ (N.state nor.old).memory }
    ensures ready { OnOk result (IsNorReady (N.state nor.old)) }
    ensures kept { OnOk result (OnlyMemoryChanges (N.state nor.old) (N.state nor.new)) }
    ensures fails { IfErr result (λ e. NorFails e (N.state nor.old) (N.state nor.new)) }
{
    let Some(chip) = Geometry::of(nor.bytes()) else {
        unreachable!()
    };
    let mut head = [0; SUPER_LEN];
    nor.read(0, &mut head)?;
    Ok(read_layout(&head, chip))
}

/// What bytes 8 and 15 of the superblock say of the blocks. Source: own.
#[derive(Clone, Copy, Drop)]
pub struct Marks {
    /// A block may be of a group: the chip isn't of layout 2.
    pub groups: bool,
    /// The chip is of layout 1, and doesn't say yet that it is mixed.
    pub unmarked: bool,
}

/// What the superblock says of the blocks, read through the slots, once the journals are recovered.
/// A mount has read it before, from the bare memory (`look`); a `restore` reads it here alone.
/// Nothing is changed.
pub(crate) fn read_marks<S: SlotCalls>(slots: &mut S) -> Result<Marks, NorError>
    ensures groups { IfOk result (λ marks. marks.groups
        ≡ may_have_groups (S.state slots.old).memory) }
    ensures unmarked { IfOk result (λ marks. marks.unmarked
        ≡ is_unmarked (S.state slots.old).memory) }
    ensures same { (S.state slots.new).memory ≡ (S.state slots.old).memory }
    ensures ends { EndsFirmly result (S.state slots.old) (S.state slots.new) }
{
    let mut head = [0; SUPER_LEN];
    slots.superblock(&mut head)?;
    Ok(marks_of(&head))
}

/// What these first bytes of a superblock say. Byte 8 is the layout, 1 or 2; byte 15 is FFh, and
/// FEh once a chip of layout 1 is mixed (docs/LAYOUT.md).
fn marks_of(head: &[u8]) -> Marks
    requires size { length head.now ≡ SUPER_LEN }
    ensures groups { result.groups ≡ may_have_groups head.now }
    ensures unmarked { result.unmarked ≡ is_unmarked head.now }
{
    Marks {
        groups: head[8] != 2,
        unmarked: head[8] == 1 && head[15] == 0xFF,
    }
}

/// Step 5: programs the mark of a mixed chip into the superblock of one of layout 1 that isn't
/// mixed yet. It comes before any change of a block.
pub(crate) fn mark_first<S: SlotCalls>(slots: &mut S, unmarked: bool) -> Result<(), NorError>
    requires unmarked { unmarked ≡ is_unmarked (S.state slots.old).memory }
    ensures ok { OnOk result (MarksOf (S.state slots.old).memory (S.state slots.new).memory) }
    ensures cut { IsErrOf result NorError.Cut
        → ((S.state slots.new).memory ≡ (S.state slots.old).memory)
        ⊎ MarksOf (S.state slots.old).memory (S.state slots.new).memory }
    ensures healthy { IsErrOf result NorError.Cut → IsHealthy (S.state slots.old).memory
        → IsHealthy (S.state slots.new).memory }
    ensures left { unmarked ≡ false → S.state slots.new ≡ S.state slots.old }
    ensures size { length (S.state slots.new).memory ≡ length (S.state slots.old).memory }
    ensures done { OnOk result ((S.state slots.new ≡ S.state slots.old)
        ⊎ SucceedsSettled (S.state slots.old) (S.state slots.new)) }
    ensures fails { IfErr result (λ e. Refuses e (S.state slots.old) (S.state slots.new)) }
{
    if unmarked {
        slots.mark()?;
    }
    Ok(())
}
