//! What follows from the definitions, with no work at run time. Source: own.

ghost use Rattle.std.specs.Prelude.{◌≡◌, ℕ, List};
ghost use Rattle.sector_slots.specs.Slots.{Slot};
ghost use Rattle.sector_slots.specs.Sectors.{SectorIs};
ghost use Rattle.sector_slots.specs.Blocks.{SoundBlocksHaveNoFault};
ghost use Rattle.sector_slots.specs.Half.{LossesLeaveHalfBlocks};
ghost use Rattle.sector_slots.specs.Losses.{LossesKeepSectors, LossesLeaveHalfChips};
ghost use Rattle.sector_slots.specs.Laws.{CountedSlotsAreStored, CopiesAreExact, CopiesKeepTags};
ghost use Rattle.sector_slots.specs.Laws.{ReservesAreOne, ErasedChipsHoldZeros, GroupsAreSeen};
ghost use Rattle.sector_slots.specs.Laws.{SectorsAreSaid, MarksKeepSectors};
ghost use Rattle.sector_slots.specs.Groups.{GroupChipsAreSound};
ghost use Rattle.sector_slots.specs.Machine.{StepsKeepSectors, StepsKeepSingles, LastStepsSettle};

use erase_journal::erased_chips_are_settled;

/// A sector has at most one content, whatever the slots are.
pub fn sectors_have_one_content()
    ensures { (f : ℕ → Slot) (n g : ℕ) (x y : List ℕ) → SectorIs f n g x → SectorIs f n g y
        → x ≡ y }
{}

/// Blocks are sound exactly where none of the corrupt cases holds.
pub fn sound_blocks_have_no_fault()
    ensures { SoundBlocksHaveNoFault }
{}

/// Each step of a copying keeps the map of sectors and sound blocks.
pub fn steps_keep_sectors()
    ensures { StepsKeepSectors }
{}

/// No sector comes to have two live slots in one.
pub fn steps_keep_singles()
    ensures { StepsKeepSingles }
{}

/// The last step, and the erase of a void block, leave no copying behind.
pub fn last_steps_settle()
    ensures { LastStepsSettle }
{}

/// A slot that counts is what its bytes say.
pub fn counted_slots_are_stored()
    ensures { CountedSlotsAreStored }
{}

/// A copy into a place where nothing was programmed is exactly the copy of the slot: a live one as
/// it is, of any other nothing.
pub fn copies_are_exact()
    ensures { CopiesAreExact }
{}

/// A copy into a free place has the slot's tag, also where the place's bytes weren't erased.
pub fn copies_keep_tags()
    ensures { CopiesKeepTags }
{}

/// A memory has at most one reserve.
pub fn reserves_are_one()
    ensures { ReservesAreOne }
{}

/// A block with a group is seven slots.
pub fn groups_are_seen()
    ensures { GroupsAreSeen }
{}

/// What a sector of a mixed chip holds, in the words of the two layouts.
pub fn sectors_are_said()
    ensures { SectorsAreSaid }
{}

/// The program of byte 15 of the superblock keeps the sectors.
pub fn marks_keep_sectors()
    ensures { MarksKeepSectors }
{}

/// A chip of layout 1 that is healthy and clean in its own words is so as a mixed one.
pub fn group_chips_are_sound()
    ensures { GroupChipsAreSound }
{}

/// A chip that is erased but for its superblock is healthy and clean, and each of its sectors is
/// zeros.
pub fn erased_chips_hold_zeros()
    ensures { ErasedChipsHoldZeros }
{
    erased_chips_are_settled();
}

/// Where the power goes in a call on a store that a firm mount left, a block that was sure is one
/// of which one change was interrupted, however its weak bits read at the next power-on: if the
/// slot that is written is the lowest free one of a trusted block, one that is retired has a firm
/// newer one or holds zeros, and so on, case by case.
pub fn losses_leave_half_blocks()
    ensures { LossesLeaveHalfBlocks }
{}

/// Where the power goes in a change that keeps the sectors, or in a write of a sector, of a chip
/// that a firm mount left, each block is one of which one change was interrupted, unless an entry
/// is open for it, and the next mount finds room, however the weak bits read at the next power-on.
pub fn losses_leave_half_chips()
    ensures { LossesLeaveHalfChips }
{}

/// Nor does a loss of power in such a change lose a sector: however the weak bits read at the next
/// power-on, each holds what it held. After one in a write all are as before, or the one that was
/// written has the new content.
pub fn losses_keep_sectors()
    ensures { LossesKeepSectors }
{}
