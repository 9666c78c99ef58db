//! What follows from the definitions, with no work at run time. Source: own.

ghost use Rattle.erase_journal.specs.Faults.{SoundTallyHasNoFault};
ghost use Rattle.erase_journal.specs.Laws.{BlocksHaveOneSize, SameBlocksMakeOneList};
ghost use Rattle.erase_journal.specs.Laws.{MaintenanceKeepsVotes, ErasedChipsAreSettled};
ghost use Rattle.erase_journal.specs.Laws.{FirmJournalsStandEachDraw, FirmJournalsStayFirm};
ghost use Rattle.erase_journal.specs.Laws.{OneBlockIsOpen};

/// The journals are sound in one of the phases of an erase exactly where none of the cases of
/// corrupt journals holds of them.
pub fn sound_journals_have_no_fault()
    ensures { SoundTallyHasNoFault }
{}

/// Each block that a memory represents has 4,096 bytes.
pub fn blocks_have_one_size()
    ensures { BlocksHaveOneSize }
{}

/// Memories with the same data blocks, one by one, represent the same list of data blocks.
pub fn same_blocks_make_one_list()
    ensures { SameBlocksMakeOneList }
{}

/// An erase of the lowest-numbered tired journal leaves votes that last, so maintenance never takes
/// the last vote of a region.
pub fn maintenance_keeps_votes_that_last()
    ensures { MaintenanceKeepsVotes }
{}

/// At most one block has open entries exactly where any two open entries name the same block.
pub fn open_entries_name_one_block()
    ensures { OneBlockIsOpen }
{}

/// A chip that is erased but for its superblock is healthy, no erase goes on in it, and each of its
/// data blocks is erased.
pub fn erased_chips_are_settled()
    ensures { ErasedChipsAreSettled }
{}

/// A call that answers Ok leaves firm journals firm, where no erase goes on before it and after it:
/// what `firm` left stays so until the power is lost.
pub fn firm_journals_stay_firm()
    ensures { FirmJournalsStayFirm }
{}

/// Whatever the weak bits of firm journals read as after a power-on, the journals are healthy if
/// they were, and firm, and such as a firm recovery wants them.
pub fn firm_journals_stand_each_draw()
    ensures { FirmJournalsStandEachDraw }
{}
