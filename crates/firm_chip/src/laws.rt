//! What follows for a firm chip, with no work at run time.

ghost use Rattle.firm_chip.specs.Draws.{EachDrawIsTheSameDisk, FirmJournalsAreOfFirmChips};
ghost use Rattle.firm_chip.specs.Fit.{LossesLeaveFitChips};
ghost use Rattle.firm_chip.specs.Losses.{CompletedAreDrawnThenDone, LossesAreDrawnThenTorn};
ghost use Rattle.firm_chip.specs.Losses.{LossesAreTornThenDrawn, LossesLeaveSteadyDisks};
ghost use Rattle.firm_chip.specs.Stores.{DoubtedStoresAreHalfAtEachDraw};
ghost use Rattle.firm_chip.specs.Stores.{EachDrawOfADoubtedStoreIsTheSameDisk};

/// Whatever the weak bits of a firm chip read as, it is the same disk.
pub fn each_draw_is_the_same_disk()
    ensures { EachDrawIsTheSameDisk }
{}

/// What a firm mount leaves of the journals is what a firm chip has of them.
pub fn firm_journals_are_of_firm_chips()
    ensures { FirmJournalsAreOfFirmChips }
{}

/// A loss on a chip whose bits waver reads as a draw of one on a chip whose bits are steady.
pub fn losses_are_torn_then_drawn()
    ensures { LossesAreTornThenDrawn }
{}

/// Such a loss reads as one of a steady chip that reads as a draw of the chip before. So what a
/// loss of an operation leaves of each draw holds of each draw after it.
pub fn losses_are_drawn_then_torn()
    ensures { LossesAreDrawnThenTorn }
{}

/// Once an operation has completed, each draw is what the operation makes of a draw of before. So
/// what it makes of each draw holds of each draw after it.
pub fn completed_are_drawn_then_done()
    ensures { CompletedAreDrawnThenDone }
{}

/// A loss reads as one of the disks that it leaves of a steady chip, where these are firm by the
/// weak bits of before.
pub fn losses_leave_steady_disks()
    ensures { LossesLeaveSteadyDisks }
{}

/// What a firm mount leaves reads as the same disk at each later power-on, while no call goes on.
pub fn each_draw_of_a_doubted_store_is_the_same_disk()
    ensures { EachDrawOfADoubtedStoreIsTheSameDisk }
{}

/// What a firm mount leaves of data blocks is, at each later power-on, what the next one needs.
pub fn doubted_stores_are_half_at_each_draw()
    ensures { DoubtedStoresAreHalfAtEachDraw }
{}

/// Where the power goes in a change of a firm disk, the chip is fit for the next firm mount,
/// whatever its weak bits read as then.
pub fn losses_leave_fit_chips()
    ensures { LossesLeaveFitChips }
{}
