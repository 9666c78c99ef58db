//! What follows from the model, with no work at run time. Source: own.

ghost use Rattle.chip_model.specs.Frames.{QuietCompletes};
ghost use Rattle.chip_model.specs.Wavering.{SteadyIsTheModel, WorstStandsForAll};

/// On a bus whose count of slow operations doesn't rise, a status read that comes after 65,534
/// answers of BUSY 1 finds the operation completed, and answers of the chip after it.
pub fn quiet_bus_completes_operations()
    ensures { QuietCompletes }
{}

/// A chip none of whose bits wavers is the chip that `SpiBus` speaks of.
pub fn steady_chip_is_the_model()
    ensures { SteadyIsTheModel }
{}

/// Of a loss of power that leaves bits that waver, the worst outcome stands for all: what is shown
/// of it holds of each other one.
pub fn worst_loss_stands_for_all()
    ensures { WorstStandsForAll }
{}
