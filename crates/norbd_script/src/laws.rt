//! The laws of a chip's life and of chips of layout 1.

ghost use Rattle.norbd_script.specs.GroupChips.{GroupChipsAreServed};
ghost use Rattle.norbd_script.specs.Lives.{CallsAreALife};
ghost use Rattle.norbd_script.specs.NextLife.{FirmLivesAreALife, SteadyLivesAreMounted};

use block_device::sectors_decide_contents;

/// Any number of calls of `run_steady` on a healthy chip are its life, where no operation was
/// slow: what each wrote is a transcript from the array which the one before it left. Between two
/// calls the power may go, and another process may begin.
pub fn mounts_make_a_life()
    ensures { CallsAreALife }
{}

/// Any number of calls of `run_mounted` on a chip whose torn bits waver, and which is fit for a
/// firm mount, are one life of an array of sectors, where no operation was slow and no mount was
/// refused.
pub fn firm_lives_make_a_life()
    ensures { FirmLivesAreALife }
{}

/// On a chip that reads as before at each power-on a call of `run_mounted` in which no operation
/// was slow speaks of the chip itself in the words of `run_steady`, so that any number of both are
/// its life (`mounts_make_a_life`), also where losses of power fall in mounts.
pub fn steady_lives_are_mounted()
    ensures { SteadyLivesAreMounted }
{}

/// A healthy and clean chip of layout 1 holds one array, that of its groups' sectors, in the words
/// of that layout alone: as it a call of `run_steady` answers, and from it a life begins.
pub fn group_chips_are_served()
    ensures { GroupChipsAreServed }
{
    sectors_decide_contents();
}
