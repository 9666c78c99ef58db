//! When an armed cut comes.

ghost use Rattle.std.specs.Prelude.{◌≡◌, ◌==◌, ◌||◌};

/// When and how the power goes.
#[derive(Clone, Copy)]
pub struct Plan {
    /// How many frames that count are left; 0 where no cut is armed.
    pub armed: u32,
    /// 0 where every frame counts.
    pub kind: u8,
    pub mask: u8,
}

impl Plan {
    ghost use Rattle.chip_simulator.specs.Plan.{one_frame_less, counts_frame, strikes};
    ghost use Rattle.chip_simulator.specs.Sim.{armed_in};

    /// Counts a frame, and whether it is the one that was armed.
    pub(crate) fn strikes(&mut self, accepted: bool) -> bool
        ensures strikes { result ≡ strikes (armed_in self.old) accepted }
        ensures one_frame_less { armed_in self.new ≡ one_frame_less (armed_in self.old) accepted }
    {
        let counts = self.kind == 0 || accepted;
        if !counts {
            return false;
        }
        let strikes = self.armed == 1;
        self.armed = self.armed.saturating_sub(1);
        strikes
    }
}
