//! A simulated chip that loses its power again in the mount behind a loss.

ghost use Rattle.std.specs.Prelude.{◌≡◌};

use chip_model::{PowerLost, SpiBus};
use chip_simulator::SimChip;
use http_server::Log;
use restored_disk::{OneLife, PowerCycle};

/// The bus of a chip in memory whose bits are steady. In the life behind the first loss the power
/// goes in the change of this number, and then no more.
#[derive(Drop)]
pub(crate) struct Unlucky {
    life: OneLife<SimChip>,
    change: u32,
}

impl Unlucky {
    /// The bus of a chip's first life.
    pub(crate) fn new(chip: SimChip, change: u32) -> Unlucky
        ensures cuts { ⟦<Unlucky as SpiBus>⟧.cuts result ≡ 0 }
        ensures slows { ⟦<Unlucky as SpiBus>⟧.slows result ≡ ⟦<SimChip as SpiBus>⟧.slows chip }
    {
        Unlucky {
            life: OneLife::new(chip),
            change,
        }
    }
}

impl SpiBus for Unlucky {
    ghost use Rattle.chip_simulator.specs.Lawful.{lawful_chip};

    ghost chip = { λ u. ⟦<OneLife<SimChip> as SpiBus>⟧.chip u.life };

    ghost cuts = { λ u. ⟦<OneLife<SimChip> as SpiBus>⟧.cuts u.life };

    ghost slows = { λ u. ⟦<OneLife<SimChip> as SpiBus>⟧.slows u.life };

    ghost lawful = { λ u. lawful_chip u.life.bus };

    fn transact(&mut self, send: &[u8], recv: &mut [u8]) -> Result<(), PowerLost> {
        self.life.transact(send, recv)
    }

    fn power_on(&mut self) {
        self.life.power_on();
    }

    fn arm(&mut self, count: u32, kind: u8, mask: u8) {
        self.life.arm(count, kind, mask);
    }
}

impl PowerCycle for Unlucky {
    ghost use Rattle.restored_disk.specs.Lives.{as_before};

    ghost draw = { λ life. as_before };

    fn power_cycle(self, _ended: &Log<Self, ()>) -> Self {
        let Unlucky { life, change } = self;
        let mut chip = life.into_inner();
        chip.arm_cut(change, 1, 0x0F);
        Unlucky {
            life: OneLife::new(chip),
            change: 0,
        }
    }
}
