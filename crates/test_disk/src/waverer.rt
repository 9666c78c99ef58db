//! A simulated chip in one life after another, whose weak bits are drawn anew at each power-on.

ghost use Rattle.std.specs.Prelude.{◌≡◌};
ghost use Rattle.chip_simulator.specs.Sim.{chip_of};
ghost use Rattle.test_disk.specs.Waverer.{AreBytes};

use chip_model::{PowerLost, SpiBus};
use chip_simulator::SimChip;
use http_server::Log;
use restored_disk::{OneLife, PowerCycle};

/// What the weak bits read as after a power-on.
const DRAW: u8 = 0x0F;

/// The bus of a chip in memory that wavers: at each power-on each weak bit of a byte reads as that
/// of `DRAW`.
#[derive(Drop)]
pub(crate) struct Waverer {
    life: OneLife<SimChip>,
}

impl Waverer {
    /// The bus of a chip's first life.
    pub(crate) fn new(chip: SimChip) -> Waverer
        ensures chip { ⟦<Waverer as SpiBus>⟧.chip result ≡ chip_of chip }
        ensures cuts { ⟦<Waverer as SpiBus>⟧.cuts result ≡ 0 }
        ensures slows { ⟦<Waverer as SpiBus>⟧.slows result ≡ ⟦<SimChip as SpiBus>⟧.slows chip }
    {
        Waverer {
            life: OneLife::new(chip),
        }
    }

    /// The chip.
    pub(crate) fn into_inner(self) -> SimChip
        ensures { result ≡ self.life.bus }
    {
        let Waverer { life } = self;
        life.into_inner()
    }
}

impl SpiBus for Waverer {
    ghost use Rattle.chip_simulator.specs.Lawful.{lawful_chip};

    ghost chip = { λ w. ⟦<OneLife<SimChip> as SpiBus>⟧.chip w.life };

    ghost cuts = { λ w. ⟦<OneLife<SimChip> as SpiBus>⟧.cuts w.life };

    ghost slows = { λ w. ⟦<OneLife<SimChip> as SpiBus>⟧.slows w.life };

    ghost lawful = { λ w. lawful_chip w.life.bus };

    fn transact(&mut self, send: &[u8], recv: &mut [u8]) -> Result<(), PowerLost> {
        self.life.transact(send, recv)
    }

    fn power_on(&mut self) {
        self.life.power_on();
    }

    fn arm(&mut self, count: u32, kind: u8, mask: u8) {
        self.life.arm(count, kind, mask);
    }
}

/// What a slice of bytes has is bytes.
fn are_bytes(bytes: &[u8])
    ensures { AreBytes bytes.now }
{}

impl PowerCycle for Waverer {
    ghost use Rattle.std.specs.Prelude.{[], ◌∷◌};
    ghost use Rattle.test_disk.specs.Waverer.{draw_of};

    ghost draw = { λ life. draw_of (15 ∷ []) };

    fn power_cycle(self, _ended: &Log<Self, ()>) -> Self {
        let mut chip = self.into_inner();
        are_bytes(chip.bytes());
        are_bytes(chip.weak());
        chip.power_cycle(&[DRAW]);
        Waverer::new(chip)
    }
}
