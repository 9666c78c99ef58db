//! A bus in one life of a chip that is steady.

ghost use Rattle.std.specs.Prelude.{◌≡◌, ◌-◌, ◌≤◌, true};
ghost use Rattle.chip_model.specs.Chip.{is_idle};
ghost use Rattle.restored_disk.specs.Lives.{IsNextLife, as_before, begun_at};

use crate::power::PowerCycle;
use chip_model::{PowerLost, SpiBus};
use http_server::Log;

/// A bus in one life of its chip: it counts the losses of power from where it was made, and is the
/// one inside otherwise. The chip reads as before in each life: a bus keeps its memory at each
/// `power_on`, or counts a loss.
#[derive(Drop)]
pub struct OneLife<B: SpiBus> {
    bus: B,
    begun: Log<B, ()>,
    ghost since: { begun_at B.cuts begun.items ≤ B.cuts bus },
}

impl<B: SpiBus> OneLife<B> {
    /// The bus of a life that begins now.
    pub fn new(bus: B) -> OneLife<B>
        ensures bus { result.bus ≡ bus }
        ensures cuts { ⟦<OneLife<B> as SpiBus>⟧.cuts result ≡ 0 }
    {
        let begun = Log::new().and(&bus, &());
        OneLife { bus, begun }
    }

    /// The bus inside.
    pub fn into_inner(self) -> B
        ensures { result ≡ self.bus }
    {
        let OneLife { bus, begun: _begun } = self;
        bus
    }
}

impl<B: SpiBus> SpiBus for OneLife<B> {
    ghost chip = { λ b. B.chip b.bus };

    ghost cuts = { λ b. B.cuts b.bus - begun_at B.cuts b.begun.items };

    ghost slows = { λ b. B.slows b.bus };

    ghost lawful = { λ b. B.lawful b.bus };

    fn transact(&mut self, send: &[u8], recv: &mut [u8]) -> Result<(), PowerLost> {
        self.bus.transact(send, recv)
    }

    fn power_on(&mut self) {
        self.bus.power_on();
    }

    fn arm(&mut self, count: u32, kind: u8, mask: u8) {
        self.bus.arm(count, kind, mask);
    }
}

impl<B: SpiBus> PowerCycle for OneLife<B> {
    ghost draw = { λ life. as_before };

    /// The trait's clauses, and one more: nothing is done on the bus inside.
    fn power_cycle(self, _ended: &Log<Self, ()>) -> Self
        ensures next { is_idle (B.chip self.bus).operation ≡ true
            → IsNextLife as_before (B.chip self.bus) (B.chip result.bus) }
        ensures cuts { ⟦<OneLife<B> as SpiBus>⟧.cuts result ≡ 0 }
        ensures slows { B.slows result.bus ≡ B.slows self.bus }
        ensures same { result.bus ≡ self.bus }
    {
        OneLife::new(self.into_inner())
    }
}
