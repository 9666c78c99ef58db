//! A bus that counts the erases of the one inside.

ghost use Rattle.std.specs.Prelude.{◌≡◌};

use crate::wear::Wear;
use chip_model::{PowerLost, SpiBus};
use std::alloc::Global;
use std::sync::Arc;

/// A bus that counts the erases which the chip on another bus takes, where that is asked. It is
/// that bus otherwise: its chip, its cuts and its slow operations are those inside.
#[derive(Drop)]
pub struct CountedBus<B> {
    bus: B,
    wear: Option<Arc<Wear, Global>>,
}

impl<B: SpiBus> CountedBus<B> {
    /// The bus of a chip of so many blocks of 4,096 bytes.
    pub fn new(bus: B, wear: Option<Arc<Wear, Global>>, blocks: u32) -> CountedBus<B>
        ensures { result.bus ≡ bus }
    {
        if let Some(wear) = &wear {
            wear.begin(blocks);
        }
        CountedBus { bus, wear }
    }

    /// The bus inside.
    pub fn get_ref(&self) -> &B
        ensures { result.now ≡ self.now.bus }
    {
        &self.bus
    }
}

impl<B: SpiBus> SpiBus for CountedBus<B> {
    ghost chip = { λ c. B.chip c.bus };

    ghost cuts = { λ c. B.cuts c.bus };

    ghost slows = { λ c. B.slows c.bus };

    ghost lawful = { λ c. B.lawful c.bus };

    fn transact(&mut self, send: &[u8], recv: &mut [u8]) -> Result<(), PowerLost> {
        let result = self.bus.transact(send, recv);
        if let (Ok(()), Some(wear)) = (&result, &self.wear) {
            wear.count(send);
        }
        result
    }

    fn power_on(&mut self) {
        self.bus.power_on();
    }

    fn arm(&mut self, count: u32, kind: u8, mask: u8) {
        self.bus.arm(count, kind, mask);
    }
}
