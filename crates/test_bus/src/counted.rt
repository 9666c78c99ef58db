//! A bus whose chip is proved to be the model.

use chip_model::{PowerLost, SpiBus};
use std::cell::Cell;

/// A bus that counts the frames of another one.
#[derive(Drop)]
pub struct Counted<'c, B> {
    pub bus: B,
    pub frames: &'c Cell<u64>,
}

impl<B: SpiBus> SpiBus for Counted<'_, B> {
    // Its chip is the other bus's.
    ghost chip = { λ c. B.chip c.bus };

    ghost cuts = { λ c. B.cuts c.bus };

    ghost slows = { λ c. B.slows c.bus };

    ghost lawful = { λ c. B.lawful c.bus };

    fn transact(&mut self, send: &[u8], recv: &mut [u8]) -> Result<(), PowerLost> {
        self.frames.set(self.frames.get().saturating_add(1));
        self.bus.transact(send, recv)
    }

    fn power_on(&mut self) {
        self.bus.power_on();
    }

    fn arm(&mut self, count: u32, kind: u8, mask: u8) {
        self.bus.arm(count, kind, mask);
    }
}
