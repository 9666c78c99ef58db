//! A simulated chip, and the frames that were sent to it.

ghost use Rattle.std.specs.Prelude.{◌≡◌};

use chip_model::{PowerLost, SpiBus};
use chip_simulator::SimChip;

/// A bus that counts its frames, also those that are lost, and keeps the codes of the first
/// sixteen.
#[derive(Drop)]
pub(crate) struct Recorder {
    inner: SimChip,
    codes: [u8; 16],
    frames: u32,
}

impl Recorder {
    /// A chip of whose frames none was sent yet.
    pub(crate) fn new(inner: SimChip) -> Recorder
        ensures frames { result.frames ≡ 0 }
        ensures chip { result.inner ≡ inner }
    {
        Recorder {
            inner,
            codes: [0; 16],
            frames: 0,
        }
    }

    /// The codes of the first sixteen frames, 00h where there was none.
    pub(crate) fn codes(&self) -> &[u8]
        ensures { result.now ≡ self.now.codes }
    {
        &self.codes
    }

    /// How many frames were sent, at most 2^32 - 1.
    pub(crate) fn frames(&self) -> u32
        ensures { result ≡ self.now.frames }
    {
        self.frames
    }

    /// Forgets the frames that were sent.
    pub(crate) fn forget(&mut self) {
        self.codes = [0; 16];
        self.frames = 0;
    }

    /// The chip itself.
    pub(crate) fn chip(&mut self) -> &mut SimChip {
        &mut self.inner
    }

    /// The chip's memory.
    pub(crate) fn bytes(&self) -> &[u8] {
        self.inner.bytes()
    }

    /// 1 for each weak bit of the memory; no byte where the chip is steady.
    pub(crate) fn weak(&self) -> &[u8] {
        self.inner.weak()
    }

    /// The chip's memory.
    pub(crate) fn into_memory(self) -> Vec<u8> {
        self.inner.into_inner()
    }
}

impl SpiBus for Recorder {
    ghost use Rattle.chip_simulator.specs.Sim.{chip_of, cuts_of, slows_of};
    ghost use Rattle.chip_simulator.specs.Lawful.{lawful_chip};

    ghost chip = { λ r. chip_of r.inner };

    ghost cuts = { λ r. cuts_of r.inner };

    ghost slows = { λ r. slows_of r.inner };

    ghost lawful = { λ r. lawful_chip r.inner };

    fn transact(&mut self, send: &[u8], recv: &mut [u8]) -> Result<(), PowerLost> {
        if let Some(code) = send.first() {
            if self.frames < 16 {
                self.codes[self.frames as usize] = *code;
            }
        }
        self.frames = self.frames.saturating_add(1);
        self.inner.transact(send, recv)
    }

    fn power_on(&mut self) {
        self.inner.power_on();
    }

    fn arm(&mut self, count: u32, kind: u8, mask: u8) {
        self.inner.arm(count, kind, mask);
    }
}
