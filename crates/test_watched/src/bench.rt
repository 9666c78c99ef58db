//! A programmer in memory.

ghost use Rattle.std.specs.Prelude.{None};

use chip_model::{NoAnswer, Programmer, SpiBus};
use chip_simulator::SimChip;

/// What is wrong with a chip.
#[derive(Clone, Copy, Debug, PartialEq, Eq, Drop)]
pub enum Flaw {
    Nothing,
    /// This many programs change nothing: they clear WEL and that is all.
    Forgets(u32),
    /// At this address bits of this mask are 1 whatever is written.
    Stuck(u32, u8),
    /// An erase of 4 KiB changes nothing: it clears WEL and that is all.
    KeepsUnits,
    /// No change clears WEL, only 04h does: whether it is 1 though the model has 0.
    KeepsEnable(bool),
    /// What goes past the end of a page falls onto the next page.
    RunsOn,
    /// BUSY is 1 from the first change on, or from the beginning: whether it is now.
    Busy(bool),
    /// A status that shows BUSY has the bits of this mask 1.
    Early(u8),
    /// A status that shows BUSY has WEL 0.
    NoEnable,
    /// This byte of the SFDP table is this one.
    Table(u8, u8),
    /// The power is lost inside the n-th frame from now, and again so after each time that the
    /// programmer was reached anew; the numbers look random.
    Cuts(Dice),
}

/// Numbers that look random: the numbers of Knuth's linear congruential generator for 64 bits.
#[derive(Clone, Copy, Debug, PartialEq, Eq, Drop)]
pub struct Dice(pub u64);

impl Dice {
    /// A number below `bound`, which isn't 0; 0 below 0.
    pub fn below(&mut self, bound: u32) -> u32 {
        let next = self
            .0
            .wrapping_mul(6_364_136_223_846_793_005)
            .wrapping_add(1_442_695_040_888_963_407);
        self.0 = next;
        if bound == 0 {
            return 0;
        }
        ((next / 4_294_967_296) % bound as u64) as u32
    }
}

/// A simulator as a chip outside of the program, with one flaw.
#[derive(Drop)]
pub struct Bench {
    pub chip: SimChip,
    pub flaw: Flaw,
    /// The chip that is found once the programmer was reached anew.
    pub other: Option<SimChip>,
}

/// How many frames there are at most between two losses.
const FRAMES: u32 = 400;

impl Bench {
    /// A chip with a flaw.
    pub fn new(chip: SimChip, flaw: Flaw) -> Bench {
        let mut bench = Bench {
            chip,
            flaw,
            other: None,
        };
        bench.arm();
        bench
    }

    /// Arms the next loss where the chip loses its power.
    pub fn arm(&mut self) {
        if let Flaw::Cuts(dice) = &mut self.flaw {
            let count = dice.below(FRAMES).saturating_add(1);
            let kind = (dice.below(2) % 2) as u8;
            let mask = match dice.below(4) {
                0 => 0x00,
                1 => 0xFF,
                _ => (dice.below(256) % 256) as u8,
            };
            // Of changes alone there are fewer than of all frames.
            let count = if kind == 1 { count / 16 + 1 } else { count };
            self.chip.arm_cut(count, kind, mask);
        }
    }

    /// A frame, as the chip without its flaw takes it.
    fn take(&mut self, send: &[u8], recv: &mut [u8]) -> Result<(), NoAnswer> {
        match self.chip.transact(send, recv) {
            Ok(()) => Ok(()),
            Err(_) => Err(NoAnswer),
        }
    }

    /// A program whose page ends before its bytes do: what is left goes to the next page.
    fn run_on(&mut self, send: &[u8]) -> Result<(), NoAnswer> {
        let [_, a, b, c, ..] = send else {
            return Err(NoAnswer);
        };
        let room = 256 - *c as usize;
        let bytes = &send[4..];
        if bytes.len() <= room {
            return self.take(send, &mut []);
        }
        self.take(&send[..4 + room], &mut [])?;
        let mut status = [0u8; 1];
        self.take(&[0x05], &mut status)?;
        self.take(&[0x05], &mut status)?;
        self.take(&[0x06], &mut [])?;
        let mut rest = [0u8; 5];
        rest[0] = 0x02;
        rest[1] = *a;
        rest[2] = b.wrapping_add(1);
        rest[4] = bytes[room];
        self.take(&rest, &mut [])
    }

    /// What a flaw makes of an answer.
    fn spoil(&self, send: &[u8], recv: &mut [u8]) {
        match (self.flaw, send) {
            (Flaw::Stuck(at, mask), [0x03, a, b, c]) => {
                let from = *a as u32 * 65_536 + *b as u32 * 256 + *c as u32;
                if at >= from {
                    if let Some(byte) = recv.get_mut((at - from) as usize) {
                        *byte |= mask;
                    }
                }
            }
            (Flaw::KeepsEnable(true), [0x05]) => set_bits(recv, 0x02),
            (Flaw::Busy(true), [0x05]) => set_bits(recv, 0x03),
            (Flaw::NoEnable, [0x05]) => if let Some(status) = recv.first_mut() {
                if *status % 2 == 1 {
                    *status &= 0xFD;
                }
            },
            (Flaw::Early(mask), [0x05]) => if recv.first().copied().unwrap_or(0) % 2 == 1 {
                set_bits(recv, mask);
            },
            (Flaw::Table(at, value), [0x5A, ..]) => {
                if let Some(byte) = recv.get_mut(usize::from(at)) {
                    *byte = value;
                }
            }
            _ => {}
        }
    }
}

/// Sets bits in the first byte of an answer.
fn set_bits(recv: &mut [u8], mask: u8) {
    if let Some(byte) = recv.first_mut() {
        *byte |= mask;
    }
}

impl Programmer for Bench {
    ghost exchanged = { λ _. None };

    fn exchange(&mut self, send: &[u8], recv: &mut [u8]) -> Result<(), NoAnswer> {
        match (self.flaw, send) {
            // A chip of the model ignores these; a real one erases itself, or sleeps.
            (_, [0xC7, ..]) => return Err(NoAnswer),
            (_, [0xB9, ..]) => return Err(NoAnswer),
            (Flaw::Forgets(n), [0x02, ..]) => if n > 0 {
                self.flaw = Flaw::Forgets(n - 1);
                return self.take(&[0x04], recv);
            },
            (Flaw::KeepsEnable(_), [0x04]) => self.flaw = Flaw::KeepsEnable(false),
            (Flaw::KeepsEnable(_), [0x02 | 0x20, ..]) => self.flaw = Flaw::KeepsEnable(true),
            (Flaw::Busy(_), [0x02 | 0x20, ..]) => self.flaw = Flaw::Busy(true),
            (Flaw::KeepsUnits, [0x20, ..]) => return self.take(&[0x04], recv),
            (Flaw::RunsOn, [0x02, ..]) => return self.run_on(send),
            _ => {}
        }
        self.take(send, recv)?;
        self.spoil(send, recv);
        Ok(())
    }

    fn reopen(&mut self) -> bool {
        if let Some(chip) = self.other.take() {
            self.chip = chip;
        }
        self.chip.power_on();
        self.arm();
        true
    }
}
