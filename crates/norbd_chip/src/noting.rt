//! What is known of a chip and its programmer, for who has no hold of its bus.

ghost use Rattle.chip_watch.specs.Watched.{watched_chip, watched_cuts, watched_slows};
ghost use Rattle.chip_watch.specs.Lawful.{lawful_shadow};
ghost use Rattle.std.specs.Prelude.{◌≡◌, false};
ghost use Rattle.norbd_chip.specs.Faults.{is_unsure};

use crate::fault::ChipFault;
use chip_model::{PowerLost, Programmer, SpiBus};
use chip_watch::{Departure, Mismatch, WatchedBus};
use norbd_line::{Bytes, ChipCause, Doing};
use serprog::Trouble;
use spi_frames::{Instruction, decode};
use std::sync::Mutex;

/// What is known of why a chip is lost.
#[derive(Clone, Copy)]
struct Known {
    /// Where it left the model, as its bus noted it.
    departure: Option<Departure>,
    /// What is done with it.
    doing: Doing,
    /// Why a frame wasn't exchanged.
    trouble: Option<Trouble>,
    /// That it was busy too long.
    busy: Option<Busy>,
    /// Whether a loss was told, and its end wasn't.
    lost: bool,
}

/// A chip that was busy too long.
#[derive(Clone, Copy)]
struct Busy {
    seconds: u32,
    /// Whether each bit of its status was 1, as where no chip drives the line.
    floats: bool,
}

impl Known {
    /// Why the chip's power was lost.
    fn cause(&self) -> ChipCause
        ensures { is_unsure (ChipFault.Failed result) ≡ false }
    {
        let doing = self.doing;
        match self.departure {
            None | Some(Departure::NoProgrammer) => ChipCause::Gone,
            Some(Departure::NoAnswer(_) | Departure::Busy) => self.silence(),
            Some(Departure::Memory(found)) => {
                ChipCause::LeftAt(doing, found.place, bytes_of(found))
            }
            Some(Departure::Answer(code, found)) => {
                ChipCause::LeftIn(doing, code, found.place, bytes_of(found))
            }
        }
    }

    /// Why a frame got no answer, or the chip was busy without end.
    fn silence(&self) -> ChipCause
        ensures { is_unsure (ChipFault.Failed result) ≡ false }
    {
        match (self.busy, self.trouble) {
            (Some(busy), _) if busy.floats => ChipCause::NoStatus(self.doing),
            (Some(busy), _) => ChipCause::Busy(self.doing, busy.seconds),
            (None, Some(trouble)) => ChipCause::NoAnswer(self.doing, trouble),
            (None, None) => ChipCause::Gone,
        }
    }
}

/// A byte that was read, and the one that is allowed.
fn bytes_of(found: Mismatch) -> Bytes {
    Bytes {
        read: found.read,
        allowed: found.allowed,
    }
}

/// What is done with a chip, and its programmer's last trouble, as they are noted.
#[derive(Drop)]
pub struct Noted {
    known: Mutex<Known>,
}

/// What a frame is part of, where so many bytes are received, after what was done before: status
/// reads and a write enable belong to that.
fn begun(before: Doing, send: &[u8], count: usize) -> Doing {
    match decode(send) {
        Instruction::Set(_) => Doing::Protect,
        Instruction::Program(at, _) => Doing::Program(at),
        Instruction::EraseSmall(at) | Instruction::EraseLarge(at) => Doing::Erase(at),
        Instruction::Read(at) => if is_read_back(before, at, count) {
            before
        } else {
            Doing::Read(at)
        },
        _ => before,
    }
}

/// Whether a read of so many bytes is that of a page that was programmed, or of a piece of a unit
/// that was erased.
fn is_read_back(before: Doing, at: u32, count: usize) -> bool {
    match before {
        Doing::Program(page) => count == 256 && at / 256 == page / 256,
        Doing::Erase(unit) => count == 4_096 && at >= unit && at - unit < 65_536,
        _ => false,
    }
}

impl Noted {
    /// Without a departure.
    pub fn new() -> Noted {
        Noted {
            known: Mutex::new(Known {
                departure: None,
                doing: Doing::Start,
                trouble: None,
                busy: None,
                lost: false,
            }),
        }
    }

    /// Why the chip's power was lost.
    pub fn cause(&self) -> ChipCause
        ensures { is_unsure (ChipFault.Failed result) ≡ false }
    {
        match self.known.try_lock() {
            Some(known) => known.cause(),
            None => ChipCause::Gone,
        }
    }

    /// Why a frame got no answer.
    pub(crate) fn silence(&self) -> ChipCause
        ensures { is_unsure (ChipFault.Failed result) ≡ false }
    {
        match self.known.try_lock() {
            Some(known) => known.silence(),
            None => ChipCause::Gone,
        }
    }

    /// What is done with the chip.
    pub(crate) fn doing(&self) -> Doing {
        match self.known.try_lock() {
            Some(known) => known.doing,
            None => Doing::Start,
        }
    }

    /// Notes a departure, or that there is none any more. Only the bus and its programmer note, so
    /// nobody else holds the lock meanwhile, here and below.
    pub(crate) fn note(&self, departure: Option<Departure>) {
        if let Some(mut known) = self.known.try_lock() {
            known.departure = departure;
        }
    }

    /// Notes that a frame is to be exchanged, in which so many bytes are received.
    pub(crate) fn note_frame(&self, send: &[u8], count: usize) {
        if let Some(mut known) = self.known.try_lock() {
            known.doing = begun(known.doing, send, count);
        }
    }

    /// Notes why a frame wasn't exchanged.
    pub(crate) fn note_trouble(&self, trouble: Option<Trouble>) {
        if let Some(mut known) = self.known.try_lock() {
            known.trouble = trouble;
            known.busy = None;
        }
    }

    /// Notes that a chip was busy for so many seconds, which is too long, and whether each bit of
    /// its status was 1.
    pub(crate) fn note_busy(&self, seconds: u64, floats: bool) {
        if let Some(mut known) = self.known.try_lock() {
            let seconds = seconds.min(u32::MAX as u64) as u32;
            known.busy = Some(Busy { seconds, floats });
        }
    }

    /// Notes that the chip is looked at once more, after a loss that was told.
    pub(crate) fn note_return(&self) {
        if let Some(mut known) = self.known.try_lock() {
            known.doing = Doing::Return;
            known.trouble = None;
            known.busy = None;
            known.lost = true;
        }
    }

    /// Whether the chip came back from a loss that was told, which is answered once.
    pub(crate) fn has_returned(&self) -> bool {
        let Some(mut known) = self.known.try_lock() else {
            return false;
        };
        let returned = known.lost && known.departure.is_none();
        if returned {
            known.lost = false;
        }
        returned
    }
}

/// A watched bus that notes where its chip left the model.
#[derive(Drop)]
pub struct Noting<'n, P> {
    bus: WatchedBus<P>,
    noted: &'n Noted,
}

impl<'n, P: Programmer + Drop> Noting<'n, P> {
    /// The bus, which notes from now on.
    pub fn new(bus: WatchedBus<P>, noted: &'n Noted) -> Noting<'n, P>
        ensures { result.bus ≡ bus }
    {
        Noting { bus, noted }
    }

    /// The memory of the chip as it is known, of which nothing is asked of the programmer.
    pub fn memory(&self) -> &[u8]
        ensures { result.now ≡ (watched_chip self.now.bus).memory }
    {
        self.bus.memory()
    }
}

impl<P: Programmer + Drop> SpiBus for Noting<'_, P> {
    ghost chip = { λ n. watched_chip n.bus };

    ghost cuts = { λ n. watched_cuts n.bus };

    ghost slows = { λ n. watched_slows n.bus };

    ghost lawful = { λ n. lawful_shadow n.bus.shadow };

    fn transact(&mut self, send: &[u8], recv: &mut [u8]) -> Result<(), PowerLost> {
        match self.bus.transact(send, recv) {
            Ok(()) => Ok(()),
            Err(PowerLost) => {
                self.noted.note(self.bus.departure());
                Err(PowerLost)
            }
        }
    }

    fn power_on(&mut self) {
        self.bus.power_on();
        self.noted.note(self.bus.departure());
    }

    fn arm(&mut self, count: u32, kind: u8, mask: u8) {
        self.bus.arm(count, kind, mask)
    }
}
