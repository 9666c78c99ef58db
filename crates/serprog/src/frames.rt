//! Frames as commands of serprog.

ghost use Rattle.std.specs.Prelude.{◌≡◌, ◌*◌, ◌<◌, ◌≤◌, ◌^◌, ◌++◌, [], ◌∷◌, length};
ghost use Rattle.std.specs.Prelude.{OnOk, None, true};
ghost use Rattle.std.specs.Io.KnownBytes.{Appends, Consumes};
ghost use Rattle.chip_model.specs.Exchanges.{Exchange, Exchanged, sends_of, sizes_of, turned};
ghost use Rattle.serprog.specs.Protocol.{acknowledged, answers, spiop, spiops, three_bytes};

use crate::error::{SerprogError, Trouble};
use crate::greeting::{greet, take_leave};
use crate::identity::Identity;
use crate::streams::{Dialer, Incoming, receive};
use block_device::{Sink, send_both};
use chip_model::{NoAnswer, Programmer, Turn};

/// A programmer that speaks serprog. Where it is dropped in step its pin drivers are turned off.
pub struct Serprog<I: Incoming + Drop, O: Sink + Drop, D: Drop> {
    source: I,
    sink: O,
    dialer: D,
    /// The clock in Hz that is asked for.
    clock: Option<u32>,
    identity: Identity,
    /// Why the last frame wasn't exchanged; both sides are in step where there is no such frame.
    trouble: Option<Trouble>,
}

/// A programmer that tells why a frame wasn't exchanged.
pub trait Troubled {
    /// Why the last frame wasn't exchanged; `None` where it was.
    fn trouble(&self) -> Option<Trouble>;
}

/// The head of the command that is one frame.
fn head_of(sent: u32, received: u32) -> [u8; 7]
    ensures { result ≡ 19 ∷ (three_bytes sent ++ three_bytes received) }
{
    [
        0x13,
        (sent % 256) as u8,
        (sent / 256 % 256) as u8,
        (sent / 65_536 % 256) as u8,
        (received % 256) as u8,
        (received / 256 % 256) as u8,
        (received / 65_536 % 256) as u8,
    ]
}

/// What a byte in the place of ACK says.
fn misplaced(byte: u8) -> Trouble {
    if byte == 0x15 {
        Trouble::Refused
    } else {
        Trouble::OutOfStep(byte)
    }
}

/// Why an answer wasn't heard.
fn unheard<I: Incoming>(source: &I) -> Trouble {
    if source.is_silent() {
        Trouble::Silent
    } else {
        Trouble::Ended
    }
}

impl<I: Incoming + Drop, O: Sink + Drop, D: Dialer<I, O> + Drop> Serprog<I, O, D> {
    /// The programmer behind two streams that a dialer begins, with SPI as its bus and this clock
    /// in Hz, or its own where there is none: the first error that its greeting meets, and
    /// `Unreached` where no streams are begun.
    pub fn open(dialer: D, clock: Option<u32>) -> Result<Serprog<I, O, D>, SerprogError> {
        let mut dialer = dialer;
        let (mut source, mut sink) = match dialer.dial() {
            Ok(streams) => streams,
            Err(kind) => return Err(SerprogError::Unreached(kind)),
        };
        let identity = greet(&mut source, &mut sink, clock)?;
        Ok(Serprog {
            source,
            sink,
            dialer,
            clock,
            identity,
            trouble: None,
        })
    }

    /// Whether a frame is short enough for the programmer, and for 24 bits of count.
    fn fits(&self, sent: usize, received: usize) -> bool
        ensures { result ≡ true → ((sent ≤ self.now.identity.sends)
            × (received ≤ self.now.identity.receives))
            × ((sent < 16777216) × (received < 16777216)) }
    {
        sent <= self.identity.sends as usize
            && received <= self.identity.receives as usize
            && sent < 16_777_216
            && received < 16_777_216
    }

    /// Sends one O_SPIOP (13h).
    fn ask(&mut self, send: &[u8], received: usize) -> Result<(), NoAnswer>
        ensures asked { OnOk result (Appends (O.written self.old.sink) (O.written self.new.sink)
            (spiop send.now received)) }
        ensures fits { OnOk result ((length send.now ≤ self.old.identity.sends)
            × (received ≤ self.old.identity.receives)) }
        ensures same { (self.new.source ≡ self.old.source)
            × (self.new.identity ≡ self.old.identity) }
    {
        if !self.fits(send.len(), received) {
            self.trouble = Some(Trouble::TooLong);
            return Err(NoAnswer);
        }
        let head = head_of(send.len() as u32, received as u32);
        if send_both(&mut self.sink, &head, send).is_err() {
            self.trouble = Some(Trouble::Ended);
            return Err(NoAnswer);
        }
        Ok(())
    }

    /// Takes the answer to one: ACK, and what the chip answered.
    fn answer(&mut self, recv: &mut [u8]) -> Result<(), NoAnswer>
        ensures told { OnOk result (Consumes (I.remaining self.old.source)
            (I.remaining self.new.source) (acknowledged recv.new)) }
        ensures same { (self.new.sink ≡ self.old.sink)
            × (self.new.identity ≡ self.old.identity) }
    {
        let mut ack = [0u8; 1];
        if receive(&mut self.source, &mut ack).is_err() {
            self.trouble = Some(unheard(&self.source));
            return Err(NoAnswer);
        }
        if ack[0] != 0x06 {
            self.trouble = Some(misplaced(ack[0]));
            return Err(NoAnswer);
        }
        if receive(&mut self.source, recv).is_err() {
            self.trouble = Some(unheard(&self.source));
            return Err(NoAnswer);
        }
        Ok(())
    }

    /// Whether the commands of these turns may all be on the way at once.
    fn holds(&self, turns: &[Turn]) -> bool {
        let mut bytes = 0u64;
        for turn in turns.iter() {
            bytes = bytes
                .saturating_add(7)
                .saturating_add(turn.send.len() as u64);
        }
        self.identity.buffers == u16::MAX || bytes <= self.identity.buffers as u64
    }

    /// Sends turns, one after another.
    fn ask_each(&mut self, turns: &[Turn]) -> Result<(), NoAnswer>
        ensures asked { OnOk result (Appends (O.written self.old.sink) (O.written self.new.sink)
            (spiops turns.now)) }
        ensures same { (self.new.source ≡ self.old.source)
            × (self.new.identity ≡ self.old.identity) }
    {
        for turn in turns.iter() {
            self.ask(&turn.send, turn.recv.len())?;
        }
        Ok(())
    }

    /// Sends turns, and takes the answer to each before the next is sent.
    fn exchange_each(&mut self, turns: &mut [Turn]) -> Result<(), NoAnswer>
        ensures sends { sends_of turns.new ≡ sends_of turns.old }
        ensures sizes { sizes_of turns.new ≡ sizes_of turns.old }
        ensures asked { OnOk result (Appends (O.written self.old.sink) (O.written self.new.sink)
            (spiops turns.old)) }
        ensures told { OnOk result (Consumes (I.remaining self.old.source)
            (I.remaining self.new.source) (answers turns.new)) }
    {
        for turn in turns.iter_mut() {
            self.ask(&turn.send, turn.recv.len())?;
            self.answer(&mut turn.recv)?;
        }
        Ok(())
    }

    /// Takes the answers to turns, one after another.
    fn answer_each(&mut self, turns: &mut [Turn]) -> Result<(), NoAnswer>
        ensures told { OnOk result (Consumes (I.remaining self.old.source)
            (I.remaining self.new.source) (answers turns.new)) }
        ensures sends { sends_of turns.new ≡ sends_of turns.old }
        ensures sizes { sizes_of turns.new ≡ sizes_of turns.old }
        ensures same { (self.new.sink ≡ self.old.sink)
            × (self.new.identity ≡ self.old.identity) }
    {
        for turn in turns.iter_mut() {
            self.answer(&mut turn.recv)?;
        }
        Ok(())
    }

    /// What the programmer said of itself when it was last reached.
    pub fn identity(&self) -> Identity
        ensures { result ≡ self.now.identity }
    {
        self.identity
    }
}

impl<I: Incoming + Drop, O: Sink + Drop, D: Drop> Drop for Serprog<I, O, D> {
    fn drop(self) {
        let Serprog {
            mut source,
            mut sink,
            dialer: _,
            clock: _,
            identity,
            trouble,
        } = self;
        if identity.drives_pins && trouble.is_none() {
            take_leave(&mut source, &mut sink);
        }
    }
}

impl<I: Incoming + Drop, O: Sink + Drop, D: Drop> Troubled for Serprog<I, O, D> {
    fn trouble(&self) -> Option<Trouble>
        ensures { result ≡ self.now.trouble }
    {
        self.trouble
    }
}

impl<I: Incoming + Drop, O: Sink + Drop, D: Dialer<I, O> + Drop> Programmer for Serprog<I, O, D> {
    ghost exchanged = { λ _. None };

    /// One O_SPIOP (13h). `NoAnswer` where a stream failed or ended, where the answer doesn't begin
    /// with ACK, and where the frame is longer than 24 bits count or than the programmer takes.
    fn exchange(&mut self, send: &[u8], recv: &mut [u8]) -> Result<(), NoAnswer>
        ensures exchanged { OnOk result (Exchanged None None
            (record { sent = send.now; received = recv.new } ∷ [])) }
        ensures asked { OnOk result (Appends (O.written self.old.sink) (O.written self.new.sink)
            (spiop send.now (length recv.new))) }
        ensures told { OnOk result (Consumes (I.remaining self.old.source)
            (I.remaining self.new.source) (acknowledged recv.new)) }
        ensures fits { OnOk result ((length send.now ≤ self.old.identity.sends)
            × (length recv.new ≤ self.old.identity.receives)) }
    {
        self.ask(send, recv.len())?;
        self.answer(recv)
    }

    /// So many O_SPIOPs. All are sent before the first is answered where the programmer's buffer
    /// holds them.
    fn exchange_all(&mut self, turns: &mut [Turn]) -> Result<(), NoAnswer>
        ensures exchanged { OnOk result (Exchanged None None (turned turns.new)) }
        ensures sends { sends_of turns.new ≡ sends_of turns.old }
        ensures sizes { sizes_of turns.new ≡ sizes_of turns.old }
        ensures asked { OnOk result (Appends (O.written self.old.sink) (O.written self.new.sink)
            (spiops turns.old)) }
        ensures told { OnOk result (Consumes (I.remaining self.old.source)
            (I.remaining self.new.source) (answers turns.new)) }
    {
        if !self.holds(turns) {
            return self.exchange_each(turns);
        }
        self.ask_each(turns)?;
        self.answer_each(turns)
    }

    /// Two new streams, and the greeting over them, tried ten times: a peer may take a connection
    /// and end it at once while its power comes.
    fn reopen(&mut self) -> bool {
        for _ in 0..10u32 {
            if let Ok((source, sink)) = self.dialer.dial() {
                self.source = source;
                self.sink = sink;
                if let Ok(identity) = greet(&mut self.source, &mut self.sink, self.clock) {
                    self.identity = identity;
                    self.trouble = None;
                    return true;
                }
            }
        }
        false
    }
}
