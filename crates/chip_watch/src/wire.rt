//! Frames to a chip outside of the program.

ghost use Rattle.std.specs.Prelude.{◌≡◌, length, true, IfSome};
ghost use Rattle.chip_watch.specs.Ahead.{are_silent};

use crate::change::with_place;
use crate::departure::Departure;
use chip_model::{NoAnswer, Programmer, Turn};
use std::alloc::Global;
use std::mem;

/// How often the status is read at most until an operation ends.
const MOST_READS_UNTIL_REST: u32 = 1_000_000;

/// How many frames wait at most for a later one.
const MOST_AHEAD: usize = 4;

/// A programmer, and what the chip answered last.
///
/// A frame that receives nothing isn't sent by itself, but together with the next one that receives
/// something: a programmer takes them at once, and one answer is waited for.
#[derive(Drop)]
pub struct Wire<P> {
    pub programmer: P,
    pub alloc: Global,
    pub heard: Vec<u8>,
    /// What was answered to the READ of a page that went along with the last frame.
    pub page: Vec<u8>,
    /// The frames that were accepted and not sent yet.
    pub ahead: Vec<Turn>,
    ghost silent: { are_silent ahead.items ≡ true },
}

/// A frame in which so many bytes are received, where there is memory for it.
pub(crate) fn turn(alloc: Global, send: &[u8], count: usize) -> Option<Turn>
    ensures sent { IfSome result (λ t. t.send.items ≡ send.now) }
    ensures size { IfSome result (λ t. length t.recv.items ≡ count) }
{
    let mut sent = Vec::new(alloc);
    let Ok(()) = sent.extend_from_slice(send) else {
        return None;
    };
    let mut received = Vec::new(alloc);
    let Ok(()) = received.resize(count, 0) else {
        return None;
    };
    Some(Turn {
        send: sent,
        recv: received,
    })
}

impl<P: Programmer> Wire<P> {
    ghost use Rattle.std.specs.Prelude.{◌<◌, [], ◌∷◌, OnOk};
    ghost use Rattle.chip_model.specs.Exchanges.{Exchange, Exchanged, sends_of, sizes_of, turned};
    ghost use Rattle.chip_watch.specs.Changes.{with_place};
    ghost use Rattle.chip_watch.specs.Reading.{reads_along};
    ghost use Rattle.chip_watch.specs.Settling.{Rests};
    ghost use Rattle.chip_watch.specs.Told.{frames_told};

    /// A chip behind a programmer, to which nothing was sent yet.
    pub fn new(alloc: Global, programmer: P) -> Wire<P>
        ensures programmer { result.programmer ≡ programmer }
        ensures ahead { result.ahead.items ≡ [] }
    {
        Wire {
            programmer,
            alloc,
            heard: Vec::new(alloc),
            page: Vec::new(alloc),
            ahead: Vec::new(alloc),
        }
    }

    /// Exchanges what is ahead and then these frames, all at once, and answers these.
    pub fn exchange_turns(&mut self, mut turns: Vec<Turn>) -> Option<Vec<Turn>>
        ensures sends { IfSome result (λ r. sends_of r.items ≡ sends_of turns.items) }
        ensures sizes { IfSome result (λ r. sizes_of r.items ≡ sizes_of turns.items) }
        ensures exchanged { IfSome result (λ r.
            Exchanged (frames_told P.exchanged self.old) (frames_told P.exchanged self.new)
            (turned r.items)) }
        ensures sent { self.new.ahead.items ≡ [] }
    {
        let count = self.ahead.len();
        let mut all = mem::replace(&mut self.ahead, Vec::new(self.alloc));
        let Ok(()) = all.append(&mut turns) else {
            return None;
        };
        match self.programmer.exchange_all(&mut all) {
            Ok(()) => {}
            Err(NoAnswer) => return None,
        }
        match all.split_off(count) {
            Ok(answered) => Some(answered),
            Err(_) => None,
        }
    }

    /// Exchanges a frame, and whether that went well.
    fn hear_turn(&mut self, turn: Turn) -> bool
        ensures grows { result ≡ true → Exchanged (frames_told P.exchanged self.old)
            (frames_told P.exchanged self.new)
            (record { sent = turn.send.items; received = self.new.heard.items } ∷ []) }
        ensures room { result ≡ true → length self.new.heard.items ≡ length turn.recv.items }
        ensures sent { result ≡ true → self.new.ahead.items ≡ [] }
    {
        let mut turns = Vec::new(self.alloc);
        let Ok(()) = turns.push(turn) else {
            return false;
        };
        let Some(mut answered) = self.exchange_turns(turns) else {
            return false;
        };
        let Some(last) = answered.pop() else {
            return false;
        };
        let Turn { send: _send, recv } = last;
        self.heard = recv;
        true
    }

    /// Accepts a frame that receives nothing, and whether there is memory for it.
    fn put_ahead(&mut self, turn: Turn) -> bool
        requires { length turn.recv.items ≡ 0 }
        ensures grows { result ≡ true → Exchanged (frames_told P.exchanged self.old)
            (frames_told P.exchanged self.new)
            (record { sent = turn.send.items; received = self.new.heard.items } ∷ []) }
        ensures room { result ≡ true → length self.new.heard.items ≡ 0 }
    {
        self.heard.clear();
        match self.ahead.push(turn) {
            Ok(()) => true,
            Err(_) => false,
        }
    }

    /// Exchanges a frame in which so many bytes are received, or accepts it where these are none,
    /// and whether that went well.
    pub fn hear(&mut self, send: &[u8], count: usize) -> bool
        ensures grows { result ≡ true → Exchanged (frames_told P.exchanged self.old)
            (frames_told P.exchanged self.new)
            (record { sent = send.now; received = self.new.heard.items } ∷ []) }
        ensures room { result ≡ true → length self.new.heard.items ≡ count }
        ensures sent { result ≡ true → 0 < count → self.new.ahead.items ≡ [] }
    {
        let Some(turn) = turn(self.alloc, send, count) else {
            return false;
        };
        if count == 0 && self.ahead.len() < MOST_AHEAD {
            return self.put_ahead(turn);
        }
        self.hear_turn(turn)
    }

    /// Exchanges a frame in which so many bytes are received, and a READ of a page with it.
    fn hear_both(&mut self, send: &[u8], count: usize, at: u32) -> bool
        ensures grows { result ≡ true → Exchanged (frames_told P.exchanged self.old)
            (frames_told P.exchanged self.new)
            (record { sent = send.now; received = self.new.heard.items }
            ∷ record { sent = with_place 3 at; received = self.new.page.items } ∷ []) }
        ensures room { result ≡ true → length self.new.heard.items ≡ count }
        ensures sent { result ≡ true → self.new.ahead.items ≡ [] }
    {
        let Some(first) = turn(self.alloc, send, count) else {
            return false;
        };
        let Some(second) = turn(self.alloc, &with_place(0x03, at as usize), 256) else {
            return false;
        };
        let mut turns = Vec::new(self.alloc);
        let (Ok(()), Ok(())) = (turns.push(first), turns.push(second)) else {
            return false;
        };
        let Some(mut answered) = self.exchange_turns(turns) else {
            return false;
        };
        let (Some(second), Some(first)) = (answered.pop(), answered.pop()) else {
            return false;
        };
        self.heard = first.recv;
        self.page = second.recv;
        true
    }

    /// Exchanges a frame in which so many bytes are received, with a READ of a page where one goes
    /// along, and whether that went well.
    pub fn hear_along(&mut self, send: &[u8], count: usize, page: Option<u32>) -> bool
        ensures grows { result ≡ true → Exchanged (frames_told P.exchanged self.old)
            (frames_told P.exchanged self.new)
            (record { sent = send.now; received = self.new.heard.items }
            ∷ reads_along page self.new.page.items) }
        ensures room { result ≡ true → length self.new.heard.items ≡ count }
        ensures sent { result ≡ true → 0 < count → self.new.ahead.items ≡ [] }
    {
        match page {
            None => self.hear(send, count),
            Some(at) => self.hear_both(send, count, at),
        }
    }

    /// Whether a frame was answered by so many bytes, the first of them with bit 0, BUSY, clear.
    pub fn shows_rest(&self, answered: bool, count: usize) -> bool {
        match self.heard.first() {
            Some(status) => answered && count > 0 && *status % 2 == 0,
            None => false,
        }
    }

    /// The one byte that a frame is answered by.
    pub fn ask(&mut self, send: &[u8]) -> Option<u8>
        ensures read { IfSome result (λ b.
            Exchanged (frames_told P.exchanged self.old) (frames_told P.exchanged self.new)
            (record { sent = send.now; received = b ∷ [] } ∷ [])) }
        ensures sent { IfSome result (λ _. self.new.ahead.items ≡ []) }
    {
        if !self.hear(send, 1) {
            return None;
        }
        self.heard.first().copied()
    }

    /// Waits until nothing is in progress, and clears WEL.
    pub fn rest(&mut self) -> Result<(), Departure>
        ensures { OnOk result (Rests (frames_told P.exchanged self.old)
            (frames_told P.exchanged self.new)) }
    {
        for _ in 0..MOST_READS_UNTIL_REST {
            let Some(status) = self.ask(&[0x05]) else {
                return Err(Departure::NoAnswer(0x05));
            };
            if status % 2 == 0 {
                if self.hear(&[0x04], 0) {
                    return Ok(());
                }
                return Err(Departure::NoAnswer(0x04));
            }
        }
        Err(Departure::Busy)
    }
}
