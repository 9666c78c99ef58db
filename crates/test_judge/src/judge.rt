//! The judge of the transcripts: an array of 70 sectors and eight clients. It knows records and
//! requests, and nothing else.

ghost use Rattle.std.specs.Prelude.{◌≡◌, ◌++◌, IfSome};

use crate::array::{Array, Seen, Wrong};
use crate::client::Client;
use crate::event::{Event, NO_ONE, Request, SECTOR_BYTES, Unit, add, record_head};
use std::alloc::{AllocError, Global};

/// The greeting.
const GREETING: [u8; 18] = [
    0x4E, 0x42, 0x44, 0x4D, 0x41, 0x47, 0x49, 0x43, 0x49, 0x48, 0x41, 0x56, 0x45, 0x4F, 0x50, 0x54,
    0, 3,
];

/// The replies to a GO: the size of the disk and the flags, the sizes of blocks, and ACK.
const WENT: [u8; 86] = [
    // 70 sectors, flags 016Dh
    0x00, 0x03, 0xE8, 0x89, 0x04, 0x55, 0x65, 0xA9, 0, 0, 0, 7, 0, 0, 0, 3, 0, 0, 0, 12, 0, 0, 0,
    0, 0, 0, 0, 0, 0x8C, 0, 1, 0x6D, // 512, 4,096 and 65,536 bytes
    0x00, 0x03, 0xE8, 0x89, 0x04, 0x55, 0x65, 0xA9, 0, 0, 0, 7, 0, 0, 0, 3, 0, 0, 0, 14, 0, 3, 0,
    0, 2, 0, 0, 0, 0x10, 0, 0, 1, 0, 0, // and no more
    0x00, 0x03, 0xE8, 0x89, 0x04, 0x55, 0x65, 0xA9, 0, 0, 0, 7, 0, 0, 0, 1, 0, 0, 0, 0,
];

/// The kinds of records: a reply, and the endings.
const REPLY: u8 = b'D';

const DONE: u8 = b'A';

const CLOSED: u8 = b'X';

const LOST: u8 = b'L';

const ABSENT: u8 = b'N';

#[derive(Drop)]
pub struct Judge {
    array: Array,
    clients: Vec<Client>,
    /// The units that the last piece completed.
    sent: Vec<Unit>,
    /// The cookie of the next request.
    cookie: u64,
    pub has_power: bool,
    is_armed: bool,
    pub seen: Seen,
}

/// What stands behind these bytes, where they stand in front.
fn after<'a>(told: &'a [u8], front: &[u8]) -> Option<&'a [u8]>
    ensures { IfSome result (λ rest. told.now ≡ front.now ++ rest.now) }
{
    let (beginning, rest) = told.split_at_checked(front.len())?;
    if beginning == front { Some(rest) } else { None }
}

/// What stands behind a reply of a connection, where that stands in front.
fn after_reply<'a>(told: &'a [u8], who: u8, reply: &[u8]) -> Option<&'a [u8]> {
    let len = reply.len().min(65_536) as u32;
    after(after(told, &record_head(who, REPLY, len))?, reply)
}

/// The head of a simple reply: its error and its cookie.
fn reply_head(error: u32, cookie: u64) -> [u8; 16] {
    let [a, b, c, d] = error.to_be_bytes();
    let [e, f, g, h, i, j, k, l] = cookie.to_be_bytes();
    [0x67, 0x44, 0x66, 0x98, a, b, c, d, e, f, g, h, i, j, k, l]
}

/// Whether this is the record that ends an event.
fn is_ending(told: &[u8], who: u8, kind: u8) -> bool {
    told == record_head(who, kind, 0).as_slice()
}

/// An event ends so, and nothing else is told of it.
fn ends(told: &[u8], who: u8, kind: u8) -> Result<(), Wrong> {
    if is_ending(told, who, kind) {
        Ok(())
    } else if is_ending(told, who, LOST) {
        Err(Wrong::Loss)
    } else {
        Err(Wrong::Answer)
    }
}

impl Judge {
    /// The power is on, nothing is armed, all sectors are zeros, and no connection is open.
    pub fn new(alloc: Global) -> Result<Judge, AllocError> {
        let mut clients = Vec::new(alloc);
        for _ in 0..8 {
            clients.push(Client::new(alloc))?;
        }
        Ok(Judge {
            array: Array::zeros(),
            clients,
            sent: Vec::new(alloc),
            cookie: 0x0102_0304_0506_0708,
            has_power: true,
            is_armed: false,
            seen: Seen::nothing(),
        })
    }

    /// Adds the record of an event to a script. What is told of it is to be judged next.
    pub fn record(&mut self, event: Event, script: &mut Vec<u8>) -> Result<(), AllocError> {
        match event {
            Event::Open(who) => {
                self.greet(who)?;
                add(script, b'O', who, &[])
            }
            Event::Ask(who, request, kept) => {
                self.cookie = self.cookie.wrapping_add(1);
                let unit = Unit::Ask(request, self.cookie);
                self.send(who, Some(unit), kept as usize, script)
            }
            Event::Rest(who) => self.send(who, None, 0, script),
            Event::Gone(who) => add(script, b'G', who, &[]),
            Event::Tidy => add(script, b'T', NO_ONE, &[]),
            Event::Restore => add(script, b'R', NO_ONE, &[]),
            Event::Arm(count, kind, mask) => {
                let [a, b, c, d] = count.to_be_bytes();
                add(script, b'C', NO_ONE, &[a, b, c, d, kind, mask])
            }
        }
    }

    /// A client that isn't there yet comes, with its flags and its GO to send.
    fn greet(&mut self, who: u8) -> Result<(), AllocError> {
        if let Some(client) = self.clients.get_mut(who as usize) {
            if !client.is_open {
                client.add(Unit::Flags)?;
                client.add(Unit::Go)?;
            }
        }
        Ok(())
    }

    /// Adds the record of a piece to a script: all that a client has to send, with perhaps a unit
    /// more, but for so many bytes.
    fn send(
        &mut self,
        who: u8,
        unit: Option<Unit>,
        kept: usize,
        script: &mut Vec<u8>,
    ) -> Result<(), AllocError> {
        self.sent.clear();
        let Some(client) = self.clients.get_mut(who as usize) else {
            return Ok(());
        };
        if let Some(unit) = unit {
            client.add(unit)?;
        }
        let piece = client.send(kept, &mut self.sent)?;
        add(script, b'P', who, piece.as_slice())
    }

    /// Judges what is told of the event whose record was made last.
    pub fn judge(&mut self, event: Event, told: &[u8]) -> Result<(), Wrong> {
        match event {
            Event::Arm(count, _, _) => {
                self.is_armed = count > 0;
                if told.is_empty() {
                    Ok(())
                } else {
                    Err(Wrong::Answer)
                }
            }
            Event::Tidy => self.judge_tidying(told),
            Event::Restore => self.judge_restore(told),
            Event::Open(who) => self.judge_opening(who, told),
            Event::Gone(who) => {
                let kind = self.refusal(who).unwrap_or(DONE);
                self.close(who);
                ends(told, who, kind)
            }
            Event::Ask(who, _, _) => self.judge_piece(who, told),
            Event::Rest(who) => self.judge_piece(who, told),
        }
    }

    /// Whether a connection is open.
    fn is_open(&self, who: u8) -> bool {
        match self.clients.get(who as usize) {
            Some(client) => client.is_open,
            None => false,
        }
    }

    /// How an event ends of a connection that isn't open.
    fn refusal(&self, who: u8) -> Option<u8> {
        if self.is_open(who) {
            None
        } else if self.has_power {
            Some(ABSENT)
        } else {
            Some(LOST)
        }
    }

    /// A connection is closed.
    fn close(&mut self, who: u8) {
        if let Some(client) = self.clients.get_mut(who as usize) {
            client.close();
        }
    }

    /// The power was lost, which closes every connection.
    fn lose(&mut self) -> Result<(), Wrong> {
        if !self.is_armed {
            return Err(Wrong::Loss);
        }
        self.seen.losses = self.seen.losses.wrapping_add(1);
        self.has_power = false;
        self.is_armed = false;
        for client in self.clients.iter_mut() {
            client.close();
        }
        Ok(())
    }

    fn judge_tidying(&mut self, told: &[u8]) -> Result<(), Wrong> {
        if !self.has_power {
            return ends(told, NO_ONE, LOST);
        }
        if is_ending(told, NO_ONE, LOST) {
            return self.lose();
        }
        ends(told, NO_ONE, DONE)
    }

    fn judge_restore(&mut self, told: &[u8]) -> Result<(), Wrong> {
        if is_ending(told, NO_ONE, LOST) {
            self.seen.lost_restores = self.seen.lost_restores.wrapping_add(1);
            return self.lose();
        }
        self.has_power = true;
        ends(told, NO_ONE, DONE)
    }

    fn judge_opening(&mut self, who: u8, told: &[u8]) -> Result<(), Wrong> {
        if self.is_open(who) {
            return ends(told, who, ABSENT);
        }
        if !self.has_power {
            self.close(who);
            return ends(told, who, LOST);
        }
        if let Some(client) = self.clients.get_mut(who as usize) {
            client.is_open = true;
        }
        let Some(rest) = after_reply(told, who, &GREETING) else {
            return Err(Wrong::Answer);
        };
        ends(rest, who, DONE)
    }

    /// Judges what is told of a piece: each unit that it completed, in order, up to one that closes
    /// or is lost.
    fn judge_piece(&mut self, who: u8, told: &[u8]) -> Result<(), Wrong> {
        if let Some(kind) = self.refusal(who) {
            self.close(who);
            return ends(told, who, kind);
        }
        let mut rest = told;
        for k in 0..self.sent.len() {
            let Some(unit) = self.sent.get(k) else {
                return Err(Wrong::Answer);
            };
            let unit = *unit;
            match self.follow(who, unit, rest)? {
                Some(behind) => rest = behind,
                None => return Ok(()),
            }
        }
        ends(rest, who, DONE)
    }

    /// Judges what is told of a unit, and gives what is told after it, unless the piece ends with
    /// it.
    fn follow<'a>(
        &mut self,
        who: u8,
        unit: Unit,
        told: &'a [u8],
    ) -> Result<Option<&'a [u8]>, Wrong> {
        match unit {
            Unit::Flags => Ok(Some(told)),
            Unit::Go => match after_reply(told, who, &WENT) {
                Some(rest) => Ok(Some(rest)),
                None => Err(Wrong::Answer),
            },
            Unit::Ask(Request::Leave, _) => {
                self.close(who);
                ends(told, who, CLOSED)?;
                Ok(None)
            }
            Unit::Ask(request, cookie) => {
                if is_ending(told, who, LOST) {
                    self.interrupt(request)?;
                    return Ok(None);
                }
                Ok(Some(self.reply(who, request, cookie, told)?))
            }
        }
    }

    /// The power was lost in a request, which reads or writes sectors.
    fn interrupt(&mut self, request: Request) -> Result<(), Wrong> {
        match request {
            Request::Write(first, count, value) if request.error() == 0 => {
                self.array.write(first, count, value, false)
            }
            Request::Trim(first, count) if request.error() == 0 => {
                self.array.write(first, count, 0, false)
            }
            Request::Read(_, _) if request.error() == 0 => {}
            _ => return Err(Wrong::Loss),
        }
        self.lose()
    }

    /// Judges the reply to a request, and gives what is told after it.
    fn reply<'a>(
        &mut self,
        who: u8,
        request: Request,
        cookie: u64,
        told: &'a [u8],
    ) -> Result<&'a [u8], Wrong> {
        let error = request.error();
        let len = match request {
            Request::Read(_, count) if error == 0 => count.wrapping_mul(SECTOR_BYTES),
            _ => 0,
        };
        let head = record_head(who, REPLY, len.wrapping_add(16));
        let rest = after(told, &head).ok_or(Wrong::Answer)?;
        let rest = after(rest, &reply_head(error, cookie)).ok_or(Wrong::Answer)?;
        let (data, rest) = rest.split_at_checked(len as usize).ok_or(Wrong::Answer)?;
        self.seen.replies = self.seen.replies.wrapping_add(1);
        match request {
            Request::Read(first, _) => self.array.find(first, data, &mut self.seen)?,
            Request::Write(first, count, value) if error == 0 => {
                self.array.write(first, count, value, true)
            }
            Request::Trim(first, count) if error == 0 => self.array.write(first, count, 0, true),
            _ => {}
        }
        Ok(rest)
    }
}
