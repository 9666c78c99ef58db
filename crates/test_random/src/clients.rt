//! Units that a client may send, drawn by dice.

use crate::lines::{Answer, Line, Stage};
use crate::sectors::{SECTORS, content};
use std::alloc::Global;
use std::test::*;
use test_kit::{Dice, GO, GO_REPLY};

const LIST_REPLY: &str =
    "0003E889045565A9 00000003 00000002 00000009 00000005 666C617368 0003E889045565A9 00000003 00000001 00000000";

/// The kinds of requests.
const READ: u16 = 0;

const WRITE: u16 = 1;

const DISCONNECT: u16 = 2;

const FLUSH: u16 = 3;

const TRIM: u16 = 4;

/// A command that this server doesn't know.
const CACHE: u16 = 5;

const WRITE_ZEROES: u16 = 6;

/// The errors that refuse one.
const INVALID: u32 = 22;

const NO_SPACE: u32 = 28;

/// What numbers the requests of all clients: cookies, and the stamps of written sectors.
#[derive(Drop)]
pub(crate) struct Clients {
    pub(crate) dice: Dice,
    cookie: u64,
    stamp: u32,
}

/// A request: its head, and so many bytes of payload of this value.
fn request(
    alloc: Global,
    flags: u16,
    kind: u16,
    cookie: u64,
    offset: u64,
    length: u32,
    payload: usize,
) -> Result<Vec<u8>, Fail> {
    let mut bytes = Vec::new(alloc);
    bytes.extend_from_slice(&0x2560_9513u32.to_be_bytes())?;
    bytes.extend_from_slice(&flags.to_be_bytes())?;
    bytes.extend_from_slice(&kind.to_be_bytes())?;
    bytes.extend_from_slice(&cookie.to_be_bytes())?;
    bytes.extend_from_slice(&offset.to_be_bytes())?;
    bytes.extend_from_slice(&length.to_be_bytes())?;
    bytes.resize(payload.saturating_add(28), 0x25)?;
    Ok(bytes)
}

impl Clients {
    pub(crate) fn new(seed: u64) -> Clients {
        Clients {
            dice: Dice::new(seed),
            cookie: 0x0102_0304_0506_0708,
            stamp: 1,
        }
    }

    /// Adds a unit to what a client has to send.
    pub(crate) fn add(&mut self, alloc: Global, line: &mut Line) -> Result<(), Fail> {
        match line.stage {
            Stage::Flags => self.add_flags(alloc, line),
            Stage::Options => self.add_option(alloc, line),
            Stage::Requests => self.add_request(alloc, line),
        }
    }

    fn add_flags(&mut self, alloc: Global, line: &mut Line) -> Result<(), Fail> {
        line.stage = Stage::Options;
        match self.dice.below(40) {
            0 => line.spell(alloc, "00000002", Answer::Close),
            _ => line.spell(alloc, "00000003", Answer::Silence),
        }
    }

    fn add_option(&mut self, alloc: Global, line: &mut Line) -> Result<(), Fail> {
        let (text, answer) = match self.dice.below(20) {
            0 => (
                "49484156454F5054 00000002 00000000",
                Answer::Farewell("0003E889045565A9 00000002 00000001 00000000"),
            ),
            1 => (
                "49484156454F5054 00000003 00000000",
                Answer::Told(LIST_REPLY),
            ),
            2 => (
                "49484156454F5054 00000063 00000003 25*3",
                Answer::Told("0003E889045565A9 00000063 80000001 00000000"),
            ),
            3 => (
                "49484156454F5054 00000007 00000007 00000001 78 0000",
                Answer::Told("0003E889045565A9 00000007 80000006 00000000"),
            ),
            4 => {
                line.stage = Stage::Requests;
                (
                    "49484156454F5054 00000001 00000000",
                    Answer::Told("0000000000008C00 016D"),
                )
            }
            _ => {
                line.stage = Stage::Requests;
                (GO, Answer::Told(GO_REPLY))
            }
        };
        line.spell(alloc, text, answer)
    }

    fn add_request(&mut self, alloc: Global, line: &mut Line) -> Result<(), Fail> {
        let most = if self.dice.below(8) == 0 { SECTORS } else { 3 };
        let count = self.dice.below(most) + 1;
        let first = self.dice.below(SECTORS + 1 - count);
        match self.dice.below(100) {
            0..=44 => self.add_write(alloc, line, first, count),
            45..=79 => self.add_read(alloc, line, first, count),
            80..=87 => self.add_zeros(alloc, line, first, count),
            _ => self.add_other(alloc, line, first, count),
        }
    }

    /// A WRITE of sectors that no other WRITE's bytes are in.
    fn add_write(
        &mut self,
        alloc: Global,
        line: &mut Line,
        first: u32,
        count: u32,
    ) -> Result<(), Fail> {
        self.cookie = self.cookie.wrapping_add(1);
        let (cookie, stamp) = (self.cookie, self.stamp);
        let flags = self.dice.below(2) as u16;
        let length = count.wrapping_mul(512);
        let offset = u64::from(first).wrapping_mul(512);
        let mut bytes = request(alloc, flags, WRITE, cookie, offset, length, 0)?;
        for k in 0..count {
            bytes.extend_from_slice(&content(stamp.wrapping_add(k)))?;
        }
        self.stamp = stamp.wrapping_add(count);
        line.add(
            bytes.as_slice(),
            Answer::Written(cookie, first, count, stamp),
        )
    }

    pub(crate) fn add_read(
        &mut self,
        alloc: Global,
        line: &mut Line,
        first: u32,
        count: u32,
    ) -> Result<(), Fail> {
        self.cookie = self.cookie.wrapping_add(1);
        let cookie = self.cookie;
        let flags = self.dice.below(2) as u16;
        let length = count.wrapping_mul(512);
        let offset = u64::from(first).wrapping_mul(512);
        let bytes = request(alloc, flags, READ, cookie, offset, length, 0)?;
        line.add(bytes.as_slice(), Answer::Data(cookie, first, count))
    }

    /// A TRIM or a WRITE_ZEROES, with any flags that it may have.
    fn add_zeros(
        &mut self,
        alloc: Global,
        line: &mut Line,
        first: u32,
        count: u32,
    ) -> Result<(), Fail> {
        self.cookie = self.cookie.wrapping_add(1);
        let cookie = self.cookie;
        let (kind, flags) = if self.dice.below(2) == 0 {
            (TRIM, self.dice.below(2) as u16)
        } else {
            (WRITE_ZEROES, self.dice.below(4) as u16)
        };
        let length = count.wrapping_mul(512);
        let offset = u64::from(first).wrapping_mul(512);
        let bytes = request(alloc, flags, kind, cookie, offset, length, 0)?;
        line.add(bytes.as_slice(), Answer::Zeroed(cookie, first, count))
    }

    /// A FLUSH, a request that is refused, or one that closes.
    fn add_other(
        &mut self,
        alloc: Global,
        line: &mut Line,
        first: u32,
        count: u32,
    ) -> Result<(), Fail> {
        self.cookie = self.cookie.wrapping_add(1);
        let cookie = self.cookie;
        let length = count.wrapping_mul(512);
        let offset = u64::from(first).wrapping_mul(512);
        let past = u64::from(SECTORS + 1)
            .wrapping_mul(512)
            .wrapping_sub(u64::from(length));
        let invalid = Answer::Head(cookie, INVALID);
        let (flags, kind, offset, length, payload, answer) = match self.dice.below(24) {
            0..=5 => (1, FLUSH, 0, 0, 0, Answer::Head(cookie, 0)),
            6 => (0, FLUSH, 0, length, 0, invalid),
            7 | 8 => (0, DISCONNECT, 0, 0, 0, Answer::Close),
            9 | 10 | 11 => (
                0,
                WRITE,
                past,
                length,
                length as usize,
                Answer::Head(cookie, NO_SPACE),
            ),
            12 => (0, WRITE, 0, 66_048, 66_048, invalid),
            13 => (0, WRITE, offset + 1, length, length as usize, invalid),
            14 => (2, READ, offset, length, 0, invalid),
            15 => (0, READ, past, length, 0, invalid),
            16 => (0, READ, offset, 0, 0, invalid),
            17 => (0, READ, offset, length ^ 1, 0, invalid),
            18 => (0, CACHE, offset, length, 0, invalid),
            19 => (2, TRIM, offset, length, 0, invalid),
            20 => (0, TRIM, past, length, 0, invalid),
            21 => (
                2,
                WRITE_ZEROES,
                past,
                length,
                0,
                Answer::Head(cookie, NO_SPACE),
            ),
            22 => (4, WRITE_ZEROES, offset, length, 0, invalid),
            _ => {
                return line.add(&[0; 28], Answer::Close);
            }
        };
        let bytes = request(alloc, flags, kind, cookie, offset, length, payload)?;
        line.add(bytes.as_slice(), answer)
    }
}
