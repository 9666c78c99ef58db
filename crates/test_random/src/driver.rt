//! A driver of random events, which judges what a station answers by a plain array of sectors.

use crate::clients::Clients;
use crate::lines::{Answer, Line, Stage};
use crate::sectors::{SECTORS, Sectors};
use nbd_station::Station;
use std::alloc::Global;
use std::test::*;
use test_kit::chips::{OnSim, told};
use test_kit::{GREETING, MASKS, bytes_of, push_record};

/// What came in a run.
#[derive(Clone, Copy, Debug, Drop)]
pub(crate) struct Seen {
    pub(crate) writes: u32,
    pub(crate) reads: u32,
    pub(crate) zeroings: u32,
    pub(crate) lost_writes: u32,
    pub(crate) lost_zeroings: u32,
    pub(crate) lost_reads: u32,
    pub(crate) lost_tidyings: u32,
    pub(crate) lost_restores: u32,
}

#[derive(Drop)]
pub(crate) struct Driver {
    alloc: Global,
    seed: u64,
    /// The number of the event, for a failure.
    event: u32,
    clients: Clients,
    lines: Vec<Line>,
    pub(crate) sectors: Sectors,
    pub(crate) has_power: bool,
    is_armed: bool,
    pub(crate) seen: Seen,
}

/// The record that ends an event.
fn ending(who: u8, kind: u8) -> [u8; 6] {
    [who, kind, 0, 0, 0, 0]
}

/// The bytes of the reply at the front of a transcript, and what follows it.
fn reply_of(who: u8, transcript: &[u8]) -> Option<(&[u8], &[u8])> {
    let [number, kind, a, b, c, d, rest @ ..] = transcript else {
        return None;
    };
    let len = u32::from_be_bytes([*a, *b, *c, *d]) as usize;
    if *number != who || *kind != b'D' || len == 0 || len > rest.len() {
        return None;
    }
    Some(rest.split_at(len))
}

/// The head of a simple reply.
fn reply_head(alloc: Global, cookie: u64, error: u32) -> Result<Vec<u8>, Fail> {
    let mut head = Vec::new(alloc);
    head.extend_from_slice(&0x6744_6698u32.to_be_bytes())?;
    head.extend_from_slice(&error.to_be_bytes())?;
    head.extend_from_slice(&cookie.to_be_bytes())?;
    Ok(head)
}

impl Driver {
    pub(crate) fn new(alloc: Global, seed: u64) -> Result<Driver, Fail> {
        let mut lines = Vec::new(alloc);
        for _ in 0..8 {
            lines.push(Line::new(alloc))?;
        }
        Ok(Driver {
            alloc,
            seed,
            event: 0,
            clients: Clients::new(seed.wrapping_mul(0x9E37_79B9_7F4A_7C15)),
            lines,
            sectors: Sectors::new(alloc)?,
            has_power: true,
            is_armed: false,
            seen: Seen {
                writes: 0,
                reads: 0,
                zeroings: 0,
                lost_writes: 0,
                lost_zeroings: 0,
                lost_reads: 0,
                lost_tidyings: 0,
                lost_restores: 0,
            },
        })
    }

    fn wrong(&self, what: &str) -> Fail {
        Fail::new(format_args!("seed {}, event {}: {what}", self.seed, self.event))
    }

    /// Runs a script of one record: what is told.
    fn told<'a>(
        &mut self,
        station: &mut Station<OnSim>,
        room: &'a mut [u8],
        event: u8,
        who: u8,
        bytes: &[u8],
    ) -> Result<&'a [u8], Fail> {
        self.event = self.event.wrapping_add(1);
        let mut script = Vec::new(self.alloc);
        push_record(&mut script, event, who, bytes)?;
        let (end, len) = told(station, script.as_slice(), room);
        match (end, room.get(..len)) {
            (Ok(()), Some(transcript)) => Ok(transcript),
            _ => Err(self.wrong("a script that ended badly")),
        }
    }

    /// The power went, where that was armed.
    fn lose(&mut self) -> Result<(), Fail> {
        if !self.is_armed {
            return Err(self.wrong("a loss that was not armed"));
        }
        self.has_power = false;
        self.is_armed = false;
        for line in self.lines.iter_mut() {
            line.reset(false);
        }
        Ok(())
    }

    /// An event.
    pub(crate) fn step(
        &mut self,
        station: &mut Station<OnSim>,
        room: &mut [u8],
    ) -> Result<(), Fail> {
        let who = self.clients.dice.below(8) as u8;
        let had_power = self.has_power;
        let drawn = self.clients.dice.below(100);
        if !had_power && drawn < 15 {
            return self.arm(station, room, true);
        }
        if !had_power && drawn < 60 {
            self.restore(station, room)?;
            if self.has_power && drawn < 40 {
                self.read_twice(station, room, who)?;
            }
            return Ok(());
        }
        match drawn {
            0..=3 => self.arm(station, room, false),
            4..=13 => self.tidy(station, room),
            14..=17 => self.restore(station, room),
            18 | 19 => self.gone(station, room, who),
            20..=25 => self.open(station, room, who),
            _ => self.piece(station, room, who),
        }
    }

    /// Reads all sectors on a new connection, restores, and reads them again.
    pub(crate) fn read_twice(
        &mut self,
        station: &mut Station<OnSim>,
        room: &mut [u8],
        who: u8,
    ) -> Result<(), Fail> {
        self.gone(station, room, who)?;
        self.open(station, room, who)?;
        for _ in 0..2 {
            let Some(line) = self.lines.get_mut(who as usize) else {
                return Err(self.wrong("no such line"));
            };
            if !line.is_open {
                return Ok(());
            }
            if matches!(line.stage, Stage::Flags) {
                line.spell(self.alloc, "00000003", Answer::Silence)?;
                line.spell(
                    self.alloc,
                    "49484156454F5054 00000001 00000000",
                    Answer::Told("0000000000008C00 016D"),
                )?;
                line.stage = Stage::Requests;
            }
            self.clients.add_read(self.alloc, line, 0, SECTORS)?;
            self.send(station, room, who, 65_536)?;
            self.restore(station, room)?;
        }
        Ok(())
    }

    /// Arms a loss, or takes it back; soon, within the next changes.
    pub(crate) fn arm(
        &mut self,
        station: &mut Station<OnSim>,
        room: &mut [u8],
        is_soon: bool,
    ) -> Result<(), Fail> {
        let dice = &mut self.clients.dice;
        let (kind, most) = match dice.below(4) {
            _ if is_soon => (1, 12),
            0 => (0, 30),
            1 => (0, 200),
            2 => (1, 30),
            _ => (1, 200),
        };
        let count = dice.below(most);
        let mask = MASKS[dice.below(6) as usize];
        let [a, b, c, d] = count.to_be_bytes();
        self.is_armed = count > 0;
        let transcript = self.told(station, room, b'C', 0xFF, &[a, b, c, d, kind, mask])?;
        if !transcript.is_empty() {
            return Err(self.wrong("an answer of an arming"));
        }
        Ok(())
    }

    fn tidy(&mut self, station: &mut Station<OnSim>, room: &mut [u8]) -> Result<(), Fail> {
        let transcript = self.told(station, room, b'T', 0xFF, &[])?;
        if transcript == ending(0xFF, if self.has_power { b'A' } else { b'L' }).as_slice() {
            return Ok(());
        }
        if transcript != ending(0xFF, b'L').as_slice() {
            return Err(self.wrong("the answer of a tidying"));
        }
        self.seen.lost_tidyings = self.seen.lost_tidyings.wrapping_add(1);
        self.lose()
    }

    fn restore(&mut self, station: &mut Station<OnSim>, room: &mut [u8]) -> Result<(), Fail> {
        let transcript = self.told(station, room, b'R', 0xFF, &[])?;
        if transcript == ending(0xFF, b'A').as_slice() {
            self.has_power = true;
            return Ok(());
        }
        if transcript != ending(0xFF, b'L').as_slice() {
            return Err(self.wrong("the answer of a restore"));
        }
        self.seen.lost_restores = self.seen.lost_restores.wrapping_add(1);
        self.lose()
    }

    /// What ends an event of a connection that isn't open, or for which there is no power.
    fn refusal(&self, who: u8) -> [u8; 6] {
        ending(who, if self.has_power { b'N' } else { b'L' })
    }

    fn open(&mut self, station: &mut Station<OnSim>, room: &mut [u8], who: u8) -> Result<(), Fail> {
        let transcript = self.told(station, room, b'O', who, &[])?;
        let greeting = bytes_of(self.alloc, GREETING)?;
        let refusal = self.refusal(who);
        let Some(line) = self.lines.get_mut(who as usize) else {
            return Err(self.wrong("no such line"));
        };
        if line.is_open || !self.has_power {
            if transcript != refusal.as_slice() {
                return Err(self.wrong("an open that is no refusal"));
            }
            return Ok(());
        }
        line.reset(true);
        match reply_of(who, transcript) {
            Some((bytes, rest))
                if bytes == greeting.as_slice() && rest == ending(who, b'A').as_slice() => {
                Ok(())
            }
            _ => Err(self.wrong("a greeting")),
        }
    }

    fn gone(&mut self, station: &mut Station<OnSim>, room: &mut [u8], who: u8) -> Result<(), Fail> {
        let transcript = self.told(station, room, b'G', who, &[])?;
        let refusal = self.refusal(who);
        let Some(line) = self.lines.get_mut(who as usize) else {
            return Err(self.wrong("no such line"));
        };
        let wanted = if line.is_open {
            ending(who, b'A')
        } else {
            refusal
        };
        line.reset(false);
        if transcript != wanted.as_slice() {
            return Err(self.wrong("the answer of a closing"));
        }
        Ok(())
    }

    /// A piece of what a client has to send, cut anywhere. Where the connection isn't open it is
    /// mostly opened.
    fn piece(
        &mut self,
        station: &mut Station<OnSim>,
        room: &mut [u8],
        who: u8,
    ) -> Result<(), Fail> {
        let Some(line) = self.lines.get_mut(who as usize) else {
            return Err(self.wrong("no such line"));
        };
        let dice = &mut self.clients.dice;
        if !line.is_open && dice.below(4) > 0 {
            return self.open(station, room, who);
        }
        if !line.is_open {
            let refusal = self.refusal(who);
            let transcript = self.told(station, room, b'P', who, &[0x25, 0x60])?;
            if transcript != refusal.as_slice() {
                return Err(self.wrong("a piece of no connection"));
            }
            return Ok(());
        }
        if line.units.is_empty() || (dice.below(3) == 0 && line.units.len() < 8) {
            for _ in 0..self.clients.dice.below(4) {
                self.clients.add(self.alloc, line)?;
            }
        }
        let Ok(most) = u32::try_from(line.text.len().min(65_536)) else {
            return Err(self.wrong("a text too long"));
        };
        let dice = &mut self.clients.dice;
        let len = if dice.below(2) == 0 {
            most
        } else {
            dice.below(most + 1)
        };
        self.send(station, room, who, len as usize)
    }

    /// Sends so many bytes of a connection, and judges all that is answered.
    fn send(
        &mut self,
        station: &mut Station<OnSim>,
        room: &mut [u8],
        who: u8,
        len: usize,
    ) -> Result<(), Fail> {
        let Some(line) = self.lines.get_mut(who as usize) else {
            return Err(self.wrong("no such line"));
        };
        let (piece, answers) = line.send(self.alloc, len)?;
        let transcript = self.told(station, room, b'P', who, piece.as_slice())?;
        self.judge(who, answers.as_slice(), transcript)
    }

    /// Whether a transcript is that of units that were completed in one piece.
    fn judge(&mut self, who: u8, answers: &[Answer], transcript: &[u8]) -> Result<(), Fail> {
        let mut rest = transcript;
        for answer in answers {
            if matches!(*answer, Answer::Silence) {
                continue;
            }
            if matches!(*answer, Answer::Close) {
                return self.shut(who, rest);
            }
            if rest == ending(who, b'L').as_slice() {
                return self.interrupt(*answer);
            }
            let Some((bytes, after)) = reply_of(who, rest) else {
                return Err(self.wrong("no reply"));
            };
            if !self.is_answered(*answer, bytes)? {
                return Err(self.wrong("another reply"));
            }
            rest = after;
            if matches!(*answer, Answer::Farewell(_)) {
                return self.shut(who, rest);
            }
        }
        if rest != ending(who, b'A').as_slice() {
            return Err(self.wrong("the end of a piece"));
        }
        Ok(())
    }

    /// A connection was closed by the server, and nothing else is told.
    fn shut(&mut self, who: u8, rest: &[u8]) -> Result<(), Fail> {
        let Some(line) = self.lines.get_mut(who as usize) else {
            return Err(self.wrong("no such line"));
        };
        line.reset(false);
        if rest != ending(who, b'X').as_slice() {
            return Err(self.wrong("a close"));
        }
        Ok(())
    }

    /// The power went in a unit: one that reads, writes or zeroes.
    fn interrupt(&mut self, answer: Answer) -> Result<(), Fail> {
        match answer {
            Answer::Data(_, _, _) => {
                self.seen.lost_reads = self.seen.lost_reads.wrapping_add(1);
            }
            Answer::Written(_, first, count, stamp) => {
                self.seen.lost_writes = self.seen.lost_writes.wrapping_add(1);
                self.sectors.write(first, count, stamp, false)?;
            }
            Answer::Zeroed(_, first, count) => {
                self.seen.lost_zeroings = self.seen.lost_zeroings.wrapping_add(1);
                self.sectors.zero(first, count, false)?;
            }
            _ => return Err(self.wrong("a loss in a unit that touches no sector")),
        }
        self.lose()
    }

    /// Whether a reply is that of a unit, which is done then.
    fn is_answered(&mut self, answer: Answer, reply: &[u8]) -> Result<bool, Fail> {
        match answer {
            Answer::Told(text) | Answer::Farewell(text) => {
                Ok(reply == bytes_of(self.alloc, text)?.as_slice())
            }
            Answer::Head(cookie, error) => {
                Ok(reply == reply_head(self.alloc, cookie, error)?.as_slice())
            }
            Answer::Data(cookie, first, count) => {
                let head = reply_head(self.alloc, cookie, 0)?;
                self.seen.reads = self.seen.reads.wrapping_add(1);
                let Some(data) = reply.get(16..) else {
                    return Ok(false);
                };
                if reply.get(..16) != Some(head.as_slice()) || data.len() != 512 * count as usize {
                    return Ok(false);
                }
                self.sectors.read(first, data)
            }
            Answer::Written(cookie, first, count, stamp) => {
                self.seen.writes = self.seen.writes.wrapping_add(1);
                self.sectors.write(first, count, stamp, true)?;
                Ok(reply == reply_head(self.alloc, cookie, 0)?.as_slice())
            }
            Answer::Zeroed(cookie, first, count) => {
                self.seen.zeroings = self.seen.zeroings.wrapping_add(1);
                self.sectors.zero(first, count, true)?;
                Ok(reply == reply_head(self.alloc, cookie, 0)?.as_slice())
            }
            _ => Ok(false),
        }
    }

    /// All was put on another station, whose power is on: no connection is open there, and no loss
    /// armed.
    pub(crate) fn move_on(&mut self) {
        self.has_power = true;
        self.is_armed = false;
        for line in self.lines.iter_mut() {
            line.reset(false);
        }
    }
}
