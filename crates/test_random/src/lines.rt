//! What a client has to send on a connection, and what it expects for it.

use std::alloc::Global;
use std::test::*;
use test_kit::bytes_of;

/// The answer of a unit of a connection's text.
#[derive(Clone, Copy, Drop)]
pub(crate) enum Answer {
    /// No reply.
    Silence,
    /// No reply, and the connection is closed.
    Close,
    /// The reply that a text spells.
    Told(&'static str),
    /// The same, and the connection is closed.
    Farewell(&'static str),
    /// A reply without data: the cookie and the error.
    Head(u64, u32),
    /// The data of a READ: the cookie, the first sector, how many.
    Data(u64, u32, u32),
    /// That a WRITE stands: the same, and the stamp of the first sector.
    Written(u64, u32, u32, u32),
    /// That the zeros of a TRIM or a WRITE_ZEROES stand: the cookie, the first sector, how many.
    Zeroed(u64, u32, u32),
}

/// How far a client has come.
#[derive(Clone, Copy, Drop)]
pub(crate) enum Stage {
    Flags,
    Options,
    Requests,
}

#[derive(Drop)]
pub(crate) struct Line {
    pub(crate) is_open: bool,
    pub(crate) stage: Stage,
    /// What is still to be sent.
    pub(crate) text: Vec<u8>,
    /// The units that are not wholly sent: how many bytes are left of each, and its answer.
    pub(crate) units: Vec<(usize, Answer)>,
}

impl Line {
    pub(crate) fn new(alloc: Global) -> Line {
        Line {
            is_open: false,
            stage: Stage::Flags,
            text: Vec::new(alloc),
            units: Vec::new(alloc),
        }
    }

    /// Opened or closed anew, with nothing to send.
    pub(crate) fn reset(&mut self, is_open: bool) {
        self.is_open = is_open;
        self.stage = Stage::Flags;
        self.text.clear();
        self.units.clear();
    }

    /// Another unit to be sent.
    pub(crate) fn add(&mut self, bytes: &[u8], answer: Answer) -> Result<(), Fail> {
        self.text.extend_from_slice(bytes)?;
        self.units.push((bytes.len(), answer))?;
        Ok(())
    }

    /// Another one, in hexadecimal digits.
    pub(crate) fn spell(&mut self, alloc: Global, text: &str, answer: Answer) -> Result<(), Fail> {
        self.add(bytes_of(alloc, text)?.as_slice(), answer)
    }

    /// Takes so many bytes that are to be sent, and the answers of the units that they complete.
    pub(crate) fn send(
        &mut self,
        alloc: Global,
        len: usize,
    ) -> Result<(Vec<u8>, Vec<Answer>), Fail> {
        let mut piece = Vec::new(alloc);
        let mut rest = Vec::new(alloc);
        let (front, back) = self.text.as_slice().split_at(len.min(self.text.len()));
        piece.extend_from_slice(front)?;
        rest.extend_from_slice(back)?;
        self.text = rest;
        let mut sent = piece.len();
        let mut answers = Vec::new(alloc);
        let mut units = Vec::new(alloc);
        for (left, answer) in self.units.iter() {
            if *left <= sent {
                answers.push(*answer)?;
            } else {
                units.push((*left - sent, *answer))?;
            }
            sent = sent.saturating_sub(*left);
        }
        self.units = units;
        Ok((piece, answers))
    }
}
