//! The chip's memory, read and compared with the one beside it.

ghost use Rattle.std.specs.Prelude.{◌≡◌, ◌*◌, ◌/◌, ◌<◌, ◌≤◌, ◌^◌, [], ◌∷◌, ℕ, List, None, OnOk};
ghost use Rattle.std.specs.Prelude.{◌⊎◌, IfSome, drop, length, take, true};
ghost use Rattle.chip_model.specs.Exchanges.{Exchange, Exchanged};
ghost use Rattle.chip_watch.specs.Changes.{with_place};
ghost use Rattle.chip_watch.specs.Reading.{Agrees, Compared, change_reads, piece_reads, read_of};

use crate::change::{Change, with_place};
use crate::departure::{Departure, Mismatch};
use crate::wire::Wire;
use chip_model::Programmer;

/// Whether two lists of bytes are the same.
pub fn same(left: &[u8], right: &[u8]) -> bool
    ensures { result ≡ true → left.now ≡ right.now }
{
    left == right
}

/// A mismatch, at a place that a chip has.
pub fn mismatch(place: usize, read: u8, allowed: u8) -> Mismatch {
    Mismatch {
        place: (place % 16_777_216) as u32,
        read,
        allowed,
    }
}

/// Where the bytes that were read from a place on first differ from the memory, but for the places
/// of a change.
pub fn difference(memory: &[u8], change: Change, at: usize, heard: &[u8]) -> Option<Mismatch>
    requires { at < 2 ^ 60 }
    ensures { result ≡ None → Agrees memory.now change at heard.now }
{
    if heard.len() >= 1 << 60 {
        return Some(mismatch(at, 0, 0));
    }
    for k in 0..heard.len() {
        let allowed = match memory.get(at + k) {
            Some(byte) => *byte,
            None => 0,
        };
        if heard[k] != allowed && !change.covers(at + k) {
            return Some(mismatch(at + k, heard[k], allowed));
        }
    }
    None
}

/// Where an answer first differs from the one that is allowed; place 0 where it doesn't.
pub fn first_difference(heard: &[u8], allowed: &[u8]) -> Mismatch {
    match difference(allowed, Change::None, 0, heard) {
        Some(mismatch) => mismatch,
        None => mismatch(0, 0, 0),
    }
}

impl<P: Programmer> Wire<P> {
    ghost use Rattle.chip_watch.specs.Told.{frames_told};

    /// One READ, which the memory answers.
    fn shows(&mut self, memory: &[u8], at: usize, size: usize) -> Result<(), Departure>
        requires place { at < 2 ^ 60 }
        requires some { 0 < size }
        requires size { size ≤ 4096 }
        ensures shown { OnOk result (Exchanged (frames_told P.exchanged self.old)
            (frames_told P.exchanged self.new) (read_of memory.now at size ∷ [])) }
        ensures sent { OnOk result (self.new.ahead.items ≡ []) }
    {
        let Some(part) = memory.get(at..at + size) else {
            return Err(Departure::NoAnswer(0x03));
        };
        if !self.hear(&with_place(0x03, at), size) {
            return Err(Departure::NoAnswer(0x03));
        }
        if same(&self.heard, part) {
            return Ok(());
        }
        match difference(memory, Change::None, at, &self.heard) {
            Some(mismatch) => Err(Departure::Memory(mismatch)),
            None => Err(Departure::NoAnswer(0x03)),
        }
    }

    /// So many READs of 4 KiB that follow one another, which the memory answers.
    fn shows_pieces(&mut self, memory: &[u8], at: u32, count: u32) -> Result<(), Departure>
        ensures shown { OnOk result (Exchanged (frames_told P.exchanged self.old)
            (frames_told P.exchanged self.new) (piece_reads memory.now at count)) }
        ensures sent { OnOk result (self.old.ahead.items ≡ [] → self.new.ahead.items ≡ []) }
    {
        for piece in 0..count {
            self.shows(memory, at as usize + 4_096 * piece as usize, 4_096)?;
        }
        Ok(())
    }

    /// READs of all places that a change writes, which the memory answers.
    pub fn shows_change(&mut self, memory: &[u8], change: Change) -> Result<(), Departure>
        ensures shown { OnOk result (Exchanged (frames_told P.exchanged self.old)
            (frames_told P.exchanged self.new) (change_reads change memory.now)) }
        ensures sent { OnOk result (self.old.ahead.items ≡ [] → self.new.ahead.items ≡ []) }
    {
        match change {
            Change::None => Ok(()),
            Change::Page(at) => self.shows(memory, at as usize, 256),
            Change::Unit(at, size) => self.shows_pieces(memory, at, size / 4_096),
            Change::Status(_) => Ok(()),
        }
    }

    /// The page that went along, which the memory has there, where its program has ended.
    fn has_page(&self, memory: &[u8], at: usize) -> Result<(), Departure>
        requires { at < 2 ^ 60 }
        ensures { OnOk result (self.now.page.items ≡ take 256 (drop at memory.now)) }
    {
        let Some(page) = memory.get(at..at + 256) else {
            return Err(Departure::NoAnswer(0x03));
        };
        if same(&self.page, page) {
            return Ok(());
        }
        match difference(memory, Change::None, at, &self.page) {
            Some(mismatch) => Err(Departure::Memory(mismatch)),
            None => Err(Departure::NoAnswer(0x03)),
        }
    }

    /// What a change that has ended wrote is on the chip: it was read along, or is read now.
    pub fn has_written(
        &mut self,
        memory: &[u8],
        ended: Change,
        along: Option<u32>,
    ) -> Result<(), Departure>
        ensures shown { OnOk result (along ≡ None → Exchanged (frames_told P.exchanged self.old)
            (frames_told P.exchanged self.new) (change_reads ended memory.now)) }
        ensures along { OnOk result (IfSome along (λ at.
            (frames_told P.exchanged self.new ≡ frames_told P.exchanged self.old)
            × ((ended ≡ Change.None) ⊎ (self.old.page.items ≡ take 256 (drop at memory.now))))) }
        ensures sent { OnOk result (self.old.ahead.items ≡ [] → self.new.ahead.items ≡ []) }
    {
        match (along, ended) {
            (None, _) => self.shows_change(memory, ended),
            (Some(_), Change::None) => Ok(()),
            (Some(at), _) => self.has_page(memory, at as usize),
        }
    }

    /// One READ of 4 KiB, which the memory answers but for the places of a change.
    fn agrees(&mut self, memory: &[u8], change: Change, at: usize) -> Result<(), Departure>
        requires place { at < 2 ^ 60 }
        ensures { OnOk result ((received : List ℕ)
            × Exchanged (frames_told P.exchanged self.old) (frames_told P.exchanged self.new)
            (record { sent = with_place 3 at; received = received } ∷ [])
            × (length received ≡ 4096) × Agrees memory.now change at received) }
    {
        if !self.hear(&with_place(0x03, at), 4_096) {
            return Err(Departure::NoAnswer(0x03));
        }
        match difference(memory, change, at, &self.heard) {
            None => Ok(()),
            Some(mismatch) => Err(Departure::Memory(mismatch)),
        }
    }

    /// READs of the whole memory, 4 KiB each, which it answers but for the places of a change.
    pub fn compares(&mut self, memory: &[u8], change: Change) -> Result<(), Departure>
        requires { length memory.now ≤ 16777216 }
        ensures { OnOk result (Compared memory.now change (length memory.now / 4096)
            (frames_told P.exchanged self.old) (frames_told P.exchanged self.new)) }
    {
        for piece in 0..memory.len() / 4_096 {
            self.agrees(memory, change, 4_096 * piece)?;
        }
        Ok(())
    }
}
