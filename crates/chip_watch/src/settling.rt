//! What is exchanged before the power counts as on.

ghost use Rattle.std.specs.Prelude.{◌≡◌, ◌++◌, ◌/◌, ◌%◌, ◌<◌, []};
ghost use Rattle.std.specs.Prelude.{◌∷◌, ℕ, List, length, false, true};
ghost use Rattle.std.specs.Prelude.{OnOk, Option, drop, take};
ghost use Rattle.chip_model.specs.Frames.{status_1};
ghost use Rattle.chip_model.specs.Exchanges.{Exchange, Exchanged};
ghost use Rattle.chip_watch.specs.Changes.{with_place};
ghost use Rattle.chip_watch.specs.Settling.{Makes, Resumes, Rests, Steadies, register_reads};
ghost use Rattle.chip_watch.specs.Settling.{table_read, sent_alone};
ghost use Rattle.chip_watch.specs.Told.{frames_told};
ghost use Rattle.chip_watch.specs.Watched.{shadow_chip};

use crate::change::{Change, with_place};
use crate::departure::Departure;
use crate::reading::{first_difference, same};
use crate::shadow::Shadow;
use crate::wire::Wire;
use chip_model::Programmer;

/// The frame that programs a whole page.
fn page_frame(at: usize, page: &[u8]) -> [u8; 260]
    requires { length page.now ≡ 256 }
    ensures { result ≡ with_place 2 at ++ page.now }
{
    let mut frame = [0u8; 260];
    frame[..4].copy_from_slice(&with_place(0x02, at));
    frame[4..].copy_from_slice(page);
    frame
}

/// A frame's code, and 0 of one without a byte.
pub fn frame_code(frame: &[u8]) -> u8 {
    match frame.first() {
        Some(code) => *code,
        None => 0,
    }
}

impl<P: Programmer> Wire<P> {
    /// Write enable, the frame of a change, and its end.
    fn finishes(&mut self, frame: &[u8]) -> Result<(), Departure>
        ensures { OnOk result ((mid : Option (List Exchange))
            × Exchanged (frames_told P.exchanged self.old) mid
            (sent_alone (6 ∷ []) ∷ sent_alone frame.now ∷ [])
            × Rests mid (frames_told P.exchanged self.new)) }
    {
        if !self.hear(&[0x06], 0) {
            return Err(Departure::NoAnswer(0x06));
        }
        if !self.hear(frame, 0) {
            return Err(Departure::NoAnswer(frame_code(frame)));
        }
        self.rest()?;
        Ok(())
    }

    /// Makes a change on the chip, whose outcome is in the memory.
    fn makes(&mut self, memory: &[u8], change: Change) -> Result<(), Departure>
        ensures { OnOk result (Makes change memory.now (frames_told P.exchanged self.old)
            (frames_told P.exchanged self.new)) }
    {
        match change {
            Change::None => Ok(()),
            Change::Page(at) => {
                let Some(page) = memory.get(at as usize..at as usize + 256) else {
                    return Err(Departure::NoAnswer(0x02));
                };
                self.finishes(&page_frame(at as usize, page))
            }
            Change::Unit(at, size) => {
                let code = if size == 4_096 { 0x20 } else { 0xD8 };
                self.finishes(&with_place(code, at as usize))
            }
            Change::Status(value) => self.finishes(&[0x01, value]),
        }
    }

    /// One frame whose answer is one byte, this one.
    fn tells(&mut self, code: u8, allowed: u8) -> Result<(), Departure>
        ensures { OnOk result (Exchanged (frames_told P.exchanged self.old)
            (frames_told P.exchanged self.new)
            (record { sent = code ∷ []; received = allowed ∷ [] } ∷ [])) }
    {
        match self.ask(&[code]) {
            None => Err(Departure::NoAnswer(code)),
            Some(read) => {
                if read == allowed {
                    Ok(())
                } else {
                    Err(Departure::Answer(code, first_difference(&[read], &[allowed])))
                }
            }
        }
    }

    /// The status registers, which are those of the chip in memory.
    fn shows_registers(&mut self, shadow: &Shadow, status1: u8) -> Result<(), Departure>
        requires { status1 ≡ status_1 (shadow_chip shadow.now) }
        ensures { OnOk result (Exchanged (frames_told P.exchanged self.old)
            (frames_told P.exchanged self.new) (register_reads (shadow_chip shadow.now))) }
    {
        self.tells(0x05, status1)?;
        self.tells(0x35, shadow.status2)?;
        self.tells(0x15, shadow.status3)?;
        Ok(())
    }

    /// The SFDP bytes, which are those of the chip in memory.
    fn shows_table(&mut self, shadow: &Shadow) -> Result<(), Departure>
        ensures { OnOk result (Exchanged (frames_told P.exchanged self.old)
            (frames_told P.exchanged self.new) (table_read (shadow_chip shadow.now) ∷ [])) }
    {
        if !self.hear(&[0x5A, 0, 0, 0, 0], 256) {
            return Err(Departure::NoAnswer(0x5A));
        }
        if same(&self.heard, &shadow.table) {
            return Ok(());
        }
        Err(Departure::Answer(0x5A, first_difference(&self.heard, &shadow.table)))
    }

    /// After a loss: the chip is found to be the one in memory but for the places of the change
    /// that was interrupted, that is made again, and its places are read.
    fn recover(&mut self, shadow: &Shadow, status1: u8, change: Change) -> Result<(), Departure>
        requires { status1 ≡ status_1 (shadow_chip shadow.now) }
        ensures { OnOk result (Resumes (shadow_chip shadow.now) change
            (frames_told P.exchanged self.old) (frames_told P.exchanged self.new)) }
    {
        if !self.programmer.reopen() {
            return Err(Departure::NoProgrammer);
        }
        self.rest()?;
        self.shows_table(shadow)?;
        self.compares(shadow.memory(), change)?;
        self.makes(shadow.memory(), change)?;
        self.shows_change(shadow.memory(), change)?;
        self.shows_registers(shadow, status1)?;
        Ok(())
    }

    /// Without a loss: what is in progress ends, and its places are read.
    fn steady(&mut self, shadow: &Shadow, status1: u8, change: Change) -> Result<(), Departure>
        requires { status1 ≡ status_1 (shadow_chip shadow.now) }
        ensures { OnOk result (Steadies (shadow_chip shadow.now) change
            (frames_told P.exchanged self.old) (frames_told P.exchanged self.new)) }
    {
        self.rest()?;
        self.shows_change(shadow.memory(), change)?;
        self.shows_registers(shadow, status1)?;
        Ok(())
    }

    /// Either of the two.
    pub fn settle(
        &mut self,
        shadow: &Shadow,
        status1: u8,
        change: Change,
        lost: bool,
    ) -> Result<(), Departure>
        requires { status1 ≡ status_1 (shadow_chip shadow.now) }
        ensures recovers { lost ≡ true → OnOk result (Resumes (shadow_chip shadow.now) change
            (frames_told P.exchanged self.old) (frames_told P.exchanged self.new)) }
        ensures steadies { lost ≡ false → OnOk result (Steadies (shadow_chip shadow.now) change
            (frames_told P.exchanged self.old) (frames_told P.exchanged self.new)) }
    {
        if lost {
            self.recover(shadow, status1, change)
        } else {
            self.steady(shadow, status1, change)
        }
    }
}
