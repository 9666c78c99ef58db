//! The bus of a watched chip.

ghost use Rattle.std.specs.Prelude.{◌^◌, ◌≡◌, ◌⊎◌, ◌&&◌, ◌+◌, ◌<◌, [], ◌∷◌, ℕ, List};
ghost use Rattle.std.specs.Prelude.{IfErr, IfOk, IfSome, OnErr, OnOk, false, length, take, true};
ghost use Rattle.chip_model.specs.Geometry.{IsChipSize};
ghost use Rattle.chip_model.specs.Exchanges.{Exchange, Exchanged};
ghost use Rattle.chip_watch.specs.Reading.{change_reads};

use crate::asking::{asked, changes_nothing, passes, reads_memory};
use crate::change::Change;
use crate::departure::{Departure, OpenError};
use crate::opening::open_shadow;
use crate::reading::first_difference;
use crate::settling::frame_code;
use crate::shadow::Shadow;
use crate::wire::Wire;
use chip_model::{PowerLost, Programmer, SpiBus};
use spi_frames::{Instruction, decode};
use std::alloc::Global;

/// A chip behind a programmer, each of whose answers is compared with what the model allows.
///
/// Beside it a chip in memory is led through the same frames. A frame is answered only where the
/// two agree, and where it ended a program or an erase, only once what that wrote was read back.
/// Where they don't agree, or the programmer fails, that is a loss of power; the power comes again
/// only where the whole chip was read and is as the one in memory.
#[derive(Drop)]
pub struct WatchedBus<P> {
    shadow: Shadow,
    wire: Wire<P>,
    /// What the last loss interrupted.
    pending: Change,
    departure: Option<Departure>,
    cuts: u64,
    /// Whether the chip is believed its changes.
    trusts: bool,
    /// Whether the whole memory was read, and only reads were sent since.
    fresh: bool,
}

impl<P: Programmer + Drop> WatchedBus<P> {
    ghost use Rattle.chip_model.specs.Chip.{Idle};
    ghost use Rattle.chip_watch.specs.Opening.{Opens, RefusesAsRead};
    ghost use Rattle.chip_model.specs.Frames.{Frame, command_of, newly_slow};
    ghost use Rattle.chip_watch.specs.Asking.{Passes, asked_of, is_put_to_chip};
    ghost use Rattle.spi_frames.specs.Instruction.{instructed};
    ghost use Rattle.chip_watch.specs.Changes.{change_of};
    ghost use Rattle.chip_watch.specs.Told.{frames_told};
    ghost use Rattle.chip_watch.specs.Watched.{IsPassedOver, read_back, read_change};
    ghost use Rattle.chip_watch.specs.Watched.{still_pending, watched_ahead, watched_chip};
    ghost use Rattle.chip_watch.specs.Watched.{watched_fresh};
    ghost use Rattle.chip_watch.specs.Watched.{watched_cuts, watched_pending, watched_slows};
    ghost use Rattle.chip_watch.specs.Watched.{watched_trusts};

    /// The chip behind a programmer, of which everything is read: with the power on and nothing in
    /// progress.
    pub fn open(alloc: Global, programmer: P) -> Result<WatchedBus<P>, OpenError>
        ensures size { IfOk result (λ b. IsChipSize (length (watched_chip b).memory)) }
        ensures idle { IfOk result (λ b. (watched_chip b).operation ≡ Idle) }
        ensures powered { IfOk result (λ b. (watched_chip b).powered ≡ true) }
        ensures cuts { IfOk result (λ b. watched_cuts b ≡ 0) }
        ensures slows { IfOk result (λ b. watched_slows b ≡ 0) }
        ensures trusts { IfOk result (λ b. watched_trusts b ≡ false) }
        ensures fresh { IfOk result (λ b. watched_fresh b ≡ true) }
        ensures read { IfOk result (λ b. Opens (watched_chip b) (P.exchanged programmer)
            (frames_told P.exchanged b.wire)) }
        ensures refused { IfErr result RefusesAsRead }
    {
        let mut wire = Wire::new(alloc, programmer);
        let shadow = open_shadow(alloc, &mut wire)?;
        Ok(WatchedBus {
            shadow,
            wire,
            pending: Change::None,
            departure: None,
            cuts: 0,
            trusts: false,
            fresh: true,
        })
    }

    /// The same bus, where the chip is believed its changes: what it wrote isn't read back.
    pub fn trusting(self) -> WatchedBus<P>
        ensures chip { watched_chip result ≡ watched_chip self }
        ensures cuts { watched_cuts result ≡ watched_cuts self }
        ensures slows { watched_slows result ≡ watched_slows self }
        ensures pending { watched_pending result ≡ watched_pending self }
        ensures told { frames_told P.exchanged result.wire ≡ frames_told P.exchanged self.wire }
        ensures ahead { watched_ahead result ≡ watched_ahead self }
        ensures fresh { watched_fresh result ≡ watched_fresh self }
        ensures trusts { watched_trusts result ≡ true }
    {
        WatchedBus {
            trusts: true,
            ..self
        }
    }

    /// The bytes of the chip's memory.
    pub fn size(&self) -> u32
        ensures { result ≡ length (watched_chip self.now).memory }
    {
        self.shadow.size
    }

    /// The chip's memory, as the model has it.
    pub fn memory(&self) -> &[u8]
        ensures { result.now ≡ (watched_chip self.now).memory }
    {
        self.shadow.memory()
    }

    /// What is in progress and would be read back once it has ended.
    fn read_back(&self) -> Change
        ensures { result
            ≡ read_change self.now.trusts (change_of (watched_chip self.now).operation) }
    {
        if self.trusts {
            Change::None
        } else {
            self.shadow.change
        }
    }

    /// The page of which a READ goes along with a frame: one that is still being programmed, and is
    /// read back once it isn't, where the frame reads the status and nothing is ahead.
    fn along(&self, instruction: &Instruction, count: usize, before: Change) -> Option<u32>
        ensures { IfSome result (λ at. before ≡ Change.Page at) }
    {
        if count == 0 || !self.wire.ahead.is_empty() {
            return None;
        }
        match (instruction, before) {
            (Instruction::Status1, Change::Page(at)) => Some(at),
            _ => None,
        }
    }

    /// A frame that the chip is sent, on both sides.
    fn exchange(
        &mut self,
        send: &[u8],
        instruction: &Instruction,
        recv: &mut [u8],
    ) -> Result<(), Departure>
        requires decoded { instructed instruction.now ≡ command_of send.now }
        ensures frame { Frame (watched_chip self.old) send.now recv.new (watched_chip self.new) }
        ensures slows { watched_slows self.new ≡ watched_slows self.old
            + newly_slow (watched_chip self.old) (watched_chip self.new) }
        ensures cuts { watched_cuts self.new ≡ watched_cuts self.old }
        ensures heard { OnOk result ((answer : List ℕ) × (more : List Exchange)
            × Passes (command_of send.now) answer
            (take (asked_of (command_of send.now) (length recv.new)) recv.new)
            × ((more
            ≡ read_back self.old.trusts (watched_chip self.old) (watched_chip self.new))
            ⊎ IsPassedOver (watched_chip self.new) more)
            × Exchanged (frames_told P.exchanged self.old.wire)
            (frames_told P.exchanged self.new.wire)
            (record { sent = send.now; received = answer } ∷ more)) }
        ensures sent { OnOk result (0 < asked_of (command_of send.now) (length recv.new)
            → watched_ahead self.new ≡ []) }
        ensures trusts { self.new.trusts ≡ self.old.trusts }
        ensures fresh { self.new.fresh ≡ self.old.fresh }
    {
        let before = self.read_back();
        let count = asked(instruction, recv.len());
        let along = self.along(instruction, count, before);
        let answered = self.wire.hear_along(send, count, along);
        let ready = self.wire.shows_rest(answered, count);
        self.shadow.follow(send, instruction, recv, ready);
        if !answered {
            return Err(Departure::NoAnswer(frame_code(send)));
        }
        self.wire.judge(send, instruction, &recv[..count])?;
        let ended = self.shadow.ended(before);
        self.wire.has_written(self.shadow.memory(), ended, along)?;
        Ok(())
    }

    /// Whether the chip is sent a frame.
    fn asks(&self, instruction: &Instruction) -> bool
        ensures { result
            ≡ is_put_to_chip self.now.fresh (watched_chip self.now) (instructed instruction.now) }
    {
        self.shadow.heeds(instruction) && !(self.fresh && reads_memory(instruction))
    }

    /// What was in progress, or what the last loss interrupted.
    fn unfinished(&self) -> Change
        ensures { result ≡ still_pending (watched_chip self.now) (watched_pending self.now) }
    {
        if self.shadow.powered {
            self.shadow.change
        } else {
            self.pending
        }
    }

    /// Where the chip left the model last, or its programmer failed, since the power last came.
    pub fn departure(&self) -> Option<Departure> {
        self.departure
    }
}

impl<P: Programmer> Wire<P> {
    ghost use Rattle.chip_watch.specs.Asking.{Passes};
    ghost use Rattle.spi_frames.specs.Instruction.{instructed};

    /// Whether the answer to a frame is taken for the one that is allowed.
    fn judge(&self, send: &[u8], instruction: &Instruction, allowed: &[u8]) -> Result<(), Departure>
        ensures { OnOk result
            (Passes (instructed instruction.now) self.now.heard.items allowed.now) }
    {
        if passes(instruction, &self.heard, allowed) {
            return Ok(());
        }
        Err(Departure::Answer(frame_code(send), first_difference(&self.heard, allowed)))
    }
}

impl<P: Programmer + Drop> SpiBus for WatchedBus<P> {
    ghost use Rattle.chip_model.specs.Cut.{Loses, PowersOn};
    ghost use Rattle.chip_model.specs.Frames.{Frame, command_of, newly_slow};
    ghost use Rattle.chip_watch.specs.Asking.{asked_of, is_put_to_chip, changes_nothing};
    ghost use Rattle.chip_watch.specs.Changes.{change_of};
    ghost use Rattle.chip_watch.specs.Settling.{Resumes, Steadies};
    ghost use Rattle.chip_watch.specs.Told.{frames_told};
    ghost use Rattle.chip_watch.specs.Watched.{Heard, interrupted, still_pending, watched_chip};
    ghost use Rattle.chip_watch.specs.Watched.{watched_ahead, watched_fresh};
    ghost use Rattle.chip_watch.specs.Watched.{watched_cuts, watched_pending, watched_slows};
    ghost use Rattle.chip_watch.specs.Watched.{watched_trusts};
    ghost use Rattle.chip_watch.specs.Lawful.{lawful_shadow};

    ghost chip = { watched_chip };

    ghost cuts = { watched_cuts };

    ghost slows = { watched_slows };

    ghost lawful = { λ b. lawful_shadow b.shadow };

    fn transact(&mut self, send: &[u8], recv: &mut [u8]) -> Result<(), PowerLost>
        ensures powered { OnOk result ((watched_chip self.old).powered ≡ true) }
        ensures frame { OnOk result (Frame (watched_chip self.old) send.now recv.new
            (watched_chip self.new)) }
        ensures cuts_ok { OnOk result (watched_cuts self.new ≡ watched_cuts self.old) }
        ensures slows_ok { OnOk result
            (watched_slows self.new ≡ watched_slows self.old
            + newly_slow (watched_chip self.old) (watched_chip self.new)) }
        ensures lost { OnErr result (Loses (watched_chip self.old) (watched_cuts self.old) send.now
            (watched_chip self.new) (watched_cuts self.new)) }
        ensures slows_err { OnErr result (watched_slows self.new ≡ watched_slows self.old) }

        // What is answered is what the chip answered, and what the frame ended is on the chip.
        ensures heard { OnOk result (watched_cuts self.old + 1 < 2 ^ 64
            → Heard (watched_trusts self.old) (watched_fresh self.old) (watched_chip self.old)
            send.now recv.new (watched_chip self.new)
            (frames_told P.exchanged self.old.wire) (frames_told P.exchanged self.new.wire)) }

        // What the chip is asked it has answered by then: nothing is left to be sent.
        ensures sent { OnOk result (watched_cuts self.old + 1 < 2 ^ 64
            → is_put_to_chip (watched_fresh self.old) (watched_chip self.old) (command_of send.now)
            ≡ true
            → 0 < asked_of (command_of send.now) (length recv.new) → watched_ahead self.new ≡ []) }

        // What was read at the start counts until a frame may change it.
        ensures fresh { OnOk result (watched_fresh self.new
            ≡ (watched_fresh self.old && changes_nothing (command_of send.now))) }

        // After a loss nothing counts, and nothing of before it is sent any more.
        ensures stale { OnErr result (watched_fresh self.new ≡ false) }
        ensures dropped { OnErr result ((watched_chip self.old).powered ≡ true
            → watched_ahead self.new ≡ []) }

        ensures trusts { watched_trusts self.new ≡ watched_trusts self.old }

        // What a loss interrupted is still to be done.
        ensures pending { OnErr result ((watched_chip self.old).powered ≡ true
            → watched_pending self.new ≡ interrupted (watched_chip self.old) send.now) }
        ensures off { OnErr result ((watched_chip self.old).powered ≡ false
            → watched_pending self.new ≡ watched_pending self.old) }
    {
        if !self.shadow.powered {
            self.fresh = false;
            return Err(PowerLost);
        }
        let instruction = decode(send);
        let asks = self.asks(&instruction);
        self.fresh = self.fresh && changes_nothing(&instruction);
        if !asks {
            self.shadow.follow(send, &instruction, recv, false);
            return Ok(());
        }
        let before = self.shadow.change;
        let slows = self.shadow.slows;
        let departure = match self.exchange(send, &instruction, recv) {
            Ok(()) => return Ok(()),
            Err(departure) => departure,
        };
        if self.cuts == u64::MAX {
            return Ok(());
        }
        self.departure = Some(departure);
        self.pending = self.shadow.interrupted(before);
        self.shadow.turn_off();
        self.shadow.slows = slows;
        self.cuts += 1;
        self.fresh = false;
        self.wire.ahead.clear();
        Err(PowerLost)
    }

    fn power_on(&mut self)
        ensures powers_on { PowersOn (watched_chip self.old) (watched_cuts self.old)
            (watched_chip self.new) (watched_cuts self.new) }
        ensures slows { watched_slows self.new ≡ watched_slows self.old }
        ensures trusts { watched_trusts self.new ≡ watched_trusts self.old }
        ensures fresh { watched_fresh self.new ≡ true
            → (watched_fresh self.old ≡ true) × ((watched_chip self.old).powered ≡ true) }

        // The power is on only where the chip was read and found to be the one in memory.
        ensures recovers { (watched_chip self.old).powered ≡ false
            → (watched_chip self.new).powered ≡ true → watched_cuts self.old + 1 < 2 ^ 64
            → Resumes (watched_chip self.new) (watched_pending self.old)
            (frames_told P.exchanged self.old.wire) (frames_told P.exchanged self.new.wire) }
        ensures steadies { (watched_chip self.old).powered ≡ true
            → (watched_chip self.new).powered ≡ true → watched_cuts self.old + 1 < 2 ^ 64
            → Steadies (watched_chip self.new) (change_of (watched_chip self.old).operation)
            (frames_told P.exchanged self.old.wire) (frames_told P.exchanged self.new.wire) }
        ensures pending { (watched_chip self.new).powered ≡ false → watched_pending self.new
            ≡ still_pending (watched_chip self.old) (watched_pending self.old) }
    {
        let lost = !self.shadow.powered;
        let change = self.unfinished();
        let status = self.shadow.restart();
        self.pending = change;
        self.fresh = self.fresh && !lost;
        let settled = self.wire.settle(&self.shadow, status, change, lost);
        match settled {
            Err(departure) if self.cuts < u64::MAX => {
                self.departure = Some(departure);
                self.shadow.powered = false;
                self.cuts += 1;
                self.fresh = false;
                self.wire.ahead.clear();
            }
            _ => self.departure = None,
        }
    }

    fn arm(&mut self, _count: u32, _kind: u8, _mask: u8)
        ensures chip { watched_chip self.new ≡ watched_chip self.old }
        ensures cuts { watched_cuts self.new ≡ watched_cuts self.old }
        ensures slows { watched_slows self.new ≡ watched_slows self.old }
    {}
}
