//! The driver: the frames of each call, and the waiting after a change.

ghost use Rattle.std.specs.Prelude.{◌≡◌, ◌⊎◌, ◌%◌, ◌≤◌, true, false, ◌||◌, length, IfOk, OnOk};
ghost use Rattle.std.specs.Prelude.{IfErr, MatchResult, ◌+◌, OnErr};
ghost use Rattle.std.specs.Result.{IsErrOf};
ghost use Rattle.chip_model.specs.Chip.{is_idle, completed, is_setting};
ghost use Rattle.chip_model.specs.Cut.{TornMemory, Cut, Loses};
ghost use Rattle.chip_model.specs.Frames.{is_unprotected, Receives, after_command, command_of};
ghost use Rattle.nor_driver.specs.State.{AnswersWhatIsLatched, NorFails, IsNorReady};
ghost use Rattle.nor_driver.specs.State.{OnlyMemoryChanges, Leaves};
ghost use Rattle.nor_driver.specs.Steps.{StartsChange, started, ChangeFails, Lost, WaitFails};
ghost use Rattle.nor_driver.specs.Steps.{TornIn, Woken, only_reads};
ghost use Rattle.chip_model.specs.Wavering.{bits_of};
ghost use Rattle.nor_driver.specs.Probe.{IsAcceptedChip, Probes, probe_answer, told};
ghost use Rattle.nor_driver.specs.Shown.{Found, IsBehindDriver, shown};

use crate::probe::survey;
use crate::{Nor, NorError, ProbeError};
use chip_model::{PowerLost, SpiBus};
use spi_frames::{Frame, Register, Status1, fill_program, status, write_enable};

/// A chip behind a bus, of which nothing is protected; it passes the checks of a probe at any time.
#[derive(Drop)]
pub struct Driver<B: SpiBus> {
    bus: B,
    bytes: u32,
    large: bool,
    slow: bool,
    ghost size: { length (B.chip bus).memory ≡ bytes },
    ghost whole: { bytes % 65536 ≡ 0 },
    ghost least: { 65536 ≤ bytes },
    ghost most: { bytes ≤ 16777216 },
    ghost accepted: { IsAcceptedChip (B.chip bus) },
    ghost unprotected: { is_unprotected (B.chip bus) ≡ true },
    ghost in_memory: { is_setting (B.chip bus).operation ≡ false },
    ghost idle: { (slow || is_idle (B.chip bus).operation) ≡ true },
}

impl<B: SpiBus> Driver<B> {
    /// Turns the power of the bus's chip off and on again, and checks in this order: id bytes EFh
    /// 40h and a third byte from 10h to 18h, else `WrongId`; an SFDP table that `read_params`
    /// accepts, else `Sfdp`; that the third id byte is that of the table's size, else `WrongId`;
    /// BP, SEC, CMP and WPS 0, else `Protected`.
    ///
    /// `Cut` only where the power went in this call or couldn't be turned on; `Slow` is never
    /// answered. With each refusal the bus is handed back. The memory is as before, but where an
    /// operation was in progress; where none was, the answer but Cut is that of the chip as it was,
    /// and a further probe of the bus that is handed back gives it too.
    pub fn probe(mut bus: B) -> Result<Driver<B>, (B, ProbeError)>
        ensures found { IfOk result (λ d.
            Found (B.chip bus) (B.cuts bus) (B.slows bus) (⟦<Driver<B> as Nor>⟧.state d)) }
        ensures refused { IfErr result
            (λ r. Probes (Err r.1) (B.chip bus) (B.cuts bus) (B.slows bus) (B.chip r.0) (B.cuts r.0)
            (B.slows r.0)) }
        ensures known { is_idle (B.chip bus).operation ≡ true → IfErr result
            (λ r. (r.1 ≡ ProbeError.Cut) ⊎ (probe_answer (told (B.chip bus)) ≡ Err r.1)) }
        ensures stays { is_setting (B.chip bus).operation ≡ false → IfErr result
            (λ r. probe_answer (told (B.chip r.0)) ≡ probe_answer (told (B.chip bus))) }
        ensures same { is_idle (B.chip bus).operation ≡ true → MatchResult result
            (λ d. (⟦<Driver<B> as Nor>⟧.state d).memory ≡ (B.chip bus).memory)
            (λ r. (B.chip r.0).memory ≡ (B.chip bus).memory) }
        ensures size { MatchResult result
            (λ d. length (⟦<Driver<B> as Nor>⟧.state d).memory ≡ length (B.chip bus).memory)
            (λ r. length (B.chip r.0).memory ≡ length (B.chip bus).memory) }
    {
        match survey(&mut bus) {
            Ok(params) => Ok(Driver {
                bus,
                bytes: params.bytes,
                large: params.large.is_some(),
                slow: false,
            }),
            Err(error) => Err((bus, error)),
        }
    }

    /// Whether units of 64 KiB can be erased. It never changes.
    pub fn has_large(&self) -> bool
        ensures { result ≡ (⟦<Driver<B> as Nor>⟧.state self.now).has_large }
    {
        self.large
    }

    /// The bus, to be looked at.
    pub fn get_ref(&self) -> &B
        ensures { IsBehindDriver (⟦<Driver<B> as Nor>⟧.state self.now) (B.chip result.now)
            (B.cuts result.now) (B.slows result.now) }
    {
        &self.bus
    }

    /// The bus.
    pub fn into_inner(self) -> B
        ensures { IsBehindDriver (⟦<Driver<B> as Nor>⟧.state self) (B.chip result) (B.cuts result)
            (B.slows result) }
    {
        let Driver {
            bus,
            bytes: _bytes,
            large: _large,
            slow: _slow,
        } = self;
        bus
    }

    /// One program or erase, whose frame this is.
    fn apply(&mut self, frame: &[u8]) -> Result<(), NorError>
        requires begins { StartsChange (B.chip self.old.bus) frame.now }
        ensures ok { OnOk result ((B.chip self.new.bus).memory
            ≡ (completed (started (B.chip self.old.bus) frame.now)).memory) }
        ensures cut { IsErrOf result NorError.Cut → let begun =
            started (B.chip self.old.bus) frame.now in
            Leaves (B.chip self.old.bus).memory (TornMemory begun.operation begun.memory)
            (completed begun).memory (B.chip self.new.bus).memory }
        ensures slow { IsErrOf result NorError.Slow
            → (B.chip self.new.bus).memory ≡ (B.chip self.old.bus).memory }
        ensures firm { OnOk result (bits_of (B.chip self.new.bus)
            ≡ bits_of (completed (started (B.chip self.old.bus) frame.now))) }
        ensures cut_bits { IsErrOf result NorError.Cut → let begun =
            started (B.chip self.old.bus) frame.now in
            Leaves (bits_of (B.chip self.old.bus)) (TornIn begun) (bits_of (completed begun))
            (bits_of (B.chip self.new.bus)) }
        ensures slow_bits { IsErrOf result NorError.Slow
            → (B.chip self.new.bus).weak ≡ (B.chip self.old.bus).weak }
        ensures size { length (B.chip self.new.bus).memory ≡ length (B.chip self.old.bus).memory }
        ensures ready { OnOk result (IsNorReady (⟦<Driver<B> as Nor>⟧.state self.old)) }
        ensures kept { OnOk result (OnlyMemoryChanges (⟦<Driver<B> as Nor>⟧.state self.old)
            (⟦<Driver<B> as Nor>⟧.state self.new)) }
        ensures fails { IfErr result (λ e.
            NorFails e (⟦<Driver<B> as Nor>⟧.state self.old)
            (⟦<Driver<B> as Nor>⟧.state self.new)) }
        ensures latches { AnswersWhatIsLatched (⟦<Driver<B> as Nor>⟧.state self.old) result
            (⟦<Driver<B> as Nor>⟧.state self.new) }
    {
        if self.slow {
            return Err(NorError::Slow);
        }
        match change(&mut self.bus, frame) {
            Ok(()) => Ok(()),
            Err(NorError::Cut) => Err(NorError::Cut),
            Err(NorError::Slow) => {
                self.slow = true;
                Err(NorError::Slow)
            }
        }
    }
}

impl<B: SpiBus> Nor for Driver<B> {
    ghost state = { λ d. shown (B.chip d.bus) (B.cuts d.bus) (B.slows d.bus) d.slow d.large };

    ghost use Rattle.std.specs.Prelude.{ℕ};
    ghost use Rattle.std.proofs.Common.{subst, sym};
    ghost use Rattle.chip_model.specs.Geometry.{IsChipSize};

    ghost sized = { λ d. subst (λ (n : ℕ). IsChipSize n) (sym d.size)
        (record { whole = d.whole; least = d.least; most = d.most }) };

    fn bytes(&self) -> u32 {
        self.bytes
    }

    fn read(&mut self, at: u32, into: &mut [u8]) -> Result<(), NorError> {
        if self.slow {
            return Err(NorError::Slow);
        }
        ask(&mut self.bus, &spi_frames::read(at), into)?;
        Ok(())
    }

    fn program(&mut self, at: u32, bytes: &[u8]) -> Result<(), NorError> {
        let mut frame = Frame::new();
        fill_program(&mut frame, at, bytes);
        self.apply(&frame)
    }

    fn erase_small(&mut self, at: u32) -> Result<(), NorError> {
        self.apply(&spi_frames::erase_small(at))
    }

    fn erase_large(&mut self, at: u32) -> Result<(), NorError> {
        self.apply(&spi_frames::erase_large(at))
    }

    fn restart(&mut self) -> Result<(), NorError> {
        let mut answer = [0u8; 1];
        wake(&mut self.bus, &status(Register::First), &mut answer)?;
        self.slow = false;
        Ok(())
    }

    fn arm(&mut self, count: u32, kind: u8, mask: u8) {
        self.bus.arm(count, kind, mask);
    }
}

/// How often the status of one operation is read at most.
const MOST_POLLS: u32 = 65_535;

/// One frame with no answer, to an idle chip.
fn send<B: SpiBus>(bus: &mut B, frame: &[u8]) -> Result<(), PowerLost>
    requires { is_idle (B.chip bus.old).operation ≡ true }
    ensures chip { OnOk result (B.chip bus.new
        ≡ after_command (B.chip bus.old) (command_of frame.now)) }
    ensures powered { OnOk result ((B.chip bus.old).powered ≡ true) }
    ensures cuts { OnOk result (B.cuts bus.new ≡ B.cuts bus.old) }
    ensures slows { B.slows bus.new ≡ B.slows bus.old }
    ensures lost { OnErr result (Loses (B.chip bus.old) (B.cuts bus.old) frame.now (B.chip bus.new)
        (B.cuts bus.new)) }
{
    bus.transact(frame, &mut [])?;
    Ok(())
}

/// One frame that changes nothing, to an idle chip, and its answer.
pub(crate) fn ask<B: SpiBus>(bus: &mut B, frame: &[u8], into: &mut [u8]) -> Result<(), PowerLost>
    requires idle { is_idle (B.chip bus.old).operation ≡ true }
    requires reads { only_reads (command_of frame.now) ≡ true }
    ensures answers { OnOk result (Receives (B.chip bus.old) (command_of frame.now) into.new) }
    ensures chip { OnOk result (B.chip bus.new ≡ B.chip bus.old) }
    ensures powered { OnOk result ((B.chip bus.old).powered ≡ true) }
    ensures cuts { OnOk result (B.cuts bus.new ≡ B.cuts bus.old) }
    ensures slows { B.slows bus.new ≡ B.slows bus.old }
    ensures lost { OnErr result (Lost (B.chip bus.old) (B.cuts bus.old) (B.chip bus.new)
        (B.cuts bus.new)) }
{
    bus.transact(frame, into)
}

/// Reads the status until the operation in progress has completed.
fn wait_until_idle<B: SpiBus>(bus: &mut B) -> Result<(), NorError>
    requires running { is_idle (B.chip bus.old).operation ≡ false }
    requires powered { (B.chip bus.old).powered ≡ true }
    requires fresh { (B.chip bus.old).polls ≡ 0 }
    ensures chip { OnOk result (B.chip bus.new ≡ completed (B.chip bus.old)) }
    ensures cuts { OnOk result (B.cuts bus.new ≡ B.cuts bus.old) }
    ensures slows { OnOk result (B.slows bus.new ≡ B.slows bus.old) }
    ensures err { IfErr result (λ e.
        WaitFails e (B.chip bus.old) (B.cuts bus.old) (B.slows bus.old) (B.chip bus.new)
        (B.cuts bus.new) (B.slows bus.new)) }
{
    for _read in 0..MOST_POLLS {
        let mut answer = [0u8; 1];
        bus.transact(&status(Register::First), &mut answer)?;
        if !Status1::is_busy(answer[0]) {
            return Ok(());
        }
    }
    Err(NorError::Slow)
}

/// A write enable, the frame of a change, and the wait for its end.
pub(crate) fn change<B: SpiBus>(bus: &mut B, frame: &[u8]) -> Result<(), NorError>
    requires idle { is_idle (B.chip bus.old).operation ≡ true }
    requires running { is_idle (started (B.chip bus.old) frame.now).operation ≡ false }
    requires fresh { (started (B.chip bus.old) frame.now).polls ≡ 0 }
    requires powered { (started (B.chip bus.old) frame.now).powered ≡ (B.chip bus.old).powered }
    ensures chip { OnOk result (B.chip bus.new ≡ completed (started (B.chip bus.old) frame.now)) }
    ensures on { OnOk result ((B.chip bus.old).powered ≡ true) }
    ensures cuts { OnOk result (B.cuts bus.new ≡ B.cuts bus.old) }
    ensures slows { OnOk result (B.slows bus.new ≡ B.slows bus.old) }
    ensures err { IfErr result (λ e.
        ChangeFails e (B.chip bus.old) (B.cuts bus.old) (B.slows bus.old) frame.now (B.chip bus.new)
        (B.cuts bus.new) (B.slows bus.new)) }
{
    send(bus, &write_enable())?;
    send(bus, frame)?;
    wait_until_idle(bus)
}

/// Turns the power off and on again; then one frame that changes nothing, and its answer.
pub(crate) fn wake<B: SpiBus>(bus: &mut B, frame: &[u8], into: &mut [u8]) -> Result<(), PowerLost>
    requires { only_reads (command_of frame.now) ≡ true }
    ensures woken { OnOk result (Woken (B.chip bus.old) (B.chip bus.new)) }
    ensures answers { OnOk result (Receives (B.chip bus.new) (command_of frame.now) into.new) }
    ensures cuts { OnOk result (B.cuts bus.new ≡ B.cuts bus.old) }
    ensures slows { B.slows bus.new ≡ B.slows bus.old }
    ensures lost { OnErr result (Cut (B.chip bus.old) (B.chip bus.new)) }
    ensures counted { OnErr result (B.cuts bus.new ≡ B.cuts bus.old + 1) }
{
    bus.power_on();
    ask(bus, frame, into)
}
