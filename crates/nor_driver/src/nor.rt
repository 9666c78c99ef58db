//! The trait of a NOR memory.

ghost use Rattle.std.specs.Prelude.{◌≡◌, ◌+◌, ◌%◌, ◌<◌, ◌≤◌, true, false, length, slice_range};
ghost use Rattle.std.specs.Prelude.{OnOk, IfErr};
ghost use Rattle.std.specs.Result.{IsErrOf};
ghost use Rattle.chip_model.specs.Geometry.{IsChipSize};
ghost use Rattle.chip_model.specs.Memory.{and_at, erased, TornAnd, TornErase};
ghost use Rattle.nor_driver.specs.State.{NorState, IsNorReady, OnlyMemoryChanges, NorFails};
ghost use Rattle.nor_driver.specs.State.{AnswersWhatIsLatched, Leaves, Restarts, bits_in};
ghost use Rattle.nor_driver.specs.State.{erase_bits, program_bits, TornEraseBits, TornProgramBits};

use crate::NorError;

/// A NOR memory: bytes are read, ANDed and erased.
///
/// Places are counted in bytes from 0. `read`, `program` and the erases answer Ok only where the
/// power is on and no Slow is latched. Where one answers Cut the bytes are as before, torn in that
/// call's way, or changed whole; where it answers Slow they are as before, but the operation is in
/// progress, and what a later `restart` leaves is not said. Source: own.
pub trait Nor {
    /// What is known of the memory: its bytes, what was counted, whether the power is on, and
    /// whether a Slow is latched.
    ghost state: { Self → NorState };

    /// The memory is that of a chip: a multiple of 64 KiB from 64 KiB to 16 MiB.
    ghost sized: { (nor : Self) → IsChipSize (length (state nor).memory) };

    /// The number of bytes. It never changes.
    fn bytes(&self) -> u32
        ensures { result ≡ length (state self.now).memory };

    /// Reads bytes from the place `at` on. After an error `into` holds any bytes.
    fn read(&mut self, at: u32, into: &mut [u8]) -> Result<(), NorError>
        requires start { at < length (state self.old).memory }
        requires range { at + length into.old ≤ length (state self.old).memory }
        ensures ok { OnOk result (into.new
            ≡ slice_range (state self.old).memory at (at + length into.old)) }
        ensures same { (state self.new).memory ≡ (state self.old).memory }
        ensures weak { (state self.new).weak ≡ (state self.old).weak }
        ensures ready { OnOk result (IsNorReady (state self.old)) }
        ensures kept { OnOk result (OnlyMemoryChanges (state self.old) (state self.new)) }
        ensures fails { IfErr result (λ e. NorFails e (state self.old) (state self.new)) }
        ensures latches { AnswersWhatIsLatched (state self.old) result (state self.new) };

    /// Programs 1 to 256 bytes of one page: each byte becomes old AND new.
    fn program(&mut self, at: u32, bytes: &[u8]) -> Result<(), NorError>
        requires some { 0 < length bytes.now }
        requires page { at % 256 + length bytes.now ≤ 256 }
        requires range { at + length bytes.now ≤ length (state self.old).memory }
        ensures ok { OnOk result ((state self.new).memory
            ≡ and_at (state self.old).memory at bytes.now) }
        ensures cut { IsErrOf result NorError.Cut → Leaves (state self.old).memory
            (TornAnd (state self.old).memory at bytes.now)
            (and_at (state self.old).memory at bytes.now) (state self.new).memory }
        ensures slow { IsErrOf result NorError.Slow
            → (state self.new).memory ≡ (state self.old).memory }
        ensures firm { OnOk result (bits_in (state self.new)
            ≡ program_bits (bits_in (state self.old)) at bytes.now) }
        ensures cut_bits { IsErrOf result NorError.Cut → Leaves (bits_in (state self.old))
            (TornProgramBits (bits_in (state self.old)) at bytes.now)
            (program_bits (bits_in (state self.old)) at bytes.now) (bits_in (state self.new)) }
        ensures slow_bits { IsErrOf result NorError.Slow
            → (state self.new).weak ≡ (state self.old).weak }
        ensures size { length (state self.new).memory ≡ length (state self.old).memory }
        ensures ready { OnOk result (IsNorReady (state self.old)) }
        ensures kept { OnOk result (OnlyMemoryChanges (state self.old) (state self.new)) }
        ensures fails { IfErr result (λ e. NorFails e (state self.old) (state self.new)) }
        ensures latches { AnswersWhatIsLatched (state self.old) result (state self.new) };

    /// Erases the unit of 4 KiB that begins at `at`: each byte becomes FFh.
    fn erase_small(&mut self, at: u32) -> Result<(), NorError>
        requires unit { at % 4096 ≡ 0 }
        requires range { at < length (state self.old).memory }
        ensures ok { OnOk result ((state self.new).memory
            ≡ erased (state self.old).memory at 4096) }
        ensures cut { IsErrOf result NorError.Cut → Leaves (state self.old).memory
            (TornErase (state self.old).memory at 4096) (erased (state self.old).memory at 4096)
            (state self.new).memory }
        ensures slow { IsErrOf result NorError.Slow
            → (state self.new).memory ≡ (state self.old).memory }
        ensures firm { OnOk result (bits_in (state self.new)
            ≡ erase_bits (bits_in (state self.old)) at 4096) }
        ensures cut_bits { IsErrOf result NorError.Cut → Leaves (bits_in (state self.old))
            (TornEraseBits (bits_in (state self.old)) at 4096)
            (erase_bits (bits_in (state self.old)) at 4096) (bits_in (state self.new)) }
        ensures slow_bits { IsErrOf result NorError.Slow
            → (state self.new).weak ≡ (state self.old).weak }
        ensures size { length (state self.new).memory ≡ length (state self.old).memory }
        ensures ready { OnOk result (IsNorReady (state self.old)) }
        ensures kept { OnOk result (OnlyMemoryChanges (state self.old) (state self.new)) }
        ensures fails { IfErr result (λ e. NorFails e (state self.old) (state self.new)) }
        ensures latches { AnswersWhatIsLatched (state self.old) result (state self.new) };

    /// Erases the unit of 64 KiB that begins at `at`, where the chip has such units: each byte
    /// becomes FFh.
    fn erase_large(&mut self, at: u32) -> Result<(), NorError>
        requires offered { (state self.old).has_large ≡ true }
        requires unit { at % 65536 ≡ 0 }
        requires range { at < length (state self.old).memory }
        ensures ok { OnOk result ((state self.new).memory
            ≡ erased (state self.old).memory at 65536) }
        ensures cut { IsErrOf result NorError.Cut → Leaves (state self.old).memory
            (TornErase (state self.old).memory at 65536) (erased (state self.old).memory at 65536)
            (state self.new).memory }
        ensures slow { IsErrOf result NorError.Slow
            → (state self.new).memory ≡ (state self.old).memory }
        ensures firm { OnOk result (bits_in (state self.new)
            ≡ erase_bits (bits_in (state self.old)) at 65536) }
        ensures cut_bits { IsErrOf result NorError.Cut → Leaves (bits_in (state self.old))
            (TornEraseBits (bits_in (state self.old)) at 65536)
            (erase_bits (bits_in (state self.old)) at 65536) (bits_in (state self.new)) }
        ensures slow_bits { IsErrOf result NorError.Slow
            → (state self.new).weak ≡ (state self.old).weak }
        ensures size { length (state self.new).memory ≡ length (state self.old).memory }
        ensures ready { OnOk result (IsNorReady (state self.old)) }
        ensures kept { OnOk result (OnlyMemoryChanges (state self.old) (state self.new)) }
        ensures fails { IfErr result (λ e. NorFails e (state self.old) (state self.new)) }
        ensures latches { AnswersWhatIsLatched (state self.old) result (state self.new) };

    /// Turns the power off and on again, which ends a Slow. Answers Ok or Cut. The bytes are as
    /// before, but that an operation which a Slow left in progress may leave any of its own.
    fn restart(&mut self) -> Result<(), NorError>
        ensures restarts { Restarts result (state self.old) (state self.new) }
        ensures same { (state self.old).is_slow ≡ false
            → (state self.new).memory ≡ (state self.old).memory }
        ensures weak { (state self.old).is_slow ≡ false
            → (state self.new).weak ≡ (state self.old).weak }
        ensures size { length (state self.new).memory ≡ length (state self.old).memory };

    /// Arms a loss of power in a simulated chip; other chips don't heed it. `kind` 0 counts every
    /// frame, 1 only accepted programs, erases and status writes; the power goes inside the
    /// `count`-th from now, 1 being the next, and 0 disarms. There a page and a register take their
    /// new bits only where `mask` has a 1, and an erased unit is filled with `mask`.
    fn arm(&mut self, count: u32, kind: u8, mask: u8)
        ensures { state self.new ≡ state self.old };
}
