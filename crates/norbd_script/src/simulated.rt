//! The same on a chip in memory.

ghost use Rattle.std.specs.Prelude.{◌≡◌, ◌*◌};
ghost use Rattle.chip_model.specs.Geometry.{IsChipSize, sector_count};
ghost use Rattle.norbd_script.specs.Answered.{script_part};
ghost use Rattle.norbd_script.specs.Simulated.{SimulatesScript};
ghost use Rattle.nbd_station.specs.Script.{FailsToReadAll, FailsToWrite};

use crate::error::RunFault;
use crate::running::run_formatted;
use block_device::{Sink, Source};
use chip_simulator::PromptChip;
use sector_stock::Policy;
use std::alloc::Global;

/// Runs a script on a chip of so many KiB in memory, which is formatted first: its records come
/// from `reader`, the transcript goes to `writer`.
///
/// Slots and blocks are chosen by this policy. Records may arm a loss of power inside a frame of
/// the chip. No operation of the chip is slow, so that the transcript is that of a plain array of
/// sectors without a premise. `OutOfMemory` where there is no memory for the chip, the disk's table
/// or the station; nothing is read or written then.
pub fn run_simulated<S: Source, W: Sink>(
    alloc: Global,
    kib: u32,
    policy: Policy,
    reader: &mut S,
    writer: &mut W,
) -> Result<(), RunFault>
    requires size { IsChipSize (1024 * kib) }
    ensures says { SimulatesScript (sector_count (1024 * kib)) (S.remaining reader.old)
        (W.written writer.old) result (S.remaining reader.new) (W.written writer.new) }
    // its refusals of the input and of the output come exactly where a read or a write failed, or
    // the input didn't end
    ensures reads { FailsToReadAll (S.remaining reader.old) (S.faults reader.old)
        (script_part result) (S.faults reader.new) }
    ensures writes { FailsToWrite (W.faults writer.old) (script_part result) (W.faults writer.new) }
{
    let Ok(erased) = vec![in alloc; 0xFFu8; 1024 * kib as usize] else {
        return Err(RunFault::OutOfMemory);
    };
    let Ok(chip) = PromptChip::new(erased) else {
        unreachable!()
    };
    let (_chip, answer) = run_formatted(alloc, chip, policy, reader, writer);
    answer
}
