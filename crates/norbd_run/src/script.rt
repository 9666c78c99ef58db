//! `script`: a script of events on a chip in memory.
ghost use Rattle.std.specs.Prelude.{◌≡◌, ◌*◌};
ghost use Rattle.chip_model.specs.Geometry.{IsChipSize};
ghost use Rattle.norbd_run.specs.Scripting.{Scripts, told_of, told_of_probe};

use block_device::{Sink, Source};
use flash_disk::MountError;
use nbd_station::ScriptError;
use nor_driver::ProbeError;
use norbd_line::{Cause, Fault};
use norbd_script::{RunFault, run_simulated};
use sector_stock::Policy;
use std::alloc::Global;

/// Formats a chip of so many KiB in memory, and runs on it the script that comes from `reader`,
/// with the transcript to `writer`.
///
/// `BadRecord` where the script is none, `InputFailed` and `OutputFailed` where a read or a write
/// failed, `NoMemory` where there is no memory for the chip or the station. A chip in memory gives
/// none of the other faults.
pub fn run_script<S: Source, K: Sink>(
    alloc: Global,
    kib: u32,
    reader: &mut S,
    writer: &mut K,
) -> Result<(), Fault>
    requires { IsChipSize (1024 * kib) }
    ensures { Scripts kib
        (record {
          left = S.remaining reader.old;
          reads = S.faults reader.old;
          written = K.written
              writer.old;
          writes = K.faults writer.old;
        }) result
        (record {
          left = S.remaining reader.new;
          reads = S.faults reader.new;
          written = K.written
              writer.new;
          writes = K.faults writer.new;
        }) }
{
    match run_simulated(alloc, kib, Policy::Lowest, reader, writer) {
        Ok(()) => Ok(()),
        Err(fault) => Err(told_of(fault)),
    }
}

/// What a refusal of a run is for the program.
fn told_of(fault: RunFault) -> Fault
    ensures { result ≡ told_of fault }
{
    match fault {
        RunFault::Format(error) => told_of_probe(error),
        RunFault::Mount(MountError::Probe(error)) => told_of_probe(error),
        RunFault::Mount(MountError::OutOfMemory) => Fault::NoMemory,
        RunFault::Mount(MountError::NotFormatted) => Fault::NotFormatted,
        RunFault::Mount(MountError::Corrupt) => Fault::Corrupt,
        RunFault::NotClean => Fault::NotClean,
        RunFault::OutOfMemory => Fault::NoMemory,
        RunFault::Script(ScriptError::Input) => Fault::InputFailed,
        RunFault::Script(ScriptError::BadRecord) => Fault::BadRecord,
        RunFault::Script(ScriptError::Output) => Fault::OutputFailed,
    }
}

/// What a refusal of a probe is for the program.
pub(crate) fn told_of_probe(error: ProbeError) -> Fault
    ensures { result ≡ told_of_probe error }
{
    match error {
        ProbeError::Cut => Fault::ImageFailed(Cause::Write),
        ProbeError::Slow => Fault::Slow,
        ProbeError::WrongId => Fault::WrongId,
        ProbeError::Sfdp(_) => Fault::BadSfdp,
        ProbeError::Protected => Fault::Protected,
    }
}
