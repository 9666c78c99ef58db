//! The superblock's first bytes are read, and byte 15 is programmed.

ghost use Rattle.std.specs.Prelude.{◌≡◌, ◌⊎◌, length, slice_range, OnOk};
ghost use Rattle.std.specs.Result.{IsErrOf};
ghost use Rattle.chip_model.specs.Memory.{byte};
ghost use Rattle.nor_driver.specs.State.{IsNorReady};
ghost use Rattle.erase_journal.specs.Journals.{IsSettled, IsHealthy};
ghost use Rattle.erase_journal.specs.declared.known.Known.{Known};
ghost use Rattle.erase_journal.specs.Known.{IsKnown};
ghost use Rattle.erase_journal.specs.Blocks.{OnlySuper};
ghost use Rattle.erase_journal.specs.Steps.{EndsSettled};

use nor_driver::{Nor, NorError};
use nor_layout::{MIXED, MIXED_PLACE, SUPER_LEN};

/// Reads the first bytes of the superblock.
pub(crate) fn read_superblock<N: Nor>(nor: &mut N, into: &mut [u8]) -> Result<(), NorError>
    requires settled { IsNorReady (N.state nor.old) → IsSettled (N.state nor.old).memory }
    requires room { length into.old ≡ SUPER_LEN }
    ensures ok { OnOk result (into.new ≡ slice_range (N.state nor.old).memory 0 SUPER_LEN) }
    ensures size { length into.new ≡ length into.old }
    ensures same { (N.state nor.new).memory ≡ (N.state nor.old).memory }
    ensures weak { (N.state nor.new).weak ≡ (N.state nor.old).weak }
    ensures ends { EndsSettled result (N.state nor.old) (N.state nor.new) }
{
    nor.read(0, into)?;
    Ok(())
}

/// Programs byte 15 of the superblock: one bit changes, so it is old or new where it is cut.
pub(crate) fn mark_superblock<N: Nor>(nor: &mut N) -> Result<(), NorError>
    requires settled { IsNorReady (N.state nor.old) → IsSettled (N.state nor.old).memory }
    ensures ok { OnOk result (byte (N.state nor.old).memory MIXED_PLACE ≡ 255
        → byte (N.state nor.new).memory MIXED_PLACE ≡ MIXED) }
    ensures cut { IsErrOf result NorError.Cut → byte (N.state nor.old).memory MIXED_PLACE ≡ 255
        → ((N.state nor.new).memory ≡ (N.state nor.old).memory)
        ⊎ (byte (N.state nor.new).memory MIXED_PLACE ≡ MIXED) }
    ensures only { OnlySuper MIXED_PLACE (N.state nor.old).memory (N.state nor.new).memory }
    ensures known { (known : Known) → OnOk result
        (IsKnown known (N.state nor.old).memory → IsKnown known (N.state nor.new).memory) }
    ensures healthy { IsErrOf result NorError.Cut → IsHealthy (N.state nor.old).memory
        → IsHealthy (N.state nor.new).memory }
    ensures ends { EndsSettled result (N.state nor.old) (N.state nor.new) }
{
    nor.program(MIXED_PLACE, &[MIXED])
}
