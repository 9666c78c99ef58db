//! The calls of a go.

ghost use Rattle.std.specs.Prelude.{◌≡◌, ◌+◌, ◌<◌, ◌≤◌, length, OnOk};
ghost use Rattle.bench_disk.specs.Call.{call_bytes, calls_of};

use crate::call::Call;
use crate::disks::SECTORS;
use crate::failure::Failure;
use block_device::Disk;

/// One call. A tidying that clears nothing is refused.
pub fn make<D: Disk>(
    call: Call,
    disk: &mut D,
    number: u32,
    buffer: &mut [u8],
) -> Result<(), Failure>
    requires size { length (D.facts disk.old).contents ≡ 12830720 }
    requires bytes { length buffer.old ≡ call_bytes call }
    ensures size { length (D.facts disk.new).contents ≡ 12830720 }
    ensures bytes { length buffer.new ≡ length buffer.old }
    ensures tidied { call ≡ Call.Tidy
        → OnOk result ((D.facts disk.new).work < (D.facts disk.old).work) }
{
    let first = call.first(number);
    match call {
        Call::ShortRead => disk.read(first, buffer)?,
        Call::LongRead => disk.read(first, buffer)?,
        Call::FirstWrite => disk.write(first, buffer)?,
        Call::ShortWrite => disk.write(first, buffer)?,
        Call::LongWrite => disk.write(first, buffer)?,
        Call::CopyingWrite => disk.write(first, buffer)?,
        Call::Tidy => {
            let cleared = disk.tidy()?;
            if !cleared {
                return Err(Failure::Refused);
            }
        }
    }
    Ok(())
}

/// The calls of one go.
#[inline(never)]
pub fn calls<D: Disk>(call: Call, disk: &mut D, buffer: &mut [u8]) -> Result<(), Failure>
    requires size { length (D.facts disk.old).contents ≡ 12830720 }
    requires bytes { length buffer.old ≡ call_bytes call }
    ensures size { length (D.facts disk.new).contents ≡ 12830720 }
    ensures bytes { length buffer.new ≡ length buffer.old }
    ensures tidied { call ≡ Call.Tidy
        → OnOk result ((D.facts disk.new).work + calls_of call ≤ (D.facts disk.old).work) }
{
    for number in 0..call.calls() {
        make(call, disk, number, buffer)?;
    }
    Ok(())
}

/// The slots of a full chip that are free outside the reserve.
const FREE_SLOTS: u32 = 3_577;

/// Writes one sector of each of the first 3,577 blocks of a full chip anew, so that no slot is free
/// outside the reserve and these blocks have one dead slot each; and one more, for which the first
/// of them is copied.
fn use_free_slots<D: Disk>(disk: &mut D) -> Result<(), Failure>
    requires size { length (D.facts disk.old).contents ≡ 12830720 }
    ensures size { length (D.facts disk.new).contents ≡ 12830720 }
{
    let sector = [0xC3u8; 512];
    for number in 0..FREE_SLOTS {
        disk.write(7 * number, &sector)?;
    }
    disk.write(1, &sector)?;
    Ok(())
}

/// Makes as many dead slots as a go of tidyings needs, and uses all free slots for writes that
/// copy; other calls need neither.
pub fn prepare<D: Disk>(call: Call, disk: &mut D) -> Result<(), Failure>
    requires size { length (D.facts disk.old).contents ≡ 12830720 }
    ensures size { length (D.facts disk.new).contents ≡ 12830720 }
{
    match call {
        Call::ShortRead => Ok(()),
        Call::LongRead => Ok(()),
        Call::FirstWrite => Ok(()),
        Call::ShortWrite => Ok(()),
        Call::LongWrite => Ok(()),
        Call::CopyingWrite => use_free_slots(disk),
        Call::Tidy => calls(Call::ShortWrite, disk, &mut [0xA5u8; 512]),
    }
}

/// Writes zeros over all sectors by one call.
#[inline(never)]
pub fn zero_all<D: Disk>(disk: &mut D) -> Result<(), Failure>
    requires size { length (D.facts disk.old).contents ≡ 12830720 }
{
    disk.zero(0, SECTORS)?;
    Ok(())
}
