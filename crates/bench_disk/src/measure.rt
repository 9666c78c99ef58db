//! The measurement of a mount, of a call, and of what goes over the whole disk.

ghost use Rattle.std.specs.Prelude.{◌≡◌, length, IfOk};
ghost use Rattle.bench_disk.specs.Call.{call_bytes};

use crate::call::Call;
use crate::calls::{calls, prepare, zero_all};
use crate::clock::{COPIES, now, time_of_copies};
use crate::disks::{CHIP_BYTES, Filling, OnSim, filled, mounted, new_disk};
use crate::failure::Failure;
use crate::figures::{nanos, per_call};
use crate::row::Row;
use block_device::Disk;
use std::alloc::Global;
use std::rt::Clock;

/// How often the calls are timed; the least time counts. A chip is filled for each go, which takes
/// a while.
const GOES: u32 = 5;

/// How often a mount is timed; the least time counts.
const MOUNTS: u32 = 20;

/// The bytes to which a mount is compared: four for each of the 4,096 blocks, as long as a header.
pub const HEADERS: usize = 16_384;

/// The bytes of the disk: 25,060 sectors.
const DISK_BYTES: usize = 12_830_720;

/// Times one go of the calls on a new disk, in nanoseconds.
fn time_of_calls<C: Clock>(
    clock: &C,
    alloc: Global,
    call: Call,
    buffer: &mut [u8],
) -> Result<u64, Failure>
    requires bytes { length buffer.old ≡ call_bytes call }
    ensures bytes { length buffer.new ≡ length buffer.old }
{
    let mut disk = new_disk(alloc, call.filling())?;
    prepare(call, &mut disk)?;
    let start = now(clock)?;
    let made = calls(call, &mut disk, buffer);
    let end = now(clock)?;
    made?;
    Ok(nanos(end.duration_since(start)))
}

/// Mounts the chip of a disk again, and times this mount, in nanoseconds.
fn time_of_mount(clock: &impl Clock, alloc: Global, disk: OnSim) -> Result<(OnSim, u64), Failure>
    ensures size { IfOk result (λ r. length (⟦<OnSim as Disk>⟧.facts r.0).contents ≡ 12830720) }
{
    let chip = disk.into_inner();
    let start = now(clock)?;
    let mount = mounted(alloc, chip);
    let end = now(clock)?;
    Ok((mount?, nanos(end.duration_since(start))))
}

/// Measures the mount of a chip: mounts of the same chip and copies in turn; the least times count.
pub fn measured_mount<C: Clock>(clock: &C, alloc: Global, filling: Filling) -> Result<Row, Failure>
    ensures bytes { IfOk result (λ row. row.bytes ≡ 16384) }
{
    let from = filled(alloc, HEADERS, 0xFF)?;
    let mut into = filled(alloc, HEADERS, 0xFF)?;
    let mut disk = new_disk(alloc, filling)?;
    let mut time = u64::MAX;
    let mut copy = u64::MAX;
    for _go in 0..MOUNTS {
        let (again, this) = time_of_mount(clock, alloc, disk)?;
        disk = again;
        time = time.min(this);
        copy = copy.min(time_of_copies(clock, &from, &mut into, COPIES)?);
    }
    Ok(Row {
        name: filling.mount_name(),
        bytes: HEADERS as u64,
        call: time,
        copy: per_call(copy, COPIES),
    })
}

/// Measures a call: calls, each go of them on a new disk, and copies in turn; the least times
/// count.
pub fn measured_call<C: Clock>(clock: &C, alloc: Global, call: Call) -> Result<Row, Failure>
    ensures bytes { IfOk result (λ row. row.bytes ≡ call_bytes call) }
{
    let from = filled(alloc, call.bytes(), 0xFF)?;
    let mut buffer = filled(alloc, call.bytes(), 0xFF)?;
    let mut time = u64::MAX;
    let mut copy = u64::MAX;
    for _go in 0..GOES {
        time = time.min(time_of_calls(clock, alloc, call, &mut buffer)?);
        copy = copy.min(time_of_copies(clock, &from, &mut buffer, COPIES)?);
    }
    Ok(Row {
        name: call.name(),
        bytes: call.bytes() as u64,
        call: per_call(time, call.calls()),
        copy: per_call(copy, COPIES),
    })
}

/// Times a `check` of a disk, in nanoseconds.
fn time_of_check(clock: &impl Clock, disk: &mut OnSim) -> Result<u64, Failure> {
    let start = now(clock)?;
    let checked = disk.check();
    let end = now(clock)?;
    if checked? {
        Ok(nanos(end.duration_since(start)))
    } else {
        Err(Failure::Refused)
    }
}

/// Measures the check of a chip, which reads all its data blocks once, beside a copy of as many
/// bytes as the chip has; the least times count.
pub fn measured_check<C: Clock>(clock: &C, alloc: Global, filling: Filling) -> Result<Row, Failure>
    ensures bytes { IfOk result (λ row. row.bytes ≡ 16777216) }
{
    let from = filled(alloc, CHIP_BYTES, 0xFF)?;
    let mut into = filled(alloc, CHIP_BYTES, 0xFF)?;
    let mut disk = new_disk(alloc, filling)?;
    let mut time = u64::MAX;
    let mut copy = u64::MAX;
    for _go in 0..GOES {
        time = time.min(time_of_check(clock, &mut disk)?);
        copy = copy.min(time_of_copies(clock, &from, &mut into, 1)?);
    }
    Ok(Row {
        name: filling.check_name(),
        bytes: CHIP_BYTES as u64,
        call: time,
        copy,
    })
}

/// Times a `zero` of the whole disk on a new full chip, in nanoseconds.
fn time_of_zero(clock: &impl Clock, alloc: Global) -> Result<u64, Failure> {
    let mut disk = new_disk(alloc, Filling::Full)?;
    let start = now(clock)?;
    let made = zero_all(&mut disk);
    let end = now(clock)?;
    made?;
    Ok(nanos(end.duration_since(start)))
}

/// Measures a `zero` of the whole disk, of which each sector was written, beside a copy of as many
/// bytes; the least times count.
pub fn measured_zero<C: Clock>(clock: &C, alloc: Global) -> Result<Row, Failure>
    ensures bytes { IfOk result (λ row. row.bytes ≡ 12830720) }
{
    let from = filled(alloc, DISK_BYTES, 0)?;
    let mut into = filled(alloc, DISK_BYTES, 0xFF)?;
    let mut time = u64::MAX;
    let mut copy = u64::MAX;
    for _go in 0..GOES {
        time = time.min(time_of_zero(clock, alloc)?);
        copy = copy.min(time_of_copies(clock, &from, &mut into, 1)?);
    }
    Ok(Row {
        name: "zero of the whole disk",
        bytes: DISK_BYTES as u64,
        call: time,
        copy,
    })
}
