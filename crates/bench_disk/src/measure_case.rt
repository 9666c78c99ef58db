//! The measurement of a case, through a station and through a connection.

ghost use Rattle.std.specs.Prelude.{◌≡◌, ◌*◌, length, IsFalse};
ghost use Rattle.nbd_wire.specs.Commands.{default_export};

use crate::case::Case;
use crate::clock::{COPIES, now, time_of_copies};
use crate::commands::{new_input, read_back, run, told};
use crate::disks::{Filling, filled, new_disk, plain};
use crate::events::{events, new_request, ready};
use crate::failure::Failure;
use crate::figures::{nanos, per_call};
use crate::row::Row;
use block_device::Disk;
use nbd_share::{NoRecord, OneServer, Shared};
use nbd_wire::Export;
use std::alloc::Global;
use std::marker::Brand;
use std::rt::Clock;
use std::sync::ledger::Blank;

/// How often the commands are timed; the least time counts.
const GOES: u32 = 5;

/// How many events write each sector of a disk that is then read.
const WRITES: u32 = 195;

/// Times one go of the events on a disk, in nanoseconds. What is read was written before.
fn time_of_events<C: Clock, D: Disk + Drop>(
    clock: &C,
    alloc: Global,
    case: Case,
    disk: D,
) -> Result<u64, Failure> {
    let mut station = ready(alloc, disk)?;
    if case.is_read() {
        let mut write = new_request(alloc, false)?;
        events(&mut station, write.as_mut_slice(), WRITES, false)?;
    }
    let mut request = new_request(alloc, case.is_read())?;
    let start = now(clock)?;
    let made = events(
        &mut station,
        request.as_mut_slice(),
        case.commands(),
        case.is_read(),
    );
    let end = now(clock)?;
    made?;
    Ok(nanos(end.duration_since(start)))
}

/// Times one connection over a server of a disk, in nanoseconds. What is read was written before,
/// over another; what is written is read back afterwards.
fn time_over<C: Clock, D: Disk + Drop, L: OneServer>(
    clock: &C,
    alloc: Global,
    case: Case,
    disk: D,
    sectors: u32,
    blank: Blank,
) -> Result<u64, Failure>
    requires size { length (D.facts disk).contents ≡ 512 * sectors }
    requires sectors { L.export ≡ default_export sectors }
    requires name { blank.name ≡ L.name }
    requires parts { (blank.parts ≡ L.parts) × (blank.parts ≡ 65537) }
    requires unsaid { IsFalse L.sound }
{
    let (count, length) = (case.commands(), case.length());
    let mut server = Shared::<D, NoRecord, L>::new(disk, Export::default_for(sectors), blank);
    if case.is_read() {
        let writes = new_input(alloc, count, length, false)?;
        run(alloc, &mut server, &writes, told(count, length, false))?;
    }
    let input = new_input(alloc, count, length, case.is_read())?;
    let wanted = told(count, length, case.is_read());
    let start = now(clock)?;
    let made = run(alloc, &mut server, &input, wanted);
    let end = now(clock)?;
    made?;
    if !case.is_read() {
        read_back(alloc, &mut server, count, length)?;
    }
    Ok(nanos(end.duration_since(start)))
}

/// Times one go of the commands over a new server of a disk, in nanoseconds.
fn time_of_commands<C: Clock, D: Disk + Drop>(
    clock: &C,
    alloc: Global,
    case: Case,
    disk: D,
) -> Result<u64, Failure> {
    let sectors = disk.sectors();
    time_over::<C, D, Brand>(clock, alloc, case, disk, sectors, Blank::new(65537))
}

/// Measures a case through a station: events, each go of them on a new disk, and copies in turn;
/// the least times count.
pub fn measured_events<C: Clock>(clock: &C, alloc: Global, case: Case) -> Result<Row, Failure> {
    let size = case.length().bytes() as usize;
    let from = filled(alloc, size, 0x5A)?;
    let mut into = filled(alloc, size, 0xFF)?;
    let mut time = u64::MAX;
    let mut copy = u64::MAX;
    for _go in 0..GOES {
        let this = if case.is_on_flash() {
            time_of_events(clock, alloc, case, new_disk(alloc, Filling::Formatted)?)?
        } else {
            time_of_events(clock, alloc, case, plain(alloc)?)?
        };
        time = time.min(this);
        copy = copy.min(time_of_copies(clock, &from, &mut into, COPIES)?);
    }
    Ok(Row {
        name: case.name(),
        bytes: size as u64,
        call: per_call(time, case.commands()),
        copy: per_call(copy, COPIES),
    })
}

/// Measures a case through a connection: commands, each go of them on a new disk, and copies in
/// turn; the least times count.
pub fn measured_commands<C: Clock>(clock: &C, alloc: Global, case: Case) -> Result<Row, Failure> {
    let size = case.length().bytes() as usize;
    let from = filled(alloc, size, 0x5A)?;
    let mut into = filled(alloc, size, 0xFF)?;
    let mut time = u64::MAX;
    let mut copy = u64::MAX;
    for _go in 0..GOES {
        let this = if case.is_on_flash() {
            time_of_commands(clock, alloc, case, new_disk(alloc, Filling::Formatted)?)?
        } else {
            time_of_commands(clock, alloc, case, plain(alloc)?)?
        };
        time = time.min(this);
        copy = copy.min(time_of_copies(clock, &from, &mut into, COPIES)?);
    }
    Ok(Row {
        name: case.name(),
        bytes: size as u64,
        call: per_call(time, case.commands()),
        copy: per_call(copy, COPIES),
    })
}
