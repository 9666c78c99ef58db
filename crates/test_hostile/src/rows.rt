//! A server that keeps rows, where there is no memory for its record or a row.

ghost use Rattle.std.specs.Prelude.{◌≡◌, ◌*◌, length, IsFalse};
ghost use Rattle.nbd_wire.specs.Lent.{lent_len};
ghost use Rattle.nbd_wire.specs.Commands.{default_export};

use bitflags::Flags;
use block_device::PlainDisk;
use nbd_share::{Done, FullRecord, OneServer, Pass, RecordError, Shared};
use nbd_transmission::judge;
use nbd_wire::{Command, CommandFlags, CommandKind, Export};
use std::alloc::Global;
use std::marker::Brand;
use std::process::Abort;
use std::sync::ledger::Blank;
use std::test::*;
use test_kit::spend;

/// A READ or a WRITE of the first bytes.
fn command(kind: CommandKind, len: u32) -> Command
    ensures kind { result.kind ≡ kind }
    ensures length { result.length ≡ len }
{
    Command {
        kind,
        flags: CommandFlags::from_bits_retain(0),
        cookie: 7,
        offset: 0,
        length: len,
    }
}

/// The error that answers a command.
fn error_of<L: OneServer, A: Abort>(
    rt: &A,
    server: &mut Shared<PlainDisk, FullRecord, L>,
    pass: &mut Pass<L>,
    command: &Command,
    bytes: &mut [u8],
) -> u32
    requires { length bytes.old ≡ lent_len command.now }
{
    assert_eq!(rt; judge(command, pass.export()), None);
    match server.execute(pass, command, bytes) {
        Done::Replied(answer) => answer.error(),
        Done::Lost => panic!(rt; "no power was lost"),
    }
}

#[test]
fn a_row_without_memory_is_answered_enomem(rt: HostRuntime) -> Result<(), Fail> {
    let disk = PlainDisk::new(rt.alloc(), 128)?;
    keep_rows::<Brand, Brand, _>(
        &rt,
        rt.alloc(),
        disk,
        128,
        65_536,
        Blank::new(65537),
        Blank::new(65537),
    )
}

/// ENOMEM is 12 (NBD proto.md).
fn keep_rows<K: OneServer, L: OneServer, A: Abort>(
    rt: &A,
    alloc: Global,
    disk: PlainDisk,
    sectors: u32,
    len: u32,
    first: Blank,
    blank: Blank,
) -> Result<(), Fail>
    requires size { length disk ≡ 512 * sectors }
    requires sectors { (K.export ≡ default_export sectors) × (L.export ≡ default_export sectors) }
    requires names { (first.name ≡ K.name) × (blank.name ≡ L.name) }
    requires parts { (first.parts ≡ K.parts) × (blank.parts ≡ L.parts) }
    requires all { (first.parts ≡ 65537) × (blank.parts ≡ 65537) }
    requires unsaid { IsFalse K.sound }
    requires also_unsaid { IsFalse L.sound }
{
    let held = spend(alloc, 0)?;
    let refused = Shared::<PlainDisk, FullRecord, K>::recording(
        alloc,
        disk,
        Export::default_for(sectors),
        first,
    );
    drop(held);
    let Err((RecordError::OutOfMemory, disk)) = refused else {
        panic!(rt; "a record without memory");
    };
    let Ok(mut server) = Shared::<PlainDisk, FullRecord, L>::recording(
        alloc,
        disk,
        Export::default_for(sectors),
        blank,
    ) else {
        panic!(rt; "a recording server");
    };
    let mut pass = server.pass().expect(rt, "a pass");
    let mut content = vec![in alloc; 0u8; len as usize]?;
    let mut payload = vec![in alloc; 0x11u8; len as usize]?;
    let read = command(CommandKind::Read, len);
    let write = command(CommandKind::Write, len);
    // no memory at all; room for the list of rows, but not for its payload beside it; then the list
    // is there
    for (size, wanted, rows) in [(0, 12, 0u64), (len, 12, 0), (len, 0, 1)] {
        let held = spend(alloc, size as usize)?;
        let error = error_of(rt, &mut server, &mut pass, &write, payload.as_mut_slice());
        drop(held);
        assert_eq!(rt; error, wanted);
        assert_eq!(rt; pass.count(), rows);
        assert!(rt; payload.iter().all(|byte| *byte == 0x11));
    }
    let held = spend(alloc, 0)?;
    let error = error_of(rt, &mut server, &mut pass, &read, content.as_mut_slice());
    drop(held);
    assert_eq!(rt; error, 12);
    assert!(rt; content.iter().all(|byte| *byte == 0));
    let error = error_of(rt, &mut server, &mut pass, &read, content.as_mut_slice());
    assert_eq!(rt; error, 0);
    assert_eq!(rt; pass.count(), 2);
    assert_eq!(rt; content.as_slice(), payload.as_slice());
    Ok(())
}
