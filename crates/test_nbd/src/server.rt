//! The server of a disk whose chip never ends a write.

ghost use Rattle.std.specs.Prelude.{◌≡◌, ◌<◌, length, IsFalse};
ghost use Rattle.nbd_wire.specs.Lent.{lent_len};
ghost use Rattle.nbd_wire.specs.Commands.{default_export};

use block_device::{Disk, DiskError, Tally};
use nbd_share::{Done, FullRecord, OneServer, Pass, Shared};
use nbd_transmission::judge;
use nbd_wire::{Command, CommandFlags, CommandKind, Export};
use std::alloc::Global;
use std::marker::Brand;
use std::process::Abort;
use std::sync::ledger::{Blank, Ledger};
use std::test::*;

/// A disk of two sectors whose chip never ends a write.
#[derive(Drop)]
struct StuckDisk<L: Ledger> {
    is_slow: bool,
    slows: Tally<L>,
}

impl<L: Ledger> Disk for StuckDisk<L> {
    ghost use Rattle.std.specs.Prelude.{false, replicate};

    ghost facts = { λ disk. record {
      sound = false;
      contents = replicate 1024 0;
      cuts = 0;
      slows = disk.slows;
      cut = false;
      slow = disk.is_slow;
      work = 0;
    } };

    fn sectors(&self) -> u32 {
        2
    }

    fn read(&mut self, _first: u32, _into: &mut [u8]) -> Result<(), DiskError> {
        if self.is_slow {
            Err(DiskError::Slow)
        } else {
            Ok(())
        }
    }

    fn write(&mut self, _first: u32, _from: &[u8]) -> Result<(), DiskError> {
        self.slows.tick();
        self.is_slow = true;
        Err(DiskError::Slow)
    }

    fn zero(&mut self, _first: u32, _count: u32) -> Result<(), DiskError> {
        self.slows.tick();
        self.is_slow = true;
        Err(DiskError::Slow)
    }

    fn flush(&mut self) -> Result<(), DiskError> {
        Ok(())
    }

    fn tidy(&mut self) -> Result<bool, DiskError> {
        if self.is_slow {
            Err(DiskError::Slow)
        } else {
            Ok(false)
        }
    }

    fn restore(&mut self) -> Result<(), DiskError> {
        self.is_slow = false;
        Ok(())
    }

    fn arm(&mut self, _count: u32, _kind: u8, _mask: u8) {}
}

fn command(kind: CommandKind, offset: u64, length: u32) -> Command
    ensures kind { result.kind ≡ kind }
    ensures length { result.length ≡ length }
{
    Command {
        kind,
        flags: CommandFlags::FUA,
        cookie: 7,
        offset,
        length,
    }
}

/// The error that answers a command.
fn error_of<L: OneServer, M: Ledger, A: Abort>(
    rt: &A,
    server: &mut Shared<StuckDisk<M>, FullRecord, L>,
    pass: &mut Pass<L>,
    command: &Command,
    bytes: &mut [u8],
) -> u32
    requires { length bytes.old ≡ lent_len command.now }
{
    assert_eq!(rt; judge(command, pass.export()), None);
    match server.execute(pass, command, bytes) {
        Done::Replied(answer) => answer.error(),
        Done::Lost => panic!(rt; "no power was lost"),
    }
}

#[test]
fn a_slow_write_is_answered_eio(rt: HostRuntime) -> Result<(), Fail> {
    write_slowly::<Brand, Brand, _>(&rt, rt.alloc(), 2, Blank::new(65537), Blank::new(1))
}

/// EIO is 5 (NBD proto.md).
fn write_slowly<L: OneServer, M: Ledger, A: Abort>(
    rt: &A,
    alloc: Global,
    sectors: u32,
    blank: Blank,
    tally: Blank,
) -> Result<(), Fail>
    requires two { sectors ≡ 2 }
    requires sectors { L.export ≡ default_export sectors }
    requires name { blank.name ≡ L.name }
    requires parts { blank.parts ≡ L.parts }
    requires all { blank.parts ≡ 65537 }
    requires unsaid { IsFalse L.sound }
    requires tally_name { tally.name ≡ M.name }
    requires tally_parts { tally.parts ≡ M.parts }
    requires some { 0 < M.parts }
{
    let disk = StuckDisk::<M> {
        is_slow: false,
        slows: Tally::new(tally),
    };
    let Ok(mut server) = Shared::<StuckDisk<M>, FullRecord, L>::recording(
        alloc,
        disk,
        Export::default_for(sectors),
        blank,
    ) else {
        panic!(rt; "a recording server");
    };
    let mut pass = server.pass().expect(rt, "the first pass");
    let mut bytes = [0x11u8; 512];
    let errors = errors_of_four(rt, &mut server, &mut pass, &mut bytes);
    assert_eq!(rt; errors, [0, 5, 5, 0]);
    assert_eq!(rt; pass.count(), 4);
    assert_eq!(rt; server.tidy(), Err(DiskError::Slow));
    Ok(())
}

/// The errors that answer a READ, a WRITE, the READ again and a FLUSH.
fn errors_of_four<L: OneServer, M: Ledger, A: Abort>(
    rt: &A,
    server: &mut Shared<StuckDisk<M>, FullRecord, L>,
    pass: &mut Pass<L>,
    bytes: &mut [u8],
) -> [u32; 4]
    requires { length bytes.old ≡ 512 }
{
    let write = command(CommandKind::Write, 512, 512);
    let read = command(CommandKind::Read, 512, 512);
    let flush = command(CommandKind::Flush, 0, 0);
    [
        error_of(rt, server, pass, &read, bytes),
        error_of(rt, server, pass, &write, bytes),
        error_of(rt, server, pass, &read, bytes),
        error_of(rt, server, pass, &flush, &mut []),
    ]
}
