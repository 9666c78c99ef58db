//! A whole connection, a keeper and a power loss, without a socket.

ghost use Rattle.std.specs.Prelude.{◌≡◌, ◌*◌, ◌<◌, length, IsFalse};
ghost use Rattle.nbd_wire.specs.Lent.{lent_len};
ghost use Rattle.nbd_wire.specs.Commands.{default_export};

use bitflags::Flags;
use block_device::{Disk, DiskError, FixedIn, FixedOut, Io, PlainDisk};
use chip_simulator::SimChip;
use flash_disk::{FlashDisk, format};
use nbd_history::Opened;
use nbd_share::{
    Chronicle, Done, Door, FullRecord, Gate, Locked, NoRecord, OneServer, Pass, Point, Recorder,
    Row, Server, Shared, Tidier,
};
use nbd_transmission::judge;
use nbd_wire::{Command, CommandFlags, CommandKind, Export};
use nbd_worker::{End, keeper, worker};
use norbd_serve::OpenGate;
use std::alloc::Global;
use std::io;
use std::io::{Read, Write};
use std::marker::Brand;
use std::process::Abort;
use std::sync::Wait;
use std::sync::atomic::{AtomicBool, Ordering};
use std::sync::ledger::{Blank, Ledger};
use std::test::*;

/// The client flags, GO `flash`, and a READ of sector 1 with the cookie 0102030405060708h.
const WHOLE_CONNECTION: [u8; 59] = [
    0, 0, 0, 3, 0x49, 0x48, 0x41, 0x56, 0x45, 0x4f, 0x50, 0x54, 0, 0, 0, 7, 0, 0, 0, 11, 0, 0, 0,
    5, 0x66, 0x6c, 0x61, 0x73, 0x68, 0, 0, 0x25, 0x60, 0x95, 0x13, 0, 0, 0, 0, 1, 2, 3, 4, 5, 6, 7,
    8, 0, 0, 0, 0, 0, 0, 2, 0, 0, 0, 2, 0,
];

/// The greeting; INFO_EXPORT of 1,024 bytes with the flags 016Dh, INFO_BLOCK_SIZE and ACK; and the
/// head of the reply to the READ.
const ITS_REPLIES: [u8; 120] = [
    0x4e, 0x42, 0x44, 0x4d, 0x41, 0x47, 0x49, 0x43, 0x49, 0x48, 0x41, 0x56, 0x45, 0x4f, 0x50, 0x54,
    0, 3, 0, 3, 0xe8, 0x89, 4, 0x55, 0x65, 0xa9, 0, 0, 0, 7, 0, 0, 0, 3, 0, 0, 0, 12, 0, 0, 0, 0,
    0, 0, 0, 0, 4, 0, 1, 0x6d, 0, 3, 0xe8, 0x89, 4, 0x55, 0x65, 0xa9, 0, 0, 0, 7, 0, 0, 0, 3, 0, 0,
    0, 14, 0, 3, 0, 0, 2, 0, 0, 0, 16, 0, 0, 1, 0, 0, 0, 3, 0xe8, 0x89, 4, 0x55, 0x65, 0xa9, 0, 0,
    0, 7, 0, 0, 0, 1, 0, 0, 0, 0, 0x67, 0x44, 0x66, 0x98, 0, 0, 0, 0, 1, 2, 3, 4, 5, 6, 7, 8,
];

/// A stream that gives these bytes in pieces of at most 20, takes at most 20 at once, and whose
/// calls fail once so many were good.
#[derive(Drop)]
struct Failing<'a> {
    rest: &'a [u8],
    good_calls: u32,
}

impl Failing<'_> {
    fn is_good(&mut self) -> bool {
        if self.good_calls == 0 {
            return false;
        }
        self.good_calls -= 1;
        true
    }
}

impl Read for Failing<'_> {
    fn read(&mut self, into: &mut [u8]) -> io::Result<usize> {
        if !self.is_good() {
            return Err(io::Error::from(io::ErrorKind::BrokenPipe));
        }
        let n = into.len().min(self.rest.len()).min(20);
        into[..n].copy_from_slice(&self.rest[..n]);
        self.rest = &self.rest[n..];
        Ok(n)
    }
}

impl Write for Failing<'_> {
    fn write(&mut self, bytes: &[u8]) -> io::Result<usize> {
        if !self.is_good() {
            return Err(io::Error::from(io::ErrorKind::BrokenPipe));
        }
        Ok(bytes.len().min(20))
    }

    fn flush(&mut self) -> io::Result<()> {
        Ok(())
    }
}

#[test]
fn a_whole_connection_is_answered(rt: HostRuntime) -> Result<(), Fail> {
    let disk = PlainDisk::new(rt.alloc(), 2)?;
    work::<Brand, Brand, _>(&rt, rt.alloc(), disk, 2, Blank::new(65537), Blank::new(1))
}

/// One connection: the greeting, the options' replies and the READ's, and one row. The total comes
/// once all passes are in.
fn work<L: OneServer, M: Ledger, A: Abort>(
    rt: &A,
    alloc: Global,
    disk: PlainDisk,
    sectors: u32,
    blank: Blank,
    tally: Blank,
) -> Result<(), Fail>
    requires size { length disk ≡ 512 * sectors }
    requires sectors { L.export ≡ default_export sectors }
    requires name { blank.name ≡ L.name }
    requires parts { blank.parts ≡ L.parts }
    requires all { blank.parts ≡ 65537 }
    requires unsaid { IsFalse L.sound }
    requires tally { (tally.name ≡ M.name) × (tally.parts ≡ M.parts) × (0 < M.parts) }
{
    let Ok(mut server) = Shared::<PlainDisk, FullRecord, L>::recording(
        alloc,
        disk,
        Export::default_for(sectors),
        blank,
    ) else {
        panic!(rt; "a recording server");
    };
    let pass = server.pass().expect(rt, "the first pass");
    let other = server.pass().expect(rt, "the second pass");
    let mut room = vec![in alloc; 0xffu8; 700]?;
    let mut wanted = vec![in alloc; 0u8; 632]?;
    wanted[..120].copy_from_slice(&ITS_REPLIES);
    let mut writer = FixedOut::<M>::new(room.as_mut_slice(), tally);
    let mut reader = FixedIn::new(&WHOLE_CONNECTION);
    let (pass, end) = worker(
        alloc,
        &mut server,
        pass,
        &mut reader,
        &mut writer,
        &mut OpenGate,
    );
    assert_eq!(rt; end, End::EndOfInput);
    assert_eq!(rt; pass.count(), 1);
    assert_eq!(rt; writer.bytes(), wanted.as_slice());
    assert_eq!(rt; server.total(Vec::new(alloc)), None);
    let mut passes = Vec::new(alloc);
    passes.push(other)?;
    passes.push(pass)?;
    assert_eq!(rt; server.total(passes), Some(1));
    assert!(rt; server.pass().is_none());
    Ok(())
}

#[test]
fn a_failing_stream_ends_its_own_connection(rt: HostRuntime) -> Result<(), Fail> {
    for k in 0..34u32 {
        let disk = PlainDisk::new(rt.alloc(), 2)?;
        fail_at::<Brand, Brand, Brand, _>(
            &rt,
            rt.alloc(),
            disk,
            2,
            k,
            Blank::new(65537),
            Blank::new(1),
            Blank::new(1),
        )?;
    }
    Ok(())
}

/// A connection whose reads fail after `k` good ones, one whose writes do, and one after them whose
/// streams are good: the bytes come in three reads, the end in a fourth, and the replies go out in
/// 1 + 5 + 27 writes of at most 20 bytes; 33 good ones are all.
fn fail_at<L: OneServer, M: Ledger, N: Ledger, A: Abort>(
    rt: &A,
    alloc: Global,
    disk: PlainDisk,
    sectors: u32,
    k: u32,
    blank: Blank,
    reads: Blank,
    writes: Blank,
) -> Result<(), Fail>
    requires size { length disk ≡ 512 * sectors }
    requires sectors { L.export ≡ default_export sectors }
    requires name { blank.name ≡ L.name }
    requires parts { blank.parts ≡ L.parts }
    requires all { blank.parts ≡ 65537 }
    requires reads { (reads.name ≡ M.name) × (reads.parts ≡ M.parts) × (0 < M.parts) }
    requires writes { (writes.name ≡ N.name) × (writes.parts ≡ N.parts) × (0 < N.parts) }
{
    let mut server = Shared::<PlainDisk, NoRecord, L>::new(
        disk,
        Export::default_for(sectors),
        blank,
    );
    let mut reader = Io::<_, M>::new(stream_of(&WHOLE_CONNECTION, k), reads);
    let mut writer = Io::<_, N>::new(stream_of(&[], u32::MAX), writes);
    let end = attend(rt, alloc, &mut server, &mut reader, &mut writer);
    let wanted = if k < 4 { End::Input } else { End::EndOfInput };
    assert_eq!(rt; end, wanted, "{k} good reads");
    reader.inner = stream_of(&WHOLE_CONNECTION, u32::MAX);
    writer.inner = stream_of(&[], k);
    let end = attend(rt, alloc, &mut server, &mut reader, &mut writer);
    let wanted = if k < 33 { End::Output } else { End::EndOfInput };
    assert_eq!(rt; end, wanted, "{k} good writes");
    reader.inner = stream_of(&WHOLE_CONNECTION, u32::MAX);
    writer.inner = stream_of(&[], u32::MAX);
    let end = attend(rt, alloc, &mut server, &mut reader, &mut writer);
    assert_eq!(rt; end, End::EndOfInput);
    Ok(())
}

/// A stream whose calls fail once so many were good.
fn stream_of<'a>(rest: &'a [u8], good_calls: u32) -> Failing<'a> {
    Failing { rest, good_calls }
}

/// One connection over a server, by its next pass.
fn attend<D, R, L, M, N, A>(
    rt: &A,
    alloc: Global,
    server: &mut Shared<D, R, L>,
    reader: &mut Io<Failing<'_>, M>,
    writer: &mut Io<Failing<'_>, N>,
) -> End
where
    D: Disk,
    R: Recorder,
    L: OneServer,
    M: Ledger,
    N: Ledger,
    A: Abort,
{
    let pass = server.pass().expect(rt, "a pass");
    let (_pass, end) = worker(alloc, server, pass, reader, writer, &mut OpenGate);
    end
}

/// A gate that stops the keeper at its third passing.
#[derive(Drop)]
struct StopGate<'s> {
    passed: u32,
    stop: &'s AtomicBool,
}

impl<'s> Gate for StopGate<'s> {
    ghost passes = { λ gate after points. Unit {0} };

    fn pass(&mut self, _point: Point) {
        self.passed = self.passed.saturating_add(1);
        if self.passed == 3 {
            self.stop.store(true, Ordering::SeqCst);
        }
    }

    ghost none = { λ gate. tt };
}

type OnSim = FlashDisk<SimChip, Brand>;

/// The disk on a formatted chip of 64 KiB.
fn formatted(alloc: Global) -> Result<OnSim, Fail> {
    let chip = SimChip::new(vec![in alloc; 0xffu8; 65_536]?)?;
    let (chip, done) = format(chip);
    done?;
    match FlashDisk::mount(alloc, chip) {
        Ok(disk) => Ok(disk),
        Err((_chip, _error)) => Err(Fail::new("not mounted")),
    }
}

/// A WRITE of sector 0.
fn write_of_sector_0() -> Command
    ensures { (lent_len result ≡ 512) }
{
    Command {
        kind: CommandKind::Write,
        flags: CommandFlags::from_bits_retain(0),
        cookie: 1,
        offset: 0,
        length: 512,
    }
}

/// Whether a WRITE of sector 0 through a door is answered without an error.
fn write_zero<L: OneServer, T: Door<L>>(
    door: &mut T,
    pass: &mut Pass<L>,
    sectors: u32,
) -> Option<u32>
    requires { L.export ≡ default_export sectors }
{
    let command = write_of_sector_0();
    if judge(&command, Export::default_for(sectors)).is_some() {
        return None;
    }
    let mut bytes = [0x11u8; 512];
    match door.execute(pass, &command, &mut bytes) {
        Done::Replied(answer) => Some(answer.error()),
        Done::Lost => None,
    }
}

#[test]
fn a_keeper_tidies_until_it_is_stopped(rt: HostRuntime) -> Result<(), Fail> {
    let disk = formatted(rt.alloc())?;
    keep_two::<Brand, _>(&rt, disk, 70, Blank::new(65537), Opened::new(&rt))
}

fn keep_two<L, H>(
    rt: &H,
    disk: OnSim,
    sectors: u32,
    blank: Blank,
    opened: Opened<Row>,
) -> Result<(), Fail>
where
    L: OneServer,
    H: Abort + Wait,
    requires sectors { L.export ≡ default_export sectors }
    requires name { blank.name ≡ L.name }
    requires parts { blank.parts ≡ L.parts }
    requires all { blank.parts ≡ 65537 }
    requires history { opened ≡ L.book }
    requires unsaid { IsFalse L.sound }
{
    if disk.sectors() != sectors {
        return Err(Fail::new("another size"));
    }
    let (keeping, mut hands) = opened.named::<L>();
    let shared = Shared::<_, NoRecord, L>::new(disk, Export::default_for(sectors), blank);
    let server = Server::new(Chronicle::new(shared, keeping));
    let (mut pass, hand) = server.pass(rt, &mut hands).expect(rt, "a pass");
    {
        let mut door = Locked::new(&server, rt, hand);
        for _time in 0..2u32 {
            assert_eq!(rt; write_zero(&mut door, &mut pass, sectors), Some(0));
        }
    }
    let stop = AtomicBool::new(false);
    let mut gate = StopGate {
        passed: 0,
        stop: &stop,
    };
    let mut tidier = Tidier::new(&server, rt);
    assert_eq!(rt; keeper(&mut tidier, &stop, &mut gate), Ok(()));
    assert_eq!(rt; server.into_inner().tidy(), Ok(false));
    Ok(())
}

#[test]
fn a_power_loss_takes_all_later_commands(rt: HostRuntime) -> Result<(), Fail> {
    let mut disk = formatted(rt.alloc())?;
    disk.arm(3, 1, 0xFF);
    lose::<Brand, _>(&rt, disk, 70, Blank::new(65537), Opened::new(&rt))
}

fn lose<L, H>(
    rt: &H,
    disk: OnSim,
    sectors: u32,
    blank: Blank,
    opened: Opened<Row>,
) -> Result<(), Fail>
where
    L: OneServer,
    H: Abort + Wait,
    requires sectors { L.export ≡ default_export sectors }
    requires name { blank.name ≡ L.name }
    requires parts { blank.parts ≡ L.parts }
    requires all { blank.parts ≡ 65537 }
    requires history { opened ≡ L.book }
    requires unsaid { IsFalse L.sound }
{
    if disk.sectors() != sectors {
        return Err(Fail::new("another size"));
    }
    let (keeping, mut hands) = opened.named::<L>();
    let shared = Shared::<_, NoRecord, L>::new(disk, Export::default_for(sectors), blank);
    let server = Server::new(Chronicle::new(shared, keeping));
    let (mut pass, hand) = server.pass(rt, &mut hands).expect(rt, "a pass");
    let (mut other, second) = server.pass(rt, &mut hands).expect(rt, "another pass");
    let mut door = Locked::new(&server, rt, hand);
    let mut beside = Locked::new(&server, rt, second);
    for _time in 0..3u32 {
        assert_eq!(rt; write_zero(&mut door, &mut pass, sectors), None);
        assert_eq!(rt; write_zero(&mut beside, &mut other, sectors), None);
    }
    let stop = AtomicBool::new(false);
    let mut gate = OpenGate;
    let mut tidier = Tidier::new(&server, rt);
    assert_eq!(rt; keeper(&mut tidier, &stop, &mut gate), Err(DiskError::Cut));
    Ok(())
}
