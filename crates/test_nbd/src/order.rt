//! In which order a connection reads its pieces, passes its gate and has the disk called, and that
//! nothing else calls the disk.

ghost use Rattle.std.specs.Prelude.{◌≡◌, ◌*◌, ◌<◌, length, IsFalse};
ghost use Rattle.nbd_wire.specs.Commands.{default_export};

use block_device::{Disk, DiskError, Failed, FixedIn, FixedOut, PlainDisk, Source};
use nbd_history::Opened;
use nbd_share::{Chronicle, FullRecord, Gate, Locked, OneServer, Pass, Point, Row, Server, Shared};
use nbd_wire::Export;
use nbd_worker::{End, exchange};
use std::alloc::Global;
use std::cell::RefCell;
use std::marker::Brand;
use std::process::Abort;
use std::sync::Wait;
use std::sync::ledger::{Blank, Ledger};
use std::test::*;

/// A READ of sector 1, a WRITE_ZEROES over it, and a FLUSH (NBD proto.md).
const THREE: [u8; 84] = [
    0x25, 0x60, 0x95, 0x13, 0x00, 0x00, 0x00, 0x00, 0x00, 0x00, 0x00, 0x00, 0x00, 0x00, 0x00, 0x01,
    0x00, 0x00, 0x00, 0x00, 0x00, 0x00, 0x02, 0x00, 0x00, 0x00, 0x02, 0x00, 0x25, 0x60, 0x95, 0x13,
    0x00, 0x00, 0x00, 0x06, 0x00, 0x00, 0x00, 0x00, 0x00, 0x00, 0x00, 0x02, 0x00, 0x00, 0x00, 0x00,
    0x00, 0x00, 0x02, 0x00, 0x00, 0x00, 0x02, 0x00, 0x25, 0x60, 0x95, 0x13, 0x00, 0x00, 0x00, 0x03,
    0x00, 0x00, 0x00, 0x00, 0x00, 0x00, 0x00, 0x03, 0x00, 0x00, 0x00, 0x00, 0x00, 0x00, 0x00, 0x00,
    0x00, 0x00, 0x00, 0x00,
];

/// What was done: a piece was read, a gate was passed, or the disk was called.
#[derive(Clone, Copy, Debug, PartialEq, Eq, Drop)]
enum Step {
    Piece,
    Passed(Point),
    Read,
    Write,
    Zero,
    Flush,
    Tidy,
    Restore,
}

/// What is done where `THREE` comes in one piece: the record begins with a read of the disk, and
/// after the piece comes the end.
const WANTED: [Step; 10] = [
    Step::Read,
    Step::Piece,
    Step::Passed(Point::Read),
    Step::Passed(Point::Execute),
    Step::Read,
    Step::Passed(Point::Execute),
    Step::Zero,
    Step::Passed(Point::Execute),
    Step::Flush,
    Step::Piece,
];

/// Where steps are noted.
#[derive(Drop)]
struct Notes<'s> {
    steps: &'s RefCell<Vec<Step>>,
}

impl<'s> Notes<'s> {
    /// Another handle to the same notes.
    fn handle(&self) -> Notes<'s> {
        Notes { steps: self.steps }
    }

    fn add(&self, step: Step) {
        if let Ok(mut steps) = self.steps.try_borrow_mut() {
            let _ = steps.push(step);
        }
    }
}

/// A gate that notes its points.
#[derive(Drop)]
struct NotedGate<'s> {
    notes: Notes<'s>,
}

impl<'s> Gate for NotedGate<'s> {
    ghost passes = { λ gate after points. Unit {0} };

    fn pass(&mut self, point: Point) {
        self.notes.add(Step::Passed(point));
    }

    ghost none = { λ gate. tt };
}

/// Bytes in memory, whose reads are noted.
#[derive(Drop)]
struct NotedIn<'a, 's> {
    bytes: FixedIn<'a>,
    notes: Notes<'s>,
}

impl<'a, 's> Source for NotedIn<'a, 's> {
    ghost use Rattle.std.specs.Prelude.{Some};

    ghost remaining = { λ source. Some source.bytes };

    ghost faults = { λ source. 0 };

    fn read(&mut self, into: &mut [u8]) -> Result<usize, Failed> {
        self.notes.add(Step::Piece);
        self.bytes.read(into)
    }
}

/// A disk in memory, whose calls are noted.
#[derive(Drop)]
struct NotedDisk<'s> {
    disk: PlainDisk,
    notes: Notes<'s>,
}

impl<'s> Disk for NotedDisk<'s> {
    ghost use Rattle.std.specs.Prelude.{true, false};

    ghost facts = { λ noted. record {
      sound = true;
      contents = noted.disk;
      cuts = 0;
      slows = 0;
      cut = false;
      slow = false;
      work = 0;
    } };

    fn sectors(&self) -> u32 {
        self.disk.sectors()
    }

    fn read(&mut self, first: u32, into: &mut [u8]) -> Result<(), DiskError> {
        self.notes.add(Step::Read);
        self.disk.read(first, into)
    }

    fn write(&mut self, first: u32, from: &[u8]) -> Result<(), DiskError> {
        self.notes.add(Step::Write);
        self.disk.write(first, from)
    }

    fn zero(&mut self, first: u32, count: u32) -> Result<(), DiskError> {
        self.notes.add(Step::Zero);
        self.disk.zero(first, count)
    }

    fn flush(&mut self) -> Result<(), DiskError> {
        self.notes.add(Step::Flush);
        self.disk.flush()
    }

    fn tidy(&mut self) -> Result<bool, DiskError> {
        self.notes.add(Step::Tidy);
        self.disk.tidy()
    }

    fn restore(&mut self) -> Result<(), DiskError> {
        self.notes.add(Step::Restore);
        self.disk.restore()
    }

    fn arm(&mut self, _count: u32, _kind: u8, _mask: u8) {}
}

#[test]
fn gates_are_passed_after_a_piece_and_before_each_command(rt: HostRuntime) -> Result<(), Fail> {
    let disk = PlainDisk::new(rt.alloc(), 2)?;
    answer_three::<Brand, Brand, _>(
        &rt,
        rt.alloc(),
        disk,
        2,
        Blank::new(65537),
        Opened::new(&rt),
        Blank::new(1),
    )
}

/// All three come in one piece; the second read finds the end.
fn answer_three<L: OneServer, M: Ledger, H: Abort + Wait>(
    rt: &H,
    alloc: Global,
    disk: PlainDisk,
    sectors: u32,
    blank: Blank,
    opened: Opened<Row>,
    tally: Blank,
) -> Result<(), Fail>
    requires size { length disk ≡ 512 * sectors }
    requires sectors { L.export ≡ default_export sectors }
    requires history { opened ≡ L.book }
    requires name { blank.name ≡ L.name }
    requires parts { blank.parts ≡ L.parts }
    requires all { blank.parts ≡ 65537 }
    requires unsaid { IsFalse L.sound }
    requires tally_name { tally.name ≡ M.name }
    requires tally_parts { tally.parts ≡ M.parts }
    requires some { 0 < M.parts }
{
    let steps = RefCell::new(Vec::new(alloc));
    let notes = Notes { steps: &steps };
    let (keeper, mut hands) = opened.named::<L>();
    let Ok(shared) = Shared::<NotedDisk<'_>, FullRecord, L>::recording(
        alloc,
        NotedDisk {
            disk,
            notes: notes.handle(),
        },
        Export::default_for(sectors),
        blank,
    ) else {
        panic!(rt; "a recording server");
    };
    let server = Server::new(Chronicle::new(shared, keeper));
    let Some((pass, hand)) = server.pass(rt, &mut hands) else {
        panic!(rt; "the first pass");
    };
    let mut door = Locked::new(&server, rt, hand);
    let mut room = [0xffu8; 600];
    let mut writer = FixedOut::<M>::new(&mut room, tally);
    let end = end_of(alloc, &mut door, pass, &notes, &mut writer);
    assert_eq!(rt; end, End::EndOfInput);
    match steps.try_borrow() {
        Ok(steps) => assert_eq!(rt; steps.as_slice(), WANTED.as_slice()),
        Err(_) => panic!(rt; "the steps are lent"),
    }
    Ok(())
}

/// How the connection ends.
fn end_of<L: OneServer, M: Ledger, W: Wait>(
    alloc: Global,
    door: &mut Locked<'_, NotedDisk<'_>, FullRecord, L, W>,
    pass: Pass<L>,
    notes: &Notes<'_>,
    writer: &mut FixedOut<'_, M>,
) -> End {
    let mut reader = NotedIn {
        bytes: FixedIn::new(&THREE),
        notes: notes.handle(),
    };
    let mut gate = NotedGate {
        notes: notes.handle(),
    };
    let (_, end) = exchange(alloc, door, pass, &mut reader, writer, &mut gate);
    end
}
