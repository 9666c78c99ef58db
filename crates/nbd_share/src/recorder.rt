//! What keeps the rows, or nothing.

ghost use Rattle.std.specs.Prelude.{◌≡◌, ℕ, ◌<◌, ◌≤◌, ◌^◌, List, [], length, Bool, true, false};
ghost use Rattle.std.specs.Prelude.{Option, Some, None, OnOk, IsOk, vec_len, vec_capacity};
ghost use Rattle.nbd_wire.specs.Lent.{payload_in, reply_in};

use nbd_history::OfHand;
use nbd_wire::{Command, CommandKind};
use std::alloc::{AllocError, Global};
use std::marker::Model;
use std::mem;

/// Bytes, which contracts see as a list.
#[derive(Drop)]
pub struct Bytes {
    bytes: Vec<u8>,
}

impl Model for Bytes {
    ghost use Rattle.std.specs.Prelude.{ℕ, List};

    ghost Value = { List ℕ };

    ghost view = { λ b. b.bytes.items };
}

impl Bytes {
    /// These bytes.
    pub fn new(bytes: Vec<u8>) -> Bytes
        ensures { result ≡ bytes.items }
    {
        Bytes { bytes }
    }

    /// Lends them.
    pub fn as_slice(&self) -> &[u8]
        ensures { result.now ≡ self.now }
    {
        self.bytes.as_slice()
    }
}

/// A command that ran, and its reply: the connection's number, the command, a WRITE's payload, the
/// error (0, or EIO), and the data of a READ that was answered 0.
#[derive(Drop)]
pub struct Row {
    pub connection: u64,
    pub command: Command,
    pub payload: Bytes,
    pub error: u32,
    pub reply: Bytes,
}

impl OfHand for Row {
    ghost by = { λ r. r.connection };
}

/// A command that a power loss interrupted, with a WRITE's payload.
#[derive(Drop)]
pub struct Interrupted {
    pub command: Command,
    pub payload: Bytes,
}

/// Keeps the rows of a server, or nothing.
pub trait Recorder {
    ghost use Rattle.std.specs.Prelude.{◌≡◌, ℕ, List, [], Bool, false, Option};
    ghost use Rattle.nbd_share.specs.declared.recorder.Row.{Row};
    ghost use Rattle.nbd_share.specs.declared.recorder.Interrupted.{Interrupted};
    ghost use Rattle.nbd_wire.specs.declared.command.Command.{Command};
    ghost use Rattle.nbd_share.specs.History.{row_of, interrupted_of, rows_with};

    /// Whether rows are kept.
    ghost KEEPS: { Bool };

    /// The contents at the start.
    ghost base: { Self → List ℕ };

    ghost rows: { Self → List Row };

    ghost interrupted: { Self → Option Interrupted };

    /// There is room for a row with so many bytes.
    ghost room: { Self → ℕ → Type 0 };

    const KEEPS: bool;

    /// Takes the memory of the next row, which is to hold so many bytes. An `Err` changes no row.
    fn prepare(&mut self, bytes: usize) -> Result<(), AllocError>
        ensures room { OnOk result (room self.new bytes) }
        ensures never { KEEPS ≡ false → IsOk result }
        ensures base { base self.new ≡ base self.old }
        ensures rows { rows self.new ≡ rows self.old }
        ensures interrupted { interrupted self.new ≡ interrupted self.old };

    /// Adds a row, in the memory that `prepare` took. `bytes` are those that were lent to the
    /// command.
    fn add(&mut self, connection: u64, command: &Command, error: u32, bytes: &[u8])
        requires { room self.old (length bytes.now) }
        ensures base { base self.new ≡ base self.old }
        ensures rows { rows self.new ≡ rows_with KEEPS (rows self.old)
            (row_of connection command.now error bytes.now) }
        ensures fits { KEEPS ≡ true → length (rows self.new) < 2 ^ 64 }
        ensures interrupted { interrupted self.new ≡ interrupted self.old };

    /// Keeps the command that a power loss interrupted, in the memory that `prepare` took.
    fn interrupt(&mut self, command: &Command, bytes: &[u8])
        requires { room self.old (length bytes.now) }
        ensures base { base self.new ≡ base self.old }
        ensures rows { rows self.new ≡ rows self.old }
        ensures interrupted { KEEPS ≡ true
            → interrupted self.new ≡ Some (interrupted_of command.now bytes.now) };

    ghost nothing: { (r : Self) → KEEPS ≡ false → rows r ≡ [] };
}

/// Keeps nothing.
#[derive(Drop)]
pub struct NoRecord;

impl Recorder for NoRecord {
    ghost use Rattle.std.specs.Prelude.{[], false, None, refl};

    ghost KEEPS = { false };

    ghost base = { λ r. [] };

    ghost rows = { λ r. [] };

    ghost interrupted = { λ r. None };

    ghost room = { λ r n. Unit {0} };

    ghost nothing = { λ r h. refl };

    const KEEPS: bool = false;

    fn prepare(&mut self, _bytes: usize) -> Result<(), AllocError> {
        Ok(())
    }

    fn add(&mut self, _connection: u64, _command: &Command, _error: u32, _bytes: &[u8]) {}

    fn interrupt(&mut self, _command: &Command, _bytes: &[u8]) {}
}

/// Keeps the contents at the start, each row, and the command that a power loss interrupted.
#[derive(Drop)]
pub struct FullRecord {
    alloc: Global,
    base: Bytes,
    rows: Vec<Row>,
    spare: Vec<u8>,
    interrupted: Option<Interrupted>,
}

impl Model for FullRecord {
    ghost use Rattle.std.specs.Prelude.{◌≡◌, ◌-◌, vec_len, vec_capacity};
    ghost use Rattle.nbd_share.specs.Recorded.{Recorded};

    ghost Value = { Recorded };

    ghost view = { λ r. record {
      base = r.base;
      rows = r.rows.items;
      interrupted = r.interrupted;
      places = vec_capacity r.rows - vec_len r.rows;
      bytes = vec_capacity r.spare;
    } };

    ghost invariant = { λ r. vec_len r.spare ≡ 0 };
}

impl FullRecord {
    pub(crate) fn new(alloc: Global, base: Bytes) -> FullRecord
        ensures base { result.base ≡ base }
        ensures rows { result.rows ≡ [] }
        ensures interrupted { result.interrupted ≡ None }
    {
        FullRecord {
            alloc,
            base,
            rows: Vec::new(alloc),
            spare: Vec::new(alloc),
            interrupted: None,
        }
    }

    pub(crate) fn base(&self) -> &[u8]
        ensures { result.now ≡ self.now.base }
    {
        self.base.as_slice()
    }

    pub(crate) fn rows(&self) -> &[Row]
        ensures { result.now ≡ self.now.rows }
    {
        self.rows.as_slice()
    }
}

/// The bytes in the memory that was taken for them.
fn filled(spare: Vec<u8>, bytes: &[u8]) -> Vec<u8>
    requires empty { vec_len spare ≡ 0 }
    requires room { length bytes.now ≤ vec_capacity spare }
    ensures { result.items ≡ bytes.now }
{
    let mut spare = spare;
    match spare.extend_from_slice(bytes) {
        Ok(()) => spare,
        Err(_) => unreachable!(),
    }
}

/// The payload and the reply's data among the lent bytes, in the memory that was taken for them.
fn parts(
    alloc: Global,
    spare: Vec<u8>,
    command: &Command,
    error: u32,
    bytes: &[u8],
) -> (Bytes, Bytes)
    requires empty { vec_len spare ≡ 0 }
    requires room { length bytes.now ≤ vec_capacity spare }
    ensures payload { result.0 ≡ payload_in command.now bytes.now }
    ensures reply { result.1 ≡ reply_in command.now error bytes.now }
{
    match command.kind {
        CommandKind::Write => (
            Bytes::new(filled(spare, bytes)),
            Bytes::new(Vec::new(alloc)),
        ),
        CommandKind::Read if error == 0 => (
            Bytes::new(Vec::new(alloc)),
            Bytes::new(filled(spare, bytes)),
        ),
        _ => (Bytes::new(Vec::new(alloc)), Bytes::new(Vec::new(alloc))),
    }
}

impl Recorder for FullRecord {
    ghost use Rattle.std.specs.Prelude.{true, ◌<◌, ◌≤◌};

    ghost KEEPS = { true };

    ghost base = { λ r. r.base };

    ghost rows = { λ r. r.rows };

    ghost interrupted = { λ r. r.interrupted };

    ghost room = { λ r n. (0 < r.places) × (n ≤ r.bytes) };

    ghost nothing = { λ r h. Prim.cc };

    const KEEPS: bool = true;

    fn prepare(&mut self, bytes: usize) -> Result<(), AllocError> {
        self.rows.reserve(1)?;
        self.spare.reserve(bytes)
    }

    fn add(&mut self, connection: u64, command: &Command, error: u32, bytes: &[u8]) {
        let spare = mem::replace(&mut self.spare, Vec::new(self.alloc));
        let (payload, reply) = parts(self.alloc, spare, command, error, bytes);
        self.rows.push_reserved(Row {
            connection,
            command: *command,
            payload,
            error,
            reply,
        });
    }

    fn interrupt(&mut self, command: &Command, bytes: &[u8]) {
        let spare = mem::replace(&mut self.spare, Vec::new(self.alloc));
        let (payload, _) = parts(self.alloc, spare, command, 5, bytes);
        self.interrupted = Some(Interrupted {
            command: *command,
            payload,
        });
    }
}
