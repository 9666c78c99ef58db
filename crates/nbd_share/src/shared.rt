//! One disk with its recorder: a command is run, and its row kept.

ghost use Rattle.std.specs.Prelude.{◌≡◌, ◌⊎◌, ℕ, ◌+◌, ◌*◌, ◌<◌, ◌^◌, ◌↔◌, [], length, true, false};
ghost use Rattle.std.specs.Prelude.{Option, None, IfSome, IfNone, IsSome, OnSome, IfOk, IfErr};
ghost use Rattle.std.specs.Prelude.{vec_len, sum_by};
ghost use Rattle.block_device.specs.Facts.{CountsNeverFall};
ghost use Rattle.nbd_wire.specs.Commands.{judge_of};
ghost use Rattle.nbd_wire.specs.Lent.{lent_len};
ghost use Rattle.nbd_share.specs.History.{row_of, rows_with};
ghost use Rattle.nbd_share.specs.Doing.{one_more};

use crate::pass::{Counts, OneServer, Pass};
use crate::recorder::{Bytes, FullRecord, NoRecord, Recorder, Row};
use block_device::{Disk, DiskError, SECTOR_LEN};
use nbd_connection::run;
use nbd_wire::{Command, EIO, ENOMEM, Export};
use std::alloc::Global;
use std::marker::Model;
use std::sync::ledger::Blank;
use thiserror::Error;

/// A command, the error that answers it (0, EIO or ENOMEM), and the borrow of the bytes that were
/// lent to it: a READ's data where the error is 0. Only this module makes one.
#[derive(Drop)]
pub struct Answer<'a> {
    command: Command,
    error: u32,
    bytes: &'a [u8],
}

impl<'a> Model for Answer<'a> {
    ghost use Rattle.nbd_share.specs.State.{Reply};

    ghost Value = { Reply };

    ghost view = { λ a. record { command = a.command; error = a.error; bytes = a.bytes.now } };
}

impl<'a> Answer<'a> {
    fn new(command: &Command, error: u32, bytes: &'a [u8]) -> Answer<'a>
        ensures command { result.command ≡ command.now }
        ensures error { result.error ≡ error }
        ensures bytes { result.bytes ≡ bytes.now }
    {
        Answer {
            command: *command,
            error,
            bytes,
        }
    }

    /// The command that is answered.
    pub fn command(&self) -> &Command
        ensures { result.now ≡ self.now.command }
    {
        &self.command
    }

    /// The error of its reply.
    pub fn error(&self) -> u32
        ensures { result ≡ self.now.error }
    {
        self.error
    }

    /// The bytes that were lent to it.
    pub fn data(&self) -> &[u8]
        ensures { result.now ≡ self.now.bytes }
    {
        self.bytes
    }
}

/// What became of a command, as the door says: its connection sends the reply, or ends.
#[derive(Drop)]
pub enum Done<'a> {
    /// It is answered.
    Replied(Answer<'a>),
    /// A power loss took it: each sector of a sound disk is as before, or as the command was to
    /// make it. No later command runs.
    Lost,
}

/// Why a recording server could not be made.
#[derive(Clone, Copy, Debug, PartialEq, Eq, Drop, Error)]
pub enum RecordError {
    /// A Cut is latched in the disk, or came while its contents were read.
    #[error("the disk lost its power")]
    Cut,
    /// A Slow is latched in the disk, or came while its contents were read.
    #[error("an operation of the chip didn't end")]
    Slow,
    /// There was no memory for the contents.
    #[error("no memory for the disk's contents")]
    OutOfMemory,
}

/// One disk, its recorder and its passes.
#[derive(Drop)]
pub struct Shared<D: Disk, R: Recorder, L: OneServer> {
    disk: D,
    recorder: R,
    counts: Counts<L>,
    lost: bool,
}

impl<D: Disk, R: Recorder, L: OneServer> Model for Shared<D, R, L> {
    ghost use Rattle.std.specs.Prelude.{◌≡◌, ℕ, ◌*◌, ◌<◌, ◌^◌, true, length};
    ghost use Rattle.nbd_share.specs.State.{Served, IsKept};

    ghost Value = { Served };

    ghost view = { λ s. record {
      disk = D.facts s.disk;
      base = R.base s.recorder;
      rows = R.rows s.recorder;
      interrupted = R.interrupted s.recorder;
      given = s.counts.given;
      returned = s.counts.returned;
      counted = s.counts.counted;
      closed = s.counts.closed;
      lost = s.lost;
    } };

    ghost invariant = { λ s. record {
      sectors : length (D.facts s.disk).contents ≡ 512 * L.export.sectors;
      parts : L.parts ≡ 65537;
      counted : s.counts.book.total ≡ length (R.rows s.recorder);
      fits : length (R.rows s.recorder) < 2 ^ 64;
      lost : s.lost ≡ true → (D.facts s.disk).cut ≡ true;
      latched : R.KEEPS ≡ true → (D.facts s.disk).cut ≡ true → s.lost ≡ true;
      kept : R.KEEPS ≡ true → IsKept L.export (D.facts s.disk) (R.base s.recorder)
          (R.rows s.recorder) (R.interrupted s.recorder);
      trusted : L.sound ≡ true → (D.facts s.disk).sound ≡ true;
      based : R.KEEPS ≡ true → L.sound ≡ true → R.base s.recorder ≡ L.base;
    } };
}

impl<D: Disk, L: OneServer> Shared<D, NoRecord, L> {
    /// A server of this export that keeps no rows. `blank` has 65,537 parts.
    pub fn new(disk: D, export: Export, blank: Blank) -> Shared<D, NoRecord, L>
        requires export { export ≡ L.export }
        requires sectors { length (D.facts disk).contents ≡ 512 * L.export.sectors }
        requires sound { L.sound ≡ true → (D.facts disk).sound ≡ true }
        requires name { blank.name ≡ L.name }
        requires parts { (blank.parts ≡ L.parts) × (blank.parts ≡ 65537) }
        ensures disk { result.disk ≡ D.facts disk }
        ensures rows { (result.rows ≡ []) × (result.interrupted ≡ None) }
        ensures given { (result.given ≡ 0) × (result.closed ≡ false) }
        ensures returned { (result.returned ≡ 0) × (result.counted ≡ 0) }
        ensures lost { result.lost ≡ false }
    {
        Shared {
            disk,
            recorder: NoRecord,
            counts: Counts::new(blank, export),
            lost: false,
        }
    }
}

impl<D: Disk, L: OneServer> Shared<D, FullRecord, L> {
    /// A server of this export that keeps its rows, with the disk's contents as their base. `blank`
    /// has 65,537 parts. Cut and Slow come from reading the disk; each error hands the disk back,
    /// of the same size, and sound where it was. Cut leaves the contents, OutOfMemory all of the
    /// disk.
    pub fn recording(
        alloc: Global,
        disk: D,
        export: Export,
        blank: Blank,
    ) -> Result<Shared<D, FullRecord, L>, (RecordError, D)>
        requires export { export ≡ L.export }
        requires sectors { length (D.facts disk).contents ≡ 512 * L.export.sectors }
        requires sound { L.sound ≡ true → (D.facts disk).sound ≡ true }
        requires base { L.sound ≡ true → (D.facts disk).contents ≡ L.base }
        requires name { blank.name ≡ L.name }
        requires parts { (blank.parts ≡ L.parts) × (blank.parts ≡ 65537) }
        ensures base { IfOk result (λ s. (D.facts disk).sound ≡ true
            → (s.base ≡ (D.facts disk).contents) × (s.disk.contents ≡ (D.facts disk).contents)) }
        ensures disk { IfOk result (λ s. (s.disk.sound ≡ (D.facts disk).sound)
            × (s.disk.cut ≡ false) × (s.disk.slow ≡ false)
            × CountsNeverFall (D.facts disk) s.disk) }
        ensures work { IfOk result (λ s. s.disk.work ≡ (D.facts disk).work) }
        ensures rows { IfOk result (λ s. (s.rows ≡ []) × (s.interrupted ≡ None)) }
        ensures given { IfOk result (λ s. (s.given ≡ 0) × (s.closed ≡ false)) }
        ensures returned { IfOk result (λ s. (s.returned ≡ 0) × (s.counted ≡ 0)) }
        ensures lost { IfOk result (λ s. s.lost ≡ false) }
        ensures cut { IfErr result (λ e. e.0 ≡ RecordError.Cut
            → ((D.facts e.1).cut ≡ true) ×
            (((D.facts disk).cut ≡ true) ⊎ ((D.facts disk).cuts < (D.facts e.1).cuts))) }
        ensures slow { IfErr result (λ e. e.0 ≡ RecordError.Slow
            → ((D.facts e.1).slow ≡ true)
            × (((D.facts disk).slow ≡ true) ⊎ ((D.facts disk).slows < (D.facts e.1).slows))) }
        ensures memory { IfErr result (λ e. e.0 ≡ RecordError.OutOfMemory → e.1 ≡ disk) }
        ensures back { IfErr result (λ e. CountsNeverFall (D.facts disk) (D.facts e.1)
            × ((D.facts e.1).sound ≡ (D.facts disk).sound)) }
        ensures kept { IfErr result (λ e. e.0 ≡ RecordError.Cut → (D.facts disk).sound ≡ true
            → (D.facts e.1).contents ≡ (D.facts disk).contents) }
    {
        let mut disk = disk;
        let size = SECTOR_LEN * disk.sectors() as usize;
        let Ok(mut base) = vec![in alloc; 0u8; size] else {
            return Err((RecordError::OutOfMemory, disk));
        };
        match disk.read(0, base.as_mut_slice()) {
            Ok(()) => Ok(Shared {
                disk,
                recorder: FullRecord::new(alloc, Bytes::new(base)),
                counts: Counts::new(blank, export),
                lost: false,
            }),
            Err(DiskError::Cut) => Err((RecordError::Cut, disk)),
            Err(DiskError::Slow) => Err((RecordError::Slow, disk)),
        }
    }
}

impl<D: Disk, R: Recorder, L: OneServer> Shared<D, R, L> {
    ghost use Rattle.nbd_share.specs.Doing.{Executes, Tidied};
    ghost use Rattle.nbd_share.specs.Locking.{IsServed, start_of};

    /// Runs one command that the request table accepts, over the bytes that are lent to it: a
    /// WRITE's payload, the room for a READ's data, none for any other. The memory of the row comes
    /// first: where it is refused, the reply is ENOMEM and nothing runs. Then the disk, then the
    /// row.
    pub fn execute<'a>(
        &mut self,
        pass: &mut Pass<L>,
        command: &Command,
        data: &'a mut [u8],
    ) -> Done<'a>
        requires accepted { judge_of command.now L.export ≡ None }
        requires lent { length «data».old ≡ lent_len command.now }
        ensures executes { Executes R.KEEPS self.old self.new pass.old pass.new command.now
            «data».old result }
    {
        let Shared {
            disk,
            recorder,
            counts,
            lost,
        } = self;
        if *lost {
            return Done::Lost;
        }
        if recorder.prepare(data.len()).is_err() {
            return Done::Replied(Answer::new(command, ENOMEM, data));
        }
        match run(disk, command, pass.export(), data) {
            Ok(()) => {
                note(recorder, counts, pass, command, 0, data);
                return Done::Replied(Answer::new(command, 0, data));
            }
            Err(DiskError::Slow) => {
                note(recorder, counts, pass, command, EIO, data);
                return Done::Replied(Answer::new(command, EIO, data));
            }
            Err(DiskError::Cut) => {
                recorder.interrupt(command, data);
                *lost = true;
                return Done::Lost;
            }
        }
    }

    /// One step of tidying. It adds no row, and Ok and Cut keep the contents; false says that
    /// nothing was left to tidy, true that less is left. After a Cut every later command is lost.
    pub fn tidy(&mut self) -> Result<bool, DiskError>
        ensures { Tidied self.old self.new result }
    {
        let result = self.disk.tidy();
        if let Err(DiskError::Cut) = result {
            self.lost = true;
        }
        result
    }

    /// Whether commands are lost.
    pub fn is_lost(&self) -> bool
        ensures { result ≡ self.now.lost }
    {
        self.lost
    }

    /// Does nothing: what is known of a server, whenever it is got.
    pub fn known(&self)
        ensures { IsServed (start_of R.KEEPS L.sound L.export L.base) self.now }
    {
        let _lost = self.lost;
    }

    /// Lends the disk.
    pub fn disk(&self) -> &D
        ensures { D.facts result.now ≡ self.now.disk }
    {
        &self.disk
    }

    /// The pass with the next number: 0, 1, 2 and so on, each once. None while 65,536 passes are
    /// out, after 2^62 passes, and once `total` answered Some.
    pub fn pass(&mut self) -> Option<Pass<L>>
        ensures next { IfSome result (λ p. (p.connection ≡ self.old.given) × (p.count ≡ 0)) }
        ensures some { IsSome result ↔ ((self.old.closed ≡ false)
            × (self.old.given < self.old.returned + 65536) × (self.old.given < 2 ^ 62)) }
        ensures given { OnSome result (self.new ≡ record self.old { given = self.old.given + 1 }) }
        ensures none { IfNone result (self.new ≡ self.old) }
    {
        self.counts.pass()
    }

    /// A pass comes back: another may be given in its place, with a number of its own, and its rows
    /// stay in the total.
    pub fn take_back(&mut self, pass: Pass<L>)
        ensures { self.new ≡ record self.old
            { returned = self.old.returned + 1; counted = self.old.counted + pass.count } }
    {
        self.counts.take_back(pass);
    }

    /// How many rows were added: the sum of the counts of the passes that came back and of those
    /// that are handed in, exactly where these are all that are out. From then on `pass` and
    /// `total` answer None. None drops the passes, and changes nothing else.
    pub fn total(&mut self, passes: Vec<Pass<L>>) -> Option<u64>
        ensures some { IsSome result ↔ ((self.old.closed ≡ false)
            × (self.old.returned + vec_len passes ≡ self.old.given)) }
        ensures sum { IfSome result
            (λ n. n ≡ self.old.counted + sum_by (λ p. p.count) passes.items) }
        ensures rows { IfSome result (λ n. n ≡ length self.old.rows) }
        ensures closed { OnSome result (self.new ≡ record self.old { closed = true }) }
        ensures none { IfNone result (self.new ≡ self.old) }
    {
        self.counts.total(passes)
    }
}

impl<D: Disk, L: OneServer> Shared<D, FullRecord, L> {
    ghost use Rattle.nbd_share.specs.State.{IsKept};

    /// Lends the contents at the start, of which the rows are a history.
    pub fn base(&self) -> &[u8]
        ensures base { result.now ≡ self.now.base }
        ensures known { L.sound ≡ true → result.now ≡ L.base }
    {
        self.recorder.base()
    }

    /// Lends the rows, in the order in which their commands ran. Whenever a server that keeps rows
    /// is got, they are a legal history of the contents at its start, and while neither a Cut nor a
    /// Slow is latched in its sound disk, the disk's contents are their replay. Where a Cut is
    /// latched, each sector is as in their replay, or as the lost command was to make it; they are
    /// the replay where the Cut came in tidying.
    pub fn rows(&self) -> &[Row]
        ensures rows { result.now ≡ self.now.rows }
        ensures kept { IsKept L.export self.now.disk self.now.base self.now.rows
            self.now.interrupted }
    {
        self.recorder.rows()
    }
}

/// A row more, and one more for the pass.
fn note<R: Recorder, L: OneServer>(
    recorder: &mut R,
    counts: &mut Counts<L>,
    pass: &mut Pass<L>,
    command: &Command,
    error: u32,
    bytes: &[u8],
)
    requires room { R.room recorder.old (length bytes.now) }
    requires counted { counts.old.book.total ≡ length (R.rows recorder.old) }
    ensures rows { R.rows recorder.new
        ≡ rows_with R.KEEPS (R.rows recorder.old)
        (row_of pass.old.connection command.now error bytes.now) }
    ensures base { R.base recorder.new ≡ R.base recorder.old }
    ensures interrupted { R.interrupted recorder.new ≡ R.interrupted recorder.old }
    ensures counted { counts.new.book.total ≡ length (R.rows recorder.new) }
    ensures fits { length (R.rows recorder.old) < 2 ^ 64 → length (R.rows recorder.new) < 2 ^ 64 }
    ensures given { (counts.new.given ≡ counts.old.given)
        × (counts.new.closed ≡ counts.old.closed) }
    ensures returned { (counts.new.returned ≡ counts.old.returned)
        × (counts.new.counted ≡ counts.old.counted) }
    ensures count { pass.new.count ≡ one_more R.KEEPS pass.old.count }
    ensures connection { pass.new.connection ≡ pass.old.connection }
{
    recorder.add(pass.connection(), command, error, bytes);
    if R::KEEPS {
        counts.add(pass);
    }
}
