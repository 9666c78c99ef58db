//! A disk over an image and its log.

ghost use Rattle.std.specs.Prelude.{◌≡◌, ◌/◌, ◌<◌, ◌*◌, ◌^◌, ℕ, List, None, Some, length, true};
ghost use Rattle.std.specs.Prelude.{replicate, IfOk, OnOk};
ghost use Rattle.block_device.specs.Contents.{InRange};
ghost use Rattle.block_device.specs.Facts.{IsDiskReady};
ghost use Rattle.disk_log.specs.Checkpoints.{IsImageLen};
ghost use Rattle.disk_log.specs.Files.{OfFiles};
ghost use Rattle.disk_log.specs.Logs.{IsBegunLog, Medium, contents_in, held};
ghost use Rattle.disk_log.specs.declared.logged.Standing.TheVariants.{Ready};
ghost use Rattle.disk_log.specs.Power.{IsInOrder};
ghost use Rattle.disk_log.specs.Logged.{IsOfDisk, logged_facts, standing_answer};

use crate::adding::append_change;
use crate::file::ImageFiles;
use crate::placing::settle_files;
use crate::record::{RECORD_HEAD_LEN, Sum};
use block_device::{Disk, DiskError, SECTOR_LEN, Tally};
use std::alloc::Global;
use std::sync::ledger::{Blank, Ledger};

/// A disk that is made of the bytes of an image.
pub trait ImageDisk: Disk {
    ghost use Rattle.std.specs.Prelude.{ℕ, List};

    /// The contents of the disk that an image's bytes represent.
    ghost represents: { List ℕ → List ℕ };

    /// The bytes of the image as it would be now.
    fn image(&self) -> &[u8]
        ensures { represents result.now ≡ (Self.facts self.now).contents };
}

/// Whether an error stands.
#[derive(Clone, Copy, Debug, PartialEq, Eq, Drop)]
pub enum Standing {
    /// None does.
    Ready,
    /// The disk or the files failed.
    Cut,
    /// An operation of the disk didn't end.
    Slow,
}

/// How many steps of tidying pass between the last that the disk has and the one that settles.
const WAITS: u32 = 100;

/// A disk over an image and its log. Each `write` and `zero` that answers Ok is in the log. An
/// error is the last: it is answered again by every later call, `restore` too.
#[derive(Drop)]
pub struct LoggedDisk<D: ImageDisk, F: ImageFiles, L: Ledger> {
    alloc: Global,
    disk: D,
    sectors: u32,
    files: F,
    // the bytes of the image file
    image: Vec<u8>,
    sum: Sum,
    // how many bytes were appended to the log since it was begun or found
    grown: usize,
    standing: Standing,
    // how many steps to wait; None while the disk may have some of its own
    waits: Option<u32>,
    lost: Tally<L>,
    ghost few: { sectors < 2 ^ 32 },
    ghost len: { IsImageLen (length image.items) },
    ghost size: { length (D.facts disk).contents ≡ 512 * sectors },
    ghost told: { length (held D.represents (F.medium files) (D.facts disk).contents)
        ≡ 512 * sectors },
    ghost ready: { standing ≡ Ready → IsDiskReady (D.facts disk) },
    ghost counted: { standing ≡ Ready → (m : Medium) → F.medium files ≡ Some m
        → m.sectors ≡ sectors },
    ghost begun: { standing ≡ Ready → (m : Medium) → F.medium files ≡ Some m
        → IsBegunLog m image.items sum },
    ghost same: { standing ≡ Ready → (D.facts disk).sound ≡ true
        → held D.represents (F.medium files) (D.facts disk).contents ≡ (D.facts disk).contents },
    // the two files are in the order that the law of the host's power asks for
    ghost kept: { (D.facts disk).sound ≡ true → (m : Medium) → F.medium files ≡ Some m
        → IsInOrder D.represents m },
}

/// What stands after an error.
fn standing_of(error: DiskError) -> Standing
    ensures cut { error ≡ DiskError.Cut → result ≡ Standing.Cut }
    ensures slow { error ≡ DiskError.Slow → result ≡ Standing.Slow }
{
    match error {
        DiskError::Cut => Standing::Cut,
        DiskError::Slow => Standing::Slow,
    }
}

impl<D: ImageDisk, F: ImageFiles, L: Ledger> LoggedDisk<D, F, L> {
    /// A disk over an image file with these bytes and a log that was begun on it: what both hold is
    /// what this disk holds, and the last record has the sum `sum`.
    pub fn new(alloc: Global, disk: D, files: F, image: Vec<u8>, sum: Sum, blank: Blank) -> Self
        requires name { blank.name ≡ L.name }
        requires parts { blank.parts ≡ L.parts }
        requires some { 0 < L.parts }
        requires ready { IsDiskReady (D.facts disk) }
        requires len { IsImageLen (length image.items) }
        requires files { OfFiles (F.medium files) (λ m. IsOfDisk D.represents
            (length (D.facts disk).contents / 512) (D.facts disk).contents image.items sum m) }
        ensures facts { ⟦<LoggedDisk<D, F, L> as Disk>⟧.facts result
            ≡ logged_facts D.represents (F.medium files) Ready 0 None (D.facts disk) }
        ensures files { result.files ≡ files }
    {
        LoggedDisk {
            alloc,
            sectors: disk.sectors(),
            disk,
            files,
            image,
            sum,
            grown: 1,
            standing: Standing::Ready,
            waits: None,
            lost: Tally::new(blank),
        }
    }

    /// The disk and the files: what the files hold is what this disk held, and they are in the
    /// order that the law of the host's power asks for.
    pub fn into_parts(self) -> (D, F)
        ensures parts { result ≡ (self.disk, self.files) }
        ensures holds { OfFiles (F.medium result.1) (λ m.
            contents_in D.represents m.sectors m.image m.log
            ≡ (⟦<LoggedDisk<D, F, L> as Disk>⟧.facts self).contents) }
        ensures kept { (⟦<LoggedDisk<D, F, L> as Disk>⟧.facts self).sound ≡ true
            → OfFiles (F.medium result.1) (λ m. IsInOrder D.represents m) }
    {
        let LoggedDisk { disk, files, .. } = self;
        (disk, files)
    }

    /// The error that stands.
    fn standing_error(&self) -> Result<(), DiskError>
        ensures { result ≡ standing_answer self.now.standing }
    {
        match self.standing {
            Standing::Ready => Ok(()),
            Standing::Cut => Err(DiskError::Cut),
            Standing::Slow => Err(DiskError::Slow),
        }
    }
}

impl<D: ImageDisk, F: ImageFiles, L: Ledger> LoggedDisk<D, F, L> {
    ghost use Rattle.disk_log.specs.Logged.{Settled, SettlesAlone, WritesTo};

    /// Writes what changed into the image, and begins the log anew. The contents stay, also where
    /// that fails; the image alone has all of them then, where it doesn't.
    pub fn settle(&mut self) -> Result<(), DiskError>
        ensures settled { Settled (⟦<LoggedDisk<D, F, L> as Disk>⟧.facts self.old) result
            (⟦<LoggedDisk<D, F, L> as Disk>⟧.facts self.new) }
        ensures alone { SettlesAlone D.represents
            (⟦<LoggedDisk<D, F, L> as Disk>⟧.facts self.new).contents
            (F.medium self.old.files) result (F.medium self.new.files) }
    {
        self.standing_error()?;
        let image = self.disk.image();
        if image.len() != self.image.len() {
            self.standing = Standing::Cut;
            self.lost.tick();
            return Err(DiskError::Cut);
        }
        match settle_files(
            self.alloc,
            &mut self.files,
            &mut self.sum,
            &self.image,
            image,
        ) {
            Ok(()) => {
                self.image.copy_from_slice(image);
                self.grown = 0;
                Ok(())
            }
            Err(_) => {
                self.standing = Standing::Cut;
                self.lost.tick();
                Err(DiskError::Cut)
            }
        }
    }

    /// Settles a log that has four images' lengths.
    fn make_room(&mut self) -> Result<(), DiskError>
        ensures { Settled (⟦<LoggedDisk<D, F, L> as Disk>⟧.facts self.old) result
            (⟦<LoggedDisk<D, F, L> as Disk>⟧.facts self.new) }
    {
        self.standing_error()?;
        if self.grown / 4 < self.image.len() {
            return Ok(());
        }
        self.settle()
    }

    /// Writes whole sectors, and the record of them.
    fn put(&mut self, first: u32, from: &[u8]) -> Result<(), DiskError>
        requires { InRange (⟦<LoggedDisk<D, F, L> as Disk>⟧.facts self.old).contents first
            (length from.now) }
        ensures { WritesTo first from.now (⟦<LoggedDisk<D, F, L> as Disk>⟧.facts self.old) result
            (⟦<LoggedDisk<D, F, L> as Disk>⟧.facts self.new) }
    {
        self.standing_error()?;
        match self.disk.write(first, from) {
            Ok(()) => {
                let count = (from.len() / SECTOR_LEN) as u32;
                match append_change(&mut self.files, &mut self.sum, 0, first, count, from) {
                    Ok(()) => {
                        self.grown = self.grown.saturating_add(from.len());
                        self.waits = None;
                        Ok(())
                    }
                    Err(_) => {
                        self.standing = Standing::Cut;
                        self.lost.tick();
                        Err(DiskError::Cut)
                    }
                }
            }
            Err(error) => {
                self.standing = standing_of(error);
                Err(error)
            }
        }
    }

    /// Writes zeros over whole sectors, and the record of them.
    fn put_zeros(&mut self, first: u32, count: u32) -> Result<(), DiskError>
        requires { InRange (⟦<LoggedDisk<D, F, L> as Disk>⟧.facts self.old).contents first
            (512 * count) }
        ensures { WritesTo first (replicate (512 * count) 0)
            (⟦<LoggedDisk<D, F, L> as Disk>⟧.facts self.old) result
            (⟦<LoggedDisk<D, F, L> as Disk>⟧.facts self.new) }
    {
        self.standing_error()?;
        match self.disk.zero(first, count) {
            Ok(()) => match append_change(&mut self.files, &mut self.sum, 1, first, count, &[]) {
                Ok(()) => {
                    self.grown = self.grown.saturating_add(RECORD_HEAD_LEN);
                    self.waits = None;
                    Ok(())
                }
                Err(_) => {
                    self.standing = Standing::Cut;
                    self.lost.tick();
                    Err(DiskError::Cut)
                }
            },
            Err(error) => {
                self.standing = standing_of(error);
                Err(error)
            }
        }
    }

    /// One of so many steps of waiting; the last settles.
    fn wait(&mut self, waits: u32) -> Result<bool, DiskError>
        requires some { 0 < waits }
        requires was { self.old.waits ≡ Some waits }
        ensures settled { Settled (⟦<LoggedDisk<D, F, L> as Disk>⟧.facts self.old) result
            (⟦<LoggedDisk<D, F, L> as Disk>⟧.facts self.new) }
        ensures step { IfOk result (λ did. did ≡ true) }
        ensures work { OnOk result ((⟦<LoggedDisk<D, F, L> as Disk>⟧.facts self.new).work
            < waits) }
    {
        self.standing_error()?;
        if waits > 1 {
            self.waits = Some(waits - 1);
            return Ok(true);
        }
        match self.settle() {
            Ok(()) => {
                self.waits = Some(0);
                Ok(true)
            }
            Err(error) => Err(error),
        }
    }
}

impl<D: ImageDisk, F: ImageFiles, L: Ledger> Disk for LoggedDisk<D, F, L> {
    ghost use Rattle.disk_log.specs.Logged.{logged_facts};

    ghost facts = { λ d. logged_facts D.represents (F.medium d.files) d.standing d.lost d.waits
        (D.facts d.disk) };

    fn sectors(&self) -> u32 {
        self.sectors
    }

    fn read(&mut self, first: u32, into: &mut [u8]) -> Result<(), DiskError> {
        self.standing_error()?;
        match self.disk.read(first, into) {
            Ok(()) => Ok(()),
            Err(error) => {
                self.standing = standing_of(error);
                Err(error)
            }
        }
    }

    fn write(&mut self, first: u32, from: &[u8]) -> Result<(), DiskError> {
        match self.make_room() {
            Ok(()) => self.put(first, from),
            Err(error) => Err(error),
        }
    }

    fn zero(&mut self, first: u32, count: u32) -> Result<(), DiskError> {
        match self.make_room() {
            Ok(()) => self.put_zeros(first, count),
            Err(error) => Err(error),
        }
    }

    fn flush(&mut self) -> Result<(), DiskError> {
        match self.standing {
            Standing::Cut => Err(DiskError::Cut),
            _ => Ok(()),
        }
    }

    fn tidy(&mut self) -> Result<bool, DiskError> {
        self.standing_error()?;
        match self.waits {
            Some(waits) if waits == 0 => Ok(false),
            Some(waits) => self.wait(waits),
            None => match self.disk.tidy() {
                Ok(true) => Ok(true),
                Ok(false) => {
                    self.waits = Some(if self.grown == 0 { 0 } else { WAITS });
                    Ok(true)
                }
                Err(error) => {
                    self.standing = standing_of(error);
                    Err(error)
                }
            },
        }
    }

    fn restore(&mut self) -> Result<(), DiskError> {
        match self.standing {
            Standing::Ready => match self.disk.restore() {
                Ok(()) => Ok(()),
                Err(error) => {
                    self.standing = standing_of(error);
                    Err(error)
                }
            },
            Standing::Cut => {
                self.lost.tick();
                Err(DiskError::Cut)
            }
            Standing::Slow => Err(DiskError::Slow),
        }
    }

    fn arm(&mut self, count: u32, kind: u8, mask: u8) {
        self.disk.arm(count, kind, mask);
    }
}
