//! The disk.

ghost use Rattle.std.specs.Prelude.{◌≡◌, ◌*◌, false, true, length};
ghost use Rattle.block_device.specs.Facts.{CountsNeverFall, KeepsContents, RestoreLatches, Tidies};

use block_device::{Disk, DiskError, sectors_decide_contents, write_replaces_sectors};

/// A disk over another one, which is restored where it lost its power in a call, and then does that
/// call again.
///
/// Its work to tidy is a number of steps of its own: after each change it takes 2^32 - 1 at most,
/// until the disk below has none left.
#[derive(Drop)]
pub struct RestoredDisk<D> {
    disk: D,
    steps: u32,
}

impl<D: Disk> RestoredDisk<D> {
    /// A disk over this one.
    pub fn new(disk: D) -> RestoredDisk<D>
        ensures { result.disk ≡ disk }
    {
        RestoredDisk {
            disk,
            steps: u32::MAX,
        }
    }

    /// Whether a Cut stands.
    fn is_cut(&mut self) -> bool
        ensures cut { result ≡ (D.facts self.old.disk).cut }
        ensures facts { D.facts self.new.disk ≡ D.facts self.old.disk }
        ensures steps { self.new.steps ≡ self.old.steps }
    {
        self.disk.flush().is_err()
    }

    /// Counts a step, after which the disk below may have more to do, and answers whether there was
    /// one left.
    fn step(&mut self, more: bool) -> bool
        ensures steps { Tidies self.old.steps (Ok result) self.new.steps }
        ensures disk { self.new.disk ≡ self.old.disk }
    {
        if self.steps == 0 {
            return false;
        }
        self.steps = if more { self.steps - 1 } else { 0 };
        true
    }

    /// Turns the power on anew after a Cut, where no Slow stands.
    fn resume(&mut self) -> Result<(), DiskError>
        requires quick { (D.facts self.old.disk).slow ≡ false }
        ensures contents { (D.facts self.old.disk).sound ≡ true →
            KeepsContents (D.facts self.old.disk).contents result
            (D.facts self.new.disk).contents }
        ensures sound { (D.facts self.new.disk).sound ≡ (D.facts self.old.disk).sound }
        ensures goes { CountsNeverFall (D.facts self.old.disk) (D.facts self.new.disk) }
        ensures latches { RestoreLatches (D.facts self.old.disk) result
            (D.facts self.new.disk) }
        ensures steps { self.new.steps ≡ self.old.steps }
    {
        D::restore(&mut self.disk)
    }
}

impl<D: Disk> Disk for RestoredDisk<D> {
    ghost facts = { λ d. record (D.facts d.disk) { work = d.steps } };

    fn sectors(&self) -> u32 {
        self.disk.sectors()
    }

    fn read(&mut self, first: u32, into: &mut [u8]) -> Result<(), DiskError> {
        if self.is_cut() {
            return Err(DiskError::Cut);
        }
        match self.disk.read(first, into) {
            Ok(()) => return Ok(()),
            Err(DiskError::Slow) => return Err(DiskError::Slow),
            Err(DiskError::Cut) => {}
        }
        match self.resume() {
            Ok(()) => self.disk.read(first, into),
            Err(error) => Err(error),
        }
    }

    fn write(&mut self, first: u32, from: &[u8]) -> Result<(), DiskError> {
        let _sectors = self.disk.sectors();
        sectors_decide_contents();
        write_replaces_sectors();
        if self.is_cut() {
            return Err(DiskError::Cut);
        }
        self.steps = u32::MAX;
        match self.disk.write(first, from) {
            Ok(()) => return Ok(()),
            Err(DiskError::Slow) => return Err(DiskError::Slow),
            Err(DiskError::Cut) => {}
        }
        match self.resume() {
            Ok(()) => self.disk.write(first, from),
            Err(error) => Err(error),
        }
    }

    fn zero(&mut self, first: u32, count: u32) -> Result<(), DiskError> {
        let _sectors = self.disk.sectors();
        sectors_decide_contents();
        write_replaces_sectors();
        if self.is_cut() {
            return Err(DiskError::Cut);
        }
        self.steps = u32::MAX;
        match self.disk.zero(first, count) {
            Ok(()) => return Ok(()),
            Err(DiskError::Slow) => return Err(DiskError::Slow),
            Err(DiskError::Cut) => {}
        }
        match self.resume() {
            Ok(()) => self.disk.zero(first, count),
            Err(error) => Err(error),
        }
    }

    fn flush(&mut self) -> Result<(), DiskError> {
        self.disk.flush()
    }

    fn tidy(&mut self) -> Result<bool, DiskError> {
        if self.is_cut() {
            return Err(DiskError::Cut);
        }
        match self.disk.tidy() {
            Ok(more) => return Ok(self.step(more)),
            Err(DiskError::Slow) => return Err(DiskError::Slow),
            Err(DiskError::Cut) => {}
        }
        match self.resume() {
            Ok(()) => Ok(self.step(true)),
            Err(error) => Err(error),
        }
    }

    fn restore(&mut self) -> Result<(), DiskError> {
        self.steps = u32::MAX;
        self.disk.restore()
    }

    fn arm(&mut self, count: u32, kind: u8, mask: u8) {
        self.disk.arm(count, kind, mask);
    }
}
