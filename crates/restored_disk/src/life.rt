//! The disk of a chip in its lives.

ghost use Rattle.std.specs.Prelude.{◌≡◌, ◌⊎◌, ◌<◌, ◌≤◌, ◌*◌, ◌+◌, true, false, length, IfOk, IfErr};
ghost use Rattle.std.specs.Prelude.{Some, if◌then◌else◌, not, ◌&&◌, replicate, OnOk, []};
ghost use Rattle.block_device.specs.Contents.{bytes_at, InRange};
ghost use Rattle.block_device.specs.Facts.{CountsNeverFall, FlushLatches, IsDiskReady};
ghost use Rattle.block_device.specs.Facts.{KeepsContents, Latches, RestoreLatches, Tidies, Writes};
ghost use Rattle.chip_model.specs.Chip.{is_idle};
ghost use Rattle.chip_model.specs.Wavering.{bits_of};
ghost use Rattle.nor_driver.specs.Probe.{IsAcceptedChip};
ghost use Rattle.flash_disk.specs.Contents.{AtEachDraw, contents_of, wanted_work};
ghost use Rattle.flash_disk.specs.Mounting.{IsQuiet, Opened};
ghost use Rattle.restored_disk.specs.Lives.{CanGoOn, HaveLost, IsFoundNext, IsFirmOrSteady};
ghost use Rattle.restored_disk.specs.Lives.{StaysInLife, mount_told, stands_cut};

use crate::power::PowerCycle;
use block_device::{Disk, DiskError, Tally};
use chip_model::SpiBus;
use erase_journal::Firmness;
use flash_disk::{FlashDisk, MountError, Provenance};
use http_server::Log;
use nor_driver::ProbeError;
use std::alloc::Global;
use std::marker::Model;
use std::sync::ledger::{Blank, Ledger};

/// How a disk chooses its blocks, and when it tidies, in each life.
#[derive(Clone, Copy, Debug, PartialEq, Eq, Drop)]
pub struct Habits {
    /// Whether blocks are chosen so that all wear alike (`FlashDisk::level_wear`).
    pub levels: bool,
    /// Whether it tidies only while few slots are free (`FlashDisk::tidy_lazily`).
    pub lazy: bool,
}

/// The disk of a chip in its lives. Each `restore` after a loss of power begins the next one: the
/// power is turned off and on, and the chip is mounted firmly.
///
/// Once the power is lost in a call, its contents are those that the next power-on finds, and so
/// they stay. A Cut stands until a `restore` that answers Ok, and a Slow for good. Where the mount
/// of a `restore` is refused, also for want of memory, a Slow stands where an operation was slow,
/// and else a Cut: of a chip that reads as before at each power-on the next `restore` tries again;
/// any other is lost for good.
#[derive(Drop)]
pub struct LifeDisk<B: PowerCycle, P: Provenance + Ledger> {
    disk: Option<FlashDisk<B, P>>,
    // that of the chip whose mount was refused
    bus: Option<B>,
    standing: Option<DiskError>,
    sectors: u32,
    // how many losses of power were answered
    losses: Tally<P>,
    // the bus at the end of each life before this one in which the chip was mounted
    ended: Log<B, ()>,
    // whether the chip reads as before at each power-on
    steady: bool,
    habits: Habits,
    alloc: Global,
}

impl<B: PowerCycle, P: Provenance + Ledger> Model for LifeDisk<B, P> {
    ghost use Rattle.std.specs.Prelude.{◌≡◌, ◌+◌, ◌*◌, [], true, length, not, is_some, IfSome};
    ghost use Rattle.restored_disk.specs.Lives.{HaveLost, IsFirmOrSteady, Lived, StandsInFirst};
    ghost use Rattle.restored_disk.specs.Lives.{StandsInLife, WaitsForPower, given, lives_facts};
    ghost use Rattle.restored_disk.specs.Lives.{lost_now, off_chip, on_chip};

    ghost Value = { Lived };

    ghost view = { λ d. record {
      facts = lives_facts (B.draw (length d.ended.items)) d.standing d.losses
          (given d.disk (λ x. on_chip P.sound x.checked x.doubtful x.lazy x.map x.cut)
          (given d.bus (λ b. off_chip (B.chip b).memory (B.slows b)) (off_chip [] 0)));
      refused = not (is_some d.disk);
      lives = length d.ended.items;
    } };

    ghost invariant = { λ d. record {
      here : is_some d.bus ≡ not (is_some d.disk);
      served : IsFirmOrSteady P.firm B.draw;
      steady : d.steady ≡ not P.firm;
      cuts : P.cuts ≡ 0;
      size : length (lives_facts (B.draw (length d.ended.items)) d.standing d.losses
          (given d.disk (λ x. on_chip P.sound x.checked x.doubtful x.lazy x.map x.cut)
          (given d.bus (λ b. off_chip (B.chip b).memory (B.slows b)) (off_chip [] 0)))).contents
          ≡ 512 * d.sectors;
      stands : StandsInLife P.firm P.slows d.standing
          (given d.disk (λ x. on_chip P.sound x.checked x.doubtful x.lazy x.map x.cut)
          (given d.bus (λ b. off_chip (B.chip b).memory (B.slows b)) (off_chip [] 0)));
      waits : IfSome d.bus (λ b.
          WaitsForPower P.firm P.slows d.standing (B.chip b) (B.slows b));
      ended : HaveLost B.cuts d.ended.items;
      first : d.ended.items ≡ [] → StandsInFirst d.standing d.losses (is_some d.disk);
      told : P.firm ≡ true → is_some d.disk ≡ true
          → d.losses ≡ length d.ended.items + lost_now d.standing;
    } };
}

/// What is given back of the disk of a chip in its lives.
#[derive(Drop)]
pub struct Ended<B> {
    /// The bus, in the last life.
    pub bus: B,
    /// The bus at the end of each life before in which the chip was mounted. It is for contracts
    /// alone, and takes no bytes.
    pub lives: Log<B, ()>,
    /// Whether the disk was on the chip then: the last mount of a `restore` was not refused.
    pub mounted: bool,
}

impl<B> Ended<B> {
    /// A bus in its first life, before there was a disk of its lives.
    pub fn first(bus: B) -> Self
        ensures bus { result.bus ≡ bus }
        ensures lives { result.lives.items ≡ [] }
        ensures mounted { result.mounted ≡ false }
    {
        Ended {
            bus,
            lives: Log::new(),
            mounted: false,
        }
    }
}

impl<B: PowerCycle + Drop, P: Provenance + Ledger> LifeDisk<B, P> {
    /// The disk of a chip whose first life begins with this one. `P.firm` says that it was mounted
    /// firmly from a chip that was fit for it. Else `steady` is set: the chip reads as before at
    /// each power-on, and the mount of a `restore` that is refused is tried again by the next one,
    /// but after a Slow. The disk takes on these habits at once.
    pub fn new(
        alloc: Global,
        disk: FlashDisk<B, P>,
        steady: bool,
        habits: Habits,
        blank: Blank,
    ) -> Self
        requires name { blank.name ≡ P.name }
        requires parts { blank.parts ≡ P.parts }
        requires some { 0 < P.parts }
        requires served { IsFirmOrSteady P.firm B.draw }
        requires steady { steady ≡ not P.firm }
        requires counted { P.cuts ≡ 0 }
        requires sound { (⟦<FlashDisk<B, P> as Disk>⟧.facts disk).sound ≡ true }
        requires ready { IsDiskReady (⟦<FlashDisk<B, P> as Disk>⟧.facts disk) }
        requires cuts { (⟦<FlashDisk<B, P> as Disk>⟧.facts disk).cuts ≡ 0 }
        requires slows { (⟦<FlashDisk<B, P> as Disk>⟧.facts disk).slows ≡ P.slows }
        ensures ready { IsDiskReady result.facts }
        ensures sound { result.facts.sound ≡ true }
        ensures contents { result.facts.contents
            ≡ (⟦<FlashDisk<B, P> as Disk>⟧.facts disk).contents }
        ensures counts { (result.facts.cuts ≡ 0) × (result.facts.slows ≡ P.slows) }
        ensures work { result.facts.work ≡ (if habits.lazy then wanted_work true disk.map.memory
            else (⟦<FlashDisk<B, P> as Disk>⟧.facts disk).work) }
        ensures mounted { result.refused ≡ false }
        ensures lives { result.lives ≡ 0 }
    {
        let mut disk = disk;
        adopt(&mut disk, habits);
        let sectors = disk.sectors();
        LifeDisk {
            disk: Some(disk),
            bus: None,
            standing: None,
            sectors,
            losses: Tally::new(blank),
            ended: Log::new(),
            steady,
            habits,
            alloc,
        }
    }

    /// Whether the chip is mounted: the last mount of a `restore` was not refused.
    pub fn is_mounted(&self) -> bool
        ensures { result ≡ not self.now.refused }
    {
        self.disk.is_some()
    }

    /// Gives the bus back, with what the next power-on finds (`found`): the disk's contents, and a
    /// chip that can be mounted; and where `P.firm` says that the disk was mounted firmly from a
    /// chip that was fit for it, one that is fit for the next firm mount. While no error stands
    /// that is so however the weak bits read then (`stays`). Nothing is said where an operation was
    /// slow, or where a mount was refused that is not tried again.
    pub fn into_inner(self) -> Ended<B>
        ensures slows { B.slows result.bus ≡ self.facts.slows }
        ensures slow { self.facts.slow ≡ true → P.slows < self.facts.slows }
        ensures mounted { result.mounted ≡ not self.refused }
        ensures lives { length result.lives.items ≡ self.lives }
        // each life before this one ended with a loss that its bus counted,
        ensures ended { HaveLost B.cuts result.lives.items }
        // and so did this one, where a loss stands and the chip is mounted
        ensures none { IsDiskReady self.facts → B.cuts result.bus ≡ 0 }
        ensures cuts { self.refused ≡ false → self.facts.cut ≡ true → 0 < B.cuts result.bus }
        ensures first { self.lives ≡ 0 → B.cuts result.bus ≡ 0 → self.facts.cuts ≡ 0 }
        // of a chip that was fit one loss was answered for each of these lives
        ensures told { P.firm ≡ true → self.refused ≡ false
            → self.facts.cuts ≡ self.lives + (if self.facts.cut then 1 else 0) }
        ensures refused { self.refused ≡ true → 0 < self.lives }
        ensures idle { (self.refused ≡ false) ⊎ (P.firm ≡ false) → self.facts.slow ≡ false
            → is_idle (B.chip result.bus).operation ≡ true }
        ensures accepted { (self.refused ≡ false) ⊎ ((P.firm ≡ false) × (self.facts.slow ≡ false))
            → IsAcceptedChip (B.chip result.bus) }
        ensures found { (self.refused ≡ false) ⊎ (P.firm ≡ false) → self.facts.slow ≡ false
            → IsFoundNext P.firm (B.draw self.lives) self.facts.contents
            (bits_of (B.chip result.bus)) }
        ensures stays { P.firm ≡ true → IsDiskReady self.facts
            → AtEachDraw (bits_of (B.chip result.bus)) (λ later. later ≡ self.facts.contents) }
    {
        let LifeDisk {
            disk,
            bus,
            standing: _standing,
            sectors: _sectors,
            losses: _losses,
            ended,
            steady: _steady,
            habits: _habits,
            alloc: _alloc,
        } = self;
        match disk {
            Some(disk) => Ended {
                bus: disk.into_inner(),
                lives: ended,
                mounted: true,
            },
            None => match bus {
                Some(bus) => Ended {
                    bus,
                    lives: ended,
                    mounted: false,
                },
                None => unreachable!(),
            },
        }
    }

    /// Tries the mount again that was refused in a `restore`.
    fn retry(&mut self) -> Result<(), DiskError>
        requires refused { self.old.refused ≡ true }
        requires cut { (self.old.facts.cut ≡ true) × (self.old.facts.slow ≡ false) }
        ensures contents { KeepsContents self.old.facts.contents result self.new.facts.contents }
        ensures sound { self.new.facts.sound ≡ true }
        ensures goes { CountsNeverFall self.old.facts self.new.facts }
        ensures latches { RestoreLatches self.old.facts result self.new.facts }
        ensures mounted { OnOk result (self.new.refused ≡ false) }
        ensures lives { self.new.lives ≡ self.old.lives }
    {
        if !self.steady {
            self.losses.tick();
            return Err(DiskError::Cut);
        }
        let Some(bus) = self.bus.take() else {
            unreachable!()
        };
        match mount_again(self.alloc, bus, &self.ended, self.habits) {
            Ok(disk) => {
                self.disk = Some(disk);
                self.standing = None;
                Ok(())
            }
            Err((bus, error)) => {
                self.bus = Some(bus);
                Err(stand(&mut self.standing, &mut self.losses, error))
            }
        }
    }
}

impl<B: PowerCycle + Drop, P: Provenance + Ledger> Disk for LifeDisk<B, P> {
    ghost facts = { λ d. d.facts };

    fn sectors(&self) -> u32 {
        self.sectors
    }

    /// The trait's clauses, and one more: it is the same life, here and in the others.
    fn read(&mut self, first: u32, into: &mut [u8]) -> Result<(), DiskError>
        requires { InRange self.old.facts.contents first (length into.old) }
        ensures data { OnOk result (self.old.facts.sound ≡ true →
            into.new ≡ bytes_at self.old.facts.contents (512 * first) (length into.old)) }
        ensures contents { self.old.facts.sound ≡ true →
            KeepsContents self.old.facts.contents result self.new.facts.contents }
        ensures work { OnOk result (self.new.facts.work ≡ self.old.facts.work) }
        ensures sound { self.new.facts.sound ≡ self.old.facts.sound }
        ensures goes { CountsNeverFall self.old.facts self.new.facts }
        ensures latches { Latches self.old.facts result self.new.facts }
        ensures lives { StaysInLife self.old self.new }
    {
        if let Some(error) = self.standing {
            return Err(error);
        }
        let Some(disk) = &mut self.disk else {
            unreachable!()
        };
        match disk.read(first, into) {
            Ok(()) => Ok(()),
            Err(error) => Err(stand(&mut self.standing, &mut self.losses, error)),
        }
    }

    fn write(&mut self, first: u32, from: &[u8]) -> Result<(), DiskError>
        requires { InRange self.old.facts.contents first (length from.now) }
        ensures contents { self.old.facts.sound ≡ true → Writes first from.now
            self.old.facts.contents result self.new.facts.contents }
        ensures sound { self.new.facts.sound ≡ self.old.facts.sound }
        ensures goes { CountsNeverFall self.old.facts self.new.facts }
        ensures latches { Latches self.old.facts result self.new.facts }
        ensures lives { StaysInLife self.old self.new }
    {
        if let Some(error) = self.standing {
            return Err(error);
        }
        let Some(disk) = &mut self.disk else {
            unreachable!()
        };
        match disk.write(first, from) {
            Ok(()) => Ok(()),
            Err(error) => Err(stand(&mut self.standing, &mut self.losses, error)),
        }
    }

    fn zero(&mut self, first: u32, count: u32) -> Result<(), DiskError>
        requires { InRange self.old.facts.contents first (512 * count) }
        ensures contents { self.old.facts.sound ≡ true → Writes first (replicate (512 * count) 0)
            self.old.facts.contents result self.new.facts.contents }
        ensures sound { self.new.facts.sound ≡ self.old.facts.sound }
        ensures goes { CountsNeverFall self.old.facts self.new.facts }
        ensures latches { Latches self.old.facts result self.new.facts }
        ensures lives { StaysInLife self.old self.new }
    {
        if let Some(error) = self.standing {
            return Err(error);
        }
        let Some(disk) = &mut self.disk else {
            unreachable!()
        };
        match disk.zero(first, count) {
            Ok(()) => Ok(()),
            Err(error) => Err(stand(&mut self.standing, &mut self.losses, error)),
        }
    }

    fn flush(&mut self) -> Result<(), DiskError>
        ensures facts { self.new.facts ≡ self.old.facts }
        ensures latches { FlushLatches self.old.facts result }
        ensures lives { StaysInLife self.old self.new }
    {
        match self.standing {
            Some(DiskError::Cut) => Err(DiskError::Cut),
            _ => Ok(()),
        }
    }

    fn tidy(&mut self) -> Result<bool, DiskError>
        ensures contents { self.old.facts.sound ≡ true →
            KeepsContents self.old.facts.contents result self.new.facts.contents }
        ensures work { Tidies self.old.facts.work result self.new.facts.work }
        ensures sound { self.new.facts.sound ≡ self.old.facts.sound }
        ensures goes { CountsNeverFall self.old.facts self.new.facts }
        ensures latches { Latches self.old.facts result self.new.facts }
        ensures lives { StaysInLife self.old self.new }
    {
        if let Some(error) = self.standing {
            return Err(error);
        }
        let Some(disk) = &mut self.disk else {
            unreachable!()
        };
        match disk.tidy() {
            Ok(more) => Ok(more),
            Err(error) => Err(stand(&mut self.standing, &mut self.losses, error)),
        }
    }

    /// The trait's clauses, and more: where it answers Ok the chip is mounted, and a life more came
    /// before this one where it was mounted when it lost its power.
    fn restore(&mut self) -> Result<(), DiskError>
        ensures contents { self.old.facts.sound ≡ true → self.old.facts.slow ≡ false →
            KeepsContents self.old.facts.contents result self.new.facts.contents }
        ensures sound { self.old.facts.slow ≡ false
            → self.new.facts.sound ≡ self.old.facts.sound }
        ensures unsound { self.old.facts.sound ≡ false → self.new.facts.sound ≡ false }
        ensures goes { CountsNeverFall self.old.facts self.new.facts }
        ensures latches { RestoreLatches self.old.facts result self.new.facts }
        ensures mounted { OnOk result (self.new.refused ≡ false) }
        ensures lives { self.new.lives ≡ self.old.lives
            + (if self.old.facts.cut && not self.old.refused then 1 else 0) }
    {
        match self.standing {
            None => return Ok(()),
            Some(DiskError::Slow) => return Err(DiskError::Slow),
            Some(DiskError::Cut) => {}
        }
        let Some(disk) = self.disk.take() else {
            return self.retry();
        };
        let bus = disk.into_inner();
        let ended = self.ended.and(&bus, &());
        let mounted = mount_again(self.alloc, bus, &self.ended, self.habits);
        self.ended = ended;
        match mounted {
            Ok(disk) => {
                self.disk = Some(disk);
                self.standing = None;
                Ok(())
            }
            Err((bus, error)) => {
                self.bus = Some(bus);
                Err(stand(&mut self.standing, &mut self.losses, error))
            }
        }
    }

    /// Heeded while no error stands.
    fn arm(&mut self, count: u32, kind: u8, mask: u8) {
        if let Some(disk) = &mut self.disk {
            if self.standing.is_none() {
                disk.arm(count, kind, mask);
            }
        }
    }
}

/// This error stands from now on. A loss of power counts.
fn stand<L: Ledger>(
    standing: &mut Option<DiskError>,
    losses: &mut Tally<L>,
    error: DiskError,
) -> DiskError
    ensures same { result ≡ error }
    ensures stands { standing.new ≡ Some error }
    ensures counts { losses.new ≡ losses.old + (if stands_cut (Some error) then 1 else 0) }
{
    *standing = Some(error);
    if error == DiskError::Cut {
        losses.tick();
    }
    error
}

/// What refuses a mount, as an error of a disk: where no operation was slow the power counts as
/// lost.
fn told(error: MountError) -> DiskError
    ensures { result ≡ mount_told error }
{
    match error {
        MountError::Probe(ProbeError::Slow) => DiskError::Slow,
        _ => DiskError::Cut,
    }
}

/// Turns the power of a chip off and on, and mounts it firmly: with what the power-on finds, where
/// what reads as free is known to be erased. Refused, the bus is handed back.
fn mount_again<B: PowerCycle + Drop, P: Provenance>(
    alloc: Global,
    bus: B,
    ended: &Log<B, ()>,
    habits: Habits,
) -> Result<FlashDisk<B, P>, (B, DiskError)>
    requires served { IsFirmOrSteady P.firm B.draw }
    requires begins { CanGoOn P.firm (B.chip bus) }
    requires counted { P.cuts ≡ 0 }
    requires slows { B.slows bus ≡ P.slows }
    ensures opened { IfOk result (λ disk. Opened true 0 (B.slows bus)
        (⟦<FlashDisk<B, P> as Disk>⟧.facts disk)) }
    ensures contents { IfOk result (λ disk.
        (⟦<FlashDisk<B, P> as Disk>⟧.facts disk).contents
        ≡ contents_of (B.draw (length ended.now.items) (bits_of (B.chip bus))).later) }
    ensures size { IfErr result (λ r. length (contents_of (B.chip r.0).memory)
        ≡ length (contents_of (B.chip bus).memory)) }
    ensures cut { IfErr result (λ r. r.1 ≡ DiskError.Cut → (B.slows r.0 ≡ B.slows bus)
        × (contents_of (B.chip r.0).memory
        ≡ contents_of (B.draw (length ended.now.items) (bits_of (B.chip bus))).later)) }
    ensures again { IfErr result (λ r. r.1 ≡ DiskError.Cut → P.firm ≡ false
        → CanGoOn false (B.chip r.0)) }
    ensures slow { IfErr result (λ r. r.1 ≡ DiskError.Slow → B.slows bus < B.slows r.0) }
{
    let bus = bus.power_cycle(ended);
    match FlashDisk::<B, P>::mount_as(alloc, bus, Firmness::Firm) {
        Ok(disk) => {
            let mut disk = disk;
            disk.known_clean();
            adopt(&mut disk, habits);
            Ok(disk)
        }
        Err((bus, error)) => Err((bus, told(error))),
    }
}

/// From now on a disk chooses and tidies so.
fn adopt<B: SpiBus, P: Provenance>(disk: &mut FlashDisk<B, P>, habits: Habits)
    ensures sound { (⟦<FlashDisk<B, P> as Disk>⟧.facts disk.new).sound
        ≡ (⟦<FlashDisk<B, P> as Disk>⟧.facts disk.old).sound }
    ensures contents { (⟦<FlashDisk<B, P> as Disk>⟧.facts disk.new).contents
        ≡ (⟦<FlashDisk<B, P> as Disk>⟧.facts disk.old).contents }
    ensures ready { IsDiskReady (⟦<FlashDisk<B, P> as Disk>⟧.facts disk.old)
        → IsDiskReady (⟦<FlashDisk<B, P> as Disk>⟧.facts disk.new) }
    ensures quiet { IsQuiet (⟦<FlashDisk<B, P> as Disk>⟧.facts disk.old)
        (⟦<FlashDisk<B, P> as Disk>⟧.facts disk.new) }
    ensures work { (⟦<FlashDisk<B, P> as Disk>⟧.facts disk.new).work
        ≡ (if habits.lazy then wanted_work true disk.old.map.memory
        else (⟦<FlashDisk<B, P> as Disk>⟧.facts disk.old).work) }
{
    if habits.levels {
        disk.level_wear();
    }
    if habits.lazy {
        disk.tidy_lazily();
    }
}
