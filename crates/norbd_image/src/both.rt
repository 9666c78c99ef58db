//! What an image and the log beside it hold, and the end of the log in the image.

ghost use Rattle.std.specs.Prelude.{◌≡◌, ◌<◌, ◌*◌, ◌/◌, IfErr, IfOk, length, true};
ghost use Rattle.block_device.specs.Facts.{IsDiskReady};
ghost use Rattle.chip_model.specs.Geometry.{IsChipSize, sector_count};
ghost use Rattle.disk_log.specs.Files.{OfFiles};
ghost use Rattle.disk_log.specs.Logged.{IsOfDisk};
ghost use Rattle.disk_log.specs.Logs.{contents_in};
ghost use Rattle.flash_disk.specs.Contents.{contents_of};
ghost use Rattle.norbd_image.specs.Both.{IsOnFiles, IsOwn, IsRefusedFor, ReplayFails, SaysSo};
ghost use Rattle.norbd_image.specs.Both.{SettlesLog, TellsRefusal, with_changes};

use crate::memory::MemoryDisk;
use block_device::Disk;
use chip_model::Geometry;
use chip_simulator::PromptChip;
use disk_log::{
    Found, ImageFiles, LoggedDisk, Refusal, Sum, read_log, record_len, replay, take_up,
};
use flash_disk::{FlashDisk, MountError};
use std::alloc::Global;
use std::marker::Brand;
use std::sync::ledger::{Blank, Ledger};

/// Why it can't be told what an image and its log hold, or why the log isn't ended.
#[derive(Clone, Copy, Debug, PartialEq, Eq, Drop)]
pub enum LogError {
    /// Memory ran out.
    OutOfMemory,
    /// The file isn't a log.
    Foreign,
    /// The log belongs to another image.
    Another,
    /// The chip in the image is refused, whose log has changes of its disk.
    Refused(MountError),
    /// What reads as free on the chip in the image isn't erased, whose log has changes of its disk.
    NotClean,
    /// A call of one of the two files failed, or the chip lost its power.
    Failed,
}

/// How many sectors a chip of so many bytes has.
fn sectors_of(image: &[u8]) -> u32
    requires { IsChipSize (length image.now) }
    ensures { result ≡ sector_count (length image.now) }
{
    let Some(chip) = Geometry::of(image.len() as u32) else {
        unreachable!()
    };
    chip.sectors
}

/// The disk of an image, with the changes of its log.
fn replayed(
    alloc: Global,
    image: Vec<u8>,
    log: &[u8],
) -> Result<FlashDisk<PromptChip, Brand>, LogError>
    requires { IsChipSize (length image.items) }
    ensures holds { IfOk result (λ disk. (⟦<FlashDisk<PromptChip, Brand> as Disk>⟧.facts
        disk).contents ≡ with_changes (sector_count (length image.items)) log.now
        (contents_of image.items)) }
    ensures ready { IfOk result (λ disk.
        IsDiskReady (⟦<FlashDisk<PromptChip, Brand> as Disk>⟧.facts disk)) }
    ensures sound { IfOk result (λ disk.
        (⟦<FlashDisk<PromptChip, Brand> as Disk>⟧.facts disk).sound ≡ true) }
    ensures size { IfOk result (λ disk. length (⟦<FlashDisk<PromptChip, Brand> as Disk>⟧.facts
        disk).contents ≡ 512 * sector_count (length image.items)) }
    ensures refused { IfErr result (ReplayFails image.items) }
{
    let Ok(chip) = PromptChip::new(image) else {
        unreachable!()
    };
    let mut disk = match FlashDisk::<_, Brand>::mount(alloc, chip) {
        Ok(disk) => disk,
        Err((_, error)) => return Err(LogError::Refused(error)),
    };
    match disk.check() {
        Ok(true) => {}
        Ok(false) => return Err(LogError::NotClean),
        Err(_) => return Err(LogError::Failed),
    }
    match replay(&mut disk, log) {
        Ok(()) => Ok(disk),
        Err(_) => Err(LogError::Failed),
    }
}

/// Why a log isn't taken.
fn told_of_refusal(refusal: Refusal) -> LogError
    ensures { TellsRefusal refusal result }
{
    match refusal {
        Refusal::Foreign => LogError::Foreign,
        Refusal::Another => LogError::Another,
    }
}

/// The chip that an image and the log beside it hold: its bytes, and how many bytes of the log say
/// something, with its head; 0 where none does.
#[derive(Drop)]
pub struct Joined {
    pub bytes: Vec<u8>,
    pub log_len: usize,
}

/// The chip that an image and the log beside it hold: the disk that its bytes represent is that of
/// the image, with the changes of the log. A log that says nothing is nobody's.
pub fn chip_in(alloc: Global, image: Vec<u8>, log: &[u8]) -> Result<Joined, LogError>
    requires size { IsChipSize (length image.items) }
    ensures size { IfOk result (λ both. IsChipSize (length both.bytes.items)) }
    ensures holds { IfOk result (λ both. contents_of both.bytes.items
        ≡ contents_in contents_of (sector_count (length image.items)) image.items log.now) }
    ensures own { IfOk result (λ _.
        IsOwn (sector_count (length image.items)) image.items log.now) }
    ensures len { IfOk result (λ both.
        SaysSo (sector_count (length image.items)) log.now both.log_len) }
    ensures refused { IfErr result (λ e.
        IsRefusedFor (sector_count (length image.items)) image.items log.now e) }
{
    let mut image = image;
    match read_log(sectors_of(image.as_slice()), image.as_mut_slice(), log) {
        Ok(Found::Nothing) => Ok(Joined {
            bytes: image,
            log_len: 0,
        }),
        Ok(Found::Checkpoint { at }) => Ok(Joined {
            bytes: image,
            log_len: at + record_len(&log[at..]),
        }),
        Ok(Found::Records { len, .. }) => match replayed(alloc, image, log) {
            Ok(disk) => Ok(Joined {
                bytes: disk.into_inner().into_inner(),
                log_len: len,
            }),
            Err(error) => Err(error),
        },
        Err(refusal) => Err(told_of_refusal(refusal)),
    }
}

/// Writes what the log beside an image has into the image, and begins the log anew; where it has
/// nothing, both stay as they are. The files come back.
pub fn settle_log<F: ImageFiles + Drop>(
    alloc: Global,
    files: F,
    image: Vec<u8>,
    log: &[u8],
) -> (F, Result<(), LogError>)
    requires size { IsChipSize (length image.items) }
    requires files { OfFiles (F.medium files) (λ m.
        IsOnFiles (sector_count (length image.items)) image.items log.now m) }
    ensures { SettlesLog (F.medium files) result.1 (F.medium result.0) }
{
    let (mut files, mut image) = (files, image);
    let sectors = sectors_of(image.as_slice());
    let found = match read_log(sectors, image.as_mut_slice(), log) {
        Ok(Found::Nothing) => return (files, Ok(())),
        Ok(found) => found,
        Err(refusal) => return (files, Err(told_of_refusal(refusal))),
    };
    let Ok(sum) = take_up(&mut files, sectors, image.as_slice(), log, found) else {
        return (files, Err(LogError::Failed));
    };
    match found {
        Found::Records { .. } => settle_records(alloc, files, image, sum, log),
        Found::Checkpoint { .. } => (files, Ok(())),
        Found::Nothing => (files, Ok(())),
    }
}

/// Settles a log of these changes, which was taken up on an image with these bytes, and whose last
/// record has the sum `sum`.
fn settle_records<F: ImageFiles + Drop>(
    alloc: Global,
    files: F,
    image: Vec<u8>,
    sum: Sum,
    log: &[u8],
) -> (F, Result<(), LogError>)
    requires size { IsChipSize (length image.items) }
    requires files { OfFiles (F.medium files) (λ m. IsOfDisk contents_of
        (sector_count (length image.items)) (with_changes (sector_count (length image.items))
        log.now (contents_of image.items)) image.items sum m) }
    ensures { SettlesLog (F.medium files) result.1 (F.medium result.0) }
{
    let Ok(copy) = image.as_slice().to_vec(alloc) else {
        return (files, Err(LogError::OutOfMemory));
    };
    match replayed(alloc, copy, log) {
        Ok(disk) => {
            let disk = MemoryDisk::new(disk);
            settle_disk::<_, Brand>(alloc, disk, files, image, sum, Blank::new(1))
        }
        Err(error) => (files, Err(error)),
    }
}

/// A disk on a chip in memory.
type InMemory = MemoryDisk<PromptChip, Brand>;

/// Settles the log of a disk whose image has these bytes on its file; `L` names what is lost.
fn settle_disk<F: ImageFiles + Drop, L: Ledger>(
    alloc: Global,
    disk: InMemory,
    files: F,
    image: Vec<u8>,
    sum: Sum,
    blank: Blank,
) -> (F, Result<(), LogError>)
    requires name { (blank.name ≡ L.name) × (blank.parts ≡ L.parts) × (0 < L.parts) }
    requires ready { IsDiskReady (⟦<InMemory as Disk>⟧.facts disk) }
    requires sound { (⟦<InMemory as Disk>⟧.facts disk).sound ≡ true }
    requires size { IsChipSize (length image.items) }
    requires files { OfFiles (F.medium files) (λ m. IsOfDisk contents_of
        (length (⟦<InMemory as Disk>⟧.facts disk).contents / 512)
        (⟦<InMemory as Disk>⟧.facts disk).contents image.items sum m) }
    ensures { SettlesLog (F.medium files) result.1 (F.medium result.0) }
{
    let mut logged = LoggedDisk::<_, _, L>::new(alloc, disk, files, image, sum, blank);
    let settled = match logged.settle() {
        Ok(()) => Ok(()),
        Err(_) => Err(LogError::Failed),
    };
    let (_, files) = logged.into_parts();
    (files, settled)
}
