//! The file of an image, which one process at a time serves or formats.

ghost use Rattle.std.specs.Prelude.{◌≡◌, ◌↔◌, All, IfErr, IsTrue};
ghost use Rattle.norbd_image.specs.Image.{ComesOfHolding};

use crate::error::ImageError;
use chip_model::is_chip_size;
use chip_simulator::{ImageBus, SimError};
use std::alloc::Global;
use std::fs::{File, Metadata, OpenFile, OpenOptions, TryLockError};
use std::io::ErrorKind;
use std::os::unix::fs::{FileExt, FileTypeExt, MetadataExt};
use std::rt::Files;
use std::{fs, io};

/// How many bytes of a file are looked at at once.
const LOOK_LEN: usize = 4_096;

/// Whether each of these bytes is FFh.
fn is_erased(bytes: &[u8]) -> bool
    ensures { IsTrue result ↔ All (λ byte. byte ≡ 255) bytes.now }
{
    bytes.iter().all(|&byte| byte == 0xFF)
}

/// The fault that a failed call on files is.
pub(crate) fn fault_from(error: io::Error) -> ImageError
    ensures { ComesOfHolding result }
{
    match error.kind() {
        ErrorKind::OutOfMemory => ImageError::OutOfMemory,
        kind => ImageError::File(kind),
    }
}

/// What the file of an image does besides what files do: it has one owner.
pub trait ImageFile: FileExt {
    /// Takes the lock of this open file, which lasts until its last handle is closed, and tells
    /// whether it was free. It doesn't wait.
    fn claim(&self) -> io::Result<bool>;
}

impl ImageFile for File {
    fn claim(&self) -> io::Result<bool> {
        match self.try_lock() {
            Ok(()) => Ok(true),
            Err(TryLockError::WouldBlock) => Ok(false),
            Err(TryLockError::Error(error)) => Err(error),
        }
    }
}

/// The file of an image that this process alone serves or formats, as long as this is there. Only
/// `hold` and `hold_to_read` make one, and they have read and written nothing.
#[derive(Drop)]
pub struct Held<F> {
    file: F,
}

/// Opens the file at a path and takes its lock, which waits for nobody and reads and writes
/// nothing.
///
/// `NotAFile` where the path leads to no regular file, `InUse` where another process has it, or
/// where the path leads to another file meanwhile, `File` where it can't be opened for reading and
/// writing, or not be locked.
pub fn hold<R>(rt: &R, path: &str) -> Result<Held<R::File>, ImageError>
where
    R: Files,
    R::File: ImageFile,
    ensures { IfErr result ComesOfHolding }
{
    hold_by(rt, path, true)
}

/// As `hold`, of a file or a device that this process may not write, or that it is not to write:
/// every write of it fails.
pub fn hold_to_read<R>(rt: &R, path: &str) -> Result<Held<R::File>, ImageError>
where
    R: Files,
    R::File: ImageFile,
    ensures { IfErr result ComesOfHolding }
{
    hold_by(rt, path, false)
}

/// Whether what is at a path may be an image: a regular file, or a device that is only to be read.
/// Writing one takes erasing it, which a file needs not.
fn admit(found: &Metadata, writes: bool) -> Result<(), ImageError>
    ensures { IfErr result ComesOfHolding }
{
    if found.is_file() {
        return Ok(());
    }
    let kind = found.file_type();
    if writes || !(kind.is_block_device() || kind.is_char_device()) {
        return Err(ImageError::NotAFile);
    }
    Ok(())
}

/// How many bytes can be read of a device, which has no length of its own: up to 2^48 - 1, by the
/// last of them that there is.
fn device_len<F: FileExt>(device: &F) -> io::Result<u64> {
    let mut length = 0u64;
    for power in (0..48u32).rev() {
        let longer = length.saturating_add(1u64 << power);
        if device.read_at(&mut [0], longer - 1)? == 1 {
            length = longer;
        }
    }
    Ok(length)
}

/// Opens the file at a path to read it, and to write it too where `writes` is set, and takes its
/// lock.
fn hold_by<R>(rt: &R, path: &str, writes: bool) -> Result<Held<R::File>, ImageError>
where
    R: Files,
    R::File: ImageFile,
    ensures { IfErr result ComesOfHolding }
{
    match fs::metadata(rt, path) {
        Ok(found) => admit(&found, writes)?,
        Err(error) => return Err(fault_from(error)),
    }
    let file = match OpenOptions::new().read(true).write(writes).open(rt, path) {
        Ok(file) => file,
        Err(error) => return Err(fault_from(error)),
    };
    match file.claim() {
        Ok(true) => {}
        Ok(false) => return Err(ImageError::InUse),
        Err(error) => return Err(fault_from(error)),
    }
    match (file.metadata(), fs::metadata(rt, path)) {
        (Ok(one), Ok(other)) => if one.dev() == other.dev() && one.ino() == other.ino() {
            Ok(Held { file })
        } else {
            Err(ImageError::InUse)
        },
        (Err(error), _) => Err(fault_from(error)),
        (_, Err(error)) => Err(fault_from(error)),
    }
}

impl<F: OpenFile + FileExt + Drop> Held<F> {
    ghost use Rattle.std.specs.Prelude.{◌≡◌, IfOk, false, length};
    ghost use Rattle.chip_model.specs.Geometry.{IsChipSize};
    ghost use Rattle.chip_simulator.specs.Image.{image_broken, image_chip, image_cuts};
    ghost use Rattle.chip_simulator.specs.Sim.{fresh_chip};

    /// The length of the file in bytes, where the system tells it; of a device how many bytes of it
    /// can be read.
    pub fn length(&self) -> io::Result<u64> {
        let found = self.file.metadata()?;
        if found.is_file() {
            return Ok(found.len());
        }
        device_len(&self.file)
    }

    /// Fills `head` with the first bytes of the file: whether it has so many.
    pub fn has_head(&self, head: &mut [u8]) -> io::Result<bool> {
        match self.file.read_exact_at(head, 0) {
            Ok(()) => Ok(true),
            Err(error) if error.kind() == ErrorKind::UnexpectedEof => Ok(false),
            Err(error) => Err(error),
        }
    }

    /// Whether all bytes of the file are FFh, as those of an empty one are. It is read in pieces up
    /// to the first that has another byte.
    pub(crate) fn is_blank(&self) -> io::Result<bool> {
        let mut piece = [0u8; LOOK_LEN];
        for number in 0..self.length()?.div_ceil(LOOK_LEN as u64) {
            let read = self.file.read_at(&mut piece, LOOK_LEN as u64 * number)?;
            if !is_erased(&piece[..read]) {
                return Ok(false);
            }
        }
        Ok(true)
    }

    /// All bytes of the file: `BadSize` where no chip has so many, `OutOfMemory` where there is no
    /// memory for them, and `File` where it can't be read.
    pub fn bytes(&self, alloc: Global) -> Result<Vec<u8>, SimError>
        ensures { IfOk result (λ bytes. IsChipSize (length bytes.items)) }
    {
        let Ok(length) = self.length() else {
            return Err(SimError::File);
        };
        if !is_chip_size(length) {
            return Err(SimError::BadSize);
        }
        let Ok(mut bytes) = vec![in alloc; 0xFFu8; length as usize] else {
            return Err(SimError::OutOfMemory);
        };
        match self.file.read_exact_at(bytes.as_mut_slice(), 0) {
            Ok(()) => Ok(bytes),
            Err(_) => Err(SimError::File),
        }
    }

    /// Another handle of the file, which has the lock too.
    pub fn handle(&self) -> io::Result<F> {
        self.file.try_clone()
    }

    /// The chip in the file, which has these bytes (`bytes`): each of its changes is written in
    /// place. An error where no other handle of the file can be had.
    pub fn chip(&self, bytes: Vec<u8>) -> io::Result<ImageBus<F>>
        requires { IsChipSize (length bytes.items) }
        ensures chip { IfOk result (λ b. image_chip b ≡ fresh_chip bytes.items) }
        ensures cuts { IfOk result (λ b. image_cuts b ≡ 0) }
        ensures sound { IfOk result (λ b. image_broken b ≡ false) }
    {
        Ok(ImageBus::over(bytes, self.file.try_clone()?))
    }
}
