//! An image file and its log in memory.

ghost use Rattle.std.specs.Prelude.{◌≡◌, ◌+◌, ◌≤◌, Some, length};
ghost use Rattle.block_device.specs.Contents.{replaced};
ghost use Rattle.disk_log.specs.Files.{Extends};
ghost use Rattle.disk_log.specs.Memory.{medium_of};

use crate::file::{IMAGE_BLOCK_LEN, ImageFiles};
use std::io;
use std::io::ErrorKind;

/// An image and its log in memory, whose calls fail once they have done so much: a byte that is
/// written, a sync and a cut count one each.
#[derive(Drop)]
pub struct MemoryFiles {
    sectors: u32,
    image: Vec<u8>,
    log: Vec<u8>,
    safe: usize,
    settled: bool,
    left: usize,
}

/// How much of what is to be done still is.
fn done(left: &mut usize, much: usize) -> usize
    ensures { result ≤ much }
{
    let done = much.min(*left);
    *left -= done;
    done
}

/// Puts these bytes in place of others.
fn put(image: &mut Vec<u8>, at: usize, bytes: &[u8])
    requires { at + length bytes.now ≤ length image.old.items }
    ensures { image.new.items ≡ replaced image.old.items at bytes.now }
{
    image[at..at + bytes.len()].copy_from_slice(bytes);
}

impl MemoryFiles {
    ghost use Rattle.std.specs.Prelude.{true};

    /// Files with these bytes, all on the medium, of a disk of so many sectors. They fail once they
    /// have done so much.
    pub fn new(sectors: u32, image: Vec<u8>, log: Vec<u8>, left: usize) -> MemoryFiles
        ensures { medium_of result ≡ record {
          sectors = sectors;
          image = image.items;
          log = log.items;
          safe = length log.items;
          settled = true;
        } }
    {
        MemoryFiles {
            safe: log.len(),
            sectors,
            image,
            log,
            settled: true,
            left,
        }
    }

    /// The bytes of the image.
    pub fn image(&self) -> &[u8]
        ensures { result.now ≡ (medium_of self.now).image }
    {
        self.image.as_slice()
    }

    /// The bytes of the log.
    pub fn log(&self) -> &[u8]
        ensures { result.now ≡ (medium_of self.now).log }
    {
        self.log.as_slice()
    }

    /// Appends these bytes to the log, or a beginning of them.
    fn extend(&mut self, bytes: &[u8]) -> Result<(), ErrorKind>
        ensures { Extends (Some (medium_of self.old)) bytes.now result
            (Some (medium_of self.new)) }
    {
        let n = done(&mut self.left, bytes.len());
        match self.log.extend_from_slice(&bytes[..n]) {
            Ok(()) if n == bytes.len() => Ok(()),
            Ok(()) => Err(ErrorKind::StorageFull),
            Err(_) => Err(ErrorKind::OutOfMemory),
        }
    }
}

impl ImageFiles for MemoryFiles {
    ghost use Rattle.std.specs.Prelude.{Some};
    ghost use Rattle.disk_log.specs.Memory.{medium_of};

    ghost medium = { λ files. Some (medium_of files) };

    fn append(&mut self, head: &[u8], bytes: &[u8]) -> io::Result<()> {
        if let Err(kind) = self.extend(head) {
            return Err(io::Error::from(kind));
        }
        match self.extend(bytes) {
            Ok(()) => Ok(()),
            Err(kind) => Err(io::Error::from(kind)),
        }
    }

    fn sync_log(&mut self) -> io::Result<()> {
        if done(&mut self.left, 1) == 0 {
            return Err(io::Error::from(ErrorKind::Other));
        }
        self.safe = self.log.len();
        Ok(())
    }

    fn write_block(&mut self, block: u32, bytes: &[u8]) -> io::Result<()> {
        let at = IMAGE_BLOCK_LEN * block as usize;
        let n = done(&mut self.left, IMAGE_BLOCK_LEN);
        self.settled = false;
        put(&mut self.image, at, &bytes[..n]);
        if n == IMAGE_BLOCK_LEN {
            Ok(())
        } else {
            Err(io::Error::from(ErrorKind::StorageFull))
        }
    }

    fn sync_image(&mut self) -> io::Result<()> {
        if done(&mut self.left, 1) == 0 {
            return Err(io::Error::from(ErrorKind::Other));
        }
        self.settled = true;
        Ok(())
    }

    fn cut_log(&mut self, len: usize) -> io::Result<()> {
        if done(&mut self.left, 1) == 0 {
            return Err(io::Error::from(ErrorKind::Other));
        }
        self.log.truncate(len);
        self.safe = len;
        Ok(())
    }
}
