//! An image file and the log beside it.

ghost use Rattle.std.specs.Prelude.{◌≡◌, ◌++◌, length};
ghost use Rattle.disk_log.specs.Files.{CutsLog, Extends, IsLogged, IsNeedless, OfFiles};
ghost use Rattle.disk_log.specs.Files.{SyncsImage, SyncsLog, WritesBlock};

use std::io;

/// The bytes of a block of an image, the unit in which it is written.
pub const IMAGE_BLOCK_LEN: usize = 4096;

/// An image file and the log beside it. What the calls require is the order in which a host has to
/// keep what is written: a block is written into the image only where all of the log is on the
/// medium, and the log is cut only where all of the image is. A call that fails may have done
/// nothing, so that what holds after one that failed holds at each moment before it. Source: own.
pub trait ImageFiles {
    ghost use Rattle.std.specs.Prelude.{Option};
    ghost use Rattle.disk_log.specs.Logs.{Medium};

    /// What is in them; `None` where they tell a proof nothing, as files of the system.
    ghost medium: { Self → Option Medium };

    /// Appends `head` and, behind it, `bytes` to the log. Where that fails, a beginning of the two
    /// is there.
    fn append(&mut self, head: &[u8], bytes: &[u8]) -> io::Result<()>
        ensures { Extends (medium self.old) (head.now ++ bytes.now) result (medium self.new) };

    /// Brings all of the log onto the medium.
    fn sync_log(&mut self) -> io::Result<()>
        ensures { SyncsLog (medium self.old) result (medium self.new) };

    /// Writes the 4,096 bytes of a block of the image, counted from 0. Where that fails, it may
    /// have any bytes.
    fn write_block(&mut self, block: u32, bytes: &[u8]) -> io::Result<()>
        requires len { length bytes.now ≡ 4096 }
        requires logged { OfFiles (medium self.old) (λ m. IsLogged m block bytes.now) }
        ensures { WritesBlock block bytes.now (medium self.old) result (medium self.new) };

    /// Brings all of the image onto the medium.
    fn sync_image(&mut self) -> io::Result<()>
        ensures { SyncsImage (medium self.old) result (medium self.new) };

    /// Ends the log after so many of its bytes, on the medium too. Where that fails, it ends there
    /// or is as it was.
    fn cut_log(&mut self, len: usize) -> io::Result<()>
        requires { OfFiles (medium self.old) (λ m. IsNeedless len m) }
        ensures { CutsLog len (medium self.old) result (medium self.new) };
}
