//! In which order the calls come that replace a file, and what is left where one of them fails.

use norbd_image::{ImageError, ImageFile, write_image};
use std::alloc::{Allocator, Global};
use std::fs::{Metadata, OpenFile, OpenOptions, Permissions};
use std::io::{ErrorKind, Read, Seek, SeekFrom, Write};
use std::os::unix::fs::FileExt;
use std::path::PathBuf;
use std::process::Abort;
use std::rt::Files;
use std::sync::{Mutex, Wait};
use std::test::*;
use std::{fs, io};

/// A call of the system that is noted.
#[derive(Clone, Copy, Debug, PartialEq, Eq, Drop)]
enum Call {
    Write,
    Sync,
    Rename,
    Remove,
}

/// The calls so far, and the one that fails.
#[derive(Drop)]
struct Calls {
    made: Vec<Call>,
    fails: Option<Call>,
}

impl Calls {
    /// Notes a call, which fails where it is to.
    fn make(&mut self, call: Call) -> io::Result<()> {
        if self.made.push(call).is_err() || self.fails == Some(call) {
            return Err(io::Error::from(ErrorKind::StorageFull));
        }
        Ok(())
    }
}

/// A file whose calls are noted.
#[derive(Drop)]
struct Noted<'r, R, F> {
    rt: &'r R,
    file: F,
    calls: &'r Mutex<Calls>,
}

impl<R, F: Read> Read for Noted<'_, R, F> {
    fn read(&mut self, into: &mut [u8]) -> io::Result<usize> {
        self.file.read(into)
    }
}

impl<R: Wait, F: Write> Write for Noted<'_, R, F> {
    fn write(&mut self, bytes: &[u8]) -> io::Result<usize> {
        self.calls.lock(self.rt).make(Call::Write)?;
        self.file.write(bytes)
    }

    fn flush(&mut self) -> io::Result<()> {
        self.file.flush()
    }
}

impl<R, F: Seek> Seek for Noted<'_, R, F> {
    fn seek(&mut self, to: SeekFrom) -> io::Result<u64> {
        self.file.seek(to)
    }
}

impl<R: Wait, F: OpenFile> OpenFile for Noted<'_, R, F> {
    fn metadata(&self) -> io::Result<Metadata> {
        self.file.metadata()
    }

    fn set_len(&self, size: u64) -> io::Result<()> {
        self.file.set_len(size)
    }

    fn sync_all(&self) -> io::Result<()> {
        self.calls.lock(self.rt).make(Call::Sync)?;
        self.file.sync_all()
    }

    fn sync_data(&self) -> io::Result<()> {
        self.file.sync_data()
    }

    fn set_permissions(&self, permissions: Permissions) -> io::Result<()> {
        self.file.set_permissions(permissions)
    }

    fn try_clone(&self) -> io::Result<Self> {
        Ok(Noted {
            rt: self.rt,
            file: self.file.try_clone()?,
            calls: self.calls,
        })
    }
}

impl<R: Wait, F: FileExt> FileExt for Noted<'_, R, F> {
    fn read_at(&self, into: &mut [u8], offset: u64) -> io::Result<usize> {
        self.file.read_at(into, offset)
    }

    fn write_at(&self, bytes: &[u8], offset: u64) -> io::Result<usize> {
        self.file.write_at(bytes, offset)
    }
}

impl<R: Wait, F: ImageFile> ImageFile for Noted<'_, R, F> {
    fn claim(&self) -> io::Result<bool> {
        self.file.claim()
    }
}

/// A system whose calls are noted.
#[derive(Drop)]
struct Noting<'r, R> {
    rt: &'r R,
    calls: &'r Mutex<Calls>,
}

impl<'r, R: AllocGlobal> Alloc for Noting<'r, R> {
    type A = Global;

    fn alloc(&self) -> Global {
        self.rt.alloc()
    }
}

impl<'r, R: Files + Wait> Files for Noting<'r, R> {
    type File = Noted<'r, R, R::File>;

    type Dir = R::Dir;

    fn open_file(&self, how: &OpenOptions, path: &str) -> io::Result<Noted<'r, R, R::File>> {
        Ok(Noted {
            rt: self.rt,
            file: self.rt.open_file(how, path)?,
            calls: self.calls,
        })
    }

    fn open_dir(&self, path: &str) -> io::Result<R::Dir> {
        self.rt.open_dir(path)
    }

    fn metadata(&self, path: &str) -> io::Result<Metadata> {
        self.rt.metadata(path)
    }

    fn symlink_metadata(&self, path: &str) -> io::Result<Metadata> {
        self.rt.symlink_metadata(path)
    }

    fn canonicalize<B: Allocator>(&self, alloc: B, path: &str) -> io::Result<PathBuf<B>> {
        self.rt.canonicalize(alloc, path)
    }

    fn copy(&self, from: &str, to: &str) -> io::Result<u64> {
        self.rt.copy(from, to)
    }

    fn rename(&self, from: &str, to: &str) -> io::Result<()> {
        self.calls.lock(self.rt).make(Call::Rename)?;
        self.rt.rename(from, to)
    }

    fn remove_file(&self, path: &str) -> io::Result<()> {
        self.calls.lock(self.rt).make(Call::Remove)?;
        self.rt.remove_file(path)
    }

    fn create_dir(&self, path: &str) -> io::Result<()> {
        self.rt.create_dir(path)
    }

    fn remove_dir(&self, path: &str) -> io::Result<()> {
        self.rt.remove_dir(path)
    }

    fn remove_dir_all<B: Allocator>(&self, alloc: B, path: &str) -> io::Result<()> {
        self.rt.remove_dir_all(alloc, path)
    }
}

#[test]
fn a_file_is_synced_before_it_is_renamed_and_nothing_is_left_of_a_failure(
    rt: HostRuntime,
) -> Result<(), Fail> {
    use Call::{Remove, Rename, Sync, Write};
    check(&rt, rt.alloc(), None, &[Write, Write, Sync, Rename])?;
    check(&rt, rt.alloc(), Some(Write), &[Write, Remove])?;
    check(&rt, rt.alloc(), Some(Sync), &[Write, Write, Sync, Remove])?;
    check(
        &rt,
        rt.alloc(),
        Some(Rename),
        &[Write, Write, Sync, Rename, Remove],
    )
}

/// A file is replaced by 4,097 bytes, which are written in two pieces.
fn check<R: Files + AllocGlobal + Wait + Abort>(
    rt: &R,
    alloc: Global,
    fails: Option<Call>,
    wanted: &[Call],
) -> Result<(), Fail>
where
    R::File: ImageFile,
{
    fs::write(rt, "noted.img", b"old".as_slice())?;
    let bytes = vec![in alloc; 0x11u8; 4_097]?;
    let calls = Mutex::new(Calls {
        made: Vec::new(alloc),
        fails,
    });
    let noting = Noting { rt, calls: &calls };
    let done = write_image(&noting, "noted.img", bytes.as_slice(), true);
    assert_eq!(rt; calls.lock(rt).made.as_slice(), wanted);
    let left = fs::read(rt, "noted.img")?;
    if fails.is_none() {
        assert_eq!(rt; done, Ok(()));
        assert_eq!(rt; left.as_slice(), bytes.as_slice());
    } else {
        assert_eq!(rt; done, Err(ImageError::File(ErrorKind::StorageFull)));
        assert_eq!(rt; left.as_slice(), b"old".as_slice());
    }
    assert!(rt; !fs::exists(rt, "noted.img.norbd-new")?);
    Ok(fs::remove_file(rt, "noted.img")?)
}
