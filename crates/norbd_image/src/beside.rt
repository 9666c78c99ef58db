//! The log beside the file of an image.

use crate::owner::Held;
use disk_log::{ImageFiles, LOG_HEAD_LEN};
use nor_layout::BLOCK_LEN;
use std::alloc::Global;
use std::fs::{FileTimes, Metadata, OpenFile, OpenOptions};
use std::io::ErrorKind;
use std::os::unix::fs::FileExt;
use std::rt::Files;
use std::sync::atomic::{AtomicU64, Ordering};
use std::{fs, io};

/// More bytes than a log ever has.
const MOST_LOG_LEN: u64 = 0x1000_0000;

/// The path of the log beside the file that a path leads to: its own path, and `.log`.
pub fn log_path<R>(rt: &R, path: &str) -> io::Result<String>
where
    R: Files + AllocGlobal,
{
    let place = fs::canonicalize(rt, path)?.into_string();
    let place = place.as_str();
    match format!(in rt.alloc(); "{place}.log") {
        Ok(name) => Ok(name),
        Err(_) => Err(io::Error::from(ErrorKind::OutOfMemory)),
    }
}

/// The bytes of the log beside the file that a path leads to: none where there is no log.
///
/// `InvalidData` where what has its name is no regular file, or is longer than a log.
pub fn log_bytes<R>(rt: &R, path: &str) -> io::Result<Vec<u8>>
where
    R: Files + AllocGlobal,
    R::File: FileExt,
{
    let name = log_path(rt, path)?;
    let length = match fs::metadata(rt, name.as_str()) {
        Ok(found) => if found.is_file() && found.len() < MOST_LOG_LEN {
            found.len()
        } else {
            return Err(io::Error::from(ErrorKind::InvalidData));
        },
        Err(error) if error.kind() == ErrorKind::NotFound => 0,
        Err(error) => return Err(error),
    };
    if length == 0 {
        return Ok(Vec::new(rt.alloc()));
    }
    let file = OpenOptions::new().read(true).open(rt, name.as_str())?;
    let Ok(mut bytes) = vec![in rt.alloc(); 0u8; length as usize] else {
        return Err(io::Error::from(ErrorKind::OutOfMemory));
    };
    file.read_exact_at(bytes.as_mut_slice(), 0)?;
    Ok(bytes)
}

/// Removes the log beside the file that a path leads to, if there is one.
pub fn remove_log<R>(rt: &R, path: &str) -> io::Result<()>
where
    R: Files + AllocGlobal,
{
    let name = log_path(rt, path)?;
    match fs::remove_file(rt, name.as_str()) {
        Err(error) if error.kind() == ErrorKind::NotFound => Ok(()),
        done => done,
    }
}

/// By how many bytes the file of a log grows at once.
const LOG_STEP: u64 = 0x10_0000;

/// How many zeros are written at once.
const ZEROS_LEN: usize = 0x1_0000;

const ZEROS: [u8; ZEROS_LEN] = [0; ZEROS_LEN];

/// A record that has no more bytes is written at once: 4 KiB of sectors, and its head.
const SHORT_LEN: usize = 4_120;

/// The files of an image and of the log beside it, which this process alone has. Nothing is synced
/// where `syncs` isn't set. The log ends after `end` bytes; behind it the file has zeros, so that
/// what is appended mostly leaves the file's length as it is, which a sync then needn't write.
#[derive(Drop)]
pub struct FileImages<F> {
    image: F,
    log: F,
    end: u64,
    len: u64,
    /// With which length the log's file was synced last.
    synced: u64,
    syncs: bool,
    /// Whether the log's file grows by steps.
    steps: bool,
}

/// Opens the log beside an image that is held, and makes it where there is none. The folder that
/// has its name is synced then, where the system lets that be done.
pub fn log_beside<R>(
    rt: &R,
    path: &str,
    held: &Held<R::File>,
    syncs: bool,
) -> io::Result<FileImages<R::File>>
where
    R: Files + AllocGlobal,
    R::File: FileExt,
{
    let name = log_path(rt, path)?;
    let image = held.handle()?;
    let found = OpenOptions::new()
        .read(true)
        .write(true)
        .open(rt, name.as_str());
    let (log, is_new) = match found {
        Ok(log) => (log, false),
        Err(error) if error.kind() == ErrorKind::NotFound => {
            (new_log(rt, name.as_str(), syncs)?, true)
        }
        Err(error) => return Err(error),
    };
    let len = log.metadata()?.len();
    Ok(FileImages {
        image,
        log,
        end: if is_new { 0 } else { len },
        len,
        synced: if is_new { len } else { 0 },
        syncs,
        steps: syncs,
    })
}

/// Makes the file of a log. Where it is synced it has its name only once all of it is on the
/// medium, so that no crash leaves other bytes than zeros in it.
fn new_log<R>(rt: &R, name: &str, syncs: bool) -> io::Result<R::File>
where
    R: Files + AllocGlobal,
    R::File: FileExt,
{
    let mut options = OpenOptions::new();
    let options = options.read(true).write(true).create(true).truncate(true);
    if !syncs {
        return options.open(rt, name);
    }
    let Ok(fresh) = format!(in rt.alloc(); "{name}.norbd-new") else {
        return Err(io::Error::from(ErrorKind::OutOfMemory));
    };
    let log = options.open(rt, fresh.as_str())?;
    let _ = lengthen(&log, 0, 0);
    let named = match log.sync_all() {
        Ok(()) => fs::rename(rt, fresh.as_str(), name),
        Err(error) => Err(error),
    };
    if let Err(error) = named {
        let _ = fs::remove_file(rt, fresh.as_str());
        return Err(error);
    }
    sync_length(&log, 0)?;
    sync_folder(rt, name);
    Ok(log)
}

/// Syncs the folder of a place, where that can be done.
fn sync_folder<R: Files>(rt: &R, place: &str) {
    let folder = match place.rsplit_once('/') {
        Some((folder, _)) if !folder.is_empty() => folder,
        _ => "/",
    };
    if let Ok(folder) = OpenOptions::new().read(true).open(rt, folder) {
        let _ = folder.sync_all();
    }
}

/// Writes zeros from a place of a file to another.
fn put_zeros<F: FileExt>(file: &F, from: u64, to: u64) -> io::Result<()> {
    let zeros = &ZEROS;
    let pieces = to.saturating_sub(from).div_ceil(ZEROS_LEN as u64);
    for number in 0..pieces {
        let at = from.saturating_add(number.saturating_mul(ZEROS_LEN as u64));
        let len = to.saturating_sub(at).min(ZEROS_LEN as u64) as usize;
        file.write_all_at(&zeros[..len], at)?;
    }
    Ok(())
}

/// Puts a step of zeros behind a place at which a file ends or beyond; where there is no room for
/// them, the file ends after `len` bytes as before.
fn lengthen<F: OpenFile + FileExt>(file: &F, len: u64, place: u64) -> io::Result<()> {
    match put_zeros(file, place, place.saturating_add(LOG_STEP)) {
        Ok(()) => Ok(()),
        Err(error) => {
            let _ = file.set_len(len);
            Err(error)
        }
    }
}

/// Writes two pieces of bytes, one behind the other.
fn put_both<F: FileExt>(file: &F, at: u64, head: &[u8], bytes: &[u8]) -> io::Result<()> {
    let mut one = [0u8; SHORT_LEN];
    if head.len() > SHORT_LEN || bytes.len() > SHORT_LEN - head.len() {
        file.write_all_at(head, at)?;
        return file.write_all_at(bytes, at.saturating_add(head.len() as u64));
    }
    one[..head.len()].copy_from_slice(head);
    one[head.len()..head.len() + bytes.len()].copy_from_slice(bytes);
    file.write_all_at(&one[..head.len() + bytes.len()], at)
}

/// Syncs a file whose length was `synced` at the last sync: its length now. Linux's vfat leaves a
/// new length out of a sync if it had begun to write it before; so the file is changed once more
/// then, and synced again.
fn sync_length<F: OpenFile>(file: &F, synced: u64) -> io::Result<u64> {
    let found = file.metadata()?;
    if found.len() == synced {
        file.sync_data()?;
        return Ok(synced);
    }
    file.sync_all()?;
    if let Ok(time) = found.modified() {
        let _ = file.set_times(FileTimes::new().set_modified(time));
    }
    file.sync_all()?;
    Ok(found.len())
}

impl<F: OpenFile + FileExt> FileImages<F> {
    /// Readies the log's file for a log that ends at a place: it has zeros behind that then.
    fn make_room(&mut self, end: u64) {
        if end <= self.len {
            return;
        }
        self.steps = self.steps && lengthen(&self.log, self.len, end).is_ok();
        self.len = if self.steps {
            end.saturating_add(LOG_STEP)
        } else {
            end
        };
    }

    /// Puts zeros in place of what the log has behind so many bytes. The first go first: without
    /// them what follows says nothing.
    fn wipe(&mut self, len: u64) -> io::Result<()> {
        let first = len.saturating_add(LOG_HEAD_LEN as u64).min(self.end);
        put_zeros(&self.log, len, first)?;
        self.sync_log()?;
        let most = self.len.min(len.max(LOG_STEP));
        if most < self.len {
            self.log.set_len(most)?;
            self.len = most;
        }
        put_zeros(&self.log, first, self.end.min(most))
    }
}

impl<F: OpenFile + FileExt + Drop> FileImages<F> {
    /// Other handles of the two files, to sync the log.
    pub fn handle(&self) -> io::Result<LogHandle<F>> {
        Ok(LogHandle {
            image: self.image.try_clone()?,
            log: self.log.try_clone()?,
            synced: AtomicU64::new(self.synced),
        })
    }
}

impl<F: OpenFile + FileExt> ImageFiles for FileImages<F> {
    ghost use Rattle.std.specs.Prelude.{None};

    ghost medium = { λ files. None };

    fn append(&mut self, head: &[u8], bytes: &[u8]) -> io::Result<()> {
        let end = self
            .end
            .saturating_add(head.len() as u64)
            .saturating_add(bytes.len() as u64);
        self.make_room(end);
        put_both(&self.log, self.end, head, bytes)?;
        self.end = end;
        Ok(())
    }

    fn sync_log(&mut self) -> io::Result<()> {
        if self.syncs {
            self.synced = sync_length(&self.log, self.synced)?;
        }
        Ok(())
    }

    fn write_block(&mut self, block: u32, bytes: &[u8]) -> io::Result<()> {
        self.image
            .write_all_at(bytes, BLOCK_LEN as u64 * block as u64)
    }

    fn sync_image(&mut self) -> io::Result<()> {
        if self.syncs {
            self.image.sync_data()
        } else {
            Ok(())
        }
    }

    fn cut_log(&mut self, len: usize) -> io::Result<()> {
        let len = len as u64;
        if !self.syncs {
            self.log.set_len(len)?;
            self.len = len;
        } else if len < self.end {
            self.wipe(len)?;
        }
        self.end = len;
        self.sync_log()
    }
}

/// Other handles of an image and of its log: a sync is one of the log, and what is known of the
/// file is known of the image.
#[derive(Drop)]
pub struct LogHandle<F> {
    image: F,
    log: F,
    /// With which length the log was synced last.
    synced: AtomicU64,
}

impl<F: OpenFile> OpenFile for LogHandle<F> {
    fn metadata(&self) -> io::Result<Metadata> {
        self.image.metadata()
    }

    fn set_len(&self, size: u64) -> io::Result<()> {
        self.log.set_len(size)
    }

    fn sync_all(&self) -> io::Result<()> {
        self.log.sync_all()
    }

    fn sync_data(&self) -> io::Result<()> {
        let synced = sync_length(&self.log, self.synced.load(Ordering::SeqCst))?;
        self.synced.store(synced, Ordering::SeqCst);
        Ok(())
    }
}
