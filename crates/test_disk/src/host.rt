//! The two files of an image on a host of which a call fails, or that loses its power: what is on
//! the medium, and the changes since the last sync, of which nobody knows which came.

use disk_log::{IMAGE_BLOCK_LEN, ImageFiles};
use std::alloc::{AllocError, Global};
use std::io;
use std::io::ErrorKind;
use std::sync::{Mutex, Wait};
use test_kit::Dice;

/// The bytes of a disk's sector, which is written as a whole or not.
const PIECE_LEN: usize = 512;

/// The bytes of a log's head.
const HEAD_LEN: usize = 16;

/// By how many bytes of zeros the log grows beyond its end.
const STEP_LEN: usize = 3_000;

/// A change of a file: bytes at a place.
#[derive(Drop)]
struct Change {
    at: usize,
    bytes: Vec<u8>,
}

/// Puts bytes into a file, which grows where it ends before them.
fn put(memory: &mut Vec<u8>, at: usize, bytes: &[u8]) -> Result<(), AllocError> {
    let end = at.saturating_add(bytes.len());
    if memory.len() < end {
        memory.resize(end, 0)?;
    }
    for (place, byte) in memory.iter_mut().skip(at).zip(bytes.iter()) {
        *place = *byte;
    }
    Ok(())
}

/// Which changes come.
#[derive(Drop)]
enum Luck {
    /// Those whose bit is set, the first of them in bit 0.
    Chosen(u32),
    /// Any, by dice.
    Drawn(Dice),
}

impl Luck {
    /// Whether the next one comes.
    fn comes(&mut self) -> bool {
        match self {
            Luck::Chosen(bits) => {
                let comes = *bits % 2 == 1;
                *bits /= 2;
                comes
            }
            Luck::Drawn(dice) => dice.below(2) == 1,
        }
    }
}

impl Change {
    /// Makes the change of a file where it comes, or where `torn` is set those pieces that come.
    fn come(&self, file: &mut Vec<u8>, luck: &mut Luck, torn: bool) -> Result<(), AllocError> {
        let Change { at, bytes } = self;
        let piece = if torn { PIECE_LEN } else { bytes.len().max(1) };
        let mut place = *at;
        for bytes in bytes.as_slice().chunks(piece) {
            if luck.comes() {
                put(file, place, bytes)?;
            }
            place = place.saturating_add(piece);
        }
        Ok(())
    }
}

/// A file: its bytes, those on the medium at its last sync, and its changes since.
#[derive(Drop)]
struct Kept {
    now: Vec<u8>,
    synced: Vec<u8>,
    changes: Vec<Change>,
}

impl Kept {
    /// A file with these bytes on the medium.
    fn new(alloc: Global, bytes: &[u8]) -> Result<Kept, AllocError> {
        Ok(Kept {
            now: bytes.to_vec(alloc)?,
            synced: bytes.to_vec(alloc)?,
            changes: Vec::new(alloc),
        })
    }

    /// Writes bytes.
    fn put(&mut self, at: usize, bytes: Vec<u8>) -> Result<(), AllocError> {
        put(&mut self.now, at, bytes.as_slice())?;
        self.changes.push(Change { at, bytes })?;
        Ok(())
    }

    /// Brings all changes onto the medium.
    fn sync(&mut self, alloc: Global) -> Result<(), AllocError> {
        self.synced = self.now.to_vec(alloc)?;
        self.changes.clear();
        Ok(())
    }

    /// What a loss leaves: each change since the last sync has come or not, or where `torn` is set
    /// each piece of it.
    fn left(&self, alloc: Global, luck: &mut Luck, torn: bool) -> Result<Vec<u8>, AllocError> {
        let mut left = self.synced.to_vec(alloc)?;
        for change in self.changes.iter() {
            change.come(&mut left, luck, torn)?;
        }
        Ok(left)
    }
}

/// The bytes of both files.
#[derive(Drop)]
pub(crate) struct Both {
    pub(crate) image: Vec<u8>,
    pub(crate) log: Vec<u8>,
}

/// Which call fails, counted from 0, and how many of its bytes come before.
#[derive(Clone, Copy, Debug)]
pub(crate) struct Failing {
    pub(crate) call: u32,
    pub(crate) bytes: usize,
}

/// A host with the two files. Where it may lose its power, it keeps at each call what that would
/// leave then.
#[derive(Drop)]
pub(crate) struct Host {
    alloc: Global,
    image: Kept,
    log: Kept,
    calls: u32,
    fails: Option<Failing>,
    losses: Option<Dice>,
    left: Vec<Both>,
}

impl Host {
    /// A host with these two files on its medium.
    pub(crate) fn new(alloc: Global, files: &Both) -> Result<Host, AllocError> {
        Ok(Host {
            alloc,
            image: Kept::new(alloc, files.image.as_slice())?,
            log: Kept::new(alloc, files.log.as_slice())?,
            calls: 0,
            fails: None,
            losses: None,
            left: Vec::new(alloc),
        })
    }

    /// The call fails that comes behind so many more.
    pub(crate) fn fail_in(&mut self, calls: u32, bytes: usize) {
        self.fails = Some(Failing {
            call: self.calls.saturating_add(calls),
            bytes,
        });
    }

    /// Whether a call has failed.
    pub(crate) fn has_failed(&self) -> bool {
        match self.fails {
            Some(failing) => self.calls > failing.call,
            None => false,
        }
    }

    /// From now on it may lose its power.
    pub(crate) fn lose(&mut self, seed: u64) {
        self.losses = Some(Dice::new(seed));
    }

    /// What the losses since the last such call would have left.
    pub(crate) fn take_left(&mut self) -> Vec<Both> {
        std::mem::replace(&mut self.left, Vec::new(self.alloc))
    }

    /// Both files as a process finds them.
    pub(crate) fn both(&self) -> Result<Both, AllocError> {
        Ok(Both {
            image: self.image.now.to_vec(self.alloc)?,
            log: self.log.now.to_vec(self.alloc)?,
        })
    }

    /// Keeps what losses of the power would leave now: each choice of the changes that aren't on
    /// the medium, where they are at most four; and some choices of them and of their pieces.
    fn note_losses(&mut self) -> Result<(), AllocError> {
        let Some(dice) = &mut self.losses else {
            return Ok(());
        };
        let changes = self
            .image
            .changes
            .len()
            .saturating_add(self.log.changes.len());
        let chosen = if changes < 5 { 1u32 << changes } else { 0 };
        let drawn = if changes == 0 { 0 } else { 6 };
        for k in 0..chosen.saturating_add(drawn) {
            let mut luck = if k < chosen {
                Luck::Chosen(k)
            } else {
                Luck::Drawn(Dice::new(u64::from(dice.below(0x4000_0000))))
            };
            let torn = k >= chosen && k % 2 == 0;
            let image = self.image.left(self.alloc, &mut luck, torn)?;
            let mut log = self.log.left(self.alloc, &mut luck, torn)?;
            if k >= chosen {
                // a file that has its new length and not its new bytes has any there
                let from = log.len().saturating_sub(dice.below(600) as usize);
                log.extend_from_within(from..log.len())?;
            }
            self.left.push(Both { image, log })?;
        }
        Ok(())
    }

    /// Counts a call with so many bytes: how many of them come, and whether it succeeds.
    fn call(&mut self, len: usize) -> Result<(usize, bool), AllocError> {
        self.note_losses()?;
        let number = self.calls;
        self.calls = number.saturating_add(1);
        match self.fails {
            Some(failing) if number == failing.call => Ok((failing.bytes.min(len), false)),
            _ => Ok((len, true)),
        }
    }

    /// Writes bytes into the log, where zeros are behind them then.
    fn write_log(&mut self, at: usize, bytes: &[u8]) -> Result<bool, AllocError> {
        let end = at.saturating_add(bytes.len());
        if end > self.log.now.len() {
            let zeros = vec![in self.alloc; 0u8; STEP_LEN]?;
            self.log.put(end, zeros)?;
        }
        let (len, succeeds) = self.call(bytes.len())?;
        let bytes = bytes[..len.min(bytes.len())].to_vec(self.alloc)?;
        self.log.put(at, bytes)?;
        Ok(succeeds)
    }

    /// Puts zeros in place of the log's bytes from a place to another.
    fn wipe_log(&mut self, from: usize, to: usize) -> Result<bool, AllocError> {
        let (_, succeeds) = self.call(0)?;
        if succeeds {
            let zeros = vec![in self.alloc; 0u8; to.saturating_sub(from)]?;
            self.log.put(from, zeros)?;
        }
        Ok(succeeds)
    }

    /// Writes a block of the image.
    fn write_block(&mut self, block: u32, bytes: &[u8]) -> Result<bool, AllocError> {
        let (len, succeeds) = self.call(bytes.len())?;
        let bytes = bytes[..len.min(bytes.len())].to_vec(self.alloc)?;
        self.image
            .put(IMAGE_BLOCK_LEN.saturating_mul(block as usize), bytes)?;
        Ok(succeeds)
    }

    /// Syncs the log.
    fn sync_log(&mut self) -> Result<bool, AllocError> {
        let (_, succeeds) = self.call(0)?;
        if succeeds {
            self.log.sync(self.alloc)?;
        }
        Ok(succeeds)
    }

    /// Syncs the image.
    fn sync_image(&mut self) -> Result<bool, AllocError> {
        let (_, succeeds) = self.call(0)?;
        if succeeds {
            self.image.sync(self.alloc)?;
        }
        Ok(succeeds)
    }
}

/// The two files of a host, as a process has them that opened them.
#[derive(Drop)]
pub(crate) struct HostFiles<'r, R> {
    rt: &'r R,
    host: &'r Mutex<Host>,
    end: usize,
}

impl<'r, R: Wait> HostFiles<'r, R> {
    /// The files as they are opened.
    pub(crate) fn new(rt: &'r R, host: &'r Mutex<Host>) -> HostFiles<'r, R> {
        let end = host.lock(rt).log.now.len();
        HostFiles { rt, host, end }
    }

    /// Syncs the log, as for a FLUSH.
    pub(crate) fn flush(rt: &'r R, host: &'r Mutex<Host>) -> io::Result<()> {
        told(host.lock(rt).sync_log())
    }

    /// Writes bytes behind the last ones that were written.
    fn write(&mut self, bytes: &[u8]) -> io::Result<()> {
        told(self.host.lock(self.rt).write_log(self.end, bytes))?;
        self.end = self.end.saturating_add(bytes.len());
        Ok(())
    }
}

/// What a call answers that was made.
fn told(made: Result<bool, AllocError>) -> io::Result<()> {
    match made {
        Ok(true) => Ok(()),
        Ok(false) => Err(io::Error::from(ErrorKind::StorageFull)),
        Err(_) => Err(io::Error::from(ErrorKind::OutOfMemory)),
    }
}

impl<R: Wait> ImageFiles for HostFiles<'_, R> {
    ghost use Rattle.std.specs.Prelude.{None};

    ghost medium = { λ files. None };

    fn append(&mut self, head: &[u8], bytes: &[u8]) -> io::Result<()> {
        let end = self.end;
        self.write(head)?;
        if !bytes.is_empty() {
            if let Err(error) = self.write(bytes) {
                self.end = end;
                return Err(error);
            }
        }
        Ok(())
    }

    fn sync_log(&mut self) -> io::Result<()> {
        told(self.host.lock(self.rt).sync_log())
    }

    fn write_block(&mut self, block: u32, bytes: &[u8]) -> io::Result<()> {
        told(self.host.lock(self.rt).write_block(block, bytes))
    }

    fn sync_image(&mut self) -> io::Result<()> {
        told(self.host.lock(self.rt).sync_image())
    }

    fn cut_log(&mut self, len: usize) -> io::Result<()> {
        if len < self.end {
            let first = len.saturating_add(HEAD_LEN).min(self.end);
            told(self.host.lock(self.rt).wipe_log(len, first))?;
            self.sync_log()?;
            told(self.host.lock(self.rt).wipe_log(first, self.end))?;
        }
        self.end = len;
        self.sync_log()
    }
}
