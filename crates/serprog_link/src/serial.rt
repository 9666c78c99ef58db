//! Connections by a serial device.

ghost use Rattle.std.specs.Prelude.{◌≡◌, ◌<◌, ◌^◌, ◌-◌, length, IfOk, None};
ghost use Rattle.std.specs.Io.{ReadsAtMost};
ghost use Rattle.std.specs.Io.KnownBytes.{ReadConsumes};
ghost use Rattle.block_device.specs.Streams.{CountsFailure};

use crate::pause::wait_if_tried;
use block_device::{Failed, Sink, Source};
use serprog::{Dialer, Incoming};
use std::fs::{OpenFile, OpenOptions};
use std::io::{ErrorKind, Read, Write};
use std::os::unix::fs::FileTypeExt;
use std::rt::Files;
use std::time::{Clock, Duration};
use std::{io, thread};

/// How often a device is read at most until something came. It is asked at most once a millisecond,
/// so the patience ends before.
const MOST_EMPTY_READS: u32 = 10_000_000;

/// What opens the serial device at a path, for reading and writing.
///
/// A path of anything but a character device is refused by `InvalidInput`, and nothing is written
/// there: it may be an image. Before every try but the first half a second is waited.
#[derive(Drop)]
pub struct SerialDialer<'r, 'p, R> {
    rt: &'r R,
    path: &'p str,
    patience: Duration,
    tried: bool,
}

impl<'r, 'p, R> SerialDialer<'r, 'p, R> {
    /// A dialer that has opened nothing yet. The patience is how long a read waits until
    /// `wait_at_most` says something else.
    pub fn new(rt: &'r R, path: &'p str, patience: Duration) -> SerialDialer<'r, 'p, R> {
        SerialDialer {
            rt,
            path,
            patience,
            tried: false,
        }
    }
}

impl<'r, R: Files> SerialDialer<'r, '_, R> {
    /// The device, opened.
    fn begin(&self) -> io::Result<(SerialIn<'r, R, R::File>, SerialOut<R::File>)> {
        let file = OpenOptions::new()
            .read(true)
            .write(true)
            .open(self.rt, self.path)?;
        if !file.metadata()?.file_type().is_char_device() {
            return Err(io::Error::from(ErrorKind::InvalidInput));
        }
        split_device(self.rt, self.patience, file)
    }
}

impl<'r, R: Files + Clock> Dialer<SerialIn<'r, R, R::File>, SerialOut<R::File>>
    for SerialDialer<'r, '_, R> {
    fn dial(&mut self) -> Result<(SerialIn<'r, R, R::File>, SerialOut<R::File>), ErrorKind> {
        wait_if_tried(self.rt, &mut self.tried);
        match self.begin() {
            Ok(streams) => Ok(streams),
            Err(error) => Err(error.kind()),
        }
    }
}

/// The half that is read. Where the device's read gives no byte it is made again, until some came
/// or enough was waited; the read failed then. After 2^64 - 1 failed calls it has ended.
#[derive(Drop)]
pub struct SerialIn<'r, R, F> {
    rt: &'r R,
    file: F,
    patience: Duration,
    failures: u64,
    silent: bool,
}

/// The half that is written. After 2^64 - 1 failed calls none fails, and what is written goes
/// nowhere.
#[derive(Drop)]
pub struct SerialOut<F> {
    file: F,
    failures: u64,
}

/// The halves of a connection, which are two handles of its device.
fn split_device<'r, R, F: OpenFile + Drop>(
    rt: &'r R,
    patience: Duration,
    file: F,
) -> io::Result<(SerialIn<'r, R, F>, SerialOut<F>)> {
    let other = file.try_clone()?;
    let source = SerialIn {
        rt,
        file,
        patience,
        failures: 0,
        silent: false,
    };
    let sink = SerialOut {
        file: other,
        failures: 0,
    };
    Ok((source, sink))
}

/// Why a read gives no byte.
#[derive(Clone, Copy, Debug, PartialEq, Eq, Drop)]
enum Vain {
    /// None came while it waited.
    Silent,
    /// The system's read failed.
    Broken,
}

/// Reads a device until some bytes came, and no longer than the patience lasts. A device that
/// doesn't wait is asked once a millisecond.
fn read_in_time<R: Clock, F: Read>(
    rt: &R,
    file: &mut F,
    patience: Duration,
    into: &mut [u8],
) -> Result<usize, Vain>
    ensures bound { ReadsAtMost result into.new }
    ensures some { 0 < length into.old → IfOk result (λ n. 0 < n) }
{
    let Ok(begun) = rt.monotonic() else {
        return Err(Vain::Broken);
    };
    for _ in 0..MOST_EMPTY_READS {
        match file.read(into) {
            Ok(n) if n > 0 || into.is_empty() => return Ok(n),
            Ok(_) => {}
            Err(_) => return Err(Vain::Broken),
        }
        match rt.monotonic() {
            Ok(now) if now.saturating_sub(begun) < patience => {}
            _ => return Err(Vain::Silent),
        }
        thread::sleep(rt, Duration::from_millis(1));
    }
    Err(Vain::Silent)
}

impl<R: Clock, F: Read> Source for SerialIn<'_, R, F> {
    ghost remaining = { λ _. None };

    ghost faults = { λ half. half.failures };

    /// Fails where the device's own `read` does, and where it gives no byte in time.
    fn read(&mut self, into: &mut [u8]) -> Result<usize, Failed>
        ensures bound { ReadsAtMost result into.new }
        ensures bytes { ReadConsumes None None result into.new }
        ensures faults { CountsFailure self.old.failures result self.new.failures }
        ensures some { self.old.failures < 2 ^ 64 - 1 → 0 < length into.old
            → IfOk result (λ n. 0 < n) }
    {
        self.silent = false;
        match read_in_time(self.rt, &mut self.file, self.patience, into) {
            Ok(n) => Ok(n),
            Err(vain) if self.failures < u64::MAX => {
                self.failures += 1;
                self.silent = vain == Vain::Silent;
                Err(Failed)
            }
            Err(_) => Ok(0),
        }
    }
}

impl<R: Clock, F: Read> Incoming for SerialIn<'_, R, F> {
    fn wait_at_most(&mut self, millis: u32) {
        self.patience = Duration::from_millis(millis as u64);
    }

    fn is_silent(&self) -> bool {
        self.silent
    }
}

impl<F: Write> Sink for SerialOut<F> {
    ghost written = { λ _. None };

    ghost faults = { λ half. half.failures };

    fn write(&mut self, bytes: &[u8]) -> Result<usize, Failed> {
        match self.file.write(bytes) {
            Ok(n) if n > 0 || bytes.is_empty() => Ok(n),
            _ if self.failures < u64::MAX => {
                self.failures += 1;
                Err(Failed)
            }
            _ => Ok(bytes.len()),
        }
    }
}
