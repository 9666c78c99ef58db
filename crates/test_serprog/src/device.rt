//! Serial devices that stand for a real one: each opening of them is a connection of the loopback
//! address.

use std::alloc::Allocator;
use std::fs::{Metadata, OpenFile, OpenOptions};
use std::io::{Empty, ErrorKind, Read, Seek, SeekFrom, Write};
use std::net::{Net, SocketAddr, TcpStream};
use std::rt::Files;
use std::sync::atomic::{AtomicU64, Ordering};
use std::time::{Clock, Duration};
use std::{fs, io};

/// The path of the device.
pub const PATH: &str = "/dev/ttyACM0";

/// A system with one file, the device.
#[derive(Drop)]
pub struct Devices<'r, R> {
    rt: &'r R,
    address: SocketAddr,
    slept: AtomicU64,
}

impl<'r, R> Devices<'r, R> {
    /// The device, of which each opening is a connection to this address.
    pub fn new(rt: &'r R, address: SocketAddr) -> Devices<'r, R> {
        Devices {
            rt,
            address,
            slept: AtomicU64::new(0),
        }
    }

    /// How many milliseconds were waited in all.
    pub fn slept(&self) -> u64 {
        self.slept.load(Ordering::SeqCst)
    }
}

/// The device, opened.
#[derive(Drop)]
pub struct Device<'r, R> {
    rt: &'r R,
    stream: TcpStream,
}

impl<R> Read for Device<'_, R> {
    /// As that of a device with `min 0 time 1`; it fails where the connection ended.
    fn read(&mut self, into: &mut [u8]) -> io::Result<usize> {
        match self.stream.read(into) {
            Ok(0) if !into.is_empty() => Err(io::Error::from(ErrorKind::BrokenPipe)),
            Err(error) if error.kind() == ErrorKind::WouldBlock => Ok(0),
            done => done,
        }
    }
}

impl<R> Write for Device<'_, R> {
    fn write(&mut self, bytes: &[u8]) -> io::Result<usize> {
        self.stream.write(bytes)
    }

    fn flush(&mut self) -> io::Result<()> {
        self.stream.flush()
    }
}

/// A call that a device or its system has not.
fn unsupported<T>() -> io::Result<T> {
    Err(io::Error::from(ErrorKind::Unsupported))
}

impl<R> Seek for Device<'_, R> {
    fn seek(&mut self, _to: SeekFrom) -> io::Result<u64> {
        unsupported()
    }
}

impl<R: Files> OpenFile for Device<'_, R> {
    /// Those of another character device.
    fn metadata(&self) -> io::Result<Metadata> {
        fs::metadata(self.rt, "/dev/null")
    }

    fn set_len(&self, _size: u64) -> io::Result<()> {
        unsupported()
    }

    fn sync_all(&self) -> io::Result<()> {
        unsupported()
    }

    fn sync_data(&self) -> io::Result<()> {
        unsupported()
    }

    fn try_clone(&self) -> io::Result<Self> {
        Ok(Device {
            rt: self.rt,
            stream: self.stream.try_clone()?,
        })
    }
}

impl<'r, R: Files + Net<Stream = TcpStream>> Files for Devices<'r, R> {
    type File = Device<'r, R>;

    type Dir = Empty;

    fn open_file(&self, how: &OpenOptions, path: &str) -> io::Result<Device<'r, R>> {
        how.check()?;
        if path != PATH || !how.asks_read() || !how.asks_write() {
            return Err(io::Error::from(ErrorKind::NotFound));
        }
        let stream = TcpStream::connect(self.rt, self.address)?;
        stream.set_nodelay(true)?;
        stream.set_read_timeout(Some(Duration::from_millis(100)))?;
        Ok(Device {
            rt: self.rt,
            stream,
        })
    }

    fn open_dir(&self, _path: &str) -> io::Result<Empty> {
        unsupported()
    }

    fn metadata(&self, _path: &str) -> io::Result<Metadata> {
        unsupported()
    }

    fn symlink_metadata(&self, _path: &str) -> io::Result<Metadata> {
        unsupported()
    }

    fn copy(&self, _from: &str, _to: &str) -> io::Result<u64> {
        unsupported()
    }

    fn rename(&self, _from: &str, _to: &str) -> io::Result<()> {
        unsupported()
    }

    fn remove_file(&self, _path: &str) -> io::Result<()> {
        unsupported()
    }

    fn create_dir(&self, _path: &str) -> io::Result<()> {
        unsupported()
    }

    fn remove_dir(&self, _path: &str) -> io::Result<()> {
        unsupported()
    }

    fn remove_dir_all<B: Allocator>(&self, _alloc: B, _path: &str) -> io::Result<()> {
        unsupported()
    }
}

impl<R: Clock> Clock for Devices<'_, R> {
    fn monotonic(&self) -> io::Result<Duration> {
        self.rt.monotonic()
    }

    fn since_1970(&self) -> io::Result<Duration> {
        self.rt.since_1970()
    }

    /// Notes it and returns at once.
    fn sleep(&self, duration: Duration) {
        let millis = u64::try_from(duration.as_millis()).unwrap_or(u64::MAX);
        let _ = self.slept.fetch_add(millis, Ordering::SeqCst);
    }
}
