//! Connections over TCP.

ghost use Rattle.std.specs.Prelude.{None};

use crate::pause::wait_if_tried;
use block_device::{Failed, Sink, Source};
use serprog::{Dialer, Incoming};
use std::io;
use std::io::{ErrorKind, IoSlice, Read, Write};
use std::net::{Net, OpenStream, TcpStream, ToSocketAddrs};
use std::time::{Clock, Duration};

/// What connects to a programmer at a place `HOST:PORT`, where HOST is an IP address or a name.
///
/// To connect, and each read and write of a connection, takes at most the patience, which is above
/// 0: then it counts as failed. Before every try but the first half a second is waited.
#[derive(Drop)]
pub struct TcpDialer<'r, 'p, R> {
    rt: &'r R,
    place: &'p str,
    patience: Duration,
    tried: bool,
}

impl<'r, 'p, R> TcpDialer<'r, 'p, R> {
    /// A dialer that has connected to nothing yet.
    pub fn new(rt: &'r R, place: &'p str, patience: Duration) -> TcpDialer<'r, 'p, R> {
        TcpDialer {
            rt,
            place,
            patience,
            tried: false,
        }
    }
}

impl<R: Net<Stream = TcpStream>> TcpDialer<'_, '_, R> {
    /// A connection to the first address of the place that takes one.
    fn connect(&self) -> io::Result<TcpStream> {
        let mut last = io::Error::from(ErrorKind::InvalidInput);
        for address in self.place.to_socket_addrs(self.rt)? {
            match TcpStream::connect_timeout(self.rt, &address, self.patience) {
                Ok(stream) => return Ok(stream),
                Err(error) => last = error,
            }
        }
        Err(last)
    }

    /// Such a connection, which waits so long and not longer, and sends each command at once.
    fn begin(&self) -> io::Result<(TcpIn, TcpOut)> {
        let stream = self.connect()?;
        stream.set_nodelay(true)?;
        stream.set_read_timeout(Some(self.patience))?;
        stream.set_write_timeout(Some(self.patience))?;
        split_stream(stream)
    }
}

impl<R: Net<Stream = TcpStream> + Clock> Dialer<TcpIn, TcpOut> for TcpDialer<'_, '_, R> {
    fn dial(&mut self) -> Result<(TcpIn, TcpOut), ErrorKind> {
        wait_if_tried(self.rt, &mut self.tried);
        match self.begin() {
            Ok(streams) => Ok(streams),
            Err(error) => Err(error.kind()),
        }
    }
}

/// The half that is read. After 2^64 - 1 failed calls it has ended.
#[derive(Drop)]
pub struct TcpIn {
    stream: TcpStream,
    failures: u64,
    silent: bool,
}

/// The half that is written: a command's head and its bytes go out in one call of the system. After
/// 2^64 - 1 failed calls none fails, and what is written goes nowhere.
#[derive(Drop)]
pub struct TcpOut {
    stream: TcpStream,
    failures: u64,
}

/// The halves of a connection, which are two handles of its socket.
pub fn split_stream(stream: TcpStream) -> io::Result<(TcpIn, TcpOut)> {
    let other = stream.try_clone()?;
    let source = TcpIn {
        stream,
        failures: 0,
        silent: false,
    };
    let sink = TcpOut {
        stream: other,
        failures: 0,
    };
    Ok((source, sink))
}

impl Source for TcpIn {
    ghost remaining = { λ _. None };

    ghost faults = { λ half. half.failures };

    fn read(&mut self, into: &mut [u8]) -> Result<usize, Failed> {
        self.silent = false;
        match self.stream.read(into) {
            Ok(n) => Ok(n),
            Err(error) if self.failures < u64::MAX => {
                self.failures += 1;
                self.silent = is_in_vain(error.kind());
                Err(Failed)
            }
            Err(_) => Ok(0),
        }
    }
}

/// Whether a read of a socket ended since nothing came in time. Source: socket(7), `SO_RCVTIMEO`.
fn is_in_vain(kind: ErrorKind) -> bool {
    matches!(kind, ErrorKind::WouldBlock | ErrorKind::TimedOut)
}

impl Incoming for TcpIn {
    /// Where the system refuses it, the last one stays.
    fn wait_at_most(&mut self, millis: u32) {
        let patience = Duration::from_millis(millis as u64);
        let _ = self.stream.set_read_timeout(Some(patience));
    }

    fn is_silent(&self) -> bool {
        self.silent
    }
}

impl Sink for TcpOut {
    ghost written = { λ _. None };

    ghost faults = { λ half. half.failures };

    fn write(&mut self, bytes: &[u8]) -> Result<usize, Failed> {
        match self.stream.write(bytes) {
            Ok(n) if n > 0 || bytes.is_empty() => Ok(n),
            _ if self.failures < u64::MAX => {
                self.failures += 1;
                Err(Failed)
            }
            _ => Ok(bytes.len()),
        }
    }

    fn write_both(&mut self, head: &[u8], rest: &[u8]) -> Result<usize, Failed> {
        let parts = [IoSlice::new(head), IoSlice::new(rest)];
        match self.stream.write_vectored(&parts) {
            Ok(n) if n > 0 || (head.is_empty() && rest.is_empty()) => Ok(n),
            _ if self.failures < u64::MAX => {
                self.failures += 1;
                Err(Failed)
            }
            _ => if head.is_empty() {
                Ok(rest.len())
            } else {
                Ok(head.len())
            },
        }
    }
}
