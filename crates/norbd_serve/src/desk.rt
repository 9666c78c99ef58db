//! The socket at which a server says what it does, and what it counts for that.

use crate::fault::ServeFault;
use crate::serving::ACCEPT_PAUSE;
use crate::telling::Event;
use nbd_wire::CommandKind;
use norbd_status::{Commands, Status, Wear, line_of};
use std::alloc::{AllocError, Global};
use std::io::Write;
use std::net::{Shutdown, TcpStream};
use std::os::fd::OwnedFd;
use std::os::unix::net::{UnixListener, UnixStream};
use std::sync::atomic::{AtomicBool, AtomicU64, Ordering};
use std::sync::{Arc, Wait};
use std::thread;
use std::time::{Clock, Duration, Instant};

/// The Unix socket at which a server says what it does, and what it says there of its disk: how
/// many sectors it has, whether they can be changed, and the erases of its chip.
#[derive(Drop)]
pub struct StatusSocket {
    pub listener: UnixListener,
    pub wear: Arc<Wear, Global>,
    pub sectors: u32,
    pub read_only: bool,
}

/// What a server counts: the connections that began and that ended, the replies with an error, and
/// the commands of each kind that were run.
#[derive(Drop)]
pub(crate) struct Counts {
    begun: AtomicU64,
    ended: AtomicU64,
    errors: AtomicU64,
    read: AtomicU64,
    write: AtomicU64,
    trim: AtomicU64,
    write_zeroes: AtomicU64,
    flush: AtomicU64,
}

impl Counts {
    pub(crate) fn new() -> Counts {
        Counts {
            begun: AtomicU64::new(0),
            ended: AtomicU64::new(0),
            errors: AtomicU64::new(0),
            read: AtomicU64::new(0),
            write: AtomicU64::new(0),
            trim: AtomicU64::new(0),
            write_zeroes: AtomicU64::new(0),
            flush: AtomicU64::new(0),
        }
    }

    /// One more connection begins: its number.
    pub(crate) fn begin(&self) -> u64 {
        self.begun.fetch_add(1, Ordering::SeqCst).wrapping_add(1)
    }

    /// Counts what becomes of a connection.
    pub(crate) fn note(&self, event: &Event) {
        match event {
            Event::Refused(_, _) => {
                self.errors.fetch_add(1, Ordering::SeqCst);
            }
            Event::Ends(_) => {
                self.ended.fetch_add(1, Ordering::SeqCst);
            }
            _ => {}
        }
    }

    /// Counts a command of this kind that is run.
    pub(crate) fn run(&self, kind: CommandKind) {
        let count = match kind {
            CommandKind::Read => &self.read,
            CommandKind::Write => &self.write,
            CommandKind::Trim => &self.trim,
            CommandKind::WriteZeroes => &self.write_zeroes,
            CommandKind::Flush => &self.flush,
            _ => return,
        };
        count.fetch_add(1, Ordering::SeqCst);
    }

    /// The commands of each kind until now.
    fn commands(&self) -> Commands {
        let [read, write, trim, write_zeroes, flush] = [
            self.read.load(Ordering::SeqCst),
            self.write.load(Ordering::SeqCst),
            self.trim.load(Ordering::SeqCst),
            self.write_zeroes.load(Ordering::SeqCst),
            self.flush.load(Ordering::SeqCst),
        ];
        Commands {
            all: read
                .wrapping_add(write)
                .wrapping_add(trim)
                .wrapping_add(write_zeroes)
                .wrapping_add(flush),
            read,
            write,
            trim,
            write_zeroes,
            flush,
        }
    }
}

/// What the thread has that answers who looks at a server: the socket, another handle of it, by
/// which it is closed, and when the server began.
#[derive(Drop)]
pub(crate) struct Desk {
    socket: StatusSocket,
    closing: TcpStream,
    start: Option<Instant>,
}

impl Desk {
    /// The desk of a server that begins now. `NoSocket` where there is no second handle.
    pub(crate) fn new<W: Clock>(rt: &W, socket: StatusSocket) -> Result<Desk, ServeFault> {
        let Ok(handle) = socket.listener.try_clone() else {
            return Err(ServeFault::NoSocket);
        };
        Ok(Desk {
            socket,
            closing: TcpStream::from(OwnedFd::from(handle)),
            start: Instant::now(rt).ok(),
        })
    }

    /// For how many seconds the server has served.
    fn seconds<W: Clock>(&self, rt: &W) -> Option<u64> {
        let Some(start) = self.start else {
            return None;
        };
        match start.elapsed(rt) {
            Ok(since) => Some(since.as_secs()),
            Err(_) => None,
        }
    }

    /// What the server has done until now.
    fn status<W: Clock>(
        &self,
        rt: &W,
        alloc: Global,
        counts: &Counts,
    ) -> Result<Status, AllocError> {
        let ended = counts.ended.load(Ordering::SeqCst);
        let begun = counts.begun.load(Ordering::SeqCst);
        Ok(Status {
            sectors: self.socket.sectors,
            read_only: self.socket.read_only,
            seconds: self.seconds(rt),
            connections: begun.saturating_sub(ended),
            all_connections: begun,
            commands: counts.commands(),
            errors: counts.errors.load(Ordering::SeqCst),
            erases: self.socket.wear.erases(),
            worn: self.socket.wear.extremes(alloc)?,
        })
    }

    /// Answers one who looks: the line of the status. Where there is no memory for it, nothing.
    fn answer<W: Clock>(&self, rt: &W, alloc: Global, counts: &Counts, stream: UnixStream) {
        let Ok(status) = self.status(rt, alloc, counts) else {
            return;
        };
        let Ok(line) = line_of(alloc, &status) else {
            return;
        };
        let mut stream = stream;
        let _ = stream.write_all(line.as_bytes());
    }

    /// The body of the desk's thread: answers until it is closed. An accept that fails before is
    /// tried again after 100 ms.
    pub(crate) fn answer_all<W: Wait + Clock>(
        &self,
        rt: &W,
        alloc: Global,
        counts: &Counts,
        stop: &AtomicBool,
    ) {
        for _ in rt.forever() {
            let accepted = self.socket.listener.accept();
            if stop.load(Ordering::SeqCst) {
                return;
            }
            match accepted {
                Ok((stream, _)) => self.answer(rt, alloc, counts, stream),
                Err(_) => thread::sleep(rt, Duration::from_millis(ACCEPT_PAUSE)),
            }
        }
    }

    /// Shuts the socket down: an accept that waits ends.
    pub(crate) fn close(&self) {
        let _ = self.closing.shutdown(Shutdown::Both);
    }
}
