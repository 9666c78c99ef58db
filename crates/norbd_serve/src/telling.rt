//! What is told of connections while they are served.

use crate::desk::Counts;
use nbd_handshake::AskedName;
use nbd_session::LONGEST_COMMAND_LEN;
use nbd_wire::{Command, CommandKind, EINVAL, EIO, ENOMEM, ENOSPC, EPERM, ESHUTDOWN};
use nbd_worker::End;
use std::fmt;
use std::net::SocketAddr;
use std::sync::{Mutex, Wait};

/// What becomes of a connection.
#[derive(Clone, Copy, Debug, PartialEq, Eq)]
pub enum Event {
    /// Its client is at this address; None where it has none, as at a Unix socket.
    Begins(Option<SocketAddr>),
    /// The client at this address asks for an export of this name, which isn't there.
    UnknownExport(Option<SocketAddr>, AskedName),
    /// A request got this error.
    Refused(Command, u32),
    /// A READ or WRITE of so many bytes was refused, since so many are the most.
    TooLong(u32, u32),
    /// Its client said nothing for so many seconds while others wait: it is closed.
    Silent(u64),
    Ends(End),
}

/// What became of the connection with this number; they are counted from 1.
#[derive(Clone, Copy, Debug, PartialEq, Eq)]
pub struct Notice {
    pub connection: u64,
    pub event: Event,
}

/// Where it is told what becomes of connections.
pub trait Log {
    /// Tells one thing. A failure to do so is passed over.
    fn tell(&self, notice: &Notice);

    /// Tells that so many KiB of a chip were read. A failure to do so is passed over.
    fn tell_read(&self, _kib: u32) {}

    /// Tells that a chip has been busy for so many seconds, which is waited for. A failure to do so
    /// is passed over.
    fn tell_busy(&self, _seconds: u64) {}

    /// Tells that a programmer set this clock, in Hz. A failure to do so is passed over.
    fn tell_clock(&self, _hz: u32) {}

    /// Tells that a chip was lost, why, and that it is looked at once more. A failure to do so is
    /// passed over.
    fn tell_lost(&self, _why: &str) {}

    /// Tells that a chip that was lost is as it has to be, and is served on. A failure to do so is
    /// passed over.
    fn tell_back(&self) {}

    /// Tells that so many connections are served, which are all that can be, and others wait. A
    /// failure to do so is passed over.
    fn tell_full(&self, _places: usize) {}

    /// Tells that the file that is served, which was at this path, was removed. A failure to do so
    /// is passed over.
    fn tell_removed(&self, _path: &str) {}

    /// Tells that what the log beside the image at this path has is not in the image yet. A failure
    /// to do so is passed over.
    fn tell_unsettled(&self, _path: &str) {}
}

impl Log for HostRuntime {
    /// A line on standard error.
    fn tell(&self, notice: &Notice) {
        let _ = eprintln!(self; "norbd: {notice}");
    }

    /// A line on standard error.
    fn tell_read(&self, kib: u32) {
        let _ = eprintln!(self; "norbd: {kib} KiB of the chip are read");
    }

    /// A line on standard error.
    fn tell_busy(&self, seconds: u64) {
        let _ = eprintln!(self; "norbd: the chip is busy, for {seconds} s now");
    }

    /// A line on standard error.
    fn tell_clock(&self, hz: u32) {
        let _ = eprintln!(self; "norbd: the programmer's clock is {hz} Hz");
    }

    /// A line on standard error.
    fn tell_lost(&self, why: &str) {
        let _ = eprintln!(self; "norbd: the chip is lost: {why}; all of it is read again");
    }

    /// A line on standard error.
    fn tell_back(&self) {
        let _ = eprintln!(self; "norbd: the chip is as it has to be, and is served on");
    }

    /// A line on standard error.
    fn tell_full(&self, places: usize) {
        let _ = eprintln!(self; "norbd: {places} connections, others wait");
    }

    /// A line on standard error.
    fn tell_removed(&self, path: &str) {
        let _ = eprintln!(self;
            "norbd: {path} was removed or replaced: what is written is lost when this server ends"
        );
    }

    /// A line on standard error.
    fn tell_unsettled(&self, path: &str) {
        let _ = eprintln!(self;
            "norbd: the log beside {path} couldn't be written into it; the next start does that"
        );
    }
}

/// Writes the name of a command. Source: NBD proto.md.
fn write_kind<W: fmt::Write>(f: &mut fmt::Formatter<W>, kind: CommandKind) -> fmt::Result {
    match kind {
        CommandKind::Read => f.write_str("READ"),
        CommandKind::Write => f.write_str("WRITE"),
        CommandKind::Disconnect => f.write_str("DISC"),
        CommandKind::Flush => f.write_str("FLUSH"),
        CommandKind::Trim => f.write_str("TRIM"),
        CommandKind::WriteZeroes => f.write_str("WRITE_ZEROES"),
        CommandKind::Unknown(number) => write!(f, "command {number}"),
    }
}

/// Writes the name of an error. Source: NBD proto.md.
fn write_error<W: fmt::Write>(f: &mut fmt::Formatter<W>, error: u32) -> fmt::Result {
    match error {
        EPERM => f.write_str("EPERM"),
        EIO => f.write_str("EIO"),
        ENOMEM => f.write_str("ENOMEM"),
        EINVAL => f.write_str("EINVAL"),
        ENOSPC => f.write_str("ENOSPC"),
        ESHUTDOWN => f.write_str("ESHUTDOWN"),
        _ => write!(f, "error {error}"),
    }
}

/// Writes a name in quotes, what isn't printable ASCII of it as `\xNN`; behind a name that isn't
/// whole its length.
fn write_name<W: fmt::Write>(f: &mut fmt::Formatter<W>, name: &AskedName) -> fmt::Result {
    let bytes = name.bytes();
    f.write_str("'")?;
    for byte in bytes {
        match *byte {
            b' '..=b'~' => write!(f, "{}", char::from(*byte))?,
            _ => write!(f, "\\x{byte:02x}")?,
        }
    }
    if bytes.len() < name.len {
        return write!(f, "'.. of {} bytes", name.len);
    }
    f.write_str("'")
}

/// Writes which option would take a request of this length, where one would.
fn write_advice<W: fmt::Write>(f: &mut fmt::Formatter<W>, length: u32, most: u32) -> fmt::Result {
    write!(
        f,
        ": {length} bytes at once are refused, {most} are the most"
    )?;
    if length > LONGEST_COMMAND_LEN {
        return Ok(());
    }
    let kib = length.div_ceil(1_024);
    write!(f, ": serve with --max-request {kib}")
}

/// Why a connection ended.
fn end_text(end: End) -> &'static str {
    match end {
        End::Closed => "closed by a request",
        End::EndOfInput => "end of input",
        End::Input => "a read failed, or the negotiation took too long",
        End::Output => "a write failed, or a sync before it",
        End::Lost => "the image failed",
        End::OutOfMemory => "no memory",
    }
}

impl fmt::Display for Notice {
    fn fmt<W: fmt::Write>(&self, f: &mut fmt::Formatter<W>) -> fmt::Result {
        write!(f, "connection {}", self.connection)?;
        match self.event {
            Event::Begins(None) => f.write_str(" begins"),
            Event::Begins(Some(address)) => write!(f, " begins: {address}"),
            Event::UnknownExport(address, name) => {
                if let Some(address) = address {
                    write!(f, " from {address}")?;
                }
                f.write_str(" asks for the export ")?;
                write_name(f, &name)?;
                f.write_str(", and there is only 'flash'")
            }
            Event::Refused(command, error) => {
                f.write_str(": ")?;
                write_kind(f, command.kind)?;
                write!(f, " of {} bytes at {}: ", command.length, command.offset)?;
                write_error(f, error)
            }
            Event::TooLong(length, most) => write_advice(f, length, most),
            Event::Silent(seconds) => {
                write!(
                    f,
                    ": closed, silent for {seconds} seconds while others wait"
                )
            }
            Event::Ends(end) => write!(f, " ends: {}", end_text(end)),
        }
    }
}

/// Counts what becomes of one connection, and where that is asked tells it, one thing at a time.
#[derive(Drop)]
pub(crate) struct Teller<'s, W> {
    pub(crate) rt: &'s W,
    pub(crate) turn: &'s Mutex<bool>,
    pub(crate) counts: &'s Counts,
    pub(crate) connection: u64,
    pub(crate) tells: bool,
}

impl<'s, W: Wait + Log> Teller<'s, W> {
    /// Counts one thing, and where that is asked tells it.
    pub(crate) fn tell(&self, event: Event) {
        self.counts.note(&event);
        if self.tells {
            self.advise(event);
        }
    }

    /// Tells one thing, whether or not that is asked.
    pub(crate) fn advise(&self, event: Event) {
        let turn = self.turn.lock(self.rt);
        self.rt.tell(&Notice {
            connection: self.connection,
            event,
        });
        drop(turn);
    }
}
