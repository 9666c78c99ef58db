//! A session alone: what is answered to a connection's bytes, over a disk in memory, without a
//! chip. Each text goes to two sessions: to one in one piece, to the other byte by byte.

use crate::came::Came;
use crate::fault::Fault;
use crate::names::{Names, push_record};
use crate::words::Words;
use block_device::{Disk, PlainDisk};
use nbd_connection::run;
use nbd_session::{OpenError, Session};
use nbd_wire::{Command, CommandKind, EIO, Export, Next, REPLY_LEN, Reply};
use std::alloc::Global;

/// A session, and the disk that its commands are run on.
#[derive(Drop)]
struct Connection {
    session: Session,
    disk: PlainDisk,
}

/// Two sessions that get the same bytes.
#[derive(Drop)]
pub(crate) struct Pair {
    /// It gets them in one piece.
    whole: Connection,
    /// It gets them byte by byte.
    single: Connection,
}

impl Connection {
    /// A session that was just opened; one that `requests` begins with requests. None where there
    /// is no memory for it.
    fn open(alloc: Global, export: Export, requests: bool) -> Result<Option<Connection>, Fault> {
        let opened = if requests {
            Session::requesting(alloc, export)
        } else {
            Session::open(alloc, export)
        };
        match opened {
            Ok(session) => Ok(Some(Connection {
                session,
                disk: PlainDisk::new(alloc, export.sectors)?,
            })),
            Err(OpenError::OutOfMemory) => Ok(None),
        }
    }

    /// Takes bytes of at most one unit, runs its command, and appends the reply to a whole one,
    /// which may be empty. Answers how many bytes were used.
    fn take(&mut self, alloc: Global, records: &mut Vec<u8>, bytes: &[u8]) -> Result<usize, Fault> {
        let taken = self.session.take(bytes);
        if taken.next == Next::More {
            return Ok(taken.used);
        }
        if let Next::Run(command) = taken.next {
            let export = self.session.export();
            if self.disk.sectors() != export.sectors {
                return Err(Fault::NotUnderstood);
            }
            let lent = self.session.buffer();
            let error = match run(&mut self.disk, &command, export, lent) {
                Ok(()) => 0,
                Err(_) => EIO,
            };
            push_reply(alloc, records, &command, error, lent)?;
            return Ok(taken.used);
        }
        push_record(records, 0, b'D', self.session.reply())?;
        Ok(taken.used)
    }

    /// Sends bytes in pieces of at most so many: the records of what comes of them.
    fn send(&mut self, alloc: Global, bytes: &[u8], most: usize) -> Result<Vec<u8>, Fault> {
        let mut records = Vec::new(alloc);
        let mut rest = bytes;
        for _ in 0..bytes.len() {
            if !rest.is_empty() && !self.session.closed() {
                let (piece, _later) = rest.split_at(most.min(rest.len()));
                let used = self.take(alloc, &mut records, piece)?;
                rest = rest.get(used..).unwrap_or(&[]);
            }
        }
        let end = match (self.session.closed(), rest.is_empty()) {
            (false, _) => b'A',
            (true, true) => b'X',
            (true, false) => b'N',
        };
        push_record(&mut records, 0, end, &[])?;
        Ok(records)
    }
}

/// Appends the reply to a command that ran with this error: its head, and the data of a READ that
/// met none.
fn push_reply(
    alloc: Global,
    records: &mut Vec<u8>,
    command: &Command,
    error: u32,
    lent: &[u8],
) -> Result<(), Fault> {
    let cookie = command.cookie;
    let mut reply = vec![in alloc; 0u8; REPLY_LEN]?;
    Reply { error, cookie }.write(reply.as_mut_slice());
    match command.kind {
        CommandKind::Read if error == 0 => reply.extend_from_slice(lent)?,
        _ => {}
    }
    push_record(records, 0, b'D', reply.as_slice())
}

/// The export that words say: `70`, `1024 limit 131072`, `1024 takes 131072` for one that takes
/// more than it tells, `1024 read-only`.
fn export_of(mut words: Words) -> Result<Export, Fault> {
    let mut export = Export::default_for(words.number()?);
    if !words.is_empty() {
        match words.word()? {
            "limit" => {
                export.max_len = words.number()?;
                export.told_len = export.max_len;
            }
            "takes" => export.max_len = words.number()?,
            "read-only" => export.read_only = true,
            _ => return Err(Fault::NotUnderstood),
        }
    }
    words.end()?;
    Ok(export)
}

impl Pair {
    /// Two sessions for the export that words say, and what they say first.
    pub(crate) fn open(alloc: Global, requests: bool, words: Words) -> Result<Option<Pair>, Fault> {
        let export = export_of(words)?;
        let Some(whole) = Connection::open(alloc, export, requests)? else {
            return Ok(None);
        };
        let Some(single) = Connection::open(alloc, export, requests)? else {
            return Ok(None);
        };
        Ok(Some(Pair { whole, single }))
    }

    /// What they say where nothing has come yet.
    pub(crate) fn greeting(&self, alloc: Global) -> Result<Came, Fault> {
        let mut records = Vec::new(alloc);
        push_record(&mut records, 0, b'D', self.whole.session.reply())?;
        push_record(&mut records, 0, b'A', &[])?;
        Ok(Came::Records(0, records))
    }

    /// A line of a session.
    pub(crate) fn run(
        &mut self,
        alloc: Global,
        names: &Names,
        verb: &str,
        words: Words,
    ) -> Result<Came, Fault> {
        match verb {
            "send" => {
                let bytes = names.bytes_of(alloc, words.all())?;
                let whole = self.whole.send(alloc, bytes.as_slice(), usize::MAX)?;
                let single = self.single.send(alloc, bytes.as_slice(), 1)?;
                if whole.as_slice() != single.as_slice() {
                    return Ok(Came::Said("something else in pieces of one byte"));
                }
                Ok(Came::Records(0, whole))
            }
            "reset" => {
                words.end()?;
                self.whole.session.reset();
                self.single.session.reset();
                self.greeting(alloc)
            }
            _ => Err(Fault::NotUnderstood),
        }
    }
}
