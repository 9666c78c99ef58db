//! A socket: the client at its other end, who reads it, and its writing half.

ghost use Rattle.std.specs.Prelude.{◌≡◌, ◌≤◌, ◌+◌, ◌<◌, ◌++◌, [], take};

use crate::open_sockets::OpenSockets;
use crate::telling::{Event, Log, Teller};
use block_device::{Failed, Sink, Tally};
use nbd_durable::Owed;
use nbd_history::{Noted, SaysAll};
use nbd_session::ReplyTo;
use nbd_transmission::Refusal;
use nbd_wire::CommandKind;
use std::cell::Cell;
use std::fs::OpenFile;
use std::io;
use std::io::{IoSlice, Read, Write};
use std::net::{SocketAddr, TcpStream};
use std::sync::Wait;
use std::sync::ledger::{Blank, Ledger};
use std::time::{Clock, Duration, Instant};

/// How long a client may say nothing while others wait for its place, in seconds.
pub(crate) const SILENT_SECONDS: u64 = 600;

/// The slot of a connection among all.
#[derive(Clone, Copy, Drop)]
pub(crate) struct Seat<'s> {
    pub(crate) sockets: &'s OpenSockets,
    pub(crate) at: usize,
}

/// The client at a socket. Reads from it fail once the time for the negotiation is over, and take
/// as long as the client does from then on, when the transmission has begun; they end where it says
/// nothing for too long while others wait.
#[derive(Drop)]
pub(crate) struct Client<'s, W> {
    pub(crate) stream: TcpStream,
    /// Where it is; None where it has no address, as at a Unix socket.
    pub(crate) address: Option<SocketAddr>,
    pub(crate) teller: Teller<'s, W>,
    seat: Seat<'s>,
    /// When it began; none once the negotiation is over.
    start: Cell<Option<Instant>>,
    limit: Duration,
    /// How long a READ or WRITE may be.
    longest: u32,
    /// Whether a request was too long.
    is_advised: Cell<bool>,
}

impl<'s, W: Clock + Wait + Log> Client<'s, W> {
    /// A client whose connection begins now. Where there is no time, there is no limit.
    pub(crate) fn new(
        stream: TcpStream,
        teller: Teller<'s, W>,
        seat: Seat<'s>,
        limit: Duration,
        longest: u32,
    ) -> Client<'s, W> {
        let start = Cell::new(Instant::now(teller.rt).ok());
        let address = stream.peer_addr().ok();
        Client {
            stream,
            address,
            teller,
            seat,
            start,
            limit,
            longest,
            is_advised: Cell::new(false),
        }
    }

    /// What is left of the time; an error where none is.
    fn left(&self, start: Instant) -> io::Result<Duration> {
        let left = self.limit.saturating_sub(start.elapsed(self.teller.rt)?);
        if left.is_zero() {
            return Err(io::Error::from(io::ErrorKind::TimedOut));
        }
        Ok(left)
    }

    /// Counts a command of this kind that is run.
    pub(crate) fn count(&self, kind: CommandKind) {
        self.teller.counts.run(kind);
    }

    /// Hears what the next reply is to: there is no limit once the negotiation is over, and an
    /// export that isn't there and a request that is refused are told.
    pub(crate) fn hear(&self, to: &ReplyTo) {
        match to {
            ReplyTo::Negotiation => {}
            ReplyTo::UnknownExport(name) => {
                self.teller.tell(Event::UnknownExport(self.address, *name));
            }
            ReplyTo::LastOption => {
                self.start.set(None);
                let _ = self.stream.set_read_timeout(None);
            }
            ReplyTo::Refused(refusal) => self.tell(refusal),
        }
    }

    /// Tells a request that is refused; of the first that is too long it tells what to do, also
    /// where nothing else is told.
    fn tell(&self, refusal: &Refusal) {
        let Refusal { command, error } = *refusal;
        self.teller.tell(Event::Refused(command, error));
        let is_long = command.kind.has_limit() && command.length > self.longest;
        if is_long && !self.is_advised.replace(true) {
            self.teller
                .advise(Event::TooLong(command.length, self.longest));
        }
    }
}

impl<'c, 's, W: Clock + Wait + Log> Read for &'c Client<'s, W> {
    fn read(&mut self, into: &mut [u8]) -> io::Result<usize> {
        let mut stream = &self.stream;
        if let Some(start) = self.start.get() {
            stream.set_read_timeout(Some(self.left(start)?))?;
        }
        let Seat { sockets, at } = self.seat;
        sockets.wait_at(self.teller.rt, at);
        let read = stream.read(into);
        if sockets.hear_at(self.teller.rt, at) {
            return read;
        }
        self.teller.advise(Event::Silent(SILENT_SECONDS));
        Ok(0)
    }
}

/// The writing half of a socket, whose failed calls are counted. A reply's head and its data go out
/// in one call of the system, without a copy. Where the connection owes a sync it comes first, and
/// where that fails the call does, and sends nothing. What it has taken, as the calls of the system
/// say it, is noted in proofs alone.
#[derive(Drop)]
pub struct SocketOut<'s, 'f, L: Ledger, F> {
    stream: &'s TcpStream,
    owed: &'s Owed<'f, F>,
    failures: Tally<L>,
    taken: Noted<u8>,
}

/// What was taken before, and how many of the bytes of a call.
#[derive(Drop)]
pub struct Taking<'a> {
    before: &'a Noted<u8>,
    head: &'a [u8],
    rest: &'a [u8],
    count: usize,
}

/// Names the bytes that were taken with this call.
pub struct TakenSaid;

impl<'a> SaysAll<Taking<'a>, u8> for TakenSaid {
    ghost use Rattle.std.specs.Prelude.{◌++◌, take};

    ghost says_all = { λ t. t.before.now ++ take t.count (t.head.now ++ t.rest.now) };
}

/// Notes that so many of these bytes were taken.
fn note_taken(taken: &mut Noted<u8>, head: &[u8], rest: &[u8], count: usize)
    ensures { taken.new ≡ taken.old ++ take count (head.now ++ rest.now) }
{
    let taking = Taking {
        before: taken,
        head,
        rest,
        count,
    };
    let now = Noted::of::<Taking<'_>, TakenSaid>(&taking);
    *taken = now;
}

impl<'s, 'f, L: Ledger, F> SocketOut<'s, 'f, L, F> {
    /// The half of a socket, with no failed call so far, and what its connection owes.
    pub fn new(
        stream: &'s TcpStream,
        owed: &'s Owed<'f, F>,
        blank: Blank,
    ) -> SocketOut<'s, 'f, L, F>
        requires name { blank.name ≡ L.name }
        requires parts { blank.parts ≡ L.parts }
        requires some { 0 < L.parts }
        ensures failures { result.failures ≡ 0 }
        ensures taken { result.taken ≡ [] }
    {
        SocketOut {
            stream,
            owed,
            failures: Tally::new(blank),
            taken: Noted::none(),
        }
    }

    /// What it has taken.
    pub(crate) fn into_taken(self) -> Noted<u8>
        ensures { result ≡ self.entry.taken }
    {
        let SocketOut { taken, .. } = self;
        taken
    }
}

impl<'s, 'f, L: Ledger, F: OpenFile> Sink for SocketOut<'s, 'f, L, F> {
    ghost use Rattle.std.specs.Prelude.{Some};

    ghost written = { λ out. Some out.taken };

    ghost faults = { λ out. out.failures };

    fn write(&mut self, bytes: &[u8]) -> Result<usize, Failed> {
        if !self.owed.settle() {
            return Err(failed(&mut self.failures));
        }
        let mut stream = self.stream;
        match stream.write(bytes) {
            Ok(0) if !bytes.is_empty() => Err(failed(&mut self.failures)),
            Ok(n) => {
                note_taken(&mut self.taken, bytes, &[], n);
                Ok(n)
            }
            Err(_) => Err(failed(&mut self.failures)),
        }
    }

    fn write_both(&mut self, head: &[u8], rest: &[u8]) -> Result<usize, Failed> {
        if !self.owed.settle() {
            return Err(failed(&mut self.failures));
        }
        let parts = [IoSlice::new(head), IoSlice::new(rest)];
        match self.stream.write_vectored(&parts) {
            Ok(0) if !(head.is_empty() && rest.is_empty()) => Err(failed(&mut self.failures)),
            Ok(n) => {
                note_taken(&mut self.taken, head, rest, n);
                Ok(n)
            }
            Err(_) => Err(failed(&mut self.failures)),
        }
    }
}

/// Counts a failed call.
fn failed<L: Ledger>(failures: &mut Tally<L>) -> Failed
    ensures { failures.new ≡ failures.old + 1 }
{
    failures.tick();
    Failed
}
