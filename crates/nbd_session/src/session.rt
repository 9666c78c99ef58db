//! One connection: its bytes, made into replies and commands.

ghost use Rattle.std.specs.Prelude.{◌≡◌, ◌≤◌, ◌<◌, ◌^◌, ◌+◌, ◌-◌, ◌++◌, ℕ, List, Some};
ghost use Rattle.std.specs.Prelude.{IfOk, vec_len, length, take, drop};
ghost use Rattle.nbd_wire.specs.Heads.{reply_bytes};
ghost use Rattle.nbd_wire.specs.Parser.{HoldsRest};
ghost use Rattle.nbd_wire.specs.declared.next.Next.{Next};
ghost use Rattle.nbd_transmission.specs.Parser.{TransmissionAdvances};
ghost use Rattle.nbd_transmission.specs.Taking.{payload_of, IsJudged};
ghost use Rattle.nbd_session.specs.Lent.{lent_now};
ghost use Rattle.nbd_session.specs.Sessions.{IsHolding, HoldsAfter};
ghost use Rattle.nbd_session.specs.Unknown.{SaysUnknown, option_reply_to};

use crate::error::OpenError;
use crate::stage::Stage;
use nbd_handshake::{AskedName, Handshake, greeting};
use nbd_transmission::{Refusal, Transmission, TransmissionTaken};
use nbd_wire::{Command, Export, MAX_LEN, Next, Phase, REPLY_LEN, REQUEST_LEN, Reply, put};
use std::alloc::Global;
use std::marker::Model;

/// What a reply answers that a session makes by itself.
#[derive(Clone, Copy, PartialEq, Eq, Debug)]
pub enum ReplyTo {
    /// The client's flags or an option; the negotiation goes on.
    Negotiation,
    /// INFO or GO for an export that isn't there; the negotiation goes on.
    UnknownExport(AskedName),
    /// An option with which the negotiation is over: requests come next.
    LastOption,
    /// A request that is refused.
    Refused(Refusal),
}

/// What a call took of the bytes that it was given.
#[derive(Clone, Copy, PartialEq, Eq, Debug)]
pub struct Taken {
    /// How many bytes were used.
    pub used: usize,
    /// What comes next. A Reply and a Close are answered by the session's reply, which may be
    /// empty. A command is run over the session's buffer.
    pub next: Next<ReplyTo>,
}

/// The least length of a session's buffer in bytes: a reply's head, and the data of the largest
/// READ or WRITE where nothing else is asked for.
pub const STORE_LEN: usize = REPLY_LEN + MAX_LEN as usize;

/// The largest length of a command that a session has a buffer for, in bytes: 32 MiB.
pub const LONGEST_COMMAND_LEN: u32 = 1 << 25;

/// One connection: what has come of its unit begun, the command that runs, and the reply to be
/// sent.
#[derive(Drop)]
pub struct Session {
    export: Export,
    stage: Stage,
    handshake: Handshake,
    transmission: Transmission,
    running: Option<Command>,
    bytes: Vec<u8>,
    filled: usize,
    replied: usize,
}

impl Model for Session {
    ghost use Rattle.std.specs.Prelude.{vec_len, vec_capacity};
    ghost use Rattle.nbd_session.specs.Sessions.{SessionState, IsSoundSession};

    ghost Value = { SessionState };

    ghost view = { λ s. record {
      export = s.export;
      stage = s.stage;
      handshake = s.handshake;
      transmission = s.transmission;
      running = s.running;
      bytes = s.bytes.items;
      filled = s.filled;
      replied = s.replied;
      memory = vec_capacity s.bytes;
    } };

    ghost invariant = { λ s. IsSoundSession s.export s.stage s.handshake s.transmission s.running
        (vec_len s.bytes) s.filled s.replied };
}

impl Session {
    ghost use Rattle.std.specs.Prelude.{◌≡◌, ◌<◌, ◌^◌, ◌≤◌, ◌+◌, ◌++◌, ℕ, List, [], true, false};
    ghost use Rattle.std.specs.Prelude.{None, Some, IfOk, length, take, drop};
    ghost use Rattle.std.specs.Borrow.{sem};
    ghost use Rattle.nbd_wire.specs.declared.phase.Phase.{Phase};
    ghost use Rattle.nbd_wire.specs.declared.phase.Phase.TheVariants.{AwaitingFlags, Transmitting};
    ghost use Rattle.nbd_handshake.specs.Parser.{KEPT_LEN};
    ghost use Rattle.nbd_session.specs.Lent.{lent_now};
    ghost use Rattle.nbd_session.specs.Sessions.{reply_of, room_of, is_closed, is_close, silent};
    ghost use Rattle.nbd_session.specs.Sessions.{SessionRepresents, SessionSays, RunsAfter};
    ghost use Rattle.nbd_session.specs.Sessions.{IsFreshSession, BeginsSession};
    ghost use Rattle.nbd_session.specs.Lending.{LendsRoom};

    /// A session for this export, with all its buffers. Its reply is the greeting. OutOfMemory: for
    /// READs and WRITEs above 32 MiB too.
    pub fn open(alloc: Global, export: Export) -> Result<Session, OpenError>
        ensures fresh { IfOk result (λ session. IsFreshSession export session) }
        ensures begins { IfOk result (λ session. BeginsSession AwaitingFlags export session) }
    {
        let bytes = new_store(alloc, export)?;
        let mut session = Session {
            export,
            stage: Stage::Ended,
            handshake: Handshake::new(export),
            transmission: Transmission::new(export),
            running: None,
            bytes,
            filled: 0,
            replied: 0,
        };
        session.reset();
        Ok(session)
    }

    /// A session for this export whose negotiation is over: its first byte begins a request, and
    /// there is no reply. OutOfMemory: for READs and WRITEs above 32 MiB too.
    pub fn requesting(alloc: Global, export: Export) -> Result<Session, OpenError>
        ensures { IfOk result (λ session. BeginsSession Transmitting export session) }
    {
        let bytes = new_store(alloc, export)?;
        let transmission = Transmission::new(export);
        Ok(Session {
            export,
            stage: Stage::Requesting,
            handshake: Handshake::new(export),
            transmission,
            running: None,
            bytes,
            filled: 0,
            replied: 0,
        })
    }

    /// Makes the session as it was just opened: nothing has come, and its reply is the greeting.
    pub fn reset(&mut self)
        ensures fresh { IsFreshSession self.old.export self.new }
        ensures memory { self.new.memory ≡ self.old.memory }
    {
        self.stage = Stage::Negotiating;
        self.handshake = Handshake::new(self.export);
        self.running = None;
        self.filled = 0;
        self.replied = put(self.bytes.as_mut_slice(), 0, &greeting());
    }

    /// The reply to the unit that was answered last, or the greeting: lent
    /// without copying.
    pub fn reply(&self) -> &[u8]
        ensures value { result.now ≡ reply_of self.now }
        ensures len { length result.now < 2 ^ 32 }
    {
        &self.bytes[..self.replied]
    }

    /// The export that the session is for.
    pub fn export(&self) -> Export
        ensures { result ≡ self.now.export }
    {
        self.export
    }

    /// Whether the connection is over. A closed session uses no bytes and answers Close, with an
    /// empty reply.
    pub fn closed(&self) -> bool
        ensures { result ≡ is_closed self.now }
    {
        match self.stage {
            Stage::Negotiating => false,
            Stage::Requesting => false,
            Stage::Ended => true,
        }
    }

    /// The payload of the WRITE that runs, or the room for the data of the READ that runs, as long
    /// in bytes as the command says; empty for a FLUSH, and where no command runs.
    pub fn buffer(&mut self) -> &mut [u8]
        ensures* lends { sem 𝓛 (LendsRoom self.entry result) }
        ensures value { result.now ≡ room_of self.old }
        ensures len { length result.now ≡ lent_now self.old.running }
        ensures fits { REPLY_LEN + length result.now < 2 ^ 32 }
    {
        let len = lent_len(self.running);
        self.bytes.slice_mut(REPLY_LEN..REPLY_LEN + len)
    }

    /// Takes bytes of at most one unit. A command that runs is forgotten. A closed session uses no
    /// bytes and answers Close.
    pub fn take(&mut self, bytes: &[u8]) -> Taken
        ensures used { result.used ≤ length bytes.now }
        ensures more { result.next ≡ Next.More → result.used ≡ length bytes.now }
        ensures progress { is_closed self.old ≡ false → 0 < length bytes.now → 0 < result.used }
        ensures over { is_closed self.old ≡ true
            → (self.new ≡ silent self.old) × (result ≡ record { used = 0; next = Next.Close }) }
        ensures closed { is_closed self.new ≡ is_close result.next }
        ensures ready { RunsAfter self.old.export result.next self.new }
        ensures export { self.new.export ≡ self.old.export }
        ensures memory { self.new.memory ≡ self.old.memory }
        // Of each text that the session represents: what its parts grow by with the bytes used, and
        // that it then represents it.
        ensures says { (start : Phase) (text : List ℕ) → is_closed self.old ≡ false
            → SessionRepresents start self.old text
            → SessionSays start self.old.export text (text ++ take result.used bytes.now)
            result.next self.new }
        // Of the unit begun, in the negotiation: it is answered as one that asks for an export
        // which isn't there where it does, by that name.
        ensures unknown { (rest : List ℕ) → self.old.stage ≡ Stage.Negotiating
            → HoldsRest KEPT_LEN self.old.handshake rest → SaysUnknown self.old.handshake.phase
            (rest ++ take result.used bytes.now) result.next }
    {
        self.running = None;
        self.replied = 0;
        match self.stage {
            Stage::Negotiating => self.negotiate(bytes),
            Stage::Requesting => self.transmit(bytes),
            Stage::Ended => Taken {
                used: 0,
                next: Next::Close,
            },
        }
    }

    /// Takes bytes of the client's flags or of an option.
    fn negotiate(&mut self, bytes: &[u8]) -> Taken
        requires stage { self.old.stage ≡ Stage.Negotiating }
        requires idle { self.old.running ≡ None }
        ensures used { result.used ≤ length bytes.now }
        ensures more { result.next ≡ Next.More → result.used ≡ length bytes.now }
        ensures progress { 0 < length bytes.now → 0 < result.used }
        ensures closed { is_closed self.new ≡ is_close result.next }
        ensures ready { RunsAfter self.old.export result.next self.new }
        ensures export { self.new.export ≡ self.old.export }
        ensures memory { self.new.memory ≡ self.old.memory }
        ensures says { (start : Phase) (text : List ℕ) → SessionRepresents start self.old text
            → SessionSays start self.old.export text (text ++ take result.used bytes.now)
            result.next self.new }
        ensures unknown { (rest : List ℕ) → HoldsRest KEPT_LEN self.old.handshake rest
            → SaysUnknown self.old.handshake.phase (rest ++ take result.used bytes.now)
            result.next }
    {
        let taken = self.handshake.take(bytes, self.bytes.as_mut_slice());
        self.replied = taken.reply;
        let next = match taken.next {
            None => Next::More,
            Some(Phase::AwaitingFlags) => Next::Reply(option_reply_to(taken.unknown)),
            Some(Phase::Negotiating(_)) => Next::Reply(option_reply_to(taken.unknown)),
            Some(Phase::Transmitting) => {
                self.transmission = Transmission::new(self.export);
                self.filled = 0;
                self.stage = Stage::Requesting;
                Next::Reply(ReplyTo::LastOption)
            }
            Some(Phase::Closed) => {
                self.stage = Stage::Ended;
                Next::Close
            }
        };
        Taken {
            used: taken.used,
            next,
        }
    }

    /// Takes bytes of a request.
    fn transmit(&mut self, bytes: &[u8]) -> Taken
        requires stage { self.old.stage ≡ Stage.Requesting }
        requires idle { self.old.running ≡ None }
        requires silent { self.old.replied ≡ 0 }
        ensures used { result.used ≤ length bytes.now }
        ensures more { result.next ≡ Next.More → result.used ≡ length bytes.now }
        ensures progress { 0 < length bytes.now → 0 < result.used }
        ensures closed { is_closed self.new ≡ is_close result.next }
        ensures ready { RunsAfter self.old.export result.next self.new }
        ensures export { self.new.export ≡ self.old.export }
        ensures memory { self.new.memory ≡ self.old.memory }
        ensures says { (start : Phase) (text : List ℕ) → SessionRepresents start self.old text
            → SessionSays start self.old.export text (text ++ take result.used bytes.now)
            result.next self.new }
    {
        let taken = receive(
            &mut self.transmission,
            self.bytes.as_mut_slice(),
            self.filled,
            bytes,
        );
        let used = taken.used;
        let next = match taken.next {
            Next::More => {
                self.filled += taken.payload;
                Next::More
            }
            Next::Run(command) => {
                self.filled = 0;
                self.running = Some(command);
                Next::Run(command)
            }
            Next::Reply(refusal) => {
                let reply = Reply {
                    error: refusal.error,
                    cookie: refusal.command.cookie,
                };
                self.filled = 0;
                self.replied = put_head(self.bytes.as_mut_slice(), reply);
                Next::Reply(ReplyTo::Refused(refusal))
            }
            Next::Close => {
                self.filled = 0;
                self.stage = Stage::Ended;
                Next::Close
            }
        };
        Taken { used, next }
    }
}

/// What a reply is to after which the negotiation goes on, by the name that its option asks for
/// where no export has it.
fn option_reply_to(unknown: Option<AskedName>) -> ReplyTo
    ensures { result ≡ option_reply_to unknown }
{
    match unknown {
        None => ReplyTo::Negotiation,
        Some(name) => ReplyTo::UnknownExport(name),
    }
}

/// The buffer of a new session: room for a reply's head and the data of a command, and for the
/// replies of the negotiation.
fn new_store(alloc: Global, export: Export) -> Result<Vec<u8>, OpenError>
    ensures size { IfOk result (λ bytes. REPLY_LEN + export.max_len ≤ vec_len bytes) }
    ensures least { IfOk result (λ bytes. STORE_LEN ≤ vec_len bytes) }
    ensures most { IfOk result (λ bytes. vec_len bytes < 2 ^ 32) }
{
    if export.max_len > LONGEST_COMMAND_LEN {
        return Err(OpenError::OutOfMemory);
    }
    let len = STORE_LEN.max(REPLY_LEN + export.max_len as usize);
    match vec![in alloc; 0u8; len] {
        Ok(bytes) => Ok(bytes),
        Err(_) => Err(OpenError::OutOfMemory),
    }
}

/// Takes bytes of at most one request, and puts those that are payload behind the `filled` bytes of
/// it that have come.
fn receive(
    parser: &mut Transmission,
    store: &mut [u8],
    filled: usize,
    bytes: &[u8],
) -> TransmissionTaken
    requires holding { IsHolding parser.old filled }
    requires store { REPLY_LEN + parser.old.export.max_len ≤ length store.old }
    ensures used { result.used ≤ length bytes.now }
    ensures more { result.next ≡ Next.More → result.used ≡ length bytes.now }
    ensures progress { 0 < length bytes.now → 0 < result.used }
    ensures export { parser.new.export ≡ parser.old.export }
    ensures accepted { IsJudged parser.old.export result.next }
    ensures fits { filled + result.payload ≤ parser.old.export.max_len }
    ensures holds { HoldsAfter result.next parser.new (filled + result.payload) }
    ensures stored { take (filled + result.payload) (drop REPLY_LEN store.new)
        ≡ take filled (drop REPLY_LEN store.old)
        ++ drop (result.used - result.payload) (take result.used bytes.now) }
    ensures step { (rest : List ℕ) → HoldsRest REQUEST_LEN parser.old rest
        → TransmissionAdvances parser.old (rest ++ take result.used bytes.now) result.next
        parser.new }
    ensures part { (rest : List ℕ) → HoldsRest REQUEST_LEN parser.old rest
        → payload_of parser.old.export (rest ++ take result.used bytes.now)
        ≡ payload_of parser.old.export rest
        ++ drop (result.used - result.payload) (take result.used bytes.now) }
{
    let taken = parser.take(bytes);
    let part = &bytes[taken.used - taken.payload..taken.used];
    let _end = put(store, REPLY_LEN + filled, part);
    taken
}

/// Writes a simple reply's head at the front of the buffer, and answers its length. What stands
/// behind it stays.
fn put_head(store: &mut [u8], reply: Reply) -> usize
    requires { REPLY_LEN ≤ length store.old }
    ensures len { result ≡ REPLY_LEN }
    ensures head { take REPLY_LEN store.new ≡ reply_bytes reply }
    ensures rest { drop REPLY_LEN store.new ≡ drop REPLY_LEN store.old }
{
    let mut head = [0; REPLY_LEN];
    reply.write(&mut head);
    put(store, 0, &head)
}

/// How many bytes are lent to the command that runs.
fn lent_len(running: Option<Command>) -> usize
    ensures { result ≡ lent_now running }
{
    let Some(command) = running else {
        return 0;
    };
    if command.kind.lends_data() {
        command.length as usize
    } else {
        0
    }
}
