//! Commands and refusals, cut out of the bytes of a connection; and the request table, by which a
//! command is refused.

ghost use Rattle.std.specs.Prelude.{◌≡◌, ◌<◌, ◌≤◌, ◌+◌, ◌-◌, ◌++◌, ◌⊎◌, ℕ, List, min, [], length};
ghost use Rattle.std.specs.Prelude.{take, drop, false, if◌then◌else◌, ◌*◌, ◌||◌, ◌==◌, None, true};
ghost use Rattle.std.specs.Prelude.{not, nat_lt, ◌∷◌, ◌/◌};
ghost use Rattle.nbd_wire.specs.Heads.{request_at};
ghost use Rattle.nbd_wire.specs.Units.{payload_len, Splits};
ghost use Rattle.nbd_wire.specs.Parser.{HoldsRest, ParserRepresents};
ghost use Rattle.nbd_wire.specs.declared.next.Next.{Next};
ghost use Rattle.nbd_wire.specs.declared.phase.Phase.{Phase};
ghost use Rattle.nbd_wire.specs.declared.phase.Phase.TheVariants.{Transmitting, Closed};
ghost use Rattle.nbd_wire.specs.Commands.{judge_of, first_failing, is_multiple, has_range};
ghost use Rattle.nbd_transmission.specs.Taking.{answer_to, verdict, is_accepted_write, payload_of};
ghost use Rattle.nbd_transmission.specs.Taking.{phase_of, IsJudged};
ghost use Rattle.nbd_transmission.specs.Parser.{TransmissionAnswers, TransmissionAdvances};

use bitflags::Flags;
use nbd_wire::{
    Command, CommandKind, EINVAL, ENOSPC, EPERM, Export, MINIMUM_BLOCK_LEN, Next, REQUEST_LEN,
    Request, fill,
};
use std::marker::Model;

/// A command that the request table refuses, and the error that it is answered.
#[derive(Clone, Copy, PartialEq, Eq, Debug)]
pub struct Refusal {
    pub command: Command,
    pub error: u32,
}

/// What a call took of the bytes that it was given.
#[derive(Clone, Copy, PartialEq, Eq, Debug)]
pub struct TransmissionTaken {
    /// How many bytes were used.
    pub used: usize,
    /// How many of the last of these are payload of an accepted WRITE.
    pub payload: usize,
    /// What comes next; to a refused command a reply without data, once the payload of a WRITE was
    /// taken, which is to be dropped.
    pub next: Next<Refusal>,
}

/// Cuts the bytes of a transmission into commands.
#[derive(Drop)]
pub struct Transmission {
    export: Export,
    head: [u8; REQUEST_LEN],
    count: u64,
    is_closed: bool,
}

impl Model for Transmission {
    ghost use Rattle.std.specs.Prelude.{◌≡◌, ◌+◌, ◌<◌, ◌≤◌, take, min, if◌then◌else◌};
    ghost use Rattle.nbd_wire.specs.declared.constants.TheConstants.{REQUEST_LEN};
    ghost use Rattle.nbd_wire.specs.Heads.{request_at};
    ghost use Rattle.nbd_wire.specs.Units.{payload_len};
    ghost use Rattle.nbd_wire.specs.Parser.{ParserState};
    ghost use Rattle.nbd_wire.specs.declared.phase.Phase.TheVariants.{Transmitting, Closed};

    ghost Value = { ParserState };

    ghost view = { λ t. record {
      export = t.export;
      phase = (if t.is_closed then Closed else Transmitting);
      kept = take
          (min t.count REQUEST_LEN) t.head;
      count = t.count;
    } };

    ghost invariant = { λ t. REQUEST_LEN ≤ t.count
        → t.count < REQUEST_LEN + payload_len (request_at t.head) };
}

impl Transmission {
    /// A parser for this export, whose next byte begins a request.
    pub fn new(export: Export) -> Transmission
        ensures exact { result ≡ record
            { export = export; phase = Phase.Transmitting; kept = []; count = 0 } }
        ensures keeps { HoldsRest REQUEST_LEN result [] }
        // It represents each text whose units lead to the transmission, without a rest.
        ensures represents { (start : Phase) (text : List ℕ) (units : List (List ℕ))
            → Splits start text units [] Phase.Transmitting
            → ParserRepresents REQUEST_LEN start result text }
    {
        Transmission {
            export,
            head: [0; REQUEST_LEN],
            count: 0,
            is_closed: false,
        }
    }

    /// Takes bytes of at most one unit. A closed parser uses no bytes and answers Close.
    pub fn take(&mut self, bytes: &[u8]) -> TransmissionTaken
        ensures used { result.used ≤ length bytes.now }
        ensures payload { result.payload ≤ result.used }
        ensures more { result.next ≡ Next.More → result.used ≡ length bytes.now }
        ensures progress { self.old.phase ≡ Phase.Transmitting → 0 < length bytes.now
            → 0 < result.used }
        ensures closed { self.old.phase ≡ Phase.Closed
            → (self.new ≡ self.old) × (result
            ≡ record { used = 0; payload = 0; next = Next.Close }) }
        ensures export { self.new.export ≡ self.old.export }
        ensures phase { self.new.phase ≡ phase_of result.next }
        ensures phases { (self.old.phase ≡ Phase.Transmitting) ⊎ (self.old.phase ≡ Phase.Closed) }
        ensures accepted { IsJudged self.old.export result.next }

        // Of the unit begun: what the bytes used make of it,
        ensures step { (rest : List ℕ) → self.old.phase ≡ Phase.Transmitting
            → HoldsRest REQUEST_LEN self.old rest
            → TransmissionAdvances self.old (rest ++ take result.used bytes.now) result.next
            self.new }
        // that the last of them are the next part of an accepted payload,
        ensures part { (rest : List ℕ) → self.old.phase ≡ Phase.Transmitting
            → HoldsRest REQUEST_LEN self.old rest
            → payload_of self.old.export (rest ++ take result.used bytes.now)
            ≡ payload_of self.old.export rest
            ++ drop (result.used - result.payload) (take result.used bytes.now) }
        // which never grows longer than a READ or WRITE may be.
        ensures room { (rest : List ℕ) → self.old.phase ≡ Phase.Transmitting
            → HoldsRest REQUEST_LEN self.old rest
            → length (payload_of self.old.export (rest ++ take result.used bytes.now))
            ≤ self.old.export.max_len }

        // Of each text that the parser represents: the answer is that of the next unit of this text
        // and the bytes used,
        ensures answer { (start : Phase) (text : List ℕ) → self.old.phase ≡ Phase.Transmitting
            → ParserRepresents REQUEST_LEN start self.old text
            → TransmissionAnswers start self.old.export text (text ++ take result.used bytes.now)
            result.next }
        // and the parser then represents the longer text.
        ensures represents { (start : Phase) (text : List ℕ)
            → ParserRepresents REQUEST_LEN start self.old text
            → ParserRepresents REQUEST_LEN start self.new (text ++ take result.used bytes.now) }
    {
        if self.is_closed {
            return TransmissionTaken {
                used: 0,
                payload: 0,
                next: Next::Close,
            };
        }
        self.advance(bytes)
    }

    /// Takes bytes of the unit begun.
    fn advance(&mut self, bytes: &[u8]) -> TransmissionTaken
        requires { self.old.phase ≡ Phase.Transmitting }
        ensures used { result.used ≤ length bytes.now }
        ensures payload { result.payload ≤ result.used }
        ensures more { result.next ≡ Next.More → result.used ≡ length bytes.now }
        ensures progress { 0 < length bytes.now → 0 < result.used }
        ensures export { self.new.export ≡ self.old.export }
        ensures phase { self.new.phase ≡ phase_of result.next }
        ensures accepted { IsJudged self.old.export result.next }
        ensures step { (rest : List ℕ) → HoldsRest REQUEST_LEN self.old rest
            → TransmissionAdvances self.old (rest ++ take result.used bytes.now) result.next
            self.new }
        ensures part { (rest : List ℕ) → HoldsRest REQUEST_LEN self.old rest
            → payload_of self.old.export (rest ++ take result.used bytes.now)
            ≡ payload_of self.old.export rest
            ++ drop (result.used - result.payload) (take result.used bytes.now) }
    {
        let filled = self.count.min(REQUEST_LEN as u64) as usize;
        let head = fill(&mut self.head, filled, bytes);
        let count = self.count + head as u64;
        if count < REQUEST_LEN as u64 {
            self.count = count;
            return TransmissionTaken {
                used: head,
                payload: 0,
                next: Next::More,
            };
        }
        let tail = tail_of(&self.head, self.export);
        let missing = REQUEST_LEN as u64 + u64::from(tail.len) - count;
        let left = bytes.len() - head;
        if (left as u64) < missing {
            self.count = count + left as u64;
            return TransmissionTaken {
                used: bytes.len(),
                payload: if tail.accepted { left } else { 0 },
                next: Next::More,
            };
        }
        self.count = 0;
        self.is_closed = closes(tail.next);
        TransmissionTaken {
            used: head + missing as usize,
            payload: if tail.accepted { missing as usize } else { 0 },
            next: tail.next,
        }
    }
}

/// What a whole head says of its unit.
#[derive(Clone, Copy)]
struct Tail {
    /// How many bytes follow the head.
    len: u32,
    /// Whether they are payload of an accepted WRITE.
    accepted: bool,
    /// The answer to the unit.
    next: Next<Refusal>,
}

/// Reads a whole head.
fn tail_of(head: &[u8; REQUEST_LEN], export: Export) -> Tail
    ensures len { result.len ≡ payload_len (request_at head.now) }
    ensures accepted { result.accepted ≡ is_accepted_write export (request_at head.now) }
    ensures next { result.next ≡ answer_to export head.now }
{
    let Some(request) = Request::read(head) else {
        return Tail {
            len: 0,
            accepted: false,
            next: Next::Close,
        };
    };
    let command = Command::of(request);
    let refusal = judge(&command, export);
    match command.kind {
        CommandKind::Write => Tail {
            len: command.length,
            accepted: refusal.is_none(),
            next: answer(command, refusal),
        },
        CommandKind::Disconnect => Tail {
            len: 0,
            accepted: false,
            next: Next::Close,
        },
        _ => Tail {
            len: 0,
            accepted: false,
            next: answer(command, refusal),
        },
    }
}

/// The answer to a complete command.
fn answer(command: Command, refusal: Option<u32>) -> Next<Refusal>
    ensures { result ≡ verdict command refusal }
{
    match refusal {
        None => Next::Run(command),
        Some(error) => Next::Reply(Refusal { command, error }),
    }
}

/// Whether an answer ends the connection.
fn closes(next: Next<Refusal>) -> bool
    ensures { (if result then Closed else Transmitting) ≡ phase_of next }
{
    match next {
        Next::More => false,
        Next::Run(_) => false,
        Next::Reply(_) => false,
        Next::Close => true,
    }
}

/// The error that refuses a command of this export, or none: that of the first check of the
/// request table that fails.
///
/// 1 (EPERM): a WRITE, TRIM or WRITE_ZEROES of a read-only export. 22 (EINVAL): a command other
/// than READ, WRITE, FLUSH, TRIM and WRITE_ZEROES; a flag other than FUA, or of WRITE_ZEROES than
/// FUA and NO_HOLE; a FLUSH with an offset or a length; a range of length 0, or with an offset or a
/// length that is no multiple of 512 bytes; a READ or WRITE longer than the export says; a READ or
/// TRIM past the end. 28 (ENOSPC): a WRITE or WRITE_ZEROES past the end. Source: NBD proto.md for
/// the errors; their order is own.
#[tactic(auto, unfolding(nbd_wire::specs::Commands::judge_of))]
pub fn judge(command: &Command, export: Export) -> Option<u32>
    ensures { result ≡ judge_of command.now export }
{
    if export.read_only && command.kind.changes_disk() {
        return Some(EPERM);
    }
    if !command.kind.allowed_flags().contains(command.flags) {
        return Some(EINVAL);
    }
    if command.kind.has_limit() && command.length > export.max_len {
        return Some(EINVAL);
    }
    match command.kind {
        CommandKind::Read => judge_range(command.offset, command.length, export.sectors, EINVAL),
        CommandKind::Write => judge_range(command.offset, command.length, export.sectors, ENOSPC),
        CommandKind::Trim => judge_range(command.offset, command.length, export.sectors, EINVAL),
        CommandKind::WriteZeroes => judge_range(
            command.offset,
            command.length,
            export.sectors,
            ENOSPC,
        ),
        CommandKind::Flush if command.offset == 0 && command.length == 0 => None,
        CommandKind::Flush => Some(EINVAL),
        CommandKind::Disconnect => Some(EINVAL),
        CommandKind::Unknown(_) => Some(EINVAL),
    }
}

/// The error that a range of any length meets, which is `past_end` where it ends past the end of
/// the disk.
fn judge_range(offset: u64, length: u32, sectors: u32, past_end: u32) -> Option<u32>
    ensures { result ≡ first_failing (
        (length == 0 || not (is_multiple offset) || not (is_multiple length), EINVAL)
        ∷ (nat_lt (MINIMUM_BLOCK_LEN * sectors) (offset + length), past_end)
        ∷ []) }
{
    if length == 0
        || !offset.is_multiple_of(u64::from(MINIMUM_BLOCK_LEN))
        || !length.is_multiple_of(MINIMUM_BLOCK_LEN)
    {
        return Some(EINVAL);
    }
    let size = u64::from(sectors) * u64::from(MINIMUM_BLOCK_LEN);
    let length = u64::from(length);
    if length > size || offset > size - length {
        return Some(past_end);
    }
    None
}

/// The first sector of an accepted command's range.
pub fn first_sector(command: &Command, export: Export) -> u32
    requires accepted { judge_of command.now export ≡ None }
    requires kind { has_range command.now.kind ≡ true }
    ensures first { 512 * result ≡ command.now.offset }
    ensures range { command.now.offset + command.now.length ≤ 512 * export.sectors }
    ensures whole { (k : ℕ) × (command.now.length ≡ 512 * k) }
{
    sector_at(command.offset, export.sectors)
}

/// The sector that begins at an offset on a disk.
fn sector_at(offset: u64, sectors: u32) -> u32
    requires { offset ≤ 512 * sectors }
    ensures { result ≡ offset / 512 }
{
    (offset / u64::from(MINIMUM_BLOCK_LEN)) as u32
}
