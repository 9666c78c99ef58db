//! Records of a transcript.

ghost use Rattle.std.specs.Prelude.{◌≡◌, ◌<◌, ◌^◌, ◌+◌, ◌++◌, ◌∷◌, [], length};
ghost use Rattle.std.specs.Int.{to_be_bytes, w32};
ghost use Rattle.block_device.specs.Streams.{Sends};
ghost use Rattle.nbd_transmission.specs.Apply.{reply_with};
ghost use Rattle.nbd_wire.specs.Heads.{reply_bytes};
ghost use Rattle.nbd_station.specs.Records.{entry, replied};

use block_device::{Failed, Sink, send_both};
use nbd_wire::{Command, CommandKind, REPLY_LEN, Reply, put as put_bytes};

/// The kind of a record that has a reply's bytes.
pub const REPLY: u8 = b'D';
/// An event is done.
pub const DONE: u8 = b'A';
/// It is done, and the server closed the connection.
pub const SHUT: u8 = b'X';
/// Power was lost, or is off.
pub const LOST: u8 = b'L';
/// There is no such open connection, or it can't be opened.
pub const ABSENT: u8 = b'N';
/// The disk met a slow operation.
pub const STUCK: u8 = b'E';
/// The number in the records of an event of no connection.
pub const NO_ONE: u8 = 0xFF;

/// Writes a record.
pub(crate) fn put<W: Sink>(out: &mut W, who: u8, kind: u8, bytes: &[u8]) -> Result<(), Failed>
    requires { length bytes.now < 2 ^ 32 }
    ensures { Sends (W.written out.old) (W.faults out.old) (entry who kind bytes.now) result
        (W.written out.new) (W.faults out.new) }
{
    let [a, b, c, d] = (bytes.len() as u32).to_be_bytes();
    send_both(out, &[who, kind, a, b, c, d], bytes)
}

/// Writes a reply's record, where the reply isn't empty.
pub(crate) fn tell<W: Sink>(out: &mut W, who: u8, bytes: &[u8]) -> Result<(), Failed>
    requires { length bytes.now < 2 ^ 32 }
    ensures { Sends (W.written out.old) (W.faults out.old) (replied who bytes.now) result
        (W.written out.new) (W.faults out.new) }
{
    if bytes.is_empty() {
        return Ok(());
    }
    put(out, who, REPLY, bytes)
}

/// The length of a record's head in bytes: the connection's number, the kind and a length.
const TRANSCRIPT_HEAD_LEN: usize = 6;

/// Writes the record of a reply to a command that ran with this error over these lent bytes: its
/// data are those of a READ that met none.
pub(crate) fn tell_answer<W: Sink>(
    out: &mut W,
    who: u8,
    command: &Command,
    error: u32,
    lent: &[u8],
) -> Result<(), Failed>
    requires { REPLY_LEN + length lent.now < 2 ^ 32 }
    ensures { Sends (W.written out.old) (W.faults out.old)
        (replied who (reply_with command.now error lent.now)) result (W.written out.new)
        (W.faults out.new) }
{
    let cookie = command.cookie;
    match command.kind {
        CommandKind::Read if error == 0 => put_reply(out, who, Reply { error, cookie }, lent),
        _ => put_reply(out, who, Reply { error, cookie }, &[]),
    }
}

/// Writes the record of a reply with these data, in one call where the output takes all of it.
fn put_reply<W: Sink>(out: &mut W, who: u8, reply: Reply, content: &[u8]) -> Result<(), Failed>
    requires { REPLY_LEN + length content.now < 2 ^ 32 }
    ensures { Sends (W.written out.old) (W.faults out.old)
        (replied who (reply_bytes reply ++ content.now)) result (W.written out.new)
        (W.faults out.new) }
{
    let len = (REPLY_LEN + content.len()) as u32;
    send_both(out, &reply_head(who, len, reply), content)
}

/// The head of a reply's record of this length, and the reply's own head.
fn reply_head(who: u8, len: u32, reply: Reply) -> [u8; TRANSCRIPT_HEAD_LEN + REPLY_LEN]
    ensures { result ≡ (who ∷ REPLY ∷ []) ++ to_be_bytes w32 len ++ reply_bytes reply }
{
    let [a, b, c, d] = len.to_be_bytes();
    let mut head = [0; TRANSCRIPT_HEAD_LEN + REPLY_LEN];
    let end = put_bytes(&mut head, 0, &[who, REPLY, a, b, c, d]);
    reply.write(&mut head[end..]);
    head
}
