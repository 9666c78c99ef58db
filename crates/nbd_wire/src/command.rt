//! The head of a request, and what it asks for; and the head of its reply.

ghost use Rattle.std.specs.Prelude.{◌≡◌, ◌≤◌, ◌++◌, length, drop, IfSome, ℕ, List};
ghost use Rattle.byteorder.specs.Endian.{big_bytes};
ghost use Rattle.nbd_wire.specs.Commands.{command_kind, command_in, lends_data, has_limit};
ghost use Rattle.nbd_wire.specs.Commands.{changes_disk, allowed_flags};
ghost use Rattle.nbd_wire.specs.Heads.{request_bytes, request_at, FitsRequest};
ghost use Rattle.nbd_wire.specs.Heads.{reply_bytes, reply_at, FitsReply};
ghost use Rattle.nbd_wire.specs.declared.command.Reply.{Reply};
ghost use Rattle.nbd_wire.specs.declared.command.Request.{Request};

use crate::constants::{
    CMD_DISC, CMD_FLUSH, CMD_READ, CMD_TRIM, CMD_WRITE, CMD_WRITE_ZEROES, REPLY_LEN, REPLY_MAGIC,
    REQUEST_LEN, REQUEST_MAGIC,
};
use crate::flags::CommandFlags;
use bitflags::Flags;
use byteorder::{BigEndian, ByteOrder};

/// What a command does. Source: NBD proto.md; the numbers of commands that this server doesn't
/// serve are unknown ones.
#[derive(Clone, Copy, PartialEq, Eq, Debug)]
pub enum CommandKind {
    Read,
    Write,
    Disconnect,
    Flush,
    Trim,
    WriteZeroes,
    /// Any other number.
    Unknown(u16),
}

impl CommandKind {
    /// The kind that a number on the wire means.
    pub fn of(number: u16) -> CommandKind
        ensures { result ≡ command_kind number }
    {
        match number {
            CMD_READ => CommandKind::Read,
            CMD_WRITE => CommandKind::Write,
            CMD_DISC => CommandKind::Disconnect,
            CMD_FLUSH => CommandKind::Flush,
            CMD_TRIM => CommandKind::Trim,
            CMD_WRITE_ZEROES => CommandKind::WriteZeroes,
            _ => CommandKind::Unknown(number),
        }
    }

    /// Whether the bytes of its range are lent to it: a WRITE's payload, or room for a READ's data.
    pub fn lends_data(self) -> bool
        ensures { result ≡ lends_data self }
    {
        matches!(self, CommandKind::Read | CommandKind::Write)
    }

    /// Whether its length has a limit.
    pub fn has_limit(self) -> bool
        ensures { result ≡ has_limit self }
    {
        self.lends_data()
    }

    /// Whether it changes the disk: WRITE, TRIM and WRITE_ZEROES, which a read-only export refuses.
    pub fn changes_disk(self) -> bool
        ensures { result ≡ changes_disk self }
    {
        matches!(
            self,
            CommandKind::Write | CommandKind::Trim | CommandKind::WriteZeroes
        )
    }

    /// The flags that a command of this kind may have.
    pub fn allowed_flags(self) -> CommandFlags
        ensures { result.0 ≡ allowed_flags self }
    {
        match self {
            CommandKind::WriteZeroes => CommandFlags::FUA.union(CommandFlags::NO_HOLE),
            _ => CommandFlags::FUA,
        }
    }
}

/// What a client asks for.
#[derive(Clone, Copy, PartialEq, Eq, Debug)]
pub struct Command {
    pub kind: CommandKind,
    pub flags: CommandFlags,
    /// What the reply is to carry.
    pub cookie: u64,
    /// Where the command begins, in bytes.
    pub offset: u64,
    /// How long the range of the command is, in bytes.
    pub length: u32,
}

impl Command {
    /// The command of a request.
    pub fn of(request: Request) -> Command
        ensures { result ≡ command_in request }
    {
        Command {
            kind: CommandKind::of(request.kind),
            flags: request.flags,
            cookie: request.cookie,
            offset: request.offset,
            length: request.length,
        }
    }
}

/// A request as its head says it. Source: NBD proto.md.
#[derive(Clone, Copy, PartialEq, Eq, Debug)]
pub struct Request {
    pub flags: CommandFlags,
    /// The number of the command.
    pub kind: u16,
    /// What the reply is to carry, so that the client knows which request it answers.
    pub cookie: u64,
    /// Where the command begins, in bytes.
    pub offset: u64,
    /// How long the range of the command is, in bytes.
    pub length: u32,
}

impl Request {
    /// Reads a head, where its magic is right.
    pub fn read(bytes: &[u8]) -> Option<Request>
        requires { REQUEST_LEN ≤ length bytes.now }
        // The fields at their places, where the magic is right.
        ensures exact { result ≡ request_at bytes.now }
        // What is read is spelled so.
        ensures spelled { IfSome result
            (λ r. request_bytes r ++ drop REQUEST_LEN bytes.now ≡ bytes.now) }
        // What is spelled so is read, whatever follows it.
        ensures again { (r : Request) (rest : List ℕ) → FitsRequest r
            → bytes.now ≡ request_bytes r ++ rest → result ≡ Some r }
    {
        Request::at_start(bytes)
    }

    #[tactic(auto, unfolding(crate::specs::Heads::request_at))]
    fn at_start(bytes: &[u8]) -> Option<Request>
        requires { REQUEST_LEN ≤ length bytes.now }
        ensures { result ≡ request_at bytes.now }
    {
        if BigEndian::read_u32(bytes) != REQUEST_MAGIC {
            return None;
        }
        Some(Request {
            flags: CommandFlags::from_bits_retain(BigEndian::read_u16(&bytes[4..])),
            kind: BigEndian::read_u16(&bytes[6..]),
            cookie: BigEndian::read_u64(&bytes[8..]),
            offset: BigEndian::read_u64(&bytes[16..]),
            length: BigEndian::read_u32(&bytes[24..]),
        })
    }

    /// Writes the head at the front of `out`, and leaves the rest of `out` as it is.
    pub fn write(&self, out: &mut [u8])
        requires { REQUEST_LEN ≤ length out.old }
        ensures { out.new ≡ request_bytes self.now ++ drop REQUEST_LEN out.old }
    {
        self.write_to_kind(out);
        self.write_from_cookie(&mut out[8..]);
    }

    /// Writes the first three fields of the head, 8 bytes.
    fn write_to_kind(&self, out: &mut [u8])
        requires { 8 ≤ length out.old }
        ensures { out.new ≡ big_bytes 4 REQUEST_MAGIC ++ big_bytes 2 self.now.flags.0
            ++ big_bytes 2 self.now.kind ++ drop 8 out.old }
    {
        BigEndian::write_u32(out, REQUEST_MAGIC);
        BigEndian::write_u16(&mut out[4..], self.flags.bits());
        BigEndian::write_u16(&mut out[6..], self.kind);
    }

    /// Writes the last three fields of the head, 20 bytes.
    fn write_from_cookie(&self, out: &mut [u8])
        requires { 20 ≤ length out.old }
        ensures { out.new ≡ big_bytes 8 self.now.cookie ++ big_bytes 8 self.now.offset
            ++ big_bytes 4 self.now.length ++ drop 20 out.old }
    {
        BigEndian::write_u64(out, self.cookie);
        BigEndian::write_u64(&mut out[8..], self.offset);
        BigEndian::write_u32(&mut out[16..], self.length);
    }
}

/// A simple reply, without the data of a READ. Source: NBD proto.md.
#[derive(Clone, Copy, PartialEq, Eq, Debug)]
pub struct Reply {
    /// 0, or the error.
    pub error: u32,
    /// The cookie of the request that it answers.
    pub cookie: u64,
}

impl Reply {
    /// Reads a head, where its magic is right.
    pub fn read(bytes: &[u8]) -> Option<Reply>
        requires { REPLY_LEN ≤ length bytes.now }
        // The fields at their places, where the magic is right.
        ensures exact { result ≡ reply_at bytes.now }
        // What is read is spelled so.
        ensures spelled { IfSome result
            (λ r. reply_bytes r ++ drop REPLY_LEN bytes.now ≡ bytes.now) }
        // What is spelled so is read, whatever follows it.
        ensures again { (r : Reply) (rest : List ℕ) → FitsReply r
            → bytes.now ≡ reply_bytes r ++ rest → result ≡ Some r }
    {
        Reply::at_start(bytes)
    }

    #[tactic(auto, unfolding(crate::specs::Heads::reply_at))]
    fn at_start(bytes: &[u8]) -> Option<Reply>
        requires { REPLY_LEN ≤ length bytes.now }
        ensures { result ≡ reply_at bytes.now }
    {
        if BigEndian::read_u32(bytes) != REPLY_MAGIC {
            return None;
        }
        Some(Reply {
            error: BigEndian::read_u32(&bytes[4..]),
            cookie: BigEndian::read_u64(&bytes[8..]),
        })
    }

    /// Writes the head at the front of `out`, and leaves the rest of `out` as it is.
    #[tactic(auto, unfolding(crate::specs::Heads::reply_bytes))]
    pub fn write(&self, out: &mut [u8])
        requires { REPLY_LEN ≤ length out.old }
        ensures { out.new ≡ reply_bytes self.now ++ drop REPLY_LEN out.old }
    {
        BigEndian::write_u32(out, REPLY_MAGIC);
        BigEndian::write_u32(&mut out[4..], self.error);
        BigEndian::write_u64(&mut out[8..], self.cookie);
    }
}
