//! The numbers of the NBD protocol that this server speaks, by the names that proto.md gives them
//! without `NBD_`.

ghost use Rattle.std.specs.Prelude.{◌≡◌};
ghost use Rattle.nbd_wire.specs.Numbers as protocol;

/// The first 8 bytes of the server's greeting, `NBDMAGIC` in ASCII.
pub const GREETING_MAGIC: u64 = 0x4E42_444D_4147_4943;
/// Begins an option's head, and follows `GREETING_MAGIC` in the greeting: `IHAVEOPT` in ASCII.
pub const OPTION_MAGIC: u64 = 0x4948_4156_454F_5054;
/// Begins the reply to an option.
pub const OPTION_REPLY_MAGIC: u64 = 0x0003_E889_0455_65A9;
/// Begins a request.
pub const REQUEST_MAGIC: u32 = 0x2560_9513;
/// Begins a simple reply.
pub const REPLY_MAGIC: u32 = 0x6744_6698;

/// The length of the server's greeting in bytes: both magics and 16 bits of flags.
pub const GREETING_LEN: usize = 18;
/// The length of the client's flags in bytes.
pub const CLIENT_FLAGS_LEN: usize = 4;
/// The length of an option's head in bytes: magic, option, length of its data.
pub const OPTION_LEN: usize = 16;
/// The length of the head of a reply to an option in bytes: magic, option, reply type, length of
/// its data.
pub const OPTION_REPLY_LEN: usize = 20;
/// The length of a request's head in bytes: magic, flags, command, cookie, offset, length.
pub const REQUEST_LEN: usize = 28;
/// The length of a simple reply's head in bytes: magic, error, cookie.
pub const REPLY_LEN: usize = 16;
/// The length of the answer to EXPORT_NAME in bytes, without its zeroes: size and transmission
/// flags.
pub const EXPORT_NAME_ANSWER_LEN: usize = 10;
/// How many zero bytes end the answer to EXPORT_NAME for a client that did not set NO_ZEROES.
pub const EXPORT_NAME_ZEROES_LEN: usize = 124;
/// The length of the data of the information INFO_EXPORT in bytes: its type, size, transmission
/// flags.
pub const INFO_EXPORT_LEN: usize = 12;
/// The length of the data of the information INFO_BLOCK_SIZE in bytes: its type, minimum, preferred
/// and maximum.
pub const INFO_BLOCK_SIZE_LEN: usize = 14;

/// The option that names an export and begins the transmission, or closes the connection.
pub const OPT_EXPORT_NAME: u32 = 1;
/// The option that ends the negotiation.
pub const OPT_ABORT: u32 = 2;
/// The option that asks for the names of all exports.
pub const OPT_LIST: u32 = 3;
/// The option that asks about an export.
pub const OPT_INFO: u32 = 6;
/// The option that asks about an export and begins the transmission.
pub const OPT_GO: u32 = 7;

/// The reply type of the last reply to an option that was accepted.
pub const REP_ACK: u32 = 1;
/// The reply type of the name of an export.
pub const REP_SERVER: u32 = 2;
/// The reply type of an information about an export.
pub const REP_INFO: u32 = 3;
/// The reply type that refuses an option that the server doesn't know.
pub const REP_ERR_UNSUP: u32 = 0x8000_0001;
/// The reply type that refuses an option whose data is malformed.
pub const REP_ERR_INVALID: u32 = 0x8000_0003;
/// The reply type that refuses the name of an export.
pub const REP_ERR_UNKNOWN: u32 = 0x8000_0006;
/// The reply type that refuses an option whose data is too long.
pub const REP_ERR_TOO_BIG: u32 = 0x8000_0009;

/// The type of the information that has the size and the transmission flags.
pub const INFO_EXPORT: u16 = 0;
/// The type of the information that has the sizes of blocks.
pub const INFO_BLOCK_SIZE: u16 = 3;

/// The number of the command that reads.
pub const CMD_READ: u16 = 0;
/// The number of the command that writes.
pub const CMD_WRITE: u16 = 1;
/// The number of the command that disconnects, which has no reply.
pub const CMD_DISC: u16 = 2;
/// The number of the command that asks that all writes before it are on the chip.
pub const CMD_FLUSH: u16 = 3;
/// The number of the command that discards: its range is zeros from then on.
pub const CMD_TRIM: u16 = 4;
/// The number of the command that writes zeroes.
pub const CMD_WRITE_ZEROES: u16 = 6;

/// The error of a command that would change a read-only export.
pub const EPERM: u32 = 1;
/// The error of a command whose run failed.
pub const EIO: u32 = 5;
/// The error of a command for which no memory was left.
pub const ENOMEM: u32 = 12;
/// The error of a command that is refused for its form, and of a READ or TRIM past the end.
pub const EINVAL: u32 = 22;
/// The error of a WRITE or WRITE_ZEROES past the end.
pub const ENOSPC: u32 = 28;
/// The error of a server that shuts down; never sent.
pub const ESHUTDOWN: u32 = 108;

/// The minimum block size in bytes, as it is told to the client: a sector. Offsets and lengths of
/// commands are multiples of it.
pub const MINIMUM_BLOCK_LEN: u32 = 512;
/// The length that serves best for a command, in bytes, as it is told to the client: an erase block
/// of the chip.
pub const PREFERRED_BLOCK_LEN: u32 = 4_096;
/// The largest length of a READ or WRITE in bytes where nothing else is asked for.
pub const MAX_LEN: u32 = 65_536;
/// The largest length of an option's data that is looked at, in bytes.
pub const MAX_OPTION_LEN: u32 = 8_192;
/// The flags of the server's greeting: FIXED_NEWSTYLE and NO_ZEROES.
pub const GREETING_FLAGS: u16 = 0x0003;
/// The transmission flags of the export: HAS_FLAGS, SEND_FLUSH, SEND_FUA, SEND_TRIM,
/// SEND_WRITE_ZEROES and CAN_MULTI_CONN.
pub const TRANSMISSION_FLAGS: u16 = 0x016D;
/// The transmission flags of a read-only export: HAS_FLAGS, READ_ONLY, SEND_FLUSH, SEND_FUA and
/// CAN_MULTI_CONN.
pub const READ_ONLY_TRANSMISSION_FLAGS: u16 = 0x010F;
/// The name of the one export; the empty name means it too.
pub const EXPORT_NAME: &[u8] = b"flash";

/// Each number here is the one that the definitions have, which are written from proto.md and cite
/// no constant of this file.
pub fn constants_are_the_protocols()
    ensures magics { (GREETING_MAGIC ≡ protocol.GREETING_MAGIC)
        × (OPTION_MAGIC ≡ protocol.OPTION_MAGIC)
        × (OPTION_REPLY_MAGIC ≡ protocol.OPTION_REPLY_MAGIC)
        × (REQUEST_MAGIC ≡ protocol.REQUEST_MAGIC) × (REPLY_MAGIC ≡ protocol.REPLY_MAGIC) }
    ensures heads { (CLIENT_FLAGS_LEN ≡ protocol.CLIENT_FLAGS_LEN)
        × (OPTION_LEN ≡ protocol.OPTION_LEN) × (REQUEST_LEN ≡ protocol.REQUEST_LEN)
        × (REPLY_LEN ≡ protocol.REPLY_LEN)
        × (EXPORT_NAME_ZEROES_LEN ≡ protocol.EXPORT_NAME_ZEROES_LEN) }
    ensures flags { (GREETING_FLAGS ≡ protocol.GREETING_FLAGS)
        × (TRANSMISSION_FLAGS ≡ protocol.TRANSMISSION_FLAGS)
        × (READ_ONLY_TRANSMISSION_FLAGS ≡ protocol.READ_ONLY_TRANSMISSION_FLAGS) }
    ensures options { (OPT_EXPORT_NAME ≡ protocol.OPT_EXPORT_NAME)
        × (OPT_ABORT ≡ protocol.OPT_ABORT) × (OPT_LIST ≡ protocol.OPT_LIST)
        × (OPT_INFO ≡ protocol.OPT_INFO) × (OPT_GO ≡ protocol.OPT_GO) }
    ensures replies { (REP_ACK ≡ protocol.REP_ACK) × (REP_SERVER ≡ protocol.REP_SERVER)
        × (REP_INFO ≡ protocol.REP_INFO) }
    ensures refusals { (REP_ERR_UNSUP ≡ protocol.REP_ERR_UNSUP)
        × (REP_ERR_INVALID ≡ protocol.REP_ERR_INVALID)
        × (REP_ERR_UNKNOWN ≡ protocol.REP_ERR_UNKNOWN)
        × (REP_ERR_TOO_BIG ≡ protocol.REP_ERR_TOO_BIG) }
    ensures information { (INFO_EXPORT ≡ protocol.INFO_EXPORT)
        × (INFO_BLOCK_SIZE ≡ protocol.INFO_BLOCK_SIZE) }
    ensures commands { (CMD_READ ≡ protocol.CMD_READ) × (CMD_WRITE ≡ protocol.CMD_WRITE)
        × (CMD_DISC ≡ protocol.CMD_DISC) × (CMD_FLUSH ≡ protocol.CMD_FLUSH)
        × (CMD_TRIM ≡ protocol.CMD_TRIM)
        × (CMD_WRITE_ZEROES ≡ protocol.CMD_WRITE_ZEROES) }
    ensures errors { (EPERM ≡ protocol.EPERM) × (EIO ≡ protocol.EIO) × (ENOMEM ≡ protocol.ENOMEM)
        × (EINVAL ≡ protocol.EINVAL) × (ENOSPC ≡ protocol.ENOSPC) }
    ensures sizes { (MINIMUM_BLOCK_LEN ≡ protocol.MINIMUM_BLOCK_LEN)
        × (PREFERRED_BLOCK_LEN ≡ protocol.PREFERRED_BLOCK_LEN) × (MAX_LEN ≡ protocol.MAX_LEN)
        × (MAX_OPTION_LEN ≡ protocol.MAX_OPTION_LEN) }
{}
