//! The messages of the NBD protocol, to and from bytes, and how a connection's text is cut into
//! them.
//!
//! Promised: every field of a head stands where the protocol puts it, in big-endian order.
//! `Request::read` and `Reply::read` read exactly the heads whose magic is right, what they read is
//! spelled by the bytes that were read, and what `write` wrote is read again. `Command::of` gives
//! each number on the wire its one meaning. `one_cutting`: each text of a connection is cut into
//! complete units and a rest in exactly one way, and more bytes only add units.
//! `write_option_reply` writes the head and the content of a reply to an option, and no other byte.
//! `constants_are_the_protocols`: each constant is the number that the definitions have
//! (`specs/Numbers.antt`).
//!
//! Left to the crates above: which requests are refused and how options are answered (their
//! definitions stand here, `specs/Commands.antt` and `specs/Options.antt`, the code stands in
//! `nbd_transmission` and `nbd_handshake`).
//!
//! Source: NBD proto.md; the limits on lengths and the one export `flash` are own.
#![tactic(auto)]

mod buffer;
mod command;
mod constants;
mod export;
mod flags;
mod next;
mod option;
mod option_reply;
mod phase;

pub use buffer::{fill, put};
pub use command::{Command, CommandKind, Reply, Request};
pub use constants::{
    CLIENT_FLAGS_LEN, CMD_DISC, CMD_FLUSH, CMD_READ, CMD_TRIM, CMD_WRITE, CMD_WRITE_ZEROES, EINVAL,
    EIO, ENOMEM, ENOSPC, EPERM, ESHUTDOWN, EXPORT_NAME, EXPORT_NAME_ANSWER_LEN,
    EXPORT_NAME_ZEROES_LEN, GREETING_FLAGS, GREETING_LEN, GREETING_MAGIC, INFO_BLOCK_SIZE,
    INFO_BLOCK_SIZE_LEN, INFO_EXPORT, INFO_EXPORT_LEN, MAX_LEN, MAX_OPTION_LEN, MINIMUM_BLOCK_LEN,
    OPT_ABORT, OPT_EXPORT_NAME, OPT_GO, OPT_INFO, OPT_LIST, OPTION_LEN, OPTION_MAGIC,
    OPTION_REPLY_LEN, OPTION_REPLY_MAGIC, PREFERRED_BLOCK_LEN, READ_ONLY_TRANSMISSION_FLAGS,
    REP_ACK, REP_ERR_INVALID, REP_ERR_TOO_BIG, REP_ERR_UNKNOWN, REP_ERR_UNSUP, REP_INFO,
    REP_SERVER, REPLY_LEN, REPLY_MAGIC, REQUEST_LEN, REQUEST_MAGIC, TRANSMISSION_FLAGS,
    constants_are_the_protocols,
};
pub use export::Export;
pub use flags::{CommandFlags, HandshakeFlags, TransmissionFlags};
pub use next::Next;
pub use option::{OptionCase, OptionHead};
pub use option_reply::write_option_reply;
pub use phase::{Phase, one_cutting};
