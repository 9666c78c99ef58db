//! What is sent and answered until a connection transmits, and what cuts leave. Source: NBD
//! proto.md.

/// The greeting.
pub const GREETING: &str = "4E42444D41474943 49484156454F5054 0003";

/// The client's flags.
pub const FLAGS: &str = "00000003";

/// A GO of the export `flash`, without a request for more information.
pub const GO: &str = "49484156454F5054 00000007 0000000B 00000005 666C617368 0000";

/// The replies to a GO, of a disk of 70 sectors (8C00h bytes).
pub const GO_REPLY: &str =
    "0003E889045565A9 00000007 00000003 0000000C 0000 0000000000008C00 016D 0003E889045565A9 00000007 00000003 0000000E 0003 00000200 00001000 00010000 0003E889045565A9 00000007 00000001 00000000";

/// What a cut change leaves: of a page the new bits where these have a 1, of an erased unit these
/// bytes.
pub const MASKS: [u8; 6] = [0x00, 0xFF, 0xA5, 0xFE, 0xFC, 0xF8];
