//! What the server sends first.

ghost use Rattle.std.specs.Prelude.{◌≡◌};
ghost use Rattle.nbd_handshake.specs.Greeting.{greeting_bytes};

use byteorder::{BigEndian, ByteOrder};
use nbd_wire::{GREETING_LEN, GREETING_MAGIC, HandshakeFlags, OPTION_MAGIC};

/// The bytes that the server sends first: both magics, FIXED_NEWSTYLE and NO_ZEROES. Source: NBD
/// proto.md.
#[tactic(auto, unfolding(crate::specs::Greeting::greeting_bytes))]
pub fn greeting() -> [u8; GREETING_LEN]
    ensures { result ≡ greeting_bytes }
{
    let mut bytes = [0; GREETING_LEN];
    BigEndian::write_u64(&mut bytes, GREETING_MAGIC);
    BigEndian::write_u64(&mut bytes[8..], OPTION_MAGIC);
    BigEndian::write_u16(&mut bytes[16..], HandshakeFlags::greeting_word());
    bytes
}
