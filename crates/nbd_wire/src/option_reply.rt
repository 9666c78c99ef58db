//! Replies to options.

ghost use Rattle.std.specs.Prelude.{◌≡◌, ◌≤◌, ◌<◌, ◌+◌, ◌^◌, ◌++◌, length, take, drop};
ghost use Rattle.nbd_wire.specs.Options.{option_reply_head, option_reply_bytes};

use crate::buffer::put;
use crate::constants::{OPTION_REPLY_LEN, OPTION_REPLY_MAGIC};
use byteorder::{BigEndian, ByteOrder};

/// Writes a reply to an option, with its content, from `at` on, and answers where it ends. The
/// bytes before and behind it stay. Source: NBD proto.md.
pub fn write_option_reply(
    out: &mut [u8],
    at: usize,
    option: u32,
    reply_type: u32,
    content: &[u8],
) -> usize
    requires room { at + OPTION_REPLY_LEN + length content.now ≤ length out.old }
    requires fits { length content.now < 2 ^ 32 }
    ensures end { result ≡ at + OPTION_REPLY_LEN + length content.now }
    ensures bytes { take result out.new
        ≡ take at out.old ++ option_reply_bytes option reply_type content.now }
    ensures rest { drop result out.new ≡ drop result out.old }
{
    let head = option_reply_head(option, reply_type, content.len() as u32);
    let end = put(out, at, &head);
    put(out, end, content)
}

/// The head of a reply to an option, for so many bytes of content.
#[tactic(auto, unfolding(crate::specs::Options::option_reply_head))]
fn option_reply_head(option: u32, reply_type: u32, len: u32) -> [u8; OPTION_REPLY_LEN]
    ensures { result ≡ option_reply_head option reply_type len }
{
    let mut head = [0; OPTION_REPLY_LEN];
    BigEndian::write_u64(&mut head, OPTION_REPLY_MAGIC);
    BigEndian::write_u32(&mut head[8..], option);
    BigEndian::write_u32(&mut head[12..], reply_type);
    BigEndian::write_u32(&mut head[16..], len);
    head
}
