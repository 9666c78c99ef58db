//! The replies to options.

ghost use Rattle.std.specs.Prelude.{◌≡◌, ◌≤◌, length, take, drop};
ghost use Rattle.nbd_wire.specs.Options.{reply_in_case, size_bytes, server_content, export_content};
ghost use Rattle.nbd_wire.specs.Options.{block_size_content};

use byteorder::{BigEndian, ByteOrder};
use nbd_wire::{
    EXPORT_NAME, EXPORT_NAME_ANSWER_LEN, EXPORT_NAME_ZEROES_LEN, Export, INFO_BLOCK_SIZE,
    INFO_BLOCK_SIZE_LEN, INFO_EXPORT, INFO_EXPORT_LEN, MINIMUM_BLOCK_LEN, OptionCase,
    PREFERRED_BLOCK_LEN, REP_ACK, REP_ERR_INVALID, REP_ERR_TOO_BIG, REP_ERR_UNKNOWN, REP_ERR_UNSUP,
    REP_INFO, REP_SERVER, TransmissionFlags, put, write_option_reply,
};

/// The length of the longest reply in bytes: that to EXPORT_NAME, with its zeroes.
pub const MAX_REPLY_LEN: usize = EXPORT_NAME_ANSWER_LEN + EXPORT_NAME_ZEROES_LEN;

/// Writes the reply to an option at the front of `reply`, and answers its length. What stands
/// behind it stays.
#[tactic(auto, unfolding(nbd_wire::specs::Options::reply_in_case))]
pub(crate) fn write_case(
    case: OptionCase,
    option: u32,
    no_zeroes: bool,
    export: Export,
    reply: &mut [u8],
) -> usize
    requires { MAX_REPLY_LEN ≤ length reply.old }
    ensures len { result ≤ MAX_REPLY_LEN }
    ensures bytes { take result reply.new ≡ reply_in_case case option no_zeroes export }
    ensures rest { drop result reply.new ≡ drop result reply.old }
{
    match case {
        OptionCase::Export => {
            let end = put(reply, 0, &size_bytes(export));
            if no_zeroes {
                end
            } else {
                put(reply, end, &[0; EXPORT_NAME_ZEROES_LEN])
            }
        }
        OptionCase::NoExport => 0,
        OptionCase::Abort => write_option_reply(reply, 0, option, REP_ACK, &[]),
        OptionCase::Listed => {
            let end = write_option_reply(reply, 0, option, REP_SERVER, &server_content());
            write_option_reply(reply, end, option, REP_ACK, &[])
        }
        OptionCase::Described => {
            let end = write_option_reply(reply, 0, option, REP_INFO, &export_content(export));
            let sizes = block_size_content(export.told_len);
            let end = write_option_reply(reply, end, option, REP_INFO, &sizes);
            write_option_reply(reply, end, option, REP_ACK, &[])
        }
        OptionCase::TooBig => write_option_reply(reply, 0, option, REP_ERR_TOO_BIG, &[]),
        OptionCase::Invalid => write_option_reply(reply, 0, option, REP_ERR_INVALID, &[]),
        OptionCase::UnknownName => write_option_reply(reply, 0, option, REP_ERR_UNKNOWN, &[]),
        OptionCase::Unsupported => write_option_reply(reply, 0, option, REP_ERR_UNSUP, &[]),
    }
}

/// The size of the disk in bytes, and the transmission flags.
fn size_bytes(export: Export) -> [u8; EXPORT_NAME_ANSWER_LEN]
    ensures { result ≡ size_bytes export }
{
    let mut bytes = [0; EXPORT_NAME_ANSWER_LEN];
    BigEndian::write_u64(
        &mut bytes,
        u64::from(MINIMUM_BLOCK_LEN) * u64::from(export.sectors),
    );
    BigEndian::write_u16(
        &mut bytes[8..],
        TransmissionFlags::served_word(export.read_only),
    );
    bytes
}

/// The length of the export's name and the name: the content of the reply to LIST.
fn server_content() -> [u8; 9]
    ensures { result ≡ server_content }
{
    let mut content = [0; 9];
    BigEndian::write_u32(&mut content, EXPORT_NAME.len() as u32);
    content[4..].copy_from_slice(EXPORT_NAME);
    content
}

/// The content of INFO_EXPORT: its type, the size of the disk in bytes, the transmission flags.
fn export_content(export: Export) -> [u8; INFO_EXPORT_LEN]
    ensures { result ≡ export_content export }
{
    let mut content = [0; INFO_EXPORT_LEN];
    BigEndian::write_u16(&mut content, INFO_EXPORT);
    content[2..].copy_from_slice(&size_bytes(export));
    content
}

/// The content of INFO_BLOCK_SIZE: its type, the smallest, the preferred and the largest length of
/// a command in bytes.
fn block_size_content(told_len: u32) -> [u8; INFO_BLOCK_SIZE_LEN]
    ensures { result ≡ block_size_content told_len }
{
    let mut content = [0; INFO_BLOCK_SIZE_LEN];
    BigEndian::write_u16(&mut content, INFO_BLOCK_SIZE);
    BigEndian::write_u32(&mut content[2..], MINIMUM_BLOCK_LEN);
    BigEndian::write_u32(&mut content[6..], PREFERRED_BLOCK_LEN);
    BigEndian::write_u32(&mut content[10..], told_len);
    content
}
