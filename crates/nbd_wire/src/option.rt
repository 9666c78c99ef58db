//! The head of an option, and the cases that the rules for options tell apart.

ghost use Rattle.std.specs.Prelude.{◌≡◌, ◌≤◌, length};
ghost use Rattle.nbd_wire.specs.Options.{option_at};

use crate::constants::{OPTION_LEN, OPTION_MAGIC};
use byteorder::{BigEndian, ByteOrder};

/// The head of an option. Source: NBD proto.md.
#[derive(Clone, Copy, PartialEq, Eq, Debug)]
pub struct OptionHead {
    /// The number of the option.
    pub option: u32,
    /// The length of the data that follows, in bytes.
    pub length: u32,
}

impl OptionHead {
    /// Reads an option's head, where its magic is right.
    #[tactic(auto, unfolding(crate::specs::Options::option_at))]
    pub fn read(bytes: &[u8]) -> Option<OptionHead>
        requires { OPTION_LEN ≤ length bytes.now }
        ensures { result ≡ option_at bytes.now }
    {
        if BigEndian::read_u64(bytes) != OPTION_MAGIC {
            return None;
        }
        Some(OptionHead {
            option: BigEndian::read_u32(&bytes[8..]),
            length: BigEndian::read_u32(&bytes[12..]),
        })
    }
}

/// The cases of options, each of which has one form of answer. Source: NBD proto.md; the limit of
/// 8,192 bytes is own.
#[derive(Clone, Copy, PartialEq, Eq, Debug)]
pub enum OptionCase {
    /// EXPORT_NAME with a known name.
    Export,
    /// EXPORT_NAME with another name, or with one above 8,192 bytes.
    NoExport,
    /// ABORT.
    Abort,
    /// LIST without data.
    Listed,
    /// INFO or GO with a known name.
    Described,
    /// Any option but EXPORT_NAME with data above 8,192 bytes.
    TooBig,
    /// LIST with data, INFO or GO whose lengths don't add up.
    Invalid,
    /// INFO or GO with another name.
    UnknownName,
    /// Any other option.
    Unsupported,
}
