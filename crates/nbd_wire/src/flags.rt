//! The flag words of the protocol, as sets of named bits.
//!
//! A set keeps every bit that it was given: a bit without a name here is one that this server
//! doesn't know.

ghost use Rattle.std.specs.Prelude.{⊤, ◌≡◌, ◌==◌, if◌then◌else◌, None, Some, false, true, [], ◌∷◌};
ghost use Rattle.std.specs.Prelude.{codes};
ghost use Rattle.nbd_wire.specs.Options.{transmission_flags};

use crate::constants::GREETING_FLAGS;
use bitflags::{Flag, Flags, bitflag_items};

/// The flags of a command: 16 bits of a request's head. Source: NBD proto.md.
///
/// Bit 0, FUA: what is written is on the chip before the reply. Bit 1, NO_HOLE: of WRITE_ZEROES,
/// room for the range is to be kept, which is always so.
#[derive(Clone, Copy, PartialEq, Eq, Debug)]
pub struct CommandFlags(u16);

bitflag_items! {
    impl CommandFlags: u16 {
        const FUA = 1;
        const NO_HOLE = 2;
    }
}

impl Flags for CommandFlags {
    type Bits = u16;

    ghost exact = { ⊤ };

    ghost table = { (codes "FUA", 1) ∷ (codes "NO_HOLE", 2) ∷ [] };

    ghost set_of = { λ p. p.0 };

    fn flags<'a>() -> &'a [Flag<CommandFlags>] {
        CommandFlags::FLAGS
    }

    fn bits(&self) -> u16 {
        self.0
    }

    fn from_bits_retain(bits: u16) -> CommandFlags {
        CommandFlags(bits)
    }
}

/// The flags of the negotiation, of the server in its greeting (16 bits) and of the client (32
/// bits). Source: NBD proto.md.
///
/// Bit 0, FIXED_NEWSTYLE: options that are not known are answered. Bit 1, NO_ZEROES: the answer to
/// EXPORT_NAME ends without zeroes.
#[derive(Clone, Copy, PartialEq, Eq, Debug)]
pub struct HandshakeFlags(u32);

bitflag_items! {
    impl HandshakeFlags: u32 {
        const FIXED_NEWSTYLE = 1;
        const NO_ZEROES = 2;
    }
}

impl Flags for HandshakeFlags {
    type Bits = u32;

    ghost exact = { ⊤ };

    ghost table = { (codes "FIXED_NEWSTYLE", 1) ∷ (codes "NO_ZEROES", 2) ∷ [] };

    ghost set_of = { λ p. p.0 };

    fn flags<'a>() -> &'a [Flag<HandshakeFlags>] {
        HandshakeFlags::FLAGS
    }

    fn bits(&self) -> u32 {
        self.0
    }

    fn from_bits_retain(bits: u32) -> HandshakeFlags {
        HandshakeFlags(bits)
    }
}

impl HandshakeFlags {
    /// The word that the server offers in its greeting: both flags.
    pub fn greeting_word() -> u16
        ensures { result ≡ GREETING_FLAGS }
    {
        HandshakeFlags::FIXED_NEWSTYLE
            .union(HandshakeFlags::NO_ZEROES)
            .0 as u16
    }

    /// Of a client's word: whether it set NO_ZEROES beside FIXED_NEWSTYLE; `None` where it set any
    /// others, or not the latter.
    pub fn no_zeroes_of(word: u32) -> Option<bool>
        ensures { result ≡ (if word == 1 then Some false else if word == 3 then Some true
            else None) }
    {
        let set = HandshakeFlags::from_bits_retain(word);
        let both = HandshakeFlags::FIXED_NEWSTYLE.union(HandshakeFlags::NO_ZEROES);
        if set == HandshakeFlags::FIXED_NEWSTYLE {
            Some(false)
        } else if set == both {
            Some(true)
        } else {
            None
        }
    }
}

/// The transmission flags, which tell the client what the server serves: 16 bits. Source: NBD
/// proto.md.
///
/// Bit 0, HAS_FLAGS: always set. Bit 1, READ_ONLY: the disk can't be changed. Bits 2, 3, 5 and 6:
/// FLUSH, FUA, TRIM and WRITE_ZEROES may be sent. Bit 8, CAN_MULTI_CONN: what one connection wrote
/// and flushed is seen by all.
#[derive(Clone, Copy, PartialEq, Eq, Debug)]
pub struct TransmissionFlags(u16);

bitflag_items! {
    impl TransmissionFlags: u16 {
        const HAS_FLAGS = 0x0001;
        const READ_ONLY = 0x0002;
        const SEND_FLUSH = 0x0004;
        const SEND_FUA = 0x0008;
        const SEND_TRIM = 0x0020;
        const SEND_WRITE_ZEROES = 0x0040;
        const CAN_MULTI_CONN = 0x0100;
    }
}

impl Flags for TransmissionFlags {
    type Bits = u16;

    ghost exact = { ⊤ };

    ghost table = { (codes "HAS_FLAGS", 0x0001) ∷ (codes "READ_ONLY", 0x0002)
        ∷ (codes "SEND_FLUSH", 0x0004) ∷ (codes "SEND_FUA", 0x0008) ∷ (codes "SEND_TRIM", 0x0020)
        ∷ (codes "SEND_WRITE_ZEROES", 0x0040) ∷ (codes "CAN_MULTI_CONN", 0x0100) ∷ [] };

    ghost set_of = { λ p. p.0 };

    fn flags<'a>() -> &'a [Flag<TransmissionFlags>] {
        TransmissionFlags::FLAGS
    }

    fn bits(&self) -> u16 {
        self.0
    }

    fn from_bits_retain(bits: u16) -> TransmissionFlags {
        TransmissionFlags(bits)
    }
}

impl TransmissionFlags {
    /// The word that tells what this server serves: FLUSH and FUA, over several connections, and
    /// TRIM and WRITE_ZEROES where the export isn't read-only.
    pub fn served_word(read_only: bool) -> u16
        ensures { result ≡ transmission_flags read_only }
    {
        let always = TransmissionFlags::HAS_FLAGS
            .union(TransmissionFlags::SEND_FLUSH)
            .union(TransmissionFlags::SEND_FUA)
            .union(TransmissionFlags::CAN_MULTI_CONN);
        if read_only {
            always.union(TransmissionFlags::READ_ONLY).0
        } else {
            always
                .union(TransmissionFlags::SEND_TRIM)
                .union(TransmissionFlags::SEND_WRITE_ZEROES)
                .0
        }
    }
}
