//! The units of a negotiation: the client's flags and options.

ghost use Rattle.std.specs.Prelude.{◌≡◌, ◌≤◌, ◌<◌, ◌^◌, length, take, drop, MatchOption};
ghost use Rattle.nbd_wire.specs.Units.{head_len, tail_len, after, after_flags};
ghost use Rattle.nbd_handshake.specs.Negotiating.{IsNegotiation, IsNegotiationOver};
ghost use Rattle.nbd_handshake.specs.Negotiating.{negotiation_reply};
ghost use Rattle.nbd_handshake.specs.Asked.{unknown_name, TellsUnknown};

use crate::asked::AskedName;
use crate::handshake::KEPT_LEN;
use crate::options::{case_of, phase_after, unknown_in};
use crate::replies::{MAX_REPLY_LEN, write_case};
use byteorder::{BigEndian, ByteOrder};
use nbd_wire::{
    CLIENT_FLAGS_LEN, Export, HandshakeFlags, MAX_OPTION_LEN, OPT_EXPORT_NAME, OPTION_LEN,
    OptionHead, Phase,
};

/// The length of a head in the negotiation, in bytes; none where it is over.
pub(crate) fn head_len(phase: Phase) -> Option<u64>
    ensures { MatchOption result (IsNegotiationOver phase)
        (λ n. (n ≡ head_len phase) × IsNegotiation phase) }
{
    match phase {
        Phase::AwaitingFlags => Some(CLIENT_FLAGS_LEN as u64),
        Phase::Negotiating(_) => Some(OPTION_LEN as u64),
        Phase::Transmitting => None,
        Phase::Closed => None,
    }
}

/// How many bytes follow a head.
pub(crate) fn tail_len(phase: Phase, kept: &[u8]) -> u64
    requires kept { OPTION_LEN ≤ length kept.now }
    requires phase { IsNegotiation phase }
    ensures value { result ≡ tail_len phase kept.now }
    ensures small { result < 2 ^ 32 }
{
    match phase {
        Phase::AwaitingFlags => 0,
        Phase::Negotiating(_) => match OptionHead::read(kept) {
            Some(head) if head.option != OPT_EXPORT_NAME || head.length <= MAX_OPTION_LEN => {
                u64::from(head.length)
            }
            _ => 0,
        },
        Phase::Transmitting => 0,
        Phase::Closed => 0,
    }
}

/// What stands after a complete unit, the length of its reply, and the name that it asks for, where
/// no export has it.
#[derive(Clone, Copy)]
pub(crate) struct Completed {
    pub(crate) reply: usize,
    pub(crate) phase: Phase,
    pub(crate) unknown: Option<AskedName>,
}

/// Answers a complete unit by what is kept of it, and writes the reply at the front of `reply`.
pub(crate) fn complete(phase: Phase, unit: &[u8], export: Export, reply: &mut [u8]) -> Completed
    requires phase { IsNegotiation phase }
    requires whole { head_len phase ≤ length unit.now }
    requires short { length unit.now ≤ KEPT_LEN }
    requires room { MAX_REPLY_LEN ≤ length reply.old }
    ensures len { result.reply ≤ MAX_REPLY_LEN }
    ensures phase { result.phase ≡ after phase unit.now }
    ensures reply { take result.reply reply.new ≡ negotiation_reply export phase unit.now }
    ensures unknown { TellsUnknown result.unknown (unknown_name phase unit.now) }
    ensures rest { drop result.reply reply.new ≡ drop result.reply reply.old }
{
    match phase {
        Phase::AwaitingFlags => Completed {
            reply: 0,
            phase: after_flags(BigEndian::read_u32(unit)),
            unknown: None,
        },
        Phase::Negotiating(no_zeroes) => match OptionHead::read(unit) {
            None => Completed {
                reply: 0,
                phase: Phase::Closed,
                unknown: None,
            },
            Some(head) => {
                let case = case_of(head, &unit[OPTION_LEN..]);
                let written = write_case(case, head.option, no_zeroes, export, reply);
                Completed {
                    reply: written,
                    phase: phase_after(case, head.option, no_zeroes),
                    unknown: unknown_in(case, &unit[OPTION_LEN..]),
                }
            }
        },
        Phase::Transmitting => Completed {
            reply: 0,
            phase: Phase::Closed,
            unknown: None,
        },
        Phase::Closed => Completed {
            reply: 0,
            phase: Phase::Closed,
            unknown: None,
        },
    }
}

/// The phase after the client's flags: FIXED_NEWSTYLE alone, or with NO_ZEROES; any others close.
fn after_flags(flags: u32) -> Phase
    ensures { result ≡ after_flags flags }
{
    match HandshakeFlags::no_zeroes_of(flags) {
        Some(no_zeroes) => Phase::Negotiating(no_zeroes),
        None => Phase::Closed,
    }
}
