//! Flags and options, cut out of the bytes of a connection.

ghost use Rattle.std.specs.Prelude.{◌≡◌, ◌+◌, ◌≤◌, ◌<◌, ◌++◌, ◌^◌, min, length, take, drop, List};
ghost use Rattle.std.specs.Prelude.{ℕ, [], Some, None};
ghost use Rattle.nbd_wire.specs.Units.{head_len, tail_len};
ghost use Rattle.nbd_wire.specs.Parser.{HoldsRest, ParserRepresents};
ghost use Rattle.nbd_wire.specs.declared.phase.Phase.{Phase};
ghost use Rattle.nbd_handshake.specs.Negotiating.{IsNegotiation, IsNegotiationOver};
ghost use Rattle.nbd_handshake.specs.Parser.{HandshakeAdvances, HandshakeAnswers, Leads};

use crate::asked::AskedName;
use crate::front::absorb;
use crate::replies::MAX_REPLY_LEN;
use crate::units::{complete, head_len, tail_len};
use nbd_wire::{Export, MAX_OPTION_LEN, OPTION_LEN, Phase};
use std::marker::Model;

/// How many bytes of an option are kept at most: its head, and as much data as is looked at.
pub const KEPT_LEN: usize = OPTION_LEN + MAX_OPTION_LEN as usize;

/// What a call took of the bytes that it was given, and what it wrote.
#[derive(Clone, Copy, PartialEq, Eq, Debug)]
pub struct HandshakeTaken {
    /// How many bytes were used.
    pub used: usize,
    /// How many bytes of the reply were written; 0 where there is none.
    pub reply: usize,
    /// The phase behind the unit that the bytes completed; None where it isn't complete.
    pub next: Option<Phase>,
    /// The name that this unit asks for, where no export has it: of INFO and GO.
    pub unknown: Option<AskedName>,
}

/// Cuts the bytes of a negotiation into flags and options, and answers them.
#[derive(Drop)]
pub struct Handshake {
    export: Export,
    phase: Phase,
    kept: [u8; KEPT_LEN],
    count: u64,
}

impl Model for Handshake {
    ghost use Rattle.std.specs.Prelude.{◌≡◌, ◌+◌, ◌<◌, ◌≤◌, ◌^◌, take, min};
    ghost use Rattle.nbd_wire.specs.Units.{head_len, tail_len};
    ghost use Rattle.nbd_wire.specs.Parser.{ParserState};
    ghost use Rattle.nbd_handshake.specs.declared.handshake.TheConstants.{KEPT_LEN};
    ghost use Rattle.nbd_handshake.specs.Negotiating.{IsNegotiation};

    ghost Value = { ParserState };

    ghost view = { λ h. record {
      export = h.export;
      phase = h.phase;
      kept = take
          (min h.count KEPT_LEN) h.kept;
      count = h.count;
    } };

    ghost invariant = { λ h. (h.count < 2 ^ 33)
        × (IsNegotiation h.phase → head_len h.phase ≤ h.count
        → h.count < head_len h.phase + tail_len h.phase h.kept) };
}

impl Handshake {
    /// A negotiation for this export, whose next byte is the first of the client's
    /// flags.
    pub fn new(export: Export) -> Handshake
        ensures exact { result ≡ record
            { export = export; phase = Phase.AwaitingFlags; kept = []; count = 0 } }
        ensures keeps { HoldsRest KEPT_LEN result [] }
        // It represents the text without bytes.
        ensures represents { ParserRepresents KEPT_LEN Phase.AwaitingFlags result [] }
    {
        Handshake {
            export,
            phase: Phase::AwaitingFlags,
            kept: [0; KEPT_LEN],
            count: 0,
        }
    }

    /// Takes bytes of at most one unit, and writes its reply at the front of `reply`. A negotiation
    /// that is over uses no bytes and answers its phase.
    pub fn take(&mut self, bytes: &[u8], reply: &mut [u8]) -> HandshakeTaken
        requires { MAX_REPLY_LEN ≤ length reply.old }
        ensures used { result.used ≤ length bytes.now }
        ensures reply { result.reply ≤ MAX_REPLY_LEN }
        ensures rest { drop result.reply reply.new ≡ drop result.reply reply.old }
        ensures more { result.next ≡ None
            → (result.used ≡ length bytes.now) × (result.reply ≡ 0) }
        ensures progress { IsNegotiation self.old.phase → 0 < length bytes.now → 0 < result.used }
        ensures over { IsNegotiationOver self.old.phase
            → (self.new ≡ self.old) × (result
            ≡ record { used = 0; reply = 0; next = Some self.old.phase; unknown = None }) }
        ensures export { self.new.export ≡ self.old.export }
        ensures phase { Leads self.old.phase result.next self.new.phase }
        // Of the unit begun: what the bytes used make of it.
        ensures step { (rest : List ℕ) → IsNegotiation self.old.phase
            → HoldsRest KEPT_LEN self.old rest
            → HandshakeAdvances self.old (rest ++ take result.used bytes.now) result.next
            (take result.reply reply.new) result.unknown self.new }

        // Of each text that the negotiation represents: the answer is that of the next unit of this
        // text and the bytes used,
        ensures answer { (start : Phase) (text : List ℕ) → IsNegotiation self.old.phase
            → ParserRepresents KEPT_LEN start self.old text
            → HandshakeAnswers start self.old.export self.old.phase text
            (text ++ take result.used bytes.now) result.next (take result.reply reply.new) }
        // and the negotiation then represents the longer text.
        ensures represents { (start : Phase) (text : List ℕ)
            → ParserRepresents KEPT_LEN start self.old text
            → ParserRepresents KEPT_LEN start self.new (text ++ take result.used bytes.now) }
    {
        let Some(head) = head_len(self.phase) else {
            return HandshakeTaken {
                used: 0,
                reply: 0,
                next: Some(self.phase),
                unknown: None,
            };
        };
        self.advance(head, bytes, reply)
    }

    /// Takes bytes of the unit begun, whose head has so many bytes.
    fn advance(&mut self, head: u64, bytes: &[u8], reply: &mut [u8]) -> HandshakeTaken
        requires phase { IsNegotiation self.old.phase }
        requires head { head ≡ head_len self.old.phase }
        requires room { MAX_REPLY_LEN ≤ length reply.old }
        ensures used { result.used ≤ length bytes.now }
        ensures reply { result.reply ≤ MAX_REPLY_LEN }
        ensures rest { drop result.reply reply.new ≡ drop result.reply reply.old }
        ensures more { result.next ≡ None
            → (result.used ≡ length bytes.now) × (result.reply ≡ 0) }
        ensures progress { 0 < length bytes.now → 0 < result.used }
        ensures export { self.new.export ≡ self.old.export }
        ensures phase { Leads self.old.phase result.next self.new.phase }
        ensures step { (rest : List ℕ) → HoldsRest KEPT_LEN self.old rest
            → HandshakeAdvances self.old (rest ++ take result.used bytes.now) result.next
            (take result.reply reply.new) result.unknown self.new }
    {
        let first = head.saturating_sub(self.count).min(bytes.len() as u64) as usize;
        absorb(&mut self.kept, self.count, &bytes[..first]);
        let count = self.count + first as u64;
        if count < head {
            self.count = count;
            return HandshakeTaken {
                used: first,
                reply: 0,
                next: None,
                unknown: None,
            };
        }
        let total = head + tail_len(self.phase, &self.kept);
        let second = total
            .saturating_sub(count)
            .min((bytes.len() - first) as u64) as usize;
        absorb(&mut self.kept, count, &bytes[first..first + second]);
        let count = count + second as u64;
        let used = first + second;
        if count < total {
            self.count = count;
            return HandshakeTaken {
                used,
                reply: 0,
                next: None,
                unknown: None,
            };
        }
        let unit = total.min(KEPT_LEN as u64) as usize;
        let answer = complete(self.phase, &self.kept[..unit], self.export, reply);
        self.phase = answer.phase;
        self.count = 0;
        HandshakeTaken {
            used,
            reply: answer.reply,
            next: Some(answer.phase),
            unknown: answer.unknown,
        }
    }
}
