//! Who asks a disk.

ghost use Rattle.std.specs.Prelude.{◌≡◌, [], ◌∷◌, List, Option, IfSome, None};
ghost use Rattle.flash_host.specs.Exchanges.{Event, Asks, Hears, HostAdds};

use crate::request::{Answer, Request};

/// Who asks a disk, one request after another, and hears each answer. Source: own.
pub trait Host {
    // What was asked and heard so far, in order, where it is known; None claims nothing.
    ghost events: { Self → Option (List Event) };

    // Whether it has nothing more to ask.
    ghost ended: { Self → Type 0 };

    /// The next request, and for a `Write` its 512 bytes. None where there is none any more.
    fn next(&mut self, bytes: &mut [u8; 512]) -> Option<Request>
        ensures asks { IfSome result (λ request. HostAdds (events self.old) (events self.new)
            (Asks request bytes.new ∷ [])) }
        ensures ends { result ≡ None → ended self.new }
        ensures kept { result ≡ None → events self.new ≡ events self.old };

    /// The answer of the last request; of a `Read` that is done the bytes are the sector's.
    fn hear(&mut self, answer: &Answer, bytes: &[u8; 512])
        ensures { HostAdds (events self.old) (events self.new)
            (Hears answer.now bytes.now ∷ []) };
}
