//! Frames to a chip outside of the program.

ghost use Rattle.std.specs.Prelude.{◌≡◌, [], ◌∷◌, List, Option, OnOk, map};
ghost use Rattle.chip_model.specs.Exchanges.{Exchange, Exchanged, sends_of, sizes_of, turned};

/// The frame wasn't exchanged, or nobody knows whether it was.
#[derive(Clone, Copy, Debug, PartialEq, Eq, Drop)]
pub struct NoAnswer;

/// One frame: all bytes of `send` are sent, then `recv` is filled with what the chip answers.
#[derive(Debug, PartialEq, Eq, Drop)]
pub struct Turn {
    pub send: Vec<u8>,
    pub recv: Vec<u8>,
}

/// A programmer with one chip behind it.
pub trait Programmer {
    // The frames that were exchanged so far, where they are known; None claims nothing.
    ghost exchanged: { Self → Option (List Exchange) };

    /// One frame: sends all bytes of `send`, then fills `recv` with what the chip answers.
    ///
    /// After `NoAnswer` nothing is said of `recv`, and the caller has to `reopen`.
    fn exchange(&mut self, send: &[u8], recv: &mut [u8]) -> Result<(), NoAnswer>
        ensures { OnOk result (Exchanged (exchanged self.old) (exchanged self.new)
            (record { sent = send.now; received = recv.new } ∷ [])) };

    /// Frames, one after another, as by so many calls of `exchange`. A programmer may send the next
    /// before the last is answered; the answers are taken in order.
    ///
    /// After `NoAnswer` nobody knows how many were exchanged, and the caller has to `reopen`.
    fn exchange_all(&mut self, turns: &mut [Turn]) -> Result<(), NoAnswer>
        ensures exchanged { OnOk result (Exchanged (exchanged self.old) (exchanged self.new)
            (turned turns.new)) }
        ensures sends { sends_of turns.new ≡ sends_of turns.old }
        ensures sizes { sizes_of turns.new ≡ sizes_of turns.old }
    {
        for turn in turns.iter_mut() {
            self.exchange(&turn.send, &mut turn.recv)?;
        }
        Ok(())
    }

    /// Reaches the chip anew, and answers whether that went well. It exchanges no frame.
    fn reopen(&mut self) -> bool
        ensures { exchanged self.new ≡ exchanged self.old };
}
