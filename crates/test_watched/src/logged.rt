//! A programmer that keeps its frames.

ghost use Rattle.std.specs.Prelude.{◌≡◌, [], ◌∷◌, ◌++◌, OnOk, Some};
ghost use Rattle.chip_model.specs.Exchanges.{Exchange};
ghost use Rattle.test_watched.specs.Logged.{frames_of};

use chip_model::{NoAnswer, Programmer};
use std::alloc::{AllocError, Global};

/// A frame that was exchanged: what was sent, and what was received.
#[derive(Drop)]
pub struct LoggedFrame {
    sent: Vec<u8>,
    received: Vec<u8>,
}

/// A programmer that keeps each frame that was exchanged through it. So its `exchanged` is known,
/// whether the programmer behind it tells its frames or not.
#[derive(Drop)]
pub struct LoggedProgrammer<P> {
    programmer: P,
    frames: Vec<LoggedFrame>,
    alloc: Global,
}

impl<P> LoggedProgrammer<P> {
    /// A programmer through which no frame was exchanged yet.
    pub fn new(alloc: Global, programmer: P) -> LoggedProgrammer<P>
        ensures { frames_of result ≡ [] }
    {
        LoggedProgrammer {
            programmer,
            frames: Vec::new(alloc),
            alloc,
        }
    }

    /// Keeps a frame.
    fn keep(&mut self, send: &[u8], recv: &[u8]) -> Result<(), AllocError>
        ensures { OnOk result (frames_of self.new ≡ frames_of self.old
            ++ (record { sent = send.now; received = recv.now } ∷ [])) }
    {
        let sent = send.to_vec(self.alloc)?;
        let received = recv.to_vec(self.alloc)?;
        self.frames.push(LoggedFrame { sent, received })?;
        Ok(())
    }
}

impl<P: Programmer> Programmer for LoggedProgrammer<P> {
    ghost exchanged = { λ p. Some (frames_of p) };

    /// `NoAnswer` also where there is no memory for the frame.
    fn exchange(&mut self, send: &[u8], recv: &mut [u8]) -> Result<(), NoAnswer> {
        match self.programmer.exchange(send, recv) {
            Ok(()) => {}
            Err(NoAnswer) => return Err(NoAnswer),
        }
        match self.keep(send, recv) {
            Ok(()) => Ok(()),
            Err(_) => Err(NoAnswer),
        }
    }

    fn reopen(&mut self) -> bool {
        self.programmer.reopen()
    }
}
