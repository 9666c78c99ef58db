//! The peer of a connection at a station.

use crate::entries::{tell, tell_answer};
use block_device::{Disk, DiskError, Sink};
use nbd_connection::{Fate, Peer, run};
use nbd_wire::{Command, EIO, Export};

/// A disk that runs a connection's commands, and the output to which the records of its replies go.
#[derive(Drop)]
pub(crate) struct Responder<'d, 'w, D: Disk, W: Sink> {
    pub(crate) disk: &'d mut D,
    pub(crate) out: &'w mut W,
    /// The connection's number.
    pub(crate) who: u8,
    pub(crate) export: Export,
}

impl<'d, 'w, D: Disk, W: Sink> Peer for Responder<'d, 'w, D, W> {
    ghost use Rattle.std.specs.Prelude.{◌≡◌, ◌*◌, length};
    ghost use Rattle.nbd_station.specs.Responding.{PostAnswers, PostTells, post};

    ghost export = { λ p. p.export };

    ghost fits = { λ p. length (D.facts p.disk.now).contents ≡ 512 * p.export.sectors };

    ghost answers = { λ a b command bytes fate. (b.disk.ghost_name ≡ a.disk.ghost_name)
        × (b.out.ghost_name ≡ a.out.ghost_name)
        × PostAnswers
        (post a.who a.export (D.facts a.disk.now) (W.written a.out.now) (W.faults a.out.now))
        (post b.who b.export (D.facts b.disk.now) (W.written b.out.now) (W.faults b.out.now))
        command bytes fate };

    ghost tells = { λ a b reply taken. (b.disk.ghost_name ≡ a.disk.ghost_name)
        × (b.out.ghost_name ≡ a.out.ghost_name)
        × PostTells
        (post a.who a.export (D.facts a.disk.now) (W.written a.out.now) (W.faults a.out.now))
        (post b.who b.export (D.facts b.disk.now) (W.written b.out.now) (W.faults b.out.now))
        reply taken };

    fn answer(&mut self, command: &Command, lent: &mut [u8]) -> Fate {
        match run(self.disk, command, self.export, lent) {
            Ok(()) => match tell_answer(self.out, self.who, command, 0, lent) {
                Ok(()) => Fate::Replied,
                Err(_) => Fate::Untaken,
            },
            Err(DiskError::Slow) => match tell_answer(self.out, self.who, command, EIO, lent) {
                Ok(()) => Fate::Replied,
                Err(_) => Fate::Untaken,
            },
            Err(DiskError::Cut) => Fate::Lost,
        }
    }

    fn tell(&mut self, reply: &[u8]) -> bool {
        match tell(self.out, self.who, reply) {
            Ok(()) => true,
            Err(_) => false,
        }
    }
}
