//! A station.

ghost use Rattle.std.specs.Prelude.{◌≡◌, IfOk, vec_len};

use crate::event::{Event, NewError, RunError, ScriptError};
use crate::hub::Hub;
use crate::script::run_lines;
use block_device::{Disk, Sink, Source};
use std::alloc::Global;
use std::marker::Model;

/// The most bytes of one record of a script.
pub(crate) const PIECE_LEN: usize = 65_536;

/// Eight connections and one disk, and the buffer of a piece.
#[derive(Drop)]
pub struct Station<D: Disk> {
    hub: Hub<D>,
    piece: Vec<u8>,
}

impl<D: Disk> Model for Station<D> {
    ghost use Rattle.std.specs.Prelude.{◌≡◌, vec_len};
    ghost use Rattle.nbd_station.specs.StationState.{StationState};

    ghost Value = { StationState };

    ghost view = { λ s. s.hub };

    ghost invariant = { λ s. vec_len s.piece ≡ 65536 };
}

impl<D: Disk> Station<D> {
    ghost use Rattle.std.specs.Prelude.{◌≡◌, false, replicate, length, IfOk, IfErr, IsErrOf, OnOk};
    ghost use Rattle.std.specs.Prelude.{OnErr};
    ghost use Rattle.block_device.specs.Facts.{CountsNeverFall};
    ghost use Rattle.nbd_station.specs.StationState.{IsNew, memories};
    ghost use Rattle.nbd_station.specs.Running.{Ends, FailsOnly, Runs};
    ghost use Rattle.nbd_station.specs.Telling.{AllTold};
    ghost use Rattle.nbd_station.specs.Script.{FailsToReadAll, FailsToWrite, ScriptSays};

    /// A station of this disk, with every connection closed. Its eight sessions and the buffer of a
    /// piece (65,536 bytes) are made here, and no later call takes memory. `OutOfMemory` hands the
    /// disk back. Source: own.
    pub fn new(alloc: Global, disk: D) -> Result<Station<D>, (D, NewError)>
        ensures new { IfOk result (λ station. IsNew (D.facts disk) station) }
        ensures back { IfErr result (λ e. e.0 ≡ disk) }
    {
        let Ok(piece) = new_piece(alloc) else {
            return Err((disk, NewError::OutOfMemory));
        };
        match Hub::new(alloc, disk) {
            Ok(hub) => Ok(Station { hub, piece }),
            Err(disk) => Err((disk, NewError::OutOfMemory)),
        }
    }

    /// The disk, with the facts that it has.
    pub fn into_inner(self) -> D
        ensures { D.facts result ≡ self.disk }
    {
        self.hub.into_inner()
    }

    /// Answers events in order by records that it writes (docs/SCRIPT.md), and says how many events
    /// these were. Each reply is written before the next unit of the connection's bytes is looked
    /// at.
    ///
    /// `Output` where a write failed: the records taken are then a beginning of a transcript, and
    /// every connection is closed. What is said of the records is said of a sound disk and of a run
    /// in which no operation of it was slow; a READ or WRITE that meets a slow one is replied to
    /// with error 5 (EIO). Source: own; the replies are those of NBD proto.md.
    pub fn run<W: Sink>(&mut self, events: &[Event], out: &mut W) -> Result<usize, RunError>
        ensures number { IfOk result (λ n. n ≡ length events.now) }
        ensures goes { CountsNeverFall self.old.disk self.new.disk }
        // no buffer takes more memory
        ensures memory { memories self.new ≡ memories self.old }
        // it answers Output exactly where a write failed
        ensures faults { FailsOnly (W.faults out.old) result (W.faults out.new) }
        ensures says { OnOk result (Runs self.old self.new events.now (W.written out.old)
            (W.written out.new)) }
        // whatever disk it is: a Tidy and a Restore end by what stands in the disk then, and a Slow
        // is latched only where one did or came
        ensures tells { OnOk result (AllTold self.old events.now (W.written out.old)
            (W.written out.new) self.new) }
        ensures ends { OnErr result (Ends self.old self.new events.now (W.written out.old)
            (W.written out.new)) }
        ensures closed { OnErr result (self.new.is_open ≡ replicate 8 false) }
    {
        match self.hub.run(events, out) {
            Ok(n) => Ok(n),
            Err(_) => Err(RunError::Output),
        }
    }

    /// Runs a script: records of events, and of losses of power to be armed (docs/SCRIPT.md), up to
    /// the end of the input.
    ///
    /// `BadRecord` where no record of a script stands, or the input ends inside one; `Input` where
    /// a read failed, or where the script has no end in 2^64 - 1 records; `Output` where a write
    /// failed. The events before it have been run. Source: own.
    pub fn run_script<S: Source, W: Sink>(
        &mut self,
        reader: &mut S,
        writer: &mut W,
    ) -> Result<(), ScriptError>
        ensures goes { CountsNeverFall self.old.disk self.new.disk }
        // no buffer takes more memory
        ensures memory { memories self.new ≡ memories self.old }
        ensures says { ScriptSays self.old self.new (S.remaining reader.old) (W.written writer.old)
            result (S.remaining reader.new) (W.written writer.new) }
        // it answers Input exactly where a read failed or the input didn't end, and Output exactly
        // where a write failed
        ensures reads { FailsToReadAll (S.remaining reader.old) (S.faults reader.old) result
            (S.faults reader.new) }
        ensures writes { FailsToWrite (W.faults writer.old) result (W.faults writer.new) }
        ensures closed { IsErrOf result ScriptError.Output → self.new.is_open ≡ replicate 8 false }
    {
        run_lines(&mut self.hub, self.piece.as_mut_slice(), reader, writer)
    }
}

/// The buffer of a piece.
fn new_piece(alloc: Global) -> Result<Vec<u8>, NewError>
    ensures { IfOk result (λ bytes. vec_len bytes ≡ PIECE_LEN) }
{
    match vec![in alloc; 0u8; PIECE_LEN] {
        Ok(bytes) => Ok(bytes),
        Err(_) => Err(NewError::OutOfMemory),
    }
}
