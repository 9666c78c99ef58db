//! Pieces of the memory, read some at a time.

ghost use Rattle.std.specs.Prelude.{◌≡◌, ◌*◌, ◌+◌, ◌++◌, List, Option};
ghost use Rattle.std.specs.Prelude.{IfErr, IfSome, OnOk, length, true};
ghost use Rattle.chip_model.specs.Exchanges.{Exchange, Exchanged};
ghost use Rattle.chip_watch.specs.Opening.{RefusesAsRead};
ghost use Rattle.chip_watch.specs.Reading.{ArePieces, piece_reads, received_of};
ghost use Rattle.chip_watch.specs.Told.{frames_told};

use crate::change::with_place;
use crate::departure::OpenError;
use crate::wire::{Wire, turn};
use chip_model::{Programmer, Turn};
use std::alloc::Global;

/// The READs of so many pieces of 4 KiB that follow one another, where there is memory for them.
fn piece_turns(alloc: Global, first: u32, count: u32) -> Option<Vec<Turn>>
    ensures pieces { IfSome result (λ turns. ArePieces first turns.items) }
    ensures count { IfSome result (λ turns. length turns.items ≡ count) }
{
    let mut turns = Vec::new(alloc);
    for piece in 0..count {
        let place = 4_096 * (first as usize + piece as usize);
        let Some(turn) = turn(alloc, &with_place(0x03, place), 4_096) else {
            return None;
        };
        let Ok(()) = turns.push(turn) else {
            return None;
        };
    }
    Some(turns)
}

/// Puts what was received behind the memory, and whether there was memory for it.
fn put_pieces(memory: &mut Vec<u8>, answered: &[Turn]) -> bool
    ensures { result ≡ true
        → memory.new.items ≡ memory.old.items ++ received_of answered.now }
{
    for turn in answered.iter() {
        let Ok(()) = memory.extend_from_slice(&turn.recv) else {
            return false;
        };
    }
    true
}

/// Reads so many pieces more of a memory of which the first ones were read: each is asked for
/// before the first is answered.
pub fn read_pieces<P: Programmer>(
    alloc: Global,
    wire: &mut Wire<P>,
    memory: &mut Vec<u8>,
    first: u32,
    count: u32,
) -> Result<(), OpenError>
    requires before { length memory.old.items ≡ 4096 * first }
    ensures long { OnOk result (length memory.new.items ≡ 4096 * (first + count)) }
    ensures read { OnOk result ((begun : Option (List Exchange))
        → Exchanged begun (frames_told P.exchanged wire.old)
        (piece_reads memory.old.items 0 first)
        → Exchanged begun (frames_told P.exchanged wire.new)
        (piece_reads memory.new.items 0 (first + count))) }
    ensures refused { IfErr result RefusesAsRead }
{
    let Some(turns) = piece_turns(alloc, first, count) else {
        return Err(OpenError::OutOfMemory);
    };
    let Some(answered) = wire.exchange_turns(turns) else {
        return Err(OpenError::NoAnswer(0x03));
    };
    if put_pieces(memory, &answered) {
        Ok(())
    } else {
        Err(OpenError::OutOfMemory)
    }
}
