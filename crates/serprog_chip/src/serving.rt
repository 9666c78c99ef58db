//! Commands of a stream, one after another.

ghost use Rattle.std.specs.Prelude.{◌≡◌, OnOk};
ghost use Rattle.serprog_chip.specs.Answering.{Serves};

use crate::answering::{Trouble, answer};
use crate::request::read_request;
use block_device::{Sink, Source, send};
use chip_model::{PowerLost, SpiBus};
use std::alloc::Global;

/// Room for the bytes of a command and of its answer, taken as they come.
#[derive(Drop)]
pub struct Room {
    sent: Vec<u8>,
    told: Vec<u8>,
}

impl Room {
    /// Room that has taken no memory yet.
    pub fn new(alloc: Global) -> Room {
        Room {
            sent: Vec::new(alloc),
            told: Vec::new(alloc),
        }
    }
}

/// Takes one command off a stream, does it on a bus, and writes its answer.
pub fn serve_command<I: Source, O: Sink, B: SpiBus>(
    source: &mut I,
    sink: &mut O,
    bus: &mut B,
    room: &mut Room,
) -> Result<(), Trouble>
    ensures { OnOk result (Serves (B.chip bus.old) (I.remaining source.old)
        (I.remaining source.new) (O.written sink.old) (O.written sink.new) (B.chip bus.new)) }
{
    let Room { sent, told } = room;
    let request = match read_request(source, sent) {
        Ok(request) => request,
        Err(trouble) => return Err(trouble),
    };
    answer(bus, &request, told)?;
    match send(sink, told.as_slice()) {
        Ok(()) => Ok(()),
        Err(_) => Err(Trouble::Unsent),
    }
}

/// How often the status of an operation is read at most that a client left in progress.
const MOST_READS: u32 = 65_535;

/// Reads the status until what a client before has left in progress has completed: the next one
/// would find no chip, since a busy one answers no id.
fn settle<B: SpiBus>(bus: &mut B) -> Result<(), PowerLost> {
    let mut status = [0u8; 1];
    for _ in 0..MOST_READS {
        bus.transact(&[0x05], &mut status)?;
        if status[0] % 2 == 0 {
            return Ok(());
        }
    }
    Ok(())
}

/// Serves the commands of a stream until one has no answer, and tells why. Before the first it is
/// waited for what is in progress.
pub fn attend<I: Source, O: Sink, B: SpiBus>(
    source: &mut I,
    sink: &mut O,
    bus: &mut B,
    room: &mut Room,
) -> Trouble {
    if settle(bus).is_err() {
        return Trouble::PowerLost;
    }
    for _ in 0..u64::MAX {
        if let Err(trouble) = serve_command(source, sink, bus, room) {
            return trouble;
        }
    }
    Trouble::Ended
}
