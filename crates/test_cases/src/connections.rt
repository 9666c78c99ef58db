//! A station: connections over a disk on a chip, and what is answered to their bytes.

ghost use Rattle.std.specs.Prelude.{◌≡◌, ◌<◌};

use crate::came::Came;
use crate::chip::{Loss, loss_of};
use crate::disk::OnDisk;
use crate::fault::Fault;
use crate::names::Names;
use crate::words::Words;
use block_device::{FixedIn, FixedOut};
use nbd_station::{Event, RunError, ScriptError, Station};
use std::alloc::Global;
use std::marker::Brand;
use std::sync::ledger::{Blank, Ledger};

/// A station over the disk on a simulated chip.
pub(crate) type OnStation = Station<OnDisk>;

/// Runs an event: how many bytes of the room its records take, or None where they find none.
fn answered<L: Ledger>(
    station: &mut OnStation,
    event: Event,
    room: &mut [u8],
    blank: Blank,
) -> Option<usize>
    requires name { blank.name ≡ L.name }
    requires parts { blank.parts ≡ L.parts }
    requires some { 0 < L.parts }
{
    let mut out = FixedOut::<L>::new(room, blank);
    match station.run(&[event], &mut out) {
        Ok(_) => Some(out.bytes().len()),
        Err(RunError::Output) => None,
    }
}

/// Runs an event, in room for so many bytes: its records.
fn event(
    alloc: Global,
    station: &mut OnStation,
    event: Event,
    who: u8,
    room: usize,
) -> Result<Came, Fault> {
    let mut out = vec![in alloc; 0u8; room]?;
    match answered::<Brand>(station, event, out.as_mut_slice(), Blank::new(1)) {
        Some(len) => {
            out.truncate(len);
            Ok(Came::Records(who, out))
        }
        None => Ok(Came::Said("output failed")),
    }
}

/// Runs a script: how it ends, and how many bytes of the room its transcript takes.
fn ended<L: Ledger>(
    station: &mut OnStation,
    script: &[u8],
    room: &mut [u8],
    blank: Blank,
) -> (Result<(), ScriptError>, usize)
    requires name { blank.name ≡ L.name }
    requires parts { blank.parts ≡ L.parts }
    requires some { 0 < L.parts }
{
    let mut out = FixedOut::<L>::new(room, blank);
    let end = station.run_script(&mut FixedIn::new(script), &mut out);
    (end, out.bytes().len())
}

/// Runs a script, in room for so many bytes: how it ends, and its transcript.
fn script(
    alloc: Global,
    station: &mut OnStation,
    script: &[u8],
    room: usize,
) -> Result<Came, Fault> {
    let mut out = vec![in alloc; 0u8; room]?;
    let (end, len) = ended::<Brand>(station, script, out.as_mut_slice(), Blank::new(1));
    out.truncate(len);
    let word = match end {
        Ok(()) => "ok",
        Err(ScriptError::Input) => "input failed",
        Err(ScriptError::BadRecord) => "bad record",
        Err(ScriptError::Output) => "output failed",
    };
    Ok(Came::Ended(word, out))
}

/// Arms a loss of power, by the record of a script that does so.
pub(crate) fn arm(alloc: Global, station: &mut OnStation, loss: Loss) -> Result<(), Fault> {
    let [a, b, c, d] = loss.count.to_be_bytes();
    let record = [0x43, 0xFF, 0, 0, 0, 6, a, b, c, d, loss.kind, loss.mask];
    let _came = script(alloc, station, &record, 64)?;
    Ok(())
}

/// An event of the connection of a number.
fn on_connection(
    alloc: Global,
    names: &Names,
    station: &mut OnStation,
    verb: &str,
    mut words: Words,
    room: usize,
) -> Result<Came, Fault> {
    let who = words.small()?;
    if verb == "piece" {
        let bytes = names.bytes_of(alloc, words.all())?;
        return event(
            alloc,
            station,
            Event::Piece(who, bytes.as_slice()),
            who,
            room,
        );
    }
    words.end()?;
    if verb == "open" {
        return event(alloc, station, Event::Open(who), who, room);
    }
    event(alloc, station, Event::Gone(who), who, room)
}

/// A line of a station, whose records find room for so many bytes.
pub(crate) fn run(
    alloc: Global,
    names: &Names,
    station: &mut OnStation,
    verb: &str,
    mut words: Words,
    room: usize,
) -> Result<Came, Fault> {
    match verb {
        "open" | "gone" | "piece" => on_connection(alloc, names, station, verb, words, room),
        "script" => {
            let bytes = names.bytes_of(alloc, words.all())?;
            script(alloc, station, bytes.as_slice(), room)
        }
        "cut" => {
            let loss = loss_of(&mut words)?;
            words.end()?;
            arm(alloc, station, loss)?;
            Ok(Came::Said("ok"))
        }
        "tidy" => {
            words.end()?;
            event(alloc, station, Event::Tidy, 0xFF, room)
        }
        "restore" => {
            words.end()?;
            event(alloc, station, Event::Restore, 0xFF, room)
        }
        _ => Err(Fault::NotUnderstood),
    }
}
