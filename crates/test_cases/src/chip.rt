//! A chip: its frames, its memory, and the losses of power that it is armed for.

use crate::came::Came;
use crate::fault::Fault;
use crate::names::Names;
use crate::recorder::Recorder;
use crate::refusals::of_probe;
use crate::words::Words;
use chip_model::SpiBus;
use chip_simulator::SimChip;
use nor_driver::unprotect;
use std::alloc::Global;

/// A loss of power that `cut` arms: in a change, with the mask of what it leaves, or in a frame.
#[derive(Clone, Copy, Drop)]
pub(crate) struct Loss {
    pub(crate) count: u32,
    pub(crate) kind: u8,
    pub(crate) mask: u8,
}

/// What `cut` says: `5 mask 00` for the fifth change, `frame 5 mask 00` for the fifth frame.
pub(crate) fn loss_of(words: &mut Words) -> Result<Loss, Fault> {
    let mut rest = *words;
    let kind = if rest.word()? == "frame" {
        *words = rest;
        0
    } else {
        1
    };
    let count = words.number()?;
    words.expect("mask")?;
    let mask = words.byte()?;
    Ok(Loss { count, kind, mask })
}

/// A chip of so many KiB of this byte.
pub(crate) fn filled(alloc: Global, kib: u32, byte: u8) -> Result<Recorder, Fault> {
    let mut memory = Vec::new(alloc);
    memory.resize((kib as usize).saturating_mul(1_024), byte)?;
    chip_of(memory, Vec::new(alloc))
}

/// The chip of a memory, with these weak bits; where they are no byte, a steady one.
pub(crate) fn chip_of(memory: Vec<u8>, weak: Vec<u8>) -> Result<Recorder, Fault> {
    let chip = if weak.is_empty() {
        SimChip::new(memory)
    } else {
        SimChip::wavering(memory, weak)
    };
    match chip {
        Ok(chip) => Ok(Recorder::new(chip)),
        Err(_) => Err(Fault::NotUnderstood),
    }
}

/// The same chip, whose bits waver from now on; none is weak yet.
pub(crate) fn wavering(alloc: Global, chip: Recorder) -> Result<Recorder, Fault> {
    let mut weak = Vec::new(alloc);
    weak.resize(chip.bytes().len(), 0)?;
    chip_of(chip.into_memory(), weak)
}

/// Turns the power off and on: each weak bit reads as that of these bytes, which count from the
/// memory's first on, again and again.
pub(crate) fn draw(
    alloc: Global,
    names: &Names,
    chip: &mut Recorder,
    words: Words,
) -> Result<Came, Fault> {
    let draw = names.bytes_of(alloc, words.all())?;
    if draw.is_empty() || chip.weak().is_empty() {
        return Err(Fault::NotUnderstood);
    }
    chip.chip().power_cycle(draw.as_slice());
    Ok(Came::Said("ok"))
}

/// Whether there is a chip of so many bytes.
pub(crate) fn of_size(alloc: Global, bytes: u32) -> Result<Came, Fault> {
    let mut memory = Vec::new(alloc);
    memory.resize(bytes as usize, 0xFF)?;
    match SimChip::new(memory) {
        Ok(_) => Ok(Came::Said("ok")),
        Err(_) => Ok(Came::Said("bad size")),
    }
}

/// Sends a frame, and takes as many bytes as are wanted.
fn frame(
    alloc: Global,
    names: &Names,
    chip: &mut Recorder,
    text: &str,
    wanted: &str,
) -> Result<Came, Fault> {
    let mut send = Vec::new(alloc);
    if text != "nothing" {
        send = names.bytes_of(alloc, text)?;
    }
    let mut recv = Vec::new(alloc);
    if wanted != "ok" && wanted != "lost" {
        recv.resize(names.bytes_of(alloc, wanted)?.len(), 0x77)?;
    }
    match chip.transact(send.as_slice(), recv.as_mut_slice()) {
        Ok(()) if recv.is_empty() => Ok(Came::Said("ok")),
        Ok(()) => Ok(Came::Bytes(recv)),
        Err(_) => Ok(Came::Said("lost")),
    }
}

/// A line of a chip.
pub(crate) fn run(
    alloc: Global,
    names: &Names,
    chip: &mut Recorder,
    verb: &str,
    mut words: Words,
    wanted: &str,
) -> Result<Came, Fault> {
    if verb == "frame" {
        return frame(alloc, names, chip, words.all(), wanted);
    }
    let came = match verb {
        "power" => {
            chip.power_on();
            Came::Said("ok")
        }
        "slow" => {
            chip.chip().arm_slow();
            Came::Said("ok")
        }
        "spoil" => {
            chip.chip().spoil_sfdp();
            Came::Said("ok")
        }
        "cut" => {
            let loss = loss_of(&mut words)?;
            chip.arm(loss.count, loss.kind, loss.mask);
            Came::Said("ok")
        }
        "unprotect" => Came::Said(of_probe(unprotect(chip))),
        "forget" => {
            chip.forget();
            Came::Said("ok")
        }
        _ => return Err(Fault::NotUnderstood),
    };
    words.end()?;
    Ok(came)
}

/// The codes of the first frames, at most sixteen.
pub(crate) fn codes(alloc: Global, chip: &Recorder) -> Result<Came, Fault> {
    let mut codes = Vec::new(alloc);
    let number = (chip.frames() as usize).min(16);
    codes.extend_from_slice(chip.codes().get(..number).unwrap_or(&[]))?;
    Ok(Came::Bytes(codes))
}

/// The 256 bytes of the chip's table of parameters.
pub(crate) fn table_of(alloc: Global, chip: &mut Recorder) -> Result<Vec<u8>, Fault> {
    let mut table = Vec::new(alloc);
    table.resize(256, 0)?;
    match chip.transact(&[0x5A, 0, 0, 0, 0], table.as_mut_slice()) {
        Ok(()) => Ok(table),
        Err(_) => Err(Fault::NotUnderstood),
    }
}
