//! Sectors in slots behind the journals of a chip.

ghost use Rattle.std.specs.Prelude.{◌≡◌, ◌+◌, ◌<◌, IfOk, IsTrue, IsFalse};
ghost use Rattle.erase_journal.specs.Blocks.{WithErased};
ghost use Rattle.sector_slots.specs.Slots.{data_blocks};

use crate::came::Came;
use crate::chip::loss_of;
use crate::driver::OnDriver;
use crate::fault::Fault;
use crate::layout::{header_word, kind_word, tag};
use crate::names::Names;
use crate::refusals::{of_nor, of_recovery};
use crate::words::Words;
use journal_slots::SectorSlots;
use nor_driver::NorError;
use nor_layout::{Header, Kind, SUPER_LEN};
use sector_slots::SlotCalls;
use std::alloc::Global;

/// The slots of a simulated chip.
pub(crate) type OnSlots = SectorSlots<OnDriver>;

/// Erases a data block of which another one is the committed copy: true. Where that one isn't, or
/// the block is itself a copy that isn't settled, nothing changes: false.
fn erase_copied<S: SlotCalls>(slots: &mut S, source: u16, target: u16) -> Result<bool, NorError>
    requires source { source < data_blocks (S.state slots.old).memory }
    requires target { target < data_blocks (S.state slots.old).memory }
    ensures erased { IfOk result (λ is. IsTrue is
        → WithErased (source + 4) (S.state slots.old).memory (S.state slots.new).memory) }
    ensures same { IfOk result (λ is. IsFalse is
        → (S.state slots.new).memory ≡ (S.state slots.old).memory) }
{
    if let Kind::Committed(_) = slots.kind(source)? {
        return Ok(false);
    }
    match slots.kind(target)? {
        Kind::Committed(number) if number >= 4 && number - 4 == source => {
            slots.erase(source)?;
            Ok(true)
        }
        _ => Ok(false),
    }
}

/// Writes a sector into a slot.
fn put(alloc: Global, names: &Names, slots: &mut OnSlots, mut words: Words) -> Result<Came, Fault> {
    let slot = words.short()?;
    let tag = tag(&mut words)?;
    let content = names.bytes_of(alloc, words.all())?;
    if slot >= slots.count() || content.len() != 512 {
        return Err(Fault::NotUnderstood);
    }
    Ok(Came::Said(of_nor(slots.put(slot, tag, content.as_slice()))))
}

/// The sector of a slot: of a live one alone, or of one that is taken for live.
fn content(alloc: Global, slots: &mut OnSlots, slot: u16, is_known: bool) -> Result<Came, Fault> {
    let mut into = Vec::new(alloc);
    into.resize(512, 0)?;
    if slot >= slots.count() {
        return Err(Fault::NotUnderstood);
    }
    if is_known {
        return Ok(match slots.content(slot, into.as_mut_slice()) {
            Ok(()) => Came::Bytes(into),
            Err(error) => Came::Said(of_nor(Err(error))),
        });
    }
    Ok(match slots.get(slot, into.as_mut_slice()) {
        Ok(Some(_)) => Came::Bytes(into),
        Ok(None) => Came::Said("none"),
        Err(error) => Came::Said(of_nor(Err(error))),
    })
}

/// Whether a slot is free.
fn is_free(slots: &mut OnSlots, slot: u16) -> Result<Came, Fault> {
    if slot >= slots.count() {
        return Err(Fault::NotUnderstood);
    }
    Ok(Came::Said(match slots.free(slot) {
        Ok(true) => "yes",
        Ok(false) => "no",
        Err(error) => of_nor(Err(error)),
    }))
}

/// What a slot's descriptor says.
fn header(alloc: Global, slots: &mut OnSlots, slot: u16) -> Result<Came, Fault> {
    if slot >= slots.count() {
        return Err(Fault::NotUnderstood);
    }
    match slots.header(slot) {
        Ok(header) => header_word(alloc, header),
        Err(error) => Ok(Came::Said(of_nor(Err(error)))),
    }
}

/// What a block's mark says.
fn kind(alloc: Global, slots: &mut OnSlots, block: u16) -> Result<Came, Fault> {
    if block >= slots.blocks() {
        return Err(Fault::NotUnderstood);
    }
    match slots.kind(block) {
        Ok(kind) => kind_word(alloc, kind),
        Err(error) => Ok(Came::Said(of_nor(Err(error)))),
    }
}

/// What a block's descriptor at a place says, as all of them are read at once.
fn head(alloc: Global, slots: &mut OnSlots, block: u16, place: u16) -> Result<Came, Fault> {
    if block >= slots.blocks() || place >= 7 {
        return Err(Fault::NotUnderstood);
    }
    let mut headers = [Header::Dead; 7];
    match slots.head(block, &mut headers) {
        Ok(_) => header_word(alloc, headers[place as usize]),
        Err(error) => Ok(Came::Said(of_nor(Err(error)))),
    }
}

/// A step of a copying between two blocks.
fn step(slots: &mut OnSlots, verb: &str, mut words: Words) -> Result<Came, Fault> {
    let one = words.short()?;
    let other = words.short()?;
    words.end()?;
    let blocks = slots.blocks();
    if one >= blocks || other >= blocks {
        return Err(Fault::NotUnderstood);
    }
    Ok(Came::Said(match verb {
        "begin" => of_nor(slots.begin(one, other)),
        "copy" if other < 7 => of_nor(slots.copy(one, other)),
        "erase" => match erase_copied(slots, one, other) {
            Ok(true) => "ok",
            Ok(false) => "refused",
            Err(error) => of_nor(Err(error)),
        },
        _ => return Err(Fault::NotUnderstood),
    }))
}

/// The end of a copying.
fn end(slots: &mut OnSlots, verb: &str, block: u16) -> Result<Came, Fault> {
    if block >= slots.blocks() {
        return Err(Fault::NotUnderstood);
    }
    Ok(Came::Said(of_nor(if verb == "commit" {
        slots.commit(block)
    } else {
        slots.settle(block)
    })))
}

/// Makes a slot dead.
fn retire(slots: &mut OnSlots, slot: u16) -> Result<Came, Fault> {
    if slot >= slots.count() {
        return Err(Fault::NotUnderstood);
    }
    Ok(Came::Said(of_nor(slots.retire(slot))))
}

/// Makes a block of a group dead.
fn retire_group(slots: &mut OnSlots, block: u16) -> Result<Came, Fault> {
    if block >= slots.blocks() {
        return Err(Fault::NotUnderstood);
    }
    Ok(Came::Said(of_nor(slots.retire_group(block))))
}

/// The first bytes of the superblock.
fn superblock(alloc: Global, slots: &mut OnSlots) -> Result<Came, Fault> {
    let mut into = Vec::new(alloc);
    into.resize(SUPER_LEN, 0)?;
    Ok(match slots.superblock(into.as_mut_slice()) {
        Ok(()) => Came::Bytes(into),
        Err(error) => Came::Said(of_nor(Err(error))),
    })
}

/// A line of the slots.
pub(crate) fn run(
    alloc: Global,
    names: &Names,
    slots: &mut OnSlots,
    verb: &str,
    mut words: Words,
) -> Result<Came, Fault> {
    let came = match verb {
        "put" => return put(alloc, names, slots, words),
        "begin" | "copy" | "erase" => return step(slots, verb, words),
        "commit" | "settle" => end(slots, verb, words.short()?)?,
        "retire" => retire(slots, words.short()?)?,
        "retire-group" => retire_group(slots, words.short()?)?,
        "superblock" => superblock(alloc, slots)?,
        "mark" => Came::Said(of_nor(slots.mark())),
        "get" => content(alloc, slots, words.short()?, false)?,
        "content" => content(alloc, slots, words.short()?, true)?,
        "free" => is_free(slots, words.short()?)?,
        "header" => header(alloc, slots, words.short()?)?,
        "kind" => kind(alloc, slots, words.short()?)?,
        "head" => {
            let block = words.short()?;
            head(alloc, slots, block, words.short()?)?
        }
        "blocks" => Came::Number(u32::from(slots.blocks())),
        "number" => Came::Number(u32::from(slots.count())),
        "cut" => {
            let loss = loss_of(&mut words)?;
            slots.arm(loss.count, loss.kind, loss.mask);
            Came::Said("ok")
        }
        "restore" => match slots.restore() {
            Ok(()) => Came::Said("ok"),
            Err(error) => Came::Said(of_recovery(error)),
        },
        _ => return Err(Fault::NotUnderstood),
    };
    words.end()?;
    Ok(came)
}
