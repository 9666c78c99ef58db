//! What bytes of the layout say, and the bytes that are written for it.

use crate::came::Came;
use crate::fault::Fault;
use crate::names::Names;
use crate::words::Words;
use chip_model::Geometry;
use nor_layout::{
    Entry, Generation, Header, Kind, Layout, SUPER_LEN, SuperError, Tag, Vote, begun_header,
    begun_mark, block_kind, block_state, entry_place, entry_state, live_header, read_layout,
    read_super, sector_super_bytes, super_bytes, taken_entry, vote_byte, vote_state,
};
use std::alloc::Global;

/// A copy of some bytes.
fn copy_of(alloc: Global, bytes: &[u8]) -> Result<Came, Fault> {
    let mut copy = Vec::new(alloc);
    copy.extend_from_slice(bytes)?;
    Ok(Came::Bytes(copy))
}

/// The generation of a number, 0 to 3.
fn generation(number: u8) -> Result<Generation, Fault> {
    match number {
        0 => Ok(Generation::Zero),
        1 => Ok(Generation::One),
        2 => Ok(Generation::Two),
        3 => Ok(Generation::Three),
        _ => Err(Fault::NotUnderstood),
    }
}

/// A sector's number and its generation, 0 to 3.
pub(crate) fn tag(words: &mut Words) -> Result<Tag, Fault> {
    let number = words.short()?;
    let generation = generation(words.small()?)?;
    Ok(Tag { number, generation })
}

/// The generation as a number.
fn number_of(generation: Generation) -> u32 {
    match generation {
        Generation::Zero => 0,
        Generation::One => 1,
        Generation::Two => 2,
        Generation::Three => 3,
    }
}

/// What a descriptor says: `free`, `dead`, or `live` with its sector and generation.
pub(crate) fn header_word(alloc: Global, header: Header) -> Result<Came, Fault> {
    match header {
        Header::Free => Ok(Came::Said("free")),
        Header::Dead => Ok(Came::Said("dead")),
        Header::NoGeneration => Ok(Came::Said("no generation")),
        Header::Live(tag) => {
            let number = tag.number;
            let generation = number_of(tag.generation);
            Ok(Came::Text(format!(in alloc; "live {number} {generation}")?))
        }
    }
}

/// What a mark says: `plain`, `void`, `committed` with the block that was copied, `settled`; or
/// `group` with its number and generation, `dead group`, `spoilt group`.
pub(crate) fn kind_word(alloc: Global, kind: Kind) -> Result<Came, Fault> {
    match kind {
        Kind::Plain => Ok(Came::Said("plain")),
        Kind::Void => Ok(Came::Said("void")),
        Kind::Settled => Ok(Came::Said("settled")),
        Kind::DeadGroup => Ok(Came::Said("dead group")),
        Kind::SpoiltGroup => Ok(Came::Said("spoilt group")),
        Kind::Unknown => Ok(Came::Said("unknown")),
        Kind::Committed(block) => Ok(Came::Text(format!(in alloc; "committed {block}")?)),
        Kind::Group(tag) => {
            let number = tag.number;
            let generation = number_of(tag.generation);
            Ok(Came::Text(format!(in alloc; "group {number} {generation}")?))
        }
    }
}

/// What an entry of the first journal says.
fn entry_word(alloc: Global, entry: Entry) -> Result<Came, Fault> {
    match entry {
        Entry::Free => Ok(Came::Said("free")),
        Entry::Open(block) => Ok(Came::Text(format!(in alloc; "open {block}")?)),
        Entry::Closed => Ok(Came::Said("closed")),
        Entry::Spent => Ok(Came::Said("spent")),
    }
}

/// What a superblock is refused with.
fn super_word(error: SuperError) -> &'static str {
    match error {
        SuperError::NotFormatted => "not formatted",
        SuperError::Layout => "another layout",
        SuperError::Geometry => "another size",
    }
}

/// The geometry of a chip of so many KiB.
fn chip_of(words: &mut Words) -> Result<Geometry, Fault> {
    match Geometry::of(words.number()?.saturating_mul(1_024)) {
        Some(chip) => Ok(chip),
        None => Err(Fault::NotUnderstood),
    }
}

/// The numbers of a chip of so many bytes.
fn geometry(alloc: Global, mut words: Words) -> Result<Came, Fault> {
    let size = words.number()?;
    words.end()?;
    match Geometry::of(size) {
        None => Ok(Came::Said("none")),
        Some(
            Geometry {
                blocks,
                groups,
                sectors,
            },
        ) => Ok(Came::Text(format!(in alloc;
            "{blocks} blocks, {groups} groups, {sectors} sectors"
        )?)),
    }
}

/// The text before ` of `, and the words behind it.
fn parts<'a>(words: Words<'a>) -> Result<(&'a str, Words<'a>), Fault> {
    match words.all().split_once(" of ") {
        Some((text, rest)) => Ok((text, Words::new(rest))),
        None => Err(Fault::NotUnderstood),
    }
}

/// What a superblock says on a chip of so many KiB: of the first layout alone, or which layout.
fn superblock(alloc: Global, names: &Names, words: Words, is_any: bool) -> Result<Came, Fault> {
    let (text, mut rest) = parts(words)?;
    let chip = chip_of(&mut rest)?;
    rest.end()?;
    let bytes = names.bytes_of(alloc, text)?;
    let Ok(block) = <[u8; SUPER_LEN]>::try_from(bytes.as_slice()) else {
        return Err(Fault::NotUnderstood);
    };
    if is_any {
        return Ok(Came::Said(match read_layout(&block, chip) {
            Ok(Layout::Groups) => "groups",
            Ok(Layout::Sectors) => "sectors",
            Ok(Layout::Mixed) => "mixed",
            Err(error) => super_word(error),
        }));
    }
    Ok(Came::Said(match read_super(&block, chip) {
        Ok(()) => "ok",
        Err(error) => super_word(error),
    }))
}

/// The bytes that are written for a chip's superblock, of a layout.
fn spelled_super(alloc: Global, mut words: Words) -> Result<Came, Fault> {
    let layout = words.word()?;
    words.expect("of")?;
    let chip = chip_of(&mut words)?;
    words.end()?;
    match layout {
        "groups" => copy_of(alloc, &super_bytes(chip)),
        "sectors" => copy_of(alloc, &sector_super_bytes(chip)),
        _ => Err(Fault::NotUnderstood),
    }
}

/// What an entry says on a chip of so many blocks.
fn entry(alloc: Global, names: &Names, words: Words) -> Result<Came, Fault> {
    let (text, mut rest) = parts(words)?;
    let blocks = rest.short()?;
    rest.end()?;
    match names.bytes_of(alloc, text)?.as_slice() {
        [a, b, c, d] => entry_word(alloc, entry_state([*a, *b, *c, *d], blocks)),
        _ => Err(Fault::NotUnderstood),
    }
}

/// What the bytes of a descriptor say.
fn descriptor(alloc: Global, bytes: &[u8]) -> Result<Came, Fault> {
    match bytes {
        [a, b, c, d] => header_word(alloc, block_state([*a, *b, *c, *d])),
        _ => Err(Fault::NotUnderstood),
    }
}

/// What the first eight bytes of a data block say.
fn mark(alloc: Global, bytes: &[u8]) -> Result<Came, Fault> {
    match bytes {
        [a, b, c, d, e, f, g, h] => {
            kind_word(alloc, block_kind([*a, *b, *c, *d, *e, *f, *g, *h]))
        }
        _ => Err(Fault::NotUnderstood),
    }
}

/// What the byte of a vote says.
fn vote(byte: u8) -> Came {
    Came::Said(match vote_state(byte) {
        Some(Vote::Unused) => "unused",
        Some(Vote::Open) => "open",
        Some(Vote::Closed) => "closed",
        Some(Vote::GivenUp) => "given up",
        None => "none",
    })
}

/// The bytes that are written: `vote open`, `entry 4`, `header 5 2`, `copied 5 2`, `mark 14`.
fn spelled(alloc: Global, mut words: Words) -> Result<Came, Fault> {
    match words.word()? {
        "superblock" => spelled_super(alloc, words),
        "vote" => {
            words.expect("open")?;
            copy_of(alloc, &[vote_byte(Vote::Open)])
        }
        "entry" => copy_of(alloc, &taken_entry(words.short()?)),
        "header" => copy_of(alloc, &begun_header(tag(&mut words)?)),
        "copied" => copy_of(alloc, &live_header(tag(&mut words)?)),
        "mark" => copy_of(alloc, &begun_mark(words.short()?)),
        _ => Err(Fault::NotUnderstood),
    }
}

/// A line of the layout.
pub(crate) fn run(
    alloc: Global,
    names: &Names,
    verb: &str,
    mut words: Words,
) -> Result<Came, Fault> {
    match verb {
        "geometry" => geometry(alloc, words),
        "superblock" => superblock(alloc, names, words, false),
        "layout" => superblock(alloc, names, words, true),
        "written" => spelled(alloc, words),
        "vote" => Ok(vote(words.byte()?)),
        "entry" => entry(alloc, names, words),
        "descriptor" => descriptor(alloc, names.bytes_of(alloc, words.all())?.as_slice()),
        "mark" => mark(alloc, names.bytes_of(alloc, words.all())?.as_slice()),
        "after" => Ok(Came::Number(number_of(generation(words.small()?)?.next()))),
        "entry-place" => {
            let number = words.short()?;
            if number >= 512 {
                return Err(Fault::NotUnderstood);
            }
            let place = entry_place(number);
            Ok(Came::Text(format!(in alloc; "{place:04X}")?))
        }
        _ => Err(Fault::NotUnderstood),
    }
}
