//! What a slot says, by the bytes of a chip.

ghost use Rattle.std.specs.Prelude.{◌≡◌, ◌+◌, ◌/◌, ◌<◌, ◌≤◌, ◌&&◌, length, not, ℕ};
ghost use Rattle.std.specs.Prelude.{if◌then◌else◌};
ghost use Rattle.chip_model.specs.Memory.{byte};
ghost use Rattle.chip_model.specs.Geometry.{IsChipSize, sector_count};
ghost use Rattle.nor_layout.specs.declared.header.Tag.{Tag as TagOf};
ghost use Rattle.sector_slots.specs.Slots.{data_blocks, header_in, is_group, is_void, slot_count};
ghost use Rattle.sector_rescue.specs.Rescue.{descriptor_bytes, four, header_by, kind_by, said_at};
ghost use Rattle.sector_rescue.specs.Rescue.{said_of, state_bytes};
ghost use Rattle.sector_rescue.specs.Steps.{AreCopied};

use chip_model::Geometry;
use nor_layout::{Header, Kind, Layout, RETIRED, Tag, block_kind, block_state};

/// What a slot says of a sector: nothing, since it is free or retired or doesn't count; that one
/// may have been there; or that it holds one, of this number and generation.
#[derive(Clone, Copy, Drop)]
pub(crate) enum Said {
    Nothing,
    Doubtful,
    Holds(Tag),
}

/// Four bytes of a chip.
pub(crate) fn four_at(image: &[u8], at: usize) -> [u8; 4]
    requires { at + 4 ≤ length image.now }
    ensures { result ≡ four image.now at }
{
    [image[at], image[at + 1], image[at + 2], image[at + 3]]
}

/// The kind of a data block, by the bytes that its layout has.
pub(crate) fn kind_of_block(image: &[u8], layout: Layout, block: u16) -> Kind
    requires number { block < data_blocks image.now }
    requires size { IsChipSize (length image.now) }
    ensures kind { result ≡ kind_by layout image.now block }
    ensures small { (group : TagOf) → result ≡ Kind.Group group → group.number < 9362 }
{
    let at = 4_096 * (block as usize + 4);
    let head = match layout {
        Layout::Sectors => [0xFF; 4],
        Layout::Groups => four_at(image, at),
        Layout::Mixed => four_at(image, at),
    };
    let mark = match layout {
        Layout::Sectors => four_at(image, at + 4),
        Layout::Groups => [0xFF; 4],
        Layout::Mixed => four_at(image, at + 4),
    };
    block_kind([
        head[0], head[1], head[2], head[3], mark[0], mark[1], mark[2], mark[3],
    ])
}

/// What the bytes of a descriptor are at this place of a block of this kind.
fn header_by_kind(kind: Kind, written: Header, place: u16) -> Header
    requires place { place < 7 }
    requires small { (group : TagOf) → kind ≡ Kind.Group group → group.number < 9362 }
    ensures { result ≡ header_in kind written place }
{
    match kind {
        Kind::Plain => written,
        Kind::Void => written,
        Kind::Committed(_) => written,
        Kind::Settled => written,
        Kind::Group(group) => Header::Live(Tag {
            number: 7 * group.number + place,
            generation: group.generation,
        }),
        Kind::DeadGroup => Header::Dead,
        Kind::SpoiltGroup => Header::NoGeneration,
        Kind::Unknown => written,
    }
}

/// What a slot says whose header is this, on a chip of so many sectors; `state` is the first byte
/// of what says it.
fn said_in(header: Header, state: u8, sectors: u32) -> Said
    ensures said { result ≡ said_of header state sectors }
    ensures small { (tag : TagOf) → result ≡ Said.Holds tag → tag.number < sectors }
{
    match header {
        Header::Free => Said::Nothing,
        Header::Live(tag) if (tag.number as u32) < sectors => Said::Holds(tag),
        Header::Live(_) => Said::Doubtful,
        Header::NoGeneration => Said::Doubtful,
        Header::Dead if state == RETIRED => Said::Nothing,
        Header::Dead => Said::Doubtful,
    }
}

/// What a slot says, by which blocks are copied.
pub(crate) fn said_by(image: &[u8], layout: Layout, copied: &[bool], slot: u16) -> Said
    requires size { IsChipSize (length image.now) }
    requires number { slot < slot_count image.now }
    requires copied { AreCopied layout image.now copied.now }
    ensures said { result ≡ said_at layout image.now slot }
    ensures small { (tag : TagOf) → result ≡ Said.Holds tag
        → tag.number < sector_count (length image.now) }
{
    let kind = kind_of_block(image, layout, slot / 7);
    if counts(kind, copied[slot as usize / 7]) {
        said_of_slot(image, layout, kind, slot)
    } else {
        Said::Nothing
    }
}

/// Whether the slots of a block of this kind count, of which there is a committed copy or not.
fn counts(kind: Kind, copied: bool) -> bool
    ensures { result ≡ not (is_void kind) && not copied }
{
    !matches!(kind, Kind::Void) && !copied
}

/// What a slot of a block of this kind says, where its block counts.
fn said_of_slot(image: &[u8], layout: Layout, kind: Kind, slot: u16) -> Said
    requires size { IsChipSize (length image.now) }
    requires number { slot < slot_count image.now }
    requires kind { kind ≡ kind_by layout image.now (slot / 7) }
    requires few { (group : TagOf) → kind ≡ Kind.Group group → group.number < 9362 }
    ensures said { result ≡ said_of (header_by layout image.now slot)
        (byte (state_bytes layout image.now slot) 0) (sector_count (length image.now)) }
    ensures small { (tag : TagOf) → result ≡ Said.Holds tag
        → tag.number < sector_count (length image.now) }
{
    let Some(chip) = Geometry::of(image.len() as u32) else {
        unreachable!()
    };
    let at = 4_096 * (slot as usize / 7 + 4);
    let written = descriptor_of(image, layout, at + 16 + 4 * (slot as usize % 7));
    let state = state_of(image, kind, at, written);
    let header = header_by_kind(kind, block_state(written), slot % 7);
    said_in(header, state, chip.sectors)
}

/// The first byte of what says the state of a slot: of the header of its block, which begins at a
/// place, where it is of a group, and else of its descriptor.
fn state_of(image: &[u8], kind: Kind, at: usize, written: [u8; 4]) -> u8
    requires { at + 4 ≤ length image.now }
    ensures { result ≡ byte (if is_group kind then four image.now at else written) 0 }
{
    if kind.is_of_group() {
        image[at]
    } else {
        written[0]
    }
}

/// The bytes of a descriptor; erased ones of layout 1, which has none.
fn descriptor_of(image: &[u8], layout: Layout, at: usize) -> [u8; 4]
    requires { at + 4 ≤ length image.now }
    ensures { result ≡ descriptor_bytes layout image.now at }
{
    match layout {
        Layout::Sectors => four_at(image, at),
        Layout::Groups => [0xFF; 4],
        Layout::Mixed => four_at(image, at),
    }
}
