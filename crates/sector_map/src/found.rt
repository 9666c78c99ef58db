//! Detects copies of blocks that were interrupted, from the kinds of the blocks.

ghost use Rattle.std.specs.Prelude.{◌≡◌, ◌+◌, ◌≤◌};
ghost use Rattle.sector_slots.specs.Slots.{is_void as is_void_kind};
ghost use Rattle.sector_map.specs.Found.{noted_kind, noted_void, noted_copy, noted_source};
ghost use Rattle.sector_map.specs.Found.{block_counts, leaves_room};

use nor_layout::{FIRST_DATA_BLOCK, Kind};

/// The copyings that were cut. It names data blocks, counted from 0; a `Kind` names blocks of the
/// chip, whose numbers are four higher. Source: own, layout 2.
#[derive(Clone, Copy, Debug, PartialEq, Eq, Drop)]
pub enum Found {
    /// None was.
    AtRest,
    /// One or more, none of them after its commit: this is the lowest-numbered void block.
    Void(u16),
    /// One of the first data block into the second, after its commit. Other blocks may be void.
    Committed(u16, u16),
}

/// What is found once data block `block`, of `count`, turns out to be of this kind; None if the
/// blocks are corrupt. A block of a group takes no part in a copying.
pub(crate) fn note_kind(found: Found, block: u16, kind: Kind, count: u16) -> Option<Found>
    requires few { count ≤ 4092 }
    requires number { block ≤ 4092 }
    ensures { result ≡ noted_kind found block kind count }
{
    match kind {
        Kind::Plain => Some(found),
        Kind::Settled => Some(found),
        Kind::Group(_) => Some(found),
        Kind::DeadGroup => Some(found),
        Kind::SpoiltGroup => Some(found),
        Kind::Unknown => None,
        Kind::Void => Some(note_void(found, block)),
        Kind::Committed(source) => note_copy(found, block, source, count),
    }
}

/// What is found once one more block is void.
pub fn note_void(found: Found, block: u16) -> Found
    ensures { result ≡ noted_void found block }
{
    match found {
        Found::AtRest => Found::Void(block),
        Found::Void(first) => Found::Void(first),
        Found::Committed(source, target) => Found::Committed(source, target),
    }
}

/// What is found once one more block, of `count`, is the committed copy of this block of the chip;
/// None if one was found before.
fn note_copy(found: Found, block: u16, source: u16, count: u16) -> Option<Found>
    requires few { count ≤ 4092 }
    requires number { block ≤ 4092 }
    ensures { result ≡ noted_copy found block source count }
{
    match found {
        Found::AtRest => note_source(block, source, count),
        Found::Void(_) => note_source(block, source, count),
        Found::Committed(_, _) => None,
    }
}

/// The committed copy of a block of the chip; None if that isn't another data block.
fn note_source(block: u16, source: u16, count: u16) -> Option<Found>
    requires few { count ≤ 4092 }
    requires number { block ≤ 4092 }
    ensures { result ≡ noted_source block source count }
{
    if source >= FIRST_DATA_BLOCK && source <= count + 3 && source != block + FIRST_DATA_BLOCK {
        Some(Found::Committed(source - FIRST_DATA_BLOCK, block))
    } else {
        None
    }
}

/// Whether the slots of a block of this kind count.
pub fn is_counted(found: Found, kind: Kind, block: u16) -> bool
    ensures { result ≡ block_counts found kind block }
{
    match found {
        Found::AtRest => !is_void(kind),
        Found::Void(_) => !is_void(kind),
        Found::Committed(source, _) => !is_void(kind) && block != source,
    }
}

/// Whether a block of this kind is void.
pub(crate) fn is_void(kind: Kind) -> bool
    ensures { result ≡ is_void_kind kind }
{
    matches!(kind, Kind::Void)
}

/// What the blocks of a memory say to a mount: the copyings that were cut, and whether a block is
/// wholly free. Source: own.
#[derive(Clone, Copy, Drop)]
pub struct Seen {
    pub found: Found,
    pub spare: bool,
}

/// Whether a block is wholly free once the copyings that were seen are ended.
pub(crate) fn has_room(seen: Seen) -> bool
    ensures { result ≡ leaves_room seen.found seen.spare }
{
    match seen.found {
        Found::AtRest => seen.spare,
        Found::Void(_) => true,
        Found::Committed(_, _) => true,
    }
}
