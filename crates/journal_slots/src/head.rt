//! The head of a block: what one read says of its kind and of its seven slots.

ghost use Rattle.std.specs.Prelude.{◌≡◌, ◌+◌, ◌*◌, ◌<◌, ℕ, drop, length, slice_index_or, OnOk};
ghost use Rattle.std.specs.Prelude.{IfOk};
ghost use Rattle.chip_model.specs.Geometry.{IsChipSize};
ghost use Rattle.nor_layout.specs.Headers.{header_of};
ghost use Rattle.nor_layout.specs.Kinds.{kind_of};
ghost use Rattle.nor_layout.specs.declared.header.Tag.{Tag as TagOf};
ghost use Rattle.erase_journal.specs.Steps.{EndsFirmly};
ghost use Rattle.sector_slots.specs.Slots.{data_blocks, data_block, descriptor_in, kind_at};
ghost use Rattle.sector_slots.specs.Slots.{read_header, header_in};

use erase_journal::Journal;
use nor_driver::{Nor, NorError};
use nor_layout::{
    DESCRIPTORS_PLACE, FIRST_DATA_BLOCK, HEAD_LEN, Header, Kind, Tag, block_kind, block_state,
};

/// What a block says of itself.
#[derive(Drop)]
pub(crate) struct BlockHead {
    pub(crate) kind: Kind,
    /// What is said of its places, whether they count or not.
    pub(crate) places: [Header; 7],
}

/// What the descriptor at a place says.
fn place_state(head: &[u8; HEAD_LEN], place: usize) -> Header
    requires { place < 7 }
    ensures { result ≡ header_of (drop (16 + 4 * place) head.now) }
{
    let from = DESCRIPTORS_PLACE + 4 * place;
    block_state([head[from], head[from + 1], head[from + 2], head[from + 3]])
}

/// What is said of a place in a block of this kind, whose descriptor says this: of a block of a
/// group that it is live with one of the group's sectors, or dead.
fn seen(kind: Kind, written: Header, place: u16) -> Header
    requires place { place < 7 }
    requires small { (group : TagOf) → kind ≡ Kind.Group group → group.number < 9362 }
    ensures { result ≡ header_in kind written place }
{
    match kind {
        Kind::Plain => written,
        Kind::Void => written,
        Kind::Committed(_) => written,
        Kind::Settled => written,
        Kind::Group(group) => Header::Live(Tag {
            number: 7 * group.number + place,
            generation: group.generation,
        }),
        Kind::DeadGroup => Header::Dead,
        Kind::SpoiltGroup => Header::NoGeneration,
        Kind::Unknown => written,
    }
}

/// What the first bytes of a block say. Any bytes may be passed.
pub(crate) fn head_of(head: &[u8; HEAD_LEN]) -> BlockHead
    ensures kind { result.kind ≡ kind_of head.now }
    ensures places { (i : ℕ) → i < 7
        → slice_index_or result.places i Header.Free
        ≡ header_in (kind_of head.now) (header_of (drop (16 + 4 * i) head.now)) i }
{
    let kind = block_kind([
        head[0], head[1], head[2], head[3], head[4], head[5], head[6], head[7],
    ]);
    let places = [
        seen(kind, place_state(head, 0), 0),
        seen(kind, place_state(head, 1), 1),
        seen(kind, place_state(head, 2), 2),
        seen(kind, place_state(head, 3), 3),
        seen(kind, place_state(head, 4), 4),
        seen(kind, place_state(head, 5), 5),
        seen(kind, place_state(head, 6), 6),
    ];
    BlockHead { kind, places }
}

/// The kind of a block, and in `into` what its seven descriptors say, by one read.
pub(crate) fn read_head<N: Nor>(
    journal: &mut Journal<N>,
    block: u16,
    into: &mut [Header],
) -> Result<Kind, NorError>
    requires number { block < data_blocks journal.old.memory }
    requires sized { IsChipSize (length journal.old.memory) }
    requires room { length into.old ≡ 7 }
    ensures ok { IfOk result (λ kind. kind ≡ kind_at journal.old.memory block) }
    ensures slots { OnOk result ((i : ℕ) → i < 7
        → read_header into.new i ≡ descriptor_in (data_block journal.old.memory block) i) }
    ensures size { length into.new ≡ length into.old }
    ensures same { journal.new.memory ≡ journal.old.memory }
    ensures weak { journal.new.weak ≡ journal.old.weak }
    ensures ends { EndsFirmly result journal.old journal.new }
{
    let mut bytes = [0; HEAD_LEN];
    journal.read(block + FIRST_DATA_BLOCK, 0, &mut bytes)?;
    let head = head_of(&bytes);
    into.copy_from_slice(&head.places);
    Ok(head.kind)
}
