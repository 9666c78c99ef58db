//! What a data block is: slots, and how they came into it (layout 2), or a group (layout 1).

ghost use Rattle.std.specs.Prelude.{◌≡◌, ◌≢◌, ◌<◌, ◌∷◌, [], ◌+◌, ◌*◌, IsTrue, IsFalse};
ghost use Rattle.chip_model.specs.Memory.{byte};
ghost use Rattle.nor_layout.specs.Headers.{header_of};
ghost use Rattle.nor_layout.specs.declared.header.Tag.{Tag as TagOf};
ghost use Rattle.nor_layout.specs.Kinds.{kind_of, group_kind, is_plain, is_group};

use crate::header::{Header, Tag, block_state};
use byteorder::{ByteOrder, LittleEndian};

/// The bytes of a data block that say its kind.
pub const MARK_LEN: usize = 8;

/// How many groups have sectors whose numbers fit 16 bits.
const GROUP_LIMIT: u16 = 9_362;

/// Byte 4 of a block that is a copy, and whose source is erased.
pub const SETTLED: u8 = 0xF8;

/// What a data block is: how the slots came into it, and so whether they count; or that it holds a
/// group of seven sectors. Source: own.
#[derive(Clone, Copy, Debug, PartialEq, Eq, Drop)]
pub enum Kind {
    /// Its slots were written one by one.
    Plain,
    /// A copy of a block was begun in it: its slots don't count.
    Void,
    /// The whole copy of the block of this number on the chip: its slots count, and those of that
    /// block don't.
    Committed(u16),
    /// A copy whose source was erased: its slots count.
    Settled,
    /// A block of layout 1: the seven sectors of a group, which count.
    Group(Tag),
    /// A block of layout 1 that holds nothing: its write was interrupted, or it was retired.
    DeadGroup,
    /// A block of layout 1 that is committed without a generation, or with a group that no chip
    /// has. No write leaves this.
    SpoiltGroup,
    /// No write leaves this.
    Unknown,
}

impl Kind {
    /// Whether no copy was ever begun in a block of this kind, and it is of no group.
    pub fn is_plain(self) -> bool
        ensures exact { result ≡ is_plain self }
        ensures plain { IsTrue result → self ≡ Kind.Plain }
        ensures not_plain { IsFalse result → self ≢ Kind.Plain }
    {
        matches!(self, Kind::Plain)
    }

    /// Whether a block of this kind is of a group, live or dead.
    pub fn is_of_group(self) -> bool
        ensures { result ≡ is_group self }
    {
        matches!(self, Kind::Group(_) | Kind::DeadGroup | Kind::SpoiltGroup)
    }
}

fn group_kind(header: Header) -> Kind
    ensures exact { result ≡ group_kind header }
    ensures small { (group : TagOf) → result ≡ Kind.Group group → group.number < GROUP_LIMIT }
{
    match header {
        Header::Free => Kind::Unknown,
        Header::Live(tag) if tag.number < GROUP_LIMIT => Kind::Group(tag),
        Header::Live(_) => Kind::SpoiltGroup,
        Header::NoGeneration => Kind::SpoiltGroup,
        Header::Dead => Kind::DeadGroup,
    }
}

/// What the first eight bytes of a data block say. Any bytes may be passed.
pub fn block_kind(bytes: [u8; MARK_LEN]) -> Kind
    ensures exact { result ≡ kind_of bytes }
    // So the numbers of its sectors fit 16 bits.
    ensures small { (group : TagOf) → result ≡ Kind.Group group → group.number < GROUP_LIMIT }
{
    if bytes[0] != 0xFF || bytes[1] != 0xFF || bytes[2] != 0xFF || bytes[3] != 0xFF {
        return group_kind(block_state([bytes[0], bytes[1], bytes[2], bytes[3]]));
    }
    let source = LittleEndian::read_u16(&[bytes[6], bytes[7]]);
    match bytes[4] {
        0xFF if bytes[5] == 0xFF && bytes[6] == 0xFF && bytes[7] == 0xFF => Kind::Plain,
        0xFF => Kind::Void,
        0xFE => Kind::Void,
        0xFC => Kind::Committed(source),
        0xF8 => Kind::Settled,
        _ => Kind::Unknown,
    }
}

/// Bytes 4 to 7 of a block into which the block of this number is to be copied. Once byte 4 is
/// programmed FCh, it is committed.
pub fn begun_mark(source: u16) -> [u8; 4]
    ensures begun { byte result 0 ≡ 254 }
    ensures names { byte result 2 + 256 * byte result 3 ≡ source }
    ensures read_back { kind_of (255 ∷ 255 ∷ 255 ∷ 255 ∷ 252 ∷ byte result 1 ∷ byte result 2
        ∷ byte result 3 ∷ []) ≡ Kind.Committed source }
{
    let number = source.to_le_bytes();
    [0xFE, 0xFF, number[0], number[1]]
}
