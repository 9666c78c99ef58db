//! The header of a data block that holds a group of seven sectors, and the descriptor of a slot
//! that holds one.

ghost use Rattle.std.specs.Prelude.{◌≡◌, ◌∷◌, [], Some};
ghost use Rattle.chip_model.specs.Memory.{byte};
ghost use Rattle.nor_layout.specs.Headers.{next_generation, generation_byte, generation_of};
ghost use Rattle.nor_layout.specs.Headers.{header_of};

use byteorder::{ByteOrder, LittleEndian};

/// The bytes of a header.
pub const HEADER_LEN: usize = 4;

/// The first byte of a header or descriptor once what it represents is wholly written.
pub const COMMITTED: u8 = 0xFC;

/// And once it stands elsewhere.
pub const RETIRED: u8 = 0xF8;

/// Which of two blocks of a group, or slots of a sector, is the newer: the one whose generation is
/// the next of the other's. Source: own.
#[derive(Clone, Copy, Debug, PartialEq, Eq, Drop)]
pub enum Generation {
    Zero,
    One,
    Two,
    Three,
}

impl Generation {
    /// The generation after this one, round the four.
    pub fn next(self) -> Generation
        ensures { result ≡ next_generation self }
    {
        match self {
            Generation::Zero => Generation::One,
            Generation::One => Generation::Two,
            Generation::Two => Generation::Three,
            Generation::Three => Generation::Zero,
        }
    }

    /// Its byte, FCh to FFh.
    fn byte(self) -> u8
        ensures exact { result ≡ generation_byte self }
        ensures read_back { generation_of result ≡ Some self }
    {
        match self {
            Generation::Zero => 0xFC,
            Generation::One => 0xFD,
            Generation::Two => 0xFE,
            Generation::Three => 0xFF,
        }
    }
}

/// What a live block or slot holds: which group or sector, and which generation of it.
#[derive(Clone, Copy, Debug, PartialEq, Eq, Drop)]
pub struct Tag {
    /// The number of the group (layout 1) or of the sector (layout 2).
    pub number: u16,
    pub generation: Generation,
}

/// What the header of a data block says, or the descriptor of a slot. Source: own.
#[derive(Clone, Copy, Debug, PartialEq, Eq, Drop)]
pub enum Header {
    /// Nothing was written since the block was erased.
    Free,
    /// The block holds a group, the slot a sector.
    Live(Tag),
    /// It is committed, but the second byte is no generation. No write leaves this.
    NoGeneration,
    /// It holds nothing: the write was interrupted, or it was retired.
    Dead,
}

fn generation_of(byte: u8) -> Option<Generation>
    ensures { result ≡ generation_of byte }
{
    match byte {
        0xFC => Some(Generation::Zero),
        0xFD => Some(Generation::One),
        0xFE => Some(Generation::Two),
        0xFF => Some(Generation::Three),
        _ => None,
    }
}

/// What the four bytes of a header or descriptor say. Any bytes may be passed.
pub fn block_state(bytes: [u8; HEADER_LEN]) -> Header
    ensures { result ≡ header_of bytes }
{
    if bytes[0] == 0xFF && bytes[1] == 0xFF && bytes[2] == 0xFF && bytes[3] == 0xFF {
        return Header::Free;
    }
    if bytes[0] != COMMITTED {
        return Header::Dead;
    }
    let number = LittleEndian::read_u16(&[bytes[2], bytes[3]]);
    match generation_of(bytes[1]) {
        Some(generation) => Header::Live(Tag { number, generation }),
        None => Header::NoGeneration,
    }
}

/// The header of a free block into which this group is to be written, or the descriptor of a free
/// slot: begun, and the tag. Once its first byte is programmed `COMMITTED`, the block or slot is
/// live with this tag.
pub fn begun_header(tag: Tag) -> [u8; HEADER_LEN]
    ensures begun { byte result 0 ≡ 254 }
    ensures dead { header_of result ≡ Header.Dead }
    ensures read_back { header_of (COMMITTED ∷ byte result 1 ∷ byte result 2 ∷ byte result 3 ∷ [])
        ≡ Header.Live tag }
{
    let number = tag.number.to_le_bytes();
    [0xFE, tag.generation.byte(), number[0], number[1]]
}

/// The descriptor of a slot that is live with this tag, in one program: for a block whose slots
/// don't count yet.
pub fn live_header(tag: Tag) -> [u8; HEADER_LEN]
    ensures live { header_of result ≡ Header.Live tag }
{
    let number = tag.number.to_le_bytes();
    [COMMITTED, tag.generation.byte(), number[0], number[1]]
}
