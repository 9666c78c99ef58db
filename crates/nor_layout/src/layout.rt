//! The two layouts, and which of them the superblock says.

ghost use Rattle.std.specs.Prelude.{◌≡◌, ℕ, List, Ok};
ghost use Rattle.chip_model.specs.Memory.{byte};
ghost use Rattle.nor_layout.specs.Layouts.{layout_of};
ghost use Rattle.nor_layout.specs.Superblock.{BeginsWith};

use crate::superblock::{MIXED, SEAL, SEAL_PLACE, SUPER_LEN, SuperError, UNSEALED_LEN, has_name};
use byteorder::{ByteOrder, LittleEndian};
use chip_model::Geometry;

/// How the data blocks are used. Source: own.
#[derive(Clone, Copy, Debug, PartialEq, Eq, Drop)]
pub enum Layout {
    /// Layout 1: a block holds a group of seven sectors.
    Groups,
    /// Layout 2: a block has seven slots, each of one sector.
    Sectors,
    /// Layout 1 on its way to layout 2: blocks of both.
    Mixed,
}

/// Which layout the first bytes of block 0 say, where they are the superblock of a chip of these
/// counts. Any bytes may be passed; the first check that fails is answered.
pub fn read_layout(bytes: &[u8; SUPER_LEN], chip: Geometry) -> Result<Layout, SuperError>
    ensures { result ≡ layout_of bytes.now chip }
{
    if !has_name(bytes) || bytes[14] != SEAL {
        return Err(SuperError::NotFormatted);
    }
    if bytes[8] != 2 && (bytes[8] != 1 || bytes[15] != 0xFF && bytes[15] != MIXED) {
        return Err(SuperError::Layout);
    }
    let blocks = LittleEndian::read_u16(&[bytes[9], bytes[10]]);
    let groups = LittleEndian::read_u16(&[bytes[11], bytes[12]]);
    if blocks != chip.blocks || groups != chip.groups {
        return Err(SuperError::Geometry);
    }
    if bytes[8] == 2 {
        return Ok(Layout::Sectors);
    }
    if bytes[15] == 0xFF {
        return Ok(Layout::Groups);
    }
    Ok(Layout::Mixed)
}

/// The first bytes of the superblock of a chip of these counts in layout 2: its name, the layout
/// and the counts. Sealed, a block that begins with them is read back.
pub fn sector_super_bytes(chip: Geometry) -> [u8; UNSEALED_LEN]
    ensures { (b : List ℕ) → BeginsWith b UNSEALED_LEN result → byte b SEAL_PLACE ≡ SEAL
        → layout_of b chip ≡ Ok Layout.Sectors }
{
    let blocks = chip.blocks.to_le_bytes();
    let groups = chip.groups.to_le_bytes();
    [
        b'N', b'O', b'R', b'B', b'L', b'K', b'0', b'1', 2, blocks[0], blocks[1], groups[0],
        groups[1],
    ]
}
