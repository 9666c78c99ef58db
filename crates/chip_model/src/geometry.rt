//! The counts of blocks, groups and sectors of a chip.

ghost use Rattle.std.specs.Prelude.{◌≡◌, ◌+◌, ◌≤◌, ◌↔◌, IsSome, IfSome, true};
ghost use Rattle.chip_model.specs.Geometry.{IsChipSize, block_count, group_count, sector_count};

/// The counts of a chip that is laid out as a disk.
#[derive(Clone, Copy, Debug, PartialEq, Eq)]
pub struct Geometry {
    /// Blocks of 4,096 bytes, from 16 to 4,096: the superblock, three journals and the data blocks.
    pub blocks: u16,
    /// Groups of seven sectors, from 10 to 3,580.
    pub groups: u16,
    /// Sectors of 512 bytes, from 70 to 25,060.
    pub sectors: u32,
}

/// Whether a chip has so many bytes: a multiple of 64 KiB from 64 KiB to 16 MiB.
pub fn is_chip_size(bytes: u64) -> bool
    ensures { (result ≡ true) ↔ IsChipSize bytes }
{
    bytes % 65_536 == 0 && bytes >= 65_536 && bytes <= 16_777_216
}

impl Geometry {
    /// The counts for a chip of so many bytes; `None` where no chip has so many (`is_chip_size`).
    ///
    /// Two data blocks at least stay free of groups.
    pub fn of(bytes: u32) -> Option<Geometry>
        ensures some { IsSome result ↔ IsChipSize bytes }
        ensures blocks { IfSome result (λ g. g.blocks ≡ block_count bytes) }
        ensures groups { IfSome result (λ g. g.groups ≡ group_count bytes) }
        ensures sectors { IfSome result (λ g. g.sectors ≡ sector_count bytes) }
        ensures spare { IfSome result (λ g. g.groups + 2 + 4 ≤ g.blocks) }
    {
        if !is_chip_size(bytes as u64) {
            return None;
        }
        let blocks = bytes / 4_096;
        let groups = 7 * (blocks - 4) / 8;
        Some(Geometry {
            blocks: blocks as u16,
            groups: groups as u16,
            sectors: 7 * groups,
        })
    }
}
