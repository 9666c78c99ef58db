//! Of which blocks there are whole copies.

ghost use Rattle.std.specs.Prelude.{◌≡◌, ◌+◌, ◌<◌, ◌||◌, false, length, slice_index_or, ℕ, IfOk};
ghost use Rattle.chip_model.specs.Geometry.{IsChipSize};
ghost use Rattle.sector_slots.specs.Slots.{data_blocks, is_copy_of};
ghost use Rattle.sector_rescue.specs.Steps.{AreCopied};

use crate::slot::kind_of_block;
use chip_model::Geometry;
use nor_layout::{FIRST_DATA_BLOCK, Kind, Layout};
use std::alloc::{AllocError, Global};

/// Of each data block, whether a committed copy of it is there.
pub(crate) fn copied_blocks(
    alloc: Global,
    image: &[u8],
    layout: Layout,
) -> Result<Vec<bool>, AllocError>
    requires { IsChipSize (length image.now) }
    ensures { IfOk result (λ copied. AreCopied layout image.now copied.items) }
{
    let mut copied = vec![in alloc; false; data_blocks_in(image) as usize]?;
    note_copies(image, layout, copied.as_mut_slice());
    Ok(copied)
}

/// Notes each block of which there is a committed copy, where none was noted.
fn note_copies(image: &[u8], layout: Layout, copied: &mut [bool])
    requires size { IsChipSize (length image.now) }
    requires room { length copied.old ≡ data_blocks image.now }
    requires none { (c : ℕ) → c < length copied.old → slice_index_or copied.old c false ≡ false }
    ensures { AreCopied layout image.now copied.new }
{
    for block in 0..data_blocks_in(image) {
        let kind = kind_of_block(image, layout, block);
        note_copy(copied, kind);
    }
}

/// How many data blocks a chip has.
pub(crate) fn data_blocks_in(image: &[u8]) -> u16
    requires { IsChipSize (length image.now) }
    ensures { result ≡ data_blocks image.now }
{
    let Some(chip) = Geometry::of(image.len() as u32) else {
        unreachable!()
    };
    chip.blocks - FIRST_DATA_BLOCK
}

/// Notes the block of which one of this kind is the copy.
fn note_copy(copied: &mut [bool], kind: Kind)
    ensures size { length copied.new ≡ length copied.old }
    ensures each { (c : ℕ) → c < length copied.old → slice_index_or copied.new c false
        ≡ slice_index_or copied.old c false || is_copy_of (c + 4) kind }
{
    let Kind::Committed(source) = kind else {
        return;
    };
    let source = source as usize;
    if source >= 4 && source - 4 < copied.len() {
        copied[source - 4] = true;
    }
}
