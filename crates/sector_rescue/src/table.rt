//! Which slots hold a sector.

ghost use Rattle.std.specs.Prelude.{◌≡◌, ◌<◌, length, slice_index_or, ℕ, IfOk};
ghost use Rattle.chip_model.specs.Geometry.{IsChipSize};
ghost use Rattle.sector_slots.specs.Slots.{slot_count};
ghost use Rattle.sector_rescue.specs.Rescue.{newest_of, none_held, with_said, with_holder};
ghost use Rattle.sector_rescue.specs.Steps.{AreCopied, IsTableBelow};

use crate::copied::data_blocks_in;
use crate::slot::{Said, said_by};
use chip_model::Geometry;
use nor_layout::{Generation, Layout};
use std::alloc::{AllocError, Global};

/// The first whole slot of each generation of a sector.
#[derive(Clone, Copy, Drop)]
pub(crate) struct Holders {
    pub(crate) zero: Option<u16>,
    pub(crate) one: Option<u16>,
    pub(crate) two: Option<u16>,
    pub(crate) three: Option<u16>,
}

impl Holders {
    /// With a slot more, which holds this generation.
    pub(crate) fn with(self, generation: Generation, slot: u16) -> Holders
        ensures { result ≡ with_holder generation slot self }
    {
        match generation {
            Generation::Zero => Holders {
                zero: self.zero.or(Some(slot)),
                ..self
            },
            Generation::One => Holders {
                one: self.one.or(Some(slot)),
                ..self
            },
            Generation::Two => Holders {
                two: self.two.or(Some(slot)),
                ..self
            },
            Generation::Three => Holders {
                three: self.three.or(Some(slot)),
                ..self
            },
        }
    }

    /// The slot of the newest generation.
    pub(crate) fn newest(self) -> Option<u16>
        ensures { result ≡ newest_of self }
    {
        if self.zero.is_some() && self.one.is_none() {
            return self.zero;
        }
        if self.one.is_some() && self.two.is_none() {
            return self.one;
        }
        if self.two.is_some() && self.three.is_none() {
            return self.two;
        }
        if self.three.is_some() && self.zero.is_none() {
            return self.three;
        }
        self.zero
    }
}

/// Of each sector the slots that hold it.
pub(crate) fn holders_of(
    alloc: Global,
    image: &[u8],
    layout: Layout,
    copied: &[bool],
) -> Result<Vec<Holders>, AllocError>
    requires size { IsChipSize (length image.now) }
    requires copied { AreCopied layout image.now copied.now }
    ensures { IfOk result (λ table. IsTableBelow layout image.now (slot_count image.now)
        table.items) }
{
    let Some(chip) = Geometry::of(image.len() as u32) else {
        unreachable!()
    };
    let nothing = Holders {
        zero: None,
        one: None,
        two: None,
        three: None,
    };
    let mut table = vec![in alloc; nothing; chip.sectors as usize]?;
    note_slots(image, layout, copied, table.as_mut_slice());
    Ok(table)
}

/// Notes all slots in a table in which none is.
fn note_slots(image: &[u8], layout: Layout, copied: &[bool], table: &mut [Holders])
    requires size { IsChipSize (length image.now) }
    requires copied { AreCopied layout image.now copied.now }
    requires none { IsTableBelow layout image.now 0 table.old }
    ensures { IsTableBelow layout image.now (slot_count image.now) table.new }
{
    for slot in 0..7 * data_blocks_in(image) {
        let said = said_by(image, layout, copied, slot);
        note_slot(table, slot, said);
    }
}

/// Notes a slot that says this.
fn note_slot(table: &mut [Holders], slot: u16, said: Said)
    ensures size { length table.new ≡ length table.old }
    ensures each { (g : ℕ) → g < length table.old → slice_index_or table.new g none_held
        ≡ with_said said slot g (slice_index_or table.old g none_held) }
{
    let Said::Holds(tag) = said else {
        return;
    };
    let sector = tag.number as usize;
    if sector < table.len() {
        table[sector] = table[sector].with(tag.generation, slot);
    }
}
