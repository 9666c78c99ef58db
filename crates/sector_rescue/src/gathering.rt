//! The sectors that slots tell, and what is doubtful of them.

ghost use Rattle.std.specs.Prelude.{◌≡◌, ◌<◌, ◌++◌, length, IfOk, OnOk};
ghost use Rattle.chip_model.specs.Geometry.{IsChipSize, sector_count};
ghost use Rattle.nor_layout.specs.declared.header.Tag.{Tag as TagOf};
ghost use Rattle.sector_slots.specs.Sectors.{zeros as absent};
ghost use Rattle.sector_slots.specs.Slots.{slot_count};
ghost use Rattle.sector_rescue.specs.Doubts.{doubts_in, doubts_of, layout_doubts};
ghost use Rattle.flash_disk.specs.Contents.{joined};
ghost use Rattle.sector_rescue.specs.Given.{AreGiven};
ghost use Rattle.sector_rescue.specs.Rescue.{layout_told, newest_of, payload, payload_or};
ghost use Rattle.sector_rescue.specs.Rescue.{rescued, rescued_at};
ghost use Rattle.sector_rescue.specs.Steps.{AreCopied, IsBelow, IsTableBelow, list_of};

use crate::Doubt;
use crate::copied::{copied_blocks, data_blocks_in};
use crate::slot::{Said, said_by};
use crate::table::{Holders, holders_of};
use nor_layout::Layout;
use std::alloc::{AllocError, Global};

/// What the slots of a chip tell of its disk: the bytes of all sectors, 512 each, and what is
/// doubtful of them. Source: own.
#[derive(Drop)]
pub struct Rescued {
    pub sectors: Vec<u8>,
    pub doubts: Vec<Doubt>,
}

/// What the slots of a chip with these bytes tell of its disk, whatever else is wrong with it: its
/// journals aren't looked at, and of its superblock only which layout it says.
#[tactic(auto, using(crate::proofs::Giving::are_given))]
pub fn rescue(alloc: Global, image: &[u8]) -> Result<Rescued, AllocError>
    requires { IsChipSize (length image.now) }
    ensures sectors { IfOk result (λ it. it.sectors.items ≡ rescued image.now) }
    // In the terms of slots: of each sector bytes that may be the last that were written to it.
    ensures given { IfOk result (λ it. AreGiven image.now it.sectors.items) }
    ensures doubts { IfOk result (λ it. it.doubts.items ≡ doubts_of image.now) }
{
    let layout = told_layout(image);
    let copied = copied_blocks(alloc, image, layout)?;
    let table = holders_of(alloc, image, layout, copied.as_slice())?;
    Ok(Rescued {
        sectors: sectors_in(alloc, image, layout, table.as_slice())?,
        doubts: doubts_about(alloc, image, layout, copied.as_slice(), table.as_slice())?,
    })
}

/// The layout by which the blocks of a chip are read.
fn told_layout(image: &[u8]) -> Layout
    requires { IsChipSize (length image.now) }
    ensures { result ≡ layout_told image.now }
{
    if image[8] != 1 {
        return Layout::Sectors;
    }
    if image[15] == 0xFF {
        Layout::Groups
    } else {
        Layout::Mixed
    }
}

/// The bytes of all sectors, of which these slots hold each.
fn sectors_in(
    alloc: Global,
    image: &[u8],
    layout: Layout,
    table: &[Holders],
) -> Result<Vec<u8>, AllocError>
    requires size { IsChipSize (length image.now) }
    requires table { IsTableBelow layout image.now (slot_count image.now) table.now }
    ensures { IfOk result (λ all. all.items
        ≡ joined (rescued_at layout image.now) (sector_count (length image.now))) }
{
    let zeros = [0; 512];
    let mut all = Vec::new(alloc);
    for sector in 0..table.len() {
        all.extend_from_slice(given(image, &zeros, table[sector]))?;
    }
    Ok(all)
}

/// The bytes that are given of a sector that these slots hold.
fn given<'i>(image: &'i [u8], zeros: &'i [u8], held: Holders) -> &'i [u8]
    requires size { IsChipSize (length image.now) }
    requires zeros { zeros.now ≡ absent }
    requires below { IsBelow (slot_count image.now) held }
    ensures { result.now ≡ payload_or image.now (newest_of held) }
{
    match held.newest() {
        Some(slot) => payload_in(image, slot),
        None => zeros,
    }
}

/// The 512 bytes of a slot.
fn payload_in(image: &[u8], slot: u16) -> &[u8]
    requires size { IsChipSize (length image.now) }
    requires number { slot < slot_count image.now }
    ensures { result.now ≡ payload image.now slot }
{
    let at = 4_096 * (slot as usize / 7 + 4) + 512 * (slot as usize % 7 + 1);
    &image[at..at + 512]
}

/// What is doubtful of a chip.
fn doubts_about(
    alloc: Global,
    image: &[u8],
    layout: Layout,
    copied: &[bool],
    table: &[Holders],
) -> Result<Vec<Doubt>, AllocError>
    requires size { IsChipSize (length image.now) }
    requires layout { layout ≡ layout_told image.now }
    requires copied { AreCopied layout image.now copied.now }
    requires table { IsTableBelow layout image.now (slot_count image.now) table.now }
    ensures { IfOk result (λ doubts. doubts.items ≡ doubts_of image.now) }
{
    let mut doubts = doubts_of_layout(alloc, image, layout)?;
    for slot in 0..7 * data_blocks_in(image) {
        let said = said_by(image, layout, copied, slot);
        push_doubt(&mut doubts, doubt_of(image, layout, table, slot, said))?;
    }
    Ok(doubts)
}

/// Puts a doubt, where there is one, behind the others.
fn push_doubt(doubts: &mut Vec<Doubt>, doubt: Option<Doubt>) -> Result<(), AllocError>
    ensures { OnOk result (doubts.new.items ≡ doubts.old.items ++ list_of doubt) }
{
    if let Some(doubt) = doubt {
        doubts.push(doubt)?;
    }
    Ok(())
}

/// Whether a chip tells no layout, as a list.
fn doubts_of_layout(alloc: Global, image: &[u8], layout: Layout) -> Result<Vec<Doubt>, AllocError>
    requires size { IsChipSize (length image.now) }
    requires layout { layout ≡ layout_told image.now }
    ensures { IfOk result (λ doubts. doubts.items ≡ layout_doubts image.now) }
{
    let mut doubts = Vec::new(alloc);
    let known = match image[8] {
        1 => image[15] == 0xFF || image[15] == 0xFE,
        2 => true,
        _ => false,
    };
    if !known {
        doubts.push(Doubt::Layout(layout))?;
    }
    Ok(doubts)
}

/// What is doubtful of a slot that says this.
fn doubt_of(image: &[u8], layout: Layout, table: &[Holders], slot: u16, said: Said) -> Option<Doubt>
    requires size { IsChipSize (length image.now) }
    requires number { slot < slot_count image.now }
    requires table { IsTableBelow layout image.now (slot_count image.now) table.now }
    requires small { (tag : TagOf) → said ≡ Said.Holds tag
        → tag.number < sector_count (length image.now) }
    ensures { list_of result ≡ doubts_in layout image.now slot said }
{
    match said {
        Said::Nothing => None,
        Said::Doubtful => Some(Doubt::Unread { slot }),
        Said::Holds(tag) => {
            let zeros = [0; 512];
            let sector = tag.number;
            if payload_in(image, slot) == given(image, &zeros, table[sector as usize]) {
                None
            } else {
                Some(Doubt::Differs { slot, sector })
            }
        }
    }
}
