//! What the bytes of an image say, all of it.

ghost use Rattle.std.specs.Prelude.{◌≡◌, ◌*◌, IfOk, IfSome, None, length};
ghost use Rattle.chip_model.specs.Geometry.{IsChipSize};
ghost use Rattle.nor_layout.specs.Layouts.{layout_of};
ghost use Rattle.erase_journal.specs.Journals.{IsHealthy};
ghost use Rattle.sector_map.specs.Maps.{geometry_of};
ghost use Rattle.sector_survey.specs.Cleanness.{HasCleanGroups, HasFreeErased, IsFirstDirty};
ghost use Rattle.sector_survey.specs.Cleanness.{IsOfGroups};
ghost use Rattle.sector_survey.specs.Reports.{CleannessTells, IsReportOf};
ghost use Rattle.sector_survey.specs.Verdicts.{Tells};

use crate::clean::{Cleanness, examine_clean, told_of_nor};
use crate::groups::{erase_free_blocks, first_dirty_group};
use crate::summary::{BlockSummary, summarize};
use crate::verdict::{Unexamined, Verdict, examine};
use chip_model::Geometry;
use chip_simulator::PromptChip;
use erase_journal::{Journal, JournalTally, RecoverError, read_tally};
use nor_driver::{Driver, Nor, NorError, ProbeError};
use nor_layout::{Layout, SUPER_LEN, SuperError, read_layout};
use std::alloc::Global;

/// What the bytes of an image say: what a mount would answer, the votes and entries of the
/// journals, the data blocks, where the journals are healthy, and whether what reads as free is
/// erased, where it would be mounted. Source: own.
#[derive(Drop)]
pub struct Report {
    pub verdict: Verdict,
    pub counts: JournalTally,
    pub blocks: Option<Vec<BlockSummary>>,
    pub cleanness: Option<Cleanness>,
}

/// What the bytes of an image say. They are looked at in copies: nothing of them is changed.
///
/// `OutOfMemory` where there is no memory for a copy and a table; the other refusals are
/// those of a chip in memory that loses its power, which nothing arms here.
pub fn survey_image(alloc: Global, image: &[u8]) -> Result<Report, Unexamined>
    requires { IsChipSize (length image.now) }
    ensures { IfOk result (λ report. IsReportOf report image.now) }
{
    let mut chip = copied_chip(alloc, image)?;
    let counts = match read_tally(&mut chip) {
        Ok(counts) => counts,
        Err(NorError::Cut) => return Err(Unexamined::Cut),
        Err(NorError::Slow) => return Err(Unexamined::Slow),
    };
    let (_, verdict) = examine(alloc, copied_chip(alloc, image)?);
    let verdict = verdict?;
    let (_, blocks) = summarize(alloc, copied_chip(alloc, image)?);
    Ok(Report {
        verdict,
        counts,
        blocks: blocks?,
        cleanness: cleanness_of(alloc, image, verdict)?,
    })
}

/// Whether what reads as free is erased, of an image of which this is the verdict.
fn cleanness_of(
    alloc: Global,
    image: &[u8],
    verdict: Verdict,
) -> Result<Option<Cleanness>, Unexamined>
    requires size { IsChipSize (length image.now) }
    requires verdict { Tells verdict image.now }
    ensures { IfOk result (λ says. CleannessTells verdict says image.now) }
{
    match verdict {
        Verdict::NotFormatted => Ok(None),
        Verdict::Corrupt(_) => Ok(None),
        Verdict::Mountable(layout) => {
            match examine_clean(copied_chip(alloc, image)?, layout) {
                Ok(says) => Ok(Some(says)),
                Err(error) => Err(error),
            }
        }
    }
}

/// Of an image of layout 1 whose journals are healthy, the first place, in bytes, that isn't erased
/// though its block reads as free; None of any other image. It is looked at in a copy.
pub fn dirty_group_of(alloc: Global, image: &[u8]) -> Result<Option<u32>, Unexamined>
    requires { IsChipSize (length image.now) }
    ensures none { IfOk result (λ found. found ≡ None → IsHealthy image.now
        → HasCleanGroups image.now) }
    ensures some { IfOk result (λ found. IfSome found (λ at. IsOfGroups image.now
        × IsFirstDirty image.now at)) }
{
    let Ok(Layout::Groups) = layout_in(image) else {
        return Ok(None);
    };
    let chip = copied_chip(alloc, image)?;
    let mut journal = match Journal::recover(chip) {
        Ok(journal) => journal,
        Err((_, RecoverError::Cut)) => return Err(Unexamined::Cut),
        Err((_, RecoverError::Slow)) => return Err(Unexamined::Slow),
        Err((_, RecoverError::Corrupt)) => return Ok(None),
    };
    match first_dirty_group(&mut journal) {
        Ok(found) => Ok(found),
        Err(error) => Err(told_of_nor(error)),
    }
}

/// An image of layout 1 once each block of it that reads as free is erased; any other image as it
/// is, and one whose journals are corrupt.
pub fn with_free_groups_erased(alloc: Global, image: Vec<u8>) -> Result<Vec<u8>, Unexamined>
    requires { IsChipSize (length image.items) }
    ensures size { IfOk result (λ new. length new.items ≡ length image.items) }
    ensures erased { IsOfGroups image.items → IsHealthy image.items
        → IfOk result (λ new. HasFreeErased image.items new.items) }
    ensures other { (IsOfGroups image.items → ⊥)
        → IfOk result (λ new. new.items ≡ image.items) }
{
    let Ok(Layout::Groups) = layout_in(image.as_slice()) else {
        return Ok(image);
    };
    let chip = copied_chip(alloc, image.as_slice())?;
    let mut journal = match Journal::recover(chip) {
        Ok(journal) => journal,
        Err((_, RecoverError::Cut)) => return Err(Unexamined::Cut),
        Err((_, RecoverError::Slow)) => return Err(Unexamined::Slow),
        Err((_, RecoverError::Corrupt)) => return Ok(image),
    };
    match erase_free_blocks(&mut journal) {
        Ok(()) => Ok(journal.into_inner().into_inner().into_inner()),
        Err(error) => Err(told_of_nor(error)),
    }
}

/// Which layout the superblock of an image says.
fn layout_in(image: &[u8]) -> Result<Layout, SuperError>
    requires { IsChipSize (length image.now) }
    ensures { result ≡ layout_of image.now (geometry_of (length image.now)) }
{
    let Some(chip) = Geometry::of(image.len() as u32) else {
        unreachable!()
    };
    let mut head = [0; SUPER_LEN];
    head.copy_from_slice(&image[..SUPER_LEN]);
    read_layout(&head, chip)
}

/// A chip in memory with these bytes, behind its driver.
fn copied_chip(alloc: Global, image: &[u8]) -> Result<Driver<PromptChip>, Unexamined>
    requires { IsChipSize (length image.now) }
    ensures { IfOk result (λ chip. (⟦<Driver<PromptChip> as Nor>⟧.state chip).memory
        ≡ image.now) }
{
    let Ok(copy) = image.to_vec(alloc) else {
        return Err(Unexamined::OutOfMemory);
    };
    let Ok(chip) = PromptChip::new(copy) else {
        unreachable!()
    };
    match Driver::probe(chip) {
        Ok(driver) => Ok(driver),
        Err((_, ProbeError::Cut)) => Err(Unexamined::Cut),
        Err((_, ProbeError::Slow)) => Err(Unexamined::Slow),
        Err((_, error)) => Err(Unexamined::Probe(error)),
    }
}
