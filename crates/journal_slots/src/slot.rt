//! The programs and the copy of one slot, over a journal: each leaves all other slots, and all
//! other blocks, as they were.

ghost use Rattle.std.specs.Prelude.{◌≡◌, ◌≢◌, ◌⊎◌, ◌+◌, ◌*◌, ◌<◌, ℕ, length, OnOk, false, ◌%◌, ◌≤◌};
ghost use Rattle.std.specs.Result.{IsErrOf};
ghost use Rattle.chip_model.specs.Geometry.{IsChipSize};
ghost use Rattle.chip_model.specs.Memory.{byte, and_at, TornAnd};
ghost use Rattle.nor_driver.specs.State.{bits_in, program_bits, Leaves};
ghost use Rattle.nor_layout.specs.declared.header.Tag.{Tag as TagOf};
ghost use Rattle.erase_journal.specs.Blocks.{SameChip, OnlyBlock};
ghost use Rattle.erase_journal.specs.Journals.{IsHealthy};
ghost use Rattle.erase_journal.specs.Steps.{EndsFirmly};
ghost use Rattle.erase_journal.specs.Torn.{ProgramInterrupted};
ghost use Rattle.sector_slots.specs.Slots.{Free, Live, Dead, data_blocks, data_block, kind_at};
ghost use Rattle.sector_slots.specs.Slots.{raw_slot, IsLive, is_group};
ghost use Rattle.sector_slots.specs.Steps.{HoldsTag, OnlyPlace, IsBegun, IsErasedSlot, CopyLeaves};
ghost use Rattle.sector_slots.specs.Copying.{copied_tag, source_slot};
ghost use Rattle.sector_slots.specs.Firm.{SameStatesBut};
ghost use Rattle.sector_slots.specs.Torn.{IsBegunDescriptor, PutInterrupted, SameButPlace};
ghost use Rattle.sector_slots.specs.Torn.{StateInterrupted, with_descriptor, with_pages};
ghost use Rattle.sector_slots.specs.Weak.{block_place, descriptor_place as descriptor_at};
ghost use Rattle.sector_slots.specs.Weak.{IsDeadForGood};
ghost use Rattle.journal_slots.specs.Programs.{InPlace, OnlyBytes, PagesInterrupted, WriteLeaves};

use crate::mark::read_kind;
use crate::read::{read_slot, read_source};
use erase_journal::Journal;
use nor_driver::{Nor, NorError};
use nor_layout::{
    COMMITTED, DESCRIPTORS_PLACE, FIRST_DATA_BLOCK, Generation, Kind, PAGE_LEN, RETIRED, SLOT_LEN,
    Tag, begun_header, live_header,
};

/// Where the descriptor of the slot at this place lies in its block, in bytes.
pub(crate) fn descriptor_place(place: u16) -> u32
    requires { place < 7 }
    ensures { result ≡ 16 + 4 * place }
{
    DESCRIPTORS_PLACE as u32 + 4 * place as u32
}

/// Where its sector begins.
pub(crate) fn content_place(place: u16) -> u32
    requires { place < 7 }
    ensures { result ≡ 512 * (place + 1) }
{
    SLOT_LEN as u32 * (place as u32 + 1)
}

/// Programs bytes of one page of a data block.
pub(crate) fn program_bytes<N: Nor>(
    journal: &mut Journal<N>,
    block: u16,
    at: u32,
    bytes: &[u8],
) -> Result<(), NorError>
    requires number { block < data_blocks journal.old.memory }
    requires sized { IsChipSize (length journal.old.memory) }
    requires some { 0 < length bytes.now }
    requires page { at % 256 + length bytes.now ≤ 256 }
    requires range { at + length bytes.now ≤ 4096 }
    ensures ok { OnOk result (data_block journal.new.memory block
        ≡ and_at (data_block journal.old.memory block) at bytes.now) }
    ensures firm { OnOk result (bits_in journal.new
        ≡ program_bits (bits_in journal.old) (block_place block + at) bytes.now) }
    ensures cut_bits { IsErrOf result NorError.Cut → ProgramInterrupted (block_place block + at)
        bytes.now (bits_in journal.old) (bits_in journal.new) }
    ensures cut { IsErrOf result NorError.Cut → Leaves (data_block journal.old.memory block)
        (TornAnd (data_block journal.old.memory block) at bytes.now)
        (and_at (data_block journal.old.memory block) at bytes.now)
        (data_block journal.new.memory block) }
    ensures bytes { (i : ℕ) → byte bytes.now i < 256 }
    ensures only { OnlyBlock (block + 4) journal.old.memory journal.new.memory }
    ensures healthy { IsErrOf result NorError.Cut → IsHealthy journal.old.memory
        → IsHealthy journal.new.memory }
    ensures ends { EndsFirmly result journal.old journal.new }
{
    journal.program(block + FIRST_DATA_BLOCK, at, bytes)?;
    Ok(())
}

/// Programs the two pages of the sector at this place.
fn write_content<N: Nor>(
    journal: &mut Journal<N>,
    block: u16,
    place: u16,
    content: &[u8],
) -> Result<(), NorError>
    requires number { block < data_blocks journal.old.memory }
    requires place { place < 7 }
    requires sized { IsChipSize (length journal.old.memory) }
    requires size { length content.now ≡ 512 }
    ensures ok { OnOk result (data_block journal.new.memory block
        ≡ and_at (data_block journal.old.memory block) (512 * (place + 1)) content.now) }
    ensures cut { IsErrOf result NorError.Cut
        → OnlyBytes (512 * (place + 1)) 512 (data_block journal.old.memory block)
        (data_block journal.new.memory block) }
    ensures only { OnlyBlock (block + 4) journal.old.memory journal.new.memory }
    ensures firm { OnOk result (bits_in journal.new
        ≡ with_pages block place content.now (bits_in journal.old)) }
    ensures cut_bits { IsErrOf result NorError.Cut → PagesInterrupted block place content.now
        (bits_in journal.old) (bits_in journal.new) }
    ensures healthy { IsErrOf result NorError.Cut → IsHealthy journal.old.memory
        → IsHealthy journal.new.memory }
    ensures ends { EndsFirmly result journal.old journal.new }
{
    let at = content_place(place);
    program_bytes(journal, block, at, &content[..PAGE_LEN])?;
    program_bytes(journal, block, at + PAGE_LEN as u32, &content[PAGE_LEN..])?;
    Ok(())
}

/// Programs a descriptor that is begun, and the sector, 512 bytes, into a place that is free. Cut,
/// it leaves the block as it was, or the slot dead.
fn fill<N: Nor>(
    journal: &mut Journal<N>,
    block: u16,
    place: u16,
    header: &[u8],
    content: &[u8],
) -> Result<(), NorError>
    requires number { block < data_blocks journal.old.memory }
    requires place { place < 7 }
    requires sized { IsChipSize (length journal.old.memory) }
    requires header { length header.now ≡ 4 }
    requires begun { byte header.now 0 ≡ 254 }
    requires size { length content.now ≡ 512 }
    ensures ok { OnOk result (data_block journal.new.memory block
        ≡ and_at (and_at (data_block journal.old.memory block) (16 + 4 * place) header.now)
        (512 * (place + 1)) content.now) }
    ensures cut { IsErrOf result NorError.Cut → raw_slot journal.old.memory block place ≡ Free
        → (data_block journal.new.memory block ≡ data_block journal.old.memory block)
        ⊎ (raw_slot journal.new.memory block place ≡ Dead) }
    ensures within { IsErrOf result NorError.Cut
        → InPlace place (data_block journal.old.memory block)
        (data_block journal.new.memory block) }
    ensures bytes { (i : ℕ) → byte header.now i < 256 }
    ensures only { OnlyBlock (block + 4) journal.old.memory journal.new.memory }
    ensures firm { OnOk result (bits_in journal.new ≡ with_pages block place content.now
        (with_descriptor block place header.now (bits_in journal.old))) }
    ensures cut_bits { IsErrOf result NorError.Cut → (tag : TagOf)
        → IsBegunDescriptor tag header.now → PutInterrupted block place tag content.now
        (bits_in journal.old) (bits_in journal.new) }
    ensures healthy { IsErrOf result NorError.Cut → IsHealthy journal.old.memory
        → IsHealthy journal.new.memory }
    ensures ends { EndsFirmly result journal.old journal.new }
{
    program_bytes(journal, block, descriptor_place(place), header)?;
    write_content(journal, block, place, content)?;
    Ok(())
}

/// Writes a sector into a place that is free: its descriptor, two pages, and last the commit.
pub(crate) fn write_slot<N: Nor>(
    journal: &mut Journal<N>,
    block: u16,
    place: u16,
    tag: Tag,
    content: &[u8],
) -> Result<(), NorError>
    requires number { block < data_blocks journal.old.memory }
    requires place { place < 7 }
    requires sized { IsChipSize (length journal.old.memory) }
    requires size { length content.now ≡ 512 }
    ensures ok { OnOk result (IsErasedSlot block place journal.old.memory
        → raw_slot journal.new.memory block place ≡ Live tag content.now) }
    ensures live { OnOk result (raw_slot journal.old.memory block place ≡ Free
        → HoldsTag tag (raw_slot journal.new.memory block place)) }
    ensures cut { IsErrOf result NorError.Cut → raw_slot journal.old.memory block place ≡ Free
        → WriteLeaves place tag content.now (data_block journal.old.memory block)
        (data_block journal.new.memory block) }
    ensures within { OnOk result (InPlace place (data_block journal.old.memory block)
        (data_block journal.new.memory block)) }
    ensures cut_within { IsErrOf result NorError.Cut
        → InPlace place (data_block journal.old.memory block)
        (data_block journal.new.memory block) }
    ensures only { OnlyBlock (block + 4) journal.old.memory journal.new.memory }
    ensures cut_bits { IsErrOf result NorError.Cut → PutInterrupted block place tag content.now
        (bits_in journal.old) (bits_in journal.new) }
    ensures healthy { IsErrOf result NorError.Cut → IsHealthy journal.old.memory
        → IsHealthy journal.new.memory }
    ensures ends { EndsFirmly result journal.old journal.new }
{
    let header = begun_header(tag);
    fill(journal, block, place, &header, content)?;
    program_bytes(journal, block, descriptor_place(place), &[COMMITTED])?;
    Ok(())
}

/// Writes a live slot into a place that is free: two pages, and then its whole descriptor.
pub(crate) fn write_live_slot<N: Nor>(
    journal: &mut Journal<N>,
    block: u16,
    place: u16,
    tag: Tag,
    content: &[u8],
) -> Result<(), NorError>
    requires number { block < data_blocks journal.old.memory }
    requires place { place < 7 }
    requires sized { IsChipSize (length journal.old.memory) }
    requires size { length content.now ≡ 512 }
    ensures ok { OnOk result (IsErasedSlot block place journal.old.memory
        → raw_slot journal.new.memory block place ≡ Live tag content.now) }
    ensures live { OnOk result (raw_slot journal.old.memory block place ≡ Free
        → HoldsTag tag (raw_slot journal.new.memory block place)) }
    ensures within { OnOk result (InPlace place (data_block journal.old.memory block)
        (data_block journal.new.memory block)) }
    ensures cut_within { IsErrOf result NorError.Cut
        → InPlace place (data_block journal.old.memory block)
        (data_block journal.new.memory block) }
    ensures only { OnlyBlock (block + 4) journal.old.memory journal.new.memory }
    ensures cut_bits { IsErrOf result NorError.Cut → SameButPlace block place
        (bits_in journal.old) (bits_in journal.new) }
    ensures healthy { IsErrOf result NorError.Cut → IsHealthy journal.old.memory
        → IsHealthy journal.new.memory }
    ensures ends { EndsFirmly result journal.old journal.new }
{
    let header = live_header(tag);
    write_content(journal, block, place, content)?;
    program_bytes(journal, block, descriptor_place(place), &header)?;
    Ok(())
}

/// Makes a live slot dead, in a block of slots.
pub(crate) fn retire_slot<N: Nor>(
    journal: &mut Journal<N>,
    block: u16,
    place: u16,
) -> Result<(), NorError>
    requires number { block < data_blocks journal.old.memory }
    requires place { place < 7 }
    requires sized { IsChipSize (length journal.old.memory) }
    ensures ok { OnOk result (is_group (kind_at journal.old.memory block) ≡ false
        → raw_slot journal.new.memory block place ≡ Dead) }
    ensures for_good { OnOk result (IsDeadForGood (bits_in journal.new) block place) }
    ensures states { OnOk result (SameStatesBut place block journal.old.memory
        journal.new.memory) }
    ensures cut { IsErrOf result NorError.Cut → IsLive (raw_slot journal.old.memory block place)
        → is_group (kind_at journal.old.memory block) ≡ false
        → (data_block journal.new.memory block ≡ data_block journal.old.memory block)
        ⊎ (raw_slot journal.new.memory block place ≡ Dead) }
    ensures within { OnOk result (InPlace place (data_block journal.old.memory block)
        (data_block journal.new.memory block)) }
    ensures cut_within { IsErrOf result NorError.Cut
        → InPlace place (data_block journal.old.memory block)
        (data_block journal.new.memory block) }
    ensures only { OnlyBlock (block + 4) journal.old.memory journal.new.memory }
    ensures cut_bits { IsErrOf result NorError.Cut
        → StateInterrupted (descriptor_at block place) RETIRED (bits_in journal.old)
        (bits_in journal.new) }
    ensures healthy { IsErrOf result NorError.Cut → IsHealthy journal.old.memory
        → IsHealthy journal.new.memory }
    ensures ends { EndsFirmly result journal.old journal.new }
{
    program_bytes(journal, block, descriptor_place(place), &[RETIRED])?;
    Ok(())
}

/// The tag of the copy of a slot in a block of this kind: of a block of a group with the first
/// generation, of any other the slot's own.
fn copied_tag(kind: Kind, tag: Tag) -> Tag
    ensures { result ≡ copied_tag kind tag }
{
    match kind {
        Kind::Group(_) => Tag {
            number: tag.number,
            generation: Generation::Zero,
        },
        _ => tag,
    }
}

/// Copies a slot of one block, where it is live, to the same place of another.
fn copy_from<N: Nor>(
    journal: &mut Journal<N>,
    source: u16,
    target: u16,
    place: u16,
) -> Result<(), NorError>
    requires source { source < data_blocks journal.old.memory }
    requires target { target < data_blocks journal.old.memory }
    requires place { place < 7 }
    requires sized { IsChipSize (length journal.old.memory) }
    ensures ok { OnOk result (raw_slot journal.old.memory target place ≡ Free
        → CopyLeaves (source_slot journal.old.memory source place) target place journal.old.memory
        journal.new.memory) }
    ensures within { OnOk result (InPlace place (data_block journal.old.memory target)
        (data_block journal.new.memory target)) }
    ensures cut_within { IsErrOf result NorError.Cut
        → InPlace place (data_block journal.old.memory target)
        (data_block journal.new.memory target) }
    ensures only { OnlyBlock (target + 4) journal.old.memory journal.new.memory }
    ensures cut_bits { IsErrOf result NorError.Cut → SameButPlace target place
        (bits_in journal.old) (bits_in journal.new) }
    ensures healthy { IsErrOf result NorError.Cut → IsHealthy journal.old.memory
        → IsHealthy journal.new.memory }
    ensures ends { EndsFirmly result journal.old journal.new }
{
    let mut content = [0; SLOT_LEN];
    let kind = read_kind(journal, source)?;
    match read_slot(journal, source, place, &mut content)? {
        Some(tag) => {
            write_live_slot(journal, target, place, copied_tag(kind, tag), &content)?;
            Ok(())
        }
        None => Ok(()),
    }
}

/// Copies the slot at this place of the block that a void block names.
pub(crate) fn copy_slot<N: Nor>(
    journal: &mut Journal<N>,
    target: u16,
    place: u16,
) -> Result<(), NorError>
    requires target { target < data_blocks journal.old.memory }
    requires place { place < 7 }
    requires sized { IsChipSize (length journal.old.memory) }
    ensures ok { OnOk result ((source : ℕ) → source < data_blocks journal.old.memory
        → IsBegun target source journal.old.memory → raw_slot journal.old.memory target place ≡ Free
        → IsBegun target source journal.new.memory
        × CopyLeaves (source_slot journal.old.memory source place) target place journal.old.memory
        journal.new.memory) }
    ensures cut { IsErrOf result NorError.Cut → kind_at journal.old.memory target ≡ Kind.Void
        → kind_at journal.new.memory target ≡ Kind.Void }
    ensures only { OnOk result (OnlyPlace (7 * target + place) journal.old.memory
        journal.new.memory) }
    ensures cut_only { IsErrOf result NorError.Cut
        → OnlyPlace (7 * target + place) journal.old.memory journal.new.memory }
    ensures chip { SameChip journal.old.memory journal.new.memory }
    ensures fresh { OnOk result ((i : ℕ) → i < 7 → i ≢ place
        → IsErasedSlot target i journal.old.memory → IsErasedSlot target i journal.new.memory) }
    ensures cut_bits { IsErrOf result NorError.Cut → SameButPlace target place
        (bits_in journal.old) (bits_in journal.new) }
    ensures healthy { IsErrOf result NorError.Cut → IsHealthy journal.old.memory
        → IsHealthy journal.new.memory }
    ensures ends { EndsFirmly result journal.old journal.new }
{
    match read_source(journal, target)? {
        Some(source) => {
            copy_from(journal, source, target, place)?;
            Ok(())
        }
        None => Ok(()),
    }
}
