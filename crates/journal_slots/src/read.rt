//! What is read of one slot, and of the mark of a copy, over a journal. No read changes the memory.

ghost use Rattle.std.specs.Prelude.{◌≡◌, ◌≢◌, ◌↔◌, ◌+◌, ◌<◌, [], ℕ, List, Some, length, slice_set};
ghost use Rattle.std.specs.Prelude.{OnOk, IfOk, MatchOption, IsTrue};
ghost use Rattle.chip_model.specs.Geometry.{IsChipSize};
ghost use Rattle.nor_layout.specs.Kinds.{kind_of};
ghost use Rattle.nor_layout.specs.declared.header.Tag.{Tag as TagOf};
ghost use Rattle.erase_journal.specs.Steps.{EndsFirmly};
ghost use Rattle.sector_slots.specs.Slots.{Free, Live, data_blocks, data_block, descriptor_in};
ghost use Rattle.sector_slots.specs.Slots.{content_bytes, raw_slot, stored_at, slot_count};
ghost use Rattle.sector_slots.specs.Steps.{IsBegun};

use crate::head::read_head;
use crate::slot::content_place;
use erase_journal::Journal;
use nor_driver::{Nor, NorError};
use nor_layout::{COMMITTED, FIRST_DATA_BLOCK, Header, Kind, MARK_LEN, SLOTS, Tag, block_kind};

/// What is said of a place: by its descriptor, or in a block of a group by its header.
pub(crate) fn read_header<N: Nor>(
    journal: &mut Journal<N>,
    block: u16,
    place: u16,
) -> Result<Header, NorError>
    requires number { block < data_blocks journal.old.memory }
    requires place { place < 7 }
    requires sized { IsChipSize (length journal.old.memory) }
    ensures ok { IfOk result (λ header. header
        ≡ descriptor_in (data_block journal.old.memory block) place) }
    ensures same { journal.new.memory ≡ journal.old.memory }
    ensures weak { journal.new.weak ≡ journal.old.weak }
    ensures ends { EndsFirmly result journal.old journal.new }
{
    let mut heads = [Header::Free; 7];
    read_head(journal, block, &mut heads)?;
    Ok(heads[place as usize])
}

/// The sector at a place, live or not.
pub(crate) fn read_content<N: Nor>(
    journal: &mut Journal<N>,
    block: u16,
    place: u16,
    into: &mut [u8],
) -> Result<(), NorError>
    requires number { block < data_blocks journal.old.memory }
    requires place { place < 7 }
    requires sized { IsChipSize (length journal.old.memory) }
    requires room { length into.old ≡ 512 }
    ensures ok { OnOk result (into.new
        ≡ content_bytes (data_block journal.old.memory block) place) }
    ensures same { journal.new.memory ≡ journal.old.memory }
    ensures weak { journal.new.weak ≡ journal.old.weak }
    ensures ends { EndsFirmly result journal.old journal.new }
{
    journal.read(block + FIRST_DATA_BLOCK, content_place(place), into)?;
    Ok(())
}

/// The tag and the sector of a live slot; None, and `into` as it was, where it isn't live.
pub(crate) fn read_slot<N: Nor>(
    journal: &mut Journal<N>,
    block: u16,
    place: u16,
    into: &mut [u8],
) -> Result<Option<Tag>, NorError>
    requires number { block < data_blocks journal.old.memory }
    requires place { place < 7 }
    requires sized { IsChipSize (length journal.old.memory) }
    requires room { length into.old ≡ 512 }
    ensures ok { IfOk result (λ found. MatchOption found
        (((tag : TagOf) (content : List ℕ)
        → raw_slot journal.old.memory block place ≢ Live tag content) × (into.new ≡ into.old))
        (λ tag. raw_slot journal.old.memory block place ≡ Live tag into.new)) }
    ensures same { journal.new.memory ≡ journal.old.memory }
    ensures weak { journal.new.weak ≡ journal.old.weak }
    ensures ends { EndsFirmly result journal.old journal.new }
{
    match read_header(journal, block, place)? {
        Header::Live(tag) => {
            read_content(journal, block, place, into)?;
            Ok(Some(tag))
        }
        Header::Free => Ok(None),
        Header::NoGeneration => Ok(None),
        Header::Dead => Ok(None),
    }
}

/// Whether the bytes of a slot say that it is free.
pub(crate) fn free_at<N: Nor>(journal: &mut Journal<N>, slot: u16) -> Result<bool, NorError>
    requires number { slot < slot_count journal.old.memory }
    requires sized { IsChipSize (length journal.old.memory) }
    ensures ok { IfOk result (λ is_free. IsTrue is_free
        ↔ (stored_at journal.old.memory slot ≡ Free)) }
    ensures same { journal.new.memory ≡ journal.old.memory }
    ensures weak { journal.new.weak ≡ journal.old.weak }
    ensures ends { EndsFirmly result journal.old journal.new }
{
    match read_header(journal, slot / SLOTS, slot % SLOTS)? {
        Header::Free => Ok(true),
        Header::Live(_) => Ok(false),
        Header::NoGeneration => Ok(false),
        Header::Dead => Ok(false),
    }
}

/// The sector of a slot that is known to be live.
pub(crate) fn content_at<N: Nor>(
    journal: &mut Journal<N>,
    slot: u16,
    into: &mut [u8],
) -> Result<(), NorError>
    requires number { slot < slot_count journal.old.memory }
    requires sized { IsChipSize (length journal.old.memory) }
    requires room { length into.old ≡ 512 }
    ensures ok { OnOk result ((tag : TagOf) (content : List ℕ)
        → stored_at journal.old.memory slot ≡ Live tag content → into.new ≡ content) }
    ensures same { journal.new.memory ≡ journal.old.memory }
    ensures weak { journal.new.weak ≡ journal.old.weak }
    ensures ends { EndsFirmly result journal.old journal.new }
{
    read_content(journal, slot / SLOTS, slot % SLOTS, into)?;
    Ok(())
}

/// The data block that the mark of a begun copy names, where it is one of this many.
fn marked_source(mark: [u8; MARK_LEN], blocks: u16) -> Option<u16>
    ensures within { MatchOption result (Unit {0}) (λ source. source < blocks) }
    ensures named { (source : ℕ) → source < blocks
        → kind_of (slice_set mark 4 252) ≡ Kind.Committed (source + 4) → result ≡ Some source }
{
    let mut committed = mark;
    committed[4] = COMMITTED;
    match block_kind(committed) {
        Kind::Committed(number)
            if number >= FIRST_DATA_BLOCK && number - FIRST_DATA_BLOCK < blocks => {
            Some(number - FIRST_DATA_BLOCK)
        }
        _ => None,
    }
}

/// The data block of which a copy was begun in this one.
pub(crate) fn read_source<N: Nor>(
    journal: &mut Journal<N>,
    target: u16,
) -> Result<Option<u16>, NorError>
    requires target { target < data_blocks journal.old.memory }
    requires sized { IsChipSize (length journal.old.memory) }
    ensures within { IfOk result (λ found.
        MatchOption found (Unit {0}) (λ source. source < data_blocks journal.old.memory)) }
    ensures named { IfOk result (λ found. (source : ℕ) → source < data_blocks journal.old.memory
        → IsBegun target source journal.old.memory → found ≡ Some source) }
    ensures same { journal.new.memory ≡ journal.old.memory }
    ensures weak { journal.new.weak ≡ journal.old.weak }
    ensures ends { EndsFirmly result journal.old journal.new }
{
    let blocks = journal.blocks() - FIRST_DATA_BLOCK;
    let mut mark = [0; MARK_LEN];
    journal.read(target + FIRST_DATA_BLOCK, 0, &mut mark)?;
    Ok(marked_source(mark, blocks))
}
