//! The free blocks of a chip of layout 1: no run of that layout leaves one that isn't erased.

ghost use Rattle.std.specs.Prelude.{◌≡◌, ◌≢◌, ◌*◌, ◌<◌, ℕ, IfOk, IfSome, None, OnOk, length};
ghost use Rattle.chip_model.specs.Geometry.{IsChipSize};
ghost use Rattle.chip_model.specs.Memory.{byte};
ghost use Rattle.nor_layout.specs.Headers.{header_of};
ghost use Rattle.nor_layout.specs.declared.header.Header.TheVariants as headers;
ghost use Rattle.erase_journal.specs.Steps.{EndsFirmly};
ghost use Rattle.sector_slots.specs.Slots.{data_blocks};
ghost use Rattle.sector_survey.specs.Cleanness.{FreeBlockTells, FreeBlocksTell, HasFreeErased};

use erase_journal::Journal;
use nor_driver::{Nor, NorError};
use nor_layout::{BLOCK_LEN, FIRST_DATA_BLOCK, Header, block_state};

/// The first place of the chip, in bytes, that isn't erased though its block reads as free by
/// layout 1.
#[tactic(auto, using(erase_journal::proofs::Calls::repeated_calls))]
pub(crate) fn first_dirty_group<N: Nor>(journal: &mut Journal<N>) -> Result<Option<u32>, NorError>
    ensures told { IfOk result (λ found. FreeBlocksTell found journal.old.memory) }
    ensures same { journal.new.memory ≡ journal.old.memory }
    ensures ends { EndsFirmly result journal.old journal.new }
{
    let blocks = journal.blocks() - FIRST_DATA_BLOCK;
    for block in 0..blocks {
        if let Some(byte) = dirty_byte(journal, block)? {
            return Ok(Some(BLOCK_LEN * (block + FIRST_DATA_BLOCK) as u32 + byte));
        }
    }
    Ok(None)
}

/// Erases each data block that reads as free by layout 1 and isn't erased.
#[tactic(auto, using(erase_journal::proofs::Calls::repeated_calls))]
pub(crate) fn erase_free_blocks<N: Nor>(journal: &mut Journal<N>) -> Result<(), NorError>
    ensures erased { OnOk result (HasFreeErased journal.old.memory journal.new.memory) }
    ensures ends { EndsFirmly result journal.old journal.new }
{
    let blocks = journal.blocks() - FIRST_DATA_BLOCK;
    for block in 0..blocks {
        if dirty_byte(journal, block)?.is_some() {
            journal.erase(block + FIRST_DATA_BLOCK)?;
        }
    }
    Ok(())
}

/// The first byte of a data block that isn't erased, where the block reads as free by layout 1.
fn dirty_byte<N: Nor>(journal: &mut Journal<N>, block: u16) -> Result<Option<u32>, NorError>
    requires number { block < data_blocks journal.old.memory }
    requires sized { IsChipSize (length journal.old.memory) }
    ensures told { IfOk result (λ found. FreeBlockTells found journal.old.memory block) }
    ensures inside { IfOk result (λ found. IfSome found (λ byte. byte < 4096)) }
    ensures same { journal.new.memory ≡ journal.old.memory }
    ensures ends { EndsFirmly result journal.old journal.new }
{
    let mut bytes = [0; BLOCK_LEN as usize];
    journal.read(block + FIRST_DATA_BLOCK, 0, &mut bytes)?;
    Ok(written_in_free(&bytes))
}

/// The first of a block's bytes that isn't FFh, where the block reads as free by layout 1.
fn written_in_free(bytes: &[u8]) -> Option<u32>
    requires size { length bytes.now ≡ 4096 }
    ensures none { result ≡ None → header_of bytes.now ≡ headers.Free
        → (k : ℕ) → k < 4096 → byte bytes.now k ≡ 255 }
    ensures free { IfSome result (λ _. header_of bytes.now ≡ headers.Free) }
    ensures some { IfSome result (λ k. (k < 4096) × (byte bytes.now k ≢ 255)) }
    ensures before { IfSome result (λ k. (j : ℕ) → j < k → byte bytes.now j ≡ 255) }
{
    match block_state([bytes[0], bytes[1], bytes[2], bytes[3]]) {
        Header::Free => first_written(bytes),
        Header::Live(_) => None,
        Header::NoGeneration => None,
        Header::Dead => None,
    }
}

/// The first of a block's bytes that isn't FFh.
fn first_written(bytes: &[u8]) -> Option<u32>
    requires size { length bytes.now ≡ 4096 }
    ensures none { result ≡ None → (k : ℕ) → k < 4096 → byte bytes.now k ≡ 255 }
    ensures some { IfSome result (λ k. (k < 4096) × (byte bytes.now k ≢ 255)) }
    ensures before { IfSome result (λ k. (j : ℕ) → j < k → byte bytes.now j ≡ 255) }
{
    for at in 0..bytes.len() {
        if bytes[at] != 255 {
            return Some(at as u32);
        }
    }
    None
}
