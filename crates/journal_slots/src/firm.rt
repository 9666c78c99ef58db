//! The programs of a firm mount: the head of a block again as it reads, and a free slot made dead.

ghost use Rattle.std.specs.Prelude.{IsTrue, IsFalse, IfOk, ◌≢◌, false};
ghost use Rattle.nor_layout.specs.Kinds.{kind_of};
ghost use Rattle.sector_slots.specs.Slots.{is_group};
ghost use Rattle.std.specs.Prelude.{◌≡◌, ◌⊎◌, ◌+◌, ◌*◌, ◌<◌, ◌≤◌, ℕ, length, OnOk, bit_and, drop};
ghost use Rattle.std.specs.Int.{bit_at};
ghost use Rattle.std.specs.Result.{IsErrOf};
ghost use Rattle.chip_model.specs.Geometry.{IsChipSize};
ghost use Rattle.chip_model.specs.Memory.{byte};
ghost use Rattle.nor_layout.specs.Headers.{header_of};
ghost use Rattle.erase_journal.specs.Blocks.{OnlyBlock};
ghost use Rattle.erase_journal.specs.Journals.{IsHealthy};
ghost use Rattle.nor_driver.specs.State.{bits_in};
ghost use Rattle.erase_journal.specs.Steps.{EndsFirmly};
ghost use Rattle.erase_journal.specs.Weak.{AreZerosFirm};
ghost use Rattle.sector_slots.specs.Firm.{KeepsHead, HoldsBegun, AreDeadForGood};
ghost use Rattle.sector_slots.specs.Torn.{HeadInterrupted, StateInterrupted};
ghost use Rattle.sector_slots.specs.Weak.{block_place, descriptor_place as descriptor_at};
ghost use Rattle.sector_slots.specs.Weak.{IsDeadForGood};
ghost use Rattle.sector_slots.specs.Slots.{Free, Dead, data_blocks, data_block, raw_slot};
ghost use Rattle.journal_slots.specs.Programs.{InPlace, IsFirmByte};

use crate::slot::{descriptor_place, program_bytes};
use erase_journal::Journal;
use nor_driver::{Nor, NorError};
use nor_layout::{
    DESCRIPTORS_PLACE, FIRST_DATA_BLOCK, HEAD_LEN, Header, MARK_LEN, block_kind, block_state,
};

/// The first byte of a descriptor that is begun.
const BEGUN: u8 = 0xFE;

/// All bits but the one without which no descriptor is free or live.
const KILLED: u8 = 0xFB;

/// What is programmed over the state of the descriptor at a place: of a dead one that isn't begun
/// the state without the third bit, else the state.
fn firm_state(head: &[u8; HEAD_LEN], place: usize) -> u8
    requires { place < 7 }
    ensures programmed { (result ≡ byte head.now (16 + 4 * place))
        ⊎ ((header_of (drop (16 + 4 * place) head.now) ≡ Header.Dead)
        × (result ≡ bit_and (byte head.now (16 + 4 * place)) 251)) }
    ensures dead { header_of (drop (16 + 4 * place) head.now) ≡ Header.Dead
        → byte head.now (16 + 4 * place) ≢ 254 → bit_at result 2 ≡ 0 }
    ensures begun { byte head.now (16 + 4 * place) ≡ 254 → result ≡ 254 }
{
    let at = DESCRIPTORS_PLACE + 4 * place;
    let state = head[at];
    match block_state([state, head[at + 1], head[at + 2], head[at + 3]]) {
        Header::Dead => {
            if state == BEGUN {
                state
            } else {
                state & KILLED
            }
        }
        Header::Free => state,
        Header::Live(_) => state,
        Header::NoGeneration => state,
    }
}

/// Makes the head of a block what is programmed over it.
fn firm_bytes(head: &mut [u8; HEAD_LEN])
    ensures each { (k : ℕ) → k < 44 → IsFirmByte head.old head.new k }
    ensures dead { (i : ℕ) → i < 7 → header_of (drop (16 + 4 * i) head.old) ≡ Header.Dead
        → byte head.old (16 + 4 * i) ≢ 254 → bit_at (byte head.new (16 + 4 * i)) 2 ≡ 0 }
    ensures begun { (i : ℕ) → i < 7 → byte head.old (16 + 4 * i) ≡ 254
        → byte head.new (16 + 4 * i) ≡ 254 }
    ensures bytes { (k : ℕ) → byte head.old k < 256 }
    ensures size { length head.new ≡ length head.old }
{
    for place in 0..7usize {
        head[DESCRIPTORS_PLACE + 4 * place] = firm_state(head, place);
    }
}

/// Whether a slot of a block with this head is begun.
fn is_begun(head: &[u8; HEAD_LEN]) -> bool
    ensures begun { IsTrue result → (i : ℕ) × (i < 7) × (byte head.now (16 + 4 * i) ≡ 254) }
    ensures slots { IsTrue result → is_group (kind_of head.now) ≡ false }
    ensures not_begun { IsFalse result → is_group (kind_of head.now) ≡ false → (i : ℕ) → i < 7
        → byte head.now (16 + 4 * i) ≢ 254 }
{
    let kind = block_kind([
        head[0], head[1], head[2], head[3], head[4], head[5], head[6], head[7],
    ]);
    if kind.is_of_group() {
        return false;
    }
    for place in 0..7usize {
        if head[DESCRIPTORS_PLACE + 4 * place] == BEGUN {
            return true;
        }
    }
    false
}

/// Whether each byte of a head is FFh.
fn is_blank(head: &[u8; HEAD_LEN]) -> bool
    ensures blank { IsTrue result → (k : ℕ) → k < 44 → byte head.now k ≡ 255 }
    ensures not_blank { IsFalse result → ((k : ℕ) → k < 44 → byte head.now k ≡ 255) → ⊥ }
{
    for at in 0..HEAD_LEN {
        if head[at] != 0xFF {
            return false;
        }
    }
    true
}

/// Whether a slot of a block is begun.
pub(crate) fn has_begun<N: Nor>(journal: &mut Journal<N>, block: u16) -> Result<bool, NorError>
    requires number { block < data_blocks journal.old.memory }
    requires sized { IsChipSize (length journal.old.memory) }
    ensures begun { IfOk result (λ begun. IsTrue begun
        → HoldsBegun (data_block journal.old.memory block)) }
    ensures not_begun { IfOk result (λ begun. IsFalse begun
        → HoldsBegun (data_block journal.old.memory block) → ⊥) }
    ensures same { journal.new.memory ≡ journal.old.memory }
    ensures weak { journal.new.weak ≡ journal.old.weak }
    ensures ends { EndsFirmly result journal.old journal.new }
{
    let mut head = [0; HEAD_LEN];
    journal.read(block + FIRST_DATA_BLOCK, 0, &mut head)?;
    Ok(is_begun(&head))
}

/// Programs the head of a block again, unless it is erased. True where a slot is begun.
pub(crate) fn firm_head<N: Nor>(journal: &mut Journal<N>, block: u16) -> Result<bool, NorError>
    requires number { block < data_blocks journal.old.memory }
    requires sized { IsChipSize (length journal.old.memory) }
    ensures begun { IfOk result (λ begun. IsTrue begun
        → HoldsBegun (data_block journal.old.memory block)) }
    ensures not_begun { IfOk result (λ begun. IsFalse begun
        → HoldsBegun (data_block journal.old.memory block) → ⊥) }
    ensures kept { OnOk result (KeepsHead block journal.old.memory journal.new.memory) }
    ensures zeros { OnOk result (AreZerosFirm (bits_in journal.new) (block_place block) 44) }
    ensures for_good { OnOk result (AreDeadForGood block journal.old.memory
        (bits_in journal.new)) }
    ensures cut { IsErrOf result NorError.Cut
        → KeepsHead block journal.old.memory journal.new.memory }
    ensures size { length journal.new.memory ≡ length journal.old.memory }
    ensures cut_bits { IsErrOf result NorError.Cut → HeadInterrupted block
        (bits_in journal.old) (bits_in journal.new) }
    ensures healthy { IsErrOf result NorError.Cut → IsHealthy journal.old.memory
        → IsHealthy journal.new.memory }
    ensures ends { EndsFirmly result journal.old journal.new }
{
    let mut head = [0; HEAD_LEN];
    journal.read(block + FIRST_DATA_BLOCK, 0, &mut head)?;
    if is_blank(&head) {
        return Ok(false);
    }
    let begun = is_begun(&head);
    firm_bytes(&mut head);
    program_bytes(journal, block, 0, &head)?;
    Ok(begun)
}

/// Makes a free slot dead.
pub(crate) fn kill_slot<N: Nor>(
    journal: &mut Journal<N>,
    block: u16,
    place: u16,
) -> Result<(), NorError>
    requires number { block < data_blocks journal.old.memory }
    requires place { place < 7 }
    requires sized { IsChipSize (length journal.old.memory) }
    ensures ok { OnOk result (raw_slot journal.old.memory block place ≡ Free
        → raw_slot journal.new.memory block place ≡ Dead) }
    ensures for_good { OnOk result (IsDeadForGood (bits_in journal.new) block place) }
    ensures cut { IsErrOf result NorError.Cut → raw_slot journal.old.memory block place ≡ Free
        → (data_block journal.new.memory block ≡ data_block journal.old.memory block)
        ⊎ (raw_slot journal.new.memory block place ≡ Dead) }
    ensures within { OnOk result (InPlace place (data_block journal.old.memory block)
        (data_block journal.new.memory block)) }
    ensures cut_within { IsErrOf result NorError.Cut
        → InPlace place (data_block journal.old.memory block)
        (data_block journal.new.memory block) }
    ensures only { OnlyBlock (block + 4) journal.old.memory journal.new.memory }
    ensures cut_bits { IsErrOf result NorError.Cut
        → StateInterrupted (descriptor_at block place) KILLED (bits_in journal.old)
        (bits_in journal.new) }
    ensures healthy { IsErrOf result NorError.Cut → IsHealthy journal.old.memory
        → IsHealthy journal.new.memory }
    ensures ends { EndsFirmly result journal.old journal.new }
{
    program_bytes(journal, block, descriptor_place(place), &[KILLED])?;
    Ok(())
}
