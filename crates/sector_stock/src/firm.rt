//! What was free at a firm mount is suspect until its first use: a bit of it may have been torn,
//! and read another way at the next power-on. A wholly free block is erased before a slot of it is
//! given, and the reserve, where it is suspect, before a slot of any wholly free block is. Of any
//! other block the first free slot is made dead. After that the block is trusted.

ghost use Rattle.std.specs.Prelude.{◌≡◌, ◌*◌, ◌/◌, ◌<◌, ◌≤◌, ℕ, List, true, false};
ghost use Rattle.std.specs.Prelude.{length, OnOk, IfSome, None};
ghost use Rattle.std.specs.Result.{IsErrOf};
ghost use Rattle.chip_model.specs.Geometry.{IsChipSize};
ghost use Rattle.nor_driver.specs.State.{IsNorReady, bits_in};
ghost use Rattle.erase_journal.specs.Journals.{IsHealthy, IsSettled};
ghost use Rattle.erase_journal.specs.Steps.{EndsFirmly};
ghost use Rattle.sector_slots.specs.Blocks.{AreAtRest};
ghost use Rattle.sector_slots.specs.Slots.{Free, data_blocks, kind_at, slot_at, slot_count};
ghost use Rattle.sector_stock.specs.Copy.{KeepsSectors};
ghost use Rattle.sector_stock.specs.Index.{in_block, IsIndexOf, IsAhead, IsWholeBlock, Suspects};
ghost use Rattle.sector_stock.specs.Index.{Trusts, TrustsMore, AreTrusted, IsFirmIn};
ghost use Rattle.sector_stock.specs.Losses.{IsFirmDiskIn, LosesNothing};
ghost use Rattle.sector_stock.specs.IndexSteps.{HasNoneFreeBefore};
ghost use Rattle.sector_stock.specs.Room.{HasRoom};
ghost use Rattle.sector_stock.specs.Takes.{IsGivable, MakesFirm, GivesTrusted, MadeTrusted};
ghost use Rattle.sector_stock.specs.Takes.{TrustsReserve};

use crate::index::{BlockState, Cursors, SlotState, free_slot, mark_dead, mark_live};
use crate::policy::is_whole;
use nor_driver::NorError;
use sector_slots::FirmCalls;

/// What is free now is suspect.
pub fn suspect_all(blocks: &mut [BlockState])
    requires size { length blocks.old < 65536 }
    ensures { Suspects (length blocks.old) blocks.old blocks.new }
{
    for block in 0..blocks.len() as u16 {
        blocks[block as usize].suspect = true;
    }
}

/// A block was made firm.
fn trust(blocks: &mut [BlockState], block: u16)
    requires number { block < length blocks.old }
    ensures { Trusts block blocks.old blocks.new }
{
    blocks[block as usize].suspect = false;
}

/// Makes the block firm from which a free slot is given next, where it is suspect; and so on, while
/// none of its slots is left. Where that block is wholly free, makes a suspect reserve firm too:
/// once the slot is written it may be the only wholly free block. Where no slot is free outside the
/// reserve, nothing is done: a copy makes its target firm.
pub fn firm_free<S: FirmCalls>(
    slots: &mut S,
    states: &mut [SlotState],
    blocks: &mut [BlockState],
    at: &mut Cursors,
) -> Result<(), NorError>
    requires sized { IsChipSize (length (S.state slots.old).memory) }
    requires ready { IsNorReady (S.state slots.old) }
    requires settled { IsSettled (S.state slots.old).memory }
    requires index { IsIndexOf states.old blocks.old at.old (S.state slots.old).memory }
    requires room { HasRoom (S.state slots.old).memory }
    ensures ok { OnOk result (MakesFirm (S.state slots.old).memory (S.state slots.new).memory) }
    ensures trusts { OnOk result (TrustsMore blocks.old blocks.new) }
    ensures made { OnOk result (MadeTrusted blocks.old blocks.new (S.state slots.old).memory
        (S.state slots.new).memory) }
    ensures firm { IsFirmIn (bits_in (S.state slots.old)) blocks.old
        → OnOk result (IsFirmIn (bits_in (S.state slots.new)) blocks.new) }
    ensures disk { IsFirmDiskIn (bits_in (S.state slots.old)) blocks.old
        → OnOk result (IsFirmDiskIn (bits_in (S.state slots.new)) blocks.new) }
    ensures cut_bits { IsErrOf result NorError.Cut
        → IsFirmDiskIn (bits_in (S.state slots.old)) blocks.old
        → LosesNothing (S.state slots.old).memory (bits_in (S.state slots.new)) }
    ensures next { OnOk result (GivesTrusted at.new.policy at.new blocks.new
        (S.state slots.new).memory) }
    ensures spare { OnOk result (TrustsReserve at.new.policy at.new blocks.new
        (S.state slots.new).memory) }
    ensures none { AreTrusted blocks.old → (S.state slots.new).memory ≡ (S.state slots.old).memory }
    ensures policy { OnOk result (at.new.policy ≡ at.old.policy) }
    ensures index { OnOk result (IsIndexOf states.new blocks.new at.new
        (S.state slots.new).memory) }
    ensures cut { IsErrOf result NorError.Cut
        → KeepsSectors (S.state slots.old).memory (S.state slots.new).memory }
    ensures healthy { IsErrOf result NorError.Cut → IsHealthy (S.state slots.new).memory }
    ensures size { length (S.state slots.new).memory ≡ length (S.state slots.old).memory }
    ensures states_size { length states.new ≡ length states.old }
    ensures blocks_size { length blocks.new ≡ length blocks.old }
    ensures ends { EndsFirmly result (S.state slots.old) (S.state slots.new) }
{
    while let Some(slot) = next_suspect(states, blocks, at) {
        firm_one(slots, states, blocks, at, slot)?;
    }
    Ok(())
}

/// The free slot that is given next, where its block is suspect; else the first slot of the
/// reserve, where that is suspect and the block wholly free; else None.
fn next_suspect(states: &[SlotState], blocks: &[BlockState], at: &mut Cursors) -> Option<u16>
    requires size { length states.now < 65536 }
    requires blocks { length blocks.now ≤ 4096 }
    requires reserve { at.old.reserve < length blocks.now }
    requires states { length states.now ≡ 7 * length blocks.now }
    requires ahead { IsAhead blocks.now at.old }
    ensures found { (m : List ℕ) → IsIndexOf states.now blocks.now at.old m
        → AreAtRest (kind_at m) (data_blocks m) → IfSome result (λ w. IsGivable w m) }
    ensures next { (m : List ℕ) → IsIndexOf states.now blocks.now at.old m → result ≡ None
        → GivesTrusted at.new.policy at.new blocks.now m }
    ensures spare { (m : List ℕ) → IsIndexOf states.now blocks.now at.old m → result ≡ None
        → TrustsReserve at.new.policy at.new blocks.now m }
    ensures first { (m : List ℕ) → IsIndexOf states.now blocks.now at.old m
        → IfSome result (λ w. HasNoneFreeBefore w m) }
    ensures suspect { IfSome result (λ w. (in_block blocks.now (w / 7)).suspect ≡ true) }
    ensures number { IfSome result (λ w. w / 7 < length blocks.now) }
    ensures ahead { IsAhead blocks.now at.new }
    ensures reserve { at.new.reserve ≡ at.old.reserve }
    ensures policy { at.new.policy ≡ at.old.policy }
{
    match free_slot(states, blocks, at) {
        Some(slot) => {
            let given = blocks[(slot / 7) as usize];
            if given.suspect {
                Some(slot)
            } else if is_whole(given) && blocks[at.reserve as usize].suspect {
                Some(7 * at.reserve)
            } else {
                None
            }
        }
        None => None,
    }
}

/// Makes the block of a free slot firm.
fn firm_one<S: FirmCalls>(
    slots: &mut S,
    states: &mut [SlotState],
    blocks: &mut [BlockState],
    at: &mut Cursors,
    slot: u16,
) -> Result<(), NorError>
    requires size { length blocks.old ≤ 4096 }
    requires index { IsIndexOf states.old blocks.old at.old (S.state slots.old).memory }
    requires room { HasRoom (S.state slots.old).memory }
    requires number { slot < slot_count (S.state slots.old).memory }
    requires free { slot_at (S.state slots.old).memory slot ≡ Free }
    requires first { HasNoneFreeBefore slot (S.state slots.old).memory }
    requires suspect { (in_block blocks.old (slot / 7)).suspect ≡ true }
    ensures ok { OnOk result (MakesFirm (S.state slots.old).memory (S.state slots.new).memory) }
    ensures trusts { OnOk result (TrustsMore blocks.old blocks.new) }
    ensures made { OnOk result (MadeTrusted blocks.old blocks.new (S.state slots.old).memory
        (S.state slots.new).memory) }
    ensures firm { IsFirmIn (bits_in (S.state slots.old)) blocks.old
        → OnOk result (IsFirmIn (bits_in (S.state slots.new)) blocks.new) }
    ensures disk { IsFirmDiskIn (bits_in (S.state slots.old)) blocks.old
        → OnOk result (IsFirmDiskIn (bits_in (S.state slots.new)) blocks.new) }
    ensures cut_bits { IsErrOf result NorError.Cut
        → IsFirmDiskIn (bits_in (S.state slots.old)) blocks.old
        → LosesNothing (S.state slots.old).memory (bits_in (S.state slots.new)) }
    ensures trusted { OnOk result ((in_block blocks.new (slot / 7)).suspect ≡ false) }
    ensures policy { OnOk result (at.new.policy ≡ at.old.policy) }
    ensures index { OnOk result (IsIndexOf states.new blocks.new at.new
        (S.state slots.new).memory) }
    ensures cut { IsErrOf result NorError.Cut → IsHealthy (S.state slots.old).memory
        → KeepsSectors (S.state slots.old).memory (S.state slots.new).memory }
    ensures healthy { IsErrOf result NorError.Cut → IsHealthy (S.state slots.old).memory
        → IsHealthy (S.state slots.new).memory }
    ensures size { length (S.state slots.new).memory ≡ length (S.state slots.old).memory }
    ensures states_size { length states.new ≡ length states.old }
    ensures blocks_size { length blocks.new ≡ length blocks.old }
    ensures ends { EndsFirmly result (S.state slots.old) (S.state slots.new) }
{
    let block = slot / 7;
    if is_whole(blocks[block as usize]) {
        erase_suspect(slots, states, blocks, at, block)
    } else {
        kill_first(slots, states, blocks, at, slot)
    }
}

/// Erases a wholly free block that is suspect. The erase isn't counted.
fn erase_suspect<S: FirmCalls>(
    slots: &mut S,
    states: &[SlotState],
    blocks: &mut [BlockState],
    at: &Cursors,
    block: u16,
) -> Result<(), NorError>
    requires index { IsIndexOf states.now blocks.old at.now (S.state slots.old).memory }
    requires room { HasRoom (S.state slots.old).memory }
    requires number { block < length blocks.old }
    requires whole { IsWholeBlock (in_block blocks.old block) }
    requires suspect { (in_block blocks.old block).suspect ≡ true }
    ensures ok { OnOk result (MakesFirm (S.state slots.old).memory (S.state slots.new).memory) }
    ensures trusts { OnOk result (TrustsMore blocks.old blocks.new) }
    ensures made { OnOk result (MadeTrusted blocks.old blocks.new (S.state slots.old).memory
        (S.state slots.new).memory) }
    ensures firm { IsFirmIn (bits_in (S.state slots.old)) blocks.old
        → OnOk result (IsFirmIn (bits_in (S.state slots.new)) blocks.new) }
    ensures disk { IsFirmDiskIn (bits_in (S.state slots.old)) blocks.old
        → OnOk result (IsFirmDiskIn (bits_in (S.state slots.new)) blocks.new) }
    ensures cut_bits { IsErrOf result NorError.Cut
        → IsFirmDiskIn (bits_in (S.state slots.old)) blocks.old
        → LosesNothing (S.state slots.old).memory (bits_in (S.state slots.new)) }
    ensures trusted { OnOk result ((in_block blocks.new block).suspect ≡ false) }
    ensures index { OnOk result (IsIndexOf states.now blocks.new at.now
        (S.state slots.new).memory) }
    ensures cut { IsErrOf result NorError.Cut → IsHealthy (S.state slots.old).memory
        → KeepsSectors (S.state slots.old).memory (S.state slots.new).memory }
    ensures healthy { IsErrOf result NorError.Cut → IsHealthy (S.state slots.old).memory
        → IsHealthy (S.state slots.new).memory }
    ensures size { length (S.state slots.new).memory ≡ length (S.state slots.old).memory }
    ensures blocks_size { length blocks.new ≡ length blocks.old }
    ensures ends { EndsFirmly result (S.state slots.old) (S.state slots.new) }
{
    slots.erase(block)?;
    trust(blocks, block);
    Ok(())
}

/// Makes the first free slot of a suspect block dead, which isn't wholly free.
fn kill_first<S: FirmCalls>(
    slots: &mut S,
    states: &mut [SlotState],
    blocks: &mut [BlockState],
    at: &mut Cursors,
    slot: u16,
) -> Result<(), NorError>
    requires size { length blocks.old ≤ 4096 }
    requires index { IsIndexOf states.old blocks.old at.old (S.state slots.old).memory }
    requires room { HasRoom (S.state slots.old).memory }
    requires number { slot < slot_count (S.state slots.old).memory }
    requires free { slot_at (S.state slots.old).memory slot ≡ Free }
    requires first { HasNoneFreeBefore slot (S.state slots.old).memory }
    requires part { IsWholeBlock (in_block blocks.old (slot / 7)) → ⊥ }
    requires suspect { (in_block blocks.old (slot / 7)).suspect ≡ true }
    ensures ok { OnOk result (MakesFirm (S.state slots.old).memory (S.state slots.new).memory) }
    ensures trusts { OnOk result (TrustsMore blocks.old blocks.new) }
    ensures made { OnOk result (MadeTrusted blocks.old blocks.new (S.state slots.old).memory
        (S.state slots.new).memory) }
    ensures firm { IsFirmIn (bits_in (S.state slots.old)) blocks.old
        → OnOk result (IsFirmIn (bits_in (S.state slots.new)) blocks.new) }
    ensures disk { IsFirmDiskIn (bits_in (S.state slots.old)) blocks.old
        → OnOk result (IsFirmDiskIn (bits_in (S.state slots.new)) blocks.new) }
    ensures cut_bits { IsErrOf result NorError.Cut
        → IsFirmDiskIn (bits_in (S.state slots.old)) blocks.old
        → LosesNothing (S.state slots.old).memory (bits_in (S.state slots.new)) }
    ensures trusted { OnOk result ((in_block blocks.new (slot / 7)).suspect ≡ false) }
    ensures policy { at.new.policy ≡ at.old.policy }
    ensures index { OnOk result (IsIndexOf states.new blocks.new at.new
        (S.state slots.new).memory) }
    ensures cut { IsErrOf result NorError.Cut
        → KeepsSectors (S.state slots.old).memory (S.state slots.new).memory }
    ensures healthy { IsErrOf result NorError.Cut → IsHealthy (S.state slots.old).memory
        → IsHealthy (S.state slots.new).memory }
    ensures size { length (S.state slots.new).memory ≡ length (S.state slots.old).memory }
    ensures states_size { length states.new ≡ length states.old }
    ensures blocks_size { length blocks.new ≡ length blocks.old }
    ensures ends { EndsFirmly result (S.state slots.old) (S.state slots.new) }
{
    slots.kill(slot)?;
    mark_live(states, blocks, slot);
    mark_dead(states, blocks, at, slot);
    trust(blocks, slot / 7);
    Ok(())
}
