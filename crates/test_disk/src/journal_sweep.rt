//! A run of erases in which every change is cut once by each mask, the recovery after it is cut
//! too, and what is left is looked at.

use crate::journal_chips::{End, erase, recover};
use std::alloc::Global;
use std::test::*;
use test_kit::MASKS;
use test_kit::chips::{armed, filled, set};

/// How many erases there are in the run.
const ERASES: u32 = 600;

/// Where block 4, which is erased again and again, begins, and where the one after it does.
const BLOCK_4: usize = 0x4000;

const BLOCK_5: usize = 0x5000;

/// An erased chip whose J0 has 62 free entries, so that it is renewed twice in the run. Block 9
/// holds some bytes.
fn worn(alloc: Global) -> Result<Vec<u8>, Fail> {
    let mut bytes = filled(alloc, 0xFF)?;
    for entry in 0..450usize {
        let at = 0x1800 + 4 * entry;
        set(bytes.as_mut_slice(), at, 1, &[0xF8, 0x0F, 0x00])?;
    }
    set(bytes.as_mut_slice(), 0x9000, 1, &[0xFC])?;
    set(bytes.as_mut_slice(), 0x9FFF, 1, &[0x00])?;
    Ok(bytes)
}

/// Block 4 is as before or erased, and all other data blocks and the superblock are as before.
fn is_old_or_erased(before: &[u8], blank: &[u8], after: &[u8]) -> bool {
    let block = after.get(BLOCK_4..BLOCK_5);
    let is_same = block == before.get(BLOCK_4..BLOCK_5);
    let is_erased = block == blank.get(BLOCK_4..BLOCK_5);
    let others = after.get(BLOCK_5..0x1_0000) == before.get(BLOCK_5..0x1_0000);
    (is_same || is_erased) && others && after.get(0..0x1000) == before.get(0..0x1000)
}

/// What a recovery leaves of a torn memory: its own change of this number is cut, and then it is
/// done again.
fn recovered(alloc: Global, torn: &[u8], nested: u32, mask: u8) -> Result<Vec<u8>, Fail> {
    match recover(armed(alloc, torn, nested, mask)?)? {
        (End::Done, settled) => Ok(settled),
        (End::Cut, again) => match recover(armed(alloc, &again, 0, 0)?)? {
            (End::Done, settled) => Ok(settled),
            (end, _) => Err(Fail::from(end)),
        },
        (end, _) => Err(Fail::from(end)),
    }
}

/// Cuts the change of this number by each mask. False where the erase makes no such change.
fn survives(alloc: Global, memory: &[u8], blank: &[u8], change: u32) -> Result<bool, Fail> {
    for mask in MASKS {
        let (end, torn) = erase(armed(alloc, memory, change, mask)?)?;
        if end == End::Done {
            return Ok(false);
        }
        for nested in 1..5u32 {
            let settled = recovered(alloc, &torn, nested, mask)?;
            if !is_old_or_erased(memory, blank, &settled) {
                return Err(Fail::new(format_args!("change {change}, mask {mask}, then {nested}")));
            }
        }
    }
    Ok(true)
}

/// Cuts every change of an erase of block 4; how many there were.
fn changes(alloc: Global, memory: &[u8], blank: &[u8]) -> Result<u32, Fail> {
    for change in 1..32u32 {
        if !survives(alloc, memory, blank, change)? {
            return Ok(change - 1);
        }
    }
    Err(Fail::new("an erase without an end"))
}

#[test]
fn every_change_of_a_run_of_erases_is_cut(rt: HostRuntime) -> Result<(), Fail> {
    let blank = filled(rt.alloc(), 0xFF)?;
    let mut memory = worn(rt.alloc())?;
    let (mut ordinary, mut with_a_renewal) = (0u32, 0u32);
    for _erase in 0..ERASES {
        set(memory.as_mut_slice(), BLOCK_4, 1, &[0xF8])?;
        match changes(rt.alloc(), &memory, &blank)? {
            4 => ordinary = ordinary.saturating_add(1),
            9 => with_a_renewal = with_a_renewal.saturating_add(1),
            _ => return Err(Fail::new("an erase of neither 4 nor 9 changes")),
        }
        let (end, after) = erase(armed(rt.alloc(), &memory, 0, 0)?)?;
        assert_eq!(rt; end, End::Done);
        memory = after;
    }
    assert_eq!(rt; (ordinary, with_a_renewal), (598, 2));
    Ok(())
}
