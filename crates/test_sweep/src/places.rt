//! Places of a chip, by docs/LAYOUT.md, and whether it stays the same disk if bits there waver.

use firm_chip::is_firm;
use std::alloc::Global;
use std::process::Abort;
use std::test::Fail;

/// A place, its weak bits, and whether the chip is firm with these and no others.
type Case = (usize, u8, bool);

/// The superblock; the votes, two of which read as given up and as closed, and one as open; behind
/// the votes of J1, where nothing lies.
const BEFORE_ENTRIES: [Case; 12] = [
    (0x0000, 0x01, false),
    (0x000F, 0x01, false),
    (0x0010, 0xFF, true),
    (0x1000, 0x01, false),
    (0x2400, 0x02, false),
    (0x2410, 0x01, true),
    (0x2410, 0x02, false),
    (0x2411, 0x01, true),
    (0x2411, 0x04, false),
    (0x2412, 0x01, false),
    (0x37FF, 0x80, false),
    (0x2800, 0xFF, true),
];

/// A closed entry, which bit 2 keeps from being open; a spent one, which its last byte does, and
/// bit 1; and a free one.
const ENTRIES: [Case; 9] = [
    (0x1800, 0x01, true),
    (0x1800, 0xFB, true),
    (0x1800, 0x04, false),
    (0x1801, 0xFF, true),
    (0x1803, 0xFF, true),
    (0x1804, 0xFF, true),
    (0x1807, 0xFF, true),
    (0x1808, 0x01, false),
    (0x180B, 0x01, false),
];

/// The head of a block with live slots, but for its descriptors.
const HEAD: [Case; 7] = [
    (0x4000, 0x01, false),
    (0x4004, 0x01, false),
    (0x4004, 0x02, false),
    (0x4006, 0x01, false),
    (0x4008, 0x01, false),
    (0x402C, 0x01, false),
    (0x41FF, 0x80, false),
];

/// Its slots: a live one; a dead one; a live one of zeros; a begun one; a free one.
const SLOTS: [Case; 23] = [
    (0x4010, 0x02, false),
    (0x4010, 0x04, false),
    (0x4012, 0x01, false),
    (0x4200, 0x01, false),
    (0x43FF, 0x01, false),
    (0x4014, 0x03, true),
    (0x4014, 0x04, false),
    (0x4015, 0xFF, true),
    (0x4400, 0xFF, true),
    (0x4018, 0x04, true),
    (0x4018, 0x02, false),
    (0x4018, 0x06, false),
    (0x4019, 0x01, false),
    (0x4600, 0x01, false),
    (0x401C, 0x01, true),
    (0x401C, 0x02, false),
    (0x401E, 0xFF, true),
    (0x4800, 0xFF, true),
    (0x4020, 0x01, true),
    (0x4020, 0x02, true),
    (0x4020, 0x03, false),
    (0x4021, 0xFF, true),
    (0x4A00, 0x01, false),
];

/// A wholly free block.
const FREE: [Case; 8] = [
    (0x5000, 0x01, false),
    (0x5004, 0x01, true),
    (0x5004, 0x02, false),
    (0x5006, 0xFF, true),
    (0x5008, 0x01, false),
    (0x5010, 0x01, true),
    (0x5010, 0x03, false),
    (0x5200, 0x01, false),
];

/// Sets so many bytes from a place on, as far as they are there.
fn set(bytes: &mut [u8], at: usize, value: &[u8], times: usize) {
    for (place, byte) in bytes
        .iter_mut()
        .skip(at)
        .zip(value.iter().cycle().take(times))
    {
        *place = *byte;
    }
}

/// The memory of such a chip; of its superblock nothing.
fn memory(alloc: Global) -> Result<Vec<u8>, Fail> {
    let mut memory = vec![in alloc; 0xFFu8; 65_536]?;
    let bytes = memory.as_mut_slice();
    set(bytes, 0x2410, &[0xFD, 0xFC, 0xFE], 3);
    set(bytes, 0x1800, &[0xF8, 4, 0, 0xFF, 0xFE, 5, 0, 0], 8);
    set(bytes, 0x4010, &[0xFC, 0xFC, 5, 0, 0xF8, 0xFC, 6, 0], 8);
    set(bytes, 0x4018, &[0xFC, 0xFD, 7, 0, 0xFE, 0xFC, 8, 0], 8);
    set(bytes, 0x4200, &[0x11], 1_024);
    set(bytes, 0x4600, &[0x00], 512);
    Ok(memory)
}

/// Lets the bits of each case waver, alone, and asks for what is wanted of it.
fn judge(rt: &impl Abort, memory: &[u8], weak: &mut [u8], list: &[Case]) {
    for (place, bits, wanted) in list {
        set(weak, *place, &[*bits], 1);
        let is_so = is_firm(memory, weak);
        assert!(rt; is_so == *wanted, "{place:x}, weak bits {bits:x}: {is_so}");
        set(weak, *place, &[0], 1);
    }
}

#[test]
fn weak_bits_are_firm_by_their_place(rt: HostRuntime) -> Result<(), Fail> {
    let memory = memory(rt.alloc())?;
    let mut weak = vec![in rt.alloc(); 0u8; 65_536]?;
    assert!(rt; is_firm(memory.as_slice(), weak.as_slice()));
    judge(&rt, memory.as_slice(), weak.as_mut_slice(), &BEFORE_ENTRIES);
    judge(&rt, memory.as_slice(), weak.as_mut_slice(), &ENTRIES);
    judge(&rt, memory.as_slice(), weak.as_mut_slice(), &HEAD);
    judge(&rt, memory.as_slice(), weak.as_mut_slice(), &SLOTS);
    judge(&rt, memory.as_slice(), weak.as_mut_slice(), &FREE);
    Ok(())
}

/// Where the last wholly free block might not be one, a mount might find none.
#[test]
fn one_block_is_surely_free(rt: HostRuntime) -> Result<(), Fail> {
    let memory = memory(rt.alloc())?;
    let mut weak = vec![in rt.alloc(); 0u8; 65_536]?;
    for block in 5..15usize {
        set(weak.as_mut_slice(), 0x1000 * block + 16, &[0x01], 1);
    }
    assert!(rt; is_firm(memory.as_slice(), weak.as_slice()));
    set(weak.as_mut_slice(), 0xF010, &[0x01], 1);
    assert!(rt; !is_firm(memory.as_slice(), weak.as_slice()));
    Ok(())
}

/// A slot of zeros that may read as dead is firm only where no other has its sector.
#[test]
fn zeros_that_may_go_are_alone(rt: HostRuntime) -> Result<(), Fail> {
    let mut memory = memory(rt.alloc())?;
    let mut weak = vec![in rt.alloc(); 0u8; 65_536]?;
    set(memory.as_mut_slice(), 0x6010, &[0xFC, 0xFC, 7, 0], 4);
    assert!(rt; is_firm(memory.as_slice(), weak.as_slice()));
    set(weak.as_mut_slice(), 0x4018, &[0x04], 1);
    assert!(rt; !is_firm(memory.as_slice(), weak.as_slice()));
    set(memory.as_mut_slice(), 0x6010, &[0xF8], 1);
    assert!(rt; is_firm(memory.as_slice(), weak.as_slice()));
    Ok(())
}

#[test]
fn lists_of_other_lengths_are_not_firm(rt: HostRuntime) -> Result<(), Fail> {
    assert!(rt; !is_firm(&[0xFF], &[]));
    assert!(rt; !is_firm(&[], &[]));
    Ok(())
}
