//! A chip's own table, cut short and with each byte changed, by the nine rules of docs/CHIP.md
//! written out anew.

use crate::beginning_of;
use chip_model::SpiBus;
use sfdp::{Params, SfdpError, read_params};
use std::test::*;
use test_kit::chips::formatted;

/// A byte of a list, and where it has none 0.
fn byte_at(bytes: &[u8], at: usize) -> u32 {
    u32::from(bytes.get(at).copied().unwrap_or(0))
}

/// The number in four bytes, the least significant first.
fn word_at(bytes: &[u8], at: usize) -> u32 {
    byte_at(bytes, at)
        | byte_at(bytes, at.wrapping_add(1)) << 8
        | byte_at(bytes, at.wrapping_add(2)) << 16
        | byte_at(bytes, at.wrapping_add(3)) << 24
}

/// Where the first parameter header of the basic table stands, among so many.
fn basic_header(bytes: &[u8], headers: usize) -> Option<usize> {
    for number in 0..headers {
        let at = number.wrapping_mul(8).wrapping_add(8);
        if byte_at(bytes, at) == 0x00 && byte_at(bytes, at.wrapping_add(7)) == 0xFF {
            return Some(at);
        }
    }
    None
}

/// Whether one of the four pairs in words 8 and 9 of a table is an exponent and a code.
fn has_pair(bytes: &[u8], table: usize, exponent: u32, code: u32) -> bool {
    let pair = exponent | code << 8;
    let eight = word_at(bytes, table.wrapping_add(28));
    let nine = word_at(bytes, table.wrapping_add(32));
    eight & 0xFFFF == pair || eight >> 16 == pair || nine & 0xFFFF == pair || nine >> 16 == pair
}

/// Rules 6 to 9, of the basic table with so many words.
fn table_answer(bytes: &[u8], table: usize, words: u32) -> Result<Params, SfdpError> {
    let one = word_at(bytes, table);
    let two = word_at(bytes, table.wrapping_add(4));
    let size = u64::from(two).wrapping_add(1) / 8;
    let is_whole = u64::from(two) % 8 == 7 && size % 65_536 == 0;
    if two >> 31 != 0 || !is_whole || size > 16_777_216 {
        return Err(SfdpError::Density);
    }
    if words >= 11 && word_at(bytes, table.wrapping_add(40)) >> 4 & 15 != 8 {
        return Err(SfdpError::PageSize);
    }
    if one & 3 != 1 || one >> 8 & 0xFF != 0x20 || !has_pair(bytes, table, 12, 0x20) {
        return Err(SfdpError::NoSmallErase);
    }
    if one >> 17 & 3 != 0 {
        return Err(SfdpError::AddressBytes);
    }
    let large = if has_pair(bytes, table, 16, 0xD8) {
        Some(0xD8)
    } else {
        None
    };
    Ok(Params {
        bytes: size.min(16_777_216) as u32,
        page: 256,
        small: 0x20,
        large,
    })
}

/// What the nine rules answer of a list of bytes.
fn answer_of(bytes: &[u8]) -> Result<Params, SfdpError> {
    if bytes.len() < 8 {
        return Err(SfdpError::Short);
    }
    if word_at(bytes, 0) != 0x5044_4653 {
        return Err(SfdpError::Signature);
    }
    let headers = byte_at(bytes, 6).wrapping_add(1) as usize;
    if bytes.len() < headers.wrapping_mul(8).wrapping_add(8) {
        return Err(SfdpError::Short);
    }
    let Some(header) = basic_header(bytes, headers) else {
        return Err(SfdpError::NoBasicTable);
    };
    let words = byte_at(bytes, header.wrapping_add(3));
    let table = (word_at(bytes, header.wrapping_add(4)) & 0xFF_FFFF) as usize;
    if words < 9 || bytes.len() < table.wrapping_add(4 * words as usize) {
        return Err(SfdpError::Short);
    }
    table_answer(bytes, table, words)
}

#[test]
fn each_byte_of_the_own_table_is_set_to_each_value(rt: HostRuntime) -> Result<(), Fail> {
    let mut chip = formatted(rt.alloc())?;
    let mut table = [0u8; 256];
    chip.transact(&[0x5A, 0, 0, 0, 0], &mut table)?;
    let accepted = Ok(Params {
        bytes: 65_536,
        page: 256,
        small: 0x20,
        large: Some(0xD8),
    });
    for len in 0..257usize {
        let wanted = if len < 192 {
            Err(SfdpError::Short)
        } else {
            accepted
        };
        assert_eq!(rt;
            read_params(beginning_of(&table, len)),
            wanted,
            "{len} bytes"
        );
    }
    for place in 0..256usize {
        for byte in 0..=255u8 {
            let mut changed = table;
            changed[place] = byte;
            assert_eq!(rt;
                read_params(&changed),
                answer_of(&changed),
                "byte {place} is {byte}"
            );
        }
    }
    Ok(())
}
