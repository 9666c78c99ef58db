//! The bytes that a chip answers.

ghost use Rattle.std.specs.Prelude.{◌≡◌, ◌+◌, ◌%◌, ◌<◌, ◌≤◌, slice_index, EachIndex};
ghost use Rattle.chip_model.specs.Frames.{id_from, id_byte};
ghost use Rattle.chip_model.specs.Memory.{byte};
ghost use Rattle.chip_simulator.specs.Table.{sfdp_byte, sfdp_table};

use crate::table::sfdp_byte;

/// The third id byte of a chip of this size.
fn third_byte(size: u32) -> u8
    ensures { result ≡ id_from 9 16 size }
{
    if size <= 1 << 16 {
        16
    } else if size <= 1 << 17 {
        17
    } else if size <= 1 << 18 {
        18
    } else if size <= 1 << 19 {
        19
    } else if size <= 1 << 20 {
        20
    } else if size <= 1 << 21 {
        21
    } else if size <= 1 << 22 {
        22
    } else if size <= 1 << 23 {
        23
    } else if size <= 1 << 24 {
        24
    } else {
        25
    }
}

/// The id bytes.
pub(crate) fn fill_id(recv: &mut [u8], size: u32)
    ensures { EachIndex recv.new (λ k. slice_index recv.new k ≡ id_byte size k) }
{
    for k in 0..recv.len() {
        recv[k] = match k {
            0 => 0xEF,
            1 => 0x40,
            2 => third_byte(size),
            _ => 0xFF,
        };
    }
}

/// The bytes of the SFDP table from a place on, past its end from the first on.
pub(crate) fn fill_sfdp(recv: &mut [u8], size: u32, spoiled: bool, at: u32)
    requires some { 0 < size }
    requires most { size ≤ 16777216 }
    ensures { EachIndex recv.new (λ k. byte recv.new k
        ≡ byte (sfdp_table size spoiled) ((at + k) % 256)) }
{
    for k in 0..recv.len() {
        recv[k] = sfdp_byte(size, spoiled, (at as usize % 256 + k % 256) % 256);
    }
}
