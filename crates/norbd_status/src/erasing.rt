//! Which blocks a frame erases.

ghost use Rattle.std.specs.Prelude.{◌≡◌, ◌<◌, ◌≤◌};
ghost use Rattle.chip_model.specs.Frames.{command_of};
ghost use Rattle.norbd_status.specs.Erasing.{count_erased, first_erased};

use crate::wear::MOST_BLOCKS;
use nor_layout::BLOCK_LEN;
use spi_frames::{Instruction, decode};

/// How many bytes the larger erase takes.
const LARGE_LEN: u32 = 65_536;

/// Blocks of 4,096 bytes that lie one after another.
#[derive(Clone, Copy)]
pub(crate) struct Blocks {
    pub(crate) first: u32,
    pub(crate) count: u32,
}

/// The blocks of a chip of so many that a frame erases, where the chip takes it: those of the unit
/// in which the erase's address lies, modulo the chip's size. Of any other frame none.
pub(crate) fn erased_by(send: &[u8], blocks: u32) -> Blocks
    requires some { 0 < blocks }
    requires most { blocks ≤ MOST_BLOCKS }
    ensures first { result.first ≡ first_erased blocks (command_of send.now) }
    ensures count { result.count ≡ count_erased (command_of send.now) }
{
    match decode(send) {
        Instruction::EraseSmall(at) => Blocks {
            first: at % (BLOCK_LEN * blocks) / BLOCK_LEN,
            count: 1,
        },
        Instruction::EraseLarge(at) => Blocks {
            first: at % (BLOCK_LEN * blocks) / LARGE_LEN * 16,
            count: 16,
        },
        _ => Blocks { first: 0, count: 0 },
    }
}
