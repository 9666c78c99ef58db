//! The bytes of the frames that a driver sends to a serial flash chip, what any frame's bytes ask,
//! and the bits of the chip's status registers.
//!
//! Each builder gives exactly the bytes of its frame, in a vector that takes no memory, of at most
//! 260 bytes for a program and of at most 5 for every other frame; none of them fails. `decode`
//! tells of any bytes which instruction of the model's table they are. The bits of the three status
//! registers are sets with names.
//!
//! Left to the crate above: that addresses lie on the chip and a program's bytes in one page, the
//! write enable before a change, the waiting after it, and what an instruction does.
//!
//! Source: datasheet of the W25Q128JV, the instruction set table, the descriptions of the
//! instructions, and "Status Registers".

#![tactic(auto)]

mod frames;

pub use frames::{
    Frame, Instruction, Register, ShortFrame, Status1, Status2, Status3, decode, erase_large,
    erase_small, fill_program, jedec_id, program, read, sfdp, status, write_enable, write_status,
};
