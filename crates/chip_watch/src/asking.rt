//! What a chip is asked for by an instruction.

ghost use Rattle.std.specs.Prelude.{◌≡◌, min, true};
ghost use Rattle.chip_model.specs.Frames.{is_status};
ghost use Rattle.spi_frames.specs.Instruction.{instructed};
ghost use Rattle.chip_watch.specs.Asking.{Passes, asked_of, changes_nothing, is_instruction};
ghost use Rattle.chip_watch.specs.Asking.{reads_memory, judged_status};

use crate::reading::same;
use spi_frames::Instruction;

/// Of so many bytes that a caller asks for, how many the chip is asked for.
pub fn asked(instruction: &Instruction, count: usize) -> usize
    ensures { result ≡ asked_of (instructed instruction.now) count }
{
    match instruction {
        Instruction::Status1 | Instruction::Status2 | Instruction::Status3 => count.min(1),
        Instruction::Read(_) | Instruction::Id | Instruction::Sfdp(_) => count,
        _ => 0,
    }
}

/// Whether it is a read of a status register.
pub fn is_status(instruction: &Instruction) -> bool
    ensures { result ≡ is_status (instructed instruction.now) }
{
    matches!(
        instruction,
        Instruction::Status1 | Instruction::Status2 | Instruction::Status3
    )
}

/// Whether the instruction table has it.
pub fn is_known(instruction: &Instruction) -> bool
    ensures { result ≡ is_instruction (instructed instruction.now) }
{
    !matches!(instruction, Instruction::Unknown)
}

/// Whether it changes nothing.
pub fn changes_nothing(instruction: &Instruction) -> bool
    ensures { result ≡ changes_nothing (instructed instruction.now) }
{
    match instruction {
        Instruction::Read(_) | Instruction::Id | Instruction::Sfdp(_) => true,
        _ => is_status(instruction),
    }
}

/// Whether it is a READ.
pub fn reads_memory(instruction: &Instruction) -> bool
    ensures { result ≡ reads_memory (instructed instruction.now) }
{
    matches!(instruction, Instruction::Read(_))
}

/// What counts of status register 1: BUSY and WEL alone while BUSY is 1.
fn judged_status(status: u8) -> u8
    ensures { result ≡ judged_status status }
{
    if status % 2 == 1 { status % 4 } else { status }
}

/// Whether what was heard is taken for the answer that is allowed.
pub fn passes(instruction: &Instruction, heard: &[u8], allowed: &[u8]) -> bool
    ensures { result ≡ true → Passes (instructed instruction.now) heard.now allowed.now }
{
    match (instruction, heard, allowed) {
        (Instruction::Status1, [heard], [allowed]) => judged_status(*heard)
            == judged_status(*allowed),
        _ => same(heard, allowed),
    }
}
