//! A change of a chip that is in progress, or was when the power was lost.

ghost use Rattle.std.specs.Prelude.{◌≡◌, ◌<◌};
ghost use Rattle.spi_frames.specs.Instruction.{instructed};
ghost use Rattle.chip_watch.specs.Changes.{with_place, change_by, is_changing};

use spi_frames::Instruction;

/// A change of a chip.
#[derive(Clone, Copy, Debug, PartialEq, Eq, Drop)]
pub enum Change {
    /// None.
    None,
    /// A program: the first place of its page of 256 bytes.
    Page(u32),
    /// An erase: the first place of its unit, and the unit's bytes, 4,096 or 65,536.
    Unit(u32, u32),
    /// A write of status register 1: the byte that was sent.
    Status(u8),
}

impl Change {
    /// Whether a place of the memory is one that the change writes.
    pub(crate) fn covers(self, place: usize) -> bool
        ensures { result ≡ is_changing self place }
    {
        match self {
            Change::None => false,
            Change::Page(at) => at as usize <= place && place < at as usize + 256,
            Change::Unit(at, size) => at as usize <= place && place < at as usize + size as usize,
            Change::Status(_) => false,
        }
    }
}

/// The change that an instruction makes on a chip of so many bytes, where it starts an operation.
pub(crate) fn change_by(instruction: &Instruction, size: u32) -> Change
    requires { 0 < size }
    ensures { result ≡ change_by (instructed instruction.now) size }
{
    match instruction {
        Instruction::Set(value) => Change::Status(*value),
        Instruction::Program(at, _) => Change::Page(*at % size / 256 * 256),
        Instruction::EraseSmall(at) => Change::Unit(*at % size / 4_096 * 4_096, 4_096),
        Instruction::EraseLarge(at) => Change::Unit(*at % size / 65_536 * 65_536, 65_536),
        _ => Change::None,
    }
}

/// A code, and an address of three bytes, the most significant first.
pub(crate) fn with_place(code: u8, at: usize) -> [u8; 4]
    ensures { result ≡ with_place code at }
{
    [
        code,
        (at / 65_536 % 256) as u8,
        (at / 256 % 256) as u8,
        (at % 256) as u8,
    ]
}
