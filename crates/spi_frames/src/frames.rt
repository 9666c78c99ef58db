//! The bytes of each frame, what any frame's bytes ask, and the bits of the status registers.

ghost use Rattle.std.specs.Prelude.{⊤, ◌≡◌, ◌==◌, ◌+◌, ◌*◌, ◌^◌, ◌/◌, ◌%◌, ◌<◌, ◌≤◌, [], ◌∷◌};
ghost use Rattle.std.specs.Prelude.{codes, length, not};
ghost use Rattle.chip_model.specs.Frames.{command_of};
ghost use Rattle.spi_frames.specs.Frames.{addressed, status_code};
ghost use Rattle.spi_frames.specs.Instruction.{HasBytes, instructed};

use arrayvec::ArrayVec;
use bitflags::{Flag, Flags, bitflag_items};

/// The bytes of a program's frame: a code, an address and at most a page.
pub type Frame = ArrayVec<u8, 260>;

/// The bytes of any other frame: a code, at most an address, and at most one byte more.
pub type ShortFrame = ArrayVec<u8, 5>;

/// A status register.
#[derive(Clone, Copy, Debug, PartialEq, Eq)]
pub enum Register {
    /// BUSY, WEL, the block protection bits and SRP.
    First,
    /// CMP.
    Second,
    /// WPS.
    Third,
}

/// An instruction of the chip's table, or a frame that is none. An address is below 2^24.
#[derive(Clone, Copy)]
pub enum Instruction<'a> {
    /// 06h: the next change is taken.
    Enable,
    /// 04h: no change is taken.
    Disable,
    /// 05h: status register 1.
    Status1,
    /// 35h: status register 2.
    Status2,
    /// 15h: status register 3.
    Status3,
    /// 01h: bits 2 to 7 of status register 1 become those of the value.
    Set(u8),
    /// 03h: the bytes from the address on.
    Read(u32),
    /// 02h: a program of these bytes, one at least, at the address.
    Program(u32, &'a [u8]),
    /// 20h: an erase of the 4 KiB in which the address lies.
    EraseSmall(u32),
    /// D8h: an erase of the 64 KiB in which the address lies.
    EraseLarge(u32),
    /// 9Fh: three id bytes.
    Id,
    /// 5Ah: SFDP bytes from the address on.
    Sfdp(u32),
    /// Every other frame, which a chip ignores.
    Unknown,
}

/// The three bytes of an address, the most significant first.
fn address(at: u32) -> [u8; 3]
    requires { at < 2 ^ 24 }
    ensures { result ≡ (at / 65536) ∷ (at / 256 % 256) ∷ (at % 256) ∷ [] }
{
    [
        (at / 65_536) as u8,
        (at / 256 % 256) as u8,
        (at % 256) as u8,
    ]
}

fn code_alone(code: u8) -> ShortFrame
    ensures { result.items ≡ code ∷ [] }
{
    let mut frame = ShortFrame::new();
    frame.push(code);
    frame
}

fn with_address(code: u8, at: u32) -> ShortFrame
    requires { at < 2 ^ 24 }
    ensures { result.items ≡ addressed code at [] }
{
    let [high, middle, low] = address(at);
    let mut frame = code_alone(code);
    frame.push(high);
    frame.push(middle);
    frame.push(low);
    frame
}

/// 06h: the next change is taken.
pub fn write_enable() -> ShortFrame
    ensures { result.items ≡ 6 ∷ [] }
{
    code_alone(0x06)
}

/// 03h: the bytes from the address on.
pub fn read(at: u32) -> ShortFrame
    requires { at < 2 ^ 24 }
    ensures { result.items ≡ addressed 3 at [] }
{
    with_address(0x03, at)
}

/// 02h: a program of 1 to 256 bytes, all of them in one page.
pub fn program(at: u32, bytes: &[u8]) -> Frame
    requires address { at < 2 ^ 24 }
    requires some { 0 < length bytes.now }
    requires page { length bytes.now ≤ 256 }
    ensures { result.items ≡ addressed 2 at bytes.now }
{
    let mut frame = Frame::new();
    fill_program(&mut frame, at, bytes);
    frame
}

/// The same into an empty frame, which then need not be moved.
pub fn fill_program(frame: &mut Frame, at: u32, bytes: &[u8])
    requires empty { frame.old.items ≡ [] }
    requires address { at < 2 ^ 24 }
    requires some { 0 < length bytes.now }
    requires page { length bytes.now ≤ 256 }
    ensures { frame.new.items ≡ addressed 2 at bytes.now }
{
    let [high, middle, low] = address(at);
    frame.push(0x02);
    frame.push(high);
    frame.push(middle);
    frame.push(low);
    let _fits = frame.try_extend_from_slice(bytes);
}

/// 20h: an erase of the 4 KiB in which the address lies.
pub fn erase_small(at: u32) -> ShortFrame
    requires { at < 2 ^ 24 }
    ensures { result.items ≡ addressed 32 at [] }
{
    with_address(0x20, at)
}

/// D8h: an erase of the 64 KiB in which the address lies.
pub fn erase_large(at: u32) -> ShortFrame
    requires { at < 2 ^ 24 }
    ensures { result.items ≡ addressed 216 at [] }
{
    with_address(0xD8, at)
}

/// 05h, 35h or 15h: a status register.
pub fn status(register: Register) -> ShortFrame
    ensures { result.items ≡ status_code register ∷ [] }
{
    match register {
        Register::First => code_alone(0x05),
        Register::Second => code_alone(0x35),
        Register::Third => code_alone(0x15),
    }
}

/// 01h: bits 2 to 7 of status register 1 become those of the value.
pub fn write_status(value: u8) -> ShortFrame
    ensures { result.items ≡ 1 ∷ value ∷ [] }
{
    let mut frame = code_alone(0x01);
    frame.push(value);
    frame
}

/// 9Fh: three id bytes, of the maker, the kind and the size.
pub fn jedec_id() -> ShortFrame
    ensures { result.items ≡ 159 ∷ [] }
{
    code_alone(0x9F)
}

/// 5Ah: SFDP bytes from the address on; a byte that the chip ignores follows the address.
pub fn sfdp(at: u32) -> ShortFrame
    requires { at < 2 ^ 24 }
    ensures { result.items ≡ addressed 90 at (0 ∷ []) }
{
    let mut frame = with_address(0x5A, at);
    frame.push(0);
    frame
}

/// What a frame asks.
pub fn decode<'a>(send: &'a [u8]) -> Instruction<'a>
    ensures command { instructed result ≡ command_of send.now }
    ensures bytes { HasBytes result }
{
    match send {
        [0x06] => Instruction::Enable,
        [0x04] => Instruction::Disable,
        [0x05] => Instruction::Status1,
        [0x35] => Instruction::Status2,
        [0x15] => Instruction::Status3,
        [0x01, value] => Instruction::Set(*value),
        [0x03, a, b, c] => Instruction::Read(address_in(*a, *b, *c)),
        [0x02, a, b, c, _, ..] => Instruction::Program(address_in(*a, *b, *c), &send[4..]),
        [0x20, a, b, c] => Instruction::EraseSmall(address_in(*a, *b, *c)),
        [0xD8, a, b, c] => Instruction::EraseLarge(address_in(*a, *b, *c)),
        [0x9F] => Instruction::Id,
        [0x5A, a, b, c, _] => Instruction::Sfdp(address_in(*a, *b, *c)),
        _ => Instruction::Unknown,
    }
}

/// The address in three bytes, the most significant first.
fn address_in(a: u8, b: u8, c: u8) -> u32
    ensures { result ≡ a * 65536 + b * 256 + c }
{
    a as u32 * 65_536 + b as u32 * 256 + c as u32
}

/// Status register 1.
#[derive(Clone, Copy, PartialEq, Eq, Debug)]
pub struct Status1(u8);

bitflag_items! {
    impl Status1: u8 {
        const BUSY = 1;
        const WEL = 2;
        const BP = 0x1C;
        const TB = 0x20;
        const SEC = 0x40;
        const SRP = 0x80;
    }
}

impl Flags for Status1 {
    type Bits = u8;

    ghost exact = { ⊤ };

    ghost table = { (codes "BUSY", 1) ∷ (codes "WEL", 2) ∷ (codes "BP", 28) ∷ (codes "TB", 32)
        ∷ (codes "SEC", 64) ∷ (codes "SRP", 128) ∷ [] };

    ghost set_of = { λ s. s.0 };

    fn flags<'a>() -> &'a [Flag<Status1>] {
        Status1::FLAGS
    }

    fn bits(&self) -> u8 {
        self.0
    }

    fn from_bits_retain(bits: u8) -> Status1 {
        Status1(bits)
    }
}

impl Status1 {
    /// Whether the register's byte has BUSY: an operation is in progress.
    pub fn is_busy(byte: u8) -> bool
        ensures { result ≡ (byte % 2 == 1) }
    {
        Status1::from_bits_retain(byte).contains(Status1::BUSY)
    }

    /// Whether the register's byte has BP0, BP1 or BP2: a part of the chip is protected.
    #[tactic(auto, using(crate::proofs::Bits::bits_2_to_4))]
    pub fn has_blocks(byte: u8) -> bool
        ensures { result ≡ not (byte / 4 % 8 == 0) }
    {
        Status1::from_bits_retain(byte).intersects(Status1::BP)
    }

    /// Whether the register's byte has SEC: sectors are protected and not blocks.
    #[tactic(auto, using(crate::proofs::Bits::bit_6))]
    pub fn has_sectors(byte: u8) -> bool
        ensures { result ≡ (byte / 64 % 2 == 1) }
    {
        Status1::from_bits_retain(byte).contains(Status1::SEC)
    }
}

/// Status register 2.
#[derive(Clone, Copy, PartialEq, Eq, Debug)]
pub struct Status2(u8);

bitflag_items! {
    impl Status2: u8 {
        const CMP = 0x40;
    }
}

impl Flags for Status2 {
    type Bits = u8;

    ghost exact = { ⊤ };

    ghost table = { (codes "CMP", 64) ∷ [] };

    ghost set_of = { λ s. s.0 };

    fn flags<'a>() -> &'a [Flag<Status2>] {
        Status2::FLAGS
    }

    fn bits(&self) -> u8 {
        self.0
    }

    fn from_bits_retain(bits: u8) -> Status2 {
        Status2(bits)
    }
}

impl Status2 {
    /// Whether the register's byte has CMP: the protected part is complemented.
    #[tactic(auto, using(crate::proofs::Bits::bit_6))]
    pub fn has_complement(byte: u8) -> bool
        ensures { result ≡ (byte / 64 % 2 == 1) }
    {
        Status2::from_bits_retain(byte).contains(Status2::CMP)
    }
}

/// Status register 3.
#[derive(Clone, Copy, PartialEq, Eq, Debug)]
pub struct Status3(u8);

bitflag_items! {
    impl Status3: u8 {
        const WPS = 0x04;
    }
}

impl Flags for Status3 {
    type Bits = u8;

    ghost exact = { ⊤ };

    ghost table = { (codes "WPS", 4) ∷ [] };

    ghost set_of = { λ s. s.0 };

    fn flags<'a>() -> &'a [Flag<Status3>] {
        Status3::FLAGS
    }

    fn bits(&self) -> u8 {
        self.0
    }

    fn from_bits_retain(bits: u8) -> Status3 {
        Status3(bits)
    }
}

impl Status3 {
    /// Whether the register's byte has WPS: units are protected one by one.
    #[tactic(auto, using(crate::proofs::Bits::bit_2))]
    pub fn has_unit_locks(byte: u8) -> bool
        ensures { result ≡ (byte / 4 % 2 == 1) }
    {
        Status3::from_bits_retain(byte).contains(Status3::WPS)
    }
}
