//! The frames that the chip's model ignores, and flashrom sends.

ghost use Rattle.std.specs.Prelude.{◌≡◌, ◌+◌, ◌*◌, ◌%◌, ◌<◌, ◌^◌, ℕ, IfOk, OnOk, OnErr, EachIndex};
ghost use Rattle.std.specs.Prelude.{slice_index};
ghost use Rattle.nor_driver.specs.Steps.{Lost};
ghost use Rattle.serprog_chip.specs.Beyond.{TellsTable, command_beyond, told_byte};
ghost use Rattle.serprog_chip.specs.Meant.{IsAddress, command_meant};

use chip_model::{PowerLost, SpiBus};

/// What a frame asks beyond the model. An address is below 2^24.
#[derive(Clone, Copy)]
pub(crate) enum Beyond {
    /// 5Ah: SFDP bytes from the address on.
    Table(u32),
    /// C7h or 60h: an erase of the whole chip.
    EraseAll,
    /// 52h: an erase of the 32 KiB in which the address lies.
    EraseHalf(u32),
    /// Every other frame.
    Nothing,
}

/// What a frame asks beyond the model.
pub(crate) fn decode_beyond(sent: &[u8]) -> Beyond
    ensures command { (size : ℕ) → command_meant result size ≡ command_beyond size sent.now }
    ensures address { IsAddress result }
{
    match sent {
        [0xC7] => Beyond::EraseAll,
        [0x60] => Beyond::EraseAll,
        [0x52, a, b, c] => Beyond::EraseHalf(address_in(*a, *b, *c)),
        [0x5A, a, b, c] => Beyond::Table(address_in(*a, *b, *c)),
        [0x5A, a, b, c, _] => Beyond::Table(address_in(*a, *b, *c)),
        _ => Beyond::Nothing,
    }
}

/// The address in three bytes, the most significant first.
fn address_in(a: u8, b: u8, c: u8) -> u32
    ensures value { result ≡ a * 65536 + b * 256 + c }
    ensures range { result < 2 ^ 24 }
{
    a as u32 * 65_536 + b as u32 * 256 + c as u32
}

/// Sets the bit of SFDP bytes from an address on that says that 64 bytes or more can be programmed
/// at once.
fn set_granularity(table: &mut [u8], at: u32)
    ensures { EachIndex table.new (λ k. slice_index table.new k
        ≡ told_byte ((at + k) % 256) (slice_index table.old k)) }
{
    for (k, byte) in table.iter_mut().enumerate() {
        if (at as u64 + k as u64) % 256 == 128 {
            *byte |= 4;
        }
    }
}

/// Reads SFDP bytes from an address on, as they are told.
fn read_table<B: SpiBus>(bus: &mut B, at: u32, into: &mut [u8]) -> Result<(), PowerLost>
    requires { at < 2 ^ 24 }
    ensures table { OnOk result (TellsTable (B.chip bus.old) at 0 into.new) }
    ensures chip { OnOk result (B.chip bus.new ≡ B.chip bus.old) }
    ensures cuts { OnOk result (B.cuts bus.new ≡ B.cuts bus.old) }
    ensures lost { OnErr result (Lost (B.chip bus.old) (B.cuts bus.old) (B.chip bus.new)
        (B.cuts bus.new)) }
{
    bus.transact(&spi_frames::sfdp(at), into)?;
    set_granularity(into, at);
    Ok(())
}

/// Reads SFDP bytes from an address on, as they are told, behind so many dummy bytes, for which
/// bytes of FFh stand in `into`.
pub(crate) fn read_late<B: SpiBus>(
    bus: &mut B,
    at: u32,
    late: usize,
    into: &mut [u8],
) -> Result<(), PowerLost>
    requires address { at < 2 ^ 24 }
    requires dummies { EachIndex into.old (λ k. slice_index into.old k ≡ 255) }
    ensures table { OnOk result (TellsTable (B.chip bus.old) at late into.new) }
    ensures chip { OnOk result (B.chip bus.new ≡ B.chip bus.old) }
    ensures cuts { OnOk result (B.cuts bus.new ≡ B.cuts bus.old) }
    ensures lost { OnErr result (Lost (B.chip bus.old) (B.cuts bus.old) (B.chip bus.new)
        (B.cuts bus.new)) }
{
    let begin = late.min(into.len());
    read_table(bus, at, &mut into[begin..])
}
