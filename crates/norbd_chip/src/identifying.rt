//! What a chip is asked before everything of it is read.

ghost use Rattle.std.specs.Prelude.{◌≡◌, ◌≤◌, IfErr, false};
ghost use Rattle.norbd_chip.specs.Faults.{is_unsure};

use crate::fault::ChipFault;
use crate::noting::Noted;
use chip_model::{NoAnswer, Programmer};
use norbd_line::ChipCause;
use sfdp::{SfdpError, read_params};

/// How often the status is read at most until a chip has ended what it does; how long that is
/// waited for is the programmer's.
const MOST_START_READS: u32 = 100_000_000;

/// Asks a chip for its id and its table, once it has ended what it does, and refuses one that isn't
/// served.
///
/// `NoChip` where no chip drives the line: the id is FFFFFFh or 000000h, and the status doesn't say
/// that it is busy. `OtherChip` of another part's id, `Table` where its table is refused,
/// `OtherSize` where that tells another size than the id.
pub(crate) fn identify<P: Programmer>(programmer: &mut P, noted: &Noted) -> Result<(), ChipFault>
    ensures { IfErr result (λ fault. is_unsure fault ≡ false) }
{
    let mut id = [0u8; 3];
    ask(programmer, &[0x9F], &mut id, noted)?;
    if is_undriven(id) && is_waited_for(programmer, noted)? {
        ask(programmer, &[0x9F], &mut id, noted)?;
    }
    if is_undriven(id) {
        return Err(ChipFault::Failed(ChipCause::NoChip(id)));
    }
    if id[0] != 0xEF || id[1] != 0x40 || id[2] < 0x10 || id[2] > 0x18 {
        return Err(ChipFault::Failed(ChipCause::OtherChip(id)));
    }
    let mut table = [0u8; 256];
    ask(programmer, &[0x5A, 0, 0, 0, 0], &mut table, noted)?;
    match read_params(&table) {
        Ok(params) if third_of(params.bytes) == id[2] as u32 => Ok(()),
        Ok(params) => Err(ChipFault::Failed(ChipCause::OtherSize(id, params.bytes / 1_024))),
        Err(error) => {
            let at = place_of(&table, error);
            let bytes = [table[at], table[at + 1], table[at + 2], table[at + 3]];
            Err(ChipFault::Failed(ChipCause::Table(error, at as u8, bytes)))
        }
    }
}

/// One frame, and what the chip answers.
fn ask<P: Programmer>(
    programmer: &mut P,
    send: &[u8],
    recv: &mut [u8],
    noted: &Noted,
) -> Result<(), ChipFault>
    ensures { IfErr result (λ fault. is_unsure fault ≡ false) }
{
    match programmer.exchange(send, recv) {
        Ok(()) => Ok(()),
        Err(NoAnswer) => Err(ChipFault::Failed(noted.silence())),
    }
}

/// Whether no chip drives the line by which it answers: it floats, or is held at one level.
fn is_undriven(id: [u8; 3]) -> bool {
    id == [0xFF; 3] || id == [0; 3]
}

/// Waits for the end of what a chip does, which ignores other frames meanwhile, and answers whether
/// there is one: a status of FFh is none of a chip's.
fn is_waited_for<P: Programmer>(programmer: &mut P, noted: &Noted) -> Result<bool, ChipFault>
    ensures { IfErr result (λ fault. is_unsure fault ≡ false) }
{
    for _ in 0..MOST_START_READS {
        let mut status = [0u8; 1];
        ask(programmer, &[0x05], &mut status, noted)?;
        if status[0] == 0xFF {
            return Ok(false);
        }
        if status[0] % 2 == 0 {
            return Ok(true);
        }
    }
    Ok(true)
}

/// The third id byte of a chip of so many bytes: the least k with 2^k at least that.
fn third_of(bytes: u32) -> u32 {
    32 - bytes.saturating_sub(1).leading_zeros()
}

/// Where in a table the four bytes begin that break a rule: its signature, its first parameter
/// header, or the word of the basic table that the rule is about. Source: JESD216, "SFDP Header",
/// "Parameter Headers", and its words 1, 2, 8 and 11.
fn place_of(table: &[u8; 256], error: SfdpError) -> usize
    ensures { result ≤ 252 }
{
    let basic = table[12] as usize;
    let place = match error {
        SfdpError::Signature => 0,
        SfdpError::NoBasicTable | SfdpError::Short => 8,
        SfdpError::AddressBytes => basic,
        SfdpError::Density => basic + 4,
        SfdpError::NoSmallErase => basic + 28,
        SfdpError::PageSize => basic + 40,
    };
    place.min(252)
}
