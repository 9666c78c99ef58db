//! What is answered to a command.

ghost use Rattle.std.specs.Prelude.{◌≡◌, ◌==◌, ◌+◌, ◌<◌, if◌then◌else◌, ℕ, List, length};
ghost use Rattle.std.specs.Prelude.{IfErr, OnErr, OnOk, ◌^◌, replicate, true};
ghost use Rattle.chip_model.specs.Cut.{Loses};
ghost use Rattle.chip_model.specs.Frames.{Frame};
ghost use Rattle.nor_driver.specs.Steps.{Lost};
ghost use Rattle.serprog.specs.Protocol.{acknowledged};
ghost use Rattle.serprog_chip.specs.declared.answering.Trouble.TheVariants as troubles;
ghost use Rattle.serprog_chip.specs.Answering.{SerprogAnswers, SerprogLeaves};
ghost use Rattle.serprog_chip.specs.Answering.{command_map, long_bytes, nak};
ghost use Rattle.serprog_chip.specs.Beyond.{AnswersFrame, LeavesFrame, TellsTable};

use crate::beyond::{Beyond, decode_beyond, read_late};
use crate::erasing::{erase_all, erase_half};
use crate::request::Request;
use chip_model::{PowerLost, SpiBus};

/// Why a command got no answer.
#[derive(Clone, Copy, Debug, PartialEq, Eq, Drop)]
pub enum Trouble {
    /// The stream of commands ended or failed, maybe inside a command.
    Ended,
    /// The answer wasn't taken.
    Unsent,
    /// The chip's power fell or is off.
    PowerLost,
    /// An operation of the chip didn't end.
    Slow,
    /// There is no memory for the bytes of a frame.
    OutOfMemory,
}

impl From<PowerLost> for Trouble {
    ghost from_gives = { λ _ e. e ≡ troubles.PowerLost };

    fn from(_: PowerLost) -> Self {
        Trouble::PowerLost
    }
}

/// Does a command on a bus; `told` is then its answer.
///
/// `PowerLost` where the bus lost the power in the frame, or it was off, and `OutOfMemory` where
/// there is none for the answer, and then the chip learned of no frame.
pub fn answer<B: SpiBus>(
    bus: &mut B,
    request: &Request<'_>,
    told: &mut Vec<u8>,
) -> Result<(), Trouble>
    ensures answers { OnOk result (SerprogAnswers (B.chip bus.old) request.now told.new.items
        (B.chip bus.new)) }
    ensures cuts { OnOk result (B.cuts bus.new ≡ B.cuts bus.old) }
    ensures leaves { IfErr result (λ trouble. SerprogLeaves (B.chip bus.old) (B.cuts bus.old)
        request.now trouble (B.chip bus.new) (B.cuts bus.new)) }
{
    match request {
        Request::Frame(sent, receives) => frame(bus, sent, *receives, told),
        Request::Nop => tell(told, &[0x06]),
        Request::Interface => tell(told, &[0x06, 0x01, 0x00]),
        Request::Commands => tell_map(told),
        Request::Name => tell(told, b"\x06norbd chip\0\0\0\0\0\0"),
        Request::SerialBuffer => tell(told, &[0x06, 0xFF, 0xFF]),
        Request::Buses => tell(told, &[0x06, 0x08]),
        Request::SendLimit => tell(told, &[0x06, 0x00, 0x00, 0x01]),
        Request::SyncNop => tell(told, &[0x15, 0x06]),
        Request::ReceiveLimit => tell(told, &[0x06, 0x00, 0x00, 0x01]),
        Request::SetBus(buses) => {
            let spi = *buses / 8 % 2 == 1;
            tell(told, &[if spi { 0x06 } else { 0x15 }])
        }
        Request::SetFrequency(hertz) => tell_frequency(told, *hertz),
        Request::SetPins(_) => tell(told, &[0x06]),
        Request::Unknown(_) => tell(told, &[0x15]),
    }
}

/// Makes `told` these bytes.
fn tell(told: &mut Vec<u8>, bytes: &[u8]) -> Result<(), Trouble>
    ensures told { OnOk result (told.new.items ≡ bytes.now) }
    ensures memory { IfErr result (λ e. e ≡ Trouble.OutOfMemory) }
{
    told.clear();
    match told.extend_from_slice(bytes) {
        Ok(()) => Ok(()),
        Err(_) => Err(Trouble::OutOfMemory),
    }
}

/// ACK and the answer to Q_CMDMAP.
fn tell_map(told: &mut Vec<u8>) -> Result<(), Trouble>
    ensures told { OnOk result (told.new.items ≡ acknowledged command_map) }
    ensures memory { IfErr result (λ e. e ≡ Trouble.OutOfMemory) }
{
    let mut bytes = [0u8; 33];
    bytes[0] = 0x06;
    bytes[1] = 0x3F;
    bytes[2] = 0x01;
    bytes[3] = 0x3F;
    tell(told, &bytes)
}

/// The answer to S_SPI_FREQ: 0 Hz is refused.
fn tell_frequency(told: &mut Vec<u8>, hertz: u32) -> Result<(), Trouble>
    ensures told { OnOk result (told.new.items
        ≡ if hertz == 0 then nak else acknowledged (long_bytes hertz)) }
    ensures memory { IfErr result (λ e. e ≡ Trouble.OutOfMemory) }
{
    if hertz == 0 {
        return tell(told, &[0x15]);
    }
    let bytes = [
        0x06,
        (hertz % 256) as u8,
        (hertz / 256 % 256) as u8,
        (hertz / 65_536 % 256) as u8,
        (hertz / 16_777_216 % 256) as u8,
    ];
    tell(told, &bytes)
}

/// One frame: ACK, and then what is received.
fn frame<B: SpiBus>(
    bus: &mut B,
    sent: &[u8],
    receives: u32,
    told: &mut Vec<u8>,
) -> Result<(), Trouble>
    ensures told { OnOk result ((received : List ℕ) × (told.new.items ≡ acknowledged received)
        × (length received ≡ receives)
        × AnswersFrame (B.chip bus.old) sent.now received (B.chip bus.new)) }
    ensures cuts { OnOk result (B.cuts bus.new ≡ B.cuts bus.old) }
    ensures leaves { IfErr result (λ e. LeavesFrame (B.chip bus.old) (B.cuts bus.old) sent.now e
        (B.chip bus.new) (B.cuts bus.new)) }
{
    if !make_room(told, receives) {
        return Err(Trouble::OutOfMemory);
    }
    match decode_beyond(sent) {
        Beyond::Table(at) => tell_table(bus, at, 5usize.saturating_sub(sent.len()), told),
        Beyond::EraseAll => erase_all(bus),
        Beyond::EraseHalf(at) => erase_half(bus, at),
        Beyond::Nothing => bus_frame(bus, sent, told),
    }
}

/// Makes `told` ACK and so many bytes FFh.
fn make_room(told: &mut Vec<u8>, receives: u32) -> bool
    ensures { result ≡ true → told.new.items ≡ acknowledged (replicate receives 255) }
{
    told.clear();
    if told.resize(receives as usize + 1, 0xFF).is_err() {
        return false;
    }
    told[0] = 0x06;
    true
}

/// One frame of the bus.
fn bus_frame<B: SpiBus>(bus: &mut B, sent: &[u8], told: &mut Vec<u8>) -> Result<(), Trouble>
    requires room { (n : ℕ) × (told.old.items ≡ acknowledged (replicate n 255)) }
    ensures told { OnOk result ((received : List ℕ) × (told.new.items ≡ acknowledged received)
        × (length (acknowledged received) ≡ length told.old.items)
        × Frame (B.chip bus.old) sent.now received (B.chip bus.new)) }
    ensures cuts { OnOk result (B.cuts bus.new ≡ B.cuts bus.old) }
    ensures lost { OnErr result (Loses (B.chip bus.old) (B.cuts bus.old) sent.now (B.chip bus.new)
        (B.cuts bus.new)) }
    ensures trouble { IfErr result (λ e. e ≡ Trouble.PowerLost) }
{
    bus.transact(sent, &mut told[1..])?;
    Ok(())
}

/// The SFDP bytes from an address on, behind so many dummy bytes.
fn tell_table<B: SpiBus>(
    bus: &mut B,
    at: u32,
    late: usize,
    told: &mut Vec<u8>,
) -> Result<(), Trouble>
    requires address { at < 2 ^ 24 }
    requires room { (n : ℕ) × (told.old.items ≡ acknowledged (replicate n 255)) }
    ensures told { OnOk result ((received : List ℕ) × (told.new.items ≡ acknowledged received)
        × (length (acknowledged received) ≡ length told.old.items)
        × TellsTable (B.chip bus.old) at late received) }
    ensures chip { OnOk result (B.chip bus.new ≡ B.chip bus.old) }
    ensures cuts { OnOk result (B.cuts bus.new ≡ B.cuts bus.old) }
    ensures lost { OnErr result (Lost (B.chip bus.old) (B.cuts bus.old) (B.chip bus.new)
        (B.cuts bus.new)) }
    ensures trouble { IfErr result (λ e. e ≡ Trouble.PowerLost) }
{
    read_late(bus, at, late, &mut told[1..])?;
    Ok(())
}
