//! Commands, off a stream of bytes.

ghost use Rattle.std.specs.Prelude.{◌≡◌, ◌<◌, ◌⊎◌, ◌++◌, [], ◌∷◌, IfOk, length, true};
ghost use Rattle.std.specs.Io.KnownBytes.{Consumes};
ghost use Rattle.serprog.specs.Protocol.{three_bytes};
ghost use Rattle.serprog_chip.specs.Answering.{long_bytes, is_proper, text_of};

use crate::answering::Trouble;
use block_device::Source;
use serprog::{Short, receive};

/// A command of serprog.
#[derive(Clone, Copy, Debug, PartialEq, Eq)]
pub enum Request<'a> {
    /// NOP (00h).
    Nop,
    /// Q_IFACE (01h): the protocol's version.
    Interface,
    /// Q_CMDMAP (02h): the commands that are offered.
    Commands,
    /// Q_PGMNAME (03h): the programmer's name.
    Name,
    /// Q_SERBUF (04h): how much the line takes at once.
    SerialBuffer,
    /// Q_BUSTYPE (05h): the buses that are offered.
    Buses,
    /// Q_WRNMAXLEN (08h): how much can be sent in a frame.
    SendLimit,
    /// SYNCNOP (10h).
    SyncNop,
    /// Q_RDNMAXLEN (11h): how much can be received in a frame.
    ReceiveLimit,
    /// S_BUSTYPE (12h): the buses of which one is to be used.
    SetBus(u8),
    /// O_SPIOP (13h): the bytes that are sent, and how many are received, below 2^24 each.
    Frame(&'a [u8], u32),
    /// S_SPI_FREQ (14h): the bus's frequency in hertz.
    SetFrequency(u32),
    /// S_PIN_STATE (15h): whether the pins are driven.
    SetPins(u8),
    /// A command that isn't offered: its code.
    Unknown(u8),
}

/// The next command of a stream; the bytes that O_SPIOP sends are put into `room`.
pub fn read_request<'b, I: Source>(
    source: &mut I,
    room: &'b mut Vec<u8>,
) -> Result<Request<'b>, Trouble>
    ensures taken { IfOk result (λ r.
        Consumes (I.remaining source.old) (I.remaining source.new) (text_of r)) }
    ensures proper { IfOk result (λ r. is_proper r ≡ true) }
{
    let code = next_byte(source)?;
    match code {
        0x12 => {
            let buses = next_byte(source)?;
            Ok(Request::SetBus(buses))
        }
        0x13 => {
            let receives = read_frame(source, room)?;
            Ok(Request::Frame(room.as_slice(), receives))
        }
        0x14 => {
            let hertz = next_word(source)?;
            Ok(Request::SetFrequency(hertz))
        }
        0x15 => {
            let state = next_byte(source)?;
            Ok(Request::SetPins(state))
        }
        _ => Ok(single(code)),
    }
}

/// The command that is one byte.
fn single<'b>(code: u8) -> Request<'b>
    requires { (code < 18) ⊎ (21 < code) }
    ensures text { text_of result ≡ code ∷ [] }
    ensures proper { is_proper result ≡ true }
{
    match code {
        0x00 => Request::Nop,
        0x01 => Request::Interface,
        0x02 => Request::Commands,
        0x03 => Request::Name,
        0x04 => Request::SerialBuffer,
        0x05 => Request::Buses,
        0x08 => Request::SendLimit,
        0x10 => Request::SyncNop,
        0x11 => Request::ReceiveLimit,
        _ => Request::Unknown(code),
    }
}

/// The next byte of a stream.
fn next_byte<I: Source>(source: &mut I) -> Result<u8, Trouble>
    ensures { IfOk result (λ b.
        Consumes (I.remaining source.old) (I.remaining source.new) (b ∷ [])) }
{
    let mut byte = [0u8; 1];
    match receive(source, &mut byte) {
        Ok(()) => Ok(byte[0]),
        Err(Short) => Err(Trouble::Ended),
    }
}

/// The next 32 bits of a stream.
fn next_word<I: Source>(source: &mut I) -> Result<u32, Trouble>
    ensures { IfOk result (λ n.
        Consumes (I.remaining source.old) (I.remaining source.new) (long_bytes n)) }
{
    let mut bytes = [0u8; 4];
    match receive(source, &mut bytes) {
        Ok(()) => Ok(word(bytes)),
        Err(Short) => Err(Trouble::Ended),
    }
}

/// A number of 32 bits, the least significant byte first.
fn word(bytes: [u8; 4]) -> u32
    ensures { long_bytes result ≡ bytes }
{
    let [a, b, c, d] = bytes;
    a as u32 + b as u32 * 256 + c as u32 * 65_536 + d as u32 * 16_777_216
}

/// A number of 24 bits, the least significant byte first.
fn three(a: u8, b: u8, c: u8) -> u32
    ensures bytes { three_bytes result ≡ a ∷ b ∷ c ∷ [] }
    ensures range { result < 16777216 }
{
    a as u32 + b as u32 * 256 + c as u32 * 65_536
}

/// What follows the code of O_SPIOP: the bytes that are sent are put into `room`, and how many are
/// received is answered.
fn read_frame<I: Source>(source: &mut I, room: &mut Vec<u8>) -> Result<u32, Trouble>
    ensures { IfOk result (λ n. Consumes (I.remaining source.old) (I.remaining source.new)
        (three_bytes (length room.new.items) ++ (three_bytes n ++ room.new.items))) }
{
    let mut lengths = [0u8; 6];
    if receive(source, &mut lengths).is_err() {
        return Err(Trouble::Ended);
    }
    let [a, b, c, d, e, f] = lengths;
    let sent = three(a, b, c);
    let receives = three(d, e, f);
    if room.resize(sent as usize, 0).is_err() {
        return Err(Trouble::OutOfMemory);
    }
    if receive(source, room.as_mut_slice()).is_err() {
        return Err(Trouble::Ended);
    }
    Ok(receives)
}
