//! What is asked of a programmer before the first frame.

ghost use Rattle.std.specs.Prelude.{◌≡◌, ◌≤◌, ◌<◌, [], ◌∷◌, length, None, OnOk, IfOk};
ghost use Rattle.std.specs.Io.KnownBytes.{Appends, Consumes};
ghost use Rattle.serprog.specs.Protocol.{acknowledged};

use crate::error::SerprogError;
use crate::identity::{Identity, is_offered};
use crate::streams::{Incoming, receive};
use crate::syncing::{ended, sync};
use block_device::{Sink, send};

/// Brings the two sides into step, asks for the version, the commands and the buses that are
/// offered, takes SPI as the bus, sets the clock in Hz where there is one, asks what the programmer
/// says of itself, and turns its pin drivers on, where it has them.
///
/// `NoClock` where a clock is asked for and can't be set.
pub fn greet<I: Incoming, O: Sink>(
    source: &mut I,
    sink: &mut O,
    clock: Option<u32>,
) -> Result<Identity, SerprogError>
    ensures sends { IfOk result (λ i. 260 ≤ i.sends) }
    ensures receives { IfOk result (λ i. 4096 ≤ i.receives) }
    ensures clock { clock ≡ None → IfOk result (λ i. i.clock ≡ None) }
{
    sync(source, sink)?;
    let mut version = [0u8; 2];
    ask(source, sink, &[0x01], &mut version)?;
    if version[0] != 1 || version[1] != 0 {
        let number = version[0] as u16 + version[1] as u16 * 256;
        return Err(SerprogError::Version(number));
    }
    let mut map = [0u8; 32];
    ask(source, sink, &[0x02], &mut map)?;
    choose_spi(source, sink, &map)?;
    let clock = set_clock(source, sink, &map, clock)?;
    let mut name = [0u8; 16];
    if is_offered(&map, 0x03) {
        ask(source, sink, &[0x03], &mut name)?;
    }
    let buffers = buffers(source, sink, &map)?;
    let sends = limit(source, sink, &map, 0x08)?;
    if sends < 260 {
        return Err(SerprogError::ShortWrites(sends));
    }
    let receives = limit(source, sink, &map, 0x11)?;
    if receives < 4_096 {
        return Err(SerprogError::ShortReads(receives));
    }
    let drives_pins = is_offered(&map, 0x15);
    if drives_pins {
        ask(source, sink, &[0x15, 1], &mut [])?;
    }
    Ok(Identity {
        name,
        sends,
        receives,
        buffers,
        clock,
        drives_pins,
    })
}

/// Turns the pin drivers off, so that others may drive the chip's pins. What comes of that isn't
/// told.
pub(crate) fn take_leave<I: Incoming, O: Sink>(source: &mut I, sink: &mut O) {
    let _ = ask(source, sink, &[0x15, 0], &mut []);
}

/// Sets the clock in Hz where there is one, and answers which the programmer set.
fn set_clock<I: Incoming, O: Sink>(
    source: &mut I,
    sink: &mut O,
    map: &[u8; 32],
    clock: Option<u32>,
) -> Result<Option<u32>, SerprogError>
    ensures { clock ≡ None → IfOk result (λ set. set ≡ None) }
{
    let Some(hz) = clock else {
        return Ok(None);
    };
    if !is_offered(map, 0x14) {
        return Err(SerprogError::NoClock);
    }
    let bytes = hz.to_le_bytes();
    let mut set = [0u8; 4];
    ask(
        source,
        sink,
        &[0x14, bytes[0], bytes[1], bytes[2], bytes[3]],
        &mut set,
    )?;
    Ok(Some(u32::from_le_bytes(set)))
}

/// How many bytes may be on the way: 16 where that isn't told, as flashrom has it.
fn buffers<I: Incoming, O: Sink>(
    source: &mut I,
    sink: &mut O,
    map: &[u8; 32],
) -> Result<u16, SerprogError> {
    if !is_offered(map, 0x04) {
        return Ok(16);
    }
    let mut told = [0u8; 2];
    ask(source, sink, &[0x04], &mut told)?;
    Ok(u16::from_le_bytes(told))
}

/// SPI as the bus: refused where a command that this takes, or O_SPIOP, isn't offered.
fn choose_spi<I: Incoming, O: Sink>(
    source: &mut I,
    sink: &mut O,
    map: &[u8; 32],
) -> Result<(), SerprogError> {
    if !is_offered(map, 0x12) {
        return Err(SerprogError::NotOffered(0x12));
    }
    if !is_offered(map, 0x13) {
        return Err(SerprogError::NotOffered(0x13));
    }
    if is_offered(map, 0x05) {
        let mut buses = [0u8; 1];
        ask(source, sink, &[0x05], &mut buses)?;
        if buses[0] / 8 % 2 == 0 {
            return Err(SerprogError::NoSpi(buses[0]));
        }
    }
    ask(source, sink, &[0x12, 0x08], &mut [])
}

/// A number of bytes that a command tells, 0 for 2^24, which no frame has: 16,777,215 is then
/// answered, as where the command isn't offered.
fn limit<I: Incoming, O: Sink>(
    source: &mut I,
    sink: &mut O,
    map: &[u8; 32],
    command: u8,
) -> Result<u32, SerprogError>
    ensures { IfOk result (λ n. n < 16777216) }
{
    let mut told = [0u8; 3];
    if is_offered(map, command) {
        ask(source, sink, &[command], &mut told)?;
    }
    let most = told[0] as u32 + told[1] as u32 * 256 + told[2] as u32 * 65_536;
    if most == 0 { Ok(16_777_215) } else { Ok(most) }
}

/// A command, and what follows ACK in its answer.
fn ask<I: Incoming, O: Sink>(
    source: &mut I,
    sink: &mut O,
    command: &[u8],
    told: &mut [u8],
) -> Result<(), SerprogError>
    requires { 0 < length command.now }
    ensures asked { OnOk result (Appends (O.written sink.old) (O.written sink.new) command.now) }
    ensures told { OnOk result (Consumes (I.remaining source.old) (I.remaining source.new)
        (acknowledged told.new)) }
{
    if send(sink, command).is_err() {
        return Err(SerprogError::Lost);
    }
    let mut ack = [0u8; 1];
    if receive(source, &mut ack).is_err() {
        return Err(ended(source));
    }
    if ack[0] != 0x06 {
        return Err(SerprogError::Refused(command[0]));
    }
    if receive(source, told).is_err() {
        return Err(ended(source));
    }
    Ok(())
}
