//! The driver of a chip, as a NOR memory.

use crate::came::Came;
use crate::chip::loss_of;
use crate::fault::Fault;
use crate::names::Names;
use crate::recorder::Recorder;
use crate::refusals::of_nor;
use crate::words::Words;
use nor_driver::{Driver, Nor};
use std::alloc::Global;

/// The driver of a simulated chip.
pub(crate) type OnDriver = Driver<Recorder>;

/// Programs bytes, which lie in one page.
fn program(driver: &mut OnDriver, at: u32, bytes: &[u8]) -> Result<Came, Fault> {
    let size = driver.bytes();
    let page = (at % 256) as usize;
    if at >= size || bytes.is_empty() || bytes.len() > 256 - page {
        return Err(Fault::NotUnderstood);
    }
    if bytes.len() > (size - at) as usize {
        return Err(Fault::NotUnderstood);
    }
    Ok(Came::Said(of_nor(driver.program(at, bytes))))
}

/// Reads so many bytes.
fn get(alloc: Global, driver: &mut OnDriver, at: u32, len: usize) -> Result<Came, Fault> {
    let size = driver.bytes();
    if at >= size || len > (size - at) as usize {
        return Err(Fault::NotUnderstood);
    }
    let mut into = Vec::new(alloc);
    into.resize(len, 0x77)?;
    match driver.read(at, into.as_mut_slice()) {
        Ok(()) => Ok(Came::Bytes(into)),
        Err(error) => Ok(Came::Said(of_nor(Err(error)))),
    }
}

/// Reads as many bytes as are wanted, and one where a word is.
fn get_wanted(
    alloc: Global,
    names: &Names,
    driver: &mut OnDriver,
    mut words: Words,
    wanted: &str,
) -> Result<Came, Fault> {
    let at = words.address()?;
    words.end()?;
    let len = match names.bytes_of(alloc, wanted) {
        Ok(bytes) => bytes.len(),
        Err(Fault::NoMemory) => return Err(Fault::NoMemory),
        Err(Fault::NotUnderstood) => 1,
    };
    get(alloc, driver, at, len)
}

/// Erases the unit at an address.
fn erase(driver: &mut OnDriver, unit: &str, at: u32) -> Result<Came, Fault> {
    if at >= driver.bytes() {
        return Err(Fault::NotUnderstood);
    }
    match unit {
        "small" if at % 4_096 == 0 => Ok(Came::Said(of_nor(driver.erase_small(at)))),
        "large" if at % 65_536 == 0 && driver.has_large() => {
            Ok(Came::Said(of_nor(driver.erase_large(at))))
        }
        _ => Err(Fault::NotUnderstood),
    }
}

/// A line of a driver.
pub(crate) fn run(
    alloc: Global,
    names: &Names,
    driver: &mut OnDriver,
    verb: &str,
    mut words: Words,
    wanted: &str,
) -> Result<Came, Fault> {
    match verb {
        "program" => {
            let at = words.address()?;
            let bytes = names.bytes_of(alloc, words.all())?;
            program(driver, at, bytes.as_slice())
        }
        "get" => get_wanted(alloc, names, driver, words, wanted),
        "erase" => {
            let unit = words.word()?;
            let at = words.address()?;
            words.end()?;
            erase(driver, unit, at)
        }
        "size" => {
            words.end()?;
            Ok(Came::Number(driver.bytes()))
        }
        "restart" => {
            words.end()?;
            Ok(Came::Said(of_nor(driver.restart())))
        }
        "cut" => {
            let loss = loss_of(&mut words)?;
            words.end()?;
            driver.arm(loss.count, loss.kind, loss.mask);
            Ok(Came::Said("ok"))
        }
        _ => Err(Fault::NotUnderstood),
    }
}
