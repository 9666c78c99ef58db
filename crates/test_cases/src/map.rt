//! The map of sectors on a chip.

use crate::came::Came;
use crate::chip::loss_of;
use crate::driver::OnDriver;
use crate::fault::Fault;
use crate::names::Names;
use crate::refusals::{of_nor, of_tidy};
use crate::words::Words;
use sector_map::SectorMap;
use std::alloc::Global;
use std::marker::Brand;

/// The map of a simulated chip.
pub(crate) type OnMap = SectorMap<OnDriver, Brand>;

/// Writes a sector.
fn replace(map: &mut OnMap, sector: u16, content: &[u8]) -> Result<Came, Fault> {
    if sector >= map.sectors() || content.len() != 512 {
        return Err(Fault::NotUnderstood);
    }
    Ok(Came::Said(of_nor(map.replace(sector, content))))
}

/// Reads a sector.
fn find(alloc: Global, map: &mut OnMap, sector: u16) -> Result<Came, Fault> {
    if sector >= map.sectors() {
        return Err(Fault::NotUnderstood);
    }
    let mut into = Vec::new(alloc);
    into.resize(512, 0x77)?;
    match map.find(sector, into.as_mut_slice()) {
        Ok(()) => Ok(Came::Bytes(into)),
        Err(error) => Ok(Came::Said(of_nor(Err(error)))),
    }
}

/// Makes a sector zeros.
fn clear(map: &mut OnMap, sector: u16) -> Result<Came, Fault> {
    if sector >= map.sectors() {
        return Err(Fault::NotUnderstood);
    }
    Ok(Came::Said(of_nor(map.clear(sector))))
}

/// A line of a map.
pub(crate) fn run(
    alloc: Global,
    names: &Names,
    map: &mut OnMap,
    verb: &str,
    mut words: Words,
) -> Result<Came, Fault> {
    if verb == "replace" {
        let sector = words.short()?;
        let content = names.bytes_of(alloc, words.all())?;
        return replace(map, sector, content.as_slice());
    }
    let came = match verb {
        "find" => find(alloc, map, words.short()?)?,
        "clear" => clear(map, words.short()?)?,
        "cut" => {
            let loss = loss_of(&mut words)?;
            map.arm(loss.count, loss.kind, loss.mask);
            Came::Said("ok")
        }
        "sectors" => Came::Number(u32::from(map.sectors())),
        "restore" => Came::Said(of_nor(map.restore())),
        "tidy" => Came::Said(of_tidy(match map.tidy() {
            Ok(more) => Ok(more),
            Err(error) => Err(of_nor(Err(error))),
        })),
        _ => return Err(Fault::NotUnderstood),
    };
    words.end()?;
    Ok(came)
}
