//! A plain array of sectors, of which after a loss some may be old or new.

use std::alloc::Global;
use std::test::*;
use test_kit::Dice;

/// The sectors of a chip of 64 KiB.
pub(crate) const SECTORS: u32 = 70;

/// The bytes that a stamp represents; those of stamp 0 are zeros.
pub(crate) fn content(stamp: u32) -> [u8; 512] {
    let mut bytes = [0u8; 512];
    if stamp != 0 {
        let mut dice = Dice::new(u64::from(stamp).wrapping_mul(0x9E37_79B9_7F4A_7C15));
        for k in 0..512usize {
            bytes[k] = dice.below(256) as u8;
        }
    }
    bytes
}

/// For each sector the stamps of which one stands there: of a known sector one alone.
#[derive(Drop)]
pub(crate) struct Sectors {
    stamps: Vec<Vec<u32>>,
    /// How many of those that were unknown when they were read turned out to be as before, and as
    /// written.
    pub(crate) olds: u32,
    pub(crate) news: u32,
}

impl Sectors {
    /// Sectors of zeros.
    pub(crate) fn new(alloc: Global) -> Result<Sectors, Fail> {
        let mut stamps = Vec::new(alloc);
        for _ in 0..SECTORS {
            let mut one = Vec::new(alloc);
            one.push(0u32)?;
            stamps.push(one)?;
        }
        Ok(Sectors {
            stamps,
            olds: 0,
            news: 0,
        })
    }

    /// Sectors were written, with the stamps from one on: all of them, or where that was
    /// interrupted each of them perhaps.
    pub(crate) fn write(
        &mut self,
        first: u32,
        count: u32,
        stamp: u32,
        is_whole: bool,
    ) -> Result<(), Fail> {
        for k in 0..count {
            self.put(first.saturating_add(k), stamp.wrapping_add(k), is_whole)?;
        }
        Ok(())
    }

    /// Sectors became zeros: all of them, or where that was interrupted each of them perhaps.
    pub(crate) fn zero(&mut self, first: u32, count: u32, is_whole: bool) -> Result<(), Fail> {
        for k in 0..count {
            self.put(first.saturating_add(k), 0, is_whole)?;
        }
        Ok(())
    }

    /// A sector has this stamp now, or where that was interrupted perhaps.
    fn put(&mut self, sector: u32, stamp: u32, is_whole: bool) -> Result<(), Fail> {
        let Some(stamps) = self.stamps.get_mut(sector as usize) else {
            return Err(Fail::new("a sector past the disk"));
        };
        if is_whole {
            stamps.clear();
        }
        stamps.push(stamp)?;
        Ok(())
    }

    /// Whether bytes that were read may be those of the sectors from one on. What these hold is
    /// known then.
    pub(crate) fn read(&mut self, first: u32, bytes: &[u8]) -> Result<bool, Fail> {
        let mut sector = first as usize;
        for chunk in bytes.chunks(512) {
            let Some(stamps) = self.stamps.get_mut(sector) else {
                return Err(Fail::new("a sector past the disk"));
            };
            let mut found = None;
            for stamp in stamps.iter() {
                if content(*stamp).as_slice() == chunk {
                    found = Some(*stamp);
                }
            }
            let Some(stamp) = found else {
                return Ok(false);
            };
            if stamps.len() > 1 && stamps[0] == stamp {
                self.olds = self.olds.wrapping_add(1);
            }
            if stamps.len() > 1 && stamps[0] != stamp {
                self.news = self.news.wrapping_add(1);
            }
            stamps.clear();
            stamps.push(stamp)?;
            sector = sector.saturating_add(1);
        }
        Ok(true)
    }
}
