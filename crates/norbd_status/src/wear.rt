//! How often the blocks of a chip were erased.

ghost use Rattle.std.specs.Prelude.{◌<◌, length};
ghost use Rattle.norbd_status.specs.Erasing.{HasFewestErases, HasMostErases};

use crate::erasing::{Blocks, erased_by};
use nor_layout::FIRST_DATA_BLOCK;
use std::alloc::{AllocError, Global};
use std::sync::atomic::{AtomicU32, AtomicU64, Ordering};

/// How many blocks of 4,096 bytes the largest chip has, which is of 16 MiB.
pub const MOST_BLOCKS: u32 = 4_096;

/// A block, by its number on the chip, and how often it was erased.
#[derive(Clone, Copy, Debug, PartialEq, Eq)]
pub struct Worn {
    pub block: u32,
    pub erases: u64,
}

/// The data blocks with the most and the fewest erases.
#[derive(Clone, Copy, Debug, PartialEq, Eq)]
pub struct Extremes {
    pub most: Worn,
    pub least: Worn,
}

/// How often each block of a chip was erased since it was put on its bus. Threads share it.
#[derive(Drop)]
pub struct Wear {
    blocks: AtomicU32,
    erases: AtomicU64,
    by_block: Vec<AtomicU64>,
}

impl Wear {
    /// No erase, of a chip that has no blocks yet.
    pub fn new(alloc: Global) -> Result<Wear, AllocError> {
        let mut by_block = Vec::with_capacity(alloc, MOST_BLOCKS as usize)?;
        for _block in 0..MOST_BLOCKS {
            by_block.push(AtomicU64::new(0))?;
        }
        Ok(Wear {
            blocks: AtomicU32::new(0),
            erases: AtomicU64::new(0),
            by_block,
        })
    }

    /// The chip has so many blocks, of which at most `MOST_BLOCKS` are counted.
    pub(crate) fn begin(&self, blocks: u32) {
        self.blocks.store(blocks.min(MOST_BLOCKS), Ordering::SeqCst);
    }

    /// Counts what a frame erases.
    pub(crate) fn count(&self, send: &[u8]) {
        let blocks = self.blocks.load(Ordering::SeqCst);
        if blocks == 0 || blocks > MOST_BLOCKS {
            return;
        }
        let Blocks { first, count } = erased_by(send, blocks);
        for block in self
            .by_block
            .iter()
            .skip(first as usize)
            .take(count as usize)
        {
            block.fetch_add(1, Ordering::SeqCst);
        }
        self.erases.fetch_add(count as u64, Ordering::SeqCst);
    }

    /// How often blocks were erased in all.
    pub fn erases(&self) -> u64 {
        self.erases.load(Ordering::SeqCst)
    }

    /// The data blocks with the most and the fewest erases; None where the chip has none yet.
    pub fn extremes(&self, alloc: Global) -> Result<Option<Extremes>, AllocError> {
        let counts = self.by_block(alloc)?;
        let counts = counts.as_slice();
        let from = FIRST_DATA_BLOCK as usize;
        if counts.len() <= from || counts.len() > MOST_BLOCKS as usize {
            return Ok(None);
        }
        Ok(Some(Extremes {
            most: most_worn(counts, from),
            least: least_worn(counts, from),
        }))
    }

    /// How often each block of the chip was erased.
    fn by_block(&self, alloc: Global) -> Result<Vec<u64>, AllocError> {
        let blocks = self.blocks.load(Ordering::SeqCst) as usize;
        let mut counts = Vec::with_capacity(alloc, self.by_block.len())?;
        for count in self.by_block.iter().take(blocks) {
            counts.push(count.load(Ordering::SeqCst))?;
        }
        Ok(counts)
    }
}

/// The first block with the most erases, of those from a block on.
pub fn most_worn(counts: &[u64], from: usize) -> Worn
    requires some { from < length counts.now }
    requires most { length counts.now < 65536 }
    ensures { HasMostErases counts.now from result }
{
    let mut worn = Worn {
        block: from as u32,
        erases: counts[from],
    };
    for block in from..counts.len() {
        if counts[block] > worn.erases {
            worn = Worn {
                block: block as u32,
                erases: counts[block],
            };
        }
    }
    worn
}

/// The first block with the fewest erases, of those from a block on.
pub fn least_worn(counts: &[u64], from: usize) -> Worn
    requires some { from < length counts.now }
    requires most { length counts.now < 65536 }
    ensures { HasFewestErases counts.now from result }
{
    let mut worn = Worn {
        block: from as u32,
        erases: counts[from],
    };
    for block in from..counts.len() {
        if counts[block] < worn.erases {
            worn = Worn {
                block: block as u32,
                erases: counts[block],
            };
        }
    }
    worn
}
