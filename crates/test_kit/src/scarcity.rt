//! A process whose memory is used up, for tests of calls that find none.
//!
//! No allocator of std fails when it is told to. So `spend` holds all that the allocator gives but
//! for one block of a size that the test chooses: what a call takes is cut from that block, and
//! what is larger than its rest is refused. No byte of what is held is touched, so addresses run
//! out, and not the machine's memory. The allocator of `rt try` can't be used up: `spend` fails
//! there.
//!
//! Proved is that it lets none of its blocks go while others are added. That nothing else is left
//! is what the tests show that use it: with the least size a call is refused. Source: own.

ghost use Rattle.std.specs.Prelude.{◌≤◌, IfOk, OnOk, vec_len};

use std::alloc::{AllocError, Global};

/// How many blocks of one size are held at most. On a machine of 16 GiB all addresses of a process
/// are some 8,200 blocks.
const MOST: usize = 100_000;

/// Holds blocks of this size until the allocator refuses one.
fn hold(alloc: Global, held: &mut Vec<Vec<u8>>, size: usize) -> Result<(), AllocError>
    ensures { OnOk result (vec_len held.old ≤ vec_len held.new) }
{
    for _ in 0..MOST {
        let Ok(block) = Vec::with_capacity(alloc, size) else {
            return Ok(());
        };
        held.push(block)?;
    }
    Err(AllocError)
}

/// Uses up the memory of this process but for one block of so many bytes, and hands out what is
/// held, to be let go after the call. The allocator refuses everything else then, down to its
/// smallest blocks.
pub fn spend(alloc: Global, size: usize) -> Result<Vec<Vec<u8>>, AllocError>
    ensures { IfOk result (λ held. 2 ≤ vec_len held) }
{
    let mut held = Vec::with_capacity(alloc, 40_000)?;
    held.push(Vec::with_capacity(alloc, size)?)?;
    let free = Vec::<u8>::with_capacity(alloc, size)?;
    held.push(Vec::with_capacity(alloc, size)?)?;
    for power in 0..43u32 {
        hold(alloc, &mut held, 1usize << (46 - power))?;
    }
    // small blocks that were freed are kept for requests of their own size
    for small in 0..65usize {
        hold(alloc, &mut held, 1_040 - 16 * small)?;
    }
    drop(free);
    Ok(held)
}
