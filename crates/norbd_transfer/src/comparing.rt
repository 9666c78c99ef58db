//! Which sectors of two disks differ.

ghost use Rattle.std.specs.Prelude.{◌≡◌, ◌+◌, ◌*◌, ◌/◌, ◌%◌, ◌≤◌, IfOk, length};
ghost use Rattle.std.specs.Bool.{Decides};
ghost use Rattle.block_device.specs.Contents.{sector};
ghost use Rattle.norbd_transfer.specs.Differing.{Differing};

use block_device::SECTOR_LEN;
use std::alloc::{AllocError, Global};

/// The numbers of the sectors in which two disks of the same length differ, in ascending order.
pub fn differing_sectors(alloc: Global, these: &[u8], those: &[u8]) -> Result<Vec<u32>, AllocError>
    requires whole { length these.now % 512 ≡ 0 }
    requires same { length those.now ≡ length these.now }
    requires few { length these.now ≤ 33554432 }
    ensures { IfOk result (λ numbers. Differing these.now those.now (length these.now / 512)
        numbers.items) }
{
    let mut numbers = Vec::new(alloc);
    for k in 0..(these.len() / SECTOR_LEN) as u32 {
        if !is_same(these, those, k) {
            numbers.push(k)?;
        }
    }
    Ok(numbers)
}

/// Whether a sector is the same on two disks.
fn is_same(these: &[u8], those: &[u8], k: u32) -> bool
    requires range { 512 * k + 512 ≤ length these.now }
    requires same { length those.now ≡ length these.now }
    ensures { Decides result (sector these.now k ≡ sector those.now k) }
{
    let at = k as usize * SECTOR_LEN;
    these[at..at + SECTOR_LEN] == those[at..at + SECTOR_LEN]
}
