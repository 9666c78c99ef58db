//! The blocks of a checkpoint.

ghost use Rattle.std.specs.Prelude.{◌≡◌, ◌*◌, ◌≤◌, [], length, IfOk, OnOk};
ghost use Rattle.disk_log.specs.Checkpoints.{HasEntry, IsCheckpointBody, IsImageLen, image_sum};
ghost use Rattle.disk_log.specs.Checkpoints.{entry_number, with_block, with_blocks};
ghost use Rattle.disk_log.specs.Records.{sum_at};

use crate::file::IMAGE_BLOCK_LEN;
use crate::record::{Sum, number_at};
use sqlite_wal::checksum_of;
use std::alloc::{AllocError, Global};

/// The bytes of a block in a checkpoint: its number, four bytes that say nothing, its bytes.
pub(crate) const CHECKPOINT_ENTRY_LEN: usize = 4104;

/// The sum of an image's bytes.
pub(crate) fn image_sum(image: &[u8]) -> Sum
    ensures { result ≡ image_sum image.now }
{
    checksum_of(false, (0, 0), image)
}

/// Puts the block that an entry has into an image, where the image has it.
fn put_block(image: &mut [u8], entry: &[u8])
    requires { 4104 ≤ length entry.now }
    ensures { image.new ≡ with_block image.old entry.now }
{
    let at = IMAGE_BLOCK_LEN * number_at(entry, 0) as usize;
    if at + IMAGE_BLOCK_LEN <= image.len() {
        image[at..at + IMAGE_BLOCK_LEN].copy_from_slice(&entry[8..CHECKPOINT_ENTRY_LEN]);
    }
}

/// Puts so many blocks into an image.
pub(crate) fn put_blocks(image: &mut [u8], count: usize, entries: &[u8])
    requires { 4104 * count ≤ length entries.now }
    ensures { image.new ≡ with_blocks count entries.now image.old }
{
    for k in 0..count {
        put_block(
            image,
            &entries[CHECKPOINT_ENTRY_LEN * k..CHECKPOINT_ENTRY_LEN * k + CHECKPOINT_ENTRY_LEN],
        );
    }
}

/// What follows the head of a checkpoint after which an image has the bytes `is`, where it has
/// `was`: the sum of these bytes, and each block in which they differ.
pub(crate) fn changed_blocks(alloc: Global, was: &[u8], is: &[u8]) -> Result<Vec<u8>, AllocError>
    requires same { length was.now ≡ length is.now }
    requires len { IsImageLen (length is.now) }
    ensures { IfOk result (λ body. IsCheckpointBody was.now is.now body.items) }
{
    let mut body = Vec::new(alloc);
    push_sum(&mut body, image_sum(is))?;
    for k in 0..is.len() / IMAGE_BLOCK_LEN {
        let block = &is[IMAGE_BLOCK_LEN * k..IMAGE_BLOCK_LEN * k + IMAGE_BLOCK_LEN];
        if block != &was[IMAGE_BLOCK_LEN * k..IMAGE_BLOCK_LEN * k + IMAGE_BLOCK_LEN] {
            push_entry(&mut body, k as u32, block)?;
        }
    }
    Ok(body)
}

/// Begins the body of a checkpoint with a sum.
fn push_sum(body: &mut Vec<u8>, sum: Sum) -> Result<(), AllocError>
    requires { body.old.items ≡ [] }
    ensures len { OnOk result (length body.new.items ≡ 8) }
    ensures sum { OnOk result (sum_at 0 body.new.items ≡ sum) }
{
    let (s, t) = (sum.0.to_le_bytes(), sum.1.to_le_bytes());
    body.extend_from_slice(&[s[0], s[1], s[2], s[3], t[0], t[1], t[2], t[3]])
}

/// The first 8 bytes of an entry of a block with this number.
fn entry_head(number: u32) -> [u8; 8]
    ensures len { length result ≡ 8 }
    ensures number { entry_number result ≡ number }
{
    let n = number.to_le_bytes();
    [n[0], n[1], n[2], n[3], 0, 0, 0, 0]
}

/// Appends an entry of a block with this number to others.
fn push_entry(body: &mut Vec<u8>, number: u32, block: &[u8]) -> Result<(), AllocError>
    ensures { OnOk result (HasEntry number block.now body.old.items body.new.items) }
{
    body.extend_from_slice(&entry_head(number))?;
    body.extend_from_slice(block)
}
