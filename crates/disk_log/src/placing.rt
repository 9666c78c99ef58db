//! Placing the blocks of a checkpoint, and beginning a log.

ghost use Rattle.std.specs.Prelude.{◌≡◌, ◌+◌, ◌*◌, ◌≤◌, length, drop};
ghost use Rattle.disk_log.specs.Checkpoints.{IsCheckpointBody, IsImageLen, image_sum};
ghost use Rattle.disk_log.specs.Files.{OfFiles};
ghost use Rattle.disk_log.specs.Logs.{IsBegunLog};
ghost use Rattle.disk_log.specs.Reading.{IsEmptyOn, TakesUp};
ghost use Rattle.disk_log.specs.Settling.{EmptiesLog, HasBlocks, HasEntryOf, LogsCheckpoint};
ghost use Rattle.disk_log.specs.Settling.{PlacesBlocks, PlacesEntry, SettlesFiles, SettlesInOrder};
ghost use Rattle.disk_log.specs.Settling.{AreInOrder};

use crate::checkpoint::{CHECKPOINT_ENTRY_LEN, changed_blocks};
use crate::file::{IMAGE_BLOCK_LEN, ImageFiles};
use crate::head::log_head;
use crate::record::{Sum, head_of, number_at, read_sum};
use std::alloc::Global;
use std::io;
use std::io::ErrorKind;

/// Writes the block of an entry into an image of so many bytes, where it has the block.
fn write_entry<F: ImageFiles>(files: &mut F, len: usize, entry: &[u8]) -> io::Result<()>
    requires long { 4104 ≤ length entry.now }
    requires there { OfFiles (F.medium files.old) (λ m. HasEntryOf m len entry.now) }
    ensures { PlacesEntry entry.now (F.medium files.old) result (F.medium files.new) }
{
    let number = number_at(entry, 0);
    if IMAGE_BLOCK_LEN * number as usize + IMAGE_BLOCK_LEN > len {
        return Ok(());
    }
    files.write_block(number, &entry[8..CHECKPOINT_ENTRY_LEN])
}

/// Writes the blocks of a checkpoint with this body into an image of so many bytes.
fn write_blocks<F: ImageFiles>(
    files: &mut F,
    len: usize,
    count: usize,
    body: &[u8],
) -> io::Result<()>
    requires long { 8 + 4104 * count ≤ length body.now }
    requires there { OfFiles (F.medium files.old) (λ m. HasBlocks m len count (drop 8 body.now)) }
    ensures { PlacesBlocks count (drop 8 body.now) (F.medium files.old) result
        (F.medium files.new) }
{
    for k in 0..count {
        let at = 8 + CHECKPOINT_ENTRY_LEN * k;
        write_entry(files, len, &body[at..at + CHECKPOINT_ENTRY_LEN])?;
    }
    Ok(())
}

/// Brings the blocks of a checkpoint into an image of so many bytes, and then ends the log before
/// its head. Where a call fails, the files hold what they did.
pub(crate) fn place_blocks<F: ImageFiles>(
    files: &mut F,
    len: usize,
    count: usize,
    body: &[u8],
) -> io::Result<()>
    requires long { 8 + 4104 * count ≤ length body.now }
    requires there { OfFiles (F.medium files.old) (λ m. HasBlocks m len count (drop 8 body.now)) }
    ensures empties { EmptiesLog count (drop 8 body.now) (F.medium files.old) result
        (F.medium files.new) }
    ensures kept { AreInOrder (F.medium files.new) }
{
    write_blocks(files, len, count, body)?;
    files.sync_image()?;
    files.cut_log(0)
}

/// Begins an empty log on an image with these bytes, which have this sum, and brings its head onto
/// the medium.
pub(crate) fn begin_log<F: ImageFiles>(files: &mut F, sum: Sum, image: &[u8]) -> io::Result<Sum>
    requires sum { sum ≡ image_sum image.now }
    requires empty { OfFiles (F.medium files.old) (λ m. IsEmptyOn image.now m) }
    ensures takes { TakesUp (F.medium files.old) image.now result (F.medium files.new) }
    ensures kept { AreInOrder (F.medium files.new) }
{
    files.append(&log_head(sum), &[])?;
    files.sync_log()?;
    Ok(sum)
}

/// Appends a checkpoint with this body to a log that was begun on an image with the bytes `was`,
/// after which it has the bytes `is`.
fn log_checkpoint<F: ImageFiles>(
    files: &mut F,
    before: Sum,
    was: &[u8],
    is: &[u8],
    body: &[u8],
) -> io::Result<()>
    requires same { length was.now ≡ length is.now }
    requires body { IsCheckpointBody was.now is.now body.now }
    requires begun { OfFiles (F.medium files.old) (λ m. IsBegunLog m was.now before) }
    ensures logs { LogsCheckpoint is.now body.now (F.medium files.old) result
        (F.medium files.new) }
    ensures kept { SettlesInOrder is.now (F.medium files.old) (F.medium files.new) }
{
    let count = (body.len() - 8) / CHECKPOINT_ENTRY_LEN;
    let (head, _) = head_of(2, 0, count as u32, body, before);
    match files.append(&head, body) {
        Ok(()) => files.sync_log(),
        Err(error) => Err(error),
    }
}

/// Makes an image file with the bytes `was`, on which the log was begun, one with the bytes `is`,
/// and begins the log anew. Where a call fails, the files hold what they did, or what `is`
/// represents.
pub(crate) fn settle_files<F: ImageFiles>(
    alloc: Global,
    files: &mut F,
    sum: &mut Sum,
    was: &[u8],
    is: &[u8],
) -> io::Result<()>
    requires same { length was.now ≡ length is.now }
    requires len { IsImageLen (length is.now) }
    requires begun { OfFiles (F.medium files.old) (λ m. IsBegunLog m was.now sum.old) }
    ensures settles { SettlesFiles is.now (F.medium files.old) result sum.new
        (F.medium files.new) }
    ensures kept { SettlesInOrder is.now (F.medium files.old) (F.medium files.new) }
{
    let Ok(checkpoint) = changed_blocks(alloc, was, is) else {
        return Err(io::Error::from(ErrorKind::OutOfMemory));
    };
    let body = checkpoint.as_slice();
    log_checkpoint(files, *sum, was, is, body)?;
    place_blocks(
        files,
        is.len(),
        (body.len() - 8) / CHECKPOINT_ENTRY_LEN,
        body,
    )?;
    *sum = begin_log(files, read_sum(body, 0), is)?;
    Ok(())
}
