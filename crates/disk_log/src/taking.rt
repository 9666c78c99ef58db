//! Taking up a log at a start.

ghost use Rattle.std.specs.Prelude.{◌+◌, ◌*◌, ◌≤◌, ℕ, List, length};
ghost use Rattle.disk_log.specs.Files.{OfFiles};
ghost use Rattle.disk_log.specs.Reading.{IsBlankOn, IsPlacedOn, IsRead, ReadsLog, TakesUp};
ghost use Rattle.disk_log.specs.Records.{count_in};

use crate::checkpoint::image_sum;
use crate::file::ImageFiles;
use crate::placing::{begin_log, place_blocks};
use crate::reading::Found;
use crate::record::{Sum, number_at};
use std::io;

/// Makes a log that a start found ready for more: places the blocks of a checkpoint in the image
/// and begins the log anew, cuts off what is behind its changes, or begins one. `image` has the
/// bytes that the reading left, all of which are on the medium then, and so is all of the log. The
/// sum is that on which the next record goes on. Where a call fails, the files hold what they did.
pub fn take_up<F: ImageFiles>(
    files: &mut F,
    sectors: u32,
    image: &[u8],
    log: &[u8],
    found: Found,
) -> io::Result<Sum>
    requires read { (was : List ℕ) × ReadsLog sectors log.now was (Ok found) image.now }
    requires files { OfFiles (F.medium files.old)
        (λ m. IsRead sectors image.now log.now found m) }
    ensures { TakesUp (F.medium files.old) image.now result (F.medium files.new) }
{
    match found {
        Found::Nothing => begin_anew(files, image),
        Found::Records { len, sum } => take_records(files, sectors, image, log, len, sum),
        Found::Checkpoint { at } => take_checkpoint(files, image, &log[at..]),
    }
}

/// Begins a log anew that says nothing, beside an image with these bytes: the sum on which its
/// first record goes on. All of both files is on the medium then.
pub fn begin_anew<F: ImageFiles>(files: &mut F, image: &[u8]) -> io::Result<Sum>
    requires { OfFiles (F.medium files.old) (λ m. IsBlankOn image.now m) }
    ensures { TakesUp (F.medium files.old) image.now result (F.medium files.new) }
{
    files.sync_image()?;
    files.cut_log(0)?;
    begin_log(files, image_sum(image), image)
}

/// Cuts off what is behind the changes of a log.
fn take_records<F: ImageFiles>(
    files: &mut F,
    sectors: u32,
    image: &[u8],
    log: &[u8],
    len: usize,
    sum: Sum,
) -> io::Result<Sum>
    requires { OfFiles (F.medium files.old)
        (λ m. IsRead sectors image.now log.now (Found.Records len sum) m) }
    ensures { TakesUp (F.medium files.old) image.now result (F.medium files.new) }
{
    files.sync_image()?;
    files.cut_log(len)?;
    Ok(sum)
}

/// Places the blocks of a checkpoint, and begins the log anew.
fn take_checkpoint<F: ImageFiles>(files: &mut F, image: &[u8], checkpoint: &[u8]) -> io::Result<Sum>
    requires long { 32 + 4104 * count_in checkpoint.now ≤ length checkpoint.now }
    requires placed { OfFiles (F.medium files.old) (λ m. IsPlacedOn image.now checkpoint.now m) }
    ensures { TakesUp (F.medium files.old) image.now result (F.medium files.new) }
{
    let count = number_at(checkpoint, 8) as usize;
    files.sync_log()?;
    place_blocks(files, image.len(), count, &checkpoint[24..])?;
    begin_log(files, image_sum(image), image)
}
