//! What a start finds in a log.

ghost use Rattle.std.specs.Prelude.{◌≡◌, ◌≤◌, ◌↔◌, [], All, IsTrue, length, drop, true};
ghost use Rattle.disk_log.specs.Logs.{has_head, head_sum, log_reading};
ghost use Rattle.disk_log.specs.Reading.{ReadsLog, ReadsPlaced};
ghost use Rattle.disk_log.specs.Records.{begins_checkpoint, kind_in, record_len};

use crate::checkpoint::{image_sum, put_blocks};
use crate::head::{LOG_HEAD_LEN, is_unbegun, is_zero, read_log_head};
use crate::record::{RECORD_HEAD_LEN, Sum, body_len, number_at, read_head, read_record, read_sum};

/// What a log holds that belongs to its image.
#[derive(Clone, Copy, Debug, PartialEq, Eq, Drop)]
pub enum Found {
    /// Nothing: it was never begun, as where a start or the end of a checkpoint was killed, or
    /// nothing but zeros follows its head.
    Nothing,
    /// A head and changes: so many first bytes, and the sum of the last of them.
    Records { len: usize, sum: Sum },
    /// A whole checkpoint, behind so many bytes.
    Checkpoint { at: usize },
}

/// Why a log isn't taken.
#[derive(Clone, Copy, Debug, PartialEq, Eq, Drop)]
pub enum Refusal {
    /// It isn't a log.
    Foreign,
    /// It belongs to another image.
    Another,
}

/// Where a reading of changes ended.
#[derive(Clone, Copy, Drop)]
struct End {
    /// How many bytes they have.
    len: usize,
    /// The sum of the last of them.
    sum: Sum,
}

/// Reads the log beside an image whose disk has so many sectors. Where it finds a checkpoint, it
/// places the blocks in the image's bytes; a log of another image may leave them changed too.
pub fn read_log(sectors: u32, image: &mut [u8], log: &[u8]) -> Result<Found, Refusal>
    ensures { ReadsLog sectors log.now image.old result image.new }
{
    match read_log_head(log) {
        Some(sum) => read_begun(sectors, sum, image, log),
        None if is_unbegun(log) => Ok(Found::Nothing),
        None => Err(Refusal::Foreign),
    }
}

/// The same of a log that was begun on an image with the sum `own`.
fn read_begun(sectors: u32, own: Sum, image: &mut [u8], log: &[u8]) -> Result<Found, Refusal>
    requires head { has_head log.now ≡ true }
    requires own { own ≡ head_sum log.now }
    ensures { ReadsLog sectors log.now image.old result image.new }
{
    let end = read_changes(sectors, own, &log[LOG_HEAD_LEN..]);
    let at = LOG_HEAD_LEN + end.len;
    if is_checkpoint(end.sum, &log[at..]) {
        return read_placed(image, &log[at..], at);
    }
    if is_bare(end.len, &log[LOG_HEAD_LEN..]) {
        return Ok(Found::Nothing);
    }
    if image_sum(image) != own {
        return Err(Refusal::Another);
    }
    Ok(Found::Records {
        len: at,
        sum: end.sum,
    })
}

/// Whether there are no changes, of so many bytes, and nothing but zeros in their place.
fn is_bare(len: usize, rest: &[u8]) -> bool
    ensures { IsTrue result ↔ (len ≡ 0) × All (λ byte. byte ≡ 0) rest.now }
{
    len == 0 && is_zero(rest)
}

/// Places the blocks of a checkpoint, which is behind so many bytes of the log.
fn read_placed(image: &mut [u8], checkpoint: &[u8], at: usize) -> Result<Found, Refusal>
    requires long { 24 ≤ length checkpoint.now }
    requires whole { record_len checkpoint.now ≤ length checkpoint.now }
    requires kind { kind_in checkpoint.now ≡ 2 }
    ensures { ReadsPlaced at checkpoint.now image.old result image.new }
{
    let count = number_at(checkpoint, 8) as usize;
    put_blocks(image, count, &checkpoint[32..]);
    if read_sum(checkpoint, 24) == image_sum(image) {
        Ok(Found::Checkpoint { at })
    } else {
        Err(Refusal::Another)
    }
}

/// Reads the changes that these bytes begin with, behind a record with the sum `before`.
fn read_changes(sectors: u32, before: Sum, log: &[u8]) -> End
    ensures low { result.len ≤ length log.now }
    ensures rest { drop result.len log.now ≡ (log_reading sectors before log.now).rest }
    ensures none { result.len ≡ 0 ↔ (log_reading sectors before log.now).changes ≡ [] }
    ensures sum { result.sum ≡ (log_reading sectors before log.now).sum }
{
    let mut len = 0;
    let mut sum = before;
    while let Some(head) = read_record(sectors, sum, &log[len..]) {
        let rest = &log[len..];
        let record = RECORD_HEAD_LEN + body_len(rest);
        sum = head.sum;
        len += record;
    }
    End { len, sum }
}

/// Whether these bytes begin with a checkpoint, behind a record with the sum `before`.
fn is_checkpoint(before: Sum, log: &[u8]) -> bool
    ensures { result ≡ begins_checkpoint before log.now }
{
    match read_head(before, log) {
        Some(head) => head.kind == 2,
        None => false,
    }
}
