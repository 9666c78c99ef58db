//! Doing a log's changes anew.

ghost use Rattle.std.specs.Prelude.{◌≡◌, ◌/◌, ◌*◌, ◌+◌, ◌≤◌, ◌<◌, length, true, OnOk};
ghost use Rattle.block_device.specs.Facts.{CountsNeverFall, IsDiskReady, Latches};
ghost use Rattle.disk_log.specs.Logs.{log_changes, log_reading};
ghost use Rattle.disk_log.specs.Records.{record_change, replayed, with_change, body_len_of};

use crate::head::{LOG_HEAD_LEN, read_log_head};
use crate::record::{Head, RECORD_HEAD_LEN, Sum, body_len, read_record};
use block_device::{Disk, DiskError};

/// Makes the changes of a log on a disk, in their order. What is behind them says nothing: a record
/// that was cut short, or bytes of an older log. It fails only where the disk does.
pub fn replay<D: Disk>(disk: &mut D, log: &[u8]) -> Result<(), DiskError>
    ensures contents { OnOk result ((D.facts disk.old).sound ≡ true → (D.facts disk.new).contents
        ≡ replayed (log_changes (length (D.facts disk.old).contents / 512) log.now).changes
        (D.facts disk.old).contents) }
    ensures sound { (D.facts disk.new).sound ≡ (D.facts disk.old).sound }
    ensures goes { CountsNeverFall (D.facts disk.old) (D.facts disk.new) }
    ensures latches { IsDiskReady (D.facts disk.old)
        → Latches (D.facts disk.old) result (D.facts disk.new) }
{
    match read_log_head(log) {
        Some(sum) => replay_records(disk, sum, &log[LOG_HEAD_LEN..]),
        None => Ok(()),
    }
}

/// Makes the changes of the records that these bytes begin with, behind one with the sum `before`.
fn replay_records<D: Disk>(disk: &mut D, before: Sum, log: &[u8]) -> Result<(), DiskError>
    ensures contents { OnOk result ((D.facts disk.old).sound ≡ true → (D.facts disk.new).contents
        ≡ replayed (log_reading (length (D.facts disk.old).contents / 512) before log.now).changes
        (D.facts disk.old).contents) }
    ensures sound { (D.facts disk.new).sound ≡ (D.facts disk.old).sound }
    ensures goes { CountsNeverFall (D.facts disk.old) (D.facts disk.new) }
    ensures latches { IsDiskReady (D.facts disk.old)
        → Latches (D.facts disk.old) result (D.facts disk.new) }
{
    let sectors = disk.sectors();
    let mut at = 0;
    let mut sum = before;
    while let Some(head) = read_record(sectors, sum, &log[at..]) {
        let rest = &log[at..];
        let end = RECORD_HEAD_LEN + body_len(rest);
        if let Err(error) = change(disk, &head, &rest[RECORD_HEAD_LEN..end]) {
            return Err(error);
        }
        sum = head.sum;
        at += end;
    }
    Ok(())
}

/// Makes the change of a record with this head and what follows it.
fn change<D: Disk>(disk: &mut D, head: &Head, body: &[u8]) -> Result<(), DiskError>
    requires inside { 512 * (head.now.first + head.now.count)
        ≤ length (D.facts disk.old).contents }
    requires two { head.now.kind < 2 }
    requires len { length body.now ≡ body_len_of head.now.kind head.now.count }
    ensures contents { OnOk result ((D.facts disk.old).sound ≡ true → (D.facts disk.new).contents
        ≡ with_change (D.facts disk.old).contents
        (record_change head.now.kind head.now.first head.now.count body.now)) }
    ensures sound { (D.facts disk.new).sound ≡ (D.facts disk.old).sound }
    ensures goes { CountsNeverFall (D.facts disk.old) (D.facts disk.new) }
    ensures latches { Latches (D.facts disk.old) result (D.facts disk.new) }
{
    match head.kind {
        0 => disk.write(head.first, body),
        _ => disk.zero(head.first, head.count),
    }
}
