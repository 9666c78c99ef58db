//! Appending a change to the log.

ghost use Rattle.std.specs.Prelude.{◌≡◌, ◌<◌, length};
ghost use Rattle.disk_log.specs.Records.{record_change, body_len_of};
ghost use Rattle.disk_log.specs.Settling.{AddsChange, StaysInOrder};

use crate::file::ImageFiles;
use crate::record::{Sum, head_of};
use std::io;

/// Appends a record of so many sectors from the sector `first` on to a log whose last one has the
/// sum `sum`: of these bytes, or where its kind is 1 of zeros, and then there are none.
pub(crate) fn append_change<F: ImageFiles>(
    files: &mut F,
    sum: &mut Sum,
    kind: u32,
    first: u32,
    count: u32,
    body: &[u8],
) -> io::Result<()>
    requires kind { kind < 2 }
    requires len { length body.now ≡ body_len_of kind count }
    ensures adds { AddsChange (record_change kind first count body.now) sum.old
        (F.medium files.old) result sum.new (F.medium files.new) }
    ensures kept { StaysInOrder (record_change kind first count body.now) sum.old
        (F.medium files.old) (F.medium files.new) }
{
    let (head, next) = head_of(kind, first, count, body, *sum);
    match files.append(&head, body) {
        Ok(()) => {
            *sum = next;
            Ok(())
        }
        Err(error) => Err(error),
    }
}
