//! The records of a log.

ghost use Rattle.std.specs.Prelude.{◌≡◌, ◌+◌, ◌≤◌, length, false, None, Some, take};
ghost use Rattle.std.specs.Prelude.{if◌then◌else◌};
ghost use Rattle.byteorder.specs.Endian.{little_from};
ghost use Rattle.sqlite_wal.specs.Format.{checksum};
ghost use Rattle.disk_log.specs.Records.{begins_record, count_in, first_in, head_in, kind_in};
ghost use Rattle.disk_log.specs.Records.{body_len, is_whole, record_len, sum_at, sum_in, sum_over};

use byteorder::{ByteOrder, LittleEndian};
use sqlite_wal::checksum_of;

/// The length of a record's head in bytes.
pub const RECORD_HEAD_LEN: usize = 24;

/// A sum over records: two numbers modulo 2^32.
pub type Sum = (u32, u32);

/// What the head of a record says: its kind, its first sector and how many, and its sum.
#[derive(Clone, Copy, Debug, PartialEq, Eq, Drop)]
pub struct Head {
    pub kind: u32,
    pub first: u32,
    pub count: u32,
    pub sum: Sum,
}

/// The bytes of the head of a record: its kind, its first sector and how many, and, behind a record
/// with the sum `before`, its own sum.
pub(crate) fn head_of(
    kind: u32,
    first: u32,
    count: u32,
    body: &[u8],
    before: Sum,
) -> ([u8; RECORD_HEAD_LEN], Sum)
    ensures len { length result.0 ≡ 24 }
    ensures kind { kind_in result.0 ≡ kind }
    ensures first { first_in result.0 ≡ first }
    ensures count { count_in result.0 ≡ count }
    ensures sum { sum_in result.0 ≡ result.1 }
    ensures over { result.1
        ≡ checksum false (checksum false before (take 16 result.0)) body.now }
{
    let (k, f, c) = (kind.to_le_bytes(), first.to_le_bytes(), count.to_le_bytes());
    let front = [
        k[0], k[1], k[2], k[3], f[0], f[1], f[2], f[3], c[0], c[1], c[2], c[3], 0, 0, 0, 0,
    ];
    let sum = checksum_of(false, checksum_of(false, before, &front), body);
    let (s, t) = (sum.0.to_le_bytes(), sum.1.to_le_bytes());
    let head = [
        k[0], k[1], k[2], k[3], f[0], f[1], f[2], f[3], c[0], c[1], c[2], c[3], 0, 0, 0, 0, s[0],
        s[1], s[2], s[3], t[0], t[1], t[2], t[3],
    ];
    (head, sum)
}

/// The number in four bytes from a place on.
pub(crate) fn number_at(bytes: &[u8], at: usize) -> u32
    requires { at + 4 ≤ length bytes.now }
    ensures { result ≡ little_from at 4 bytes.now }
{
    LittleEndian::read_u32(&[bytes[at], bytes[at + 1], bytes[at + 2], bytes[at + 3]])
}

/// The sum in eight bytes from a place on.
pub(crate) fn read_sum(bytes: &[u8], at: usize) -> Sum
    requires { at + 8 ≤ length bytes.now }
    ensures { result ≡ sum_at at bytes.now }
{
    (number_at(bytes, at), number_at(bytes, at + 4))
}

/// The length of what follows the head of a record, by its kind and count.
pub(crate) fn body_len(log: &[u8]) -> usize
    requires { 12 ≤ length log.now }
    ensures { result ≡ body_len log.now }
{
    match number_at(log, 0) {
        0 => 512 * number_at(log, 8) as usize,
        2 => 8 + 4104 * number_at(log, 8) as usize,
        _ => 0,
    }
}

/// The length of the record that these bytes begin with, by its head.
pub fn record_len(log: &[u8]) -> usize
    requires { 12 ≤ length log.now }
    ensures { result ≡ record_len log.now }
{
    RECORD_HEAD_LEN + body_len(log)
}

/// The sum over a record behind one with the sum `before`.
fn sum_of(before: Sum, log: &[u8], body: usize) -> Sum
    requires len { body ≡ body_len log.now }
    requires whole { 24 + body ≤ length log.now }
    ensures { result ≡ sum_over before log.now }
{
    let front = checksum_of(false, before, &log[..16]);
    checksum_of(false, front, &log[RECORD_HEAD_LEN..RECORD_HEAD_LEN + body])
}

/// The head of the record that these bytes begin with, where all of one is there, behind a record
/// with the sum `before`.
pub(crate) fn read_head(before: Sum, log: &[u8]) -> Option<Head>
    ensures { result ≡ if is_whole before log.now then Some (head_in log.now) else None }
{
    if log.len() < RECORD_HEAD_LEN {
        return None;
    }
    let head = Head {
        kind: number_at(log, 0),
        first: number_at(log, 4),
        count: number_at(log, 8),
        sum: read_sum(log, 16),
    };
    let body = body_len(log);
    if log.len() - RECORD_HEAD_LEN < body {
        return None;
    }
    if sum_of(before, log, body) != head.sum {
        return None;
    }
    Some(head)
}

/// The head of the change that these bytes begin with, where they begin with one of a disk of so
/// many sectors, behind a record with the sum `before`.
pub fn read_record(sectors: u32, before: Sum, log: &[u8]) -> Option<Head>
    ensures { result
        ≡ if begins_record sectors before log.now then Some (head_in log.now) else None }
{
    let head = read_head(before, log)?;
    if head.kind > 1 || head.first as u64 + head.count as u64 > sectors as u64 {
        return None;
    }
    Some(head)
}
