//! The simulator's own SFDP table, byte by byte.

ghost use Rattle.std.specs.Prelude.{◌≡◌, ◌<◌, ◌≤◌};
ghost use Rattle.chip_simulator.specs.Table.{four_bytes, row, sfdp_byte, table_byte};

/// At the places of these bytes, which lie from `at` on, these bytes, elsewhere another.
fn row(at: usize, bytes: &[u8], k: usize, other: u8) -> u8
    requires { at < 256 }
    ensures { result ≡ row at bytes.now k other }
{
    if at <= k && k < at + bytes.len() {
        bytes[k - at]
    } else {
        other
    }
}

/// A number as four bytes, the least significant first.
fn four_bytes(n: u32) -> [u8; 4]
    ensures { result ≡ four_bytes n }
{
    [
        (n % 256) as u8,
        (n / 256 % 256) as u8,
        (n / 65_536 % 256) as u8,
        (n / 16_777_216 % 256) as u8,
    ]
}

/// The byte at a place of the table of a chip of so many bytes.
fn table_byte(size: u32, k: usize) -> u8
    requires some { 0 < size }
    requires most { size ≤ 16777216 }
    ensures { result ≡ table_byte size k }
{
    let page = row(168, &[0x80, 0, 0, 0], k, 0xFF);
    let absent = row(160, &[0, 0xFF, 0, 0xFF], k, page);
    let erases = row(156, &[0x0C, 0x20, 0x10, 0xD8], k, absent);
    let density = row(132, &four_bytes(8 * size - 1), k, erases);
    let first = row(128, &[0x01, 0x20, 0, 0], k, density);
    let parameters = row(8, &[0, 6, 1, 0x10, 0x80, 0, 0, 0xFF], k, first);
    row(0, &[0x53, 0x46, 0x44, 0x50, 6, 1, 0, 0xFF], k, parameters)
}

/// The byte at a place of the table, which may be spoiled.
pub(crate) fn sfdp_byte(size: u32, spoiled: bool, k: usize) -> u8
    requires some { 0 < size }
    requires most { size ≤ 16777216 }
    ensures { result ≡ sfdp_byte size spoiled k }
{
    if spoiled && k == 0 {
        0x52
    } else {
        table_byte(size, k)
    }
}
