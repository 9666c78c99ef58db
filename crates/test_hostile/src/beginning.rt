//! The beginning of a list.

ghost use Rattle.std.specs.Prelude.{◌≡◌, take};

/// The first `len` bytes of a list, or all where it has fewer.
pub fn beginning_of(bytes: &[u8], len: usize) -> &[u8]
    ensures { result.now ≡ take len bytes.now }
{
    &bytes[..len.min(bytes.len())]
}
