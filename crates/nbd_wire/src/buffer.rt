//! Bytes put into a buffer one after another.

ghost use Rattle.std.specs.Prelude.{◌≡◌, ◌≤◌, ◌+◌, ◌-◌, ◌++◌, min, length, take, drop};

/// Writes bytes from `at` on, and answers where they end. The bytes before and behind them stay.
pub fn put(out: &mut [u8], at: usize, bytes: &[u8]) -> usize
    requires { at + length bytes.now ≤ length out.old }
    ensures end { result ≡ at + length bytes.now }
    ensures bytes { take result out.new ≡ take at out.old ++ bytes.now }
    ensures rest { drop result out.new ≡ drop result out.old }
{
    let end = at + bytes.len();
    out[at..end].copy_from_slice(bytes);
    end
}

/// Copies the front of a piece to `at`, as much as there is room for, and answers how much.
pub fn fill(buffer: &mut [u8], at: usize, piece: &[u8]) -> usize
    requires { at ≤ length buffer.old }
    ensures count { result ≡ min (length buffer.old - at) (length piece.now) }
    ensures bytes { take (at + result) buffer.new ≡ take at buffer.old ++ take result piece.now }
{
    let n = (buffer.len() - at).min(piece.len());
    buffer[at..at + n].copy_from_slice(&piece[..n]);
    n
}
