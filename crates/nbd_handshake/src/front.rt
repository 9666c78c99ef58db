//! The first bytes of a unit, kept as far as there is room for them.

ghost use Rattle.std.specs.Prelude.{◌≡◌, ◌+◌, ◌++◌, ℕ, List, min, length, take};
ghost use Rattle.nbd_handshake.specs.Fronts.{HasFront};

use nbd_wire::fill;

/// Puts the next piece of a unit behind the `count` bytes of it that have come, as far as there is
/// room.
pub(crate) fn absorb(buffer: &mut [u8], count: u64, piece: &[u8])
    ensures front { (rest : List ℕ) → HasFront buffer.old count rest
        → HasFront buffer.new (count + length piece.now) (rest ++ piece.now) }
    ensures kept { take (min count (length buffer.old)) buffer.new
        ≡ take (min count (length buffer.old)) buffer.old }
{
    if count >= buffer.len() as u64 {
        return;
    }
    let _copied = fill(buffer, count as usize, piece);
}
