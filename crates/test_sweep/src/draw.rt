//! What the weak bits of a chip read as after a power-on.

use test_kit::Dice;

/// The bytes of a draw: those of a block.
pub const DRAW_BYTES: usize = 4_096;

/// A draw of the weak bits.
#[derive(Clone, Copy, Debug)]
pub enum Draw {
    /// Each byte's bits are those of this one.
    Each(u8),
    /// Those of a seed, in one of seven ways.
    Seed(u32),
}

/// The bits of another block, of a list of entries, of votes, or of a head: what a mount may take
/// for its own.
fn fill_alike(dice: &mut Dice, memory: &[u8], bytes: &mut [u8; DRAW_BYTES]) {
    let block = dice.below(16) as usize * DRAW_BYTES;
    let place = dice.below(16) as u8;
    let way = dice.below(4);
    for (k, byte) in bytes.iter_mut().enumerate() {
        *byte = match way {
            0 => memory.get(block.saturating_add(k)).copied().unwrap_or(0xFF),
            1 => [0xFC, place, 0x00, 0xFF][k % 4],
            2 => [0xFF, 0xFE, 0xFC][dice.below(3) as usize],
            _ if k >= 16 && k < 44 => [0xFC, 0xFC, place, 0x00][k % 4],
            _ => 0xFF,
        };
    }
}

/// Random bits: as many of each, or few of the one kind.
fn fill_random(dice: &mut Dice, bytes: &mut [u8; DRAW_BYTES]) {
    let way = dice.below(3);
    for byte in bytes.iter_mut() {
        let one = 1u8 << dice.below(8);
        *byte = match way {
            0 => dice.below(256) as u8,
            1 if dice.below(4) == 0 => 0xFF ^ one,
            1 => 0xFF,
            _ if dice.below(4) == 0 => one,
            _ => 0x00,
        };
    }
}

impl Draw {
    /// Its bytes, for a chip of this memory.
    pub fn bytes(self, memory: &[u8]) -> [u8; DRAW_BYTES] {
        let mut bytes = [0xFFu8; DRAW_BYTES];
        match self {
            Draw::Each(byte) => bytes = [byte; DRAW_BYTES],
            Draw::Seed(seed) => {
                let mut dice = Dice::new(u64::from(seed).wrapping_mul(0x9E37_79B9_7F4A_7C15));
                if dice.below(2) == 0 {
                    fill_alike(&mut dice, memory, &mut bytes);
                } else {
                    fill_random(&mut dice, &mut bytes);
                }
            }
        }
        bytes
    }
}
