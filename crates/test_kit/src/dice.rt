//! Numbers that look random, from a seed.

ghost use Rattle.std.specs.Prelude.{◌<◌};

/// An xorshift generator of 64 bits.
#[derive(Drop)]
pub struct Dice {
    state: u64,
}

impl Dice {
    /// The numbers of a seed.
    pub fn new(seed: u64) -> Dice {
        Dice { state: seed | 1 }
    }

    /// A number below `n`.
    pub fn below(&mut self, n: u32) -> u32
        requires { 0 < n }
        ensures { result < n }
    {
        let mut x = self.state;
        x ^= x << 13;
        x ^= x >> 7;
        x ^= x << 17;
        self.state = x;
        ((x >> 32) % u64::from(n)) as u32
    }
}
