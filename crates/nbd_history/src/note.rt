//! What a history consists of.

/// An entry of a history. Each is some hand's.
pub trait OfHand {
    ghost use Rattle.std.specs.Prelude.{ℕ};

    ghost by: { Self → ℕ };
}

/// The entry that a value of X stands for. No entry is made.
pub trait Says<X, E> {
    ghost says: { X → E };
}

/// The values that a value of X stands for. None of them is made.
pub trait SaysAll<X, E> {
    ghost use Rattle.std.specs.Prelude.{List};

    ghost says_all: { X → List E };
}

/// What the book has of an entry: the entry, which the first note lacks, and the key of the pen
/// that writes the next. No value of it is made.
pub struct Note<E> {
    pub what: Option<E>,
    pub next: u64,
}
