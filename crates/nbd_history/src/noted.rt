//! What is noted beside a history, in proofs alone.

ghost use Rattle.std.specs.Prelude.{◌≡◌, []};

use crate::note::SaysAll;
use logbook::{Opening, Rule, Seen, Start};
use std::marker::{Model, PhantomData};

/// The rule of a book to which nothing is added.
pub struct Fixed;

impl<E> Rule<E, u64> for Fixed {
    ghost use Rattle.std.specs.Prelude.{[]};
    ghost use base.Fml.{ftrue};

    ghost holds = { λ cells log. Unit {0} };

    ghost first = { [] };

    ghost hinted = { λ n log. Unit {0} };

    ghost shows = { λ log. [] };

    ghost keeps = { λ names log. ftrue };

    ghost moves = { λ ask before after answer. Unit {0} };
}

/// A book without entries.
pub struct Empty;

impl<E> Opening<(), E> for Empty {
    ghost use Rattle.std.specs.Prelude.{[]};

    ghost log = { λ n x. [] };
}

/// A book of what M says.
pub struct Noting<M> {
    name: PhantomData<M>,
}

impl<X, E, M: SaysAll<X, E>> Opening<X, E> for Noting<M> {
    ghost log = { λ n x. M.says_all x };
}

/// A list of values that were noted. It takes no memory.
#[derive(Drop)]
pub struct Noted<E> {
    seen: Seen<E, u64, Fixed>,
}

impl<E> Model for Noted<E> {
    ghost use Rattle.std.specs.Prelude.{List};

    ghost Value = { List E };

    ghost view = { λ n. n.seen.log };
}

impl<E> Noted<E> {
    /// Nothing is noted.
    pub fn none() -> Noted<E>
        ensures { result ≡ [] }
    {
        let (seen, _pens) = Seen::open_row::<(), Empty>(&(), Start::alone(), 0);
        Noted { seen }
    }

    /// The values that this one stands for are noted.
    pub fn of<X, M: SaysAll<X, E>>(about: &X) -> Noted<E>
        ensures { result ≡ M.says_all about.now }
    {
        let (seen, _pens) = Seen::open_row::<X, Noting<M>>(about, Start::alone(), 0);
        Noted { seen }
    }
}
