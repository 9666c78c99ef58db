//! A beginning of the history, with the right to add to it.

ghost use Rattle.std.specs.Prelude.{◌≡◌, ◌+◌, ◌<◌, ◌≤◌, ◌^◌, ◌++◌, ◌∷◌, [], length, true, List};
ghost use mathlib.Core.List.{IsPrefix};
ghost use Rattle.logbook.specs.Pages.{may_write};
ghost use Rattle.nbd_history.specs.declared.note.Note.{Note};
ghost use Rattle.nbd_history.specs.Notes.{entries_of, entries_by};
ghost use Rattle.nbd_history.specs.Rules.{word_of, EndsWithPen, IsWhole, CountsOwn};

use crate::note::{Note, OfHand, Says};
use logbook::{Gain, Offer, Opening, Pen, Plain, Play, Rule, Seen, Word};
use std::marker::{Brand, Model, PhantomData};
use std::sync::Wait;

/// The rule of the book.
pub struct Law;

impl<E: OfHand> Rule<Note<E>, u64> for Law {
    ghost use Rattle.std.specs.Prelude.{[]};
    ghost use base.Fml.{ftrue};
    ghost use Rattle.nbd_history.specs.Rules.{IsBook};

    ghost holds = { λ cells log. IsBook E.by cells log };

    ghost first = { [] };

    ghost hinted = { λ n log. Unit {0} };

    ghost shows = { λ log. [] };

    ghost keeps = { λ names log. ftrue };

    ghost moves = { λ ask before after answer. Unit {0} };
}

/// Callers trade nothing.
pub struct Nothing;

impl<E> Gain<Note<E>, u64> for Nothing {
    ghost use base.Fml.{ftrue};

    ghost after = { λ names about answer. ftrue };
}

impl<E> Opening<(), Note<E>> for Nothing {
    ghost use Rattle.std.specs.Prelude.{[]};

    ghost log = { λ n x. [] };
}

impl<E> Plain<(), Note<E>, u64> for Nothing {
    ghost use Rattle.std.specs.Prelude.{None};

    ghost ask = { λ x. record { what = None; next = 0 } };

    ghost state = { λ x. None };
}

/// A step that makes a pen.
pub struct Grow;

impl<E: OfHand> Play<Note<E>, u64> for Grow {
    ghost use Rattle.nbd_history.specs.Rules.{MakesPen};

    ghost then = { MakesPen };
}

/// The step that adds the first note.
pub struct Begin;

impl<E: OfHand> Play<Note<E>, u64> for Begin {
    ghost use Rattle.nbd_history.specs.Rules.{AddsFirst};

    ghost then = { AddsFirst };
}

impl<E> Plain<Pen, Note<E>, u64> for Begin {
    ghost use Rattle.std.specs.Prelude.{None};

    ghost ask = { λ pen. record { what = None; next = pen.nib.key } };

    ghost state = { λ x. None };
}

/// A step that looks.
pub struct Look;

impl<E: OfHand> Play<Note<E>, u64> for Look {
    ghost use Rattle.nbd_history.specs.Rules.{SeesAll};

    ghost then = { SeesAll E.by };
}

/// A step that adds a note.
pub struct Add;

impl<E: OfHand> Play<Note<E>, u64> for Add {
    ghost use Rattle.nbd_history.specs.Rules.{AddsNote};

    ghost then = { AddsNote E.by };
}

/// What is said, and the pen that is to say the next.
#[derive(Drop)]
pub struct Speech<'a, X> {
    pub about: &'a X,
    pub pen: &'a Pen,
}

/// Says what M says.
pub struct Saying<M> {
    name: PhantomData<M>,
}

impl<'a, X, E, M: Says<X, E>> Plain<Speech<'a, X>, Note<E>, u64> for Saying<M> {
    ghost use Rattle.std.specs.Prelude.{None, Some};

    ghost ask = { λ s. record { what = Some (M.says s.about.now); next = s.pen.now.nib.key } };

    ghost state = { λ x. None };
}

/// Which book it is. Each call of a program picks it.
pub trait Naming {
    ghost use Rattle.logbook.specs.Pages.{Book};

    ghost book: { Book };
}

impl Naming for Brand {
    ghost book = { record { number = 0; log_name = 0; cells_name = 0 } };
}

/// Waits for good.
pub fn stop<W: Wait>(wait: &W)
    ensures { ⊥ }
{
    for _ in wait.forever() {}
    unreachable!()
}

/// A pen that was made just now.
pub(crate) fn grown<E: OfHand>(
    word: &Word<Note<E>, u64, Law>,
    seen: &Seen<Note<E>, u64, Law>,
) -> Pen
    requires word { (word.now.tracked ≡ true) × (word.now.book ≡ seen.now.book) }
    requires key { word.now.key < 2 ^ 62 + 1 }
    ensures book { result.book ≡ seen.now.book }
    ensures right { result.nib.right ≡ may_write }
{
    let mut now = seen.again();
    let mut offer: Offer<Note<E>, u64, Law, Nothing> = now.plain::<Nothing, (), Nothing>(&());
    let mut pen = now.no_pen();
    let _found = word.compare_exchange::<Grow, Nothing>(0, 0, &mut now, &mut offer, &mut pen);
    let _word: Word<Note<E>, u64, Law> = Word::tracked(0, &mut pen);
    pen
}

/// How many entries the word's hand has in all of the history, which is what was seen.
pub(crate) fn counted<E: OfHand>(
    word: &Word<Note<E>, u64, Law>,
    seen: &mut Seen<Note<E>, u64, Law>,
    pen: &mut Pen,
) -> u64
    requires word { (word.now.tracked ≡ true) × (word.now.book ≡ seen.old.book) }
    requires pen { (pen.old.book ≡ seen.old.book) × (pen.old.nib.right ≡ may_write) }
    requires key { word.now.key < 2 ^ 62 + 1 }
    requires ends { (xs : List (Note E)) × IsPrefix xs seen.old.log
        × EndsWithPen xs pen.old.nib.key }
    ensures seen { (seen.new.log ≡ seen.old.log) × (seen.new.book ≡ seen.old.book) }
    ensures pen { (pen.new.nib ≡ pen.old.nib) × (pen.new.book ≡ pen.old.book) }
    ensures whole { IsWhole seen.old.log pen.old.nib.key }
    ensures counts { CountsOwn E.by word.now.key seen.old.log result }
{
    let mut offer: Offer<Note<E>, u64, Law, Nothing> = seen.plain::<Nothing, (), Nothing>(&());
    word.compare_exchange::<Look, Nothing>(0, 0, seen, &mut offer, pen)
}

/// A beginning of the history that was seen, and the right to add to it as one number.
#[derive(Drop)]
pub struct Hand<E: OfHand, J: Naming> {
    pub(crate) word: Word<Note<E>, u64, Law>,
    pub(crate) seen: Seen<Note<E>, u64, Law>,
    pub(crate) count: u64,
    pub(crate) by: u64,
    pub(crate) name: PhantomData<J>,
}

impl<E: OfHand, J: Naming> Model for Hand<E, J> {
    ghost use Rattle.std.specs.Prelude.{◌≡◌, ◌+◌, ◌<◌, ◌^◌, length};
    ghost use Rattle.nbd_history.specs.Notes.{Sight, entries_of, entries_by};
    ghost use Rattle.nbd_history.specs.Rules.{word_of};

    ghost Value = { Sight E };

    ghost view = { λ h. record { by = h.by; seen = entries_of h.seen.log } };

    ghost invariant = { λ h. (h.word ≡ word_of (h.by + 1) J.book) × (h.seen.book ≡ J.book)
        × (h.by < 2 ^ 62)
        × (h.count ≡ length (entries_by E.by h.by (entries_of h.seen.log))) };
}

impl<E: OfHand, J: Naming> Hand<E, J> {
    /// Its number.
    pub fn by(&self) -> u64
        ensures number { result ≡ self.now.by }
        ensures few { self.now.by < 2 ^ 62 }
    {
        self.by
    }
}
