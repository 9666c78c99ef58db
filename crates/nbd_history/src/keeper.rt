//! All of the history, and who may add to it.

ghost use Rattle.std.specs.Prelude.{◌≡◌, ◌+◌, ◌-◌, ◌^◌, ◌<◌, ◌≤◌, ◌++◌, ◌∷◌, [], length, true};
ghost use Rattle.std.specs.Prelude.{List};
ghost use mathlib.Core.List.{IsPrefix};
ghost use Rattle.logbook.specs.Pages.{may_write};
ghost use Rattle.nbd_history.specs.declared.note.Note.{Note};
ghost use Rattle.nbd_history.specs.Notes.{entries_of, entries_by};
ghost use Rattle.nbd_history.specs.Rules.{word_of, EndsWithPen};

use crate::hand::{Add, Begin, Hand, Law, Naming, Nothing, Saying, Speech, counted, grown, stop};
use crate::note::{Note, OfHand, Says};
use logbook::{Offer, Pen, Pens, Seen, Start, Word};
use std::marker::{Model, PhantomData};
use std::sync::Wait;

/// How many words the book of a history has: one that begins it, and one for each entry.
const BOOK_LEN: usize = (1 << 62) + 1;

/// The most entries of a history.
const MOST: u64 = 1 << 62;

/// A book with so many words.
fn row<E: OfHand>(count: usize) -> (Seen<Note<E>, u64, Law>, Pens)
    requires { 2 ^ 62 < count }
    ensures seen { (result.0.log ≡ []) }
    ensures pens { (result.1.book ≡ result.0.book) × (result.1.next ≡ 0) × (result.1.left ≡ count) }
{
    Seen::open_row::<(), Nothing>(&(), Start::alone(), count)
}

/// A history with no entry yet, which has no name.
#[derive(Drop)]
pub struct Opened<E: OfHand> {
    seen: Seen<Note<E>, u64, Law>,
    pen: Pen,
    pens: Pens,
}

impl<E: OfHand> Model for Opened<E> {
    ghost use Rattle.std.specs.Prelude.{◌≡◌, ◌^◌, []};
    ghost use Rattle.logbook.specs.Pages.{Book, may_write};
    ghost use Rattle.nbd_history.specs.Notes.{entries_of};
    ghost use Rattle.nbd_history.specs.Rules.{EndsWithPen};

    ghost Value = { Book };

    ghost view = { λ o. o.seen.book };

    ghost invariant = { λ o. (o.pen.book ≡ o.seen.book) × (o.pens.book ≡ o.seen.book)
        × (o.pen.nib.right ≡ may_write) × EndsWithPen o.seen.log o.pen.nib.key
        × (entries_of o.seen.log ≡ []) × (o.pens.next ≡ 1) × (o.pens.left ≡ 2 ^ 62) };
}

impl<E: OfHand> Opened<E> {
    pub fn new<W: Wait>(wait: &W) -> Opened<E> {
        let (mut seen, mut pens) = row::<E>(BOOK_LEN);
        let mut first = pens.take();
        let head: Word<Note<E>, u64, Law> = Word::tracked(0, &mut first);
        let pen = grown(&head, &seen);
        let mut offer: Offer<Note<E>, u64, Law, Nothing> = seen.plain::<Nothing, Pen, Begin>(&pen);
        let mut none = seen.no_pen();
        let found = head.compare_exchange::<Begin, Nothing>(0, 1, &mut seen, &mut offer, &mut none);
        if found != 0 {
            stop(wait);
        }
        Opened { seen, pen, pens }
    }

    /// The keeper of the history, and what makes its hands, under a name.
    pub fn named<J: Naming>(self) -> (Keeper<E, J>, Hands<E, J>)
        requires { self ≡ J.book }
        ensures { (result.0 ≡ []) × (result.1 ≡ 0) }
    {
        let Opened { seen, pen, pens } = self;
        (
            Keeper {
                seen,
                pen,
                name: PhantomData,
            },
            Hands {
                pens,
                given: 0,
                name: PhantomData,
            },
        )
    }
}

/// Makes the hands of a history. It stays in its thread, since the pens of `logbook` do.
#[derive(Drop)]
pub struct Hands<E: OfHand, J: Naming> {
    pens: Pens,
    given: u64,
    name: PhantomData<(E, J)>,
}

impl<E: OfHand, J: Naming> Model for Hands<E, J> {
    ghost use Rattle.std.specs.Prelude.{◌≡◌, ℕ, ◌+◌, ◌^◌};

    ghost Value = { ℕ };

    ghost view = { λ h. h.given };

    ghost invariant = { λ h. (h.pens.book ≡ J.book) × (h.pens.next ≡ h.given + 1)
        × (h.pens.left + h.given ≡ 2 ^ 62) };
}

impl<E: OfHand, J: Naming> Hands<E, J> {
    /// How many hands it made.
    pub fn given(&self) -> u64
        ensures { result ≡ self.now }
    {
        self.given
    }

    /// The hand with the next number.
    pub fn hand<W: Wait>(&mut self, wait: &W, keeper: &mut Keeper<E, J>) -> Hand<E, J>
        requires { self.old < 2 ^ 62 }
        ensures by { result.by ≡ self.old }
        ensures seen { result.seen ≡ keeper.old }
        ensures none { entries_by E.by result.by result.seen ≡ [] }
        ensures keeper { keeper.new ≡ keeper.old }
        ensures given { self.new ≡ self.old + 1 }
    {
        let mut right = self.pens.take();
        let word: Word<Note<E>, u64, Law> = Word::tracked(0, &mut right);
        let mut seen = keeper.seen.again();
        let found = counted(&word, &mut seen, &mut keeper.pen);
        if found != 0 {
            stop(wait);
        }
        let by = self.given;
        self.given += 1;
        Hand {
            word,
            seen,
            count: 0,
            by,
            name: PhantomData,
        }
    }
}

/// All of the history. Contracts see it as its entries.
#[derive(Drop)]
pub struct Keeper<E: OfHand, J: Naming> {
    seen: Seen<Note<E>, u64, Law>,
    pen: Pen,
    name: PhantomData<J>,
}

impl<E: OfHand, J: Naming> Model for Keeper<E, J> {
    ghost use Rattle.std.specs.Prelude.{◌≡◌, List};
    ghost use Rattle.logbook.specs.Pages.{may_write};
    ghost use Rattle.nbd_history.specs.Notes.{entries_of};
    ghost use Rattle.nbd_history.specs.Rules.{EndsWithPen};

    ghost Value = { List E };

    ghost view = { λ k. entries_of k.seen.log };

    ghost invariant = { λ k. (k.seen.book ≡ J.book) × (k.pen.book ≡ J.book)
        × (k.pen.nib.right ≡ may_write) × EndsWithPen k.seen.log k.pen.nib.key };
}

impl<E: OfHand, J: Naming> Keeper<E, J> {
    /// Adds an entry of a hand: the history that the hand had seen is a beginning of this one, in
    /// which the hand has no other entries. Waits for good where it does not know this.
    pub fn add<X, M: Says<X, E>, W: Wait>(&mut self, wait: &W, hand: &mut Hand<E, J>, about: &X)
        requires by { E.by (M.says about.now) ≡ hand.old.by }
        ensures added { self.new ≡ self.old ++ M.says about.now ∷ [] }
        ensures seen { (hand.new.by ≡ hand.old.by) × (hand.new.seen ≡ self.new) }
        ensures before { IsPrefix hand.old.seen self.old }
        ensures own { entries_by E.by hand.old.by self.old
            ≡ entries_by E.by hand.old.by hand.old.seen }
    {
        if hand.count >= MOST {
            stop(wait);
            unreachable!()
        }
        let next = grown(&hand.word, &self.seen);
        let mut both = self.seen.again();
        both.learn(&hand.seen);
        let speech = Speech { about, pen: &next };
        let mut offer: Offer<Note<E>, u64, Law, Nothing> = both.plain::<
            Nothing,
            Speech<'_, X>,
            Saying<M>,
        >(&speech);
        let count = hand.count;
        let found = hand
            .word
            .compare_exchange::<Add, Nothing>(
                count,
                count + 1,
                &mut both,
                &mut offer,
                &mut self.pen,
            );
        if found != count {
            stop(wait);
            unreachable!()
        }
        hand.count = count + 1;
        hand.seen = both.again();
        self.seen = both;
        self.pen = next;
    }

    /// What a hand has seen is a beginning of the history, which has no other entries of it.
    pub fn meet<W: Wait>(&mut self, wait: &W, hand: &Hand<E, J>)
        ensures same { self.new ≡ self.old }
        ensures before { IsPrefix hand.now.seen self.old }
        ensures own { entries_by E.by hand.now.by self.old
            ≡ entries_by E.by hand.now.by hand.now.seen }
    {
        let mut both = self.seen.again();
        both.learn(&hand.seen);
        let found = counted(&hand.word, &mut both, &mut self.pen);
        if found != hand.count {
            stop(wait);
        }
    }
}
