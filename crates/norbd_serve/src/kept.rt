//! What is kept of connections that ended.

ghost use Rattle.std.specs.Prelude.{◌≡◌, ◌+◌, ◌<◌, ◌∷◌, ◌++◌, [], true, false, IfOk, OnOk, vec_len};
ghost use Rattle.std.specs.Prelude.{Some, Option};
ghost use Rattle.nbd_share.specs.History.{IsLegal};
ghost use Rattle.norbd_serve.specs.Serving.{AreLegal, KeepsOne, ReturnsAsked, has_lost, is_lost};

use crate::fault::ServeFault;
use nbd_history::Hand;
use nbd_share::{OneServer, Pass, Row};
use nbd_worker::End;
use std::alloc::{AllocError, Global};
use std::marker::Model;

/// What came of the connections, in the order in which they ended: their passes, how they ended,
/// and what their hands know of the server's history.
#[derive(Drop)]
pub struct Served<L: OneServer> {
    pub passes: Vec<Pass<L>>,
    pub ends: Vec<End>,
    pub hands: Vec<Hand<Row, L>>,
}

/// What is kept so far, where all connections are kept. Of one that ended by a lost command only
/// that is kept.
#[derive(Drop)]
pub(crate) struct Kept<L: OneServer> {
    served: Served<L>,
    is_whole: bool,
    is_lost: bool,
}

impl<L: OneServer> Model for Kept<L> {
    ghost use Rattle.std.specs.Prelude.{◌≡◌, true, false, vec_len};
    ghost use Rattle.norbd_serve.specs.Serving.{AreLegal, Keeping, has_lost};

    ghost Value = { Keeping };

    ghost view = { λ k. record {
      passes = k.served.passes.items;
      ends = k.served.ends.items;
      hands = k.served.hands.items;
      is_whole = k.is_whole;
      is_lost = k.is_lost;
    } };

    ghost invariant = { λ k. k.is_whole ≡ true → record {
      passes : vec_len k.served.passes ≡ vec_len k.served.ends;
      hands : vec_len k.served.hands ≡ vec_len k.served.ends;
      none_lost : has_lost k.served.ends.items ≡ false;
      legal : L.sound ≡ true → AreLegal L.export L.base k.served.hands.items;
    } };
}

/// Whether a connection ended since a command was lost.
pub(crate) fn is_lost(end: End) -> bool
    ensures { result ≡ is_lost end }
{
    match end {
        End::Lost => true,
        _ => false,
    }
}

/// Adds what a connection's worker gave to the lists.
fn add<L: OneServer>(
    served: &mut Served<L>,
    pass: Pass<L>,
    end: End,
    hand: Hand<Row, L>,
) -> Result<(), AllocError>
    ensures passes { OnOk result (vec_len served.new.passes ≡ vec_len served.old.passes + 1) }
    ensures rights { OnOk result (served.new.passes.items ≡ served.old.passes.items ++ pass ∷ []) }
    ensures counts { OnOk result (vec_len served.new.ends ≡ vec_len served.old.ends + 1) }
    ensures ends { OnOk result (served.new.ends.items ≡ served.old.ends.items ++ end ∷ []) }
    ensures known { OnOk result (vec_len served.new.hands ≡ vec_len served.old.hands + 1) }
    ensures hands { OnOk result (served.new.hands.items ≡ served.old.hands.items ++ hand ∷ []) }
{
    if served.passes.push(pass).is_err() || served.hands.push(hand).is_err() {
        return Err(AllocError);
    }
    match served.ends.push(end) {
        Ok(()) => Ok(()),
        Err(_) => Err(AllocError),
    }
}

impl<L: OneServer> Kept<L> {
    /// Room for so many connections.
    pub(crate) fn new(alloc: Global, count: usize) -> Result<Kept<L>, AllocError> {
        Ok(Kept {
            served: Served {
                passes: Vec::with_capacity(alloc, count)?,
                ends: Vec::with_capacity(alloc, count)?,
                hands: Vec::with_capacity(alloc, count)?,
            },
            is_whole: true,
            is_lost: false,
        })
    }

    /// A command was lost.
    pub(crate) fn lose(&mut self)
        ensures { self.new ≡ record self.old { is_lost = true } }
    {
        self.is_lost = true;
    }

    /// Whether a command was lost.
    pub(crate) fn has_lost(&self) -> bool
        ensures { result ≡ self.now.is_lost }
    {
        self.is_lost
    }

    /// Keeps what a connection's worker gave.
    pub(crate) fn keep(&mut self, pass: Pass<L>, end: End, hand: Hand<Row, L>)
        requires lives { is_lost end ≡ false }
        requires legal { L.sound ≡ true → IsLegal L.export L.base false hand.seen }
        ensures { KeepsOne self.old self.new pass end hand }
    {
        let was_whole = self.is_whole;
        self.is_whole = false;
        if let Ok(()) = add(&mut self.served, pass, end, hand) {
            self.is_whole = was_whole;
        }
    }

    /// All connections, where so many were asked for, all were kept, and no command was lost. None
    /// asked for is without end, which only a loss or a fault ends.
    pub(crate) fn into_served(self, asked: Option<u32>) -> Result<Served<L>, ServeFault>
        ensures returns { IfOk result (ReturnsAsked L.sound L.export L.base asked) }
        ensures kept { IfOk result (λ served. (served.passes.items ≡ self.passes)
            × (served.ends.items ≡ self.ends) × (served.hands.items ≡ self.hands)) }
    {
        let Kept {
            served,
            is_whole,
            is_lost,
        } = self;
        if is_lost {
            return Err(ServeFault::Lost);
        }
        let Some(count) = asked else {
            return Err(ServeFault::Lost);
        };
        if !is_whole {
            return Err(ServeFault::NoMemory);
        }
        if served.ends.len() != count as usize {
            return Err(ServeFault::NoThread);
        }
        Ok(served)
    }
}
