//! A history that exists in proofs alone: one list of entries, which a keeper under a lock knows
//! whole, and of which each hand knows a beginning.
//!
//! Promised: `Keeper::add` adds an entry of a hand at the end, and the hand then knows the history
//! up to it. What it had seen before is a beginning of that history, which has no other entry of
//! the hand. `Keeper::meet` says the same of a hand at any time. So all entries are in one list,
//! those of each hand in the order in which it added them. No entry is made or kept: a call costs
//! two atomic steps and no memory. `Noted` is a list beside the history, which costs nothing.
//!
//! Left to the crate above: the lock, what an entry is, and what may be added. A call that finds
//! another number in a word that it alone may write waits for good; none is known to do so.
//!
//! Source: own, over the kit's `logbook`.

#![tactic(auto)]

mod hand;
mod keeper;
mod note;
mod noted;

pub use hand::{Hand, Naming, stop};
pub use keeper::{Hands, Keeper, Opened};
pub use note::{Note, OfHand, Says, SaysAll};
pub use noted::Noted;
