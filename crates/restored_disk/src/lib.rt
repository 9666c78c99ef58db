//! The disk of a chip that has one life after another, and a disk that is restored where it lost
//! its power, and then does the call again.
//!
//! `PowerCycle` is a bus whose chip begins its next life by a power-on, at which the bits that a
//! loss of power tore read otherwise; `OneLife` makes one of any `SpiBus`, whose chip reads as
//! before. `LifeDisk` is the `Disk` of such a chip: its `restore` turns the power off and on and
//! mounts the chip firmly. Where it was mounted so from a chip that was fit for it (`P.firm`), or
//! the chip reads as before, each life holds the contents that the one before it left, and an
//! interrupted write leaves each sector old or new at the next power-on. The chip that is given
//! back has these contents then, and one that was fit is fit for the next firm mount
//! (`into_inner`). The number of losses inside a mount of such a chip is 0: once a mount was
//! refused the disk is lost for good. One that reads as before is mounted again.
//!
//! `RestoredDisk` is a `Disk` over another one. Where that answers Cut to a call and no Cut stood,
//! its power is turned on anew by `restore`, once for a call; where that went well the call is made
//! again, and its answer is the answer. So who calls it sees a Cut only where the disk couldn't be
//! restored, or lost its power twice in a call.
//!
//! Left to the crate below: that `restore` answers Ok only where the disk is as it has to be.
//!
//! Source: own.

#![tactic(auto)]

mod disk;
mod life;
mod one_life;
mod power;

pub use disk::RestoredDisk;
pub use life::{Ended, Habits, LifeDisk};
pub use one_life::OneLife;
pub use power::PowerCycle;
