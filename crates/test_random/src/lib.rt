//! Tests of the station over the disk on a simulated chip of 64 KiB by random events: some thousand
//! for each seed, on eight connections whose texts are cut anywhere, with losses of power in any
//! frame, judged by a plain array of sectors.
//!
//! There is no product code here. `test_kit::Dice` draws the numbers. `clients` draws what is sent,
//! with the answer that a plain array owes it; `driver` draws the events and judges each answer;
//! `sectors` is the array, in which a sector of an interrupted WRITE, TRIM or WRITE_ZEROES is old
//! or new until it is read.

#![tactic(auto)]

#[cfg(test)]
mod clients;
#[cfg(test)]
mod driver;
#[cfg(test)]
mod lines;
#[cfg(test)]
mod random;
#[cfg(test)]
mod sectors;
