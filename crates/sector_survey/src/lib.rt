//! What the bytes of a chip say, and why a mount refuses them.
//!
//! Promised of any memory: `examine` answers what a mount would, and where that is Corrupt a
//! `Finding`: the rule that is broken, and the blocks, slots and sectors in which it is
//! (`specs/Verdicts.antt`). What each finding says of a memory stands in `specs/Findings.antt`,
//! case by case, and each is a case that a mount refuses (`findings_are_refused`). No memory is
//! corrupt without a finding: `diagnose` answers None only where the blocks and slots behind
//! recovered journals are sound, and `journal_fault` finds one wherever the journals aren't.
//! `summarize` says of each data block its kind, and how many of its slots are free and live.
//! `survey_image` is all of it, with the journals' votes and entries, and whether what reads as
//! free is erased (`IsCleannessOf`), of the bytes of an image, which it leaves.
//! `with_free_groups_erased` erases what a chip of layout 1 calls free (`HasFreeErased`).
//!
//! Left to the crate above: the texts, the image, and when to ask. Source: own, layouts 1 and 2
//! (docs/LAYOUT.md).

#![tactic(auto)]

mod blocks;
mod clean;
mod diagnosis;
mod finding;
mod groups;
mod image;
mod journals;
mod laws;
mod pairs;
mod room;
mod summary;
mod table;
mod verdict;

pub use clean::Cleanness;
pub use diagnosis::diagnose;
pub use finding::Finding;
pub use image::{Report, dirty_group_of, survey_image, with_free_groups_erased};
pub use journals::{JournalFault, journal_fault};
pub use laws::findings_are_refused;
pub use summary::{BlockSummary, summarize};
pub use verdict::{Unexamined, Verdict, examine};
