//! A map from a sector's number to its 512 bytes, over a NOR memory.
//!
//! Promised, of `SectorMap`: a sector's content is that of its live slot that counts, of two the
//! newer one's, and zeros if it has none. `mount` accepts a healthy memory and no other, in the
//! steps of docs/SECTORS.md, "A mount"; apart from the journals' recovery nothing is written before
//! it decides. A firm mount, where torn bits may waver, programs what it read again before it acts
//! on it, and moves each block in which a slot is begun. `find` reads a sector. `replace` and
//! `clear` change one sector: cut, all sectors are as they were, or this one is new. `mount`,
//! `tidy`, `tidy_urgent`, `renew_journals`, `renew` and, unless a Slow was latched, `restore`
//! change none. `renew_journals` erases the journals and `renew` a data block; after a firm mount
//! nothing is left by both that was programmed before it, but the superblock. An error is latched
//! until a `restore` that answers Ok. A firm mount leaves firm journals (`mount_as`, `journals`),
//! and of these a loss of power in any later call but `restore` leaves what the next one wants
//! (`EndsFirmly`). Where the memory was fit for that mount (`Provenance`) it leaves a firm disk,
//! which each call keeps until the first loss; of that each says what it left (`firmly`).
//!
//! **Contents are promised of a clean memory alone** (`IsClean`): one in which every byte that
//! reads as free is erased. A mount doesn't look, `is_clean` does. On any other memory slots and
//! blocks stay sound, but a sector that is written, or whose block is copied, gets some content.
//!
//! Needed from below: the memory (`Nor`), the recovery of the journals (`Journal`), slots and the
//! calls on them (`SlotCalls`, `FirmCalls`), and a free slot for each write (`Reclaim`). Left to
//! the crate above: `is_clean` after a mount, when to tidy, when to restore. The crate
//! `sector_survey` reads blocks by the same functions as a mount, so some of them are public. In a
//! block of layout 1 lies a *group* of seven sectors; it counts as seven slots (docs/GLOSSARY.md).
//! Source: own.

#![tactic(auto)]

mod error;
mod firm;
mod found;
mod groups;
mod laws;
mod map;
mod mount;
mod provenance;
mod scan;
mod settling;
mod steps;
mod stock;
mod superblock;
mod table;

pub use error::MapError;
pub use found::{Found, Seen, is_counted, note_void};
pub use groups::{has_pair, lowest_dead_group};
pub use laws::group_chips_are_mountable;
pub use map::SectorMap;
pub use mount::mount_slots;
pub use provenance::Provenance;
pub use scan::{is_spare, survey};
pub use steps::clear_firmly;
pub use stock::Stock;
pub use table::{Held, LiveSlots, enter_head};
