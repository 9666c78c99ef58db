//! Which chips read as the same disk whatever their weak bits read as.
//!
//! A bit that a loss of power tore is weak: it reads 0 at one power-on and 1 at the next. A chip is
//! *firm* (`IsFirmChip`) where its weak bits lie only where nothing reads them, or where firm bits
//! beside them decide what is read. A firm mount leaves one, and so does each call after it, until
//! the power is lost again: that is tested, not proved (docs/POWER.md).
//!
//! Promised: `is_firm` answers true only of a firm chip. What `mount_firmly` leaves reads as the
//! same disk at each later power-on, until a call changes the chip. Where the power goes in a
//! change of it, the chip is fit for the next firm mount: `losses_leave_fit_chips` says when. Of
//! the product `flash_disk` depends on this one, in its proofs alone.
//!
//! Source: own, layout 2 (docs/LAYOUT.md, docs/CHIP.md).

#![tactic(auto)]

mod block;
mod bytes;
mod chip;
mod entry;
mod laws;
mod mount;
mod slot;

pub use chip::is_firm;
pub use laws::{
    completed_are_drawn_then_done, doubted_stores_are_half_at_each_draw,
    each_draw_is_the_same_disk, each_draw_of_a_doubted_store_is_the_same_disk,
    firm_journals_are_of_firm_chips, losses_are_drawn_then_torn, losses_are_torn_then_drawn,
    losses_leave_fit_chips, losses_leave_steady_disks,
};
pub use mount::mount_firmly;
