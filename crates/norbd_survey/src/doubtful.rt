//! What is doubtful of the sectors that were told of a damaged image.

use crate::page::name_of;
use crate::reason::{byte_at, write_slot};
use sector_rescue::Doubt;
use std::fmt;

/// A doubt, and the bytes of the image about which it is. Its text is one line without its end.
#[derive(Clone, Copy)]
pub struct Doubtful<'i> {
    pub doubt: Doubt,
    pub image: &'i [u8],
}

impl fmt::Display for Doubtful<'_> {
    fn fmt<W: fmt::Write>(&self, f: &mut fmt::Formatter<W>) -> fmt::Result {
        match self.doubt {
            Doubt::Layout(layout) => {
                let (eight, fifteen) = (byte_at(self.image, 8), byte_at(self.image, 15));
                write!(f, "{eight:02X} at 8h, {fifteen:02X} at Fh; read as layout ")?;
                f.write_str(name_of(layout))
            }
            Doubt::Unread { slot } => {
                write_slot(f, self.image, slot)?;
                f.write_str("; a sector may have been there")
            }
            Doubt::Differs { slot, sector } => {
                write_slot(f, self.image, slot)?;
                write!(
                    f,
                    "; it holds other bytes of sector {sector} than are given"
                )
            }
        }
    }
}
