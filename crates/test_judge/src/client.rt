//! A client of a connection: what it has still to send.

use crate::event::{PIECE_BYTES, Unit};
use std::alloc::{AllocError, Global};

#[derive(Drop)]
pub struct Client {
    alloc: Global,
    pub is_open: bool,
    /// The bytes that are still to be sent.
    text: Vec<u8>,
    /// The units that aren't wholly sent, and how many bytes are left of each.
    units: Vec<(usize, Unit)>,
}

impl Client {
    /// A client that isn't there, and has nothing to send.
    pub fn new(alloc: Global) -> Client {
        Client {
            alloc,
            is_open: false,
            text: Vec::new(alloc),
            units: Vec::new(alloc),
        }
    }

    /// The connection is closed, and nothing is left to be sent.
    pub fn close(&mut self) {
        self.is_open = false;
        self.text.clear();
        self.units.clear();
    }

    /// It has a unit more to send.
    pub fn add(&mut self, unit: Unit) -> Result<(), AllocError> {
        let start = self.text.len();
        unit.add_to(&mut self.text)?;
        let len = self.text.len().saturating_sub(start);
        self.units.push((len, unit))?;
        Ok(())
    }

    /// Sends a piece, all but so many bytes, and adds the units that it completes.
    pub fn send(&mut self, kept: usize, sent: &mut Vec<Unit>) -> Result<Vec<u8>, AllocError> {
        let most = self.text.len().saturating_sub(kept).min(PIECE_BYTES);
        let (front, back) = self.text.as_slice().split_at(most.min(self.text.len()));
        let piece = front.to_vec(self.alloc)?;
        let text = back.to_vec(self.alloc)?;
        self.text = text;
        let mut bytes = piece.len();
        let mut units = Vec::new(self.alloc);
        for (left, unit) in self.units.iter() {
            if *left <= bytes {
                sent.push(*unit)?;
            } else {
                units.push((*left - bytes, *unit))?;
            }
            bytes = bytes.saturating_sub(*left);
        }
        self.units = units;
        Ok(piece)
    }
}
