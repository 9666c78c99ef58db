//! A chip on the SPI bus of a board.

ghost use Rattle.std.specs.Prelude.{None};

use block_device::Disk;
use chip_model::{NoAnswer, Programmer};
use chip_watch::WatchedBus;
use flash_disk::{FlashDisk, format};
use std::alloc::Global;
use std::marker::Brand;

/// What the board does: these two functions are yours.
pub trait Board {
    /// Pulls chip select low, sends `send`, receives as many bytes as `recv` has, and lets chip
    /// select go. False where the transfer failed.
    fn transfer(&mut self, send: &[u8], recv: &mut [u8]) -> bool;

    /// Turns the chip's supply off and on, and waits until the chip takes frames.
    fn power_cycle(&mut self) -> bool;
}

/// The chip on a board.
#[derive(Drop)]
pub struct OnBoard<H> {
    pub board: H,
}

impl<H: Board> Programmer for OnBoard<H> {
    // What went over the wires isn't known in proofs.
    ghost exchanged = { λ _. None };

    fn exchange(&mut self, send: &[u8], recv: &mut [u8]) -> Result<(), NoAnswer> {
        if self.board.transfer(send, recv) {
            Ok(())
        } else {
            Err(NoAnswer)
        }
    }

    fn reopen(&mut self) -> bool {
        self.board.power_cycle()
    }
}

/// The disk on a watched chip.
pub type BoardDisk<H> = FlashDisk<WatchedBus<OnBoard<H>>, Brand>;

/// Mounts the chip on a board, formatted first where `new` says so: what was on it is gone then.
/// None where the chip doesn't behave as the model, or holds no disk that can be served.
pub fn mount_chip<H: Board + Drop>(alloc: Global, board: H, new: bool) -> Option<BoardDisk<H>> {
    let mut bus = WatchedBus::open(alloc, OnBoard { board }).ok()?;
    if new {
        let (formatted, answer) = format(bus);
        answer.ok()?;
        bus = formatted;
    }
    let mut disk = BoardDisk::<H>::mount(alloc, bus).ok()?;
    disk.level_wear();
    match disk.check() {
        Ok(true) => Some(disk),
        _ => None,
    }
}
