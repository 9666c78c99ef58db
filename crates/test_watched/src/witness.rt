//! What a watched chip is sent and answered, where its programmer keeps the frames.

ghost use Rattle.std.specs.Prelude.{◌^◌, ◌≡◌, ◌⊎◌, ◌+◌, ◌<◌, ◌∷◌, ◌++◌, IfOk, IfSome, List};
ghost use Rattle.std.specs.Prelude.{OnOk, ℕ};
ghost use Rattle.std.specs.Prelude.{false, length, take, true};
ghost use Rattle.chip_model.specs.Exchanges.{Exchange};
ghost use Rattle.chip_model.specs.Frames.{Read, Receives, command_of};
ghost use Rattle.chip_watch.specs.Asking.{Passes, asked_of, is_put_to_chip};
ghost use Rattle.chip_watch.specs.Changes.{change_of};
ghost use Rattle.chip_watch.specs.Watched.{IsPassedOver, read_back, watched_chip, watched_cuts};
ghost use Rattle.chip_watch.specs.Watched.{watched_fresh, watched_pending, watched_trusts};
ghost use Rattle.test_watched.specs.Logged.{AreOpening, Resumed, Steadied, frames_behind};
ghost use Rattle.test_watched.specs.Logged.{frames_of};

use crate::logged::LoggedProgrammer;
use chip_model::{PowerLost, Programmer, SpiBus};
use chip_watch::{OpenError, WatchedBus};
use std::alloc::Global;

/// The chip behind a programmer, watched, whose frames are kept from the first on.
pub fn open_logged<P: Programmer + Drop>(
    alloc: Global,
    programmer: P,
) -> Result<WatchedBus<LoggedProgrammer<P>>, OpenError>
    ensures read { IfOk result (λ bus. AreOpening (watched_chip bus) (frames_behind bus)) }
    ensures cuts { IfOk result (λ bus. watched_cuts bus ≡ 0) }
{
    WatchedBus::open(alloc, LoggedProgrammer::new(alloc, programmer))
}

/// A frame to such a chip.
pub fn send_logged<P: Programmer + Drop>(
    bus: &mut WatchedBus<LoggedProgrammer<P>>,
    send: &[u8],
    recv: &mut [u8],
) -> Result<(), PowerLost>
    ensures heard { OnOk result (watched_cuts bus.old + 1 < 2 ^ 64
        → is_put_to_chip (watched_fresh bus.old) (watched_chip bus.old) (command_of send.now)
        ≡ true
        → (answer : List ℕ) × (more : List Exchange)
        × Passes (command_of send.now) answer
        (take (asked_of (command_of send.now) (length recv.new)) recv.new)
        × ((more ≡ read_back (watched_trusts bus.old) (watched_chip bus.old)
        (watched_chip bus.new)) ⊎ IsPassedOver (watched_chip bus.new) more)
        × (frames_behind bus.new
        ≡ frames_behind bus.old ++ (record { sent = send.now; received = answer } ∷ more))) }
    ensures silent { OnOk result (watched_cuts bus.old + 1 < 2 ^ 64
        → is_put_to_chip (watched_fresh bus.old) (watched_chip bus.old) (command_of send.now)
        ≡ false
        → frames_behind bus.new ≡ frames_behind bus.old) }

    // Where an answer was asked for, the programmer was given every frame by then.
    ensures sent { OnOk result (watched_cuts bus.old + 1 < 2 ^ 64
        → is_put_to_chip (watched_fresh bus.old) (watched_chip bus.old) (command_of send.now)
        ≡ true
        → 0 < asked_of (command_of send.now) (length recv.new)
        → frames_behind bus.new ≡ frames_of bus.new.wire.programmer) }
{
    bus.transact(send, recv)
}

/// Turns the power of such a chip on.
pub fn start_logged<P: Programmer + Drop>(bus: &mut WatchedBus<LoggedProgrammer<P>>)
    ensures resumed { (watched_chip bus.old).powered ≡ false
        → (watched_chip bus.new).powered ≡ true → watched_cuts bus.old + 1 < 2 ^ 64
        → Resumed (watched_chip bus.new) (watched_pending bus.old) (frames_behind bus.old)
        (frames_behind bus.new) }
    ensures steadied { (watched_chip bus.old).powered ≡ true
        → (watched_chip bus.new).powered ≡ true → watched_cuts bus.old + 1 < 2 ^ 64
        → Steadied (watched_chip bus.new) (change_of (watched_chip bus.old).operation)
        (frames_behind bus.old) (frames_behind bus.new) }
{
    bus.power_on()
}

/// Opens such a chip and reads it once, from 3000h on: a run in which nothing is left that a caller
/// would have to know. What was read at the opening answers the READ, and no frame more is sent.
pub fn read_once<P: Programmer + Drop>(
    alloc: Global,
    programmer: P,
    recv: &mut [u8],
) -> Option<WatchedBus<LoggedProgrammer<P>>>
    ensures { IfSome result (λ bus. AreOpening (watched_chip bus) (frames_behind bus)
        × Receives (watched_chip bus) (Read 12288) recv.new) }
{
    let mut bus = match WatchedBus::open(alloc, LoggedProgrammer::new(alloc, programmer)) {
        Ok(bus) => bus,
        Err(_) => return None,
    };
    match bus.transact(&[0x03, 0x00, 0x30, 0x00], recv) {
        Ok(()) => Some(bus),
        Err(PowerLost) => None,
    }
}
