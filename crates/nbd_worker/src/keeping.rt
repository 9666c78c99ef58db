//! The keeper, which tidies.

ghost use Rattle.nbd_worker.specs.Sweeping.{KeeperRun};

use block_device::DiskError;
use nbd_share::{Door, Gate, OneServer, Point};
use std::sync::atomic::{AtomicBool, Ordering};

/// Tidies once after each passing of the gate, until `stop` is set (or 2^64 - 1 times), or a step
/// fails: its error is handed out.
pub fn keeper<L: OneServer, T: Door<L>, G: Gate>(
    door: &mut T,
    stop: &AtomicBool,
    gate: &mut G,
) -> Result<(), DiskError>
    ensures { KeeperRun T.tidies G.passes door.old door.new gate.old gate.new result }
{
    for _round in 0..u64::MAX {
        gate.pass(Point::Tidy);
        if stop.load(Ordering::SeqCst) {
            return Ok(());
        }
        match door.tidy() {
            Ok(_) => {}
            Err(e) => return Err(e),
        }
    }
    Ok(())
}
