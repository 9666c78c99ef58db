//! The wait between two tries to reach a programmer.

use std::thread;
use std::time::{Clock, Duration};

/// How many milliseconds are waited between two tries: a programmer that was pulled comes back in a
/// second or two.
const PAUSE: u64 = 500;

/// Waits before every try but the first.
pub(crate) fn wait_if_tried<R: Clock>(rt: &R, tried: &mut bool) {
    if *tried {
        thread::sleep(rt, Duration::from_millis(PAUSE));
    }
    *tried = true;
}
