//! What is shown of how far a transfer is.

use norbd_run::{Meter, Progress, Screen};
use norbd_transfer::Observer;
use std::alloc::Global;
use std::io;
use std::process::Abort;
use std::sync::Mutex;
use std::test::*;
use std::time::{Clock, Duration};

/// A system whose clock gains 400 ms whenever it is asked, and which keeps what is shown.
#[derive(Drop)]
struct Ticking {
    millis: Mutex<u32>,
    shown: Mutex<Vec<Progress>>,
    is_terminal: bool,
}

impl Ticking {
    fn new(alloc: Global, is_terminal: bool) -> Ticking {
        Ticking {
            millis: Mutex::new(0),
            shown: Mutex::new(Vec::new(alloc)),
            is_terminal,
        }
    }
}

impl Clock for Ticking {
    fn monotonic(&self) -> io::Result<Duration> {
        let Some(mut millis) = self.millis.try_lock() else {
            return Err(io::Error::from(io::ErrorKind::WouldBlock));
        };
        *millis = millis.saturating_add(400);
        Ok(Duration::from_millis(*millis as u64))
    }

    fn since_1970(&self) -> io::Result<Duration> {
        self.monotonic()
    }

    fn sleep(&self, _duration: Duration) {}
}

impl Screen for Ticking {
    fn is_shown(&self) -> bool {
        self.is_terminal
    }

    fn show(&self, progress: Progress) {
        if let Some(mut shown) = self.shown.try_lock() {
            let _ = shown.push(progress);
        }
    }
}

/// The lines that are shown of a transfer of 4,096 sectors, of which 512 are done at a time.
fn shown<H: Abort + AllocGlobal>(rt: &H, is_terminal: bool) -> Result<String, Fail> {
    let system = Ticking::new(rt.alloc(), is_terminal);
    let mut meter = Meter::new(&system);
    for done in 1u32..=8 {
        meter.note(512 * done, 4_096);
    }
    let mut text = String::new(rt.alloc());
    if let Some(shown) = system.shown.try_lock() {
        for progress in shown.iter() {
            let line = format!(in rt.alloc(); "{progress}\n")?;
            text.push_str(line.as_str())?;
        }
    }
    Ok(text)
}

/// 768 KiB in 1.2 s are 640 KiB/s.
#[test]
fn a_terminal_shows_progress_each_second(rt: HostRuntime) -> Result<(), Fail> {
    let text = shown(&rt, true)?;
    assert_eq!(rt; text.as_str(), "37 %, 640 KiB/s\n75 %, 640 KiB/s\n");
    let text = shown(&rt, false)?;
    assert_eq!(rt; text.as_str(), "");
    Ok(())
}
