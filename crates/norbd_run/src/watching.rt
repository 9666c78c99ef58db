//! The gate of the keeper that looks whether the file that is served was removed.

use nbd_durable::Durable;
use nbd_share::{Gate, Point};
use norbd_serve::{Log, Sleeper};
use std::fs::OpenFile;
use std::time::{Clock, Duration, Instant};

/// How long it isn't looked again, in seconds.
const LOOK_PAUSE: u64 = 1;

/// A keeper's gate, at which each passing takes 10 ms. At most once a second it is looked at a
/// passing whether a file was removed, and if so that is told once.
#[derive(Drop)]
pub(crate) struct Watching<'r, R: Clock, F> {
    rt: &'r R,
    sleeper: Sleeper<'r, R>,
    file: &'r Durable<F>,
    path: &'r str,
    looks: bool,
    looked: Option<Instant>,
}

impl<'r, R: Clock + Log, F: OpenFile> Watching<'r, R, F> {
    /// A gate that looks at the file, which is at a path now, where `looks` is set.
    pub(crate) fn new(
        rt: &'r R,
        file: &'r Durable<F>,
        path: &'r str,
        looks: bool,
    ) -> Watching<'r, R, F> {
        Watching {
            rt,
            sleeper: Sleeper::new(rt),
            file,
            path,
            looks,
            looked: None,
        }
    }

    /// Whether it was looked within the last second.
    fn has_just_looked(&self) -> bool {
        let Some(looked) = self.looked else {
            return false;
        };
        match looked.elapsed(self.rt) {
            Ok(since) => since < Duration::from_secs(LOOK_PAUSE),
            Err(_) => false,
        }
    }

    /// Looks at the file, where that wasn't done within the last second.
    fn look(&mut self) {
        if !self.looks || self.has_just_looked() {
            return;
        }
        self.looked = Instant::now(self.rt).ok();
        if self.file.is_removed() {
            self.looks = false;
            self.rt.tell_removed(self.path);
        }
    }
}

impl<'r, R: Clock + Log, F: OpenFile> Gate for Watching<'r, R, F> {
    ghost passes = { λ gate after points. Unit {0} };

    fn pass(&mut self, point: Point) {
        self.sleeper.pass(point);
        self.look();
    }

    ghost none = { λ gate. tt };
}
