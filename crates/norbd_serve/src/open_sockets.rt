//! What the threads of connections and the one that accepts them tell one another.

use std::alloc::{AllocError, Global};
use std::net::{Shutdown, TcpStream};
use std::sync::atomic::{AtomicBool, Ordering};
use std::sync::{Condvar, CondvarTimeouts, Mutex, Wait};
use std::time::{Clock, Duration, Instant};

/// What the thread of a connection does.
#[derive(Clone, Copy, Drop)]
enum Doing {
    /// It answers its client.
    Works,
    /// It has waited for its client since then.
    Waits(Instant),
    /// It waited too long: its socket is shut down.
    Closed,
}

/// A slot for one connection at a time: its socket while it is open, so that another thread can
/// shut it down, what its thread does, and whether that is about to return.
#[derive(Drop)]
struct SocketSlot {
    stream: Mutex<Option<TcpStream>>,
    doing: Mutex<Doing>,
    has_ended: AtomicBool,
}

/// The slots, and whether a command was lost. `left` says that a connection left or a command was
/// lost since it was last waited for.
#[derive(Drop)]
pub(crate) struct OpenSockets {
    slots: Vec<SocketSlot>,
    is_lost: AtomicBool,
    left: Mutex<bool>,
    leaving: Condvar,
}

impl SocketSlot {
    /// How long its thread has waited for its client; None where it doesn't.
    fn silence<W: Wait + Clock>(&self, rt: &W) -> Option<Duration> {
        match *self.doing.lock(rt) {
            Doing::Waits(start) => start.elapsed(rt).ok(),
            Doing::Works => None,
            Doing::Closed => None,
        }
    }

    /// Shuts its socket down, where its thread has waited for its client for so long. What that
    /// says meanwhile isn't answered any more.
    fn close_silent<W: Wait + Clock>(&self, rt: &W, limit: Duration) {
        let mut doing = self.doing.lock(rt);
        let Doing::Waits(start) = *doing else {
            return;
        };
        if start.elapsed(rt).unwrap_or(Duration::ZERO) < limit {
            return;
        }
        *doing = Doing::Closed;
        if let Some(stream) = &*self.stream.lock(rt) {
            let _ = stream.shutdown(Shutdown::Both);
        }
    }
}

impl OpenSockets {
    /// So many slots, with no socket.
    pub(crate) fn new(alloc: Global, count: usize) -> Result<OpenSockets, AllocError> {
        let mut slots = Vec::with_capacity(alloc, count)?;
        for _slot in 0..count {
            slots.push(SocketSlot {
                stream: Mutex::new(None),
                doing: Mutex::new(Doing::Works),
                has_ended: AtomicBool::new(false),
            })?;
        }
        Ok(OpenSockets {
            slots,
            is_lost: AtomicBool::new(false),
            left: Mutex::new(false),
            leaving: Condvar::new(),
        })
    }

    /// Keeps a handle of a connection's socket at its slot.
    pub(crate) fn enter<W: Wait>(&self, wait: &W, at: usize, stream: TcpStream) {
        if let Some(slot) = self.slots.get(at) {
            *slot.stream.lock(wait) = Some(stream);
            *slot.doing.lock(wait) = Doing::Works;
        }
    }

    /// The thread at this slot waits for its client from now on. Where there is no time, it is not
    /// noted.
    pub(crate) fn wait_at<W: Wait + Clock>(&self, rt: &W, at: usize) {
        if let Some(slot) = self.slots.get(at) {
            let mut doing = slot.doing.lock(rt);
            if let (Doing::Works, Ok(now)) = (*doing, Instant::now(rt)) {
                *doing = Doing::Waits(now);
            }
        }
    }

    /// The thread at this slot has heard of its client. Whether it is to answer: it isn't where it
    /// waited too long.
    pub(crate) fn hear_at<W: Wait>(&self, wait: &W, at: usize) -> bool {
        let Some(slot) = self.slots.get(at) else {
            return true;
        };
        let mut doing = slot.doing.lock(wait);
        if let Doing::Closed = *doing {
            return false;
        }
        *doing = Doing::Works;
        true
    }

    /// The connection at this slot has ended: its socket is closed, and its thread returns.
    pub(crate) fn leave<W: Wait>(&self, wait: &W, at: usize) {
        if let Some(slot) = self.slots.get(at) {
            *slot.stream.lock(wait) = None;
            slot.has_ended.store(true, Ordering::SeqCst);
        }
        self.call(wait);
    }

    /// Whether the thread at this slot is about to return; the answer is true once.
    pub(crate) fn has_left(&self, at: usize) -> bool {
        match self.slots.get(at) {
            Some(slot) => slot.has_ended.swap(false, Ordering::SeqCst),
            None => false,
        }
    }

    /// Shuts down all sockets: their threads' reads and writes end.
    pub(crate) fn shut_down<W: Wait>(&self, wait: &W) {
        for slot in self.slots.iter() {
            let stream = slot.stream.lock(wait);
            if let Some(stream) = &*stream {
                let _ = stream.shutdown(Shutdown::Both);
            }
        }
    }

    /// A command was lost.
    pub(crate) fn lose<W: Wait>(&self, wait: &W) {
        self.is_lost.store(true, Ordering::SeqCst);
        self.call(wait);
    }

    pub(crate) fn is_lost(&self) -> bool {
        self.is_lost.load(Ordering::SeqCst)
    }

    fn call<W: Wait>(&self, wait: &W) {
        let mut left = self.left.lock(wait);
        *left = true;
        self.leaving.notify_all();
    }

    /// The slot whose thread waits for its client longest, and how long.
    fn most_silent<W: Wait + Clock>(&self, rt: &W) -> Option<(usize, Duration)> {
        let mut most = None;
        let mut longest = Duration::ZERO;
        for (at, slot) in self.slots.iter().enumerate() {
            if let Some(silence) = slot.silence(rt) {
                if silence >= longest {
                    longest = silence;
                    most = Some((at, silence));
                }
            }
        }
        most
    }

    /// Sleeps until a connection left, or a command was lost, since it was last waited for, or so
    /// long. A connection whose client has said nothing for so long is shut down first, of several
    /// the one that has longest.
    pub(crate) fn wait_for_place<W: Wait + Clock>(&self, rt: &W, limit: Duration) {
        let mut patience = limit;
        if let Some((at, silence)) = self.most_silent(rt) {
            if silence < limit {
                patience = limit.saturating_sub(silence);
            } else if let Some(slot) = self.slots.get(at) {
                slot.close_silent(rt, limit);
            }
        }
        let left = self.left.lock(rt);
        let (mut left, _) = self
            .leaving
            .wait_timeout_while(rt, left, patience, |left| !*left);
        *left = false;
    }

    /// Sleeps until a connection left, or a command was lost, since it was last waited for.
    pub(crate) fn wait_for_leaving<W: Wait>(&self, wait: &W) {
        let mut left = self.left.lock(wait);
        for _ in wait.forever() {
            if *left {
                *left = false;
                return;
            }
            left = self.leaving.wait(wait, left);
        }
    }
}
