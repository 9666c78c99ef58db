//! The file behind a disk, when it is synced, and what a connection owes whose replies may wait for
//! a sync.

ghost use Rattle.std.specs.Prelude.{◌≡◌};
ghost use Rattle.nbd_durable.specs.Owing.{is_asked, owes};

use bitflags::Flags;
use nbd_wire::{Command, CommandKind};
use std::fs::OpenFile;
use std::os::unix::fs::MetadataExt;
use std::sync::atomic::{AtomicBool, Ordering};

/// Whose replies wait for a sync. Source: own.
#[derive(Clone, Copy, Debug, PartialEq, Eq, Drop)]
pub enum Policy {
    /// Those to a FLUSH, and to a command with FUA.
    AtFlush,
    /// None.
    Never,
    /// Those, and the ones to each command that changes sectors.
    Always,
}

/// Whether a client asks that what was written is durable.
fn is_asked(command: &Command) -> bool
    ensures { result ≡ is_asked command.now }
{
    match command.kind {
        CommandKind::Flush => true,
        _ => command.flags.bits() % 2 == 1,
    }
}

/// Whether the reply to a command waits for a sync.
fn owes(policy: Policy, command: &Command) -> bool
    ensures { result ≡ owes policy command.now }
{
    match policy {
        Policy::Never => false,
        Policy::AtFlush => is_asked(command),
        Policy::Always => is_asked(command) || command.kind.changes_disk(),
    }
}

/// A file whose data is synced by a policy. Once a sync has failed, none is tried again: the system
/// may have dropped what it could not write, and a later sync would not tell.
#[derive(Drop)]
pub struct Durable<F> {
    file: F,
    policy: Policy,
    failed: AtomicBool,
}

impl<F: OpenFile> Durable<F> {
    /// A file, of which no sync has failed.
    pub fn new(file: F, policy: Policy) -> Durable<F> {
        Durable {
            file,
            policy,
            failed: AtomicBool::new(false),
        }
    }

    /// Whether a sync has failed.
    pub fn has_failed(&self) -> bool {
        self.failed.load(Ordering::SeqCst)
    }

    /// Whether the system says that no path leads to the file any more: it is gone once it is
    /// closed.
    pub fn is_removed(&self) -> bool {
        match self.file.metadata() {
            Ok(found) => found.nlink() == 0,
            Err(_) => false,
        }
    }

    /// Syncs the file's data, and tells whether that and each sync before it went well.
    fn sync(&self) -> bool {
        if self.has_failed() {
            return false;
        }
        match self.file.sync_data() {
            Ok(()) => true,
            Err(_) => {
                self.failed.store(true, Ordering::SeqCst);
                false
            }
        }
    }

    /// The last sync, which the policy `Never` leaves out. Whether each sync went well.
    pub fn finish(&self) -> bool {
        match self.policy {
            Policy::Never => true,
            _ => self.sync(),
        }
    }
}

/// What one connection owes: whether its next reply waits for a sync of the file. Its door and its
/// writer have it both.
#[derive(Drop)]
pub struct Owed<'f, F> {
    durable: &'f Durable<F>,
    is_due: AtomicBool,
}

impl<'f, F: OpenFile> Owed<'f, F> {
    /// A connection that owes nothing.
    pub fn new(durable: &'f Durable<F>) -> Owed<'f, F> {
        Owed {
            durable,
            is_due: AtomicBool::new(false),
        }
    }

    /// Notes a command that is about to be run.
    pub fn note(&self, command: &Command) {
        if owes(self.durable.policy, command) {
            self.is_due.store(true, Ordering::SeqCst);
        }
    }

    /// Syncs the file where a reply owes that. False where a sync has failed: then nothing is to be
    /// sent.
    pub fn settle(&self) -> bool {
        if self.is_due.swap(false, Ordering::SeqCst) {
            return self.durable.sync();
        }
        true
    }
}
