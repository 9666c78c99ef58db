//! The answers to a host's requests.

ghost use Rattle.std.specs.Prelude.{◌≡◌, IsTrue, IsFalse};
ghost use Rattle.flash_host.specs.Answers.{Answered, IsOnDisk, host_answer, host_step};
ghost use Rattle.flash_host.specs.Exchanges.{AllServed};

use crate::host::Host;
use crate::request::{Answer, Request};
use block_device::{Disk, DiskError};

/// Answers each request of a host, until it has none.
pub fn answer_all<D: Disk, H: Host>(disk: &mut D, host: &mut H)
    ensures { AllServed (H.ended host.new) (D.facts disk.old) (D.facts disk.new)
        (H.events host.old) (H.events host.new) }
{
    let mut bytes = [0u8; 512];
    for _ in 0..u64::MAX {
        let Some(request) = host.next(&mut bytes) else {
            return;
        };
        let answer = answer(disk, &request, &mut bytes);
        host.hear(&answer, &bytes);
    }
}

/// Answers one request. The bytes are those that it came with, and become those of a sector where
/// it is a `Read` that is done.
pub fn answer<D: Disk>(disk: &mut D, request: &Request, bytes: &mut [u8; 512]) -> Answer
    ensures { Answered request.now bytes.old (D.facts disk.old) result bytes.new
        (D.facts disk.new) }
{
    if !is_on_disk(disk, request) {
        return Answer::Refused;
    }
    match *request {
        Request::Sectors => Answer::Counted(disk.sectors()),
        Request::Read(sector) => done(disk.read(sector, bytes)),
        Request::Write(sector) => done(disk.write(sector, bytes)),
        Request::Zero(first, count) => done(disk.zero(first, count)),
        Request::Flush => done(disk.flush()),
        Request::Tidy => tidied(disk.tidy()),
        Request::Restore => done(disk.restore()),
    }
}

/// Whether the sectors of a request are on the disk.
fn is_on_disk<D: Disk>(disk: &D, request: &Request) -> bool
    ensures yes { IsTrue result → IsOnDisk request.now (D.facts disk.now).contents }
    ensures no { IsFalse result → IsOnDisk request.now (D.facts disk.now).contents → ⊥ }
{
    let sectors = disk.sectors();
    match *request {
        Request::Read(sector) | Request::Write(sector) => sector < sectors,
        Request::Zero(first, count) => count <= sectors && first <= sectors - count,
        Request::Sectors | Request::Flush | Request::Tidy | Request::Restore => true,
    }
}

/// The answer of a call that has nothing to tell.
fn done(outcome: Result<(), DiskError>) -> Answer
    ensures { result ≡ host_answer outcome }
{
    match outcome {
        Ok(()) => Answer::Done,
        Err(error) => Answer::Failed(error),
    }
}

/// The answer of a step of tidying.
fn tidied(outcome: Result<bool, DiskError>) -> Answer
    ensures { result ≡ host_step outcome }
{
    match outcome {
        Ok(true) => Answer::Done,
        Ok(false) => Answer::Idle,
        Err(error) => Answer::Failed(error),
    }
}
