//! The log beside an image: what both files hold, and the end of the log in the image.
ghost use Rattle.std.specs.Prelude.{IfErr, IfOk, length};
ghost use Rattle.chip_model.specs.Geometry.{IsChipSize};
ghost use Rattle.norbd_run.specs.Listening.{IsRefusal};

use crate::image_disk::bytes_of;
use crate::serve::told_of_mount;
use norbd_image::{
    Held, ImageFile, Joined, LogError, chip_in, log_beside, log_bytes, remove_log, settle_log,
};
use norbd_line::{Cause, Fault};
use std::alloc::{AllocError, Global};
use std::io;
use std::io::ErrorKind;
use std::rt::Files;

/// What a failed call on the log beside an image is for the program.
pub(crate) fn told_of_log(error: io::Error) -> Fault
    ensures { IsRefusal result }
{
    match error.kind() {
        ErrorKind::OutOfMemory => Fault::NoMemory,
        ErrorKind::InvalidData => Fault::ImageFailed(Cause::NoLog),
        kind => Fault::ImageFailed(Cause::Log(kind)),
    }
}

/// What a refusal of an image and its log is for the program.
fn told_of_both(error: LogError) -> Fault
    ensures { IsRefusal result }
{
    match error {
        LogError::OutOfMemory => Fault::NoMemory,
        LogError::Foreign => Fault::ImageFailed(Cause::NoLog),
        LogError::Another => Fault::ImageFailed(Cause::OtherLog),
        LogError::Refused(error) => told_of_mount(error),
        LogError::NotClean => Fault::NotClean,
        LogError::Failed => Fault::ImageFailed(Cause::Write),
    }
}

/// Writes a line about a log that has so many bytes for an image behind a text; none where it has
/// none.
pub(crate) fn tell_log(alloc: Global, text: &mut String, len: usize) -> Result<(), AllocError> {
    if len == 0 {
        return Ok(());
    }
    let line = format!(in alloc; "log: {len} bytes, which the next start writes into the image\n")?;
    text.push_str(line.as_str())
}

/// The bytes of the log beside an image, which is held.
fn log_of<R>(rt: &R, path: &str) -> Result<Vec<u8>, Fault>
where
    R: Files + AllocGlobal,
    R::File: ImageFile,
    ensures { IfErr result IsRefusal }
{
    match log_bytes(rt, path) {
        Ok(log) => Ok(log),
        Err(error) => Err(told_of_log(error)),
    }
}

/// The chip that an image, which is held, and the log beside it hold. Neither file is changed.
pub(crate) fn looked_through<R>(rt: &R, path: &str, held: &Held<R::File>) -> Result<Joined, Fault>
where
    R: Files + AllocGlobal,
    R::File: ImageFile,
    ensures size { IfOk result (λ through. IsChipSize (length through.bytes.items)) }
    ensures refused { IfErr result IsRefusal }
{
    let image = bytes_of(rt, held)?;
    let log = log_of(rt, path)?;
    match chip_in(rt.alloc(), image, log.as_slice()) {
        Ok(both) => Ok(both),
        Err(error) => Err(told_of_both(error)),
    }
}

/// Writes what the log beside an image has into the image, which is held; a log that has something
/// stays, and says nothing then. Nothing is synced where `syncs` isn't set.
pub(crate) fn settle<R>(rt: &R, path: &str, held: &Held<R::File>, syncs: bool) -> Result<(), Fault>
where
    R: Files + AllocGlobal,
    R::File: ImageFile,
    ensures { IfErr result IsRefusal }
{
    let log = log_of(rt, path)?;
    if log.is_empty() {
        let _ = remove_log(rt, path);
        return Ok(());
    }
    let image = bytes_of(rt, held)?;
    let files = match log_beside(rt, path, held, syncs) {
        Ok(files) => files,
        Err(error) => return Err(told_of_log(error)),
    };
    let (_files, settled) = settle_log(rt.alloc(), files, image, log.as_slice());
    match settled {
        Ok(()) => Ok(()),
        Err(error) => Err(told_of_both(error)),
    }
}

/// Writes what the log beside an image has into the image, which is held, and takes the log away.
/// Where it has nothing the image stays as it is. Nothing is synced where `syncs` isn't set.
pub(crate) fn take_up<R>(rt: &R, path: &str, held: &Held<R::File>, syncs: bool) -> Result<(), Fault>
where
    R: Files + AllocGlobal,
    R::File: ImageFile,
    ensures { IfErr result IsRefusal }
{
    settle(rt, path, held, syncs)?;
    let _ = remove_log(rt, path);
    Ok(())
}

/// Takes the log away that is beside an image that was replaced by these bytes; a file that is no
/// log stays.
pub(crate) fn drop_log<R>(rt: &R, path: &str, image: Vec<u8>)
where
    R: Files + AllocGlobal,
    R::File: ImageFile,
    requires { IsChipSize (length image.items) }
{
    let Ok(log) = log_of(rt, path) else {
        return;
    };
    match chip_in(rt.alloc(), image, log.as_slice()) {
        Err(LogError::Foreign) => {}
        _ => {
            let _ = remove_log(rt, path);
        }
    }
}
