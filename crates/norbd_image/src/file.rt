//! The file of an image.

ghost use Rattle.std.specs.Prelude.{◌≡◌, IfErr};
ghost use Rattle.norbd_image.specs.Image.{ComesOfFile, ComesOfHolding, is_formatted};
ghost use Rattle.norbd_image.specs.Image.{leave_to_replace};

use crate::error::ImageError;
use crate::owner::{Held, ImageFile, fault_from, hold};
use chip_model::Geometry;
use nor_layout::{SUPER_LEN, SuperError, read_layout};
use std::fs::{File, OpenFile, OpenOptions, Permissions};
use std::io::{ErrorKind, Write};
use std::os::unix::fs::FileExt;
use std::rt::Files;
use std::{fs, io};

/// How many bytes are written at once. Some file systems keep what is written at once in one piece
/// in memory, and then go through all of it for each page that a server writes there later.
const WRITE_LEN: usize = 4_096;

/// Makes these bytes the file at a path; one that is there is replaced as a whole, and a link to it
/// stays, also one that leads to nothing yet.
///
/// They are written to a new file in the same folder, PATH.norbd-new, which gets the permissions of
/// the one that it replaces and takes its name once the bytes are on the medium. One of that name
/// that a killed process left is removed first. What is there is locked meanwhile, and has to be a
/// regular file that this process may write. What is at the path is as it was after each fault:
/// `InUse` where another process has it or makes it anew, `NotAFile`, and where `force` isn't set
/// `Formatted` where it holds a formatted chip and `NotEmpty` where it holds anything else than
/// FFh; `File` where it can't be opened or the new one can't be had, `OutOfMemory` where there is
/// no memory for the name. The new file is removed then, where it can be.
pub fn write_image<R>(rt: &R, path: &str, bytes: &[u8], force: bool) -> Result<(), ImageError>
where
    R: Files + AllocGlobal,
    R::File: ImageFile,
    ensures { IfErr result ComesOfFile }
{
    let Target {
        path,
        permissions,
        held: _held,
        is_new,
    } = target_of(rt, path, force)?;
    match replace(rt, path.as_str(), permissions, bytes) {
        Ok(()) => Ok(()),
        Err(error) => {
            if is_new {
                let _ = fs::remove_file(rt, path.as_str());
            }
            Err(error)
        }
    }
}

/// Makes these bytes the file at a path, which this process holds and which is replaced as a whole,
/// as `write_image` does it: after a fault the file is as it was.
pub fn rewrite_image<R>(
    rt: &R,
    path: &str,
    _held: &Held<R::File>,
    bytes: &[u8],
) -> Result<(), ImageError>
where
    R: Files + AllocGlobal,
    R::File: ImageFile,
    ensures { IfErr result ComesOfHolding }
{
    match (fs::metadata(rt, path), fs::canonicalize(rt, path)) {
        (Ok(found), Ok(place)) => {
            replace(
                rt,
                place.into_string().as_str(),
                Some(found.permissions()),
                bytes,
            )
        }
        (Err(error), _) => Err(fault_from(error)),
        (_, Err(error)) => Err(fault_from(error)),
    }
}

/// Writes the bytes beside a path, and gives them its name.
#[tactic(auto, using(crate::proofs::Faults::holding_is_file))]
fn replace<R>(
    rt: &R,
    path: &str,
    permissions: Option<Permissions>,
    bytes: &[u8],
) -> Result<(), ImageError>
where
    R: Files + AllocGlobal,
    R::File: ImageFile,
    ensures file { IfErr result ComesOfFile }
    ensures holding { IfErr result ComesOfHolding }
{
    let (file, name) = new_beside(rt, path)?;
    let mut file = file;
    let put = match fill(&mut file, bytes, permissions) {
        Ok(()) => fs::rename(rt, name.as_str(), path),
        Err(error) => Err(error),
    };
    match put {
        Ok(()) => Ok(()),
        Err(error) => {
            let _ = fs::remove_file(rt, name.as_str());
            Err(fault_from(error))
        }
    }
}

/// Where a file is to be, the permissions of the one that is there, its lock, and whether it was
/// made for a link that led to nothing.
#[derive(Drop)]
struct Target<F> {
    path: String,
    permissions: Option<Permissions>,
    held: Option<Held<F>>,
    is_new: bool,
}

/// The place of a path: the path itself where nothing is there, and else that of the regular file
/// that it leads to.
#[tactic(auto, using(crate::proofs::Faults::holding_is_file))]
fn target_of<R>(rt: &R, path: &str, force: bool) -> Result<Target<R::File>, ImageError>
where
    R: Files + AllocGlobal,
    R::File: ImageFile,
    ensures { IfErr result ComesOfFile }
{
    match fs::metadata(rt, path) {
        Ok(found) => {
            if !found.is_file() {
                return Err(ImageError::NotAFile);
            }
            place_of_file(rt, path, force, Some(found.permissions()), false)
        }
        Err(error) => {
            if error.kind() != ErrorKind::NotFound {
                return Err(fault_from(error));
            }
            if makes_target(rt, path)? {
                return place_of_file(rt, path, force, None, true);
            }
            Ok(Target {
                path: String::from_str(rt.alloc(), path)?,
                permissions: None,
                held: None,
                is_new: false,
            })
        }
    }
}

/// The place of a file that is there, with its lock.
#[tactic(auto, using(crate::proofs::Faults::holding_is_file))]
fn place_of_file<R>(
    rt: &R,
    path: &str,
    force: bool,
    permissions: Option<Permissions>,
    is_new: bool,
) -> Result<Target<R::File>, ImageError>
where
    R: Files + AllocGlobal,
    R::File: ImageFile,
    ensures { IfErr result ComesOfFile }
{
    let held = hold(rt, path)?;
    leave_to_replace_held(force, &held)?;
    match fs::canonicalize(rt, path) {
        Ok(path) => Ok(Target {
            path: path.into_string(),
            permissions,
            held: Some(held),
            is_new,
        }),
        Err(error) => Err(fault_from(error)),
    }
}

/// Whether a file that is held may be replaced, by what it holds; `File` where it can't be read.
#[tactic(auto, using(crate::proofs::Faults::holding_is_file))]
fn leave_to_replace_held<F>(force: bool, held: &Held<F>) -> Result<(), ImageError>
where
    F: OpenFile + FileExt + Drop,
    ensures { IfErr result ComesOfFile }
{
    let mut head = [0u8; SUPER_LEN];
    match (held.has_head(&mut head), held.is_blank()) {
        (Ok(whole), Ok(blank)) => leave_to_replace(force, blank, whole, &head),
        (Err(error), _) => Err(fault_from(error)),
        (_, Err(error)) => Err(fault_from(error)),
    }
}

/// Whether a file may be replaced that is blank or not, and begins with these bytes where it has so
/// many.
fn leave_to_replace(
    force: bool,
    blank: bool,
    whole: bool,
    head: &[u8; SUPER_LEN],
) -> Result<(), ImageError>
    ensures { result ≡ leave_to_replace force blank whole head.now }
{
    if force || blank {
        return Ok(());
    }
    if whole && is_formatted(head) {
        return Err(ImageError::Formatted);
    }
    Err(ImageError::NotEmpty)
}

/// Whether a file that begins with these bytes holds a formatted chip, of any size and layout.
#[tactic(auto, using(crate::proofs::Faults::first_check))]
fn is_formatted(head: &[u8; SUPER_LEN]) -> bool
    ensures { result ≡ is_formatted head.now }
{
    let Some(any) = Geometry::of(65_536) else {
        unreachable!()
    };
    match read_layout(head, any) {
        Ok(_) => true,
        Err(SuperError::NotFormatted) => false,
        Err(SuperError::Layout) => true,
        Err(SuperError::Geometry) => true,
    }
}

/// Makes the empty file that a link leads to, and tells whether the path is that of a link.
fn makes_target<R: Files>(rt: &R, path: &str) -> Result<bool, ImageError>
    ensures { IfErr result ComesOfHolding }
{
    match fs::symlink_metadata(rt, path) {
        Ok(found) if found.is_symlink() => {}
        _ => return Ok(false),
    }
    match OpenOptions::new().write(true).create(true).open(rt, path) {
        Ok(_) => Ok(true),
        Err(error) => Err(fault_from(error)),
    }
}

/// A new file in the folder of a place, whose lock is taken, and its path.
#[tactic(auto, using(crate::proofs::Faults::holding_is_file))]
fn new_beside<R>(rt: &R, place: &str) -> Result<(R::File, String), ImageError>
where
    R: Files + AllocGlobal,
    R::File: ImageFile,
    ensures file { IfErr result ComesOfFile }
    ensures holding { IfErr result ComesOfHolding }
{
    let name = format!(in rt.alloc(); "{place}.norbd-new")?;
    remove_left(rt, name.as_str())?;
    let file = match File::create_new(rt, name.as_str()) {
        Ok(file) => file,
        Err(error) => return Err(fault_from(error)),
    };
    match file.claim() {
        Ok(true) => Ok((file, name)),
        Ok(false) => Err(ImageError::InUse),
        Err(error) => {
            let _ = fs::remove_file(rt, name.as_str());
            Err(fault_from(error))
        }
    }
}

/// Removes a new file that no process has any more, if there is one.
fn remove_left<R>(rt: &R, name: &str) -> Result<(), ImageError>
where
    R: Files,
    R::File: ImageFile,
    ensures { IfErr result ComesOfHolding }
{
    match hold(rt, name) {
        Ok(_left) => match fs::remove_file(rt, name) {
            Ok(()) => Ok(()),
            Err(error) => Err(fault_from(error)),
        },
        Err(ImageError::File(ErrorKind::NotFound)) => Ok(()),
        Err(error) => Err(error),
    }
}

/// Gives a new file its permissions and its bytes, and has them written to the medium.
fn fill<F: Write + OpenFile>(
    file: &mut F,
    bytes: &[u8],
    permissions: Option<Permissions>,
) -> io::Result<()> {
    if let Some(permissions) = permissions {
        file.set_permissions(permissions)?;
    }
    write_pieces(file, bytes)?;
    file.sync_all()
}

/// Writes the bytes in pieces.
fn write_pieces<F: Write>(file: &mut F, bytes: &[u8]) -> io::Result<()> {
    for piece in bytes.chunks(WRITE_LEN) {
        file.write_all(piece)?;
    }
    Ok(())
}
