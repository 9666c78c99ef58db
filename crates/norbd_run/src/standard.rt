//! The descriptors 0, 1 and 2, which a starter may have closed: a file that is opened then would
//! get their number, and what is printed would be written into it.

ghost use Rattle.std.specs.Prelude.{◌≡◌};

use std::fs::OpenOptions;
use std::io;
use std::os::fd::AsRawFd;
use std::rt::Files;

/// Opens files, each of which gets the lowest number that is free.
pub trait Opens {
    type File: AsRawFd + Drop;

    /// Opens one more.
    fn open(&mut self) -> io::Result<Self::File>;
}

/// Opens the file that takes all and holds nothing, or where there is none the root folder, which
/// takes nothing.
#[derive(Drop)]
pub struct Null<'r, R> {
    pub rt: &'r R,
}

impl<R: Files> Opens for Null<'_, R>
where
    R::File: AsRawFd,
{
    type File = R::File;

    fn open(&mut self) -> io::Result<R::File> {
        match OpenOptions::new()
            .read(true)
            .write(true)
            .open(self.rt, "/dev/null")
        {
            Ok(file) => Ok(file),
            Err(_) => OpenOptions::new().read(true).open(self.rt, "/"),
        }
    }
}

/// The descriptors that are held, so that no file gets their number.
#[derive(Drop)]
pub struct Standard<F: Drop> {
    pub first: Option<F>,
    pub second: Option<F>,
    pub third: Option<F>,
}

impl<F: AsRawFd + Drop> Standard<F> {
    /// Whether standard output was closed.
    pub fn lacks_output(&self) -> bool {
        is_output(&self.first) || is_output(&self.second) || is_output(&self.third)
    }
}

/// Whether a file is there that has the number of standard output.
fn is_output<F: AsRawFd>(file: &Option<F>) -> bool {
    match file {
        Some(file) => file.as_raw_fd() == 1,
        None => false,
    }
}

/// A file, if its number is 0, 1 or 2.
fn open_low<O: Opens>(opens: &mut O) -> io::Result<Option<O::File>> {
    let file = opens.open()?;
    if file.as_raw_fd() <= 2 {
        return Ok(Some(file));
    }
    Ok(None)
}

/// Sees to it that 0, 1 and 2 are open: those that aren't are opened. Err where that fails.
pub fn hold_standard<O: Opens>(opens: &mut O) -> io::Result<Standard<O::File>> {
    Ok(Standard {
        first: open_low(opens)?,
        second: open_low(opens)?,
        third: open_low(opens)?,
    })
}
