//! The words of the system's answers.

use serprog::SerprogError;
use std::fmt;
use std::io::ErrorKind;

/// A system's answer. Its text has the words of strerror(3), in lower case.
#[derive(Clone, Copy, Debug, PartialEq, Eq, Drop)]
pub struct Answer(pub ErrorKind);

impl fmt::Display for Answer {
    fn fmt<W: fmt::Write>(&self, f: &mut fmt::Formatter<W>) -> fmt::Result {
        match self.0 {
            ErrorKind::NotFound => f.write_str("no such file or directory"),
            ErrorKind::AlreadyExists => f.write_str("file exists"),
            ErrorKind::StorageFull => f.write_str("no space left on device"),
            ErrorKind::InvalidFilename => f.write_str("file name too long"),
            ErrorKind::FilesystemLoop => f.write_str("too many levels of symbolic links"),
            ErrorKind::ReadOnlyFilesystem => f.write_str("read-only file system"),
            ErrorKind::QuotaExceeded => f.write_str("disk quota exceeded"),
            ErrorKind::InvalidInput => f.write_str("invalid argument"),
            kind => write!(f, "{kind}"),
        }
    }
}

/// Why a programmer isn't used, with the system's answer in its words.
#[derive(Clone, Copy, Debug, PartialEq, Eq, Drop)]
pub struct Unused(pub SerprogError);

impl fmt::Display for Unused {
    fn fmt<W: fmt::Write>(&self, f: &mut fmt::Formatter<W>) -> fmt::Result {
        match self.0 {
            SerprogError::Unreached(kind) => write!(f, "{}", Answer(kind)),
            error => write!(f, "{error}"),
        }
    }
}
