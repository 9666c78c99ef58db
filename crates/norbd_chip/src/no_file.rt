//! The file of a disk that has none.

use std::fs::{Metadata, OpenFile};
use std::io;
use std::io::ErrorKind;

/// What stands for the file of a disk on a chip behind a programmer: what is acknowledged is on the
/// chip, so there is nothing to sync.
#[derive(Drop)]
pub struct NoFile;

impl OpenFile for NoFile {
    fn metadata(&self) -> io::Result<Metadata> {
        Err(io::Error::from(ErrorKind::Unsupported))
    }

    fn set_len(&self, _size: u64) -> io::Result<()> {
        Err(io::Error::from(ErrorKind::Unsupported))
    }

    fn sync_all(&self) -> io::Result<()> {
        Ok(())
    }

    fn sync_data(&self) -> io::Result<()> {
        Ok(())
    }
}
