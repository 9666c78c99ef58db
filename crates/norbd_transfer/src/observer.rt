//! Who is told how far a transfer is.

/// Who is told how far a transfer is.
pub trait Observer {
    /// So many of so many sectors are done.
    fn note(&mut self, done: u32, all: u32);
}

impl Observer for () {
    /// Nobody is told.
    fn note(&mut self, _done: u32, _all: u32) {}
}
