//! The name of an export, as a client asked for it.

ghost use Rattle.std.specs.Prelude.{◌≡◌, take};
ghost use Rattle.nbd_handshake.specs.Asked.{TellsName};

use nbd_wire::fill;

/// How many bytes of a name that was asked for are kept.
pub const KEPT_NAME_LEN: usize = 64;

/// The name of an export that a client asked for: how many bytes it has, and the first 64 of them,
/// with zeros behind a shorter one. They may be any bytes; a client should send UTF-8.
#[derive(Clone, Copy, PartialEq, Eq, Debug)]
pub struct AskedName {
    pub len: usize,
    pub first: [u8; KEPT_NAME_LEN],
}

impl AskedName {
    /// What is kept of a name.
    pub fn of(name: &[u8]) -> AskedName
        ensures { TellsName result name.now }
    {
        let mut first = [0; KEPT_NAME_LEN];
        let _count = fill(&mut first, 0, name);
        AskedName {
            len: name.len(),
            first,
        }
    }

    /// The bytes of the name that are kept.
    pub fn bytes(&self) -> &[u8]
        ensures { result.now ≡ take self.now.len self.now.first }
    {
        &self.first[..self.len.min(KEPT_NAME_LEN)]
    }
}
