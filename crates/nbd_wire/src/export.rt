//! What is served.

ghost use Rattle.std.specs.Prelude.{◌≡◌};
ghost use Rattle.nbd_wire.specs.Commands.{default_export};

use crate::constants::MAX_LEN;

/// The one export: how large its disk is, and what clients may ask of it. Source: NBD proto.md.
#[derive(Clone, Copy, PartialEq, Eq, Debug)]
pub struct Export {
    /// The sectors of the disk.
    pub sectors: u32,
    /// The largest length of a READ or WRITE in bytes that is told to the client (the maximum block
    /// size).
    pub told_len: u32,
    /// The largest length of a READ or WRITE in bytes that is taken.
    pub max_len: u32,
    /// Whether commands that change the disk are refused (READ_ONLY).
    pub read_only: bool,
}

impl Export {
    /// The export of a disk of so many sectors where nothing else is asked for: READs and WRITEs
    /// have at most 65,536 bytes, and nothing is refused for changing the disk.
    pub fn default_for(sectors: u32) -> Export
        ensures { result ≡ default_export sectors }
    {
        Export {
            sectors,
            told_len: MAX_LEN,
            max_len: MAX_LEN,
            read_only: false,
        }
    }
}
