//! The events of scripts, and the bytes of their records and of what a client sends
//! (docs/SCRIPT.md).

ghost use Rattle.std.specs.Int.{to_be_bytes, w32};
ghost use Rattle.std.specs.Prelude.{◌≡◌, ◌∷◌};

use std::alloc::AllocError;

/// The sectors of the disk of a chip of 64 KiB.
pub const SECTORS: u32 = 70;

/// The bytes of a sector.
pub const SECTOR_BYTES: u32 = 512;

/// The connection byte of an event of no connection.
pub const NO_ONE: u8 = 0xFF;

/// The most bytes of a piece.
pub const PIECE_BYTES: usize = 65_536;

/// The client's flags.
const FLAGS: [u8; 4] = [0, 0, 0, 3];

/// The option GO with the name `flash`, and no more questions.
const GO: [u8; 27] = [
    0x49, 0x48, 0x41, 0x56, 0x45, 0x4F, 0x50, 0x54, 0, 0, 0, 7, 0, 0, 0, 11, 0, 0, 0, 5, 0x66,
    0x6C, 0x61, 0x73, 0x68, 0, 0,
];

/// The errors of requests past the end of the disk: of a READ or TRIM, and of a WRITE.
const INVALID: u32 = 22;

const NO_SPACE: u32 = 28;

/// What a client asks for.
#[derive(Clone, Copy, Debug)]
pub enum Request {
    /// A READ: from which sector on, and how many.
    Read(u32, u32),
    /// A WRITE: the same, and the value of each of their bytes.
    Write(u32, u32, u8),
    /// A TRIM: the same two, which are zeros then.
    Trim(u32, u32),
    /// A FLUSH.
    Flush,
    /// A DISC, at which the server closes the connection.
    Leave,
}

/// A unit of what a client sends.
#[derive(Clone, Copy)]
pub enum Unit {
    /// Its flags.
    Flags,
    /// Its option GO.
    Go,
    /// A request, with its cookie.
    Ask(Request, u64),
}

/// What happens. The first number of a client's event is its connection, from 0 to 7.
#[derive(Clone, Copy, Debug)]
pub enum Event {
    /// The connection is opened. If it wasn't open, its client has its flags and its GO to send.
    Open(u8),
    /// The client has one more request to send, and a piece comes: all that it has to send but for
    /// so many bytes at the end.
    Ask(u8, Request, u32),
    /// All comes that it has still to send.
    Rest(u8),
    /// The client is gone.
    Gone(u8),
    /// The disk is tidied.
    Tidy,
    /// The power is turned on.
    Restore,
    /// A loss of power is armed: the count, the kind and the mask.
    Arm(u32, u8, u8),
}

/// The head of a record: its first two bytes, which are an event and a connection in a script, a
/// connection and a kind in a transcript, and how many bytes follow.
pub fn record_head(first: u8, second: u8, len: u32) -> [u8; 6]
    ensures { result ≡ first ∷ second ∷ to_be_bytes w32 len }
{
    let [a, b, c, d] = len.to_be_bytes();
    [first, second, a, b, c, d]
}

/// Adds a record to a script.
pub fn add(script: &mut Vec<u8>, event: u8, who: u8, bytes: &[u8]) -> Result<(), AllocError> {
    let len = bytes.len().min(PIECE_BYTES) as u32;
    script.extend_from_slice(&record_head(event, who, len))?;
    script.extend_from_slice(bytes)
}

/// The head of a request of so many sectors from one on.
fn request_head(kind: u8, cookie: u64, first: u32, count: u32) -> [u8; 28] {
    let [a, b, c, d, e, f, g, h] = cookie.to_be_bytes();
    let [i, j, k, l] = first.wrapping_mul(SECTOR_BYTES).to_be_bytes();
    let [m, n, o, p] = count.wrapping_mul(SECTOR_BYTES).to_be_bytes();
    [
        0x25, 0x60, 0x95, 0x13, 0, 0, 0, kind, a, b, c, d, e, f, g, h, 0, 0, 0, 0, i, j, k, l, m,
        n, o, p,
    ]
}

impl Request {
    /// The error that it is answered with.
    pub fn error(self) -> u32 {
        match self {
            Request::Read(first, count) if first.saturating_add(count) > SECTORS => INVALID,
            Request::Write(first, count, _) if first.saturating_add(count) > SECTORS => NO_SPACE,
            Request::Trim(first, count) if first.saturating_add(count) > SECTORS => INVALID,
            _ => 0,
        }
    }

    /// Adds its bytes to a text.
    fn add_to(self, text: &mut Vec<u8>, cookie: u64) -> Result<(), AllocError> {
        match self {
            Request::Read(first, count) => {
                text.extend_from_slice(&request_head(0, cookie, first, count))
            }
            Request::Write(first, count, value) => {
                text.extend_from_slice(&request_head(1, cookie, first, count))?;
                let payload = count.wrapping_mul(SECTOR_BYTES) as usize;
                let len = text.len().saturating_add(payload);
                text.resize(len, value)
            }
            Request::Trim(first, count) => {
                text.extend_from_slice(&request_head(4, cookie, first, count))
            }
            Request::Leave => text.extend_from_slice(&request_head(2, cookie, 0, 0)),
            Request::Flush => text.extend_from_slice(&request_head(3, cookie, 0, 0)),
        }
    }
}

impl Unit {
    /// Adds its bytes to a text.
    pub fn add_to(self, text: &mut Vec<u8>) -> Result<(), AllocError> {
        match self {
            Unit::Flags => text.extend_from_slice(&FLAGS),
            Unit::Go => text.extend_from_slice(&GO),
            Unit::Ask(request, cookie) => request.add_to(text, cookie),
        }
    }
}
