//! What a chip says of itself.

/// What a chip says of itself.
#[derive(Clone, Copy, Debug, PartialEq, Eq)]
pub struct Params {
    /// The chip's size in bytes: a multiple of 64 KiB from 64 KiB to 16 MiB.
    pub bytes: u32,
    /// The bytes of a page: 256.
    pub page: u16,
    /// The code that erases 4 KiB: 20h.
    pub small: u8,
    /// The code that erases 64 KiB, where there is one: D8h.
    pub large: Option<u8>,
}
