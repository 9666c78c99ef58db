//! The sizes and numbers of blocks. Source: docs/LAYOUT.md.

/// The bytes of a block: of the superblock's, of a journal, and of each data block.
pub const BLOCK_LEN: u32 = 4_096;

/// The chip's number of data block 0: before it are the superblock's block and three journals.
pub const FIRST_DATA_BLOCK: u16 = 4;

/// The bytes of a data block's head: its mark, and the descriptors of its slots.
pub const HEAD_LEN: usize = 44;

/// Where the descriptors begin, in bytes from the start of a data block: each has `HEADER_LEN`.
pub const DESCRIPTORS_PLACE: usize = 16;

/// How many slots a data block has.
pub const SLOTS: u16 = 7;

/// The bytes of the sector in a slot.
pub const SLOT_LEN: usize = 512;

/// The bytes of a page of the chip, the most that one program writes.
pub const PAGE_LEN: usize = 256;
