//! What lies where on the chip, and what its bytes mean: the superblock, the three journals, and
//! the data blocks.
//!
//! Promised: each reader gives exactly the meaning of the bytes that it is given, whatever they are
//! (`specs/`), and what a writer wrote is read back. `read_super` and `read_layout` answer the
//! first check that fails; `vote_state`, `entry_state` and `block_state` say what a byte or four
//! bytes are, `block_kind` what the first eight of a data block are; `super_bytes`,
//! `sector_super_bytes`, `vote_byte`, `taken_entry`, `begun_header`, `live_header` and `begun_mark`
//! give the bytes to be programmed. A state byte only loses bits: begun, committed and retired (or
//! settled), or open and closed, are one program each. No call takes memory or touches the chip.
//!
//! Left to the crate above: when what is programmed, and what an interrupted program leaves.
//!
//! Source: own, layouts 1 and 2 (docs/LAYOUT.md). Numbers have their least significant byte first.

#![tactic(auto)]

mod block;
mod entry;
mod header;
mod journal;
mod kind;
mod layout;
mod superblock;
mod vote;

pub use block::{
    BLOCK_LEN, DESCRIPTORS_PLACE, FIRST_DATA_BLOCK, HEAD_LEN, PAGE_LEN, SLOT_LEN, SLOTS,
};
pub use entry::{
    CLOSED_ENTRY, ENTRIES, ENTRIES_LEN, ENTRY_LEN, Entry, OPEN_ENTRY, entry_place, entry_state,
    taken_entry,
};
pub use header::{
    COMMITTED, Generation, HEADER_LEN, Header, RETIRED, Tag, begun_header, block_state, live_header,
};
pub use journal::{JOURNALS_END, JournalId};
pub use kind::{Kind, MARK_LEN, SETTLED, begun_mark, block_kind};
pub use layout::{Layout, read_layout, sector_super_bytes};
pub use superblock::{
    MIXED, MIXED_PLACE, SEAL, SEAL_PLACE, SUPER_LEN, SuperError, UNSEALED_LEN, read_super,
    super_bytes,
};
pub use vote::{REGION_LEN, VOTES, Vote, vote_byte, vote_state};
