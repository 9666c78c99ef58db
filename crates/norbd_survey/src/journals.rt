//! Why the journals of a chip are corrupt, as a text.

use crate::reason::{Four, byte_at};
use nor_layout::{
    BLOCK_LEN, ENTRIES, Entry, JournalId, REGION_LEN, Vote, entry_place, entry_state, vote_state,
};
use sector_survey::JournalFault;
use std::fmt;

/// The votes for the erase of a journal: the first, those of the next journal, or the second.
#[derive(Clone, Copy)]
struct Region {
    journal: JournalId,
    first: bool,
}

impl Region {
    /// Where its votes begin.
    fn place(self) -> u32 {
        if self.first {
            self.journal.first_votes()
        } else {
            self.journal.second_votes()
        }
    }

    /// The journal whose votes they are.
    fn by(self) -> JournalId {
        if self.first {
            next(self.journal)
        } else {
            next(next(self.journal))
        }
    }
}

impl fmt::Display for Region {
    fn fmt<W: fmt::Write>(&self, f: &mut fmt::Formatter<W>) -> fmt::Result {
        let (by, of) = (number_of(self.by()), number_of(self.journal));
        let at = self.place();
        write!(f, "the votes of J{by} for the erase of J{of} at {at:X}h")
    }
}

/// The number of a journal.
fn number_of(journal: JournalId) -> u8 {
    match journal {
        JournalId::J0 => 0,
        JournalId::J1 => 1,
        JournalId::J2 => 2,
    }
}

/// The journal after this one, round the three.
fn next(journal: JournalId) -> JournalId {
    match journal {
        JournalId::J0 => JournalId::J1,
        JournalId::J1 => JournalId::J2,
        JournalId::J2 => JournalId::J0,
    }
}

/// The place of the first byte of a region that is no vote.
fn first_wrong(image: &[u8], region: u32) -> Option<u32> {
    for k in 0..REGION_LEN as u32 {
        let at = region.saturating_add(k);
        if vote_state(byte_at(image, at)).is_none() {
            return Some(at);
        }
    }
    None
}

/// The place of the first open vote of a region from a place on.
fn first_open(image: &[u8], region: u32, from: u32) -> Option<u32> {
    for k in 0..REGION_LEN as u32 {
        let at = region.saturating_add(k);
        if at >= from && vote_state(byte_at(image, at)) == Some(Vote::Open) {
            return Some(at);
        }
    }
    None
}

/// How many votes of a region are unused.
fn unused(image: &[u8], region: u32) -> u32 {
    let mut count = 0u32;
    for k in 0..REGION_LEN as u32 {
        if vote_state(byte_at(image, region.saturating_add(k))) == Some(Vote::Unused) {
            count = count.saturating_add(1);
        }
    }
    count
}

/// The first open vote of a region, or where the region begins.
fn open_vote(image: &[u8], region: Region) -> u32 {
    first_open(image, region.place(), region.place()).unwrap_or(region.place())
}

/// Whether a journal is believed: not both others hold an open vote for its erase.
fn is_believed(image: &[u8], journal: JournalId) -> bool {
    let (one, other) = (journal.first_votes(), journal.second_votes());
    first_open(image, one, one).is_none() || first_open(image, other, other).is_none()
}

/// The place of the first open vote for the erase of a journal that a believed one holds.
fn named_at(image: &[u8], journal: JournalId) -> u32 {
    let first = Region {
        journal,
        first: true,
    };
    let at = first.place();
    if is_believed(image, first.by()) && first_open(image, at, at).is_some() {
        return open_vote(image, first);
    }
    open_vote(
        image,
        Region {
            journal,
            first: false,
        },
    )
}

/// The place of the first entry that is open for another block than this one, or of the last entry.
fn open_entry(image: &[u8], but: u16) -> u32 {
    let blocks = (image.len() / BLOCK_LEN as usize).min(4_096) as u16;
    for entry in 0..ENTRIES {
        let at = entry_place(entry);
        let bytes = [
            byte_at(image, at),
            byte_at(image, at.saturating_add(1)),
            byte_at(image, at.saturating_add(2)),
            byte_at(image, at.saturating_add(3)),
        ];
        if let Entry::Open(block) = entry_state(bytes, blocks) {
            if block != but {
                return at;
            }
        }
    }
    0x1FFC
}

/// The block that the entry at a place names.
fn named_block(image: &[u8], at: u32) -> u16 {
    let low = byte_at(image, at.saturating_add(1));
    let high = byte_at(image, at.saturating_add(2));
    low as u16 + 256 * high as u16
}

/// Both votes for the erase of a journal.
fn write_doomed<W: fmt::Write>(
    f: &mut fmt::Formatter<W>,
    image: &[u8],
    journal: JournalId,
) -> fmt::Result {
    let one = Region {
        journal,
        first: true,
    };
    let other = Region {
        journal,
        first: false,
    };
    let (one, other) = (open_vote(image, one), open_vote(image, other));
    let of = number_of(journal);
    write!(f, "FE at {one:X}h and at {other:X}h for the erase of J{of}")
}

/// Where more than one vote of a region is open.
fn write_many<W: fmt::Write>(
    f: &mut fmt::Formatter<W>,
    image: &[u8],
    region: Region,
) -> fmt::Result {
    let place = region.place();
    let one = open_vote(image, region);
    let other = first_open(image, place, one.saturating_add(1)).unwrap_or(place);
    write!(
        f,
        "{region}: FE at {one:X}h and at {other:X}h; one vote is open at a time"
    )
}

/// Where a byte of a region is no vote.
fn write_wrong<W: fmt::Write>(
    f: &mut fmt::Formatter<W>,
    image: &[u8],
    region: Region,
) -> fmt::Result {
    let at = first_wrong(image, region.place()).unwrap_or(region.place());
    let found = byte_at(image, at);
    write!(
        f,
        "{region}: {found:02X} at {at:X}h; a vote is FF, FE or FC"
    )
}

/// The six regions.
const REGIONS: [(JournalId, bool); 6] = [
    (JournalId::J0, true),
    (JournalId::J0, false),
    (JournalId::J1, true),
    (JournalId::J1, false),
    (JournalId::J2, true),
    (JournalId::J2, false),
];

/// The region that has the fewest unused votes; those of a doomed journal don't count, since they
/// are erased with it.
fn write_fewest<W: fmt::Write>(f: &mut fmt::Formatter<W>, image: &[u8]) -> fmt::Result {
    let mut fewest = Region {
        journal: JournalId::J0,
        first: true,
    };
    let mut least = u32::MAX;
    for (journal, first) in REGIONS {
        let region = Region { journal, first };
        let count = unused(image, region.place());
        if count < least && is_believed(image, region.by()) {
            least = count;
            fewest = region;
        }
    }
    write!(
        f,
        "{fewest}: {least} of 1024 are unused; maintenance could take the last vote of a region"
    )
}

/// Entries of J0 that may not both be open.
fn write_entries<W: fmt::Write>(f: &mut fmt::Formatter<W>, image: &[u8]) -> fmt::Result {
    let at = open_entry(image, 0);
    let other = open_entry(image, named_block(image, at));
    let one = Four { image, at };
    let two = Four { image, at: other };
    write!(
        f,
        "the entries of J0 {one} at {at:X}h and {two} at {other:X}h are open; one block is erased at a time"
    )
}

/// Why journals are corrupt.
pub(crate) fn write_journals<W: fmt::Write>(
    f: &mut fmt::Formatter<W>,
    image: &[u8],
    fault: JournalFault,
) -> fmt::Result {
    match fault {
        JournalFault::TwoDoomed { journal } => {
            write_doomed(f, image, journal)?;
            f.write_str(", ")?;
            write_doomed(f, image, next(journal))?;
            f.write_str("; one journal is erased at a time")
        }
        JournalFault::WrongVotes { journal, first } => {
            write_wrong(f, image, Region { journal, first })
        }
        JournalFault::ManyVotes { journal, first } => {
            write_many(f, image, Region { journal, first })
        }
        JournalFault::TwoNamed { journal } => {
            let (one, other) = (named_at(image, journal), named_at(image, next(journal)));
            let (a, b) = (number_of(journal), number_of(next(journal)));
            write!(
                f,
                "FE at {one:X}h for the erase of J{a}, FE at {other:X}h for that of J{b}; one journal is erased at a time"
            )
        }
        JournalFault::ManyEntries => write_entries(f, image),
        JournalFault::EntryBesideVote { journal } => {
            let at = open_entry(image, 0);
            let entry = Four { image, at };
            let (vote, of) = (named_at(image, journal), number_of(journal));
            write!(
                f,
                "the entry of J0 {entry} at {at:X}h is open beside FE at {vote:X}h for the erase of J{of}; one of them is open at a time"
            )
        }
        JournalFault::NoVotesLeft => write_fewest(f, image),
    }
}
