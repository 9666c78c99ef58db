//! What is measured through a station and through a connection.

ghost use Rattle.std.specs.Prelude.{◌≡◌, ◌+◌, ◌*◌, ◌%◌, ◌<◌, ◌≤◌, [], ◌∷◌};

/// How many bytes a command moves.
#[derive(Clone, Copy)]
pub enum Length {
    /// One sector: 512 bytes.
    Sector,
    /// The longest that the server takes: 65,536 bytes.
    Longest,
}

impl Length {
    /// The length in bytes.
    pub fn bytes(self) -> u32
        ensures sector { self ≡ Length.Sector → result ≡ 512 }
        ensures longest { self ≡ Length.Longest → result ≡ 65536 }
        ensures some { 0 < result }
    {
        match self {
            Length::Sector => 512,
            Length::Longest => 65_536,
        }
    }
}

/// Commands of one connection, end to end: through a station those of 65,536 bytes, each in an
/// event of its own; through `worker` all.
#[derive(Clone, Copy)]
pub enum Case {
    /// READs of 512 bytes of an array in memory.
    PlainReadSector,
    /// WRITEs of 512 bytes to it.
    PlainWriteSector,
    /// READs of 65,536 bytes of it.
    PlainReadLongest,
    /// WRITEs of 65,536 bytes to it.
    PlainWriteLongest,
    /// READs of 512 bytes of the disk on a formatted chip, after WRITEs of these sectors.
    FlashReadSector,
    /// WRITEs of 512 bytes to that disk, of each sector for the first time.
    FlashWriteSector,
    /// READs of 65,536 bytes of it, after WRITEs of these sectors.
    FlashReadLongest,
    /// WRITEs of 65,536 bytes to it, of each sector for the first time.
    FlashWriteLongest,
}

impl Case {
    /// Each case, in the order of the table.
    pub fn all() -> [Case; 8]
        ensures { result ≡ Case.PlainReadSector ∷ Case.PlainWriteSector ∷ Case.PlainReadLongest
            ∷ Case.PlainWriteLongest
            ∷ Case.FlashReadSector ∷ Case.FlashWriteSector ∷ Case.FlashReadLongest
            ∷ Case.FlashWriteLongest ∷ [] }
    {
        [
            Case::PlainReadSector,
            Case::PlainWriteSector,
            Case::PlainReadLongest,
            Case::PlainWriteLongest,
            Case::FlashReadSector,
            Case::FlashWriteSector,
            Case::FlashReadLongest,
            Case::FlashWriteLongest,
        ]
    }

    /// Those that a station is measured with.
    pub fn longest() -> [Case; 4]
        ensures { result ≡ Case.PlainWriteLongest ∷ Case.PlainReadLongest ∷ Case.FlashWriteLongest
            ∷ Case.FlashReadLongest ∷ [] }
    {
        [
            Case::PlainWriteLongest,
            Case::PlainReadLongest,
            Case::FlashWriteLongest,
            Case::FlashReadLongest,
        ]
    }

    /// The text of the case in the table.
    pub fn name(self) -> &'static str {
        match self {
            Case::PlainReadSector => "READ of 512 bytes, array",
            Case::PlainWriteSector => "WRITE of 512 bytes, array",
            Case::PlainReadLongest => "READ of 64 KiB, array",
            Case::PlainWriteLongest => "WRITE of 64 KiB, array",
            Case::FlashReadSector => "READ of 512 bytes, flash",
            Case::FlashWriteSector => "first WRITE of 512 bytes, flash",
            Case::FlashReadLongest => "READ of 64 KiB, flash",
            Case::FlashWriteLongest => "first WRITE of 64 KiB, flash",
        }
    }

    /// Whether the disk is that of a chip.
    pub fn is_on_flash(self) -> bool {
        match self {
            Case::PlainReadSector => false,
            Case::PlainWriteSector => false,
            Case::PlainReadLongest => false,
            Case::PlainWriteLongest => false,
            Case::FlashReadSector => true,
            Case::FlashWriteSector => true,
            Case::FlashReadLongest => true,
            Case::FlashWriteLongest => true,
        }
    }

    /// Whether the commands are READs.
    pub fn is_read(self) -> bool {
        match self {
            Case::PlainReadSector => true,
            Case::PlainWriteSector => false,
            Case::PlainReadLongest => true,
            Case::PlainWriteLongest => false,
            Case::FlashReadSector => true,
            Case::FlashWriteSector => false,
            Case::FlashReadLongest => true,
            Case::FlashWriteLongest => false,
        }
    }

    /// How many bytes each command moves.
    pub fn length(self) -> Length {
        match self {
            Case::PlainReadSector => Length::Sector,
            Case::PlainWriteSector => Length::Sector,
            Case::PlainReadLongest => Length::Longest,
            Case::PlainWriteLongest => Length::Longest,
            Case::FlashReadSector => Length::Sector,
            Case::FlashWriteSector => Length::Sector,
            Case::FlashReadLongest => Length::Longest,
            Case::FlashWriteLongest => Length::Longest,
        }
    }

    /// How many commands are timed in one go. Those of the chip lie end to end on its disk, once.
    pub fn commands(self) -> u32
        ensures some { 0 < result }
    {
        match self {
            Case::PlainReadSector => 20_000,
            Case::PlainWriteSector => 20_000,
            Case::PlainReadLongest => 2_000,
            Case::PlainWriteLongest => 2_000,
            Case::FlashReadSector => 20_000,
            Case::FlashWriteSector => 20_000,
            Case::FlashReadLongest => 195,
            Case::FlashWriteLongest => 195,
        }
    }
}

/// The offset of a command in bytes, its number counted from 0: end to end, and then from the first
/// again.
pub fn offset_of(number: u32, length: Length) -> u64
    ensures sector { length ≡ Length.Sector
        → (result ≡ number % 25060 * 512) × (result + 512 ≤ 12830720) }
    ensures longest { length ≡ Length.Longest
        → (result ≡ number % 195 * 65536) × (result + 65536 ≤ 12830720) }
{
    match length {
        Length::Sector => u64::from(number % 25_060) * 512,
        Length::Longest => u64::from(number % 195) * 65_536,
    }
}
