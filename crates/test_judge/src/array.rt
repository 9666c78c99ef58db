//! The plain array of 70 sectors: it knows that a sector of an interrupted WRITE is old or new
//! until it is read, and the same from then on.

ghost use Rattle.std.specs.Prelude.{◌≡◌, ◌↔◌, All, IsTrue};

/// A sector: the value of all its bytes when it was last known, and a bit for each value that they
/// may all have now.
#[derive(Clone, Copy)]
struct Sector {
    known: u8,
    values: [u64; 4],
}

impl Sector {
    /// A sector that is known.
    fn holding(value: u8) -> Sector {
        let mut sector = Sector {
            known: value,
            values: [0; 4],
        };
        sector.add(value);
        sector
    }

    /// It may have this value, too.
    fn add(&mut self, value: u8) {
        self.values[(value / 64) as usize] |= 1 << (value % 64);
    }

    /// Whether it may have this value.
    fn may_be(&self, value: u8) -> bool {
        self.values[(value / 64) as usize] >> (value % 64) & 1 == 1
    }

    /// Whether it has one of several values.
    fn is_open(&self) -> bool {
        let known = Sector::holding(self.known);
        self.values != known.values
    }
}

/// What a judge has seen.
#[derive(Clone, Copy, Debug)]
pub struct Seen {
    /// The requests that were answered.
    pub replies: u32,
    /// The losses of power.
    pub losses: u32,
    /// Those of them that came in a restore.
    pub lost_restores: u32,
    /// The sectors of interrupted WRITEs that were read as they had been.
    pub olds: u32,
    /// Those that were read as they were to be.
    pub news: u32,
}

impl Seen {
    pub fn nothing() -> Seen {
        Seen {
            replies: 0,
            losses: 0,
            lost_restores: 0,
            olds: 0,
            news: 0,
        }
    }

    /// Adds what another judge has seen.
    pub fn add(&mut self, other: Seen) {
        self.replies = self.replies.wrapping_add(other.replies);
        self.losses = self.losses.wrapping_add(other.losses);
        self.lost_restores = self.lost_restores.wrapping_add(other.lost_restores);
        self.olds = self.olds.wrapping_add(other.olds);
        self.news = self.news.wrapping_add(other.news);
    }
}

/// Why a transcript is wrong.
#[derive(Clone, Copy, Debug)]
pub enum Wrong {
    /// An event is answered otherwise than by the array.
    Answer,
    /// A sector is read that is neither what it was nor what it was to be.
    Sector,
    /// The power was lost where that was not armed, or in an event that touches no chip.
    Loss,
}

/// Whether each byte is this one.
pub fn consists_of(bytes: &[u8], value: u8) -> bool
    ensures { IsTrue result ↔ All (λ byte. byte ≡ value) bytes.now }
{
    bytes.iter().all(|byte| *byte == value)
}

/// The sectors of a disk.
#[derive(Clone, Copy)]
pub struct Array {
    sectors: [Sector; 70],
}

impl Array {
    /// All sectors are zeros.
    pub fn zeros() -> Array {
        Array {
            sectors: [Sector::holding(0); 70],
        }
    }

    /// Sectors were written, with a value of each of their bytes; where that was interrupted, each
    /// of them perhaps.
    pub fn write(&mut self, first: u32, count: u32, value: u8, is_whole: bool) {
        for k in 0..70u32 {
            if k >= first && k - first < count {
                let sector = &mut self.sectors[k as usize];
                if is_whole {
                    *sector = Sector::holding(value);
                }
                sector.add(value);
            }
        }
    }

    /// Compares sectors from one on with what was read. What these hold is known then.
    pub fn find(&mut self, first: u32, data: &[u8], seen: &mut Seen) -> Result<(), Wrong> {
        let mut k = first as usize;
        for bytes in data.chunks(512) {
            let (Some(sector), Some(value)) = (self.sectors.get_mut(k), bytes.first()) else {
                return Err(Wrong::Sector);
            };
            let value = *value;
            if !consists_of(bytes, value) || !sector.may_be(value) {
                return Err(Wrong::Sector);
            }
            let is_old = value == sector.known;
            if sector.is_open() && is_old {
                seen.olds = seen.olds.wrapping_add(1);
            }
            if sector.is_open() && !is_old {
                seen.news = seen.news.wrapping_add(1);
            }
            *sector = Sector::holding(value);
            k = k.saturating_add(1);
        }
        Ok(())
    }
}
