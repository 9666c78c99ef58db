//! What is measured.

use test_kit::Workload;

/// How blocks are chosen.
#[derive(Clone, Copy, PartialEq, Eq)]
pub enum Policy {
    /// The lowest-numbered, as a mount leaves it.
    Lowest,
    /// So that all wear alike.
    Level,
}

impl Policy {
    /// Each policy, in the order of the table.
    pub fn all() -> [Policy; 2] {
        [Policy::Lowest, Policy::Level]
    }

    /// Its name in the table.
    pub fn name(self) -> &'static str {
        match self {
            Policy::Lowest => "Lowest",
            Policy::Level => "Level",
        }
    }
}

/// When blocks are tidied.
#[derive(Clone, Copy, PartialEq, Eq)]
pub enum Keeper {
    /// After each write, until nothing is left to tidy, of a disk that tidies lazily.
    Lazy,
    /// Once after each write.
    Eager,
    /// Never.
    Absent,
}

impl Keeper {
    /// Each keeper, in the order of the table.
    pub fn all() -> [Keeper; 3] {
        [Keeper::Lazy, Keeper::Eager, Keeper::Absent]
    }

    /// Its name in the table.
    pub fn name(self) -> &'static str {
        match self {
            Keeper::Lazy => "lazy",
            Keeper::Eager => "eager",
            Keeper::Absent => "none",
        }
    }
}

/// What the disk holds when the writes begin; what put it there isn't counted as writes.
#[derive(Clone, Copy, PartialEq, Eq)]
pub enum Start {
    /// Nothing.
    Empty,
    /// Each sector was written once.
    Full,
    /// And four of seven once more, as far as no block had to be copied: blocks with three live and
    /// four dead slots, which rest.
    Mixed,
    /// Each sector is in a live block of its group, as layout 1 left it.
    Groups,
}

impl Start {
    /// Each start, in the order of the table.
    pub fn all() -> [Start; 4] {
        [Start::Empty, Start::Full, Start::Mixed, Start::Groups]
    }

    /// Its name in the table.
    pub fn name(self) -> &'static str {
        match self {
            Start::Empty => "empty",
            Start::Full => "full",
            Start::Mixed => "mixed",
            Start::Groups => "groups",
        }
    }
}

/// The text of a workload in the table.
pub fn workload_name(workload: Workload) -> &'static str {
    match workload {
        Workload::OneHot => "one hot",
        Workload::TenHot => "ten hot",
        Workload::Uniform => "uniform",
        Workload::Skewed => "80 on 20",
    }
}

/// The runs of a table: on which chip, and how long.
#[derive(Clone, Copy)]
pub struct Table {
    /// The chip's size in KiB: a multiple of 64, at most 16,384.
    pub kib: u32,
    /// The erases of a block, on average, after which a run ends.
    pub erases: u32,
    /// After so many writes the disk is mounted anew; 0: never.
    pub mount: u32,
}

impl Table {
    /// The chip's blocks of 4 KiB.
    pub fn blocks(self) -> u32 {
        self.kib / 4
    }

    /// Those that have slots: all but the superblock and the journals.
    pub fn worn_blocks(self) -> u32 {
        self.blocks().saturating_sub(4)
    }
}

/// A run.
#[derive(Clone, Copy)]
pub struct Plan {
    pub table: Table,
    pub workload: Workload,
    pub start: Start,
    pub policy: Policy,
    pub keeper: Keeper,
}
