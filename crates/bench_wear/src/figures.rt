//! A row of the table.

ghost use Rattle.std.specs.Prelude.{◌≡◌, ◌*◌, ◌/◌, ◌<◌};

use crate::plan::{Plan, workload_name};
use std::fmt;

/// How often a block may be erased, as the datasheet promises.
const ENDURANCE: u64 = 100_000;

/// The typical time of a page's program and of the erase of 4 KiB, in microseconds. Source: the
/// W25Q128JV's datasheet. A program of fewer bytes counts as one of a page.
const PROGRAM: u64 = 400;

const ERASE: u64 = 45_000;

/// What a run came to.
#[derive(Clone, Copy)]
pub struct Figures {
    pub plan: Plan,
    /// The writes of a sector, those before the run not counted.
    pub writes: u32,
    /// The erases of all blocks that have slots, of the most worn of them, and of the least worn.
    pub erases: u32,
    pub most: u32,
    pub least: u32,
    /// The erases of the three journals, and of the most worn of them.
    pub of_journals: u32,
    pub most_of_journals: u32,
    /// The page programs of these writes.
    pub programs: u32,
}

/// A quotient in thousandths, rounded down; nothing counts as one.
pub fn thousandths(number: u64, of: u64) -> u64
    ensures { 0 < of → 1000 * number < 18446744073709551616 → result ≡ 1000 * number / of }
{
    number.saturating_mul(1_000) / of.max(1)
}

impl Figures {
    /// How many writes there are until the first block reached its endurance, if all go on so.
    fn life(self) -> u64 {
        let most = u64::from(self.most.max(self.most_of_journals));
        u64::from(self.writes).saturating_mul(ENDURANCE) / most.max(1)
    }

    /// The chip's time for a write, in microseconds.
    fn time(self) -> u64 {
        let erases = u64::from(self.erases).saturating_add(u64::from(self.of_journals));
        let programs = u64::from(self.programs).saturating_mul(PROGRAM);
        let all = programs.saturating_add(erases.saturating_mul(ERASE));
        all / u64::from(self.writes).max(1)
    }
}

/// Thousandths as a number with three places behind the point, eight wide at least.
#[derive(Clone, Copy)]
pub struct InWhole(pub u64);

impl fmt::Display for InWhole {
    fn fmt<W: fmt::Write>(&self, f: &mut fmt::Formatter<W>) -> fmt::Result {
        let (whole, part) = (self.0 / 1_000, self.0 % 1_000);
        write!(f, "{whole:>4}.{part:03}")
    }
}

/// What stands above the columns of the table.
pub const HEADING: &str =
    "workload  disk    policy  keeper  erases a write  most  least    mean  most/mean  journal  writes until 100,000 erases  ms a write";

impl fmt::Display for Figures {
    fn fmt<W: fmt::Write>(&self, f: &mut fmt::Formatter<W>) -> fmt::Result {
        let workload = workload_name(self.plan.workload);
        let disk = self.plan.start.name();
        let (policy, keeper) = (self.plan.policy.name(), self.plan.keeper.name());
        let blocks = u64::from(self.plan.table.worn_blocks());
        let (writes, erases) = (u64::from(self.writes), u64::from(self.erases));
        let each = InWhole(thousandths(erases, writes));
        let mean = InWhole(thousandths(erases, blocks));
        let ratio = InWhole(thousandths(u64::from(self.most).saturating_mul(blocks), erases));
        let (most, least) = (self.most, self.least);
        let (journal, life) = (self.most_of_journals, self.life());
        let time = InWhole(self.time());
        write!(f, "{workload:<8}  {disk:<6}  {policy:<6}  {keeper:<6}")?;
        write!(
            f,
            "  {each:>14}  {most:>4}  {least:>5}  {mean}   {ratio}  {journal:>7}"
        )?;
        write!(f, "  {life:>27}    {time}")
    }
}
