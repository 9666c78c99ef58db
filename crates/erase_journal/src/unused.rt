//! How many votes and entries are left.

ghost use Rattle.std.specs.Prelude.{◌≡◌, ◌↔◌, IsTrue};
ghost use Rattle.erase_journal.specs.Votes.{Last, IsRested, IsTiredAnswer, HasSome, Needs0, Needs1};
ghost use Rattle.erase_journal.specs.Votes.{renewed, first_spent, second_spent};
ghost use Rattle.erase_journal.specs.Spending.{once_used};

use nor_layout::{ENTRIES, JournalId, VOTES};

/// The unused votes of each journal for the erase of each other, and J0's free entries.
#[derive(Clone, Copy, Debug, PartialEq, Eq, Drop)]
pub struct Unused {
    pub j0_for_1: u16,
    pub j0_for_2: u16,
    pub j1_for_0: u16,
    pub j1_for_2: u16,
    pub j2_for_0: u16,
    pub j2_for_1: u16,
    pub free: u16,
}

/// Whether each region has an unused vote.
fn has_some(u: Unused) -> bool
    ensures { IsTrue result ↔ HasSome u }
{
    u.j0_for_1 >= 1
        && u.j0_for_2 >= 1
        && u.j1_for_0 >= 1
        && u.j1_for_2 >= 1
        && u.j2_for_0 >= 1
        && u.j2_for_1 >= 1
}

/// Whether J0 isn't tired: each of its regions has four unused votes, and an entry is free.
fn is_rested0(u: Unused) -> bool
    ensures { IsTrue result ↔ IsRested JournalId.J0 u }
{
    u.j0_for_1 >= 4 && u.j0_for_2 >= 4 && u.free >= 1
}

/// Whether J1 isn't tired: each of its regions has four unused votes.
fn is_rested1(u: Unused) -> bool
    ensures { IsTrue result ↔ IsRested JournalId.J1 u }
{
    u.j1_for_2 >= 4 && u.j1_for_0 >= 4
}

/// Whether a region is used up unless J0 is rested (docs/JOURNAL.md, on votes that last).
fn needs0(u: Unused) -> bool
    ensures { IsTrue result ↔ Needs0 u }
{
    u.j1_for_0 == 1 || u.j2_for_0 == 1 || (u.j2_for_1 == 1 && u.j1_for_0 == 4)
}

/// The same of J1.
fn needs1(u: Unused) -> bool
    ensures { IsTrue result ↔ Needs1 u }
{
    u.j2_for_1 == 1 || (u.j2_for_0 == 1 && u.j0_for_1 == 4)
}

/// Whether no run of maintenance uses up a region.
pub(crate) fn lasts(u: Unused) -> bool
    ensures yes { IsTrue result → Last u }
    ensures no { Last u → IsTrue result }
{
    let some = has_some(u);
    let j0 = is_rested0(u) || !needs0(u);
    let j1 = is_rested1(u) || !needs1(u);
    some && j0 && j1
}

/// The lowest-numbered tired journal.
pub(crate) fn lowest_tired(u: Unused) -> Option<JournalId>
    ensures { IsTiredAnswer u result }
{
    if u.j0_for_1 < 4 || u.j0_for_2 < 4 || u.free == 0 {
        Some(JournalId::J0)
    } else if u.j1_for_2 < 4 || u.j1_for_0 < 4 {
        Some(JournalId::J1)
    } else if u.j2_for_0 < 4 || u.j2_for_1 < 4 {
        Some(JournalId::J2)
    } else {
        None
    }
}

/// The numbers once a journal is blank.
pub(crate) fn once_renewed(u: Unused, journal: JournalId) -> Unused
    ensures { result ≡ renewed journal u }
{
    match journal {
        JournalId::J0 => Unused {
            j0_for_1: VOTES,
            j0_for_2: VOTES,
            free: ENTRIES,
            ..u
        },
        JournalId::J1 => Unused {
            j1_for_0: VOTES,
            j1_for_2: VOTES,
            ..u
        },
        JournalId::J2 => Unused {
            j2_for_0: VOTES,
            j2_for_1: VOTES,
            ..u
        },
    }
}

/// The numbers once the next journal spent a vote for the erase of this one.
pub(crate) fn once_first_spent(u: Unused, journal: JournalId) -> Unused
    ensures { result ≡ first_spent journal u }
{
    match journal {
        JournalId::J0 => Unused {
            j1_for_0: u.j1_for_0.saturating_sub(1),
            ..u
        },
        JournalId::J1 => Unused {
            j2_for_1: u.j2_for_1.saturating_sub(1),
            ..u
        },
        JournalId::J2 => Unused {
            j0_for_2: u.j0_for_2.saturating_sub(1),
            ..u
        },
    }
}

/// The numbers once the journal after the next spent a vote for the erase of this one.
pub(crate) fn once_second_spent(u: Unused, journal: JournalId) -> Unused
    ensures { result ≡ second_spent journal u }
{
    match journal {
        JournalId::J0 => Unused {
            j2_for_0: u.j2_for_0.saturating_sub(1),
            ..u
        },
        JournalId::J1 => Unused {
            j0_for_1: u.j0_for_1.saturating_sub(1),
            ..u
        },
        JournalId::J2 => Unused {
            j1_for_2: u.j1_for_2.saturating_sub(1),
            ..u
        },
    }
}

/// The numbers once an entry is used.
pub(crate) fn once_taken(u: Unused) -> Unused
    ensures { result ≡ once_used u }
{
    Unused {
        free: u.free.saturating_sub(1),
        ..u
    }
}
