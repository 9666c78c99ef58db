//! Opens or gives up the lowest unused vote of a region, and closes the lowest open one.

ghost use Rattle.std.specs.Prelude.{◌≡◌, ◌+◌, ◌<◌, ◌≤◌, ◌^◌, length, OnOk, IfOk};
ghost use Rattle.std.specs.Result.{IsErrOf};
ghost use Rattle.nor_driver.specs.State.{bits_in, EndsReady};
ghost use Rattle.nor_layout.specs.Votes.{byte_of};
ghost use Rattle.erase_journal.specs.Journals.{votes_at};
ghost use Rattle.erase_journal.specs.Scans.{IsFound};
ghost use Rattle.erase_journal.specs.Steps.{OneChanged, PerhapsChanged, VoteInterrupted};
ghost use Rattle.erase_journal.specs.Torn.{SameData};

use crate::scan::lowest;
use nor_driver::{Nor, NorError};
use nor_layout::{JOURNALS_END, REGION_LEN, Vote, vote_byte};

/// The lowest place in a region of a vote of this kind.
fn find_vote<N: Nor>(nor: &mut N, region: u32, vote: Vote) -> Result<Option<u32>, NorError>
    requires { region + REGION_LEN ≤ length (N.state nor.old).memory }
    ensures found { IfOk result (λ found.
        IsFound (N.state nor.old).memory region (byte_of vote) found) }
    ensures same { (N.state nor.new).memory ≡ (N.state nor.old).memory }
    ensures weak { (N.state nor.new).weak ≡ (N.state nor.old).weak }
    ensures ends { EndsReady result (N.state nor.old) (N.state nor.new) }
{
    let mut votes = [0; REGION_LEN];
    nor.read(region, &mut votes)?;
    Ok(lowest(&votes, vote_byte(vote)))
}

/// Opens the lowest unused vote of a region.
pub(crate) fn open_vote<N: Nor>(nor: &mut N, region: u32) -> Result<(), NorError>
    requires range { region + REGION_LEN ≤ length (N.state nor.old).memory }
    requires fits { region < 2 ^ 24 }
    requires some { 0 < (votes_at (N.state nor.old).memory region).unused }
    ensures ok { OnOk result (OneChanged region 255 254 (N.state nor.old).memory
        (N.state nor.new).memory) }
    ensures cut { IsErrOf result NorError.Cut
        → PerhapsChanged region 255 254 (N.state nor.old).memory (N.state nor.new).memory }
    ensures cut_bits { IsErrOf result NorError.Cut → VoteInterrupted region 255 254
        (bits_in (N.state nor.old)) (bits_in (N.state nor.new)) }
    ensures data { region + REGION_LEN ≤ JOURNALS_END → SameData (bits_in (N.state nor.old))
        (bits_in (N.state nor.new)) }
    ensures size { length (N.state nor.new).memory ≡ length (N.state nor.old).memory }
    ensures ends { EndsReady result (N.state nor.old) (N.state nor.new) }
{
    let found = find_vote(nor, region, Vote::Unused)?;
    let Some(place) = found else { unreachable!() };
    nor.program(region + place, &[vote_byte(Vote::Open)])
}

/// Closes the open vote of a region.
pub(crate) fn close_vote<N: Nor>(nor: &mut N, region: u32) -> Result<(), NorError>
    requires range { region + REGION_LEN ≤ length (N.state nor.old).memory }
    requires fits { region < 2 ^ 24 }
    requires some { 0 < (votes_at (N.state nor.old).memory region).opened }
    ensures ok { OnOk result (OneChanged region 254 252 (N.state nor.old).memory
        (N.state nor.new).memory) }
    ensures cut { IsErrOf result NorError.Cut
        → PerhapsChanged region 254 252 (N.state nor.old).memory (N.state nor.new).memory }
    ensures cut_bits { IsErrOf result NorError.Cut → VoteInterrupted region 254 252
        (bits_in (N.state nor.old)) (bits_in (N.state nor.new)) }
    ensures data { region + REGION_LEN ≤ JOURNALS_END → SameData (bits_in (N.state nor.old))
        (bits_in (N.state nor.new)) }
    ensures size { length (N.state nor.new).memory ≡ length (N.state nor.old).memory }
    ensures ends { EndsReady result (N.state nor.old) (N.state nor.new) }
{
    let found = find_vote(nor, region, Vote::Open)?;
    let Some(place) = found else { unreachable!() };
    nor.program(region + place, &[vote_byte(Vote::Closed)])
}

/// Gives up the lowest unused vote of a region. Whatever its lowest bit reads later, it isn't open.
pub(crate) fn give_up_vote<N: Nor>(nor: &mut N, region: u32) -> Result<(), NorError>
    requires range { region + REGION_LEN ≤ length (N.state nor.old).memory }
    requires fits { region < 2 ^ 24 }
    requires some { 0 < (votes_at (N.state nor.old).memory region).unused }
    ensures ok { OnOk result (OneChanged region 255 253 (N.state nor.old).memory
        (N.state nor.new).memory) }
    ensures cut { IsErrOf result NorError.Cut
        → PerhapsChanged region 255 253 (N.state nor.old).memory (N.state nor.new).memory }
    ensures data { region + REGION_LEN ≤ JOURNALS_END → SameData (bits_in (N.state nor.old))
        (bits_in (N.state nor.new)) }
    ensures size { length (N.state nor.new).memory ≡ length (N.state nor.old).memory }
    ensures ends { EndsReady result (N.state nor.old) (N.state nor.new) }
{
    let found = find_vote(nor, region, Vote::Unused)?;
    let Some(place) = found else { unreachable!() };
    nor.program(region + place, &[vote_byte(Vote::GivenUp)])
}
