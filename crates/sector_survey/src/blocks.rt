//! The kinds of the blocks: what copyings were cut, or the first block for which they are corrupt.

ghost use Rattle.std.specs.Prelude.{◌≡◌, ◌<◌, ◌≤◌, ◌+◌, Some, true, false, IfOk, IfErr};
ghost use Rattle.erase_journal.specs.Steps.{EndsFirmly};
ghost use Rattle.sector_slots.specs.Sectors.{HasSlotsAlone};
ghost use Rattle.sector_map.specs.Found.{FoundIn, noted_where};
ghost use Rattle.sector_map.specs.Marking.{may_have_groups};
ghost use Rattle.sector_survey.specs.Findings.{Explains};
ghost use Rattle.sector_survey.specs.Steps.{HasNoCopy, IsKindFault};

use crate::Finding;
use nor_driver::NorError;
use nor_layout::{FIRST_DATA_BLOCK, Kind};
use sector_map::{Found, note_void};
use sector_slots::SlotCalls;

/// Reads the kinds of all blocks: the copyings that were cut, or the first block for which they are
/// corrupt; also where one is of a group and none may be.
#[tactic(auto, using(erase_journal::proofs::Calls::repeated_calls))]
pub fn read_kinds<S: SlotCalls>(
    slots: &mut S,
    groups: bool,
) -> Result<Result<Found, Finding>, NorError>
    requires groups { groups ≡ may_have_groups (S.state slots.old).memory }
    ensures found { IfOk result (λ says. IfOk says (λ found.
        FoundIn found (S.state slots.old).memory)) }
    ensures alone { IfOk result (λ says. IfOk says (λ _. groups ≡ false
        → HasSlotsAlone (S.state slots.old).memory)) }
    ensures fault { IfOk result (λ says. IfErr says (λ fault.
        Explains fault (S.state slots.old).memory)) }
    ensures same { (S.state slots.new).memory ≡ (S.state slots.old).memory }
    ensures ends { EndsFirmly result (S.state slots.old) (S.state slots.new) }
{
    let count = slots.blocks();
    let mut found = Found::AtRest;
    for block in 0..count {
        let kind = slots.kind(block)?;
        match note_block(found, block, kind, count, groups) {
            Ok(now) => found = now,
            Err(fault) => return Ok(Err(fault)),
        }
    }
    Ok(Ok(found))
}

/// What is found once a block of this kind is read, of `count` blocks; or why it is refused.
fn note_block(
    found: Found,
    block: u16,
    kind: Kind,
    count: u16,
    groups: bool,
) -> Result<Found, Finding>
    requires few { count ≤ 4092 }
    requires number { block ≤ 4092 }
    ensures ok { IfOk result (λ now. noted_where groups found block kind count ≡ Some now) }
    ensures fault { IfErr result (λ fault. IsKindFault fault groups found block kind count) }
{
    match kind {
        Kind::Plain => Ok(found),
        Kind::Settled => Ok(found),
        Kind::Group(_) => note_group(found, block, groups),
        Kind::DeadGroup => note_group(found, block, groups),
        Kind::SpoiltGroup => note_group(found, block, groups),
        Kind::Unknown => Err(Finding::UnknownBlock { block }),
        Kind::Void => Ok(note_void(found, block)),
        Kind::Committed(source) => match found {
            Found::AtRest => note_source(found, block, source, count),
            Found::Void(_) => note_source(found, block, source, count),
            Found::Committed(_, first) => Err(Finding::TwoCopyings {
                first,
                second: block,
            }),
        },
    }
}

/// What is found once a block of a group is read.
fn note_group(found: Found, block: u16, groups: bool) -> Result<Found, Finding>
    ensures ok { IfOk result (λ now. (now ≡ found) × (groups ≡ true)) }
    ensures fault { IfErr result (λ fault.
        (fault ≡ Finding.GroupOnSlots block) × (groups ≡ false)) }
{
    if groups {
        Ok(found)
    } else {
        Err(Finding::GroupOnSlots { block })
    }
}

/// What is found once the committed copy of a block is read, where none was found before.
fn note_source(found: Found, block: u16, source: u16, count: u16) -> Result<Found, Finding>
    requires first { HasNoCopy found }
    requires few { count ≤ 4092 }
    requires number { block ≤ 4092 }
    ensures ok { IfOk result (λ now. noted_where true found block (Kind.Committed source) count
        ≡ Some now) }
    ensures fault { IfErr result (λ fault. IsKindFault fault true found block
        (Kind.Committed source) count) }
{
    if source >= FIRST_DATA_BLOCK && source <= count + 3 && source != block + FIRST_DATA_BLOCK {
        Ok(Found::Committed(source - FIRST_DATA_BLOCK, block))
    } else {
        Err(Finding::WrongSource { block, source })
    }
}
