//! The diagnosis of the blocks and slots behind recovered journals.

ghost use Rattle.std.specs.Prelude.{◌≡◌, ◌<◌, None, length, IfOk, IfSome};
ghost use Rattle.chip_model.specs.Geometry.{sector_count};
ghost use Rattle.erase_journal.specs.Steps.{EndsFirmly};
ghost use Rattle.sector_slots.specs.Sectors.{IsSoundMap};
ghost use Rattle.sector_map.specs.Marking.{may_have_groups};
ghost use Rattle.sector_survey.specs.Findings.{Explains};

use crate::Finding;
use crate::blocks::read_kinds;
use crate::pairs::find_mixed;
use crate::room::lacks_room;
use crate::table::read_slots;
use nor_driver::NorError;
use nor_layout::SUPER_LEN;
use sector_map::LiveSlots;
use sector_slots::SlotCalls;

/// Why the blocks and slots behind recovered journals are corrupt; None exactly where they are
/// sound. `table` has an entry for each sector, and holds any entries afterwards. Nothing of the
/// memory is changed.
pub fn diagnose<S: SlotCalls>(
    slots: &mut S,
    table: &mut [LiveSlots],
) -> Result<Option<Finding>, NorError>
    requires size { length table.old ≡ sector_count (length (S.state slots.old).memory) }
    ensures fault { IfOk result (λ says. IfSome says (λ fault.
        Explains fault (S.state slots.old).memory)) }
    ensures sound { IfOk result (λ says. says ≡ None → IsSoundMap (S.state slots.old).memory) }
    ensures size { length table.new ≡ length table.old }
    ensures same { (S.state slots.new).memory ≡ (S.state slots.old).memory }
    ensures ends { EndsFirmly result (S.state slots.old) (S.state slots.new) }
{
    let _blocks = slots.blocks();
    table.fill(LiveSlots::Absent);
    let groups = has_groups(slots)?;
    let found = match read_kinds(slots, groups)? {
        Ok(found) => found,
        Err(fault) => return Ok(Some(fault)),
    };
    if let Some(fault) = read_slots(slots, table, found)? {
        return Ok(Some(fault));
    }
    if let Some(fault) = find_mixed(slots, table)? {
        return Ok(Some(fault));
    }
    if lacks_room(slots, table, found)? {
        return Ok(Some(Finding::NoRoom));
    }
    Ok(None)
}

/// Whether a block may be of a group: the chip isn't of layout 2.
fn has_groups<S: SlotCalls>(slots: &mut S) -> Result<bool, NorError>
    ensures groups { IfOk result (λ groups. groups
        ≡ may_have_groups (S.state slots.old).memory) }
    ensures same { (S.state slots.new).memory ≡ (S.state slots.old).memory }
    ensures ends { EndsFirmly result (S.state slots.old) (S.state slots.new) }
{
    let mut head = [0; SUPER_LEN];
    slots.superblock(&mut head)?;
    Ok(says_groups(&head))
}

/// What these first bytes of a superblock say.
fn says_groups(head: &[u8]) -> bool
    requires size { length head.now ≡ SUPER_LEN }
    ensures groups { result ≡ may_have_groups head.now }
{
    head[8] != 2
}
