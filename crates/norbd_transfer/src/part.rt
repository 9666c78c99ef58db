//! A part of a disk, as a text says it.

ghost use Rattle.std.specs.Prelude.{◌≡◌, ◌<◌, ◌≤◌, IfSome, None, Some};
ghost use Rattle.norbd_transfer.specs.Parts.{IsPartOf};

/// Some sectors of a disk, from `first` on and before `end`, counted from 0.
#[derive(Clone, Copy, Debug, PartialEq, Eq, Drop)]
pub struct Part {
    pub first: u32,
    pub end: u32,
}

/// The part of a disk of so many sectors that a text writes, `A:B` with A below B; without a text
/// the whole disk. None where the text is no such part, or the part doesn't lie on the disk.
pub fn range_in(text: Option<&str>, sectors: u32) -> Option<Part>
    requires some { 0 < sectors }
    ensures part { IfSome result (λ part. IsPartOf part sectors) }
    ensures whole { text.entry ≡ None → result ≡ Some (record { first = 0; end = sectors }) }
{
    let Some(text) = text else {
        return Some(Part {
            first: 0,
            end: sectors,
        });
    };
    let (from, to) = text.split_once(':')?;
    let Ok(first) = from.parse::<u32>() else {
        return None;
    };
    let Ok(end) = to.parse::<u32>() else {
        return None;
    };
    if first < end && end <= sectors {
        Some(Part { first, end })
    } else {
        None
    }
}
