//! A law of chips of layout 1. A law is a function with an empty body, whose contract is the
//! theorem. No code calls it; docs/CLAIMS.md cites it.

ghost use Rattle.sector_map.specs.Laws.{GroupChipsAreMountable};

/// A chip that is healthy and clean as one of layout 1, in the words of that layout alone, is one
/// that a mount accepts, and clean as such.
pub fn group_chips_are_mountable()
    ensures { GroupChipsAreMountable }
{}
