//! A law of what the host's power leaves, with no work at run time.

ghost use Rattle.disk_log.specs.Power.{SurvivorsHold};

/// A loss of the host's power leaves an image and its log as a kill at an earlier moment does, and
/// no earlier than the last sync of the log, if no bytes have the sum of a record by chance.
pub fn survivors_hold()
    ensures { SurvivorsHold }
{}
