//! The phases of a connection, and the law on how its text is cut.

ghost use Rattle.nbd_wire.specs.declared.phase.Phase.{Phase};
ghost use Rattle.nbd_wire.specs.Units.{IsOneCutting};

/// Where a connection stands. Source: NBD proto.md.
#[derive(Clone, Copy, PartialEq, Eq, Debug)]
pub enum Phase {
    /// The client's flags come next.
    AwaitingFlags,
    /// An option comes next; whether the client set NO_ZEROES.
    Negotiating(bool),
    /// A request comes next.
    Transmitting,
    /// Nothing is read any more.
    Closed,
}

/// Each text of a connection is cut into units in exactly one way, and more bytes only add units.
pub fn one_cutting()
    ensures { (phase : Phase) → IsOneCutting phase }
{}
