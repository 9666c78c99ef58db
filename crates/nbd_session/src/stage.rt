//! Which parser has a connection's bytes.

/// How far a connection has come.
#[derive(Clone, Copy, PartialEq, Eq, Debug)]
pub(crate) enum Stage {
    /// The client's flags and options come.
    Negotiating,
    /// Requests come.
    Requesting,
    /// Nothing is read any more.
    Ended,
}
