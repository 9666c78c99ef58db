//! Whether torn bits are taken to waver.

/// What is assumed of bits that a loss of power tore, in a program or an erase. Source: own.
#[derive(Clone, Copy, Debug, PartialEq, Eq, Drop)]
pub enum Firmness {
    /// They read the same at each power-on. A recovery programs only what ends the erase that was
    /// interrupted.
    Steady,
    /// They may read one way now and the other way at the next power-on, until they are programmed
    /// or their unit is erased. A recovery programs what it read again before it acts on it.
    Firm,
}
