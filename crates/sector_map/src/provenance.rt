//! What is known of a chip before its mount, for contracts alone.

use std::marker::Brand;

/// What is known of a chip before a map or a disk is mounted from it: a name for contracts, of
/// which no value is made.
///
/// Whoever calls a function over a `P: Provenance` passes `Brand`, and picks what these are.
/// Source: own.
pub trait Provenance {
    ghost use Rattle.std.specs.Prelude.{Bool, ℕ};

    /// Whether the chip's free blocks were erased throughout, and nothing was in progress.
    ghost sound: { Bool };

    /// How many slow operations had been counted then, or fewer.
    ghost slows: { ℕ };

    /// Whether the chip was fit for a firm mount, and is mounted so.
    ghost firm: { Bool };

    /// How many losses of power had been counted then, where it is `firm`.
    ghost cuts: { ℕ };
}

impl Provenance for Brand {
    ghost use Rattle.std.specs.Prelude.{false};

    ghost sound = { false };

    ghost slows = { 0 };

    ghost firm = { false };

    ghost cuts = { 0 };
}
