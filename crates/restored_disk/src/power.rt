//! The power of a chip, which goes and comes again.

ghost use Rattle.std.specs.Prelude.{◌≡◌, length, true};
ghost use Rattle.chip_model.specs.Chip.{is_idle};
ghost use Rattle.restored_disk.specs.Lives.{IsNextLife};

use chip_model::SpiBus;
use http_server::Log;

/// A bus whose chip has one life after another: each ends with the first loss of power, and at the
/// power-on that begins the next one its weak bits are drawn anew. Within a life they are steady.
/// Source: own.
pub trait PowerCycle: SpiBus {
    ghost use Rattle.std.specs.Prelude.{ℕ};
    ghost use Rattle.chip_model.specs.Wavering.{Bits};
    ghost use Rattle.restored_disk.specs.Lives.{Draw};

    /// What the weak bits read as at the power-on behind a life, by how many lives came before that
    /// one: of each life any function of the bits.
    ghost draw: { ℕ → (b : Bits) → Draw b };

    /// The bus in the next life of a chip on which nothing is in progress, in which losses of power
    /// are counted from 0. `ended` has the bus at the end of each life before this one. `power_on`
    /// is still to turn the power on.
    fn power_cycle(self, ended: &Log<Self, ()>) -> Self
        ensures next { is_idle (Self.chip self).operation ≡ true
            → IsNextLife (Self.draw (length ended.now.items)) (Self.chip self)
            (Self.chip result) }
        ensures cuts { Self.cuts result ≡ 0 }
        ensures slows { Self.slows result ≡ Self.slows self };
}
