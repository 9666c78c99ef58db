//! The law of a read-only export.

ghost use Rattle.std.specs.Prelude.{◌≡◌, ℕ, List, true};
ghost use Rattle.nbd_wire.specs.declared.export.Export.{Export};
ghost use Rattle.nbd_transmission.specs.Apply.{after_units};

/// Whatever is sent to a read-only export, the contents of its disk stay as they are.
pub fn read_only_law()
    ensures { (export : Export) (contents : List ℕ) (units : List (List ℕ))
        → export.read_only ≡ true → after_units export contents units ≡ contents }
{}
