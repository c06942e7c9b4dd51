// The count of a device's failures. Clauses read the count; it takes no bytes in the program, so it
// can rise without bound.
ghost use Rattle.std.specs.Prelude.{◌≡◌, ◌+◌};

use std::marker::Model;
use std::snapshot::Snapshot;

/// A count of failed calls, for the `failures` of a [`Disk`](crate::Disk) or of any other device.
#[derive(Drop)]
pub struct Failures {
    before: Option<Snapshot<Failures>>,
}

impl Model for Failures {
    ghost use Rattle.std.specs.Prelude.{ℕ};

    ghost Value = { ℕ };

    ghost use Rattle.boot_store.specs.Past.{counted};

    ghost view = { λ f. counted f.before };

    ghost size = { λ n. n };
}

impl Failures {
    /// Returns a count of 0.
    pub fn none() -> Self
        ensures { result ≡ 0 }
    {
        Failures { before: None }
    }

    /// Adds one to the count.
    pub fn count(&mut self)
        ensures { self.new ≡ self.old + 1 }
    {
        let before = Some(Snapshot::of(self));
        *self = Failures { before };
    }
}
