// A modelled disk's past. Clauses read the past; it takes no bytes in the program.
ghost use Rattle.std.specs.Prelude.{◌≡◌, [], ◌∷◌, ◌++◌};

use crate::Cell;
use std::marker::Model;
use std::snapshot::Snapshot;

/// The moments of a disk that have passed, in order.
#[derive(Drop)]
pub struct Past {
    last: Option<(Snapshot<[Cell; 32]>, Snapshot<Past>)>,
}

impl Model for Past {
    ghost use Rattle.std.specs.Prelude.{List, length};
    ghost use Rattle.boot_store.specs.Moment.{Moment};

    ghost Value = { List Moment };

    ghost use Rattle.boot_store.specs.Past.{passed};

    ghost view = { λ p. passed p.last };

    ghost size = { length };
}

impl Past {
    /// Returns an empty past.
    pub fn none() -> Self
        ensures { result ≡ [] }
    {
        Past { last: None }
    }

    /// Appends the present cells as a moment that has passed.
    pub fn keep(&mut self, cells: &[Cell; 32])
        ensures { self.new ≡ self.old ++ cells.now ∷ [] }
    {
        let last = Some((Snapshot::of(cells), Snapshot::of(self)));
        *self = Past { last };
    }
}
