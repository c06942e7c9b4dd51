//! A choice of hashers at run time.
ghost use Rattle.std.specs.Prelude.{◌≡◌, true, false, IfErr, IfOk};
ghost use Rattle.slots.specs.Draws.{HaveDrawnKeys, LacksKeys};
ghost use Rattle.slots.specs.Hashers.{hasher_of, is_drawn};

use crate::draws::Draws;
use crate::keyed_hasher::{KeyedHasher, Keys};
use std::hash::BuildHasher;
use std::io;

/// A maker of hashers, with fixed keys or with keys that were drawn.
#[derive(Clone, Copy)]
pub enum Hashers {
    /// Hashers with the same keys in each run.
    Fixed,
    /// Hashers with drawn keys, for endpoints that an adversary may pick.
    Drawn(Keys),
}

impl Hashers {
    /// Returns hashers that have the same keys in each run.
    pub fn fixed() -> Hashers
        ensures { is_drawn result ≡ false }
    {
        Hashers::Fixed
    }

    /// Draws keys, and returns hashers with them. An Err is that of the draw that failed.
    pub fn drawn<D: Draws>(draws: &mut D) -> io::Result<Hashers>
        ensures kind { IfOk result (λ hashers. is_drawn hashers ≡ true) }
        ensures keys { IfOk result (λ hashers. HaveDrawnKeys D.drew draws.old hashers draws.new) }
        ensures refused { IfErr result
            (λ why. LacksKeys D.drew D.refused draws.old why draws.new) }
    {
        let keys = Keys::drawn(draws)?;
        Ok(Hashers::Drawn(keys))
    }
}

impl BuildHasher for Hashers {
    type Hasher = KeyedHasher;

    ghost build_hasher = { hasher_of };

    #[inline(always)]
    fn build_hasher(&self) -> KeyedHasher {
        match self {
            Hashers::Fixed => KeyedHasher::new(Keys::fixed()),
            Hashers::Drawn(keys) => KeyedHasher::new(*keys),
        }
    }
}
