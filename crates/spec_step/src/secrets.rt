//! What a gateway draws as it starts.

use slots::Hashers;

/// What a gateway draws as it starts, and nobody else knows. There is no `Debug`, so that it is never printed.
#[derive(Clone, Copy)]
pub struct Secrets {
    /// The hashers of the table.
    pub hashers: Hashers,
    /// The key by which outside ports are drawn; it is unused where the lowest ones are taken.
    pub key: [u8; 32],
}

impl Secrets {
    ghost use Rattle.std.specs.Prelude.{◌≡◌, false};
    ghost use Rattle.slots.specs.Hashers.{is_drawn};
    ghost use Rattle.spec_step.specs.Founding.{zero_key};

    /// Returns secrets that are the same in each run, for simulations and tests: fixed hashers, and a key of zeros.
    pub fn fixed() -> Secrets
        ensures hashers { is_drawn result.hashers ≡ false }
        ensures key { result.key ≡ zero_key }
    {
        Secrets {
            hashers: Hashers::fixed(),
            key: [0; 32],
        }
    }
}
