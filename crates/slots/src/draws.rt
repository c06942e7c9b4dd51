//! The source from which the keys of hashers are drawn.
ghost use Rattle.std.specs.Prelude.{ℕ, IfErr, IfOk};
ghost use Rattle.std.specs.declared.io.Error.{Error};

use std::io;
use std::random::RandomSource;

/// A source of random numbers.
pub trait Draws {
    /// The numbers that may be drawn, each with the source after the draw.
    ghost drew: { Self → ℕ → Self → Type 0 };

    /// The reasons for which a draw may fail, each with the source after the draw.
    ghost refused: { Self → Error → Self → Type 0 };

    /// Returns the next number, or an Err where none is obtained.
    fn draw(&mut self) -> io::Result<u128>
        ensures drew { IfOk result (λ number. drew self.old number self.new) }
        ensures refused { IfErr result (λ why. refused self.old why self.new) };
}

/// The system's random numbers.
pub struct SystemDraws<'a, R>(pub &'a R);

/// The system's numbers are left to the system, so the contract claims nothing of them.
impl<R: RandomSource> Draws for SystemDraws<'_, R> {
    ghost drew = { λ _ _ _. Unit {0} };

    ghost refused = { λ _ _ _. Unit {0} };

    fn draw(&mut self) -> io::Result<u128> {
        let mut bytes = [0; 16];
        self.0.fill_bytes(&mut bytes)?;
        Ok(u128::from_le_bytes(bytes))
    }
}
