//! The number of a slot, or none, in 32 bits.
ghost use Rattle.std.specs.Prelude.{◌≡◌, ◌<◌, None, Some, is_some};

use crate::SlotNumber;
use std::marker::Model;

/// The number of a slot, or none. There is one for each protocol and port, and each packet reads some, so it is kept in
/// 32 bits: 0 for none, else one more than the slot's number.
#[derive(Clone, Copy)]
pub(crate) struct SmallNumber(u32);

impl Model for SmallNumber {
    ghost use Rattle.std.specs.Prelude.{Option};
    ghost use Rattle.slots.specs.declared.numbers.SlotNumber.{SlotNumber as Number};
    ghost use Rattle.slots.specs.SmallNumbers.{code_back, code_of, small_number};

    ghost Value = { Option Number };

    ghost view = { λ n. small_number n.0 };

    ghost inverse = { λ v. record { 0 = code_of v } };

    ghost inverse_ok = { λ n h i. record { 0 = code_back n.0 i } };
}

impl SmallNumber {
    pub(crate) fn none() -> SmallNumber
        ensures { result ≡ None }
    {
        SmallNumber(0)
    }

    /// Returns the small number of a slot's number, which must be below 4,294,967,295.
    pub(crate) fn of(number: SlotNumber) -> SmallNumber
        requires { number.0 < 4294967295 }
        ensures { result ≡ Some number }
    {
        SmallNumber(number.0 as u32 + 1)
    }

    pub(crate) fn number(&self) -> Option<SlotNumber>
        ensures { result ≡ self.now }
    {
        match self.0 {
            0 => None,
            code => Some(SlotNumber(code as usize - 1)),
        }
    }

    pub(crate) fn is_some(&self) -> bool
        ensures { result ≡ is_some self.now }
    {
        self.0 != 0
    }
}
