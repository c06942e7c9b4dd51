//! The slots of an endpoint, at most one of each rank.
ghost use Rattle.std.specs.Prelude.{◌≡◌, ◌+◌, ◌<◌, None, Some};
ghost use Rattle.slots.specs.Ranks.{first_slot, has_no_slot, no_places, slot_in, with_slot};

use crate::SlotNumber;
use crate::small_numbers::SmallNumber;

/// The rank of an endpoint's slot. Where an endpoint has a slot of each rank, a look-up gives that of the first.
#[derive(Clone, Copy, Debug, PartialEq, Eq)]
pub enum Rank {
    First,
    Second,
}

/// The slots of an endpoint, each as a small number, so that both take no more memory than the number of a slot.
#[derive(Clone, Copy)]
pub(crate) struct Places {
    first: SmallNumber,
    second: SmallNumber,
}

impl Places {
    pub(crate) fn none() -> Places
        ensures { result ≡ no_places }
    {
        Places {
            first: SmallNumber::none(),
            second: SmallNumber::none(),
        }
    }

    /// Returns the slot of a rank, or None where there is none.
    #[inline(always)]
    pub(crate) fn get(&self, rank: Rank) -> Option<SlotNumber>
        ensures { result ≡ slot_in rank self.now }
    {
        match rank {
            Rank::First => self.first.number(),
            Rank::Second => self.second.number(),
        }
    }

    /// Returns the slot of the first rank, or that of the second where there is none of the first.
    #[inline(always)]
    pub(crate) fn first(&self) -> Option<SlotNumber>
        ensures { result ≡ first_slot self.now }
    {
        match self.first.number() {
            Some(number) => Some(number),
            None => self.second.number(),
        }
    }

    /// Whether there is no slot of either rank.
    pub(crate) fn is_empty(&self) -> bool
        ensures { result ≡ has_no_slot self.now }
    {
        !self.first.is_some() && !self.second.is_some()
    }

    fn replaced(&self, rank: Rank, number: SmallNumber) -> Places
        ensures { result ≡ with_slot rank number self.now }
    {
        match rank {
            Rank::First => Places {
                first: number,
                second: self.second,
            },
            Rank::Second => Places {
                first: self.first,
                second: number,
            },
        }
    }

    /// Returns the slots with this one in place of that of its rank.
    pub(crate) fn with(&self, rank: Rank, number: SlotNumber) -> Places
        requires { number.0 < 4294967295 }
        ensures { result ≡ with_slot rank (Some number) self.now }
    {
        self.replaced(rank, SmallNumber::of(number))
    }

    /// Returns the slots but that of a rank.
    pub(crate) fn without(&self, rank: Rank) -> Places
        ensures { result ≡ with_slot rank None self.now }
    {
        self.replaced(rank, SmallNumber::none())
    }
}
