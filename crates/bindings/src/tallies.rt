//! How many entries of a store a tick has to mark, and how many to tell.
ghost use Rattle.std.specs.Prelude.{◌≡◌, ◌+◌, ◌-◌, ◌<◌};
ghost use Rattle.bindings.specs.Entries.{is_alone, is_sought, waits};
ghost use Rattle.bindings.specs.Stores.{one_if, tally_of};

use crate::entries::{is_alone_state, is_waiting_state};
use nat_types::EntryState;

/// The entries that a tick looks for.
#[derive(Clone, Copy)]
pub(crate) enum Sought {
    /// Those that wait for an answer without a mark.
    ToMark,
    /// Those that are Alone.
    ToTell,
}

/// How many entries wait for an answer without a mark, and how many are Alone.
#[derive(Clone, Copy)]
pub(crate) struct Tally {
    waiting: usize,
    alone: usize,
}

/// Whether an entry of this state is among those that are sought.
pub(crate) fn is_sought_state(sought: Sought, state: EntryState) -> bool
    ensures { result ≡ is_sought sought state }
{
    match sought {
        Sought::ToMark => is_waiting_state(state),
        Sought::ToTell => is_alone_state(state),
    }
}

impl Tally {
    pub(crate) fn none() -> Tally
        ensures { result ≡ record { waiting = 0; alone = 0 } }
    {
        Tally {
            waiting: 0,
            alone: 0,
        }
    }

    /// Returns how many entries there are of those that are sought.
    pub(crate) fn get(&self, sought: Sought) -> usize
        ensures { result ≡ tally_of sought self.now }
    {
        match sought {
            Sought::ToMark => self.waiting,
            Sought::ToTell => self.alone,
        }
    }

    /// Returns the tally with one more entry, of this state.
    pub(crate) fn plus(&self, state: EntryState) -> Tally
        requires waiting { self.now.waiting < 4294967295 }
        requires alone { self.now.alone < 4294967295 }
        ensures waiting { result.waiting ≡ self.now.waiting + one_if waits state }
        ensures alone { result.alone ≡ self.now.alone + one_if is_alone state }
    {
        Tally {
            waiting: self.waiting + usize::from(is_waiting_state(state)),
            alone: self.alone + usize::from(is_alone_state(state)),
        }
    }

    /// Returns the tally with one entry fewer, of this state.
    pub(crate) fn minus(&self, state: EntryState) -> Tally
        ensures waiting { result.waiting ≡ self.now.waiting - one_if waits state }
        ensures alone { result.alone ≡ self.now.alone - one_if is_alone state }
    {
        Tally {
            waiting: self
                .waiting
                .saturating_sub(usize::from(is_waiting_state(state))),
            alone: self
                .alone
                .saturating_sub(usize::from(is_alone_state(state))),
        }
    }
}
