//! Counts of the events of a second that had no effect.
ghost use Rattle.std.specs.Prelude.{◌<◌};

use crate::{Cause, Origin};
use std::mem;

/// How many counts there are: one for each of 4 origins and 22 causes.
const COUNTS: usize = 88;

/// The counts of the events of one second that had no effect, by origin and cause.
#[derive(Drop)]
pub(crate) struct Limiter {
    /// Whole seconds since the box's start.
    pub(crate) second: u64,
    counts: [u64; COUNTS],
}

impl Limiter {
    /// Returns counts of 0, for the second of this timestamp in centiseconds.
    pub(crate) fn new(timestamp: u64) -> Limiter {
        Limiter {
            second: timestamp / 100,
            counts: [0; COUNTS],
        }
    }

    /// Counts an event, and returns whether it is the first of its origin and cause.
    pub(crate) fn count(&mut self, origin: Origin, cause: Cause) -> bool {
        let index = index_of(origin, cause);
        let before = self.counts[index];
        self.counts[index] = before.saturating_add(1);
        before == 0
    }

    /// Returns how many events of an origin and cause came after the first.
    pub(crate) fn others(&self, origin: Origin, cause: Cause) -> u64 {
        self.counts[index_of(origin, cause)].saturating_sub(1)
    }

    /// Begins the second of a timestamp, if that is a later one, and returns the counts of the second that has ended.
    pub(crate) fn advance_to(&mut self, timestamp: u64) -> Option<Limiter> {
        if timestamp / 100 <= self.second {
            return None;
        }
        Some(mem::replace(self, Limiter::new(timestamp)))
    }
}

/// Returns the index of the count of an origin and a cause. Each origin has 22 counts, one for each cause.
fn index_of(origin: Origin, cause: Cause) -> usize
    ensures small { result < 88 }
{
    22 * usize::from(origin as u8) + usize::from(cause.number())
}
