//! A channel in memory.

use captures::Interface;
use simulation::Channel;

/// A channel in memory that loses every `every`-th message, and passes all others.
#[derive(Drop)]
pub(crate) struct Memory {
    every: u64,
    since: u64,
}

impl Memory {
    /// Returns a channel that loses every `every`-th message, and none where that is 0.
    pub(crate) fn losing(every: u64) -> Memory {
        Memory { every, since: 0 }
    }
}

impl Channel for Memory {
    fn pass(&mut self, _interface: Interface, _bytes: &[u8]) -> bool {
        self.since = self.since.saturating_add(1);
        let is_lost = self.since == self.every;
        if is_lost {
            self.since = 0;
        }
        !is_lost
    }
}
