//! The manager of a box, which counts its calls.

use cases_words::Case;
use rounds::Manager;

/// A manager that counts how often the box goes on, and how often it ends.
#[derive(Drop)]
pub(crate) struct CountingManager {
    alive: u64,
    ending: u64,
}

impl CountingManager {
    pub(crate) fn new() -> CountingManager {
        CountingManager {
            alive: 0,
            ending: 0,
        }
    }

    /// Resets the counts.
    pub(crate) fn begin(&mut self) {
        self.alive = 0;
        self.ending = 0;
    }

    /// Prints both counts.
    pub(crate) fn show(&self, case: &mut Case) {
        case.say("  alive ", self.alive);
        case.say(" ending ", self.ending);
        case.end();
    }
}

impl Manager for CountingManager {
    fn ready(&mut self, _boot: u64) {}

    fn alive(&mut self) {
        self.alive = self.alive.saturating_add(1);
    }

    fn ending(&mut self) {
        self.ending = self.ending.saturating_add(1);
    }
}
