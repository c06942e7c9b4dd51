//! Starts on the modelled disk, with every two troubles one after the other.

use boot_store::{BootFault, ModelDisk, Trouble, next_boot};

/// The troubles of a start: the number of good calls before the trouble, and the trouble. A start syncs, reads, writes
/// and syncs.
const TROUBLES: [(u64, Trouble); 13] = [
    (0, Trouble::None),
    (0, Trouble::FailsOnce),
    (1, Trouble::FailsOnce),
    (2, Trouble::FailsOnce),
    (3, Trouble::FailsOnce),
    (0, Trouble::StopsBefore),
    (1, Trouble::StopsBefore),
    (2, Trouble::StopsBefore),
    (3, Trouble::StopsBefore),
    (0, Trouble::StopsWithin),
    (1, Trouble::StopsWithin),
    (2, Trouble::StopsWithin),
    (3, Trouble::StopsWithin),
];

/// Runs of three starts each on one file: how many there were, and how many of them went wrong.
#[derive(Drop)]
pub struct Trials {
    file: [u8; 32],
    /// The number above which each start's number has to be.
    last: u64,
    pub runs: u32,
    pub wrong: u32,
}

impl Trials {
    /// Returns the runs of a file with these bytes, whose numbers have to be above `last`.
    pub fn of(file: [u8; 32], last: u64) -> Trials {
        Trials {
            file,
            last,
            runs: 0,
            wrong: 0,
        }
    }

    /// Does a run for each two troubles and each file that may be left where a write was torn.
    pub fn run(&mut self, torn: &[[u8; 32]]) {
        for torn in torn {
            self.run_torn(torn);
        }
    }

    fn run_torn(&mut self, torn: &[u8; 32]) {
        for first in &TROUBLES {
            self.run_after(torn, *first);
        }
    }

    fn run_after(&mut self, torn: &[u8; 32], first: (u64, Trouble)) {
        for second in &TROUBLES {
            self.runs = self.runs.saturating_add(1);
            if !self.is_right(torn, first, *second) {
                self.wrong = self.wrong.saturating_add(1);
            }
        }
    }

    /// Whether a run is right: a start with the first trouble, one with the second, a crash, and a start without
    /// trouble.
    fn is_right(&self, torn: &[u8; 32], first: (u64, Trouble), second: (u64, Trouble)) -> bool {
        let mut disk = ModelDisk::new(&self.file);
        let Some(last) = started(&mut disk, torn, first, self.last) else {
            return false;
        };
        let Some(last) = started(&mut disk, torn, second, last) else {
            return false;
        };
        disk.crash(torn);
        started(&mut disk, torn, (0, Trouble::None), last).is_some()
    }
}

/// Starts, and returns the last number afterwards, or None where the answer is wrong. With trouble an error is right,
/// and without trouble a number above `last`; that no number is left is right in both.
fn started(
    disk: &mut ModelDisk,
    torn: &[u8; 32],
    (calls, trouble): (u64, Trouble),
    last: u64,
) -> Option<u64> {
    disk.set_trouble(calls, trouble, torn);
    match next_boot(disk, false) {
        Ok(boot) if trouble == Trouble::None && boot > last => Some(boot),
        Err(BootFault::Device(_)) if trouble != Trouble::None => Some(last),
        Err(BootFault::BootsUsedUp) => Some(last),
        _ => None,
    }
}
