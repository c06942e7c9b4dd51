//! The progress of a script, on a terminal.

use platform::{CentisecondClock, Stopwatch};
use simulation::Progress;
use std::io::Write;
use std::rt;

/// How much time is between two lines at least, in centiseconds.
const INTERVAL_CS: u64 = 200;

/// Writes to a terminal every few seconds how much of a run is done, until a line can't be written.
#[derive(Drop)]
pub(crate) struct Meter<'a, R, E> {
    rt: &'a R,
    clock: Stopwatch<'a, R>,
    errors: &'a mut E,
    /// When the next line is due, by the clock.
    next: u64,
    /// Whether nothing is written: there is no terminal, or a line couldn't be written.
    is_silent: bool,
}

impl<'a, R: rt::Clock, E> Meter<'a, R, E> {
    /// Starts the meter of a run.
    pub(crate) fn start(rt: &'a R, errors: &'a mut E, is_terminal: bool) -> Meter<'a, R, E> {
        Meter {
            rt,
            clock: Stopwatch::start(rt),
            errors,
            next: INTERVAL_CS,
            is_silent: !is_terminal,
        }
    }
}

impl<R: rt::Clock + AllocGlobal, E: Write> Progress for Meter<'_, R, E> {
    fn reached(&mut self, taken: usize, all: usize) {
        let now = self.clock.now();
        if self.is_silent || now < self.next {
            return;
        }
        self.next = now.saturating_add(INTERVAL_CS);
        let line = format!(in self.rt.alloc(); "{taken} of {all} events are done\n");
        self.is_silent = match line {
            Ok(line) => self.errors.write_all(line.as_bytes()).is_err(),
            Err(_) => true,
        };
    }
}
