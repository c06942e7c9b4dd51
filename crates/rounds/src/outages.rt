//! Logs that a place fails, works again, or takes less than a frame.

use journal::{Entry, EventLog, Journal, Origin};
use nat_types::Side;
use sockets::{Place, Wire};

/// For how many centiseconds a place has failed, or has worked again, when that is logged. So nothing is logged of frames
/// that fail now and then.
const DEBOUNCE: u64 = 100;

/// What was logged of a place.
#[derive(Clone, Copy)]
struct Watched {
    /// Whether the place fails, as the log says.
    fails: bool,
    /// Since when the place does the contrary, if it does.
    since: Option<u64>,
    /// Whether the log says that the place takes less than a frame.
    is_short: bool,
}

impl Watched {
    /// Whether it is time to log that the place fails, or works again.
    fn changes(&mut self, fails: bool, now: u64) -> bool {
        if fails == self.fails {
            self.since = None;
            return false;
        }
        let since = self.since.unwrap_or(now);
        if now.saturating_sub(since) < DEBOUNCE {
            self.since = Some(since);
            return false;
        }
        self.fails = fails;
        self.since = None;
        true
    }
}

/// What was logged of the three places that datagrams come from and go to.
#[derive(Clone, Copy)]
pub(crate) struct Outages([Watched; 3]);

const PLACES: [(Place, Origin); 3] = [
    (Place::Side(Side::Inside), Origin::Inside),
    (Place::Side(Side::Outside), Origin::Outside),
    (Place::Link, Origin::Link),
];

impl Outages {
    /// No place fails.
    pub(crate) fn none() -> Outages {
        let works = Watched {
            fails: false,
            since: None,
            is_short: false,
        };
        Outages([works; 3])
    }

    /// Logs of each place what is due. That a place takes less than a frame is logged once.
    pub(crate) fn log<W: Wire, L: Journal>(&mut self, wire: &W, now: u64, log: &EventLog<L>) {
        for (watched, (place, origin)) in self.0.iter_mut().zip(PLACES) {
            let fails = wire.is_failing(place);
            if watched.changes(fails, now) {
                let entry = if fails {
                    Entry::Fails(origin)
                } else {
                    Entry::Works(origin)
                };
                log.write(now, entry);
            }
            if !watched.is_short && wire.losses(place).too_long > 0 {
                watched.is_short = true;
                log.write(now, Entry::TooLong(origin));
            }
        }
    }
}
