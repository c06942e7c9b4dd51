//! Logs that the box's table isn't loaded.

use gateway::Gateway;
use journal::{Entry, EventLog, Journal, PeerState};

/// The time of the first record, in centiseconds since the box's start. A start beside a box with a full table takes less.
const FIRST_WARNING: u64 = 1_000;

/// The time from one record to the next, in centiseconds.
const WARNING_INTERVAL: u64 = 6_000;

/// The time at which the log says next that the box's table isn't loaded.
#[derive(Clone, Copy)]
pub(crate) struct MissingTable {
    due: u64,
}

impl MissingTable {
    /// Returns the time of a box's first record.
    pub(crate) fn new() -> MissingTable {
        MissingTable { due: FIRST_WARNING }
    }

    /// Logs how the other box stands, if the table isn't loaded and a record is due.
    /// `is_other`: the other box runs on other settings.
    pub(crate) fn log<L: Journal>(&mut self, gateway: &Gateway, is_other: bool, log: &EventLog<L>) {
        let now = gateway.moment();
        if gateway.synced() || now < self.due {
            return;
        }
        self.due = now.saturating_add(WARNING_INTERVAL);
        log.write(now, Entry::NoTable(peer_state(gateway, is_other)));
    }
}

/// Returns how the other gateway stands.
fn peer_state(gateway: &Gateway, is_other: bool) -> PeerState {
    if is_other {
        PeerState::OtherSettings
    } else if gateway.peer_serves() {
        PeerState::Serving
    } else if gateway.hears_peer() {
        PeerState::NotServing
    } else {
        PeerState::Silent
    }
}
