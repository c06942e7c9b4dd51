//! Names in texts, and sums that more than one text has.

use crate::{Counter, Counters};
use addresses::Protocol;
use journal::{Cause, Origin};
use nat_types::EntryState;
use packet_rules::Reason;

/// All protocols, in the order of texts.
pub(crate) const PROTOCOLS: [Protocol; 3] = [Protocol::Icmp, Protocol::Tcp, Protocol::Udp];

/// All states of entries, in the order of texts.
pub(crate) const STATES: [EntryState; 8] = [
    EntryState::Pending { marked: false },
    EntryState::Doomed,
    EntryState::Live,
    EntryState::Closing { marked: false },
    EntryState::Held,
    EntryState::Alone,
    EntryState::Pending { marked: true },
    EntryState::Closing { marked: true },
];

pub(crate) fn origin_name(origin: Origin) -> &'static str {
    match origin {
        Origin::Inside => "inside",
        Origin::Outside => "outside",
        Origin::Link => "link",
        Origin::Own => "own",
    }
}

pub(crate) fn state_name(state: EntryState) -> &'static str {
    match state {
        EntryState::Pending { marked: false } => "pending",
        EntryState::Doomed => "doomed",
        EntryState::Live => "live",
        EntryState::Closing { marked: false } => "closing",
        EntryState::Held => "held",
        EntryState::Alone => "alone",
        EntryState::Pending { marked: true } => "pending_marked",
        EntryState::Closing { marked: true } => "closing_marked",
    }
}

/// Returns how many events of an origin were dropped for a reason.
pub(crate) fn dropped(counters: &Counters, origin: Origin, reason: Reason) -> u64 {
    counters.of(origin, Counter::Lost(Cause::Dropped(reason)))
}

/// Returns how many events were left out, since memory ran out.
pub(crate) fn left_out(counters: &Counters) -> u64 {
    let mut total = 0_u64;
    for origin in Origin::ALL {
        total = total.saturating_add(counters.of(origin, Counter::Lost(Cause::NoMemory)));
    }
    total
}
