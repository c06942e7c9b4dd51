//! The words of a line of cases.

use cases_words::Case;
use journal::{Cause, Origin};
use nat_types::EntryState;
use reports::Counter;
use vrrp_states::State;

const ROLES: [(&str, State); 3] = [
    ("Initialize", State::Initialize),
    ("Backup", State::Backup),
    ("Active", State::Active),
];

const ORIGINS: [(&str, Origin); 4] = [
    ("inside", Origin::Inside),
    ("outside", Origin::Outside),
    ("link", Origin::Link),
    ("own", Origin::Own),
];

const STATES: [(&str, EntryState); 8] = [
    ("pending", EntryState::Pending { marked: false }),
    ("doomed", EntryState::Doomed),
    ("live", EntryState::Live),
    ("closing", EntryState::Closing { marked: false }),
    ("held", EntryState::Held),
    ("alone", EntryState::Alone),
    ("pending_marked", EntryState::Pending { marked: true }),
    ("closing_marked", EntryState::Closing { marked: true }),
];

pub(crate) fn role(case: &mut Case) -> State {
    case.pick(&ROLES, State::Initialize)
}

pub(crate) fn origin(case: &mut Case) -> Origin {
    case.pick(&ORIGINS, Origin::Own)
}

/// Reads a state by its name.
pub(crate) fn state_of(case: &mut Case) -> EntryState {
    case.pick(&STATES, EntryState::Live)
}

/// Reads what is counted: by its name, or by the number of the reason of a drop.
pub(crate) fn what(case: &mut Case) -> Counter {
    let read = count_named(case.word());
    case.or(read, Counter::Received)
}

fn count_named(word: &str) -> Option<Counter> {
    match word {
        "received" => Some(Counter::Received),
        "sent" => Some(Counter::Sent),
        "failed" => Some(Counter::SendFailed),
        "too-long" => Some(Counter::TooLong),
        "NoMemory" => Some(Counter::Lost(Cause::NoMemory)),
        word => reason_numbered(word.parse::<u8>().ok()?),
    }
}

fn reason_numbered(number: u8) -> Option<Counter> {
    for cause in Cause::ALL {
        if cause.number() == number && cause != Cause::NoMemory {
            return Some(Counter::Lost(cause));
        }
    }
    None
}
