//! The tables of the words that stand for a value each.

use activity::Way;
use addresses::Protocol;
use nat_types::{EntryState, GatewayId, Side};

pub(crate) const GATEWAYS: [(&str, GatewayId); 2] = [("0", GatewayId::Zero), ("1", GatewayId::One)];

pub(crate) const SIDES: [(&str, Side); 2] = [("inside", Side::Inside), ("outside", Side::Outside)];

pub(crate) const PROTOCOLS: [(&str, Protocol); 3] = [
    ("icmp", Protocol::Icmp),
    ("tcp", Protocol::Tcp),
    ("udp", Protocol::Udp),
];

pub(crate) const STATES: [(&str, EntryState); 8] = [
    ("Pending", EntryState::Pending { marked: false }),
    ("Doomed", EntryState::Doomed),
    ("Live", EntryState::Live),
    ("Closing", EntryState::Closing { marked: false }),
    ("Held", EntryState::Held),
    ("Alone", EntryState::Alone),
    ("PendingMarked", EntryState::Pending { marked: true }),
    ("ClosingMarked", EntryState::Closing { marked: true }),
];

pub(crate) const WAYS: [(&str, Way); 2] = [("out", Way::Outward), ("in", Way::Inward)];
