//! The result of a record, a wish or an idle pair.

use addresses::Port;
use bindings::Entry;
use nat_types::{Endpoint, EntryState, Granted, Key, NoteKind, Pair, Record};

/// A change of the table, or of what the gateway asked for.
#[derive(Clone, Copy, Debug, PartialEq, Eq)]
pub enum Change {
    /// Nothing changes.
    Keep,
    /// The table gets one more entry.
    Add(Entry),
    /// The key's entry gets another state.
    Turn(Key, EntryState),
    /// The key's entry becomes Live, and what it carried is forgotten.
    Renew(Key),
    /// The key's entry is removed.
    Drop(Key),
    /// The own proposal at this key is given up, and the peer's pair is added as Held.
    Yield(Key, Pair),
    /// The gateway has a Want open from now on.
    Want,
    /// The gateway grants these ports to the peer, and doesn't own them any more.
    Give(Granted),
    /// The peer granted these ports. Those that are in the ranges, aren't owned and have no entry
    /// become owned, and the Want is closed.
    Gain(Granted),
}

/// The result of a record, a wish or an idle pair.
#[derive(Clone, Copy, Debug, PartialEq, Eq)]
pub struct Transition {
    /// The change of the table, or of what the gateway asked for.
    pub change: Change,
    /// The record that is pushed to the peer, if any.
    pub answer: Option<Record>,
    /// The note that is made, if any.
    pub what: Option<NoteKind>,
    /// The endpoint whose packets needn't wait for the peer's answer any more, if any.
    pub ended: Option<Endpoint>,
}

/// The answer to a packet that wishes for an outside port.
#[derive(Clone, Copy, Debug, PartialEq, Eq)]
pub enum Want {
    /// The packet is translated by this port.
    Port(Port),
    /// The packet waits for the peer's answer.
    Wait,
    /// No port is free for the packet.
    NoPort,
    /// The packet's inside address has as many pairs as one address may have.
    HostLimit,
    /// The packet can't wait: the link is full, or the pair is being closed, or the gateway isn't
    /// synced.
    NotNow,
}

/// The answer to a packet, and the result of its wish for a port.
#[derive(Clone, Copy, Debug, PartialEq, Eq)]
pub struct PortRequest {
    pub answer: Want,
    pub row: Transition,
}
