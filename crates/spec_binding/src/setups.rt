//! The stage of a gateway, and the rules that its operator sets for the binding protocol.

/// The stage of a gateway: how far it is with its table.
#[derive(Clone, Copy, Debug, PartialEq, Eq)]
pub enum Stage {
    /// The gateway has no table yet, or is loading one.
    Unsynced,
    /// The gateway is synced, and the peer has to agree to each new pair.
    Paired,
    /// The gateway is synced and alone: it has heard no boot of the peer since the founding, or since the operator's
    /// word.
    Lone,
}

/// The choice of an outside port for an endpoint without a pair. There is no `Debug`, so that the key is never printed.
#[derive(Clone, Copy)]
pub enum Choice {
    /// The lowest free port of the inside port's parity (RFC 4787, section 4.2.2).
    Lowest,
    /// The port that is drawn by a hash of the endpoint behind this secret key (RFC 6056, section 3.3.3).
    Drawn([u8; 32]),
}

/// The rules that the operator of a gateway sets for the binding protocol. Nothing changes them.
#[derive(Clone, Copy)]
pub struct Rules {
    /// The most pairs that one inside address may have; None where there is no limit.
    pub limit: Option<u16>,
    /// After how many centiseconds without an answer of the peer the gateway is apart; 0 is never.
    pub alone: u16,
    /// Whether what comes inward sets the last use of a pair (RFC 4787, REQ-6).
    pub inward_refresh: bool,
    /// The choice of the outside ports.
    pub choice: Choice,
    /// How many free ports the gateway wants to own in each protocol, and keeps for itself where the peer asks for ports;
    /// with 0 it asks only where no port is free.
    pub ahead: u16,
}
