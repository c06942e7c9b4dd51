//! What of a gateway is logged when it changes.

use gateway::Gateway;
use nat_types::Side;

/// What an operator watches of a gateway.
#[derive(Clone, Copy, Debug, PartialEq, Eq)]
pub(crate) struct View {
    /// In centiseconds since the gateway's start.
    pub(crate) timestamp: u64,
    /// Whether the virtual router of the inside is Active.
    pub(crate) inside: bool,
    /// Whether the virtual router of the outside is Active.
    pub(crate) outside: bool,
    /// Whether the gateway gave way to the other one.
    pub(crate) away: bool,
    /// Whether the gateway makes pairs alone, since the other one doesn't answer.
    pub(crate) apart: bool,
    /// How many pairs the gateway has made alone and not told of yet.
    pub(crate) untold: u64,
    /// Whether the gateway's table is loaded.
    pub(crate) synced: bool,
    /// The known boot of the other gateway, or 0.
    pub(crate) peer: u64,
    /// Whether the other gateway was heard at most 300 centiseconds ago.
    pub(crate) heard: bool,
}

impl View {
    /// Returns what a gateway shows now.
    pub(crate) fn of(gateway: &Gateway) -> View {
        View {
            timestamp: gateway.moment(),
            inside: gateway.is_active(Side::Inside),
            outside: gateway.is_active(Side::Outside),
            away: gateway.is_away(),
            apart: gateway.is_apart(),
            untold: gateway.alone_count() as u64,
            synced: gateway.synced(),
            peer: gateway.known_peer(),
            heard: gateway.hears_peer(),
        }
    }
}
