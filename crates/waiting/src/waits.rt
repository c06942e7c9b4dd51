//! The things that packets wait for, and the ends of these waits.
ghost use Rattle.std.specs.Prelude.{◌≡◌};
ghost use Rattle.nat_types.specs.Same.{same_endpoint};
ghost use Rattle.waiting.specs.Waits.{same_side, is_for_host, is_for_pair, same_wait, ends};

use addresses::Ip;
use nat_types::{Endpoint, Side};

/// A thing that a packet waits for.
#[derive(Clone, Copy, Debug, PartialEq, Eq)]
pub enum WaitsFor {
    /// The peer's answer on this endpoint's pair, after which the pair isn't Pending.
    Pair(Endpoint),
    /// The Ethernet address of this host, its next hop on this side.
    Hop(Side, Ip),
}

/// The waits that are over.
#[derive(Clone, Copy, Debug, PartialEq, Eq)]
pub enum Ended {
    /// The waits for this thing.
    One(WaitsFor),
    /// The waits for any pair.
    AllPairs,
}

fn is_side(side: Side, other: Side) -> bool
    ensures { result ≡ same_side side other }
{
    side == other
}

#[tactic(auto, unfolding(nat_types::specs::Same::same_endpoint))]
fn is_endpoint(endpoint: Endpoint, other: Endpoint) -> bool
    ensures { result ≡ same_endpoint endpoint other }
{
    endpoint == other
}

impl WaitsFor {
    /// Whether the packet waits for a pair.
    pub fn is_for_pair(self) -> bool
        ensures { result ≡ is_for_pair self }
    {
        match self {
            WaitsFor::Pair(_) => true,
            WaitsFor::Hop(..) => false,
        }
    }

    /// Whether the packet waits for the pair of an endpoint with this inside address.
    pub(crate) fn is_for_host(self, address: Ip) -> bool
        ensures { result ≡ is_for_host address.0 self }
    {
        match self {
            WaitsFor::Pair(endpoint) => endpoint.address == address,
            WaitsFor::Hop(..) => false,
        }
    }

    /// Whether both are for the same endpoint's pair, or for the same host on the same side.
    pub fn is_same(self, other: WaitsFor) -> bool
        ensures { result ≡ same_wait self other }
    {
        match (self, other) {
            (WaitsFor::Pair(endpoint), WaitsFor::Pair(another)) => is_endpoint(endpoint, another),
            (WaitsFor::Hop(side, host), WaitsFor::Hop(that, another)) => {
                is_side(side, that) && host == another
            }
            (WaitsFor::Pair(_), WaitsFor::Hop(..)) => false,
            (WaitsFor::Hop(..), WaitsFor::Pair(_)) => false,
        }
    }
}

impl Ended {
    /// Whether this wait is among those that are over.
    pub fn ends(self, wait: WaitsFor) -> bool
        ensures { result ≡ ends self wait }
    {
        match self {
            Ended::One(ended) => ended.is_same(wait),
            Ended::AllPairs => wait.is_for_pair(),
        }
    }
}
