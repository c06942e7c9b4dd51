//! The endpoint and the key by which a table of pairs finds the pair of a packet's flow.
ghost use Rattle.std.specs.Prelude.{◌≡◌};
ghost use Rattle.packet_rules.specs.Flows.{source_of, target_of};

use ipv4::Flow;
use nat_types::{Endpoint, Key};

/// Returns the inside endpoint that an outgoing packet comes from: its source address and source
/// port.
pub fn source_endpoint(flow: Flow) -> Endpoint
    ensures { result ≡ source_of flow }
{
    Endpoint {
        protocol: flow.protocol,
        address: flow.source,
        port: flow.source_port,
    }
}

/// Returns the key of the outside port that an incoming packet goes to.
pub fn target_key(flow: Flow) -> Key
    ensures { result ≡ target_of flow }
{
    Key {
        protocol: flow.protocol,
        port: flow.destination_port,
    }
}
