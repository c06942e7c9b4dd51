//! Checksums after addresses and ports have changed. All words that may have changed are added up,
//! the old ones and the new ones, so that a checksum is reduced once.
ghost use Rattle.std.specs.Prelude.{◌≡◌, ◌≤◌, ◌*◌};
ghost use Rattle.sums.specs.Sum.{IsUpdate};
ghost use Rattle.rewrite.specs.Sums.{address_sum, flow_sum};

use addresses::Ip;
use ipv4::Flow;
use sums::update_words;

/// Returns the sum of the two words of an address.
pub fn address_words(address: Ip) -> u32
    ensures value { result ≡ address_sum address.0 }
    ensures most { result ≤ 2 * 65535 }
{
    address.0 / 65536 + address.0 % 65536
}

/// Returns the sum of the words of a flow's addresses and ports.
fn flow_words(flow: Flow) -> u32
    ensures { result ≡ flow_sum flow }
{
    address_words(flow.source)
        + address_words(flow.destination)
        + u32::from(flow.source_port.0)
        + u32::from(flow.destination_port.0)
}

/// Returns a transport checksum after the addresses and ports have changed.
pub fn update_flow(checksum: u16, old: Flow, new: Flow) -> u16
    ensures { IsUpdate checksum (flow_sum old) (flow_sum new) result }
{
    update_words(checksum, flow_words(old), flow_words(new))
}
