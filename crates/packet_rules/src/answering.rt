//! Which sources the gateway may send packets of its own to, and by which next hop.
ghost use Rattle.std.specs.Prelude.{◌≡◌};
ghost use Rattle.packet_rules.specs.Networks.{back_hop, is_broadcast, may_answer, may_come, mtu_of};

use crate::networks::{Networks, contains, is_martian, next_hop_outside};
use addresses::Ip;
use nat_types::Side;
use settings::InterfaceSettings;

/// Whether an address is a network's broadcast address (RFC 919).
#[tactic(auto, unfolding(crate::specs::Networks::is_broadcast))]
pub(crate) fn is_broadcast(interface: &InterfaceSettings, address: Ip) -> bool
    ensures { result ≡ is_broadcast address.0 interface.now }
{
    let hosts = 1u64 << (32 - interface.prefix_length);
    contains(interface, address) && u64::from(address.0) % hosts + 1 == hosts
}

/// Whether a source may be one of a side's hosts, by the prefixes and the virtual addresses.
#[tactic(auto, unfolding(crate::specs::Networks::may_come))]
fn may_come(networks: &Networks, side: Side, source: Ip) -> bool
    ensures { result ≡ may_come networks.now side source.0 }
{
    let inside = &networks.inside.interface;
    match side {
        Side::Inside => contains(inside, source) && source != inside.virtual_ip,
        Side::Outside => {
            !contains(inside, source) && source != networks.outside.interface.virtual_ip
        }
    }
}

/// Whether the gateway may send a packet of its own at a side, to the source of a packet that came
/// in there.
#[tactic(auto, unfolding(crate::specs::Networks::may_answer))]
pub fn may_answer(networks: &Networks, side: Side, source: Ip) -> bool
    ensures { result ≡ may_answer networks.now side source.0 }
{
    may_come(networks, side, source)
        && !is_martian(source)
        && !is_broadcast(&networks.of(side).interface, source)
}

/// Returns the next hop of a packet that the gateway sends at a side to a source: inside the source
/// itself, outside as [`next_hop_outside`] says.
pub fn next_hop_back(networks: &Networks, side: Side, source: Ip) -> Ip
    ensures { result.0 ≡ back_hop networks.now side source.0 }
{
    match side {
        Side::Inside => source,
        Side::Outside => next_hop_outside(networks, source),
    }
}

/// Returns the length of the longest packet that is sent at a side, in bytes.
pub fn mtu_at(networks: &Networks, side: Side) -> u16
    ensures { result ≡ mtu_of networks.now side }
{
    networks.of(side).interface.mtu
}
