//! The gateway's two networks: whether a frame addresses the gateway, which way a packet goes, and its next hop.
ghost use Rattle.std.specs.Prelude.{◌≡◌, ◌<◌, ◌^◌, length};
ghost use Rattle.settings.specs.Parts.{gateway_of};
ghost use Rattle.packet_rules.specs.Networks.{network_of, networks_of, peer_at, IsPlaced, IsWired, is_virtual, is_addressed, lies_in, is_martian, hairpin_direction, inside_direction, outside_direction, direction_of, outside_hop, exit_of};

use crate::Reason;
use addresses::{Ip, Mac, Protocol};
use nat_types::{GatewayId, Side};
use settings::{GatewaySettings, IcmpSettings, InterfaceSettings, Settings};

/// What the other gateway's advertisements have at a side.
#[derive(Clone, Copy, Debug, PartialEq, Eq)]
pub struct Peer {
    /// The other gateway's own address there.
    pub ip: Ip,
    pub priority: u8,
    /// The interval in centiseconds.
    pub interval: u16,
}

/// One of a gateway's two networks.
#[derive(Clone, Copy, Debug, PartialEq, Eq)]
pub struct Network {
    pub interface: InterfaceSettings,
    /// The gateway's own Ethernet address there.
    pub own_mac: Mac,
    /// The gateway's own (primary) address there.
    pub own_ip: Ip,
    /// The outside virtual address. Hosts at both sides may send an Echo to this address.
    pub outside_ip: Ip,
    /// The settings of the ICMP messages that the gateway sends of its own.
    pub icmp: IcmpSettings,
    /// The other gateway, where its advertisements alone count.
    pub peer: Option<Peer>,
}

impl Network {
    /// Reminds the prover that the own hardware address has six bytes. The call does nothing at run time.
    pub fn recall(&self)
        ensures { length self.now.own_mac.0 ≡ 6 }
    {
        let _octets = octets_of(self.own_mac);
    }
}

/// A gateway's two networks, the router on the outside one, and whether packets are cut.
#[derive(Clone, Copy, Debug, PartialEq, Eq)]
pub struct Networks {
    pub inside: Network,
    pub outside: Network,
    pub router: Ip,
    /// Whether the gateway cuts packets into fragments that are too long for the side at which they leave.
    pub pass: bool,
}

/// The way of a packet through the gateway.
#[derive(Clone, Copy, Debug, PartialEq, Eq)]
pub enum Direction {
    /// From an inside host to the outside.
    Outward,
    /// From the outside to an inside host.
    Inward,
    /// From an inside host to an inside host, by the outside address (RFC 4787, section 6).
    Hairpin,
}

impl Direction {
    /// Returns the side at which a packet leaves.
    pub fn exit(self) -> Side
        ensures { result ≡ exit_of self }
    {
        match self {
            Direction::Outward => Side::Outside,
            Direction::Inward | Direction::Hairpin => Side::Inside,
        }
    }
}

impl Networks {
    /// Returns the two networks of the gateway `id`, by the settings.
    pub fn of_gateway(settings: &Settings, id: GatewayId) -> Networks
        ensures networks { result ≡ networks_of settings.now id }
        ensures placed { IsPlaced result }
    {
        recall_numbers(settings, id);
        networks_at(settings, id)
    }

    /// Returns the network of a side.
    pub fn of(&self, side: Side) -> Network
        ensures { result ≡ network_of self.now side }
    {
        match side {
            Side::Inside => self.inside,
            Side::Outside => self.outside,
        }
    }

    /// Reminds the prover that both own hardware addresses have six bytes. The call does nothing at run time.
    pub fn recall(&self)
        ensures { IsWired self.now }
    {
        self.inside.recall();
        self.outside.recall();
    }
}

/// Returns a gateway's two networks, by the settings.
fn networks_at(settings: &Settings, id: GatewayId) -> Networks
    ensures { result ≡ networks_of settings.now id }
{
    let own = settings.gateway(id);
    let there = settings.gateway(id.other());
    Networks {
        inside: Network {
            interface: settings.inside,
            own_mac: own.inside_mac,
            own_ip: own.inside_ip,
            outside_ip: settings.outside.virtual_ip,
            icmp: settings.icmp,
            peer: peer_at(settings, there, there.inside_ip),
        },
        outside: Network {
            interface: settings.outside,
            own_mac: own.outside_mac,
            own_ip: own.outside_ip,
            outside_ip: settings.outside.virtual_ip,
            icmp: settings.icmp,
            peer: peer_at(settings, there, there.outside_ip),
        },
        router: settings.router,
        pass: settings.fragments.pass,
    }
}

/// Returns what the other gateway's advertisements have where this is its address, if they alone count.
fn peer_at(settings: &Settings, there: &GatewaySettings, ip: Ip) -> Option<Peer>
    ensures { result ≡ peer_at settings.now there.now ip }
{
    if !settings.vrrp.peer_only {
        return None;
    }
    Some(Peer {
        ip,
        priority: there.priority,
        interval: there.interval,
    })
}

/// Reminds the prover that a gateway's addresses have 32 bits. The call does nothing at run time.
fn recall_numbers(settings: &Settings, id: GatewayId)
    ensures inside { (gateway_of settings.now id).inside_ip.0 < 2 ^ 32 }
    ensures outside { (gateway_of settings.now id).outside_ip.0 < 2 ^ 32 }
    ensures inside_virtual { settings.now.inside.virtual_ip.0 < 2 ^ 32 }
    ensures outside_virtual { settings.now.outside.virtual_ip.0 < 2 ^ 32 }
{
    let own = settings.gateway(id);
    recall_number(own.inside_ip);
    recall_number(own.outside_ip);
    recall_number(settings.inside.virtual_ip);
    recall_number(settings.outside.virtual_ip);
}

/// Reminds the prover that an address has 32 bits. The call does nothing at run time.
fn recall_number(address: Ip)
    ensures { address.0 < 2 ^ 32 }
{
    let _address = address;
}

/// Returns the six bytes of a hardware address, with a contract that says that there are six.
fn octets_of(mac: Mac) -> [u8; 6]
    ensures same { result ≡ mac.0 }
    ensures six { length result ≡ 6 }
{
    let mut octets = [0; 6];
    octets.copy_from_slice(&mac.0);
    octets
}

/// Whether a hardware address is that of the interface's virtual router.
#[tactic(auto, unfolding(crate::specs::Networks::is_virtual))]
pub(crate) fn is_to_virtual(network: &Network, mac: Mac) -> bool
    ensures { result ≡ is_virtual network.now mac.0 }
{
    mac == Mac::of_virtual_router(network.interface.virtual_router)
}

/// Whether an interface takes frames to a hardware address: to its own, the broadcast address, that of the VRRP routers
/// and, while the interface is `active`, that of its virtual router.
#[tactic(auto, unfolding(crate::specs::Networks::is_addressed))]
pub(crate) fn is_for_gateway(network: &Network, active: bool, mac: Mac) -> bool
    ensures { result ≡ is_addressed network.now active mac.0 }
{
    mac == network.own_mac
        || mac == Mac::BROADCAST
        || mac == Mac::VRRP
        || active && is_to_virtual(network, mac)
}

#[tactic(auto, unfolding(crate::specs::Networks::lies_in))]
pub(crate) fn contains(interface: &InterfaceSettings, address: Ip) -> bool
    ensures { result ≡ lies_in address.0 interface.now }
{
    interface.network().contains(address)
}

/// Whether an address is one that no host has (RFC 1812, section 5.3.7).
#[tactic(auto, unfolding(crate::specs::Networks::is_martian))]
pub(crate) fn is_martian(address: Ip) -> bool
    ensures { result ≡ is_martian address.0 }
{
    let first = address.0 >> 24;
    first == 0 || first == 127 || address.0 >> 28 == 14 || address.0 >> 28 == 15
}

/// Returns the way of an inside host's packet to the outside virtual address: back in, by the pair of its port. An ICMP
/// query gets `NoBinding`: its identifier names no inside host that could receive it.
#[tactic(auto, unfolding(crate::specs::Networks::hairpin_direction))]
fn direction_of_hairpin(protocol: Protocol) -> Result<Direction, Reason>
    ensures { result ≡ hairpin_direction protocol }
{
    match protocol {
        Protocol::Icmp => Err(Reason::NoBinding),
        Protocol::Tcp | Protocol::Udp => Ok(Direction::Hairpin),
    }
}

#[tactic(auto, unfolding(crate::specs::Networks::inside_direction))]
fn direction_from_inside(
    networks: &Networks,
    protocol: Protocol,
    source: Ip,
    destination: Ip,
) -> Result<Direction, Reason>
    ensures { result ≡ inside_direction networks.now protocol source.0 destination.0 }
{
    let inside = &networks.inside.interface;
    if !contains(inside, source) || source == inside.virtual_ip || is_martian(source) {
        return Err(Reason::NoBinding);
    }
    if destination == networks.outside.interface.virtual_ip {
        return direction_of_hairpin(protocol);
    }
    if contains(inside, destination) || is_martian(destination) {
        return Err(Reason::NoBinding);
    }
    Ok(Direction::Outward)
}

#[tactic(auto, unfolding(crate::specs::Networks::outside_direction))]
fn direction_from_outside(
    networks: &Networks,
    source: Ip,
    destination: Ip,
) -> Result<Direction, Reason>
    ensures { result ≡ outside_direction networks.now source.0 destination.0 }
{
    let virtual_ip = networks.outside.interface.virtual_ip;
    if destination != virtual_ip {
        return Err(Reason::NoBinding);
    }
    let inside = &networks.inside.interface;
    if contains(inside, source) || source == virtual_ip || is_martian(source) {
        return Err(Reason::NoBinding);
    }
    Ok(Direction::Inward)
}

/// Returns the way of a packet of this protocol that came in on a side, or `NoBinding` where there is none.
pub fn direction_taken(
    networks: &Networks,
    side: Side,
    protocol: Protocol,
    source: Ip,
    destination: Ip,
) -> Result<Direction, Reason>
    ensures { result ≡ direction_of networks.now side protocol source.0 destination.0 }
{
    match side {
        Side::Inside => direction_from_inside(networks, protocol, source, destination),
        Side::Outside => direction_from_outside(networks, source, destination),
    }
}

/// Returns the next hop of a packet that leaves outside: its destination where that is in the outside network, else the
/// router.
#[tactic(auto, unfolding(crate::specs::Networks::outside_hop))]
pub fn next_hop_outside(networks: &Networks, destination: Ip) -> Ip
    ensures { result.0 ≡ outside_hop networks.now destination.0 }
{
    if contains(&networks.outside.interface, destination) {
        destination
    } else {
        networks.router
    }
}
