//! What an interface does with ARP packets (RFC 826): whom it learns, and what it answers.
ghost use Rattle.std.specs.Prelude.{◌≡◌, ◌≤◌, ◌+◌, ◌++◌, vec_len, vec_capacity};
ghost use Rattle.arp.specs.declared.packets.TheConstants.{ARP_FRAME};
ghost use Rattle.packet_rules.specs.Arping.{is_for_us, is_learnable, mac_here, answer_to, answer_frame, request_frame};

use crate::networks::Network;
use addresses::{Ip, Mac};
use arp::{ARP_FRAME, ArpPacket, Interface, Neighbour, Operation};
use frames::append_reserved;

/// Whether an interface learns the sender of an ARP packet as a neighbour.
pub fn is_learnt(network: &Network, packet: &ArpPacket) -> bool
    ensures { result ≡ is_learnable network.now packet.now }
{
    let interface = Interface {
        network: network.interface.network(),
        primary_ip: network.own_ip,
        virtual_ip: network.interface.virtual_ip,
    };
    let sender = Neighbour {
        address: packet.sender_ip,
        mac: packet.sender_mac,
    };
    arp::is_learnable(&interface, &sender)
}

/// Whether an ARP packet is for an interface: its sender asks for the interface's primary or virtual address, or
/// answers it.
pub fn is_for_us(network: &Network, packet: &ArpPacket) -> bool
    ensures { result ≡ is_for_us network.now packet.now }
{
    packet.target_ip == network.own_ip || packet.target_ip == network.interface.virtual_ip
}

#[tactic(auto, unfolding(crate::specs::Arping::mac_here))]
fn mac_here(network: &Network, active: bool, address: Ip) -> Option<Mac>
    ensures { result ≡ mac_here network.now active address.0 }
{
    if address == network.own_ip {
        Some(network.own_mac)
    } else if active && address == network.interface.virtual_ip {
        Some(Mac::of_virtual_router(network.interface.virtual_router))
    } else {
        None
    }
}

/// Returns the hardware address with which an ARP packet is answered at an interface that is
/// `active` or not, or None where the packet is no request for an address of the gateway.
pub fn answer_to(network: &Network, active: bool, packet: &ArpPacket) -> Option<Mac>
    ensures { result ≡ answer_to network.now active packet.now }
{
    match packet.operation {
        Operation::Request => mac_here(network, active, packet.target_ip),
        Operation::Reply => None,
    }
}

/// Appends the frame that answers a request with the hardware address `mac` to a list with capacity
/// for it.
pub fn append_answer(list: &mut Vec<u8>, network: &Network, packet: &ArpPacket, mac: Mac)
    requires { vec_len list.old + ARP_FRAME ≤ vec_capacity list.old }
    ensures items { list.new.items ≡ list.old.items ++ answer_frame network.now packet.now mac }
    ensures len { vec_len list.new ≡ vec_len list.old + ARP_FRAME }
    ensures capacity { vec_capacity list.old ≤ vec_capacity list.new }
{
    let mut frame = [0; ARP_FRAME];
    arp::reply(&mut frame, network.own_mac, mac, packet);
    append_reserved(list, &frame);
}

/// Appends the broadcast frame that requests the hardware address of an IPv4 address to a list with
/// capacity for it.
pub fn append_request(list: &mut Vec<u8>, network: &Network, address: Ip)
    requires { vec_len list.old + ARP_FRAME ≤ vec_capacity list.old }
    ensures items { list.new.items ≡ list.old.items ++ request_frame network.now address }
    ensures len { vec_len list.new ≡ vec_len list.old + ARP_FRAME }
    ensures capacity { vec_capacity list.old ≤ vec_capacity list.new }
{
    let mut frame = [0; ARP_FRAME];
    arp::request(&mut frame, network.own_mac, network.own_ip, address);
    append_reserved(list, &frame);
}
