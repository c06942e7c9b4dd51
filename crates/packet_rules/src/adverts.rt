//! The frames of a virtual router: its advertisement, and its gratuitous ARP (RFC 9568).
ghost use Rattle.std.specs.Prelude.{◌≡◌, ◌≤◌, ◌<◌, ◌+◌, ◌++◌, vec_len, vec_capacity};
ghost use Rattle.arp.specs.declared.packets.TheConstants.{ARP_FRAME};
ghost use Rattle.frames.specs.Frame.{header_bytes};
ghost use Rattle.vrrp_packet.specs.declared.TheConstants.{ADVERT_FRAME};
ghost use Rattle.vrrp_packet.specs.Message.{advert_bytes};
ghost use Rattle.sums.specs.Sum.{checksum_of};
ghost use Rattle.packet_rules.specs.Networks.{vrrp_mac};
ghost use Rattle.packet_rules.specs.Arping.{virtual_of, gratuitous_frame};
ghost use Rattle.packet_rules.specs.Adverts.{own_advert, advert_header as header_of, advert_frame};

use crate::networks::Network;
use addresses::{Ip, Mac};
use arp::ARP_FRAME;
use frames::{EtherType, append_reserved, write_header};
use vrrp_packet::{Advert, PROTOCOL};

/// Returns an advertisement's IPv4 header with this checksum.
fn advert_header(source: Ip, checksum: u16) -> [u8; 20]
    ensures { result ≡ header_of source.0 checksum }
{
    let [high, low] = checksum.to_be_bytes();
    let [a, b, c, d] = source.0.to_be_bytes();
    [
        0x45, 0, 0, 32, 0, 0, 0, 0, 255, PROTOCOL, high, low, a, b, c, d, 224, 0, 0, 18,
    ]
}

/// Returns an advertisement's IPv4 header with its right checksum.
fn summed_header(source: Ip) -> [u8; 20]
    ensures { result ≡ header_of source.0 (checksum_of (header_of source.0 0)) }
{
    let checksum = 65535 - sums::sum(&advert_header(source, 0));
    advert_header(source, checksum)
}

/// Returns the Ethernet header of an advertisement.
fn frame_header(network: &Network) -> [u8; 14]
    ensures { result ≡ header_bytes vrrp_mac (virtual_of network.now).0 2048 }
{
    let mut header = [0; 14];
    let router = Mac::of_virtual_router(network.interface.virtual_router);
    write_header(&mut header, Mac::VRRP, router, EtherType::IPV4);
    header
}

/// Returns the VRRP message of an advertisement.
fn message(network: &Network, priority: u8, interval: u16) -> [u8; 12]
    requires positive { 0 < interval }
    requires twelve_bits { interval ≤ 4095 }
    ensures { result ≡ advert_bytes (own_advert network.now priority interval) }
{
    let advert = Advert {
        router: network.interface.virtual_router,
        priority,
        interval,
        address: network.interface.virtual_ip,
    };
    let mut message = [0; 12];
    vrrp_packet::write(&advert, &mut message);
    message
}

/// Appends the frame of an advertisement with this priority and interval (centiseconds) to a list
/// with capacity for it. The frame comes from the virtual router's Ethernet address and the
/// gateway's own IPv4 address.
pub fn append_advert(list: &mut Vec<u8>, network: &Network, priority: u8, interval: u16)
    requires room { vec_len list.old + ADVERT_FRAME ≤ vec_capacity list.old }
    requires positive { 0 < interval }
    requires twelve_bits { interval ≤ 4095 }
    ensures items { list.new.items
        ≡ list.old.items ++ advert_frame network.now priority interval }
    ensures len { vec_len list.new ≡ vec_len list.old + ADVERT_FRAME }
    ensures capacity { vec_capacity list.old ≤ vec_capacity list.new }
{
    append_reserved(list, &frame_header(network));
    append_reserved(list, &summed_header(network.own_ip));
    append_reserved(list, &message(network, priority, interval));
}

/// Appends the gratuitous ARP frame that tells everyone the hardware address of the virtual address
/// to a list with capacity for it.
pub fn append_gratuitous(list: &mut Vec<u8>, network: &Network)
    requires { vec_len list.old + ARP_FRAME ≤ vec_capacity list.old }
    ensures items { list.new.items ≡ list.old.items ++ gratuitous_frame network.now }
    ensures len { vec_len list.new ≡ vec_len list.old + ARP_FRAME }
    ensures capacity { vec_capacity list.old ≤ vec_capacity list.new }
{
    let mut frame = [0; ARP_FRAME];
    let router = Mac::of_virtual_router(network.interface.virtual_router);
    arp::gratuitous(&mut frame, router, network.interface.virtual_ip);
    append_reserved(list, &frame);
}
