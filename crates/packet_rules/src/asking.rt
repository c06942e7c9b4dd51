//! Echos to the gateway itself (RFC 1122, section 3.2.2.6): which packets they are, and the frame that
//! answers one.
ghost use Rattle.std.specs.Prelude.{◌≡◌, ◌≤◌, ◌+◌, ◌++◌, length, drop, vec_len, vec_capacity};
ghost use Rattle.frames.specs.Frame.{frame_of, header_bytes};
ghost use Rattle.ipv4.specs.Header.{payload_of};
ghost use Rattle.icmp.specs.Ask.{IsAsk};
ghost use Rattle.packet_rules.specs.Asked.{IsAskable, IsWhole, asked_of, is_asked, is_echo, is_to_box};
ghost use Rattle.packet_rules.specs.Own.{answer_cutting, answer_frame, answer_packet, own_frame};

use crate::Asked;
use crate::networks::{Network, is_to_virtual};
use addresses::Mac;
use frames::{EthView, EtherType, append_reserved, write_header};
use icmp::{AskView, Cutting};
use ipv4::{Ipv4View, Size};

/// Whether a packet is for the gateway itself, by the address and the hardware address that it goes to.
#[tactic(auto, unfolding(crate::specs::Asked::is_to_box))]
fn is_to_gateway(
    network: &Network,
    active: bool,
    frame: &EthView<'_>,
    packet: &Ipv4View<'_>,
) -> bool
    requires { packet.now.bytes.now ≡ (frame_of frame.now.bytes.now).body }
    ensures { result ≡ is_to_box network.now active (frame_of frame.now.bytes.now) }
{
    let destination = packet.destination();
    if frame.dst() == network.own_mac && destination == network.own_ip {
        return true;
    }
    active
        && is_to_virtual(network, frame.dst())
        && (destination == network.interface.virtual_ip || destination == network.outside_ip)
}

#[tactic(auto, unfolding(crate::specs::Asked::is_echo))]
fn is_echo(packet: &Ipv4View<'_>) -> bool
    ensures { result ≡ is_echo packet.now.bytes.now }
{
    packet.protocol() == icmp::PROTOCOL && AskView::parse(packet.payload()).is_ok()
}

/// Whether a frame's packet is an Echo to the gateway, and the settings have the gateway answer Echos.
#[tactic(auto, unfolding(crate::specs::Asked::is_asked))]
#[inline(always)]
pub(crate) fn is_asked(
    network: &Network,
    active: bool,
    frame: &EthView<'_>,
    packet: &Ipv4View<'_>,
) -> bool
    requires { packet.now.bytes.now ≡ (frame_of frame.now.bytes.now).body }
    ensures { result ≡ is_asked network.now active (frame_of frame.now.bytes.now) }
{
    network.icmp.echo && is_to_gateway(network, active, frame, packet) && is_echo(packet)
}

pub(crate) fn asked(packet: &Ipv4View<'_>) -> Asked
    ensures { result ≡ asked_of packet.now.bytes.now }
{
    Asked {
        source: packet.source(),
        destination: packet.destination(),
        size: Size {
            length: packet.length_without_options(),
            unbroken: packet.is_unbroken(),
        },
    }
}

/// Returns the bytes after a frame's Ethernet header.
fn body_of(bytes: &[u8]) -> &[u8]
    requires { 14 ≤ length bytes.now }
    ensures { result.now ≡ drop 14 bytes.now }
{
    &bytes[14..]
}

/// Returns the packet of a frame that is known to carry one.
pub(crate) fn packet_of(bytes: &[u8]) -> Ipv4View<'_>
    requires { IsWhole bytes.now }
    ensures { result.bytes.now ≡ (frame_of bytes.now).body }
{
    match Ipv4View::parse(body_of(bytes)) {
        Ok(packet) => packet,
        Err(_fault) => unreachable!(),
    }
}

fn ask_of<'a>(packet: &Ipv4View<'a>) -> AskView<'a>
    requires { IsAsk (payload_of packet.now.bytes.now) }
    ensures { result.bytes.now ≡ payload_of packet.now.bytes.now }
{
    match AskView::parse(packet.payload()) {
        Ok(ask) => ask,
        Err(_fault) => unreachable!(),
    }
}

/// Returns the Ethernet header of a frame that the gateway sends of its own to `next_mac`.
pub(crate) fn own_header(network: &Network, next_mac: Mac) -> [u8; 14]
    ensures { result ≡ header_bytes next_mac.0 network.now.own_mac.0 2048 }
{
    let mut header = [0; 14];
    write_header(&mut header, next_mac, network.own_mac, EtherType::IPV4);
    header
}

/// Returns whether the answer to the Echo of a packet may be cut: with the Echo's identification where it is longer than
/// what leaves here may be.
#[tactic(auto, unfolding(crate::specs::Own::answer_cutting))]
fn cutting_of(network: &Network, packet: &Ipv4View<'_>) -> Cutting
    ensures { result ≡ answer_cutting network.now packet.now.bytes.now }
{
    if packet.length_without_options() > network.interface.mtu {
        Cutting::Allowed(packet.identification())
    } else {
        Cutting::Forbidden
    }
}

/// Appends the packet that answers the Echo of a frame to a list with capacity for as many bytes as the frame has after
/// its Ethernet header.
#[tactic(auto, unfolding(crate::specs::Own::answer_packet))]
fn append_reply_to(list: &mut Vec<u8>, network: &Network, bytes: &[u8])
    requires room { vec_len list.old + length bytes.now ≤ vec_capacity list.old + 14 }
    requires askable { IsAskable bytes.now }
    ensures items { list.new.items
        ≡ list.old.items ++ answer_packet network.now (frame_of bytes.now).body }
    ensures len { vec_len list.new + 14 ≤ vec_len list.old + length bytes.now }
    ensures capacity { vec_capacity list.old ≤ vec_capacity list.new }
{
    let packet = packet_of(bytes);
    let ask = ask_of(&packet);
    let cutting = cutting_of(network, &packet);
    icmp::append_reply(list, &ask, cutting, packet.destination(), packet.source());
}

/// Appends the frame that answers the Echo of the received frame `bytes` to a list with capacity for as many bytes as
/// that frame has.
#[tactic(auto, unfolding(crate::specs::Own::own_frame))]
pub fn append_echo_reply(list: &mut Vec<u8>, network: &Network, next_mac: Mac, bytes: &[u8])
    requires room { vec_len list.old + length bytes.now ≤ vec_capacity list.old }
    requires askable { IsAskable bytes.now }
    ensures items { list.new.items
        ≡ list.old.items ++ answer_frame network.now next_mac bytes.now }
    ensures len { vec_len list.new ≤ vec_len list.old + length bytes.now }
    ensures capacity { vec_capacity list.old ≤ vec_capacity list.new }
{
    append_reserved(list, &own_header(network, next_mac));
    append_reply_to(list, network, bytes);
}
