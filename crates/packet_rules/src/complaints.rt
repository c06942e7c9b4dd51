//! The ICMP errors that the gateway sends about packets that it drops: Time Exceeded and Fragmentation Needed (RFC
//! 1812, sections 4.3.2 and 5.3.1; RFC 1191).
ghost use Rattle.std.specs.Prelude.{◌≡◌, ◌≤◌, ◌+◌, ◌++◌, slice_index, vec_len, vec_capacity};
ghost use Rattle.frames.specs.Frame.{frame_of};
ghost use Rattle.packet_rules.specs.Asked.{IsWhole};
ghost use Rattle.packet_rules.specs.Own.{complaint_about, complaint_frame, complaint_of, complaint_packet, exit_for, is_any_error, is_told, is_to_host, own_frame};

use crate::Reason;
use crate::answering::{is_broadcast, may_answer, mtu_at};
use crate::asking::{own_header, packet_of};
use crate::networks::{Direction, Network, Networks, is_martian};
use addresses::{Ip, Mac};
use frames::append_reserved;
use ipv4::Ipv4View;
use nat_types::Side;

/// The most bytes that the frame of a [`Complaint`] has.
pub const COMPLAINT_FRAME: usize = 590;

/// The ICMP error that the gateway sends about a packet that it drops.
#[derive(Clone, Copy, Debug, PartialEq, Eq)]
pub enum Complaint {
    /// Time Exceeded: the packet's time to live is over.
    Exceeded,
    /// Fragmentation Needed: the packet is longer than this many bytes, the most that a packet has at the side at which
    /// it would leave.
    TooBig(u16),
}

/// Whether a packet is an ICMP error of any type, also of those that aren't passed on.
#[tactic(auto, unfolding(crate::specs::Own::is_any_error))]
fn is_any_error(packet: &Ipv4View<'_>) -> bool
    ensures { result ≡ is_any_error packet.now.bytes.now }
{
    let kind = first_of(packet.payload());
    packet.protocol() == icmp::PROTOCOL
        && (kind == 3 || kind == 4 || kind == 5 || kind == 11 || kind == 12)
}

/// Returns the first byte, or 0 where there is none.
fn first_of(bytes: &[u8]) -> u8
    ensures { result ≡ slice_index bytes.now 0 }
{
    match bytes {
        [first, ..] => *first,
        [] => 0,
    }
}

/// Whether an address may be that of one host: neither martian nor a network's broadcast address.
#[tactic(auto, unfolding(crate::specs::Own::is_to_host))]
fn is_to_host(networks: &Networks, destination: Ip) -> bool
    ensures { result ≡ is_to_host networks.now destination.0 }
{
    !is_martian(destination)
        && !is_broadcast(&networks.inside.interface, destination)
        && !is_broadcast(&networks.outside.interface, destination)
}

#[tactic(auto, unfolding(crate::specs::Own::is_told))]
fn is_told(networks: &Networks, side: Side, packet: &Ipv4View<'_>) -> bool
    ensures { result ≡ is_told networks.now side packet.now.bytes.now }
{
    networks.of(side).icmp.errors
        && !is_any_error(packet)
        && may_answer(networks, side, packet.source())
        && is_to_host(networks, packet.destination())
}

#[tactic(auto, unfolding(crate::specs::Own::complaint_about))]
fn complaint_about(mtu: u16, reason: Reason, packet: &Ipv4View<'_>) -> Option<Complaint>
    ensures { result ≡ complaint_about mtu reason packet.now.bytes.now }
{
    match reason {
        Reason::TtlOver => Some(Complaint::Exceeded),
        Reason::TooLong => {
            if packet.is_unbroken() {
                Some(Complaint::TooBig(mtu))
            } else {
                None
            }
        }
        _ => None,
    }
}

/// Returns the side at which a packet of this way would leave. For a packet without a way the answer is the side where
/// it came in; nothing tests the length of such a packet, so any side would do.
pub fn exit_for(side: Side, way: Result<Direction, Reason>) -> Side
    ensures { result ≡ exit_for side way }
{
    match way {
        Ok(way) => way.exit(),
        Err(_reason) => side,
    }
}

/// Returns the ICMP error that the gateway sends about a received frame's packet that it drops for a reason, or None
/// where it sends none. The packet came in at `side` and would have left at `exit`.
#[tactic(auto, unfolding(crate::specs::Own::complaint_of))]
pub fn complaint_of(
    networks: &Networks,
    side: Side,
    exit: Side,
    reason: Reason,
    bytes: &[u8],
) -> Option<Complaint>
    requires { IsWhole bytes.now }
    ensures { result ≡ complaint_of networks.now side exit reason bytes.now }
{
    let packet = packet_of(bytes);
    if is_told(networks, side, &packet) {
        complaint_about(mtu_at(networks, exit), reason, &packet)
    } else {
        None
    }
}

/// Appends the ICMP error about a packet that `complaint` names to a list with capacity for 576 bytes.
fn append_complaint_about(
    list: &mut Vec<u8>,
    network: &Network,
    complaint: Complaint,
    packet: &Ipv4View<'_>,
)
    requires room { vec_len list.old + 576 ≤ vec_capacity list.old }
    ensures items { list.new.items
        ≡ list.old.items ++ complaint_packet network.now complaint packet.now.bytes.now }
    ensures len { vec_len list.new ≤ vec_len list.old + 576 }
    ensures capacity { vec_capacity list.old ≤ vec_capacity list.new }
{
    let (from, to) = (network.own_ip, packet.source());
    match complaint {
        Complaint::Exceeded => icmp::append_exceeded(list, packet, from, to),
        Complaint::TooBig(mtu) => icmp::append_too_long(list, packet, mtu, from, to),
    }
}

/// Appends the frame of a complaint about the packet of the received frame `bytes` to a list with capacity for it.
#[tactic(auto, unfolding(crate::specs::Own::own_frame))]
pub fn append_complaint(
    list: &mut Vec<u8>,
    network: &Network,
    complaint: Complaint,
    next_mac: Mac,
    bytes: &[u8],
)
    requires room { vec_len list.old + 590 ≤ vec_capacity list.old }
    requires whole { IsWhole bytes.now }
    ensures items { list.new.items
        ≡ list.old.items ++ complaint_frame network.now complaint next_mac bytes.now }
    ensures len { vec_len list.new ≤ vec_len list.old + 590 }
    ensures capacity { vec_capacity list.old ≤ vec_capacity list.new }
{
    let packet = packet_of(bytes);
    append_reserved(list, &own_header(network, next_mac));
    append_complaint_about(list, network, complaint, &packet);
}
