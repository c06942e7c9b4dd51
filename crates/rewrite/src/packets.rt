//! Translating whole packets: outward, inward and back in.
ghost use Rattle.std.specs.Prelude.{◌≡◌, ◌≤◌, ◌↔◌, IsOk, OnOk, OnErr, length};
ghost use Rattle.ipv4.specs.Flow.{protocol_of, flow_of};
ghost use Rattle.ipv4.specs.Header.{header_of, payload_of, IsIpv4};
ghost use Rattle.icmp.specs.Query.{IsTranslatable};
ghost use Rattle.rewrite.specs.Sums.{shortest};
ghost use Rattle.rewrite.specs.Translated.{length_in, translated, outward_of, inward_of, hairpin_of};

use crate::headers::rewrite_header;
use crate::segments::rewrite_segment;
use addresses::{Ip, Port, Protocol};
use ipv4::{Flow, Ipv4View, UdpView};
use thiserror::Error;

/// Why a packet isn't translated.
#[derive(Clone, Copy, Debug, PartialEq, Eq, Error)]
pub enum RewriteFault {
    /// The TTL is 0 or 1.
    #[error("the packet has no hop left")]
    TtlOver,
}

/// Sends a packet on as if from another address and port. Answers TtlOver where the TTL is 0 or 1,
/// and leaves the packet as it was. Bytes after the segment stay.
pub fn outward(packet: &mut [u8], from: Ip, port: Port) -> Result<(), RewriteFault>
    requires ipv4 { IsIpv4 packet.old }
    requires translatable { IsTranslatable packet.old }
    ensures when { IsOk result ↔ (2 ≤ (header_of packet.old).ttl) }
    ensures ok { OnOk result (packet.new ≡ outward_of from port packet.old) }
    ensures err { OnErr result (packet.new ≡ packet.old) }
{
    let old = flow_of(packet);
    rewrite_packet(packet, old, sent_from(old, from, port))
}

/// Sends a packet on to another address and port. Answers TtlOver where the TTL is 0 or 1, and
/// leaves the packet as it was. Bytes after the segment stay.
pub fn inward(packet: &mut [u8], to: Ip, port: Port) -> Result<(), RewriteFault>
    requires ipv4 { IsIpv4 packet.old }
    requires translatable { IsTranslatable packet.old }
    ensures when { IsOk result ↔ (2 ≤ (header_of packet.old).ttl) }
    ensures ok { OnOk result (packet.new ≡ inward_of to port packet.old) }
    ensures err { OnErr result (packet.new ≡ packet.old) }
{
    let old = flow_of(packet);
    rewrite_packet(packet, old, sent_to(old, to, port))
}

/// Sends a packet back in: as if from an address and port outside, to an address and port inside
/// (RFC 4787, section 6). Answers TtlOver where the TTL is 0 or 1, and leaves the packet as it was.
/// Bytes after the segment stay.
pub fn hairpin(
    packet: &mut [u8],
    from: Ip,
    port: Port,
    to: Ip,
    to_port: Port,
) -> Result<(), RewriteFault>
    requires ipv4 { IsIpv4 packet.old }
    requires translatable { IsTranslatable packet.old }
    ensures when { IsOk result ↔ (2 ≤ (header_of packet.old).ttl) }
    ensures ok { OnOk result (packet.new ≡ hairpin_of from port to to_port packet.old) }
    ensures err { OnErr result (packet.new ≡ packet.old) }
{
    let old = flow_of(packet);
    let new = sent_to(sent_from(old, from, port), to, to_port);
    rewrite_packet(packet, old, new)
}

/// Returns the flow of a packet.
fn flow_of(packet: &[u8]) -> Flow
    requires ipv4 { IsIpv4 packet.now }
    requires translatable { IsTranslatable packet.now }
    ensures { result ≡ flow_of packet.now }
{
    let view = Ipv4View { bytes: packet };
    if view.protocol() == icmp::PROTOCOL {
        icmp::query_flow(&view)
    } else {
        Flow::of(&view)
    }
}

/// Returns the flow as if from another address and port.
fn sent_from(flow: Flow, from: Ip, port: Port) -> Flow
    ensures { result ≡ record flow { source = from; source_port = port } }
{
    Flow {
        source: from,
        source_port: port,
        ..flow
    }
}

/// Returns the flow to another address and port.
fn sent_to(flow: Flow, to: Ip, port: Port) -> Flow
    ensures { result ≡ record flow { destination = to; destination_port = port } }
{
    Flow {
        destination: to,
        destination_port: port,
        ..flow
    }
}

/// Gives a packet of the flow `old`, which the caller has read from it, the flow `new`. Answers
/// TtlOver where the TTL is 0 or 1, and leaves the packet as it was. Bytes after the segment stay.
pub fn rewrite_packet(packet: &mut [u8], old: Flow, new: Flow) -> Result<(), RewriteFault>
    requires ipv4 { IsIpv4 packet.old }
    requires translatable { IsTranslatable packet.old }
    requires flow { old ≡ flow_of packet.old }
    ensures when { IsOk result ↔ (2 ≤ (header_of packet.old).ttl) }
    ensures ok { OnOk result (packet.new ≡ translated new packet.old) }
    ensures err { OnErr result (packet.new ≡ packet.old) }
{
    if time_to_live(packet) < 2 {
        return Err(RewriteFault::TtlOver);
    }
    let length = segment_length(old.protocol, packet);
    let (header, rest) = packet.split_at_mut(header_length(packet));
    rewrite_header(header, new);
    rewrite_segment(&mut rest[..length], old, new);
    Ok(())
}

pub(crate) fn time_to_live(packet: &[u8]) -> u8
    requires { IsIpv4 packet.now }
    ensures { result ≡ (header_of packet.now).ttl }
{
    Ipv4View { bytes: packet }.ttl()
}

pub(crate) fn header_length(packet: &[u8]) -> usize
    requires { IsIpv4 packet.now }
    ensures { result ≡ (header_of packet.now).header_length }
{
    Ipv4View { bytes: packet }.header_length()
}

/// Returns the bytes of the UDP datagram, TCP segment or query.
fn segment_length(protocol: Protocol, packet: &[u8]) -> usize
    requires ipv4 { IsIpv4 packet.now }
    requires translatable { IsTranslatable packet.now }
    requires protocol { protocol ≡ protocol_of packet.now }
    ensures value { result ≡ length_in (protocol_of packet.now) (payload_of packet.now) }
    ensures low { shortest (protocol_of packet.now) ≤ result }
    ensures high { result ≤ length (payload_of packet.now) }
{
    let bytes = Ipv4View { bytes: packet }.payload();
    match protocol {
        Protocol::Udp => UdpView { bytes }.length(),
        Protocol::Icmp | Protocol::Tcp => bytes.len(),
    }
}
