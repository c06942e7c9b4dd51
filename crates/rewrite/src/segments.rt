//! Rewriting UDP datagrams, TCP segments and ICMP queries: other ports or another identifier, and the checksum.
ghost use Rattle.std.specs.Prelude.{◌≡◌, ◌≤◌, length, drop};
ghost use Rattle.byteorder.specs.Endian.{big_number};
ghost use Rattle.sums.specs.Sum.{IsUpdate};
ghost use Rattle.ipv4.specs.Flow.{destination_place, source_place};
ghost use Rattle.rewrite.specs.Sums.{shortest, flow_sum, new_identifier};
ghost use Rattle.rewrite.specs.Translated.{moved_sum, udp_field, udp_with, tcp_with, query_moved, query_with, segment_with};

use crate::flows::update_flow;
use addresses::{Port, Protocol};
use icmp::QueryViewMut;
use ipv4::{Flow, TcpViewMut, UdpViewMut};
use sums::update;

/// Returns the checksum field of a UDP header, where the field was `old` and the updated sum is `sum`: 0, which means
/// no checksum, stays, and a sum of 0 becomes 65535.
pub(crate) fn udp_field(old: u16, sum: u16) -> u16
    ensures { result ≡ udp_field old sum }
{
    match (old, sum) {
        (0, _) => 0,
        (_, 0) => 65535,
        _ => sum,
    }
}

/// Returns the checksum field of a TCP header, where the field was `field`. In TCP 0 is a sum as any other.
fn tcp_field(field: u16, old: Flow, new: Flow) -> u16
    ensures { IsUpdate field (flow_sum old) (flow_sum new) result }
{
    update_flow(field, old, new)
}

/// Writes the ports of a UDP datagram and updates its checksum.
fn rewrite_udp(segment: &mut [u8], old: Flow, new: Flow)
    requires long { 8 ≤ length segment.old }
    requires source_port { old.source_port.0 ≡ big_number 2 segment.old }
    requires destination_port { old.destination_port.0 ≡ big_number 2 (drop 2 segment.old) }
    ensures { segment.new ≡ udp_with old new segment.old }
{
    let mut view = UdpViewMut::new(segment);
    let checksum = view.checksum();
    let sum = update_flow(checksum, old, new);
    view.set_source_port(new.source_port);
    view.set_destination_port(new.destination_port);
    view.set_checksum(udp_field(checksum, sum));
}

/// Writes the ports of a TCP segment and updates its checksum.
fn rewrite_tcp(segment: &mut [u8], old: Flow, new: Flow)
    requires long { 20 ≤ length segment.old }
    requires source_port { old.source_port.0 ≡ big_number 2 segment.old }
    requires destination_port { old.destination_port.0 ≡ big_number 2 (drop 2 segment.old) }
    ensures { segment.new ≡ tcp_with old new segment.old }
{
    let mut view = TcpViewMut::new(segment);
    let checksum = tcp_field(view.checksum(), old, new);
    view.set_source_port(new.source_port);
    view.set_destination_port(new.destination_port);
    view.set_checksum(checksum);
}

/// Returns the identifier of a query whose flow was `old` and becomes `new`. The identifier is both ports, so the port
/// that changed is the new identifier.
pub(crate) fn identifier_after(old: Flow, new: Flow) -> Port
    ensures { result.0 ≡ new_identifier old new }
{
    if new.source_port == old.source_port {
        new.destination_port
    } else {
        new.source_port
    }
}

/// Returns a query's checksum after its identifier has changed from `old` to `new`.
fn moved_by(checksum: u16, old: Port, new: Port) -> u16
    ensures { result ≡ moved_sum checksum old.0 new.0 }
{
    update(checksum, old.0, new.0)
}

/// Writes the identifier of a query of at least 8 bytes, which may be cut off, and updates its checksum. The checksum
/// covers nothing but the message, and 0 is a sum as any other.
pub(crate) fn rewrite_identifier(message: &mut [u8], old: Flow, new: Flow)
    requires { 8 ≤ length message.old }
    ensures { message.new ≡ query_moved old new message.old }
{
    let identifier = identifier_after(old, new);
    let mut view = QueryViewMut::new(message);
    let checksum = moved_by(view.checksum(), old.source_port, identifier);
    view.set_identifier(identifier);
    view.set_checksum(checksum);
}

/// Writes the identifier of a whole query and updates its checksum.
fn rewrite_query(message: &mut [u8], old: Flow, new: Flow)
    requires long { 8 ≤ length message.old }
    requires identifier { old.source_port.0 ≡ big_number 2 (drop 4 message.old) }
    ensures { message.new ≡ query_with old new message.old }
{
    rewrite_identifier(message, old, new);
}

/// Writes the ports or the identifier of a segment of the flow `old`, and updates its checksum, as the flow's protocol
/// requires.
pub fn rewrite_segment(segment: &mut [u8], old: Flow, new: Flow)
    requires long { shortest old.protocol ≤ length segment.old }
    requires source_port { old.source_port.0
        ≡ big_number 2 (drop (source_place old.protocol) segment.old) }
    requires destination_port { old.destination_port.0
        ≡ big_number 2 (drop (destination_place old.protocol) segment.old) }
    ensures { segment.new ≡ segment_with old.protocol old new segment.old }
{
    match old.protocol {
        Protocol::Icmp => rewrite_query(segment, old, new),
        Protocol::Udp => rewrite_udp(segment, old, new),
        Protocol::Tcp => rewrite_tcp(segment, old, new),
    }
}
