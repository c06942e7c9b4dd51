//! ICMP errors about translated packets, outward, inward and back in (RFC 5508, section 4).
ghost use Rattle.std.specs.Prelude.{◌≡◌, ◌≤◌, ◌-◌, ◌++◌, ◌↔◌, IsOk, OnOk, OnErr, length, take, drop};
ghost use Rattle.ipv4.specs.Header.{header_of, payload_of, IsIpv4};
ghost use Rattle.icmp.specs.Error.{IsError};
ghost use Rattle.icmp.specs.Packet.{IsErrorPacket, error_flow};
ghost use Rattle.rewrite.specs.Translated.{with_word};
ghost use Rattle.rewrite.specs.PassedOn.{checksummed, inside_with, message_with, own_flow as flow_of_header, passed_on, error_from, error_to, error_outward_of, error_inward_of, error_hairpin_of};

use crate::RewriteFault;
use crate::headers::rewrite_header;
use crate::insides::rewrite_inside;
use crate::packets::{header_length, time_to_live};
use addresses::{Ip, Port};
use icmp::{ErrorFlow, ErrorViewMut};
use ipv4::{Flow, Ipv4View};
use sums::sum;

/// The bytes of a message before the packet inside.
const BEFORE: usize = 8;

/// Passes an error on outward: as if `from` had sent it, about a packet to that address and to
/// `port`. Answers TtlOver where the TTL is 0 or 1, and leaves the packet as it was. Bytes after
/// the message stay.
pub fn error_outward(packet: &mut [u8], from: Ip, port: Port) -> Result<(), RewriteFault>
    requires ipv4 { IsIpv4 packet.old }
    requires error { IsErrorPacket packet.old }
    ensures when { IsOk result ↔ (2 ≤ (header_of packet.old).ttl) }
    ensures ok { OnOk result (packet.new ≡ error_outward_of from port packet.old) }
    ensures err { OnErr result (packet.new ≡ packet.old) }
{
    let old = ErrorFlow::of(&Ipv4View { bytes: packet });
    rewrite_error(packet, old, sent_from(old, from, port))
}

/// Passes an error on inward: to the address `to`, about a packet from that address and from
/// `port`. Answers TtlOver where the TTL is 0 or 1, and leaves the packet as it was. Bytes after
/// the message stay.
pub fn error_inward(packet: &mut [u8], to: Ip, port: Port) -> Result<(), RewriteFault>
    requires ipv4 { IsIpv4 packet.old }
    requires error { IsErrorPacket packet.old }
    ensures when { IsOk result ↔ (2 ≤ (header_of packet.old).ttl) }
    ensures ok { OnOk result (packet.new ≡ error_inward_of to port packet.old) }
    ensures err { OnErr result (packet.new ≡ packet.old) }
{
    let old = ErrorFlow::of(&Ipv4View { bytes: packet });
    rewrite_error(packet, old, sent_to(old, to, port))
}

/// Passes an error back in: to an address and port inside, about a packet that went from there to
/// an address and port outside. Answers TtlOver where the TTL is 0 or 1, and leaves the packet as
/// it was. Bytes after the message stay.
pub fn error_hairpin(
    packet: &mut [u8],
    to: Ip,
    port: Port,
    from: Ip,
    from_port: Port,
) -> Result<(), RewriteFault>
    requires ipv4 { IsIpv4 packet.old }
    requires error { IsErrorPacket packet.old }
    ensures when { IsOk result ↔ (2 ≤ (header_of packet.old).ttl) }
    ensures ok { OnOk result
        (packet.new ≡ error_hairpin_of to port from from_port packet.old) }
    ensures err { OnErr result (packet.new ≡ packet.old) }
{
    let old = ErrorFlow::of(&Ipv4View { bytes: packet });
    let new = sent_from(sent_to(old, to, port), from, from_port);
    rewrite_error(packet, old, new)
}

/// Returns the flow of an error as if from another address, about a packet to that address.
fn sent_from(flow: ErrorFlow, from: Ip, port: Port) -> ErrorFlow
    ensures { result ≡ error_from from port flow }
{
    ErrorFlow {
        source: from,
        inside: Flow {
            destination: from,
            destination_port: port,
            ..flow.inside
        },
        ..flow
    }
}

/// Returns the flow of an error to another address, about a packet from that address.
fn sent_to(flow: ErrorFlow, to: Ip, port: Port) -> ErrorFlow
    ensures { result ≡ error_to to port flow }
{
    ErrorFlow {
        destination: to,
        inside: Flow {
            source: to,
            source_port: port,
            ..flow.inside
        },
        ..flow
    }
}

/// Gives an error of the flow `old`, which the caller has read from it, the flow `new`. Answers
/// TtlOver where the TTL is 0 or 1, and leaves the packet as it was. Bytes after the message stay.
pub fn rewrite_error(packet: &mut [u8], old: ErrorFlow, new: ErrorFlow) -> Result<(), RewriteFault>
    requires ipv4 { IsIpv4 packet.old }
    requires error { IsErrorPacket packet.old }
    requires flow { old ≡ error_flow packet.old }
    ensures when { IsOk result ↔ (2 ≤ (header_of packet.old).ttl) }
    ensures ok { OnOk result (packet.new ≡ passed_on new packet.old) }
    ensures err { OnErr result (packet.new ≡ packet.old) }
{
    if time_to_live(packet) < 2 {
        return Err(RewriteFault::TtlOver);
    }
    let length = message_length(packet);
    let (header, rest) = packet.split_at_mut(header_length(packet));
    rewrite_header(header, own_flow(new));
    rewrite_message(&mut rest[..length], old.inside, new.inside);
    Ok(())
}

/// Returns the addresses of the error's own header, with the ports of the packet inside.
fn own_flow(flow: ErrorFlow) -> Flow
    ensures { result ≡ flow_of_header flow }
{
    Flow {
        source: flow.source,
        destination: flow.destination,
        ..flow.inside
    }
}

/// Returns the bytes of the message.
fn message_length(packet: &[u8]) -> usize
    requires { IsIpv4 packet.now }
    ensures value { result
        ≡ (header_of packet.now).total_length - (header_of packet.now).header_length }
    ensures high { result ≤ length (payload_of packet.now) }
{
    Ipv4View { bytes: packet }.payload().len()
}

/// Rewrites the packet inside a message, and writes the message's checksum.
fn rewrite_message(message: &mut [u8], old: Flow, new: Flow)
    requires { IsError message.old }
    ensures { message.new ≡ message_with old new message.old }
{
    rewrite_within(message, old, new);
    sum_message(message);
}

/// Rewrites the packet inside a message, and leaves the message's checksum.
fn rewrite_within(message: &mut [u8], old: Flow, new: Flow)
    requires { IsError message.old }
    ensures message { message.new ≡ take 8 message.old ++ inside_with old new (drop 8 message.old) }
    ensures long { 8 ≤ length message.new }
{
    let (_before, inside) = message.split_at_mut(BEFORE);
    rewrite_inside(inside, old, new);
}

/// Writes the checksum of a message, the complement of its sum.
fn sum_message(message: &mut [u8])
    requires { 8 ≤ length message.old }
    ensures { message.new ≡ checksummed 2 message.old }
{
    write_checksum(message, 0);
    let checksum = 65535 - sum(message);
    write_checksum(message, checksum);
}

fn write_checksum(message: &mut [u8], checksum: u16)
    requires { 8 ≤ length message.old }
    ensures checksum { message.new ≡ with_word 2 checksum message.old }
    ensures same_length { length message.new ≡ length message.old }
{
    let mut view = ErrorViewMut::new(message);
    view.set_checksum(checksum);
}
