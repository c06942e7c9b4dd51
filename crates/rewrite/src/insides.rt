//! Rewriting the packet inside an error: other addresses and ports, and the checksums. Such a
//! packet has at least 8 bytes after its header, so a TCP checksum may be cut off.
ghost use Rattle.std.specs.Prelude.{◌≡◌, ◌≤◌, ◌+◌, length};
ghost use Rattle.ipv4.specs.Header.{header_of};
ghost use Rattle.icmp.specs.Quoted.{IsQuoted};
ghost use Rattle.rewrite.specs.Translated.{with_word};
ghost use Rattle.rewrite.specs.PassedOn.{with_long, checksummed, inside_header, ports_inside, moved_field, udp_inside, tcp_inside, behind_with, inside_with};

use crate::flows::update_flow;
use crate::segments::{rewrite_identifier, udp_field};
use addresses::Protocol;
use byteorder::{BigEndian, ByteOrder};
use icmp::QuotedView;
use ipv4::{Flow, Ipv4ViewMut, UdpViewMut};
use std::ops::Range;
use sums::sum;

/// The place of TCP's checksum in the bytes after the header.
const TCP_CHECKSUM: Range<usize> = 16..18;

/// Gives the packet inside an error, of the flow `old`, the flow `new`. Its TTL stays.
pub fn rewrite_inside(inside: &mut [u8], old: Flow, new: Flow)
    requires { IsQuoted inside.old }
    ensures { inside.new ≡ inside_with old new inside.old }
{
    let (header, behind) = inside.split_at_mut(header_length(inside));
    rewrite_header_inside(header, new);
    rewrite_behind(behind, old, new);
}

fn header_length(inside: &[u8]) -> usize
    requires { IsQuoted inside.now }
    ensures value { result ≡ (header_of inside.now).header_length }
    ensures low { 20 ≤ result }
    ensures high { result + 8 ≤ length inside.now }
{
    QuotedView { bytes: inside }.header_length()
}

fn rewrite_header_inside(header: &mut [u8], new: Flow)
    requires { 20 ≤ length header.old }
    ensures { header.new ≡ inside_header new header.old }
{
    write_addresses(header, new);
    sum_header(header);
}

fn write_addresses(header: &mut [u8], new: Flow)
    requires { 20 ≤ length header.old }
    ensures addresses { header.new
        ≡ with_long 16 new.destination.0 (with_long 12 new.source.0 header.old) }
    ensures same_length { length header.new ≡ length header.old }
{
    let mut view = Ipv4ViewMut::new(header);
    view.set_source(new.source);
    view.set_destination(new.destination);
}

/// Writes the checksum of a header, the complement of its sum.
fn sum_header(header: &mut [u8])
    requires { 20 ≤ length header.old }
    ensures { header.new ≡ checksummed 10 header.old }
{
    write_header_checksum(header, 0);
    let checksum = 65535 - sum(header);
    write_header_checksum(header, checksum);
}

fn write_header_checksum(header: &mut [u8], checksum: u16)
    requires { 20 ≤ length header.old }
    ensures checksum { header.new ≡ with_word 10 checksum header.old }
    ensures same_length { length header.new ≡ length header.old }
{
    let mut view = Ipv4ViewMut::new(header);
    view.set_checksum(checksum);
}

/// Writes the ports or the identifier, and updates the transport checksum where it isn't cut off.
fn rewrite_behind(behind: &mut [u8], old: Flow, new: Flow)
    requires { 8 ≤ length behind.old }
    ensures { behind.new ≡ behind_with old.protocol old new behind.old }
{
    match old.protocol {
        Protocol::Icmp => rewrite_identifier(behind, old, new),
        Protocol::Udp => rewrite_udp_inside(behind, old, new),
        Protocol::Tcp => rewrite_tcp_inside(behind, old, new),
    }
}

fn rewrite_udp_inside(behind: &mut [u8], old: Flow, new: Flow)
    requires { 8 ≤ length behind.old }
    ensures { behind.new ≡ udp_inside old new behind.old }
{
    let mut view = UdpViewMut::new(behind);
    let checksum = view.checksum();
    let sum = moved(checksum, old, new);
    view.set_source_port(new.source_port);
    view.set_destination_port(new.destination_port);
    view.set_checksum(udp_field(checksum, sum));
}

fn rewrite_tcp_inside(behind: &mut [u8], old: Flow, new: Flow)
    requires { 8 ≤ length behind.old }
    ensures { behind.new ≡ tcp_inside old new behind.old }
{
    if behind.len() < TCP_CHECKSUM.end {
        write_ports(behind, new);
        return;
    }
    let checksum = BigEndian::read_u16(&behind[TCP_CHECKSUM]);
    let sum = moved(checksum, old, new);
    write_ports(behind, new);
    BigEndian::write_u16(&mut behind[TCP_CHECKSUM], sum);
}

/// Writes the ports of UDP or TCP. A TCP header begins with its ports as a UDP header does.
fn write_ports(behind: &mut [u8], new: Flow)
    requires { 8 ≤ length behind.old }
    ensures ports { behind.new ≡ ports_inside new behind.old }
    ensures same_length { length behind.new ≡ length behind.old }
{
    let mut view = UdpViewMut::new(behind);
    view.set_source_port(new.source_port);
    view.set_destination_port(new.destination_port);
}

/// Returns a transport checksum after addresses and ports have changed.
fn moved(checksum: u16, old: Flow, new: Flow) -> u16
    ensures { result ≡ moved_field old new checksum }
{
    update_flow(checksum, old, new)
}
