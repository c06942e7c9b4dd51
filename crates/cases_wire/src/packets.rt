//! Frames, IPv4 packets, and what they carry.
ghost use Rattle.std.specs.Prelude.{IsTrue};
ghost use Rattle.ipv4.specs.Header.{IsIpv4};
ghost use Rattle.icmp.specs.Query.{IsTranslatable};

use crate::calls::{Way, or_refuse, tell_rewritten};
use addresses::TcpFlags;
use cases_words::Case;
use frames::{EthView, EthViewMut, EtherType};
use icmp::Kind;
use ipv4::{Ipv4View, Ipv4ViewMut, TcpView, TcpViewMut, Transport, UdpView, UdpViewMut};

pub(crate) fn frame(case: &mut Case) {
    let bytes = case.bytes();
    match EthView::parse(bytes.as_slice()) {
        Ok(frame) => {
            case.say("to ", frame.dst());
            case.say(" from ", frame.src());
            case.hex_short(" type ", frame.ethertype().0);
            tell_hex(case, " body [", frame.body());
        }
        Err(fault) => case.refused(fault),
    }
}

/// Prints bytes in hexadecimal, after a text that ends with an open bracket.
fn tell_hex(case: &mut Case, text: &str, bytes: &[u8]) {
    case.hex(text, bytes);
    case.put("]");
}

pub(crate) fn write_frame(case: &mut Case) {
    let mut bytes = case.bytes();
    if let Err(fault) = EthView::parse(bytes.as_slice()) {
        return case.refused(fault);
    }
    let mut frame = EthViewMut::new(bytes.as_mut_slice());
    frame.set_dst(case.mac());
    frame.set_src(case.mac());
    frame.set_ethertype(EtherType(case.short()));
    case.hex("", bytes.as_slice());
}

/// Prints a frame's type, its header, and the frame with a body whose bytes are all the given one.
pub(crate) fn write_body(case: &mut Case) {
    let mut bytes = case.bytes();
    if let Err(fault) = EthView::parse(bytes.as_slice()) {
        return case.refused(fault);
    }
    let kind = EthViewMut::new(bytes.as_mut_slice()).ethertype().0;
    case.hex_short("type ", kind);
    let (header, body) = frames::split_mut(bytes.as_mut_slice());
    let [byte] = case.octets::<1>();
    body.fill(byte);
    tell_hex(case, " header [", header);
    tell_hex(case, " frame [", bytes.as_slice());
}

pub(crate) fn ipv4(case: &mut Case) {
    let bytes = case.bytes();
    match Ipv4View::parse(bytes.as_slice()) {
        Ok(packet) => {
            tell_lengths(case, &packet);
            tell_protocol(case, &packet);
            tell_ends(case, &packet);
            tell_hex(case, " options [", packet.options());
            tell_hex(case, " payload [", packet.payload());
        }
        Err(fault) => case.refused(fault),
    }
}

fn tell_lengths(case: &mut Case, packet: &Ipv4View<'_>) {
    case.say("header ", packet.header_length());
    case.say(" service ", packet.type_of_service());
    case.say(" total ", packet.total_length());
    case.say(" number ", packet.identification());
}

fn tell_protocol(case: &mut Case, packet: &Ipv4View<'_>) {
    case.hex_short(" flags ", packet.flags_word());
    case.say(" ttl ", packet.ttl());
    case.say(" protocol ", packet.protocol());
    case.show(" ", packet.transport());
}

fn tell_ends(case: &mut Case, packet: &Ipv4View<'_>) {
    case.hex_short(" sum ", packet.checksum());
    case.say(" from ", packet.source());
    case.say(" to ", packet.destination());
}

pub(crate) fn carried(case: &mut Case) {
    let bytes = case.bytes();
    if let Some(packet) = or_refuse(case, Ipv4View::parse(bytes.as_slice())) {
        carried_by(case, &packet);
    }
}

fn carried_by(case: &mut Case, packet: &Ipv4View<'_>) {
    match Transport::parse(packet) {
        Ok(Transport::Udp(datagram)) => udp(case, &datagram),
        Ok(Transport::Tcp(segment)) => tcp(case, &segment),
        Err(fault) => case.refused(fault),
    }
}

fn udp(case: &mut Case, datagram: &UdpView<'_>) {
    case.say("udp from ", datagram.source_port());
    case.say(" to ", datagram.destination_port());
    case.say(" length ", datagram.length());
    case.hex_short(" sum ", datagram.checksum());
    tell_hex(case, " payload [", datagram.payload());
}

fn tcp(case: &mut Case, segment: &TcpView<'_>) {
    tell_numbers(case, segment);
    tell_flags(case, segment);
    tell_window(case, segment);
    tell_hex(case, " options [", segment.options());
    tell_hex(case, " payload [", segment.payload());
}

fn tell_numbers(case: &mut Case, segment: &TcpView<'_>) {
    case.say("tcp from ", segment.source_port());
    case.say(" to ", segment.destination_port());
    case.say(" sequence ", segment.sequence());
    case.say(" acknowledgement ", segment.acknowledgement());
}

fn tell_flags(case: &mut Case, segment: &TcpView<'_>) {
    let TcpFlags { fin, syn, rst, ack } = segment.flags();
    case.say(" header ", segment.header_length());
    case.say(" fin ", fin);
    case.say(" syn ", syn);
    case.say(" rst ", rst);
    case.say(" ack ", ack);
}

fn tell_window(case: &mut Case, segment: &TcpView<'_>) {
    case.say(" window ", segment.window());
    case.hex_short(" sum ", segment.checksum());
    case.say(" urgent ", segment.urgent());
}

/// Prints service, identification and flags of a header as the writing view reads them, and the
/// packet after TTL, checksum and addresses are written.
pub(crate) fn write_ipv4(case: &mut Case) {
    let mut bytes = case.bytes();
    if let Err(fault) = Ipv4View::parse(bytes.as_slice()) {
        return case.refused(fault);
    }
    let mut header = Ipv4ViewMut::new(bytes.as_mut_slice());
    case.say("service ", header.type_of_service());
    case.say(" number ", header.identification());
    case.hex_short(" flags ", header.flags_word());
    let [ttl] = case.octets::<1>();
    header.set_ttl(ttl);
    header.set_checksum(case.short());
    header.set_source(case.hex_ip());
    header.set_destination(case.hex_ip());
    case.hex(": ", bytes.as_slice());
}

pub(crate) fn write_udp(case: &mut Case) {
    let mut bytes = case.bytes();
    if let Err(fault) = UdpView::parse(bytes.as_slice()) {
        return case.refused(fault);
    }
    let mut header = UdpViewMut::new(bytes.as_mut_slice());
    header.set_source_port(case.hex_port());
    header.set_destination_port(case.hex_port());
    header.set_checksum(case.short());
    case.hex("", bytes.as_slice());
}

/// Prints numbers, window and urgent pointer of a header as the writing view reads them, and the
/// segment after ports and checksum are written.
pub(crate) fn write_tcp(case: &mut Case) {
    let mut bytes = case.bytes();
    if let Err(fault) = TcpView::parse(bytes.as_slice()) {
        return case.refused(fault);
    }
    let mut header = TcpViewMut::new(bytes.as_mut_slice());
    case.say("sequence ", header.sequence());
    case.say(" acknowledgement ", header.acknowledgement());
    case.say(" window ", header.window());
    case.say(" urgent ", header.urgent());
    header.set_source_port(case.hex_port());
    header.set_destination_port(case.hex_port());
    header.set_checksum(case.short());
    case.hex(": ", bytes.as_slice());
}

fn is_translatable(bytes: &[u8]) -> bool
    ensures ipv4 { IsTrue result → IsIpv4 bytes.now }
    ensures translatable { IsTrue result → IsTranslatable bytes.now }
{
    match Ipv4View::parse(bytes) {
        Ok(packet) => {
            Transport::parse(&packet).is_ok()
                || icmp::query_packet(Kind::Echo, &packet).is_ok()
                || icmp::query_packet(Kind::Reply, &packet).is_ok()
        }
        Err(_) => false,
    }
}

/// Prints the packet after it is translated, after the refusal where there is one.
pub(crate) fn rewritten(case: &mut Case, way: Way) {
    let mut bytes = case.bytes();
    if !is_translatable(bytes.as_slice()) {
        return case.refused("nothing that is translated");
    }
    let (address, port) = (case.hex_ip(), case.hex_port());
    let packet = bytes.as_mut_slice();
    let done = match way {
        Way::Outward => rewrite::outward(packet, address, port),
        Way::Inward => rewrite::inward(packet, address, port),
        Way::Hairpin => rewrite::hairpin(packet, address, port, case.hex_ip(), case.hex_port()),
    };
    tell_rewritten(case, done, bytes.as_slice());
}
