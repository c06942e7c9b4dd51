//! ICMP errors, read and passed on.
ghost use Rattle.std.specs.Prelude.{IsTrue};
ghost use Rattle.ipv4.specs.Header.{IsIpv4};
ghost use Rattle.icmp.specs.Packet.{IsErrorPacket};

use crate::calls::{Way, or_refuse, tell_rewritten};
use cases_words::Case;
use icmp::{ErrorPacket, ErrorView, ErrorViewMut};
use ipv4::{Flow, Ipv4View};

pub(crate) fn error(case: &mut Case) {
    let bytes = case.bytes();
    if let Some(packet) = or_refuse(case, Ipv4View::parse(bytes.as_slice())) {
        error_in(case, &packet);
    }
}

fn error_in(case: &mut Case, packet: &Ipv4View<'_>) {
    let Some(found) = or_refuse(case, ErrorPacket::parse(packet)) else {
        return;
    };
    if let Some(error) = or_refuse(case, ErrorView::parse(packet.payload())) {
        tell_message(case, error.kind(), error.code(), error.checksum());
        tell_parameter(case, error.parameter());
        tell_packet(case, found);
        tell_inside(case, &error);
    }
}

fn tell_message(case: &mut Case, kind: u8, code: u8, sum: u16) {
    case.say("type ", kind);
    case.say(" code ", code);
    case.hex_short(" sum ", sum);
}

fn tell_parameter(case: &mut Case, parameter: u32) {
    case.hex(" parameter ", &parameter.to_be_bytes());
}

fn tell_packet(case: &mut Case, packet: ErrorPacket) {
    case.say(" from ", packet.flow.source);
    case.say(" to ", packet.flow.destination);
    case.say(" length ", packet.size.length);
    tell_way(case, packet.flow.inside);
}

fn tell_way(case: &mut Case, flow: Flow) {
    case.say(" about ", flow.protocol);
    case.say(" from ", flow.source);
    case.say(" ", flow.source_port);
    case.say(" to ", flow.destination);
    case.say(" ", flow.destination_port);
}

fn tell_inside(case: &mut Case, error: &ErrorView<'_>) {
    let inside = error.inside();
    case.say(" header ", inside.header_length());
    case.hex(" behind [", inside.behind());
    case.put("]");
}

/// Prints the fields of an error as the writing view reads them, and the message after its checksum
/// is written.
pub(crate) fn write_error(case: &mut Case) {
    let mut bytes = case.bytes();
    if let Err(fault) = ErrorView::parse(bytes.as_slice()) {
        return case.refused(fault);
    }
    let mut error = ErrorViewMut::new(bytes.as_mut_slice());
    tell_message(case, error.kind(), error.code(), error.checksum());
    tell_parameter(case, error.parameter());
    error.set_checksum(case.short());
    case.hex(": ", bytes.as_slice());
}

fn is_error(bytes: &[u8]) -> bool
    ensures ipv4 { IsTrue result → IsIpv4 bytes.now }
    ensures error { IsTrue result → IsErrorPacket bytes.now }
{
    match Ipv4View::parse(bytes) {
        Ok(packet) => ErrorPacket::parse(&packet).is_ok(),
        Err(_) => false,
    }
}

/// Prints the packet after an error is passed on, after the refusal where there is one.
pub(crate) fn passed_on(case: &mut Case, way: Way) {
    let mut bytes = case.bytes();
    if !is_error(bytes.as_slice()) {
        return case.refused("no error that is passed on");
    }
    let (address, port) = (case.hex_ip(), case.hex_port());
    let packet = bytes.as_mut_slice();
    let done = match way {
        Way::Outward => rewrite::error_outward(packet, address, port),
        Way::Inward => rewrite::error_inward(packet, address, port),
        Way::Hairpin => {
            rewrite::error_hairpin(packet, address, port, case.hex_ip(), case.hex_port())
        }
    };
    tell_rewritten(case, done, bytes.as_slice());
}
