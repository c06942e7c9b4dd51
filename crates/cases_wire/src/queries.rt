//! ICMP queries, read and written.
use crate::calls::or_refuse;
use cases_words::Case;
use icmp::{Kind, QueryView, QueryViewMut};
use ipv4::{Ipv4View, Packet};

fn kind(case: &mut Case) -> Kind {
    if case.is_first("echo", "reply") {
        Kind::Echo
    } else {
        Kind::Reply
    }
}

/// Prints the fields of a query of one kind that a packet carries.
pub(crate) fn query(case: &mut Case) {
    let kind = kind(case);
    let bytes = case.bytes();
    if let Some(view) = or_refuse(case, Ipv4View::parse(bytes.as_slice())) {
        query_in(case, kind, &view);
    }
}

fn query_in(case: &mut Case, kind: Kind, view: &Ipv4View<'_>) {
    let Some(packet) = or_refuse(case, icmp::query_packet(kind, view)) else {
        return;
    };
    if let Some(query) = or_refuse(case, QueryView::parse(kind, view.payload())) {
        tell_packet(case, packet);
        tell_query(
            case,
            query.checksum(),
            query.identifier().0,
            query.sequence_number(),
        );
        case.hex(" data [", query.data());
        case.put("]");
    }
}

fn tell_packet(case: &mut Case, packet: Packet) {
    let flow = packet.flow;
    case.put(flow.protocol);
    case.say(" from ", flow.source);
    case.say(" ", flow.source_port);
    case.say(" to ", flow.destination);
    case.say(" ", flow.destination_port);
    case.say(" length ", packet.size.length);
    case.put(" ");
}

fn tell_query(case: &mut Case, sum: u16, identifier: u16, number: u16) {
    case.hex_short("sum ", sum);
    case.say(" identifier ", identifier);
    case.say(" number ", number);
}

/// Prints the fields of a query as the writing view reads them, and the message after identifier
/// and checksum are written.
pub(crate) fn write_query(case: &mut Case) {
    let kind = kind(case);
    let mut bytes = case.bytes();
    if let Err(fault) = QueryView::parse(kind, bytes.as_slice()) {
        return case.refused(fault);
    }
    let mut query = QueryViewMut::new(bytes.as_mut_slice());
    tell_query(
        case,
        query.checksum(),
        query.identifier().0,
        query.sequence_number(),
    );
    query.set_identifier(case.hex_port());
    query.set_checksum(case.short());
    case.hex(": ", bytes.as_slice());
}
