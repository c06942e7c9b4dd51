//! Echos to the box, and the packets that the box itself sends.
use crate::calls::or_refuse;
use cases_words::Case;
use icmp::{AskView, Cutting};
use ipv4::Ipv4View;

/// Returns the Echo to the box that a packet carries. Where it carries none, prints why and returns
/// None.
fn asked<'a>(case: &mut Case, bytes: &'a [u8]) -> Option<AskView<'a>> {
    let packet = or_refuse(case, Ipv4View::parse(bytes))?;
    if packet.protocol() != icmp::PROTOCOL {
        case.refused("not of ICMP");
        return None;
    }
    or_refuse(case, AskView::parse(packet.payload()))
}

/// Prints the fields of an Echo to the box that a packet carries.
pub(crate) fn ask(case: &mut Case) {
    let bytes = case.bytes();
    if let Some(ask) = asked(case, bytes.as_slice()) {
        case.hex_short("sum ", ask.checksum());
        case.say(" identifier ", ask.identifier());
        case.say(" number ", ask.sequence_number());
        case.hex(" data [", ask.data());
        case.put("]");
    }
}

/// Prints the packet that answers an Echo, which may be cut (`is_cuttable`) with the identification of the next word.
pub(crate) fn reply(case: &mut Case, is_cuttable: bool) {
    let bytes = case.bytes();
    let cutting = if is_cuttable {
        Cutting::Allowed(case.short())
    } else {
        Cutting::Forbidden
    };
    if let Some(ask) = asked(case, bytes.as_slice()) {
        reply_to(case, &ask, cutting);
    }
}

fn reply_to(case: &mut Case, ask: &AskView<'_>, cutting: Cutting) {
    if ask.bytes.len() > 1480 {
        return case.refused("no room for the reply");
    }
    let (from, to) = (case.hex_ip(), case.hex_ip());
    match Vec::with_capacity(case.alloc, 1500) {
        Ok(mut out) => {
            icmp::append_reply(&mut out, ask, cutting, from, to);
            case.hex("", out.as_slice());
        }
        Err(_) => case.fault(),
    }
}

/// Prints the error packet about a packet that is too long (`is_long`), or whose hops are used up.
pub(crate) fn complain(case: &mut Case, is_long: bool) {
    let bytes = case.bytes();
    let mtu = if is_long { case.short() } else { 0 };
    let Some(packet) = or_refuse(case, Ipv4View::parse(bytes.as_slice())) else {
        return;
    };
    let (from, to) = (case.hex_ip(), case.hex_ip());
    match Vec::with_capacity(case.alloc, 576) {
        Ok(mut out) => {
            if is_long {
                icmp::append_too_long(&mut out, &packet, mtu, from, to);
            } else {
                icmp::append_exceeded(&mut out, &packet, from, to);
            }
            case.hex("", out.as_slice());
        }
        Err(_) => case.fault(),
    }
}
