//! The cost of parsing a packet and sending it on outward.

ghost use Rattle.std.specs.Prelude.{IsTrue};
ghost use Rattle.icmp.specs.Query.{IsTranslatable};
ghost use Rattle.ipv4.specs.Header.{IsIpv4};

use crate::clocks::{each, now};
use crate::packets::{HEADER, Kind, LONGEST, frame_of};
use addresses::{Ip, Port, Protocol};
use cases_words::Case;
use ipv4::{Ipv4View, Transport};
use nat_types::Side;

/// The end of all bytes of a frame that a translation changes.
const CHANGED: usize = 54;

const OUTSIDE: Ip = Ip(0xc000_0201);

/// The packets that are measured: each protocol, with short packets and long ones.
const KINDS: [(Protocol, u16); 6] = [
    (Protocol::Udp, 44),
    (Protocol::Udp, 1500),
    (Protocol::Tcp, 44),
    (Protocol::Tcp, 1500),
    (Protocol::Icmp, 44),
    (Protocol::Icmp, 1500),
];

fn is_translatable(packet: &[u8]) -> bool
    ensures ipv4 { IsTrue result → IsIpv4 packet.now }
    ensures translatable { IsTrue result → IsTranslatable packet.now }
{
    match Ipv4View::parse(packet) {
        Ok(view) => match view.transport() {
            Some(Protocol::Icmp) => icmp::query_packet(icmp::Kind::Echo, &view).is_ok(),
            Some(Protocol::Tcp | Protocol::Udp) | None => Transport::parse(&view).is_ok(),
        },
        Err(_) => false,
    }
}

/// Parses a packet and sends it on, and returns whether both succeeded.
fn is_sent(packet: &mut [u8]) -> bool {
    is_translatable(packet) && rewrite::outward(packet, OUTSIDE, Port(20000)).is_ok()
}

/// Prints the nanoseconds for each of `count` packets, rounded down, which include the copy of the bytes that a
/// translation changes, and how many packets were sent on.
fn tell_cost(rt: &HostRuntime, protocol: Protocol, size: u16, count: u32, case: &mut Case) {
    let side = Side::Inside;
    let fresh = frame_of(Kind {
        side,
        protocol,
        size,
    });
    let mut frame = fresh;
    let end = (HEADER + usize::from(size)).min(LONGEST);
    let mut sent = 0u32;
    let start = now(rt, case);
    for _ in 0..count {
        frame[HEADER..CHANGED].copy_from_slice(&fresh[HEADER..CHANGED]);
        if is_sent(&mut frame[HEADER..end]) {
            sent = sent.saturating_add(1);
        }
    }
    let spent = each(rt, start, count, case);
    case.put(spent);
    case.say(" ns a packet, ", sent);
    case.say(" of ", count);
    case.put(" sent\n");
}

/// Prints the cost of each kind of packet, over as many as the next word says.
pub(crate) fn measure(rt: &HostRuntime, case: &mut Case) {
    let count = case.times();
    for (protocol, size) in &KINDS {
        case.put(*protocol);
        case.say(" ", *size);
        case.put(" bytes: ");
        tell_cost(rt, *protocol, *size, count, case);
    }
}
