//! The packets that the box itself sends.
ghost use Rattle.std.specs.Prelude.{◌≤◌};
ghost use Rattle.packet_rules.specs.Asked.{IsWhole};

use crate::both_sides::{Interfaces, moment};
use crate::passing::tell_reading;
use addresses::Mac;
use cases_words::Case;
use interfaces::Interface;
use nat_types::Side;
use packet_rules::{
    COMPLAINT_FRAME, Complaint, Networks, Reading, Reason, append_complaint, append_echo_reply,
    complaint_of, direction_taken, error_direction, exit_for, may_answer, next_hop_back,
};
use settings::Settings;

/// Reads the longest packet of a side, from 576 to 1500 bytes.
fn mtu(case: &mut Case) -> u16
    ensures least { 576 ≤ result }
    ensures most { result ≤ 1500 }
{
    case.within(576, 1500) as u16
}

pub fn speak(settings: &mut Settings, case: &mut Case) {
    settings.icmp.echo = true;
    settings.icmp.errors = true;
    settings.inside.mtu = mtu(case);
    settings.outside.mtu = mtu(case);
}

pub fn reply(interfaces: &Interfaces, case: &mut Case) {
    let side = case.side();
    let bytes = case.bytes();
    let mac = case.mac();
    let networks = &interfaces.networks;
    match interfaces.at(side).read_whole(side, true, bytes.as_slice()) {
        Ok(Reading::Asked(asked)) if may_answer(networks, side, asked.source) => {
            case.say("to ", next_hop_back(networks, side, asked.source));
            match Vec::with_capacity(case.alloc, bytes.len()) {
                Ok(mut out) => {
                    append_echo_reply(&mut out, &networks.of(side), mac, bytes.as_slice());
                    case.hex(" [", out.as_slice());
                }
                Err(_) => case.fault(),
            }
            case.put("]");
        }
        Ok(Reading::Asked(_asked)) => tell_reading(case, Err(Reason::NoBinding)),
        reading => tell_reading(case, reading),
    }
}

/// Prints what is sent where a packet that would have left at `exit` is dropped for this reason.
fn complained(
    case: &mut Case,
    networks: &Networks,
    way: (Side, Side),
    reason: Reason,
    bytes: &[u8],
    mac: Mac,
)
    requires { IsWhole bytes.now }
{
    let (side, exit) = way;
    case.say("dropped ", reason.number());
    match complaint_of(networks, side, exit, reason, bytes) {
        Some(complaint) => {
            case.show(", ", complaint);
            match Vec::with_capacity(case.alloc, COMPLAINT_FRAME) {
                Ok(mut out) => {
                    append_complaint(&mut out, &networks.of(side), complaint, mac, bytes);
                    case.hex(" [", out.as_slice());
                }
                Err(_) => case.fault(),
            }
            case.put("]");
        }
        None => case.put(", nothing said"),
    }
}

pub fn complain(interfaces: &Interfaces, case: &mut Case) {
    let side = case.side();
    let bytes = case.bytes();
    let mac = case.mac();
    let networks = &interfaces.networks;
    let frame = bytes.as_slice();
    let long = Reason::TooLong;
    match interfaces.at(side).read_whole(side, true, frame) {
        Ok(Reading::Packet(packet)) => {
            let flow = packet.flow;
            let way = direction_taken(networks, side, flow.protocol, flow.source, flow.destination);
            complained(
                case,
                networks,
                (side, exit_for(side, way)),
                long,
                frame,
                mac,
            );
        }
        Ok(Reading::Error(packet)) => {
            let exit = exit_for(side, error_direction(networks, side, packet.flow));
            complained(case, networks, (side, exit), long, frame, mac);
        }
        Ok(Reading::Asked(_asked)) => complained(case, networks, (side, side), long, frame, mac),
        Err(Reason::TtlOver) => {
            complained(case, networks, (side, side), Reason::TtlOver, frame, mac)
        }
        reading => tell_reading(case, reading),
    }
}

fn counted(station: &mut Interface, is_reply: bool, now: u64) -> bool {
    if is_reply && station.may_reply(now) {
        station.count_reply(now);
        return true;
    }
    if !is_reply && station.may_complain(now) {
        station.count_complaint(now);
        return true;
    }
    false
}

pub fn count(interfaces: &mut Interfaces, case: &mut Case) {
    let station = interfaces.at_mut(case.side());
    let is_reply = case.is_first("reply", "error");
    let tries = case.number();
    let now = moment(case);
    let mut sent = 0u64;
    for _ in 0..tries {
        if counted(station, is_reply, now) {
            sent = sent.saturating_add(1);
        }
    }
    case.put(sent);
}
