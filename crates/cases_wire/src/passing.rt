//! Frames that come in, and the frames by which packets are sent on.
use crate::both_sides::{Interfaces, moment, tell_sent};
use crate::neighbours::{tell_operation, tell_sender};
use addresses::Protocol;
use arp::ArpPacket;
use cases_words::Case;
use interfaces::Interface;
use ipv4::Flow;
use nat_types::{Key, Pair, Side};
use packet_rules::{
    Direction, Reading, Reason, Translation, append_answer, append_request, append_sent,
    direction_taken,
};
use std::alloc::{AllocError, Global};
use vrrp_packet::Advert;

fn tell_flow(case: &mut Case, flow: Flow) {
    case.put(flow.protocol);
    case.say(" ", flow.source);
    case.say(" ", flow.source_port);
    case.say(" to ", flow.destination);
    case.say(" ", flow.destination_port);
}

fn tell_arp(case: &mut Case, packet: &ArpPacket) {
    tell_operation(case, packet);
    case.say(" for ", packet.target_ip);
    tell_sender(case, packet);
}

fn tell_advert(case: &mut Case, advert: Advert) {
    case.say("router ", advert.router);
    case.say(" of priority ", advert.priority);
    case.say(", ", advert.interval);
    case.say(" cs, ", advert.address);
}

pub fn tell_reading(case: &mut Case, reading: Result<Reading, Reason>) {
    match reading {
        Ok(Reading::Arp(packet)) => tell_arp(case, &packet),
        Ok(Reading::Advert(advert, from)) => {
            tell_advert(case, advert);
            case.say(", from ", from);
        }
        Ok(Reading::Packet(packet)) => tell_flow(case, packet.flow),
        Ok(Reading::Error(packet)) => {
            case.say("error ", packet.flow.source);
            case.say(" to ", packet.flow.destination);
            case.put(" about ");
            tell_flow(case, packet.flow.inside);
        }
        Ok(Reading::Asked(asked)) => {
            case.put(asked.source);
            case.say(" asks ", asked.destination);
            case.say(", ", asked.size.length);
            case.put(" bytes");
        }
        Err(reason) => {
            case.say("dropped ", reason.number());
            case.say(", ", reason);
        }
    }
}

/// Returns what a frame is read as. The function has no clause, so that its callers have less to
/// prove.
fn read_at(interfaces: &Interfaces, side: Side, up: bool, bytes: &[u8]) -> Result<Reading, Reason> {
    interfaces.at(side).read_whole(side, up, bytes)
}

pub fn read(interfaces: &Interfaces, case: &mut Case) {
    let side = case.side();
    let up = case.word() == "up";
    let bytes = case.bytes();
    tell_reading(case, read_at(interfaces, side, up, bytes.as_slice()));
}

pub fn read_padded(interfaces: &Interfaces, case: &mut Case) {
    let side = case.side();
    let length = case.number().min(70_000) as usize;
    let mut bytes = case.bytes();
    case.keep(bytes.resize(length, 0));
    tell_reading(case, read_at(interfaces, side, true, bytes.as_slice()));
}

pub fn hear_advert(interfaces: &mut Interfaces, case: &mut Case) {
    let side = case.side();
    let station = interfaces.at_mut(side);
    let bytes = case.bytes();
    let now = moment(case);
    match station.read_whole(side, true, bytes.as_slice()) {
        Ok(Reading::Advert(advert, from)) => {
            let action = station.heard(&advert, from, now);
            tell_sent(case, "sends [", station, action);
        }
        reading => tell_reading(case, reading),
    }
}

/// Returns the frame that answers a packet, or no bytes where there is no answer.
fn answer_to(
    alloc: Global,
    station: &Interface,
    packet: &ArpPacket,
) -> Result<Vec<u8>, AllocError> {
    let mut bytes = Vec::with_capacity(alloc, arp::ARP_FRAME)?;
    if let Some(mac) = station.answer_to(packet) {
        append_answer(&mut bytes, &station.network(), packet, mac);
    }
    Ok(bytes)
}

/// Prints whether the sender of an ARP packet is learnt, for whom a packet waits or doesn't, and the answer.
pub fn hear_arp(interfaces: &mut Interfaces, case: &mut Case, waited_for: bool) {
    let side = case.side();
    let station = interfaces.at_mut(side);
    let bytes = case.bytes();
    let now = moment(case);
    match station.read_whole(side, true, bytes.as_slice()) {
        Ok(Reading::Arp(packet)) => {
            case.say("learnt ", station.learn(&packet, waited_for, now));
            case.hex_made(", sends [", answer_to(case.alloc, station, &packet));
            case.put("]");
        }
        reading => tell_reading(case, reading),
    }
}

pub fn find_mac(interfaces: &Interfaces, case: &mut Case) {
    let station = interfaces.at(case.side());
    let address = case.hex_ip();
    match station.mac_of(address, moment(case)) {
        Some(mac) => case.put(mac),
        None => case.put("unknown"),
    }
}

pub fn ask(interfaces: &mut Interfaces, case: &mut Case) {
    let station = interfaces.at_mut(case.side());
    let address = case.hex_ip();
    let asks = station.ask(address, moment(case));
    case.put(asks);
}

pub fn request(interfaces: &Interfaces, case: &mut Case) {
    let station = interfaces.at(case.side());
    let address = case.hex_ip();
    match Vec::with_capacity(case.alloc, arp::ARP_FRAME) {
        Ok(mut bytes) => {
            append_request(&mut bytes, &station.network(), address);
            case.hex("", bytes.as_slice());
        }
        Err(_) => case.fault(),
    }
}

/// Reads a pair of this protocol.
fn pair(case: &mut Case, protocol: Protocol) -> Pair {
    let port = case.hex_port();
    let key = Key { protocol, port };
    Pair::new(key, case.hex_ip(), case.hex_port())
}

fn translation(case: &mut Case, way: Direction, protocol: Protocol) -> Translation {
    let own = pair(case, protocol);
    match way {
        Direction::Outward => Translation::Outward(own),
        Direction::Inward => Translation::Inward(own),
        Direction::Hairpin => Translation::Hairpin(own, pair(case, protocol)),
    }
}

pub fn send(interfaces: &Interfaces, case: &mut Case) {
    let side = case.side();
    let bytes = case.bytes();
    let mac = case.mac();
    let networks = &interfaces.networks;
    let packet = match interfaces.at(side).read_whole(side, true, bytes.as_slice()) {
        Ok(Reading::Packet(packet)) => packet,
        reading => return tell_reading(case, reading),
    };
    let flow = packet.flow;
    let way = match direction_taken(networks, side, flow.protocol, flow.source, flow.destination) {
        Ok(way) => way,
        Err(reason) => return tell_reading(case, Err(reason)),
    };
    let translation = translation(case, way, flow.protocol);
    case.show("", way);
    case.say(" to ", translation.next_hop(networks, flow.destination));
    case.say(" at ", translation.direction().exit());
    match Vec::with_capacity(case.alloc, bytes.len()) {
        Ok(mut out) => {
            append_sent(
                &mut out,
                networks,
                &translation,
                mac,
                bytes.as_slice(),
                &packet,
            );
            case.hex(" [", out.as_slice());
            case.put("]");
        }
        Err(_) => case.fault(),
    }
}
