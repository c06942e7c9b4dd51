//! ARP packets, the cache of neighbours, and VRRP advertisements.
use crate::calls::or_refuse;
use addresses::{Ip, Mac, Prefix};
use arp::{ArpPacket, Cache, Interface, Neighbour, is_learnable};
use cases_words::Case;
use ipv4::Ipv4View;
use vrrp_packet::{Advert, AdvertFault};

pub(crate) fn arp(case: &mut Case) {
    let bytes = case.bytes();
    match arp::parse(bytes.as_slice()) {
        Ok(packet) => tell_arp(case, &packet),
        Err(fault) => case.refused(fault),
    }
}

pub(crate) fn tell_operation(case: &mut Case, packet: &ArpPacket) {
    case.show("", packet.operation);
}

pub(crate) fn tell_sender(case: &mut Case, packet: &ArpPacket) {
    case.say(" from ", packet.sender_mac);
    case.say(" ", packet.sender_ip);
}

fn tell_arp(case: &mut Case, packet: &ArpPacket) {
    tell_operation(case, packet);
    tell_sender(case, packet);
    case.say(" to ", packet.target_mac);
    case.say(" ", packet.target_ip);
}

pub(crate) fn request(case: &mut Case) {
    let mut out = [0xaa; 42];
    arp::request(&mut out, case.mac(), case.hex_ip(), case.hex_ip());
    case.hex("", &out);
}

pub(crate) fn gratuitous(case: &mut Case) {
    let mut out = [0xaa; 42];
    arp::gratuitous(&mut out, case.mac(), case.hex_ip());
    case.hex("", &out);
}

pub(crate) fn reply(case: &mut Case) {
    let mut out = [0xaa; 42];
    let (mac, answer) = (case.mac(), case.mac());
    let bytes = case.bytes();
    match arp::parse(bytes.as_slice()) {
        Ok(asked) => {
            arp::reply(&mut out, mac, answer, &asked);
            case.hex("", &out);
        }
        Err(fault) => case.refused(fault),
    }
}

/// Reads the primary, the virtual and the sender's address, in the network of the virtual address's first 24 bits, and
/// the sender's Ethernet address. Prints whether the sender is learnt.
pub(crate) fn is_learnt(case: &mut Case) {
    let (primary_ip, virtual_ip) = (case.hex_ip(), case.hex_ip());
    let (address, mac) = (case.hex_ip(), case.mac());
    let interface = Interface {
        network: Prefix::new(virtual_ip, 24),
        primary_ip,
        virtual_ip,
    };
    case.put(is_learnable(&interface, &Neighbour { address, mac }));
}

/// Prints what a cache finds in steps:
///
/// - `learn IP MAC NOW`: by a packet for the interface; `fill COUNT MAC NOW` for so many addresses from 0.0.0.0 on
/// - `hear IP MAC NOW`: by a packet for another; whether the address has an entry afterwards
/// - `find IP NOW`
/// - `ask IP NOW`: whether a request is due after a packet to that address; `use COUNT NOW` asks it of so many from 0.0.0.0
///   on, and prints nothing
///
/// The cache has the fixed neighbour 192.0.2.254 twice.
pub(crate) fn found(case: &mut Case) {
    let router = Ip::new([192, 0, 2, 254]);
    let fixed = [0xfe, 0xfd].map(|last| Neighbour {
        address: router,
        mac: Mac([2, 0, 0, 0, 0, last]),
    });
    match Cache::new(case.alloc, &fixed) {
        Ok(mut cache) => {
            take_steps(&mut cache, case);
            drop(cache);
        }
        Err(fault) => case.refused(fault),
    }
}

fn take_steps(cache: &mut Cache, case: &mut Case) {
    for _ in 0..case.left() {
        if case.left() > 0 {
            take_step(cache, case);
        }
    }
}

fn take_step(cache: &mut Cache, case: &mut Case) {
    match case.word() {
        "learn" => {
            let _has_entry = cache.learn(case.hex_ip(), case.mac(), true, case.number());
        }
        "fill" => fill(cache, case),
        "hear" => hear(cache, case),
        "use" => use_all(cache, case),
        "find" => find(cache, case),
        "ask" => ask(cache, case),
        _ => case.fault(),
    }
}

fn fill(cache: &mut Cache, case: &mut Case) {
    let (count, mac, now) = (case.number(), case.mac(), case.number());
    for number in 0..count.min(65_536) as u32 {
        let _has_entry = cache.learn(Ip(number), mac, true, now);
    }
}

fn hear(cache: &mut Cache, case: &mut Case) {
    let has_entry = cache.learn(case.hex_ip(), case.mac(), false, case.number());
    case.put(if has_entry { "entry " } else { "no entry " });
}

fn use_all(cache: &mut Cache, case: &mut Case) {
    let (count, now) = (case.number(), case.number());
    for number in 0..count.min(65_536) as u32 {
        let _asks = cache.ask(Ip(number), now);
    }
}

fn find(cache: &Cache, case: &mut Case) {
    match cache.mac_of(case.hex_ip(), case.number()) {
        Some(mac) => case.put(mac),
        None => case.put("none"),
    }
    case.put(" ");
}

fn ask(cache: &mut Cache, case: &mut Case) {
    let asks = cache.ask(case.hex_ip(), case.number());
    case.put(if asks { "asks " } else { "no " });
}

pub(crate) fn advert(case: &mut Case) {
    let bytes = case.bytes();
    let Some(packet) = or_refuse(case, Ipv4View::parse(bytes.as_slice())) else {
        return;
    };
    if let Some(advert) = or_refuse(case, vrrp_packet::parse(&packet)) {
        case.say("router ", advert.router);
        case.say(" priority ", advert.priority);
        case.say(" interval ", advert.interval);
        case.say(" address ", advert.address);
    }
}

pub(crate) fn write_advert(case: &mut Case) {
    let [router, priority] = case.octets::<2>();
    let (interval, address) = (case.short(), case.hex_ip());
    if interval == 0 || interval >= 4096 {
        return case.fault();
    }
    let mut out = [0xaa; 12];
    let advert = Advert {
        router,
        priority,
        interval,
        address,
    };
    vrrp_packet::write(&advert, &mut out);
    case.hex("", &out);
}

/// Prints how many of the other bytes at a place give a wrong checksum.
pub(crate) fn wrong_sums(case: &mut Case) {
    let (mut bytes, [place]) = (case.bytes(), case.octets::<1>());
    let place = usize::from(place);
    if place >= bytes.len() {
        return case.fault();
    }
    case.put(count_wrong_sums(bytes.as_mut_slice(), place));
}

fn count_wrong_sums(bytes: &mut [u8], place: usize) -> u32 {
    let mut wrong = 0u32;
    for change in 1..=255u8 {
        if place >= bytes.len() {
            return wrong;
        }
        bytes[place] ^= change;
        if has_wrong_sum(bytes) {
            wrong = wrong.saturating_add(1);
        }
        bytes[place] ^= change;
    }
    wrong
}

fn has_wrong_sum(bytes: &[u8]) -> bool {
    match Ipv4View::parse(bytes) {
        Ok(packet) => vrrp_packet::parse(&packet) == Err(AdvertFault::BadSum),
        Err(_) => false,
    }
}
