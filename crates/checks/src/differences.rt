//! The keys in which the settings of two boxes differ, and those in which they may.

use crate::warnings::same_host;
use settings::{GatewaySettings, Neighbour, PortRange, Settings};
use settings_file::{Key, Name, Section, add_failing};
use std::alloc::{AllocError, Global};

fn same_range(one: PortRange, other: PortRange) -> bool {
    one.lowest == other.lowest && one.highest == other.highest
}

fn same_neighbour(one: &Neighbour, other: &Neighbour) -> bool {
    same_host(one, other) && one.mac == other.mac
}

fn same_neighbours(one: &[Neighbour], other: &[Neighbour]) -> bool {
    if one.len() != other.len() {
        return false;
    }
    for (one, other) in one.iter().zip(other) {
        if !same_neighbour(one, other) {
            return false;
        }
    }
    true
}

/// Returns the keys of `[ports]` and `[inside]`, each with whether its values are the same.
fn ports_and_inside_rows(one: &Settings, other: &Settings) -> [(Key, bool); 12] {
    let (ports, inside) = (Section::Ports, Section::Inside);
    let same_zero = same_range(one.ports.zero, other.ports.zero);
    let same_one = same_range(one.ports.one, other.ports.one);
    let same_limit = one.ports.host_limit == other.ports.host_limit;
    let same_alone = one.alone == other.alone;
    let same_refresh = one.inward_refresh == other.inward_refresh;
    let same_choice = one.choice == other.choice;
    let same_ahead = one.ahead == other.ahead;
    let (one, other) = (&one.inside, &other.inside);
    let same_virtual = one.virtual_ip == other.virtual_ip;
    let same_prefix = one.prefix_length == other.prefix_length;
    let same_number = one.virtual_router == other.virtual_router;
    [
        (Key::new(ports, Name::Zero), same_zero),
        (Key::new(ports, Name::One), same_one),
        (Key::new(ports, Name::HostLimit), same_limit),
        (Key::new(ports, Name::Alone), same_alone),
        (Key::new(ports, Name::InwardRefresh), same_refresh),
        (Key::new(ports, Name::Choice), same_choice),
        (Key::new(ports, Name::Ahead), same_ahead),
        (Key::new(inside, Name::Virtual), same_virtual),
        (Key::new(inside, Name::Prefix), same_prefix),
        (Key::new(inside, Name::Vrid), same_number),
        (Key::new(inside, Name::Wire), one.wire == other.wire),
        (Key::new(inside, Name::Mtu), one.mtu == other.mtu),
    ]
}

/// Returns the keys of `[outside]`, each with whether its values are the same.
fn outside_rows(one: &Settings, other: &Settings) -> [(Key, bool); 6] {
    let outside = Section::Outside;
    let same_router = one.router == other.router;
    let (one, other) = (&one.outside, &other.outside);
    let same_virtual = one.virtual_ip == other.virtual_ip;
    let same_prefix = one.prefix_length == other.prefix_length;
    let same_number = one.virtual_router == other.virtual_router;
    [
        (Key::new(outside, Name::Virtual), same_virtual),
        (Key::new(outside, Name::Prefix), same_prefix),
        (Key::new(outside, Name::Vrid), same_number),
        (Key::new(outside, Name::Wire), one.wire == other.wire),
        (Key::new(outside, Name::Router), same_router),
        (Key::new(outside, Name::Mtu), one.mtu == other.mtu),
    ]
}

/// Returns the keys of `[icmp]`, `[fragments]` and `[vrrp]`, each with whether its values are the same.
fn optional_rows(one: &Settings, other: &Settings) -> [(Key, bool); 4] {
    let (icmp, fragments, vrrp) = (Section::Icmp, Section::Fragments, Section::Vrrp);
    let same_echo = one.icmp.echo == other.icmp.echo;
    let same_errors = one.icmp.errors == other.icmp.errors;
    let same_pass = one.fragments.pass == other.fragments.pass;
    let same_peer_only = one.vrrp.peer_only == other.vrrp.peer_only;
    [
        (Key::new(icmp, Name::Echo), same_echo),
        (Key::new(icmp, Name::Errors), same_errors),
        (Key::new(fragments, Name::Pass), same_pass),
        (Key::new(vrrp, Name::PeerOnly), same_peer_only),
    ]
}

/// Returns the keys of a gateway, each with whether its values are the same.
fn gateway_rows(
    section: Section,
    one: &GatewaySettings,
    other: &GatewaySettings,
) -> [(Key, bool); 11] {
    let same_inside_ip = one.inside_ip == other.inside_ip;
    let same_inside_mac = one.inside_mac == other.inside_mac;
    let same_outside_ip = one.outside_ip == other.outside_ip;
    let same_outside_mac = one.outside_mac == other.outside_mac;
    let same_priority = one.priority == other.priority;
    let same_interval = one.interval == other.interval;
    let same_preempt = one.preempt == other.preempt;
    let same_file = one.boot_file.as_str() == other.boot_file.as_str();
    let same_inside_port = one.inside_port == other.inside_port;
    let same_outside_port = one.outside_port == other.outside_port;
    [
        (Key::new(section, Name::InsideIp), same_inside_ip),
        (Key::new(section, Name::InsideMac), same_inside_mac),
        (Key::new(section, Name::OutsideIp), same_outside_ip),
        (Key::new(section, Name::OutsideMac), same_outside_mac),
        (Key::new(section, Name::Priority), same_priority),
        (Key::new(section, Name::Interval), same_interval),
        (Key::new(section, Name::Preempt), same_preempt),
        (Key::new(section, Name::BootFile), same_file),
        (Key::new(section, Name::Link), one.link == other.link),
        (Key::new(section, Name::InsidePort), same_inside_port),
        (Key::new(section, Name::OutsidePort), same_outside_port),
    ]
}

/// Returns the keys in which two settings differ, in the order of the text. The lists of neighbours are one key.
///
/// # Errors
///
/// Out of memory.
pub fn differing_keys(
    alloc: Global,
    one: &Settings,
    other: &Settings,
) -> Result<Vec<Key>, AllocError> {
    let mut found = Vec::new(alloc);
    add_failing(&ports_and_inside_rows(one, other), &mut found)?;
    add_failing(&outside_rows(one, other), &mut found)?;
    add_failing(&optional_rows(one, other), &mut found)?;
    let rows = gateway_rows(Section::GatewayZero, &one.zero, &other.zero);
    add_failing(&rows, &mut found)?;
    let rows = gateway_rows(Section::GatewayOne, &one.one, &other.one);
    add_failing(&rows, &mut found)?;
    if !same_neighbours(one.neighbours.as_slice(), other.neighbours.as_slice()) {
        found.push(Key::whole(Section::Neighbour))?;
    }
    Ok(found)
}

/// Whether the two boxes may have different values at a key: each box does as its own value says, and no promise of two
/// boxes speaks of it. The values at all other keys are those that each datagram of the link says (`Settings::values`):
/// boxes that differ in one take nothing from each other. Some more must agree where `peer_only` is true ([`must_agree`]).
pub fn may_differ(key: Key) -> bool {
    match key.name {
        Some(Name::Zero | Name::One | Name::Virtual | Name::Prefix) => false,
        Some(
            Name::Vrid
            | Name::HostLimit
            | Name::Alone
            | Name::InwardRefresh
            | Name::Choice
            | Name::Ahead
            | Name::Wire
            | Name::Router
            | Name::Mtu
            | Name::Echo
            | Name::Errors
            | Name::Pass
            | Name::PeerOnly
            | Name::InsideIp
            | Name::InsideMac
            | Name::OutsideIp
            | Name::OutsideMac
            | Name::Priority
            | Name::Interval
            | Name::Preempt
            | Name::BootFile
            | Name::Link
            | Name::InsidePort
            | Name::OutsidePort
            | Name::Side
            | Name::Ip
            | Name::Mac,
        )
        | None => true,
    }
}

/// Whether two settings must agree at a key: where it may not differ, and where one of them takes the other box's
/// advertisements alone and the key says what those have.
pub fn must_agree(key: Key, one: &Settings, other: &Settings) -> bool {
    let is_peer_only = one.vrrp.peer_only || other.vrrp.peer_only;
    !may_differ(key) || is_peer_only && is_advertised(key)
}

/// Whether the value at a key stands in advertisements (RFC 9568, section 5).
fn is_advertised(key: Key) -> bool {
    match key.name {
        Some(Name::InsideIp | Name::OutsideIp | Name::Priority | Name::Interval) => true,
        _ => false,
    }
}
