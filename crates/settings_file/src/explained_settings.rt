//! What two values that must differ have in common, and why a value can't work, in words.
ghost use Rattle.std.specs.Prelude.{◌≤◌};

use crate::explanations::Source;
use crate::ids::overlap;
use crate::neighbour_cursor::{NeighbourCheck, NeighbourCursor};
use crate::neighbours::{self, ip_of, mac_of, side_of};
use crate::values::Values;
use crate::works::{is_broadcast_address, is_group, is_network_address};
use crate::{Key, Name, Section};
use addresses::{Ip, Mac};
use nat_types::Side;
use settings::{GatewaySettings, Settings};
use std::fmt::Display;
use toml::Table;

/// Explains that the two gateways' port ranges share a port.
pub(crate) fn explain_overlap(source: Source<'_>, values: &Values) -> Option<String> {
    let (zero, one) = (values.zero_ports, values.one_ports);
    if !overlap(zero, one) {
        return None;
    }
    let port = zero.lowest.0.max(one.lowest.0);
    source.explanation(format_args!("ports.zero and ports.one both have {port}"))
}

/// Explains that the two gateways share an address, a MAC or a loopback port, or that one has a virtual address: the
/// first that they share.
pub(crate) fn explain_shared(source: Source<'_>, values: &Values) -> Option<String> {
    let (zero, one) = (Section::GatewayZero, Section::GatewayOne);
    let ips = ips_of(zero, &values.zero);
    let other_ips = ips_of(one, &values.one);
    let virtual_ips = [
        (
            Key::new(Section::Inside, Name::Virtual),
            values.inside.virtual_ip,
        ),
        (
            Key::new(Section::Outside, Name::Virtual),
            values.outside.virtual_ip,
        ),
    ];
    let macs = macs_of(zero, &values.zero);
    let ports = ports_of(zero, &values.zero);
    explain_equal(source, &ips, &other_ips)
        .or(explain_equal(source, &macs, &macs_of(one, &values.one)))
        .or(explain_equal_ports(source, &ports, &ports_of(one, &values.one)))
        .or(explain_equal(source, &ips, &virtual_ips))
        .or(explain_equal(source, &other_ips, &virtual_ips))
}

/// Explains that a value of one list stands in another too: the first one.
fn explain_equal<T: PartialEq + Copy + Display + Drop>(
    source: Source<'_>,
    values: &[(Key, T)],
    others: &[(Key, T)],
) -> Option<String> {
    for (key, value) in values {
        if let Some(other) = key_of(others, *value) {
            return source.explanation(format_args!("{key} and {other} are both {value}"));
        }
    }
    None
}

/// Explains that a loopback port of one list stands in another too: the first one.
fn explain_equal_ports(
    source: Source<'_>,
    ports: &[(Key, Option<u16>)],
    others: &[(Key, Option<u16>)],
) -> Option<String> {
    for (key, port) in ports {
        if let (Some(port), Some(other)) = (*port, key_of(others, *port)) {
            return source.explanation(format_args!("{key} and {other} are both {port}"));
        }
    }
    None
}

/// Returns the first key that has a value.
fn key_of<T: PartialEq + Copy>(values: &[(Key, T)], wanted: T) -> Option<Key> {
    for (key, value) in values {
        if *value == wanted {
            return Some(*key);
        }
    }
    None
}

/// Returns the addresses of a gateway.
fn ips_of(section: Section, gateway: &GatewaySettings) -> [(Key, Ip); 2] {
    [
        (Key::new(section, Name::InsideIp), gateway.inside_ip),
        (Key::new(section, Name::OutsideIp), gateway.outside_ip),
    ]
}

/// Returns the MACs of a gateway.
fn macs_of(section: Section, gateway: &GatewaySettings) -> [(Key, Mac); 2] {
    [
        (Key::new(section, Name::InsideMac), gateway.inside_mac),
        (Key::new(section, Name::OutsideMac), gateway.outside_mac),
    ]
}

/// Returns the loopback ports of a gateway.
fn ports_of(section: Section, gateway: &GatewaySettings) -> [(Key, Option<u16>); 3] {
    [
        (Key::new(section, Name::Link), gateway.link),
        (Key::new(section, Name::InsidePort), gateway.inside_port),
        (Key::new(section, Name::OutsidePort), gateway.outside_port),
    ]
}

/// Explains a key whose value can't work.
pub(crate) fn explain_unworkable(
    source: Source<'_>,
    document: &Table,
    settings: &Settings,
    key: Key,
    cursor: &mut NeighbourCursor,
) -> Option<String> {
    let (inside, outside) = (&settings.inside, &settings.outside);
    let name = key.name?;
    match key.section {
        Section::Inside => explain_end(source, key, inside.virtual_ip, inside.prefix_length),
        Section::Outside if matches!(name, Name::Router) => {
            let ips = own_ips(settings, Side::Outside);
            let router = settings.router;
            explain_equal(source, &[(key, router)], &ips).or(explain_end(
                source,
                key,
                router,
                outside.prefix_length,
            ))
        }
        Section::Outside => explain_end(source, key, outside.virtual_ip, outside.prefix_length),
        Section::GatewayZero => explain_gateway(source, settings, key, &settings.zero),
        Section::GatewayOne => explain_gateway(source, settings, key, &settings.one),
        Section::Neighbour => explain_neighbour(source, document, settings, name, cursor),
        Section::Ports | Section::Icmp | Section::Fragments | Section::Vrrp => None,
    }
}

/// Explains an address that is the first or the last of its network.
fn explain_end(source: Source<'_>, key: Key, address: Ip, length: u8) -> Option<String>
    requires { length ≤ 32 }
{
    if is_network_address(address, length) {
        return source.explanation(format_args!(
            "{key} is {address}; with {length} bits of prefix that is the network itself"
        ));
    }
    if is_broadcast_address(address, length) {
        return source.explanation(format_args!(
            "{key} is {address}; with {length} bits of prefix that is the broadcast address"
        ));
    }
    None
}

/// Explains a key of a gateway whose value can't work.
fn explain_gateway(
    source: Source<'_>,
    settings: &Settings,
    key: Key,
    gateway: &GatewaySettings,
) -> Option<String> {
    let inside = settings.inside.prefix_length;
    let outside = settings.outside.prefix_length;
    match key.name? {
        Name::InsideIp => explain_end(source, key, gateway.inside_ip, inside),
        Name::OutsideIp => explain_end(source, key, gateway.outside_ip, outside),
        Name::InsideMac => explain_mac(source, key, gateway.inside_mac),
        Name::OutsideMac => explain_mac(source, key, gateway.outside_mac),
        _ => None,
    }
}

/// Explains a MAC that no gateway can have.
fn explain_mac<K: Display + Drop>(source: Source<'_>, key: K, mac: Mac) -> Option<String> {
    let why = if is_group(mac) {
        "a group's address, since its first byte is odd"
    } else if mac.0 == [0; 6] {
        "no station's address"
    } else {
        "a virtual router's address"
    };
    source.explanation(format_args!("{key} is {mac}; {why}"))
}

/// Explains a key of the next neighbour for which the value can't work.
fn explain_neighbour(
    source: Source<'_>,
    document: &Table,
    settings: &Settings,
    name: Name,
    cursor: &mut NeighbourCursor,
) -> Option<String> {
    let tables = neighbours::tables(document)?;
    let (number, neighbour) = cursor.next(tables, NeighbourCheck::Works(settings), name)?;
    match name {
        Name::Ip => {
            let address = ip_of(neighbour)?;
            let key = key_of(&own_ips(settings, side_of(neighbour)?), address)?;
            source.explanation(format_args!(
                "ip of [[neighbour]] {number} and {key} are both {address}"
            ))
        }
        _ => {
            let key = format!(in source.alloc; "mac of [[neighbour]] {number}").ok()?;
            explain_mac(source, key, mac_of(neighbour)?)
        }
    }
}

/// Returns the addresses that the pair has on a side.
fn own_ips(settings: &Settings, side: Side) -> [(Key, Ip); 3] {
    let (zero, one) = (Section::GatewayZero, Section::GatewayOne);
    match side {
        Side::Inside => [
            (
                Key::new(Section::Inside, Name::Virtual),
                settings.inside.virtual_ip,
            ),
            (Key::new(zero, Name::InsideIp), settings.zero.inside_ip),
            (Key::new(one, Name::InsideIp), settings.one.inside_ip),
        ],
        Side::Outside => [
            (
                Key::new(Section::Outside, Name::Virtual),
                settings.outside.virtual_ip,
            ),
            (Key::new(zero, Name::OutsideIp), settings.zero.outside_ip),
            (Key::new(one, Name::OutsideIp), settings.one.outside_ip),
        ],
    }
}
