//! The keys of a document whose values are bad.

use crate::key_checks::add_failing;
use crate::neighbours::{self, MAX_NEIGHBOURS};
use crate::{Key, Name, Section, choices, fields, limits, sections};
use addresses::Prefix;
use nat_types::Side;
use std::alloc::{AllocError, Global};
use toml::{Table, Value};

/// Returns all keys whose values are bad, in the order of the text. An address is compared with its network only where
/// the network is known, so that a bad prefix isn't a fault of each address in it too.
pub(crate) fn bad_values(alloc: Global, document: &Table) -> Result<Vec<Key>, AllocError> {
    let inside = network_of(document, Section::Inside);
    let outside = network_of(document, Section::Outside);
    let mut found = Vec::new(alloc);
    add_keys(&bad_in_sections(document, inside, outside), &mut found)?;
    add_keys(&bad_in_optional_sections(document), &mut found)?;
    for section in [Section::GatewayZero, Section::GatewayOne] {
        add_keys(
            &bad_in_gateway(document, section, inside, outside),
            &mut found,
        )?;
    }
    match neighbours::tables(document) {
        Some(tables) if tables.len() <= MAX_NEIGHBOURS => {
            for table in tables {
                add_failing(&neighbour_rows(table, inside, outside), &mut found)?;
            }
        }
        _ => found.push(Key::whole(Section::Neighbour))?,
    }
    Ok(found)
}

/// Adds the keys that aren't None.
fn add_keys(keys: &[Option<Key>], found: &mut Vec<Key>) -> Result<(), AllocError> {
    for key in keys {
        if let Some(key) = key {
            found.push(*key)?;
        }
    }
    Ok(())
}

/// Returns the network of a side, or None where its address or its prefix is bad.
pub(crate) fn network_of(document: &Table, section: Section) -> Option<Prefix> {
    let address = fields::required_address(document, section, Name::Virtual);
    match (address, limits::prefix_length(document, section)) {
        (Ok(address), Ok(length)) => Some(Prefix::new(address, length)),
        _ => None,
    }
}

/// Returns the keys of the ports, the networks and the router whose values are bad.
fn bad_in_sections(
    document: &Table,
    inside: Option<Prefix>,
    outside: Option<Prefix>,
) -> [Option<Key>; 18] {
    let (ports, inner, outer) = (Section::Ports, Section::Inside, Section::Outside);
    [
        fields::required_range(document, ports, Name::Zero).err(),
        fields::required_range(document, ports, Name::One).err(),
        limits::host_limit(document).err(),
        limits::alone(document).err(),
        fields::flag_or(document, ports, Name::InwardRefresh, true).err(),
        choices::choice(document, ports, Name::Choice).err(),
        limits::ahead(document).err(),
        fields::required_address(document, inner, Name::Virtual).err(),
        limits::prefix_length(document, inner).err(),
        limits::virtual_router(document, inner).err(),
        limits::port(document, inner, Name::Wire).err(),
        limits::mtu(document, inner).err(),
        fields::required_address(document, outer, Name::Virtual).err(),
        bad_outside_prefix(document, inside),
        limits::virtual_router(document, outer).err(),
        limits::port(document, outer, Name::Wire).err(),
        bad_host(document, outer, Name::Router, outside),
        limits::mtu(document, outer).err(),
    ]
}

/// Returns the keys of ICMP, of fragments and of VRRP whose values are bad.
fn bad_in_optional_sections(document: &Table) -> [Option<Key>; 7] {
    let (icmp, fragments, vrrp) = (Section::Icmp, Section::Fragments, Section::Vrrp);
    [
        bad_section(document, icmp),
        fields::flag_or(document, icmp, Name::Echo, false).err(),
        fields::flag_or(document, icmp, Name::Errors, false).err(),
        bad_section(document, fragments),
        fields::flag_or(document, fragments, Name::Pass, false).err(),
        bad_section(document, vrrp),
        fields::flag_or(document, vrrp, Name::PeerOnly, false).err(),
    ]
}

/// Returns the key of a section where that is there and no table.
fn bad_section(document: &Table, section: Section) -> Option<Key> {
    if sections::is_section(document, section) {
        None
    } else {
        Some(Key::whole(section))
    }
}

/// Returns the keys of a gateway whose values are bad.
fn bad_in_gateway(
    document: &Table,
    section: Section,
    inside: Option<Prefix>,
    outside: Option<Prefix>,
) -> [Option<Key>; 11] {
    [
        bad_host(document, section, Name::InsideIp, inside),
        fields::required_mac(document, section, Name::InsideMac).err(),
        bad_host(document, section, Name::OutsideIp, outside),
        fields::required_mac(document, section, Name::OutsideMac).err(),
        limits::priority(document, section).err(),
        limits::interval(document, section).err(),
        fields::flag_or(document, section, Name::Preempt, true).err(),
        fields::required_text(document, section, Name::BootFile).err(),
        limits::port(document, section, Name::Link).err(),
        limits::port(document, section, Name::InsidePort).err(),
        limits::port(document, section, Name::OutsidePort).err(),
    ]
}

/// Returns the key of the outside prefix where that is bad, or where both networks are known and share an address.
fn bad_outside_prefix(document: &Table, inside: Option<Prefix>) -> Option<Key> {
    let length = match limits::prefix_length(document, Section::Outside) {
        Ok(length) => length,
        Err(key) => return Some(key),
    };
    match (
        inside,
        fields::required_address(document, Section::Outside, Name::Virtual),
    ) {
        (Some(inside), Ok(address)) if !sections::is_apart(inside, address, length) => {
            Some(Key::new(Section::Outside, Name::Prefix))
        }
        _ => None,
    }
}

/// Returns the key of an address where that is bad, or where its network is known and the address lies outside.
fn bad_host(
    document: &Table,
    section: Section,
    name: Name,
    network: Option<Prefix>,
) -> Option<Key> {
    match network {
        Some(network) => fields::required_host(document, section, name, network).err(),
        None => fields::required_address(document, section, name).err(),
    }
}

/// Returns the keys of a neighbour, each with whether its value is good.
pub(crate) fn neighbour_rows(
    table: &Value,
    inside: Option<Prefix>,
    outside: Option<Prefix>,
) -> [(Key, bool); 3] {
    let side = neighbours::side_of(table);
    let network = match side {
        Some(Side::Inside) => inside,
        Some(Side::Outside) => outside,
        None => None,
    };
    let is_host = match (neighbours::ip_of(table), network) {
        (Some(ip), Some(network)) => fields::is_in(ip, network),
        (Some(_), None) => true,
        (None, _) => false,
    };
    let has_mac = neighbours::mac_of(table).is_some();
    [
        (Key::new(Section::Neighbour, Name::Side), side.is_some()),
        (Key::new(Section::Neighbour, Name::Ip), is_host),
        (Key::new(Section::Neighbour, Name::Mac), has_mac),
    ]
}
