//! The warnings of settings.

use crate::port_warnings::KEPT;
use crate::{PortWarning, Warning, WarningKind};
use addresses::Ip;
use nat_types::Side;
use settings::{Choice, GatewaySettings, InterfaceSettings, Neighbour, PortRange, Settings};
use settings_file::{Key, Name, Section, add_left_out_ports, add_port_clashes, is_network_address};
use std::alloc::{AllocError, Global};

/// The longest path of a boot file beside which the control socket's path isn't too long, in bytes: the 107 of a
/// socket's path, less the end of its name.
const MAX_BOOT_FILE_PATH: usize = 107 - ".control/socket".len();

/// Returns all warnings of settings: those of the ports, of the networks, of advertisements, of each gateway, of both
/// gateways and of the neighbours, then the loopback ports that two keys have, and those that are left out beside others
/// of their place.
///
/// # Errors
///
/// Out of memory.
pub fn warnings_of(alloc: Global, settings: &Settings) -> Result<Vec<Warning>, AllocError> {
    let Settings { zero, one, .. } = settings;
    let mut found = Vec::new(alloc);
    add_warnings(&port_warnings(settings), &mut found)?;
    add_warnings(&inside_warnings(settings), &mut found)?;
    add_warnings(&outside_warnings(settings), &mut found)?;
    add_warnings(&[vrrp_warning(settings)], &mut found)?;
    add_warnings(&gateway_warnings(Section::GatewayZero, zero), &mut found)?;
    add_warnings(&gateway_warnings(Section::GatewayOne, one), &mut found)?;
    add_warnings(&pair_warnings(zero, one), &mut found)?;
    add_neighbours(settings.neighbours.as_slice(), &mut found)?;
    let (mut clashes, mut left_out) = (Vec::new(alloc), Vec::new(alloc));
    add_port_clashes(settings, &mut clashes)?;
    add_keys(clashes.as_slice(), WarningKind::SamePort, &mut found)?;
    add_left_out_ports(settings, &mut left_out)?;
    add_keys(left_out.as_slice(), WarningKind::PortLeftOut, &mut found)?;
    Ok(found)
}

/// Adds a warning of one kind at each of some keys.
fn add_keys(keys: &[Key], kind: WarningKind, found: &mut Vec<Warning>) -> Result<(), AllocError> {
    for key in keys {
        found.push(Warning { key: *key, kind })?;
    }
    Ok(())
}

/// Adds the warnings that aren't None.
fn add_warnings(warnings: &[Option<Warning>], found: &mut Vec<Warning>) -> Result<(), AllocError> {
    for warning in warnings {
        if let Some(warning) = warning {
            found.push(*warning)?;
        }
    }
    Ok(())
}

/// Returns a warning where its condition holds.
fn warn_if(condition: bool, section: Section, name: Name, kind: WarningKind) -> Option<Warning> {
    if condition {
        let key = Key::new(section, name);
        Some(Warning { key, kind })
    } else {
        None
    }
}

/// Returns a warning at a key of `[ports]` where its condition holds.
fn warn_of_ports(condition: bool, name: Name, warning: PortWarning) -> Option<Warning> {
    warn_if(condition, Section::Ports, name, WarningKind::Ports(warning))
}

fn port_warnings(settings: &Settings) -> [Option<Warning>; 8] {
    let Settings {
        ports,
        alone,
        ahead,
        ..
    } = settings;
    let one_zero = has_one_port(ports.zero);
    let one_one = has_one_port(ports.one);
    let is_unlimited = ports.host_limit.is_none();
    let (is_never, is_late) = (*alone == 0, *alone > KEPT);
    let is_lowest = settings.choice == Choice::Lowest;
    let is_much = exceeds_quarter(*ahead, ports.zero) || exceeds_quarter(*ahead, ports.one);
    [
        warn_of_ports(one_zero, Name::Zero, PortWarning::OnePort),
        warn_of_ports(one_one, Name::One, PortWarning::OnePort),
        warn_of_ports(is_unlimited, Name::HostLimit, PortWarning::NoLimit),
        warn_of_ports(is_never, Name::Alone, PortWarning::NeverAlone),
        warn_of_ports(is_late, Name::Alone, PortWarning::LateAlone),
        warn_of_ports(is_lowest, Name::Choice, PortWarning::LowestPort),
        warn_of_ports(*ahead == 0, Name::Ahead, PortWarning::NoneAhead),
        warn_of_ports(is_much, Name::Ahead, PortWarning::MuchAhead),
    ]
}

/// Whether a number of ports is above a quarter of a range.
fn exceeds_quarter(ports: u16, range: PortRange) -> bool {
    let size = u32::from(range.highest.0 - range.lowest.0) + 1;
    u32::from(ports) > size / 4
}

/// The most bytes that a network's longest packet may have.
const LONGEST: u16 = 1500;

/// Whether packets that are too long for a network are lost, though they may be cut.
fn loses_uncut(settings: &Settings, network: &InterfaceSettings) -> bool {
    network.mtu < LONGEST && !settings.fragments.pass
}

fn inside_warnings(settings: &Settings) -> [Option<Warning>; 2] {
    let (section, network) = (Section::Inside, &settings.inside);
    let martian = is_martian(network.virtual_ip);
    let uncut = loses_uncut(settings, network);
    [
        warn_if(martian, section, Name::Virtual, WarningKind::Martian),
        warn_if(uncut, section, Name::Mtu, WarningKind::Uncut),
    ]
}

fn outside_warnings(settings: &Settings) -> [Option<Warning>; 5] {
    let (section, network) = (Section::Outside, &settings.outside);
    let martian = is_martian(network.virtual_ip);
    let same_number = settings.inside.virtual_router == network.virtual_router;
    let is_network = is_network_address(settings.router, network.prefix_length);
    let is_learnt = !has_router(settings);
    let uncut = loses_uncut(settings, network);
    [
        warn_if(martian, section, Name::Virtual, WarningKind::Martian),
        warn_if(same_number, section, Name::Vrid, WarningKind::SameNumber),
        warn_if(
            is_network,
            section,
            Name::Router,
            WarningKind::NetworkAddress,
        ),
        warn_if(is_learnt, section, Name::Router, WarningKind::LearntRouter),
        warn_if(uncut, section, Name::Mtu, WarningKind::Uncut),
    ]
}

/// Whether the router is a static neighbour.
fn has_router(settings: &Settings) -> bool {
    let neighbours = settings.neighbours.as_slice();
    neighbours
        .iter()
        .any(|it| it.side == Side::Outside && it.ip == settings.router)
}

fn vrrp_warning(settings: &Settings) -> Option<Warning> {
    warn_if(
        !settings.vrrp.peer_only,
        Section::Vrrp,
        Name::PeerOnly,
        WarningKind::AnyAdvertisement,
    )
}

fn gateway_warnings(section: Section, gateway: &GatewaySettings) -> [Option<Warning>; 4] {
    let path = gateway.boot_file.len();
    let same_mac = gateway.inside_mac == gateway.outside_mac;
    let is_short = gateway.interval == 1;
    let (is_empty, is_long) = (path == 0, path > MAX_BOOT_FILE_PATH);
    [
        warn_if(same_mac, section, Name::OutsideMac, WarningKind::SameMac),
        warn_if(
            is_short,
            section,
            Name::Interval,
            WarningKind::ShortInterval,
        ),
        warn_if(is_empty, section, Name::BootFile, WarningKind::EmptyPath),
        warn_if(is_long, section, Name::BootFile, WarningKind::LongPath),
    ]
}

/// Returns the warnings of the two gateways together, at the keys of gateway 1.
fn pair_warnings(zero: &GatewaySettings, one: &GatewaySettings) -> [Option<Warning>; 4] {
    let section = Section::GatewayOne;
    let same_priority = zero.priority == one.priority;
    let other_interval = zero.interval != one.interval;
    let other_preempt = zero.preempt != one.preempt;
    let same_path = zero.boot_file.as_str() == one.boot_file.as_str();
    [
        warn_if(
            same_priority,
            section,
            Name::Priority,
            WarningKind::SamePriority,
        ),
        warn_if(
            other_interval,
            section,
            Name::Interval,
            WarningKind::OtherInterval,
        ),
        warn_if(
            other_preempt,
            section,
            Name::Preempt,
            WarningKind::OtherPreempt,
        ),
        warn_if(same_path, section, Name::BootFile, WarningKind::SamePath),
    ]
}

/// Adds a warning for each neighbour that is in the list before.
fn add_neighbours(neighbours: &[Neighbour], found: &mut Vec<Warning>) -> Result<(), AllocError> {
    for (index, neighbour) in neighbours.iter().enumerate() {
        if has_host(&neighbours[..index], neighbour) {
            let key = Key::new(Section::Neighbour, Name::Ip);
            let kind = WarningKind::Twice;
            found.push(Warning { key, kind })?;
        }
    }
    Ok(())
}

/// Whether some neighbours have the host of another one.
fn has_host(earlier: &[Neighbour], neighbour: &Neighbour) -> bool {
    earlier.iter().any(|other| same_host(other, neighbour))
}

/// Whether two neighbours have the same address on the same side.
pub(crate) fn same_host(one: &Neighbour, other: &Neighbour) -> bool {
    one.side == other.side && one.ip == other.ip
}

/// Whether an address is in 0/8, 127/8, 224/4 or 240/4.
fn is_martian(address: Ip) -> bool {
    let first = address.0 >> 24;
    first == 0 || first == 127 || first >= 224
}

fn has_one_port(range: PortRange) -> bool {
    range.lowest == range.highest
}
