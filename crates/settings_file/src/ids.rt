//! Comparisons of what the two gateways must not share.
ghost use Rattle.std.specs.Prelude.{◌≡◌, Some};
ghost use Rattle.std.specs.List.{list_any};
ghost use Rattle.settings_file.specs.Settings.{overlap, share, same_number, same_bytes};
ghost use Rattle.settings_file.specs.Ids.{own_addresses, own_macs, own_sockets, is_virtual, same_ids};

use addresses::Ip;
use settings::{GatewaySettings, PortRange};

/// Whether two ranges share a port.
pub(crate) fn overlap(zero: PortRange, one: PortRange) -> bool
    ensures { result ≡ overlap (Some (zero.lowest.0, zero.highest.0))
        (Some (one.lowest.0, one.highest.0)) }
{
    zero.lowest.0 <= one.highest.0 && one.lowest.0 <= zero.highest.0
}

/// Whether two gateways have an address in common.
fn share_address(zero: &GatewaySettings, one: &GatewaySettings) -> bool
    ensures { result ≡ share same_number (own_addresses zero.now) (own_addresses one.now) }
{
    zero.inside_ip.0 == one.inside_ip.0
        || zero.inside_ip.0 == one.outside_ip.0
        || zero.outside_ip.0 == one.inside_ip.0
        || zero.outside_ip.0 == one.outside_ip.0
}

/// Whether two gateways have a MAC in common.
fn share_mac(zero: &GatewaySettings, one: &GatewaySettings) -> bool
    ensures { result ≡ share same_bytes (own_macs zero.now) (own_macs one.now) }
{
    zero.inside_mac == one.inside_mac
        || zero.inside_mac == one.outside_mac
        || zero.outside_mac == one.inside_mac
        || zero.outside_mac == one.outside_mac
}

/// Whether two ports are there, and the same.
fn same_port(port: Option<u16>, other: Option<u16>) -> bool
    ensures { result ≡ same_number port other }
{
    match (port, other) {
        (Some(port), Some(other)) => port == other,
        _ => false,
    }
}

/// Whether a port is there, and one of a gateway's loopback ports.
fn has_port(gateway: &GatewaySettings, port: Option<u16>) -> bool
    ensures { result ≡ list_any (same_number port) (own_sockets gateway.now) }
{
    same_port(port, gateway.link)
        || same_port(port, gateway.inside_port)
        || same_port(port, gateway.outside_port)
}

/// Whether two gateways have a loopback port in common.
fn share_port(zero: &GatewaySettings, one: &GatewaySettings) -> bool
    ensures { result ≡ share same_number (own_sockets zero.now) (own_sockets one.now) }
{
    has_port(one, zero.link) || has_port(one, zero.inside_port) || has_port(one, zero.outside_port)
}

/// Whether an address of a gateway is the virtual one of its side.
fn is_virtual(gateway: &GatewaySettings, inside: Ip, outside: Ip) -> bool
    ensures { result ≡ is_virtual gateway.now inside.0 outside.0 }
{
    gateway.inside_ip.0 == inside.0 || gateway.outside_ip.0 == outside.0
}

/// Whether the two gateways share an address, a MAC or a loopback port, or one of them has a virtual address.
#[tactic(auto, unfolding(crate::specs::Ids::same_ids))]
pub(crate) fn same_ids(
    zero: &GatewaySettings,
    one: &GatewaySettings,
    inside: Ip,
    outside: Ip,
) -> bool
    ensures { result ≡ same_ids zero.now one.now inside.0 outside.0 }
{
    share_address(zero, one)
        || share_mac(zero, one)
        || share_port(zero, one)
        || is_virtual(zero, inside, outside)
        || is_virtual(one, inside, outside)
}
