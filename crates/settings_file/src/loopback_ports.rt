//! The loopback ports that boxes need. Settings may leave them out.
ghost use Rattle.std.specs.Prelude.{◌≡◌, Some, IfErr, IfOk};
ghost use Rattle.settings_file.specs.Faults.{FindsBad, IsBadAt};
ghost use Rattle.settings_file.specs.Loopback.{is_there_if, port_rows, missing_port, missing_port_of_both, HasPorts};

use crate::key_checks::{add_failing, first_failing};
use crate::{Key, Name, Section};
use nat_types::GatewayId;
use settings::Settings;
use std::alloc::AllocError;

/// The places of a box that are on loopback sockets.
#[derive(Clone, Copy)]
pub struct OnLoopback {
    pub inside: bool,
    pub outside: bool,
    pub link: bool,
}

impl OnLoopback {
    /// No place is.
    const NOWHERE: OnLoopback = OnLoopback {
        inside: false,
        outside: false,
        link: false,
    };
}

/// The loopback ports of a box's own.
#[derive(Clone, Copy)]
pub struct BoxPorts {
    pub link: u16,
    pub inside: u16,
    pub outside: u16,
}

/// Returns the first key, in the order of the text, of a loopback port that a box needs and that settings leave out. A
/// side on loopback needs the box's own port and the side's `wire`; the link needs the ports of both boxes.
pub fn missing_port(settings: &Settings, id: GatewayId, on: OnLoopback) -> Option<Key>
    ensures { result ≡ missing_port settings.now id on }
{
    match id {
        GatewayId::Zero => first_failing(&port_rows(settings, on, OnLoopback::NOWHERE)),
        GatewayId::One => first_failing(&port_rows(settings, OnLoopback::NOWHERE, on)),
    }
}

/// Returns the loopback ports of both boxes, for a machine with all their places on loopback.
///
/// # Errors
///
/// The first key, in the order of the text, of a loopback port that settings leave out, `wire` too.
#[tactic(auto, unfolding(crate::specs::Loopback::port_rows))]
pub fn ports_of_both(settings: &Settings) -> Result<(BoxPorts, BoxPorts), Key>
    ensures zero { IfOk result (λ ports. HasPorts settings.now.zero ports.0) }
    ensures one { IfOk result (λ ports. HasPorts settings.now.one ports.1) }
    ensures bad { FindsBad (missing_port_of_both settings.now) result }
{
    let Settings { zero, one, .. } = settings;
    needed(Section::Inside, Name::Wire, settings.inside.wire)?;
    needed(Section::Outside, Name::Wire, settings.outside.wire)?;
    let zero = BoxPorts {
        link: needed(Section::GatewayZero, Name::Link, zero.link)?,
        inside: needed(Section::GatewayZero, Name::InsidePort, zero.inside_port)?,
        outside: needed(Section::GatewayZero, Name::OutsidePort, zero.outside_port)?,
    };
    let one = BoxPorts {
        link: needed(Section::GatewayOne, Name::Link, one.link)?,
        inside: needed(Section::GatewayOne, Name::InsidePort, one.inside_port)?,
        outside: needed(Section::GatewayOne, Name::OutsidePort, one.outside_port)?,
    };
    Ok((zero, one))
}

/// Adds the keys, in the order of the text, of the loopback ports that settings leave out though they have another one
/// for the same place.
///
/// # Errors
///
/// Out of memory. Some of the keys may be added then.
pub fn add_left_out_ports(settings: &Settings, found: &mut Vec<Key>) -> Result<(), AllocError> {
    let begun = places_with_ports(settings);
    add_failing(&port_rows(settings, begun, begun), found)
}

/// Returns the port at a key.
///
/// # Errors
///
/// The key, where the port is left out.
fn needed(section: Section, name: Name, port: Option<u16>) -> Result<u16, Key>
    ensures ok { IfOk result (λ n. port ≡ Some n) }
    ensures err { IfErr result (IsBadAt section name port) }
{
    port.ok_or(Key::new(section, name))
}

/// Whether a port is there, if it is needed.
fn is_there_if(needed: bool, port: Option<u16>) -> bool
    ensures { result ≡ is_there_if needed port }
{
    !needed || port.is_some()
}

/// Returns the keys of the loopback ports, in the order of the text, each with whether it is there if it is needed by a
/// box with these places of gateway 0, and of gateway 1, on loopback.
#[tactic(auto, unfolding(crate::specs::Loopback::port_rows))]
fn port_rows(settings: &Settings, zero: OnLoopback, one: OnLoopback) -> [(Key, bool); 8]
    ensures { result ≡ port_rows settings.now zero one }
{
    let inside = is_there_if(zero.inside || one.inside, settings.inside.wire);
    let outside = is_there_if(zero.outside || one.outside, settings.outside.wire);
    let link = zero.link || one.link;
    let first = &settings.zero;
    let second = &settings.one;
    let (gateway_zero, gateway_one) = (Section::GatewayZero, Section::GatewayOne);
    [
        (Key::new(Section::Inside, Name::Wire), inside),
        (Key::new(Section::Outside, Name::Wire), outside),
        (
            Key::new(gateway_zero, Name::Link),
            is_there_if(link, first.link),
        ),
        (
            Key::new(gateway_zero, Name::InsidePort),
            is_there_if(zero.inside, first.inside_port),
        ),
        (
            Key::new(gateway_zero, Name::OutsidePort),
            is_there_if(zero.outside, first.outside_port),
        ),
        (
            Key::new(gateway_one, Name::Link),
            is_there_if(link, second.link),
        ),
        (
            Key::new(gateway_one, Name::InsidePort),
            is_there_if(one.inside, second.inside_port),
        ),
        (
            Key::new(gateway_one, Name::OutsidePort),
            is_there_if(one.outside, second.outside_port),
        ),
    ]
}

/// Returns the places for which settings have a loopback port.
fn places_with_ports(settings: &Settings) -> OnLoopback {
    let Settings {
        inside,
        outside,
        zero,
        one,
        ..
    } = settings;
    OnLoopback {
        inside: inside.wire.is_some() || zero.inside_port.is_some() || one.inside_port.is_some(),
        outside: outside.wire.is_some()
            || zero.outside_port.is_some()
            || one.outside_port.is_some(),
        link: zero.link.is_some() || one.link.is_some(),
    }
}
