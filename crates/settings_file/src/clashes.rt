//! Loopback ports that two places of the same machine can't both bind.

use crate::{Key, Name, OnLoopback, Section};
use nat_types::GatewayId;
use settings::Settings;
use std::alloc::AllocError;
use std::fmt;

/// A key whose loopback port an earlier key has too, in the order of the text.
#[derive(Clone, Copy)]
pub struct PortClash {
    pub key: Key,
    pub earlier: Key,
    pub port: u16,
}

/// Prints both keys and the port.
impl fmt::Display for PortClash {
    fn fmt<W: fmt::Write>(&self, f: &mut fmt::Formatter<W>) -> fmt::Result {
        let PortClash { key, earlier, port } = self;
        write!(f, "{earlier} and {key} are both {port}")
    }
}

/// The same text.
impl fmt::Debug for PortClash {
    fn fmt<W: fmt::Write>(&self, f: &mut fmt::Formatter<W>) -> fmt::Result {
        fmt::Display::fmt(self, f)
    }
}

/// A key of a port, and the port, or None where it is left out or its place isn't on loopback.
type Row = (Key, Option<u16>);

/// Returns the first key, in the order of the text, whose loopback port an earlier key has too, among the ports that a
/// box binds and those to which it sends frames. Only the places on loopback count.
pub fn port_clash(settings: &Settings, id: GatewayId, on: OnLoopback) -> Option<PortClash> {
    let section = match id {
        GatewayId::Zero => Section::GatewayZero,
        GatewayId::One => Section::GatewayOne,
    };
    let gateway = settings.gateway(id);
    let rows = [
        row(Section::Inside, Name::Wire, settings.inside.wire, on.inside),
        row(
            Section::Outside,
            Name::Wire,
            settings.outside.wire,
            on.outside,
        ),
        row(section, Name::Link, gateway.link, on.link),
        row(section, Name::InsidePort, gateway.inside_port, on.inside),
        row(section, Name::OutsidePort, gateway.outside_port, on.outside),
    ];
    first_clash(&rows)
}

/// Returns the first key, in the order of the text, whose loopback port an earlier key has too, for both boxes on one
/// machine with all their places on loopback.
pub fn port_clash_of_both(settings: &Settings) -> Option<PortClash> {
    first_clash(&rows_of_both(settings))
}

/// Adds all keys, in the order of the text, whose loopback port an earlier key has too, for both boxes on one machine.
///
/// # Errors
///
/// Out of memory. Some of the keys may be added then.
pub fn add_port_clashes(settings: &Settings, found: &mut Vec<Key>) -> Result<(), AllocError> {
    let rows = rows_of_both(settings);
    for (index, row) in rows.iter().enumerate() {
        if let Some(clash) = clash_with(&rows[..index], *row) {
            found.push(clash.key)?;
        }
    }
    Ok(())
}

fn row(section: Section, name: Name, port: Option<u16>, on_loopback: bool) -> Row {
    let key = Key::new(section, name);
    if on_loopback {
        (key, port)
    } else {
        (key, None)
    }
}

/// Returns the ports of both boxes in the order of the text.
fn rows_of_both(settings: &Settings) -> [Row; 8] {
    let Settings {
        inside,
        outside,
        zero,
        one,
        ..
    } = settings;
    [
        row(Section::Inside, Name::Wire, inside.wire, true),
        row(Section::Outside, Name::Wire, outside.wire, true),
        row(Section::GatewayZero, Name::Link, zero.link, true),
        row(
            Section::GatewayZero,
            Name::InsidePort,
            zero.inside_port,
            true,
        ),
        row(
            Section::GatewayZero,
            Name::OutsidePort,
            zero.outside_port,
            true,
        ),
        row(Section::GatewayOne, Name::Link, one.link, true),
        row(Section::GatewayOne, Name::InsidePort, one.inside_port, true),
        row(
            Section::GatewayOne,
            Name::OutsidePort,
            one.outside_port,
            true,
        ),
    ]
}

/// Returns the clash of the first row whose port an earlier row has.
fn first_clash(rows: &[Row]) -> Option<PortClash> {
    for (index, row) in rows.iter().enumerate() {
        let clash = clash_with(&rows[..index], *row);
        if clash.is_some() {
            return clash;
        }
    }
    None
}

/// Returns the clash of a row with the first earlier one that has its port.
fn clash_with(earlier: &[Row], row: Row) -> Option<PortClash> {
    let (key, Some(port)) = row else {
        return None;
    };
    for (other, taken) in earlier {
        if *taken == Some(port) {
            let earlier = *other;
            return Some(PortClash { key, earlier, port });
        }
    }
    None
}
