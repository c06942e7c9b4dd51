//! What is wrong with a value that is bad, in words.

use crate::bad_values::network_of;
use crate::explanations::Source;
use crate::fields::{address_at, entry, is_port, list, value_at};
use crate::limits::{Numbers, numbers_of, prefix_length};
use crate::neighbour_cursor::{NeighbourCheck, NeighbourCursor};
use crate::neighbours::{self, MAX_NEIGHBOURS, field_of, ip_of};
use crate::shown::Shown;
use crate::{Key, Name, Section};
use addresses::Prefix;
use nat_types::Side;
use std::fmt::{self, Display, Formatter};
use toml::{Table, Value};

/// Explains a key whose value is bad.
pub(crate) fn explain_bad_value(
    source: Source<'_>,
    document: &Table,
    key: Key,
    cursor: &mut NeighbourCursor,
) -> Option<String> {
    let section = key.section;
    let Some(name) = key.name else {
        return explain_section(source, document, section);
    };
    if matches!(section, Section::Neighbour) {
        return explain_neighbour(source, document, name, cursor);
    }
    let value = value_at(document, section, name)?;
    if let (Section::Outside, Name::Prefix, Ok(length)) = (
        section,
        name,
        prefix_length(document, section),
    ) {
        return explain_common_addresses(source, document, length);
    }
    let wanted = wanted_at(document, section, name, value);
    let value = Shown(value);
    source.explanation(format_args!("{key} is {value}; {wanted}"))
}

/// Explains a section that isn't one, or has too many tables.
fn explain_section(source: Source<'_>, document: &Table, section: Section) -> Option<String> {
    let name = section.as_str();
    if let Some(tables) = neighbours::tables(document) {
        let (count, most) = (tables.len(), MAX_NEIGHBOURS);
        if matches!(section, Section::Neighbour) {
            return source.explanation(format_args!(
                "there are {count} [[neighbour]]; at most {most}"
            ));
        }
    }
    let value = Shown(entry(document, name)?);
    match section {
        Section::Neighbour => source.explanation(format_args!(
            "{name} is {value}; a section for each neighbour, [[{name}]]"
        )),
        _ => source.explanation(format_args!("{name} is {value}; a section, [{name}]")),
    }
}

/// Explains that the two networks, the outside one with this prefix length, share addresses.
fn explain_common_addresses(source: Source<'_>, document: &Table, length: u8) -> Option<String> {
    let outside = address_at(document, Section::Outside, Name::Virtual)?;
    let inside = NetworkOf(network_of(document, Section::Inside)?);
    source.explanation(format_args!(
        "outside.prefix is {length}; the network of {outside}/{length} shares addresses with that of {inside}"
    ))
}

/// Explains a key of the next neighbour for which the value is bad.
fn explain_neighbour(
    source: Source<'_>,
    document: &Table,
    name: Name,
    cursor: &mut NeighbourCursor,
) -> Option<String> {
    let inside = network_of(document, Section::Inside);
    let outside = network_of(document, Section::Outside);
    let tables = neighbours::tables(document)?;
    let check = NeighbourCheck::Good { inside, outside };
    let (number, neighbour) = cursor.next(tables, check, name)?;
    let network = match neighbours::side_of(neighbour) {
        Some(Side::Inside) => inside,
        Some(Side::Outside) => outside,
        None => None,
    };
    let wanted = match (name, ip_of(neighbour), network) {
        (Name::Side, _, _) => Wanted::Side,
        (Name::Ip, Some(_), Some(network)) => Wanted::AddressIn(network),
        (Name::Ip, _, _) => Wanted::Address,
        _ => Wanted::Mac,
    };
    let value = Shown(field_of(neighbour, name)?);
    let text = name.as_str();
    source.explanation(format_args!("{text} of [[neighbour]] {number} is {value}; {wanted}"))
}

/// What the value at a key has to be.
#[derive(Clone, Copy)]
enum Wanted {
    /// One of some numbers, where the value is a number.
    Within(Numbers),
    /// One of some numbers, where the value is something else.
    Number(Numbers),
    Range,
    /// A range, where the value is two ports in the wrong order.
    Order,
    Address,
    AddressIn(Prefix),
    Mac,
    Flag,
    Text,
    Side,
    Choice,
}

impl Display for Wanted {
    fn fmt<W: fmt::Write>(&self, f: &mut Formatter<W>) -> fmt::Result {
        match self {
            Wanted::Within(numbers) => f.write(numbers),
            Wanted::Number(numbers) => write!(f, "a whole number, {numbers}"),
            Wanted::Range => f.write_str("two ports from 1024 to 65535, as [20000, 39999]"),
            Wanted::Order => f.write_str("the lower port first"),
            Wanted::Address => f.write_str("an IPv4 address, as \"192.0.2.1\""),
            Wanted::AddressIn(network) => {
                write!(f, "an address in the network of {}", NetworkOf(*network))
            }
            Wanted::Mac => f.write_str("six bytes, as \"02-00-00-00-01-00\""),
            Wanted::Flag => f.write_str("true or false"),
            Wanted::Text => f.write_str("a text in quotes"),
            Wanted::Side => f.write_str("\"inside\" or \"outside\""),
            Wanted::Choice => f.write_str("\"lowest\" or \"drawn\""),
        }
    }
}

/// A network, as one of its addresses and the length of its prefix.
#[derive(Clone, Copy)]
struct NetworkOf(Prefix);

impl Display for NetworkOf {
    fn fmt<W: fmt::Write>(&self, f: &mut Formatter<W>) -> fmt::Result {
        let (address, length) = (self.0.address, self.0.length);
        write!(f, "{address}/{length}")
    }
}

/// Returns what the value at a key of a section has to be.
fn wanted_at(document: &Table, section: Section, name: Name, value: &Value) -> Wanted {
    match name {
        Name::Zero | Name::One => wanted_range(value),
        Name::Virtual => Wanted::Address,
        Name::Router | Name::OutsideIp => wanted_host(document, section, name, Section::Outside),
        Name::InsideIp => wanted_host(document, section, name, Section::Inside),
        Name::InsideMac | Name::OutsideMac => Wanted::Mac,
        Name::Preempt
        | Name::Echo
        | Name::Errors
        | Name::Pass
        | Name::InwardRefresh
        | Name::PeerOnly => Wanted::Flag,
        Name::Choice => Wanted::Choice,
        _ => match numbers_of(name) {
            Some(numbers) if value.is_integer() => Wanted::Within(numbers),
            Some(numbers) => Wanted::Number(numbers),
            None => Wanted::Text,
        },
    }
}

/// Returns what an address has to be that lies in the network of a side.
fn wanted_host(document: &Table, section: Section, name: Name, side: Section) -> Wanted {
    match (
        address_at(document, section, name),
        network_of(document, side),
    ) {
        (Some(_), Some(network)) => Wanted::AddressIn(network),
        _ => Wanted::Address,
    }
}

/// Returns what a range has to be.
fn wanted_range(value: &Value) -> Wanted {
    match list(value) {
        Some([low, high]) if is_port(low) && is_port(high) => Wanted::Order,
        _ => Wanted::Range,
    }
}
