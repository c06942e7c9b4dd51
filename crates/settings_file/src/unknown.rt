//! The keys of a document that settings don't have.
ghost use Rattle.std.specs.Prelude.{◌≡◌, ◌++◌, Some, None, map, option_map, string_bytes, ◌∷◌, [], IfOk, OnOk};
ghost use Rattle.std.specs.List.{list_any};
ghost use Rattle.toml.specs.Data.{as_table};
ghost use Rattle.toml.specs.View.{table_view, view};
ghost use Rattle.settings_file.specs.declared.keys.Section.TheVariants.{Neighbour};
ghost use Rattle.settings_file.specs.Neighbours.{tables_in};
ghost use Rattle.settings_file.specs.Unknown.{has_text, is_known, section_named, path, unknown_in, unknown_at, unknown_from, unknown_neighbour, unknown_under, unknown_of, lesser, least_from};

use crate::{Name, Section, neighbours};
use std::alloc::{AllocError, Global};
use toml::{Table, Value};

/// The keys of `[ports]`.
const PORTS_KEYS: [Name; 7] = [
    Name::Zero,
    Name::One,
    Name::HostLimit,
    Name::Alone,
    Name::InwardRefresh,
    Name::Choice,
    Name::Ahead,
];

/// The keys of `[inside]`.
const INSIDE_KEYS: [Name; 5] = [
    Name::Virtual,
    Name::Prefix,
    Name::Vrid,
    Name::Wire,
    Name::Mtu,
];

/// The keys of `[outside]`.
const OUTSIDE_KEYS: [Name; 6] = [
    Name::Virtual,
    Name::Prefix,
    Name::Vrid,
    Name::Wire,
    Name::Router,
    Name::Mtu,
];

/// The keys of `[icmp]`.
const ICMP_KEYS: [Name; 2] = [Name::Echo, Name::Errors];

/// The keys of `[fragments]`.
const FRAGMENT_KEYS: [Name; 1] = [Name::Pass];

/// The keys of `[vrrp]`.
const VRRP_KEYS: [Name; 1] = [Name::PeerOnly];

/// The keys of `[gateway_0]` and `[gateway_1]`.
const GATEWAY_KEYS: [Name; 11] = [
    Name::InsideIp,
    Name::InsideMac,
    Name::OutsideIp,
    Name::OutsideMac,
    Name::Priority,
    Name::Interval,
    Name::Preempt,
    Name::BootFile,
    Name::Link,
    Name::InsidePort,
    Name::OutsidePort,
];

/// The keys of a `[[neighbour]]`.
const NEIGHBOUR_KEYS: [Name; 3] = [Name::Side, Name::Ip, Name::Mac];

/// Whether a key has this text.
fn has_text(name: Name, text: &str) -> bool
    ensures { result ≡ has_text text.now name }
{
    name.as_str() == text
}

/// Whether one of some keys has this text.
fn any_has_text(names: &[Name], text: &str) -> bool
    ensures { result ≡ list_any (has_text text.now) names.now }
{
    for name in names {
        if has_text(*name, text) {
            return true;
        }
    }
    false
}

/// Whether a section has a key of this text.
#[tactic(auto, unfolding(crate::specs::Unknown::is_known))]
fn is_known(section: Section, text: &str) -> bool
    ensures { result ≡ is_known section text.now }
{
    match section {
        Section::Ports => any_has_text(&PORTS_KEYS, text),
        Section::Inside => any_has_text(&INSIDE_KEYS, text),
        Section::Outside => any_has_text(&OUTSIDE_KEYS, text),
        Section::Icmp => any_has_text(&ICMP_KEYS, text),
        Section::Fragments => any_has_text(&FRAGMENT_KEYS, text),
        Section::Vrrp => any_has_text(&VRRP_KEYS, text),
        Section::GatewayZero | Section::GatewayOne => any_has_text(&GATEWAY_KEYS, text),
        Section::Neighbour => any_has_text(&NEIGHBOUR_KEYS, text),
    }
}

/// Returns the keys of a section.
pub(crate) fn keys_of(section: Section) -> &'static [Name] {
    match section {
        Section::Ports => &PORTS_KEYS,
        Section::Inside => &INSIDE_KEYS,
        Section::Outside => &OUTSIDE_KEYS,
        Section::Icmp => &ICMP_KEYS,
        Section::Fragments => &FRAGMENT_KEYS,
        Section::Vrrp => &VRRP_KEYS,
        Section::GatewayZero | Section::GatewayOne => &GATEWAY_KEYS,
        Section::Neighbour => &NEIGHBOUR_KEYS,
    }
}

/// Returns the section of this name.
#[tactic(auto, unfolding(crate::specs::Unknown::section_named))]
pub(crate) fn section_named(text: &str) -> Option<Section>
    ensures { result ≡ section_named text.now }
{
    match text {
        "ports" => Some(Section::Ports),
        "inside" => Some(Section::Inside),
        "outside" => Some(Section::Outside),
        "icmp" => Some(Section::Icmp),
        "fragments" => Some(Section::Fragments),
        "vrrp" => Some(Section::Vrrp),
        "gateway_0" => Some(Section::GatewayZero),
        "gateway_1" => Some(Section::GatewayOne),
        "neighbour" => Some(Section::Neighbour),
        _ => None,
    }
}

/// Adds the path of a section's key, as `ports.colour`.
fn add_path(
    alloc: Global,
    section: Section,
    text: &str,
    found: &mut Vec<String>,
) -> Result<(), AllocError>
    ensures items { OnOk result (map string_bytes found.new.items
        ≡ map string_bytes found.old.items ++ path section text.now ∷ []) }
{
    let section = section.as_str();
    found.push(format!(in alloc; "{section}.{text}")?)?;
    Ok(())
}

/// Adds the path of a key of the document, which is the key.
fn add_document_key(alloc: Global, text: &str, found: &mut Vec<String>) -> Result<(), AllocError>
    ensures items { OnOk result
        (map string_bytes found.new.items ≡ map string_bytes found.old.items ++ text.now ∷ []) }
{
    found.push(String::from_str(alloc, text)?)?;
    Ok(())
}

/// Returns the lesser of two paths by their bytes.
fn lesser(least: Option<String>, path: String) -> String
    ensures { Some (string_bytes result)
        ≡ lesser (option_map string_bytes least) (string_bytes path) }
{
    let Some(least) = least else {
        return path;
    };
    if path.as_str() < least.as_str() {
        path
    } else {
        least
    }
}

/// Adds the unknown keys of a section's table.
fn add_unknown_in(
    alloc: Global,
    section: Section,
    table: &Table,
    found: &mut Vec<String>,
) -> Result<(), AllocError>
    ensures items { OnOk result (map string_bytes found.new.items
        ≡ map string_bytes found.old.items ++ unknown_in section (table_view table.now)) }
{
    for (text, _) in table {
        if !is_known(section, text.as_str()) {
            add_path(alloc, section, text.as_str(), found)?;
        }
    }
    Ok(())
}

/// Adds the unknown keys of a section, where its value is a table.
#[tactic(auto, unfolding(crate::specs::Unknown::unknown_at))]
fn add_unknown_at(
    alloc: Global,
    section: Section,
    value: &Value,
    found: &mut Vec<String>,
) -> Result<(), AllocError>
    ensures items { OnOk result (map string_bytes found.new.items
        ≡ map string_bytes found.old.items ++ unknown_at section (as_table (view value.now))) }
{
    match value.as_table() {
        Some(table) => add_unknown_in(alloc, section, table, found),
        None => Ok(()),
    }
}

/// Adds the unknown keys of the tables of neighbours.
fn add_unknown_from(
    alloc: Global,
    tables: &[Value],
    found: &mut Vec<String>,
) -> Result<(), AllocError>
    ensures items { OnOk result (map string_bytes found.new.items
        ≡ map string_bytes found.old.items ++ unknown_from (map view tables.now)) }
{
    for table in tables {
        add_unknown_at(alloc, Section::Neighbour, table, found)?;
    }
    Ok(())
}

/// Adds the unknown keys of all neighbours, where the value is a list of tables.
#[tactic(auto, unfolding(crate::specs::Unknown::unknown_neighbour))]
fn add_unknown_neighbour(
    alloc: Global,
    value: &Value,
    found: &mut Vec<String>,
) -> Result<(), AllocError>
    ensures items { OnOk result (map string_bytes found.new.items
        ≡ map string_bytes found.old.items ++ unknown_neighbour (tables_in (Some (view value.now)))) }
{
    match neighbours::tables_in(value) {
        Some(tables) => add_unknown_from(alloc, tables, found),
        None => Ok(()),
    }
}

/// Adds a key of the document where no section has its name, or else the unknown keys of the section.
#[tactic(auto, unfolding(crate::specs::Unknown::unknown_under))]
fn add_unknown_under(
    alloc: Global,
    text: &str,
    value: &Value,
    found: &mut Vec<String>,
) -> Result<(), AllocError>
    ensures items { OnOk result (map string_bytes found.new.items
        ≡ map string_bytes found.old.items
        ++ unknown_under text.now (view value.now) (section_named text.now)) }
{
    match section_named(text) {
        None => add_document_key(alloc, text, found),
        Some(Section::Neighbour) => add_unknown_neighbour(alloc, value, found),
        Some(section) => add_unknown_at(alloc, section, value, found),
    }
}

/// Returns the paths of all keys that settings don't have.
pub(crate) fn unknown_keys(alloc: Global, document: &Table) -> Result<Vec<String>, AllocError>
    ensures { IfOk result
        (λ found. map string_bytes found.items ≡ unknown_of (table_view document.now)) }
{
    let mut found = Vec::new(alloc);
    for (text, value) in document {
        add_unknown_under(alloc, text.as_str(), value, &mut found)?;
    }
    Ok(found)
}

/// Returns the least of some paths by their bytes.
pub(crate) fn least(paths: Vec<String>) -> Option<String>
    ensures { option_map string_bytes result ≡ least_from None (map string_bytes paths.items) }
{
    let mut found = None;
    for path in paths {
        found = Some(lesser(found, path));
    }
    found
}
