//! The values at the keys of a document, by their types and limits.
ghost use Rattle.std.specs.Prelude.{◌≡◌, ◌↔◌, IsTrue, ◌<◌, ◌≤◌, true, false, Some, map, option_map, IfOk, IfErr, IfSome, OnOk};
ghost use Rattle.std.specs.Option.{ForSome};
ghost use Rattle.toml.specs.Data.{get_member, as_str, as_bool};
ghost use Rattle.toml.specs.View.{table_view, view};
ghost use Rattle.addresses.specs.Address.{IsIn};
ghost use Rattle.settings_file.specs.Keys.{key};
ghost use Rattle.settings_file.specs.Document.{value_of, number_in, number_at, number_or, zero_or_in, zero_or, optional_at, flag_or, text_at, address_at, mac_at};
ghost use Rattle.settings_file.specs.Document.{in_order, range_of, range_items, range_at, list_in, is_in, is_host};
ghost use Rattle.settings_file.specs.Faults.{IsBadAt};

use crate::{Key, Name, Section, texts};
use addresses::{Ip, Mac, Port, Prefix};
use settings::PortRange;
use toml::{Table, Value};

/// Returns the value at a key of a table.
pub(crate) fn entry<'a>(table: &'a Table, key: &str) -> Option<&'a Value>
    ensures { option_map (λ v. view v.now) result ≡ get_member key.now (table_view table.now) }
{
    table.get(key)
}

/// Returns the value at a key of a section, or None where the section is no table or lacks the key.
#[tactic(auto, unfolding(crate::specs::Document::value_of))]
pub(crate) fn value_at<'a>(document: &'a Table, section: Section, name: Name) -> Option<&'a Value>
    ensures { option_map (λ v. view v.now) result
        ≡ value_of (table_view document.now) section name }
{
    match entry(document, section.as_str()) {
        Some(value) => match value.as_table() {
            Some(table) => entry(table, name.as_str()),
            None => None,
        },
        None => None,
    }
}

/// The least and the greatest number that a key may have.
#[derive(Clone, Copy)]
pub(crate) struct Limits {
    pub(crate) low: u16,
    pub(crate) high: u16,
}

/// The limits of the ports at which the pair translates: those above the privileged ones.
const PORTS: Limits = Limits {
    low: 1024,
    high: 65535,
};

/// Returns the number that a value is, or None where the value is no whole number within the limits.
fn number_in(value: &Value, limits: Limits) -> Option<u16>
    ensures value { result ≡ number_in limits.low limits.high (view value.now) }
    ensures low { IfSome result (λ n. limits.low ≤ n) }
    ensures high { IfSome result (λ n. n ≤ limits.high) }
{
    match u16::try_from(value.as_integer()?) {
        Ok(number) if limits.low <= number && number <= limits.high => Some(number),
        _ => None,
    }
}

/// The limits of 0 alone.
const ZERO: Limits = Limits { low: 0, high: 0 };

/// Returns the number that a value is, or None where the value is neither a whole number within the limits nor 0.
fn zero_or_in(value: &Value, limits: Limits) -> Option<u16>
    ensures value { result ≡ zero_or_in limits.low limits.high (view value.now) }
    ensures low { IfSome result (λ n. n < limits.low → n ≡ 0) }
{
    match number_in(value, limits) {
        Some(number) => Some(number),
        None => number_in(value, ZERO),
    }
}

/// Whether a value is a port at which the pair translates.
pub(crate) fn is_port(value: &Value) -> bool {
    number_in(value, PORTS).is_some()
}

/// Returns the number at a required key.
///
/// # Errors
///
/// The key, where it is missing or its value is no whole number within the limits.
#[tactic(auto, unfolding(crate::specs::Document::number_at))]
pub(crate) fn required_number(
    document: &Table,
    section: Section,
    name: Name,
    limits: Limits,
) -> Result<u16, Key>
    ensures ok { IfOk result
        (λ n. number_at limits.low limits.high (table_view document.now) section name ≡ Some n) }
    ensures low { IfOk result (λ n. limits.low ≤ n) }
    ensures high { IfOk result (λ n. n ≤ limits.high) }
    ensures err { IfErr result (IsBadAt section name
        (number_at limits.low limits.high (table_view document.now) section name)) }
{
    match value_at(document, section, name) {
        Some(value) => number_in(value, limits).ok_or(Key::new(section, name)),
        None => Err(Key::new(section, name)),
    }
}

/// Returns the number at a key, or the default where the key is left out.
///
/// # Errors
///
/// The key, where its value is no whole number within the limits.
#[tactic(auto, unfolding(crate::specs::Document::number_or))]
pub(crate) fn number_or(
    document: &Table,
    section: Section,
    name: Name,
    default: u16,
    limits: Limits,
) -> Result<u16, Key>
    requires low { limits.low ≤ default }
    requires high { default ≤ limits.high }
    ensures ok { IfOk result (λ n.
        number_or default limits.low limits.high (table_view document.now) section name ≡ Some n) }
    ensures low { IfOk result (λ n. limits.low ≤ n) }
    ensures high { IfOk result (λ n. n ≤ limits.high) }
    ensures err { IfErr result (IsBadAt section name
        (number_or default limits.low limits.high (table_view document.now) section name)) }
{
    match value_at(document, section, name) {
        Some(value) => number_in(value, limits).ok_or(Key::new(section, name)),
        None => Ok(default),
    }
}

/// Returns the number at a key that may be 0 too; 0 where the key is left out.
///
/// # Errors
///
/// The key, where its value is neither a whole number within the limits nor 0.
#[tactic(auto, unfolding(crate::specs::Document::zero_or))]
pub(crate) fn zero_or(
    document: &Table,
    section: Section,
    name: Name,
    limits: Limits,
) -> Result<u16, Key>
    ensures ok { IfOk result
        (λ n. zero_or limits.low limits.high (table_view document.now) section name ≡ Some n) }
    ensures low { IfOk result (λ n. n < limits.low → n ≡ 0) }
    ensures err { IfErr result (IsBadAt section name
        (zero_or limits.low limits.high (table_view document.now) section name)) }
{
    match value_at(document, section, name) {
        Some(value) => zero_or_in(value, limits).ok_or(Key::new(section, name)),
        None => Ok(0),
    }
}

/// Returns the number at a key, or None where the key is left out.
///
/// # Errors
///
/// The key, where its value is no whole number within the limits.
#[tactic(auto, unfolding(crate::specs::Document::optional_at))]
pub(crate) fn optional_number(
    document: &Table,
    section: Section,
    name: Name,
    limits: Limits,
) -> Result<Option<u16>, Key>
    ensures ok { IfOk result (λ found.
        optional_at limits.low limits.high (table_view document.now) section name ≡ Some found) }
    ensures low { IfOk result (λ found. ForSome found (λ n. limits.low ≤ n)) }
    ensures err { IfErr result (IsBadAt section name
        (optional_at limits.low limits.high (table_view document.now) section name)) }
{
    let Some(value) = value_at(document, section, name) else {
        return Ok(None);
    };
    match number_in(value, limits) {
        Some(number) => Ok(Some(number)),
        None => Err(Key::new(section, name)),
    }
}

/// Returns the flag at a key, or the default where the key is left out.
///
/// # Errors
///
/// The key, where its value is no flag.
#[tactic(auto, unfolding(crate::specs::Document::flag_or))]
pub(crate) fn flag_or(
    document: &Table,
    section: Section,
    name: Name,
    default: bool,
) -> Result<bool, Key>
    ensures ok { IfOk result
        (λ b. flag_or default (table_view document.now) section name ≡ Some b) }
    ensures err { IfErr result
        (IsBadAt section name (flag_or default (table_view document.now) section name)) }
{
    match value_at(document, section, name) {
        Some(value) => value.as_bool().ok_or(Key::new(section, name)),
        None => Ok(default),
    }
}

/// Returns the text at a key, or None where there is none.
#[tactic(auto, unfolding(crate::specs::Document::text_at))]
fn text_at<'a>(document: &'a Table, section: Section, name: Name) -> Option<&'a str>
    ensures { option_map (λ s. s.now) result ≡ text_at (table_view document.now) section name }
{
    match value_at(document, section, name) {
        Some(value) => value.as_str(),
        None => None,
    }
}

/// Returns the text at a required key.
///
/// # Errors
///
/// The key, where it is missing or its value is no text.
pub(crate) fn required_text<'a>(
    document: &'a Table,
    section: Section,
    name: Name,
) -> Result<&'a str, Key>
    ensures ok { IfOk result
        (λ s. text_at (table_view document.now) section name ≡ Some s.now) }
    ensures err { IfErr result
        (IsBadAt section name (text_at (table_view document.now) section name)) }
{
    match text_at(document, section, name) {
        Some(text) => Ok(text),
        None => Err(Key::new(section, name)),
    }
}

/// Returns the address at a key, or None where there is none.
#[tactic(auto, unfolding(crate::specs::Document::address_at))]
pub(crate) fn address_at(document: &Table, section: Section, name: Name) -> Option<Ip>
    ensures { option_map (λ ip. ip.0) result
        ≡ address_at (table_view document.now) section name }
{
    match text_at(document, section, name) {
        Some(text) => texts::address_of(text),
        None => None,
    }
}

/// Returns the address at a required key.
///
/// # Errors
///
/// The key, where it is missing or its value is no address.
pub(crate) fn required_address(document: &Table, section: Section, name: Name) -> Result<Ip, Key>
    ensures ok { IfOk result
        (λ ip. address_at (table_view document.now) section name ≡ Some ip.0) }
    ensures err { IfErr result
        (IsBadAt section name (address_at (table_view document.now) section name)) }
{
    address_at(document, section, name).ok_or(Key::new(section, name))
}

/// Returns the Ethernet address at a key, or None where there is none.
#[tactic(auto, unfolding(crate::specs::Document::mac_at))]
fn mac_at(document: &Table, section: Section, name: Name) -> Option<Mac>
    ensures { option_map (λ mac. mac.0) result
        ≡ mac_at (table_view document.now) section name }
{
    match text_at(document, section, name) {
        Some(text) => texts::mac_of(text),
        None => None,
    }
}

/// Returns the Ethernet address at a required key.
///
/// # Errors
///
/// The key, where it is missing or its value is no Ethernet address.
pub(crate) fn required_mac(document: &Table, section: Section, name: Name) -> Result<Mac, Key>
    ensures ok { IfOk result
        (λ mac. mac_at (table_view document.now) section name ≡ Some mac.0) }
    ensures err { IfErr result
        (IsBadAt section name (mac_at (table_view document.now) section name)) }
{
    mac_at(document, section, name).ok_or(Key::new(section, name))
}

/// Whether an address lies in a network.
#[tactic(auto, unfolding(crate::specs::Document::is_in))]
pub(crate) fn is_in(address: Ip, network: Prefix) -> bool
    ensures test { result ≡ is_in address.0 network.address.0 network.length }
    ensures lies { IsTrue result ↔ IsIn address.0 network.address.0 network.length }
{
    network.contains(address)
}

/// Returns the address at a required key.
///
/// # Errors
///
/// The key, where it is missing, or its value is no address or lies outside the network.
pub(crate) fn required_host(
    document: &Table,
    section: Section,
    name: Name,
    network: Prefix,
) -> Result<Ip, Key>
    ensures ok { IfOk result
        (λ ip. address_at (table_view document.now) section name ≡ Some ip.0) }
    ensures lies { IfOk result (λ ip. IsIn ip.0 network.address.0 network.length) }
    ensures inside { OnOk result (is_host (Some (network.address.0, network.length))
        (address_at (table_view document.now) section name) ≡ true) }
    ensures key { IfErr result (λ k. k ≡ key section name) }
    ensures outside { IfErr result (λ _. is_host (Some (network.address.0, network.length))
        (address_at (table_view document.now) section name) ≡ false) }
{
    match address_at(document, section, name) {
        Some(ip) if is_in(ip, network) => Ok(ip),
        _ => Err(Key::new(section, name)),
    }
}

/// Returns the elements of a list, or None where the value is no list.
#[tactic(auto, using(crate::proofs::Lists::list_of_items), unfolding(crate::specs::Document::list_in))]
pub(crate) fn list(value: &Value) -> Option<&[Value]>
    ensures { option_map (λ l. map view l.now) result ≡ list_in (view value.now) }
{
    match value.as_array() {
        Some(array) => Some(array.as_slice()),
        None => None,
    }
}

/// Returns the range of two ports, or None where one is missing or they are out of order.
fn in_order(low: Option<u16>, high: Option<u16>) -> Option<PortRange>
    requires { IfSome low (λ n. 1024 ≤ n) }
    ensures { option_map (λ r. (r.lowest.0, r.highest.0)) result ≡ in_order low high }
{
    match (low, high) {
        (Some(low), Some(high)) if low <= high => Some(PortRange {
            lowest: Port(low),
            highest: Port(high),
        }),
        _ => None,
    }
}

/// Returns the range of a list's two ports, or None where the list is no first and last port.
fn range_in(list: &[Value]) -> Option<PortRange>
    ensures { option_map (λ r. (r.lowest.0, r.highest.0)) result
        ≡ range_items (map view list.now) }
{
    match list {
        [low, high] => in_order(number_in(low, PORTS), number_in(high, PORTS)),
        _ => None,
    }
}

/// Returns the range that a value is, or None where it is none.
fn range_of(value: &Value) -> Option<PortRange>
    ensures { option_map (λ r. (r.lowest.0, r.highest.0)) result ≡ range_of (view value.now) }
{
    match list(value) {
        Some(list) => range_in(list),
        None => None,
    }
}

/// Returns the range of ports at a required key.
///
/// # Errors
///
/// The key, where it is missing or its value is no range of ports.
#[tactic(auto, unfolding(crate::specs::Document::range_at))]
pub(crate) fn required_range(
    document: &Table,
    section: Section,
    name: Name,
) -> Result<PortRange, Key>
    ensures ok { IfOk result (λ r. range_at (table_view document.now) section name
        ≡ Some (r.lowest.0, r.highest.0)) }
    ensures err { IfErr result
        (IsBadAt section name (range_at (table_view document.now) section name)) }
{
    let found = match value_at(document, section, name) {
        Some(value) => range_of(value),
        None => None,
    };
    found.ok_or(Key::new(section, name))
}
