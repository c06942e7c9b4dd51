//! The numbers of the settings, each with its limits. The errors are the keys whose values are bad.
ghost use Rattle.std.specs.Prelude.{◌≡◌, ◌<◌, ◌≤◌, Some, IfErr, IfOk};
ghost use Rattle.std.specs.Option.{ForSome};
ghost use Rattle.toml.specs.View.{table_view};
ghost use Rattle.settings_file.specs.declared.keys.Section.TheVariants.{Ports};
ghost use Rattle.settings_file.specs.declared.keys.Name.TheVariants.{HostLimit, Alone, Ahead, Prefix, Vrid, Mtu, Priority, Interval};
ghost use Rattle.settings_file.specs.Document.{number_at, number_or, zero_or, optional_at};
ghost use Rattle.settings_file.specs.Faults.{IsBadAt};

use crate::fields::{Limits, number_or, optional_number, required_number, zero_or};
use crate::{Key, Name, Section};
use std::fmt::{self, Display, Formatter};
use toml::Table;

/// The limits of a host's pairs.
const HOST_LIMITS: Limits = Limits {
    low: 1,
    high: 65535,
};

/// The limits of the centiseconds without an answer after which pairs are made alone, where it isn't 0. Datagrams go
/// out each 10 cs, so that a few lost ones don't part the boxes.
const ALONE: Limits = Limits {
    low: 50,
    high: 65535,
};

/// The limits of the ports that are asked for ahead.
const AHEAD: Limits = Limits { low: 0, high: 1024 };

/// The limits of a prefix length, in bits.
const PREFIX_LENGTHS: Limits = Limits { low: 8, high: 30 };

/// The limits of a virtual router's number.
const VIRTUAL_ROUTERS: Limits = Limits { low: 1, high: 255 };

/// The limits of a loopback port.
const LOOPBACK_PORTS: Limits = Limits {
    low: 1,
    high: 65535,
};

/// The limits of a network's longest packet, in bytes.
const MTUS: Limits = Limits {
    low: 576,
    high: 1500,
};

/// The limits of a priority. In VRRP 255 is that of a router that owns the address, and 0 resigns.
const PRIORITIES: Limits = Limits { low: 1, high: 254 };

/// The priority where the key is left out, VRRP's own default.
const DEFAULT_PRIORITY: u16 = 100;

/// The limits of an advertisement interval, in centiseconds: 4095 is the greatest number of its field's 12 bits.
const INTERVALS: Limits = Limits { low: 1, high: 4095 };

/// The advertisement interval where the key is left out, in centiseconds: a second.
const DEFAULT_INTERVAL: u16 = 100;

/// The numbers that a key may have.
#[derive(Clone, Copy)]
pub(crate) enum Numbers {
    Within(Limits),
    /// 0, or a number within limits.
    ZeroOr(Limits),
}

impl Display for Numbers {
    fn fmt<W: fmt::Write>(&self, f: &mut Formatter<W>) -> fmt::Result {
        match self {
            Numbers::Within(Limits { low, high }) => write!(f, "{low} to {high}"),
            Numbers::ZeroOr(Limits { low, high }) => write!(f, "0, or {low} to {high}"),
        }
    }
}

/// Returns the numbers that a key may have, or None where the key has no number.
pub(crate) fn numbers_of(name: Name) -> Option<Numbers> {
    match name {
        Name::HostLimit => Some(Numbers::Within(HOST_LIMITS)),
        Name::Alone => Some(Numbers::ZeroOr(ALONE)),
        Name::Ahead => Some(Numbers::Within(AHEAD)),
        Name::Prefix => Some(Numbers::Within(PREFIX_LENGTHS)),
        Name::Vrid => Some(Numbers::Within(VIRTUAL_ROUTERS)),
        Name::Mtu => Some(Numbers::Within(MTUS)),
        Name::Priority => Some(Numbers::Within(PRIORITIES)),
        Name::Interval => Some(Numbers::Within(INTERVALS)),
        Name::Wire | Name::Link | Name::InsidePort | Name::OutsidePort => {
            Some(Numbers::Within(LOOPBACK_PORTS))
        }
        _ => None,
    }
}

/// Returns the most pairs of one inside address: 1 to 65535, or None where the key is left out.
pub(crate) fn host_limit(document: &Table) -> Result<Option<u16>, Key>
    ensures ok { IfOk result
        (λ found. optional_at 1 65535 (table_view document.now) Ports HostLimit ≡ Some found) }
    ensures low { IfOk result (λ found. ForSome found (λ n. 1 ≤ n)) }
    ensures err { IfErr result (IsBadAt Ports HostLimit
        (optional_at 1 65535 (table_view document.now) Ports HostLimit)) }
{
    optional_number(document, Section::Ports, Name::HostLimit, HOST_LIMITS)
}

/// Returns after how many centiseconds without an answer a gateway makes pairs alone: 50 to 65535, or 0 where it never
/// does; the default is 0.
pub(crate) fn alone(document: &Table) -> Result<u16, Key>
    ensures ok { IfOk result
        (λ n. zero_or 50 65535 (table_view document.now) Ports Alone ≡ Some n) }
    ensures low { IfOk result (λ n. n < 50 → n ≡ 0) }
    ensures err { IfErr result
        (IsBadAt Ports Alone (zero_or 50 65535 (table_view document.now) Ports Alone)) }
{
    zero_or(document, Section::Ports, Name::Alone, ALONE)
}

/// Returns how many ports are asked for ahead: 0 to 1024; the default is 0.
pub(crate) fn ahead(document: &Table) -> Result<u16, Key>
    ensures ok { IfOk result
        (λ n. number_or 0 0 1024 (table_view document.now) Ports Ahead ≡ Some n) }
    ensures high { IfOk result (λ n. n ≤ 1024) }
    ensures err { IfErr result
        (IsBadAt Ports Ahead (number_or 0 0 1024 (table_view document.now) Ports Ahead)) }
{
    number_or(document, Section::Ports, Name::Ahead, AHEAD.low, AHEAD)
}

/// Returns the number of first bits that the addresses of a network share: 8 to 30.
pub(crate) fn prefix_length(document: &Table, section: Section) -> Result<u8, Key>
    ensures ok { IfOk result
        (λ n. number_at 8 30 (table_view document.now) section Prefix ≡ Some n) }
    ensures low { IfOk result (λ n. 8 ≤ n) }
    ensures high { IfOk result (λ n. n ≤ 30) }
    ensures err { IfErr result
        (IsBadAt section Prefix (number_at 8 30 (table_view document.now) section Prefix)) }
{
    Ok(required_number(document, section, Name::Prefix, PREFIX_LENGTHS)? as u8)
}

/// Returns the number of a network's virtual router: 1 to 255.
pub(crate) fn virtual_router(document: &Table, section: Section) -> Result<u8, Key>
    ensures ok { IfOk result
        (λ n. number_at 1 255 (table_view document.now) section Vrid ≡ Some n) }
    ensures low { IfOk result (λ n. 1 ≤ n) }
    ensures err { IfErr result
        (IsBadAt section Vrid (number_at 1 255 (table_view document.now) section Vrid)) }
{
    Ok(required_number(document, section, Name::Vrid, VIRTUAL_ROUTERS)? as u8)
}

/// Returns a loopback port: 1 to 65535, or None where the key is left out.
pub(crate) fn port(document: &Table, section: Section, name: Name) -> Result<Option<u16>, Key>
    ensures ok { IfOk result
        (λ found. optional_at 1 65535 (table_view document.now) section name ≡ Some found) }
    ensures low { IfOk result (λ found. ForSome found (λ n. 1 ≤ n)) }
    ensures err { IfErr result
        (IsBadAt section name (optional_at 1 65535 (table_view document.now) section name)) }
{
    optional_number(document, section, name, LOOPBACK_PORTS)
}

/// Returns the bytes of the longest packet that is sent on a network: 576 to 1500; the default is 1500.
pub(crate) fn mtu(document: &Table, section: Section) -> Result<u16, Key>
    ensures ok { IfOk result
        (λ n. number_or 1500 576 1500 (table_view document.now) section Mtu ≡ Some n) }
    ensures low { IfOk result (λ n. 576 ≤ n) }
    ensures high { IfOk result (λ n. n ≤ 1500) }
    ensures err { IfErr result
        (IsBadAt section Mtu (number_or 1500 576 1500 (table_view document.now) section Mtu)) }
{
    number_or(document, section, Name::Mtu, MTUS.high, MTUS)
}

/// Returns the priority of a gateway's virtual routers: 1 to 254; the default is 100.
pub(crate) fn priority(document: &Table, section: Section) -> Result<u8, Key>
    ensures ok { IfOk result
        (λ n. number_or 100 1 254 (table_view document.now) section Priority ≡ Some n) }
    ensures low { IfOk result (λ n. 1 ≤ n) }
    ensures high { IfOk result (λ n. n ≤ 254) }
    ensures err { IfErr result (IsBadAt section Priority
        (number_or 100 1 254 (table_view document.now) section Priority)) }
{
    Ok(number_or(
        document,
        section,
        Name::Priority,
        DEFAULT_PRIORITY,
        PRIORITIES,
    )? as u8)
}

/// Returns a gateway's advertisement interval: 1 to 4095 centiseconds; the default is 100.
pub(crate) fn interval(document: &Table, section: Section) -> Result<u16, Key>
    ensures ok { IfOk result
        (λ n. number_or 100 1 4095 (table_view document.now) section Interval ≡ Some n) }
    ensures low { IfOk result (λ n. 1 ≤ n) }
    ensures high { IfOk result (λ n. n ≤ 4095) }
    ensures err { IfErr result (IsBadAt section Interval
        (number_or 100 1 4095 (table_view document.now) section Interval)) }
{
    number_or(
        document,
        section,
        Name::Interval,
        DEFAULT_INTERVAL,
        INTERVALS,
    )
}
