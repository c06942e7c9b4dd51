//! The values of `status` and `pairs`.
ghost use Rattle.std.specs.Prelude.{◌≡◌, codes, Some, MatchOption};
ghost use Rattle.clap.specs.Words.{first_of, found_of, one_of, rows_of};
ghost use Rattle.command_line.specs.Filters.{IsAddressIf, IsAddressText, IsPortIf, LacksAddress, form_in, protocol_in, protocol_of, entry_state_in, entry_state_of, wait_in};
ghost use Rattle.command_line.specs.Values.{HasNumberIf};

use crate::{StatusFormat, values};
use addresses::{Ip, Port, Protocol};
use clap::ArgMatches;
use nat_types::EntryState;
use std::net::Ipv4Addr;

/// Returns the format of a report, or None where the words ask for two formats.
pub(crate) fn status_format(matches: &ArgMatches<'_>) -> Option<StatusFormat>
    ensures { result ≡ form_in (rows_of (found_of matches.now)) }
{
    let json = values::flag(matches, "json");
    let prometheus = values::flag(matches, "prometheus");
    match (json, prometheus) {
        (false, false) => Some(StatusFormat::Plain),
        (true, false) => Some(StatusFormat::Json),
        (false, true) => Some(StatusFormat::Prometheus),
        (true, true) => None,
    }
}

/// Whether `status` waits until the gateway is synced; None where `--until` has another word than `synced`.
pub(crate) fn until_synced(matches: &ArgMatches<'_>) -> Option<bool>
    ensures { result ≡ wait_in (rows_of (found_of matches.now)) }
{
    match values::optional_text(matches, "until") {
        None => Some(false),
        Some("synced") => Some(true),
        Some(_) => None,
    }
}

/// Returns the protocol at `--protocol`: `Some(None)` where that is left out, None where its word is no protocol.
pub(crate) fn protocol(matches: &ArgMatches<'_>) -> Option<Option<Protocol>>
    ensures { result ≡ protocol_in (rows_of (found_of matches.now)) }
{
    match values::optional_text(matches, "protocol") {
        None => Some(None),
        Some(word) => protocol_of(word).map(Some),
    }
}

/// Returns the protocol that a word names.
fn protocol_of(word: &str) -> Option<Protocol>
    ensures { result ≡ protocol_of word.now }
{
    match word {
        "icmp" => Some(Protocol::Icmp),
        "tcp" => Some(Protocol::Tcp),
        "udp" => Some(Protocol::Udp),
        _ => None,
    }
}

/// Returns the state at `--state`: `Some(None)` where that is left out, None where its word is no state.
pub(crate) fn state(matches: &ArgMatches<'_>) -> Option<Option<EntryState>>
    ensures { result ≡ entry_state_in (rows_of (found_of matches.now)) }
{
    match values::optional_text(matches, "state") {
        None => Some(None),
        Some(word) => state_of(word).map(Some),
    }
}

/// Returns the state that a word names.
fn state_of(word: &str) -> Option<EntryState>
    ensures { result ≡ entry_state_of word.now }
{
    match word {
        "pending" => Some(EntryState::Pending { marked: false }),
        "doomed" => Some(EntryState::Doomed),
        "live" => Some(EntryState::Live),
        "closing" => Some(EntryState::Closing { marked: false }),
        "held" => Some(EntryState::Held),
        "alone" => Some(EntryState::Alone),
        "pending_marked" => Some(EntryState::Pending { marked: true }),
        "closing_marked" => Some(EntryState::Closing { marked: true }),
        _ => None,
    }
}

/// Returns the address at `--address`: `Some(None)` where that is left out, None where its text is no IPv4 address.
pub(crate) fn address(matches: &ArgMatches<'_>) -> Option<Option<Ip>>
    ensures { MatchOption result
        (LacksAddress (first_of (codes "address") (rows_of (found_of matches.now))))
        (IsAddressIf (first_of (codes "address") (rows_of (found_of matches.now)))) }
{
    match values::optional_text(matches, "address") {
        None => Some(None),
        Some(text) => address_of(text).map(Some),
    }
}

/// Returns the address of a text as `192.168.1.10`.
fn address_of(text: &str) -> Option<Ip>
    ensures { MatchOption result (LacksAddress (Some text.now)) (IsAddressText text.now) }
{
    let found = text.parse::<Ipv4Addr>().ok()?;
    Some(Ip(found.to_bits()))
}

/// Returns the port at `--port`, or None where that is left out.
pub(crate) fn port(matches: &ArgMatches<'_>) -> Option<Port>
    requires { HasNumberIf 16 (codes "port") (rows_of (found_of matches.now)) }
    ensures { IsPortIf (one_of (codes "port") (rows_of (found_of matches.now))) result }
{
    match values::optional_u16(matches, "port") {
        Some(number) => Some(Port(number)),
        None => None,
    }
}
