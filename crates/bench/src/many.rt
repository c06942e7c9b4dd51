//! The cost of many pairs at once: to open them, to find all of them idle at one tick, and to load them into a gateway
//! that starts with an empty table.

use crate::boxes::Both;
use crate::clocks::{now, since};
use crate::gates::Gate;
use crate::stations::{ACTIVE, Station};
use addresses::Protocol;
use cases_words::Case;
use settings::Settings;

/// A time after which all pairs of a gateway are idle, in centiseconds: more than the longest limit of a pair.
const REST: u64 = 800_000;

/// The number of ticks that are measured at once.
const TICKS: u64 = 100;

/// Prints how many pairs a line is about, what happens to them, and the time that it took.
fn tell(pairs: u32, what: &str, nanoseconds: u128, case: &mut Case) {
    case.put(pairs);
    case.say(" ", what);
    case.say(": ", nanoseconds / 1000);
    case.put(" us");
}

/// Opens `pairs` pairs, lets all of them become idle at one tick, and prints what each costs.
fn open_and_idle<G: Gate>(rt: &HostRuntime, settings: &Settings, pairs: u32, case: &mut Case) {
    let start = now(rt, case);
    if let Some(mut station) = Station::<G>::ready(settings, Protocol::Udp, pairs, case) {
        let opened = since(rt, start, case);
        let start = now(rt, case);
        station.tick(ACTIVE + REST, case);
        let idled = since(rt, start, case);
        if station.gateway.entry_count() > 0 {
            case.fault();
        }
        station.end();
        tell(pairs, "pairs opened", opened, case);
        case.end();
        tell(pairs, "pairs idle at one tick", idled, case);
        case.end();
    }
}

/// Loads `pairs` pairs into a gateway that starts, lets both gateways rest, and prints what each costs.
fn load_and_rest<G: Gate>(rt: &HostRuntime, settings: &Settings, pairs: u32, case: &mut Case) {
    if let Some(mut both) = Both::<G>::ready(settings, Protocol::Udp, pairs, case) {
        tell_load(rt, &mut both, pairs, case);
        tell_rest(
            rt,
            "idle pairs, the peer silent",
            &mut both.zero,
            pairs,
            case,
        );
        tell_rest(
            rt,
            "idle pairs of the other gateway",
            &mut both.one,
            pairs,
            case,
        );
        both.end();
    }
}

/// Prints the cost of both gateways' steps until the second one has loaded all pairs, and how many ticks each had.
fn tell_load<G: Gate>(rt: &HostRuntime, both: &mut Both<G>, pairs: u32, case: &mut Case) {
    let start = now(rt, case);
    let ticks = both.load(case);
    let spent = since(rt, start, case);
    if both.zero.gateway.entry_count() != both.one.gateway.entry_count() {
        case.fault();
    }
    tell(pairs, "pairs loaded", spent, case);
    case.say(", ", ticks);
    case.put(" ticks\n");
}

/// Prints the cost of `TICKS` ticks of a gateway all of whose pairs are idle, and none of which it may release. The
/// first such tick isn't counted.
fn tell_rest<G: Gate>(
    rt: &HostRuntime,
    what: &str,
    station: &mut Station<G>,
    pairs: u32,
    case: &mut Case,
) {
    let held = station.gateway.entry_count();
    station.tick(ACTIVE + REST, case);
    let start = now(rt, case);
    for tick in 1..=TICKS {
        station.tick(ACTIVE + REST + tick, case);
    }
    let spent = since(rt, start, case);
    if station.gateway.entry_count() != held {
        case.fault();
    }
    tell(pairs, what, spent, case);
    case.say(" for ", TICKS);
    case.put(" ticks\n");
}

/// Prints the cost of many pairs, for each of the numbers of pairs.
pub(crate) fn report_many<G: Gate>(rt: &HostRuntime, settings: &Settings, case: &mut Case) {
    for _ in 0..case.left() {
        let pairs = case.times();
        open_and_idle::<G>(rt, settings, pairs, case);
        load_and_rest::<G>(rt, settings, pairs, case);
    }
}
