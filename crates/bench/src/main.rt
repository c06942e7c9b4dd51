//! Measures the steps of a gateway, and the calls of three crates below it. Each command prints nanoseconds, and does
//! exactly as much as its numbers say, so that instructions and requests for memory can be counted by the difference of
//! two runs:
//!
//! - `kind SIDE PROTOCOL SIZE COUNT PAIRS`: packets of one kind, from the frame that came in to the frame that is sent;
//!   `synced ..`: such packets at a gateway whose pairs another one has loaded
//! - `new COUNT`: new flows at two gateways; `lone COUNT`: new flows at one that is lone; `begun COUNT`: such flows
//!   beside one that starts, and `alone begun COUNT`: at one that is apart
//! - `pair COUNT PAIRS`: ticks of two gateways, each with the datagram that is due, which the other takes
//! - `idle COUNT PAIRS`: ticks of a gateway for which nothing is due; `still COUNT PAIRS`: such ticks while its clock
//!   doesn't move
//! - `ports want COUNT`, `ports begin COUNT`, `ports batch COUNT`: a request for ports, the beginning of a batch, and a
//!   batch; COUNT is 0 or 1
//! - `churn ROUNDS ENDPOINTS`: flows that are opened, closed and released, by the processor's time;
//!   `longest ROUNDS ENDPOINTS`: their longest step, and their longest tick
//! - `many PAIRS..`: the cost of so many pairs at once
//! - `fragments SIDE COUNT PAIRS`: datagrams of 3,000 bytes that come in three fragments, and go out in three
//! - `start`: the start of a gateway, and nothing else
//! - `arp COUNT`: a renewal, a stranger and a look-up in a full cache; `link COUNT`: datagrams of the link, a push, and
//!   draining a whole batch; `wire COUNT`: parsing a packet and sending it on outward
//!
//! `alone` before a command has the gateways make pairs alone, `pass` has them take fragments, `drawn` has them draw the
//! ports and ask for 64 ahead. Without words the program does nothing.
#![tactic(auto)]

mod boxes;
mod churn;
mod clocks;
mod datagrams;
mod flows;
mod gates;
mod many;
mod neighbours;
mod packets;
mod pieces;
mod ports;
mod rewriting;
mod stations;

use anyhow::{Result, bail};
use cases_words::Case;
use churn::report_churn;
use flows::{
    report_begun, report_kind, report_lone, report_new, report_pair, report_synced, report_ticks,
};
use gateway::Gateway;
use many::report_many;
use nat_types::GatewayId;
use pieces::report_fragments;
use ports::report_ports;
use settings::{Choice, Settings};
use stations::Station;
use std::env;

/// Starts a gateway, and ends it.
fn start(settings: &Settings, case: &mut Case) {
    if let Some(station) = Station::<Gateway>::begun(settings, GatewayId::Zero, case) {
        station.end();
    }
}

/// Prints what a command measures.
fn report(rt: &HostRuntime, settings: &mut Settings, case: &mut Case) {
    match case.word() {
        "kind" => report_kind::<Gateway>(rt, settings, case),
        "synced" => report_synced::<Gateway>(rt, settings, case),
        "new" => report_new::<Gateway>(rt, settings, case),
        "begun" => report_begun::<Gateway>(rt, settings, case),
        "lone" => report_lone::<Gateway>(rt, settings, case),
        "pair" => report_pair::<Gateway>(rt, settings, case),
        "idle" => report_ticks::<Gateway>(rt, settings, 1, case),
        "still" => report_ticks::<Gateway>(rt, settings, 0, case),
        "ports" => report_ports::<Gateway>(settings, case),
        "churn" => report_churn::<Gateway>(rt, settings, false, case),
        "longest" => report_churn::<Gateway>(rt, settings, true, case),
        "many" => report_many::<Gateway>(rt, settings, case),
        "fragments" => report_fragments::<Gateway>(rt, settings, case),
        "start" => start(settings, case),
        "arp" => neighbours::measure(rt, case),
        "link" => datagrams::measure(rt, case),
        "wire" => rewriting::measure(rt, case),
        _ => case.fault(),
    }
}

/// Returns the words of the program, joined by spaces.
fn read_words(rt: &HostRuntime) -> Result<String> {
    let mut line = String::new(rt.alloc());
    for word in env::args(rt)?.skip(1) {
        if !line.is_empty() {
            line.push(' ')?;
        }
        line.push_str(word.as_str())?;
    }
    Ok(line)
}

/// Sets what the first word of a line wants of the gateways, and returns whether it wants anything.
fn set(settings: &mut Settings, line: &str) -> bool {
    if line.starts_with("alone ") {
        settings.alone = 100;
    } else if line.starts_with("pass ") {
        settings.fragments.pass = true;
    } else if line.starts_with("drawn ") {
        settings.choice = Choice::Drawn;
        settings.ahead = 64;
    } else {
        return false;
    }
    true
}

fn main(rt: HostRuntime) -> Result<()> {
    let line = read_words(&rt)?;
    if line.is_empty() {
        return Ok(());
    }
    let mut settings = Settings::sample(rt.alloc())?;
    let mut case = Case::new(rt.alloc());
    case.begin(line.as_str());
    if set(&mut settings, line.as_str()) {
        case.word();
    }
    report(&rt, &mut settings, &mut case);
    drop(settings);
    case.flush(&rt);
    if case.is_wrong() {
        bail!("wrong: {line}");
    }
    Ok(())
}
