//! The tests of sockets, and of what a box writes down. The program does what the lines of its cases say: with texts of
//! ways and words, with a place over a transport in memory, with boxes on the loopback address, with a tapped wire and
//! a service manager, and with a box's records. The program prints each line before what it leads to.
#![tactic(auto)]

mod boxes;
mod clients;
mod entries;
mod failures;
mod files;
mod hearing;
mod journals;
mod managers;
mod network;
mod starts;
mod taps;
mod texts;
mod transports;
mod wires;
mod words;
mod writers;

use anyhow::Result;
use cases_words::{Actor, Case, play};
use hearing::Hearing;
use journals::Journals;
use network::Network;
use starts::compare_starts;
use std::cell::Cell;
use taps::{Controls, Taps};
use texts::Texts;
use writers::WriterState;

fn try_file<A: Actor + Drop>(
    rt: &HostRuntime,
    file: &str,
    actor: A,
    case: &mut Case,
) -> Result<()> {
    case.say("== ", file);
    case.end();
    play(rt, file, actor, case)
}

fn try_taps(rt: &HostRuntime, case: &mut Case) -> Result<()> {
    let controls = Controls::new();
    try_file(rt, "tap.cases", Taps::new(*rt, &controls), case)
}

fn try_records(rt: &HostRuntime, case: &mut Case) -> Result<()> {
    let state = Cell::new(WriterState::Open);
    try_file(rt, "journal.cases", Journals::new(*rt, &state), case)
}

fn try_all(rt: &HostRuntime, case: &mut Case) -> Result<()> {
    try_file(rt, "texts.cases", Texts, case)?;
    try_file(rt, "hearing.cases", Hearing::new(rt.alloc()), case)?;
    try_file(rt, "sockets.cases", Network::open(*rt)?, case)?;
    try_taps(rt, case)?;
    try_records(rt, case)?;
    compare_starts(rt, case)
}

fn main(rt: HostRuntime) -> Result<()> {
    let mut case = Case::new(rt.alloc());
    let tried = try_all(&rt, &mut case);
    case.flush(&rt);
    tried
}
