//! The cases of one gateway, and of two boxes. First a gateway's report and pages, and their texts; then datagrams that
//! the other gateway never sent, and frames that were cut or changed; then two boxes whose wires are in memory. The
//! program does what the lines of its cases say, and prints what comes of each. At last steps for which there is no
//! memory; with an argument, such as `refusals`, these alone.
#![tactic(auto)]

mod any_gateway;
mod boxes;
mod changing;
mod datagrams;
mod failures;
mod lines;
mod managers;
mod printing;
mod refusals;
mod replies;
mod retries;
mod setups;
mod shown;
mod test_box;
mod test_gateway;
mod texts;
mod values;
mod watched;
mod wires;
mod words;

use anyhow::{Result, bail};
use boxes::Boxes;
use cases_words::{Case, play};
use gateway::Gateway;
use setups::{Setup, read_settings};
use std::{env, io};
use values::Reports;
use watched::Watched;

/// The files of cases with datagrams and frames.
const FORGED: [&str; 8] = [
    "records.cases",
    "sessions.cases",
    "loading.cases",
    "promises.cases",
    "full.cases",
    "errors.cases",
    "queries.cases",
    "own.cases",
];

fn try_gateway(rt: &HostRuntime, case: &mut Case) -> Result<()> {
    let Some(mut watched) = Watched::<Gateway>::new(rt.alloc()) else {
        bail!("no memory");
    };
    let tried = play(rt, "gateway.cases", &mut watched, case);
    watched.end();
    tried
}

fn head(file: &str, case: &mut Case) {
    case.say("== ", file);
    case.end();
}

fn try_forged(rt: &HostRuntime, file: &str, case: &mut Case) -> Result<()> {
    head(file, case);
    let mut setup = Setup::<Gateway>::new(*rt);
    let tried = play(rt, file, &mut setup, case);
    setup.end();
    tried
}

fn try_boxes(rt: &HostRuntime, case: &mut Case) -> Result<()> {
    head("rounds.cases", case);
    let mut boxes = Boxes::<Gateway>::new(read_settings(rt, "S.toml")?);
    let tried = play(rt, "rounds.cases", &mut boxes, case);
    boxes.end();
    tried
}

fn try_all(rt: &HostRuntime, case: &mut Case) -> Result<()> {
    play(rt, "reports.cases", Reports::new(), case)?;
    try_gateway(rt, case)?;
    for file in FORGED {
        try_forged(rt, file, case)?;
    }
    try_boxes(rt, case)
}

fn try_others(rt: &HostRuntime) -> Result<()> {
    let mut case = Case::new(rt.alloc());
    let tried = try_all(rt, &mut case);
    case.flush(rt);
    tried
}

/// Whether the program has an argument.
fn has_word(rt: &HostRuntime) -> io::Result<bool> {
    Ok(env::args(rt)?.nth(1).is_some())
}

/// Whether the program has an argument; asks once more where memory is refused.
fn wants_refusals(rt: &HostRuntime) -> io::Result<bool> {
    match has_word(rt) {
        Ok(has) => Ok(has),
        Err(_refused) => has_word(rt),
    }
}

fn main(rt: HostRuntime) -> Result<()> {
    if !wants_refusals(&rt)? {
        try_others(&rt)?;
    }
    refusals::try_all(&rt)
}
