//! Calls the packet crates and the link with the lines of files, and prints a line for each: what the call answers, or
//! why it refuses. Then it reads frames at the two interfaces of gateway 0 of the sample settings, sends packets on, as
//! `rules.cases` says, and gives VRRP routers the events of `routers.cases`. A line of a file is empty, begins with
//! `#`, or has a name, a call and the call's arguments; the lines of `routers.cases` have no name.
#![tactic(auto)]

mod both_sides;
mod calls;
mod datagrams;
mod errors;
mod gathered;
mod neighbours;
mod own;
mod packets;
mod parts;
mod passing;
mod pieces;
mod queries;
mod routers;
mod rules;
mod saying;

use anyhow::Result;
use calls::Calls;
use cases_words::{Actor, Case, play};
use gathered::Gathered;
use routers::Routers;
use rules::Rules;

/// The files whose calls need nothing that earlier lines have set up.
const FILES: [&str; 10] = [
    "sums.cases",
    "frames.cases",
    "ipv4.cases",
    "icmp.cases",
    "own.cases",
    "rewrite.cases",
    "arp.cases",
    "vrrp.cases",
    "datagrams.cases",
    "taken.cases",
];

fn try_file<A: Actor + Drop>(
    rt: &HostRuntime,
    file: &str,
    actor: A,
    case: &mut Case,
) -> Result<()> {
    case.say("== ", file);
    case.end();
    play(rt, file, actor, case)
}

fn try_all(rt: &HostRuntime, case: &mut Case) -> Result<()> {
    for file in FILES {
        try_file(rt, file, Calls, case)?;
    }
    try_file(rt, "fragments.cases", Gathered::new(rt.alloc()), case)?;
    try_file(rt, "rules.cases", Rules::new(rt.alloc())?, case)?;
    try_file(rt, "routers.cases", Routers::new(), case)
}

fn main(rt: HostRuntime) -> Result<()> {
    let mut case = Case::new(rt.alloc());
    let tried = try_all(&rt, &mut case);
    case.flush(&rt);
    tried
}
