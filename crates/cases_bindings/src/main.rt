//! Calls the table, its ports and its timers, and judges traces, by the lines of files. Then it draws one table and
//! loads another, and calls one gateway's side of the binding protocol. For each line the program prints what the call
//! answers, or why the line is refused. A line is empty, begins with `#`, or has a call with its arguments. Lines on
//! the table, its ports and its timers begin with the name of that part.
#![tactic(auto)]

mod batches;
mod cores;
mod listing;
mod loader;
mod ports;
mod sender;
mod side;
mod spelled;
mod states;
mod tables;
mod telling;
mod traces;
mod wheels;

use anyhow::Result;
use batches::Tables;
use cases_words::{Actor, Case, play};
use cores::Cores;
use ports::PortCase;
use tables::TableCase;
use traces::Trace;
use wheels::TimerCase;

fn try_file<A: Actor + Drop>(
    rt: &HostRuntime,
    file: &str,
    actor: A,
    case: &mut Case,
) -> Result<()> {
    case.say("== ", file);
    case.end();
    play(rt, file, actor, case)
}

fn try_all(rt: &HostRuntime, case: &mut Case) -> Result<()> {
    try_file(rt, "tables.cases", TableCase::sample(case)?, case)?;
    try_file(rt, "sessions.cases", TableCase::sample(case)?, case)?;
    try_file(rt, "ports.cases", PortCase::sample(case.alloc)?, case)?;
    try_file(rt, "timers.cases", TimerCase::new(case.alloc, 0)?, case)?;
    try_file(rt, "traces.cases", Trace::new(case.alloc), case)?;
    try_file(rt, "batches.cases", Tables::sample(case)?, case)?;
    try_file(rt, "record_table.cases", Cores::none(case.alloc), case)
}

fn main(rt: HostRuntime) -> Result<()> {
    let mut case = Case::new(rt.alloc());
    let tried = try_all(&rt, &mut case);
    case.flush(&rt);
    tried
}
