//! The tests of the whole program, as data: command lines; then scripts, as the lines of `rows.list` say; then lines of
//! words, done as `natpair` would; then scripts through a channel, as the lines of `loops.list` say. Each prints its
//! output, its faults and its status.
#![tactic(auto)]

mod audits;
mod files;
mod lines;
mod listening;
mod made_faults;
mod memories;
mod narrow;
mod rows;
mod tasks;
mod words;

use anyhow::Result;
use cases_words::{Case, play};
use lines::Lines;
use rows::Rows;
use std::fs;
use std::os::unix::fs::symlink;
use tasks::Tasks;
use words::Words;

/// Makes what `acts.cases` takes for boot files: a folder, and a link to a device.
fn make_places(rt: &HostRuntime) -> Result<()> {
    fs::create_dir(rt, "folder")?;
    symlink(rt, "/dev/null", "null")?;
    Ok(())
}

fn try_all(rt: &HostRuntime, case: &mut Case) -> Result<()> {
    play(rt, "lines.cases", Tasks, case)?;
    play(rt, "rows.list", Rows { rt: *rt }, case)?;
    make_places(rt)?;
    play(rt, "acts.cases", Words { rt: *rt }, case)?;
    play(rt, "loops.list", Lines { rt: *rt }, case)
}

fn main(rt: HostRuntime) -> Result<()> {
    let mut case = Case::new(rt.alloc());
    let tried = try_all(&rt, &mut case);
    case.flush(&rt);
    tried
}
