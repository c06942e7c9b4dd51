//! The tests of settings and boot files, as data: texts of settings, what `check` says of them, and boot files in the
//! working folder, on a modelled disk, and on blocks in memory.
#![tactic(auto)]

mod blocks;
mod boots;
mod calls;
mod checking;
mod clashes;
mod disks;
mod edits;
mod full;
mod lists;
mod memory_blocks;
mod ports;
mod reading;
mod sample;
mod short;
mod texts;
mod trials;

use anyhow::Result;
use blocks::BlockFile;
use calls::Calls;
use cases_words::{Case, play};
use disks::Disks;

fn try_all(rt: &HostRuntime, case: &mut Case) -> Result<()> {
    texts::try_all(rt, case)?;
    case.part_by(' ');
    play(rt, "boot.cases", Calls { rt: *rt }, case)?;
    play(rt, "boots.cases", Disks::new(case.alloc), case)?;
    play(rt, "blocks.cases", BlockFile::new(), case)
}

fn main(rt: HostRuntime) -> Result<()> {
    let mut case = Case::new(rt.alloc());
    let tried = try_all(&rt, &mut case);
    case.flush(&rt);
    tried
}
