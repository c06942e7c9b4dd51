//! A line of loops.list: which script is run, and through which channel.

use crate::files::text_at;
use crate::memories::Memory;
use crate::rows::{settled, status_of};
use anyhow::Result;
use cases_words::{Actor, Case};
use faults::{Fault, TextFile};
use simulation::{Capture, read_job, run_loop, run_loop_job};
use std::alloc::Global;

/// The cases of scripts through a channel.
#[derive(Drop)]
pub(crate) struct Lines {
    pub(crate) rt: HostRuntime,
}

impl Actor for Lines {
    /// Prints what the run of a line prints, with the settings of loops.toml where it names no others.
    ///
    /// - `every COUNT NAME` runs the file NAME.script through a channel that loses every COUNT-th message, and none at
    ///   0
    /// - `ports NAME` runs it through the loopback ports of the settings
    /// - `with NAME SCRIPT` runs the file SCRIPT.script through the loopback ports of the settings of NAME.toml
    ///
    /// A last line says whether the output is that of a run without a channel.
    fn act(&mut self, case: &mut Case) {
        case.title("== ", "\n");
        match case.word() {
            "every" => {
                let memory = Memory::losing(case.number());
                passed(&self.rt, "loops", Some(memory), case);
            }
            "ports" => passed(&self.rt, "loops", None, case),
            "with" => {
                let settings = case.name();
                passed(&self.rt, settings.as_str(), None, case);
            }
            _ => case.fault(),
        }
    }
}

/// Runs a script through a channel, or through the loopback ports where there is none. Prints its output, its faults
/// and its status, and whether the output is that of a run without a channel.
fn passed(rt: &HostRuntime, settings: &str, memory: Option<Memory>, case: &mut Case) {
    match texts_of(rt, settings, case.word()) {
        Ok((settings, script)) => run(rt, settings.as_str(), script.as_str(), memory, case),
        Err(_) => case.fault(),
    }
}

fn texts_of(rt: &HostRuntime, settings: &str, script: &str) -> Result<(String, String)> {
    let settings = text_at(rt, settings, "toml")?;
    let script = text_at(rt, script, "script")?;
    Ok((settings, script))
}

fn run(rt: &HostRuntime, settings: &str, script: &str, memory: Option<Memory>, case: &mut Case) {
    let alloc = case.alloc;
    let plain = plain(rt, settings, script);
    let (mut output, mut errors) = (Vec::new(alloc), Vec::new(alloc));
    let settings = TextFile::new("settings", settings);
    let script = TextFile::new("script", script);
    let status = match memory {
        Some(memory) => through(alloc, settings, script, memory, &mut output),
        None => run_loop(rt, settings, script, None, &mut output),
    };
    let status = settled(alloc, status, &mut errors);
    case.text(output.as_slice());
    case.text(errors.as_slice());
    case.say("status ", status);
    let same = output.as_slice() == plain.as_slice();
    case.put(if same { ", as sim\n" } else { ", not as sim\n" });
}

/// Runs a script through a channel in memory.
fn through(
    alloc: Global,
    settings: TextFile<'_>,
    script: TextFile<'_>,
    mut memory: Memory,
    output: &mut Vec<u8>,
) -> std::result::Result<u8, Fault> {
    let job = read_job(alloc, settings, script)?;
    run_loop_job(
        alloc,
        &job,
        &mut memory,
        &mut None::<Capture<Vec<u8>>>,
        output,
    )
}

/// Returns the output of a run without a channel.
fn plain(rt: &HostRuntime, settings: &str, script: &str) -> Vec<u8> {
    let (mut plain, mut errors) = (Vec::new(rt.alloc()), Vec::new(rt.alloc()));
    status_of(rt, settings, script, &mut plain, &mut errors);
    plain
}
