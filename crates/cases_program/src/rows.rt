//! A line of rows.list: which script is run, and with which settings.

use crate::audits;
use crate::files::text_at;
use crate::narrow::Narrow;
use cases_words::{Actor, Case, unbuffered};
use faults::{Fault, TextFile, read_text, report};
use simulation::{Progress, run_sim};
use std::alloc::{AllocError, Global};
use std::io::Write;

/// The cases of scripts.
#[derive(Drop)]
pub(crate) struct Rows {
    pub(crate) rt: HostRuntime,
}

impl Actor for Rows {
    /// Prints what the run of a line prints, with the settings of rows.toml where it names no others.
    ///
    /// - `line TEXT` runs a script of that one line, `times COUNT TEXT` one of COUNT such lines
    /// - `settings TEXT` runs an empty script with this text for the settings
    /// - `room COUNT TEXT` runs a script of one line, whose output takes COUNT bytes and then fails
    /// - `file NAME` reads a script's file
    /// - all else runs a script's file (`scripted`)
    fn act(&mut self, case: &mut Case) {
        case.title("== ", "\n");
        match case.word() {
            "line" => {
                let script = case.rest();
                simulated(
                    &self.rt,
                    sample(&self.rt, case).as_str(),
                    script.as_str(),
                    case,
                );
            }
            "settings" => simulated(&self.rt, case.rest().as_str(), "", case),
            "times" => repeated(&self.rt, case),
            "room" => crowded(&self.rt, case),
            "file" => opened(&self.rt, case),
            _ => scripted(&self.rt, case),
        }
    }
}

/// Returns the text of the settings rows.toml.
fn sample(rt: &HostRuntime, case: &mut Case) -> String {
    let read = text_at(rt, "rows", "toml");
    case.or_empty(read)
}

/// Runs a script's file:
///
/// - `script NAME` runs the file NAME.script, and audits its trace; `with NAME` does so with the settings of NAME.toml,
///   `alone NAME` with those of alone.toml, and `pieces NAME` with those of pieces.toml
/// - `each NAME` runs NAME.script event by event, and audits the trace after each; it prints how many there were, or the
///   first one after which the audit fails; `each-with NAME` and `each-alone NAME` do so with those settings
/// - `fault NAME` runs a file that isn't read as a script
fn scripted(rt: &HostRuntime, case: &mut Case) {
    case.back();
    let verb = case.name();
    let name = case.name();
    let read = text_at(rt, name.as_str(), "script");
    let script = case.or_empty(read);
    let settings = match verb.as_str() {
        "with" | "each-with" => name.as_str(),
        "alone" | "each-alone" => "alone",
        "pieces" => "pieces",
        _ => "rows",
    };
    let read = text_at(rt, settings, "toml");
    let settings = case.or_empty(read);
    match verb.as_str() {
        "script" | "with" | "alone" | "pieces" => {
            simulated(rt, settings.as_str(), script.as_str(), case);
            audits::audited(settings.as_str(), script.as_str(), false, case);
        }
        "each" | "each-with" | "each-alone" => {
            audits::audited(settings.as_str(), script.as_str(), true, case);
        }
        "fault" => simulated(rt, settings.as_str(), script.as_str(), case),
        _ => case.fault(),
    }
}

/// A watcher of a run that does nothing.
#[derive(Drop)]
struct Nobody;

impl Progress for Nobody {
    fn reached(&mut self, _done: usize, _all: usize) {}
}

/// Returns the status of a script's run, whose fault is reported.
pub(crate) fn status_of<O: Write>(
    rt: &HostRuntime,
    settings: &str,
    script: &str,
    output: &mut O,
    errors: &mut Vec<u8>,
) -> u8 {
    let settings = TextFile::new("settings", settings);
    let script = TextFile::new("script", script);
    let status = run_sim(rt, settings, script, None, &mut Nobody, output);
    settled(rt.alloc(), status, errors)
}

/// Returns the status of a run, whose fault is reported.
pub(crate) fn settled(alloc: Global, status: Result<u8, Fault>, errors: &mut Vec<u8>) -> u8 {
    match status {
        Ok(status) => status,
        Err(fault) => report(alloc, &fault, errors),
    }
}

/// Runs a script, and prints its output, its faults and its status.
fn simulated(rt: &HostRuntime, settings: &str, script: &str, case: &mut Case) {
    let mut errors = Vec::new(case.alloc);
    let status = status_of(rt, settings, script, &mut case.out, &mut errors);
    tell(status, errors.as_slice(), case);
}

/// Prints what is reported of faults, and the status.
pub(crate) fn tell(status: u8, errors: &[u8], case: &mut Case) {
    case.text(errors);
    case.say("status ", status);
    case.end();
}

/// Runs a script of the same line many times.
fn repeated(rt: &HostRuntime, case: &mut Case) {
    let count = case.times();
    let line = case.rest();
    let made = lines_of(case.alloc, line.as_str(), count);
    let script = case.or_empty(made);
    simulated(rt, sample(rt, case).as_str(), script.as_str(), case);
}

fn lines_of(alloc: Global, line: &str, count: u32) -> Result<String, AllocError> {
    let mut script = String::new(alloc);
    for _ in 0..count {
        script.push_str(line)?;
        script.push('\n')?;
    }
    Ok(script)
}

/// Runs a script whose output fails after a number of bytes.
fn crowded(rt: &HostRuntime, case: &mut Case) {
    let mut narrow = unbuffered(case.alloc, Narrow::new(case.count()));
    let script = case.rest();
    let settings = sample(rt, case);
    let mut errors = Vec::new(case.alloc);
    let status = status_of(
        rt,
        settings.as_str(),
        script.as_str(),
        &mut narrow,
        &mut errors,
    );
    tell(status, errors.as_slice(), case);
}

/// Runs a script's file that may not be one.
fn opened(rt: &HostRuntime, case: &mut Case) {
    match read_text(rt, case.word()) {
        Ok(text) => {
            case.put(text.len());
            case.put(" bytes\n");
        }
        Err(fault) => {
            let status = report(case.alloc, &fault, &mut case.out);
            case.say("status ", status);
            case.end();
        }
    }
}
