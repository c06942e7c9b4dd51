//! Steps for which there is no memory. A gateway takes what the lines of each file say; where memory is refused,
//! nothing may have changed, and the step has to succeed when it is tried again.

use crate::any_gateway::AnyGateway;
use crate::retries::Retrier;
use anyhow::Result;
use gateway::{Gateway, Hashers, Secrets};
use slots::SystemDraws;
use std::alloc::Global;
use std::fs;
use std::io::{self, Write};
use std::rt::Files;

const FILES: [&str; 3] = ["word.cases", "accepts.cases", "pairs.cases"];

/// Plays each file, with hashers drawn from the system, and prints at once what comes of its lines.
pub(crate) fn try_all(rt: &HostRuntime) -> Result<()> {
    let mut output = io::writer(rt);
    let mut draws = SystemDraws(rt);
    let drawn = Hashers::drawn(&mut draws);
    let SystemDraws(_) = draws;
    let secrets = Secrets {
        hashers: drawn?,
        key: [0; 32],
    };
    for name in &FILES {
        play_file(rt, name, secrets, &mut output)?;
    }
    Ok(())
}

/// Plays the lines of a file at a gateway of its own.
fn play_file<R: Files + AllocGlobal, O: Write>(
    rt: &R,
    name: &str,
    secrets: Secrets,
    output: &mut O,
) -> Result<()> {
    let text = text_of(rt, name)?;
    let played = play(rt.alloc(), secrets, name, text.as_str(), output);
    drop(text);
    played
}

/// Returns the text of a file; asks once more where memory is refused.
fn text_of<R: Files + AllocGlobal>(rt: &R, name: &str) -> Result<String> {
    match fs::read_to_string(rt, name) {
        Ok(text) => Ok(text),
        Err(_refused) => Ok(fs::read_to_string(rt, name)?),
    }
}

/// Plays the lines of a text at a founded gateway, and prints the text's name before them.
fn play<O: Write>(
    alloc: Global,
    secrets: Secrets,
    name: &str,
    text: &str,
    output: &mut O,
) -> Result<()> {
    writeln!(output, "== {name}")?;
    let mut retrier = Retrier::<Gateway>::new(alloc, secrets)?;
    let played = play_lines(&mut retrier, text, output);
    retrier.end();
    played
}

/// Does what each line says. A line is empty, begins with `#`, or is one of those of `Retrier::act`.
fn play_lines<G: AnyGateway, O: Write>(
    retrier: &mut Retrier<G>,
    text: &str,
    output: &mut O,
) -> Result<()> {
    for line in text.lines() {
        if line.is_empty() || line.starts_with("#") {
            continue;
        }
        writeln!(output, "{line}")?;
        retrier.act(line, output)?;
    }
    Ok(())
}
