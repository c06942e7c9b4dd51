//! The files that the cases read, write and print.

use anyhow::{Context, Result};
use cases_words::Case;
use faults::read_text;
use std::fs;

/// Returns the text of the file of a name and a kind.
pub(crate) fn text_at(rt: &HostRuntime, name: &str, kind: &str) -> Result<String> {
    let path = format!(in rt.alloc(); "{name}.{kind}")?;
    Ok(read_text(rt, path.as_str())?)
}

/// Writes the file NAME, where the rest of the line is `NAME;OLD;NEW`: S.toml with its first OLD replaced by NEW.
pub(crate) fn write(rt: &HostRuntime, case: &mut Case) {
    let text = case.rest();
    case.keep(written(rt, text.as_str()));
}

fn written(rt: &HostRuntime, text: &str) -> Result<()> {
    let (name, rest) = text.split_once(';').context("no name")?;
    let (old, new) = rest.split_once(';').context("no lines")?;
    let sample = fs::read_to_string(rt, "S.toml")?;
    let (before, behind) = sample.as_str().split_once(old).context("no such text")?;
    let edited = format!(in rt.alloc(); "{before}{new}{behind}")?;
    fs::write(rt, name, edited.as_str())?;
    Ok(())
}

/// Writes the file NAME, where the line is `NAME COUNT`: S.toml with a comment behind it, COUNT bytes in all.
pub(crate) fn lengthen(rt: &HostRuntime, case: &mut Case) {
    let name = case.name();
    let count = case.count();
    case.keep(lengthened(rt, name.as_str(), count));
}

fn lengthened(rt: &HostRuntime, name: &str, count: usize) -> Result<()> {
    let mut text = fs::read_to_string(rt, "S.toml")?;
    for _ in text.len()..count {
        text.push('#')?;
    }
    fs::write(rt, name, text.as_str())?;
    Ok(())
}

/// Writes the file NAME, where the line is `NAME HEX`.
pub(crate) fn fill(rt: &HostRuntime, case: &mut Case) {
    let name = case.name();
    let bytes = case.bytes();
    case.keep(fs::write(rt, name.as_str(), bytes.as_slice()));
}

/// Prints the bytes of a file.
pub(crate) fn show(rt: &HostRuntime, case: &mut Case) {
    let bytes = fs::read(rt, case.word());
    case.hex_made("", bytes);
    case.end();
}
