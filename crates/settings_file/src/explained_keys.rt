//! What is wrong with a key that is missing or unknown, in words.

use crate::explanations::Source;
use crate::fields::entry;
use crate::neighbour_cursor::{NeighbourCheck, NeighbourCursor};
use crate::shown::Shown;
use crate::unknown::{keys_of, section_named};
use crate::{Key, Name, Section, neighbours};
use std::alloc::Global;
use std::fmt::{self, Display, Formatter};
use toml::Table;

/// Explains a required key that is missing.
pub(crate) fn explain_missing(
    source: Source<'_>,
    document: &Table,
    key: Key,
    cursor: &mut NeighbourCursor,
) -> Option<String> {
    let name = key.name?;
    let text = name.as_str();
    if matches!(key.section, Section::Neighbour) {
        let tables = neighbours::tables(document)?;
        let (number, _) = cursor.next(tables, NeighbourCheck::Present, name)?;
        return source.explanation(format_args!("[[neighbour]] {number} has no {text}"));
    }
    let section = key.section.as_str();
    match entry(document, section) {
        None => source.explanation(format_args!("there is no section [{section}]")),
        Some(value) if value.is_table() => explain_left_out(source, key),
        Some(value) => {
            let value = Shown(value);
            source.explanation(format_args!("{section} is {value}; a section, [{section}]"))
        }
    }
}

/// Explains that a section lacks a key.
fn explain_left_out(source: Source<'_>, key: Key) -> Option<String> {
    let name = key.name?;
    let (section, text) = (key.section.as_str(), name.as_str());
    source.explanation(format_args!("[{section}] has no {text}"))
}

/// Returns where a loopback port is left out that a command needs, as `S.toml: [gateway_0] has no link`, for the
/// settings of the file at a path. Returns None out of memory.
pub fn explain_missing_port(alloc: Global, path: &str, key: Key) -> Option<String> {
    explain_left_out(Source { alloc, path }, key)
}

/// Explains the path of a key that settings don't have.
pub(crate) fn explain_unknown(source: Source<'_>, document: &Table, path: &str) -> Option<String> {
    match section_of(document, path) {
        Some(Section::Neighbour) => {
            let keys = KeysOf(Section::Neighbour);
            source.explanation(format_args!("a [[neighbour]] has {keys}"))
        }
        Some(section) => {
            let (name, keys) = (section.as_str(), KeysOf(section));
            source.explanation(format_args!("[{name}] has {keys}"))
        }
        None => source.explanation(
            "the sections are [ports], [inside], [outside], [icmp], [fragments], [vrrp], [gateway_0], [gateway_1], [[neighbour]]",
        ),
    }
}

/// Returns the section in which a path's key stands, or None where the key is the document's own.
fn section_of(document: &Table, path: &str) -> Option<Section> {
    if entry(document, path).is_some() {
        return None;
    }
    let (section, _) = path.split_once('.')?;
    section_named(section)
}

/// The keys of a section, with commas between them.
#[derive(Clone, Copy)]
struct KeysOf(Section);

impl Display for KeysOf {
    fn fmt<W: fmt::Write>(&self, f: &mut Formatter<W>) -> fmt::Result {
        let mut separator = "";
        for name in keys_of(self.0) {
            f.write_str(separator)?;
            f.write_str(name.as_str())?;
            separator = ", ";
        }
        Ok(())
    }
}
