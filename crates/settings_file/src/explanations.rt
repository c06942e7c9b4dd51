//! What is wrong with a text of settings, in words.

use crate::SettingFault;
use crate::explained_keys::{explain_missing, explain_unknown};
use crate::explained_settings::{explain_overlap, explain_shared, explain_unworkable};
use crate::explained_values::explain_bad_value;
use crate::neighbour_cursor::NeighbourCursor;
use crate::reading::well_formed_settings;
use crate::values::Values;
use std::alloc::Global;
use std::fmt::Display;
use toml::Table;
use toml::de::Error;

/// The file of a text of settings.
#[derive(Clone, Copy)]
pub(crate) struct Source<'a> {
    pub(crate) alloc: Global,
    pub(crate) path: &'a str,
}

impl Source<'_> {
    /// Returns an explanation that begins with the file's path, or None out of memory.
    pub(crate) fn explanation<D: Display + Drop>(self, what: D) -> Option<String> {
        let path = self.path;
        format!(in self.alloc; "{path}: {what}").ok()
    }
}

/// Explains the faults of a text of settings in plain words.
#[derive(Drop)]
pub struct Explainer<'a> {
    source: Source<'a>,
    text: &'a str,
    document: Result<Table, Error>,
    cursor: NeighbourCursor,
}

impl<'a> Explainer<'a> {
    /// Returns an explainer of the text of the file at a path, as the path is to be shown.
    pub fn new(alloc: Global, path: &'a str, text: &'a str) -> Explainer<'a> {
        Explainer {
            source: Source { alloc, path },
            text,
            document: toml::table_from_str(alloc, text),
            cursor: NeighbourCursor::new(),
        }
    }

    /// Returns where a fault lies and what is wrong there, as `S.toml: inside.prefix is 31; 8 to 30`. Returns None
    /// where the text doesn't have the fault, and out of memory.
    ///
    /// Several neighbours may have the same fault. The first call explains that of the first one, as
    /// [`read`](crate::read) returns it; calls in the order of [`examine`](crate::examine) explain each.
    pub fn explain(&mut self, fault: &SettingFault) -> Option<String> {
        let source = self.source;
        let document = match &self.document {
            Ok(document) => document,
            Err(error) => return explain_syntax(source, self.text, error),
        };
        match fault {
            SettingFault::Missing(key) => explain_missing(source, document, *key, &mut self.cursor),
            SettingFault::BadValue(key) => {
                explain_bad_value(source, document, *key, &mut self.cursor)
            }
            SettingFault::UnknownKey(path) => explain_unknown(source, document, path.as_str()),
            SettingFault::RangesOverlap => {
                let values = Values::read(source.alloc, document).ok()?;
                explain_overlap(source, &values)
            }
            SettingFault::SameIds => {
                let values = Values::read(source.alloc, document).ok()?;
                explain_shared(source, &values)
            }
            SettingFault::CantWork(key) => {
                let settings = well_formed_settings(source.alloc, document).ok()?;
                explain_unworkable(source, document, &settings, *key, &mut self.cursor)
            }
            SettingFault::NotToml | SettingFault::NoMemory => None,
        }
    }
}

/// Returns where a text stops being TOML, and what is wrong there.
fn explain_syntax(source: Source<'_>, text: &str, error: &Error) -> Option<String> {
    let span = error.span()?;
    let (line, column) = position(text.as_bytes().get(..span.start)?);
    let (path, message) = (source.path, error.message());
    format!(in source.alloc; "{path}, line {line}, column {column}: {message}").ok()
}

/// Returns the line and the column, both counted from 1, of what follows some bytes. A column is a character.
fn position(before: &[u8]) -> (usize, usize) {
    let mut line = 1_usize;
    let mut column = 1_usize;
    for byte in before {
        if *byte == b'\n' {
            line = line.saturating_add(1);
            column = 1;
        } else if !is_continuation(*byte) {
            column = column.saturating_add(1);
        }
    }
    (line, column)
}

/// Whether a byte of UTF-8 continues a character.
fn is_continuation(byte: u8) -> bool {
    byte >= 0x80 && byte < 0xc0
}
