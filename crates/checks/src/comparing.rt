//! The comparison of the settings of two files.

use crate::{differing_keys, must_agree};
use faults::{Fault, TextFile, read_settings_text, report_at, settings_in};
use settings::Settings;
use std::alloc::Global;
use std::fs::Files;
use std::io::Write;

/// Writes each key in which the settings of the files at two paths differ, whether the key may differ, and last how
/// many keys do. A file without settings is reported on `errors`. Returns the exit status: 1 where a file has no
/// settings or a key differs that must not, else 0.
///
/// # Errors
///
/// `NotWritten`; `NoMemory`, and then nothing is written.
pub fn compare<R: Files + AllocGlobal, W: Write, E: Write>(
    rt: &R,
    one: &str,
    other: &str,
    output: &mut W,
    errors: &mut E,
) -> Result<u8, Fault> {
    let alloc = rt.alloc();
    let (first, second) = (text_at(rt, one, errors), text_at(rt, other, errors));
    let (Some(first), Some(second)) = (first, second) else {
        return Ok(1);
    };
    let first = settings_of(alloc, TextFile::new(one, first.as_str()), errors);
    let second = settings_of(alloc, TextFile::new(other, second.as_str()), errors);
    match (first, second) {
        (Some(first), Some(second)) => write_differences(alloc, &first, &second, output),
        _ => Ok(1),
    }
}

/// Reads the text of a file, or reports why there is none.
fn text_at<R: Files + AllocGlobal, E: Write>(rt: &R, path: &str, errors: &mut E) -> Option<String> {
    match read_settings_text(rt, path) {
        Ok(text) => Some(text),
        Err(fault) => {
            report_at(rt.alloc(), &fault, path, errors);
            None
        }
    }
}

/// Reads the settings in the text of a file, or reports why there are none.
fn settings_of<E: Write>(alloc: Global, file: TextFile<'_>, errors: &mut E) -> Option<Settings> {
    match settings_in(alloc, file) {
        Ok(settings) => Some(settings),
        Err(fault) => {
            report_at(alloc, &fault, file.path, errors);
            None
        }
    }
}

/// Writes the keys in which two settings differ, and returns the exit status.
fn write_differences<W: Write>(
    alloc: Global,
    one: &Settings,
    other: &Settings,
    output: &mut W,
) -> Result<u8, Fault> {
    let keys = differing_keys(alloc, one, other)?;
    let mut text = String::new(alloc);
    let mut wrong = 0_usize;
    for key in keys.as_slice() {
        if must_agree(*key, one, other) {
            wrong = wrong.saturating_add(1);
            writeln!(text, "must not differ: {key}")?;
        } else {
            writeln!(text, "may differ: {key}")?;
        }
    }
    let all = keys.len();
    writeln!(text, "{all} keys differ, {wrong} of them must not")?;
    output.write_all(text.as_bytes())?;
    output.flush()?;
    Ok(u8::from(wrong > 0))
}
