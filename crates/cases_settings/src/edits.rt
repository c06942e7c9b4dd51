//! Cases that change the sample settings.
use crate::reading;
use cases_words::{Actor, Case};
use std::alloc::{AllocError, Global};

/// Returns the text with its first line that is `old` replaced by `new`, in which `|` is a line
/// end.
pub(crate) fn replaced(
    alloc: Global,
    text: &str,
    old: &str,
    new: &str,
) -> Result<String, AllocError> {
    let mut edited = String::new(alloc);
    let mut done = false;
    for line in text.lines() {
        if line == old && !done {
            done = true;
            add_lines(&mut edited, new)?;
        } else {
            add(&mut edited, line)?;
        }
    }
    Ok(edited)
}

fn add_lines(text: &mut String, lines: &str) -> Result<(), AllocError> {
    for line in lines.split('|') {
        add(text, line)?;
    }
    Ok(())
}

fn add(text: &mut String, line: &str) -> Result<(), AllocError> {
    text.push_str(line)?;
    text.push('\n')
}

/// Returns the text with its first line that is the next word replaced by the word after that.
pub(crate) fn edited(text: &str, case: &mut Case) -> String {
    let (old, new) = (case.name(), case.name());
    let edited = replaced(case.alloc, text, old.as_str(), new.as_str());
    case.or_empty(edited)
}

/// The cases of edited settings.
#[derive(Drop)]
pub(crate) struct Edits<'a> {
    pub(crate) sample: &'a str,
}

impl Actor for Edits<'_> {
    /// A line is `NAME;OLD;NEW`: the first line OLD of the sample becomes NEW.
    fn act(&mut self, case: &mut Case) {
        case.echo(": ");
        let text = edited(self.sample, case);
        reading::say(text.as_str(), case);
    }
}
