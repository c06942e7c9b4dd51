//! Cases of `check` and `compare`.
use crate::edits::edited;
use crate::full::Full;
use crate::reading::settings_in;
use cases_words::{Actor, Case, unbuffered};
use checks::{CheckOptions, check, compare, digest};
use faults::{Fault, TextFile, read_text, report, report_at};
use nat_types::GatewayId;
use std::io::Write;
use std::{fs, mem};

/// The file of an edited text while it is checked.
const EDITED: &str = "edited.toml";

/// The file of the sample settings.
pub(crate) const SAMPLE: &str = "sample.toml";

/// Returns the value of an option, as `10.0.0.1` of `link=10.0.0.1`, or None where the option isn't there.
fn option<'a>(options: &'a str, name: &str) -> Option<&'a str> {
    for word in options.split(' ') {
        if let Some(value) = word.strip_prefix(name) {
            return Some(value);
        }
    }
    None
}

fn check_options(options: &str) -> CheckOptions<'_> {
    let id = match option(options, "id=") {
        Some("0") => Some(GatewayId::Zero),
        Some(_) => Some(GatewayId::One),
        None => None,
    };
    CheckOptions {
        id,
        strict: option(options, "strict").is_some(),
        inside: option(options, "inside="),
        outside: option(options, "outside="),
        link: option(options, "link="),
    }
}

/// Returns the sample with all edits, which are pairs of an old line and its new text.
pub(crate) fn all_edited(sample: &str, case: &mut Case) -> String {
    let copied = String::from_str(case.alloc, sample);
    let mut text = case.or_empty(copied);
    for _ in 0..case.left() / 2 {
        let new = edited(text.as_str(), case);
        drop(mem::replace(&mut text, new));
    }
    text
}

/// Checks the edited sample. With `compare` compares it with the sample; with `other=PATH` compares the file there with
/// the sample.
fn say<O: Write>(
    rt: &HostRuntime,
    options: &str,
    output: &mut O,
    errors: &mut Vec<u8>,
) -> Result<u8, Fault> {
    match (option(options, "compare"), option(options, "other=")) {
        (Some(_), _) => compare(rt, SAMPLE, EDITED, output, errors),
        (None, Some(other)) => compare(rt, SAMPLE, other, output, errors),
        (None, None) => {
            let text = match read_text(rt, EDITED) {
                Ok(text) => text,
                Err(fault) => return Ok(report_at(rt.alloc(), &fault, EDITED, errors)),
            };
            let file = TextFile::new(EDITED, text.as_str());
            check(rt, file, &check_options(options), output)
        }
    }
}

/// Checks the edited sample, and prints what the command prints, what is reported of faults, and the status.
fn tell(rt: &HostRuntime, options: &str, case: &mut Case) {
    let mut errors = Vec::new(case.alloc);
    let status = match option(options, "full") {
        Some(_) => say(rt, options, &mut unbuffered(rt.alloc(), Full), &mut errors),
        None => say(rt, options, &mut case.out, &mut errors),
    };
    let status = status.unwrap_or_else(|fault| report(rt.alloc(), &fault, &mut errors));
    case.text(errors.as_slice());
    case.say("  status ", status);
    case.end();
}

/// The digest of the edited sample, where it has settings.
fn tell_digest(text: &str, case: &mut Case) {
    if let Ok(settings) = settings_in(case.alloc, text) {
        let digest = digest(&settings.values());
        drop(settings);
        case.hex("  digest ", &digest.to_be_bytes());
        case.end();
    }
}

/// The cases of `check` and `compare`.
#[derive(Drop)]
pub(crate) struct Checks<'a> {
    pub(crate) rt: HostRuntime,
    pub(crate) sample: &'a str,
}

impl Actor for Checks<'_> {
    /// A line is `NAME;OPTIONS;OLD;NEW;OLD;NEW..`: what the command prints where the sample is edited so, and with
    /// `full` what is reported where the output is on a full disk.
    fn act(&mut self, case: &mut Case) {
        case.echo("\n");
        let options = case.name();
        let text = all_edited(self.sample, case);
        case.keep(fs::write(&self.rt, EDITED, text.as_bytes()));
        tell(&self.rt, options.as_str(), case);
        if options.as_str() == "compare" {
            tell_digest(text.as_str(), case);
        }
    }
}
