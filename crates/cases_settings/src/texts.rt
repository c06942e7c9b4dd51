//! Texts of settings. The cases read the sample settings, and texts that differ from them, and print why each is refused
//! and what `check` says of it; then they print the built-in settings.

use crate::checking::{Checks, SAMPLE};
use crate::clashes::Clashes;
use crate::edits::Edits;
use crate::lists::Lists;
use crate::ports::Ports;
use crate::reading::settings_in;
use crate::{boots, sample};
use anyhow::Result;
use cases_words::{Case, play};
use checks::digest;
use settings::Settings;
use std::fs;

/// Whether two settings are the same, as far as their texts say.
fn are_same(one: &Settings, other: &Settings, case: &mut Case) -> bool {
    let (one, other) = (shown(one, case), shown(other, case));
    one == other
}

fn shown(settings: &Settings, case: &mut Case) -> String {
    let shown = format!(in case.alloc; "{settings:?}");
    case.or_empty(shown)
}

/// Prints whether the sample text says the built-in settings, and what its digest is.
fn say_sample(read: &Settings, case: &mut Case) -> Result<()> {
    let built = Settings::sample(case.alloc)?;
    let same = are_same(read, &built, case);
    drop(built);
    case.say("sample: ", same);
    case.end();
    Ok(())
}

fn say_digest(read: &Settings, case: &mut Case) {
    let digest = digest(&read.values());
    case.hex("digest: ", &digest.to_be_bytes());
    case.end();
}

fn say_built(case: &mut Case) -> Result<()> {
    let built = Settings::sample(case.alloc)?;
    sample::print(case, &built);
    drop(built);
    Ok(())
}

fn try_checks(rt: &HostRuntime, sample: &str, case: &mut Case) -> Result<()> {
    boots::make(rt)?;
    let locked = boot_file::open(rt, "locked")?;
    let tried = play(rt, "checks.cases", Checks { rt: *rt, sample }, case);
    drop(locked);
    tried
}

/// Does all cases of texts, and prints the digest of the settings that the sample says.
fn try_texts(rt: &HostRuntime, sample: &str, read: &Settings, case: &mut Case) -> Result<()> {
    say_sample(read, case)?;
    play(rt, "settings.cases", Edits { sample }, case)?;
    play(rt, "lists.cases", Lists { sample }, case)?;
    play(rt, "clashes.cases", Clashes { sample }, case)?;
    play(rt, "ports.cases", Ports { sample }, case)?;
    say_digest(read, case);
    Ok(())
}

fn try_sample(rt: &HostRuntime, sample: &str, case: &mut Case) -> Result<()> {
    let read = settings_in(rt.alloc(), sample)?;
    let tried = try_texts(rt, sample, &read, case);
    drop(read);
    tried
}

/// Does all cases of settings.
pub(crate) fn try_all(rt: &HostRuntime, case: &mut Case) -> Result<()> {
    let sample = fs::read_to_string(rt, SAMPLE)?;
    case.part_by(';');
    try_sample(rt, sample.as_str(), case)?;
    try_checks(rt, sample.as_str(), case)?;
    say_built(case)
}
