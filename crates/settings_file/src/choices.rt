//! The word that says how a port is chosen. The error is the key whose value is bad.
ghost use Rattle.std.specs.Prelude.{◌≡◌, Some, IfOk, IfErr};
ghost use Rattle.toml.specs.View.{table_view, view};
ghost use Rattle.settings_file.specs.Document.{choice_named, choice_in, choice_at};
ghost use Rattle.settings_file.specs.Faults.{IsBadAt};

use crate::fields::value_at;
use crate::{Key, Name, Section};
use settings::Choice;
use toml::{Table, Value};

/// Returns the choice that a word names.
fn choice_named(word: &str) -> Option<Choice>
    ensures { result ≡ choice_named word.now }
{
    match word {
        "lowest" => Some(Choice::Lowest),
        "drawn" => Some(Choice::Drawn),
        _ => None,
    }
}

/// Returns the choice that a value is, or None where the value is no word for one.
fn choice_in(value: &Value) -> Option<Choice>
    ensures { result ≡ choice_in (view value.now) }
{
    match value.as_str() {
        Some(word) => choice_named(word),
        None => None,
    }
}

/// Returns the choice at a key, that of the lowest port where the key is left out.
///
/// # Errors
///
/// The key, where its value is no word for a choice.
#[tactic(auto, unfolding(crate::specs::Document::choice_at))]
pub(crate) fn choice(document: &Table, section: Section, name: Name) -> Result<Choice, Key>
    ensures ok { IfOk result
        (λ c. choice_at (table_view document.now) section name ≡ Some c) }
    ensures err { IfErr result
        (IsBadAt section name (choice_at (table_view document.now) section name)) }
{
    match value_at(document, section, name) {
        Some(value) => choice_in(value).ok_or(Key::new(section, name)),
        None => Ok(Choice::Lowest),
    }
}
