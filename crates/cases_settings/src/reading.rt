//! Settings read from a text.
use cases_words::Case;
use settings::Settings;
use settings_file::{Explainer, SettingFault};
use std::alloc::Global;

/// Returns the settings that a text says. The function has no contract, which keeps the proofs of
/// its callers small.
pub(crate) fn settings_in(alloc: Global, text: &str) -> Result<Settings, SettingFault> {
    settings_file::read(alloc, text)
}

/// Prints whether a text is read as settings, or why it isn't.
pub(crate) fn say(text: &str, case: &mut Case) {
    match settings_in(case.alloc, text) {
        Ok(settings) => {
            drop(settings);
            case.put("read");
        }
        Err(fault) => tell(text, &fault, case),
    }
    case.end();
}

/// Prints a fault of a text, and on a second line what is wrong there.
fn tell(text: &str, fault: &SettingFault, case: &mut Case) {
    case.say("settings ", fault);
    let mut explainer = Explainer::new(case.alloc, "settings.toml", text);
    if let Some(why) = explainer.explain(fault) {
        case.say("\n  ", why.as_str());
    }
}
