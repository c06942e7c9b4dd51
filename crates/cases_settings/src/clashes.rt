//! Cases of loopback ports of which two clash.
use crate::edits::edited;
use crate::reading::settings_in;
use cases_words::{Actor, Case};
use nat_types::GatewayId;
use settings::Settings;
use settings_file::{OnLoopback, PortClash, port_clash, port_clash_of_both};

fn say(clash: Option<PortClash>, case: &mut Case) {
    match clash {
        Some(clash) => case.say(" ", clash.key),
        None => case.put(" none"),
    }
}

/// Prints what clashes at box 0, at box 1, and at both.
fn say_clashes(settings: &Settings, on: OnLoopback, case: &mut Case) {
    say(port_clash(settings, GatewayId::Zero, on), case);
    say(port_clash(settings, GatewayId::One, on), case);
    say(port_clash_of_both(settings), case);
    case.end();
}

/// Returns the places that are on loopback: inside for `i`, outside for `o`, link for `l`.
pub(crate) fn places_in(places: &str) -> OnLoopback {
    OnLoopback {
        inside: places.contains('i'),
        outside: places.contains('o'),
        link: places.contains('l'),
    }
}

/// The cases of loopback ports that clash.
#[derive(Drop)]
pub(crate) struct Clashes<'a> {
    pub(crate) sample: &'a str,
}

impl Actor for Clashes<'_> {
    /// A line is `NAME;PLACES;OLD;NEW`. The places whose letters (`i`, `o`, `l`) are in PLACES are
    /// on loopback. Prints what clashes at box 0, at box 1, and at both with all places.
    fn act(&mut self, case: &mut Case) {
        case.echo(":");
        let on = places_in(case.word());
        let text = edited(self.sample, case);
        match settings_in(case.alloc, text.as_str()) {
            Ok(settings) => {
                say_clashes(&settings, on, case);
                drop(settings);
            }
            Err(_) => case.fault(),
        }
    }
}
