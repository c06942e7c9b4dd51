//! Cases of loopback ports that are left out.
use crate::checking::all_edited;
use crate::clashes::places_in;
use crate::reading::settings_in;
use cases_words::{Actor, Case};
use nat_types::GatewayId;
use settings::Settings;
use settings_file::{Key, OnLoopback, missing_port, ports_of_both};

fn say(key: Option<Key>, case: &mut Case) {
    match key {
        Some(key) => case.say(" ", key),
        None => case.put(" none"),
    }
}

/// Prints the first port that box 0, that box 1, and that both lack.
fn say_missing(settings: &Settings, on: OnLoopback, case: &mut Case) {
    say(missing_port(settings, GatewayId::Zero, on), case);
    say(missing_port(settings, GatewayId::One, on), case);
    say(ports_of_both(settings).err(), case);
    case.end();
}

/// The cases of loopback ports that are left out.
#[derive(Drop)]
pub(crate) struct Ports<'a> {
    pub(crate) sample: &'a str,
}

impl Actor for Ports<'_> {
    /// A line is `NAME;PLACES;OLD;NEW;OLD;NEW..`. Prints the first port that box 0 lacks, and that box 1 lacks, with the
    /// places on loopback whose letters (`i`, `o`, `l`) are in PLACES; and that both lack with all places there.
    fn act(&mut self, case: &mut Case) {
        case.echo(":");
        let on = places_in(case.word());
        let text = all_edited(self.sample, case);
        match settings_in(case.alloc, text.as_str()) {
            Ok(settings) => {
                say_missing(&settings, on, case);
                drop(settings);
            }
            Err(_) => case.fault(),
        }
    }
}
