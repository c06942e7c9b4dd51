//! The records that a box writes for its operator.

use crate::entries::{cause_in, entry_in, format_in, note_in, origin_in};
use crate::words::writer_state_in;
use crate::writers::{Printer, WriterState};
use cases_words::{Actor, Case};
use journal::{EventLog, Mappings, Sink, filter};
use log::filter::FilteredLog;
use nat_types::{GatewayId, Note};
use std::cell::Cell;
use std::slice;

type PrintedLog<'a> = EventLog<FilteredLog<Sink<Printer<'a>>>>;

/// The log of the last line `open`, if its texts were filters.
#[derive(Drop)]
pub(crate) struct Journals<'a> {
    rt: HostRuntime,
    state: &'a Cell<WriterState>,
    log: Option<PrintedLog<'a>>,
}

impl<'a> Journals<'a> {
    /// Returns the cases without a log, whose writer has this state.
    pub(crate) fn new(rt: HostRuntime, state: &'a Cell<WriterState>) -> Journals<'a> {
        Journals {
            rt,
            state,
            log: None,
        }
    }

    /// Begins a new log, by the option's filter or else the environment's; with `mapped` after them one of mappings too,
    /// with `peer-only` that of a box that takes the other box's advertisements alone.
    fn open(&mut self, case: &mut Case) {
        let format = format_in(case);
        let (option, environment) = (case.name(), case.name());
        let text = given(option.as_str()).or(given(environment.as_str()));
        let word = last_word(case);
        let peer_only = word.as_str() == "peer-only";
        let mappings = mappings_for(word.as_str(), case);
        self.log = match filter(case.alloc, text.unwrap_or("")) {
            Ok(filter) => {
                let sink = Sink::new(Printer::new(self.rt, self.state), format);
                let filtered = FilteredLog::new(sink, filter);
                Some(EventLog::new(filtered, peer_only, mappings))
            }
            Err(fault) => {
                case.put(fault);
                case.end();
                None
            }
        };
    }
}

impl Actor for Journals<'_> {
    /// Does what a line says:
    ///
    /// - `open FORMAT OPTION ENVIRONMENT`, and maybe `mapped` or `peer-only` after it: begins a new log, which tells
    ///   mappings, or whose box takes the other box's advertisements alone
    /// - `paper room`, `paper none`, `paper fails`: from now on a write takes its line; would wait;
    ///   fails
    /// - all else is done on the log (`act_on`)
    fn act(&mut self, case: &mut Case) {
        case.title("> ", "\n");
        case.flush(&self.rt);
        match case.word() {
            "open" => self.open(case),
            "paper" => self.state.set(writer_state_in(case)),
            _ => match self.log.as_mut() {
                Some(log) => act_on(log, case),
                None => case.fault(),
            },
        }
    }
}

/// Returns a text, or None for `-`.
fn given(word: &str) -> Option<&str> {
    if word == "-" { None } else { Some(word) }
}

/// Returns the next word, or an empty text where none is left.
fn last_word(case: &mut Case) -> String {
    if case.left() == 0 {
        String::new(case.alloc)
    } else {
        case.name()
    }
}

/// Returns what a log needs that tells mappings, where the word is `mapped`.
fn mappings_for(word: &str, case: &mut Case) -> Option<Mappings> {
    match word {
        "" | "peer-only" => None,
        "mapped" => Mappings::new(case.alloc).ok(),
        _ => {
            case.fault();
            None
        }
    }
}

/// Does what a line says on the log:
///
/// - `turn TIME`: the clock is at this time
/// - `lose TIME ORIGIN CAUSE COUNT`: COUNT events were dropped
/// - `tell TIME ENTRY..`: a change of the box
/// - `note TIME NOTE..`: the gateway notes something
/// - `end TIME`: the box ends at this time
/// - `flush`: writes how many lines were left out
fn act_on(log: &mut PrintedLog<'_>, case: &mut Case) {
    case.back();
    match case.word() {
        "turn" => log.advance_to(case.number()),
        "lose" => lose(log, case),
        "tell" => {
            let time = case.number();
            log.write(time, entry_in(case));
        }
        "note" => note(log, case),
        "end" => log.finish(case.number()),
        "flush" => log.flush(),
        _ => case.fault(),
    }
}

/// Records that events were dropped.
fn lose(log: &mut PrintedLog<'_>, case: &mut Case) {
    let time = case.number();
    let (origin, cause) = (origin_in(case), cause_in(case));
    for _ in 0..case.times() {
        log.write_dropped(time, origin, cause);
    }
}

/// Gives the log a note of gateway 0.
fn note(log: &mut PrintedLog<'_>, case: &mut Case) {
    let note = Note {
        by: GatewayId::Zero,
        at: case.number(),
        what: note_in(case),
        counts: true,
    };
    log.write_mappings(slice::from_ref(&note));
}
