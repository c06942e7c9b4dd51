//! The parts of the answer to a line of one side, printed one after another.

use crate::states::state_name;
use addresses::Port;
use cases_words::Case;
use nat_types::{Endpoint, EntryState, Key, Note, Pair, Record};
use spec_binding::Want;

/// Whether the line so far ends with its colon.
fn is_bare(case: &Case) -> bool {
    case.out.last().copied() == Some(b':')
}

/// Begins one more part of the answer.
pub(crate) fn begin_part(word: &str, case: &mut Case) {
    let mark = if is_bare(case) { " " } else { "; " };
    case.say(mark, word);
}

/// Ends the answer, with `nothing` where there is no part.
pub(crate) fn end_parts(case: &mut Case) {
    if is_bare(case) {
        case.put(" nothing");
    }
    case.end();
}

/// Prints why the line is refused.
pub(crate) fn refuse(why: &str, case: &mut Case) {
    case.say(" refused, ", why);
}

fn tell_ports(ports: &[Port], case: &mut Case) {
    for port in ports {
        case.say(" ", *port);
    }
}

fn tell_key(word: &str, key: Key, case: &mut Case) {
    case.say(word, key.protocol);
    case.say(" ", key.port);
}

pub(crate) fn tell_record(item: &Record, case: &mut Case) {
    match *item {
        Record::Install(pair) => case.say("install ", pair),
        Record::Put(pair) => case.say("put ", pair),
        Record::Tell(pair) => case.say("tell ", pair),
        Record::Accept(key) => tell_key("accept ", key, case),
        Record::Refuse(key) => tell_key("refuse ", key, case),
        Record::Ask(key) => tell_key("ask ", key, case),
        Record::Yes(key) => tell_key("yes ", key, case),
        Record::No(key) => tell_key("no ", key, case),
        Record::Begin => case.put("begin"),
        Record::Done => case.put("done"),
        Record::Want => case.put("want"),
        Record::Owner { first, last } => {
            case.say("owner ", first);
            case.say(" ", last);
        }
        Record::Grant(granted) => {
            case.put("grant");
            tell_ports(granted.ports(), case);
        }
    }
}

/// Prints the records that were pushed, without the `printed` ones that were printed before.
pub(crate) fn tell_pushed(records: &[Record], printed: usize, case: &mut Case) {
    for item in records.get(printed..).unwrap_or(&[]) {
        begin_part("pushes ", case);
        tell_record(item, case);
    }
}

pub(crate) fn tell_notes(notes: &[Note], case: &mut Case) {
    for note in notes {
        begin_part("notes ", case);
        case.put(*note);
    }
}

pub(crate) fn tell_want(want: Want, case: &mut Case) {
    match want {
        Want::Port(port) => {
            begin_part("port ", case);
            case.put(port);
        }
        Want::Wait => begin_part("wait", case),
        Want::NoPort => begin_part("no port", case),
        Want::HostLimit => begin_part("host limit", case),
        Want::NotNow => begin_part("not now", case),
    }
}

pub(crate) fn tell_endpoint(word: &str, endpoint: Endpoint, case: &mut Case) {
    begin_part(word, case);
    case.put(endpoint.protocol);
    case.say(" ", endpoint.address);
    case.say(" ", endpoint.port);
}

pub(crate) fn tell_entry(pair: Pair, state: EntryState, case: &mut Case) {
    begin_part("", case);
    case.put(pair);
    case.say(" ", state_name(state));
}

pub(crate) fn tell_owned(ports: &[Port], case: &mut Case) {
    begin_part("owns", case);
    tell_ports(ports, case);
}
