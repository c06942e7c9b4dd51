//! The meaning of the words of the cases, and what more than one kind of case prints.

use crate::writers::WriterState;
use cases_words::Case;
use nat_types::Side;
use sockets::{Losses, Place};
use std::alloc::{AllocError, Global};

/// The most bytes that are printed in full.
const MOST_SHOWN: usize = 400;

const PLACES: [(&str, Place); 4] = [
    ("link", Place::Link),
    ("inside", Place::Side(Side::Inside)),
    ("outside", Place::Side(Side::Outside)),
    ("operator", Place::Operator),
];

/// Returns the place that the next word names.
pub(crate) fn place_in(case: &mut Case) -> Place {
    case.pick(&PLACES, Place::Link)
}

/// Returns the name of a place.
pub(crate) fn name_of(place: Place) -> &'static str {
    match place {
        Place::Link => "link",
        Place::Side(Side::Inside) => "inside",
        Place::Side(Side::Outside) => "outside",
        Place::Operator => "operator",
    }
}

/// Returns the bytes of pairs of hexadecimal digits, or of zeros, as `zeros:4096`.
pub(crate) fn bytes_in(case: &mut Case) -> Vec<u8> {
    match zeros_of(case.word()) {
        Some(count) => case.many(0, usize::from(count)),
        None => {
            case.back();
            case.bytes()
        }
    }
}

fn zeros_of(word: &str) -> Option<u16> {
    word.strip_prefix("zeros:")?.parse::<u16>().ok()
}

/// Returns bytes in hexadecimal, or only their number where they are many.
pub(crate) fn shown(alloc: Global, bytes: &[u8]) -> Result<String, AllocError> {
    if bytes.len() > MOST_SHOWN {
        return format!(in alloc; "{} bytes", bytes.len());
    }
    hex::encode(alloc, bytes)
}

/// Returns the state that a word says: `room`, `none`, `fails`, or `takes COUNT`.
pub(crate) fn writer_state_in(case: &mut Case) -> WriterState {
    match case.word() {
        "room" => WriterState::Open,
        "none" => WriterState::Blocked,
        "fails" => WriterState::Failing,
        "takes" => WriterState::TakesAtMost(case.count()),
        _ => {
            case.fault();
            WriterState::Blocked
        }
    }
}

/// Prints how many datagrams weren't sent.
pub(crate) fn tell_losses(case: &mut Case, losses: Losses) {
    case.say("  too long ", losses.too_long);
    case.say(", failed ", losses.failed);
    case.end();
}
