//! Printing of lists, and of a thing that may be missing.

use cases_words::Case;
use std::fmt::Display;

/// Prints how many things were found, and each of them.
pub(crate) fn list<T: Copy + Display + Drop, E: Drop>(found: Result<Vec<T>, E>, case: &mut Case) {
    match found {
        Ok(things) => list_all(things.as_slice(), case),
        Err(_) => case.fault(),
    }
}

/// Prints how many things there are, and each of them.
pub(crate) fn list_all<T: Copy + Display + Drop>(things: &[T], case: &mut Case) {
    case.put(things.len());
    for thing in things {
        case.say(", ", *thing);
    }
}

/// Prints a thing, or `none`.
pub(crate) fn tell_found<T: Copy + Display + Drop>(found: Option<T>, case: &mut Case) {
    match found {
        Some(thing) => case.put(thing),
        None => case.put("none"),
    }
}
