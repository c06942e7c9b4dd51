//! Printing of a step's results, and of a table.

use addresses::Port;
use cases_words::Case;
use gateway::{Out, Outcome};
use nat_types::Pair;

/// Prints the outcome of a step and how many frames went out (`sent`); then the notes; then the datagrams.
pub(crate) fn print_step(outcome: Outcome, sent: usize, out: &Out, case: &mut Case) {
    print_outcome(outcome, case);
    if 0 < sent {
        case.say(", frames ", sent);
    }
    case.end();
    for note in out.notes() {
        case.say("  note ", *note);
        case.end();
    }
    print_datagrams(out, case);
}

fn print_datagrams(out: &Out, case: &mut Case) {
    for datagram in out.datagrams() {
        case.hex("  link ", datagram);
        case.end();
    }
}

fn print_outcome(outcome: Outcome, case: &mut Case) {
    match outcome {
        Outcome::Sent => case.put("  sent"),
        Outcome::Waiting => case.put("  waiting"),
        Outcome::Done => case.put("  done"),
        Outcome::Dropped(reason) => case.say("  dropped ", reason.number()),
    }
}

/// Prints the pairs, a line each, and whether they translate.
pub(crate) fn print_pairs<E: Drop>(
    pairs: Result<Vec<Pair>, E>,
    translating: &[Pair],
    case: &mut Case,
) {
    match pairs {
        Ok(pairs) => {
            for pair in pairs.as_slice() {
                case.say("  ", *pair);
                let translates = translating.contains(pair);
                case.put(if translates {
                    " translates\n"
                } else {
                    " waits\n"
                });
            }
        }
        Err(_) => case.fault(),
    }
}

/// Prints the unbroken runs of rising ports, a line each.
pub(crate) fn print_owned(ports: &[Port], case: &mut Case) {
    let Some((first, others)) = ports.split_first() else {
        return;
    };
    let (mut first, mut last) = (*first, *first);
    for port in others {
        if last.0.checked_add(1) != Some(port.0) {
            print_run(first, last, case);
            first = *port;
        }
        last = *port;
    }
    print_run(first, last, case);
}

fn print_run(first: Port, last: Port, case: &mut Case) {
    case.say("  owns ", first);
    case.say(" to ", last);
    case.end();
}
