//! Rounds over a wire of which one call fails.

use cases_words::Case;
use sockets::{MAX_DATAGRAM, Place, Sockets, Wire};
use std::time::Duration;

/// Does 20 rounds, in each of which both boxes send a datagram on the link and gateway 0 receives
/// one. One call of gateway 0's wire fails: at an odd number a datagram is lost, at an even one the
/// datagram stays where it is. Prints how many datagrams came and how many are left.
pub(crate) fn rounds(sockets: &mut [Sockets], case: &mut Case) {
    let number = case.number();
    match sockets {
        [zero, one, ..] => {
            let came = count_received(zero, number, one);
            tell(case, came, drained(zero), drained(one));
        }
        _ => case.fault(),
    }
}

fn tell(case: &mut Case, came: usize, left: usize, sent: usize) {
    case.say("  sent ", sent);
    case.say(", came ", came);
    case.say(", left ", left);
    case.end();
}

/// Returns how many datagrams come in the rounds.
fn count_received(wire: &mut Sockets, number: u64, other: &mut Sockets) -> usize {
    let mut received = 0_usize;
    let mut left = number;
    let mut buffer = [0; MAX_DATAGRAM];
    for _ in 0..20 {
        let _ = other.send(Place::Link, b"one");
        if !fails(&mut left) {
            let _ = wire.send(Place::Link, b"zero");
        }
        if !fails(&mut left) {
            if let Ok(Some(_)) = wire.receive(Duration::ZERO, &mut buffer) {
                received = received.saturating_add(1);
            }
        }
    }
    received
}

/// Counts a call, and answers whether it is the one that fails.
fn fails(left: &mut u64) -> bool {
    let fails = *left == 1;
    *left = left.saturating_sub(1);
    fails
}

/// Receives all datagrams that are there, and returns how many they were.
fn drained(wire: &mut Sockets) -> usize {
    let mut buffer = [0; MAX_DATAGRAM];
    for count in 0..100 {
        let Ok(Some(_)) = wire.receive(Duration::ZERO, &mut buffer) else {
            return count;
        };
    }
    100
}
