//! A frame cut at every length, and with every byte changed to every other value: how many of these are
//! sent on, and how many steps note something.

use crate::any_gateway::AnyGateway;
use cases_words::Case;
use gateway::{Event, Out, Outcome};
use nat_types::Side;

/// The counts of frames tried on a side: all, those that were sent on, those whose step noted something.
#[derive(Drop)]
pub(crate) struct Trial {
    side: Side,
    /// The time of the next frame in centiseconds, where each comes in a second of its own; None where the clock stays.
    next: Option<u64>,
    all: u32,
    sent: u32,
    noted: u32,
}

impl Trial {
    /// Returns the counts before any frame.
    pub(crate) fn new(side: Side, next: Option<u64>) -> Trial {
        Trial {
            side,
            next,
            all: 0,
            sent: 0,
            noted: 0,
        }
    }

    pub(crate) fn tell(&self, case: &mut Case) {
        case.say("  ", self.all);
        case.say(" frames: sent ", self.sent);
        case.say(", noted ", self.noted);
        case.end();
    }

    /// Moves the clock, where it goes on, and tries a frame.
    pub(crate) fn try_frame<G: AnyGateway>(
        &mut self,
        gateway: &mut G,
        frame: &[u8],
        out: &mut Out,
        case: &mut Case,
    ) {
        if let Some(moment) = self.next {
            gateway.step(Event::Tick(moment), out, case);
            self.next = Some(moment.saturating_add(100));
        }
        self.all = self.all.saturating_add(1);
        if gateway.step(Event::Frame(self.side, frame), out, case) == Outcome::Sent {
            self.sent = self.sent.saturating_add(1);
        }
        if !out.notes().is_empty() {
            self.noted = self.noted.saturating_add(1);
        }
    }
}

/// Tries the frame with one byte changed, each to each other value, and prints at which bytes a changed frame is sent
/// on.
pub(crate) fn change<G: AnyGateway>(
    trial: &mut Trial,
    gateway: &mut G,
    frame: &mut [u8],
    out: &mut Out,
    case: &mut Case,
) {
    for at in 0..frame.len() {
        let before = trial.sent;
        change_at(trial, gateway, frame, at, out, case);
        let sent = trial.sent.saturating_sub(before);
        if 0 < sent {
            case.say("  byte ", at);
            case.say(": sent ", sent);
            case.end();
        }
    }
}

/// Tries the frame with this byte changed to each other value. Afterwards the frame is as before.
fn change_at<G: AnyGateway>(
    trial: &mut Trial,
    gateway: &mut G,
    frame: &mut [u8],
    at: usize,
    out: &mut Out,
    case: &mut Case,
) {
    for _ in 1..=255u8 {
        turn(frame, at);
        trial.try_frame(gateway, frame, out, case);
    }
    turn(frame, at);
}

/// Increases a byte by one, wrapping around.
fn turn(frame: &mut [u8], at: usize) {
    if let Some(byte) = frame.get_mut(at) {
        *byte = byte.wrapping_add(1);
    }
}
