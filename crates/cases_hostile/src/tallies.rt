//! Counts of outcomes, and runs of places with the same counts.

use cases_words::Case;
use gateway::Outcome;

/// The number of places of a tally: those of the outcomes that aren't drops, then one for each reason's number.
const KINDS: usize = 28;

/// The place before that of the drops with reason 1. The outcome `Done` is counted there.
const DROPS: usize = 2;

/// The count of each outcome.
#[derive(Clone, Copy, PartialEq, Eq)]
pub(crate) struct Tally([u32; KINDS]);

impl Tally {
    pub(crate) fn new() -> Tally {
        Tally([0; KINDS])
    }

    /// Counts an outcome.
    pub(crate) fn count(&mut self, outcome: Outcome) {
        let place = match outcome {
            Outcome::Sent => 0,
            Outcome::Waiting => 1,
            Outcome::Done => DROPS,
            Outcome::Dropped(reason) => DROPS.saturating_add(usize::from(reason.number())),
        };
        if let Some(times) = self.0.get_mut(place) {
            *times = times.saturating_add(1);
        }
    }

    /// Adds the counts of another tally.
    pub(crate) fn add(&mut self, other: &Tally) {
        for place in 0..KINDS {
            self.0[place] = self.0[place].saturating_add(other.0[place]);
        }
    }

    fn tell(&self, case: &mut Case) {
        for (place, times) in self.0.iter().enumerate() {
            if *times != 0 {
                tell_kind(place, case);
                case.say(" x", *times);
            }
        }
        case.end();
    }
}

fn tell_kind(place: usize, case: &mut Case) {
    match place {
        0 => case.put(" sent"),
        1 => case.put(" waiting"),
        DROPS => case.put(" done"),
        _ => case.say(" dropped ", place.saturating_sub(DROPS)),
    }
}

/// A run of neighbouring places, rising or falling, with the same counts.
#[derive(Drop)]
pub(crate) struct Run {
    word: &'static str,
    places: Option<(usize, usize)>,
    tally: Tally,
}

impl Run {
    /// Returns a run of no place so far.
    pub(crate) fn new(word: &'static str) -> Run {
        Run {
            word,
            places: None,
            tally: Tally::new(),
        }
    }

    /// Adds the counts of the next place. Where they differ from those before, the run so far is printed, and another
    /// begins.
    pub(crate) fn add(&mut self, place: usize, tally: Tally, case: &mut Case) {
        match self.places {
            Some((least, most)) if tally == self.tally => {
                self.places = Some((least.min(place), most.max(place)));
            }
            _ => {
                self.tell(case);
                self.places = Some((place, place));
                self.tally = tally;
            }
        }
    }

    /// Prints the run, where there is one.
    pub(crate) fn tell(&self, case: &mut Case) {
        if let Some((least, most)) = self.places {
            case.say(self.word, least);
            case.say(" to ", most);
            case.put(":");
            self.tally.tell(case);
        }
    }
}
