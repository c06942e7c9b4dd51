//! How many answers to Echos and ICMP errors of its own a gateway sends at a side in one second.

/// The most Echos that are answered at a side in one second.
pub const MOST_REPLIES: u8 = 100;

/// The most errors of its own that the gateway sends at a side in one second.
pub const MOST_ERRORS: u8 = 10;

/// The counts of the Echos that were answered and of the errors that were sent at a side in one
/// second of the clock, of 100 centiseconds.
#[derive(Clone, Copy, Debug, PartialEq, Eq)]
pub struct Tally {
    pub second: u64,
    pub replies: u8,
    pub errors: u8,
}

impl Tally {
    ghost use Rattle.std.specs.Prelude.{◌≡◌, true};
    ghost use Rattle.interfaces.specs.Tallies.{at_moment, complained, may_complain, may_reply, none_in, replied};

    /// Returns a tally in which nothing is counted yet.
    pub fn new() -> Tally
        ensures { result ≡ none_in 0 }
    {
        Tally {
            second: 0,
            replies: 0,
            errors: 0,
        }
    }

    /// Returns the tally at `now`: each second begins with zero counts.
    #[tactic(auto, unfolding(crate::specs::Tallies::at_moment))]
    fn at_moment(self, now: u64) -> Tally
        ensures { result ≡ at_moment now self }
    {
        let second = now / 100;
        if self.second == second {
            self
        } else {
            Tally {
                second,
                replies: 0,
                errors: 0,
            }
        }
    }

    /// Whether one more Echo may be answered at `now`.
    pub fn may_reply(self, now: u64) -> bool
        ensures { result ≡ may_reply now self }
    {
        self.at_moment(now).replies < MOST_REPLIES
    }

    /// Whether one more error may be sent at `now`.
    pub fn may_complain(self, now: u64) -> bool
        ensures { result ≡ may_complain now self }
    {
        self.at_moment(now).errors < MOST_ERRORS
    }

    /// Returns the tally after one more Echo was answered at `now`.
    pub fn replied(self, now: u64) -> Tally
        requires { may_reply now self ≡ true }
        ensures { result ≡ replied now self }
    {
        let tally = self.at_moment(now);
        Tally {
            second: tally.second,
            replies: tally.replies + 1,
            errors: tally.errors,
        }
    }

    /// Returns the tally after one more error was sent at `now`.
    pub fn complained(self, now: u64) -> Tally
        requires { may_complain now self ≡ true }
        ensures { result ≡ complained now self }
    {
        let tally = self.at_moment(now);
        Tally {
            second: tally.second,
            replies: tally.replies,
            errors: tally.errors + 1,
        }
    }
}
