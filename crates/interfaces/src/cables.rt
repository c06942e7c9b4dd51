//! The state of a side's cable.
ghost use Rattle.std.specs.Prelude.{◌≡◌};
ghost use Rattle.interfaces.specs.Cables.{is_in, is_whole, plugged};

/// How long a cable must be in until its side counts as whole again, in centiseconds.
pub const WHOLE_AFTER: u64 = 300;

/// The state of a side's cable: out, or in and since when.
#[derive(Clone, Copy, Debug, PartialEq, Eq)]
pub enum Cable {
    /// The cable is out.
    Out,
    /// The cable came in at this time, or at None where it has been in since the gateway began.
    In(Option<u64>),
}

impl Cable {
    /// Whether the cable is in.
    pub fn is_in(self) -> bool
        ensures { result ≡ is_in self }
    {
        match self {
            Cable::Out => false,
            Cable::In(_) => true,
        }
    }

    /// Whether the cable is in, and didn't come in less than `WHOLE_AFTER` centiseconds ago.
    pub fn is_whole(self, now: u64) -> bool
        ensures { result ≡ is_whole self now }
    {
        match self {
            Cable::Out => false,
            Cable::In(None) => true,
            Cable::In(Some(since)) => now.saturating_sub(since) >= WHOLE_AFTER,
        }
    }

    /// Returns the cable after it is reported in (`up`) or out at `now`. Nothing changes where the
    /// cable is so already.
    pub fn plugged(self, up: bool, now: u64) -> Cable
        ensures { result ≡ plugged self up now }
    {
        match (self, up) {
            (_, false) => Cable::Out,
            (Cable::Out, true) => Cable::In(Some(now)),
            (Cable::In(since), true) => Cable::In(since),
        }
    }
}
