//! The kinds of ICMP queries that are translated (RFC 792).
ghost use Rattle.std.specs.Prelude.{◌≡◌};
ghost use Rattle.icmp.specs.Query.{kind_number};

/// A kind of query that is translated: an Echo, or the Reply that answers it.
#[derive(Clone, Copy, Debug, PartialEq, Eq)]
pub enum Kind {
    Echo,
    Reply,
}

impl Kind {
    /// Returns the type of the kind's messages: 8 or 0.
    pub fn number(self) -> u8
        ensures { result ≡ kind_number self }
    {
        match self {
            Kind::Echo => 8,
            Kind::Reply => 0,
        }
    }
}
