//! One session of a TCP pair: what is known from its segments so far.
ghost use Rattle.std.specs.Prelude.{◌≡◌, ◌&&◌, ◌||◌, nat_le, ◌+◌, ◌-◌};
ghost use Rattle.activity.specs.Sessions.{is_closed, is_opening, first_class, rest_of, marked_if, are_both, noted, begun_session, stepped, has_rested};

use crate::packets::is_plain_segment;
use crate::{ESTABLISHED_REST, Packet, Remote, TRANSITORY_REST, Way};
use addresses::TcpFlags;

/// The class of a session (RFC 5382, section 2).
#[derive(Clone, Copy, Debug, PartialEq, Eq)]
pub enum Class {
    /// The session is partially open.
    Opening,
    /// Data may have passed both ways.
    Established,
    /// The session was reset, or closed by both ends.
    Closed,
}

/// The ways in which a kind of segment was carried.
#[derive(Clone, Copy, Debug, PartialEq, Eq)]
pub struct Marks {
    pub outward: bool,
    pub inward: bool,
}

/// What is known of a session from its segments. `last` is the time of the newest one, in
/// centiseconds.
#[derive(Clone, Copy, Debug, PartialEq, Eq)]
pub struct Session {
    pub remote: Remote,
    pub class: Class,
    pub fin: Marks,
    pub plain: Marks,
    pub last: u64,
}

impl Marks {
    /// The marks of a kind of segment that was carried neither way.
    pub const NONE: Marks = Marks {
        outward: false,
        inward: false,
    };

    fn marked_if(self, holds: bool, way: Way) -> Marks
        ensures { result ≡ marked_if holds way self }
    {
        match way {
            Way::Outward => Marks {
                outward: holds || self.outward,
                inward: self.inward,
            },
            Way::Inward => Marks {
                outward: self.outward,
                inward: holds || self.inward,
            },
        }
    }

    fn are_both(self) -> bool
        ensures { result ≡ are_both self }
    {
        self.outward && self.inward
    }
}

impl Class {
    fn is_closed(self) -> bool
        ensures { result ≡ is_closed self }
    {
        match self {
            Class::Closed => true,
            Class::Opening | Class::Established => false,
        }
    }

    fn is_opening(self) -> bool
        ensures { result ≡ is_opening self }
    {
        match self {
            Class::Opening => true,
            Class::Closed | Class::Established => false,
        }
    }

    /// Returns the class of a session whose first segment, which goes outward, has these flags.
    fn of_first(flags: TcpFlags) -> Class
        ensures { result ≡ first_class flags }
    {
        if flags.rst {
            Class::Closed
        } else if flags.syn {
            Class::Opening
        } else {
            Class::Established
        }
    }

    /// Returns the time for which a session of the class rests before its limit has passed, in
    /// centiseconds.
    pub(crate) fn rest(self) -> u64
        ensures { result ≡ rest_of self }
    {
        match self {
            Class::Opening | Class::Closed => TRANSITORY_REST,
            Class::Established => ESTABLISHED_REST,
        }
    }
}

/// Whether the rest `rest` has passed at `now`, counted from `since`, all in centiseconds.
pub(crate) fn has_rested_since(rest: u64, since: u64, now: u64) -> bool
    ensures { result ≡ has_rested rest since now }
{
    rest <= now.saturating_sub(since)
}

impl Session {
    /// Returns a session with its first segment.
    pub(crate) fn begun(segment: Packet) -> Session
        ensures { result ≡ begun_session segment }
    {
        let flags = segment.flags;
        Session {
            remote: segment.remote,
            class: Class::of_first(flags),
            fin: Marks::NONE.marked_if(flags.fin, segment.way),
            plain: Marks::NONE.marked_if(is_plain_segment(flags), segment.way),
            last: segment.at,
        }
    }

    /// Returns the session with a segment's marks and time added.
    fn noted(self, segment: Packet) -> Session
        ensures { result ≡ noted self segment }
    {
        let flags = segment.flags;
        Session {
            remote: self.remote,
            class: self.class,
            fin: self.fin.marked_if(flags.fin, segment.way),
            plain: self.plain.marked_if(is_plain_segment(flags), segment.way),
            last: segment.at,
        }
    }

    /// Returns the session with one more segment: RST counts first, then SYN in Closed, then FIN
    /// both ways.
    pub(crate) fn stepped(self, segment: Packet) -> Session
        ensures { result ≡ stepped self segment }
    {
        let noted = self.noted(segment);
        if segment.flags.rst {
            Session {
                class: Class::Closed,
                ..noted
            }
        } else if self.class.is_closed() && segment.flags.syn {
            Session {
                class: Class::Opening,
                fin: Marks::NONE,
                plain: Marks::NONE,
                ..noted
            }
        } else if noted.fin.are_both() {
            Session {
                class: Class::Closed,
                ..noted
            }
        } else if self.class.is_opening() && noted.plain.are_both() {
            Session {
                class: Class::Established,
                ..noted
            }
        } else {
            noted
        }
    }
}
