//! A session in 16 bytes: its time in two halves, and its four marks in one number.
ghost use Rattle.std.specs.Prelude.{◌≡◌, ◌<◌, ◌+◌, ◌/◌, ◌%◌};
ghost use Rattle.activity.specs.Dues.{clipped};
ghost use Rattle.activity.specs.Packed.{moment_in, marks_in, session_in};
ghost use Rattle.activity.specs.Sessions.{has_passed_by, rest_of};

use crate::sessions::has_rested_since;
use crate::{Class, Marks, Remote, Session};
use addresses::{Ip, Port};

/// The number of values that half of a time has.
const HALF: u64 = 4_294_967_296;

/// A time in centiseconds, in two halves. An entry of a table has five such times, and nothing else in it is wider than
/// 32 bits, so that no bytes of padding are between its parts.
#[derive(Clone, Copy)]
pub(crate) struct Moment {
    low: u32,
    high: u32,
}

impl Moment {
    pub(crate) fn of(moment: u64) -> Moment
        ensures { moment_in result ≡ moment }
    {
        Moment {
            low: (moment % HALF) as u32,
            high: (moment / HALF) as u32,
        }
    }

    pub(crate) fn centiseconds(self) -> u64
        ensures { result ≡ moment_in self }
    {
        HALF * u64::from(self.high) + u64::from(self.low)
    }
}

/// A session in 16 bytes. A table has places for four with each of its entries.
#[derive(Clone, Copy)]
pub(crate) struct PackedSession {
    last: Moment,
    address: Ip,
    port: Port,
    class: Class,
    // The bits for a FIN outward, a FIN inward, a plain segment outward, and a plain segment inward, the lowest bit
    // first.
    marks: u8,
}

const _: () = prove!(size_of::<PackedSession>() == 16);

/// Returns the number of these marks, below 4.
fn number_of(marks: Marks) -> u8
    ensures value { marks_in result ≡ marks }
    ensures small { result < 4 }
{
    u8::from(marks.outward) + 2 * u8::from(marks.inward)
}

fn marks_of(number: u8) -> Marks
    ensures { result ≡ marks_in number }
{
    Marks {
        outward: number % 2 == 1,
        inward: number / 2 % 2 == 1,
    }
}

/// Joins two numbers of marks into one.
fn joined(first: u8, second: u8) -> u8
    requires first { first < 4 }
    requires second { second < 4 }
    ensures first { result % 4 ≡ first }
    ensures second { result / 4 ≡ second }
{
    first + 4 * second
}

impl PackedSession {
    /// The value of a place that has no session.
    pub(crate) const NONE: PackedSession = PackedSession {
        last: Moment { low: 0, high: 0 },
        address: Ip(0),
        port: Port(0),
        class: Class::Closed,
        marks: 0,
    };

    pub(crate) fn of(session: Session) -> PackedSession
        ensures { session_in result ≡ session }
    {
        PackedSession {
            last: Moment::of(session.last),
            address: session.remote.address,
            port: session.remote.port,
            class: session.class,
            marks: joined(number_of(session.fin), number_of(session.plain)),
        }
    }

    pub(crate) fn session(self) -> Session
        ensures { result ≡ session_in self }
    {
        Session {
            remote: self.remote(),
            class: self.class,
            fin: marks_of(self.marks % 4),
            plain: marks_of(self.marks / 4),
            last: self.last.centiseconds(),
        }
    }

    pub(crate) fn remote(self) -> Remote
        ensures { result ≡ (session_in self).remote }
    {
        Remote {
            address: self.address,
            port: self.port,
        }
    }

    /// Whether the session's limit has passed.
    pub(crate) fn has_passed(self, now: u64) -> bool
        ensures { result ≡ has_passed_by now (session_in self) }
    {
        has_rested_since(self.class.rest(), self.last.centiseconds(), now)
    }

    /// Returns the time at which the session's limit passes, in centiseconds, or `u64::MAX` where that is later.
    pub(crate) fn end(self) -> u64
        ensures { result ≡ clipped (moment_in self.last + rest_of self.class) }
    {
        self.last.centiseconds().saturating_add(self.class.rest())
    }
}
