//! The life of a pair in a table: what must be known of the pair to tell whether it is idle.
ghost use Rattle.std.specs.Prelude.{◌≡◌, ◌+◌, ◌||◌, if◌then◌else◌};
ghost use Rattle.addresses.specs.declared.transport.Protocol.{Protocol as Transport};
ghost use Rattle.activity.specs.Lives.{History, Agrees, came, with_packet, renewed, is_idle, looks_idle, is_unused, is_empty, life_begun, life_carried, life_renewed, counts_at};
ghost use Rattle.activity.specs.Lives.{least_rest};
ghost use Rattle.activity.specs.Sessions.{has_rested};
ghost use Rattle.activity.specs.Packed.{moment_in, have_passed, end_of};
ghost use Rattle.activity.specs.Dues.{due_moment, clipped};

use crate::packed::{Moment, PackedSession};
use crate::packets::sets_last;
use crate::places::{end_of_all, follow_unless, have_all_passed, is_loose};
use crate::sessions::has_rested_since;
use crate::{ESTABLISHED_REST, MAX_SESSIONS, Packet, QUERY_REST, TRANSITORY_REST, UDP_REST};
use addresses::Protocol;
use std::marker::Model;

/// What a pair's entry keeps of the packets that the pair carried: four sessions at most, the time of the last use, and
/// three flags.
#[derive(Drop)]
pub struct Activity {
    last: Moment,
    // The first `count` places have sessions.
    places: [PackedSession; MAX_SESSIONS],
    count: u8,
    is_unused: bool,
    has_carried: bool,
    is_crowded: bool,
}

// Each entry of a table has an `Activity`.
const _: () = prove!(size_of::<Activity>() == 76);

impl Model for Activity {
    ghost use Rattle.std.specs.Prelude.{◌≤◌};
    ghost use Rattle.activity.specs.Lives.{Activity as Seen};
    ghost use Rattle.activity.specs.Packed.{moment_in, sessions_in};

    ghost Value = { Seen };

    ghost view = { λ l. record {
      last = moment_in l.last;
      is_unused = l.is_unused;
      has_carried = l.has_carried;
      is_crowded = l.is_crowded;
      sessions = sessions_in l.count l.places;
    } };

    ghost invariant = { λ l. l.count ≤ 4 };
}

/// Returns the least time for which a pair of a protocol rests before it is idle, in centiseconds. A pair without
/// sessions rests for exactly that time.
fn least_rest(protocol: Protocol) -> u64
    ensures { result ≡ least_rest protocol }
{
    match protocol {
        Protocol::Icmp => QUERY_REST,
        Protocol::Tcp => TRANSITORY_REST,
        Protocol::Udp => UDP_REST,
    }
}

/// Whether a TCP pair with these sessions is idle.
fn is_tcp_idle(kept: &[PackedSession], is_crowded: bool, last: u64, now: u64) -> bool
    ensures { result ≡ (if is_crowded || is_empty kept.now
        then has_rested ESTABLISHED_REST last now else have_passed now kept.now) }
{
    if is_crowded || kept.is_empty() {
        has_rested_since(ESTABLISHED_REST, last, now)
    } else {
        have_all_passed(kept, now)
    }
}

/// Returns the time from which a TCP pair with these sessions is idle, in centiseconds, or `u64::MAX` where that is
/// later.
fn tcp_due(kept: &[PackedSession], is_crowded: bool, last: u64) -> u64
    ensures { result ≡ clipped
        (if is_crowded || is_empty kept.now then last + ESTABLISHED_REST else end_of kept.now) }
{
    if is_crowded || kept.is_empty() {
        last.saturating_add(ESTABLISHED_REST)
    } else {
        end_of_all(kept)
    }
}

/// Returns the time of the last use after a packet at `at`, which sets it or not.
fn later(sets_last: bool, at: u64, last: Moment) -> Moment
    ensures { moment_in result ≡ (if sets_last then at else moment_in last) }
{
    if sets_last { Moment::of(at) } else { last }
}

impl Activity {
    /// Returns the life of a pair that comes into a table at `now`, by Install or otherwise.
    pub fn begin(by_install: bool, now: u64) -> Activity
        ensures agrees { (protocol : Transport) → Agrees protocol (came by_install now) result }
        ensures exact { result ≡ life_begun by_install now }
    {
        Activity {
            last: Moment::of(now),
            places: [PackedSession::NONE; MAX_SESSIONS],
            count: 0,
            is_unused: by_install,
            has_carried: false,
            is_crowded: false,
        }
    }

    /// Adds a packet that the pair carried, and returns whether the use that the packet makes counts.
    pub fn carried(&mut self, protocol: Protocol, packet: Packet) -> bool
        ensures counts { result ≡ counts_at protocol self.old packet }
        ensures agrees { (past : History) → Agrees protocol past self.old
            → Agrees protocol (with_packet packet past) self.new }
        ensures exact { self.new ≡ life_carried protocol packet self.old }
    {
        let kept = &self.places[..usize::from(self.count)];
        let is_loose = is_loose(kept, self.has_carried, packet);
        let sets_last = sets_last(protocol, is_loose, packet);
        self.last = later(sets_last, packet.at, self.last);
        self.is_unused = false;
        self.has_carried = true;
        match protocol {
            Protocol::Icmp | Protocol::Udp => sets_last,
            Protocol::Tcp => {
                let nowhere = follow_unless(is_loose, &mut self.places, &mut self.count, packet);
                self.is_crowded |= nowhere;
                !is_loose
            }
        }
    }

    /// Begins the life anew at `now`, with an empty list of packets.
    pub fn renew(&mut self, now: u64)
        ensures agrees { (protocol : Transport) → (past : History) → Agrees protocol past self.old
            → Agrees protocol (renewed now past) self.new }
        ensures exact { self.new ≡ life_renewed now self.old }
    {
        self.last = Moment::of(now);
        self.has_carried = false;
        self.count = 0;
        self.is_crowded = false;
    }

    /// Whether the pair is idle at `now`.
    pub fn is_idle(&self, protocol: Protocol, now: u64) -> bool
        ensures idle { (past : History) → Agrees protocol past self.now → result
            ≡ is_idle protocol past now }
        ensures exact { result ≡ looks_idle protocol self.now now }
    {
        let last = self.last.centiseconds();
        let kept = &self.places[..usize::from(self.count)];
        match protocol {
            Protocol::Icmp | Protocol::Udp => has_rested_since(least_rest(protocol), last, now),
            Protocol::Tcp => is_tcp_idle(kept, self.is_crowded, last, now),
        }
    }

    /// Returns the time from which the pair is idle if it carries nothing more, in centiseconds, or `u64::MAX` where
    /// that is later.
    pub fn due(&self, protocol: Protocol) -> u64
        ensures { result ≡ clipped (due_moment protocol self.now) }
    {
        let last = self.last.centiseconds();
        let kept = &self.places[..usize::from(self.count)];
        match protocol {
            Protocol::Icmp | Protocol::Udp => last.saturating_add(least_rest(protocol)),
            Protocol::Tcp => tcp_due(kept, self.is_crowded, last),
        }
    }

    /// Whether the pair came by Install and carried nothing since.
    pub fn is_unused(&self) -> bool
        ensures unused { (protocol : Transport) → (past : History) → Agrees protocol past self.now
            → result ≡ is_unused past }
        ensures exact { result ≡ self.now.is_unused }
    {
        self.is_unused
    }
}
