//! The sessions that a pair keeps, and the place of a packet's session among them.
ghost use Rattle.std.specs.Prelude.{◌≡◌, ◌+◌, ◌<◌, ◌≤◌, ◌++◌, ◌∷◌, ◌&&◌, [], ℕ, not, length, position, slice_set, IfSome, if◌then◌else◌};
ghost use Rattle.activity.specs.Packets.{same_remote, is_loose_by};
ghost use Rattle.activity.specs.Places.{is_nowhere};
ghost use Rattle.activity.specs.Sessions.{has_passed_by};
ghost use Rattle.activity.specs.Kept.{has_session, session_place, with_session};
ghost use Rattle.activity.specs.Dues.{clipped};
ghost use Rattle.activity.specs.Packed.{session_in, all_sessions, sessions_in, is_known_among, place_among, FitsAmong, have_passed, end_of};

use crate::packed::PackedSession;
use crate::packets::{can_begin, is_that_remote};
use crate::{MAX_SESSIONS, Packet, Remote, Session};

/// The place of a packet's session.
#[derive(Clone, Copy, Debug, PartialEq, Eq)]
pub(crate) enum Place {
    /// The session is kept in this place.
    Known(usize),
    /// The session is new, and there is a free place.
    Free,
    /// The session is new, and takes this place, whose session's limit has passed.
    Passed(usize),
    /// The session is new, and there is no place for it.
    Nowhere,
}

fn known(kept: &[PackedSession], packet: Packet) -> Option<usize>
    ensures first { result ≡ position (λ k. same_remote (session_in k).remote packet.remote)
        kept.now }
    ensures within { IfSome result (λ i. i < length kept.now) }
{
    kept.iter()
        .position(|session| is_that_remote(session.remote(), packet.remote))
}

fn passed(kept: &[PackedSession], now: u64) -> Option<usize>
    ensures first { result ≡ position (λ k. has_passed_by now (session_in k)) kept.now }
    ensures within { IfSome result (λ i. i < length kept.now) }
{
    kept.iter().position(|session| session.has_passed(now))
}

fn place_among(kept: &[PackedSession], packet: Packet) -> Place
    ensures place { result ≡ place_among packet kept.now }
    ensures within { FitsAmong (length kept.now) result }
{
    if let Some(i) = known(kept, packet) {
        return Place::Known(i);
    }
    if kept.len() < MAX_SESSIONS {
        return Place::Free;
    }
    match passed(kept, packet.at) {
        Some(i) => Place::Passed(i),
        None => Place::Nowhere,
    }
}

fn is_known(kept: &[PackedSession], remote: Remote) -> bool
    ensures { result ≡ is_known_among remote kept.now }
{
    kept.iter()
        .any(|session| is_that_remote(session.remote(), remote))
}

/// Whether a segment is loose: its remote host has none of these sessions, and it begins none. `has_carried` says
/// whether the pair carried a packet before it since its life began.
#[tactic(auto, using(crate::proofs::Packing::known_seen))]
pub(crate) fn is_loose(kept: &[PackedSession], has_carried: bool, packet: Packet) -> bool
    ensures { result ≡ is_loose_by (has_session packet.remote (all_sessions kept.now))
        has_carried packet }
{
    !can_begin(has_carried, packet) && !is_known(kept, packet.remote)
}

/// Puts a session in a place.
fn put(places: &mut [PackedSession; MAX_SESSIONS], place: usize, session: Session)
    requires { place < length places.old }
    ensures kept { (count : ℕ) → place < count → sessions_in count places.new
        ≡ slice_set (sessions_in count places.old) place session }
    ensures more { sessions_in (place + 1) places.new
        ≡ sessions_in place places.old ++ session ∷ [] }
{
    places[place] = PackedSession::of(session);
}

/// Adds a packet to its session, and returns whether there was no place for the session.
fn follow(places: &mut [PackedSession; MAX_SESSIONS], count: &mut u8, packet: Packet) -> bool
    requires few { count.old ≤ 4 }
    ensures few { count.new ≤ 4 }
    ensures sessions { sessions_in count.new places.new
        ≡ with_session packet (sessions_in count.old places.old) }
    ensures nowhere { result
        ≡ is_nowhere (session_place packet (sessions_in count.old places.old)) }
{
    let kept = usize::from(*count);
    match place_among(&places[..kept], packet) {
        Place::Known(i) => {
            let session = places[i].session();
            put(places, i, session.stepped(packet));
            false
        }
        Place::Free => {
            put(places, kept, Session::begun(packet));
            *count += 1;
            false
        }
        Place::Passed(i) => {
            put(places, i, Session::begun(packet));
            false
        }
        Place::Nowhere => true,
    }
}

/// Adds a segment to its session, unless it is loose, and returns whether there was no place for the session.
pub(crate) fn follow_unless(
    is_loose: bool,
    places: &mut [PackedSession; MAX_SESSIONS],
    count: &mut u8,
    packet: Packet,
) -> bool
    requires few { count.old ≤ 4 }
    ensures few { count.new ≤ 4 }
    ensures sessions { sessions_in count.new places.new
        ≡ (if is_loose then sessions_in count.old places.old
        else with_session packet (sessions_in count.old places.old)) }
    ensures nowhere { result
        ≡ (not is_loose && is_nowhere (session_place packet (sessions_in count.old places.old))) }
{
    if is_loose {
        false
    } else {
        follow(places, count, packet)
    }
}

/// Whether the limit of every session has passed.
pub(crate) fn have_all_passed(kept: &[PackedSession], now: u64) -> bool
    ensures { result ≡ have_passed now kept.now }
{
    kept.iter().all(|session| session.has_passed(now))
}

/// Returns the time at which the last of the sessions passes its limit, in centiseconds, or
/// `u64::MAX` where that is later.
pub(crate) fn end_of_all(kept: &[PackedSession]) -> u64
    ensures { result ≡ clipped (end_of kept.now) }
{
    let mut end = 0u64;
    for session in kept.iter() {
        end = end.max(session.end());
    }
    end
}
